//! Where blocks come from and go back to, by one thread.

ghost use Rattle.std.specs.Prelude.{◌≡◌, length, map};
ghost use Rattle.zp_share.specs.Shares.{IsShareOf, key_of};
ghost use Rattle.zp_zone.specs.Seats.{Agrees, IsSeatOf};

use crate::errors::Broken;
use crate::text::{Lists, PAGES, Text};
use std::alloc::Global;
use zp_model::{Largest, Mark, MigrateType, Order};
use zp_office::opened;
use zp_replay::parse_trace;
use zp_share::{Lent, PlainZones, Share, Zones, alloc, drain_all, free};
use zp_zone::{Seat, Zone, ZoneConfig};

/// Blocks of zones of `PAGES` pages, with nothing lent at first.
pub trait BlockSource: Drop {
    fn new(alloc: Global) -> Result<Self, Broken>;

    /// How many pages all zones have.
    fn pages(&self) -> u64;

    /// A block of this order for this type.
    fn take(&mut self, order: Order, kind: MigrateType) -> Option<Lent>;

    /// The lowest block of this order.
    fn take_low(&mut self, order: Order) -> Option<Lent>;

    /// Gives a block back, where it is lent.
    fn give(&mut self, lent: &Lent);

    /// The pageblock of this number is isolated and released: whether both were done.
    fn isolate_and_release(&mut self, pageblock: u32, kind: MigrateType) -> bool;

    /// What lies on lists comes back: how many pages.
    fn drain(&mut self) -> usize;

    /// How many pages are free.
    fn free_pages(&mut self) -> u64;
}

/// A zone of all pages that a zone can have, with no marks.
pub fn config() -> ZoneConfig<'static> {
    ZoneConfig {
        name: "Normal",
        base: 0,
        pages: PAGES,
        min: 0,
        largest: Largest::usual(),
    }
}

/// One zone, by its one seat.
#[derive(Drop)]
pub struct Seated {
    zone: Zone,
    seat: Seat,
    ghost fits: { IsSeatOf zone seat },
    ghost agrees: { Agrees zone seat },
}

impl BlockSource for Seated {
    fn new(alloc: Global) -> Result<Seated, Broken> {
        let (mut zone, mut seats) = Zone::new(alloc, config(), 1)?;
        let Some(mut seat) = seats.pop() else {
            return Err(Broken::Memory);
        };
        zone.check(&mut seat);
        Ok(Seated { zone, seat })
    }

    fn pages(&self) -> u64 {
        u64::from(PAGES)
    }

    fn take(&mut self, order: Order, kind: MigrateType) -> Option<Lent> {
        match self.zone.alloc(&mut self.seat, order, kind, Mark::Any) {
            Ok(page) => Some(Lent {
                zone: 0,
                page,
                order,
            }),
            Err(_) => None,
        }
    }

    fn take_low(&mut self, order: Order) -> Option<Lent> {
        match self.zone.alloc_low(&mut self.seat, order) {
            Ok(block) => Some(Lent {
                zone: 0,
                page: block.page,
                order,
            }),
            Err(_) => None,
        }
    }

    fn give(&mut self, lent: &Lent) {
        let (page, order) = (lent.page, lent.order);
        if self.zone.held_by(&self.seat, page, order) {
            self.zone.free(&mut self.seat, page, order);
        }
    }

    fn isolate_and_release(&mut self, pageblock: u32, kind: MigrateType) -> bool {
        let isolated = self.zone.isolate(&mut self.seat, pageblock);
        let released = self.zone.release(&mut self.seat, pageblock, kind);
        isolated.is_ok() && released.is_ok()
    }

    fn drain(&mut self) -> usize {
        0
    }

    fn free_pages(&mut self) -> u64 {
        u64::from(self.zone.counts().free)
    }
}

/// How many zones a row has.
const ZONES: usize = 4;

/// A row of zones with marks, by its one worker's lists: the highest zone is asked, and the others where it does not give.
#[derive(Drop)]
pub struct Row {
    zones: PlainZones,
    share: Share,
    ghost fits: { IsShareOf (map key_of zones) share },
    ghost many: { length share.zones ≡ 4 },
}

/// The zone that is asked.
const ASKED: usize = ZONES - 1;

/// How many pages each zone keeps back.
const MIN: u32 = 512;

impl BlockSource for Row {
    fn new(alloc: Global) -> Result<Row, Broken> {
        let mut text = Text::new(alloc)?;
        text.header(ZONES, MIN, 1, Lists::Longest)?;
        let trace = parse_trace(alloc, text.as_bytes())?;
        let (zones, mut shares) = opened(alloc, &trace.header)?;
        let Some(share) = shares.pop() else {
            return Err(Broken::Memory);
        };
        if share.zones() != ZONES {
            return Err(Broken::Trace);
        }
        Ok(Row {
            zones: PlainZones::new(zones),
            share,
        })
    }

    fn pages(&self) -> u64 {
        ZONES as u64 * u64::from(PAGES)
    }

    fn take(&mut self, order: Order, kind: MigrateType) -> Option<Lent> {
        let Row { zones, share, .. } = self;
        alloc(share, zones, order, kind, ASKED, Mark::Low).ok()
    }

    fn take_low(&mut self, order: Order) -> Option<Lent> {
        let Row { zones, share, .. } = self;
        match zones.alloc_low(share, ASKED, order) {
            Ok(block) => Some(Lent {
                zone: ASKED,
                page: block.page,
                order,
            }),
            Err(_) => None,
        }
    }

    fn give(&mut self, lent: &Lent) {
        let Row { zones, share, .. } = self;
        if lent.zone < ZONES {
            let _ = free(share, zones, lent.zone, lent.page, lent.order);
        }
    }

    fn isolate_and_release(&mut self, pageblock: u32, kind: MigrateType) -> bool {
        let Row { zones, share, .. } = self;
        let isolated = zones.isolate(share, ASKED, pageblock);
        let released = zones.release(share, ASKED, pageblock, kind);
        isolated.is_ok() && released.is_ok()
    }

    fn drain(&mut self) -> usize {
        let Row { zones, share, .. } = self;
        drain_all(share, zones).unwrap_or(0)
    }

    fn free_pages(&mut self) -> u64 {
        let mut pages = 0u64;
        for zone in self.zones.as_slice() {
            pages = pages.saturating_add(u64::from(zone.counts().free));
        }
        pages
    }
}
