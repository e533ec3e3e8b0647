//! A worker's share of one zone: blocks through its lists, or past them.

ghost use Rattle.std.specs.Prelude.{◌≡◌, length, map};
ghost use Rattle.zp_share.specs.Shares.{IsShareOf, key_of};

use crate::source::{LoadSource, config};
use crate::unmade::Unmade;
use std::alloc::Global;
use zp_model::{Mark, MigrateType, Order, PageNo};
use zp_share::{ListConfig, PlainZones, Share, Zones, alloc, free};
use zp_zone::Zone;

/// How many pages a refill asks for.
const BATCH: u8 = 31;

/// How many pages a list has at most.
const HIGH_LEN: u8 = 64;

/// The longest settings of lists.
pub fn longest_lists() -> Result<ListConfig, Unmade> {
    ListConfig::new(BATCH, HIGH_LEN).ok_or(Unmade::Other)
}

/// A row of one zone, and the share of its one worker, whose lists are empty at first.
#[derive(Drop)]
struct Hand {
    zones: PlainZones,
    share: Share,
    ghost fits: { IsShareOf (map key_of zones) share },
    ghost one: { length share.zones ≡ 1 },
}

impl Hand {
    /// Over a zone of so many pages, marks 0, with lists of the longest settings.
    fn new(alloc: Global, pages: u32) -> Result<Hand, Unmade> {
        let mut zones = Vec::with_capacity(alloc, 1)?;
        let (zone, seats) = Zone::wide(alloc, config(pages), 1)?;
        zones.push_reserved(zone);
        let share = Share::new(alloc, seats, longest_lists()?)?;
        Ok(Hand {
            zones: PlainZones::new(zones),
            share,
        })
    }
}

/// Single pages by the worker's lists, larger blocks past them.
#[derive(Drop)]
pub struct Cached(Hand);

impl LoadSource for Cached {
    fn new(alloc: Global, pages: u32) -> Result<Cached, Unmade> {
        Ok(Cached(Hand::new(alloc, pages)?))
    }

    fn take(&mut self, order: Order, kind: MigrateType) -> Option<PageNo> {
        let Hand { zones, share, .. } = &mut self.0;
        match alloc(share, zones, order, kind, 0, Mark::Any) {
            Ok(lent) => Some(lent.page),
            Err(_) => None,
        }
    }

    fn give(&mut self, page: PageNo, order: Order) {
        let Hand { zones, share, .. } = &mut self.0;
        let _ = free(share, zones, 0, page, order);
    }
}

/// All blocks past the worker's lists: each request is one section with the zone. What stands on a list was put there by hand.
#[derive(Drop)]
pub struct PastLists(Hand);

impl LoadSource for PastLists {
    fn new(alloc: Global, pages: u32) -> Result<PastLists, Unmade> {
        Ok(PastLists(Hand::new(alloc, pages)?))
    }

    fn take(&mut self, order: Order, kind: MigrateType) -> Option<PageNo> {
        let Hand { zones, share, .. } = &mut self.0;
        zones.alloc_block(share, 0, order, kind, Mark::Any).ok()
    }

    fn give(&mut self, page: PageNo, order: Order) {
        let Hand { zones, share, .. } = &mut self.0;
        let _ = zones.free_block(share, 0, page, order);
    }
}

impl PastLists {
    /// Takes the lowest block of this order: its first page.
    pub fn take_low(&mut self, order: Order) -> Option<PageNo> {
        match self.0.zones.alloc_low(&mut self.0.share, 0, order) {
            Ok(block) => Some(block.page),
            Err(_) => None,
        }
    }

    /// Puts a lent page on the list of its type, where there is room.
    pub fn put(&mut self, page: PageNo) {
        let _ = self.0.share.put_cached(0, page);
    }

    /// Fills the list of this type, where it is empty: how many pages it has then.
    pub fn refill(&mut self, kind: MigrateType) -> usize {
        let share = &mut self.0.share;
        if share.cached_len(0, kind) == 0 && share.lists().batch() != 0 {
            let _ = self.0.zones.refill(share, 0, kind, Mark::Any);
        }
        self.0.share.cached_len(0, kind)
    }

    /// Frees all pages of the list of this type, in one section: how many they were.
    pub fn drain(&mut self, kind: MigrateType) -> usize {
        let share = &mut self.0.share;
        let count = share.cached_len(0, kind);
        if count != 0 {
            let _ = self.0.zones.drain(share, 0, kind, count);
        }
        count
    }
}
