//! A zone with its one seat: its creation, and what it reports.
ghost use Rattle.std.specs.Prelude.{◌≡◌, ◌<◌, ◌↔◌, [], IfErr, IfOk, IfSome, IsSome, OnOk, length};
ghost use Rattle.zp_model.specs.Area.{pageblocks_of};
ghost use Rattle.zp_model.specs.Block.{size};
ghost use Rattle.zp_model.specs.Info.{counts_by_type, counts_of};
ghost use Rattle.zp_model.specs.Lawful.{IsLawful};
ghost use Rattle.zp_model.specs.Mark.{level_of};
ghost use Rattle.zp_model.specs.Naming.{IsName};
ghost use Rattle.zp_model.specs.Run.{IsHistory, is_out};
ghost use Rattle.zp_model.specs.Runs.{may_free_run};
ghost use Rattle.zp_model.specs.Zone.{pages_of, zone_opening};
ghost use Rattle.zp_zone.specs.Making.{IsWideGood, IsWideWhy, wanted};
ghost use Rattle.zp_zone.specs.NamedZone.{IsPageOf, IsPageblockOf, IsToldOf};
ghost use Rattle.zp_open_room.specs.Rooms.{AddsUp, totals_of};

mod blocks;
mod pageblocks;
mod runs;

use crate::room_totals::RoomTotals;
use std::alloc::Global;
use std::marker::Model;
use zp_model::{Counts, CountsByType, Largest, Level, Order, PageNo, Refused};
use zp_zone::{Pageblock, Seat, Zone, ZoneConfig, ZonePage};

/// A zone, and the seat of its one worker, in whose name all blocks are out that are out. Contracts see the zone and the worker's number.
#[derive(Drop)]
pub struct OpenRoom {
    zone: Zone,
    seat: Seat,
}

impl Model for OpenRoom {
    ghost use Rattle.zp_open_room.specs.Rooms.{IsRoom, RoomState};

    ghost Value = { RoomState };

    ghost view = { λ r. record { zone = r.zone; worker = r.seat.worker } };

    ghost invariant = { λ r. IsRoom r.zone r.seat };
}

impl OpenRoom {
    /// A room with all pages of its zone free, whose one worker is number 0. Its bounds are those of a wide zone: at most 16,777,216 pages,
    /// and a base of at most 2^30. Refused 1 to 4 where the config is wrong, the least number that applies, and 6 where it is not and there
    /// is no memory.
    pub fn new(alloc: Global, config: ZoneConfig<'_>) -> Result<OpenRoom, Refused>
        ensures good { OnOk result (IsWideGood (wanted config.entry.name.now config.entry.base config.entry.pages config.entry.min 1)) }
        ensures why { IfErr result (IsWideWhy (wanted config.entry.name.now config.entry.base config.entry.pages config.entry.min 1)) }
        ensures zone { IfOk result (λ r. r.zone ≡ record { tie = r.zone.tie; name = config.entry.name.now; plain = zone_opening config.entry.largest config.entry.base config.entry.pages config.entry.min 1; entries = [] }) }
        ensures worker { IfOk result (λ r. r.worker ≡ 0) }
    {
        let (zone, mut seats) = Zone::wide(alloc, ZoneConfig { ..config }, 1)?;
        let Some(seat) = seats.pop() else {
            unreachable!()
        };
        Ok(OpenRoom { zone, seat })
    }

    /// Whether a block of this order is out at this page: `put_block` is then granted.
    pub fn is_out(&self, page: PageNo, order: Order) -> bool
        ensures { result ≡ is_out self.now.zone.plain self.now.worker page order }
    {
        self.zone.held_by(&self.seat, page, order)
    }

    /// Whether each of so many pages from this one on, one at least, is out, by whatever blocks: `put_run` is then granted.
    pub fn is_run_out(&self, page: PageNo, pages: u32) -> bool
        ensures { result ≡ may_free_run self.now.zone.plain self.now.worker page pages }
    {
        self.zone.run_held_by(&self.seat, page, pages)
    }

    /// The zone's name.
    pub fn name(&self) -> &str
        ensures name { result.now ≡ self.now.zone.name }
        ensures named { IsName result.now }
    {
        self.zone.name()
    }

    /// The order of the zone's largest block, and of its pageblocks.
    pub fn largest(&self) -> Largest
        ensures { result ≡ self.now.zone.plain.area.largest }
    {
        self.zone.largest()
    }

    /// How many pages the zone has.
    pub fn pages(&self) -> u32
        ensures { result ≡ pages_of self.now.zone.plain }
    {
        self.zone.pages()
    }

    /// What the zone reports of an absolute page, where the page is one of its own.
    pub fn page(&self, page: PageNo) -> Option<ZonePage>
        ensures when { IsSome result ↔ IsPageOf self.now.zone.plain page }
        ensures described { IfSome result (λ e. IsToldOf self.now.zone.plain page e.state e.back e.forward) }
    {
        self.zone.entry(page)
    }

    /// What the zone reports of the pageblock of this number, from 0 on, where it has one.
    pub fn pageblock(&self, pageblock: u32) -> Option<Pageblock>
        ensures when { IsSome result ↔ (pageblock < pageblocks_of self.now.zone.plain.area.largest (pages_of self.now.zone.plain)) }
        ensures told { IfSome result (IsPageblockOf self.now.zone.plain pageblock) }
    {
        self.zone.pageblock(pageblock)
    }

    /// How many free blocks of each order there are, and how many free pages. Each zone is lawful.
    pub fn counts(&self) -> Counts
        ensures counts { result ≡ counts_of self.now.zone.plain.area.largest self.now.zone.plain.area.free }
        ensures lawful { IsLawful self.now.zone.plain }
    {
        self.zone.counts()
    }

    /// How many free blocks of each order there are in the pageblocks of each type, and how many pageblocks of each type.
    pub fn counts_by_type(&self) -> CountsByType
        ensures { result ≡ counts_by_type self.now.zone.plain.area.largest self.now.zone.plain.area.free self.now.zone.plain.area.kinds }
    {
        self.zone.counts_by_type()
    }

    /// How many pages are free.
    pub fn free_pages(&self) -> u32
        ensures { result ≡ size self.now.zone.plain.area.free }
    {
        self.zone.counts().free
    }

    /// The highest mark that the free pages outside isolated pageblocks are above.
    pub fn level(&self) -> Level
        ensures { result ≡ level_of self.now.zone.plain }
    {
        self.zone.level()
    }

    /// Does nothing: the zone is the run of its entries, which are a legal history from its opening.
    pub fn history(&self)
        ensures { IsHistory self.now.zone.plain self.now.zone.entries }
    {
        self.zone.history();
    }

    /// Where the pages of the zone are: each is free or in one block that is out, and each such block is out in the one name.
    #[tactic(auto, using(crate::proofs::Totals::adds_up))]
    pub fn gather(&self) -> RoomTotals
        ensures totals { result ≡ totals_of self.now }
        ensures adds_up { AddsUp self.now }
        ensures history { IsHistory self.now.zone.plain self.now.zone.entries }
    {
        self.zone.history();
        let pages = self.zone.pages();
        let free = self.zone.counts().free;
        // nothing is posted, so what is not free is out
        RoomTotals {
            free,
            out: pages - free,
        }
    }
}
