//! A zone and its seats: its creation, and what it reports.
//!
//! In Linux: `struct zone`.
ghost use Rattle.std.specs.Prelude.{◌≡◌, ◌<◌, ◌≤◌, ◌+◌, ◌-◌, ℕ, All, [], length, IfOk, IfErr, IfSome, IsSome, OnOk, ◌↔◌};
ghost use Rattle.zp_model.specs.Block.{size};
ghost use Rattle.zp_model.specs.Choose.{origin};
ghost use Rattle.zp_model.specs.Zone.{zone_opening, pages_of, posted_pages, workers_of};
ghost use Rattle.zp_model.specs.Mark.{level_of};
ghost use Rattle.zp_model.specs.Info.{counts_by_type, counts_of};
ghost use Rattle.zp_model.specs.Run.{IsHistory, is_out};
ghost use Rattle.zp_model.specs.Runs.{may_free_run};
ghost use Rattle.zp_model.specs.Lawful.{IsLawful};
ghost use Rattle.zp_model.specs.Books.{type_of_page};
ghost use Rattle.zp_model.specs.Naming.{IsName};
ghost use Rattle.zp_model.specs.Area.{pageblocks_of};
ghost use Rattle.zp_zone.specs.NamedZone.{IsPageOf, IsPageblockOf, IsToldOf};
ghost use Rattle.zp_zone.specs.Seats.{IsSeatOf, IsUnused, Agrees, books, has, has_run, seats_of};
ghost use Rattle.zp_zone.specs.Making.{wanted, AreBounds, IsGood, IsGoodWithin, IsWhy, IsWhyWithin, IsWideGood, IsWideWhy};

mod asking;
mod batches;
mod blocks;
mod pageblocks;
mod runs;

use crate::books::{Books, Opens, Part, Parts};
use crate::config::{NARROW, WIDE, ZoneBounds, ZoneConfig};
use crate::page::ZonePage;
use crate::pageblock::Pageblock;
use crate::seat::{Seat, seats};
use crate::untied_zone::UntiedZone;
pub use asking::page_reply;
use std::alloc::Global;
use std::marker::Model;
use zp_model::{
    Counts, CountsByType, LONGEST_NAME, Largest, Level, MAX_PAGES, MigrateType, Order, Origin,
    PageAt, PageNo, Refused,
};
use zp_tie::Keeper;

/// A zone: pages that workers allocate and free, each by its seat. Contracts see its name, the plain zone, which is always
/// lawful, the entries of all requests made so far, and what ties its seats to it.
pub struct Zone {
    untied: UntiedZone,
    keeper: Keeper<Books, Part, Parts>,
}

/// Written out, so that it is one call wherever a zone is dropped.
impl Drop for Zone {
    fn drop(self) {
        let Zone {
            untied: _untied,
            keeper: _keeper,
        } = self;
    }
}

impl Model for Zone {
    ghost use Rattle.std.specs.Prelude.{◌≡◌};
    ghost use Rattle.zp_zone.specs.Seats.{ZoneState, KeepsBooks};

    ghost Value = { ZoneState };

    ghost view = { λ z. record { tie = z.keeper.tie; name = z.untied.name; plain = z.untied.plain; entries = z.keeper.whole.entries } };

    ghost invariant = { λ z. (z.keeper.whole.plain ≡ z.untied.plain) × KeepsBooks z.keeper };
}

impl Zone {
    /// A zone with all its pages free, and a seat for each of its workers. Refused 1 to 5 where the config is wrong, the
    /// least number that applies, and 6 where it is not and there is no memory. It is a narrow one: at most 65,536 pages, and a
    /// base of at most 16,777,216.
    pub fn new(
        alloc: Global,
        config: ZoneConfig<'_>,
        workers: u32,
    ) -> Result<(Zone, Vec<Seat>), Refused>
        ensures good { OnOk result (IsGood (wanted config.entry.name.now config.entry.base config.entry.pages config.entry.min workers)) }
        ensures why { IfErr result (IsWhy (wanted config.entry.name.now config.entry.base config.entry.pages config.entry.min workers)) }
        ensures zone { IfOk result (λ z. z.0 ≡ record { tie = z.0.tie; name = config.entry.name.now; plain = zone_opening config.entry.largest config.entry.base config.entry.pages config.entry.min workers; entries = [] }) }
        ensures seats { IfOk result (λ z. z.1.items ≡ seats_of z.0.tie (books z.0) workers) }
        ensures fits { IfOk result (λ z. All (IsSeatOf z.0) z.1.items) }
        ensures unused { IfOk result (λ z. All IsUnused z.1.items) }
    {
        Zone::within(alloc, NARROW, ZoneConfig { ..config }, workers)
    }

    /// As `new`, but for a wide zone: at most 16,777,216 pages, and a base of at most 2^30.
    pub fn wide(
        alloc: Global,
        config: ZoneConfig<'_>,
        workers: u32,
    ) -> Result<(Zone, Vec<Seat>), Refused>
        ensures good { OnOk result (IsWideGood (wanted config.entry.name.now config.entry.base config.entry.pages config.entry.min workers)) }
        ensures why { IfErr result (IsWideWhy (wanted config.entry.name.now config.entry.base config.entry.pages config.entry.min workers)) }
        ensures zone { IfOk result (λ z. z.0 ≡ record { tie = z.0.tie; name = config.entry.name.now; plain = zone_opening config.entry.largest config.entry.base config.entry.pages config.entry.min workers; entries = [] }) }
        ensures seats { IfOk result (λ z. z.1.items ≡ seats_of z.0.tie (books z.0) workers) }
        ensures fits { IfOk result (λ z. All (IsSeatOf z.0) z.1.items) }
        ensures unused { IfOk result (λ z. All IsUnused z.1.items) }
    {
        Zone::within(alloc, WIDE, ZoneConfig { ..config }, workers)
    }

    /// As `new`, but within these bounds.
    fn within(
        alloc: Global,
        bounds: ZoneBounds,
        config: ZoneConfig<'_>,
        workers: u32,
    ) -> Result<(Zone, Vec<Seat>), Refused>
        requires { AreBounds bounds }
        ensures good { OnOk result (IsGoodWithin bounds (wanted config.entry.name.now config.entry.base config.entry.pages config.entry.min workers)) }
        ensures why { IfErr result (IsWhyWithin bounds (wanted config.entry.name.now config.entry.base config.entry.pages config.entry.min workers)) }
        ensures zone { IfOk result (λ z. z.0 ≡ record { tie = z.0.tie; name = config.entry.name.now; plain = zone_opening config.entry.largest config.entry.base config.entry.pages config.entry.min workers; entries = [] }) }
        ensures seats { IfOk result (λ z. z.1.items ≡ seats_of z.0.tie (books z.0) workers) }
        ensures fits { IfOk result (λ z. All (IsSeatOf z.0) z.1.items) }
        ensures unused { IfOk result (λ z. All IsUnused z.1.items) }
    {
        let untied = UntiedZone::new(alloc, bounds, ZoneConfig { ..config }, workers)?;
        let Ok(mut keeper) = Keeper::<Books, Part, Parts>::new(alloc) else {
            return Err(Refused::Memory);
        };
        keeper.begin::<UntiedZone, Opens>(&untied);
        let Ok(seats) = seats(alloc, &mut keeper, config.base, config.pages, workers) else {
            return Err(Refused::Memory);
        };
        Ok((Zone { untied, keeper }, seats))
    }

    /// Nothing changes, and the seat and the zone agree: what is out in the worker's name is what the seat has.
    pub fn check(&mut self, seat: &mut Seat)
        requires { IsSeatOf self.old seat.old }
        ensures same { (self.new ≡ self.old) × (seat.new ≡ seat.old) }
        ensures known { seat.old.worker < workers_of self.old.plain }
        ensures agrees { Agrees self.old seat.old }
    {
        seat.meet(&mut self.keeper);
    }

    /// Whether the block at this page, of this order, is out to the seat's worker.
    pub fn held_by(&self, seat: &Seat, page: PageNo, order: Order) -> bool
        requires { IsSeatOf self.now seat.now }
        ensures out { result ≡ is_out self.now.plain seat.now.worker page order }
        ensures has { Agrees self.now seat.now → result ≡ has seat.now page order }
    {
        self.untied.held_by(seat.worker(), page, order)
    }

    /// Whether each of so many pages from this one on, one at least, is out to the seat's worker, by whatever blocks.
    pub fn run_held_by(&self, seat: &Seat, page: PageNo, pages: u32) -> bool
        requires { IsSeatOf self.now seat.now }
        ensures out { result ≡ may_free_run self.now.plain seat.now.worker page pages }
        ensures has { Agrees self.now seat.now → result ≡ has_run seat.now page pages }
    {
        self.untied.lawful();
        self.untied.holds_run(seat.worker(), page, pages)
    }

    /// The zone's name.
    pub fn name(&self) -> &str
        ensures name { result.now ≡ self.now.name }
        ensures named { IsName result.now }
        ensures short { length result.now ≤ LONGEST_NAME }
    {
        self.untied.name()
    }

    /// The order of the zone's largest block, and of its pageblocks. Requests may ask for any order: of one above it there is no
    /// block.
    pub fn largest(&self) -> Largest
        ensures { result ≡ self.now.plain.area.largest }
    {
        self.untied.largest()
    }

    /// The type for which a block at this page of the zone, the first being 0, is out when a run goes out: its pageblock's, and Movable where the
    /// pageblock is isolated.
    pub fn noted_type(&self, at: PageAt) -> MigrateType
        requires { at < pages_of self.now.plain }
        ensures { result ≡ type_of_page self.now.plain at }
    {
        self.untied.noted_type(at)
    }

    /// How many pages the zone has. Each zone is lawful.
    pub fn pages(&self) -> u32
        ensures pages { result ≡ pages_of self.now.plain }
        ensures within { result ≤ MAX_PAGES }
        ensures lawful { IsLawful self.now.plain }
    {
        self.untied.lawful();
        self.untied.pages()
    }

    /// What the zone reports of an absolute page, where the page is one of its own. In each zone all of it describes the plain
    /// zone.
    pub fn entry(&self, page: PageNo) -> Option<ZonePage>
        ensures when { IsSome result ↔ IsPageOf self.now.plain page }
        ensures described { IfSome result (λ e. IsToldOf self.now.plain page e.state e.back e.forward) }
    {
        self.untied.entry(page)
    }

    /// The pageblock of this number, from 0 on, where the zone has one: in a zone whose largest order is m, pageblock n has
    /// the 2^m pages from its base plus n times 2^m on. No list is looked at, and no page but those of an isolated pageblock, for the
    /// largest free block in it.
    pub fn pageblock(&self, pageblock: u32) -> Option<Pageblock>
        ensures when { IsSome result ↔ (pageblock < pageblocks_of self.now.plain.area.largest (pages_of self.now.plain)) }
        ensures told { IfSome result (IsPageblockOf self.now.plain pageblock) }
    {
        self.untied.pageblock(pageblock)
    }

    /// How many free blocks of each order there are, and how many free pages. Each zone is lawful.
    pub fn counts(&self) -> Counts
        ensures counts { result ≡ counts_of self.now.plain.area.largest self.now.plain.area.free }
        ensures lawful { IsLawful self.now.plain }
    {
        self.untied.counts()
    }

    /// How many free blocks of each order there are in the pageblocks of each type, and how many pageblocks of each type.
    pub fn counts_by_type(&self) -> CountsByType
        ensures { result ≡ counts_by_type self.now.plain.area.largest self.now.plain.area.free self.now.plain.area.kinds }
    {
        self.untied.counts_by_type()
    }

    /// Does nothing: each zone is the run of its entries, which are a legal history from its opening.
    pub fn history(&self)
        ensures { IsHistory self.now.plain self.now.entries }
    {
        // the invariant is at hand where a field is
        let _ = &self.untied;
    }

    /// Where the block comes from that a request for this order and type takes now, where there is one for it. No mark is looked at, and nothing
    /// that is told of the zone changes.
    pub fn origin(&mut self, order: Order, kind: MigrateType) -> Option<Origin>
        ensures answer { result ≡ origin self.old.plain.area order kind }
        ensures same { self.new ≡ self.old }
    {
        self.untied.origin(order, kind)
    }

    /// The highest mark that the free pages outside isolated pageblocks are above.
    pub fn level(&self) -> Level
        ensures { result ≡ level_of self.now.plain }
    {
        self.untied.level()
    }

    /// How many pages are in posted blocks.
    pub fn posted_pages(&self) -> u32
        ensures pages { result ≡ posted_pages self.now.plain }
        ensures within { size self.now.plain.area.free + result ≤ pages_of self.now.plain }
    {
        self.untied.posted_pages()
    }
}
