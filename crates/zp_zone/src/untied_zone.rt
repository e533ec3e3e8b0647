//! A zone without its seats: its creation, and what it reports.
ghost use Rattle.std.specs.Prelude.{◌≡◌, ◌<◌, ◌≤◌, ◌+◌, ℕ, false, length, IfOk, IfErr, IfSome, IfNone, IsSome, OnOk, OnErr, IsTrue, ◌↔◌, ◌-◌};
ghost use Rattle.std.specs.Option.{option_map};
ghost use Rattle.zp_model.specs.Block.{size};
ghost use Rattle.zp_model.specs.Choose.{origin};
ghost use Rattle.zp_model.specs.Zone.{zone_opening, is_of, pages_of, posted_pages};
ghost use Rattle.zp_zone.specs.Kept.{holding_of};
ghost use Rattle.zp_model.specs.Mark.{level_of, level_above};
ghost use Rattle.zp_model.specs.Info.{counts_by_type, counts_of};
ghost use Rattle.zp_model.specs.Run.{is_out};
ghost use Rattle.zp_model.specs.Books.{type_of_page};
ghost use Rattle.zp_model.specs.Lawful.{IsLawful};
ghost use Rattle.zp_model.specs.Naming.{IsName};
ghost use Rattle.zp_model.specs.Area.{pageblocks_of};
ghost use Rattle.zp_zone.specs.NamedZone.{IsPageOf, IsPageblockOf, IsToldOf};
ghost use Rattle.zp_zone.specs.Making.{wanted, AreBounds, IsGoodWithin, IsWhyWithin};

mod batches;
mod blocks;
mod cuts;
mod falling;
mod lowest;
mod pageblocks;
mod parts;
mod runs;
mod turned;

use crate::config::{ZoneBounds, ZoneConfig, checked_name};
use crate::page::ZonePage;
use crate::pageblock::Pageblock;
use std::alloc::Global;
use std::marker::Model;
use zp_buddy::Buddy;
use zp_model::{
    BASE_LIMIT, Counts, CountsByType, Largest, Level, MAX_PAGES, MigrateType, Name, Order, Origin,
    PageAt, PageNo, Refused, State, Worker,
};

/// A zone without its seats: whoever calls names the worker. Contracts see its name and the plain zone, which is always
/// lawful.
#[derive(Drop)]
pub(crate) struct UntiedZone {
    buddy: Buddy,
    name: Name,
    base: u32,
    min: u32,
    /// How many pages are in posted blocks.
    posted: u32,
}

impl Model for UntiedZone {
    ghost use Rattle.zp_zone.specs.NamedZone.{NamedZone};
    ghost use Rattle.zp_zone.specs.Kept.{plain_of, IsKept};

    ghost Value = { NamedZone };

    ghost view = { λ z. record { name = z.name; plain = plain_of z.buddy z.base z.min } };

    ghost invariant = { λ z. IsKept z.name z.buddy z.base z.min z.posted };
}

impl UntiedZone {
    /// A zone with all its pages free. Refused 1 to 5 where the config is wrong, the least number that applies, and 6 where
    /// it is not and there is no memory.
    pub fn new(
        alloc: Global,
        bounds: ZoneBounds,
        config: ZoneConfig<'_>,
        workers: u32,
    ) -> Result<UntiedZone, Refused>
        requires { AreBounds bounds }
        ensures good { OnOk result (IsGoodWithin bounds (wanted config.entry.name.now config.entry.base config.entry.pages config.entry.min workers)) }
        ensures why { IfErr result (IsWhyWithin bounds (wanted config.entry.name.now config.entry.base config.entry.pages config.entry.min workers)) }
        ensures zone { IfOk result (λ z. z ≡ record { name = config.entry.name.now; plain = zone_opening config.entry.largest config.entry.base config.entry.pages config.entry.min workers }) }
    {
        let ZoneConfig {
            name,
            base,
            pages,
            min,
            largest,
        } = config;
        let name = checked_name(bounds, name, base, pages, min, workers)?;
        let Ok(buddy) = Buddy::new(alloc, pages, largest, workers as usize) else {
            return Err(Refused::Memory);
        };
        let zone = UntiedZone {
            buddy,
            name,
            base,
            min,
            posted: 0,
        };
        Ok(zone)
    }

    /// Each zone is lawful.
    pub fn lawful(&self)
        ensures { IsLawful self.now.plain }
    {
        // the invariant is at hand where a field is
        let _ = &self.name;
    }

    /// Whether the block at this page, of this order, is out to the worker.
    pub fn held_by(&self, worker: Worker, page: PageNo, order: Order) -> bool
        ensures { result ≡ is_out self.now.plain worker page order }
    {
        match place_of(page, self.base, self.buddy.pages()) {
            None => false,
            Some(at) => is_out_to(self.buddy.holding(at), order, worker),
        }
    }

    /// The zone's name.
    pub fn name(&self) -> &str
        ensures name { result.now ≡ self.now.name }
        ensures named { IsName result.now }
    {
        self.name.as_str()
    }

    /// The type that is noted of a block at this page of the zone, the first being 0, when a run goes out: its pageblock's.
    pub fn noted_type(&self, at: PageAt) -> MigrateType
        requires { at < pages_of self.now.plain }
        ensures { result ≡ type_of_page self.now.plain at }
    {
        // a clause of this call says how many pages there can be
        let _pages = self.buddy.pages();
        self.buddy.type_of(at).noted()
    }

    /// The order of the zone's largest block, and of its pageblocks.
    pub fn largest(&self) -> Largest
        ensures { result ≡ self.now.plain.area.largest }
    {
        self.buddy.largest()
    }

    /// How many pages the zone has.
    pub fn pages(&self) -> u32
        ensures pages { result ≡ pages_of self.now.plain }
        ensures within { result ≤ MAX_PAGES }
    {
        self.buddy.pages()
    }

    /// What the zone reports of an absolute page, where the page is one of its own. In each zone all of it describes the plain
    /// zone.
    pub fn entry(&self, page: PageNo) -> Option<ZonePage>
        ensures when { IsSome result ↔ IsPageOf self.now.plain page }
        ensures described { IfSome result (λ e. IsToldOf self.now.plain page e.state e.back e.forward) }
    {
        let at = place_of(page, self.base, self.buddy.pages())?;
        let entry = self.buddy.entry(at);
        Some(ZonePage {
            state: entry.state,
            back: absolute(self.base, entry.back),
            forward: absolute(self.base, entry.forward),
        })
    }

    /// What the zone reports of a pageblock, where it has one of this number.
    pub fn pageblock(&self, pageblock: u32) -> Option<Pageblock>
        ensures when { IsSome result ↔ (pageblock < pageblocks_of self.now.plain.area.largest (pages_of self.now.plain)) }
        ensures told { IfSome result (IsPageblockOf self.now.plain pageblock) }
    {
        let number = pageblock as usize;
        if number >= self.buddy.pageblocks() {
            return None;
        }
        Some(Pageblock {
            kind: self.buddy.pageblock_type(number),
            free: self.buddy.free_in(number),
            largest: self.buddy.largest_in(number),
        })
    }

    /// How many free blocks of each order there are, and how many free pages. Each zone is lawful.
    pub fn counts(&self) -> Counts
        ensures counts { result ≡ counts_of self.now.plain.area.largest self.now.plain.area.free }
        ensures lawful { IsLawful self.now.plain }
    {
        self.buddy.counts()
    }

    /// How many free blocks of each order there are in the pageblocks of each type, and how many pageblocks of each type.
    pub fn counts_by_type(&self) -> CountsByType
        ensures { result ≡ counts_by_type self.now.plain.area.largest self.now.plain.area.free self.now.plain.area.kinds }
    {
        self.buddy.counts_by_type()
    }

    /// Where the block comes from that a request for this order and type takes, where there is one for it.
    pub fn origin(&mut self, order: Order, kind: MigrateType) -> Option<Origin>
        ensures answer { result ≡ origin self.old.plain.area order kind }
        ensures same { self.new ≡ self.old }
    {
        self.buddy.origin(order, kind)
    }

    /// The highest mark that the free pages outside isolated pageblocks are above.
    pub fn level(&self) -> Level
        ensures { result ≡ level_of self.now.plain }
    {
        level_above(self.min, self.buddy.available_pages())
    }

    /// How many pages are in posted blocks.
    pub fn posted_pages(&self) -> u32
        ensures pages { result ≡ posted_pages self.now.plain }
        ensures within { size self.now.plain.area.free + result ≤ pages_of self.now.plain }
    {
        self.posted
    }
}

/// The place of an absolute page in a zone, where it has one.
fn place_of(page: PageNo, base: u32, pages: u32) -> Option<PageAt>
    requires { pages ≤ MAX_PAGES }
    ensures some { IfSome result (λ at. (base ≤ page) × (at ≡ page - base) × (at < pages)) }
    ensures none { IfNone result (base ≤ page → pages ≤ page - base) }
{
    let number = page.number();
    if number < base || number - base >= pages {
        return None;
    }
    Some(PageAt::at(number - base))
}

/// A place of a zone as an absolute page.
fn absolute(base: u32, place: Option<PageAt>) -> Option<PageNo>
    requires { base ≤ BASE_LIMIT }
    ensures { result ≡ option_map (λ h. base + h) place }
{
    place.map(|at| PageNo::new(base + at.number()))
}

/// Whether a page's state notes a block of this order that is out to this worker.
fn is_out_to(state: State, order: Order, worker: Worker) -> bool
    ensures { result ≡ is_of worker order (holding_of state) }
{
    match state {
        State::Out(out, _, holder) => out == order && holder == worker,
        _ => false,
    }
}

/// The highest mark that so many free pages are above.
fn level_above(min: u32, free: u32) -> Level
    requires { min ≤ MAX_PAGES }
    ensures { result ≡ level_above min free }
{
    if free > min + min / 2 {
        Level::High
    } else if free > min + min / 4 {
        Level::Low
    } else if free > min {
        Level::Min
    } else {
        Level::Short
    }
}
