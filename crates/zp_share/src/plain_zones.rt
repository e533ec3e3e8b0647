//! A row of zones in one hand.
ghost use Rattle.std.specs.Prelude.{ℕ, ◌≡◌, ◌≤◌, ◌<◌, All, length, map};
ghost use Rattle.zp_model.specs.declared.constants.TheConstants.{MAX_ZONES};
ghost use Rattle.zp_model.specs.Choose.{origin};
ghost use Rattle.zp_share.specs.Commands.{zone_at};
ghost use Rattle.zp_share.specs.Shares.{IsShareOf, key_of, named_zone, plain};
ghost use Rattle.zp_share.specs.Gathering.{AddsUp, IsCrewOf, gathered, owns_at};

use crate::gathering::{Totals, gather};
use crate::share::Share;
use crate::zones::Zones;
use arrayvec::ArrayVec;
use std::marker::Model;
use zp_model::{Counts, MAX_ZONES, Mark, MigrateType, Order, Origin, Refused, Reply, Request};
use zp_zone::Zone;

/// A row of zones for one thread, the lowest first. It shows what its zones are.
#[derive(Drop)]
pub struct PlainZones {
    zones: Vec<Zone>,
}

impl Model for PlainZones {
    ghost use Rattle.std.specs.Prelude.{List};
    ghost use Rattle.zp_zone.specs.Seats.{ZoneState};

    ghost Value = { List ZoneState };

    ghost view = { λ z. z.zones.items };
}

impl PlainZones {
    pub fn new(zones: Vec<Zone>) -> PlainZones
        ensures { result ≡ zones.items }
    {
        PlainZones { zones }
    }

    pub fn as_slice(&self) -> &[Zone]
        ensures { result.now ≡ self.now }
    {
        &self.zones
    }

    /// Where the block comes from that a request for this order and type takes now from the zone at this place, where it has one for it. No mark
    /// is looked at, and nothing that is told of the zones changes.
    pub fn origin(&mut self, zone: usize, order: Order, kind: MigrateType) -> Option<Origin>
        requires { zone < length self.old }
        ensures answer { result ≡ origin (zone_at (map named_zone self.old) zone).plain.area order kind }
        ensures same { self.new ≡ self.old }
    {
        self.zones[zone].origin(order, kind)
    }

    /// Where the pages of each zone are, with the shares of all its workers. All stay as they were.
    pub fn gather(&mut self, shares: &mut [Share]) -> ArrayVec<Totals, MAX_ZONES>
        requires few { length self.old ≤ MAX_ZONES }
        requires fits { All (IsShareOf (map key_of self.old)) shares.old }
        requires crew { All (IsCrewOf shares.old) self.old }
        ensures zones { self.new ≡ self.old }
        ensures shares { shares.new ≡ shares.old }
        ensures totals { result.items ≡ gathered (map named_zone self.old) (map plain shares.old) }
        ensures adds_up { (i : ℕ) → i < length self.old → AddsUp (zone_at (map named_zone self.old) i).plain (owns_at (map plain shares.old) i) }
    {
        gather(&mut self.zones, shares)
    }

    /// The zones that the row was made of.
    pub fn into_zones(self) -> Vec<Zone>
        ensures { result.items ≡ self }
    {
        self.zones
    }
}

impl Zones for PlainZones {
    ghost use Rattle.std.specs.Prelude.{map, Some, ◌≡◌};
    ghost use Rattle.zp_model.specs.declared.refused.Refused.TheVariants.{JournalFull};
    ghost use Rattle.zp_model.specs.declared.request.Reply.{Reply};
    ghost use Rattle.zp_share.specs.declared.sections_made.TheConstants.{LAST_SECTION};
    ghost use Rattle.zp_share.specs.Commands.{counts_at};
    ghost use Rattle.zp_share.specs.Shares.{key_of, named_zone, sections_at};

    ghost keys = { λ z. map key_of z };

    ghost told = { λ z. Some (map named_zone z) };

    ghost shown = { λ z i. counts_at (map named_zone z) i };

    // A reading is of the zone itself.
    ghost reads = { λ z y i q t. q ≡ Reply.Refused JournalFull → sections_at t i ≡ LAST_SECTION };

    ghost counted = { λ z y i. y ≡ z };

    ghost covers = { λ z i n. Unit {0} };

    ghost ended = { λ z i t. sections_at t i ≡ LAST_SECTION };

    ghost covers_own = { λ z y i q t read section. tt };

    ghost covers_counted = { λ z y i read j n covered. tt };

    ghost covers_still = { λ z y i q t read j n covered. tt };

    ghost ends = { λ z y i q t read full. read full };

    #[inline(always)]
    fn section(&mut self, share: &mut Share, zone: usize, request: &Request) -> Reply {
        share.section(&mut self.zones[zone], zone, request)
    }

    #[inline(never)]
    fn fill(
        &mut self,
        share: &mut Share,
        zone: usize,
        kind: MigrateType,
        mark: Mark,
    ) -> Result<(), Refused> {
        share.fill(&mut self.zones[zone], zone, kind, mark)
    }

    #[inline(never)]
    fn drain(
        &mut self,
        share: &mut Share,
        zone: usize,
        kind: MigrateType,
        count: usize,
    ) -> Result<(), Refused> {
        share.drain(&mut self.zones[zone], zone, kind, count)
    }

    fn counts(&mut self, zone: usize) -> Counts {
        self.zones[zone].counts()
    }
}
