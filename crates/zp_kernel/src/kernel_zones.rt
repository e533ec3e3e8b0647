//! A row of zones in one hand, with the shares of all its workers.
ghost use Rattle.std.specs.Prelude.{◌≡◌, ◌<◌, ◌≤◌, ◌%◌, ◌↔◌, IfOk, IsTrue, OnOk, length, map};
ghost use Rattle.std.specs.List.{range_with_len};
ghost use Rattle.zp_model.specs.declared.constants.TheConstants.{MAX_ZONES};
ghost use Rattle.zp_share.specs.Shares.{named_zone, plain};
ghost use Rattle.zp_share.specs.Crews.{AreSharesOf, crew_of};
ghost use Rattle.zp_kernel.specs.Crews.{IsCrewDone, IsSameCrew, asked_by, collected_by, freed_by, is_off_list, origin_of, posted_by, run_freed_by, share_of};

use arrayvec::ArrayVec;
use std::marker::Model;
use zp_model::{Block, MAX_ZONES, Mark, MigrateType, Order, Origin, PageNo, Refused, Worker};
use zp_share::{Lent, PlainZones, Share, Zones, alloc, free};
use zp_zone::Zone;

/// Zones of ours that stand for a kernel's, and the share of each of their workers, in order.
#[derive(Drop)]
pub struct KernelZones {
    zones: PlainZones,
    shares: Vec<Share>,
}

impl Model for KernelZones {
    ghost use Rattle.std.specs.Prelude.{◌≤◌, length};
    ghost use Rattle.zp_share.specs.Crews.{AreSharesOf, CrewState, crew_of};

    ghost Value = { CrewState };

    ghost view = { λ c. crew_of c.zones c.shares.items };

    ghost invariant = { λ c. (1 ≤ length c.shares.items) × AreSharesOf c.zones c.shares.items };
}

/// Whether a block of this order for this type, out of the zone at this place, comes off the worker's list.
fn is_off_list(share: &Share, zone: usize, order: Order, kind: MigrateType) -> bool
    requires { zone < length share.now.zones }
    ensures { result ≡ is_off_list (plain share.now) zone order kind }
{
    share.is_listed(order) && share.cached_len(zone, kind) > 0
}

impl KernelZones {
    pub fn new(zones: PlainZones, shares: Vec<Share>) -> KernelZones
        requires some { 1 ≤ length shares.items }
        requires shares { AreSharesOf zones shares.items }
        ensures { result ≡ crew_of zones shares.items }
    {
        KernelZones { zones, shares }
    }

    /// The zones and shares as they are now.
    pub fn into_parts(self) -> (PlainZones, Vec<Share>)
        ensures some { 1 ≤ length result.1.items }
        ensures shares { AreSharesOf result.0 result.1.items }
        ensures crew { crew_of result.0 result.1.items ≡ self }
    {
        let KernelZones { zones, shares } = self;
        (zones, shares)
    }

    /// The zones, the lowest first.
    pub fn zones(&self) -> &[Zone]
        ensures { map named_zone result.now ≡ self.now.zones }
    {
        self.zones.as_slice()
    }

    /// The worker of a CPU.
    pub fn worker_of(&self, cpu: u32) -> Worker
        ensures worker { result ≡ cpu % length self.now.shares }
        ensures there { result < length self.now.shares }
    {
        let place = cpu as usize % self.shares.len();
        self.shares[place].worker()
    }

    /// Whether the worker has a share, and that is of a row with this place.
    fn has_place(&self, worker: Worker, zone: usize) -> bool
        ensures { IsTrue result ↔ (zone < length (share_of self.now worker).zones) }
    {
        match self.shares.get(usize::from(worker.number())) {
            Some(share) => zone < share.zones(),
            None => false,
        }
    }

    /// How many zones there are.
    fn places(&self) -> usize
        ensures zones { result ≡ length self.now.zones }
        ensures few { result ≤ MAX_ZONES }
    {
        self.shares[0].zones()
    }

    /// Where a block of this order for this type comes from, out of the zone at this place, if the worker is given one there now: none where it comes
    /// off the worker's list, or the zone has none.
    fn origin(
        &mut self,
        worker: Worker,
        zone: usize,
        order: Order,
        kind: MigrateType,
    ) -> Option<Origin>
        requires worker { worker < length self.old.shares }
        requires zone { zone < length self.old.zones }
        ensures answer { result ≡ origin_of worker order kind self.old zone }
        ensures same { self.new ≡ self.old }
    {
        let share = &self.shares[usize::from(worker.number())];
        if is_off_list(share, zone, order, kind) {
            return None;
        }
        self.zones.origin(zone, order, kind)
    }

    /// The same of each zone. A zone that refuses a request stays as it was, so a block that `alloc` gets comes from there, whichever of them gives it.
    pub fn origins(
        &mut self,
        worker: Worker,
        order: Order,
        kind: MigrateType,
    ) -> ArrayVec<Option<Origin>, MAX_ZONES>
        requires { worker < length self.old.shares }
        ensures origins { result.items ≡ map (origin_of worker order kind self.old) (range_with_len 0 (length self.old.zones)) }
        ensures same { self.new ≡ self.old }
    {
        let mut origins = ArrayVec::new();
        for place in 0..self.places() {
            origins.push(self.origin(worker, place, order, kind));
        }
        origins
    }

    /// A block of this order for this type, held to the least mark, out of the zone at this place or the nearest below it that gives one.
    pub fn alloc(
        &mut self,
        worker: Worker,
        order: Order,
        kind: MigrateType,
        zone: usize,
    ) -> Result<Lent, Refused>
        requires worker { worker < length self.old.shares }
        requires zone { zone < length self.old.zones }
        ensures done { IsCrewDone (asked_by worker order kind zone self.old) result self.new }
        ensures same { IsSameCrew self.old self.new }
        ensures place { IfOk result (λ l. l.zone ≤ zone) }
    {
        let share = &mut self.shares[usize::from(worker.number())];
        alloc(share, &mut self.zones, order, kind, zone, Mark::Min)
    }

    /// The worker frees a block of its own.
    pub fn free(&mut self, worker: Worker, lent: &Lent) -> Result<(), Refused>
        ensures done { IsCrewDone (freed_by worker lent.now self.old) result self.new }
        ensures same { IsSameCrew self.old self.new }
    {
        if !self.has_place(worker, lent.zone) {
            return Err(Refused::NotLent);
        }
        let share = &mut self.shares[usize::from(worker.number())];
        free(share, &mut self.zones, lent.zone, lent.page, lent.order)
    }

    /// The worker frees so many pages of its own, from this one on.
    pub fn free_run(
        &mut self,
        worker: Worker,
        zone: usize,
        page: PageNo,
        pages: u32,
    ) -> Result<(), Refused>
        ensures done { IsCrewDone (run_freed_by worker zone page pages self.old) result self.new }
        ensures same { IsSameCrew self.old self.new }
    {
        if !self.has_place(worker, zone) {
            return Err(Refused::NotLent);
        }
        let share = &mut self.shares[usize::from(worker.number())];
        self.zones.free_run(share, zone, page, pages)
    }

    /// The worker posts a block of its own to another.
    pub fn post(&mut self, worker: Worker, lent: &Lent, to: Worker) -> Result<(), Refused>
        requires { to < length self.old.shares }
        ensures done { IsCrewDone (posted_by worker lent.now to self.old) result self.new }
        ensures same { IsSameCrew self.old self.new }
        ensures place { OnOk result (lent.now.zone < length self.old.zones) }
    {
        if !self.has_place(worker, lent.zone) {
            return Err(Refused::NotLent);
        }
        let share = &mut self.shares[usize::from(worker.number())];
        self.zones.post(share, lent.zone, lent.page, lent.order, to)
    }

    /// The worker takes the block in front of those that were posted to it.
    pub fn collect(&mut self, worker: Worker, zone: usize) -> Result<Block, Refused>
        requires worker { worker < length self.old.shares }
        requires zone { zone < length self.old.zones }
        ensures done { IsCrewDone (collected_by worker zone self.old) result self.new }
        ensures same { IsSameCrew self.old self.new }
    {
        let share = &mut self.shares[usize::from(worker.number())];
        self.zones.collect(share, zone)
    }
}
