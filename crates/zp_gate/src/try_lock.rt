//! A lock that nobody waits for, with a zone behind it. A visitor enters where nobody is in, makes one call of what stands there, and
//! leaves.
ghost use Rattle.std.specs.Prelude.{◌≡◌, ◌<◌, ◌≤◌, IfErr, IfOk, length};
ghost use Rattle.std.specs.Option.{ForSome};
ghost use Rattle.zp_model.specs.Area.{pageblocks_of};
ghost use Rattle.zp_model.specs.declared.constants.TheConstants.{MAX_PAGES};
ghost use Rattle.zp_model.specs.declared.refused.Refused.TheVariants.{Memory};
ghost use Rattle.zp_share.specs.Shares.{key_of};
ghost use Rattle.zp_gate.specs.Boards.{IsBoardOf, IsWide};
ghost use Rattle.zp_gate.specs.GatedZones.{IsOneShare};
ghost use Rattle.zp_gate.specs.Locks.{IsIn, MayLeave, first_held};
ghost use Rattle.zp_gate.specs.Visits.{HasGathered, HasKept, IsUngathered};

use crate::gate_facts::GateFacts;
use crate::gated_zone::GatedZone;
use crate::visit_view::VisitView;
use atomic_table::{Play, Seat as Place, Table, TableRule};
use std::alloc::Global;
use std::marker::Model;
use zp_counts::{Board, Publisher};
use zp_model::{Largest, Refused};
use zp_share::{Share, Totals};
use zp_zone::Zone;

/// The rule of a lock.
pub(crate) struct Gated;

impl TableRule<GatedZone, VisitView, GateFacts> for Gated {
    ghost use Rattle.zp_gate.specs.Locks.{IsGated, outside};

    ghost holds = { IsGated };

    ghost first = { outside };
}

/// A new visitor, outside.
struct Come;

impl Play<GatedZone, VisitView> for Come {
    ghost use Rattle.zp_gate.specs.Locks.{Comes};

    ghost then = { Comes };
}

/// A visitor enters, where nobody is in.
struct Enter;

impl Play<GatedZone, VisitView> for Enter {
    ghost use Rattle.zp_gate.specs.Locks.{Enters};

    ghost then = { Enters };
}

/// The visitor leaves.
struct Leave;

impl Play<GatedZone, VisitView> for Leave {
    ghost use Rattle.zp_gate.specs.Locks.{Leaves};

    ghost then = { Leaves };
}

/// Who is in.
pub(crate) type Visitor = Place<GatedZone, VisitView>;

/// A visit that is over, of no bytes: contracts see what the visitor found and what he left. Only a lock has visits.
#[derive(Drop)]
pub struct Visit {
    seat: Visitor,
}

impl Model for Visit {
    ghost use Rattle.zp_gate.specs.declared.visit_view.VisitView.{VisitView};

    ghost Value = { VisitView };

    ghost view = { λ v. v.seat.me.0 };
}

/// That somebody was in. Only a lock says so.
#[derive(Clone, Copy, Drop)]
pub struct Busy {
    _found: (),
}

/// Where the pages of a zone are, as this visit found it.
#[derive(Drop)]
pub struct Gathered {
    pub totals: Totals,
    pub visit: Visit,
}

/// Why there is no report on where the pages of a zone are.
#[derive(Drop)]
pub enum GatherError {
    /// Somebody is with the zone.
    Busy(Busy),
    /// A worker has not left its share, as this visit found.
    HasWorkers(Visit),
}

const FREE: u64 = 0;

const TAKEN: u64 = 1;

/// The word of a lock, and what stands behind it.
pub(crate) type GateTable = Table<GatedZone, VisitView, GateFacts, Gated, Global>;

/// A zone that one caller at a time may enter, and the board beside it, where it has one, for which nobody enters.
#[derive(Drop)]
pub struct TryLock {
    pub(crate) table: GateTable,
    pub(crate) base: u32,
    pub(crate) pages: u32,
    pub(crate) pageblocks: usize,
    pub(crate) workers: u32,
    pub(crate) board: Option<Board>,
    ghost words: { table.shared.table_id.words ≡ 1 },
    ghost slots: { table.shared.table_id.slots ≡ 1 },
    ghost first: { base ≡ table.shared.key.zone.base },
    ghost length: { pages ≡ table.shared.key.zone.pages },
    ghost blocks: { pageblocks ≡ pageblocks_of table.shared.key.zone.largest table.shared.key.zone.pages },
    ghost crew: { workers ≡ table.shared.key.zone.workers },
    ghost beside: { board ≡ table.shared.key.board },
    ghost wide: { ForSome board IsWide },
}

/// A free lock, and behind it this zone, which no worker has left yet. Refused 6.
pub(crate) fn shut_in(
    alloc: Global,
    zone: Zone,
    publisher: Option<Publisher>,
    key: &GateFacts,
) -> Result<GateTable, Refused>
    requires key { key_of zone ≡ key.now.zone }
    requires board { IsBoardOf key.now.board zone publisher }
    ensures key { IfOk result (λ t. t.shared.key ≡ key.now) }
    ensures words { IfOk result (λ t. t.shared.table_id.words ≡ 1) }
    ensures slots { IfOk result (λ t. t.shared.table_id.slots ≡ 1) }
    ensures why { IfErr result (λ e. e ≡ Memory) }
{
    // a clause of this call says that the zone is the run of its entries
    zone.history();
    let behind = GatedZone::new(alloc, zone, key.workers, publisher)?;
    let Ok(slots) = Vec::from_array(alloc, [behind]) else {
        return Err(Refused::Memory);
    };
    match Table::new(alloc, &[FREE], slots, key) {
        Ok((table, _place)) => Ok(table),
        Err(_) => Err(Refused::Memory),
    }
}

impl TryLock {
    /// The lock of this table, with its board beside it.
    pub(crate) fn of(
        table: GateTable,
        board: Option<Board>,
        base: u32,
        pages: u32,
        largest: Largest,
        workers: u32,
    ) -> TryLock
        requires board { board ≡ table.shared.key.board }
        requires first { base ≡ table.shared.key.zone.base }
        requires length { pages ≡ table.shared.key.zone.pages }
        requires largest { largest ≡ table.shared.key.zone.largest }
        requires crew { workers ≡ table.shared.key.zone.workers }
        requires words { table.shared.table_id.words ≡ 1 }
        requires slots { table.shared.table_id.slots ≡ 1 }
        requires wide { ForSome board IsWide }
        requires few { pages ≤ MAX_PAGES }
        ensures { result.table.shared.key ≡ table.shared.key }
    {
        TryLock {
            table,
            base,
            pages,
            pageblocks: largest.pageblocks(pages),
            workers,
            board,
        }
    }

    /// Enters where nobody is in.
    #[inline(always)]
    pub(crate) fn enter(&self) -> Result<Visitor, Busy>
        ensures { IfOk result (IsIn self.now.table.shared.table_id self.now.table.shared.key) }
    {
        let shared = &self.table.shared;
        let (_, mut visitor) = shared.load_new_seat::<Come>(0);
        if shared.compare_exchange::<Enter>(&mut visitor, 0, FREE, TAKEN) != FREE {
            return Err(Busy { _found: () });
        }
        Ok(visitor)
    }

    /// The visitor leaves.
    #[inline(always)]
    pub(crate) fn leave(&self, visitor: Visitor) -> Visit
        requires { MayLeave self.now.table.shared.table_id self.now.table.shared.key visitor }
        ensures { result ≡ record visitor.me.0 { left = first_held visitor.me.1 } }
    {
        let mut seat = visitor;
        self.table.shared.store::<Leave>(&mut seat, 0, FREE);
        Visit { seat }
    }

    /// A worker leaves its share. It comes back where somebody is in, or where all workers left theirs.
    pub(crate) fn keep(&self, share: Share) -> Result<Visit, Share>
        requires { IsOneShare self.now.table.shared.key.zone share }
        ensures kept { IfOk result (HasKept self.now.table.shared.key share) }
        ensures same { IfErr result (λ s. s ≡ share) }
    {
        let Ok(mut visitor) = self.enter() else {
            return Err(share);
        };
        let zone = visitor.slot_mut(&self.table.shared, 0);
        let back = zone.keep(share);
        let visit = self.leave(visitor);
        match back {
            Some(share) => Err(share),
            None => Ok(visit),
        }
    }

    /// Where the pages of the zone are.
    pub(crate) fn gather(&self) -> Result<Gathered, GatherError>
        ensures ok { IfOk result (λ g. HasGathered self.now.table.shared.key g.totals g.visit) }
        ensures missed { IfErr result (IsUngathered self.now.table.shared.key) }
    {
        let mut visitor = match self.enter() {
            Ok(visitor) => visitor,
            Err(busy) => return Err(GatherError::Busy(busy)),
        };
        let zone = visitor.slot_mut(&self.table.shared, 0);
        let totals = zone.gather();
        let visit = self.leave(visitor);
        match totals {
            Some(totals) => Ok(Gathered { totals, visit }),
            None => Err(GatherError::HasWorkers(visit)),
        }
    }
}
