//! A lock that nobody waits for, with a room behind it. A visitor enters where nobody is in, makes one call of the room, and leaves.
ghost use Rattle.std.specs.Prelude.{◌≡◌, ◌≤◌, IfErr, IfOk};
ghost use Rattle.zp_model.specs.declared.constants.TheConstants.{MAX_PAGES};
ghost use Rattle.zp_model.specs.declared.refused.Refused.TheVariants.{Memory};
ghost use Rattle.zp_open_gate.specs.Rooms.{IsKnownAs};
ghost use Rattle.zp_open_gate.specs.Locks.{IsIn, MayLeave, first_held};

use crate::room_key::RoomKey;
use crate::visit_view::VisitView;
use atomic_table::{Play, Seat as Place, Table, TableRule};
use std::alloc::Global;
use std::marker::Model;
use zp_model::{Largest, Refused};
use zp_open_room::OpenRoom;

/// The rule of a lock.
pub(crate) struct Gated;

impl TableRule<OpenRoom, VisitView, RoomKey> for Gated {
    ghost use Rattle.zp_open_gate.specs.Locks.{IsGated, outside};

    ghost holds = { IsGated };

    ghost first = { outside };
}

/// A new visitor, outside.
struct Come;

impl Play<OpenRoom, VisitView> for Come {
    ghost use Rattle.zp_open_gate.specs.Locks.{Comes};

    ghost then = { Comes };
}

/// A visitor enters, where nobody is in.
struct Enter;

impl Play<OpenRoom, VisitView> for Enter {
    ghost use Rattle.zp_open_gate.specs.Locks.{Enters};

    ghost then = { Enters };
}

/// The visitor leaves.
struct Leave;

impl Play<OpenRoom, VisitView> for Leave {
    ghost use Rattle.zp_open_gate.specs.Locks.{Leaves};

    ghost then = { Leaves };
}

/// Who is in.
pub(crate) type Visitor = Place<OpenRoom, VisitView>;

/// A visit that is over, of no bytes: contracts see what the visitor found and what he left. Only a lock has visits.
#[derive(Drop)]
pub struct Visit {
    seat: Visitor,
}

impl Model for Visit {
    ghost use Rattle.zp_open_gate.specs.declared.visit_view.VisitView.{VisitView};

    ghost Value = { VisitView };

    ghost view = { λ v. v.seat.me.0 };
}

/// That somebody was in. Only a lock says so.
#[derive(Clone, Copy, Drop)]
pub struct Busy {
    _found: (),
}

const FREE: u64 = 0;

const TAKEN: u64 = 1;

/// A room that one caller at a time may enter, and what never changes of it, which is told beside the lock.
#[derive(Drop)]
pub struct TryLock {
    pub(crate) table: Table<OpenRoom, VisitView, RoomKey, Gated, Global>,
    pub(crate) base: u32,
    pub(crate) pages: u32,
    pub(crate) largest: Largest,
    ghost words: { table.shared.table_id.words ≡ 1 },
    ghost slots: { table.shared.table_id.slots ≡ 1 },
    ghost first: { base ≡ table.shared.key.base },
    ghost length: { pages ≡ table.shared.key.pages },
    ghost order: { largest ≡ table.shared.key.largest },
    ghost few: { pages ≤ MAX_PAGES },
}

impl TryLock {
    /// A free lock with this room behind it. Refused 6.
    pub(crate) fn new(alloc: Global, room: OpenRoom, key: &RoomKey) -> Result<TryLock, Refused>
        requires known { IsKnownAs key.now room }
        requires few { key.now.pages ≤ MAX_PAGES }
        ensures key { IfOk result (λ l. l.table.shared.key ≡ key.now) }
        ensures why { IfErr result (λ e. e ≡ Memory) }
    {
        // a clause of this call says that the zone is the run of its entries
        room.history();
        let Ok(slots) = Vec::from_array(alloc, [room]) else {
            return Err(Refused::Memory);
        };
        match Table::new(alloc, &[FREE], slots, key) {
            Ok((table, _place)) => Ok(TryLock {
                table,
                base: key.base,
                pages: key.pages,
                largest: key.largest,
            }),
            Err(_) => Err(Refused::Memory),
        }
    }

    /// Enters where nobody is in.
    #[inline(always)]
    pub(crate) fn enter(&self) -> Result<Visitor, Busy>
        ensures { IfOk result (IsIn self.now.table.shared.table_id self.now.table.shared.key) }
    {
        let shared = &self.table.shared;
        let (_, mut visitor) = shared.load_new_seat::<Come>(0);
        if shared.compare_exchange::<Enter>(&mut visitor, 0, FREE, TAKEN) != FREE {
            return Err(Busy { _found: () });
        }
        Ok(visitor)
    }

    /// The visitor leaves.
    #[inline(always)]
    pub(crate) fn leave(&self, visitor: Visitor) -> Visit
        requires { MayLeave self.now.table.shared.table_id self.now.table.shared.key visitor }
        ensures { result ≡ record visitor.me.0 { left = first_held visitor.me.1 } }
    {
        let mut seat = visitor;
        let room = seat.slot_mut(&self.table.shared, 0);
        // a clause of this call says that the zone is the run of its entries
        room.history();
        self.table.shared.store::<Leave>(&mut seat, 0, FREE);
        Visit { seat }
    }
}
