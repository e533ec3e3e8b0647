//! What C holds of a row, of a worker and of a reader, which lie on the heap: the pointer alone, or nothing.
ghost use Rattle.std.specs.Prelude.{◌≡◌, IsSome, Option, Some, None};
ghost use Rattle.zp_gate.specs.GatedRows.{RowState};
ghost use Rattle.zp_gate.specs.GatedWorkers.{WorkerState};
ghost use Rattle.zp_gate.specs.Readers.{ReaderState};

use crate::loose::Loose;
use std::alloc::Global;
use std::marker::Model;
use std::ptr::null_mut;
use zp_gate::{GatedReader, GatedRow, GatedWorker};

#[repr(C)]
#[derive(Drop)]
pub struct RowSlot {
    at: *mut u8,
    pub ghost value: { Option RowState },
}

impl Model for RowSlot {
    ghost use Rattle.zonealloc.specs.Slot.{chunk, slot_owns};
    ghost use Rattle.zp_gate.specs.contracts.gated_row.GatedRow.{the_row};

    ghost also_owns = { λ s. slot_owns chunk the_row s.at s.value };
}

impl RowSlot {
    pub fn empty() -> RowSlot
        ensures { result.value ≡ None }
    {
        RowSlot { at: null_mut() }
    }

    pub fn of(held: Loose<GatedRow, Global>) -> RowSlot
        ensures { result.value ≡ Some held.value }
    {
        let Loose { at, alloc: _ } = held;
        RowSlot { at: at as *mut u8 }
    }

    pub fn into_loose(self, alloc: Global) -> Loose<GatedRow, Global>
        requires { IsSome self.value }
        ensures { Some result.value ≡ self.value }
    {
        let RowSlot { at } = self;
        Loose {
            at: at as *mut GatedRow,
            alloc,
        }
    }
}

unsafe impl Send for RowSlot {}

#[repr(C)]
#[derive(Drop)]
pub struct WorkerSlot {
    pub(crate) at: *mut u8,
    pub ghost value: { Option WorkerState },
}

impl Model for WorkerSlot {
    ghost use Rattle.zonealloc.specs.Slot.{chunk, slot_owns};
    ghost use Rattle.zp_gate.specs.contracts.gated_worker.GatedWorker.{the_row};

    ghost also_owns = { λ s. slot_owns chunk the_row s.at s.value };
}

impl WorkerSlot {
    pub fn empty() -> WorkerSlot
        ensures { result.value ≡ None }
    {
        WorkerSlot { at: null_mut() }
    }

    pub fn of(held: Loose<GatedWorker, Global>) -> WorkerSlot
        ensures { result.value ≡ Some held.value }
    {
        let Loose { at, alloc: _ } = held;
        WorkerSlot { at: at as *mut u8 }
    }

    pub fn into_loose(self, alloc: Global) -> Loose<GatedWorker, Global>
        requires { IsSome self.value }
        ensures { Some result.value ≡ self.value }
    {
        let WorkerSlot { at } = self;
        Loose {
            at: at as *mut GatedWorker,
            alloc,
        }
    }
}

unsafe impl Send for WorkerSlot {}

#[repr(C)]
#[derive(Drop)]
pub struct ReaderSlot {
    at: *mut u8,
    pub ghost value: { Option ReaderState },
}

impl Model for ReaderSlot {
    ghost use Rattle.zonealloc.specs.Slot.{chunk, slot_owns};
    ghost use Rattle.zp_gate.specs.contracts.gated_reader.GatedReader.{the_row};

    ghost also_owns = { λ s. slot_owns chunk the_row s.at s.value };
}

impl ReaderSlot {
    pub fn empty() -> ReaderSlot
        ensures { result.value ≡ None }
    {
        ReaderSlot { at: null_mut() }
    }

    pub fn of(held: Loose<GatedReader, Global>) -> ReaderSlot
        ensures { result.value ≡ Some held.value }
    {
        let Loose { at, alloc: _ } = held;
        ReaderSlot { at: at as *mut u8 }
    }

    pub fn into_loose(self, alloc: Global) -> Loose<GatedReader, Global>
        requires { IsSome self.value }
        ensures { Some result.value ≡ self.value }
    {
        let ReaderSlot { at } = self;
        Loose {
            at: at as *mut GatedReader,
            alloc,
        }
    }
}

unsafe impl Send for ReaderSlot {}
