//! A row of zones, each behind its lock.
ghost use Rattle.std.specs.Prelude.{◌≡◌, ◌<◌, ◌≤◌, false, length, IfErr, IfNone, IfOk, IfSome};
ghost use Rattle.zp_gate.specs.GatedRows.{HasNoWorkers, key_at};
ghost use Rattle.zp_gate.specs.Visits.{HasGathered, IsUngathered};

use crate::gated_reader::GatedReader;
use crate::gated_worker::GatedWorker;
use crate::try_lock::{GatherError, Gathered, TryLock};
use std::alloc::Global;
use std::marker::Model;
use std::sync::Arc;

/// The zones of a row. Contracts see their keys.
#[derive(Drop)]
pub struct GatedRow {
    pub(crate) locks: Vec<Arc<TryLock, Global>>,
}

impl Model for GatedRow {
    ghost use Rattle.std.specs.Prelude.{map};
    ghost use Rattle.std.specs.Arc.{arc_value};
    ghost use Rattle.zp_gate.specs.GatedRows.{RowState, lock_key};

    ghost Value = { RowState };

    ghost view = { λ r. map (λ l. lock_key (arc_value l)) r.locks.items };
}

impl GatedRow {
    /// Whether a worker has not left one of the zones. Where somebody is with a zone, a worker is.
    pub fn has_worker(&self) -> bool
        ensures { result ≡ false → HasNoWorkers self.now }
    {
        for lock in &self.locks {
            let Ok(_) = lock.gather() else {
                return true;
            };
        }
        false
    }

    /// Where the pages of the zone at this place are, where the row has it.
    pub fn gather(&self, zone: usize) -> Option<Result<Gathered, GatherError>>
        ensures has { IfSome result (λ _. zone < length self.now) }
        ensures ok { IfSome result (λ r. IfOk r (λ g. HasGathered (key_at self.now zone) g.totals g.visit)) }
        ensures missed { IfSome result (λ r. IfErr r (IsUngathered (key_at self.now zone))) }
        ensures none { IfNone result (length self.now ≤ zone) }
    {
        match self.locks.get(zone) {
            Some(lock) => Some(lock.gather()),
            None => None,
        }
    }
}

/// A worker may be used by any thread.
pub fn worker_crosses(worker: GatedWorker) -> GatedWorker {
    crosses(worker)
}

/// A reader may be used by any thread.
pub fn reader_crosses(reader: GatedReader) -> GatedReader {
    crosses(reader)
}

/// A row may be used by any thread.
pub fn row_crosses(row: GatedRow) -> GatedRow {
    crosses(row)
}

fn crosses<T: Send>(value: T) -> T {
    value
}
