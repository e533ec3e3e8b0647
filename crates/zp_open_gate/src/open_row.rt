//! A row of open rooms, each behind its lock. Any number of threads call it at the same time, each call is one visit, and one that finds somebody
//! with the zone returns `NotVisited::Busy` at once.
ghost use Rattle.std.specs.Prelude.{◌≡◌, ◌≤◌, ◌↔◌, Err, IfOk, length};
ghost use Rattle.zp_open_gate.specs.declared.visited.NotVisited.TheVariants.{NoZone};
ghost use Rattle.zp_open_gate.specs.Locks.{IsIn};
ghost use Rattle.zp_open_gate.specs.Rows.{key_at, lock_key};

mod blocks;
mod extent;
mod opening;
mod pageblocks;
mod reports;
mod runs;

use crate::try_lock::{TryLock, Visitor};
use crate::visited::NotVisited;
use std::marker::Model;

/// A row of zones that any thread may use. Contracts see of each zone what never changes.
#[derive(Drop)]
pub struct OpenRow {
    pub(crate) locks: Vec<TryLock>,
}

impl Model for OpenRow {
    ghost use Rattle.std.specs.Prelude.{map};
    ghost use Rattle.zp_open_gate.specs.Rows.{RowState, lock_key};

    ghost Value = { RowState };

    ghost view = { λ r. map lock_key r.locks.items };
}

impl OpenRow {
    /// Enters the zone at this place, where nobody is in.
    #[inline(always)]
    fn enter(&self, zone: usize) -> Result<(&TryLock, Visitor), NotVisited>
        ensures zone { (result ≡ Err NoZone) ↔ (length self.now ≤ zone) }
        ensures key { IfOk result (λ r. lock_key r.0.now ≡ key_at self.now zone) }
        ensures inside { IfOk result (λ r. IsIn r.0.now.table.shared.table_id (lock_key r.0.now) r.1) }
    {
        let Some(lock) = self.locks.get(zone) else {
            return Err(NotVisited::NoZone);
        };
        match lock.enter() {
            Ok(visitor) => Ok((lock, visitor)),
            Err(busy) => Err(NotVisited::Busy(busy)),
        }
    }
}
