//! A reader of a zone's board: it reads the zone's counts beside the lock, whoever is in.
ghost use Rattle.std.specs.Prelude.{◌≡◌, IfErr, IfOk};
ghost use Rattle.zp_zone.specs.Seats.{ZoneState};
ghost use Rattle.zp_gate.specs.Readers.{IsRead, IsReadInside};

use crate::try_lock::{Busy, TryLock};
use std::alloc::Global;
use std::marker::Model;
use std::sync::Arc;
use zp_counts::{BoardReader, Reading};

/// A reader of the board beside a lock. It keeps the zone, also once its row has ended. Contracts see the zone's key, and what the reader
/// has seen.
#[derive(Drop)]
pub struct GatedReader {
    pub(crate) lock: Arc<TryLock, Global>,
    pub(crate) reader: BoardReader,
}

impl Model for GatedReader {
    ghost use Rattle.std.specs.Arc.{arc_value};
    ghost use Rattle.zp_gate.specs.GatedRows.{lock_key};
    ghost use Rattle.zp_gate.specs.Readers.{IsReaderOf, ReaderState};

    ghost Value = { ReaderState };

    ghost view = { λ r. record { key = lock_key (arc_value r.lock); reader = r.reader } };

    ghost invariant = { λ r. IsReaderOf (lock_key (arc_value r.lock)).board r.reader };
}

impl GatedReader {
    /// The zone's counts as they were published, and after how many requests: never older than what this reader has seen. It asks nobody, and never
    /// waits.
    pub fn read(&mut self) -> Reading
        ensures { IsRead self.old self.new result }
    {
        let lock = &*self.lock;
        let Some(board) = &lock.board else {
            unreachable!()
        };
        self.reader.read(board)
    }

    /// The same behind the lock: the zone's counts at this moment.
    pub fn read_inside(&mut self) -> Result<Reading, Busy>
        ensures read { IfOk result (λ told. (z : ZoneState) × IsReadInside z self.old self.new told) }
        ensures busy { IfErr result (λ b. self.new ≡ self.old) }
    {
        let lock = &*self.lock;
        let Some(board) = &lock.board else {
            unreachable!()
        };
        let mut visitor = lock.enter()?;
        let zone = visitor.slot_mut(&lock.table.shared, 0);
        let told = zone.read_board(board, &mut self.reader);
        lock.leave(visitor);
        Ok(told)
    }
}
