//! A writer in memory with room for a number of bytes, which shows how long the pieces were that it was asked to take.
ghost use Rattle.std.specs.Prelude.{◌≡◌, ◌≤◌, ◌+◌, ◌<◌, [], Some, length, IfOk, OnOk, OnErr};
ghost use Rattle.std.specs.Io.KnownBytes.{Keeps};
ghost use Rattle.zp_streams.specs.Streams.{Takes};
ghost use Rattle.zp_replay_tests.specs.Rooms.{taken, StoresWithin};

use std::alloc::Global;
use std::marker::Model;
use std::sync::ledger::Ledger;
use zp_replay::Failures;
use zp_text::{WriteFault, Writer};

/// What is taken of a piece.
#[derive(Clone, Copy, Drop)]
pub enum RoomTaking {
    /// All of it, or nothing.
    Whole,
    /// Half of it, or what there is room for.
    Half,
}

impl RoomTaking {
    /// How many bytes are taken of a piece of so many, where there is room for so many: none of a piece that is refused.
    fn taken(self, room: usize, piece: usize) -> usize
        ensures taken { result ≡ taken self room piece }
        ensures room { result ≤ room }
        ensures piece { result ≤ piece }
    {
        match self {
            RoomTaking::Whole if piece <= room => piece,
            RoomTaking::Whole => 0,
            RoomTaking::Half => room.min(piece - piece / 2),
        }
    }
}

/// Keeps the bytes that it takes, as long as there is room for them.
#[derive(Drop)]
pub struct RoomWriter<L: Ledger> {
    bytes: Vec<u8>,
    asked: Vec<usize>,
    room: usize,
    taking: RoomTaking,
    failures: Failures<L>,
}

impl<L: Ledger> Model for RoomWriter<L> {
    ghost use Rattle.zp_replay_tests.specs.Rooms.{RoomState};

    ghost Value = { RoomState };

    ghost view = { λ w. record { bytes = w.bytes.items; asked = w.asked.items; room = w.room; taking = w.taking; failures = w.failures } };
}

impl<L: Ledger> RoomWriter<L> {
    /// It has no bytes yet, and room for so many.
    pub fn new(
        alloc: Global,
        room: usize,
        taking: RoomTaking,
        failures: Failures<L>,
    ) -> RoomWriter<L>
        ensures { result ≡ record { bytes = []; asked = []; room = room; taking = taking; failures = failures } }
    {
        RoomWriter {
            bytes: Vec::new(alloc),
            asked: Vec::new(alloc),
            room,
            taking,
            failures,
        }
    }

    /// All that it took, and the length of each piece that it was asked to take.
    pub fn into_parts(self) -> (Vec<u8>, Vec<usize>)
        ensures bytes { result.0.items ≡ self.bytes }
        ensures asked { result.1.items ≡ self.asked }
    {
        let RoomWriter { bytes, asked, .. } = self;
        (bytes, asked)
    }
}

impl<L: Ledger> Writer for RoomWriter<L> {
    ghost contents = { λ w. Some w.bytes };

    ghost failures = { λ w. w.failures };

    /// Fails where there is no memory, too.
    fn write(&mut self, piece: &[u8]) -> Result<usize, WriteFault>
        ensures taken { IfOk result (λ n. Takes piece.now n (Some self.old.bytes) (Some self.new.bytes)) }
        ensures calm { OnOk result (self.new.failures ≡ self.old.failures) }
        ensures fault { OnErr result (Keeps (Some self.old.bytes) (Some self.new.bytes) × (self.new.failures ≡ self.old.failures + 1)) }

        // It takes what its rule says, and fails where that is nothing.
        ensures stores { IfOk result (StoresWithin self.old self.new piece.now) }
    {
        let count = self.taking.taken(self.room, piece.len());
        let is_noted = self.asked.push(piece.len()).is_ok();
        let is_taken = is_noted && (count > 0 || piece.is_empty());
        if !is_taken || self.bytes.extend_from_slice(&piece[..count]).is_err() {
            self.failures.add();
            return Err(WriteFault);
        }
        self.room -= count;
        Ok(count)
    }
}
