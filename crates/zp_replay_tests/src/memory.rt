//! A reader and a writer in memory, which give and take their bytes in small pieces and can fail at a call.
ghost use Rattle.std.specs.Prelude.{◌≡◌, ◌<◌, ◌+◌, ◌==◌, ℕ, [], Some, None, true, false, length, is_err, IfOk, OnOk, OnErr};
ghost use Rattle.std.specs.Io.KnownBytes.{Keeps};
ghost use Rattle.zp_streams.specs.Streams.{Fills, Takes};
ghost use Rattle.zp_replay_tests.specs.Devices.{is_due, after_call, after_calls, Gives, Stores, failed_reader, failed_writer};

use std::alloc::Global;
use std::marker::Model;
use std::sync::ledger::Ledger;
use zp_replay::Failures;
use zp_text::{ReadFault, Reader, WriteFault, Writer};

/// When a device in memory fails: at one call, counted from 0, or never.
#[derive(Clone, Copy, Drop)]
pub struct Schedule {
    left: Option<usize>,
}

impl Model for Schedule {
    ghost use Rattle.std.specs.Prelude.{Option, ℕ};

    ghost Value = { Option ℕ };

    ghost view = { λ s. s.left };

    ghost inverse = { λ calls. record { left = calls } };
}

impl Schedule {
    pub fn never() -> Schedule
        ensures never { result ≡ None }
        ensures due { (k : ℕ) → is_due (after_calls k result) ≡ false }
    {
        Schedule { left: None }
    }

    pub fn after(calls: usize) -> Schedule
        ensures after { result ≡ Some calls }
        ensures due { (k : ℕ) → is_due (after_calls k result) ≡ (k == calls) }
    {
        Schedule { left: Some(calls) }
    }

    /// Whether this call fails.
    fn is_due(&mut self) -> bool
        ensures due { result ≡ is_due self.old }
        ensures left { self.new ≡ after_call self.old }
    {
        match self.left {
            Some(0) => {
                self.left = None;
                true
            }
            Some(calls) => {
                self.left = Some(calls - 1);
                false
            }
            None => false,
        }
    }
}

/// Gives the bytes of a slice.
#[derive(Drop)]
pub struct SliceReader<'a, L: Ledger> {
    rest: &'a [u8],
    piece: usize,
    schedule: Schedule,
    failures: Failures<L>,
}

impl<'a, L: Ledger> Model for SliceReader<'a, L> {
    ghost use Rattle.std.specs.Prelude.{◌<◌};
    ghost use Rattle.zp_replay_tests.specs.Devices.{MemoryReader};

    ghost Value = { MemoryReader };

    ghost view = { λ r. record { rest = r.rest.now; piece = r.piece; schedule = r.schedule; failures = r.failures } };

    ghost invariant = { λ r. 0 < r.piece };
}

impl<'a, L: Ledger> SliceReader<'a, L> {
    /// Gives at most so many bytes at a time.
    pub fn new(
        bytes: &'a [u8],
        piece: usize,
        schedule: Schedule,
        failures: Failures<L>,
    ) -> SliceReader<'a, L>
        requires { 0 < piece }
        ensures { result ≡ record { rest = bytes.entry.now; piece = piece; schedule = schedule; failures = failures } }
    {
        SliceReader {
            rest: bytes,
            piece,
            schedule,
            failures,
        }
    }

    /// The bytes that it has left.
    pub fn rest(&self) -> &'a [u8]
        ensures { result.now ≡ self.now.rest }
    {
        self.rest
    }
}

impl<'a, L: Ledger> Reader for SliceReader<'a, L> {
    ghost remaining = { λ r. Some r.rest };

    ghost failures = { λ r. r.failures };

    fn read(&mut self, buffer: &mut [u8]) -> Result<usize, ReadFault>
        ensures given { IfOk result (λ n. Fills buffer.old buffer.new n (Some self.old.rest) (Some self.new.rest)) }
        ensures calm { OnOk result (self.new.failures ≡ self.old.failures) }
        ensures fault { OnErr result (Keeps (Some self.old.rest) (Some self.new.rest) × (self.new.failures ≡ self.old.failures + 1)) }

        // The bytes are those in front, and it fails where it is due and nowhere else.
        ensures due { is_err result ≡ is_due self.old.schedule }
        ensures gives { IfOk result (Gives self.old self.new buffer.old buffer.new) }
        ensures failed { OnErr result ((self.new ≡ failed_reader self.old) × (buffer.new ≡ buffer.old)) }
    {
        if self.schedule.is_due() {
            self.failures.add();
            return Err(ReadFault);
        }
        let count = self.piece.min(self.rest.len()).min(buffer.len());
        let (piece, rest) = self.rest.split_at(count);
        buffer[..count].copy_from_slice(piece);
        self.rest = rest;
        Ok(count)
    }
}

/// Keeps the bytes that it takes.
#[derive(Drop)]
pub struct VecWriter<L: Ledger> {
    bytes: Vec<u8>,
    piece: usize,
    schedule: Schedule,
    failures: Failures<L>,
}

impl<L: Ledger> Model for VecWriter<L> {
    ghost use Rattle.std.specs.Prelude.{◌<◌};
    ghost use Rattle.zp_replay_tests.specs.Devices.{MemoryWriter};

    ghost Value = { MemoryWriter };

    ghost view = { λ w. record { bytes = w.bytes.items; piece = w.piece; schedule = w.schedule; failures = w.failures } };

    ghost invariant = { λ w. 0 < w.piece };
}

impl<L: Ledger> VecWriter<L> {
    /// Takes at most so many bytes at a time.
    pub fn new(
        alloc: Global,
        piece: usize,
        schedule: Schedule,
        failures: Failures<L>,
    ) -> VecWriter<L>
        requires { 0 < piece }
        ensures { result ≡ record { bytes = []; piece = piece; schedule = schedule; failures = failures } }
    {
        VecWriter {
            bytes: Vec::new(alloc),
            piece,
            schedule,
            failures,
        }
    }

    /// All that it took.
    pub fn into_bytes(self) -> Vec<u8>
        ensures { result.items ≡ self.bytes }
    {
        let VecWriter { bytes, .. } = self;
        bytes
    }
}

impl<L: Ledger> Writer for VecWriter<L> {
    ghost contents = { λ w. Some w.bytes };

    ghost failures = { λ w. w.failures };

    /// Fails where there is no memory for the bytes, too.
    fn write(&mut self, piece: &[u8]) -> Result<usize, WriteFault>
        ensures taken { IfOk result (λ n. Takes piece.now n (Some self.old.bytes) (Some self.new.bytes)) }
        ensures calm { OnOk result (self.new.failures ≡ self.old.failures) }
        ensures fault { OnErr result (Keeps (Some self.old.bytes) (Some self.new.bytes) × (self.new.failures ≡ self.old.failures + 1)) }

        // The bytes come to the end, and it fails where it is due.
        ensures due { OnOk result (is_due self.old.schedule ≡ false) }
        ensures stores { IfOk result (Stores self.old self.new piece.now) }
        ensures failed { OnErr result (self.new ≡ failed_writer self.old) }
    {
        let count = self.piece.min(piece.len());
        if self.schedule.is_due() || self.bytes.extend_from_slice(&piece[..count]).is_err() {
            self.failures.add();
            return Err(WriteFault);
        }
        Ok(count)
    }
}
