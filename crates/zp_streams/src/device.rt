//! Readers and writers over the streams of std. A device shows the bytes that its stream shows, as one in memory does and a terminal
//! does not; contracts know how often it failed.
ghost use Rattle.std.specs.Prelude.{◌≡◌, ◌+◌, IfOk, OnOk, OnErr};
ghost use Rattle.std.specs.Io.KnownBytes.{Keeps};
ghost use Rattle.zp_streams.specs.Streams.{Fills};

use crate::failures::Failures;
use crate::streams::{ReadFault, Reader, WriteFault, Writer};
use std::io::{Read, Write};
use std::sync::ledger::Ledger;

/// The most bytes of one read.
const CHUNK: usize = 4096;

/// A reader over a stream.
#[derive(Drop)]
pub struct Source<S: Read, L: Ledger> {
    stream: S,
    failures: Failures<L>,
}

impl<S: Read, L: Ledger> Source<S, L> {
    pub fn new(stream: S, failures: Failures<L>) -> Source<S, L>
        ensures stream { result.stream ≡ stream }
        ensures failures { result.failures ≡ failures }
    {
        Source { stream, failures }
    }
}

impl<S: Read, L: Ledger> Reader for Source<S, L> {
    ghost remaining = { λ s. S.remaining s.stream };

    ghost failures = { λ s. s.failures };

    fn read(&mut self, buffer: &mut [u8]) -> Result<usize, ReadFault>
        ensures given { IfOk result (λ n. Fills buffer.old buffer.new n (S.remaining self.old.stream) (S.remaining self.new.stream)) }
        ensures calm { OnOk result (self.new.failures ≡ self.old.failures) }
        ensures fault { OnErr result (Keeps (S.remaining self.old.stream) (S.remaining self.new.stream) × (self.new.failures ≡ self.old.failures + 1)) }

        // A failed call gives nothing.
        ensures kept { OnErr result (buffer.new ≡ buffer.old) }
    {
        let mut chunk = [0; CHUNK];
        let room = buffer.len().min(CHUNK);
        let Ok(count) = self.stream.read(&mut chunk[..room]) else {
            self.failures.add();
            return Err(ReadFault);
        };
        buffer[..count].copy_from_slice(&chunk[..count]);
        Ok(count)
    }
}

/// A writer over a stream.
#[derive(Drop)]
pub struct Sink<S: Write, L: Ledger> {
    stream: S,
    failures: Failures<L>,
}

impl<S: Write, L: Ledger> Sink<S, L> {
    pub fn new(stream: S, failures: Failures<L>) -> Sink<S, L>
        ensures stream { result.stream ≡ stream }
        ensures failures { result.failures ≡ failures }
    {
        Sink { stream, failures }
    }
}

impl<S: Write, L: Ledger> Writer for Sink<S, L> {
    ghost contents = { λ s. S.contents s.stream };

    ghost failures = { λ s. s.failures };

    fn write(&mut self, piece: &[u8]) -> Result<usize, WriteFault> {
        match self.stream.write(piece) {
            Ok(count) if count > 0 || piece.is_empty() => Ok(count),
            _ => {
                self.failures.add();
                Err(WriteFault)
            }
        }
    }
}
