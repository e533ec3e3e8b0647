//! Bytes that were read and are not passed on yet.
ghost use Rattle.std.specs.Prelude.{◌≡◌, ◌≤◌, ◌+◌, ◌-◌, [], drop, take, length, IfOk, OnOk, OnErr};
ghost use Rattle.std.specs.Io.KnownBytes.{Keeps};
ghost use Rattle.zp_events.specs.declared.reading.TheConstants.{LONGEST_LINE};
ghost use Rattle.zp_events.specs.Windows.{IsFilled};

use crate::reading::LONGEST_LINE;
use std::alloc::{AllocError, Global};
use std::marker::Model;
use zp_streams::{ReadFault, Reader};

/// The bytes of a buffer: the longest line, and a chunk.
const CAPACITY: usize = LONGEST_LINE + 4_096;

/// Bytes between two places of a buffer, which moves over a stream.
#[derive(Drop)]
pub struct Window {
    bytes: Vec<u8>,
    start: usize,
    end: usize,
}

impl Model for Window {
    ghost use Rattle.std.specs.Prelude.{◌≡◌, ◌≤◌, ◌-◌, ℕ, List, length, take, drop};
    ghost use Rattle.zp_events.specs.declared.window.TheConstants.{CAPACITY};

    ghost Value = { List ℕ };

    ghost view = { λ w. take (w.end - w.start) (drop w.start w.bytes.items) };

    ghost invariant = { λ w. (w.start ≤ w.end) × (w.end ≤ CAPACITY) × (length w.bytes.items ≡ CAPACITY) };
}

/// Moves the bytes between two places to the front of a buffer.
fn to_front(bytes: &mut [u8], start: usize, end: usize)
    requires ordered { start ≤ end }
    requires within { end ≤ length bytes.old }
    ensures { take (end - start) bytes.new ≡ take (end - start) (drop start bytes.old) }
{
    bytes.copy_within(start..end, 0);
}

impl Window {
    /// Of no bytes.
    pub fn new(alloc: Global) -> Result<Window, AllocError>
        ensures { IfOk result (λ w. w ≡ []) }
    {
        let bytes = vec![in alloc; 0; CAPACITY]?;
        Ok(Window {
            bytes,
            start: 0,
            end: 0,
        })
    }

    /// The bytes.
    pub fn bytes(&self) -> &[u8]
        ensures { result.now ≡ self.now }
    {
        &self.bytes[self.start..self.end]
    }

    /// Leaves out so many at the front.
    pub fn pass(&mut self, count: usize)
        requires { count ≤ length self.old }
        ensures { self.new ≡ drop count self.old }
    {
        self.start += count;
    }

    /// Reads more behind the bytes, and says how many; none where the reader is at its end.
    pub fn fill<R: Reader>(&mut self, reader: &mut R) -> Result<usize, ReadFault>
        requires { length self.old ≤ LONGEST_LINE }
        ensures filled { IfOk result (λ n. IsFilled self.old self.new n (R.remaining reader.old) (R.remaining reader.new)) }
        ensures calm { OnOk result (R.failures reader.new ≡ R.failures reader.old) }
        ensures kept { OnErr result (self.new ≡ self.old) }
        ensures fault { OnErr result (Keeps (R.remaining reader.old) (R.remaining reader.new) × (R.failures reader.new ≡ R.failures reader.old + 1)) }
    {
        to_front(&mut self.bytes, self.start, self.end);
        self.end -= self.start;
        self.start = 0;
        let count = reader.read(&mut self.bytes[self.end..])?;
        self.end += count;
        Ok(count)
    }
}
