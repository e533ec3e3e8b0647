//! Readers and writers whose failed calls contracts can count.
ghost use Rattle.std.specs.Prelude.{◌≡◌, ◌<◌, ◌≤◌, ◌+◌, ℕ, List, Option, length, take, IfOk, OnOk, OnErr};
ghost use Rattle.std.specs.Io.KnownBytes.{Keeps};
ghost use Rattle.zp_streams.specs.Streams.{Takes, Fills, IsWritten, IsBegun};

/// A writer failed.
#[derive(Clone, Copy, PartialEq, Eq, Debug, Drop)]
pub struct WriteFault;

/// A reader failed.
#[derive(Clone, Copy, PartialEq, Eq, Debug, Drop)]
pub struct ReadFault;

/// Takes bytes, piece by piece.
pub trait Writer {
    // All that it has taken, where it shows that.
    ghost contents: { Self → Option (List ℕ) };
    // How many of its calls have failed; no code sees this number.
    ghost failures: { Self → ℕ };

    /// Takes a beginning of the piece: one byte at least, where the piece is not empty.
    fn write(&mut self, piece: &[u8]) -> Result<usize, WriteFault>
        ensures taken { IfOk result (λ n. Takes piece.now n (contents self.old) (contents self.new)) }
        ensures calm { OnOk result (failures self.new ≡ failures self.old) }
        ensures fault { OnErr result (Keeps (contents self.old) (contents self.new) × (failures self.new ≡ failures self.old + 1)) };
}

/// Gives bytes, piece by piece.
pub trait Reader {
    // All that it has left, where it shows that.
    ghost remaining: { Self → Option (List ℕ) };
    // How many of its calls have failed; no code sees this number.
    ghost failures: { Self → ℕ };

    /// Gives the next bytes into the front of a buffer, and says how many. None, into a buffer with room, is the end.
    fn read(&mut self, buffer: &mut [u8]) -> Result<usize, ReadFault>
        ensures given { IfOk result (λ n. Fills buffer.old buffer.new n (remaining self.old) (remaining self.new)) }
        ensures calm { OnOk result (failures self.new ≡ failures self.old) }
        ensures fault { OnErr result (Keeps (remaining self.old) (remaining self.new) × (failures self.new ≡ failures self.old + 1)) };
}

/// Writes all of the bytes. A fault comes only where the writer failed, and leaves a beginning of them written.
pub fn write_all<W: Writer>(writer: &mut W, bytes: &[u8]) -> Result<(), WriteFault>
    ensures ok { OnOk result (IsWritten (W.contents writer.old) (W.contents writer.new) bytes.now) }
    ensures calm { OnOk result (W.failures writer.new ≡ W.failures writer.old) }
    ensures err { OnErr result (IsBegun (W.contents writer.old) (W.contents writer.new) bytes.now) }
    ensures failed { OnErr result (W.failures writer.old < W.failures writer.new) }
{
    if write_pieces(writer, bytes) < bytes.len() {
        return Err(WriteFault);
    }
    Ok(())
}

/// Writes the bytes until the writer fails, and says how many it took: all of them, or fewer where it failed.
#[inline]
pub fn write_pieces<W: Writer>(writer: &mut W, bytes: &[u8]) -> usize
    ensures within { result ≤ length bytes.now }
    ensures written { IsWritten (W.contents writer.old) (W.contents writer.new) (take result bytes.now) }
    ensures calm { result ≡ length bytes.now → W.failures writer.new ≡ W.failures writer.old }
    ensures failed { result < length bytes.now → W.failures writer.new ≡ W.failures writer.old + 1 }
{
    let mut at = 0;
    'pieces: while at < bytes.len() {
        match writer.write(&bytes[at..]) {
            Ok(count) => at += count,
            Err(WriteFault) => return at,
        }
    }
    at
}
