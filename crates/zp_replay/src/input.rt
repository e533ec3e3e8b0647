//! Reading the input.
ghost use Rattle.std.specs.Prelude.{◌≡◌, ◌≢◌, ◌<◌, Err, length, vec_len, IfOk, OnOk, OnErr};
ghost use Rattle.zp_replay.specs.Inputs.{IsFilled, IsRead, IsReadWithin};

use crate::ending::ReplayFault;
use std::alloc::{AllocError, Global};
use zp_text::{ReadFault, Reader};

/// The most bytes that are read. No good trace has so many: what is longer has its bad line among them.
pub const INPUT_LIMIT: usize = 262_144;

/// Reads into a buffer until it is full or the reader has no more: how many bytes.
fn fill<R: Reader>(reader: &mut R, buffer: &mut [u8]) -> Result<usize, ReadFault>
    ensures ok { IfOk result (λ n. IsFilled (R.remaining reader.old) (R.remaining reader.new) buffer.new n) }
    ensures calm { OnOk result (R.failures reader.new ≡ R.failures reader.old) }
    ensures failed { OnErr result (R.failures reader.old < R.failures reader.new) }
    ensures begun { OnErr result (IsReadWithin (R.remaining reader.old) (R.remaining reader.new) (length buffer.old)) }
{
    let mut at = 0;
    'pieces: while at < buffer.len() {
        let count = reader.read(&mut buffer[at..])?;
        if count == 0 {
            return Ok(at);
        }
        at += count;
    }
    Ok(at)
}

/// A buffer of so many bytes.
fn buffer(alloc: Global, bytes: usize) -> Result<Vec<u8>, AllocError>
    ensures { IfOk result (λ buffer. vec_len buffer ≡ bytes) }
{
    vec![in alloc; 0; bytes]
}

/// All that the reader has left, or the first `INPUT_LIMIT` bytes of it.
pub fn read_input<R: Reader>(alloc: Global, reader: &mut R) -> Result<Vec<u8>, ReplayFault>
    ensures ok { IfOk result (λ text. IsRead (R.remaining reader.old) (R.remaining reader.new) text.items) }
    ensures calm { result ≢ Err ReplayFault.Read → R.failures reader.new ≡ R.failures reader.old }
    ensures begun { OnErr result (IsReadWithin (R.remaining reader.old) (R.remaining reader.new) INPUT_LIMIT) }
    ensures failed { result ≡ Err ReplayFault.Read → R.failures reader.old < R.failures reader.new }
    ensures only { (result ≡ Err ReplayFault.Write → ⊥) × (result ≡ Err ReplayFault.NoThread → ⊥) }
{
    let mut text = buffer(alloc, INPUT_LIMIT)?;
    let Ok(count) = fill(reader, &mut text) else {
        return Err(ReplayFault::Read);
    };
    text.truncate(count);
    Ok(text)
}
