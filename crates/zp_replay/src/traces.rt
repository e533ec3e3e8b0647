//! Traces, read and parsed.
ghost use Rattle.std.specs.Prelude.{◌≡◌, ◌≢◌, ◌<◌, Err, IfOk};
ghost use Rattle.zp_replay.specs.Replaying.{IsBadLineCut, IsInputOf, IsUnanswered};

use crate::ending::ReplayFault;
use crate::input::read_input;
use crate::lines::bad_line;
use std::alloc::Global;
use zp_text::{Reader, Writer, write_all};
use zp_trace::{Trace, TraceFault, parse_trace};

/// What the input was.
#[derive(Drop)]
pub enum Input {
    Trace(Trace),
    /// A text that is no trace: the number of its bad line, which was written.
    BadLine(u32),
}

/// Reads a trace to its end, or as much as no good trace has; of a bad trace the number of its bad line is written, and of a good
/// one nothing. Memory, Read or Write.
pub fn read_trace<R: Reader, W: Writer>(
    alloc: Global,
    reader: &mut R,
    writer: &mut W,
) -> Result<Input, ReplayFault>
    ensures input { IfOk result (λ i. IsInputOf (R.remaining reader.old) (R.remaining reader.new) (W.contents writer.old) (W.contents writer.new) i) }
    ensures no_thread { result ≡ Err ReplayFault.NoThread → ⊥ }
    ensures unread { result ≡ Err ReplayFault.Read → IsUnanswered (R.remaining reader.old) (R.remaining reader.new) (W.contents writer.old) (W.contents writer.new) }
    ensures unmade { result ≡ Err ReplayFault.Memory → IsUnanswered (R.remaining reader.old) (R.remaining reader.new) (W.contents writer.old) (W.contents writer.new) }
    ensures begun { result ≡ Err ReplayFault.Write → IsBadLineCut (R.remaining reader.old) (R.remaining reader.new) (W.contents writer.old) (W.contents writer.new) }
    ensures read { result ≡ Err ReplayFault.Read → R.failures reader.old < R.failures reader.new }
    ensures read_only { result ≢ Err ReplayFault.Read → R.failures reader.new ≡ R.failures reader.old }
    ensures write { result ≡ Err ReplayFault.Write → W.failures writer.old < W.failures writer.new }
    ensures write_only { result ≢ Err ReplayFault.Write → W.failures writer.new ≡ W.failures writer.old }
{
    let text = read_input(alloc, reader)?;
    match parse_trace(alloc, &text) {
        Ok(trace) => Ok(Input::Trace(trace)),
        Err(TraceFault::BadLine(number)) => {
            write_all(writer, bad_line(number).as_bytes())?;
            Ok(Input::BadLine(number))
        }
        Err(TraceFault::Memory) => Err(ReplayFault::Memory),
    }
}
