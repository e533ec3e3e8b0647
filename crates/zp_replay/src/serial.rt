//! The serial replay: one thread, the commands in the trace's order.
ghost use Rattle.std.specs.Prelude.{◌≡◌, ◌≢◌, ◌<◌, ℕ, Ok, Err, IfOk, IfErr, OnOk, length};
ghost use Rattle.zp_streams.specs.Streams.{IsBegun, IsWritten};
ghost use Rattle.zp_replay.specs.Output.{output};
ghost use Rattle.zp_replay.specs.Replaying.{IsParsed, IsRefusedAt, IsUnanswered};
ghost use Rattle.zp_replay.specs.Serving.{IsCutShort, IsReplayed, IsServedInOrder};

use crate::ending::{Ending, ReplayFault};
use crate::report::write_report;
use crate::traces::{Input, read_trace};
use std::alloc::Global;
use zp_model::Refused;
use zp_office::Office;
use zp_text::{Reader, Writer};
use zp_trace::Trace;

/// The zones and desks of a trace, when its commands were carried out one after another, in their order. Memory.
fn serve_in_order(alloc: Global, trace: &Trace) -> Result<Office, ReplayFault>
    requires { IsParsed trace.now }
    ensures served { IfOk result (IsServedInOrder trace.now) }
    ensures workers { IfOk result (λ o. length o.desks ≡ trace.now.header.workers) }
    ensures why { IfErr result (λ e. e ≡ ReplayFault.Memory) }
{
    let mut office = match Office::open(alloc, trace) {
        Ok(office) => office,
        Err(Refused::Memory) => return Err(ReplayFault::Memory),
        Err(_) => unreachable!(),
    };
    office.carry_out_all(trace.commands.as_slice());
    Ok(office)
}

/// Carries out the commands of a trace and writes its output. Memory or Write.
fn write_output<W: Writer>(alloc: Global, trace: &Trace, writer: &mut W) -> Result<(), ReplayFault>
    requires { IsParsed trace.now }
    ensures ok { OnOk result (IsWritten (W.contents writer.old) (W.contents writer.new) (output trace.now)) }
    ensures begun { result ≡ Err ReplayFault.Write → IsBegun (W.contents writer.old) (W.contents writer.new) (output trace.now) }
    ensures unmade { result ≡ Err ReplayFault.Memory → W.contents writer.new ≡ W.contents writer.old }
    ensures only { (result ≡ Err ReplayFault.Read → ⊥) × (result ≡ Err ReplayFault.NoThread → ⊥) }
    ensures write { result ≡ Err ReplayFault.Write → W.failures writer.old < W.failures writer.new }
    ensures write_only { result ≢ Err ReplayFault.Write → W.failures writer.new ≡ W.failures writer.old }
{
    let room = Vec::with_capacity(alloc, trace.header.workers as usize)?;
    let office = serve_in_order(alloc, trace)?;
    write_report(writer, office, trace.commands.as_slice(), room)?;
    Ok(())
}

/// Reads a trace to its end, or as much as no good trace has, and writes its output; of a bad trace the number of its bad
/// line.
pub fn replay_serial<R: Reader, W: Writer>(
    alloc: Global,
    reader: &mut R,
    writer: &mut W,
) -> Result<Ending, ReplayFault>
    ensures good { result ≡ Ok Ending.Good → IsReplayed (R.remaining reader.old) (R.remaining reader.new) (W.contents writer.old) (W.contents writer.new) }
    ensures bad { (n : ℕ) → result ≡ Ok (Ending.BadLine n) → IsRefusedAt (R.remaining reader.old) (R.remaining reader.new) (W.contents writer.old) (W.contents writer.new) n }
    ensures no_thread { result ≡ Err ReplayFault.NoThread → ⊥ }

    // What is left where it broke off.
    ensures unread { result ≡ Err ReplayFault.Read → IsUnanswered (R.remaining reader.old) (R.remaining reader.new) (W.contents writer.old) (W.contents writer.new) }
    ensures unmade { result ≡ Err ReplayFault.Memory → IsUnanswered (R.remaining reader.old) (R.remaining reader.new) (W.contents writer.old) (W.contents writer.new) }
    ensures begun { result ≡ Err ReplayFault.Write → IsCutShort (R.remaining reader.old) (R.remaining reader.new) (W.contents writer.old) (W.contents writer.new) }

    // A device has failed where its fault is returned, and nowhere else.
    ensures read { result ≡ Err ReplayFault.Read → R.failures reader.old < R.failures reader.new }
    ensures read_only { result ≢ Err ReplayFault.Read → R.failures reader.new ≡ R.failures reader.old }
    ensures write { result ≡ Err ReplayFault.Write → W.failures writer.old < W.failures writer.new }
    ensures write_only { result ≢ Err ReplayFault.Write → W.failures writer.new ≡ W.failures writer.old }
{
    let trace = match read_trace(alloc, reader, writer)? {
        Input::Trace(trace) => trace,
        Input::BadLine(number) => return Ok(Ending::BadLine(number)),
    };
    write_output(alloc, &trace, writer)?;
    Ok(Ending::Good)
}
