//! The replay in threads: one for each worker, all at the same time.
ghost use Rattle.std.specs.Prelude.{◌≡◌, ◌≢◌, ◌<◌, ◌≤◌, ◌*◌, ℕ, [], length, vec_capacity, All, Ok, Err, IfOk, OnErr, OnOk};
ghost use Rattle.std.specs.List.{AllZip};
ghost use Rattle.zp_zone.specs.Seats.{ZoneState};
ghost use Rattle.zp_streams.specs.Streams.{IsBegun, IsWritten};
ghost use Rattle.zp_trace.specs.declared.line.CommandLine.{CommandLine};
ghost use Rattle.zp_trace.specs.declared.bounds.TheConstants.{MOST_LINES};
ghost use Rattle.zp_journal.specs.declared.journal.TheConstants.{LONGEST_JOURNAL};
ghost use Rattle.zp_office.specs.Offices.{AreDesksOf};
ghost use Rattle.zp_replay.specs.Rooms.{most_entries, room_for};
ghost use Rattle.zp_replay.specs.Replaying.{AddUp, IsParsed, IsRefusedAt, IsUnanswered};
ghost use Rattle.zp_replay.specs.Serving.{AreSections, IsHistoryOf, IsJudgedOffice, IsOfficeServed, IsReportCut, IsReported, IsServed, IsTraceReported, IsTraceReportBegun, IsUnworked, entries_in, journaled_report};

use crate::ending::{Ending, ReplayFault};
use crate::journals::{ZoneJournal, judge, write_ending};
use crate::report::write_report;
use crate::traces::{Input, read_trace};
use std::alloc::Global;
use std::sync::Wait;
use std::thread::Threads;
use zp_journal::Journal;
use zp_model::Refused;
use zp_office::{Desk, Gate, Office, opened_desks, run_zones};
use zp_share::Share;
use zp_text::{Reader, WriteFault, Writer};
use zp_trace::{Call, CommandLine, Trace};
use zp_zone::Zone;

/// The most entries of a command in the journal of one zone.
const MOST_ENTRIES: u32 = 3;

/// How many entries a command makes at most in the journal of one zone.
fn entries_of(call: &Call) -> u32
    ensures entries { result ≡ most_entries call.now }
    ensures within { result ≤ MOST_ENTRIES }
{
    match call {
        Call::Info => 0,
        Call::Drain => MOST_ENTRIES,
        Call::Free { .. } => 2,
        Call::Alloc { .. }
        | Call::Low { .. }
        | Call::Post { .. }
        | Call::Collect { .. }
        | Call::Isolate { .. }
        | Call::Release { .. } => 1,
    }
}

/// The room of a zone's journal, in which these commands find room whatever becomes of them.
fn room_for(commands: &[CommandLine]) -> u32
    requires { length commands.now ≤ MOST_LINES }
    ensures room { result ≡ room_for commands.now }
    ensures within { result ≤ MOST_ENTRIES * length commands.now }
{
    let mut room = 0;
    for command in commands {
        room += entries_of(&command.call);
    }
    room
}

/// The zones and desks of a trace, when all workers have carried out their commands, each in a thread of its own, with the gate
/// called round each command. Memory, or NoThread.
fn serve_at_once<T: Threads + Wait + Sync, G: Gate + Sync>(
    rt: &T,
    alloc: Global,
    trace: &Trace,
    gate: &G,
) -> Result<(Office, Vec<Journal>), ReplayFault>
    requires { IsParsed trace.now }
    ensures served { IfOk result (λ s. IsServed trace.now s.0) }
    ensures journals { IfOk result (λ s. AllZip IsHistoryOf s.0.zones (entries_in s.1.items)) }
    ensures sections { IfOk result (λ s. AreSections s.0 (entries_in s.1.items)) }
    ensures only { (result ≡ Err ReplayFault.Read → ⊥) × (result ≡ Err ReplayFault.Write → ⊥) }
{
    let (zones, desks) = match opened_desks(alloc, trace) {
        Ok(parts) => parts,
        Err(Refused::Memory) => return Err(ReplayFault::Memory),
        Err(_) => unreachable!(),
    };
    let room = room_for(trace.commands.as_slice());
    serve(rt, alloc, zones, desks, room, gate)
}

/// The zones go to the workers at their desks, each with a journal that has room for so many entries, and come back.
fn serve<T: Threads + Wait + Sync, G: Gate + Sync>(
    rt: &T,
    alloc: Global,
    zones: Vec<Zone>,
    desks: Vec<Desk>,
    capacity: u32,
    gate: &G,
) -> Result<(Office, Vec<Journal>), ReplayFault>
    requires new { All (λ (z : ZoneState). z.entries ≡ []) zones.items }
    requires capacity { capacity ≤ LONGEST_JOURNAL }
    requires desks { AreDesksOf zones.items desks.items }
    requires unworked { All IsUnworked desks.items }
    ensures office { IfOk result (λ s. IsOfficeServed zones.items desks.items s.0) }
    ensures journals { IfOk result (λ s. AllZip IsHistoryOf s.0.zones (entries_in s.1.items)) }
    ensures sections { IfOk result (λ s. AreSections s.0 (entries_in s.1.items)) }
    ensures only { (result ≡ Err ReplayFault.Read → ⊥) × (result ≡ Err ReplayFault.Write → ⊥) }
{
    let mut desks = desks;
    match run_zones(rt, alloc, zones, capacity, &mut desks, gate) {
        Ok(closed) => Ok((Office::new(closed.zones, desks), closed.journals)),
        Err(Refused::Memory) => Err(ReplayFault::Memory),
        Err(_) => Err(ReplayFault::NoThread),
    }
}

/// The zones and desks of a trace when all workers have ended, and the zones' journals, replayed. Memory, or NoThread.
fn serve_and_judge<T: Threads + Wait + Sync, G: Gate + Sync>(
    rt: &T,
    alloc: Global,
    trace: &Trace,
    gate: &G,
) -> Result<(Office, Vec<ZoneJournal>), ReplayFault>
    requires { IsParsed trace.now }
    ensures judged { IfOk result (λ s. IsJudgedOffice trace.now s.0 s.1.items) }
    ensures only { (result ≡ Err ReplayFault.Read → ⊥) × (result ≡ Err ReplayFault.Write → ⊥) }
{
    let (office, journals) = serve_at_once(rt, alloc, trace, gate)?;
    let journals = judge(alloc, &trace.header, journals)?;
    Ok((office, journals))
}

/// Writes the report, what the replays of the journals found, and all their entries, where they are asked for. The room is for the
/// shares of all workers.
fn write_journaled_report<W: Writer>(
    writer: &mut W,
    office: Office,
    commands: &[CommandLine],
    room: Vec<Share>,
    journals: &[ZoneJournal],
    entries: bool,
) -> Result<(), WriteFault>
    requires workers { All (λ (c : CommandLine). c.worker < length office.desks) commands.now }
    requires empty { room.items ≡ [] }
    requires room { length office.desks ≤ vec_capacity room }
    ensures ok { OnOk result (IsWritten (W.contents writer.old) (W.contents writer.new) (journaled_report entries commands.now office journals.now)) }
    ensures calm { OnOk result (W.failures writer.new ≡ W.failures writer.old) }
    ensures err { OnErr result (IsBegun (W.contents writer.old) (W.contents writer.new) (journaled_report entries commands.now office journals.now)) }
    ensures failed { OnErr result (W.failures writer.old < W.failures writer.new) }
    ensures adds_up { OnOk result (AddUp office) }
{
    write_report(writer, office, commands, room)?;
    write_ending(writer, journals, entries)?;
    Ok(())
}

/// Has the workers of a trace carry out their commands, and writes what is written of them. Memory, NoThread or Write.
fn report_trace<T: Threads + Wait + Sync, W: Writer, G: Gate + Sync>(
    rt: &T,
    alloc: Global,
    trace: &Trace,
    writer: &mut W,
    entries: bool,
    gate: &G,
) -> Result<(), ReplayFault>
    requires { IsParsed trace.now }
    ensures ok { OnOk result (IsTraceReported entries trace.now (W.contents writer.old) (W.contents writer.new)) }
    ensures begun { result ≡ Err ReplayFault.Write → IsTraceReportBegun entries trace.now (W.contents writer.old) (W.contents writer.new) }
    ensures no_thread { result ≡ Err ReplayFault.NoThread → W.contents writer.new ≡ W.contents writer.old }
    ensures unmade { result ≡ Err ReplayFault.Memory → W.contents writer.new ≡ W.contents writer.old }
    ensures unread { result ≡ Err ReplayFault.Read → ⊥ }
    ensures write { result ≡ Err ReplayFault.Write → W.failures writer.old < W.failures writer.new }
    ensures write_only { result ≢ Err ReplayFault.Write → W.failures writer.new ≡ W.failures writer.old }
{
    let room = Vec::with_capacity(alloc, trace.header.workers as usize)?;
    let (office, journals) = serve_and_judge(rt, alloc, trace, gate)?;
    let commands = trace.commands.as_slice();
    write_journaled_report(writer, office, commands, room, &journals, entries)?;
    Ok(())
}

/// Reads a trace to its end, or as much as no good trace has, and has its workers carry out their commands at the same time, each
/// in a thread of its own, with the gate called round each command. When all have ended, the zones' journals are replayed. Then it
/// writes the workers' replies, in the trace's order, where the pages are, what the replays of the journals found, and all their
/// entries, where they are asked for; of a bad trace the number of its bad line. Where a thread could not be started, nothing is
/// written.
pub fn replay_threads<T: Threads + Wait + Sync, R: Reader, W: Writer, G: Gate + Sync>(
    rt: &T,
    alloc: Global,
    reader: &mut R,
    writer: &mut W,
    journal: bool,
    gate: &G,
) -> Result<Ending, ReplayFault>
    ensures good { result ≡ Ok Ending.Good → IsReported journal (R.remaining reader.old) (R.remaining reader.new) (W.contents writer.old) (W.contents writer.new) }
    ensures bad { (n : ℕ) → result ≡ Ok (Ending.BadLine n) → IsRefusedAt (R.remaining reader.old) (R.remaining reader.new) (W.contents writer.old) (W.contents writer.new) n }

    // What is left where it broke off.
    ensures no_thread { result ≡ Err ReplayFault.NoThread → IsUnanswered (R.remaining reader.old) (R.remaining reader.new) (W.contents writer.old) (W.contents writer.new) }
    ensures unread { result ≡ Err ReplayFault.Read → IsUnanswered (R.remaining reader.old) (R.remaining reader.new) (W.contents writer.old) (W.contents writer.new) }
    ensures unmade { result ≡ Err ReplayFault.Memory → IsUnanswered (R.remaining reader.old) (R.remaining reader.new) (W.contents writer.old) (W.contents writer.new) }
    ensures begun { result ≡ Err ReplayFault.Write → IsReportCut journal (R.remaining reader.old) (R.remaining reader.new) (W.contents writer.old) (W.contents writer.new) }

    // A device has failed where its fault is returned, and nowhere else.
    ensures read { result ≡ Err ReplayFault.Read → R.failures reader.old < R.failures reader.new }
    ensures read_only { result ≢ Err ReplayFault.Read → R.failures reader.new ≡ R.failures reader.old }
    ensures write { result ≡ Err ReplayFault.Write → W.failures writer.old < W.failures writer.new }
    ensures write_only { result ≢ Err ReplayFault.Write → W.failures writer.new ≡ W.failures writer.old }
{
    let trace = match read_trace(alloc, reader, writer)? {
        Input::Trace(trace) => trace,
        Input::BadLine(number) => return Ok(Ending::BadLine(number)),
    };
    report_trace(rt, alloc, &trace, writer, journal, gate)?;
    Ok(Ending::Good)
}
