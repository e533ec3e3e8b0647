//! The journals of a trace's zones: what their replays find, and what is written of them.
ghost use Rattle.std.specs.Prelude.{◌≡◌, ◌<◌, ◌≤◌, ◌+◌, ◌++◌, IfErr, IfOk, OnErr, OnOk, List, length, map};
ghost use Rattle.std.specs.List.{AllZip, flat_map};
ghost use Rattle.zp_model.specs.Bounds.{IsCrew};
ghost use Rattle.zp_model.specs.Naming.{IsName};
ghost use Rattle.zp_trace.specs.Grammar.{IsHeader, IsZoneLine};
ghost use Rattle.zp_streams.specs.Streams.{IsWritten, IsBegun};
ghost use Rattle.zp_journal.specs.Journals.{JournalState};
ghost use Rattle.zp_replay.specs.Judging.{JudgedJournal, IsJudged, ending, judged_text, judged_verdict, verdict_in};

use crate::ending::ReplayFault;
use std::alloc::Global;
use std::marker::Model;
use zp_info::TextBuffer;
use zp_journal::{Journal, JournalCheck, replay_journal};
use zp_model::{Name, Refused, TRACE_ZONES};
use zp_text::{
    VERDICT_LINE, Verdict, WriteFault, Writer, make_room, push_verdict, write_gathered,
    write_journal,
};
use zp_trace::{Header, ZoneLine};
use zp_zone::ZoneConfig;

/// The most bytes of what the replays of all journals found, a line for each zone.
const VERDICTS: usize = TRACE_ZONES * VERDICT_LINE;

/// The journal of a zone, under the zone's name, with what its replay found.
#[derive(Drop)]
pub struct ZoneJournal {
    name: Name,
    journal: Journal,
    verdict: Verdict,
}

impl Model for ZoneJournal {
    ghost use Rattle.zp_model.specs.Naming.{IsName};
    ghost use Rattle.zp_replay.specs.Judging.{JudgedJournal};

    ghost Value = { JudgedJournal };

    ghost view = { λ j. record { name = j.name; entries = j.journal.entries; verdict = j.verdict } };

    ghost invariant = { λ j. IsName j.name };
}

impl ZoneJournal {
    /// Replays the journal of the zone that a line declares, for so many workers. Memory.
    fn judge(
        alloc: Global,
        line: &ZoneLine,
        workers: u32,
        journal: Journal,
    ) -> Result<ZoneJournal, ReplayFault>
        requires line { IsZoneLine line.now }
        requires workers { IsCrew workers }
        ensures judged { IfOk result (IsJudged workers line.now) }
        ensures entries { IfOk result (λ j. j.entries ≡ journal.entries) }
        ensures why { IfErr result (λ e. e ≡ ReplayFault.Memory) }
    {
        let config = ZoneConfig {
            name: line.name.as_str(),
            base: line.base,
            pages: line.pages,
            min: line.min,
            largest: line.declared_largest(),
        };
        let verdict = match replay_journal(alloc, config, workers, &journal) {
            Ok(check) => verdict_in(&check),
            Err(Refused::Memory) => return Err(ReplayFault::Memory),
            Err(_) => unreachable!(),
        };
        Ok(ZoneJournal {
            name: line.name,
            journal,
            verdict,
        })
    }

    /// Appends the line that says what the replay found.
    fn push_verdict<const CAP: usize>(&self, text: &mut TextBuffer<CAP>)
        requires { length text.old + VERDICT_LINE ≤ CAP }
        ensures { text.new ≡ text.old ++ judged_verdict self.now }
    {
        push_verdict(text, self.name.as_str(), self.journal.len(), self.verdict);
    }

    /// Writes the entries.
    fn write_entries<W: Writer>(&self, writer: &mut W) -> Result<(), WriteFault>
        ensures ok { OnOk result (IsWritten (W.contents writer.old) (W.contents writer.new) (judged_text self.now)) }
        ensures calm { OnOk result (W.failures writer.new ≡ W.failures writer.old) }
        ensures err { OnErr result (IsBegun (W.contents writer.old) (W.contents writer.new) (judged_text self.now)) }
        ensures failed { OnErr result (W.failures writer.old < W.failures writer.new) }
    {
        write_journal(writer, self.name.as_str(), &self.journal)
    }
}

/// What a replay found, without the zone that it made.
fn verdict_in(check: &JournalCheck) -> Verdict
    ensures { result ≡ verdict_in check.now }
{
    match check {
        JournalCheck::Legal(_) => Verdict::Legal,
        JournalCheck::Differs(number) => Verdict::Differs(*number),
    }
}

/// Replays the journals of the zones that a header declares, in their order. Memory.
pub fn judge(
    alloc: Global,
    header: &Header,
    journals: Vec<Journal>,
) -> Result<Vec<ZoneJournal>, ReplayFault>
    requires header { IsHeader header.now }
    requires many { length journals.items ≡ length header.now.zones }
    ensures judged { IfOk result (λ js. AllZip (IsJudged header.now.workers) header.now.zones js.items) }
    ensures entries { IfOk result (λ js. map (λ (j : JudgedJournal). j.entries) js.items ≡ map (λ (j : JournalState). j.entries) journals.items) }
    ensures why { IfErr result (λ e. e ≡ ReplayFault.Memory) }
{
    let lines = header.zones.as_slice();
    let mut judged = Vec::with_capacity(alloc, lines.len())?;
    for journal in journals {
        let line = &lines[judged.len()];
        judged.push_reserved(ZoneJournal::judge(alloc, line, header.workers, journal)?);
    }
    Ok(judged)
}

/// Writes what the replays found, a line for each zone, and then all entries, where they are asked for.
pub fn write_ending<W: Writer>(
    writer: &mut W,
    journals: &[ZoneJournal],
    entries: bool,
) -> Result<(), WriteFault>
    ensures ok { OnOk result (IsWritten (W.contents writer.old) (W.contents writer.new) (ending entries journals.now)) }
    ensures calm { OnOk result (W.failures writer.new ≡ W.failures writer.old) }
    ensures err { OnErr result (IsBegun (W.contents writer.old) (W.contents writer.new) (ending entries journals.now)) }
    ensures failed { OnErr result (W.failures writer.old < W.failures writer.new) }
{
    write_verdicts(writer, journals)?;
    if entries {
        write_entries(writer, journals)?;
    }
    Ok(())
}

/// Writes what the replays found.
fn write_verdicts<W: Writer>(writer: &mut W, journals: &[ZoneJournal]) -> Result<(), WriteFault>
    ensures ok { OnOk result (IsWritten (W.contents writer.old) (W.contents writer.new) (flat_map judged_verdict journals.now)) }
    ensures calm { OnOk result (W.failures writer.new ≡ W.failures writer.old) }
    ensures err { OnErr result (IsBegun (W.contents writer.old) (W.contents writer.new) (flat_map judged_verdict journals.now)) }
    ensures failed { OnErr result (W.failures writer.old < W.failures writer.new) }
{
    let mut text: TextBuffer<VERDICTS> = TextBuffer::new();
    for journal in journals {
        make_room(writer, &mut text, VERDICT_LINE)?;
        journal.push_verdict(&mut text);
    }
    write_gathered(writer, text.as_bytes())
}

/// Writes the entries of each zone.
fn write_entries<W: Writer>(writer: &mut W, journals: &[ZoneJournal]) -> Result<(), WriteFault>
    ensures ok { OnOk result (IsWritten (W.contents writer.old) (W.contents writer.new) (flat_map judged_text journals.now)) }
    ensures calm { OnOk result (W.failures writer.new ≡ W.failures writer.old) }
    ensures err { OnErr result (IsBegun (W.contents writer.old) (W.contents writer.new) (flat_map judged_text journals.now)) }
    ensures failed { OnErr result (W.failures writer.old < W.failures writer.new) }
{
    for journal in journals {
        journal.write_entries(writer)?;
    }
    Ok(())
}
