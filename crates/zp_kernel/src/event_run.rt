//! A text of page events, carried out.
ghost use Rattle.std.specs.Prelude.{◌≡◌, ◌≢◌, ◌+◌, ℕ, List, Option, None, IfErr, IfOk, IfSome, OnOk, MatchResult};
ghost use Rattle.zp_events.specs.declared.event.PageEvent.{PageEvent};
ghost use Rattle.zp_events.specs.declared.text.TextFault.TheVariants as fault;
ghost use Rattle.zp_events.specs.Reading.{spot};
ghost use Rattle.zp_kernel.specs.Events.{PlainKernel};
ghost use Rattle.zp_kernel.specs.Lines.{no_lines};
ghost use Rattle.zp_kernel.specs.Runs.{IsRunOver, IsRunUntil, RunState};
ghost use Rattle.zp_kernel.specs.LineSteps.{AreOpen, Carries, Drops, Passes};

use crate::kernel::Kernel;
use crate::line_counts::{LineCounts, remark_of};
use std::io;
use zp_events::{AtBroken, LineSink, Lines, PageEvent, TextFault, read_lines};
use zp_streams::Reader;

/// Opens the zones at the first event of a text, by what the lines before it say, and looks on while events are carried out.
pub trait Onlooker {
    // What a line makes of it that is none of a page event.
    ghost hears: { Self → List ℕ → Self → Type 0 };
    // Such zones it opens, before any event.
    ghost opens: { Self → PlainKernel → Type 0 };

    /// The zones, as the first event is about to be carried out.
    fn open(&mut self) -> io::Result<Kernel>
        ensures opened { IfOk result (λ kernel. opens self.old kernel) };

    /// An event was carried out, which left the zones so.
    fn event(&mut self, event: &PageEvent, kernel: &Kernel) -> io::Result<()>;

    /// A line is none of a page event.
    fn other(&mut self, line: &[u8]) -> io::Result<()>
        ensures heard { OnOk result (hears self.old line.now self.new) };
}

/// A text whose events are carried out over zones that are opened at the first of them: who looks on, the zones, and what the lines are.
#[derive(Drop)]
pub struct EventRun<O: Drop> {
    pub onlooker: O,
    pub kernel: Option<Kernel>,
    pub lines: LineCounts,
}

impl<O: Onlooker + Drop> LineSink for EventRun<O> {
    ghost carries = { λ r e s. Carries O.hears O.opens (record { onlooker = r.onlooker; kernel = r.kernel; lines = r.lines }) e (record { onlooker = s.onlooker; kernel = s.kernel; lines = s.lines }) };

    ghost passes = { λ r line s. Passes O.hears O.opens (record { onlooker = r.onlooker; kernel = r.kernel; lines = r.lines }) line (record { onlooker = s.onlooker; kernel = s.kernel; lines = s.lines }) };

    ghost drops = { λ r s. Drops (record { onlooker = r.onlooker; kernel = r.kernel; lines = r.lines }) (record { onlooker = s.onlooker; kernel = s.kernel; lines = s.lines }) };

    ghost fails = { λ r s. Unit {0} };

    fn event(&mut self, event: &PageEvent) -> io::Result<()> {
        self.open()?;
        let Some(kernel) = &mut self.kernel else {
            return Err(io::ErrorKind::Other.into());
        };
        kernel.carry_out(event)?;
        self.lines.note_event(&event.action);
        self.onlooker.event(event, kernel)
    }

    fn other(&mut self, line: &[u8]) -> io::Result<()> {
        self.lines.note_other(remark_of(line));
        self.onlooker.other(line)
    }

    fn broken(&mut self) -> io::Result<()> {
        self.lines.note_broken();
        Ok(())
    }
}

impl<O: Onlooker + Drop> EventRun<O> {
    /// Before the first line.
    pub fn new(onlooker: O) -> EventRun<O>
        ensures onlooker { result.onlooker ≡ onlooker }
        ensures kernel { result.kernel ≡ None }
        ensures lines { result.lines ≡ no_lines }
    {
        EventRun {
            onlooker,
            kernel: None,
            lines: LineCounts::none(),
        }
    }

    /// Opens the zones, where they are not open.
    fn open(&mut self) -> io::Result<()>
        ensures opened { OnOk result (IfSome self.new.kernel (AreOpen O.opens self.old.onlooker self.old.kernel)) }
        ensures lines { self.new.lines ≡ self.old.lines }
    {
        if self.kernel.is_none() {
            self.kernel = Some(self.onlooker.open()?);
        }
        Ok(())
    }

    /// Carries out the events of all lines that are left, from the one that `peek` found on, and says how many lines there are.
    pub fn read<R: Reader>(
        &mut self,
        lines: &mut Lines<R>,
        at_broken: AtBroken,
    ) -> Result<u64, TextFault>
        ensures run { IfOk result (λ n. IsRunOver at_broken O.hears O.opens (spot lines.old.window (R.remaining lines.old.reader) lines.old.passed) (spot lines.new.window (R.remaining lines.new.reader) lines.new.passed) n (record { onlooker = self.old.onlooker; kernel = self.old.kernel; lines = self.old.lines }) (record { onlooker = self.new.onlooker; kernel = self.new.kernel; lines = self.new.lines })) }
        ensures until { IfErr result (λ e. IsRunUntil at_broken O.hears O.opens (spot lines.old.window (R.remaining lines.old.reader) lines.old.passed) (spot lines.new.window (R.remaining lines.new.reader) lines.new.passed) e (record { onlooker = self.old.onlooker; kernel = self.old.kernel; lines = self.old.lines }) (record { onlooker = self.new.onlooker; kernel = self.new.kernel; lines = self.new.lines })) }
        ensures failed { IfErr result (λ e. e ≡ fault.Read → R.failures lines.new.reader ≡ R.failures lines.old.reader + 1) }
        ensures calm { MatchResult result (λ n. R.failures lines.new.reader ≡ R.failures lines.old.reader) (λ e. e ≢ fault.Read → R.failures lines.new.reader ≡ R.failures lines.old.reader) }
    {
        read_lines(lines, self, at_broken)
    }
}
