//! A text of many lines.
ghost use Rattle.std.specs.Prelude.{◌≡◌, ◌≢◌, ◌<◌, ◌+◌, ◌-◌, ◌^◌, List, ℕ, IfOk, IfErr, MatchBool, MatchResult, OnOk, OnErr};
ghost use Rattle.zp_events.specs.declared.event.PageEvent.{PageEvent};
ghost use Rattle.zp_events.specs.declared.text.TextFault.TheVariants as fault;
ghost use Rattle.zp_events.specs.Reading.{spot};
ghost use Rattle.zp_events.specs.Texts.{AreAllTaken, AreLastTaken, IsNextTaken, IsStoppedBy, IsTaken, IsToldBy, IsUntaken};

use crate::event::{Line, PageEvent};
use crate::line::read_line;
use crate::reading::{LineFault, Lines};
use std::io;
use zp_streams::Reader;

/// Receives what the lines of a text say.
pub trait LineSink {
    // What an event makes of it.
    ghost carries: { Self → PageEvent → Self → Type 0 };
    // What a line makes of it that is none of a page event.
    ghost passes: { Self → List ℕ → Self → Type 0 };
    // What a broken line makes of it.
    ghost drops: { Self → Self → Type 0 };
    // What a call that fails makes of it.
    ghost fails: { Self → Self → Type 0 };

    /// The next line is one of this event.
    fn event(&mut self, event: &PageEvent) -> io::Result<()>
        ensures carried { OnOk result (carries self.old event.now self.new) }
        ensures failed { OnErr result (fails self.old self.new) };

    /// The next line is this one, none of a page event.
    fn other(&mut self, line: &[u8]) -> io::Result<()>
        ensures passed { OnOk result (passes self.old line.now self.new) }
        ensures failed { OnErr result (fails self.old self.new) };

    /// The next line is broken.
    fn broken(&mut self) -> io::Result<()>
        ensures dropped { OnOk result (drops self.old self.new) }
        ensures failed { OnErr result (fails self.old self.new) };
}

/// What is done at a broken line.
#[derive(Clone, Copy, PartialEq, Eq, Debug, Drop)]
pub enum AtBroken {
    /// The reading ends before it.
    End,
    /// The sink receives the broken line, and the reading goes on behind it.
    KeepGoing,
}

/// Why a text was not read to its end. Lines are numbered from 1 on, by all that their `Lines` passed.
#[derive(Debug, Drop)]
pub enum TextFault {
    /// The line of this number begins as one of a page event and is none.
    Broken(u64),
    /// The line of this number has more than `LONGEST_LINE` bytes.
    TooLong(u64),
    /// So many lines were passed as a `u64` counts.
    TooMany,
    /// The reader failed.
    Read,
    /// The sink failed.
    Sink(io::Error),
}

/// Why a line was not taken.
#[derive(Drop)]
enum Untaken {
    Broken,
    Sink(io::Error),
}

/// What a sink returned, as of its line.
fn told(answer: io::Result<()>) -> Result<(), Untaken>
    ensures { IsToldBy answer result }
{
    match answer {
        Ok(()) => Ok(()),
        Err(error) => Err(Untaken::Sink(error)),
    }
}

/// Passes to a sink what a line says.
fn take_line<S: LineSink>(sink: &mut S, line: &[u8], at_broken: AtBroken) -> Result<(), Untaken>
    ensures taken { OnOk result (IsTaken S.carries S.passes S.drops at_broken sink.old line.now sink.new) }
    ensures untaken { IfErr result (λ e. IsUntaken S.carries S.passes S.drops at_broken S.fails sink.old line.now e sink.new) }
{
    match read_line(line) {
        Line::Event(event) => told(sink.event(&event)),
        Line::Other => told(sink.other(line)),
        Line::Broken => match at_broken {
            AtBroken::End => Err(Untaken::Broken),
            AtBroken::KeepGoing => told(sink.broken()),
        },
    }
}

/// Passes to a sink what the next line says, and then the line: whether there may be more behind it.
fn take_next<R: Reader, S: LineSink>(
    lines: &mut Lines<R>,
    sink: &mut S,
    at_broken: AtBroken,
) -> Result<bool, TextFault>
    requires { lines.old.passed < 2 ^ 64 - 1 }
    ensures taken { IfOk result (λ more. MatchBool more (IsNextTaken S.carries S.passes S.drops at_broken sink.old (spot lines.old.window (R.remaining lines.old.reader) lines.old.passed) (spot lines.new.window (R.remaining lines.new.reader) lines.new.passed) sink.new) (AreLastTaken S.carries S.passes S.drops at_broken sink.old (spot lines.old.window (R.remaining lines.old.reader) lines.old.passed) (spot lines.new.window (R.remaining lines.new.reader) lines.new.passed) sink.new)) }
    ensures stopped { IfErr result (λ e. IsStoppedBy S.carries S.passes S.drops at_broken S.fails sink.old (spot lines.old.window (R.remaining lines.old.reader) lines.old.passed) (spot lines.new.window (R.remaining lines.new.reader) lines.new.passed) e sink.new) }
    ensures failed { IfErr result (λ e. e ≡ fault.Read → R.failures lines.new.reader ≡ R.failures lines.old.reader + 1) }
    ensures calm { MatchResult result (λ more. R.failures lines.new.reader ≡ R.failures lines.old.reader) (λ e. e ≢ fault.Read → R.failures lines.new.reader ≡ R.failures lines.old.reader) }
{
    match lines.peek() {
        Ok(true) => {}
        Ok(false) => return Ok(false),
        Err(LineFault::Read) => return Err(TextFault::Read),
        Err(LineFault::TooLong) => return Err(TextFault::TooLong(lines.passed() + 1)),
    }
    match take_line(sink, lines.line(), at_broken) {
        Ok(()) => {}
        Err(Untaken::Broken) => return Err(TextFault::Broken(lines.passed() + 1)),
        Err(Untaken::Sink(error)) => return Err(TextFault::Sink(error)),
    }
    let more = !lines.is_unended();
    lines.pass();
    Ok(more)
}

/// Passes to a sink what the lines that are left say, one after another, from the one that `peek` found on. Returns how many they are. A
/// line at which it stops is not passed.
pub fn read_lines<R: Reader, S: LineSink>(
    lines: &mut Lines<R>,
    sink: &mut S,
    at_broken: AtBroken,
) -> Result<u64, TextFault>
    ensures taken { IfOk result (λ n. AreAllTaken S.carries S.passes S.drops at_broken sink.old (spot lines.old.window (R.remaining lines.old.reader) lines.old.passed) (spot lines.new.window (R.remaining lines.new.reader) lines.new.passed) n sink.new) }
    ensures stopped { IfErr result (λ e. IsStoppedBy S.carries S.passes S.drops at_broken S.fails sink.old (spot lines.old.window (R.remaining lines.old.reader) lines.old.passed) (spot lines.new.window (R.remaining lines.new.reader) lines.new.passed) e sink.new) }
    ensures failed { IfErr result (λ e. e ≡ fault.Read → R.failures lines.new.reader ≡ R.failures lines.old.reader + 1) }
    ensures calm { MatchResult result (λ n. R.failures lines.new.reader ≡ R.failures lines.old.reader) (λ e. e ≢ fault.Read → R.failures lines.new.reader ≡ R.failures lines.old.reader) }
{
    let first = lines.passed();
    'lines: while lines.passed() < u64::MAX {
        match take_next(lines, sink, at_broken) {
            Ok(true) => {}
            Ok(false) => return Ok(lines.passed() - first),
            Err(fault) => return Err(fault),
        }
    }
    Err(TextFault::TooMany)
}
