//! `zoneview events`: what a kernel asked of its pages, asked of zones of ours.

ghost use Rattle.std.specs.Prelude.{◌≡◌, ◌<◌};

use crate::WRONG_WORDS;
use crate::event_words::options_of;
use crate::screen::Screen;
use clap::ArgMatches;
use std::io;
use std::io::{BufWriter, Read};
use std::marker::Brand;
use std::rt::Clock;
use std::sync::ledger::{Blank, Ledger};
use zp_capture::{CaptureFault, EventOptions, Form, Summary, print_events};
use zp_progress::{ProgressMeter, Task};
use zp_streams::{Failures, Source};

/// The status of a run that reports nothing, or not all.
const NOTHING_TOLD: u8 = 1;

/// What a terminal shows of events that take long: how many are carried out.
const TASK: Task<'static> = Task {
    name: "zoneview events",
    unit: "page events",
};

/// Reads the text of a capture on standard input, and reports on its events. What is not to be trusted is reported on standard error.
pub fn run(
    rt: &(impl Print + Eprint + Input + Clock + AllocGlobal),
    words: &ArgMatches<'_>,
    screen: Screen,
) -> anyhow::Result<u8> {
    let options = match options_of(rt.alloc(), words, screen) {
        Ok(options) => options,
        Err(wrong) => {
            eprintln!(rt; "zoneview: {wrong}")?;
            return Ok(WRONG_WORDS);
        }
    };
    match summary_of(rt, &options, screen) {
        Ok(summary) => warn(rt, &summary),
        Err(fault) => {
            eprintln!(rt; "zoneview: {fault}")?;
            Ok(NOTHING_TOLD)
        }
    }
}

/// Carries out the events of standard input.
fn summary_of(
    rt: &(impl Print + Eprint + Input + Clock + AllocGlobal),
    options: &EventOptions,
    screen: Screen,
) -> Result<Summary, CaptureFault> {
    carry_out::<Brand>(rt, options, screen, Blank::new(1))
}

/// Carries out the events of standard input, with a ledger of its failures. Rows that go to a terminal leave no room for a line that says how
/// far the work is.
fn carry_out<L: Ledger>(
    rt: &(impl Print + Eprint + Input + Clock + AllocGlobal),
    options: &EventOptions,
    screen: Screen,
    failures: Blank,
) -> Result<Summary, CaptureFault>
    requires name { failures.name ≡ L.name }
    requires parts { (failures.parts ≡ L.parts) × (0 < failures.parts) }
{
    let is_watched = match options.form {
        Form::Lines(_every) => screen.is_watched && !screen.is_terminal,
        Form::Table(_) | Form::Chart => screen.is_watched,
    };
    let meter = ProgressMeter::new(rt, TASK, is_watched);
    let reader = Source::new(rt.reader(), Failures::<L>::new(failures));
    let writer = BufWriter::new(rt.alloc(), io::writer(rt))?;
    print_events(rt.alloc(), reader, options, writer, meter)
}

/// Reports what of a capture is not to be trusted, and returns the status.
fn warn(rt: &impl Eprint, summary: &Summary) -> anyhow::Result<u8> {
    let lines = &summary.lines;
    if lines.named > 0 {
        let (named, first) = (lines.named, lines.first_named);
        eprintln!(rt;
            "zoneview: lines that hold the name of a page event and are none: {named}, the first is line {first}"
        )?;
    }
    if lines.broken > 0 {
        let broken = lines.broken;
        eprintln!(rt; "zoneview: broken lines that are passed over: {broken}")?;
    }
    if lines.lost > 0 {
        let lost = lines.lost;
        eprintln!(rt; "zoneview: events that the capture says are lost: {lost}")?;
    }
    if lines.unkept > 0 {
        let unkept = lines.unkept;
        eprintln!(rt;
            "zoneview: events that were written to the trace buffer and not kept: {unkept}"
        )?;
    }
    if lines.events() == 0 {
        eprintln!(rt; "zoneview: no page event was read")?;
        return Ok(NOTHING_TOLD);
    }
    Ok(0)
}
