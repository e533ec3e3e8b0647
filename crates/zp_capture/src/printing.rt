//! Carries out a capture and writes the report on it.
ghost use Rattle.std.specs.Prelude.{◌≤◌, length, IfOk};
ghost use Rattle.zp_capture.specs.Summaries.{IsSummaryOfAll};

use crate::capture::Capture;
use crate::capture_watch::{CaptureWatch, Opened};
use crate::ends::{info_lines, write_beside_kernel};
use crate::fault::{CaptureFault, fault_of};
use crate::options::{EventOptions, Form};
use crate::plan::ZonePlan;
use crate::report::{CaptureReport, write_table};
use crate::samples::Samples;
use crate::share_row::ShareRow;
use crate::summary::{Summary, counts_of};
use std::alloc::Global;
use std::io;
use std::io::Write;
use zp_buddyinfo::{Style, read_table, report_text};
use zp_drawing::{
    ChartedZone, Span, write_chart_end, write_chart_head, write_way, write_zone_chart,
};
use zp_events::Lines;
use zp_kernel::{EventRun, Kernel};
use zp_model::PageNo;
use zp_progress::Progress;
use zp_share::Share;
use zp_streams::Reader;
use zp_view::page_row;
use zp_zone::Zone;

/// Carries out the events of a text, and writes what is asked for; nothing, where it has no event. The zones are those that are named, or else
/// those that the text reports before its first event.
pub fn print_events<R: Reader + Drop, W: Write + Drop, P: Progress + Drop>(
    alloc: Global,
    reader: R,
    options: &EventOptions,
    writer: W,
    progress: P,
) -> Result<Summary, CaptureFault>
    ensures { IfOk result (IsSummaryOfAll options.now (R.remaining reader)) }
{
    let mut lines = Lines::new(alloc, reader)?;
    let mut run = EventRun::new(CaptureWatch::new(alloc, options, writer, progress));
    if let Err(fault) = run.read(&mut lines, options.at_broken) {
        return Err(fault_of(fault, run.onlooker.fault.take()));
    }
    let summary = Summary {
        lines: run.lines,
        counts: counts_of(&run.kernel),
    };
    write_run(alloc, options, &summary, run)?;
    Ok(summary)
}

/// Writes what is asked for of a run that is over.
fn write_run<'x, W: Write + Drop, P: Progress + Drop>(
    alloc: Global,
    options: &'x EventOptions,
    summary: &'x Summary,
    run: EventRun<CaptureWatch<'_, W, P>>,
) -> Result<(), CaptureFault> {
    let EventRun {
        onlooker,
        kernel,
        lines: _,
    } = run;
    let Some(kernel) = kernel else {
        return Ok(());
    };
    let mut onlooker = onlooker;
    let watch = &mut onlooker;
    watch.progress.clear();
    let Some(opened) = watch.opened.take() else {
        return Ok(());
    };
    match options.form {
        Form::Table(style) => {
            let told = Ended {
                alloc,
                options,
                summary,
                opened: &opened,
                style,
            };
            tell(&told, kernel, &watch.capture, &mut watch.writer)?;
        }
        Form::Lines(_every) => watch.write_last(&kernel)?,
        Form::Chart => draw(&opened, &mut watch.writer)?,
    }
    watch.writer.flush()?;
    Ok(())
}

/// A run that is over, of which a table is written.
#[derive(Clone, Copy, Drop)]
struct Ended<'a> {
    alloc: Global,
    options: &'a EventOptions,
    summary: &'a Summary,
    opened: &'a Opened,
    style: Style,
}

/// Draws the free pages of all zones over the events.
fn draw<W: Write>(opened: &Opened, writer: &mut W) -> io::Result<()> {
    if let Some(samples) = &opened.samples {
        write_chart_head(writer, opened.plans.len())?;
        write_panels(writer, &opened.plans, samples)?;
        write_chart_end(writer, opened.plans.len())?;
    }
    Ok(())
}

/// Draws a panel for each zone.
fn write_panels<W: Write>(writer: &mut W, plans: &[ZonePlan], samples: &Samples) -> io::Result<()> {
    let span = Span {
        unit: "page events",
        last: samples.events(),
    };
    for (place, (plan, row)) in plans.iter().zip(samples.zones()).enumerate() {
        let zone = ChartedZone {
            name: plan.name,
            pages: plan.pages,
            min: plan.min,
        };
        write_zone_chart(writer, place, &zone, row, &span)?;
    }
    Ok(())
}

/// Reports what came of the events, and how the zones are at the end.
fn tell<W: Write>(
    ended: &Ended<'_>,
    kernel: Kernel,
    capture: &Capture,
    writer: &mut W,
) -> Result<(), CaptureFault> {
    let (zones, shares) = kernel.into_parts();
    let told = CaptureReport {
        plans: &ended.opened.plans,
        workers: ended.opened.workers,
        lines: ended.summary.lines,
        counts: ended.summary.counts,
        sections: sections_of(&shares),
    };
    write_table(writer, &told)?;
    write_ends(ended, writer, zones.as_slice(), &shares)?;
    write_kernel(ended, writer, zones.as_slice(), capture)
}

/// How many sections a worker made with all zones.
fn own_sections(share: &Share) -> u64 {
    let mut sections = 0u64;
    for place in 0..share.zones() {
        sections = sections.saturating_add(share.sections(place));
    }
    sections
}

/// How many sections all workers made.
fn sections_of(shares: &[Share]) -> u64 {
    let mut sections = 0u64;
    for share in shares {
        sections = sections.saturating_add(own_sections(share));
    }
    sections
}

/// Writes how the zones are at the end: their lines of buddyinfo, the two indexes, and what stands in the way of their largest block.
fn write_ends<W: Write>(
    ended: &Ended<'_>,
    writer: &mut W,
    zones: &[Zone],
    shares: &[Share],
) -> Result<(), CaptureFault> {
    let plans = &ended.opened.plans;
    let lines = info_lines(ended.alloc, plans, zones)?;
    writeln!(writer)?;
    writer.write_all(&lines)?;
    writeln!(writer)?;
    if let Ok(rows) = read_table(ended.alloc, &lines) {
        let text = report_text(ended.alloc, ended.options.page, ended.style, &rows)?;
        writer.write_all(text.as_bytes())?;
    }
    for (place, (plan, zone)) in plans.iter().zip(zones).enumerate() {
        let name = zone.name();
        writeln!(writer, "\nzone {name}")?;
        write_zone_way(ended.alloc, writer, plan, zone, place, shares)?;
    }
    Ok(())
}

/// Writes what stands in the way of a zone's largest block.
fn write_zone_way<W: Write>(
    alloc: Global,
    writer: &mut W,
    plan: &ZonePlan,
    zone: &Zone,
    place: usize,
    shares: &[Share],
) -> Result<(), CaptureFault> {
    let lenders = ShareRow { shares };
    let row = page_row(alloc, zone, &lenders, place, PageNo::new(plan.base))?;
    let workers = u8::try_from(shares.len()).unwrap_or(u8::MAX);
    write_way(writer, &row, plan.base, zone.largest().order(), workers)?;
    Ok(())
}

/// Writes the free blocks of the zones beside those that the kernel had when the events were over, where the text reports them.
fn write_kernel<W: Write>(
    ended: &Ended<'_>,
    writer: &mut W,
    zones: &[Zone],
    capture: &Capture,
) -> Result<(), CaptureFault> {
    if capture.afterwards().is_empty() {
        return Ok(());
    }
    if let Ok(rows) = read_table(ended.alloc, capture.afterwards()) {
        writeln!(
            writer,
            "\nThe kernel's free blocks beside these. It began with pages out that no event tells, and gave pages of its lists back at other times."
        )?;
        write_beside_kernel(writer, &ended.opened.plans, zones, &rows)?;
    }
    Ok(())
}
