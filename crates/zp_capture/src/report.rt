//! What came of a run, as a table.

use crate::plan::ZonePlan;
use std::io;
use std::io::Write;
use zp_kernel::{EventCounts, LineCounts, TypeCounts};

/// The report on a run.
#[derive(Clone, Copy, Drop)]
pub struct CaptureReport<'a> {
    pub plans: &'a [ZonePlan],
    pub workers: u32,
    pub lines: LineCounts,
    pub counts: EventCounts,
    /// How many sections were made with all zones.
    pub sections: u64,
}

/// Writes a line of the table: what was counted, how often, and what was done with it.
fn write_count<W: Write>(writer: &mut W, name: &str, count: u64, done: &str) -> io::Result<()> {
    if done.is_empty() {
        writeln!(writer, "{name:<38}{count:>12}")
    } else {
        writeln!(writer, "{name:<38}{count:>12}  {done}")
    }
}

/// Writes the zones over which the events were carried out.
fn write_zones<W: Write>(writer: &mut W, told: &CaptureReport<'_>) -> io::Result<()> {
    for plan in told.plans {
        let name = plan.name.as_str();
        let (pages, base, min) = (plan.pages, plan.base, plan.min);
        writeln!(writer, "zone {name}: {pages} pages from {base}, min {min}")?;
    }
    let workers = told.workers;
    writeln!(writer, "workers: {workers}\n")
}

/// Writes what became of the kernel's requests.
fn write_requests<W: Write>(writer: &mut W, told: &CaptureReport<'_>) -> io::Result<()> {
    let counts = &told.counts;
    write_count(writer, "handed out by the kernel", told.lines.allocs, "")?;
    write_count(writer, "  given here", counts.given, "")?;
    write_count(
        writer,
        "  refused 10, below the mark",
        counts.below_mark,
        "",
    )?;
    write_count(writer, "  refused 11, no block", counts.no_block, "")?;
    write_count(
        writer,
        "  larger than the zones' blocks",
        counts.too_large,
        "nothing was asked",
    )?;
    write_count(
        writer,
        "  of a type that is not here",
        counts.other_type,
        "nothing was asked",
    )?;
    write_count(
        writer,
        "  at a frame that held a block",
        counts.again,
        "that block was given back first",
    )?;
    write_count(
        writer,
        "refused by the kernel",
        told.lines.refusals,
        "nothing was asked",
    )
}

/// Writes what became of what the kernel freed.
fn write_frees<W: Write>(writer: &mut W, told: &CaptureReport<'_>) -> io::Result<()> {
    let counts = &told.counts;
    write_count(writer, "freed by the kernel", told.lines.frees, "")?;
    write_count(writer, "  a block", counts.freed, "given back")?;
    write_count(
        writer,
        "  a part of a block",
        counts.parts,
        "given back, and what is left stays out",
    )?;
    write_count(
        writer,
        "  more than the block of its frame",
        counts.larger,
        "the block was given back",
    )?;
    write_count(
        writer,
        "  of no known block",
        counts.unknown,
        "nothing was asked: taken before the first event, or refused here",
    )?;
    write_count(
        writer,
        "another worker's blocks",
        counts.passed,
        "posted, collected, given back",
    )?;
    let other = counts
        .nothing_posted
        .saturating_add(counts.not_lent)
        .saturating_add(counts.other_refusals);
    write_count(writer, "refused otherwise", other, "")
}

/// Writes how often something happened, by the type of the request.
fn write_types<W: Write>(writer: &mut W, unmovable: &str, counts: &TypeCounts) -> io::Result<()> {
    write_count(writer, unmovable, counts.unmovable, "")?;
    write_count(writer, "  Reclaimable", counts.reclaimable, "")?;
    write_count(writer, "  Movable", counts.movable, "")
}

/// Writes how often a request was met out of the free pages of another type.
fn write_changes<W: Write>(writer: &mut W, told: &CaptureReport<'_>) -> io::Result<()> {
    write_types(writer, "pageblocks claimed: Unmovable", &told.counts.claims)?;
    write_types(writer, "blocks borrowed: Unmovable", &told.counts.borrows)?;
    write_count(
        writer,
        "such requests of the kernel",
        told.lines.fallbacks,
        "mm_page_alloc_extfrag",
    )
}

/// Writes the table.
pub fn write_table<W: Write>(writer: &mut W, told: &CaptureReport<'_>) -> io::Result<()> {
    write_zones(writer, told)?;
    write_count(writer, "page events", told.lines.events(), "")?;
    write_requests(writer, told)?;
    write_frees(writer, told)?;
    write_changes(writer, told)?;
    write_count(writer, "other lines", told.lines.others, "passed over")?;
    write_count(
        writer,
        "sections",
        told.sections,
        "what was asked of the zones themselves",
    )?;
    write_count(writer, "most pages out", told.counts.most_out, "")?;
    write_count(writer, "pages out at the end", told.counts.out, "")
}
