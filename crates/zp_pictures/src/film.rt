//! Films.
ghost use Rattle.std.specs.Prelude.{IfOk};
ghost use Rattle.zp_trace.specs.Grammar.{IsBeginning, lines_of};
ghost use Rattle.zp_pictures.specs.Shown.{IsDrawn};

use crate::fault::PictureFault;
use crate::film_states::draw_rows;
use crate::input::{Shown, TraceReading, read_trace, requests_to};
use crate::labels::Label;
use crate::layout::{Layout, lay_out, strips_of};
use crate::legend::{legend_height, write_legend};
use std::alloc::Global;
use std::io;
use std::io::Write;
use zp_drawing::{GAP, LEFT, Strip, TOP, write_classes, write_end, write_head, write_text};
use zp_progress::Progress;
use zp_trace::{Trace, ZoneLine};

/// The least width, so that the legend fits.
const LEAST_WIDTH: usize = 1_020;

/// Into how many parts the requests are divided by the numbers beside the rows.
const MARKS: usize = 8;

/// The numbers of a zone's first page and last one stand beside each other only over strips as wide as this.
const WIDE_STRIP: usize = 150;

/// Writes the name of a zone, and the numbers of its first page and its last.
fn write_zone<W: Write>(
    writer: &mut W,
    strip: &Strip,
    line: &ZoneLine,
    layout: &Layout,
) -> io::Result<()> {
    let width = strip.cells.saturating_mul(layout.width);
    let right = strip.left.saturating_add(width);
    let name = Label::Zone(line.name, line.pages);
    let last = u64::from(line.base)
        .saturating_add(u64::from(line.pages))
        .saturating_sub(1);
    write_text(writer, strip.left, TOP - 28, "start", &name)?;
    let first = Label::Number(u64::from(line.base));
    write_text(writer, strip.left, TOP - 8, "start", &first)?;
    if width < WIDE_STRIP {
        return Ok(());
    }
    write_text(writer, right, TOP - 8, "end", &Label::Number(last))
}

/// Writes the numbers of requests beside the rows.
fn write_requests<W: Write>(writer: &mut W, layout: &Layout, states: usize) -> io::Result<()> {
    write_text(writer, LEFT - 8, TOP - 8, "end", &Label::Requests)?;
    let mut before = None;
    for mark in 0..=MARKS {
        let state = states.saturating_sub(1).saturating_mul(mark) / MARKS;
        if before == Some(state) {
            continue;
        }
        let row = state / layout.states.max(1);
        let y = TOP
            .saturating_add(row.saturating_mul(layout.height))
            .saturating_add(10);
        write_text(writer, LEFT - 8, y, "end", &Label::Number(state as u64))?;
        before = Some(state);
    }
    Ok(())
}

/// Writes all but the cells.
fn write_frame<W: Write>(
    writer: &mut W,
    trace: &Trace,
    layout: &Layout,
    strips: &[Strip],
    states: usize,
) -> io::Result<()> {
    let lines = trace.header.zones.as_slice();
    let workers = trace.header.workers as usize;
    let field = layout.cells.saturating_mul(layout.width);
    let gaps = lines.len().saturating_mul(GAP);
    let width = LEFT
        .saturating_add(field)
        .saturating_add(gaps)
        .saturating_add(20);
    let bottom = TOP.saturating_add(layout.rows.saturating_mul(layout.height));
    let height = bottom
        .saturating_add(legend_height(workers))
        .saturating_add(40);
    write_head(writer, width.max(LEAST_WIDTH), height)?;
    write_classes(writer, workers)?;
    for (strip, line) in strips.iter().zip(lines.iter()) {
        write_zone(writer, strip, line, layout)?;
    }
    write_requests(writer, layout, states)?;
    let cell = Label::Cell(layout.pages, layout.states);
    write_text(writer, LEFT, bottom.saturating_add(20), "start", &cell)?;
    write_legend(writer, LEFT, bottom.saturating_add(44), workers)
}

/// Writes the film of a trace's first requests, so many or all.
fn write_film<W: Write, P: Progress>(
    alloc: Global,
    trace: &Trace,
    requests: usize,
    writer: &mut W,
    progress: &mut P,
) -> Result<(), PictureFault>
    requires { IsBeginning (lines_of trace.now) }
{
    let states = requests.min(trace.commands.len()).saturating_add(1);
    let layout = lay_out(trace.header.zones.as_slice(), states);
    let strips = strips_of(alloc, trace.header.zones.as_slice(), &layout)?;
    write_frame(writer, trace, &layout, &strips, states)?;
    writeln!(writer, "<g shape-rendering=\"crispEdges\">")?;
    draw_rows(alloc, trace, states, &layout, strips, writer, progress)?;
    writeln!(writer, "</g>")?;
    write_end(writer)?;
    Ok(())
}

/// Writes the film of a trace's first lines, or of all, as SVG, and reports after how many requests it is. Of a text that is no trace
/// nothing is written.
pub fn print_film<W: Write, P: Progress>(
    alloc: Global,
    text: &[u8],
    line: Option<usize>,
    writer: &mut W,
    progress: &mut P,
) -> Result<Shown, PictureFault>
    ensures { IfOk result (IsDrawn text.now (W.contents writer.old) (W.contents writer.new)) }
{
    let trace = match read_trace(alloc, text)? {
        TraceReading::Trace(trace) => trace,
        TraceReading::BadLine(number) => return Ok(Shown::BadLine(number)),
    };
    write_film(alloc, &trace, requests_to(&trace, line), writer, progress)?;
    Ok(Shown::Picture)
}
