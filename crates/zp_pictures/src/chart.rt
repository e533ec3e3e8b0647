//! Charts.
ghost use Rattle.std.specs.Prelude.{◌<◌, IfOk, length};
ghost use Rattle.zp_trace.specs.Grammar.{IsBeginning, lines_of};
ghost use Rattle.zp_states.specs.Replays.{office_at};
ghost use Rattle.zp_pictures.specs.Shown.{IsDrawn};

use crate::fault::PictureFault;
use crate::input::{Shown, TraceReading, read_trace, requests_to};
use std::alloc::{AllocError, Global};
use std::io::Write;
use zp_drawing::{ChartedZone, Span, write_chart_end, write_chart_head, write_zone_chart};
use zp_model::ORDERS;
use zp_progress::Progress;
use zp_states::Replay;
use zp_trace::{Trace, ZoneLine};

/// The most samples from left to right.
const MOST_SAMPLES: usize = 2_000;

/// The counts of a zone by order, before the first request and after each of so many; of more than can be shown, evenly many are passed over.
fn samples_of<P: Progress>(
    alloc: Global,
    trace: &Trace,
    zone: usize,
    states: usize,
    progress: &mut P,
) -> Result<Vec<[u32; ORDERS]>, PictureFault>
    requires { IsBeginning (lines_of trace.now) }
{
    let step = (states / MOST_SAMPLES).saturating_add(1);
    let requests = states.saturating_sub(1);
    let before = zone.saturating_mul(requests);
    let of = trace.header.zones.as_slice().len().saturating_mul(requests);
    let mut samples = Vec::new(alloc);
    let mut replay = Replay::open(alloc, trace)?;
    for state in 0..states {
        let last = state.saturating_add(1) == states;
        if state % step == 0 || last {
            if let Some(zone) = replay.zones().get(zone) {
                samples
                    .push(zone.counts().by_order)
                    .map_err(AllocError::from)?;
            }
        }
        progress.at(before.saturating_add(state), of);
        replay.step();
    }
    Ok(samples)
}

/// Writes the panel of one zone.
fn write_zone<W: Write, P: Progress>(
    alloc: Global,
    trace: &Trace,
    zone: usize,
    line: &ZoneLine,
    states: usize,
    writer: &mut W,
    progress: &mut P,
) -> Result<(), PictureFault>
    requires { IsBeginning (lines_of trace.now) }
{
    let samples = samples_of(alloc, trace, zone, states, progress)?;
    let charted = ChartedZone {
        name: line.name,
        pages: line.pages,
        min: line.min,
    };
    let span = Span {
        unit: "requests",
        last: states.saturating_sub(1) as u64,
    };
    write_zone_chart(writer, zone, &charted, &samples, &span)?;
    Ok(())
}

/// Writes the charts of all zones, over so many requests or all.
fn write_charts<W: Write, P: Progress>(
    alloc: Global,
    trace: &Trace,
    requests: usize,
    writer: &mut W,
    progress: &mut P,
) -> Result<(), PictureFault>
    requires { IsBeginning (lines_of trace.now) }
{
    let states = requests.min(trace.commands.len()).saturating_add(1);
    let lines = trace.header.zones.as_slice();
    write_chart_head(writer, lines.len())?;
    for (zone, line) in lines.iter().enumerate() {
        write_zone(alloc, trace, zone, line, states, writer, progress)?;
    }
    write_chart_end(writer, lines.len())?;
    Ok(())
}

/// Writes the charts of a trace's first lines, or of all, as SVG: for each zone its free pages by order. It reports how many requests it
/// has carried out, which are all of them for each zone. Of a text that is no trace nothing is written.
pub fn print_chart<W: Write, P: Progress>(
    alloc: Global,
    text: &[u8],
    line: Option<usize>,
    writer: &mut W,
    progress: &mut P,
) -> Result<Shown, PictureFault>
    ensures { IfOk result (IsDrawn text.now (W.contents writer.old) (W.contents writer.new)) }
{
    let trace = match read_trace(alloc, text)? {
        TraceReading::Trace(trace) => trace,
        TraceReading::BadLine(number) => return Ok(Shown::BadLine(number)),
    };
    write_charts(alloc, &trace, requests_to(&trace, line), writer, progress)?;
    Ok(Shown::Picture)
}
