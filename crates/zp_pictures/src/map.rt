//! Maps.
ghost use Rattle.std.specs.Prelude.{◌<◌, IfOk, length};
ghost use Rattle.zp_trace.specs.Grammar.{IsBeginning, lines_of};
ghost use Rattle.zp_states.specs.Replays.{office_at};
ghost use Rattle.zp_pictures.specs.Shown.{IsShown};

use crate::fault::PictureFault;
use crate::input::{Shown, TraceReading, read_trace, requests_to, write_bad_line};
use std::alloc::Global;
use std::io::Write;
use zp_drawing::{MapStyle, write_map};
use zp_states::Replay;
use zp_trace::Trace;

/// How maps are drawn, and after which line of the trace: after all, where none is named.
#[derive(Clone, Copy, PartialEq, Eq, Debug, Drop)]
pub struct MapOptions {
    pub line: Option<usize>,
    pub style: MapStyle,
}

/// Writes the map of one zone.
fn write_zone<W: Write>(
    alloc: Global,
    replay: &Replay<'_>,
    zone: usize,
    workers: u8,
    style: &MapStyle,
    writer: &mut W,
) -> Result<(), PictureFault>
    requires { zone < length (office_at replay.now).zones }
{
    let row = replay.page_row(alloc, zone)?;
    let first = replay.first_page(zone).number();
    write_map(writer, &replay.zones()[zone], &row, first, workers, style)?;
    Ok(())
}

/// Writes the maps of all zones.
fn write_zones<W: Write>(
    alloc: Global,
    trace: &Trace,
    options: &MapOptions,
    writer: &mut W,
) -> Result<(), PictureFault>
    requires { IsBeginning (lines_of trace.now) }
{
    let replay = Replay::after(alloc, trace, requests_to(trace, options.line))?;
    let workers = u8::try_from(trace.header.workers).unwrap_or(u8::MAX);
    for zone in 0..replay.zone_count() {
        if zone > 0 {
            writeln!(writer)?;
        }
        write_zone(alloc, &replay, zone, workers, &options.style, writer)?;
    }
    Ok(())
}

/// Writes a map of each zone of a trace, after its first lines. Of a text that is no trace the number of its bad line is written.
pub fn print_map<W: Write>(
    alloc: Global,
    text: &[u8],
    options: &MapOptions,
    writer: &mut W,
) -> Result<Shown, PictureFault>
    ensures { IfOk result (IsShown text.now (W.contents writer.old) (W.contents writer.new)) }
{
    let trace = match read_trace(alloc, text)? {
        TraceReading::Trace(trace) => trace,
        TraceReading::BadLine(number) => return write_bad_line(writer, number),
    };
    write_zones(alloc, &trace, options, writer)?;
    Ok(Shown::Picture)
}
