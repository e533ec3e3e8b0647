//! The trace of a picture.
ghost use Rattle.std.specs.Prelude.{◌≡◌, IfErr, IfOk, OnErr, OnOk};
ghost use Rattle.zp_streams.specs.Streams.{IsBegun, IsWritten};
ghost use Rattle.zp_pictures.specs.Inputs.{IsReadingOf, requests_to};
ghost use Rattle.zp_pictures.specs.Shown.{bad_line};

use crate::fault::PictureFault;
use crate::output::write_text;
use std::alloc::Global;
use std::io::Write;
use zp_info::{DIGITS, TextBuffer};
use zp_trace::{Trace, TraceFault, parse_trace};

/// The most bytes of the line that reports a bad line: `bad line N`, and a line feed.
const BAD_LINE: usize = 10 + DIGITS;

/// What was drawn.
#[derive(Clone, Copy, PartialEq, Eq, Debug, Drop)]
pub enum Shown {
    /// The picture.
    Picture,
    /// The text is no trace: the number of its bad line.
    BadLine(u32),
}

/// What a text was read as.
#[derive(Drop)]
pub enum TraceReading {
    Trace(Trace),
    BadLine(u32),
}

/// The trace that a text writes, or the number of the text's bad line. Memory.
pub fn read_trace(alloc: Global, text: &[u8]) -> Result<TraceReading, PictureFault>
    ensures reading { IfOk result (IsReadingOf text.now) }
    ensures why { IfErr result (λ e. e ≡ PictureFault.Memory) }
{
    match parse_trace(alloc, text) {
        Ok(trace) => Ok(TraceReading::Trace(trace)),
        Err(TraceFault::BadLine(number)) => Ok(TraceReading::BadLine(number)),
        Err(TraceFault::Memory) => Err(PictureFault::Memory),
    }
}

/// The line that reports a bad line, as a replay does.
fn bad_line(number: u32) -> TextBuffer<BAD_LINE>
    ensures { result ≡ bad_line number }
{
    let mut text = TextBuffer::new();
    text.push("bad line ");
    text.push_number(number);
    text.push("\n");
    text
}

/// Reports a bad line. Write.
pub fn write_bad_line<W: Write>(writer: &mut W, number: u32) -> Result<Shown, PictureFault>
    ensures shown { IfOk result (λ shown. shown ≡ Shown.BadLine number) }
    ensures ok { OnOk result (IsWritten (W.contents writer.old) (W.contents writer.new) (bad_line number)) }
    ensures begun { OnErr result (IsBegun (W.contents writer.old) (W.contents writer.new) (bad_line number)) }
    ensures why { IfErr result (λ e. e ≡ PictureFault.Write) }
{
    match write_text(writer, bad_line(number).as_bytes()) {
        Ok(()) => Ok(Shown::BadLine(number)),
        Err(fault) => Err(fault),
    }
}

/// How many requests stand in the first lines of a trace, or in all of them, where no line is named.
pub fn requests_to(trace: &Trace, line: Option<usize>) -> usize
    ensures { result ≡ requests_to trace.now line }
{
    match line {
        Some(line) => line.saturating_sub(trace.header.zones.as_slice().len() + 2),
        None => trace.commands.len(),
    }
}
