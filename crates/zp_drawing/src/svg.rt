//! The parts of pictures in SVG.
ghost use Rattle.std.specs.Prelude.{◌≡◌, OnOk, Some};
ghost use Rattle.std.specs.Io.KnownBytes.{Appends};
ghost use Rattle.zp_drawing.specs.Fills.{class_of, fill_of};
ghost use Rattle.zp_drawing.specs.Svg.{class_text, rect_text};

use crate::cells::Kind;
use std::fmt::{Display, Formatter};
use std::io::Write;
use std::{fmt, io};

/// The colours of free pages by order, of workers and of their lists, and of posted pages; those of workers come again after the eighth.
const FREE: [&str; 11] = [
    "#3c8d6b", "#559b7c", "#6caa8d", "#83b89f", "#9ac6b0", "#b0d3c1", "#c4dfd1", "#d5e9df",
    "#e3f1ea", "#edf6f1", "#f5faf7",
];

const WORKERS: [&str; 8] = [
    "#c8384a", "#2f6db5", "#e08a1e", "#7a4fa3", "#8c5a3c", "#c2408f", "#5a6b7b", "#3a3a8c",
];

const LISTS: [&str; 8] = [
    "#eeb0b7", "#abc8ea", "#f6d5a8", "#cdb9e0", "#d6bfae", "#ecb5d8", "#bcc6cf", "#b3b3dd",
];

const POSTED: &str = "#1c1c1c";

/// The colour of a kind.
pub fn fill(kind: Kind) -> &'static str
    ensures { result.now ≡ fill_of kind }
{
    match kind {
        Kind::Free(order) => FREE[order.min(10)],
        Kind::Out(worker) => WORKERS[worker % 8],
        Kind::Cached(worker) => LISTS[worker % 8],
        Kind::Posted => POSTED,
    }
}

/// The name of a kind's class of rectangles.
#[derive(Clone, Copy, PartialEq, Eq, Debug, Drop)]
pub struct Class(pub Kind);

impl Display for Class {
    ghost output = { λ class. Some (class_of class.0) };

    fn fmt<W: fmt::Write>(&self, f: &mut Formatter<W>) -> fmt::Result {
        match self.0 {
            Kind::Free(order) => write!(f, "f{order}"),
            Kind::Out(worker) => write!(f, "o{worker}"),
            Kind::Cached(worker) => write!(f, "c{worker}"),
            Kind::Posted => write!(f, "p"),
        }
    }
}

/// A rectangle, in pixels.
#[derive(Clone, Copy, PartialEq, Eq, Debug, Drop)]
pub struct Rect {
    pub x: usize,
    pub y: usize,
    pub width: usize,
    pub height: usize,
}

/// Writes the head of a picture of this size, on white.
pub fn write_head<W: Write>(writer: &mut W, width: usize, height: usize) -> io::Result<()> {
    writeln!(writer, "<?xml version=\"1.0\" encoding=\"UTF-8\"?>")?;
    write!(
        writer,
        "<svg xmlns=\"http://www.w3.org/2000/svg\" width=\"{width}\" height=\"{height}\" "
    )?;
    let (right, bottom) = (width, height);
    writeln!(
        writer,
        "viewBox=\"0 0 {right} {bottom}\" font-family=\"sans-serif\" font-size=\"12\">"
    )?;
    writeln!(
        writer,
        "<rect width=\"100%\" height=\"100%\" fill=\"#ffffff\"/>"
    )
}

/// Writes the end of a picture.
pub fn write_end<W: Write>(writer: &mut W) -> io::Result<()> {
    writeln!(writer, "</svg>")
}

/// Writes a rectangle of a kind.
pub fn write_rect<W: Write>(writer: &mut W, rect: Rect, kind: Kind) -> io::Result<()>
    ensures { OnOk result (Appends (W.contents writer.old) (W.contents writer.new) (rect_text rect kind)) }
{
    let (class, x, y) = (Class(kind), rect.x, rect.y);
    let (width, height) = (rect.width, rect.height);
    writeln!(
        writer,
        "<rect class=\"{class}\" x=\"{x}\" y=\"{y}\" width=\"{width}\" height=\"{height}\"/>"
    )
}

/// Writes the colours of all kinds, up to so many workers, as classes.
pub fn write_classes<W: Write>(writer: &mut W, workers: usize) -> io::Result<()> {
    writeln!(writer, "<style>")?;
    for order in 0..11 {
        write_class(writer, Kind::Free(order))?;
    }
    for worker in 0..workers {
        write_class(writer, Kind::Out(worker))?;
        write_class(writer, Kind::Cached(worker))?;
    }
    write_class(writer, Kind::Posted)?;
    writeln!(writer, "</style>")
}

/// Writes the colour of a kind's class.
fn write_class<W: Write>(writer: &mut W, kind: Kind) -> io::Result<()>
    ensures { OnOk result (Appends (W.contents writer.old) (W.contents writer.new) (class_text kind)) }
{
    let (class, colour) = (Class(kind), fill(kind));
    writeln!(writer, ".{class}{{fill:{colour}}}")
}

/// Writes a text whose end, middle or start, as the anchor says, is at a place. It must have no character that XML keeps to itself.
pub fn write_text<W: Write, T: Display>(
    writer: &mut W,
    x: usize,
    y: usize,
    anchor: &str,
    text: &T,
) -> io::Result<()> {
    writeln!(
        writer,
        "<text x=\"{x}\" y=\"{y}\" text-anchor=\"{anchor}\">{text}</text>"
    )
}

/// Writes an entry of a legend: a square of the kind, and what it is.
pub fn write_key<W: Write, T: Display>(
    writer: &mut W,
    x: usize,
    y: usize,
    kind: Kind,
    text: &T,
) -> io::Result<()> {
    let square = Rect {
        x,
        y: y.saturating_sub(10),
        width: 12,
        height: 12,
    };
    write_rect(writer, square, kind)?;
    write_text(writer, x.saturating_add(17), y, "start", text)
}
