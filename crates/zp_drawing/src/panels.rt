//! The chart of a zone: its free pages by order over the requests, stacked, the largest order at the bottom, with its marks as lines.
ghost use Rattle.std.specs.Prelude.{◌≡◌};
ghost use Rattle.zp_drawing.specs.Panels.{level_of, pages_from, place_of};

use crate::cells::Kind;
use crate::svg::{fill, write_text};
use std::io;
use std::io::Write;
use zp_model::ORDERS;

/// The size of the field of a panel, in pixels.
pub const PANEL_HEIGHT: usize = 200;

/// The field of a zone's chart, and what it shows.
#[derive(Clone, Copy, PartialEq, Eq, Debug, Drop)]
pub struct Panel {
    /// The field's upper left corner and its width, in pixels.
    pub x: usize,
    pub y: usize,
    pub width: usize,
    /// How many pages the zone has, and its least mark.
    pub pages: u32,
    pub min: u32,
}

impl Panel {
    /// The height at which so many pages are shown.
    fn level(&self, pages: u32) -> usize
        ensures { result ≡ level_of self.now pages }
    {
        let all = u64::from(self.pages).max(1);
        let part = u64::from(pages).saturating_mul(PANEL_HEIGHT as u64) / all;
        let bottom = self.y.saturating_add(PANEL_HEIGHT);
        bottom.saturating_sub((part as usize).min(PANEL_HEIGHT))
    }

    /// The place from left to right of a sample among so many.
    fn place(&self, sample: usize, samples: usize) -> usize
        ensures { result ≡ place_of self.now sample samples }
    {
        let part = sample.saturating_mul(self.width) / samples.max(1);
        self.x.saturating_add(part)
    }
}

/// How many pages the free blocks of an order and those above have.
fn pages_from(by_order: &[u32; ORDERS], order: usize) -> u32
    ensures { result ≡ pages_from by_order.now order }
{
    let mut pages = 0u32;
    'orders: for number in order..ORDERS {
        pages = pages.saturating_add(by_order[number].saturating_mul(1 << number));
    }
    pages
}

/// Writes the area of the free pages of an order and those above.
fn write_area<W: Write>(
    writer: &mut W,
    panel: &Panel,
    samples: &[[u32; ORDERS]],
    order: usize,
) -> io::Result<()> {
    let bottom = panel.y.saturating_add(PANEL_HEIGHT);
    let colour = fill(Kind::Free(order));
    let left = panel.x;
    write!(writer, "<path fill=\"{colour}\" d=\"M{left} {bottom}")?;
    let mut level = bottom;
    for (number, sample) in samples.iter().enumerate() {
        let next = panel.level(pages_from(sample, order));
        if next != level {
            let place = panel.place(number, samples.len());
            write!(writer, "H{place}V{next}")?;
            level = next;
        }
    }
    let right = panel.x.saturating_add(panel.width);
    writeln!(writer, "H{right}V{bottom}Z\"/>")
}

/// Writes a mark as a line, with its name beside it, so many pixels lower than ten above the line: the lines may lie close together.
fn write_mark<W: Write>(
    writer: &mut W,
    panel: &Panel,
    pages: u32,
    name: &str,
    colour: &str,
    lower: usize,
) -> io::Result<()> {
    let y = panel.level(pages);
    let (left, right) = (panel.x, panel.x.saturating_add(panel.width));
    write!(
        writer,
        "<path stroke=\"{colour}\" stroke-dasharray=\"5 3\" "
    )?;
    writeln!(writer, "fill=\"none\" d=\"M{left} {y}H{right}\"/>")?;
    let beside = y.saturating_sub(10).saturating_add(lower);
    write_text(writer, right.saturating_add(6), beside, "start", &name)
}

/// Writes the areas of all orders, the marks, and the frame.
pub fn write_panel<W: Write>(
    writer: &mut W,
    panel: &Panel,
    samples: &[[u32; ORDERS]],
) -> io::Result<()> {
    for order in 0..ORDERS {
        write_area(writer, panel, samples, order)?;
    }
    let min = panel.min;
    if min > 0 {
        write_mark(
            writer,
            panel,
            min.saturating_add(min / 2),
            "high",
            "#888888",
            0,
        )?;
        write_mark(
            writer,
            panel,
            min.saturating_add(min / 4),
            "low",
            "#c07000",
            12,
        )?;
        write_mark(writer, panel, min, "min", "#b00020", 24)?;
    }
    let (x, y, width) = (panel.x, panel.y, panel.width);
    write!(
        writer,
        "<rect x=\"{x}\" y=\"{y}\" width=\"{width}\" height=\"{PANEL_HEIGHT}\" "
    )?;
    writeln!(writer, "fill=\"none\" stroke=\"#444444\"/>")
}
