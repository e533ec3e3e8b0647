//! A chart of a row of zones: a panel for each, with what stands beside it, and the colours of the orders beneath them.
use crate::cells::Kind;
use crate::films::{LEFT, TOP};
use crate::panels::{PANEL_HEIGHT, Panel, write_panel};
use crate::svg::{write_classes, write_end, write_head, write_key, write_text};
use std::fmt::{Display, Formatter};
use std::io::Write;
use std::{fmt, io};
use zp_model::{Name, ORDERS};

/// The pixels of a panel from left to right, from one panel to the next, and of the colour of an order with its name.
const PANEL_WIDTH: usize = 880;

const NEXT_PANEL: usize = PANEL_HEIGHT + 64;

const ENTRY: usize = 84;

/// A zone of a chart: how many pages it has, and its least mark.
#[derive(Clone, Copy, PartialEq, Eq, Debug, Drop)]
pub struct ChartedZone {
    pub name: Name,
    pub pages: u32,
    pub min: u32,
}

/// What a chart is over: so many of this unit.
#[derive(Clone, Copy, PartialEq, Eq, Debug, Drop)]
pub struct Span<'a> {
    pub unit: &'a str,
    pub last: u64,
}

/// The text of an order's colour.
#[derive(Clone, Copy, PartialEq, Eq, Debug, Drop)]
struct OrderName(usize);

impl Display for OrderName {
    fn fmt<W: fmt::Write>(&self, f: &mut Formatter<W>) -> fmt::Result {
        let OrderName(order) = *self;
        write!(f, "order {order}")
    }
}

/// The title of a panel.
#[derive(Clone, Copy, PartialEq, Eq, Debug, Drop)]
struct Title(Name, u32);

impl Display for Title {
    fn fmt<W: fmt::Write>(&self, f: &mut Formatter<W>) -> fmt::Result {
        let Title(name, pages) = *self;
        let name = name.as_str();
        write!(f, "zone {name}, {pages} pages")
    }
}

/// Where the panels of so many zones end.
fn end_of_panels(zones: usize) -> usize {
    TOP.saturating_add(zones.saturating_mul(NEXT_PANEL))
}

/// Writes the colours of free pages by order.
pub fn write_order_keys<W: Write>(writer: &mut W, x: usize, y: usize) -> io::Result<()> {
    for order in 0..ORDERS {
        let place = x.saturating_add(order.saturating_mul(ENTRY));
        write_key(writer, place, y, Kind::Free(order), &OrderName(order))?;
    }
    Ok(())
}

/// Writes what stands before the panels of a chart of so many zones.
pub fn write_chart_head<W: Write>(writer: &mut W, zones: usize) -> io::Result<()> {
    let height = end_of_panels(zones).saturating_add(20);
    write_head(writer, LEFT + PANEL_WIDTH + 70, height)?;
    write_classes(writer, 0)
}

/// Writes the numbers and names beside a panel.
fn write_axes<W: Write>(
    writer: &mut W,
    panel: &Panel,
    zone: &ChartedZone,
    span: &Span<'_>,
) -> io::Result<()> {
    let (left, top) = (panel.x, panel.y);
    let bottom = top.saturating_add(PANEL_HEIGHT);
    let right = left.saturating_add(panel.width);
    let beside = left.saturating_sub(8);
    let beneath = bottom.saturating_add(16);
    let title = Title(zone.name, zone.pages);
    write_text(writer, left, top.saturating_sub(8), "start", &title)?;
    write_text(writer, beside, top.saturating_add(10), "end", &zone.pages)?;
    write_text(writer, beside, bottom, "end", &0u32)?;
    write_text(writer, left, beneath, "start", &0u32)?;
    let middle = left.saturating_add(panel.width / 2);
    write_text(writer, middle, beneath, "middle", &span.unit)?;
    write_text(writer, right, beneath, "end", &span.last)
}

/// Writes the panel of the zone at this place of the row.
pub fn write_zone_chart<W: Write>(
    writer: &mut W,
    place: usize,
    zone: &ChartedZone,
    samples: &[[u32; ORDERS]],
    span: &Span<'_>,
) -> io::Result<()> {
    let panel = Panel {
        x: LEFT,
        y: end_of_panels(place),
        width: PANEL_WIDTH,
        pages: zone.pages,
        min: zone.min,
    };
    write_panel(writer, &panel, samples)?;
    write_axes(writer, &panel, zone, span)
}

/// Writes what stands behind the panels.
pub fn write_chart_end<W: Write>(writer: &mut W, zones: usize) -> io::Result<()> {
    write_order_keys(writer, LEFT, end_of_panels(zones))?;
    write_end(writer)
}
