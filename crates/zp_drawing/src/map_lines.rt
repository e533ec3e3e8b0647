//! The map of a zone: a line for each pageblock, and beneath it who has how much, and what stands in the way.
ghost use Rattle.std.specs.Prelude.{◌≡◌, ◌<◌, ◌≤◌, ◌^◌, length, IfNone, IfSome, OnOk};
ghost use Rattle.std.specs.Io.KnownBytes.{Appends};
ghost use Rattle.zp_drawing.specs.MapText.{cells_text, holding_text, holdings_text, largest_text, margin_text, pageblock_text};
ghost use Rattle.zp_drawing.specs.MapText.{IsWayTold, no_run_text, run_line, run_text, title_text};
ghost use Rattle.zp_drawing.specs.Maps.{HasNoFree, IsCellSize, IsLargestFree, larger, pageblock_letter, type_letter};

use crate::glyphs::{CellStyle, write_cell};
use std::io;
use std::io::Write;
use zp_model::{Order, PageblockType, Worker};
use zp_view::{PageState, holdings_in, least_used_run, used_pages};
use zp_zone::Zone;

/// The places before the first cell of a line: a pageblock's number, its type, and two spaces.
const MARGIN: usize = 9;

/// How a map is drawn.
#[derive(Clone, Copy, PartialEq, Eq, Debug, Drop)]
pub struct MapStyle {
    /// How many characters a line may have.
    pub width: usize,
    /// Letters and digits instead of half blocks and shades.
    pub ascii: bool,
    pub colour: bool,
    /// The order of the block for which the map says what stands in the way: the zone's largest, where none is named.
    pub order: Option<Order>,
}

/// How many pages a cell has: the least power of two by which a pageblock fits into the width.
fn cell_pages(pageblock: usize, width: usize) -> usize
    ensures size { IsCellSize pageblock width result }
    ensures some { 0 < result }
{
    let cells = width.saturating_sub(MARGIN).max(1);
    'orders: for order in 0..16u32 {
        let pages = 1usize << order;
        if pages.saturating_mul(cells) >= pageblock {
            return pages;
        }
    }
    1 << 16
}

/// The letter of a type of pageblocks.
fn type_letter(kind: PageblockType) -> char
    ensures { result ≡ type_letter kind }
{
    match kind {
        PageblockType::Unmovable => 'U',
        PageblockType::Reclaimable => 'R',
        PageblockType::Movable => 'M',
        PageblockType::Isolate => 'I',
    }
}

/// The letter of the type of a zone's pageblock of this number.
fn pageblock_letter(zone: &Zone, number: u32) -> char
    ensures { result ≡ pageblock_letter zone.now.plain number }
{
    match zone.pageblock(number) {
        Some(pageblock) => type_letter(pageblock.kind),
        None => '?',
    }
}

/// Writes the cells of a pageblock's pages.
fn write_cells<W: Write>(
    writer: &mut W,
    states: &[PageState],
    pages: usize,
    style: &CellStyle,
) -> io::Result<()>
    requires { 0 < pages }
    ensures { OnOk result (Appends (W.contents writer.old) (W.contents writer.new) (cells_text style.now pages states.now)) }
{
    'cells: for cell in 0..states.len().div_ceil(pages) {
        let rest = &states[cell * pages..];
        write_cell(writer, &rest[..rest.len().min(pages)], style)?;
    }
    Ok(())
}

/// Writes the number of a pageblock, and the letter of its type.
fn write_margin<W: Write>(writer: &mut W, number: usize, letter: char) -> io::Result<()>
    ensures { OnOk result (Appends (W.contents writer.old) (W.contents writer.new) (margin_text number letter)) }
{
    write!(writer, "{number:>5} {letter}  ")
}

/// Writes the line of a pageblock of these pages.
fn write_pageblock<W: Write>(
    writer: &mut W,
    number: usize,
    letter: char,
    states: &[PageState],
    pages: usize,
    style: &CellStyle,
) -> io::Result<()>
    requires { 0 < pages }
    ensures { OnOk result (Appends (W.contents writer.old) (W.contents writer.new) (pageblock_text style.now pages states.now number letter)) }
{
    write_margin(writer, number, letter)?;
    write_cells(writer, states, pages, style)?;
    writeln!(writer)
}

/// Writes a line for each pageblock.
fn write_pageblocks<W: Write>(
    writer: &mut W,
    zone: &Zone,
    row: &[PageState],
    style: &MapStyle,
) -> io::Result<()> {
    let pageblock = zone.largest().pageblock_pages().max(1) as usize;
    let pages = cell_pages(pageblock, style.width);
    let cells = CellStyle {
        ascii: style.ascii,
        colour: style.colour,
        largest: zone.largest().order(),
    };
    for (number, states) in row.chunks(pageblock).enumerate() {
        let letter = match u32::try_from(number) {
            Ok(number) => pageblock_letter(zone, number),
            Err(_) => '?',
        };
        write_pageblock(writer, number, letter, states, pages, &cells)?;
    }
    Ok(())
}

/// Writes what a worker has of these pages, where it has something; the line begins so.
fn write_holding<W: Write>(
    writer: &mut W,
    row: &[PageState],
    worker: Worker,
    begin: &str,
) -> io::Result<()>
    ensures { OnOk result (Appends (W.contents writer.old) (W.contents writer.new) (holding_text begin.now row.now worker)) }
{
    let held = holdings_in(row, worker);
    let (out, cached, posted) = (held.out, held.cached, held.posted);
    if out == 0 && cached == 0 && posted == 0 {
        return Ok(());
    }
    let number = worker.number();
    writeln!(
        writer,
        "{begin}worker {number}: out {out}, cached {cached}, posted {posted}"
    )
}

/// Writes what each worker has of these pages; each line begins so.
fn write_holdings<W: Write>(
    writer: &mut W,
    row: &[PageState],
    workers: u8,
    begin: &str,
) -> io::Result<()>
    ensures { OnOk result (Appends (W.contents writer.old) (W.contents writer.new) (holdings_text begin.now row.now workers)) }
{
    'workers: for number in 0..workers {
        let Some(worker) = Worker::new(number) else {
            return Ok(());
        };
        write_holding(writer, row, worker, begin)?;
    }
    Ok(())
}

/// The larger of an order and of one that there may be.
fn larger(largest: Option<Order>, order: Order) -> Order
    ensures { result ≡ larger largest order }
{
    match largest {
        Some(other) if other.number() >= order.number() => other,
        _ => order,
    }
}

/// The order of the largest free block of a row's pages.
fn largest_free(row: &[PageState]) -> Option<Order>
    ensures none { IfNone result (HasNoFree row.now) }
    ensures largest { IfSome result (IsLargestFree row.now) }
{
    let mut largest: Option<Order> = None;
    'pages: for state in row {
        if let PageState::Free(order) = *state {
            largest = Some(larger(largest, order));
        }
    }
    largest
}

/// Writes how many pages of a run of this order, from this page on, are in use.
fn write_run_line<W: Write>(
    writer: &mut W,
    run: &[PageState],
    from: u64,
    order: Order,
) -> io::Result<()>
    ensures { OnOk result (Appends (W.contents writer.old) (W.contents writer.new) (run_line run.now from order)) }
{
    let (number, pages) = (order.number(), order.pages());
    let used = used_pages(run);
    let last = from.saturating_add(u64::from(pages)).saturating_sub(1);
    writeln!(
        writer,
        "in the way of order {number}: {used} of {pages} pages in use, {from} to {last}"
    )
}

/// Writes how many pages of a run of this order, from this page on, are in use, and who has these.
fn write_run<W: Write>(
    writer: &mut W,
    run: &[PageState],
    from: u64,
    order: Order,
    workers: u8,
) -> io::Result<()>
    ensures { OnOk result (Appends (W.contents writer.old) (W.contents writer.new) (run_text run.now from order workers)) }
{
    write_run_line(writer, run, from, order)?;
    write_holdings(writer, run, workers, "  ")
}

/// Writes that no run has this order.
fn write_no_run<W: Write>(writer: &mut W, order: Order) -> io::Result<()>
    ensures { OnOk result (Appends (W.contents writer.old) (W.contents writer.new) (no_run_text order)) }
{
    let number = order.number();
    writeln!(
        writer,
        "in the way of order {number}: the zone is too small"
    )
}

/// Writes which aligned run of the order has the fewest pages in use, and who has these, where `row` has the state of each page of a zone, and
/// `first` is the first.
pub fn write_way<W: Write>(
    writer: &mut W,
    row: &[PageState],
    first: u32,
    order: Order,
    workers: u8,
) -> io::Result<()>
    ensures small { length row.now < 2 ^ order → OnOk result (Appends (W.contents writer.old) (W.contents writer.new) (no_run_text order)) }
    ensures way { 2 ^ order ≤ length row.now → OnOk result (IsWayTold (W.contents writer.old) (W.contents writer.new) row.now first order workers) }
{
    let Some(place) = least_used_run(row, order) else {
        return write_no_run(writer, order);
    };
    let run = &row[place..place + order.pages() as usize];
    let from = u64::from(first).saturating_add(place as u64);
    write_run(writer, run, from, order, workers)
}

/// Writes what the map is of, and how many pages a cell has.
fn write_title<W: Write>(writer: &mut W, zone: &Zone, first: u32, cell: usize) -> io::Result<()>
    ensures { OnOk result (Appends (W.contents writer.old) (W.contents writer.new) (title_text zone.now.name zone.now.plain first cell)) }
{
    let name = zone.name();
    let pages = zone.pages();
    let pageblock = zone.largest().pageblock_pages();
    writeln!(
        writer,
        "zone {name}: {pages} pages from {first}, {pageblock} a pageblock, {cell} a cell"
    )
}

/// Writes the order of the largest free block.
fn write_largest<W: Write>(writer: &mut W, largest: Option<Order>) -> io::Result<()>
    ensures { OnOk result (Appends (W.contents writer.old) (W.contents writer.new) (largest_text largest)) }
{
    match largest {
        Some(order) => {
            let (number, pages) = (order.number(), order.pages());
            writeln!(writer, "largest free block: order {number}, {pages} pages")
        }
        None => writeln!(writer, "largest free block: none"),
    }
}

/// Writes the map of a zone: `row` has the state of each page, and `first` is the first.
pub fn write_map<W: Write>(
    writer: &mut W,
    zone: &Zone,
    row: &[PageState],
    first: u32,
    workers: u8,
    style: &MapStyle,
) -> io::Result<()> {
    let cell = cell_pages(zone.largest().pageblock_pages() as usize, style.width);
    write_title(writer, zone, first, cell)?;
    write_pageblocks(writer, zone, row, style)?;
    write_holdings(writer, row, workers, "")?;
    write_largest(writer, largest_free(row))?;
    let order = style.order.unwrap_or(zone.largest().order());
    write_way(writer, row, first, order, workers)
}
