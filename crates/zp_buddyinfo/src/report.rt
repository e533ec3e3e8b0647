//! The text that reports a zone's figures.
ghost use Rattle.std.specs.Prelude.{◌≡◌, ◌++◌, ◌<◌, ◌≤◌, ◌^◌, List, ℕ, length, OnOk, IfOk, IfSome, string_bytes};
ghost use Rattle.zp_buddyinfo.specs.Report.{fragmentation_text, above, parts_of, eighths, plain_bar, bar, figures_line, order_line, order_lines, largest_text, head_line, column_heads, zone_text, report, right_aligned, thousandths};
ghost use Rattle.std.specs.Fmt.{decimal};

use crate::bounds::{ORDERS, WHOLE};
use crate::index::{FragmentationIndex, FreeBlocks};
use crate::row::BuddyinfoRow;
use crate::style::Style;
use crate::text::{push_number, push_padded, push_parts, push_right, push_thousandths};
use std::alloc::{AllocError, Global};

/// The colours of the bars of the unusable free space index and of the fragmentation index, and what ends a colour.
const YELLOW: &str = "\x1b[33m";

const RED: &str = "\x1b[31m";

const NO_COLOUR: &str = "\x1b[0m";

/// Appends a fragmentation index as Linux prints it.
fn push_fragmentation(
    alloc: Global,
    text: &mut String,
    index: FragmentationIndex,
) -> Result<(), AllocError>
    ensures { OnOk result (string_bytes text.new ≡ string_bytes text.old ++ fragmentation_text index) }
{
    match index {
        FragmentationIndex::Served => text.push_str("-1.000"),
        FragmentationIndex::NothingFree => push_thousandths(alloc, text, 0),
        FragmentationIndex::Above(thousandths) => push_thousandths(alloc, text, thousandths),
        FragmentationIndex::Below(thousandths) => {
            text.push_str("0.-")?;
            push_padded(alloc, text, 2, thousandths)
        }
    }
}

/// What of an index is above 0.
fn above(index: FragmentationIndex) -> u64
    ensures { result ≡ above index }
{
    match index {
        FragmentationIndex::Above(thousandths) => thousandths,
        _ => 0,
    }
}

/// How many of so many parts an index is, rounded to the nearest.
fn parts_of(index: u64, parts: u64) -> u64
    requires { parts < 2 ^ 32 }
    ensures parts { result ≡ parts_of index parts }
    ensures within { result ≤ parts }
{
    (index.min(WHOLE) * parts + WHOLE / 2) / WHOLE
}

/// So many eighths of a cell.
fn eighths(count: u64) -> &'static str
    requires { count < 8 }
    ensures { result.now ≡ eighths count }
{
    match count {
        0 => "",
        1 => "▏",
        2 => "▎",
        3 => "▍",
        4 => "▌",
        5 => "▋",
        6 => "▊",
        _ => "▉",
    }
}

/// Appends a bar of an index, and dots up to its full length.
fn push_plain_bar(
    alloc: Global,
    text: &mut String,
    style: Style,
    index: u64,
) -> Result<(), AllocError>
    ensures { OnOk result (string_bytes text.new ≡ string_bytes text.old ++ plain_bar style index) }
{
    let cells = u64::from(style.cells);
    if style.ascii {
        let long = parts_of(index, cells);
        let bar = "#".repeat(alloc, long as usize)?;
        let dots = ".".repeat(alloc, (cells - long) as usize)?;
        return push_parts(text, &[bar.as_str(), dots.as_str()]);
    }
    let long = parts_of(index, 8 * cells);
    let bar = "█".repeat(alloc, (long / 8) as usize)?;
    let dots = "·".repeat(alloc, ((8 * cells - long) / 8) as usize)?;
    push_parts(text, &[bar.as_str(), eighths(long % 8), dots.as_str()])
}

/// Appends the bar in a colour, where there are colours.
fn push_bar(
    alloc: Global,
    text: &mut String,
    style: Style,
    colour: &str,
    index: u64,
) -> Result<(), AllocError>
    ensures { OnOk result (string_bytes text.new ≡ string_bytes text.old ++ bar style colour.now index) }
{
    if !style.colour {
        return push_plain_bar(alloc, text, style, index);
    }
    text.push_str(colour)?;
    push_plain_bar(alloc, text, style, index)?;
    text.push_str(NO_COLOUR)
}

/// Appends the line of an order with so many free blocks and these indexes.
fn push_figures(
    alloc: Global,
    text: &mut String,
    style: Style,
    order: usize,
    count: u64,
    unusable: u64,
    fragmentation: FragmentationIndex,
) -> Result<(), AllocError>
    ensures { OnOk result (string_bytes text.new ≡ string_bytes text.old ++ figures_line style order count unusable fragmentation) }
{
    push_count(alloc, text, 5, order as u64)?;
    push_count(alloc, text, 11, count)?;
    push_unusable(alloc, text, unusable)?;
    text.push_str(" ")?;
    push_bar(alloc, text, style, YELLOW, unusable)?;
    push_right_fragmentation(alloc, text, fragmentation)?;
    text.push_str(" ")?;
    push_bar(alloc, text, style, RED, above(fragmentation))?;
    text.push_str("\n")?;
    Ok(())
}

/// Appends the line of an order.
fn push_order(
    alloc: Global,
    text: &mut String,
    style: Style,
    blocks: &FreeBlocks,
    order: usize,
) -> Result<(), AllocError>
    requires { order < length blocks.now }
    ensures { OnOk result (string_bytes text.new ≡ string_bytes text.old ++ order_line style blocks.now order) }
{
    let count = blocks.by_order()[order];
    let unusable = blocks.unusable_index(order);
    let fragmentation = blocks.fragmentation_index(order);
    push_figures(alloc, text, style, order, count, unusable, fragmentation)
}

/// Appends the lines of all orders.
fn push_orders(
    alloc: Global,
    text: &mut String,
    style: Style,
    blocks: &FreeBlocks,
) -> Result<(), AllocError>
    ensures { OnOk result (string_bytes text.new ≡ string_bytes text.old ++ order_lines style blocks.now) }
{
    for order in 0..blocks.by_order().len() {
        push_order(alloc, text, style, blocks, order)?;
    }
    Ok(())
}

/// Appends a number, right-aligned in so many places.
fn push_count(
    alloc: Global,
    text: &mut String,
    places: usize,
    number: u64,
) -> Result<(), AllocError>
    ensures { OnOk result (string_bytes text.new ≡ string_bytes text.old ++ right_aligned places (decimal number)) }
{
    let mut digits = String::new(alloc);
    push_number(&mut digits, u128::from(number))?;
    push_right(alloc, text, places, digits.as_str())
}

/// Appends thousandths, right-aligned in ten places.
fn push_unusable(alloc: Global, text: &mut String, index: u64) -> Result<(), AllocError>
    ensures { OnOk result (string_bytes text.new ≡ string_bytes text.old ++ right_aligned 10 (thousandths index)) }
{
    let mut word = String::new(alloc);
    push_thousandths(alloc, &mut word, index)?;
    push_right(alloc, text, 10, word.as_str())
}

/// Appends a fragmentation index, right-aligned in eight places.
fn push_right_fragmentation(
    alloc: Global,
    text: &mut String,
    index: FragmentationIndex,
) -> Result<(), AllocError>
    ensures { OnOk result (string_bytes text.new ≡ string_bytes text.old ++ right_aligned 8 (fragmentation_text index)) }
{
    let mut word = String::new(alloc);
    push_fragmentation(alloc, &mut word, index)?;
    push_right(alloc, text, 8, word.as_str())
}

/// Appends the largest order of which a block is free, and the bytes of such a block.
fn push_largest(text: &mut String, page: u64, largest: Option<usize>) -> Result<(), AllocError>
    requires { IfSome largest (λ k. k < ORDERS) }
    ensures { OnOk result (string_bytes text.new ≡ string_bytes text.old ++ largest_text page largest) }
{
    let Some(order) = largest else {
        return text.push_str("none");
    };
    text.push_str("order ")?;
    push_number(text, order as u128)?;
    text.push_str(", ")?;
    push_number(text, u128::from(page) * (1u128 << order))?;
    text.push_str(" bytes")
}

/// Appends the line before those of the orders.
fn push_head(
    text: &mut String,
    page: u64,
    node: u32,
    zone: &str,
    free: u64,
    largest: Option<usize>,
) -> Result<(), AllocError>
    requires { IfSome largest (λ k. k < ORDERS) }
    ensures { OnOk result (string_bytes text.new ≡ string_bytes text.old ++ head_line page node zone.now free largest) }
{
    text.push_str("Node ")?;
    push_number(text, u128::from(node))?;
    text.push_str(", zone ")?;
    text.push_str(zone)?;
    text.push_str(": ")?;
    push_number(text, u128::from(free))?;
    text.push_str(" free pages, ")?;
    push_number(text, u128::from(page) * u128::from(free))?;
    text.push_str(" bytes; largest block: ")?;
    push_largest(text, page, largest)?;
    text.push_str("\n")?;
    Ok(())
}

/// Appends what stands over the columns.
fn push_column_heads(alloc: Global, text: &mut String, style: Style) -> Result<(), AllocError>
    ensures { OnOk result (string_bytes text.new ≡ string_bytes text.old ++ column_heads style) }
{
    text.push_str("order     blocks  unusable ")?;
    text.push_str(" ".repeat(alloc, usize::from(style.cells))?.as_str())?;
    text.push_str("  fragmentation\n")?;
    Ok(())
}

/// Appends the text of a zone.
fn push_zone(
    alloc: Global,
    text: &mut String,
    page: u64,
    style: Style,
    row: &BuddyinfoRow,
) -> Result<(), AllocError>
    ensures { OnOk result (string_bytes text.new ≡ string_bytes text.old ++ zone_text page style row.now) }
{
    let free = row.blocks.free_pages();
    let largest = row.blocks.largest();
    push_head(text, page, row.node, row.zone, free, largest)?;
    push_column_heads(alloc, text, style)?;
    push_orders(alloc, text, style, &row.blocks)?;
    Ok(())
}

/// The text of all zones, with pages of so many bytes.
pub fn report_text(
    alloc: Global,
    page: u64,
    style: Style,
    rows: &[BuddyinfoRow],
) -> Result<String, AllocError>
    ensures { IfOk result (λ text. string_bytes text ≡ report page style rows.now) }
{
    let mut text = String::new(alloc);
    for row in rows {
        push_zone(alloc, &mut text, page, style, row)?;
    }
    Ok(text)
}
