//! The two tables of `/proc/pagetypeinfo`, in its own spacing.
//!
//! In Linux: `pagetypeinfo_showfree_print` and `pagetypeinfo_showblockcount_print`.
ghost use Rattle.std.specs.Prelude.{◌≡◌, ◌+◌, length, take, OnOk};
ghost use Rattle.std.specs.Fmt.{decimal};
ghost use Rattle.std.specs.Io.KnownBytes.{Appends};
ghost use Rattle.std.specs.List.{flat_map, range_with_len};
ghost use Rattle.zp_model.specs.declared.constants.TheConstants.{NAME_PLACES};
ghost use Rattle.zp_model.specs.Info.{number_field, right_aligned};
ghost use Rattle.zp_drawing.specs.TypeTables.{free_head, free_line, free_lines, free_title, order_line, pageblocks_head, pageblocks_line, pageblocks_of, pageblocks_title, pages_line, table_types, type_field, type_name, type_tables};

use std::io;
use std::io::Write;
use zp_model::{Name, ORDERS, Order, PAGEBLOCK_TYPES, PageblockType};

/// What the tables say of a zone: its free blocks by the number of their pageblock's type and by order, and its pageblocks by type.
#[derive(Clone, Copy, PartialEq, Eq, Debug, Drop)]
pub struct TypeCounts {
    pub name: Name,
    pub free: [[u32; ORDERS]; PAGEBLOCK_TYPES],
    pub pageblocks: [u32; PAGEBLOCK_TYPES],
}

/// The types in the order of Linux's tables.
const TYPES: [PageblockType; PAGEBLOCK_TYPES] = [
    PageblockType::Unmovable,
    PageblockType::Movable,
    PageblockType::Reclaimable,
    PageblockType::Isolate,
];

/// The name of a type in the tables.
fn type_name(kind: PageblockType) -> &'static str
    ensures { result.now ≡ type_name kind }
{
    match kind {
        PageblockType::Unmovable => "Unmovable",
        PageblockType::Reclaimable => "Reclaimable",
        PageblockType::Movable => "Movable",
        PageblockType::Isolate => "Isolate",
    }
}

/// Writes a number of the first table.
fn write_number<W: Write>(writer: &mut W, number: u32) -> io::Result<()>
    ensures { OnOk result (Appends (W.contents writer.old) (W.contents writer.new) (number_field number)) }
{
    write!(writer, "{number:>6} ")
}

/// Writes a zone's name.
fn write_name<W: Write>(writer: &mut W, name: &Name) -> io::Result<()>
    ensures { OnOk result (Appends (W.contents writer.old) (W.contents writer.new) (right_aligned NAME_PLACES name.now)) }
{
    // that it is in ASCII is said of its bytes
    let _ = name.as_bytes();
    let name = name.as_str();
    write!(writer, "{name:>8}")
}

/// Writes the name of a type.
fn write_type<W: Write>(writer: &mut W, kind: PageblockType) -> io::Result<()>
    ensures { OnOk result (Appends (W.contents writer.old) (W.contents writer.new) (type_field (type_name kind))) }
{
    let name = type_name(kind);
    write!(writer, "{name:>12} ")
}

/// Writes a number of the second table.
fn write_pageblock_count<W: Write>(writer: &mut W, count: u32) -> io::Result<()>
    ensures { OnOk result (Appends (W.contents writer.old) (W.contents writer.new) (type_field (decimal count))) }
{
    write!(writer, "{count:>12} ")
}

/// Writes these numbers of the first table.
fn write_numbers<W: Write>(writer: &mut W, numbers: &[u32]) -> io::Result<()>
    ensures { OnOk result (Appends (W.contents writer.old) (W.contents writer.new) (flat_map number_field numbers.now)) }
{
    for number in numbers {
        write_number(writer, *number)?;
    }
    Ok(())
}

/// Writes the counts of the orders up to the largest.
fn write_by_order<W: Write>(
    writer: &mut W,
    by_order: [u32; ORDERS],
    largest: Order,
) -> io::Result<()>
    ensures { OnOk result (Appends (W.contents writer.old) (W.contents writer.new) (flat_map number_field (take (largest + 1) by_order))) }
{
    write_numbers(writer, &by_order[..largest.index() + 1])
}

/// Writes the line of a zone and a type in the first table.
fn write_free_line<W: Write>(
    writer: &mut W,
    zone: &TypeCounts,
    kind: PageblockType,
    largest: Order,
) -> io::Result<()>
    ensures { OnOk result (Appends (W.contents writer.old) (W.contents writer.new) (free_line largest zone.now kind)) }
{
    write!(writer, "Node    0, zone ")?;
    write_name(writer, &zone.name)?;
    write!(writer, ", type ")?;
    write_type(writer, kind)?;
    write_by_order(writer, zone.free[kind.number()], largest)?;
    writeln!(writer)?;
    Ok(())
}

/// Writes the lines of a zone in the first table.
fn write_free_lines<W: Write>(writer: &mut W, zone: &TypeCounts, largest: Order) -> io::Result<()>
    ensures { OnOk result (Appends (W.contents writer.old) (W.contents writer.new) (free_lines largest zone.now)) }
{
    for kind in TYPES {
        write_free_line(writer, zone, kind, largest)?;
    }
    Ok(())
}

/// Writes the lines of all zones in the first table.
fn write_free_table<W: Write>(
    writer: &mut W,
    zones: &[TypeCounts],
    largest: Order,
) -> io::Result<()>
    ensures { OnOk result (Appends (W.contents writer.old) (W.contents writer.new) (flat_map (free_lines largest) zones.now)) }
{
    for zone in zones {
        write_free_lines(writer, zone, largest)?;
    }
    Ok(())
}

/// Writes the numbers of the orders up to the largest.
fn write_orders<W: Write>(writer: &mut W, largest: Order) -> io::Result<()>
    ensures { OnOk result (Appends (W.contents writer.old) (W.contents writer.new) (flat_map number_field (range_with_len 0 (largest + 1)))) }
{
    for order in 0..largest.number() + 1 {
        write_number(writer, u32::from(order))?;
    }
    Ok(())
}

/// Writes the largest order.
fn write_order<W: Write>(writer: &mut W, largest: Order) -> io::Result<()>
    ensures { OnOk result (Appends (W.contents writer.old) (W.contents writer.new) (order_line largest)) }
{
    let order = largest.number();
    write!(writer, "Page block order: {order}\n")
}

/// Writes how many pages a block of the largest order has.
fn write_pages<W: Write>(writer: &mut W, largest: Order) -> io::Result<()>
    ensures { OnOk result (Appends (W.contents writer.old) (W.contents writer.new) (pages_line largest)) }
{
    let pages = largest.pages();
    write!(writer, "Pages per block:  {pages}\n\n")
}

/// Writes what stands before the orders.
fn write_free_title<W: Write>(writer: &mut W) -> io::Result<()>
    ensures { OnOk result (Appends (W.contents writer.old) (W.contents writer.new) free_title) }
{
    let title = "Free pages count per migrate type at order";
    write!(writer, "{title:<43} ")
}

/// Writes the head of the first table.
fn write_free_head<W: Write>(writer: &mut W, largest: Order) -> io::Result<()>
    ensures { OnOk result (Appends (W.contents writer.old) (W.contents writer.new) (free_head largest)) }
{
    write_free_title(writer)?;
    write_orders(writer, largest)?;
    writeln!(writer)?;
    Ok(())
}

/// Writes the names of the types.
fn write_types<W: Write>(writer: &mut W) -> io::Result<()>
    ensures { OnOk result (Appends (W.contents writer.old) (W.contents writer.new) (flat_map (λ t. type_field (type_name t)) table_types)) }
{
    for kind in TYPES {
        write_type(writer, kind)?;
    }
    Ok(())
}

/// Writes how many pageblocks of each type a zone has.
fn write_pageblock_counts<W: Write>(writer: &mut W, zone: &TypeCounts) -> io::Result<()>
    ensures { OnOk result (Appends (W.contents writer.old) (W.contents writer.new) (flat_map (λ t. type_field (decimal (pageblocks_of zone.now t))) table_types)) }
{
    for kind in TYPES {
        write_pageblock_count(writer, zone.pageblocks[kind.number()])?;
    }
    Ok(())
}

/// Writes what stands before the names of the types.
fn write_pageblocks_title<W: Write>(writer: &mut W) -> io::Result<()>
    ensures { OnOk result (Appends (W.contents writer.old) (W.contents writer.new) pageblocks_title) }
{
    let title = "Number of blocks type ";
    write!(writer, "\n{title:<23}")
}

/// Writes the head of the second table.
fn write_pageblocks_head<W: Write>(writer: &mut W) -> io::Result<()>
    ensures { OnOk result (Appends (W.contents writer.old) (W.contents writer.new) pageblocks_head) }
{
    write_pageblocks_title(writer)?;
    write_types(writer)?;
    writeln!(writer)?;
    Ok(())
}

/// Writes the line of a zone in the second table.
fn write_pageblocks_line<W: Write>(writer: &mut W, zone: &TypeCounts) -> io::Result<()>
    ensures { OnOk result (Appends (W.contents writer.old) (W.contents writer.new) (pageblocks_line zone.now)) }
{
    write!(writer, "Node 0, zone ")?;
    write_name(writer, &zone.name)?;
    write!(writer, " ")?;
    write_pageblock_counts(writer, zone)?;
    writeln!(writer)?;
    Ok(())
}

/// Writes the lines of all zones in the second table.
fn write_pageblocks_table<W: Write>(writer: &mut W, zones: &[TypeCounts]) -> io::Result<()>
    ensures { OnOk result (Appends (W.contents writer.old) (W.contents writer.new) (flat_map pageblocks_line zones.now)) }
{
    for zone in zones {
        write_pageblocks_line(writer, zone)?;
    }
    Ok(())
}

/// Writes both tables; the largest order is that of the zones' largest block.
pub fn write_type_tables<W: Write>(
    writer: &mut W,
    zones: &[TypeCounts],
    largest: Order,
) -> io::Result<()>
    ensures { OnOk result (Appends (W.contents writer.old) (W.contents writer.new) (type_tables largest zones.now)) }
{
    write_order(writer, largest)?;
    write_pages(writer, largest)?;
    write_free_head(writer, largest)?;
    write_free_table(writer, zones, largest)?;
    write_pageblocks_head(writer)?;
    write_pageblocks_table(writer, zones)?;
    Ok(())
}
