//! The zones at the end of a run: lines as of `/proc/buddyinfo`, beside the kernel's own.

use crate::plan::ZonePlan;
use std::alloc::Global;
use std::fmt::Display;
use std::io;
use std::io::Write;
use zp_buddyinfo::BuddyinfoRow;
use zp_zone::Zone;

/// How many orders the blocks of a zone can have.
fn orders_of(zone: &Zone) -> usize {
    usize::from(zone.largest().order().number()) + 1
}

/// The lines of `/proc/buddyinfo` for zones, each of the node that it is planned for.
pub fn info_lines(alloc: Global, plans: &[ZonePlan], zones: &[Zone]) -> io::Result<Vec<u8>> {
    let mut text = Vec::new(alloc);
    for (plan, zone) in plans.iter().zip(zones) {
        let (node, name) = (plan.node, zone.name());
        write!(text, "Node {node}, zone {name:>8} ")?;
        for count in zone.counts().by_order.iter().take(orders_of(zone)) {
            write!(text, "{count:>6} ")?;
        }
        writeln!(text)?;
    }
    Ok(text)
}

/// Writes a count, or a dash where there is none.
fn write_cell<W: Write, N: Display + Drop>(writer: &mut W, count: Option<N>) -> io::Result<()> {
    match count {
        Some(count) => write!(writer, "{count:>12}"),
        None => write!(writer, "           -"),
    }
}

/// Writes the free blocks of a zone by order, and the kernel's beside them: all orders that the one has or the other.
fn write_beside<W: Write>(writer: &mut W, zone: &Zone, row: &BuddyinfoRow<'_>) -> io::Result<()> {
    let (node, name) = (row.node, row.zone);
    writeln!(writer, "Node {node}, zone {name}: free blocks at the end")?;
    writeln!(writer, "order         here  the kernel")?;
    let counts = zone.counts();
    let orders = orders_of(zone);
    let theirs = row.blocks.by_order();
    for order in 0..orders.max(theirs.len()) {
        write!(writer, "{order:>5} ")?;
        let ours = counts.by_order.get(order).filter(|_| order < orders);
        write_cell(writer, ours)?;
        write_cell(writer, theirs.get(order))?;
        writeln!(writer)?;
    }
    Ok(())
}

/// Writes the free blocks of the zones beside those that the kernel had when the events were over.
pub fn write_beside_kernel<W: Write>(
    writer: &mut W,
    plans: &[ZonePlan],
    zones: &[Zone],
    rows: &[BuddyinfoRow<'_>],
) -> io::Result<()> {
    for (plan, zone) in plans.iter().zip(zones) {
        for row in rows {
            if row.node == plan.node && row.zone == zone.name() {
                write_beside(writer, zone, row)?;
            }
        }
    }
    Ok(())
}
