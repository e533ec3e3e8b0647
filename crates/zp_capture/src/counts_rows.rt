//! The counts of zones over the events, as CSV.

use std::io;
use std::io::Write;
use zp_model::Largest;
use zp_zone::Zone;

/// Writes the heads of the columns of counts, for zones whose largest blocks are so large.
pub fn write_heads<W: Write>(writer: &mut W, largest: Largest) -> io::Result<()> {
    write!(writer, "events,zone,free pages")?;
    for order in 0..=largest.order().number() {
        write!(writer, ",order {order}")?;
    }
    writeln!(writer)
}

/// Writes the counts of one zone after so many events.
fn write_counts<W: Write>(writer: &mut W, events: u64, zone: &Zone) -> io::Result<()> {
    let counts = zone.counts();
    let (name, free) = (zone.name(), counts.free);
    write!(writer, "{events},{name},{free}")?;
    let orders = usize::from(zone.largest().order().number()) + 1;
    for count in counts.by_order.iter().take(orders) {
        write!(writer, ",{count}")?;
    }
    writeln!(writer)
}

/// Writes the counts of all zones after so many events.
pub fn write_all_counts<W: Write>(writer: &mut W, events: u64, zones: &[Zone]) -> io::Result<()> {
    for zone in zones {
        write_counts(writer, events, zone)?;
    }
    Ok(())
}
