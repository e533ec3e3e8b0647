//! Counts and the info line.

use zp_model::Level;
use zp_text::{WriteFault, Writer, write_info};
use zp_zone::Zone;

/// What a monitor wants to know of a zone.
#[derive(Clone, Copy, PartialEq, Eq, Debug, Drop)]
pub struct Memory {
    pub free_pages: u32,
    /// How many blocks of the largest order are free.
    pub largest_blocks: u32,
    pub level: Level,
}

/// Writes the zone's info line, and returns what it says in short.
pub fn show<W: Writer>(zone: &Zone, writer: &mut W) -> Result<Memory, WriteFault> {
    write_info(zone, writer)?;
    let counts = zone.counts();
    Ok(Memory {
        free_pages: counts.free,
        largest_blocks: counts.by_order[zone.largest().order().index()],
        level: zone.level(),
    })
}
