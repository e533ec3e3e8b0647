//! The commands of a worker's script.

use zp_model::{Mark, MigrateType, Order, Worker};

/// What a worker does with its share. A slot is a place of the worker's desk, which keeps the block that was lent there last; a
/// zone is named by its place in the row, the lowest first.
#[derive(Clone, Copy, PartialEq, Eq, Debug, Drop)]
pub enum Command {
    /// A block of this order for this type, held to this mark, out of this zone or the nearest below it that gives one.
    Alloc {
        slot: usize,
        order: Order,
        kind: MigrateType,
        zone: usize,
        mark: Mark,
    },
    /// The lowest block of this order of this zone, and of no other.
    Low {
        slot: usize,
        order: Order,
        zone: usize,
    },
    /// The block that the slot keeps, freed.
    Free {
        slot: usize,
    },
    /// The block that the slot keeps, posted to a worker.
    Post {
        slot: usize,
        to: Worker,
    },
    /// The block in front of those posted to the worker in this zone.
    Collect {
        slot: usize,
        zone: usize,
    },
    /// All pages of the worker's lists, freed.
    Drain,
    /// The pageblock of this number of this zone, isolated.
    Isolate {
        zone: usize,
        pageblock: u32,
    },
    /// The isolated pageblock of this number of this zone, given this type.
    Release {
        zone: usize,
        pageblock: u32,
        kind: MigrateType,
    },
    /// The counts of each zone, of a row of as many zones as a trace can declare.
    Info,
}
