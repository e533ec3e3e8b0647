//! Counts of free blocks.
//!
//! In Linux: `nr_free` of each `struct free_area`, and `NR_FREE_PAGES`.

use crate::constants::{ORDERS, PAGEBLOCK_TYPES};

/// How many free blocks of each order a zone has, the least order first, and how many free pages.
#[derive(Clone, Copy, PartialEq, Eq, Debug, Default, Drop)]
pub struct Counts {
    pub by_order: [u32; ORDERS],
    pub free: u32,
}

/// What Linux shows in `/proc/pagetypeinfo`: how many free blocks a zone has in the pageblocks of each type, by the type's number and the
/// block's order, and how many pageblocks of each type.
#[derive(Clone, Copy, PartialEq, Eq, Debug, Drop)]
pub struct CountsByType {
    pub free: [[u32; ORDERS]; PAGEBLOCK_TYPES],
    pub pageblocks: [u32; PAGEBLOCK_TYPES],
}
