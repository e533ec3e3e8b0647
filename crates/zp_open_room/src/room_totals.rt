//! Where the pages of a room are.

/// How many pages of a room are free, and how many are in blocks that are out.
#[derive(Clone, Copy, PartialEq, Eq, Debug, Default, Drop)]
pub struct RoomTotals {
    pub free: u32,
    pub out: u32,
}
