//! What a zone reports of a pageblock.

use zp_model::{Order, PageblockType};

/// Its type, how many of its pages are free, and the order of the largest free block in it, where there is one. All its pages are free
/// where `free` is the number that it has: two to the zone's largest order, or fewer in a last one that is short.
#[derive(Clone, Copy, PartialEq, Eq, Debug, Drop)]
pub struct Pageblock {
    pub kind: PageblockType,
    pub free: u32,
    pub largest: Option<Order>,
}
