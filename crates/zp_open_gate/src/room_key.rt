//! What never changes behind a lock.
use zp_model::{Largest, Name};

/// What a lock is known by: what of the zone in its room never changes.
#[derive(Drop)]
pub struct RoomKey {
    pub(crate) name: Name,
    pub(crate) base: u32,
    pub(crate) pages: u32,
    pub(crate) min: u32,
    pub(crate) largest: Largest,
}
