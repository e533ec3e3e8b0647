//! What a call of a room behind a lock comes to.
use crate::try_lock::{Busy, Visit};

/// The room's answer, and the visit in which it was given.
#[derive(Drop)]
pub struct Visited<T> {
    pub answer: T,
    pub visit: Visit,
}

/// Why a zone was not visited. Nothing was asked.
#[derive(Clone, Copy, Drop)]
pub enum NotVisited {
    /// The row has no zone at this place.
    NoZone,
    /// Somebody else is with the zone.
    Busy(Busy),
}
