//! Why there is no reader of a zone's board.
use crate::try_lock::Busy;

/// Why a worker has made no reader of a zone's board.
#[derive(Clone, Copy, Drop)]
pub enum ReaderError {
    /// The worker has no zone at this place.
    NoZone,
    /// The row was made without boards.
    NoBoard,
    /// Somebody else is with the zone.
    Busy(Busy),
    /// Memory was refused: error 6.
    NoMemory,
}
