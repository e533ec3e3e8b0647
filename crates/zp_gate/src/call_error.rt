//! Why a worker has no result from the zone, or which refusal.
use crate::try_lock::Busy;
use zp_model::Refused;

/// Why a worker got no result from the zone, or which refusal it got.
#[derive(Clone, Copy, Drop)]
pub enum CallError {
    /// The worker has no zone at this place.
    NoZone,
    /// Somebody else is with the zone.
    Busy(Busy),
    /// The zone has no worker of this number.
    NoWorker,
    /// The worker has no lists.
    NoLists,
    /// The list that is to be filled has pages.
    NotEmpty,
    /// The list has not so many pages, or none are asked for.
    TooFew,
    /// The zone's refusal, or the share's.
    Refused(Refused),
}
