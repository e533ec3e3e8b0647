//! What is read of a zone's counts.

use zp_model::Counts;

/// Counts that were published, and their place: how many were published before them. The counts at place n are those that the zone had
/// after the first n of its requests.
#[derive(Clone, Copy, PartialEq, Eq, Debug, Drop)]
pub struct Reading {
    pub counts: Counts,
    pub place: u64,
}
