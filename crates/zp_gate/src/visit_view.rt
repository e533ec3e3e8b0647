//! What is known of a visit behind a lock. No program has one: it is the view of a seat of the lock's table.
use crate::gate_facts::GateFacts;
use crate::gated_zone::GatedZone;

/// The lock's key, what stood behind it when the visitor entered, and when he left.
#[derive(Drop)]
pub struct VisitView {
    pub(crate) key: GateFacts,
    pub(crate) found: Option<GatedZone>,
    pub(crate) left: Option<GatedZone>,
}
