//! What may be noted of a pageblock.

use zp_model::{MigrateType, Order};

/// A migrate type and an order: those of a pageblock that may be claimed, and of the largest block in it.
#[derive(Clone, Copy, PartialEq, Eq, Debug, Drop)]
pub struct Claim {
    pub kind: MigrateType,
    pub order: Order,
}
