//! What is told of a block that was allocated.
use zp_model::{Origin, PageNo};

/// The first page of the block, and where it came from.
#[derive(Clone, Copy, Drop)]
pub struct Told {
    pub page: PageNo,
    pub origin: Origin,
}
