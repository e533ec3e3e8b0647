//! What is noted of a page.
//!
//! In Linux: `PageBuddy` and the order in `page_private`.

use crate::{MigrateType, Order, Worker};

/// What the entry of a page says.
#[derive(Clone, Copy, PartialEq, Eq, Debug, Drop)]
pub enum State {
    /// The page heads no block.
    Tail,
    /// A free block of this order starts here.
    Free(Order),
    /// A block out starts here: its order, the type that it was taken for, and its worker.
    Out(Order, MigrateType, Worker),
    /// A posted block starts here: its order, its type, and the worker that it was posted to.
    Posted(Order, MigrateType, Worker),
}
