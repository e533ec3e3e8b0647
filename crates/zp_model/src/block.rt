//! Blocks as replies name them.

use crate::{MigrateType, Order, PageNo};

/// A block of pages: its first page, its order, and the type that it was taken for.
#[derive(Clone, Copy, PartialEq, Eq, Debug, Drop)]
pub struct Block {
    pub page: PageNo,
    pub order: Order,
    pub kind: MigrateType,
}
