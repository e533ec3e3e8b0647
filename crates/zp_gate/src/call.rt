//! What a worker asks of a zone, and what it gets, in a few bytes: a `Request` and a `Reply` have room for a list of pages.
use zp_model::{Block, MigrateType, Order, PageNo, Worker};

/// A request that names no list of pages, but for four that have calls of their own: to allocate a block and to free one, which are made most,
/// to allocate the lowest run, which lays conditions on its numbers, and to free a run, of which one look tells how it is freed.
#[derive(Clone, Copy, Drop)]
pub enum ZoneCall {
    AllocLow(Order),
    Post(PageNo, Order, Worker),
    Collect,
    /// The pageblock of this number.
    Isolate(u32),
    Release(u32, MigrateType),
    /// So many pages from this one on.
    AllocRunAt(PageNo, u32),
}

/// The result, where it is not refused.
#[derive(Clone, Copy, Drop)]
pub enum Given {
    Block(Block),
    Done,
}
