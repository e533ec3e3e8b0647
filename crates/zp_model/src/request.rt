//! Requests of a zone, and their replies.
ghost use Rattle.std.specs.Prelude.{◌≡◌};

use crate::{Block, Mark, MigrateType, Order, PageList, PageNo, Refused, Worker};

/// What a worker asks of a zone. Pages are absolute.
#[derive(PartialEq, Eq, Debug, Drop)]
pub enum Request {
    /// A block of this order for this type, held to this mark.
    Alloc(Order, MigrateType, Mark),
    /// The lowest block of this order.
    AllocLow(Order),
    /// Frees the block at this page, of this order.
    Free(PageNo, Order),
    /// Hands the block at this page, of this order, to a worker.
    Post(PageNo, Order, Worker),
    /// The first block that was posted to the worker.
    Collect,
    /// At most so many pages for this type, held to this mark.
    Refill(MigrateType, Mark, u8),
    /// Frees these pages; the type is only noted.
    Drain(MigrateType, PageList),
    /// Isolates the pageblock of this number: its free pages are chosen by nobody until it is released.
    Isolate(u32),
    /// Gives the pageblock of this number, which is isolated, a migrate type.
    Release(u32, MigrateType),
    /// The lowest run of so many pages that begins at a multiple of two to this power, held to this mark.
    AllocRun(u32, u8, Mark),
    /// The run of so many pages that begins at this page.
    AllocRunAt(PageNo, u32),
    /// Frees so many pages from this one on, by whatever blocks they are out.
    FreeRun(PageNo, u32),
}

/// A zone's reply. Pages are absolute.
#[derive(PartialEq, Eq, Debug, Drop)]
pub enum Reply {
    Page(PageNo),
    Block(Block),
    Freed,
    Posted,
    Pages(PageList),
    Drained,
    Isolated,
    Released,
    Refused(Refused),
}

impl Request {
    /// The same request once more. It takes no memory.
    pub fn copied(&self) -> Request
        ensures { result ≡ self.now }
    {
        match self {
            Request::Alloc(order, kind, mark) => Request::Alloc(*order, *kind, *mark),
            Request::AllocLow(order) => Request::AllocLow(*order),
            Request::Free(page, order) => Request::Free(*page, *order),
            Request::Post(page, order, to) => Request::Post(*page, *order, *to),
            Request::Collect => Request::Collect,
            Request::Refill(kind, mark, count) => Request::Refill(*kind, *mark, *count),
            Request::Drain(kind, pages) => Request::Drain(*kind, pages.copied()),
            Request::Isolate(pageblock) => Request::Isolate(*pageblock),
            Request::Release(pageblock, kind) => Request::Release(*pageblock, *kind),
            Request::AllocRun(pages, align, mark) => Request::AllocRun(*pages, *align, *mark),
            Request::AllocRunAt(page, pages) => Request::AllocRunAt(*page, *pages),
            Request::FreeRun(page, pages) => Request::FreeRun(*page, *pages),
        }
    }
}

impl Reply {
    /// The same reply once more. It takes no memory.
    pub fn copied(&self) -> Reply
        ensures { result ≡ self.now }
    {
        match self {
            Reply::Page(page) => Reply::Page(*page),
            Reply::Block(block) => Reply::Block(*block),
            Reply::Freed => Reply::Freed,
            Reply::Posted => Reply::Posted,
            Reply::Pages(pages) => Reply::Pages(pages.copied()),
            Reply::Drained => Reply::Drained,
            Reply::Isolated => Reply::Isolated,
            Reply::Released => Reply::Released,
            Reply::Refused(refused) => Reply::Refused(*refused),
        }
    }
}
