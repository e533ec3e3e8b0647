//! What a line of page events says.

/// The highest zone that a request allows: the kernel takes its pages from there or below.
#[derive(Clone, Copy, PartialEq, Eq, Debug, Drop)]
pub enum ZoneLimit {
    /// `GFP_DMA` is among the request's flags.
    Dma,
    /// `GFP_DMA32` is among them, and `GFP_DMA` is not.
    Dma32,
    /// Neither is.
    Normal,
    /// Nor is either, and the pages are a user's and can be moved (`__GFP_HIGHMEM` and `__GFP_MOVABLE`): a zone named Movable may be asked too.
    Movable,
}

/// A block of pages: 2^order page frames, of which this is the first.
#[derive(Clone, Copy, PartialEq, Eq, Debug, Drop)]
pub struct FrameBlock {
    /// The number of the first page frame.
    pub frame: u64,
    pub order: u32,
}

/// What a block is asked for.
#[derive(Clone, Copy, PartialEq, Eq, Debug, Drop)]
pub struct PageRequest {
    /// Linux's number of the type: 0 unmovable, 1 movable, 2 reclaimable, and so on (enum migratetype).
    pub migrate_type: u32,
    pub zone_limit: ZoneLimit,
}

/// What was done with pages.
#[derive(Clone, Copy, PartialEq, Eq, Debug, Drop)]
pub enum Action {
    /// `mm_page_alloc`: the block was handed out.
    Alloc(FrameBlock, PageRequest),
    /// `mm_page_alloc` with no page: a request for such a block, of which only the order says anything, was refused.
    Refuse(FrameBlock, PageRequest),
    /// `mm_page_free`: the block was freed.
    Free(FrameBlock),
    /// `mm_page_alloc_extfrag`: a request was served out of the free pages of another type. Its fields are not read.
    Fallback,
}

/// An event of the page allocator.
#[derive(Clone, Copy, PartialEq, Eq, Debug, Drop)]
pub struct PageEvent {
    /// The CPU that it happened on.
    pub cpu: u32,
    pub action: Action,
}

/// The name of an event.
#[derive(Clone, Copy, PartialEq, Eq, Debug, Drop)]
pub enum EventName {
    Alloc,
    Free,
    Fallback,
}

/// What a line is.
#[derive(Clone, Copy, PartialEq, Eq, Debug, Drop)]
pub enum Line {
    Event(PageEvent),
    /// The line has the name of a page event where an event's name stands, and no fields of that event behind it.
    Broken,
    /// Any other text, as a comment or another event.
    Other,
}
