//! Where a block comes from that is taken for a type.
//!
//! In Linux: what `rmqueue_fallback` tells the `mm_page_alloc_extfrag` event.

/// Whose the block was: a watermark boost and a bitmap of pageblocks go by it.
#[derive(Clone, Copy, PartialEq, Eq, Debug, Drop)]
pub enum Origin {
    /// The list of its own type.
    Own,
    /// The list of another type, whose pageblock was given this type first.
    Claimed,
    /// The list of another type, whose pageblock keeps that.
    Borrowed,
}
