//! Marks that a request is held to, and levels that a zone is at.
//!
//! In Linux: `enum zone_watermarks`.

/// The mark that the free pages have to stay above for a request to be met.
#[derive(Clone, Copy, PartialEq, Eq, Debug, Drop)]
pub enum Mark {
    Low,
    Min,
    /// No mark: the request goes on whatever is free.
    Any,
}

/// How much is free, by the highest mark that the free pages are above.
#[derive(Clone, Copy, PartialEq, Eq, Debug, Drop)]
pub enum Level {
    High,
    Low,
    Min,
    Short,
}
