//! The bounds of what is read.

/// The most orders of a zone: 0 to 20.
pub const ORDERS: usize = 21;

/// A zone has fewer free pages than this, 2^54: up to there a thousand times as many still fit 64 bits, as Linux's arithmetic
/// wants, and 2^52 pages of 4 KiB are all that 64 bits can address.
pub const PAGE_LIMIT: u64 = 18_014_398_509_481_984;

/// A whole, in the parts in which the two indexes count.
pub const WHOLE: u64 = 1000;
