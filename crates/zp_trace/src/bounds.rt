//! The bounds of a trace.

/// The most words of a line.
pub const MOST_WORDS: usize = 7;

/// The largest number by which a line names a pageblock: no zone has more pageblocks than pages.
pub const LARGEST_PAGEBLOCK: u32 = 65535;

/// The most lines of a trace, the first ones counted.
pub const MOST_LINES: usize = 4096;

/// The base of a label's number: above the code of each letter and digit.
pub const LABEL_BASE: u64 = 128;
