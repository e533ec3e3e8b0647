//! The bounds of a status tree.

use zp_model::{LARGEST_ORDER, MAX_PAGES, NARROW_PAGES};

/// The levels of a word below its root: it stands for 2 to this many places.
pub const WORD_LEVELS: u8 = 5;

/// How many places a word stands for.
pub const PLACES: u32 = 1 << WORD_LEVELS;

/// The order of a group, the pages of which one high word knows: those of 32 low words.
pub const GROUP_ORDER: u8 = 2 * WORD_LEVELS;

/// How many pages a group has.
pub const GROUP_PAGES: u32 = 1 << GROUP_ORDER;

// each block lies in one group
const _: () = prove!(LARGEST_ORDER <= GROUP_ORDER);

/// How many nodes of the tree of ranks stand below one. They lie side by side, and count as one word.
pub const FAN: usize = 8;

/// The most groups of a zone.
pub const MOST_GROUPS: usize = (MAX_PAGES / GROUP_PAGES) as usize;

const _: () = prove!(MOST_GROUPS as u32 * GROUP_PAGES == MAX_PAGES);

// over the pages of a narrow zone two rows of ranks are enough
const _: () = prove!(NARROW_PAGES <= (FAN * FAN) as u32 * GROUP_PAGES);

/// The most words that are read to find the lowest block of a narrow zone: one of each of the two rows, and of one group the high word and
/// 31 low ones, or all 32 low ones.
pub const MOST_READS: u64 = 2 + PLACES as u64;
