//! The layouts of a page's word: where each field begins, and how many bits it has.
//!
//! In memory an entry lies in the wide layout, whatever the table's length: the back link is masked by a number of 32 bits
//! and not shifted, and the forward link is read by one shift. `PageTable::word` returns the narrow layout for a table whose
//! pages it has numbers for.

use zp_model::{MAX_PAGES, NARROW_PAGES};

/// The bits of which state it is. With them a state begins; what it says is counted from there.
pub const WHICH_BITS: u32 = 2;

/// The order of the block.
pub const ORDER_AT: u32 = WHICH_BITS;

pub const ORDER_BITS: u32 = 4;

/// The migrate type.
pub const TYPE_AT: u32 = ORDER_AT + ORDER_BITS;

pub const TYPE_BITS: u32 = 2;

/// The worker.
pub const WORKER_AT: u32 = TYPE_AT + TYPE_BITS;

pub const WORKER_BITS: u32 = 5;

/// The bits of a state with all that it says.
pub const STATE_BITS: u32 = WORKER_AT + WORKER_BITS;

pub const WORD_BITS: u32 = 64;

/// The bits of a link in memory.
pub const LINK_BITS: u32 = 25;

/// The page before this one in its list.
pub const BACK_AT: u32 = 0;

pub const STATE_AT: u32 = BACK_AT + LINK_BITS;

/// The page after this one in its list. Its bits are the last of the word.
pub const FORWARD_AT: u32 = WORD_BITS - LINK_BITS;

/// The bits of a link in the narrow layout.
pub const NARROW_LINK_BITS: u32 = 17;

pub const NARROW_STATE_AT: u32 = 0;

pub const NARROW_FORWARD_AT: u32 = NARROW_STATE_AT + STATE_BITS;

pub const NARROW_BACK_AT: u32 = NARROW_FORWARD_AT + NARROW_LINK_BITS;

// none has a number in both layouts, and the largest in memory
const _: () = prove!(NARROW_PAGES <= MAX_PAGES);

const _: () = prove!(MAX_PAGES < 1 << LINK_BITS);
