//! The free area: one set of free blocks, kept as page entries, lists by order and type, a status tree, the number of free
//! pages of each pageblock and a note of each that may be claimed, which all tell of the same blocks. Which block is split, and
//! how far, is not its concern; a block that comes back is joined with each free buddy in turn.
//!
//! In Linux: `struct free_area`, with `add_to_free_list`, `del_page_from_free_list` and `move_freepages_block`.
#![tactic(auto)]

mod area;
mod available;
mod counting;
mod free_lists;
mod joins;
mod kept_blocks;
mod linked_page;
mod listed_block;
mod noting;
mod retypes;
mod splits;

pub use area::FreeArea;
pub use linked_page::LinkedPage;
