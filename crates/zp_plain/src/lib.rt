//! The free area of one zone, kept as the definitions say it: marks of the free pages, the types of the pageblocks, lists
//! that are settled anew after each change, and a note of each page. Nothing is split and nothing joined. The contract is
//! that of the buddy allocator, so that the two can be compared: this one is slow, and is read beside the definitions.
//!
//! A file runs the definitions of the file of its name in `zp_model/specs`: `block`, `block_set`, `area`, `choose`, `take`, `frames` and
//! `info`. Each function's contract is an equation with one of them. `page_row` has the lists, `room` how
//! many pages there may be, and `buddy` the calls.
#![tactic(auto)]

mod area;
mod block;
mod block_set;
mod buddy;
mod choose;
mod frames;
mod info;
mod page_row;
mod room;
mod take;

pub use buddy::PlainBuddy;
pub use room::PLAIN_PAGES;
