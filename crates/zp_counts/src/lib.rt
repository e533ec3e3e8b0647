//! The board of a zone's counts: how many free blocks of each order it has, and how many free pages, after each of its requests.
//!
//! In Linux `/proc/buddyinfo` is read order by order, so its line may be a state that never was; here a reader takes no lock, and what
//! it reads was the zone's at one moment, and it knows after how many requests.
#![tactic(auto)]

mod board;
mod kinds;
mod packed;
mod reading;
mod words;

pub use board::{Board, BoardReader, Publisher, new_board, new_turning_board, new_wide_board};
pub use kinds::SLOTS;
pub use packed::{PACKED_WORDS, are_packable};
pub use reading::Reading;
pub use words::PAIR_WORDS;

#[cfg(test)]
mod tests;
