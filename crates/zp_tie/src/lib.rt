//! A whole, and the part of it that each worker has: values held in different places, by a keeper and by tokens, which agree
//! whenever they are presented together. The whole and its parts are ghost data; what is there at run time is one word.
//!
//! What a whole is, and what a worker's part of it, the user of the crate says.
#![tactic(auto)]

mod keeper;
mod word;

pub use keeper::{Keeper, Token};
pub use word::{Act, Change, Parted, TieView};
