//! The buddy allocator of one zone: takes and gives blocks of its free pages. What it knows of them is its free area.
#![tactic(auto)]

mod at;
mod buddy;
mod choice;
mod clear;
mod cut;
mod falling;
mod join;
mod opening;
mod parts;
mod split;
mod takes;

pub use buddy::Buddy;
pub use cut::fitting_order;
pub use zp_area::LinkedPage;
