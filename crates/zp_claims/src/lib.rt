//! An index of the pageblocks that may be claimed: what is noted of each pageblock, and how many are noted with each type and order.
//! These numbers give the largest order that is noted beside a type, however many pageblocks there are.
//!
//! What a note stands for is the caller's. Contracts see what is noted of each pageblock.
//!
//! Beside the index a set of the pageblocks that have changed since they were looked at.
#![tactic(auto)]

mod claim;
mod code;
mod stale;
mod table;

pub use claim::Claim;
pub use stale::{MOST_STALE, StaleSet};
pub use table::ClaimTable;
