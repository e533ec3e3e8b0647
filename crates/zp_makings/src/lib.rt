//! Makings of what stands below zones that threads share, each with so many rounds of calls on what it made. (They stand apart from
//! `zp_growths`, so that they are proved while the crates above zones are.)
#![tactic(auto)]

pub mod boards;
pub mod buddies;
mod hand;
pub mod shares;
pub mod zones;

pub use hand::lists;
