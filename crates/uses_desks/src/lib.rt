//! A caller of workers at their desks, as a user would write it. As those of `uses_owned`, it is proved from the contracts of the calls that it
//! makes, with no proof file.
#![tactic(auto)]

mod shared_row;
#[cfg(test)]
mod tests;

pub use shared_row::{SharedRun, share_a_zone};
