//! The opening of a row of zones: the zones of some configs, with the shares of all their workers.
#![tactic(auto)]

mod opening;
mod seat_row;

pub use opening::{Crew, open_crew};
