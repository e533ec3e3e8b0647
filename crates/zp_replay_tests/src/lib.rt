//! Tests of replays whose devices give and take small pieces or fail in mid-stream, and whose workers work at the same time; and the
//! devices for them. What a replay writes is shown by `tests/traces` at the top, with the built program.
#![tactic(auto)]

pub mod memory;
pub mod rooms;
#[cfg(test)]
mod tests;
