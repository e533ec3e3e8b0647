//! The callers, run. These tests stand over the library, so that it is proved once.
#![tactic(auto)]

#[cfg(test)]
mod tests;
