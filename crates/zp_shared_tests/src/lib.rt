//! Zones that threads share: what is not proved of them, with no desk.
#![tactic(auto)]

#[cfg(test)]
mod tests;
