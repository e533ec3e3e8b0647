//! Workers at their desks, over zones that threads share: what is not proved of them, and how traces test it.
#![tactic(auto)]

#[cfg(test)]
mod tests;
