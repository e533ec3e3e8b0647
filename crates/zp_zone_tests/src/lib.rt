//! Tests of zones: what is not proved of them. They stand over the library, so that it is proved once.
#![tactic(auto)]

#[cfg(test)]
mod tests;
