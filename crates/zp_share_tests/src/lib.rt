//! Tests of workers' shares. They stand over the library, so that it is proved once.
#![tactic(auto)]

#[cfg(test)]
mod tests;
