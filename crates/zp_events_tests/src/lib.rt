//! Tests of reading lines of page events: what is not proved of them. They stand over the library, so that it is proved once.
#![tactic(auto)]

#[cfg(test)]
mod reading;
#[cfg(test)]
mod tests;
