//! Tests of pictures: texts whose every byte follows from the rules of the zones.
#![tactic(auto)]

#[cfg(test)]
mod tests;
