//! Tests of lists of pages and of the status tree by calls. They stand over the libraries, so that these are proved once.
#![tactic(auto)]

#[cfg(test)]
mod lists;
#[cfg(test)]
mod tests;
#[cfg(test)]
mod tree;
