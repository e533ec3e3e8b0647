//! Lists of pages, doubly linked through one table of page entries.
//!
//! Contracts see the lists as a row of lists of page numbers in which no page stands twice, with what is noted of each
//! page. Each call is the list operation on one list, and leaves all others.
#![tactic(auto)]

mod ends;
mod lists;
mod neighbour;

pub use lists::Lists;
