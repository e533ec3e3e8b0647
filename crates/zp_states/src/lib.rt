//! The state of each page of a trace's zones after its first requests: free, lent to a worker, posted, or in a worker's list.
#![tactic(auto)]

mod replaying;

pub use replaying::Replay;
