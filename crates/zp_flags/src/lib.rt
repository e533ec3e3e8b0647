//! The command line of the replay program: `zonereplay [--serial] [--journal]`.
#![tactic(auto)]

mod flags;

pub use flags::{FlagFault, Flags, read_flags};
