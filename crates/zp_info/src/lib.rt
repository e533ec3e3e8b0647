//! The info line of a zone's counts, as text that lies in place.
#![tactic(auto)]

mod info;
mod text_buffer;

pub use info::{INFO_LINE, push_counts};
pub use text_buffer::{DIGITS, TextBuffer};
