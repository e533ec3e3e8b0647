//! A board: one publisher puts up entries of a fixed number of words, and readers look at the last one, with no lock.
//!
//! A published entry never changes. A reader that looks again sees all that it saw before, and more where more was published.
#![tactic(auto)]

mod board;
mod word_row;

pub use board::{WordBoard, WordPublisher, WordReader, WordReading};
pub use word_row::BoardView;
