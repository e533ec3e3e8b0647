//! A board that turns: one publisher puts up entries of a fixed number of words, and readers look at the last one, with no lock. The
//! room is for a fixed number of entries, S, and the oldest one gives way to the newest.
//!
//! A reader that looks again never sees an entry before the one that it saw, and never one that was not published.
//!
//! Word 0 is the place, the number of the newest entry. Entry n lies in slot n mod S. To publish is to store its words, and then the place.
//! To read is to look at the place, to fetch the words of its slot, and to look again: where the place has moved on by S - 2 at most, the
//! publisher can only have begun with an entry of another slot, so the words are those of the entry that was looked for. Else the read
//! tries again, and after some tries it returns what it read last. It never waits, and marks nothing.
//!
//! A place is a word of 64 bits, so 2^64 entries can be numbered and no more: with a place that wraps, a reader that sleeps long enough
//! could not tell one entry from another.
#![tactic(auto)]

mod ring;
mod ring_row;

pub use ring::{Ring, RingPublisher, RingReader, RingReading, TRIES};
pub use ring_row::RingView;

#[cfg(test)]
mod tests;
