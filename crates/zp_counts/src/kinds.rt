//! The kinds that a board is of, and its publisher and its readers with it.

use crate::packed::PACKED_WORDS;
use crate::words::PAIR_WORDS;
use zp_board::{WordBoard, WordPublisher, WordReader};
use zp_ring::{Ring, RingPublisher, RingReader};

/// How many slots a board that turns has. A reader that is passed by so many counts but one, in each of three tries of one read,
/// returns what it read last.
pub const SLOTS: usize = 16;

/// A board with words for each of its counts, or one that turns, of packed words or of words for any counts, with the number of counts
/// that can be published on it besides the opening ones.
#[derive(Drop)]
pub(crate) enum BoardKind {
    Fixed(WordBoard<PAIR_WORDS>),
    Turning(Ring<PACKED_WORDS, SLOTS>, u64),
    Wide(Ring<PAIR_WORDS, SLOTS>, u64),
}

#[derive(Drop)]
pub(crate) enum PublisherKind {
    Fixed(WordPublisher<PAIR_WORDS>),
    Turning(RingPublisher<PACKED_WORDS, SLOTS>),
    Wide(RingPublisher<PAIR_WORDS, SLOTS>),
}

#[derive(Drop)]
pub(crate) enum ReaderKind {
    Fixed(WordReader<PAIR_WORDS>),
    Turning(RingReader<PACKED_WORDS, SLOTS>),
    Wide(RingReader<PAIR_WORDS, SLOTS>),
}
