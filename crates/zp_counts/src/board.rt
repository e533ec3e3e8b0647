//! A board on which counts are published, its publisher and its readers.
ghost use Rattle.std.specs.Prelude.{◌≡◌, ◌+◌, ◌*◌, ◌^◌, ◌<◌, ◌≤◌, ◌↔◌, true, false, [], ◌∷◌, ◌++◌, length, IfOk, IsTrue};
ghost use mathlib.Core.List.{IsPrefix};
ghost use Rattle.zp_counts.specs.CountBoards.{ArePackable, IsFreshRead, IsReadingOf, last_reading};
ghost use Rattle.zp_counts.specs.Kinds.{fixed_tie, turning_tie, wide_tie};
ghost use Rattle.zp_counts.specs.Packing.{packed_in, paired_in};
ghost use Rattle.zp_counts.specs.declared.reading.Reading.{Reading};
ghost use Rattle.zp_counts.specs.declared.words.TheConstants.{PAIR_WORDS};

use crate::kinds::{BoardKind, PublisherKind, ReaderKind, SLOTS};
use crate::packed::{PACKED_WORDS, packed_in, packed_words};
use crate::reading::Reading;
use crate::words::{PAIR_WORDS, paired_in, paired_words};
use std::alloc::{AllocError, Global};
use std::marker::Model;
use zp_board::{WordBoard, WordReading};
use zp_model::Counts;
use zp_ring::{Ring, RingReading};

/// The words that all threads share. Contracts see its tie, and how many counts can be published on it besides the opening ones.
#[derive(Drop)]
pub struct Board {
    kind: BoardKind,
}

impl Model for Board {
    ghost use Rattle.std.specs.Prelude.{◌<◌, ◌^◌};
    ghost use Rattle.zp_counts.specs.CountBoards.{BoardState};

    ghost Value = { BoardState };

    ghost use Rattle.zp_counts.specs.Kinds.{board_state};

    ghost view = { λ b. board_state b.kind };

    ghost invariant = { λ b. (board_state b.kind).capacity < 2 ^ 64 };
}

/// The right to publish. It cannot be copied. Contracts see its tie, and the counts that are published.
#[derive(Drop)]
pub struct Publisher {
    kind: PublisherKind,
}

impl Model for Publisher {
    ghost use Rattle.std.specs.Prelude.{◌<◌, length};
    ghost use Rattle.zp_counts.specs.CountBoards.{CountsPublished};

    ghost Value = { CountsPublished };

    ghost use Rattle.zp_counts.specs.Kinds.{published_counts};

    ghost view = { λ p. published_counts p.kind };

    ghost invariant = { λ p. 0 < length (published_counts p.kind).published };
}

/// The right to read. It cannot be copied. Contracts see its tie, the counts that it has seen, how many it knows to be published, and the
/// places at which it looked.
#[derive(Drop)]
pub struct BoardReader {
    kind: ReaderKind,
}

impl Model for BoardReader {
    ghost use Rattle.zp_counts.specs.CountBoards.{CountsSeen};

    ghost Value = { CountsSeen };

    ghost use Rattle.zp_counts.specs.Kinds.{seen_counts};

    ghost view = { λ r. seen_counts r.kind };
}

/// A board with the opening counts, and its publisher. It has room for each of its counts. No later call takes memory.
pub fn new_board(
    alloc: Global,
    capacity: u32,
    opening: &Counts,
) -> Result<(Board, Publisher), AllocError>
    requires { PAIR_WORDS * (capacity + 1) + 1 < 2 ^ 32 }
    ensures tie { IfOk result (λ r. r.1.tie ≡ r.0.tie) }
    ensures turns { IfOk result (λ r. r.0.tie.turns ≡ false) }
    ensures packed { IfOk result (λ r. r.0.tie.packed ≡ false) }
    ensures capacity { IfOk result (λ r. r.0.capacity ≡ capacity) }
    ensures published { IfOk result (λ r. r.1.published ≡ opening.now ∷ []) }
{
    let (words, mut entries) = WordBoard::new(alloc, capacity)?;
    entries.publish(&words, &paired_words(opening));
    let board = Board {
        kind: BoardKind::Fixed(words),
    };
    let publisher = Publisher {
        kind: PublisherKind::Fixed(entries),
    };
    Ok((board, publisher))
}

/// A board with the opening counts, and its publisher. It turns: it has room for some counts, and the oldest give way to the newest. So it
/// takes the same memory whatever the capacity is, and no later call takes any. Its words are packed, and hold counts that fit into them.
pub fn new_turning_board(
    alloc: Global,
    capacity: u64,
    opening: &Counts,
) -> Result<(Board, Publisher), AllocError>
    requires packable { ArePackable opening.now }
    ensures tie { IfOk result (λ r. r.1.tie ≡ r.0.tie) }
    ensures turns { IfOk result (λ r. r.0.tie.turns ≡ true) }
    ensures packed { IfOk result (λ r. r.0.tie.packed ≡ true) }
    ensures capacity { IfOk result (λ r. r.0.capacity ≡ capacity) }
    ensures published { IfOk result (λ r. r.1.published ≡ opening.now ∷ []) }
{
    let (ring, entries) = Ring::new(alloc, &packed_words(opening))?;
    let board = Board {
        kind: BoardKind::Turning(ring, capacity),
    };
    let publisher = Publisher {
        kind: PublisherKind::Turning(entries),
    };
    Ok((board, publisher))
}

/// The same with words that hold any counts, twice as many.
pub fn new_wide_board(
    alloc: Global,
    capacity: u64,
    opening: &Counts,
) -> Result<(Board, Publisher), AllocError>
    ensures tie { IfOk result (λ r. r.1.tie ≡ r.0.tie) }
    ensures turns { IfOk result (λ r. r.0.tie.turns ≡ true) }
    ensures packed { IfOk result (λ r. r.0.tie.packed ≡ false) }
    ensures capacity { IfOk result (λ r. r.0.capacity ≡ capacity) }
    ensures published { IfOk result (λ r. r.1.published ≡ opening.now ∷ []) }
{
    let (ring, entries) = Ring::new(alloc, &paired_words(opening))?;
    let board = Board {
        kind: BoardKind::Wide(ring, capacity),
    };
    let publisher = Publisher {
        kind: PublisherKind::Wide(entries),
    };
    Ok((board, publisher))
}

impl Board {
    /// The words of a board that does not turn.
    fn fixed(&self) -> &WordBoard<PAIR_WORDS>
        requires { self.now.tie.turns ≡ false }
        ensures tie { self.now.tie ≡ fixed_tie result.now.tie }
        ensures capacity { self.now.capacity ≡ result.now.capacity }
    {
        match &self.kind {
            BoardKind::Fixed(words) => words,
            BoardKind::Turning(..) | BoardKind::Wide(..) => unreachable!(),
        }
    }

    /// The words of one that turns, where they are packed.
    fn turning(&self) -> &Ring<PACKED_WORDS, SLOTS>
        requires { self.now.tie.packed ≡ true }
        ensures tie { self.now.tie ≡ turning_tie result.now.tie }
        ensures capacity { self.now.capacity < 2 ^ 64 }
    {
        match &self.kind {
            BoardKind::Turning(ring, _) => ring,
            BoardKind::Fixed(_) | BoardKind::Wide(..) => unreachable!(),
        }
    }

    /// The words of one that turns, where they hold any counts.
    fn wide(&self) -> &Ring<PAIR_WORDS, SLOTS>
        requires turns { self.now.tie.turns ≡ true }
        requires any { self.now.tie.packed ≡ false }
        ensures tie { self.now.tie ≡ wide_tie result.now.tie }
        ensures capacity { self.now.capacity < 2 ^ 64 }
    {
        match &self.kind {
            BoardKind::Wide(ring, _) => ring,
            BoardKind::Fixed(_) | BoardKind::Turning(..) => unreachable!(),
        }
    }

    /// How many counts can be published on it besides the opening ones.
    fn capacity(&self) -> u64
        ensures { result ≡ self.now.capacity }
    {
        match &self.kind {
            BoardKind::Fixed(words) => u64::from(words.capacity()),
            BoardKind::Turning(_, capacity) | BoardKind::Wide(_, capacity) => *capacity,
        }
    }
}

impl Publisher {
    /// Whether the board has no room for more. None has room for more than can be numbered.
    pub fn is_full(&self, board: &Board) -> bool
        ensures full { IsTrue result ↔ (board.now.capacity < length self.now.published) }
        ensures within { board.now.capacity < 2 ^ 64 }
    {
        self.place() >= board.capacity()
    }

    /// The place of the last counts that are published.
    pub fn place(&self) -> u64
        ensures { result + 1 ≡ length self.now.published }
    {
        match &self.kind {
            PublisherKind::Fixed(entries) => entries.count() - 1,
            PublisherKind::Turning(entries) => entries.place(),
            PublisherKind::Wide(entries) => entries.place(),
        }
    }

    /// Publishes counts: their words are written, and then they are opened.
    pub fn publish(&mut self, board: &Board, counts: &Counts)
        requires tie { self.old.tie ≡ board.now.tie }
        requires room { length self.old.published ≤ board.now.capacity }
        requires packable { self.old.tie.packed ≡ true → ArePackable counts.now }
        ensures tie { self.new.tie ≡ self.old.tie }
        ensures published { self.new.published ≡ self.old.published ++ counts.now ∷ [] }
    {
        match &mut self.kind {
            PublisherKind::Fixed(entries) => entries.publish(board.fixed(), &paired_words(counts)),
            PublisherKind::Turning(entries) => {
                entries.publish(board.turning(), &packed_words(counts))
            }
            PublisherKind::Wide(entries) => entries.publish(board.wide(), &paired_words(counts)),
        }
    }

    /// A reader that has seen all that is published.
    pub fn reader(&mut self, board: &Board) -> BoardReader
        requires { self.old.tie ≡ board.now.tie }
        ensures same { self.new ≡ self.old }
        ensures reader { result ≡ record { tie = self.old.tie; seen = self.old.published; known = length self.old.published; looks = [] } }
    {
        let kind = match &mut self.kind {
            PublisherKind::Fixed(entries) => ReaderKind::Fixed(entries.reader(board.fixed())),
            PublisherKind::Turning(entries) => {
                ReaderKind::Turning(entries.reader(board.turning()))
            }
            PublisherKind::Wide(entries) => ReaderKind::Wide(entries.reader(board.wide())),
        };
        BoardReader { kind }
    }

    /// The last counts that are published, with their place. The reader has then seen them, and all before them.
    pub fn read_board(&mut self, board: &Board, reader: &mut BoardReader) -> Reading
        requires tie { self.old.tie ≡ board.now.tie }
        requires reader { reader.old.tie ≡ board.now.tie }
        ensures same { self.new ≡ self.old }
        ensures before { IsPrefix reader.old.seen self.old.published }
        ensures known { reader.old.known ≤ length self.old.published }
        ensures reader { reader.new ≡ record { tie = reader.old.tie; seen = self.old.published; known = length self.old.published; looks = [] } }
        ensures last { result ≡ last_reading self.old.published }

        // What was read before is of what is published, and so is this.
        ensures taken { IsReadingOf self.old.published result }
        ensures kept { (r : Reading) → IsReadingOf reader.old.seen r → IsReadingOf self.old.published r }
    {
        match (&mut self.kind, &mut reader.kind) {
            (PublisherKind::Fixed(entries), ReaderKind::Fixed(seen)) => {
                reading_of(&entries.read_board(board.fixed(), seen))
            }
            (PublisherKind::Turning(entries), ReaderKind::Turning(seen)) => {
                turned_reading_of(&entries.read_board(board.turning(), seen))
            }
            (PublisherKind::Wide(entries), ReaderKind::Wide(seen)) => {
                wide_reading_of(&entries.read_board(board.wide(), seen))
            }
            _ => unreachable!(),
        }
    }

    /// The same without a result: no counts are unpacked.
    #[inline(always)]
    pub fn show_board(&mut self, board: &Board, reader: &mut BoardReader)
        requires tie { self.old.tie ≡ board.now.tie }
        requires reader { reader.old.tie ≡ board.now.tie }
        ensures same { self.new ≡ self.old }
        ensures before { IsPrefix reader.old.seen self.old.published }
        ensures known { reader.old.known ≤ length self.old.published }
        ensures reader { reader.new ≡ record { tie = reader.old.tie; seen = self.old.published; known = length self.old.published; looks = [] } }

        // What was read before is of what is published.
        ensures kept { (r : Reading) → IsReadingOf reader.old.seen r → IsReadingOf self.old.published r }
    {
        match (&mut self.kind, &mut reader.kind) {
            (PublisherKind::Fixed(entries), ReaderKind::Fixed(seen)) => {
                entries.show_board(board.fixed(), seen);
            }
            (PublisherKind::Turning(entries), ReaderKind::Turning(seen)) => {
                entries.show_board(board.turning(), seen);
            }
            (PublisherKind::Wide(entries), ReaderKind::Wide(seen)) => {
                entries.show_board(board.wide(), seen);
            }
            _ => unreachable!(),
        }
    }
}

impl BoardReader {
    /// The last counts of those that are then seen, with their place. They begin with all that was seen before. Takes no lock and never
    /// waits.
    pub fn read(&mut self, board: &Board) -> Reading
        requires { self.old.tie ≡ board.now.tie }
        ensures tie { self.new.tie ≡ self.old.tie }
        ensures seen { IsPrefix self.old.seen self.new.seen }
        ensures some { 0 < length self.new.seen }
        ensures last { result ≡ last_reading self.new.seen }
        ensures fresh { IsFreshRead self.old self.new }

        // What was read before is of what is seen still, and so is this.
        ensures taken { IsReadingOf self.new.seen result }
        ensures kept { (r : Reading) → IsReadingOf self.old.seen r → IsReadingOf self.new.seen r }
    {
        match &mut self.kind {
            ReaderKind::Fixed(entries) => reading_of(&entries.read(board.fixed())),
            ReaderKind::Turning(entries) => turned_reading_of(&entries.read(board.turning())),
            ReaderKind::Wide(entries) => wide_reading_of(&entries.read(board.wide())),
        }
    }
}

/// The counts that the words of a reading stand for, with their place.
fn reading_of(found: &WordReading<PAIR_WORDS>) -> Reading
    ensures counts { result.counts ≡ paired_in found.now.words }
    ensures place { result.place ≡ found.now.place }
{
    Reading {
        counts: paired_in(&found.words),
        place: found.place,
    }
}

/// The same, where the words are packed.
fn turned_reading_of(found: &RingReading<PACKED_WORDS>) -> Reading
    ensures counts { result.counts ≡ packed_in found.now.words }
    ensures place { result.place ≡ found.now.place }
{
    Reading {
        counts: packed_in(&found.words),
        place: found.place,
    }
}

/// The same of a board that turns, where they are not.
fn wide_reading_of(found: &RingReading<PAIR_WORDS>) -> Reading
    ensures counts { result.counts ≡ paired_in found.now.words }
    ensures place { result.place ≡ found.now.place }
{
    Reading {
        counts: paired_in(&found.words),
        place: found.place,
    }
}
