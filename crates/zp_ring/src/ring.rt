//! The board, the publisher that writes it, and its readers.
//!
//! A row of words holds the place, which is the number of the newest entry, and S slots of W words. Entry n lies in slot n mod S, so the
//! newest entry takes the room of the oldest, and the board is never full before numbers of 64 bits end. With S = 16 and the place 18:
//!
//!     slot      0    1    2    3    4   ..   15
//!     entry    16   17   18    3    4   ..   15
//!                         |    |
//!                    newest    the publisher writes entry 19 here, and then stores the place 19
//!
//! `publish` stores the W words of the next entry, and then the place. `read` takes no lock:
//!
//! 1. It looks at the place, p, and fetches the words of slot p mod S.
//! 2. It looks again, at q. While it fetched, the publisher wrote entry q + 1 at most. The next entry in the same slot is p + S.
//! 3. Where q - p is at most S - 2, the words are therefore entry p's. Else it tries again from q, three times in all, and then returns
//!    what it read last.
//!
//! No tag stands in the words, and a reader writes nothing. So it never waits, and the publisher knows nothing of it. A publish costs W + 1
//! stores, a read W + 2 loads, and each further try W + 1 more. With the publisher at hand `read_board` gives the newest entry.
ghost use Rattle.std.specs.Prelude.{◌≡◌, ◌+◌, ◌-◌, ◌*◌, ◌<◌, ◌≤◌, ◌^◌, ◌↔◌, ◌⊎◌, ℕ, [], ◌∷◌, ◌++◌, true, length, IfOk, IsTrue};
ghost use mathlib.Core.List.{IsPrefix};
ghost use Rattle.zp_board.specs.Boards.{entry_at, last_of};
ghost use Rattle.zp_ring.specs.Rings.{AreWide, Heads, IsFresh, word_at};

use crate::ring_row::{
    FetchWord, FindWord, LookAtPlace, NewReader, OpenEntry, Pin, Row, SeenSide, WholeSide,
    WriteWord,
};
use std::alloc::{AllocError, Global};
use std::marker::Model;

/// How often a read tries, at most.
pub const TRIES: u64 = 3;

/// What was read: the number of an entry, counted from 0, and its words.
#[derive(Clone, Copy)]
pub struct RingReading<const W: usize> {
    pub place: u64,
    pub words: [u64; W],
}

/// The words that all threads share: the place, and S slots of W words each. Contracts see the identity of its tie.
#[derive(Drop)]
pub struct Ring<const W: usize, const S: usize> {
    row: Row<W, S>,
}

impl<const W: usize, const S: usize> Model for Ring<W, S> {
    ghost use Rattle.std.specs.Prelude.{◌≡◌, ◌+◌, ◌*◌, ◌≤◌};
    ghost use Rattle.zp_ring.specs.Rings.{RingState};

    ghost Value = { RingState };

    ghost view = { λ b. record { tie = b.row.shared.table_id } };

    ghost invariant = { λ b. (b.row.shared.table_id.words ≡ W * S + 1) × (2 ≤ S) };
}

/// The right to publish. It cannot be copied. Contracts see the identity of its tie, and the entries that are published.
#[derive(Drop)]
pub struct RingPublisher<const W: usize, const S: usize> {
    place: u64,
    pin: Pin,
}

impl<const W: usize, const S: usize> Model for RingPublisher<W, S> {
    ghost use Rattle.std.specs.Prelude.{◌≡◌, ◌+◌, true, false, [], length};
    ghost use Rattle.zp_ring.specs.Rings.{AreWide, RingPublisherState};

    ghost Value = { RingPublisherState };

    ghost view = { λ p. record { tie = p.pin.table_id; published = p.pin.me.0.entries } };

    ghost invariant = { λ p. (p.pin.me.1 ≡ []) × (p.pin.me.0.stores ≡ true) × (p.pin.me.0.reads ≡ false) × (p.pin.me.0.next ≡ []) × (length p.pin.me.0.entries ≡ p.place + 1) × AreWide W S p.pin.me.0.entries };
}

/// The right to read. It cannot be copied. It remembers what it read last. Contracts see the identity of its tie, the entries up to the
/// one that it read last, how many it knows to be published, and the places at which it looked.
#[derive(Drop)]
pub struct RingReader<const W: usize, const S: usize> {
    last: RingReading<W>,
    pin: Pin,
}

impl<const W: usize, const S: usize> Model for RingReader<W, S> {
    ghost use Rattle.std.specs.Prelude.{◌≡◌, ◌+◌, ◌<◌, true, false, [], length, take};
    ghost use Rattle.zp_board.specs.Boards.{entry_at};
    ghost use Rattle.zp_ring.specs.Rings.{RingReaderState};

    ghost Value = { RingReaderState };

    ghost view = { λ r. record { tie = r.pin.table_id; seen = take (r.last.place + 1) r.pin.me.0.seen; known = length r.pin.me.0.seen; looks = r.pin.me.0.looks } };

    ghost invariant = { λ r. (r.pin.me.1 ≡ []) × (r.pin.me.0.stores ≡ false) × (r.pin.me.0.reads ≡ true) × (r.last.place < length r.pin.me.0.seen) × (r.last.words ≡ entry_at r.pin.me.0.seen r.last.place) };
}

impl<const W: usize, const S: usize> Ring<W, S> {
    /// A board with the opening entry, and its publisher. No later call takes memory.
    pub fn new(
        alloc: Global,
        opening: &[u64; W],
    ) -> Result<(Ring<W, S>, RingPublisher<W, S>), AllocError>
        requires slots { 2 ≤ S }
        requires size { W * S + 1 < 2 ^ 32 }
        ensures tie { IfOk result (λ r. r.1.tie ≡ r.0.tie) }
        ensures published { IfOk result (λ r. r.1.published ≡ opening.now ∷ []) }
    {
        let words = vec![in alloc; 0; W * S + 1]?;
        let (row, mut pin) = Row::<W, S>::of_words(alloc, &words, &())?;
        let board = Ring { row };
        board.put(&mut pin, 0, opening);
        Ok((board, RingPublisher { place: 0, pin }))
    }

    /// Where the words of an entry begin.
    fn start_of(&self, place: u64) -> usize
        ensures start { result ≡ word_at W S place 0 }
        ensures inside { result + W ≤ self.now.tie.words }
    {
        let _words = self.row.word_count();
        W * (place % S as u64) as usize + 1
    }

    /// Writes the words of the next entry, one after another, and then opens it.
    fn put(&self, pin: &mut Pin, place: u64, entry: &[u64; W])
        requires tie { pin.old.table_id ≡ self.now.tie }
        requires stores { pin.old.me.0.stores ≡ true }
        requires next { pin.old.me.0.next ≡ [] }
        requires place { place ≡ length pin.old.me.0.entries }
        ensures tie { pin.new.table_id ≡ pin.old.table_id }
        ensures me { pin.new.me ≡ (record pin.old.me.0 { entries = pin.old.me.0.entries ++ entry.now ∷ [] }, pin.old.me.1) }
    {
        let row = &self.row.shared;
        let _words = self.row.word_count();
        let start = self.start_of(place);
        for k in 0..W {
            row.store::<WriteWord>(pin, start + k, entry[k]);
        }
        row.store::<OpenEntry>(pin, 0, place);
    }

    /// Fetches words from where those of the entry stand that is looked for. What they are, the next look says.
    fn fetch(&self, pin: &mut Pin, place: u64) -> [u64; W]
        requires tie { pin.old.table_id ≡ self.now.tie }
        requires reads { pin.old.me.0.reads ≡ true }
        requires from { place ≡ pin.old.me.0.from }
        requires got { pin.old.me.0.got ≡ [] }
        ensures tie { pin.new.table_id ≡ pin.old.table_id }
        ensures me { pin.new.me ≡ (record pin.old.me.0 { got = result }, pin.old.me.1) }
    {
        let row = &self.row.shared;
        let _words = self.row.word_count();
        let start = self.start_of(place);
        let mut words = [0; W];
        for k in 0..W {
            words[k] = row.load::<FetchWord>(pin, start + k);
        }
        words
    }

    /// Finds the words of the last entry, by the seat that stores.
    fn find(&self, pin: &mut Pin, place: u64) -> [u64; W]
        requires tie { pin.old.table_id ≡ self.now.tie }
        requires stores { pin.old.me.0.stores ≡ true }
        requires place { length pin.old.me.0.entries ≡ place + 1 }
        requires wide { AreWide W S pin.old.me.0.entries }
        ensures tie { pin.new.table_id ≡ pin.old.table_id }
        ensures me { pin.new.me ≡ pin.old.me }
        ensures words { result ≡ last_of pin.old.me.0.entries }
    {
        let row = &self.row.shared;
        let _words = self.row.word_count();
        let start = self.start_of(place);
        let mut words = [0; W];
        for k in 0..W {
            words[k] = row.load::<FindWord<W, S>>(pin, start + k);
        }
        words
    }
}

impl<const W: usize, const S: usize> RingPublisher<W, S> {
    /// Whether no entry more can be numbered.
    pub fn is_full(&self) -> bool
        ensures { IsTrue result ↔ (2 ^ 64 ≤ length self.now.published) }
    {
        self.place == u64::MAX
    }

    /// The number of the last entry, counted from 0.
    pub fn place(&self) -> u64
        ensures { result + 1 ≡ length self.now.published }
    {
        self.place
    }

    /// Publishes an entry: its words are written, and then it is opened.
    pub fn publish(&mut self, board: &Ring<W, S>, entry: &[u64; W])
        requires tie { self.old.tie ≡ board.now.tie }
        requires room { length self.old.published < 2 ^ 64 }
        ensures tie { self.new.tie ≡ self.old.tie }
        ensures published { self.new.published ≡ self.old.published ++ entry.now ∷ [] }
    {
        self.place += 1;
        board.put(&mut self.pin, self.place, entry);
    }

    /// The last entry that is published.
    pub fn newest(&mut self, board: &Ring<W, S>) -> RingReading<W>
        requires { self.old.tie ≡ board.now.tie }
        ensures same { self.new ≡ self.old }
        ensures last { result.words ≡ last_of self.old.published }
        ensures place { result.place + 1 ≡ length self.old.published }
    {
        let words = board.find(&mut self.pin, self.place);
        RingReading {
            place: self.place,
            words,
        }
    }

    /// A reader that has seen all that is published.
    pub fn reader(&mut self, board: &Ring<W, S>) -> RingReader<W, S>
        requires { self.old.tie ≡ board.now.tie }
        ensures same { self.new ≡ self.old }
        ensures reader { result ≡ record { tie = self.old.tie; seen = self.old.published; known = length self.old.published; looks = [] } }
    {
        let last = self.newest(board);
        let row = &board.row.shared;
        let pin = row.split_seat::<NewReader>(&mut self.pin);
        RingReader { last, pin }
    }

    /// The last entry that is published, which the reader has then seen with all before it.
    pub fn read_board(
        &mut self,
        board: &Ring<W, S>,
        reader: &mut RingReader<W, S>,
    ) -> RingReading<W>
        requires tie { self.old.tie ≡ board.now.tie }
        requires reader { reader.old.tie ≡ board.now.tie }
        ensures same { self.new ≡ self.old }
        ensures before { IsPrefix reader.old.seen self.old.published }
        ensures known { reader.old.known ≤ length self.old.published }
        ensures reader { reader.new ≡ record { tie = reader.old.tie; seen = self.old.published; known = length self.old.published; looks = [] } }
        ensures last { result.words ≡ last_of self.old.published }
        ensures place { result.place + 1 ≡ length self.old.published }
    {
        self.show_board(board, reader);
        reader.last
    }

    /// The same without a result: the reader remembers it.
    #[inline(always)]
    pub fn show_board(&mut self, board: &Ring<W, S>, reader: &mut RingReader<W, S>)
        requires tie { self.old.tie ≡ board.now.tie }
        requires reader { reader.old.tie ≡ board.now.tie }
        ensures same { self.new ≡ self.old }
        ensures before { IsPrefix reader.old.seen self.old.published }
        ensures known { reader.old.known ≤ length self.old.published }
        ensures reader { reader.new ≡ record { tie = reader.old.tie; seen = self.old.published; known = length self.old.published; looks = [] } }
    {
        let row = &board.row.shared;
        let part = row.split_seat::<WholeSide>(&mut reader.pin);
        row.join_seat::<SeenSide>(&mut self.pin, part);
        let place = row.load::<LookAtPlace<W, S>>(&mut self.pin, 0);
        let words = board.find(&mut self.pin, place);
        reader.pin = row.split_seat::<SeenSide>(&mut self.pin);
        reader.last = RingReading { place, words };
    }
}

impl<const W: usize, const S: usize> RingReader<W, S> {
    /// The last entry of those that are then seen, which begin with all that was seen before. Takes no lock and never waits.
    ///
    /// The words are looked for between two looks at the place. Where so many entries were published between the two that the words may be
    /// another entry's, it tries again, and after some tries it returns what it read last.
    pub fn read(&mut self, board: &Ring<W, S>) -> RingReading<W>
        requires { self.old.tie ≡ board.now.tie }
        ensures tie { self.new.tie ≡ self.old.tie }
        ensures seen { IsPrefix self.old.seen self.new.seen }
        ensures place { result.place + 1 ≡ length self.new.seen }
        ensures later { length self.old.seen ≤ result.place + 1 }
        ensures last { result.words ≡ last_of self.new.seen }
        ensures known { (self.old.known ≤ self.new.known) × (length self.new.seen ≤ self.new.known) }
        ensures fresh { IsFresh S self.old self.new }
    {
        let row = &board.row.shared;
        let mut place = row.load::<LookAtPlace<W, S>>(&mut self.pin, 0);
        for _ in 0..TRIES {
            let words = board.fetch(&mut self.pin, place);
            let again = row.load::<LookAtPlace<W, S>>(&mut self.pin, 0);
            if again - place < S as u64 - 1 {
                self.last = RingReading { place, words };
                return self.last;
            }
            place = again;
        }
        self.last
    }
}
