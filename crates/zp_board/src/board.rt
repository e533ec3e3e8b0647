//! The board, the publisher that writes it, and its readers.
ghost use Rattle.std.specs.Prelude.{◌≡◌, ◌+◌, ◌*◌, ◌<◌, ◌≤◌, ◌^◌, ◌↔◌, ℕ, [], ◌∷◌, ◌++◌, true, length, IfOk, IsTrue};
ghost use mathlib.Core.List.{IsPrefix};
ghost use Rattle.zp_board.specs.Boards.{AreWide, entry_at, last_of, word_at};

use crate::word_row::{CutOff, Fetch, Look, Newcomer, Open, Pin, Row, Seen, Write};
use std::alloc::{AllocError, Global};
use std::marker::Model;

/// What was read: the place of an entry, the number of entries published before it, and its words.
#[derive(Clone, Copy)]
pub struct WordReading<const W: usize> {
    pub place: u64,
    pub words: [u64; W],
}

/// The words that all threads share: those of the opening entry, and of as many more entries as its capacity. Contracts see the
/// identity of its tie, and the capacity.
#[derive(Drop)]
pub struct WordBoard<const W: usize> {
    row: Row<W>,
    capacity: u32,
}

impl<const W: usize> Model for WordBoard<W> {
    ghost use Rattle.std.specs.Prelude.{◌≡◌, ◌+◌, ◌*◌, ◌<◌, ◌^◌};
    ghost use Rattle.zp_board.specs.Boards.{WordBoardState};

    ghost Value = { WordBoardState };

    ghost view = { λ b. record { tie = b.row.shared.table_id; capacity = b.capacity } };

    ghost invariant = { λ b. (b.row.shared.key ≡ b.row.shared.table_id.words) × (b.row.shared.table_id.words ≡ W * (b.capacity + 1) + 1) × (b.capacity < 2 ^ 32) };
}

/// The right to publish. It cannot be copied. Contracts see the identity of its tie, and the entries that are published.
#[derive(Drop)]
pub struct WordPublisher<const W: usize> {
    published: u64,
    pin: Pin,
}

impl<const W: usize> Model for WordPublisher<W> {
    ghost use Rattle.std.specs.Prelude.{◌≡◌, true, false, [], length};
    ghost use Rattle.zp_board.specs.Boards.{WordPublisherState};

    ghost Value = { WordPublisherState };

    ghost view = { λ p. record { tie = p.pin.table_id; published = p.pin.me.0.entries } };

    ghost invariant = { λ p. (p.pin.me.1 ≡ []) × (p.pin.me.0.stores ≡ true) × (p.pin.me.0.reads ≡ false) × (p.pin.me.0.next ≡ []) × (length p.pin.me.0.entries ≡ p.published) × (p.pin.me.0.size ≡ p.pin.table_id.words) };
}

/// The right to read. It cannot be copied. Contracts see the identity of its tie, the entries that it has seen, and the places that its
/// looks found.
#[derive(Drop)]
pub struct WordReader<const W: usize> {
    pin: Pin,
}

impl<const W: usize> Model for WordReader<W> {
    ghost use Rattle.std.specs.Prelude.{◌≡◌, ◌<◌, true, false, [], length};
    ghost use Rattle.zp_board.specs.Boards.{WordReaderState};

    ghost Value = { WordReaderState };

    ghost view = { λ r. record { tie = r.pin.table_id; seen = r.pin.me.0.seen; looks = r.pin.me.0.looks } };

    ghost invariant = { λ r. (r.pin.me.1 ≡ []) × (r.pin.me.0.stores ≡ false) × (r.pin.me.0.reads ≡ true) × (0 < length r.pin.me.0.seen) × (r.pin.me.0.size ≡ r.pin.table_id.words) };
}

impl<const W: usize> WordBoard<W> {
    /// A board with no entry, and its publisher. No later call takes memory.
    pub fn new(alloc: Global, capacity: u32) -> Result<(WordBoard<W>, WordPublisher<W>), AllocError>
        requires { W * (capacity + 1) + 1 < 2 ^ 32 }
        ensures tie { IfOk result (λ r. r.1.tie ≡ r.0.tie) }
        ensures capacity { IfOk result (λ r. r.0.capacity ≡ capacity) }
        ensures published { IfOk result (λ r. r.1.published ≡ []) }
    {
        let words = vec![in alloc; 0; W * (capacity as usize + 1) + 1]?;
        let size = words.len() as u64;
        let (row, pin) = Row::<W>::of_words(alloc, &words, &size)?;
        Ok((
            WordBoard { row, capacity },
            WordPublisher { published: 0, pin },
        ))
    }

    /// For how many entries it has room besides the opening one.
    pub fn capacity(&self) -> u32
        ensures { result ≡ self.now.capacity }
    {
        self.capacity
    }

    /// Writes the words of the next entry, one after another.
    fn write(&self, pin: &mut Pin, at: usize, entry: &[u64; W])
        requires tie { pin.old.table_id ≡ self.now.tie }
        requires stores { pin.old.me.0.stores ≡ true }
        requires next { pin.old.me.0.next ≡ [] }
        requires at { at ≡ word_at W (length pin.old.me.0.entries) 0 }
        requires room { length pin.old.me.0.entries ≤ self.now.capacity }
        ensures tie { pin.new.table_id ≡ pin.old.table_id }
        ensures me { pin.new.me ≡ (record pin.old.me.0 { next = entry.now }, pin.old.me.1) }
    {
        let row = &self.row.shared;
        let _words = self.row.word_count();
        for k in 0..W {
            row.store::<Write>(pin, at + k, entry[k]);
        }
    }

    /// Fetches the words of an entry that was seen.
    fn fetch(&self, pin: &mut Pin, place: usize) -> [u64; W]
        requires tie { pin.old.table_id ≡ self.now.tie }
        requires reads { pin.old.me.0.reads ≡ true }
        requires seen { place < length pin.old.me.0.seen }
        requires wide { AreWide W pin.old.me.0.seen }
        requires inside { W * length pin.old.me.0.seen + 1 ≤ self.now.tie.words }
        ensures tie { pin.new.table_id ≡ pin.old.table_id }
        ensures me { pin.new.me ≡ pin.old.me }
        ensures entry { result ≡ entry_at pin.old.me.0.seen place }
    {
        let row = &self.row.shared;
        let _words = self.row.word_count();
        let at = W * place + 1;
        let mut entry = [0; W];
        for k in 0..W {
            entry[k] = row.load::<Fetch<W>>(pin, at + k);
        }
        entry
    }
}

impl<const W: usize> WordPublisher<W> {
    /// How many entries are published.
    pub fn count(&self) -> u64
        ensures { result ≡ length self.now.published }
    {
        self.published
    }

    /// Whether the board has no room for an entry more.
    pub fn is_full(&self, board: &WordBoard<W>) -> bool
        ensures { IsTrue result ↔ (board.now.capacity < length self.now.published) }
    {
        self.published > u64::from(board.capacity)
    }

    /// Publishes an entry: its words are written, and then it is opened.
    pub fn publish(&mut self, board: &WordBoard<W>, entry: &[u64; W])
        requires tie { self.old.tie ≡ board.now.tie }
        requires room { length self.old.published ≤ board.now.capacity }
        ensures tie { self.new.tie ≡ self.old.tie }
        ensures published { self.new.published ≡ self.old.published ++ entry.now ∷ [] }
    {
        let row = &board.row.shared;
        let _words = board.row.word_count();
        let at = W * self.published as usize + 1;
        board.write(&mut self.pin, at, entry);
        row.store::<Open>(&mut self.pin, 0, self.published);
        self.published += 1;
    }

    /// A reader that has seen all that is published.
    pub fn reader(&mut self, board: &WordBoard<W>) -> WordReader<W>
        requires tie { self.old.tie ≡ board.now.tie }
        requires some { 0 < length self.old.published }
        ensures same { self.new ≡ self.old }
        ensures reader { result ≡ record { tie = self.old.tie; seen = self.old.published; looks = [] } }
    {
        let row = &board.row.shared;
        let pin = row.split_seat::<Newcomer>(&mut self.pin);
        WordReader { pin }
    }

    /// The last entry that is published, which the reader has then seen with all before it.
    pub fn read_board(&mut self, board: &WordBoard<W>, reader: &mut WordReader<W>) -> WordReading<W>
        requires tie { self.old.tie ≡ board.now.tie }
        requires reader { reader.old.tie ≡ board.now.tie }
        ensures same { self.new ≡ self.old }
        ensures before { IsPrefix reader.old.seen self.old.published }
        ensures reader { reader.new ≡ record { tie = reader.old.tie; seen = self.old.published; looks = [] } }
        ensures place { result.place + 1 ≡ length self.old.published }
        ensures last { result.words ≡ last_of self.old.published }
    {
        let place = self.show_place(board, reader);
        let words = board.fetch(&mut reader.pin, place as usize);
        WordReading { place, words }
    }

    /// The same without a result: no word of an entry is fetched.
    #[inline(always)]
    pub fn show_board(&mut self, board: &WordBoard<W>, reader: &mut WordReader<W>)
        requires tie { self.old.tie ≡ board.now.tie }
        requires reader { reader.old.tie ≡ board.now.tie }
        ensures same { self.new ≡ self.old }
        ensures before { IsPrefix reader.old.seen self.old.published }
        ensures reader { reader.new ≡ record { tie = reader.old.tie; seen = self.old.published; looks = [] } }
    {
        self.show_place(board, reader);
    }

    /// The place of the last entry that is published, which the reader has then seen with all before it.
    #[inline(always)]
    fn show_place(&mut self, board: &WordBoard<W>, reader: &mut WordReader<W>) -> u64
        requires tie { self.old.tie ≡ board.now.tie }
        requires reader { reader.old.tie ≡ board.now.tie }
        ensures same { self.new ≡ self.old }
        ensures before { IsPrefix reader.old.seen self.old.published }
        ensures reader { reader.new ≡ record { tie = reader.old.tie; seen = self.old.published; looks = [] } }
        ensures place { result + 1 ≡ length self.old.published }
        ensures wide { AreWide W self.old.published }
        ensures inside { W * length self.old.published + 1 ≤ board.now.tie.words }
    {
        let row = &board.row.shared;
        let part = row.split_seat::<CutOff>(&mut reader.pin);
        row.join_seat::<Seen>(&mut self.pin, part);
        let place = row.load::<Look<W>>(&mut self.pin, 0);
        reader.pin = row.split_seat::<Seen>(&mut self.pin);
        place
    }
}

impl<const W: usize> WordReader<W> {
    /// The last entry of those that are then seen, up to the place that this call finds. They begin with all that was seen before.
    pub fn read(&mut self, board: &WordBoard<W>) -> WordReading<W>
        requires { self.old.tie ≡ board.now.tie }
        ensures tie { self.new.tie ≡ self.old.tie }
        ensures seen { IsPrefix self.old.seen self.new.seen }
        ensures looked { self.new.looks ≡ self.old.looks ++ result.place ∷ [] }
        ensures place { result.place + 1 ≡ length self.new.seen }
        ensures last { result.words ≡ last_of self.new.seen }
    {
        let row = &board.row.shared;
        let place = row.load::<Look<W>>(&mut self.pin, 0);
        let words = board.fetch(&mut self.pin, place as usize);
        WordReading { place, words }
    }
}
