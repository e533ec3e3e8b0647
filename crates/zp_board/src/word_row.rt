//! The row of a board, and its rule. Word 0 is the place, the number of the last entry that is published; after it come the words of
//! each entry.
use atomic_table::{Join, Play, Seat, Split, Table, TableRule};
use std::alloc::Global;
use std::collections::LinkedList;

/// What a seat of the row knows. No value of it is made.
pub struct BoardView {
    /// How many words the row has.
    pub size: u64,
    pub stores: bool,
    /// The entries that are published.
    pub entries: LinkedList<LinkedList<u64>>,
    /// The words of the next one that are written so far.
    pub next: LinkedList<u64>,
    pub reads: bool,
    /// The entries that were seen.
    pub seen: LinkedList<LinkedList<u64>>,
    /// The places that were found by looks, since the seat is a reader's.
    pub looks: LinkedList<u64>,
}

/// The rule of the row. The key is the number of its words.
pub struct Boarded<const W: usize>;

impl<const W: usize> TableRule<(), BoardView, u64> for Boarded<W> {
    ghost use Rattle.zp_board.specs.Boards.{IsBoarded, blank};

    ghost holds = { IsBoarded W };

    ghost first = { blank };
}

/// All that a seat knows is cut off.
pub struct CutOff;

impl Split<BoardView> for CutOff {
    ghost use Rattle.zp_board.specs.Boards.{emptied};

    ghost left = { emptied };

    ghost right = { λ v. v };
}

/// What was seen is cut off, or taken in.
pub struct Seen;

impl Split<BoardView> for Seen {
    ghost use Rattle.zp_board.specs.Boards.{storing, reading};

    ghost left = { storing };

    ghost right = { reading };
}

impl Join<BoardView> for Seen {
    ghost use Rattle.zp_board.specs.Boards.{both_of, blank, emptied};

    ghost both = { both_of };

    ghost spent = { emptied (blank 0) };
}

/// A reader is cut off, that has seen all that is published.
pub struct Newcomer;

impl Split<BoardView> for Newcomer {
    ghost use Rattle.zp_board.specs.Boards.{newcomer};

    ghost left = { λ v. v };

    ghost right = { newcomer };
}

/// A word of the next entry is written.
pub struct Write;

impl Play<(), BoardView> for Write {
    ghost use Rattle.zp_board.specs.Boards.{Writes};

    ghost then = { Writes };
}

/// The next entry is opened.
pub struct Open;

impl Play<(), BoardView> for Open {
    ghost use Rattle.zp_board.specs.Boards.{Opens};

    ghost then = { Opens };
}

/// The place is looked at.
pub struct Look<const W: usize>;

impl<const W: usize> Play<(), BoardView> for Look<W> {
    ghost use Rattle.zp_board.specs.Boards.{Looks};

    ghost then = { Looks W };
}

/// A word of what was seen is fetched.
pub struct Fetch<const W: usize>;

impl<const W: usize> Play<(), BoardView> for Fetch<W> {
    ghost use Rattle.zp_board.specs.Boards.{Fetches};

    ghost then = { Fetches W };
}

pub(crate) type Row<const W: usize> = Table<(), BoardView, u64, Boarded<W>, Global>;

pub(crate) type Pin = Seat<(), BoardView>;
