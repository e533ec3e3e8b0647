//! The row of a board, and its rule. Word 0 is the place, the number of the last entry that is published; after it come the slots, each
//! of which has room for the words of one entry. Entry n lies in slot n mod S.
use atomic_table::{Join, Play, Seat, Split, Table, TableRule};
use std::alloc::Global;
use std::collections::LinkedList;

/// What a seat of the row knows. No value of it is made.
pub struct RingView {
    pub stores: bool,
    /// The entries that are published.
    pub entries: LinkedList<LinkedList<u64>>,
    /// The words of the next one that are written so far.
    pub next: LinkedList<u64>,
    pub reads: bool,
    /// The entries up to the last look at the place.
    pub seen: LinkedList<LinkedList<u64>>,
    /// The place that was found there.
    pub from: u64,
    /// The words that were fetched since.
    pub got: LinkedList<u64>,
    /// The places that were found by looks, since the seat is a reader's.
    pub looks: LinkedList<u64>,
}

/// The rule of the row.
pub struct Turning<const W: usize, const S: usize>;

impl<const W: usize, const S: usize> TableRule<(), RingView, ()> for Turning<W, S> {
    ghost use Rattle.zp_ring.specs.Rings.{IsTurning, blank};

    ghost holds = { λ _. IsTurning W S };

    ghost first = { λ _. blank };
}

/// All that a seat knows is cut off.
pub struct WholeSide;

impl Split<RingView> for WholeSide {
    ghost use Rattle.zp_ring.specs.Rings.{emptied};

    ghost left = { emptied };

    ghost right = { λ v. v };
}

/// What was seen is cut off, or taken in.
pub struct SeenSide;

impl Split<RingView> for SeenSide {
    ghost use Rattle.zp_ring.specs.Rings.{storing, reading};

    ghost left = { storing };

    ghost right = { reading };
}

impl Join<RingView> for SeenSide {
    ghost use Rattle.zp_ring.specs.Rings.{both_of, blank, emptied};

    ghost both = { both_of };

    ghost spent = { emptied blank };
}

/// A reader is cut off, that has seen all that is published.
pub struct NewReader;

impl Split<RingView> for NewReader {
    ghost use Rattle.zp_ring.specs.Rings.{newcomer};

    ghost left = { λ v. v };

    ghost right = { newcomer };
}

/// A word of the next entry is written.
pub struct WriteWord;

impl Play<(), RingView> for WriteWord {
    ghost use Rattle.zp_ring.specs.Rings.{Writes};

    ghost then = { Writes };
}

/// The next entry is opened.
pub struct OpenEntry;

impl Play<(), RingView> for OpenEntry {
    ghost use Rattle.zp_ring.specs.Rings.{Opens};

    ghost then = { Opens };
}

/// The place is looked at.
pub struct LookAtPlace<const W: usize, const S: usize>;

impl<const W: usize, const S: usize> Play<(), RingView> for LookAtPlace<W, S> {
    ghost use Rattle.zp_ring.specs.Rings.{Looks};

    ghost then = { Looks W S };
}

/// A word of the entry that is looked for is fetched.
pub struct FetchWord;

impl Play<(), RingView> for FetchWord {
    ghost use Rattle.zp_ring.specs.Rings.{Fetches};

    ghost then = { Fetches };
}

/// A word is found by the seat that stores.
pub struct FindWord<const W: usize, const S: usize>;

impl<const W: usize, const S: usize> Play<(), RingView> for FindWord<W, S> {
    ghost use Rattle.zp_ring.specs.Rings.{Finds};

    ghost then = { Finds W S };
}

pub(crate) type Row<const W: usize, const S: usize> = Table<
    (),
    RingView,
    (),
    Turning<W, S>,
    Global,
>;

pub(crate) type Pin = Seat<(), RingView>;
