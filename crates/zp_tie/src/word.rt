//! The word that a keeper and its tokens step on, and its rule.
use atomic_table::{Join, Play, Seat, Split, Table, TableRule};
use std::alloc::Global;
use std::marker::{Brand, PhantomData};

/// What the part of a worker is.
pub trait Parted<X, Y> {
    ghost use Rattle.std.specs.Prelude.{ℕ};

    ghost start: { X };

    ghost part: { ℕ → X → Y };
}

/// What becomes of the whole when a worker makes a request. T is what the request is about.
pub trait Act<X, T> {
    ghost use Rattle.std.specs.Prelude.{ℕ};

    ghost to: { ℕ → T → X → X };
}

/// What becomes of the whole in one step. Each call picks it.
pub trait Change<X> {
    ghost to: { X → X };
}

impl<X> Change<X> for Brand {
    ghost to = { λ x. x };
}

/// What a seat of the row knows. No value of it is made.
pub struct TieView<X, Y> {
    pub keeps: bool,
    pub whole: X,
    pub dealt: u64,
    pub holds: bool,
    pub worker: u64,
    pub mine: Y,
}

/// The rule of the row.
pub struct Tied<P> {
    of: PhantomData<P>,
}

impl<X, Y, P: Parted<X, Y>> TableRule<(), TieView<X, Y>, ()> for Tied<P> {
    ghost use Rattle.zp_tie.specs.Ties.{IsTied, keeper_view};

    ghost holds = { λ _. IsTied P.part };

    ghost first = { λ _. keeper_view P.part P.start };
}

/// The next worker's part is cut off.
pub struct Dealt<P> {
    of: PhantomData<P>,
}

impl<X, Y, P: Parted<X, Y>> Split<TieView<X, Y>> for Dealt<P> {
    ghost use Rattle.zp_tie.specs.Ties.{dealt_left, dealt_right};

    ghost left = { dealt_left };

    ghost right = { dealt_right P.part };
}

/// All that a seat knows is cut off.
pub struct Whole;

impl<X, Y> Split<TieView<X, Y>> for Whole {
    ghost use Rattle.zp_tie.specs.Ties.{emptied};

    ghost left = { emptied };

    ghost right = { λ v. v };
}

/// The worker's part is cut off, or taken in.
pub struct Mine<P> {
    of: PhantomData<P>,
}

impl<X, Y, P: Parted<X, Y>> Split<TieView<X, Y>> for Mine<P> {
    ghost use Rattle.zp_tie.specs.Ties.{kept_only, held_only};

    ghost left = { kept_only };

    ghost right = { held_only };
}

impl<X, Y, P: Parted<X, Y>> Join<TieView<X, Y>> for Mine<P> {
    ghost use Rattle.zp_tie.specs.Ties.{both_of, nobody};

    ghost both = { both_of };

    ghost spent = { nobody P.part P.start };
}

/// Both parts change.
pub struct BothChange<P, C> {
    of: PhantomData<(P, C)>,
}

impl<X, Y, P: Parted<X, Y>, C: Change<X>> Play<(), TieView<X, Y>> for BothChange<P, C> {
    ghost use Rattle.zp_tie.specs.Ties.{Requests};

    ghost then = { Requests P.part C.to };
}

/// The whole is set, before any part of it is dealt.
pub struct Begin<C> {
    of: PhantomData<C>,
}

impl<X, Y, C: Change<X>> Play<(), TieView<X, Y>> for Begin<C> {
    ghost use Rattle.zp_tie.specs.Ties.{Sets};

    ghost then = { Sets C.to };
}

/// Nothing changes, and the two parts agree.
pub struct Check<P> {
    of: PhantomData<P>,
}

impl<X, Y, P: Parted<X, Y>> Play<(), TieView<X, Y>> for Check<P> {
    ghost use Rattle.zp_tie.specs.Ties.{Checks};

    ghost then = { Checks P.part };
}

pub(crate) type Row<X, Y, P> = Table<(), TieView<X, Y>, (), Tied<P>, Global>;

pub(crate) type Pin<X, Y> = Seat<(), TieView<X, Y>>;
