//! Counts that contracts alone see.
ghost use Rattle.std.specs.Prelude.{◌≡◌, ◌<◌, ◌+◌};

use std::marker::Model;
use std::sync::ledger::{Blank, Book, Ledger, Share};

/// How often a device has failed. The number has no last value, and no code sees it.
#[derive(Drop)]
pub struct Failures<L: Ledger> {
    all: Book<L>,
    mine: Share<L>,
}

impl<L: Ledger> Model for Failures<L> {
    ghost use Rattle.std.specs.Prelude.{ℕ, ◌<◌};

    ghost Value = { ℕ };

    ghost view = { λ f. f.all.total };

    ghost invariant = { λ f. 0 < f.mine.parts };
}

impl<L: Ledger> Failures<L> {
    /// None so far, on a ledger of its own.
    pub fn new(blank: Blank) -> Failures<L>
        requires name { blank.name ≡ L.name }
        requires parts { blank.parts ≡ L.parts }
        requires some { 0 < blank.parts }
        ensures { result ≡ 0 }
    {
        let (all, mine) = blank.open::<L>();
        Failures { all, mine }
    }

    /// One more.
    pub fn add(&mut self)
        ensures { self.new ≡ self.old + 1 }
    {
        self.all.add(&mut self.mine, 1);
    }
}
