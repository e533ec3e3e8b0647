//! The keeper of the whole, and the tokens of the workers.
ghost use Rattle.std.specs.Prelude.{◌≡◌, ◌+◌, IfOk};
ghost use Rattle.zp_tie.specs.Ties.{Agrees, OthersStay};

use crate::word::{Act, Begin, BothChange, Change, Check, Dealt, Mine, Parted, Pin, Row, Whole};
use std::alloc::{AllocError, Global};
use std::marker::{Brand, Model};

/// It keeps a whole `X`, of which each worker has a part. Contracts see the whole, the identity of its tie, and how many tokens
/// were dealt.
#[derive(Drop)]
pub struct Keeper<X, Y, P: Parted<X, Y>> {
    row: Row<X, Y, P>,
    pin: Pin<X, Y>,
}

impl<X, Y, P: Parted<X, Y>> Model for Keeper<X, Y, P> {
    ghost use Rattle.std.specs.Prelude.{◌≡◌, true, false, []};
    ghost use Rattle.zp_tie.specs.Ties.{Kept};

    ghost Value = { Kept X };

    ghost view = { λ k. record { tie = k.pin.table_id; whole = k.pin.me.0.whole; dealt = k.pin.me.0.dealt } };

    ghost invariant = { λ k. (k.row.shared.table_id ≡ k.pin.table_id) × (k.row.shared.table_id.words ≡ 1) × (k.pin.me.1 ≡ []) × (k.pin.me.0.keeps ≡ true) × (k.pin.me.0.holds ≡ false) };
}

/// One worker's part of a whole. It cannot be copied. Contracts see the part, its worker, and the identity of its tie.
#[derive(Drop)]
pub struct Token<X, Y> {
    pin: Pin<X, Y>,
}

impl<X, Y> Model for Token<X, Y> {
    ghost use Rattle.std.specs.Prelude.{◌≡◌, true, false, []};
    ghost use Rattle.zp_tie.specs.Ties.{Held};

    ghost Value = { Held Y };

    ghost view = { λ t. record { tie = t.pin.table_id; worker = t.pin.me.0.worker; mine = t.pin.me.0.mine } };

    ghost invariant = { λ t. (t.pin.me.1 ≡ []) × (t.pin.me.0.holds ≡ true) × (t.pin.me.0.keeps ≡ false) };
}

impl<X, Y, P: Parted<X, Y>> Keeper<X, Y, P> {
    /// A keeper of the whole that all begins with. It takes memory for one word; no later call takes any.
    pub fn new(alloc: Global) -> Result<Keeper<X, Y, P>, AllocError>
        ensures whole { IfOk result (λ k. k.whole ≡ P.start) }
        ensures dealt { IfOk result (λ k. k.dealt ≡ 0) }
    {
        let (row, pin) = Row::<X, Y, P>::of_words(alloc, &[0], &())?;
        Ok(Keeper { row, pin })
    }

    /// Sets the whole, before any token is dealt. The act gets `about`.
    pub fn begin<T, C: Act<X, T>>(&mut self, about: &T)
        requires { self.old.dealt ≡ 0 }
        ensures { self.new ≡ record self.old { whole = C.to 0 about.now self.old.whole } }
    {
        self.set::<T, Brand>(about);
    }

    fn set<T, C: Change<X>>(&mut self, _about: &T)
        requires { self.old.dealt ≡ 0 }
        ensures { self.new ≡ record self.old { whole = C.to self.old.whole } }
    {
        let row = &self.row;
        row.shared.load::<Begin<C>>(&mut self.pin, 0);
    }

    /// The token of the next worker, with its part.
    pub fn deal(&mut self) -> Token<X, Y>
        ensures keeper { self.new ≡ record self.old { dealt = self.old.dealt + 1 } }
        ensures token { result ≡ record { tie = self.old.tie; worker = self.old.dealt; mine = P.part self.old.dealt self.old.whole } }
    {
        let row = &self.row;
        let pin = row.shared.split_seat::<Dealt<P>>(&mut self.pin);
        Token { pin }
    }

    /// Nothing changes, and the caller learns that the two parts agree.
    pub fn check(&mut self, token: &mut Token<X, Y>)
        requires { token.old.tie ≡ self.old.tie }
        ensures keeper { self.new ≡ self.old }
        ensures token { token.new ≡ token.old }
        ensures agrees { Agrees P.part self.old token.old }
    {
        let row = &self.row;
        let part = row.shared.split_seat::<Whole>(&mut token.pin);
        row.shared.join_seat::<Mine<P>>(&mut self.pin, part);
        row.shared.load::<Check<P>>(&mut self.pin, 0);
        token.pin = row.shared.split_seat::<Mine<P>>(&mut self.pin);
    }

    /// Whole and part change in one step. That the parts of other workers stay is the caller's to show, from what it learns:
    /// that the two agreed before.
    pub fn request<T, C: Act<X, T>>(&mut self, token: &mut Token<X, Y>, about: &T)
        requires tie { token.old.tie ≡ self.old.tie }
        requires others { Agrees P.part self.old token.old → OthersStay P.part token.old.worker self.old.whole (C.to token.old.worker about.now self.old.whole) }
        ensures keeper { self.new ≡ record self.old { whole = C.to token.old.worker about.now self.old.whole } }
        ensures token { token.new ≡ record token.old { mine = P.part token.old.worker (C.to token.old.worker about.now self.old.whole) } }
        ensures agreed { Agrees P.part self.old token.old }
    {
        self.turn::<T, Brand>(token, about);
    }

    fn turn<T, C: Change<X>>(&mut self, token: &mut Token<X, Y>, _about: &T)
        requires tie { token.old.tie ≡ self.old.tie }
        requires others { Agrees P.part self.old token.old → OthersStay P.part token.old.worker self.old.whole (C.to self.old.whole) }
        ensures keeper { self.new ≡ record self.old { whole = C.to self.old.whole } }
        ensures token { token.new ≡ record token.old { mine = P.part token.old.worker (C.to self.old.whole) } }
        ensures agreed { Agrees P.part self.old token.old }
    {
        let row = &self.row;
        let part = row.shared.split_seat::<Whole>(&mut token.pin);
        row.shared.join_seat::<Mine<P>>(&mut self.pin, part);
        row.shared.load::<BothChange<P, C>>(&mut self.pin, 0);
        token.pin = row.shared.split_seat::<Mine<P>>(&mut self.pin);
    }
}
