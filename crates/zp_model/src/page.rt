//! Page numbers, counted from a zone's base and absolute.
//!
//! In Linux: a page frame number, `pfn`, and `__find_buddy_pfn`.
ghost use Rattle.std.specs.Prelude.{◌≡◌, ◌<◌, ◌≤◌, ◌+◌, ◌-◌, ◌/◌, ◌%◌, ◌^◌, ℕ, min, IfSome, IsSome, ◌↔◌};
ghost use Rattle.zp_model.specs.Block.{head, IsBuddy};

use crate::Order;
use crate::constants::MAX_PAGES;
use std::marker::Model;

/// A page, counted from the zone's base: 0 to 16,777,215.
#[derive(Clone, Copy, PartialEq, Eq, Debug, Drop)]
pub struct PageAt {
    number: u32,
}

impl Model for PageAt {
    ghost use Rattle.std.specs.Prelude.{ℕ, ◌<◌};
    ghost use Rattle.zp_model.specs.declared.constants.TheConstants.{MAX_PAGES};

    ghost Value = { ℕ };

    ghost view = { λ p. p.number };

    ghost invariant = { λ p. p.number < MAX_PAGES };

    ghost inverse = { λ n. record { number = n } };
}

impl PageAt {
    /// The page of this number, where a zone can have one.
    pub const fn new(number: u32) -> Option<PageAt>
        ensures some { IfSome result (λ p. p ≡ number) }
        ensures when { IsSome result ↔ (number < MAX_PAGES) }
    {
        if number < MAX_PAGES {
            Some(PageAt { number })
        } else {
            None
        }
    }

    /// The page of this number.
    pub const fn at(number: u32) -> PageAt
        requires { number < MAX_PAGES }
        ensures { result ≡ number }
    {
        PageAt { number }
    }

    pub const fn number(self) -> u32
        ensures same { result ≡ self }
        ensures within { result < MAX_PAGES }
    {
        self.number
    }

    /// The page's place in a table with an entry a page.
    pub const fn index(self) -> usize
        ensures same { result ≡ self }
        ensures within { result < MAX_PAGES }
    {
        self.number as usize
    }

    /// The head of the aligned run of this order that the page lies in.
    pub const fn head(self, order: Order) -> PageAt
        ensures { result ≡ head self order }
    {
        PageAt::at(self.number() / order.pages() * order.pages())
    }

    /// The head of the other half of the double of the run of this order that begins here.
    pub const fn buddy(self, order: Order) -> PageAt
        requires { self % 2 ^ order ≡ 0 }
        ensures { IsBuddy self order result (min self result) }
    {
        // up from the low half, down from the high one: no branch, as which of them it is, is random under load
        PageAt::at(self.number() ^ order.pages())
    }
}

/// An absolute page number.
#[derive(Clone, Copy, PartialEq, Eq, Default, Debug, Drop)]
pub struct PageNo {
    number: u32,
}

impl Model for PageNo {
    ghost use Rattle.std.specs.Prelude.{ℕ};

    ghost Value = { ℕ };

    ghost view = { λ p. p.number };

    ghost inverse = { λ n. record { number = n } };
}

impl PageNo {
    pub const fn new(number: u32) -> PageNo
        ensures { result ≡ number }
    {
        PageNo { number }
    }

    pub const fn number(self) -> u32
        ensures same { result ≡ self }
        ensures within { result < 2 ^ 32 }
    {
        let PageNo { number } = self;
        number
    }
}
