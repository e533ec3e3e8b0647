//! Orders of blocks.
//!
//! In Linux: the `order` of `alloc_pages`.
ghost use Rattle.std.specs.Prelude.{◌≡◌, ◌≤◌, ◌<◌, ◌^◌, ◌+◌, ℕ, IfSome, IsSome, ◌↔◌};

use crate::constants::{LARGEST_BLOCK_PAGES, LARGEST_ORDER};
use std::marker::Model;

/// The order of a block, which has 2 to the order pages: 0 to `LARGEST_ORDER`.
#[derive(Clone, Copy, PartialEq, Eq, Debug, Drop)]
pub struct Order {
    number: u8,
}

impl Model for Order {
    ghost use Rattle.std.specs.Prelude.{ℕ, ◌≤◌};
    ghost use Rattle.zp_model.specs.declared.constants.TheConstants.{LARGEST_ORDER};

    ghost Value = { ℕ };

    ghost view = { λ o. o.number };

    ghost invariant = { λ o. o.number ≤ LARGEST_ORDER };

    ghost inverse = { λ n. record { number = n } };
}

impl Order {
    /// Order 0, of a block of one page.
    pub const fn zero() -> Order
        ensures { result ≡ 0 }
    {
        Order { number: 0 }
    }

    /// The order of the largest block.
    pub const fn largest() -> Order
        ensures { result ≡ LARGEST_ORDER }
    {
        Order {
            number: LARGEST_ORDER,
        }
    }

    /// The order of this number, where there is one.
    pub const fn new(n: u8) -> Option<Order>
        ensures some { IfSome result (λ o. o ≡ n) }
        ensures when { IsSome result ↔ (n ≤ LARGEST_ORDER) }
    {
        if n <= LARGEST_ORDER {
            Some(Order { number: n })
        } else {
            None
        }
    }

    /// The order of this number.
    pub const fn at(number: u8) -> Order
        requires { number ≤ LARGEST_ORDER }
        ensures { result ≡ number }
    {
        Order { number }
    }

    pub const fn number(self) -> u8
        ensures same { result ≡ self }
        ensures within { result ≤ LARGEST_ORDER }
    {
        self.number
    }

    /// The order's place in a table with an entry an order.
    pub const fn index(self) -> usize
        ensures same { result ≡ self }
        ensures within { result ≤ LARGEST_ORDER }
    {
        self.number as usize
    }

    /// The order of its halves.
    pub const fn lower(self) -> Order
        requires { 0 < self }
        ensures { result + 1 ≡ self }
    {
        Order {
            number: self.number - 1,
        }
    }

    /// The order of its double.
    pub const fn higher(self) -> Order
        requires { self < LARGEST_ORDER }
        ensures { result ≡ self + 1 }
    {
        Order {
            number: self.number + 1,
        }
    }

    /// How many pages a block of this order has.
    pub const fn pages(self) -> u32
        ensures pages { result ≡ 2 ^ self }
        ensures within { result ≤ LARGEST_BLOCK_PAGES }
    {
        1 << self.number
    }
}
