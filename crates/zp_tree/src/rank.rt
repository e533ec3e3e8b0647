//! What a node of the tree of ranks holds.
ghost use Rattle.std.specs.Prelude.{◌≡◌, ◌≤◌, ◌+◌, ◌↔◌, IsTrue, max};
ghost use Rattle.zp_model.specs.declared.constants.TheConstants.{LARGEST_ORDER};
ghost use Rattle.zp_tree.specs.Ranks.{order_ranked};

use std::marker::Model;
use zp_model::Order;

/// The largest order of some blocks, in one byte. Contracts see 0 for no block, and order + 1.
#[derive(Clone, Copy, PartialEq, Eq, Debug, Drop)]
pub struct Rank {
    number: u8,
}

impl Model for Rank {
    ghost use Rattle.std.specs.Prelude.{ℕ, ◌≤◌, ◌+◌};
    ghost use Rattle.zp_model.specs.declared.constants.TheConstants.{LARGEST_ORDER};

    ghost Value = { ℕ };

    ghost view = { λ r. r.number };

    ghost invariant = { λ r. r.number ≤ LARGEST_ORDER + 1 };

    ghost inverse = { λ n. record { number = n } };
}

impl Rank {
    /// The rank of no block.
    pub const fn none() -> Rank
        ensures { result ≡ 0 }
    {
        Rank { number: 0 }
    }

    /// The rank of a block of this order.
    pub const fn of(order: Order) -> Rank
        ensures { result ≡ order + 1 }
    {
        Rank {
            number: order.number() + 1,
        }
    }

    /// The rank of a block of the order of this number.
    pub const fn of_number(order: u8) -> Rank
        requires { order ≤ LARGEST_ORDER }
        ensures { result ≡ order + 1 }
    {
        Rank { number: order + 1 }
    }

    pub const fn number(self) -> u8
        ensures same { result ≡ self }
        ensures within { result ≤ LARGEST_ORDER + 1 }
    {
        self.number
    }

    /// The order, where there is a block.
    pub const fn order(self) -> Option<Order>
        ensures { result ≡ order_ranked self }
    {
        if self.number == 0 {
            None
        } else {
            Order::new(self.number - 1)
        }
    }

    /// Whether its block is as large as the other's, or larger.
    pub const fn is_at_least(self, other: Rank) -> bool
        ensures { IsTrue result ↔ (other ≤ self) }
    {
        other.number <= self.number
    }

    /// The rank of its blocks and the other's together.
    pub const fn with(self, other: Rank) -> Rank
        ensures { result ≡ max self other }
    {
        if self.is_at_least(other) { self } else { other }
    }
}
