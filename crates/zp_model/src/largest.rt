//! The largest order of a zone.
//!
//! In Linux: `MAX_PAGE_ORDER` and `pageblock_order`, which are fixed when the kernel is built.
ghost use Rattle.std.specs.Prelude.{◌≡◌, ◌≤◌, ◌*◌, ◌/◌, ◌↔◌, IfSome, IsSome};
ghost use Rattle.zp_model.specs.declared.constants.TheConstants.{LARGEST_BLOCK_PAGES, LARGEST_ORDER, MAX_PAGES, ORDERS, PAGEBLOCK_TYPES};
ghost use Rattle.zp_model.specs.Area.{lists_count, pageblock_pages, pageblocks_of};
ghost use Rattle.zp_model.specs.Bounds.{IsLargest};
ghost use Rattle.zp_model.specs.Choose.{claim_pages, least_movable_claim};

use crate::constants::{LARGEST_ORDER, MAX_PAGES, PAGEBLOCK_TYPES};
use crate::{Order, PageAt};
use std::marker::Model;

/// The order of the largest block of a zone, and of its pageblocks: 1 to `LARGEST_ORDER`.
#[derive(Clone, Copy, PartialEq, Eq, Debug, Drop)]
pub struct Largest {
    number: u8,
}

impl Model for Largest {
    ghost use Rattle.std.specs.Prelude.{ℕ};
    ghost use Rattle.zp_model.specs.Bounds.{IsLargest};

    ghost Value = { ℕ };

    ghost view = { λ m. m.number };

    ghost invariant = { λ m. IsLargest m.number };

    ghost inverse = { λ n. record { number = n } };
}

impl Largest {
    /// The largest order of this number, where a zone can have it.
    pub const fn new(n: u8) -> Option<Largest>
        ensures some { IfSome result (λ m. m ≡ n) }
        ensures when { IsSome result ↔ IsLargest n }
    {
        if 1 <= n && n <= LARGEST_ORDER {
            Some(Largest { number: n })
        } else {
            None
        }
    }

    /// The largest order of a zone for which none is named.
    pub const fn usual() -> Largest
        ensures { result ≡ LARGEST_ORDER }
    {
        Largest {
            number: LARGEST_ORDER,
        }
    }

    pub const fn number(self) -> u8
        ensures same { result ≡ self }
        ensures within { IsLargest result }
    {
        self.number
    }

    /// The order of its blocks.
    pub const fn order(self) -> Order
        ensures { result ≡ self }
    {
        Order::at(self.number)
    }

    /// How many free lists a zone has: one for each order and type of a pageblock.
    pub const fn lists(self) -> usize
        ensures lists { result ≡ lists_count self }
        ensures within { result ≤ PAGEBLOCK_TYPES * ORDERS }
    {
        PAGEBLOCK_TYPES * (self.number as usize + 1)
    }

    /// How many pages a pageblock has, which is as large as the largest block.
    pub const fn pageblock_pages(self) -> u32
        ensures pages { result ≡ pageblock_pages self }
        ensures within { result ≤ LARGEST_BLOCK_PAGES }
    {
        self.order().pages()
    }

    /// How many pageblocks so many pages have. The last one may be short.
    pub fn pageblocks(self, pages: u32) -> usize
        requires { pages ≤ MAX_PAGES }
        ensures { result ≡ pageblocks_of self pages }
    {
        (pages + (self.pageblock_pages() - 1)) as usize / self.pageblock_pages() as usize
    }

    /// The number of the pageblock that a page lies in.
    pub const fn pageblock_of(self, at: PageAt) -> usize
        ensures { result ≡ at / pageblock_pages self }
    {
        (at.number() >> self.number) as usize
    }

    /// The free pages that a pageblock has to have for a claim, half of its pages.
    pub const fn claim_pages(self) -> u32
        ensures { result ≡ claim_pages self }
    {
        1 << (self.number - 1)
    }

    /// The least order of a free block that a Movable request may claim a pageblock by.
    pub const fn least_movable_claim(self) -> u8
        ensures { result ≡ least_movable_claim self }
    {
        self.number / 2
    }
}
