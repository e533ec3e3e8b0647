//! What a page is to a share, in one byte.
ghost use Rattle.std.specs.Prelude.{ℕ, ◌≡◌, ◌≤◌, ◌+◌, ◌*◌, ◌↔◌, IfNone, IfSome, IsSome, IsTrue, false, true};
ghost use Rattle.zp_model.specs.MigrateType.{type_number};
ghost use Rattle.zp_share.specs.PageUses.{is_lent_as};
ghost use Rattle.zp_share.specs.PlainShares.{lent_kind};
ghost use Rattle.zp_share.specs.declared.packed_use.TheConstants.{CACHED, TYPE_ROOM};

use crate::page_use::PageUse;
use std::marker::Model;
use zp_model::{LARGEST_ORDER, MigrateType, Order};

/// How many types the low bits have room for. It is a power of two, so that a shift gives what stands above them.
pub const TYPE_ROOM: u8 = 4;

/// What stands above the type of a cached page. Above that of a lent block stands one more than its order, and 0 is no
/// block of the share.
pub const CACHED: u8 = LARGEST_ORDER + 2;

/// A page's use in one byte, which is 0 where no block of the share starts at the page.
#[derive(Clone, Copy, Drop)]
pub struct PackedUse {
    byte: u8,
}

impl Model for PackedUse {
    ghost use Rattle.zp_share.specs.declared.page_use.PageUse.{PageUse};
    ghost use Rattle.zp_share.specs.PackedUse.{IsPackedUse, packed_use, unpacked_use};

    ghost Value = { PageUse };

    ghost view = { λ u. unpacked_use u.byte };

    ghost invariant = { λ u. IsPackedUse u.byte };

    ghost inverse = { λ v. record { byte = packed_use v } };

    ghost inverse_ok = { λ u h i. record { byte = h i } };
}

impl PackedUse {
    #[inline(always)]
    pub fn new(used: PageUse) -> PackedUse
        ensures { result ≡ used }
    {
        let byte = match used {
            PageUse::Away => 0,
            PageUse::Lent(order, kind) => byte_of(order.number() + 1, kind),
            PageUse::Cached(kind) => byte_of(CACHED, kind),
        };
        PackedUse { byte }
    }

    /// Whether a block of this order is lent. What stands above the type is compared, and nothing is unpacked.
    #[inline(always)]
    pub fn is_lent(self, order: Order) -> bool
        ensures { result ≡ is_lent_as order self }
    {
        self.byte / TYPE_ROOM == order.number() + 1
    }

    /// The order of the block, where one is lent.
    #[inline(always)]
    pub fn lent_order(self) -> Option<Order>
        ensures some { IfSome result (λ o. is_lent_as o self ≡ true) }
        ensures none { IfNone result ((k : ℕ) → is_lent_as k self ≡ false) }
    {
        // what wraps is above all orders: one test for both ends
        let number = (self.byte / TYPE_ROOM).wrapping_sub(1);
        if number > LARGEST_ORDER {
            return None;
        }
        Some(Order::at(number))
    }

    /// The type of the block, where it is lent with this order.
    #[inline(always)]
    pub fn lent_kind(self, order: Order) -> Option<MigrateType>
        ensures kind { result ≡ lent_kind self order }
        ensures lent { IsSome result ↔ IsTrue (is_lent_as order self) }
    {
        // most blocks are movable: that is the first test
        if self.byte == byte_of(order.number() + 1, MigrateType::Movable) {
            return Some(MigrateType::Movable);
        }
        // the bytes of blocks that are lent with one order stand in a row, by their types
        let above = self
            .byte
            .wrapping_sub(byte_of(order.number() + 1, MigrateType::Unmovable));
        if above > 1 {
            None
        } else if above == 0 {
            Some(MigrateType::Unmovable)
        } else {
            Some(MigrateType::Reclaimable)
        }
    }
}

/// The byte with this above the type.
#[inline(always)]
fn byte_of(what: u8, kind: MigrateType) -> u8
    requires { what ≤ CACHED }
    ensures { result ≡ what * TYPE_ROOM + type_number kind }
{
    what * TYPE_ROOM + kind.number() as u8
}
