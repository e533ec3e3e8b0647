//! The numbers of the free lists.
//!
//! In Linux: `free_area[order].free_list[migratetype]`.
ghost use Rattle.std.specs.Prelude.{ℕ, ◌≡◌, ◌<◌, ◌≤◌};
ghost use Rattle.zp_model.specs.Area.{list_number, lists_count};

use zp_model::{Order, PAGEBLOCK_TYPES, PageblockType};

/// The number of the free list of an order and a type.
pub fn list_of(order: Order, kind: PageblockType) -> usize
    ensures number { result ≡ list_number order kind }
    ensures within { (m : ℕ) → order ≤ m → result < lists_count m }
{
    PAGEBLOCK_TYPES * usize::from(order.number()) + kind.number()
}
