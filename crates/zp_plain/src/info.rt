//! Counts of free blocks: what `Info.antt` says.
ghost use Rattle.std.specs.Prelude.{◌≡◌, ◌≤◌, length};
ghost use Rattle.zp_plain.specs.declared.room.TheConstants.{PLAIN_PAGES};
ghost use Rattle.zp_model.specs.Info.{blocks_of_order, counts_of};

use crate::block::{is_max, order_of, size};
use zp_model::{Counts, Largest, ORDERS, Order, PageAt};

/// How many maximal blocks of this order the set has.
fn blocks_of_order(largest: Largest, set: &[bool], order: Order) -> u32
    requires { length set.now ≤ PLAIN_PAGES }
    ensures { result ≡ blocks_of_order largest set.now order }
{
    let mut blocks = 0;
    'heads: for i in 0..set.len() {
        if is_max(largest, set, PageAt::at(i as u32), order) {
            blocks += 1;
        }
    }
    blocks
}

/// How many maximal blocks of each order the free pages have, none above the largest, and how many free pages there are.
pub fn counts(largest: Largest, free: &[bool]) -> Counts
    requires { length free.now ≤ PLAIN_PAGES }
    ensures { result ≡ counts_of largest free.now }
{
    let mut by_order = [0u32; ORDERS];
    'orders: for k in 0..ORDERS {
        by_order[k] = blocks_of_order(largest, free, order_of(k));
    }
    Counts {
        by_order,
        free: size(free),
    }
}
