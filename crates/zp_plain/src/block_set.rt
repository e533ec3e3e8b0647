//! Sets of blocks: what `BlockSet.antt` says of the maximal ones, page by page, and of those outside isolated pageblocks.
ghost use Rattle.std.specs.Prelude.{◌≡◌, ◌≤◌, ◌<◌, ◌+◌, ◌*◌, ◌^◌, leb, length, slice_index_or, None};
ghost use Rattle.std.specs.List.{find};
ghost use Rattle.zp_model.specs.declared.constants.TheConstants.{MAX_PAGES};
ghost use Rattle.zp_plain.specs.declared.room.TheConstants.{PLAIN_PAGES};
ghost use Rattle.zp_model.specs.Area.{available_blocks, pageblock_pages, pageblocks_of};
ghost use Rattle.zp_model.specs.Block.{is_max};
ghost use Rattle.zp_model.specs.BlockSet.{block_if, larger, largest_in, lowest, max_blocks, order_of, orders_from};

use crate::area::is_isolated;
use crate::block::is_max;
use zp_model::{Largest, Order, PageAt, PageblockType};

/// The order of the maximal block that a page heads, if it heads one.
pub fn block_at(largest: Largest, free: &[bool], head: PageAt) -> Option<Order>
    ensures { result ≡ find (is_max largest free.now head) (orders_from largest 0) }
{
    'orders: for number in 0..=largest.number() {
        let order = Order::at(number);
        if is_max(largest, free, head, order) {
            return Some(order);
        }
    }
    None
}

/// The same where the page lies in no isolated pageblock.
fn available_block_at(
    largest: Largest,
    free: &[bool],
    kinds: &[PageblockType],
    head: PageAt,
) -> Option<Order>
    requires head { head < length free.now }
    requires typed { length kinds.now ≡ pageblocks_of largest (length free.now) }
    ensures { result ≡ slice_index_or (available_blocks largest kinds.now (max_blocks largest free.now)) head None }
{
    if is_isolated(largest, kinds, head) {
        None
    } else {
        block_at(largest, free, head)
    }
}

/// The block of a page, if it heads one, where it has this order or more.
fn block_if(head: PageAt, block: Option<Order>, order: Order) -> Option<(PageAt, Order)>
    ensures { result ≡ block_if (λ g j. leb order j) head block }
{
    match block {
        None => None,
        Some(found) => {
            if order.number() <= found.number() {
                Some((head, found))
            } else {
                None
            }
        }
    }
}

/// The maximal block of this order or more with the least head, outside isolated pageblocks.
pub fn lowest(
    largest: Largest,
    free: &[bool],
    kinds: &[PageblockType],
    order: Order,
) -> Option<(PageAt, Order)>
    requires small { length free.now ≤ PLAIN_PAGES }
    requires typed { length kinds.now ≡ pageblocks_of largest (length free.now) }
    ensures { result ≡ lowest (available_blocks largest kinds.now (max_blocks largest free.now)) order }
{
    'pages: for i in 0..free.len() {
        let head = PageAt::at(i as u32);
        let block = available_block_at(largest, free, kinds, head);
        if let Some(found) = block_if(head, block, order) {
            return Some(found);
        }
    }
    None
}

/// The larger of two orders, where there are any.
fn larger(one: Option<Order>, other: Option<Order>) -> Option<Order>
    ensures { result ≡ larger one other }
{
    match one {
        None => other,
        Some(order) => match other {
            None => Some(order),
            Some(found) => Some(Order::at(order.number().max(found.number()))),
        },
    }
}

/// The order of the maximal block that a page heads, if the zone has the page and it heads one.
fn max_block_at(largest: Largest, free: &[bool], page: usize) -> Option<Order>
    requires { length free.now ≤ PLAIN_PAGES }
    ensures { result ≡ slice_index_or (max_blocks largest free.now) page None }
{
    if page < free.len() {
        block_at(largest, free, PageAt::at(page as u32))
    } else {
        None
    }
}

/// The order of a page's block, if it heads one, where the block has no page from `end` on.
fn order_before(page: usize, block: Option<Order>, end: usize) -> Option<Order>
    requires { page < end }
    ensures { result ≡ order_of (block_if (λ g j. leb (g + 2 ^ j) end) page block) }
{
    match block {
        None => None,
        Some(order) => {
            if order.pages() as usize <= end - page {
                Some(order)
            } else {
                None
            }
        }
    }
}

/// The order of the largest maximal block in a pageblock.
pub fn largest_in(largest: Largest, free: &[bool], pageblock: usize) -> Option<Order>
    requires small { length free.now ≤ PLAIN_PAGES }
    requires pageblock { pageblock < MAX_PAGES }
    ensures { result ≡ largest_in (max_blocks largest free.now) (pageblock * pageblock_pages largest) largest }
{
    let length = largest.pageblock_pages() as usize;
    let first = pageblock * length;
    let end = first + length;
    let mut found = None;
    let mut left = end;
    'pages: while left > first {
        left -= 1;
        let block = max_block_at(largest, free, left);
        found = larger(order_before(left, block, end), found);
    }
    found
}
