//! Free lists and what settling makes of them: what `Area.antt` says, list by list.
ghost use Rattle.std.specs.Prelude.{◌≡◌, ◌<◌, ◌≤◌, ◌==◌, ◌&&◌, ◌/◌, ℕ, true, not, [], ◌++◌, length, filter};
ghost use Rattle.std.specs.List.{IsDistinct};
ghost use Rattle.zp_model.specs.declared.constants.TheConstants.{MAX_PAGES};
ghost use Rattle.zp_plain.specs.declared.room.TheConstants.{PLAIN_PAGES};
ghost use Rattle.zp_model.specs.Block.{has, size};
ghost use Rattle.zp_model.specs.Rows.{stands_in};
ghost use Rattle.zp_model.specs.Area.{Area, belongs, falling, available, is_isolated, kind_at, list_number, lists_count, pageblock_pages, pageblocks_of, settle, settled, size_in};
ghost use Rattle.zp_plain.specs.Sound.{IsTable};

use crate::block::{has, is_max, order_of};
use crate::page_row::PageRow;
use crate::room::PLAIN_PAGES;
use std::mem;
use zp_model::{Largest, Order, PAGEBLOCK_TYPES, PageAt, PageblockType};

/// The number of the free list of an order and a type.
pub fn list_of(order: Order, kind: PageblockType) -> usize
    ensures { result ≡ list_number order kind }
{
    PAGEBLOCK_TYPES * order.index() + kind.number()
}

/// The type of a page's pageblock.
pub fn kind_at(largest: Largest, kinds: &[PageblockType], head: PageAt) -> PageblockType
    requires { head / pageblock_pages largest < length kinds.now }
    ensures { result ≡ kind_at largest kinds.now head }
{
    kinds[largest.pageblock_of(head)]
}

/// Whether a page lies in an isolated pageblock.
pub fn is_isolated(largest: Largest, kinds: &[PageblockType], head: PageAt) -> bool
    requires { head / pageblock_pages largest < length kinds.now }
    ensures { result ≡ is_isolated largest kinds.now head }
{
    kind_at(largest, kinds, head).is_isolate()
}

/// Whether a page belongs on a list.
#[tactic(auto, unfolding(zp_model::specs::Area::belongs))]
fn belongs(
    largest: Largest,
    free: &[bool],
    kinds: &[PageblockType],
    list: usize,
    head: PageAt,
) -> bool
    requires head { head < length free.now }
    requires typed { length kinds.now ≡ pageblocks_of largest (length free.now) }
    requires list { list < lists_count largest }
    ensures { result ≡ belongs largest free.now kinds.now list head }
{
    is_max(largest, free, head, order_of(list / PAGEBLOCK_TYPES))
        && kind_at(largest, kinds, head).number() == list % PAGEBLOCK_TYPES
}

/// Whether a page stands on a list.
pub fn stands_in(page: PageAt, pages: &[PageAt]) -> bool
    ensures { result ≡ stands_in page pages.now }
{
    pages.contains(&page)
}

/// Whether a page belongs on a list and is not on the old one.
fn is_fresh(
    largest: Largest,
    free: &[bool],
    kinds: &[PageblockType],
    list: usize,
    old: &[PageAt],
    head: PageAt,
) -> bool
    requires small { length free.now ≤ PLAIN_PAGES }
    requires head { head < length free.now }
    requires typed { length kinds.now ≡ pageblocks_of largest (length free.now) }
    requires list { list < lists_count largest }
    ensures { result ≡ (belongs largest free.now kinds.now list head && not (stands_in head old.now)) }
{
    belongs(largest, free, kinds, list, head) && !stands_in(head, old)
}

/// Puts the heads that belong on a list and are not on the old one onto an empty list, the highest first.
fn put_fresh(
    largest: Largest,
    free: &[bool],
    kinds: &[PageblockType],
    list: usize,
    old: &[PageAt],
    new: &mut PageRow,
)
    requires small { length free.now ≤ PLAIN_PAGES }
    requires typed { length kinds.now ≡ pageblocks_of largest (length free.now) }
    requires list { list < lists_count largest }
    requires empty { new.old ≡ [] }
    ensures { new.new ≡ filter (λ h. belongs largest free.now kinds.now list h && not (stands_in h old.now)) (falling (length free.now)) }
{
    let mut left = free.len();
    'fresh: while left > 0 {
        left -= 1;
        let head = PageAt::at(left as u32);
        if is_fresh(largest, free, kinds, list, old, head) {
            new.push(head);
        }
    }
}

/// Puts those of the old heads that still belong on a list behind the fresh ones, in their old order.
fn put_kept(
    largest: Largest,
    free: &[bool],
    kinds: &[PageblockType],
    list: usize,
    old: &[PageAt],
    new: &mut PageRow,
)
    requires typed { length kinds.now ≡ pageblocks_of largest (length free.now) }
    requires list { list < lists_count largest }
    requires inside { (p : ℕ) → stands_in p old.now ≡ true → p < length free.now }
    requires room { length (new.old ++ filter (belongs largest free.now kinds.now list) old.now) ≤ PLAIN_PAGES }
    ensures { new.new ≡ new.old ++ filter (belongs largest free.now kinds.now list) old.now }
{
    'kept: for head in old {
        if belongs(largest, free, kinds, list, *head) {
            new.push(*head);
        }
    }
}

/// Writes a list, settled: first the heads that belong and are not on the old one, the highest first, then those of the old
/// ones that still belong, in their old order.
fn settle_list(
    largest: Largest,
    free: &[bool],
    kinds: &[PageblockType],
    list: usize,
    old: &[PageAt],
    new: &mut PageRow,
)
    requires small { length free.now ≤ PLAIN_PAGES }
    requires typed { length kinds.now ≡ pageblocks_of largest (length free.now) }
    requires list { list < lists_count largest }
    requires distinct { IsDistinct (λ x y. x == y) old.now }
    requires inside { (p : ℕ) → stands_in p old.now ≡ true → p < length free.now }
    requires empty { new.old ≡ [] }
    ensures { new.new ≡ settled largest free.now kinds.now list old.now }
{
    put_fresh(largest, free, kinds, list, old, new);
    put_kept(largest, free, kinds, list, old, new);
}

/// Settles the lists.
pub fn settle(
    largest: Largest,
    free: &[bool],
    kinds: &[PageblockType],
    lists: &mut Vec<PageRow>,
    scratch: &mut PageRow,
)
    requires { IsTable largest free.now kinds.now lists.old.items }
    ensures { lists.new.items ≡ (settle (record { largest = largest; free = free.now; kinds = kinds.now; lists = lists.old.items })).lists }
{
    'lists: for list in 0..largest.lists() {
        scratch.clear();
        settle_list(largest, free, kinds, list, lists[list].as_slice(), scratch);
        mem::swap(&mut lists[list], scratch);
    }
}

/// How many pages of a pageblock are in the set.
pub fn size_in(largest: Largest, set: &[bool], pageblock: usize) -> u32
    requires { pageblock < MAX_PAGES }
    ensures { result ≡ size_in largest set.now pageblock }
{
    let length = largest.pageblock_pages() as usize;
    let first = pageblock * length;
    let mut pages = 0;
    'pages: for i in first..first + length {
        if has(set, i) {
            pages += 1;
        }
    }
    pages
}

/// Whether a page of the zone is in the set, outside isolated pageblocks.
fn is_available(largest: Largest, set: &[bool], kinds: &[PageblockType], page: PageAt) -> bool
    requires page { page < length set.now }
    requires typed { length kinds.now ≡ pageblocks_of largest (length set.now) }
    ensures { result ≡ (has set.now page && not (is_isolated largest kinds.now page)) }
{
    has(set, page.index()) && !is_isolated(largest, kinds, page)
}

/// How many pages of the set lie outside isolated pageblocks.
pub fn available_size(largest: Largest, set: &[bool], kinds: &[PageblockType]) -> u32
    requires small { length set.now ≤ PLAIN_PAGES }
    requires typed { length kinds.now ≡ pageblocks_of largest (length set.now) }
    ensures { result ≡ size (available largest kinds.now set.now) }
{
    let mut pages = 0;
    'pages: for i in 0..set.len() {
        if is_available(largest, set, kinds, PageAt::at(i as u32)) {
            pages += 1;
        }
    }
    pages
}
