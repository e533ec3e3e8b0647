//! Splitting a block of the set, as one change of what is kept beside the lists.
//!
//! In Linux: `del_page_from_free_list` and `expand`.
ghost use Rattle.std.specs.Prelude.{◌≡◌, ◌≤◌, ◌<◌, ◌+◌, ◌-◌, ◌/◌, ◌^◌, true, false, Some, length, slice_index, slice_set};
ghost use Rattle.zp_model.specs.declared.constants.TheConstants.{LARGEST_ORDER};
ghost use Rattle.zp_model.specs.declared.state.State.TheVariants.{Free, Tail};
ghost use Rattle.zp_model.specs.Rows.{IsLoose, IsOn, front, list_at, with_state};
ghost use Rattle.zp_model.specs.Area.{kind_at, list_number, pageblock_pages};
ghost use Rattle.zp_model.specs.Block.{IsBlock, head};
ghost use Rattle.zp_model.specs.BlockSet.{Starts};
ghost use Rattle.zp_model.specs.RunLaws.{half_beside};
ghost use Rattle.zp_area.specs.Blocks.{block_set, put_in_front, removed, taken_off};
ghost use Rattle.zp_area.specs.Chains.{halves_added, pages_split_off, split_off};
ghost use Rattle.zp_area.specs.Given.{IsClearRun};
ghost use Rattle.zp_area.specs.KeptSets.{set_of};
ghost use Rattle.zp_area.specs.OneSet.{IsKept, IsOneSet};
ghost use Rattle.zp_area.specs.Available.{choosable};
ghost use Rattle.zp_area.specs.Standing.{IsListedBlock};
ghost use Rattle.zp_area.specs.Towards.{split_towards};
ghost use Rattle.zp_model.specs.PageblockType.{is_isolate};

use crate::free_lists::list_of;
use crate::kept_blocks::KeptBlocks;
use crate::listed_block::ListedBlock;
use zp_links::Lists;
use zp_model::{Largest, Order, PAGEBLOCK_TYPES, PageAt, PageblockType, State};
use zp_tree::OrderTree;

/// Notes a block as free, and puts its head in front of its list.
#[inline(always)]
pub fn put_in(lists: &mut Lists, kind: PageblockType, at: PageAt, order: Order)
    requires list { list_number order kind < length lists.old.lists }
    requires page { at < length lists.old.states }
    requires loose { IsLoose lists.old.lists at }
    ensures { lists.new ≡ put_in_front (with_state lists.old at (Free order)) (list_number order kind) at }
{
    lists.push_front_noted(list_of(order, kind), at, State::Free(order));
}

/// Takes the head of a block off its list, which has this number, and notes the block as free no more. Before a front stands nothing, so no
/// link back is read.
#[inline(always)]
pub fn take_out(lists: &mut Lists, list: usize, at: PageAt, is_front: bool)
    requires page { at < length lists.old.states }
    requires on { IsOn lists.old.lists list at }
    requires front { is_front ≡ true → front (list_at lists.old.lists list) ≡ Some at }
    ensures { lists.new ≡ with_state (taken_off lists.old list at) at Tail }
{
    if is_front {
        lists.remove_front_noted(list, at, State::Tail);
    } else {
        lists.remove_noted(list, at, State::Tail);
    }
}

/// Notes the high half of a run, of this order, as free, and puts it in front of its list.
#[inline(always)]
fn put_half(lists: &mut Lists, list: usize, at: PageAt, order: Order, pages: u32)
    requires pages { pages ≡ 2 ^ order }
    requires list { list < length lists.old.lists }
    requires page { at + 2 ^ order < length lists.old.states }
    requires loose { IsLoose lists.old.lists (at + 2 ^ order) }
    ensures { lists.new ≡ put_in_front (with_state lists.old (at + 2 ^ order) (Free order)) list (at + 2 ^ order) }
{
    // a clause of this call says how many pages there can be
    let _pages = lists.pages();
    let high = PageAt::at(at.number() + pages);
    lists.push_front_noted(list, high, State::Free(order));
}

/// Takes a block, in a pageblock of this type, which is not isolated, out of the set whole.
#[inline(always)]
pub fn take_whole(
    blocks: &mut KeptBlocks,
    pageblock: usize,
    kind: PageblockType,
    block: ListedBlock,
)
    requires kept { IsKept blocks.old.largest (set_of blocks.old) blocks.old.free_in.items }
    requires here { pageblock ≡ block.head / pageblock_pages blocks.old.largest }
    requires block { IsListedBlock (set_of blocks.old) kind block }
    requires open { is_isolate kind ≡ false }
    requires told { blocks.old.tree ≡ choosable blocks.old.largest (set_of blocks.old) }
    ensures kept { IsKept blocks.old.largest (record (set_of blocks.old) { rows = blocks.new.lists }) blocks.new.free_in.items }
    ensures told { blocks.new.tree ≡ choosable blocks.old.largest (record (set_of blocks.old) { rows = blocks.new.lists }) }
    ensures stays { (blocks.new.largest ≡ blocks.old.largest) × (blocks.new.kinds ≡ blocks.old.kinds) }
    ensures numbers { blocks.new.free_in.items ≡ slice_set blocks.old.free_in.items pageblock (slice_index blocks.old.free_in.items pageblock - 2 ^ block.order) }
    ensures after { record (set_of blocks.old) { rows = blocks.new.lists } ≡ removed blocks.old.largest (set_of blocks.old) block.head block.order }
{
    let ListedBlock {
        head,
        order,
        list,
        is_front,
    } = block;
    take_out(&mut blocks.lists, list, head, is_front);
    blocks.tree.clear(head, order);
    blocks.free_in[pageblock] -= order.pages();
}

/// Takes a block, in a pageblock of this type, which is not isolated, out of the set, and its high halves down to order `to` into it.
/// The tree changes once, and so does the number of free pages of the pageblock.
#[inline(always)]
pub fn split_off(
    blocks: &mut KeptBlocks,
    pageblock: usize,
    kind: PageblockType,
    block: ListedBlock,
    to: Order,
)
    requires kept { IsKept blocks.old.largest (set_of blocks.old) blocks.old.free_in.items }
    requires here { pageblock ≡ block.head / pageblock_pages blocks.old.largest }
    requires block { IsListedBlock (set_of blocks.old) kind block }
    requires open { is_isolate kind ≡ false }
    requires told { blocks.old.tree ≡ choosable blocks.old.largest (set_of blocks.old) }
    requires down { to < block.order }
    ensures kept { IsKept blocks.old.largest (record (set_of blocks.old) { rows = blocks.new.lists }) blocks.new.free_in.items }
    ensures told { blocks.new.tree ≡ choosable blocks.old.largest (record (set_of blocks.old) { rows = blocks.new.lists }) }
    ensures stays { (blocks.new.largest ≡ blocks.old.largest) × (blocks.new.kinds ≡ blocks.old.kinds) }
    ensures numbers { blocks.new.free_in.items ≡ slice_set blocks.old.free_in.items pageblock (slice_index blocks.old.free_in.items pageblock - 2 ^ to) }
    ensures after { record (set_of blocks.old) { rows = blocks.new.lists } ≡ split_off blocks.old.largest (set_of blocks.old) block.head block.order to }
{
    let ListedBlock {
        head: at,
        order: from,
        list: found_on,
        is_front,
    } = block;
    let KeptBlocks {
        lists,
        tree,
        free_in,
        ..
    } = blocks;
    take_out(lists, found_on, at, is_front);
    tree.split(at, from, to);
    // (the first half stands before the loop: most blocks are halved once; then all is counted down, as a product in the loop costs more)
    let mut order = from.lower();
    let mut pages = order.pages();
    let mut list = found_on - PAGEBLOCK_TYPES;
    put_half(lists, list, at, order, pages);
    'halves: while to.number() < order.number() {
        order = order.lower();
        pages /= 2;
        list -= PAGEBLOCK_TYPES;
        put_half(lists, list, at, order, pages);
    }
    free_in[pageblock] -= to.pages();
}

/// The half of the double of the aligned run of this order around a page in which the page does not lie.
#[inline(always)]
pub fn half_beside(at: PageAt, order: Order) -> PageAt
    ensures { result ≡ half_beside at order }
{
    at.head(order).buddy(order)
}

/// Takes the block of order `from` around a page, in a pageblock of this type, which is not isolated, out of the set, and the halves beside the
/// page down to order `to` into it. The tree changes once, and so does the number of free pages of the pageblock.
#[inline(always)]
pub fn split_towards(
    blocks: &mut KeptBlocks,
    pageblock: usize,
    kind: PageblockType,
    at: PageAt,
    from: Order,
    to: Order,
)
    requires kept { IsKept blocks.old.largest (set_of blocks.old) blocks.old.free_in.items }
    requires here { pageblock ≡ at / pageblock_pages blocks.old.largest }
    requires block { Starts (block_set (set_of blocks.old)) (head at from) from }
    requires typed { kind ≡ kind_at blocks.old.largest blocks.old.kinds.items at }
    requires open { is_isolate kind ≡ false }
    requires told { blocks.old.tree ≡ choosable blocks.old.largest (set_of blocks.old) }
    requires down { to < from }
    ensures kept { IsKept blocks.old.largest (record (set_of blocks.old) { rows = blocks.new.lists }) blocks.new.free_in.items }
    ensures told { blocks.new.tree ≡ choosable blocks.old.largest (record (set_of blocks.old) { rows = blocks.new.lists }) }
    ensures stays { (blocks.new.largest ≡ blocks.old.largest) × (blocks.new.kinds ≡ blocks.old.kinds) }
    ensures numbers { blocks.new.free_in.items ≡ slice_set blocks.old.free_in.items pageblock (slice_index blocks.old.free_in.items pageblock - 2 ^ to) }
    ensures after { record (set_of blocks.old) { rows = blocks.new.lists } ≡ split_towards blocks.old.largest (set_of blocks.old) at from to }
{
    let KeptBlocks {
        lists,
        tree,
        free_in,
        ..
    } = blocks;
    let mut list = list_of(from, kind);
    take_out(lists, list, at.head(from), false);
    tree.split_towards(at, from, to);
    let mut order = from;
    'halves: while to.number() < order.number() {
        order = order.lower();
        list -= PAGEBLOCK_TYPES;
        lists.push_front_noted(list, half_beside(at, order), State::Free(order));
    }
    free_in[pageblock] -= to.pages();
}

/// Puts the high halves of a block that is in no set in front of their lists, those of the orders above `to`, the largest first. The number
/// of the list of order `to`.
#[inline(always)]
fn put_halves(
    blocks: &mut KeptBlocks,
    kind: PageblockType,
    list: usize,
    at: PageAt,
    from: Order,
    to: Order,
) -> usize
    requires one { IsOneSet blocks.old.largest (set_of blocks.old) }
    requires block { IsBlock blocks.old.largest (length blocks.old.lists.states) at from }
    requires clear { IsClearRun blocks.old.largest blocks.old.lists.states blocks.old.lists.lists at from }
    requires list { list ≡ list_number from kind }
    requires typed { kind ≡ kind_at blocks.old.largest blocks.old.kinds.items at }
    requires down { to < from }
    ensures list { result ≡ list_number to kind }
    ensures after { blocks.new ≡ record blocks.old { lists = (halves_added blocks.old.largest (set_of blocks.old) at (to + 1) (from - (to + 1))).rows } }
{
    // the type is named for the conditions alone
    let _ = kind;
    let KeptBlocks { lists, .. } = blocks;
    let mut order = from.lower();
    let mut pages = order.pages();
    let mut list = list - PAGEBLOCK_TYPES;
    'halves: while to.number() < order.number() {
        put_half(lists, list, at, order, pages);
        order = order.lower();
        pages /= 2;
        list -= PAGEBLOCK_TYPES;
    }
    list
}

/// The greatest order of a block that has no more pages than these.
#[inline(always)]
fn order_within(pages: u32) -> Order
    requires some { 0 < pages }
    requires few { pages < 2 ^ (LARGEST_ORDER + 1) }
    ensures within { 2 ^ result ≤ pages }
    ensures greatest { pages < 2 ^ (result + 1) }
{
    Order::at((31 - pages.leading_zeros()) as u8)
}

/// Takes so many pages, fewer than it has, off a block, in a pageblock of this type, which is not isolated. What is left of it comes into the
/// set. The pages leave in parts, the largest first: the last half that a part leaves is the block of the next one, and stands on no list
/// in between.
#[inline(always)]
pub fn split_pages(
    blocks: &mut KeptBlocks,
    pageblock: usize,
    kind: PageblockType,
    block: ListedBlock,
    pages: u32,
)
    requires kept { IsKept blocks.old.largest (set_of blocks.old) blocks.old.free_in.items }
    requires here { pageblock ≡ block.head / pageblock_pages blocks.old.largest }
    requires block { IsListedBlock (set_of blocks.old) kind block }
    requires open { is_isolate kind ≡ false }
    requires told { blocks.old.tree ≡ choosable blocks.old.largest (set_of blocks.old) }
    requires less { pages < 2 ^ block.order }
    ensures kept { IsKept blocks.old.largest (record (set_of blocks.old) { rows = blocks.new.lists }) blocks.new.free_in.items }
    ensures told { blocks.new.tree ≡ choosable blocks.old.largest (record (set_of blocks.old) { rows = blocks.new.lists }) }
    ensures stays { (blocks.new.largest ≡ blocks.old.largest) × (blocks.new.kinds ≡ blocks.old.kinds) }
    ensures numbers { blocks.new.free_in.items ≡ slice_set blocks.old.free_in.items pageblock (slice_index blocks.old.free_in.items pageblock - pages) }
    ensures after { record (set_of blocks.old) { rows = blocks.new.lists } ≡ pages_split_off blocks.old.largest (set_of blocks.old) block.head block.order pages }
{
    // a clause of this call says how many pages a block can have
    let _pages = block.order.pages();
    take_out(&mut blocks.lists, block.list, block.head, block.is_front);
    let mut at = block.head;
    let mut order = block.order;
    let mut list = block.list;
    let mut left = pages;
    'parts: while left > 0 {
        let to = order_within(left);
        blocks.tree.split(at, order, to);
        list = put_halves(blocks, kind, list, at, order, to);
        let part = to.pages();
        at = PageAt::at(at.number() + part);
        left -= part;
        order = to;
    }
    blocks.lists.push_front_noted(list, at, State::Free(order));
    blocks.free_in[pageblock] -= pages;
}
