//! What is kept of the blocks that can be chosen: the tree has those outside isolated pageblocks, and the free pages of the others are
//! counted.
//!
//! In Linux: what is isolated stays on its free lists, and `NR_FREE_PAGES` does not count it.
ghost use Rattle.std.specs.Prelude.{◌≡◌, ◌<◌, ◌≤◌, ◌+◌, ◌*◌, ◌%◌, ◌^◌, ℕ, cond, false, not, true, length, None, slice_index_or, slice_set};
ghost use Rattle.zp_model.specs.declared.constants.TheConstants.{LARGEST_ORDER};
ghost use Rattle.zp_model.specs.declared.pageblock_type.PageblockType.TheVariants.{Movable};
ghost use Rattle.zp_model.specs.declared.state.State.TheVariants.{Free};
ghost use Rattle.zp_model.specs.PageblockType.{is_isolate};
ghost use Rattle.zp_model.specs.Block.{IsBlock, head};
ghost use Rattle.zp_model.specs.BlockSet.{Starts, larger, largest_in};
ghost use Rattle.zp_model.specs.Rows.{state_at};
ghost use Rattle.zp_model.specs.Area.{available_blocks, pageblock_pages};
ghost use Rattle.zp_tree.specs.Blocks.{HasBuddies, IsApart, IsBlockSet, joined_set, with_block};
ghost use Rattle.zp_area.specs.NotedBlocks.{blocks_of};
ghost use Rattle.zp_area.specs.Available.{isolated_sum, retold};
ghost use Rattle.zp_area.specs.KeptSets.{set_of};
ghost use Rattle.zp_area.specs.Moved.{pages_seen};
ghost use Rattle.zp_area.specs.OneSet.{IsOneSet};

use crate::kept_blocks::KeptBlocks;
use zp_links::Lists;
use zp_model::{Largest, Order, PageAt, PageblockType, State};
use zp_tree::{GROUP_PAGES, OrderTree};

/// Adds to the tree a block in a pageblock of this type, unless that is isolated.
#[inline(always)]
pub fn tell_added(tree: &mut OrderTree, kind: PageblockType, at: PageAt, order: Order)
    requires block { is_isolate kind ≡ false → IsBlock LARGEST_ORDER (length tree.old) at order }
    requires apart { is_isolate kind ≡ false → IsApart tree.old at order }
    ensures { tree.new ≡ cond (is_isolate kind) tree.old (with_block tree.old at order) }
{
    if !kind.is_isolate() {
        tree.set(at, order);
    }
}

/// Adds to the tree a block of order `from` in a pageblock of this type, joined with its buddies up to order `to`, unless that is isolated.
#[inline(always)]
pub fn tell_joined(tree: &mut OrderTree, kind: PageblockType, at: PageAt, from: Order, to: Order)
    requires block { is_isolate kind ≡ false → IsBlock LARGEST_ORDER (length tree.old) (head at to) to }
    requires aligned { at % 2 ^ from ≡ 0 }
    requires up { from ≤ to }
    requires apart { is_isolate kind ≡ false → IsApart tree.old at from }
    requires buddies { is_isolate kind ≡ false → HasBuddies tree.old at from to }
    ensures { tree.new ≡ cond (is_isolate kind) tree.old (joined_set tree.old at from to) }
{
    if !kind.is_isolate() {
        tree.join(at, from, to);
    }
}

/// Counts the pages of a block that is added in a pageblock of this type, where that is isolated.
#[inline(always)]
pub fn count_isolated(isolated: &mut u32, kind: PageblockType, order: Order)
    requires { isolated.old + 2 ^ order < 2 ^ 32 }
    ensures { isolated.new ≡ cond (is_isolate kind) (isolated.old + 2 ^ order) isolated.old }
{
    if kind.is_isolate() {
        *isolated += order.pages();
    }
}

/// Takes the free block that starts at a page, if one does, out of the tree where its pageblock is isolated, and else into it. Returns how
/// many pages it has, or 1 where none starts.
fn tell_block(lists: &Lists, tree: &mut OrderTree, at: PageAt, isolates: bool) -> u32
    requires page { at < length lists.now.states }
    requires held { (k : ℕ) → isolates ≡ true → state_at lists.now.states at ≡ Free k → Starts tree.old at k }
    requires block { (k : ℕ) → isolates ≡ false → state_at lists.now.states at ≡ Free k → IsBlock LARGEST_ORDER (length tree.old) at k }
    requires apart { (k : ℕ) → isolates ≡ false → state_at lists.now.states at ≡ Free k → IsApart tree.old at k }
    ensures after { tree.new ≡ retold tree.old at isolates (state_at lists.now.states at) }
    ensures pages { result ≡ pages_seen (state_at lists.now.states at) }
{
    if let State::Free(order) = lists.state(at) {
        if isolates {
            tree.clear(at, order);
        } else {
            tree.set(at, order);
        }
        return order.pages();
    }
    1
}

/// Takes each block of a pageblock that is isolated from now on out of the tree, or puts it back where the pageblock is released.
fn tell_all(
    lists: &Lists,
    kinds: &Vec<PageblockType>,
    tree: &mut OrderTree,
    largest: Largest,
    pageblock: usize,
    kind: PageblockType,
)
    requires one { IsOneSet largest (record { largest = largest; rows = lists.now; kinds = kinds.now.items }) }
    requires told { tree.old ≡ available_blocks largest kinds.now.items (blocks_of lists.now.states) }
    requires pageblock { pageblock < length kinds.now.items }
    requires other { is_isolate kind ≡ not (is_isolate (slice_index_or kinds.now.items pageblock Movable)) }
    ensures { tree.new ≡ available_blocks largest (slice_set kinds.now.items pageblock kind) (blocks_of lists.now.states) }
{
    let isolates = kind.is_isolate();
    let size = largest.pageblock_pages() as usize;
    let first = pageblock * size;
    let end = lists.pages().min(first + size);
    let mut i = first;
    'pages: while i < end {
        let seen = tell_block(lists, tree, PageAt::at(i as u32), isolates);
        i = end.min(i + seen as usize);
    }
}

/// Takes the blocks of a pageblock that is isolated from now on out of the tree, or puts them back where it is released. Where the
/// pageblock is a group of the tree, its blocks leave the tree all at once.
#[cold]
#[inline(never)]
fn tell_pageblock(
    lists: &Lists,
    kinds: &Vec<PageblockType>,
    tree: &mut OrderTree,
    largest: Largest,
    pageblock: usize,
    kind: PageblockType,
)
    requires one { IsOneSet largest (record { largest = largest; rows = lists.now; kinds = kinds.now.items }) }
    requires told { tree.old ≡ available_blocks largest kinds.now.items (blocks_of lists.now.states) }
    requires pageblock { pageblock < length kinds.now.items }
    requires other { is_isolate kind ≡ not (is_isolate (slice_index_or kinds.now.items pageblock Movable)) }
    ensures { tree.new ≡ available_blocks largest (slice_set kinds.now.items pageblock kind) (blocks_of lists.now.states) }
{
    if kind.is_isolate() && largest.pageblock_pages() == GROUP_PAGES {
        tree.clear_group(pageblock);
    } else {
        tell_all(lists, kinds, tree, largest, pageblock, kind);
    }
}

/// Changes the tree and the number of isolated pages for a pageblock that is about to get this type.
pub fn tell_type(blocks: &mut KeptBlocks, isolated: &mut u32, pageblock: usize, kind: PageblockType)
    requires one { IsOneSet blocks.old.largest (set_of blocks.old) }
    requires told { blocks.old.tree ≡ available_blocks blocks.old.largest blocks.old.kinds.items (blocks_of blocks.old.lists.states) }
    requires apart { isolated.old ≡ isolated_sum blocks.old.kinds.items blocks.old.free_in.items }
    requires few { isolated_sum (slice_set blocks.old.kinds.items pageblock kind) blocks.old.free_in.items < 2 ^ 32 }
    requires pageblock { pageblock < length blocks.old.kinds.items }
    requires numbers { length blocks.old.free_in.items ≡ length blocks.old.kinds.items }
    ensures told { blocks.new ≡ record blocks.old { tree = available_blocks blocks.old.largest (slice_set blocks.old.kinds.items pageblock kind) (blocks_of blocks.old.lists.states) } }
    ensures apart { isolated.new ≡ isolated_sum (slice_set blocks.old.kinds.items pageblock kind) blocks.old.free_in.items }
{
    let isolates = kind.is_isolate();
    if blocks.kinds[pageblock].is_isolate() == isolates {
        return;
    }
    tell_pageblock(
        &blocks.lists,
        &blocks.kinds,
        &mut blocks.tree,
        blocks.largest,
        pageblock,
        kind,
    );
    if isolates {
        *isolated += blocks.free_in[pageblock];
    } else {
        *isolated -= blocks.free_in[pageblock];
    }
}

/// The larger of the orders found so far and that of the block at a page, where one starts there.
fn larger_at(lists: &Lists, at: PageAt, found: Option<Order>) -> Option<Order>
    requires { at < length lists.now.states }
    ensures { result ≡ larger (slice_index_or (blocks_of lists.now.states) at None) found }
{
    let State::Free(order) = lists.state(at) else {
        return found;
    };
    match found {
        Some(other) if other.number() >= order.number() => found,
        _ => Some(order),
    }
}

/// The largest order of a block in a pageblock, found by a look at its pages.
pub fn largest_seen(lists: &Lists, largest: Largest, pageblock: usize) -> Option<Order>
    requires blocks { IsBlockSet largest (blocks_of lists.now.states) }
    requires inside { pageblock * pageblock_pages largest < length lists.now.states }
    ensures { result ≡ largest_in (blocks_of lists.now.states) (pageblock * pageblock_pages largest) largest }
{
    let pages = lists.pages();
    let size = largest.pageblock_pages() as usize;
    let first = pageblock * size;
    let mut found = None;
    let mut i = pages.min(first + size);
    'pages: while first < i {
        i -= 1;
        found = larger_at(lists, PageAt::at(i as u32), found);
    }
    found
}
