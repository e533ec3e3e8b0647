//! Joining a block that comes back with its free buddies, as one change of what is kept beside the lists.
//!
//! In Linux: `__free_one_page`, with `page_is_buddy`.
ghost use Rattle.std.specs.Prelude.{◌≡◌, ◌+◌, ◌/◌, ◌%◌, ◌^◌, ◌↔◌, ◌<◌, ℕ, false, length, slice_index, slice_set, IsTrue};
ghost use Rattle.zp_model.specs.declared.state.State.TheVariants.{Free, Tail};
ghost use Rattle.zp_model.specs.Block.{IsBlock, IsBuddy};
ghost use Rattle.zp_model.specs.Rows.{IsOn, state_at, with_state};
ghost use Rattle.zp_model.specs.Area.{kind_at, list_number, pageblock_pages};
ghost use Rattle.zp_area.specs.Blocks.{taken_off};
ghost use Rattle.zp_area.specs.Chains.{IsJoinable, IsJoinedUp};
ghost use Rattle.zp_area.specs.Given.{IsClearRun};
ghost use Rattle.zp_area.specs.KeptSets.{set_of};
ghost use Rattle.zp_area.specs.OneSet.{IsKept};
ghost use Rattle.zp_area.specs.Available.{choosable};

use crate::available::tell_joined;
use crate::free_lists::list_of;
use crate::kept_blocks::KeptBlocks;
use crate::splits::{put_in, take_out};
use zp_links::Lists;
use zp_model::{Largest, Order, PAGEBLOCK_TYPES, PageAt, PageblockType, State};
use zp_tree::OrderTree;

/// Whether a block of this order starts at a page.
pub fn is_free(lists: &Lists, at: PageAt, order: Order) -> bool
    ensures { IsTrue result ↔ (state_at lists.now.states at ≡ Free order) }
{
    at.index() < lists.pages() && lists.holds(at, State::Free(order))
}

/// Whether a block has a free buddy, with which it makes a larger one.
pub fn has_free_buddy(lists: &Lists, largest: Largest, at: PageAt, order: Order) -> bool
    requires { at % 2 ^ order ≡ 0 }
    ensures some { IsTrue result → (c : ℕ) × (d : ℕ) × (order < largest) × IsBuddy at order c d × (state_at lists.now.states c ≡ Free order) }
    ensures none { result ≡ false → order < largest → (c d : ℕ) → IsBuddy at order c d → state_at lists.now.states c ≡ Free order → ⊥ }
{
    order.number() < largest.number() && is_free(lists, at.buddy(order), order)
}

/// Takes the free buddy of a block off its list, which has this number, and notes it as free no more: the head of the double of the block.
#[inline(always)]
fn take_buddy(lists: &mut Lists, list: usize, at: PageAt, order: Order) -> PageAt
    requires aligned { at % 2 ^ order ≡ 0 }
    requires listed { (c d : ℕ) → IsBuddy at order c d → (c < length lists.old.states) × IsOn lists.old.lists list c }
    ensures { (c : ℕ) × IsBuddy at order c result × (lists.new ≡ with_state (taken_off lists.old list c) c Tail) }
{
    let buddy = at.buddy(order);
    take_out(lists, list, buddy, false);
    // (the lower of the two has the bits that both have: no compare)
    PageAt::at(at.number() & buddy.number())
}

/// Takes a block that has a free buddy into the set, joined with its buddies as long as they are free. Each leaves its list; the head of
/// what the block has grown to comes on a list last, and in the tree all is one change, where the pageblock, which has this type, is not
/// isolated.
#[inline(always)]
pub fn join_up(
    blocks: &mut KeptBlocks,
    pageblock: usize,
    kind: PageblockType,
    at: PageAt,
    order: Order,
)
    requires kept { IsKept blocks.old.largest (set_of blocks.old) blocks.old.free_in.items }
    requires told { blocks.old.tree ≡ choosable blocks.old.largest (set_of blocks.old) }
    requires typed { kind ≡ kind_at blocks.old.largest blocks.old.kinds.items at }
    requires here { pageblock ≡ at / pageblock_pages blocks.old.largest }
    requires block { IsBlock blocks.old.largest (length blocks.old.lists.states) at order }
    requires clear { IsClearRun blocks.old.largest blocks.old.lists.states blocks.old.lists.lists at order }
    requires joined { (c : ℕ) × (d : ℕ) × IsJoinable blocks.old.largest (set_of blocks.old) at order c d }
    ensures kept { IsKept blocks.old.largest (record (set_of blocks.old) { rows = blocks.new.lists }) blocks.new.free_in.items }
    ensures told { blocks.new.tree ≡ choosable blocks.old.largest (record (set_of blocks.old) { rows = blocks.new.lists }) }
    ensures stays { (blocks.new.largest ≡ blocks.old.largest) × (blocks.new.kinds ≡ blocks.old.kinds) }
    ensures numbers { blocks.new.free_in.items ≡ slice_set blocks.old.free_in.items pageblock (slice_index blocks.old.free_in.items pageblock + 2 ^ order) }
    ensures after { (d : ℕ) × IsJoinedUp d blocks.old.largest (set_of blocks.old) at order (record (set_of blocks.old) { rows = blocks.new.lists }) }
{
    let largest = blocks.largest;
    // a clause of this call says how large it can be
    let _number = largest.number();
    let KeptBlocks {
        lists,
        tree,
        free_in,
        ..
    } = blocks;
    free_in[pageblock] += order.pages();
    // (the first join stands before the loop: most blocks join once, and the loop's counts cost as much again)
    let mut head = take_buddy(lists, list_of(order, kind), at, order);
    let mut joined = order.higher();
    // (counted up, as a product in the loop costs more)
    let mut list = list_of(joined, kind);
    'joins: while has_free_buddy(lists, largest, head, joined) {
        head = take_buddy(lists, list, head, joined);
        joined = joined.higher();
        list += PAGEBLOCK_TYPES;
    }
    put_in(lists, kind, head, joined);
    tell_joined(tree, kind, at, order, joined);
}
