//! The block that a page heads or lies in, and taking a block out of the set whole, whatever the type of its pageblock.
//!
//! In Linux: `is_free_buddy_page`, `buddy_order` and `del_page_from_free_list`.
ghost use Rattle.std.specs.Prelude.{ℕ, ◌≡◌, ◌≤◌, ◌<◌, ◌-◌, ◌^◌, cond, true, false, IfNone, IfSome};
ghost use Rattle.zp_model.specs.PageblockType.{is_isolate};
ghost use Rattle.zp_model.specs.Block.{has, head};
ghost use Rattle.zp_model.specs.BlockSet.{Starts, cover};
ghost use Rattle.zp_tree.specs.Blocks.{without_block};
ghost use Rattle.zp_area.specs.Blocks.{block_set, removed};

use super::FreeArea;
use crate::free_lists::list_of;
use crate::noting;
use crate::splits::take_out;
use zp_model::{Order, PageAt, PageblockType, State};
use zp_tree::OrderTree;

impl FreeArea {
    /// The order of the block that a page heads, where it heads one.
    #[inline(always)]
    pub fn order_headed(&self, at: PageAt) -> Option<Order>
        ensures none { IfNone result ((k : ℕ) → Starts (block_set self.now) at k → ⊥) }
        ensures some { IfSome result (λ o. Starts (block_set self.now) at o) }
    {
        let lists = &self.blocks.lists;
        if at.index() >= lists.pages() {
            return None;
        }
        match lists.state(at) {
            State::Free(order) => Some(order),
            _ => None,
        }
    }

    /// The order of the block in which a page lies, where it lies in one. Most pages that are asked for head theirs.
    pub fn order_around(&self, at: PageAt) -> Option<Order>
        ensures none { IfNone result (has (cover (block_set self.now)) at ≡ false) }
        ensures some { IfSome result (λ o. Starts (block_set self.now) (head at o) o) }
    {
        // a clause of this call says that all that is kept is of one set of blocks
        let _pages = self.pages();
        if let Some(headed) = self.order_headed(at) {
            return Some(headed);
        }
        let Some(order) = self.order_above(at, Order::zero()) else {
            return None;
        };
        Some(order)
    }

    /// The order of the block, of a higher order than this, in which a page lies, where it lies in one: of the aligned heads around the page one alone
    /// heads such a block, and tells its order. At most as many pages are looked at as there are orders.
    pub fn order_above(&self, at: PageAt, order: Order) -> Option<Order>
        ensures none { IfNone result ((k : ℕ) → order < k → Starts (block_set self.now) (head at k) k → ⊥) }
        ensures some { IfSome result (λ o. (order < o) × Starts (block_set self.now) (head at o) o) }
    {
        // a clause of this call says that all that is kept is of one set of blocks
        let _pages = self.pages();
        let largest = self.largest().number();
        let mut number = order.number() + 1;
        'orders: while number <= largest {
            let head = at.head(Order::at(number));
            if let Some(found) = self.order_headed(head) {
                if found.number() >= number {
                    return Some(found);
                }
            }
            number += 1;
        }
        None
    }

    /// Takes a block out of the set whole, whatever the type of its pageblock.
    #[inline(always)]
    pub fn remove(&mut self, at: PageAt, order: Order)
        requires { Starts (block_set self.old) at order }
        ensures { self.new ≡ removed self.old.largest self.old at order }
    {
        let pageblock = self.blocks.largest.pageblock_of(at);
        let kind = self.blocks.kinds[pageblock];
        take_out(&mut self.blocks.lists, list_of(order, kind), at, false);
        tell_removed(&mut self.blocks.tree, kind, at, order);
        count_no_more(&mut self.isolated, kind, order);
        self.blocks.free_in[pageblock] -= order.pages();
        noting::changed(&mut self.noted, &self.blocks, pageblock);
    }
}

/// Takes a block in a pageblock of this type out of the tree, unless that is isolated.
#[inline(always)]
fn tell_removed(tree: &mut OrderTree, kind: PageblockType, at: PageAt, order: Order)
    requires { is_isolate kind ≡ false → Starts tree.old at order }
    ensures { tree.new ≡ cond (is_isolate kind) tree.old (without_block tree.old at) }
{
    if !kind.is_isolate() {
        tree.clear(at, order);
    }
}

/// Counts the pages of a block in a pageblock of this type no more, where that is isolated.
#[inline(always)]
fn count_no_more(isolated: &mut u32, kind: PageblockType, order: Order)
    requires { is_isolate kind ≡ true → 2 ^ order ≤ isolated.old }
    ensures { isolated.new ≡ cond (is_isolate kind) (isolated.old - 2 ^ order) isolated.old }
{
    if kind.is_isolate() {
        *isolated -= order.pages();
    }
}
