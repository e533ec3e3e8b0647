//! The free area of a zone: one set of free blocks, kept in several forms, so that each question has its answer at hand.
//!
//! - `lists`: for each page its state and its neighbours on a list; a list for each order and pageblock type, with its length; and further
//!   lists of pages that are not free. The state of a head says whether a block is free, so no list is searched for it.
//! - `kinds` and `free_in`: for each pageblock its type, and how many of its pages are free.
//! - `tree`: the status tree of the blocks outside isolated pageblocks, for `lowest` and `largest_in`.
//! - `noted`: the type and largest order of each scattered pageblock, where half of the pages are free but no block has half of them; and
//!   a set of up to 64 pageblocks that have changed since they were looked at. By both a claim knows its order before it walks a list.
//!
//! The invariant says that all of these are of one set of blocks, those noted as free. Which blocks they are is the concern of `zp_buddy`.
//!
//! `split_off` takes the head off its list, writes the tree once, puts each high half in front of its list, lowers `free_in` once, and
//! marks the pageblock as changed. `split_towards` does so with the halves beside a page, at any place of the block. `take_first_pages` splits
//! for each power of two of its pages, the largest first: the half that is left between two of them goes on no list, and `free_in` is lowered
//! and the pageblock marked once for all. `join_up` raises `free_in`, takes each free buddy off its list, writes the tree when the block has
//! grown, puts its head in front of its list, and marks the pageblock. Most blocks are taken whole or have no free buddy, and go a way
//! without a loop.
//!
//! Cost: each split or join is one list operation of a constant number of steps, at most as many as the largest order. `retype` steps over
//! the pages of one pageblock. Where 64 pageblocks are marked, a change that marks one more looks at another one first.
ghost use Rattle.std.specs.Prelude.{ℕ, ◌≡◌, None, ◌<◌, ◌≤◌, ◌+◌, ◌^◌, ◌*◌, ◌/◌, ◌↔◌, true, false, length, max, min, slice_index_or, IfOk, Some, IfNone, IfSome, IsTrue};
ghost use Rattle.zp_model.specs.declared.constants.TheConstants.{MAX_PAGES};
ghost use Rattle.zp_model.specs.declared.pageblock_type.PageblockType.TheVariants.{Movable};
ghost use Rattle.zp_model.specs.PageblockType.{pageblock_type};
ghost use Rattle.zp_model.specs.declared.state.State.TheVariants.{Free};
ghost use Rattle.zp_model.specs.Block.{IsBlock, has, size};
ghost use Rattle.zp_model.specs.BlockSet.{Starts, cover, lowest, largest_in};
ghost use Rattle.zp_model.specs.Rows.{IsLoose, IsOn, IsRow, after, front, list_at, state_at};
ghost use Rattle.zp_model.specs.Described.{IsLinkedAt};
ghost use Rattle.zp_model.specs.Frames.{IsNote};
ghost use Rattle.zp_model.specs.Info.{pageblocks_of_type};
ghost use Rattle.zp_model.specs.Area.{available, is_isolated, kind_at, list_number, lists_count, pageblock_pages, size_in};
ghost use Rattle.zp_tree.specs.Blocks.{HasBlockOf, IsBare, IsBeside, IsWhole};
ghost use Rattle.zp_tree.specs.declared.constants.TheConstants.{GROUP_ORDER, GROUP_PAGES, MOST_GROUPS, WORD_LEVELS};
ghost use Rattle.zp_area.specs.Given.{AreClearPages, IsClearRun};
ghost use Rattle.zp_area.specs.Blocks.{block_set, count_of, free_list_of, free_lists, side_list_of, no_blocks, added, removed, noted, noted_run, side_pushed, side_popped};
ghost use Rattle.zp_area.specs.Chains.{IsJoinable, pages_split_off, split_off, IsJoinedUp};
ghost use Rattle.zp_area.specs.Retyped.{retyped};
ghost use Rattle.zp_area.specs.OneSet.{IsOneSet};
ghost use Rattle.zp_area.specs.Available.{choosable};
ghost use Rattle.zp_area.specs.Claims.{IsLargestClaimable, IsOtherType};
ghost use Rattle.zp_area.specs.Standing.{AreFirstTaken, IsFirstTaken, IsListedBlock, first_head};

mod removal;
mod towards;

use crate::available::{count_isolated, largest_seen, tell_added, tell_type};
use crate::counting::pageblocks_of_type;
use crate::free_lists::list_of;
use crate::kept_blocks::KeptBlocks;
use crate::linked_page::LinkedPage;
use crate::listed_block::ListedBlock;
use crate::noting::Noted;
use crate::retypes::retype;
use crate::{joins, noting, splits};
use std::alloc::{AllocError, Global};
use std::marker::Model;
use zp_claims::{ClaimTable, StaleSet};
use zp_links::Lists;
use zp_model::{
    Largest, MAX_PAGES, MigrateType, Order, PAGEBLOCK_TYPES, PageAt, PageblockType, State,
};
use zp_table::PageTable;
use zp_tree::{Meter, OrderTree};

/// A set of free blocks that share no page, on lists by order and type, and further lists of pages that are not free.
/// Contracts see what is noted of each page, the lists and the types of the pageblocks; the set is what is noted as free.
pub struct FreeArea {
    blocks: KeptBlocks,
    /// How many pages of isolated pageblocks are in blocks.
    isolated: u32,
    /// What is noted of the pageblocks for a claim.
    noted: Noted,
}

/// Written out, so that it is one call wherever a free area is dropped: a derived one is all its parts, in each function again.
impl Drop for FreeArea {
    fn drop(self) {
        let FreeArea {
            blocks: _blocks,
            isolated: _isolated,
            noted: _noted,
        } = self;
    }
}

impl Model for FreeArea {
    ghost use Rattle.zp_area.specs.Blocks.{Blocks};
    ghost use Rattle.zp_area.specs.KeptSets.{set_of};
    ghost use Rattle.zp_area.specs.Claims.{IsIndexed};

    ghost Value = { Blocks };

    ghost view = { λ a. set_of a.blocks };

    ghost invariant = { λ a. IsIndexed (set_of a.blocks) a.blocks.tree a.blocks.free_in.items a.isolated a.noted.claims a.noted.stale.marks };
}

impl FreeArea {
    /// An area of so many pages with no block, all pageblocks Movable, and so many empty further lists. No block will have an
    /// order above the largest, and pageblocks are as large as a block of it.
    pub fn new(
        alloc: Global,
        pages: u32,
        largest: Largest,
        side: usize,
    ) -> Result<FreeArea, AllocError>
        requires pages { pages ≤ MAX_PAGES }
        requires side { side < 2 ^ 32 }
        ensures { IfOk result (λ a. a ≡ no_blocks largest pages side) }
    {
        let pageblocks = largest.pageblocks(pages);
        let kinds = Vec::from_elem(alloc, PageblockType::Movable, pageblocks)?;
        let free_in = Vec::from_elem(alloc, 0, pageblocks)?;
        let claims = ClaimTable::new(alloc, pageblocks)?;
        let stale = StaleSet::new(alloc, pageblocks)?;
        let tree = OrderTree::new(alloc, pages)?;
        let table = PageTable::new(alloc, pages)?;
        let lists = Lists::new(alloc, table, largest.lists() + side)?;
        Ok(FreeArea {
            blocks: KeptBlocks {
                largest,
                lists,
                kinds,
                tree,
                free_in,
            },
            isolated: 0,
            noted: Noted { claims, stale },
        })
    }

    /// How many pages there are. All that an area keeps is of one set of blocks.
    pub fn pages(&self) -> u32
        ensures pages { result ≡ length self.now.rows.states }
        ensures within { result ≤ MAX_PAGES }
        ensures one { IsOneSet self.now.largest self.now }
        ensures row { IsRow self.now.rows.lists (length self.now.rows.states) }
    {
        self.blocks.lists.pages() as u32
    }

    /// The order of the largest block.
    pub fn largest(&self) -> Largest
        ensures { result ≡ self.now.largest }
    {
        self.blocks.largest
    }

    /// How many pageblocks there are. Each block lies in one of them.
    pub fn pageblocks(&self) -> usize
        ensures same { result ≡ length self.now.kinds }
        ensures blocks { (h k : ℕ) → Starts (block_set self.now) h k → h / pageblock_pages self.now.largest < result }
    {
        self.blocks.kinds.len()
    }

    /// Takes a block into the set. Its head comes in front of the list of its order and its pageblock's type.
    #[inline(always)]
    pub fn add(&mut self, at: PageAt, order: Order)
        requires block { IsBlock self.old.largest (length self.old.rows.states) at order }
        requires clear { IsClearRun self.old.largest self.old.rows.states self.old.rows.lists at order }
        ensures after { self.new ≡ added self.old.largest self.old at order }

        // What the calls after it can rest on.
        ensures held { Starts (block_set self.new) at order }
        ensures still_clear { (h k : ℕ) → IsClearRun self.old.largest self.old.rows.states self.old.rows.lists h k → IsBeside h k at order → IsClearRun self.old.largest self.new.rows.states self.new.rows.lists h k }
    {
        // a clause of this call says how large it can be
        let _number = self.blocks.largest.number();
        let pageblock = self.blocks.largest.pageblock_of(at);
        let kind = self.blocks.kinds[pageblock];
        let list = list_of(order, kind);
        let lists = &mut self.blocks.lists;
        lists.push_front_noted(list, at, State::Free(order));
        tell_added(&mut self.blocks.tree, kind, at, order);
        count_isolated(&mut self.isolated, kind, order);
        self.blocks.free_in[pageblock] += order.pages();
        noting::changed(&mut self.noted, &self.blocks, pageblock);
    }

    /// Takes a block of order `from`, in a pageblock of this type, which is not isolated, out of the set, and its high halves down to order `to` into it, the
    /// largest first. Its low part of order `to` is in no block then.
    #[inline(always)]
    pub fn split_off(&mut self, at: PageAt, from: Order, to: Order, kind: MigrateType)
        requires block { Starts (block_set self.old) at from }
        requires typed { pageblock_type kind ≡ kind_at self.old.largest self.old.kinds at }
        requires down { to ≤ from }
        ensures { self.new ≡ split_off self.old.largest self.old at from to }
    {
        let block = ListedBlock {
            head: at,
            order: from,
            list: list_of(from, kind.pageblock_type()),
            is_front: false,
        };
        self.take_low(block, to, kind);
    }

    /// Takes the low part of order `to` of a block out of the set.
    #[inline(always)]
    fn take_low(&mut self, block: ListedBlock, to: Order, kind: MigrateType)
        requires block { IsListedBlock self.old (pageblock_type kind) block }
        requires down { to ≤ block.order }
        ensures { self.new ≡ split_off self.old.largest self.old block.head block.order to }
    {
        if to.number() < block.order.number() {
            self.split_down(block, to, kind);
        } else {
            self.take_whole(block, kind);
        }
    }

    /// Takes a block out of the set whole.
    #[inline(always)]
    fn take_whole(&mut self, block: ListedBlock, kind: MigrateType)
        requires { IsListedBlock self.old (pageblock_type kind) block }
        ensures { self.new ≡ removed self.old.largest self.old block.head block.order }
    {
        let pageblock = self.blocks.largest.pageblock_of(block.head);
        splits::take_whole(&mut self.blocks, pageblock, kind.pageblock_type(), block);
        noting::changed(&mut self.noted, &self.blocks, pageblock);
    }

    /// The same of a block that is split.
    #[inline(always)]
    fn split_down(&mut self, block: ListedBlock, to: Order, kind: MigrateType)
        requires block { IsListedBlock self.old (pageblock_type kind) block }
        requires down { to < block.order }
        ensures { self.new ≡ split_off self.old.largest self.old block.head block.order to }
    {
        let pageblock = self.blocks.largest.pageblock_of(block.head);
        splits::split_off(
            &mut self.blocks,
            pageblock,
            kind.pageblock_type(),
            block,
            to,
        );
        noting::changed(&mut self.noted, &self.blocks, pageblock);
    }

    /// Takes so many pages, fewer than it has, off a block.
    #[inline(always)]
    fn take_pages(&mut self, block: ListedBlock, pages: u32, kind: MigrateType)
        requires block { IsListedBlock self.old (pageblock_type kind) block }
        requires less { pages < 2 ^ block.order }
        ensures { self.new ≡ pages_split_off self.old.largest self.old block.head block.order pages }
    {
        let pageblock = self.blocks.largest.pageblock_of(block.head);
        splits::split_pages(
            &mut self.blocks,
            pageblock,
            kind.pageblock_type(),
            block,
            pages,
        );
        noting::changed(&mut self.noted, &self.blocks, pageblock);
    }

    /// Takes a block into the set, joined with its buddies as long as they are in the set: each leaves it, and what the block has
    /// grown to comes.
    #[inline(always)]
    pub fn join_up(&mut self, at: PageAt, order: Order)
        requires block { IsBlock self.old.largest (length self.old.rows.states) at order }
        requires clear { IsClearRun self.old.largest self.old.rows.states self.old.rows.lists at order }
        ensures { (d : ℕ) × IsJoinedUp d self.old.largest self.old at order self.new }
    {
        if joins::has_free_buddy(&self.blocks.lists, self.blocks.largest, at, order) {
            self.join_buddies(at, order);
        } else {
            self.add(at, order);
        }
    }

    /// The same of a block that is joined.
    // (out of line, as most blocks have no free buddy)
    #[inline(never)]
    fn join_buddies(&mut self, at: PageAt, order: Order)
        requires block { IsBlock self.old.largest (length self.old.rows.states) at order }
        requires clear { IsClearRun self.old.largest self.old.rows.states self.old.rows.lists at order }
        requires joined { (c : ℕ) × (d : ℕ) × IsJoinable self.old.largest self.old at order c d }
        ensures { (d : ℕ) × IsJoinedUp d self.old.largest self.old at order self.new }
    {
        let pageblock = self.blocks.largest.pageblock_of(at);
        let kind = self.blocks.kinds[pageblock];
        joins::join_up(&mut self.blocks, pageblock, kind, at, order);
        count_isolated(&mut self.isolated, kind, order);
        noting::changed(&mut self.noted, &self.blocks, pageblock);
    }

    /// Gives a pageblock a type. Where it is another one, its blocks go to the lists of the type, the highest in front; from now on they are
    /// chosen by nobody where the type is Isolate.
    pub fn retype(&mut self, pageblock: usize, kind: PageblockType)
        requires { pageblock < length self.old.kinds }
        ensures after { self.new ≡ retyped self.old.largest self.old pageblock kind }
        ensures same { kind ≡ slice_index_or self.old.kinds pageblock Movable → self.new ≡ self.old }
    {
        if self.blocks.kinds[pageblock] != kind {
            tell_type(&mut self.blocks, &mut self.isolated, pageblock, kind);
            retype(
                &mut self.blocks.lists,
                &mut self.blocks.kinds,
                self.blocks.largest,
                pageblock,
                kind,
            );
            noting::changed(&mut self.noted, &self.blocks, pageblock);
        }
    }

    /// Whether a block of this order starts at a page.
    pub fn is_free(&self, at: PageAt, order: Order) -> bool
        ensures { IsTrue result ↔ (state_at self.now.rows.states at ≡ Free order) }
    {
        joins::is_free(&self.blocks.lists, at, order)
    }

    /// How many blocks of an order there are: those on its lists.
    pub fn count(&self, order: Order) -> u32
        ensures { result ≡ count_of (block_set self.now) order }
    {
        if order.number() > self.blocks.largest.number() {
            return 0;
        }
        let unmovable = self
            .blocks
            .lists
            .len(list_of(order, PageblockType::Unmovable));
        let reclaimable = self
            .blocks
            .lists
            .len(list_of(order, PageblockType::Reclaimable));
        let movable = self
            .blocks
            .lists
            .len(list_of(order, PageblockType::Movable));
        let isolated = self
            .blocks
            .lists
            .len(list_of(order, PageblockType::Isolate));
        unmovable + reclaimable + movable + isolated
    }

    /// How many blocks of an order stand in pageblocks of a type: those on the list of both.
    pub fn count_of_type(&self, order: Order, kind: PageblockType) -> u32
        ensures { result ≡ length (free_list_of self.now.largest self.now order kind) }
    {
        if order.number() > self.blocks.largest.number() {
            return 0;
        }
        self.blocks.lists.len(list_of(order, kind))
    }

    /// How many pageblocks have a type.
    pub fn pageblocks_of_type(&self, kind: PageblockType) -> u32
        ensures { result ≡ pageblocks_of_type self.now.kinds kind }
    {
        // a clause of this call says how many pageblocks there can be
        let _pages = self.pages();
        pageblocks_of_type(self.blocks.kinds.as_slice(), kind)
    }

    /// How many pages of a pageblock are in blocks.
    pub fn free_in(&self, pageblock: usize) -> u32
        requires { pageblock < length self.now.kinds }
        ensures { result ≡ size_in self.now.largest (cover (block_set self.now)) pageblock }
    {
        self.blocks.free_in[pageblock]
    }

    /// How many pages of isolated pageblocks are in blocks: those of all blocks, without what is available.
    pub fn isolated_pages(&self) -> u32
        ensures { size (available self.now.largest self.now.kinds (cover (block_set self.now))) + result ≡ size (cover (block_set self.now)) }
    {
        self.isolated
    }

    /// The type of a pageblock.
    pub fn type_of(&self, pageblock: usize) -> PageblockType
        requires { pageblock < length self.now.kinds }
        ensures { result ≡ slice_index_or self.now.kinds pageblock Movable }
    {
        self.blocks.kinds[pageblock]
    }

    /// The largest order of a block in a pageblock. One node of the tree is read; of an isolated one, each page.
    pub fn largest_in(&self, pageblock: usize) -> Option<Order>
        requires { pageblock < length self.now.kinds }
        ensures answer { result ≡ largest_in (block_set self.now) (pageblock * pageblock_pages self.now.largest) self.now.largest }
        ensures held { IfSome result (λ o. (h : ℕ) × Starts (block_set self.now) h o × (h / pageblock_pages self.now.largest ≡ pageblock)) }
        ensures most { (h k : ℕ) → Starts (block_set self.now) h k → h / pageblock_pages self.now.largest ≡ pageblock → (o : ℕ) × (result ≡ Some o) × (k ≤ o) }
    {
        // a clause of this call says how many pageblocks there can be
        let _pages = self.pages();
        if self.blocks.kinds[pageblock].is_isolate() {
            return largest_seen(&self.blocks.lists, self.blocks.largest, pageblock);
        }
        let first = PageAt::at(pageblock as u32 * self.blocks.largest.pageblock_pages());
        self.blocks
            .tree
            .largest_in(first, self.blocks.largest.order())
    }

    /// The block of this order or more with the least head, outside isolated pageblocks.
    pub fn lowest(&mut self, order: Order) -> Option<(PageAt, Order)>
        ensures same { self.new ≡ self.old }
        ensures answer { result ≡ lowest (choosable self.old.largest self.old) order }
        ensures found { IfSome result (λ b. Starts (block_set self.old) b.0 b.1 × (order ≤ b.1)) }
        ensures open { IfSome result (λ b. is_isolated self.old.largest self.old.kinds b.0 ≡ false) }
    {
        let mut meter = Meter::new();
        self.blocks.tree.lowest(order, &mut meter)
    }

    /// The first group of pages from this one on that may have a block of this order or more outside isolated pageblocks; else the number of groups.
    /// One group may be stopped at that has none of an order above 5, but has one of order 5 or more.
    pub fn bare_until(&self, group: usize, order: Order) -> usize
        ensures from { group ≤ result }
        ensures within { result ≤ max group MOST_GROUPS }
        ensures bare { IsBare (choosable self.now.largest self.now) order group result }
        ensures stops { GROUP_PAGES * result < length self.now.rows.states → HasBlockOf (choosable self.now.largest self.now) result (min order WORD_LEVELS) }
    {
        self.blocks.tree.bare_until(group, order)
    }

    /// The first group of pages from this one on, before `end`, that is not one block outside isolated pageblocks; else `end`.
    pub fn whole_until(&self, group: usize, end: usize) -> usize
        requires order { group ≤ end }
        requires inside { GROUP_PAGES * end ≤ length self.now.rows.states }
        ensures from { group ≤ result }
        ensures to { result ≤ end }
        ensures whole { IsWhole (choosable self.now.largest self.now) group result }
        ensures stops { result < end → Starts (choosable self.now.largest self.now) (GROUP_PAGES * result) GROUP_ORDER → ⊥ }
    {
        self.blocks.tree.whole_until(group, end)
    }

    /// The head in front of the list of an order and a type.
    pub fn front(&self, order: Order, kind: PageblockType) -> Option<PageAt>
        ensures answer { result ≡ front (free_list_of self.now.largest self.now order kind) }
        ensures on { IfSome result (IsOn (free_lists self.now.largest self.now) (list_number order kind)) }
        ensures starts { IfSome result (λ at. Starts (block_set self.now) at order) }
        ensures typed { IfSome result (λ at. kind ≡ kind_at self.now.largest self.now.kinds at) }
    {
        if order.number() > self.blocks.largest.number() {
            return None;
        }
        self.blocks.lists.front(list_of(order, kind))
    }

    /// The block in front of the first list of this type that is not empty, from an order on: its head, its order and the list's number.
    #[inline(always)]
    fn first_block(&self, order: Order, kind: PageblockType) -> Option<(PageAt, Order, usize)>
        ensures none { IfNone result (first_head self.now kind order ≡ None) }
        ensures some { IfSome result (λ b. first_head self.now kind order ≡ Some b.0) }
        ensures starts { IfSome result (λ b. Starts (block_set self.now) b.0 b.1 × (order ≤ b.1)) }
        ensures typed { IfSome result (λ b. kind ≡ kind_at self.now.largest self.now.kinds b.0) }
        ensures stands { IfSome result (λ b. (b.2 ≡ list_number b.1 kind) × (front (list_at self.now.rows.lists b.2) ≡ Some b.0)) }
    {
        let largest = self.blocks.largest.number();
        let lists = &self.blocks.lists;
        let mut number = order.number();
        // (counted up, as a product in the loop costs more)
        let mut list = list_of(order, kind);
        'orders: while number <= largest {
            if let Some(head) = lists.front(list) {
                return Some((head, Order::at(number), list));
            }
            number += 1;
            list += PAGEBLOCK_TYPES;
        }
        None
    }

    /// Takes the low part of this order of the first block of this type that is large enough, from the smallest order up. Its head, where
    /// there is such a block.
    #[inline(always)]
    pub fn take_first(&mut self, order: Order, kind: MigrateType) -> Option<PageAt>
        ensures none { IfNone result ((first_head self.old (pageblock_type kind) order ≡ None) × (self.new ≡ self.old)) }
        ensures some { IfSome result (λ at. (o : ℕ) × IsFirstTaken self.old (pageblock_type kind) order at o order self.new) }
    {
        let (head, found, list) = self.first_block(order, kind.pageblock_type())?;
        let block = ListedBlock {
            head,
            order: found,
            list,
            is_front: true,
        };
        self.take_low(block, order, kind);
        Some(head)
    }

    /// Takes pages in a row off the first block of this type: as many as it has, `most` of them or fewer. The first of them, and how many.
    #[inline(always)]
    pub fn take_first_pages(&mut self, kind: MigrateType, most: u32) -> Option<(PageAt, u32)>
        ensures none { IfNone result ((first_head self.old (pageblock_type kind) 0 ≡ None) × (self.new ≡ self.old)) }
        ensures some { IfSome result (λ r. (o : ℕ) × AreFirstTaken self.old (pageblock_type kind) most r.0 o r.1 self.new) }
    {
        let (head, found, list) = self.first_block(Order::zero(), kind.pageblock_type())?;
        let block = ListedBlock {
            head,
            order: found,
            list,
            is_front: true,
        };
        let whole = found.pages();
        if most < whole {
            self.take_pages(block, most, kind);
            return Some((head, most));
        }
        self.take_whole(block, kind);
        Some((head, whole))
    }

    /// The head after this one on the list of an order and a type.
    pub fn after(&self, order: Order, kind: PageblockType, at: PageAt) -> Option<PageAt>
        requires { IsOn (free_lists self.now.largest self.now) (list_number order kind) at }
        ensures answer { result ≡ after at (free_list_of self.now.largest self.now order kind) }
        ensures on { IfSome result (IsOn (free_lists self.now.largest self.now) (list_number order kind)) }
        ensures starts { IfSome result (λ at. Starts (block_set self.now) at order) }
        ensures typed { IfSome result (λ at. kind ≡ kind_at self.now.largest self.now.kinds at) }
    {
        self.blocks.lists.after(list_of(order, kind), at)
    }

    /// Whether a block of this order lies in a pageblock of another migrate type.
    fn is_beside(&self, order: Order, kind: MigrateType) -> bool
        ensures { IsTrue result ↔ ((h : ℕ) × Starts (block_set self.now) h order × IsOtherType kind (kind_at self.now.largest self.now.kinds h)) }
    {
        // a clause of this call says that the lists hold the heads of the blocks
        let _pages = self.pages();
        let [one, other] = kind.fallbacks();
        self.front(order, one.pageblock_type()).is_some()
            || self.front(order, other.pageblock_type()).is_some()
    }

    /// The largest order of a block in a pageblock of another migrate type that has the free pages that a claim needs. A block of half of a
    /// pageblock or more gives it these pages. The notes of the pageblocks show whether there are smaller ones only, when those that
    /// have changed are noted anew.
    pub fn largest_claimable(&mut self, kind: MigrateType) -> Option<Order>
        ensures answer { IsLargestClaimable self.old.largest self.old kind result }
        ensures same { self.new ≡ self.old }
    {
        let whole = self.blocks.largest.order();
        if self.is_beside(whole, kind) {
            return Some(whole);
        }
        let half = Order::at(self.blocks.largest.number() - 1);
        if self.is_beside(half, kind) {
            return Some(half);
        }
        noting::look_at_marked(&mut self.noted, &self.blocks);
        self.noted.claims.largest_beside(kind)
    }

    /// Whether a page stands on some list, a free or a further one. No list is walked.
    pub fn on_any(&self, at: PageAt) -> bool
        ensures { IsTrue result ↔ ((r : ℕ) × IsOn self.now.rows.lists r at) }
    {
        self.blocks.lists.on_any(at)
    }

    /// Notes what a page that is in no block holds.
    pub fn hold(&mut self, at: PageAt, state: State)
        requires page { at < length self.old.rows.states }
        requires used { has (cover (block_set self.old)) at ≡ false }
        requires note { IsNote state }
        ensures after { self.new ≡ noted self.old at state }
        ensures still_clear { (h k : ℕ) → IsClearRun self.old.largest self.old.rows.states self.old.rows.lists h k → IsClearRun self.old.largest self.new.rows.states self.new.rows.lists h k }
    {
        self.blocks.lists.set_state(at, state);
    }

    /// Notes this of so many clear pages in a row. Such pages are on no list, so that each entry is written whole.
    #[inline(always)]
    pub fn hold_run(&mut self, at: PageAt, pages: u32, state: State)
        requires run { at + pages ≤ length self.old.rows.states }
        requires clear { AreClearPages self.old.largest self.old.rows.states self.old.rows.lists at pages }
        requires note { IsNote state }
        ensures { self.new ≡ noted_run self.old at pages state }
    {
        self.blocks.lists.set_run(at, pages, state);
    }

    /// What is noted of a page.
    pub fn holding(&self, at: PageAt) -> State
        requires { at < length self.now.rows.states }
        ensures { result ≡ state_at self.now.rows.states at }
    {
        self.blocks.lists.state(at)
    }

    /// What is noted of a page, and its neighbours in its list.
    pub fn entry(&self, at: PageAt) -> LinkedPage
        requires { at < length self.now.rows.states }
        ensures state { result.state ≡ state_at self.now.rows.states at }
        ensures linked { IsLinkedAt self.now.rows.lists at result.back result.forward }
    {
        LinkedPage {
            state: self.blocks.lists.state(at),
            back: self.blocks.lists.back(at),
            forward: self.blocks.lists.forward(at),
        }
    }

    /// Puts a page that is in no block and on no list at the end of a further list.
    pub fn side_push_back(&mut self, list: usize, at: PageAt)
        requires list { lists_count self.old.largest + list < length self.old.rows.lists }
        requires page { at < length self.old.rows.states }
        requires used { has (cover (block_set self.old)) at ≡ false }
        requires loose { IsLoose self.old.rows.lists at }
        ensures { self.new ≡ side_pushed self.old.largest self.old list at }
    {
        self.blocks
            .lists
            .push_back(self.blocks.largest.lists() + list, at);
    }

    /// Takes the page in front of a further list.
    pub fn side_pop_front(&mut self, list: usize) -> Option<PageAt>
        requires { lists_count self.old.largest + list < length self.old.rows.lists }
        ensures answer { result ≡ front (side_list_of self.old.largest self.old list) }
        ensures after { self.new ≡ side_popped self.old.largest self.old list }
        ensures page { IfSome result (λ at. at < length self.new.rows.states) }
        ensures loose { IfSome result (IsLoose self.new.rows.lists) }
    {
        self.blocks
            .lists
            .pop_front(self.blocks.largest.lists() + list)
    }

    /// The page in front of a further list.
    pub fn side_front(&self, list: usize) -> Option<PageAt>
        requires { lists_count self.now.largest + list < length self.now.rows.lists }
        ensures { result ≡ front (side_list_of self.now.largest self.now list) }
    {
        self.blocks.lists.front(self.blocks.largest.lists() + list)
    }
}
