//! The buddy allocator of one zone.
//!
//! In Linux: the `free_area` of a `struct zone`, `__rmqueue` and `__free_one_page`.
ghost use Rattle.std.specs.Prelude.{ℕ, ◌≡◌, ◌<◌, ◌≤◌, ◌+◌, ◌++◌, ◌∷◌, [], ◌^◌, ◌*◌, ◌%◌, ◌↔◌, false, length, map, min, slice_get, slice_index_or, slice_set, true, IfNone, IfOk, IfSome, IsTrue, None};
ghost use Rattle.std.specs.List.{range_with_len};
ghost use Rattle.zp_model.specs.Choose.{origin};
ghost use Rattle.zp_model.specs.Block.{IsBlock, has, in_run, size};
ghost use Rattle.zp_model.specs.Info.{blocks_of_type, counts_by_type, counts_of};
ghost use Rattle.zp_model.specs.Rows.{IsLoose, IsOn, after, front, list_at, rest, state_at, with_run};
ghost use Rattle.zp_model.specs.Described.{IsLinkedAt};
ghost use Rattle.zp_model.specs.Frames.{frames_opening, with_area, IsNote, IsFramed, IsClear, given};
ghost use Rattle.zp_model.specs.declared.pageblock_type.PageblockType.TheVariants.{Movable};
ghost use Rattle.zp_model.specs.declared.state.State.TheVariants.{Free};
ghost use Rattle.zp_model.specs.BlockSet.{largest_in, max_blocks};
ghost use Rattle.zp_model.specs.Area.{available, list_number, free_list, kind_at, pageblock_pages, pageblocks_of, size_in};
ghost use Rattle.zp_model.specs.Runs.{IsFreeRun, has_pages, leave_run};
ghost use Rattle.zp_model.specs.Take.{leave, retype, take_answer, take_after, take_low_answer, take_low_after};
ghost use Rattle.zp_model.specs.declared.constants.TheConstants.{LARGEST_BLOCK_PAGES, LARGEST_ORDER, MAX_PAGES};
ghost use Rattle.zp_buddy.specs.Bare.{AreAtHand, HasBlockFrom, IsBareTo};
ghost use Rattle.zp_tree.specs.declared.constants.TheConstants.{WORD_LEVELS};
ghost use Rattle.zp_buddy.specs.FallingRuns.{AreTails, falling_run};
ghost use Rattle.zp_buddy.specs.Runs.{AreClear, gives, pages_taken, pages_left, run_length, run_pages};

use crate::at::take_whole;
use crate::choice;
use crate::clear::{is_block, is_clear_run};
use crate::falling::give_falling;
use crate::join::join;
use crate::opening::add_all_pages;
use crate::parts::{take_inside, take_low_part, take_pages};
use crate::split::take_block;
use crate::takes::{take, take_run};
use std::alloc::{AllocError, Global};
use std::marker::Model;
use zp_area::{FreeArea, LinkedPage};
use zp_model::{
    Counts, CountsByType, Largest, MAX_PAGES, MigrateType, ORDERS, Order, Origin, PageAt,
    PageblockType, State,
};
use zp_tree::GROUP_PAGES;

/// The free blocks of a zone, what is noted of its other pages, and further lists of those pages. Contracts see the plain
/// free area with these.
#[derive(Drop)]
pub struct Buddy {
    area: FreeArea,
    free: u32,
}

impl Model for Buddy {
    ghost use Rattle.zp_model.specs.Frames.{Frames};
    ghost use Rattle.zp_buddy.specs.Choices.{frames_in};
    ghost use Rattle.zp_buddy.specs.Held.{IsHeld};

    ghost Value = { Frames };

    ghost view = { λ b. frames_in b.area.largest b.area };

    ghost invariant = { λ b. IsHeld b.area.largest b.area b.free };
}

impl Buddy {
    /// A zone of so many pages, all free, whose blocks have at most the largest order, with so many empty further lists.
    pub fn new(
        alloc: Global,
        pages: u32,
        largest: Largest,
        side: usize,
    ) -> Result<Buddy, AllocError>
        requires pages { pages ≤ MAX_PAGES }
        requires side { side < 2 ^ 32 }
        ensures { IfOk result (λ b. b ≡ frames_opening largest pages side) }
    {
        let mut area = FreeArea::new(alloc, pages, largest, side)?;
        add_all_pages(&mut area);
        Ok(Buddy { area, free: pages })
    }

    /// Takes a block of this order for this type: the smallest of its own lists that serves; or else the largest of another
    /// type whose pageblock it may claim, which then gets the type; or else the smallest of another type.
    pub fn take(&mut self, order: Order, kind: MigrateType) -> Option<PageAt>
        ensures answer { result ≡ take_answer self.old.area order kind }
        ensures after { self.new ≡ with_area self.old (take_after self.old.area order kind) }

        // What the calls after it can rest on.
        ensures head { IfSome result (λ at. (at < length self.new.states) × (has self.new.area.free at ≡ false)) }
        ensures clear { IfSome result (λ at. IsClear self.new at order) }
        ensures kept { (h k : ℕ) → IsClear self.old h k → IsClear self.new h k }
    {
        let head = take(&mut self.area, order, kind)?;
        self.free -= order.pages();
        Some(head)
    }

    /// Where the block comes from that such a request takes, where it takes one.
    // (mutable, as what is noted of the blocks that can be claimed is brought up to date)
    pub fn origin(&mut self, order: Order, kind: MigrateType) -> Option<Origin>
        ensures answer { result ≡ origin self.old.area order kind }
        ensures same { self.new ≡ self.old }
    {
        choice::origin(&mut self.area, order, kind)
    }

    /// Takes pages in a row for this type, as many as a block has, `most` of them or fewer: those that so many requests for one page, one
    /// after another, would take. The first of them, and how many.
    // (in line: a refill calls it for each part)
    #[inline(always)]
    pub fn take_run(&mut self, kind: MigrateType, most: u32) -> Option<(PageAt, u32)>
        requires { 0 < most }
        ensures none { IfNone result ((take_answer self.old.area 0 kind ≡ None) × (self.new ≡ self.old)) }
        ensures count { IfSome result (λ r. r.1 ≡ run_length self.old.area kind most) }
        ensures answers { IfSome result (λ r. pages_taken self.old.area kind r.1 ≡ run_pages r.0 r.1) }
        ensures after { IfSome result (λ r. self.new ≡ with_area self.old (pages_left self.old.area kind r.1)) }

        // What the calls after it can rest on.
        ensures some { IfSome result (λ r. 0 < r.1) }
        ensures most { IfSome result (λ r. r.1 ≤ most) }
        ensures clear { IfSome result (λ r. AreClear self.new r.0 r.1) }
        ensures kept { (h k : ℕ) → IsClear self.old h k → IsClear self.new h k }
    {
        let run = take_run(&mut self.area, kind, most)?;
        self.free -= run.1;
        Some(run)
    }

    /// Takes the lowest run of this order: the low part of the block of this order or more with the least head, of whatever type,
    /// outside isolated pageblocks.
    pub fn take_low(&mut self, order: Order) -> Option<PageAt>
        ensures answer { result ≡ take_low_answer self.old.area order }
        ensures after { self.new ≡ with_area self.old (take_low_after self.old.area order) }

        // What the calls after it can rest on.
        ensures head { IfSome result (λ at. (at < length self.new.states) × (has self.new.area.free at ≡ false)) }
        ensures clear { IfSome result (λ at. IsClear self.new at order) }
        ensures kept { (h k : ℕ) → IsClear self.old h k → IsClear self.new h k }
    {
        let (head, found) = self.area.lowest(order)?;
        let kind = self.type_of(head).noted();
        take_block(&mut self.area, head, found, kind, order);
        let pages = order.pages();
        self.free -= pages;
        Some(head)
    }

    /// A page before which no free block of this order or more begins that ends past page `from`, outside isolated pageblocks. It is found by
    /// groups of pages: in the group from there on one begins, or one of order 5 or more, unless that is past the last page.
    pub fn bare_until(&self, from: u32, order: Order) -> u32
        requires { from ≤ MAX_PAGES }
        ensures within { result ≤ MAX_PAGES }
        ensures near { from < result + LARGEST_BLOCK_PAGES }
        ensures bare { IsBareTo self.now.area order from result }
        ensures stops { result < length self.now.area.free → HasBlockFrom self.now.area (min order WORD_LEVELS) result LARGEST_BLOCK_PAGES }
    {
        // a clause of this call says how large a block can be
        let _largest = self.area.largest().number();
        let group = (from / GROUP_PAGES) as usize;
        self.area.bare_until(group, order) as u32 * GROUP_PAGES
    }

    /// The end of free pages outside isolated pageblocks from page `from` on, before `end`, as far as whole groups of pages have nothing else. A
    /// group that is a block of the largest order is passed where it has nothing else.
    pub fn whole_until(&self, from: u32, end: u32) -> u32
        requires order { from ≤ end }
        requires inside { end ≤ length self.now.area.free }
        ensures from { from ≤ result }
        ensures to { result ≤ end }
        ensures pages { AreAtHand self.now.area from result }
        ensures border { from < result → result % LARGEST_BLOCK_PAGES ≡ 0 }
        ensures stops { self.now.area.largest ≡ LARGEST_ORDER → result % LARGEST_BLOCK_PAGES ≡ 0 → result + LARGEST_BLOCK_PAGES ≤ end → AreAtHand self.now.area result (result + LARGEST_BLOCK_PAGES) → ⊥ }
    {
        if from % GROUP_PAGES != 0 {
            return from;
        }
        // a clause of this call says how many pages there can be
        let _pages = self.area.pages();
        let group = (from / GROUP_PAGES) as usize;
        self.area.whole_until(group, (end / GROUP_PAGES) as usize) as u32 * GROUP_PAGES
    }

    /// The order of the free block that a page heads, where it heads one.
    #[inline(always)]
    pub fn order_headed(&self, at: PageAt) -> Option<Order>
        ensures some { IfSome result (λ o. state_at self.now.states at ≡ Free o) }
        ensures none { IfNone result ((k : ℕ) → state_at self.now.states at ≡ Free k → ⊥) }
    {
        self.area.order_headed(at)
    }

    /// Takes a free block whole.
    #[inline(always)]
    pub fn take_whole(&mut self, at: PageAt, order: Order)
        requires { state_at self.old.states at ≡ Free order }
        ensures block { IsBlock self.old.area.largest (length self.old.area.free) at order }
        ensures free { IsFreeRun self.old.area at (2 ^ order) }
        ensures after { self.new ≡ with_area self.old (leave self.old.area at order) }

        // What the calls after it can rest on.
        ensures head { (at < length self.new.states) × (has self.new.area.free at ≡ false) }
        ensures clear { IsClear self.new at order }
        ensures kept { (h k : ℕ) → IsClear self.old h k → IsClear self.new h k }
    {
        // a clause of this call says that all that is kept is of one set of blocks
        let _pages = self.area.pages();
        take_whole(&mut self.area, at, order);
        let pages = order.pages();
        self.free -= pages;
    }

    /// Takes the low part of this order of the free block of order `found` that a page heads.
    // (in line, as `take_whole` is)
    #[inline(always)]
    pub fn take_low_part(&mut self, at: PageAt, found: Order, order: Order)
        requires free { state_at self.old.states at ≡ Free found }
        requires down { order ≤ found }
        ensures block { IsBlock self.old.area.largest (length self.old.area.free) at order }
        ensures free { IsFreeRun self.old.area at (2 ^ order) }
        ensures after { self.new ≡ with_area self.old (leave self.old.area at order) }

        // What the calls after it can rest on.
        ensures head { (at < length self.new.states) × (has self.new.area.free at ≡ false) }
        ensures clear { IsClear self.new at order }
        ensures kept { (h k : ℕ) → IsClear self.old h k → IsClear self.new h k }
    {
        // a clause of this call says that all that is kept is of one set of blocks
        let _pages = self.area.pages();
        take_low_part(&mut self.area, at, found, order);
        let pages = order.pages();
        self.free -= pages;
    }

    /// Takes the block of this order at a page that heads no free block, where all of its pages are free, of whatever type and in an isolated pageblock
    /// too: whether they are.
    // (in line, as `take_whole` is)
    #[inline(always)]
    pub fn take_inside(&mut self, at: PageAt, order: Order) -> bool
        requires block { IsBlock self.old.area.largest (length self.old.area.free) at order }
        requires beside { (k : ℕ) → state_at self.old.states at ≡ Free k → ⊥ }
        ensures when { result ≡ has_pages self.old.area.free at (2 ^ order) }
        ensures after { result ≡ true → self.new ≡ with_area self.old (leave_run self.old.area at (2 ^ order)) }
        ensures left { result ≡ false → self.new ≡ self.old }

        // What the calls after it can rest on.
        ensures head { result ≡ true → (at < length self.new.states) × (has self.new.area.free at ≡ false) }
        ensures clear { result ≡ true → IsClear self.new at order }
        ensures kept { (h k : ℕ) → IsClear self.old h k → IsClear self.new h k }
    {
        // a clause of this call says that all that is kept is of one set of blocks
        let _pages = self.area.pages();
        if !take_inside(&mut self.area, at, order) {
            return false;
        }
        let pages = order.pages();
        self.free -= pages;
        true
    }

    /// Takes so many pages from this one on, where all of them are free, of whatever type and in isolated pageblocks too: whether they are.
    pub fn take_pages(&mut self, at: PageAt, pages: u32) -> bool
        requires some { 0 < pages }
        requires inside { at + pages ≤ length self.old.area.free }
        ensures when { result ≡ has_pages self.old.area.free at pages }
        ensures after { result ≡ true → self.new ≡ with_area self.old (leave_run self.old.area at pages) }
        ensures left { result ≡ false → self.new ≡ self.old }

        // What the calls after it can rest on.
        ensures clear { result ≡ true → AreClear self.new at pages }
        ensures kept { (h k : ℕ) → IsClear self.old h k → IsClear self.new h k }
    {
        if !take_pages(&mut self.area, at, pages) {
            return false;
        }
        self.free -= pages;
        true
    }

    /// Whether this is a block of which no page is free or on a further list.
    pub fn is_clear(&self, at: PageAt, order: Order) -> bool
        ensures { IsTrue result ↔ IsClear self.now at order }
    {
        is_block(&self.area, at, order) && is_clear_run(&self.area, at, order)
    }

    /// Frees a block, joined with its free buddies.
    pub fn give(&mut self, at: PageAt, order: Order)
        requires { IsClear self.old at order }
        ensures { self.new ≡ given self.old at order }
    {
        join(&mut self.area, at, order);
        self.free += order.pages();
    }

    /// Frees pages in a row, of which nothing is noted, as they would be one after another, the highest first.
    pub fn give_run(&mut self, at: PageAt, pages: u32)
        requires clear { AreClear self.old at pages }
        requires tails { AreTails self.old at (at + pages) }
        ensures { self.new ≡ with_area self.old (gives self.old.area (falling_run at pages)) }
    {
        give_falling(&mut self.area, at, pages);
        self.free += pages;
    }

    /// The order of the largest block.
    pub fn largest(&self) -> Largest
        ensures { result ≡ self.now.area.largest }
    {
        self.area.largest()
    }

    /// How many pages the zone has. The frames of a buddy allocator note as free what is free.
    pub fn pages(&self) -> u32
        ensures pages { result ≡ length self.now.states }
        ensures within { result ≤ MAX_PAGES }
        ensures framed { IsFramed self.now }
    {
        self.area.pages()
    }

    /// Notes what a page that is not free holds.
    pub fn hold(&mut self, at: PageAt, state: State)
        requires page { at < length self.old.states }
        requires used { has self.old.area.free at ≡ false }
        requires note { IsNote state }
        ensures after { self.new ≡ record self.old { states = slice_set self.old.states at state } }
        ensures kept { (h k : ℕ) → IsClear self.old h k → IsClear self.new h k }
    {
        self.area.hold(at, state);
    }

    /// Notes this of so many clear pages in a row.
    // (in line: a single page is noted with no loop)
    #[inline(always)]
    pub fn hold_run(&mut self, at: PageAt, pages: u32, state: &State)
        requires clear { AreClear self.old at pages }
        requires note { IsNote state.now }
        ensures after { self.new ≡ record self.old { states = with_run self.old.states at pages state.now } }
    {
        // a clause of this call says that each page has a note
        let _pages = self.pages();
        if pages == 1 {
            self.hold(at, *state);
        } else {
            self.area.hold_run(at, pages, *state);
        }
    }

    /// The type of a page's pageblock.
    pub fn type_of(&self, at: PageAt) -> PageblockType
        requires { at < length self.now.states }
        ensures { result ≡ kind_at self.now.area.largest self.now.area.kinds at }
    {
        // a clause of this call says that each pageblock has a type
        let _pages = self.area.pages();
        self.area.type_of(self.area.largest().pageblock_of(at))
    }

    /// How many pageblocks there are.
    pub fn pageblocks(&self) -> usize
        ensures typed { result ≡ length self.now.area.kinds }
        ensures pages { result ≡ pageblocks_of self.now.area.largest (length self.now.area.free) }
    {
        // the invariant is at hand where a field is
        let _free = self.free;
        self.area.pageblocks()
    }

    /// The type of a pageblock.
    pub fn pageblock_type(&self, pageblock: usize) -> PageblockType
        requires { pageblock < length self.now.area.kinds }
        ensures { result ≡ slice_index_or self.now.area.kinds pageblock Movable }
    {
        self.area.type_of(pageblock)
    }

    /// How many pages of a pageblock are free.
    pub fn free_in(&self, pageblock: usize) -> u32
        requires { pageblock < length self.now.area.kinds }
        ensures { result ≡ size_in self.now.area.largest self.now.area.free pageblock }
    {
        self.area.free_in(pageblock)
    }

    /// The order of the largest free block in a pageblock, where there is one.
    pub fn largest_in(&self, pageblock: usize) -> Option<Order>
        requires { pageblock < length self.now.area.kinds }
        ensures { result ≡ largest_in (max_blocks self.now.area.largest self.now.area.free) (pageblock * pageblock_pages self.now.area.largest) self.now.area.largest }
    {
        self.area.largest_in(pageblock)
    }

    /// Gives a pageblock a type. Its free blocks go to the lists of the type, the highest in front. None of an isolated one is taken
    /// until it gets another type.
    pub fn retype(&mut self, pageblock: usize, kind: PageblockType)
        requires { pageblock < length self.old.area.kinds }
        ensures after { self.new ≡ with_area self.old (retype self.old.area pageblock kind) }
        ensures kept { (h k : ℕ) → IsClear self.old h k → IsClear self.new h k }
    {
        self.area.retype(pageblock, kind);
    }

    /// What is noted of a page.
    pub fn holding(&self, at: PageAt) -> State
        requires { at < length self.now.states }
        ensures { result ≡ state_at self.now.states at }
    {
        self.area.holding(at)
    }

    /// What the page table has of a page: its note, and its neighbours in its list, be it a free list or a further one.
    pub fn entry(&self, at: PageAt) -> LinkedPage
        requires { at < length self.now.states }
        ensures state { result.state ≡ state_at self.now.states at }
        ensures linked { IsLinkedAt (self.now.area.lists ++ self.now.sides) at result.back result.forward }
    {
        self.area.entry(at)
    }

    /// The block in front of the free list of an order and a type.
    pub fn front(&self, order: Order, kind: PageblockType) -> Option<PageAt>
        ensures answer { result ≡ front (free_list self.now.area order kind) }
        ensures on { IfSome result (λ at. IsOn self.now.area.lists (list_number order kind) at) }
    {
        self.area.front(order, kind)
    }

    /// The block after this one on the free list of an order and a type.
    pub fn after(&self, order: Order, kind: PageblockType, at: PageAt) -> Option<PageAt>
        requires { IsOn self.now.area.lists (list_number order kind) at }
        ensures answer { result ≡ after at (free_list self.now.area order kind) }
        ensures on { IfSome result (λ next. IsOn self.now.area.lists (list_number order kind) next) }
    {
        self.area.after(order, kind, at)
    }

    /// Puts a page that is not free, and that stands on no further list, at the end of one.
    pub fn side_push_back(&mut self, list: usize, at: PageAt)
        requires list { list < length self.old.sides }
        requires page { at < length self.old.states }
        requires used { has self.old.area.free at ≡ false }
        requires loose { IsLoose self.old.sides at }
        ensures after { self.new ≡ record self.old { sides = slice_set self.old.sides list (list_at self.old.sides list ++ at ∷ []) } }

        // What the calls after it can rest on: each block that does not have the page stays clear.
        ensures kept { (h k : ℕ) → in_run h k at ≡ false → IsClear self.old h k → IsClear self.new h k }
    {
        self.area.side_push_back(list, at);
    }

    /// Takes the page in front of a further list.
    pub fn side_pop_front(&mut self, list: usize) -> Option<PageAt>
        requires { list < length self.old.sides }
        ensures answer { result ≡ front (list_at self.old.sides list) }
        ensures after { self.new ≡ record self.old { sides = slice_set self.old.sides list (rest (list_at self.old.sides list)) } }

        // What the calls after it can rest on.
        ensures head { IfSome result (λ at. (at < length self.new.states) × (has self.new.area.free at ≡ false)) }
        ensures loose { IfSome result (IsLoose self.new.sides) }
        ensures kept { (h k : ℕ) → IsClear self.old h k → IsClear self.new h k }
    {
        self.area.side_pop_front(list)
    }

    /// The page in front of a further list.
    pub fn side_front(&self, list: usize) -> Option<PageAt>
        requires { list < length self.now.sides }
        ensures { result ≡ front (list_at self.now.sides list) }
    {
        self.area.side_front(list)
    }

    /// How many free pages there are. What is noted as free is free.
    pub fn free_pages(&self) -> u32
        ensures pages { result ≡ size self.now.area.free }
        ensures framed { IsFramed self.now }
    {
        self.free
    }

    /// How many free pages lie outside isolated pageblocks.
    pub fn available_pages(&self) -> u32
        ensures { result ≡ size (available self.now.area.largest self.now.area.kinds self.now.area.free) }
    {
        self.free - self.area.isolated_pages()
    }

    /// How many free blocks of each order there are, and how many free pages, those of isolated pageblocks with them.
    pub fn counts(&self) -> Counts
        ensures { result ≡ counts_of self.now.area.largest self.now.area.free }
    {
        // (filled where they are returned: a copy of what was just stored waits for it)
        let mut counts = Counts {
            by_order: [0; ORDERS],
            free: self.free,
        };
        let mut order = Order::zero();
        'orders: loop {
            counts.by_order[order.index()] = self.area.count(order);
            if order == self.area.largest().order() {
                break;
            }
            order = order.higher();
        }
        counts
    }

    /// How many free blocks of each order there are in the pageblocks of each type, and how many pageblocks of each type.
    pub fn counts_by_type(&self) -> CountsByType
        ensures { result ≡ counts_by_type self.now.area.largest self.now.area.free self.now.area.kinds }
    {
        CountsByType {
            free: [
                self.blocks_of_type(PageblockType::Unmovable),
                self.blocks_of_type(PageblockType::Reclaimable),
                self.blocks_of_type(PageblockType::Movable),
                self.blocks_of_type(PageblockType::Isolate),
            ],
            pageblocks: [
                self.area.pageblocks_of_type(PageblockType::Unmovable),
                self.area.pageblocks_of_type(PageblockType::Reclaimable),
                self.area.pageblocks_of_type(PageblockType::Movable),
                self.area.pageblocks_of_type(PageblockType::Isolate),
            ],
        }
    }

    /// How many free blocks of each order there are in the pageblocks of a type.
    fn blocks_of_type(&self, kind: PageblockType) -> [u32; ORDERS]
        ensures { result ≡ map (blocks_of_type self.now.area.largest self.now.area.free self.now.area.kinds kind) (range_with_len 0 ORDERS) }
    {
        let mut blocks = [0; ORDERS];
        let mut order = Order::zero();
        'orders: loop {
            blocks[order.index()] = self.area.count_of_type(order, kind);
            if order == self.area.largest().order() {
                break;
            }
            order = order.higher();
        }
        blocks
    }
}
