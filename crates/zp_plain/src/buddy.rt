//! The free area of one zone.
ghost use Rattle.std.specs.Prelude.{ℕ, ◌≡◌, ◌<◌, ◌≤◌, ◌+◌, ◌*◌, ◌^◌, ◌↔◌, false, length, slice_index_or, slice_set, IfOk, IfSome, IsTrue};
ghost use Rattle.zp_model.specs.Block.{has, size};
ghost use Rattle.zp_model.specs.Info.{counts_of};
ghost use Rattle.zp_model.specs.Rows.{IsOn, after, front, state_at};
ghost use Rattle.zp_model.specs.Frames.{frames_opening, given, with_area, IsNote, IsFramed, IsClear};
ghost use Rattle.zp_model.specs.Area.{available, list_number, free_list, kind_at, pageblock_pages, pageblocks_of, size_in};
ghost use Rattle.zp_model.specs.BlockSet.{largest_in, max_blocks};
ghost use Rattle.zp_model.specs.declared.pageblock_type.PageblockType.TheVariants.{Movable};
ghost use Rattle.zp_model.specs.Runs.{give_run, leave_run};
ghost use Rattle.zp_plain.specs.Clear.{IsClearRun};
ghost use Rattle.zp_model.specs.Take.{retype, take_answer, take_after, take_low_answer, take_low_after};

use crate::block::size;
use crate::choose::choose;
use crate::frames::{is_clear, is_clear_run, restate_all};
use crate::info::counts;
use crate::page_row::{PageRow, empty_rows};
use crate::room::PLAIN_PAGES;
use crate::take::PlainArea;
use std::alloc::{AllocError, Global};
use std::marker::Model;
use zp_model::{Counts, Largest, MigrateType, Order, PageAt, PageblockType, State};

/// The free area of a zone, what is noted of its pages, and further lists of pages that are not free. Contracts see the
/// plain free area with these.
#[derive(Drop)]
pub struct PlainBuddy {
    area: PlainArea,
    notes: Vec<State>,
    sides: Vec<PageRow>,
}

impl Model for PlainBuddy {
    ghost use Rattle.zp_model.specs.Frames.{Frames, IsFramed};

    ghost Value = { Frames };

    ghost view = { λ b. record { area = b.area; states = b.notes.items; sides = b.sides.items } };

    ghost invariant = { λ b. IsFramed (record { area = b.area; states = b.notes.items; sides = b.sides.items }) };
}

impl PlainBuddy {
    /// A zone of so many pages, all free, whose largest block has this order, with so many empty further lists.
    pub fn new(
        alloc: Global,
        pages: u32,
        largest: Largest,
        side: usize,
    ) -> Result<PlainBuddy, AllocError>
        requires pages { pages ≤ PLAIN_PAGES }
        requires side { side < 2 ^ 32 }
        ensures { IfOk result (λ b. b ≡ frames_opening largest pages side) }
    {
        let area = PlainArea::new(alloc, pages, largest)?;
        let sides = empty_rows(alloc, side)?;
        let mut notes = Vec::from_elem(alloc, State::Tail, pages as usize)?;
        restate_all(largest, area.marks(), &mut notes);
        Ok(PlainBuddy { area, notes, sides })
    }

    /// Takes a block of this order for this type, as the lists offer it: of the type's own, or of a pageblock that is claimed,
    /// or of another type's.
    pub fn take(&mut self, order: Order, kind: MigrateType) -> Option<PageAt>
        ensures answer { result ≡ take_answer self.old.area order kind }
        ensures after { self.new ≡ with_area self.old (take_after self.old.area order kind) }

        // What the calls after it can rest on.
        ensures head { IfSome result (λ at. (at < length self.new.states) × (has self.new.area.free at ≡ false)) }
        ensures clear { IfSome result (λ at. IsClear self.new at order) }
        ensures kept { (h k : ℕ) → IsClear self.old h k → IsClear self.new h k }
    {
        // a clause of this call says that the lists have what belongs there
        let _marks = self.area.marks();
        let chosen = choose(&self.area, order, kind)?;
        let head = chosen.head;
        self.area.take_chosen(chosen, order, kind);
        restate_all(self.area.largest(), self.area.marks(), &mut self.notes);
        Some(head)
    }

    /// Takes the lowest run of this order of the free pages: the low part of the block of this order or more with the least
    /// head, of whatever type, outside isolated pageblocks.
    pub fn take_low(&mut self, order: Order) -> Option<PageAt>
        ensures answer { result ≡ take_low_answer self.old.area order }
        ensures after { self.new ≡ with_area self.old (take_low_after self.old.area order) }

        // What the calls after it can rest on.
        ensures head { IfSome result (λ at. (at < length self.new.states) × (has self.new.area.free at ≡ false)) }
        ensures clear { IfSome result (λ at. IsClear self.new at order) }
        ensures kept { (h k : ℕ) → IsClear self.old h k → IsClear self.new h k }
    {
        let head = self.area.take_low(order)?;
        restate_all(self.area.largest(), self.area.marks(), &mut self.notes);
        Some(head)
    }

    /// The type of a page's pageblock.
    pub fn type_of(&self, at: PageAt) -> PageblockType
        requires { at < length self.now.states }
        ensures { result ≡ kind_at self.now.area.largest self.now.area.kinds at }
    {
        self.area.kind_at(at)
    }

    /// Whether this is a block of which no page is free or on a further list.
    pub fn is_clear(&self, at: PageAt, order: Order) -> bool
        ensures { IsTrue result ↔ IsClear self.now at order }
    {
        let largest = self.area.largest();
        is_clear(largest, self.area.marks(), &self.sides, at, order)
    }

    /// Frees a block.
    pub fn give(&mut self, at: PageAt, order: Order)
        requires { IsClear self.old at order }
        ensures { self.new ≡ given self.old at order }
    {
        self.area.give(at, order);
        self.notes[at.index()] = State::Tail;
        restate_all(self.area.largest(), self.area.marks(), &mut self.notes);
    }

    /// Takes so many pages from this one on.
    pub fn leave_run(&mut self, at: PageAt, pages: u32)
        ensures { self.new ≡ with_area self.old (leave_run self.old.area at pages) }
    {
        self.area.leave_run(at, pages);
        restate_all(self.area.largest(), self.area.marks(), &mut self.notes);
    }

    /// Whether none of so many pages from this one on is free or on a further list.
    pub fn is_clear_run(&self, at: PageAt, pages: u32) -> bool
        requires { at + pages ≤ PLAIN_PAGES }
        ensures { IsTrue result ↔ IsClearRun self.now.area.free self.now.sides at pages }
    {
        is_clear_run(self.area.marks(), &self.sides, at, pages)
    }

    /// Frees so many pages from this one on. What is noted of them stays.
    pub fn give_run(&mut self, at: PageAt, pages: u32)
        requires { IsClearRun self.old.area.free self.old.sides at pages }
        ensures { self.new ≡ with_area self.old (give_run self.old.area at pages) }
    {
        self.area.give_run(at, pages);
        restate_all(self.area.largest(), self.area.marks(), &mut self.notes);
    }

    /// The order of the largest block.
    pub fn largest(&self) -> Largest
        ensures { result ≡ self.now.area.largest }
    {
        self.area.largest()
    }

    /// How many pages the zone has. What is noted as free is what is free.
    pub fn pages(&self) -> u32
        ensures pages { result ≡ length self.now.states }
        ensures within { result ≤ PLAIN_PAGES }
        ensures framed { IsFramed self.now }
    {
        // a clause of this call says that the zone is no larger than a zone can be
        let _marks = self.area.marks();
        self.notes.len() as u32
    }

    /// Notes what a page that is not free holds.
    pub fn hold(&mut self, at: PageAt, state: State)
        requires page { at < length self.old.states }
        requires used { has self.old.area.free at ≡ false }
        requires note { IsNote state }
        ensures after { self.new ≡ record self.old { states = slice_set self.old.states at state } }
        ensures kept { (h k : ℕ) → IsClear self.old h k → IsClear self.new h k }
    {
        self.notes[at.index()] = state;
    }

    /// How many pageblocks there are.
    pub fn pageblocks(&self) -> usize
        ensures typed { result ≡ length self.now.area.kinds }
        ensures pages { result ≡ pageblocks_of self.now.area.largest (length self.now.area.free) }
    {
        // a clause of this call says that each pageblock has a type
        let _marks = self.area.marks();
        self.area.pageblocks()
    }

    /// The type of a pageblock.
    pub fn pageblock_type(&self, pageblock: usize) -> PageblockType
        requires { pageblock < length self.now.area.kinds }
        ensures { result ≡ slice_index_or self.now.area.kinds pageblock Movable }
    {
        self.area.pageblock_type(pageblock)
    }

    /// How many pages of a pageblock are free.
    pub fn free_in(&self, pageblock: usize) -> u32
        requires { pageblock < length self.now.area.kinds }
        ensures { result ≡ size_in self.now.area.largest self.now.area.free pageblock }
    {
        self.area.free_in(pageblock)
    }

    /// The order of the largest free block in a pageblock, where there is one.
    pub fn largest_in(&self, pageblock: usize) -> Option<Order>
        requires { pageblock < length self.now.area.kinds }
        ensures { result ≡ largest_in (max_blocks self.now.area.largest self.now.area.free) (pageblock * pageblock_pages self.now.area.largest) self.now.area.largest }
    {
        self.area.largest_in(pageblock)
    }

    /// Gives a pageblock a type. None of the free blocks of an isolated one is taken until it gets another type.
    pub fn retype(&mut self, pageblock: usize, kind: PageblockType)
        requires { pageblock < length self.old.area.kinds }
        ensures after { self.new ≡ with_area self.old (retype self.old.area pageblock kind) }
        ensures kept { (h k : ℕ) → IsClear self.old h k → IsClear self.new h k }
    {
        self.area.retype(pageblock, kind);
        restate_all(self.area.largest(), self.area.marks(), &mut self.notes);
    }

    /// What is noted of a page.
    pub fn holding(&self, at: PageAt) -> State
        requires { at < length self.now.states }
        ensures { result ≡ state_at self.now.states at }
    {
        self.notes[at.index()]
    }

    /// The block in front of the free list of an order and a type.
    pub fn front(&self, order: Order, kind: PageblockType) -> Option<PageAt>
        ensures answer { result ≡ front (free_list self.now.area order kind) }
        ensures on { IfSome result (λ at. IsOn self.now.area.lists (list_number order kind) at) }
    {
        self.area.front(order, kind)
    }

    /// The block after this one on the free list of an order and a type.
    pub fn after(&self, order: Order, kind: PageblockType, at: PageAt) -> Option<PageAt>
        requires { IsOn self.now.area.lists (list_number order kind) at }
        ensures answer { result ≡ after at (free_list self.now.area order kind) }
        ensures on { IfSome result (λ next. IsOn self.now.area.lists (list_number order kind) next) }
    {
        self.area.after(order, kind, at)
    }

    /// How many free pages there are. What is noted as free is free.
    pub fn free_pages(&self) -> u32
        ensures pages { result ≡ size self.now.area.free }
        ensures framed { IsFramed self.now }
    {
        size(self.area.marks())
    }

    /// How many free pages lie outside isolated pageblocks.
    pub fn available_pages(&self) -> u32
        ensures { result ≡ size (available self.now.area.largest self.now.area.kinds self.now.area.free) }
    {
        self.area.available()
    }

    /// How many free blocks of each order there are, and how many free pages.
    pub fn counts(&self) -> Counts
        ensures { result ≡ counts_of self.now.area.largest self.now.area.free }
    {
        counts(self.area.largest(), self.area.marks())
    }
}
