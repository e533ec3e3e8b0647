//! The free area: what `Take.antt` says of giving and taking. Marks or types change, and the lists are settled anew.
ghost use Rattle.std.specs.Prelude.{◌≡◌, ◌<◌, ◌≤◌, ◌+◌, ◌*◌, length, slice_index_or, IfOk, Some};
ghost use Rattle.zp_model.specs.declared.constants.TheConstants.{ORDERS};
ghost use Rattle.zp_plain.specs.declared.room.TheConstants.{PLAIN_PAGES};
ghost use Rattle.zp_model.specs.Rows.{after, front};
ghost use Rattle.zp_model.specs.Area.{available, free_list, kind_at, opening, pageblock_pages, size_in};
ghost use Rattle.zp_model.specs.Block.{size};
ghost use Rattle.zp_model.specs.BlockSet.{largest_in, max_blocks};
ghost use Rattle.zp_model.specs.declared.pageblock_type.PageblockType.TheVariants.{Movable};
ghost use Rattle.zp_model.specs.Runs.{give_run, leave_run};
ghost use Rattle.zp_model.specs.Take.{give, leave, retype, taken, take_low_after, take_low_answer};
ghost use Rattle.zp_plain.specs.Chosen.{as_chosen};
ghost use Rattle.zp_plain.specs.Sound.{IsSoundArea};

use crate::area::{available_size, kind_at, list_of, settle, size_in};
use crate::block::{add_pages, remove_pages};
use crate::block_set::{largest_in, lowest};
use crate::choose::PlainChoice;
use crate::page_row::{PageRow, empty_rows};
use crate::room::PLAIN_PAGES;
use std::alloc::{AllocError, Global};
use std::marker::Model;
use zp_model::{Largest, MigrateType, Order, PageAt, PageblockType};

/// A free area, as the definitions have it, and a list where lists are settled.
#[derive(Drop)]
pub struct PlainArea {
    largest: Largest,
    free: Vec<bool>,
    kinds: Vec<PageblockType>,
    lists: Vec<PageRow>,
    scratch: PageRow,
}

impl Model for PlainArea {
    ghost use Rattle.zp_model.specs.Area.{Area};
    ghost use Rattle.zp_plain.specs.Sound.{IsSoundArea};

    ghost Value = { Area };

    ghost view = { λ a. record { largest = a.largest; free = a.free.items; kinds = a.kinds.items; lists = a.lists.items } };

    ghost invariant = { λ a. IsSoundArea (record { largest = a.largest; free = a.free.items; kinds = a.kinds.items; lists = a.lists.items }) };
}

impl PlainArea {
    /// All pages free, and all pageblocks Movable, where this is the largest order.
    pub fn new(alloc: Global, pages: u32, largest: Largest) -> Result<PlainArea, AllocError>
        requires { pages ≤ PLAIN_PAGES }
        ensures { IfOk result (λ a. a ≡ opening largest pages) }
    {
        let free = Vec::from_elem(alloc, true, pages as usize)?;
        let kinds = Vec::from_elem(alloc, PageblockType::Movable, largest.pageblocks(pages))?;
        let mut lists = empty_rows(alloc, largest.lists())?;
        let mut scratch = PageRow::new(alloc)?;
        settle(largest, &free, &kinds, &mut lists, &mut scratch);
        Ok(PlainArea {
            largest,
            free,
            kinds,
            lists,
            scratch,
        })
    }

    /// The order of its largest block.
    pub fn largest(&self) -> Largest
        ensures { result ≡ self.now.largest }
    {
        self.largest
    }

    /// How many orders its blocks may have.
    pub fn orders(&self) -> usize
        ensures largest { result ≡ self.now.largest + 1 }
        ensures within { result ≤ ORDERS }
    {
        usize::from(self.largest.number()) + 1
    }

    /// The free list of an order and a type, which is empty where no block has the order.
    pub fn list(&self, order: Order, kind: PageblockType) -> &[PageAt]
        ensures { result.now ≡ free_list self.now order kind }
    {
        match self.lists.get(list_of(order, kind)) {
            Some(row) => row.as_slice(),
            None => &[],
        }
    }

    /// The front of the free list of an order and a type.
    pub fn front(&self, order: Order, kind: PageblockType) -> Option<PageAt>
        ensures { result ≡ front (free_list self.now order kind) }
    {
        self.lists.get(list_of(order, kind))?.front()
    }

    /// The page after this one on the free list of an order and a type.
    pub fn after(&self, order: Order, kind: PageblockType, at: PageAt) -> Option<PageAt>
        ensures { result ≡ after at (free_list self.now order kind) }
    {
        self.lists.get(list_of(order, kind))?.after(at)
    }

    /// Whether each page is free.
    pub fn marks(&self) -> &[bool]
        ensures marks { result.now ≡ self.now.free }
        ensures sound { IsSoundArea self.now }
    {
        &self.free
    }

    /// How many pageblocks there are.
    pub fn pageblocks(&self) -> usize
        ensures { result ≡ length self.now.kinds }
    {
        self.kinds.len()
    }

    /// The type of a pageblock.
    pub fn pageblock_type(&self, pageblock: usize) -> PageblockType
        requires { pageblock < length self.now.kinds }
        ensures { result ≡ slice_index_or self.now.kinds pageblock Movable }
    {
        self.kinds[pageblock]
    }

    /// How many pages of a pageblock are free.
    pub fn free_in(&self, pageblock: usize) -> u32
        requires { pageblock < length self.now.kinds }
        ensures { result ≡ size_in self.now.largest self.now.free pageblock }
    {
        size_in(self.largest, &self.free, pageblock)
    }

    /// The order of the largest free block in a pageblock, where there is one.
    pub fn largest_in(&self, pageblock: usize) -> Option<Order>
        requires { pageblock < length self.now.kinds }
        ensures { result ≡ largest_in (max_blocks self.now.largest self.now.free) (pageblock * pageblock_pages self.now.largest) self.now.largest }
    {
        largest_in(self.largest, &self.free, pageblock)
    }

    /// How many free pages lie outside isolated pageblocks.
    pub fn available(&self) -> u32
        ensures { result ≡ size (available self.now.largest self.now.kinds self.now.free) }
    {
        available_size(self.largest, &self.free, &self.kinds)
    }

    /// A pageblock gets a type.
    pub fn retype(&mut self, pageblock: usize, kind: PageblockType)
        requires { pageblock < length self.old.kinds }
        ensures { self.new ≡ retype self.old pageblock kind }
    {
        self.kinds[pageblock] = kind;
        settle(
            self.largest,
            &self.free,
            &self.kinds,
            &mut self.lists,
            &mut self.scratch,
        );
    }

    /// So many pages from this one on leave the free ones.
    pub fn leave_run(&mut self, first: PageAt, pages: u32)
        ensures after { self.new ≡ leave_run self.old first pages }
        ensures sound { IsSoundArea self.old }
    {
        remove_pages(&mut self.free, first, pages);
        settle(
            self.largest,
            &self.free,
            &self.kinds,
            &mut self.lists,
            &mut self.scratch,
        );
    }

    /// So many pages from this one on become free.
    pub fn give_run(&mut self, first: PageAt, pages: u32)
        ensures after { self.new ≡ give_run self.old first pages }
        ensures sound { IsSoundArea self.old }
    {
        add_pages(&mut self.free, first, pages);
        settle(
            self.largest,
            &self.free,
            &self.kinds,
            &mut self.lists,
            &mut self.scratch,
        );
    }

    /// The pages of a block leave the free ones.
    fn leave(&mut self, head: PageAt, order: Order)
        ensures { self.new ≡ leave self.old head order }
    {
        self.leave_run(head, order.pages());
    }

    /// The pages of a block become free.
    pub fn give(&mut self, head: PageAt, order: Order)
        ensures after { self.new ≡ give self.old head order }
        ensures sound { IsSoundArea self.old }
    {
        self.give_run(head, order.pages());
    }

    /// The type of a page's pageblock.
    pub fn kind_at(&self, at: PageAt) -> PageblockType
        requires { at < length self.now.free }
        ensures { result ≡ kind_at self.now.largest self.now.kinds at }
    {
        kind_at(self.largest, &self.kinds, at)
    }

    /// Takes the low run of this order of the lowest block that has it, outside isolated pageblocks.
    pub fn take_low(&mut self, order: Order) -> Option<PageAt>
        ensures answer { result ≡ take_low_answer self.old order }
        ensures after { self.new ≡ take_low_after self.old order }
    {
        let (head, _) = lowest(self.largest, &self.free, &self.kinds, order)?;
        self.leave(head, order);
        Some(head)
    }

    /// Takes the chosen block.
    pub fn take_chosen(&mut self, chosen: PlainChoice, order: Order, kind: MigrateType)
        requires { chosen.head < length self.old.free }
        ensures { self.new ≡ taken self.old order kind (Some (as_chosen chosen)) }
    {
        // a clause of this call says that there is a type for each pageblock
        let _marks = self.marks();
        let PlainChoice { head, claims } = chosen;
        if claims {
            let pageblock = self.largest().pageblock_of(head);
            self.retype(pageblock, kind.pageblock_type());
        }
        self.leave(head, order);
    }
}
