//! A zone under load, as a user would keep it: its blocks that were lent.

use crate::random::{Checksum, Random, below};
use crate::source::LoadSource;
use crate::unmade::Unmade;
use std::alloc::Global;
use zp_model::{MigrateType, Order, PageNo};

/// A block that is lent.
#[derive(Clone, Copy, Drop)]
pub struct LentBlock {
    page: PageNo,
    order: Order,
}

/// A source with nothing lent at first, the numbers drawn so far, and the checksum of the pages returned.
#[derive(Drop)]
pub struct DrawnLoad<S> {
    pub source: S,
    /// The pages of the zone.
    pages: u32,
    lent: Vec<LentBlock>,
    /// The pages of the lent blocks.
    lent_pages: u64,
    pub random: Random,
    checksum: Checksum,
}

impl<S: LoadSource> DrawnLoad<S> {
    /// Over a zone of so many pages, with room for as many lent blocks.
    pub fn new(alloc: Global, pages: u32) -> Result<DrawnLoad<S>, Unmade> {
        let lent = Vec::with_capacity(alloc, pages as usize)?;
        Ok(DrawnLoad {
            source: S::new(alloc, pages)?,
            pages,
            lent,
            lent_pages: 0,
            random: Random::seeded(),
            checksum: Checksum::new(),
        })
    }

    pub fn checksum(&self) -> u64 {
        self.checksum.value()
    }

    /// Adds a number of returned pages to the checksum.
    pub fn count(&mut self, pages: usize) {
        self.checksum.add(pages as u64);
    }

    /// How many pages the zone has.
    pub fn pages(&self) -> u64 {
        u64::from(self.pages)
    }

    /// How many pages are lent.
    pub fn lent_pages(&self) -> u64 {
        self.lent_pages
    }

    /// Takes a block: its page, which counts into the checksum.
    // (a page alone is handed on in a register)
    #[inline(always)]
    fn taken(&mut self, order: Order, kind: MigrateType) -> Option<PageNo> {
        let taken = self.source.take(order, kind);
        self.checksum.add_page(&taken);
        taken
    }

    /// Takes a block; its page counts into the checksum.
    pub fn take(&mut self, order: Order, kind: MigrateType) -> Option<LentBlock> {
        match self.taken(order, kind) {
            Some(page) => Some(LentBlock { page, order }),
            None => None,
        }
    }

    /// Frees a block, where it is lent.
    pub fn give(&mut self, lent: LentBlock) {
        self.source.give(lent.page, lent.order);
    }

    /// Allocates a block and frees it.
    pub fn pair(&mut self, order: Order, kind: MigrateType) {
        if let Some(page) = self.taken(order, kind) {
            self.source.give(page, order);
        }
    }

    /// Takes a block, and keeps it as the last one. Returns whether there was one.
    #[inline(always)]
    pub fn lend(&mut self, order: Order, kind: MigrateType) -> Result<bool, Unmade> {
        let Some(page) = self.taken(order, kind) else {
            return Ok(false);
        };
        if self.lent.push(LentBlock { page, order }).is_err() {
            return Err(Unmade::AllocError);
        }
        self.lent_pages = self.lent_pages.saturating_add(u64::from(order.pages()));
        Ok(true)
    }

    /// Takes blocks of this order for this type until there is none.
    pub fn lend_all(&mut self, order: Order, kind: MigrateType) -> Result<(), Unmade> {
        for _ in 0..self.pages {
            if !self.lend(order, kind)? {
                break;
            }
        }
        Ok(())
    }

    /// Frees the block at a place; the last one moves to its place.
    pub fn give_at(&mut self, place: usize) {
        if place < self.lent.len() {
            let lent = self.lent.swap_remove(place);
            self.lent_pages = self
                .lent_pages
                .saturating_sub(u64::from(lent.order.pages()));
            self.give(lent);
        }
    }

    /// Frees one of the lent blocks, the one that a drawn number picks.
    pub fn give_drawn(&mut self, drawn: u64) {
        if !self.lent.is_empty() {
            let place = below(drawn, self.lent.len());
            self.give_at(place);
        }
    }

    /// Frees each block whose first page is picked.
    pub fn give_picked<F: Fn(u32) -> bool>(&mut self, is_picked: F)
        requires { F.IsAlwaysCallable is_picked }
    {
        let mut place = 0;
        for _ in 0..self.lent.len() {
            if place >= self.lent.len() {
                break;
            }
            if is_picked(self.lent[place].page.number()) {
                self.give_at(place);
            } else {
                place += 1;
            }
        }
    }

    /// Frees all, in the order in which they came.
    pub fn give_in_order(&mut self) {
        for place in 0..self.lent.len() {
            if place < self.lent.len() {
                let lent = self.lent[place];
                self.give(lent);
            }
        }
        self.lent.clear();
        self.lent_pages = 0;
    }

    /// Frees all, the last one first.
    pub fn give_all(&mut self) {
        for _ in 0..self.lent.len() {
            if let Some(lent) = self.lent.pop() {
                self.give(lent);
            }
        }
        self.lent_pages = 0;
    }
}
