//! Linux's two indexes of a zone, by its own integer arithmetic.
//!
//! In Linux: `mm/vmstat.c`, where each figure is named as in brackets here.
ghost use Rattle.std.specs.Prelude.{◌≡◌, ◌<◌, ◌≤◌, ◌+◌, ◌*◌, ◌^◌, ℕ, List, length, sum, slice_index, IfSome, IfNone};
ghost use Rattle.zp_buddyinfo.specs.Figures.{suitable_blocks, free_pages, AreFreeBlocks, unusable_index, fragmentation_index, largest_order};

use crate::bounds::{ORDERS, PAGE_LIMIT, WHOLE};
use arrayvec::ArrayVec;
use std::marker::Model;

/// How far a request fails for fragmentation, in thousandths.
#[derive(Clone, Copy, PartialEq, Eq, Debug, Drop)]
pub enum FragmentationIndex {
    /// A free block is large enough: Linux's -1000.
    Served,
    /// No block is free: Linux's 0.
    NothingFree,
    /// So many above 0: towards 0 for want of memory, towards 1000 for fragmentation.
    Above(u64),
    /// So many below 0, as Linux's formula has it where one block alone is free.
    Below(u64),
}

/// How many free blocks a zone has of each order from 0 on: of one order at least, and of no more orders and pages than the bounds say.
#[derive(Drop)]
pub struct FreeBlocks {
    by_order: ArrayVec<u64, ORDERS>,
}

impl Model for FreeBlocks {
    ghost use Rattle.std.specs.Prelude.{ℕ, List};
    ghost use Rattle.zp_buddyinfo.specs.Figures.{AreFreeBlocks};

    ghost Value = { List ℕ };

    ghost view = { λ b. b.by_order.items };

    ghost invariant = { λ b. AreFreeBlocks b.by_order.items };
}

/// The pages of such blocks, where they are below the limit.
fn checked_pages(blocks: &[u64]) -> Option<u64>
    ensures some { IfSome result (λ pages. (pages ≡ free_pages blocks.now) × (pages < PAGE_LIMIT)) }
    ensures none { IfNone result (PAGE_LIMIT ≤ free_pages blocks.now) }
{
    let mut pages = 0;
    let mut order = blocks.len();
    while order > 0 {
        order -= 1;
        let count = blocks[order];
        if count >= PAGE_LIMIT {
            return None;
        }
        pages = count + 2 * pages;
        if pages >= PAGE_LIMIT {
            return None;
        }
    }
    Some(pages)
}

/// So many counts together.
fn sum_of(counts: &[u64]) -> u64
    requires { sum counts.now < 2 ^ 64 }
    ensures { result ≡ sum counts.now }
{
    counts.iter().sum()
}

/// The largest order of which there is a block.
fn largest_of(blocks: &[u64]) -> Option<usize>
    ensures largest { result ≡ largest_order blocks.now }
    ensures within { IfSome result (λ k. k < length blocks.now) }
{
    let mut order = blocks.len();
    while order > 0 {
        order -= 1;
        if blocks[order] > 0 {
            return Some(order);
        }
    }
    None
}

impl FreeBlocks {
    /// So many blocks of each order, where these may be a zone's.
    pub fn new(by_order: ArrayVec<u64, ORDERS>) -> Option<FreeBlocks>
        ensures some { IfSome result (λ blocks. (blocks ≡ by_order.items) × AreFreeBlocks blocks) }
        ensures none { IfNone result (AreFreeBlocks by_order.items → ⊥) }
    {
        if by_order.is_empty() || checked_pages(by_order.as_slice()).is_none() {
            return None;
        }
        Some(FreeBlocks { by_order })
    }

    /// How many of each order.
    pub fn by_order(&self) -> &[u64]
        ensures blocks { result.now ≡ self.now }
        ensures sound { AreFreeBlocks self.now }
    {
        self.by_order.as_slice()
    }

    /// The blocks of all orders together [`free_blocks_total`].
    pub fn total(&self) -> u64
        ensures { result ≡ sum self.now }
    {
        sum_of(self.by_order.as_slice())
    }

    /// The free pages [`free_pages`].
    pub fn free_pages(&self) -> u64
        ensures pages { result ≡ free_pages self.now }
        ensures sound { AreFreeBlocks self.now }
    {
        self.suitable_blocks(0)
    }

    /// The blocks of an order that lie in free blocks of it and above [`free_blocks_suitable`].
    pub fn suitable_blocks(&self, order: usize) -> u64
        requires { order ≤ length self.now }
        ensures blocks { result ≡ suitable_blocks self.now order }
        ensures within { result * 2 ^ order ≤ free_pages self.now }
        ensures sound { AreFreeBlocks self.now }
    {
        let blocks = self.by_order.as_slice();
        let mut suitable = 0;
        let mut next = blocks.len();
        while next > order {
            next -= 1;
            suitable = blocks[next] + 2 * suitable;
        }
        suitable
    }

    /// The largest order of which a block is free.
    pub fn largest(&self) -> Option<usize>
        ensures largest { result ≡ largest_order self.now }
        ensures within { IfSome result (λ k. k < ORDERS) }
    {
        largest_of(self.by_order.as_slice())
    }

    /// The unusable free space index, in thousandths [`unusable_free_index`].
    pub fn unusable_index(&self, order: usize) -> u64
        requires { order < length self.now }
        ensures { result ≡ unusable_index self.now order }
    {
        let free = self.free_pages();
        if free == 0 {
            return WHOLE;
        }
        (free - (self.suitable_blocks(order) << order)) * WHOLE / free
    }

    /// The fragmentation index [`__fragmentation_index`].
    pub fn fragmentation_index(&self, order: usize) -> FragmentationIndex
        requires { order < length self.now }
        ensures { result ≡ fragmentation_index self.now order }
    {
        let total = self.total();
        if total == 0 {
            return FragmentationIndex::NothingFree;
        }
        if self.suitable_blocks(order) > 0 {
            return FragmentationIndex::Served;
        }
        let want = (WHOLE + (self.free_pages() * WHOLE >> order)) / total;
        if want <= WHOLE {
            FragmentationIndex::Above(WHOLE - want)
        } else {
            FragmentationIndex::Below(want - WHOLE)
        }
    }
}
