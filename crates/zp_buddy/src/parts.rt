//! Taking pages at whatever place out of the free blocks in which they lie.
//!
//! Of each of these blocks the least aligned run that has its taken pages is split off, so that the halves beside the run stay free; then what the run
//! has before and behind the pages comes back, block by block of its cut. None of these joins another: the buddy of each has a page that is taken.
//!
//! In Linux: `take_page_off_buddy`, with `break_down_buddy_pages`; `alloc_contig_range` takes such pages out of the free area too.
ghost use Rattle.std.specs.Prelude.{ℕ, ◌≡◌, ◌≤◌, ◌<◌, ◌+◌, ◌-◌, ◌%◌, ◌^◌, true, false, length};
ghost use Rattle.zp_model.specs.Block.{has, head};
ghost use Rattle.zp_model.specs.BlockSet.{Starts, cover};
ghost use Rattle.zp_model.specs.Frames.{with_area};
ghost use Rattle.zp_model.specs.Runs.{IsFreeRun, has_pages};
ghost use Rattle.zp_model.specs.Take.{leave};
ghost use Rattle.zp_area.specs.Blocks.{block_set};
ghost use Rattle.zp_buddy.specs.Choices.{area_in, frames_in};
ghost use Rattle.zp_buddy.specs.Parts.{IsGivenBack, IsLeftBetween, IsLeftRun, MayComeBefore, MayComeBehind};
ghost use Rattle.zp_buddy.specs.Sound.{IsSound};

use crate::at::is_free_run;
use crate::cut::{covering_order, fitting_order};
use crate::split::take_block;
use zp_area::FreeArea;
use zp_model::{Order, PageAt};

/// Takes so many pages from this one on, where all of them are free: whether they are. Most lie in one free block.
pub fn take_pages(area: &mut FreeArea, at: PageAt, pages: u32) -> bool
    requires some { 0 < pages }
    requires inside { at + pages ≤ length area.old.rows.states }
    requires sound { IsSound area.old.largest area.old.rows.states area.old.kinds area.old.rows.lists }
    ensures when { result ≡ has_pages (cover (block_set area.old)) at pages }
    ensures taken { result ≡ true → IsLeftRun area.old area.new at pages }
    ensures left { result ≡ false → area.new ≡ area.old }
{
    // a clause of this call says that all that is kept is of one set of blocks
    let _pages = area.pages();
    let Some(order) = area.order_around(at) else {
        return false;
    };
    let block_end = at.head(order).number() + order.pages();
    let end = at.number() + pages;
    if end <= block_end {
        take_part(area, order, at, pages);
        return true;
    }
    if !is_free_run(area, PageAt::at(block_end), end - block_end) {
        return false;
    }
    take_part(area, order, at, block_end - at.number());
    take_blocks(area, block_end, end);
    true
}

/// Takes the block of this order at a page that heads no free block, where all of its pages are free: whether they are. One larger free block has
/// them all then.
#[inline(always)]
pub fn take_inside(area: &mut FreeArea, at: PageAt, order: Order) -> bool
    requires aligned { at % 2 ^ order ≡ 0 }
    requires within { order ≤ area.old.largest }
    requires beside { (k : ℕ) → Starts (block_set area.old) at k → ⊥ }
    requires sound { IsSound area.old.largest area.old.rows.states area.old.kinds area.old.rows.lists }
    ensures when { result ≡ has_pages (cover (block_set area.old)) at (2 ^ order) }
    ensures taken { result ≡ true → IsLeftRun area.old area.new at (2 ^ order) }
    ensures left { result ≡ false → area.new ≡ area.old }
{
    // a clause of this call says that all that is kept is of one set of blocks
    let _pages = area.pages();
    let Some(found) = area.order_above(at, order) else {
        return false;
    };
    area.split_towards(at, found, order);
    true
}

/// Takes the low part of order `order` of the free block of order `found` that a page heads. It is split off, as a request's block is; in an isolated
/// pageblock, of which no request gets a block, it leaves as pages at any place do.
#[inline(always)]
pub fn take_low_part(area: &mut FreeArea, at: PageAt, found: Order, order: Order)
    requires down { order ≤ found }
    requires free { Starts (block_set area.old) at found }
    requires sound { IsSound area.old.largest area.old.rows.states area.old.kinds area.old.rows.lists }
    ensures largest { area.new.largest ≡ area.old.largest }
    ensures sound { IsSound area.old.largest area.new.rows.states area.new.kinds area.new.rows.lists }
    ensures pages { length area.new.rows.states ≡ length area.old.rows.states }
    ensures kinds { area.new.kinds ≡ area.old.kinds }
    ensures after { frames_in area.old.largest area.new ≡ with_area (frames_in area.old.largest area.old) (leave (frames_in area.old.largest area.old).area at order) }
{
    // a clause of this call says that all that is kept is of one set of blocks
    let _pages = area.pages();
    let pageblock = area.largest().pageblock_of(at);
    if let Some(kind) = area.type_of(pageblock).migrate_type() {
        take_block(area, at, found, kind, order);
        return;
    }
    take_part(area, found, at, order.pages());
}

/// Takes the pages from this one up to `end`, all of them free, from free block to free block. The first heads one, as no page before it is free.
fn take_blocks(area: &mut FreeArea, from: u32, end: u32)
    requires some { 0 < from }
    requires up { from ≤ end }
    requires inside { end ≤ length area.old.rows.states }
    requires free { IsFreeRun (area_in area.old.largest area.old) from (end - from) }
    requires before { has (cover (block_set area.old)) (from - 1) ≡ false }
    requires sound { IsSound area.old.largest area.old.rows.states area.old.kinds area.old.rows.lists }
    ensures { (e : ℕ) × IsLeftBetween area.old area.new from (end - from) from e }
{
    // a clause of this call says how many pages there can be
    let _pages = area.pages();
    let mut next = from;
    'heads: while next < end {
        // a clause of this call says that all that is kept is of one set of blocks
        let _pages = area.pages();
        let head = PageAt::at(next);
        let Some(order) = area.order_headed(head) else {
            unreachable!()
        };
        let taken = order.pages().min(end - next);
        take_part(area, order, head, taken);
        next += taken;
    }
}

/// Takes so many pages from this one on out of the free block of this order in which they lie: the least aligned run that has them all is split off,
/// and then what it has before and behind them comes back.
fn take_part(area: &mut FreeArea, order: Order, at: PageAt, pages: u32)
    requires some { 0 < pages }
    requires block { Starts (block_set area.old) (head at order) order }
    requires within { at + pages ≤ head at order + 2 ^ order }
    requires sound { IsSound area.old.largest area.old.rows.states area.old.kinds area.old.rows.lists }
    ensures { IsLeftBetween area.old area.new at pages (head at order) (head at order + 2 ^ order) }
{
    // a clause of this call says that all that is kept is of one set of blocks
    let _pages = area.pages();
    let run = covering_order(area.largest(), at, pages, order);
    let head = at.head(run);
    let taken = at.number();
    let behind = taken + pages;
    let end = head.number() + run.pages();
    area.split_towards(head, order, run);
    add_before(area, head.number(), taken);
    add_behind(area, behind, end);
}

/// Adds the pages from this one up to one that is taken, block by block of their cut: those before it of the block that has left.
#[inline(always)]
fn add_before(area: &mut FreeArea, from: u32, taken: u32)
    requires may { MayComeBefore area.old from taken }
    requires sound { IsSound area.old.largest area.old.rows.states area.old.kinds area.old.rows.lists }
    ensures { IsGivenBack area.old area.new from (taken - from) }
{
    // a clause of this call says how many pages there can be
    let _pages = area.pages();
    let largest = area.largest();
    let mut next = from;
    'tiles: while next < taken {
        let head = PageAt::at(next);
        let order = fitting_order(largest, head, taken - next);
        area.add(head, order);
        next += order.pages();
    }
}

/// Adds the pages from this one, which is behind one that is taken, up to the end of the block that has left, block by block of their cut.
#[inline(always)]
fn add_behind(area: &mut FreeArea, from: u32, end: u32)
    requires may { MayComeBehind area.old from end }
    requires sound { IsSound area.old.largest area.old.rows.states area.old.kinds area.old.rows.lists }
    ensures { IsGivenBack area.old area.new from (end - from) }
{
    // a clause of this call says how many pages there can be
    let _pages = area.pages();
    let largest = area.largest();
    let mut next = from;
    'tiles: while next < end {
        let head = PageAt::at(next);
        let order = fitting_order(largest, head, end - next);
        area.add(head, order);
        next += order.pages();
    }
}
