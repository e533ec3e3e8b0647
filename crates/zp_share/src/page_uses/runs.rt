//! Runs of pages among those of a worker: whether they are lent, and what becomes of them when they go out and come back.
//!
//! A run goes out as the blocks of its cut, and comes back by whatever blocks.
ghost use Rattle.std.specs.Prelude.{ℕ, ◌≡◌, ◌≤◌, ◌<◌, ◌+◌, ◌-◌, ◌^◌, IfNone, IfOk, IfSome, length, map, slice_set, true, false};
ghost use Rattle.zp_model.specs.declared.constants.TheConstants.{MAX_PAGES, ORDERS};
ghost use Rattle.zp_model.specs.Block.{head};
ghost use Rattle.zp_model.specs.Books.{own, type_of_page};
ghost use Rattle.zp_model.specs.Runs.{fitting_order, run_freed};
ghost use Rattle.zp_model.specs.Zone.{pages_of, workers_of};
ghost use Rattle.zp_share.specs.declared.page_use.PageUse.TheVariants.{Lent};
ghost use Rattle.zp_share.specs.PageUses.{AreUncached, HasSameCached, IsCutLent, IsLentWhereGot, IsOneBlock, IsPartFreed, IsRunOff, AreWholeBlocks, held, is_lent_as, is_lent_page, is_lent_run, use_at, uses_by};

use super::PageUses;
use crate::packed_use::PackedUse;
use crate::page_use::PageUse;
use zp_model::{LARGEST_ORDER, Largest, MigrateType, Order, PageAt, PageNo, Refused, Worker};
use zp_zone::{Zone, fitting_order};

impl PageUses {
    /// Whether so many pages from this absolute one on, one at least, are the zone's, and each lies in a lent block.
    #[inline(always)]
    pub fn is_lent_run(&self, page: PageNo, pages: u32) -> bool
        ensures { result ≡ is_lent_run self.now.base self.now.uses page pages }
    {
        if let Some(_order) = self.block_order(page, pages) {
            return true;
        }
        self.are_lent(page, pages)
    }

    /// The same, from block to block.
    // (out of line: most runs that are asked about are one block)
    #[inline(never)]
    fn are_lent(&self, page: PageNo, pages: u32) -> bool
        ensures { result ≡ is_lent_run self.now.base self.now.uses page pages }
    {
        let Some(from) = self.run_place(page, pages) else {
            return false;
        };
        let end = from + pages as usize;
        let mut next = from;
        'looks: while next < end {
            let Some(order) = self.lent_order(next) else {
                return false;
            };
            next = head_of(next, order) + order.pages() as usize;
        }
        true
    }

    /// The place of a run of so many absolute pages in the zone, where the run has a page and lies wholly there.
    fn run_place(&self, page: PageNo, pages: u32) -> Option<usize>
        ensures some { IfSome result (λ at. (self.now.base ≤ page) × (at ≡ page - self.now.base) × (1 ≤ pages) × (at + pages ≤ length self.now.uses)) }
        ensures none { IfNone result (self.now.base ≤ page → 1 ≤ pages → page - self.now.base + pages ≤ length self.now.uses → ⊥) }
    {
        let number = page.number() as usize;
        if pages == 0 || number < self.base {
            return None;
        }
        let at = number - self.base;
        if at + pages as usize > self.uses.len() {
            return None;
        }
        Some(at)
    }

    /// The order of the lent block that a page heads, where it heads one.
    #[inline(always)]
    fn headed_order(&self, at: usize) -> Option<Order>
        requires { at < length self.now.uses }
        ensures below { IfSome result (λ o. o < ORDERS) }
        ensures some { IfSome result (λ o. (head at o ≡ at) × (is_lent_as o (use_at self.now.uses (head at o)) ≡ true)) }
        ensures none { IfNone result ((k : ℕ) → head at k ≡ at → is_lent_as k (use_at self.now.uses at) ≡ false) }
    {
        let Some(order) = self.uses[at].lent_order() else {
            return None;
        };
        if head_of(at, order) != at {
            return None;
        }
        // a clause of this call says how large an order can be
        let _number = order.number();
        Some(order)
    }

    /// The order of the lent block that so many pages from this absolute one on are, where they are the zone's, and one.
    #[inline(always)]
    pub fn block_order(&self, page: PageNo, pages: u32) -> Option<Order>
        ensures some { IfSome result (IsOneBlock self.now.base self.now.uses page pages) }
        ensures lent { IfSome result (λ _. is_lent_run self.now.base self.now.uses page pages ≡ true) }
        ensures none { IfNone result ((k : ℕ) → IsOneBlock self.now.base self.now.uses page pages k → ⊥) }
    {
        let Some(at) = self.run_place(page, pages) else {
            return None;
        };
        self.order_of_run(at, pages)
    }

    /// The order of the lent block that so many pages from this one on are, where they are one.
    #[inline(always)]
    fn order_of_run(&self, at: usize, pages: u32) -> Option<Order>
        requires { at < length self.now.uses }
        ensures below { IfSome result (λ o. o < ORDERS) }
        ensures some { IfSome result (λ o. (head at o ≡ at) × (is_lent_as o (use_at self.now.uses (head at o)) ≡ true) × (2 ^ o ≡ pages)) }
        ensures none { IfNone result ((k : ℕ) → head at k ≡ at → 2 ^ k ≡ pages → is_lent_as k (use_at self.now.uses at) ≡ false) }
    {
        let Some(order) = self.headed_order(at) else {
            return None;
        };
        if order.pages() != pages {
            return None;
        }
        Some(order)
    }

    /// The order of the lent block in which a page lies, where it lies in one. The page itself is looked at first, and tells the order of a block that
    /// it heads. At most as many pages are looked at as there are orders, and one.
    fn lent_order(&self, at: usize) -> Option<Order>
        requires { at < length self.now.uses }
        ensures below { IfSome result (λ o. o < ORDERS) }
        ensures some { IfSome result (λ o. is_lent_as o (use_at self.now.uses (head at o)) ≡ true) }
        ensures none { IfNone result (is_lent_page self.now.uses at ≡ false) }
    {
        if let Some(headed) = self.headed_order(at) {
            return Some(headed);
        }
        let mut number = 0;
        'orders: while number <= LARGEST_ORDER {
            let order = Order::at(number);
            if self.uses[head_of(at, order)].is_lent(order) {
                return Some(order);
            }
            number += 1;
        }
        None
    }

    /// What a request for a run of so many pages, answered so, makes of the pages: those that were got are lent as the blocks of the run's cut, each
    /// for the type that is noted of its page. The zone may be as it is after the request.
    pub fn note_run(&mut self, zone: &Zone, pages: u32, got: &Result<PageNo, Refused>)
        requires zone { length self.old.uses ≡ pages_of zone.now.plain }
        requires run { IfOk got.now (λ page. IsRunOff self.old page pages) }
        ensures base { self.new.base ≡ self.old.base }
        ensures lent { IsLentWhereGot zone.now.plain pages got.now self.old self.new }
    {
        if let Ok(page) = got {
            self.lend_run(zone, *page, pages);
        }
    }

    /// So many pages from this one on, none of them on a list, are lent as the blocks of their run's cut, each for the type that is noted of its
    /// page.
    fn lend_run(&mut self, zone: &Zone, page: PageNo, pages: u32)
        requires zone { length self.old.uses ≡ pages_of zone.now.plain }
        requires run { IsRunOff self.old page pages }
        ensures base { self.new.base ≡ self.old.base }
        ensures lent { IsCutLent zone.now.plain.area.largest (type_of_page zone.now.plain) self.old.uses self.new.uses (page - self.old.base) pages }
    {
        // a clause of this call says how many pages there can be
        let _pages = zone.pages();
        let largest = zone.largest();
        let mut next = page.number() - self.base as u32;
        let mut left = pages;
        'tiles: while left > 0 {
            let at = PageAt::at(next);
            let kind = zone.noted_type(at);
            let lent = self.lend_first(largest, at, left, kind);
            next += lent;
            left -= lent;
        }
    }

    /// So many pages from this one on, none of them on a list, are lent for this type as the blocks of their run's cut.
    #[inline(never)]
    fn lend_cut(&mut self, largest: Largest, from: u32, pages: u32, kind: MigrateType)
        requires few { length self.old.uses ≤ MAX_PAGES }
        requires inside { from + pages ≤ length self.old.uses }
        requires uncached { AreUncached self.old.uses from pages }
        ensures base { self.new.base ≡ self.old.base }
        ensures lent { IsCutLent largest (λ _. kind) self.old.uses self.new.uses from pages }
    {
        let mut next = from;
        let mut left = pages;
        'tiles: while left > 0 {
            let lent = self.lend_first(largest, PageAt::at(next), left, kind);
            next += lent;
            left -= lent;
        }
    }

    /// The first block of the cut of so many pages is lent for this type: how many pages it has.
    #[inline(always)]
    fn lend_first(&mut self, largest: Largest, at: PageAt, pages: u32, kind: MigrateType) -> u32
        requires some { 0 < pages }
        requires inside { at < length self.old.uses }
        ensures size { result ≡ 2 ^ fitting_order largest at pages }
        ensures order { fitting_order largest at pages < ORDERS }
        ensures after { self.new ≡ record self.old { uses = slice_set self.old.uses at (Lent (fitting_order largest at pages) kind) } }
    {
        let order = fitting_order(largest, at, pages);
        // a clause of this call says how large an order can be
        let _number = order.number();
        self.set_at(at.index(), PageUse::Lent(order, kind));
        order.pages()
    }

    /// So many pages from this one on, all of them lent, are the worker's no more, by whatever blocks. What the blocks around the first and the last
    /// of them have beyond the run stays lent.
    pub fn free_run(&mut self, zone: &Zone, worker: Worker, page: PageNo, pages: u32)
        requires base { self.old.base ≡ zone.now.plain.base }
        requires known { worker < workers_of zone.now.plain }
        requires held { own worker zone.now.plain.out ≡ map (held worker) self.old.uses }
        requires lent { is_lent_run self.old.base self.old.uses page pages ≡ true }
        ensures base { self.new.base ≡ self.old.base }
        ensures held { own worker (run_freed zone.now.plain worker (page - self.old.base) pages).out ≡ map (held worker) self.new.uses }
        ensures cached { HasSameCached self.old.uses self.new.uses }
        ensures pages { length self.new.uses ≡ length self.old.uses }
    {
        // clauses of these calls say how many pages there can be, and how large a block
        let _pages = zone.pages();
        let largest = zone.largest();
        let _largest = largest.number();
        let mut next = page.number() - self.base as u32;
        let end = next + pages;
        'parts: while next < end {
            let freed = self.free_in_block(largest, next, end - next);
            next += freed;
        }
    }

    /// Frees the first of so many lent pages, those of the block around this page. What it has before and behind them stays lent. How many
    /// they are.
    fn free_in_block(&mut self, largest: Largest, at: u32, pages: u32) -> u32
        requires few { length self.old.uses ≤ MAX_PAGES }
        requires inside { at < length self.old.uses }
        requires some { 0 < pages }
        requires lent { is_lent_page self.old.uses at ≡ true }
        requires whole { AreWholeBlocks self.old.uses }
        ensures base { self.new.base ≡ self.old.base }
        ensures freed { IsPartFreed largest self.old.uses self.new.uses at pages result }
    {
        let Some(order) = self.lent_order(at as usize) else {
            unreachable!()
        };
        let head = head_of(at as usize, order);
        let first = head as u32;
        let end = first + order.pages();
        let freed = pages.min(end - at);
        let used = self.uses[head];
        self.set_at(head, PageUse::Away);
        if freed == order.pages() {
            return freed;
        }
        let Some(kind) = used.lent_kind(order) else {
            unreachable!()
        };
        let behind = at + freed;
        self.lend_cut(largest, first, at - first, kind);
        self.lend_cut(largest, behind, end - behind, kind);
        freed
    }

    /// The page at this place gets another use.
    #[inline(always)]
    fn set_at(&mut self, at: usize, used: PageUse)
        requires { at < length self.old.uses }
        ensures { self.new ≡ record self.old { uses = slice_set self.old.uses at used } }
    {
        self.uses[at] = PackedUse::new(used);
    }
}

/// The head of the aligned run of this order that a page lies in.
#[inline(always)]
fn head_of(at: usize, order: Order) -> usize
    ensures { result ≡ head at order }
{
    let pages = order.pages() as usize;
    at / pages * pages
}
