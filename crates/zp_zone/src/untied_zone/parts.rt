//! The parts of a refill and of a drain: pages of a block, which are taken and given back as one, and are out as single pages.
//!
//! A refill gets its pages one after another. While the request's type has a block of its own, the pages of that block are the next ones, the
//! lowest first: of a block of 16 pages the second take finds page 1, the third page 2, and so on, as what a split leaves is the smallest
//! block. So one split serves for them all. Pages of a block come back by one join, too, as what is free at last, and in which order the
//! lists have it, does not depend on the order of the pages. Where all pages of a drain are those of a run, the highest first, they come back
//! as a run. Linux takes and frees each page by itself.
ghost use Rattle.std.specs.Prelude.{ℕ, ◌≡◌, ◌<◌, ◌≤◌, ◌+◌, ◌-◌, ◌^◌, ◌++◌, length, take, slice_index_or, true, false, ◌↔◌, IfErr, IfOk, IsTrue};
ghost use Rattle.std.specs.List.{range_with_len};
ghost use Rattle.zp_model.specs.Zone.{workers_of};
ghost use Rattle.zp_model.specs.Mark.{is_above};
ghost use Rattle.zp_model.specs.Runs.{is_above_by};
ghost use Rattle.zp_model.specs.Step.{alloc, drained, refuse};
ghost use Rattle.zp_model.specs.Run.{is_distinct};
ghost use Rattle.zp_zone.specs.NamedZone.{AreOut};
ghost use Rattle.zp_zone.specs.Runs.{AreFalling, AreTurned, IsRunGot};

use super::UntiedZone;
use super::turned::turned_order;
use zp_model::{
    BASE_LIMIT, MAX_BATCH, MAX_PAGES, Mark, MigrateType, Order, PageAt, PageNo, Refused, State,
    Worker,
};

impl UntiedZone {
    /// The next part of a refill that wants so many pages more: pages in a row, each held to this mark and a block of order 0. They are those
    /// that so many requests for one page, one after another, would get. The first of them, and how many. Refused 10 or 11.
    // (in line: one call less for each part)
    #[inline(always)]
    pub fn alloc_part(
        &mut self,
        worker: Worker,
        kind: MigrateType,
        mark: Mark,
        most: u32,
    ) -> Result<(PageNo, u32), Refused>
        requires worker { worker < workers_of self.old.plain }
        requires some { 0 < most }
        ensures refused { IfErr result (λ why. alloc self.old.plain worker 0 kind mark ≡ refuse self.old.plain why) }
        ensures same { IfErr result (λ why. self.new ≡ self.old) }
        ensures got { IfOk result (λ part. IsRunGot self.old.plain self.new.plain worker kind mark part.0 part.1) }
        ensures some { IfOk result (λ part. 0 < part.1) }
        ensures name { IfOk result (λ part. self.new.name ≡ self.old.name) }
        ensures most { IfOk result (λ part. part.1 ≤ most) }
        ensures within { IfOk result (λ part. part.0 + part.1 ≤ BASE_LIMIT + MAX_PAGES) }
    {
        // a clause of this call says that what is noted as free is free
        let _pages = self.buddy.pages();
        let room = room_above(self.min, self.buddy.available_pages(), mark);
        if room == 0 {
            return Err(Refused::BelowMark);
        }
        let Some(run) = self.buddy.take_run(kind, most.min(room)) else {
            return Err(Refused::NoBlock);
        };
        let (head, count) = run;
        let state = State::Out(Order::zero(), kind, worker);
        self.buddy.hold_run(head, count, &state);
        Ok((PageNo::new(self.base + head.number()), count))
    }

    /// The order of the block whose pages stand first in the slice of a drain: 0 where the first page stands alone.
    #[inline(always)]
    pub fn part_order(&self, worker: Worker, pages: &[PageNo]) -> Order
        requires some { 0 < length pages.now }
        requires out { AreOut self.now.plain worker pages.now }
        ensures within { result ≤ self.now.plain.area.largest }
        ensures room { 2 ^ result ≤ length pages.now }
        ensures turned { AreTurned self.now.plain.base pages.now (slice_index_or pages.now 0 0 - self.now.plain.base) result }
    {
        // a clause of this call says that what is noted as free is free
        let _pages = self.buddy.pages();
        // the worker is named for the condition alone
        let _ = worker;
        let first = PageAt::at(pages[0].number() - self.base);
        turned_order(self.base, first, self.buddy.largest().order(), pages)
    }

    /// Frees the first pages of a drain, each a block of order 0: those of a block of this order come back as one.
    #[inline(always)]
    pub fn free_part(&mut self, worker: Worker, pages: &[PageNo], order: Order)
        requires worker { worker < workers_of self.old.plain }
        requires out { AreOut self.old.plain worker pages.now }
        requires distinct { IsTrue (is_distinct pages.now) }
        requires within { order ≤ self.old.plain.area.largest }
        requires room { 2 ^ order ≤ length pages.now }
        requires turned { AreTurned self.old.plain.base pages.now (slice_index_or pages.now 0 0 - self.old.plain.base) order }
        ensures after { self.new ≡ record self.old { plain = drained self.old.plain (take (2 ^ order) pages.now) } }
    {
        if order.number() == 0 {
            self.free(worker, pages[0], order);
            return;
        }
        // a clause of this call says that what is noted as free is free, which the next calls rest on
        let _pages = self.buddy.pages();
        let first = PageAt::at(pages[0].number() - self.base);
        let head = first.head(order);
        self.buddy.hold_run(head, order.pages(), &State::Tail);
        self.buddy.give(head, order);
    }

    /// Frees the pages of a drain, each a block of order 0, where they are those of a run, the highest first: they come back as its last
    /// blocks.
    #[inline(never)]
    pub fn free_falling(&mut self, worker: Worker, pages: &[PageNo])
        requires worker { worker < workers_of self.old.plain }
        requires out { AreOut self.old.plain worker pages.now }
        requires distinct { IsTrue (is_distinct pages.now) }
        requires some { 0 < length pages.now }
        requires falling { AreFalling pages.now }
        ensures after { self.new ≡ record self.old { plain = drained self.old.plain pages.now } }
    {
        // a clause of this call says that what is noted as free is free, which the next calls rest on
        let _pages = self.buddy.pages();
        // the worker is named for the condition alone
        let _ = worker;
        let count = pages.len();
        let first = PageAt::at(pages[count - 1].number() - self.base);
        self.buddy.hold_run(first, count as u32, &State::Tail);
        self.buddy.give_run(first, count as u32);
    }
}

/// How many pages may go out at a mark, one by one or as a run, with so many free pages.
pub fn room_above(min: u32, free: u32, mark: Mark) -> u32
    requires { min ≤ MAX_PAGES }
    ensures some { (i : ℕ) → i < result → is_above min (free - i) 0 mark ≡ true }
    ensures none { result ≡ 0 → is_above min free 0 mark ≡ false }
    ensures run { (n : ℕ) → 0 < n → n < 2 ^ 32 → (n ≤ result) ↔ (is_above_by min free n mark ≡ true) }
{
    match mark {
        Mark::Low => free.saturating_sub(min + min / 4),
        Mark::Min => free.saturating_sub(min),
        Mark::Any => u32::MAX,
    }
}

/// Writes the pages of a part, so many, into those of a refill, the first one at this place.
// (in line: a part of one page is written with no loop)
#[inline(always)]
pub fn put_part(pages: &mut [PageNo], at: usize, first: PageNo, count: u32)
    requires room { at + count ≤ length pages.old }
    requires within { first + count ≤ BASE_LIMIT + MAX_PAGES }
    ensures len { length pages.new ≡ length pages.old }
    ensures pages { take (at + count) pages.new ≡ take at pages.old ++ range_with_len first count }
{
    if count == 1 {
        pages[at] = first;
    } else {
        let to = at + count as usize;
        put_pages(&mut pages[at..to], first);
    }
}

/// Writes pages in a row over a slice, from this one on.
// (in line: over a slice of its own the loop reads no pointer and makes no test)
#[inline(always)]
fn put_pages(pages: &mut [PageNo], first: PageNo)
    requires { first + length pages.old ≤ BASE_LIMIT + MAX_PAGES }
    ensures { pages.new ≡ range_with_len first (length pages.old) }
{
    let mut next = first.number();
    for page in pages.iter_mut() {
        *page = PageNo::new(next);
        next += 1;
    }
}
