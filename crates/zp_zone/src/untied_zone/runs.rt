//! The requests for runs of pages at any place, without seats. Each is one step of the plain zone.
//!
//! A run goes out as the blocks of its cut: aligned blocks that tile it from its first page on, each as large as its place, the rest of the run
//! and the largest order allow. Taking them in rising order leaves what taking the run at once does.
//!
//! In Linux: `alloc_contig_range`, and `memblock_reserve` while a kernel boots.
ghost use Rattle.std.specs.Prelude.{ℕ, ◌≡◌, ◌≤◌, ◌<◌, ◌+◌, ◌-◌, ◌^◌, IfNone, IfOk, IfSome, IsTrue, Some, None, false, true};
ghost use Rattle.zp_model.specs.declared.constants.TheConstants.{MAX_PAGES};
ghost use Rattle.zp_model.specs.Block.{IsBlock, head, is_max};
ghost use Rattle.zp_model.specs.Zone.{Holding, holds, pages_of, workers_of};
ghost use Rattle.zp_model.specs.Runs.{
  IsFreeRun,
  block_around,
  has_pages,
  is_lent_run,
  may_alloc_run,
  may_free_run,
  run_freed,
  run_taken,
};
ghost use Rattle.zp_model.specs.declared.request.Request.TheVariants as request;
ghost use Rattle.zp_model.specs.Run.{is_out};
ghost use Rattle.zp_model.specs.Step.{step};
ghost use Rattle.zp_zone.specs.NamedZone.{AreFresh, KeepsLentBut, KeepsOut, page_reply};

use super::cuts::{give_cut, note_cut, note_taken};
use super::parts::room_above;
use super::{UntiedZone, is_out_to, place_of};
use zp_buddy::fitting_order;
use zp_model::{Mark, MigrateType, Order, PageAt, PageNo, Refused, State, Worker};

impl UntiedZone {
    /// The run of so many pages that begins at this page, in isolated pageblocks too, held to no mark: its first page. Each block of its cut is
    /// out, with its pageblock's type noted. Refused 16 or 17.
    pub fn alloc_run_at(
        &mut self,
        worker: Worker,
        page: PageNo,
        pages: u32,
    ) -> Result<PageNo, Refused>
        requires { worker < workers_of self.old.plain }
        ensures reply { page_reply result ≡ (step self.old.plain worker (request.AllocRunAt page pages)).reply }
        ensures after { self.new ≡ record self.old { plain = (step self.old.plain worker (request.AllocRunAt page pages)).zone } }

        // What the calls after it can rest on.
        ensures lent { IfOk result (λ first. IsTrue (may_free_run self.new.plain worker first pages)) }
        ensures fresh { IfOk result (λ first. AreFresh self.old.plain first pages) }
        ensures kept { KeepsOut self.old.plain self.new.plain }
    {
        let Some(at) = run_place(page, pages, self.base, self.buddy.pages()) else {
            return Err(Refused::BadRun);
        };
        if !self.take_if_free(worker, at, pages) {
            return Err(Refused::NotFree);
        }
        Ok(page)
    }

    /// The lowest run of so many pages outside isolated pageblocks that begins at an absolute page which is a multiple of two to the power
    /// `align`, held to this mark: its first page. Each block of its cut is out, with its pageblock's type noted. Refused 10 or 11.
    pub fn alloc_run(
        &mut self,
        worker: Worker,
        pages: u32,
        align: u8,
        mark: Mark,
    ) -> Result<PageNo, Refused>
        requires worker { worker < workers_of self.old.plain }
        requires may { may_alloc_run pages align ≡ true }
        ensures reply { page_reply result ≡ (step self.old.plain worker (request.AllocRun pages align mark)).reply }
        ensures after { self.new ≡ record self.old { plain = (step self.old.plain worker (request.AllocRun pages align mark)).zone } }

        // What the calls after it can rest on.
        ensures lent { IfOk result (λ first. IsTrue (may_free_run self.new.plain worker first pages)) }
        ensures fresh { IfOk result (λ first. AreFresh self.old.plain first pages) }
        ensures kept { KeepsOut self.old.plain self.new.plain }
    {
        self.lawful();
        let room = room_above(self.min, self.buddy.available_pages(), mark);
        if room < pages {
            return Err(Refused::BelowMark);
        }
        let Some(at) = self.lowest_run(pages, align) else {
            return Err(Refused::NoBlock);
        };
        let page = PageNo::new(self.base + at.number());
        // the run that was found is free
        let _taken = self.take_if_free(worker, at, pages);
        Ok(page)
    }

    /// Takes so many pages from this one on, where all of them are free: whether they are. Where they are a free block, or its low part of some order,
    /// one look at the first page tells it, and that is taken straight.
    #[inline(always)]
    fn take_if_free(&mut self, worker: Worker, at: PageAt, pages: u32) -> bool
        requires worker { worker < workers_of self.old.plain }
        requires some { 0 < pages }
        requires inside { at + pages ≤ pages_of self.old.plain }
        ensures when { result ≡ has_pages self.old.plain.area.free at pages }
        ensures taken { result ≡ true → self.new ≡ record self.old { plain = run_taken self.old.plain worker at pages } }
        ensures left { result ≡ false → self.new ≡ self.old }
    {
        // a clause of this call says that what is noted as free is free
        let _pages = self.buddy.pages();
        if let Some(found) = self.buddy.order_headed(at) {
            if found.pages() == pages {
                self.buddy.take_whole(at, found);
                let noted = self.buddy.type_of(at).noted();
                self.buddy.hold(at, State::Out(found, noted, worker));
                return true;
            }
            let order = fitting_order(self.buddy.largest(), at, pages);
            if order.pages() == pages && order.number() <= found.number() {
                self.take_low(worker, at, found, order);
                return true;
            }
        } else {
            let order = fitting_order(self.buddy.largest(), at, pages);
            if order.pages() == pages {
                return self.take_inside(worker, at, order);
            }
        }
        self.take_parts_if_free(worker, at, pages)
    }

    /// The same, by one call that takes the pages out of whatever free blocks they lie in.
    // (out of line: most runs are a block, or a low part of one)
    #[inline(never)]
    fn take_parts_if_free(&mut self, worker: Worker, at: PageAt, pages: u32) -> bool
        requires worker { worker < workers_of self.old.plain }
        requires some { 0 < pages }
        requires inside { at + pages ≤ pages_of self.old.plain }
        ensures when { result ≡ has_pages self.old.plain.area.free at pages }
        ensures taken { result ≡ true → self.new ≡ record self.old { plain = run_taken self.old.plain worker at pages } }
        ensures left { result ≡ false → self.new ≡ self.old }
    {
        // a clause of this call says that what is noted as free is free
        let _pages = self.buddy.pages();
        if !self.buddy.take_pages(at, pages) {
            return false;
        }
        note_taken(&mut self.buddy, worker, at.number(), pages);
        true
    }

    /// Takes the low part of this order of the free block of order `found` that a page heads. It is out, with its pageblock's type noted.
    // (out of line: most runs are a whole block)
    #[inline(never)]
    fn take_low(&mut self, worker: Worker, at: PageAt, found: Order, order: Order)
        requires worker { worker < workers_of self.old.plain }
        requires free { is_max self.old.plain.area.largest self.old.plain.area.free at found ≡ true }
        requires down { order ≤ found }
        ensures free { IsFreeRun self.old.plain.area at (2 ^ order) }
        ensures after { self.new ≡ record self.old { plain = run_taken self.old.plain worker at (2 ^ order) } }
    {
        // a clause of this call says that what is noted as free is free
        let _pages = self.buddy.pages();
        self.buddy.take_low_part(at, found, order);
        let noted = self.buddy.type_of(at).noted();
        self.buddy.hold(at, State::Out(order, noted, worker));
    }

    /// Takes the block of this order at a page that heads no free block, where all of its pages are free: whether they are. It is out, with its
    /// pageblock's type noted.
    // (out of line: most runs are a whole block)
    #[inline(never)]
    fn take_inside(&mut self, worker: Worker, at: PageAt, order: Order) -> bool
        requires worker { worker < workers_of self.old.plain }
        requires block { IsBlock self.old.plain.area.largest (pages_of self.old.plain) at order }
        requires beside { (k : ℕ) → is_max self.old.plain.area.largest self.old.plain.area.free at k ≡ true → ⊥ }
        ensures when { result ≡ has_pages self.old.plain.area.free at (2 ^ order) }
        ensures taken { result ≡ true → self.new ≡ record self.old { plain = run_taken self.old.plain worker at (2 ^ order) } }
        ensures left { result ≡ false → self.new ≡ self.old }
    {
        // a clause of this call says that what is noted as free is free
        let _pages = self.buddy.pages();
        if !self.buddy.take_inside(at, order) {
            return false;
        }
        let noted = self.buddy.type_of(at).noted();
        self.buddy.hold(at, State::Out(order, noted, worker));
        true
    }

    /// Frees so many pages from this one on, each of them lent to the worker, by whatever blocks. What the blocks around the first and the last
    /// of them have beyond the run stays out to the worker.
    pub fn free_run(&mut self, worker: Worker, page: PageNo, pages: u32)
        requires worker { worker < workers_of self.old.plain }
        requires lent { may_free_run self.old.plain worker page pages ≡ true }
        ensures after { self.new ≡ record self.old { plain = (step self.old.plain worker (request.FreeRun page pages)).zone } }

        // What the calls after it can rest on.
        ensures gone { AreFresh self.new.plain page pages }
        ensures kept { KeepsLentBut worker page pages self.old.plain self.new.plain }
    {
        self.lawful();
        // a clause of this call says how many pages there can be
        let _pages = self.pages();
        let first = page.number() - self.base;
        let at = PageAt::at(first);
        if let Some(order) = self.order_of_run(worker, at, pages) {
            self.free_whole(worker, at, order);
            return;
        }
        self.free_parts(worker, at, pages);
    }

    /// As `free_run`, of a run that is one block out to the worker, of this order.
    pub fn free_run_as_block(&mut self, worker: Worker, page: PageNo, pages: u32, order: Order)
        requires worker { worker < workers_of self.old.plain }
        requires lent { may_free_run self.old.plain worker page pages ≡ true }
        requires block { IsTrue (is_out self.old.plain worker page order) }
        requires size { 2 ^ order ≡ pages }
        ensures after { self.new ≡ record self.old { plain = (step self.old.plain worker (request.FreeRun page pages)).zone } }

        // What the calls after it can rest on.
        ensures gone { AreFresh self.new.plain page pages }
        ensures kept { KeepsLentBut worker page pages self.old.plain self.new.plain }
    {
        self.lawful();
        // the number of pages is named for the clauses alone
        let _ = pages;
        let at = PageAt::at(page.number() - self.base);
        self.free_whole(worker, at, order);
    }

    /// The order of the block out to the worker that so many pages from this one on are, where they are one.
    #[inline(always)]
    fn order_of_run(&self, worker: Worker, at: PageAt, pages: u32) -> Option<Order>
        requires { at < pages_of self.now.plain }
        ensures some { IfSome result (λ o. (holds self.now.plain worker at o ≡ true) × (2 ^ o ≡ pages)) }
        ensures none { IfNone result ((k : ℕ) → 2 ^ k ≡ pages → holds self.now.plain worker at k ≡ false) }
    {
        let Some(order) = self.headed_order(worker, at) else {
            return None;
        };
        if order.pages() != pages {
            return None;
        }
        Some(order)
    }

    /// Frees so many pages from this one on, each of them lent to the worker, block by block.
    #[inline(never)]
    fn free_parts(&mut self, worker: Worker, at: PageAt, pages: u32)
        requires worker { worker < workers_of self.old.plain }
        requires some { 0 < pages }
        requires lent { is_lent_run self.old.plain worker at pages ≡ true }
        ensures { self.new ≡ record self.old { plain = run_freed self.old.plain worker at pages } }
    {
        self.lawful();
        // a clause of this call says how many pages there can be
        let _pages = self.pages();
        let mut next = at.number();
        let end = next + pages;
        'parts: while next < end {
            self.lawful();
            let place = PageAt::at(next);
            let freed = self.free_first(worker, place, end - next);
            next += freed;
        }
    }

    /// Frees the first of so many pages that are lent to the worker, those of the block around this page. How many they are. Most head a block that
    /// ends among the pages, which comes back whole.
    #[inline(always)]
    fn free_first(&mut self, worker: Worker, at: PageAt, pages: u32) -> u32
        requires worker { worker < workers_of self.old.plain }
        requires some { 0 < pages }
        requires lent { is_lent_run self.old.plain worker at pages ≡ true }
        ensures after { self.new ≡ record self.old { plain = run_freed self.old.plain worker at result } }
        ensures some { 0 < result }
        ensures most { result ≤ pages }
        ensures ends { result < pages → (b : ℕ × Holding) × (block_around self.old.plain worker (at + result - 1) ≡ Some b) × (b.0 + 2 ^ b.1.order ≡ at + result) }
    {
        self.lawful();
        // a clause of this call says how many pages there can be
        let _pages = self.pages();
        if let Some(order) = self.headed_order(worker, at) {
            let count = order.pages();
            if count <= pages {
                self.free_whole(worker, at, order);
                return count;
            }
        }
        self.free_in_block(worker, at, pages)
    }

    /// The same of a block that has pages beside them: those stay out to the worker.
    // (out of line: at most the first and the last block of a run have such pages)
    #[inline(never)]
    fn free_in_block(&mut self, worker: Worker, at: PageAt, pages: u32) -> u32
        requires worker { worker < workers_of self.old.plain }
        requires some { 0 < pages }
        requires lent { is_lent_run self.old.plain worker at pages ≡ true }
        ensures after { self.new ≡ record self.old { plain = run_freed self.old.plain worker at result } }
        ensures some { 0 < result }
        ensures most { result ≤ pages }
        ensures ends { result < pages → (b : ℕ × Holding) × (block_around self.old.plain worker (at + result - 1) ≡ Some b) × (b.0 + 2 ^ b.1.order ≡ at + result) }
    {
        self.lawful();
        // a clause of this call says that what is noted as free is free
        let _pages = self.buddy.pages();
        let Some(order) = self.lent_order(worker, at) else {
            unreachable!()
        };
        let head = at.head(order);
        let State::Out(_, kind, _) = self.buddy.holding(head) else {
            unreachable!()
        };
        let end = head.number() + order.pages();
        let count = pages.min(end - at.number());
        self.free_part_of(worker, head, order, kind, at, count);
        count
    }

    /// Frees a block that is out to the worker, all of it.
    #[inline(always)]
    fn free_whole(&mut self, worker: Worker, head: PageAt, order: Order)
        requires { holds self.old.plain worker head order ≡ true }
        ensures { self.new ≡ record self.old { plain = run_freed self.old.plain worker head (2 ^ order) } }
    {
        // a clause of this call says that what is noted as free is free, which the next call rests on
        let _pages = self.buddy.pages();
        // the worker is named for the clauses alone
        let _ = worker;
        self.buddy.give(head, order);
    }

    /// Whether each of so many pages from this one on, one at least, is out to the worker, by whatever blocks.
    pub fn holds_run(&self, worker: Worker, page: PageNo, pages: u32) -> bool
        ensures { result ≡ may_free_run self.now.plain worker page pages }
    {
        self.lawful();
        match run_place(page, pages, self.base, self.buddy.pages()) {
            None => false,
            Some(at) => self.is_lent_run(worker, at, pages),
        }
    }

    /// Whether each of so many pages from this one on is out to the worker. It goes from block to block.
    fn is_lent_run(&self, worker: Worker, at: PageAt, pages: u32) -> bool
        requires { at + pages ≤ pages_of self.now.plain }
        ensures { result ≡ is_lent_run self.now.plain worker at pages }
    {
        self.lawful();
        // a clause of this call says how many pages there can be
        let _pages = self.pages();
        let mut next = at.number();
        let end = next + pages;
        'looks: while next < end {
            let place = PageAt::at(next);
            let Some(order) = self.lent_order(worker, place) else {
                return false;
            };
            next = place.head(order).number() + order.pages();
        }
        true
    }

    /// The order of the block out to the worker that a page heads, where it heads one.
    #[inline(always)]
    fn headed_order(&self, worker: Worker, at: PageAt) -> Option<Order>
        requires { at < pages_of self.now.plain }
        ensures some { IfSome result (λ o. holds self.now.plain worker at o ≡ true) }
        ensures none { IfNone result ((k : ℕ) → holds self.now.plain worker at k ≡ false) }
    {
        // a clause of this call says that what is noted as free is free
        let _pages = self.buddy.pages();
        let State::Out(order, _, holder) = self.buddy.holding(at) else {
            return None;
        };
        if holder != worker {
            return None;
        }
        Some(order)
    }

    /// The order of the block out to the worker in which a page lies, where it lies in one: of the aligned heads around it one alone is that of such
    /// a block. The page itself is looked at first, and tells the order of a block that it heads. At most as many pages are looked at as there
    /// are orders.
    fn lent_order(&self, worker: Worker, at: PageAt) -> Option<Order>
        requires { at < pages_of self.now.plain }
        ensures some { IfSome result (λ o. holds self.now.plain worker (head at o) o ≡ true) }
        ensures none { IfNone result (block_around self.now.plain worker at ≡ None) }
    {
        // a clause of this call says that what is noted as free is free
        let _pages = self.buddy.pages();
        if let Some(headed) = self.headed_order(worker, at) {
            return Some(headed);
        }
        let largest = self.buddy.largest().number();
        let mut number = 1;
        'orders: while number <= largest {
            let order = Order::at(number);
            if is_out_to(self.buddy.holding(at.head(order)), order, worker) {
                return Some(order);
            }
            number += 1;
        }
        None
    }

    /// Frees so many pages from this one on, of a block that is out to the worker. What it has before and behind them stays out to the worker.
    fn free_part_of(
        &mut self,
        worker: Worker,
        head: PageAt,
        order: Order,
        kind: MigrateType,
        at: PageAt,
        pages: u32,
    )
        requires worker { worker < workers_of self.old.plain }
        requires around { block_around self.old.plain worker at ≡ Some (head, record { order = order; kind = kind; worker = worker }) }
        requires some { 0 < pages }
        requires within { at + pages ≤ head + 2 ^ order }
        ensures { self.new ≡ record self.old { plain = run_freed self.old.plain worker at pages } }
    {
        // a clause of this call says that what is noted as free is free
        let _pages = self.buddy.pages();
        let first = head.number();
        let end = first + order.pages();
        let from = at.number();
        let behind = from + pages;
        let before = from - first;
        let left = end - behind;
        self.buddy.hold(head, State::Tail);
        give_cut(&mut self.buddy, from, pages);
        note_cut(&mut self.buddy, worker, kind, first, before);
        note_cut(&mut self.buddy, worker, kind, behind, left);
    }
}

/// The place of a run of so many absolute pages in a zone, where the run has a page and lies wholly there.
fn run_place(page: PageNo, count: u32, base: u32, pages: u32) -> Option<PageAt>
    requires { pages ≤ MAX_PAGES }
    ensures some { IfSome result (λ at. (base ≤ page) × (at ≡ page - base) × (0 < count) × (at + count ≤ pages)) }
    ensures none { IfNone result (base ≤ page → 0 < count → page - base + count ≤ pages → ⊥) }
{
    if count == 0 {
        return None;
    }
    let Some(at) = place_of(page, base, pages) else {
        return None;
    };
    if pages - at.number() < count {
        return None;
    }
    Some(at)
}
