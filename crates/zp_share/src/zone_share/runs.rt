//! Runs of pages at any place, in one section each: a request to the zone, and the same change in the share.
ghost use Rattle.std.specs.Prelude.{ℕ, ◌≡◌, IfNone, IfSome, IsTrue, true};
ghost use Rattle.zp_model.specs.Runs.{may_alloc_run};
ghost use Rattle.zp_model.specs.declared.request.Request.TheVariants as request;
ghost use Rattle.zp_model.specs.declared.request.Reply.TheVariants as reply;
ghost use Rattle.zp_zone.specs.NamedZone.{page_reply};
ghost use Rattle.zp_zone.specs.Seats.{IsSeatOf};
ghost use Rattle.zp_share.specs.PageUses.{IsOneBlock, is_lent_run};
ghost use Rattle.zp_share.specs.Sections.{IsAsked, done_reply};
ghost use Rattle.zp_share.specs.ZoneShares.{HasAtMost};

use super::ZoneShare;
use crate::page_use::PageUse;
use zp_model::{Mark, Order, PageNo, Refused, Reply, Request};
use zp_zone::{Zone, page_reply};

impl ZoneShare {
    /// Whether so many pages from this one on, one at least, are lent, by whatever blocks.
    // (out of line: in line `Share::refuse` is too long to be so, and then each section that may be refused clears room for a list of pages)
    #[inline(never)]
    pub fn is_lent_run(&self, page: PageNo, pages: u32) -> bool
        ensures { result ≡ is_lent_run self.now.seat.part.base self.now.uses page pages }
    {
        // the invariant is at hand where a field is
        let _ = &self.seat;
        self.uses.is_lent_run(page, pages)
    }

    /// The order of the lent block that so many pages from this one on are, where they are one. One look tells.
    #[inline(always)]
    pub fn lent_block(&self, page: PageNo, pages: u32) -> Option<Order>
        ensures some { IfSome result (IsOneBlock self.now.seat.part.base self.now.uses page pages) }
        ensures lent { IfSome result (λ _. is_lent_run self.now.seat.part.base self.now.uses page pages ≡ true) }
        ensures none { IfNone result ((k : ℕ) → IsOneBlock self.now.seat.part.base self.now.uses page pages k → ⊥) }
    {
        // the invariant is at hand where a field is
        let _ = &self.seat;
        self.uses.block_order(page, pages)
    }

    /// Allocates the lowest run of so many pages outside isolated pageblocks that begins at a multiple of two to the power `align`, held to this mark:
    /// its first page. All of it is then lent. Refused 10, 11 or 30.
    pub fn alloc_run(
        &mut self,
        zone: &mut Zone,
        pages: u32,
        align: u8,
        mark: Mark,
    ) -> Result<PageNo, Refused>
        requires seat { IsSeatOf zone.old self.old.seat }
        requires run { IsTrue (may_alloc_run pages align) }
        ensures section { IsAsked (request.AllocRun pages align mark) (page_reply result) zone.old zone.new self.old self.new }
        ensures lists { (n : ℕ) → HasAtMost n self.old → HasAtMost n self.new }
    {
        if self.sections.are_full() {
            return Err(Refused::JournalFull);
        }
        let worker = self.seat.worker();
        // a clause of this call says that the zone is lawful
        let _pages = zone.pages();
        let got = zone.alloc_run(&mut self.seat, pages, align, mark);
        self.uses.note_run(zone, pages, &got);
        let reply = page_reply(got);
        self.sections
            .add(worker, &Request::AllocRun(pages, align, mark), &reply);
        got
    }

    /// Allocates the run of so many pages that begins at this page: its first page. All of it is then lent. Refused 16, 17 or 30.
    pub fn alloc_run_at(
        &mut self,
        zone: &mut Zone,
        page: PageNo,
        pages: u32,
    ) -> Result<PageNo, Refused>
        requires seat { IsSeatOf zone.old self.old.seat }
        ensures section { IsAsked (request.AllocRunAt page pages) (page_reply result) zone.old zone.new self.old self.new }
        ensures lists { (n : ℕ) → HasAtMost n self.old → HasAtMost n self.new }
    {
        if self.sections.are_full() {
            return Err(Refused::JournalFull);
        }
        let worker = self.seat.worker();
        // a clause of this call says that the zone is lawful
        let _pages = zone.pages();
        let got = zone.alloc_run_at(&mut self.seat, page, pages);
        self.uses.note_run(zone, pages, &got);
        let reply = page_reply(got);
        self.sections
            .add(worker, &Request::AllocRunAt(page, pages), &reply);
        got
    }

    /// Frees so many pages from this one on, by whatever blocks they are lent. Refused 20 where one of them is not lent, or there is none, and 30.
    // (a run that is one lent block is seen as one by the one look that tells that it is lent. Not in line by force: `ZoneShare::section` is then too long to be
    // so, and each section behind a lock clears room for a list of pages)
    pub fn free_run(&mut self, zone: &mut Zone, page: PageNo, pages: u32) -> Result<(), Refused>
        requires seat { IsSeatOf zone.old self.old.seat }
        ensures section { IsAsked (request.FreeRun page pages) (done_reply reply.Freed result) zone.old zone.new self.old self.new }
        ensures lists { (n : ℕ) → HasAtMost n self.old → HasAtMost n self.new }
    {
        if let Some(order) = self.lent_block(page, pages) {
            return self.free_run_as_block(zone, page, pages, order);
        }
        if !self.is_lent_run(page, pages) {
            return Err(Refused::NotLent);
        }
        self.free_lent_run(zone, page, pages)
    }

    /// The same of pages of which the caller knows that they are one lent block, of this order. Refused 30.
    #[inline(always)]
    pub fn free_run_as_block(
        &mut self,
        zone: &mut Zone,
        page: PageNo,
        pages: u32,
        order: Order,
    ) -> Result<(), Refused>
        requires seat { IsSeatOf zone.old self.old.seat }
        requires block { IsOneBlock self.old.seat.part.base self.old.uses page pages order }
        ensures section { IsAsked (request.FreeRun page pages) (done_reply reply.Freed result) zone.old zone.new self.old self.new }
        ensures lists { (n : ℕ) → HasAtMost n self.old → HasAtMost n self.new }
    {
        // a clause of this call says how large an order can be
        let _number = order.number();
        if self.sections.are_full() {
            return Err(Refused::JournalFull);
        }
        let worker = self.seat.worker();
        // a clause of this call says that the zone is lawful
        let _pages = zone.pages();
        zone.free_run_as_block(&mut self.seat, page, pages, order);
        self.uses.set(page, PageUse::Away);
        let request = Request::FreeRun(page, pages);
        self.sections.add(worker, &request, &Reply::Freed);
        Ok(())
    }

    /// The same of pages of which the caller knows that each is lent: they are freed from block to block. Refused 30.
    // (out of line: most runs that come back are one block)
    #[inline(never)]
    pub fn free_lent_run(
        &mut self,
        zone: &mut Zone,
        page: PageNo,
        pages: u32,
    ) -> Result<(), Refused>
        requires seat { IsSeatOf zone.old self.old.seat }
        requires lent { is_lent_run self.old.seat.part.base self.old.uses page pages ≡ true }
        ensures section { IsAsked (request.FreeRun page pages) (done_reply reply.Freed result) zone.old zone.new self.old self.new }
        ensures lists { (n : ℕ) → HasAtMost n self.old → HasAtMost n self.new }
    {
        if self.sections.are_full() {
            return Err(Refused::JournalFull);
        }
        let worker = self.seat.worker();
        // a clause of this call says that what is out in the worker's name is what the share has
        zone.check(&mut self.seat);
        let _pages = zone.pages();
        self.uses.free_run(zone, worker, page, pages);
        zone.free_run(&mut self.seat, page, pages);
        let request = Request::FreeRun(page, pages);
        self.sections.add(worker, &request, &Reply::Freed);
        Ok(())
    }
}
