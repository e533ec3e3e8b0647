//! Runs of pages at any place, by a seat. Each call is one step of the plain zone and one entry, and the seat's part of the books changes in the
//! same step.
//!
//! In Linux: `alloc_contig_range` and `free_contig_range`.
ghost use Rattle.std.specs.Prelude.{◌≡◌, ◌<◌, ◌^◌, IfOk, IsTrue};
ghost use Rattle.zp_model.specs.declared.request.Request.TheVariants as request;
ghost use Rattle.zp_model.specs.declared.request.Reply.TheVariants as reply;
ghost use Rattle.zp_model.specs.Zone.{workers_of};
ghost use Rattle.zp_model.specs.Runs.{may_alloc_run};
ghost use Rattle.zp_model.specs.Step.{step};
ghost use Rattle.zp_zone.specs.Asking.{IsGivenRun};
ghost use Rattle.zp_zone.specs.NamedZone.{page_reply};
ghost use Rattle.zp_zone.specs.Seats.{IsSeatOf, KeepsSeats, Agrees, AreNewTo, KeepsBlocks, KeepsPagesBut, asked, replied_in, has, has_run};

use super::Zone;
use crate::seat::Seat;
use std::marker::Brand;
use zp_model::{Mark, Order, PageNo, Refused};

impl Zone {
    /// The lowest run of so many pages outside isolated pageblocks that begins at an absolute page which is a multiple of two to the power
    /// `align`, held to this mark: its first page. Each block of its cut is out, with its pageblock's type noted. Refused 10 or 11.
    pub fn alloc_run(
        &mut self,
        seat: &mut Seat,
        pages: u32,
        align: u8,
        mark: Mark,
    ) -> Result<PageNo, Refused>
        requires seat { IsSeatOf self.old seat.old }
        requires run { IsTrue (may_alloc_run pages align) }
        ensures reply { page_reply result ≡ (step self.old.plain seat.old.worker (request.AllocRun pages align mark)).reply }
        ensures after { self.new ≡ asked seat.old.worker (request.AllocRun pages align mark) self.old }
        ensures seat { seat.new ≡ replied_in self.old.plain (request.AllocRun pages align mark) (page_reply result) seat.old }
        ensures known { seat.old.worker < workers_of self.old.plain }
        ensures agrees { Agrees self.old seat.old × Agrees self.new seat.new }

        // What the calls after it can rest on.
        ensures worker { seat.new.worker ≡ seat.old.worker }
        ensures fits { IsSeatOf self.new seat.new }
        ensures seats { KeepsSeats self.old self.new }
        ensures given { IfOk result (λ page. IsGivenRun page pages seat.old seat.new) }
        ensures kept { KeepsBlocks seat.old seat.new }
    {
        let worker = seat.enter::<Brand, _>(&mut self.keeper, &self.untied, &(pages, align, mark));
        let got = self.untied.alloc_run(worker, pages, align, mark);
        self.untied.lawful();
        got
    }

    /// The run of so many pages that begins at this page, in isolated pageblocks too, held to no mark: its first page. Each block of its cut is
    /// out, with its pageblock's type noted. Refused 16 or 17.
    pub fn alloc_run_at(
        &mut self,
        seat: &mut Seat,
        page: PageNo,
        pages: u32,
    ) -> Result<PageNo, Refused>
        requires seat { IsSeatOf self.old seat.old }
        ensures reply { page_reply result ≡ (step self.old.plain seat.old.worker (request.AllocRunAt page pages)).reply }
        ensures after { self.new ≡ asked seat.old.worker (request.AllocRunAt page pages) self.old }
        ensures seat { seat.new ≡ replied_in self.old.plain (request.AllocRunAt page pages) (page_reply result) seat.old }
        ensures known { seat.old.worker < workers_of self.old.plain }
        ensures agrees { Agrees self.old seat.old × Agrees self.new seat.new }

        // What the calls after it can rest on.
        ensures worker { seat.new.worker ≡ seat.old.worker }
        ensures fits { IsSeatOf self.new seat.new }
        ensures seats { KeepsSeats self.old self.new }
        ensures given { IfOk result (λ first. IsGivenRun first pages seat.old seat.new) }
        ensures kept { KeepsBlocks seat.old seat.new }
    {
        let worker = seat.enter::<Brand, _>(&mut self.keeper, &self.untied, &(page, pages));
        let got = self.untied.alloc_run_at(worker, page, pages);
        self.untied.lawful();
        got
    }

    /// Frees so many pages of the seat from this one on, by whatever blocks they are out. What the blocks around the first and the last of them
    /// have beyond the run stays the seat's. It is never refused.
    pub fn free_run(&mut self, seat: &mut Seat, page: PageNo, pages: u32)
        requires seat { IsSeatOf self.old seat.old }
        requires has { IsTrue (has_run seat.old page pages) }
        ensures after { self.new ≡ asked seat.old.worker (request.FreeRun page pages) self.old }
        ensures seat { seat.new ≡ replied_in self.old.plain (request.FreeRun page pages) reply.Freed seat.old }
        ensures known { seat.old.worker < workers_of self.old.plain }
        ensures agrees { Agrees self.old seat.old × Agrees self.new seat.new }

        // What the calls after it can rest on.
        ensures worker { seat.new.worker ≡ seat.old.worker }
        ensures fits { IsSeatOf self.new seat.new }
        ensures seats { KeepsSeats self.old self.new }
        ensures gone { AreNewTo seat.new page pages }
        ensures kept { KeepsPagesBut page pages seat.old seat.new }
    {
        self.untied.lawful();
        let worker = seat.enter::<Brand, _>(&mut self.keeper, &self.untied, &(page, pages));
        self.untied.free_run(worker, page, pages);
        self.untied.lawful();
    }

    /// As `free_run`, of a run that is one block of the seat, of this order: no page is looked at to find the block. It is never refused.
    pub fn free_run_as_block(&mut self, seat: &mut Seat, page: PageNo, pages: u32, order: Order)
        requires seat { IsSeatOf self.old seat.old }
        requires has { IsTrue (has_run seat.old page pages) }
        requires block { IsTrue (has seat.old page order) }
        requires size { 2 ^ order ≡ pages }
        ensures after { self.new ≡ asked seat.old.worker (request.FreeRun page pages) self.old }
        ensures seat { seat.new ≡ replied_in self.old.plain (request.FreeRun page pages) reply.Freed seat.old }
        ensures known { seat.old.worker < workers_of self.old.plain }
        ensures agrees { Agrees self.old seat.old × Agrees self.new seat.new }

        // What the calls after it can rest on.
        ensures worker { seat.new.worker ≡ seat.old.worker }
        ensures fits { IsSeatOf self.new seat.new }
        ensures seats { KeepsSeats self.old self.new }
        ensures gone { AreNewTo seat.new page pages }
        ensures kept { KeepsPagesBut page pages seat.old seat.new }
    {
        self.untied.lawful();
        let worker = seat.enter::<Brand, _>(&mut self.keeper, &self.untied, &(page, pages));
        self.untied.free_run_as_block(worker, page, pages, order);
        self.untied.lawful();
    }
}
