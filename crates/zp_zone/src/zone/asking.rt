//! Whatever a request says is asked of the zone.
ghost use Rattle.std.specs.Prelude.{◌≡◌, ◌<◌};
ghost use Rattle.zp_model.specs.Zone.{workers_of};
ghost use Rattle.zp_model.specs.Step.{step};
ghost use Rattle.zp_zone.specs.Asking.{MaySeatAsk, IsGiven};
ghost use Rattle.zp_zone.specs.NamedZone.{block_reply, isolate_reply, page_reply, pages_reply, release_reply};
ghost use Rattle.zp_zone.specs.Seats.{IsSeatOf, KeepsSeats, Agrees, asked, replied_in};

use super::Zone;
use crate::seat::Seat;
use arrayvec::ArrayVec;
use zp_model::{Block, MAX_BATCH, PageList, PageNo, Refused, Reply, Request};

impl Zone {
    /// The reply to a request that the seat may make: the zone's call for it.
    #[inline(always)]
    pub fn ask(&mut self, seat: &mut Seat, request: &Request) -> Reply
        requires seat { IsSeatOf self.old seat.old }
        requires may { MaySeatAsk (workers_of self.old.plain) request.now seat.old }
        ensures reply { result ≡ (step self.old.plain seat.old.worker request.now).reply }
        ensures after { self.new ≡ asked seat.old.worker request.now self.old }
        ensures seat { seat.new ≡ replied_in self.old.plain request.now result seat.old }
        ensures known { seat.old.worker < workers_of self.old.plain }
        ensures agrees { Agrees self.old seat.old × Agrees self.new seat.new }

        // What the calls after it can rest on.
        ensures worker { seat.new.worker ≡ seat.old.worker }
        ensures fits { IsSeatOf self.new seat.new }
        ensures seats { KeepsSeats self.old self.new }
        ensures given { IsGiven request.now result seat.old seat.new }
    {
        match request {
            Request::Alloc(order, kind, mark) => {
                page_reply(self.alloc(seat, *order, *kind, *mark))
            }
            Request::AllocLow(order) => block_reply(self.alloc_low(seat, *order)),
            Request::Free(page, order) => {
                self.free(seat, *page, *order);
                Reply::Freed
            }
            Request::Post(page, order, to) => {
                self.post(seat, *page, *order, *to);
                Reply::Posted
            }
            Request::Collect => block_reply(self.collect(seat)),
            Request::Refill(kind, mark, count) => {
                pages_reply(self.refill(seat, *kind, *mark, *count))
            }
            Request::Drain(kind, pages) => {
                self.drain(seat, *kind, pages.as_slice());
                Reply::Drained
            }
            Request::Isolate(pageblock) => isolate_reply(self.isolate(seat, *pageblock)),
            Request::Release(pageblock, kind) => {
                release_reply(self.release(seat, *pageblock, *kind))
            }
            Request::AllocRun(pages, align, mark) => {
                page_reply(self.alloc_run(seat, *pages, *align, *mark))
            }
            Request::AllocRunAt(page, pages) => page_reply(self.alloc_run_at(seat, *page, *pages)),
            Request::FreeRun(page, pages) => {
                self.free_run(seat, *page, *pages);
                Reply::Freed
            }
        }
    }
}

/// The result of a request for a block of a given order, as a reply.
#[inline(always)]
pub fn page_reply(got: Result<PageNo, Refused>) -> Reply
    ensures { result ≡ page_reply got }
{
    match got {
        Ok(page) => Reply::Page(page),
        Err(refused) => Reply::Refused(refused),
    }
}

#[inline(always)]
fn block_reply(got: Result<Block, Refused>) -> Reply
    ensures { result ≡ block_reply got }
{
    match got {
        Ok(block) => Reply::Block(block),
        Err(refused) => Reply::Refused(refused),
    }
}

fn isolate_reply(got: Result<(), Refused>) -> Reply
    ensures { result ≡ isolate_reply got }
{
    match got {
        Ok(()) => Reply::Isolated,
        Err(refused) => Reply::Refused(refused),
    }
}

fn release_reply(got: Result<(), Refused>) -> Reply
    ensures { result ≡ release_reply got }
{
    match got {
        Ok(()) => Reply::Released,
        Err(refused) => Reply::Refused(refused),
    }
}

#[inline(always)]
fn pages_reply(got: Result<ArrayVec<PageNo, MAX_BATCH>, Refused>) -> Reply
    ensures { result ≡ pages_reply got }
{
    match got {
        Ok(pages) => Reply::Pages(PageList::of(pages.as_slice())),
        Err(refused) => Reply::Refused(refused),
    }
}
