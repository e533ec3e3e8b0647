//! Pages that are allocated and freed several at a time, by a seat. Each call is one step of the plain zone and one entry.
//!
//! In Linux: `rmqueue_bulk` and `free_pcppages_bulk`.
ghost use Rattle.std.specs.Prelude.{◌≡◌, ◌<◌, ◌≤◌, All, IfOk, IsTrue, length};
ghost use Rattle.zp_model.specs.declared.request.Request.TheVariants as request;
ghost use Rattle.zp_model.specs.declared.request.Reply.TheVariants as reply;
ghost use Rattle.zp_model.specs.Zone.{workers_of};
ghost use Rattle.zp_model.specs.Step.{step};
ghost use Rattle.zp_model.specs.Run.{is_distinct};
ghost use Rattle.zp_zone.specs.NamedZone.{pages_reply};
ghost use Rattle.zp_zone.specs.Seats.{IsSeatOf, KeepsSeats, Agrees, KeepsBlocks, KeepsBlocksBeside, HasPages, IsNewTo, asked, replied};

use super::Zone;
use crate::seat::Seat;
use arrayvec::ArrayVec;
use std::marker::Brand;
use zp_model::{MAX_BATCH, Mark, MigrateType, PageNo, Refused};

impl Zone {
    /// Up to `count` pages for this type, each held to this mark, in the order taken. Refused 10 or 11 where none is got; a
    /// refill that is stopped after a page or more returns the pages that it got.
    // (inside its caller the pages of its answer are moved once more)
    #[inline(never)]
    pub fn refill(
        &mut self,
        seat: &mut Seat,
        kind: MigrateType,
        mark: Mark,
        count: u8,
    ) -> Result<ArrayVec<PageNo, MAX_BATCH>, Refused>
        requires seat { IsSeatOf self.old seat.old }
        requires some { 1 ≤ count }
        requires batch { count ≤ MAX_BATCH }
        ensures reply { pages_reply result ≡ (step self.old.plain seat.old.worker (request.Refill kind mark count)).reply }
        ensures after { self.new ≡ asked seat.old.worker (request.Refill kind mark count) self.old }
        ensures seat { seat.new ≡ replied (request.Refill kind mark count) (pages_reply result) seat.old }
        ensures known { seat.old.worker < workers_of self.old.plain }
        ensures agrees { Agrees self.old seat.old × Agrees self.new seat.new }

        // What the calls after it can rest on.
        ensures worker { seat.new.worker ≡ seat.old.worker }
        ensures fits { IsSeatOf self.new seat.new }
        ensures seats { KeepsSeats self.old self.new }
        ensures some { IfOk result (λ pages. 0 < length pages.items) }
        ensures most { IfOk result (λ pages. length pages.items ≤ count) }
        ensures has { IfOk result (λ pages. HasPages seat.new pages.items) }
        ensures distinct { IfOk result (λ pages. IsTrue (is_distinct pages.items)) }
        ensures fresh { IfOk result (λ pages. All (IsNewTo seat.old) pages.items) }
        ensures kept { KeepsBlocks seat.old seat.new }
    {
        let worker = seat.enter::<Brand, _>(&mut self.keeper, &self.untied, &(kind, mark, count));
        self.untied.refill(worker, kind, mark, count)
    }

    /// Frees these pages of the seat, each a block of order 0, in the slice's order. Their type is only noted. It is never
    /// refused.
    pub fn drain(&mut self, seat: &mut Seat, kind: MigrateType, pages: &[PageNo])
        requires seat { IsSeatOf self.old seat.old }
        requires has { HasPages seat.old pages.now }
        requires distinct { IsTrue (is_distinct pages.now) }
        ensures after { self.new ≡ asked seat.old.worker (request.Drain kind pages.now) self.old }
        ensures seat { seat.new ≡ replied (request.Drain kind pages.now) reply.Drained seat.old }
        ensures known { seat.old.worker < workers_of self.old.plain }
        ensures agrees { Agrees self.old seat.old × Agrees self.new seat.new }

        // What the calls after it can rest on.
        ensures worker { seat.new.worker ≡ seat.old.worker }
        ensures fits { IsSeatOf self.new seat.new }
        ensures seats { KeepsSeats self.old self.new }
        ensures gone { All (IsNewTo seat.new) pages.now }
        ensures kept { KeepsBlocksBeside pages.now seat.old seat.new }
    {
        let worker = seat.enter::<Brand, _>(&mut self.keeper, &self.untied, &(kind, pages));
        self.untied.drain(worker, kind, pages);
    }
}
