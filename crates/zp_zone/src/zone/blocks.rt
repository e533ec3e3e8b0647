//! The requests of one block, each by its seat. Each is one step of the plain zone and one entry, and the seat's part of
//! the books changes in the same step.
ghost use Rattle.std.specs.Prelude.{◌≡◌, ◌<◌, IfOk, IsTrue, Some};
ghost use Rattle.zp_model.specs.declared.request.Request.TheVariants as request;
ghost use Rattle.zp_model.specs.declared.request.Reply.TheVariants as reply;
ghost use Rattle.zp_model.specs.Choose.{origin};
ghost use Rattle.zp_model.specs.Zone.{workers_of};
ghost use Rattle.zp_model.specs.Step.{step};
ghost use Rattle.zp_zone.specs.NamedZone.{block_reply, page_reply, told_reply};
ghost use Rattle.zp_zone.specs.Seats.{IsSeatOf, KeepsSeats, Agrees, KeepsBlocks, KeepsBlocksBut, IsNewTo, asked, replied, has};

use super::Zone;
use crate::seat::Seat;
use crate::told::Told;
use std::marker::Brand;
use zp_model::{Block, Mark, MigrateType, Order, PageNo, Refused, Worker};

impl Zone {
    /// Allocates a block of this order for this type, held to this mark: its first page. Refused 10 or 11.
    pub fn alloc(
        &mut self,
        seat: &mut Seat,
        order: Order,
        kind: MigrateType,
        mark: Mark,
    ) -> Result<PageNo, Refused>
        requires seat { IsSeatOf self.old seat.old }
        ensures reply { page_reply result ≡ (step self.old.plain seat.old.worker (request.Alloc order kind mark)).reply }
        ensures after { self.new ≡ asked seat.old.worker (request.Alloc order kind mark) self.old }
        ensures seat { seat.new ≡ replied (request.Alloc order kind mark) (page_reply result) seat.old }
        ensures known { seat.old.worker < workers_of self.old.plain }
        ensures agrees { Agrees self.old seat.old × Agrees self.new seat.new }

        // What the calls after it can rest on.
        ensures worker { seat.new.worker ≡ seat.old.worker }
        ensures fits { IsSeatOf self.new seat.new }
        ensures seats { KeepsSeats self.old self.new }
        ensures has { IfOk result (λ page. IsTrue (has seat.new page order)) }
        ensures fresh { IfOk result (IsNewTo seat.old) }
        ensures kept { KeepsBlocks seat.old seat.new }
    {
        let worker = seat.enter::<Brand, _>(&mut self.keeper, &self.untied, &(order, kind, mark));
        self.untied.alloc(worker, order, kind, mark)
    }

    /// As `alloc`, and tells where the block came from.
    pub fn alloc_told(
        &mut self,
        seat: &mut Seat,
        order: Order,
        kind: MigrateType,
        mark: Mark,
    ) -> Result<Told, Refused>
        requires seat { IsSeatOf self.old seat.old }
        ensures reply { told_reply result ≡ (step self.old.plain seat.old.worker (request.Alloc order kind mark)).reply }
        ensures told { IfOk result (λ t. origin self.old.plain.area order kind ≡ Some t.origin) }
        ensures after { self.new ≡ asked seat.old.worker (request.Alloc order kind mark) self.old }
        ensures seat { seat.new ≡ replied (request.Alloc order kind mark) (told_reply result) seat.old }
        ensures known { seat.old.worker < workers_of self.old.plain }
        ensures agrees { Agrees self.old seat.old × Agrees self.new seat.new }

        // What the calls after it can rest on.
        ensures worker { seat.new.worker ≡ seat.old.worker }
        ensures fits { IsSeatOf self.new seat.new }
        ensures seats { KeepsSeats self.old self.new }
        ensures has { IfOk result (λ t. IsTrue (has seat.new t.page order)) }
        ensures fresh { IfOk result (λ t. IsNewTo seat.old t.page) }
        ensures kept { KeepsBlocks seat.old seat.new }
    {
        let origin = self.origin(order, kind);
        let page = self.alloc(seat, order, kind, mark)?;
        let Some(origin) = origin else { unreachable!() };
        Ok(Told { page, origin })
    }

    /// Allocates the lowest block of this order, of whatever type. The type noted for it is its pageblock's. Refused 11.
    pub fn alloc_low(&mut self, seat: &mut Seat, order: Order) -> Result<Block, Refused>
        requires seat { IsSeatOf self.old seat.old }
        ensures reply { block_reply result ≡ (step self.old.plain seat.old.worker (request.AllocLow order)).reply }
        ensures after { self.new ≡ asked seat.old.worker (request.AllocLow order) self.old }
        ensures seat { seat.new ≡ replied (request.AllocLow order) (block_reply result) seat.old }
        ensures known { seat.old.worker < workers_of self.old.plain }
        ensures agrees { Agrees self.old seat.old × Agrees self.new seat.new }

        // What the calls after it can rest on.
        ensures worker { seat.new.worker ≡ seat.old.worker }
        ensures fits { IsSeatOf self.new seat.new }
        ensures seats { KeepsSeats self.old self.new }
        ensures order { IfOk result (λ block. block.order ≡ order) }
        ensures has { IfOk result (λ block. IsTrue (has seat.new block.page block.order)) }
        ensures fresh { IfOk result (λ block. IsNewTo seat.old block.page) }
        ensures kept { KeepsBlocks seat.old seat.new }
    {
        let worker = seat.enter::<Brand, _>(&mut self.keeper, &self.untied, &order);
        self.untied.alloc_low(worker, order)
    }

    /// Frees the seat's block at this page, of this order. It is never refused. After a
    /// `check`, `held_by` returns whether it may be called.
    pub fn free(&mut self, seat: &mut Seat, page: PageNo, order: Order)
        requires seat { IsSeatOf self.old seat.old }
        requires has { IsTrue (has seat.old page order) }
        ensures after { self.new ≡ asked seat.old.worker (request.Free page order) self.old }
        ensures seat { seat.new ≡ replied (request.Free page order) reply.Freed seat.old }
        ensures known { seat.old.worker < workers_of self.old.plain }
        ensures agrees { Agrees self.old seat.old × Agrees self.new seat.new }

        // What the calls after it can rest on.
        ensures worker { seat.new.worker ≡ seat.old.worker }
        ensures fits { IsSeatOf self.new seat.new }
        ensures seats { KeepsSeats self.old self.new }
        ensures gone { IsNewTo seat.new page }
        ensures kept { KeepsBlocksBut page seat.old seat.new }
    {
        let worker = seat.enter::<Brand, _>(&mut self.keeper, &self.untied, &(page, order));
        self.untied.free(worker, page, order);
    }

    /// Posts the seat's block at this page, of this order, to a worker: it goes to the end of the worker's list. It is never
    /// refused. After a `check`, `held_by` returns whether it may be called.
    pub fn post(&mut self, seat: &mut Seat, page: PageNo, order: Order, to: Worker)
        requires seat { IsSeatOf self.old seat.old }
        requires has { IsTrue (has seat.old page order) }
        requires to { to < workers_of self.old.plain }
        ensures after { self.new ≡ asked seat.old.worker (request.Post page order to) self.old }
        ensures seat { seat.new ≡ replied (request.Post page order to) reply.Posted seat.old }
        ensures known { seat.old.worker < workers_of self.old.plain }
        ensures agrees { Agrees self.old seat.old × Agrees self.new seat.new }

        // What the calls after it can rest on.
        ensures worker { seat.new.worker ≡ seat.old.worker }
        ensures fits { IsSeatOf self.new seat.new }
        ensures seats { KeepsSeats self.old self.new }
        ensures gone { IsNewTo seat.new page }
        ensures kept { KeepsBlocksBut page seat.old seat.new }
    {
        let worker = seat.enter::<Brand, _>(&mut self.keeper, &self.untied, &(page, order, to));
        self.untied.post(worker, page, order, to);
    }

    /// Hands the block in front of those posted to the seat's worker to it. Refused 12 where there is none.
    pub fn collect(&mut self, seat: &mut Seat) -> Result<Block, Refused>
        requires seat { IsSeatOf self.old seat.old }
        ensures reply { block_reply result ≡ (step self.old.plain seat.old.worker request.Collect).reply }
        ensures after { self.new ≡ asked seat.old.worker request.Collect self.old }
        ensures seat { seat.new ≡ replied request.Collect (block_reply result) seat.old }
        ensures known { seat.old.worker < workers_of self.old.plain }
        ensures agrees { Agrees self.old seat.old × Agrees self.new seat.new }

        // What the calls after it can rest on.
        ensures worker { seat.new.worker ≡ seat.old.worker }
        ensures fits { IsSeatOf self.new seat.new }
        ensures seats { KeepsSeats self.old self.new }
        ensures has { IfOk result (λ block. IsTrue (has seat.new block.page block.order)) }
        ensures fresh { IfOk result (λ block. IsNewTo seat.old block.page) }
        ensures kept { KeepsBlocks seat.old seat.new }
    {
        let worker = seat.enter::<Brand, _>(&mut self.keeper, &self.untied, &());
        self.untied.collect(worker)
    }
}
