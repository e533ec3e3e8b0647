//! The requests of one block, without seats. Each is one step of the plain zone.
//!
//! In Linux: `rmqueue`, `__free_pages_ok` and `zone_watermark_ok`; what is posted and collected is this allocator's own.
ghost use Rattle.std.specs.Prelude.{◌≡◌, ◌<◌, ◌≤◌, IfOk, IsTrue};
ghost use Rattle.zp_model.specs.Zone.{workers_of};
ghost use Rattle.zp_model.specs.Area.{available};
ghost use Rattle.zp_model.specs.Block.{size};
ghost use Rattle.zp_model.specs.Mark.{is_above};
ghost use Rattle.zp_model.specs.declared.request.Request.TheVariants as request;
ghost use Rattle.zp_model.specs.Step.{step};
ghost use Rattle.zp_model.specs.Run.{is_out};
ghost use Rattle.zp_zone.specs.NamedZone.{KeepsOut, KeepsOutBut, IsFresh, block_reply, page_reply};

use super::UntiedZone;
use zp_buddy::Buddy;
use zp_model::{
    Block, MAX_PAGES, Mark, MigrateType, Order, PageAt, PageNo, Refused, State, Worker,
};

impl UntiedZone {
    /// A block of this order for this type, held to this mark: its first page. Refused 10 or 11.
    // (in line: one call less for each block)
    #[inline(always)]
    pub fn alloc(
        &mut self,
        worker: Worker,
        order: Order,
        kind: MigrateType,
        mark: Mark,
    ) -> Result<PageNo, Refused>
        requires worker { worker < workers_of self.old.plain }
        ensures reply { page_reply result ≡ (step self.old.plain worker (request.Alloc order kind mark)).reply }
        ensures after { self.new ≡ record self.old { plain = (step self.old.plain worker (request.Alloc order kind mark)).zone } }

        // What the calls after it can rest on.
        ensures out { IfOk result (λ page. IsTrue (is_out self.new.plain worker page order)) }
        ensures fresh { IfOk result (IsFresh self.old.plain) }
        ensures kept { KeepsOut self.old.plain self.new.plain }
    {
        // a clause of this call says that what is noted as free is free
        let _pages = self.buddy.pages();
        if !is_above(self.min, &self.buddy, order, mark) {
            return Err(Refused::BelowMark);
        }
        let Some(head) = self.buddy.take(order, kind) else {
            return Err(Refused::NoBlock);
        };
        self.buddy.hold(head, State::Out(order, kind, worker));
        Ok(PageNo::new(self.base + head.number()))
    }

    /// The lowest block of this order, of whatever type. The type noted for it is its pageblock's. Refused 11.
    pub fn alloc_low(&mut self, worker: Worker, order: Order) -> Result<Block, Refused>
        requires worker { worker < workers_of self.old.plain }
        ensures reply { block_reply result ≡ (step self.old.plain worker (request.AllocLow order)).reply }
        ensures after { self.new ≡ record self.old { plain = (step self.old.plain worker (request.AllocLow order)).zone } }

        // What the calls after it can rest on.
        ensures order { IfOk result (λ block. block.order ≡ order) }
        ensures out { IfOk result (λ block. IsTrue (is_out self.new.plain worker block.page block.order)) }
        ensures fresh { IfOk result (λ block. IsFresh self.old.plain block.page) }
        ensures kept { KeepsOut self.old.plain self.new.plain }
    {
        // a clause of this call says that what is noted as free is free
        let _pages = self.buddy.pages();
        let Some(head) = self.buddy.take_low(order) else {
            return Err(Refused::NoBlock);
        };
        let noted = self.buddy.type_of(head).noted();
        self.buddy.hold(head, State::Out(order, noted, worker));
        Ok(Block {
            page: PageNo::new(self.base + head.number()),
            order,
            kind: noted,
        })
    }

    /// Frees the block at this page, of this order.
    pub fn free(&mut self, worker: Worker, page: PageNo, order: Order)
        requires worker { worker < workers_of self.old.plain }
        requires out { IsTrue (is_out self.old.plain worker page order) }
        ensures after { self.new ≡ record self.old { plain = (step self.old.plain worker (request.Free page order)).zone } }

        // What the calls after it can rest on.
        ensures gone { IsFresh self.new.plain page }
        ensures kept { KeepsOutBut page self.old.plain self.new.plain }
    {
        // a clause of this call says that what is noted as free is free, which the next call rests on
        let _pages = self.buddy.pages();
        // the worker is named for the condition alone
        let _ = worker;
        let at = PageAt::at(page.number() - self.base);
        self.buddy.give(at, order);
    }

    /// Posts the block at this page, of this order, to a worker: it goes to the end of the worker's list. It is never refused.
    pub fn post(&mut self, worker: Worker, page: PageNo, order: Order, to: Worker)
        requires worker { worker < workers_of self.old.plain }
        requires out { IsTrue (is_out self.old.plain worker page order) }
        requires to { to < workers_of self.old.plain }
        ensures after { self.new ≡ record self.old { plain = (step self.old.plain worker (request.Post page order to)).zone } }

        // What the calls after it can rest on.
        ensures gone { IsFresh self.new.plain page }
        ensures kept { KeepsOutBut page self.old.plain self.new.plain }
    {
        // a clause of this call says that what is noted as free is free, which the next calls rest on
        let _pages = self.buddy.pages();
        let at = PageAt::at(page.number() - self.base);
        let State::Out(_, kind, _) = self.buddy.holding(at) else {
            unreachable!()
        };
        self.buddy.hold(at, State::Posted(order, kind, to));
        self.buddy.side_push_back(to.number() as usize, at);
        let pages = order.pages();
        self.posted += pages;
    }

    /// The block in front of those posted to the receiver, which gets it. Refused 12 where there is none.
    pub fn collect(&mut self, receiver: Worker) -> Result<Block, Refused>
        requires receiver { receiver < workers_of self.old.plain }
        ensures reply { block_reply result ≡ (step self.old.plain receiver request.Collect).reply }
        ensures after { self.new ≡ record self.old { plain = (step self.old.plain receiver request.Collect).zone } }

        // What the calls after it can rest on.
        ensures out { IfOk result (λ block. IsTrue (is_out self.new.plain receiver block.page block.order)) }
        ensures fresh { IfOk result (λ block. IsFresh self.old.plain block.page) }
        ensures kept { KeepsOut self.old.plain self.new.plain }
    {
        let Some(head) = self.buddy.side_pop_front(receiver.number() as usize) else {
            return Err(Refused::NothingPosted);
        };
        let State::Posted(order, kind, _) = self.buddy.holding(head) else {
            unreachable!()
        };
        self.buddy.hold(head, State::Out(order, kind, receiver));
        let pages = order.pages();
        self.posted -= pages;
        let page = PageNo::new(self.base + head.number());
        Ok(Block { page, order, kind })
    }
}

/// Whether a request of this order may go on at a mark, with the free pages that there are outside isolated pageblocks.
fn is_above(min: u32, buddy: &Buddy, order: Order, mark: Mark) -> bool
    requires { min ≤ MAX_PAGES }
    ensures { result ≡ is_above min (size (available buddy.now.area.largest buddy.now.area.kinds buddy.now.area.free)) order mark }
{
    // (no count is read where there is no mark)
    if let Mark::Any = mark {
        return true;
    }
    let free = buddy.available_pages();
    match mark {
        Mark::Low => free > min + min / 4 + (order.pages() - 1),
        _ => free > min + (order.pages() - 1),
    }
}
