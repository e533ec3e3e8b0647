//! Blocks that are got and put back. Each call is one step of the plain zone and one entry, but a refusal with 20, which is none.
ghost use Rattle.std.specs.Prelude.{◌≡◌, ◌↔◌, IfErr, IfOk, IsOk, IsTrue, OnErr, OnOk, Some};
ghost use Rattle.zp_model.specs.declared.refused.Refused.TheVariants.{NotLent};
ghost use Rattle.zp_model.specs.declared.request.Request.TheVariants as request;
ghost use Rattle.zp_model.specs.Choose.{origin};
ghost use Rattle.zp_model.specs.Run.{is_out};
ghost use Rattle.zp_model.specs.Step.{step};
ghost use Rattle.zp_zone.specs.NamedZone.{block_reply, page_reply, told_reply};
ghost use Rattle.zp_zone.specs.Seats.{asked};

use super::OpenRoom;
use zp_model::{Block, Mark, MigrateType, Order, PageNo, Refused};
use zp_zone::Told;

impl OpenRoom {
    /// A block of this order for this type, held to this mark: its first page. Refused 10 or 11.
    #[tactic(auto, using(crate::proofs::Posted::alloc_posted, crate::proofs::Given::block_is_out))]
    pub fn get_block(
        &mut self,
        order: Order,
        kind: MigrateType,
        mark: Mark,
    ) -> Result<PageNo, Refused>
        ensures reply { page_reply result ≡ (step self.old.zone.plain self.old.worker (request.Alloc order kind mark)).reply }
        ensures after { self.new ≡ record self.old { zone = asked self.old.worker (request.Alloc order kind mark) self.old.zone } }
        ensures out { IfOk result (λ page. IsTrue (is_out self.new.zone.plain self.new.worker page order)) }
    {
        self.zone.alloc(&mut self.seat, order, kind, mark)
    }

    /// As `get_block`, and tells where the block came from.
    #[tactic(auto, using(crate::proofs::Posted::alloc_posted, crate::proofs::Given::block_is_out))]
    pub fn get_told(&mut self, order: Order, kind: MigrateType, mark: Mark) -> Result<Told, Refused>
        ensures reply { told_reply result ≡ (step self.old.zone.plain self.old.worker (request.Alloc order kind mark)).reply }
        ensures told { IfOk result (λ t. origin self.old.zone.plain.area order kind ≡ Some t.origin) }
        ensures after { self.new ≡ record self.old { zone = asked self.old.worker (request.Alloc order kind mark) self.old.zone } }
        ensures out { IfOk result (λ t. IsTrue (is_out self.new.zone.plain self.new.worker t.page order)) }
    {
        self.zone.alloc_told(&mut self.seat, order, kind, mark)
    }

    /// The lowest block of this order, of whatever type. The type noted for it is its pageblock's. Refused 11.
    #[tactic(auto, using(crate::proofs::Posted::alloc_low_posted, crate::proofs::Given::block_is_out))]
    pub fn get_low(&mut self, order: Order) -> Result<Block, Refused>
        ensures reply { block_reply result ≡ (step self.old.zone.plain self.old.worker (request.AllocLow order)).reply }
        ensures after { self.new ≡ record self.old { zone = asked self.old.worker (request.AllocLow order) self.old.zone } }
        ensures order { IfOk result (λ block. block.order ≡ order) }
        ensures out { IfOk result (λ block. IsTrue (is_out self.new.zone.plain self.new.worker block.page block.order)) }
    {
        self.zone.alloc_low(&mut self.seat, order)
    }

    /// A block back, whoever got it. Refused 20 exactly where no block of this order is out at this page, and then nothing has changed.
    pub fn put_block(&mut self, page: PageNo, order: Order) -> Result<(), Refused>
        ensures exact { IsOk result ↔ IsTrue (is_out self.old.zone.plain self.old.worker page order) }
        ensures ok { OnOk result (self.new ≡ record self.old { zone = asked self.old.worker (request.Free page order) self.old.zone }) }
        ensures err { OnErr result (self.new ≡ self.old) }
        ensures why { IfErr result (λ e. e ≡ NotLent) }
    {
        if !self.zone.held_by(&self.seat, page, order) {
            return Err(Refused::NotLent);
        }
        self.zone.free(&mut self.seat, page, order);
        Ok(())
    }
}
