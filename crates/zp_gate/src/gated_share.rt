//! One worker's share of one zone behind its lock.
ghost use Rattle.std.specs.Prelude.{◌≡◌, ◌<◌, ◌≤◌, ◌↔◌, true, false, All, IfOk, IfErr, IsTrue, OnOk, Err, None, length};
ghost use Rattle.std.specs.Arc.{arc_value};
ghost use Rattle.zp_model.specs.declared.constants.TheConstants.{LARGEST_ORDER};
ghost use Rattle.zp_model.specs.declared.request.Request.TheVariants as request;
ghost use Rattle.zp_model.specs.declared.request.Reply.TheVariants as reply;
ghost use Rattle.zp_model.specs.declared.refused.Refused.TheVariants.{Memory};
ghost use Rattle.zp_model.specs.Runs.{may_alloc_run};
ghost use Rattle.zp_zone.specs.Seats.{IsUnused};
ghost use Rattle.zp_share.specs.PlainShares.{lends_for};
ghost use Rattle.zp_share.specs.Shares.{share_at};
ghost use Rattle.zp_share.specs.ZoneShares.{plain_share};
ghost use Rattle.zp_gate.specs.Calls.{reply_of, request_of};
ghost use Rattle.zp_gate.specs.GatedZones.{IsOneShare, IsSeatBy, IsWrittenTo, drain_request, each_is, free_of, freed_of, page_of};
ghost use Rattle.zp_gate.specs.declared.call_error.CallError.TheVariants.{NoLists, NotEmpty, TooFew};
ghost use Rattle.zp_gate.specs.declared.reader_error.ReaderError.TheVariants.{NoBoard, NoZone};
ghost use Rattle.zp_gate.specs.Readers.{IsNewReader};
ghost use Rattle.zp_gate.specs.GatedRows.{lock_key};
ghost use Rattle.zp_gate.specs.GatedWorkers.{HasPages, HasTooFew, HasTurned, IsDenial, IsDrained, IsFilled, IsNewShare, IsOfSection, IsSection, LacksWorker};
ghost use Rattle.zp_gate.specs.Readings.{HasPage, HasPageblock, IsThen, Tells};
ghost use Rattle.zp_gate.specs.Visits.{AreAnswers, HasKept, IsBlockTold};

use crate::call::{Given, ZoneCall};
use crate::call_error::CallError;
use crate::gated_reader::GatedReader;
use crate::granted::Granted;
use crate::question::{Answer, Question};
use crate::reader_error::ReaderError;
use crate::try_lock::{Busy, TryLock, Visit};
use std::alloc::Global;
use std::marker::Model;
use std::sync::Arc;
use zp_model::{Mark, MigrateType, Order, PageNo, Refused};
use zp_share::{ListConfig, Share};
use zp_zone::{Seat, Told};

/// The lock of a zone, and a worker's share of the zone. Contracts see the zone's key and the share.
#[derive(Drop)]
pub struct GatedShare {
    lock: Arc<TryLock, Global>,
    pub(crate) share: Share,
}

impl Model for GatedShare {
    ghost use Rattle.std.specs.Arc.{arc_value};
    ghost use Rattle.zp_gate.specs.GatedZones.{IsOneShare};
    ghost use Rattle.zp_gate.specs.GatedRows.{lock_key};
    ghost use Rattle.zp_gate.specs.GatedWorkers.{GatedShareState};

    ghost Value = { GatedShareState };

    ghost view = { λ d. record { key = lock_key (arc_value d.lock); share = d.share } };

    ghost invariant = { λ d. IsOneShare (lock_key (arc_value d.lock)).zone d.share };
}

impl GatedShare {
    /// The share at this lock of a worker with which no request was made. Refused 6.
    pub(crate) fn new(
        alloc: Global,
        lock: &Arc<TryLock, Global>,
        seat: Seat,
        lists: ListConfig,
    ) -> Result<GatedShare, Refused>
        requires unused { IsUnused seat }
        requires of { IsSeatBy (lock_key (arc_value lock.now)).zone seat }
        ensures new { IfOk result (λ d. IsNewShare seat.worker lists.batch lists.high_len d.share) }
        ensures key { IfOk result (λ d. d.key ≡ lock_key (arc_value lock.now)) }
        ensures why { IfErr result (λ e. e ≡ Memory) }
    {
        let Ok(seats) = Vec::from_array(alloc, [seat]) else {
            return Err(Refused::Memory);
        };
        let share = Share::new(alloc, seats, lists)?;
        let Ok(lock) = Arc::try_clone(lock) else {
            return Err(Refused::Memory);
        };
        Ok(GatedShare { lock, share })
    }

    /// Allocates a block of this order for this type, held to this mark, which is then lent. Refused 10, 11 or 30.
    #[inline(always)]
    pub(crate) fn alloc(
        &mut self,
        order: Order,
        kind: MigrateType,
        mark: Mark,
    ) -> Result<PageNo, CallError>
        ensures { IsSection (request.Alloc order kind mark) reply.Page result self.old self.new }
    {
        let lock = &*self.lock;
        let mut visitor = lock.enter().map_err(CallError::Busy)?;
        let zone = visitor.slot_mut(&lock.table.shared, 0);
        let answer = zone.alloc(&lock.board, &mut self.share, order, kind, mark);
        lock.leave(visitor);
        answer.map_err(CallError::Refused)
    }

    /// As `alloc`, and tells where the block came from.
    pub(crate) fn alloc_told(
        &mut self,
        order: Order,
        kind: MigrateType,
        mark: Mark,
    ) -> Result<Told, CallError>
        ensures section { IsSection (request.Alloc order kind mark) (λ t. reply.Page t.page) result self.old self.new }
        ensures told { IfOk result (λ t. HasTurned (IsBlockTold self.old.key order kind mark t) self.old self.new) }
    {
        let lock = &*self.lock;
        let mut visitor = lock.enter().map_err(CallError::Busy)?;
        let zone = visitor.slot_mut(&lock.table.shared, 0);
        let answer = zone.alloc_told(&lock.board, &mut self.share, order, kind, mark);
        lock.leave(visitor);
        answer.map_err(CallError::Refused)
    }

    /// Frees a lent block. Whether it is lent is tested before anybody enters. Refused 20 or 30.
    #[inline(always)]
    pub(crate) fn free(&mut self, page: PageNo, order: Order) -> Result<(), CallError>
        ensures { IsSection (request.Free page order) (λ _. reply.Freed) result self.old self.new }
    {
        if !self.share.is_lent(0, page, order) {
            return Err(CallError::Refused(Refused::NotLent));
        }
        let lock = &*self.lock;
        let mut visitor = lock.enter().map_err(CallError::Busy)?;
        let zone = visitor.slot_mut(&lock.table.shared, 0);
        let answer = zone.free(&lock.board, &mut self.share, page, order);
        lock.leave(visitor);
        answer.map_err(CallError::Refused)
    }

    /// Allocates a block of the one kind for each place of an array, in one visit, one after another up to the first that is refused: how many,
    /// which are then lent, and that refusal, 10, 11 or 30.
    pub(crate) fn alloc_many(
        &mut self,
        order: Order,
        kind: MigrateType,
        mark: Mark,
        pages: &mut [u32],
    ) -> Result<Granted, Busy>
        ensures made { IfOk result (λ g. HasTurned (AreAnswers self.old.key (each_is (request.Alloc order kind mark)) (page_of pages.new) (length pages.old) g) self.old self.new) }
        ensures written { IfOk result (λ g. IsWrittenTo g.count pages.old pages.new) }
        ensures busy { IfErr result (λ b. (self.new ≡ self.old) × (pages.new ≡ pages.old)) }
    {
        let lock = &*self.lock;
        let mut visitor = lock.enter()?;
        let zone = visitor.slot_mut(&lock.table.shared, 0);
        let granted = zone.alloc_many(&lock.board, &mut self.share, order, kind, mark, pages);
        lock.leave(visitor);
        Ok(granted)
    }

    /// Frees the blocks of two arrays, in one visit, one after another up to the first that is refused: how many, and that refusal, 20 or 30.
    pub(crate) fn free_many(&mut self, pages: &[u32], orders: &[u32]) -> Result<Granted, Busy>
        requires each { length orders.now ≡ length pages.now }
        requires orders { All (λ k. k ≤ LARGEST_ORDER) orders.now }
        ensures made { IfOk result (λ g. HasTurned (AreAnswers self.old.key (free_of pages.now orders.now) freed_of (length pages.now) g) self.old self.new) }
        ensures busy { IfErr result (λ b. self.new ≡ self.old) }
    {
        let lock = &*self.lock;
        let mut visitor = lock.enter()?;
        let zone = visitor.slot_mut(&lock.table.shared, 0);
        let granted = zone.free_many(&lock.board, &mut self.share, pages, orders);
        lock.leave(visitor);
        Ok(granted)
    }

    /// The lowest run of so many free pages that begins at a multiple of two to the power `align`, held to this mark: its first page. It is then
    /// lent. Refused 10, 11 or 30.
    pub(crate) fn alloc_run(
        &mut self,
        pages: u32,
        align: u8,
        mark: Mark,
    ) -> Result<PageNo, CallError>
        requires { IsTrue (may_alloc_run pages align) }
        ensures { IsSection (request.AllocRun pages align mark) reply.Page result self.old self.new }
    {
        let lock = &*self.lock;
        let mut visitor = lock.enter().map_err(CallError::Busy)?;
        let zone = visitor.slot_mut(&lock.table.shared, 0);
        let answer = zone.alloc_run(&lock.board, &mut self.share, pages, align, mark);
        lock.leave(visitor);
        answer.map_err(CallError::Refused)
    }

    /// Frees so many lent pages from this one on, by whatever blocks they are lent. Whether they are is tested before anybody enters: of pages that are
    /// one block one look tells it, and the order with which they are freed. Refused 20 or 30.
    #[inline(always)]
    pub(crate) fn free_run(&mut self, page: PageNo, pages: u32) -> Result<(), CallError>
        ensures { IsSection (request.FreeRun page pages) (λ _. reply.Freed) result self.old self.new }
    {
        let Some(order) = self.share.lent_block(0, page, pages) else {
            return self.free_parts(page, pages);
        };
        let lock = &*self.lock;
        let mut visitor = lock.enter().map_err(CallError::Busy)?;
        let zone = visitor.slot_mut(&lock.table.shared, 0);
        let answer = zone.free_run_as_block(&lock.board, &mut self.share, page, pages, order);
        lock.leave(visitor);
        answer.map_err(CallError::Refused)
    }

    /// The same, from block to block.
    // (out of line: most runs that come back are one block)
    #[inline(never)]
    fn free_parts(&mut self, page: PageNo, pages: u32) -> Result<(), CallError>
        ensures { IsSection (request.FreeRun page pages) (λ _. reply.Freed) result self.old self.new }
    {
        if !self.share.is_lent_run(0, page, pages) {
            return Err(CallError::Refused(Refused::NotLent));
        }
        let lock = &*self.lock;
        let mut visitor = lock.enter().map_err(CallError::Busy)?;
        let zone = visitor.slot_mut(&lock.table.shared, 0);
        let answer = zone.free_lent_run(&lock.board, &mut self.share, page, pages);
        lock.leave(visitor);
        answer.map_err(CallError::Refused)
    }

    /// Another request to the zone. Whether the zone has the worker to whom a block is posted, and whether the block that is posted is lent, is
    /// tested before anybody enters. Refused 20, and as the zone refuses it.
    #[tactic(auto, using(crate::proofs::Keeping::share_stays))]
    #[inline(always)]
    pub(crate) fn section(&mut self, call: ZoneCall) -> Result<Given, CallError>
        ensures { IsSection (request_of call) (reply_of call) result self.old self.new }
    {
        if self.lacks_worker(&call) {
            return Err(CallError::NoWorker);
        }
        if !self.lends_for(&call) {
            return Err(CallError::Refused(Refused::NotLent));
        }
        let lock = &*self.lock;
        let mut visitor = lock.enter().map_err(CallError::Busy)?;
        let zone = visitor.slot_mut(&lock.table.shared, 0);
        let answer = zone.section(&lock.board, &mut self.share, call);
        lock.leave(visitor);
        match answer {
            Ok(given) => Ok(given),
            Err(refused) => Err(CallError::Refused(refused)),
        }
    }

    /// Whether a block is to be posted to a worker that the zone does not have.
    #[inline(always)]
    fn lacks_worker(&self, call: &ZoneCall) -> bool
        ensures yes { result ≡ true → LacksWorker (request_of call.now) self.now }
        ensures no { result ≡ false → ¬ LacksWorker (request_of call.now) self.now }
    {
        match call {
            ZoneCall::Post(_, _, to) => u32::from(to.number()) >= self.lock.workers,
            _ => false,
        }
    }

    /// Whether the block that is named, if one is, is lent.
    #[inline(always)]
    fn lends_for(&self, call: &ZoneCall) -> bool
        ensures { result ≡ lends_for (request_of call.now) (plain_share (share_at self.now.share 0)) }
    {
        match call {
            ZoneCall::Post(page, order, _) => self.share.is_lent(0, *page, *order),
            _ => true,
        }
    }

    /// Fills the worker's empty list of this type with up to a batch of pages. Refused 10, 11 or 30.
    pub(crate) fn refill(&mut self, kind: MigrateType, mark: Mark) -> Result<(), CallError>
        ensures ok { OnOk result (HasTurned (IsFilled self.old.key kind mark) self.old self.new) }
        ensures lists { (result ≡ Err NoLists) ↔ (self.old.share.batch ≡ 0) }
        ensures empty { (result ≡ Err NotEmpty) ↔ HasPages kind self.old.share }
        ensures denied { IfErr result (λ e. IsDenial (request.Refill kind mark self.old.share.batch) e self.old self.new) }
    {
        if self.share.lists().batch() == 0 {
            return Err(CallError::NoLists);
        }
        if self.share.cached_len(0, kind) != 0 {
            return Err(CallError::NotEmpty);
        }
        let lock = &*self.lock;
        let mut visitor = lock.enter().map_err(CallError::Busy)?;
        let zone = visitor.slot_mut(&lock.table.shared, 0);
        let answer = zone.fill(&lock.board, &mut self.share, kind, mark);
        lock.leave(visitor);
        match answer {
            Ok(()) => Ok(()),
            Err(refused) => Err(CallError::Refused(refused)),
        }
    }

    /// Frees so many pages from the back of the worker's list of this type. Refused 30.
    pub(crate) fn drain(&mut self, kind: MigrateType, count: usize) -> Result<(), CallError>
        ensures ok { OnOk result (HasTurned (IsDrained self.old.key kind count) self.old self.new) }
        ensures few { (result ≡ Err TooFew) ↔ HasTooFew kind count self.old.share }
        ensures why { IfErr result (λ e. (¬ HasTooFew kind count self.old.share) → IsOfSection e) }
        ensures denied { IfErr result (λ e. IsDenial (drain_request count kind self.old.share) e self.old self.new) }
    {
        if count == 0 || self.share.cached_len(0, kind) < count {
            return Err(CallError::TooFew);
        }
        let lock = &*self.lock;
        let mut visitor = lock.enter().map_err(CallError::Busy)?;
        let zone = visitor.slot_mut(&lock.table.shared, 0);
        let answer = zone.drain(&lock.board, &mut self.share, kind, count);
        lock.leave(visitor);
        answer.map_err(CallError::Refused)
    }

    /// A reader of the zone's board that has seen all that is published.
    pub(crate) fn reader(&self) -> Result<GatedReader, ReaderError>
        ensures made { IfOk result (IsNewReader self.now.key) }
        ensures zone { result ≡ Err NoZone → ⊥ }
        ensures board { (result ≡ Err NoBoard) ↔ (self.now.key.board ≡ None) }
    {
        let inside = &*self.lock;
        let Some(board) = &inside.board else {
            return Err(ReaderError::NoBoard);
        };
        let Ok(lock) = Arc::try_clone(&self.lock) else {
            return Err(ReaderError::NoMemory);
        };
        let mut visitor = inside.enter().map_err(ReaderError::Busy)?;
        let zone = visitor.slot_mut(&inside.table.shared, 0);
        let reader = zone.reader(board);
        inside.leave(visitor);
        Ok(GatedReader { lock, reader })
    }

    /// What the zone reports.
    #[inline(always)]
    pub(crate) fn tell(&mut self, question: Question) -> Result<Answer, Busy>
        ensures same { self.new ≡ self.old }
        ensures told { IfOk result (λ a. IsThen self.old.key self.old.share (Tells question a)) }
    {
        let lock = &*self.lock;
        let mut visitor = lock.enter()?;
        let zone = visitor.slot_mut(&lock.table.shared, 0);
        let answer = zone.tell(&mut self.share, question);
        lock.leave(visitor);
        Ok(answer)
    }

    /// Whether a page is one of the zone's.
    #[inline(always)]
    pub(crate) fn has_page(&self, page: PageNo) -> bool
        ensures { (result ≡ true) ↔ HasPage self.now.key page }
    {
        page.number() >= self.lock.base && page.number() - self.lock.base < self.lock.pages
    }

    /// Whether the zone has a pageblock of this number.
    #[inline(always)]
    pub(crate) fn has_pageblock(&self, pageblock: u32) -> bool
        ensures { (result ≡ true) ↔ HasPageblock self.now.key pageblock }
    {
        (pageblock as usize) < self.lock.pageblocks
    }

    /// The worker leaves its share with the zone. It comes back where somebody is in, or where all workers left theirs.
    pub(crate) fn leave(self) -> Result<Visit, GatedShare>
        ensures left { IfOk result (HasKept self.key self.share) }
        ensures same { IfErr result (λ s. s ≡ self) }
    {
        let GatedShare { lock, share } = self;
        match lock.keep(share) {
            Ok(visit) => Ok(visit),
            Err(share) => Err(GatedShare { lock, share }),
        }
    }
}
