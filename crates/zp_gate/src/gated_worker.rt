//! A worker of a row. The calls that ask a zone return `CallError::Busy` at once where somebody is with it.
ghost use Rattle.std.specs.Prelude.{◌≡◌, ◌<◌, ◌≤◌, ◌↔◌, All, length, IfOk, IfErr, IfSome, IfNone, IsTrue, OnOk, [], false, true, None, Err};
ghost use Rattle.zp_model.specs.declared.request.Request.TheVariants as request;
ghost use Rattle.zp_model.specs.declared.request.Reply.TheVariants as reply;
ghost use Rattle.zp_model.specs.declared.constants.TheConstants.{LARGEST_ORDER, LONGEST_LIST};
ghost use Rattle.zp_model.specs.Runs.{may_alloc_run};
ghost use Rattle.zp_share.specs.Shares.{share_at};
ghost use Rattle.zp_share.specs.ZoneShares.{cached_of, is_lent};
ghost use Rattle.zp_gate.specs.declared.call_error.CallError.TheVariants.{NoLists, NotEmpty, NoZone, TooFew};
ghost use Rattle.zp_gate.specs.GatedWorkers.{AreDrained, AreDrainedTill, AreMadeAt, HasLeftDownTo, HasLeftLast, HasPages, HasTooFew, HasZone, IsAt, IsDeniedAt, IsDrained, IsFilled, IsListDenied, IsListDrained, IsOfSection, IsPutDenial, IsPutOn, IsSectionAt, IsTaken, IsToldAt, gated_at, worker_share};
ghost use Rattle.zp_gate.specs.Calls.{reply_of, request_of};
ghost use Rattle.zp_gate.specs.GatedZones.{IsWrittenTo, drain_request, each_is, free_of, freed_of, page_of};
ghost use Rattle.zp_gate.specs.declared.reader_error.ReaderError.TheVariants.{NoBoard, NoZone as NoReaderZone};
ghost use Rattle.zp_gate.specs.Readers.{IsNewReader};
ghost use Rattle.zp_gate.specs.Readings.{HasPage, HasPageblock, IsThen, Tells};

use crate::call::{Given, ZoneCall};
use crate::call_error::CallError;
use crate::gated_reader::GatedReader;
use crate::gated_share::GatedShare;
use crate::granted::Granted;
use crate::lists::{put_page, take_page};
use crate::question::{Answer, Question};
use crate::reader_error::ReaderError;
use crate::try_lock::{Busy, Visit};
use std::marker::Model;
use zp_model::{Mark, MigrateType, Order, PageNo};
use zp_zone::Told;

/// A worker of a row, with a share of each of its zones. Contracts see of each zone its key and the worker's share, and the visits by which
/// the worker left the zones that it has no more.
#[derive(Drop)]
pub struct GatedWorker {
    pub(crate) shares: Vec<GatedShare>,
    pub(crate) left: Vec<Visit>,
}

impl Model for GatedWorker {
    ghost use Rattle.std.specs.Prelude.{◌≤◌, ◌+◌, length, vec_capacity};
    ghost use Rattle.zp_gate.specs.GatedWorkers.{WorkerState};

    ghost Value = { WorkerState };

    ghost view = { λ w. record { shares = w.shares.items; left = w.left.items } };

    ghost invariant = { λ w. length w.left.items + length w.shares.items ≤ vec_capacity w.left };
}

impl GatedWorker {
    /// Allocates a block of this order for this type, held to this mark, which is then lent. Refused 10, 11 or 30.
    #[inline(always)]
    pub fn alloc(
        &mut self,
        zone: usize,
        order: Order,
        kind: MigrateType,
        mark: Mark,
    ) -> Result<PageNo, CallError>
        ensures { IsSectionAt zone (request.Alloc order kind mark) reply.Page result self.old self.new }
    {
        let Some(share) = self.shares.get_mut(zone) else {
            return Err(CallError::NoZone);
        };
        share.alloc(order, kind, mark)
    }

    /// As `alloc`, and tells where the block came from: a function of the zone as it was before.
    pub fn alloc_told(
        &mut self,
        zone: usize,
        order: Order,
        kind: MigrateType,
        mark: Mark,
    ) -> Result<Told, CallError>
        ensures section { IsSectionAt zone (request.Alloc order kind mark) (λ t. reply.Page t.page) result self.old self.new }
        ensures told { IfOk result (λ t. IsToldAt zone order kind mark t self.old self.new) }
    {
        let Some(share) = self.shares.get_mut(zone) else {
            return Err(CallError::NoZone);
        };
        share.alloc_told(order, kind, mark)
    }

    /// Frees a lent block. Refused 20 or 30.
    #[inline(always)]
    pub fn free(&mut self, zone: usize, page: PageNo, order: Order) -> Result<(), CallError>
        ensures { IsSectionAt zone (request.Free page order) (λ _. reply.Freed) result self.old self.new }
    {
        let Some(share) = self.shares.get_mut(zone) else {
            return Err(CallError::NoZone);
        };
        share.free(page, order)
    }

    /// Allocates a block of the one kind for each place of an array, in one visit, one after another up to the first that is refused: how many,
    /// which are then lent, and that refusal, 10, 11 or 30.
    pub fn alloc_many(
        &mut self,
        zone: usize,
        order: Order,
        kind: MigrateType,
        mark: Mark,
        pages: &mut [u32],
    ) -> Result<Granted, Busy>
        requires { HasZone zone self.old }
        ensures made { IfOk result (λ g. AreMadeAt zone (each_is (request.Alloc order kind mark)) (page_of pages.new) (length pages.old) g self.old self.new) }
        ensures written { IfOk result (λ g. IsWrittenTo g.count pages.old pages.new) }
        ensures busy { IfErr result (λ b. (self.new ≡ self.old) × (pages.new ≡ pages.old)) }
    {
        self.shares[zone].alloc_many(order, kind, mark, pages)
    }

    /// Frees the blocks of two arrays, in one visit, one after another up to the first that is refused: how many, and that refusal, 20 or 30.
    pub fn free_many(&mut self, zone: usize, pages: &[u32], orders: &[u32]) -> Result<Granted, Busy>
        requires zone { HasZone zone self.old }
        requires each { length orders.now ≡ length pages.now }
        requires orders { All (λ k. k ≤ LARGEST_ORDER) orders.now }
        ensures made { IfOk result (λ g. AreMadeAt zone (free_of pages.now orders.now) freed_of (length pages.now) g self.old self.new) }
        ensures busy { IfErr result (λ b. self.new ≡ self.old) }
    {
        self.shares[zone].free_many(pages, orders)
    }

    /// The lowest run of so many free pages that begins at a multiple of two to the power `align`, held to this mark: its first page. It is then
    /// lent. Refused 10, 11 or 30.
    pub fn alloc_run(
        &mut self,
        zone: usize,
        pages: u32,
        align: u8,
        mark: Mark,
    ) -> Result<PageNo, CallError>
        requires { IsTrue (may_alloc_run pages align) }
        ensures { IsSectionAt zone (request.AllocRun pages align mark) reply.Page result self.old self.new }
    {
        let Some(share) = self.shares.get_mut(zone) else {
            return Err(CallError::NoZone);
        };
        share.alloc_run(pages, align, mark)
    }

    /// Frees so many lent pages from this one on, by whatever blocks they are lent. Refused 20 or 30.
    #[inline(always)]
    pub fn free_run(&mut self, zone: usize, page: PageNo, pages: u32) -> Result<(), CallError>
        ensures { IsSectionAt zone (request.FreeRun page pages) (λ _. reply.Freed) result self.old self.new }
    {
        let Some(share) = self.shares.get_mut(zone) else {
            return Err(CallError::NoZone);
        };
        share.free_run(page, pages)
    }

    /// Another request to the zone at a place, whatever is asked.
    #[inline(always)]
    pub fn section(&mut self, zone: usize, call: ZoneCall) -> Result<Given, CallError>
        ensures { IsSectionAt zone (request_of call) (reply_of call) result self.old self.new }
    {
        let Some(share) = self.shares.get_mut(zone) else {
            return Err(CallError::NoZone);
        };
        share.section(call)
    }

    /// Fills the worker's empty list of this type with up to a batch of pages. Refused 10, 11 or 30.
    pub fn refill(&mut self, zone: usize, kind: MigrateType, mark: Mark) -> Result<(), CallError>
        ensures ok { OnOk result (IsAt zone (IsFilled (gated_at self.old zone).key kind mark) self.old self.new) }
        ensures zone { (result ≡ Err NoZone) ↔ ¬ HasZone zone self.old }
        ensures lists { (result ≡ Err NoLists) ↔ (HasZone zone self.old × ((worker_share self.old zone).batch ≡ 0)) }
        ensures empty { (result ≡ Err NotEmpty) ↔ (HasZone zone self.old × HasPages kind (worker_share self.old zone)) }
        ensures denied { IfErr result (λ e. IsDeniedAt zone (request.Refill kind mark (worker_share self.old zone).batch) e self.old self.new) }
    {
        let Some(share) = self.shares.get_mut(zone) else {
            return Err(CallError::NoZone);
        };
        share.refill(kind, mark)
    }

    /// Frees so many pages from the back of the worker's list of this type. Refused 30.
    pub fn drain(&mut self, zone: usize, kind: MigrateType, count: usize) -> Result<(), CallError>
        ensures ok { OnOk result (IsAt zone (IsDrained (gated_at self.old zone).key kind count) self.old self.new) }
        ensures zone { (result ≡ Err NoZone) ↔ ¬ HasZone zone self.old }
        ensures few { (result ≡ Err TooFew) ↔ (HasZone zone self.old × HasTooFew kind count (worker_share self.old zone)) }
        ensures why { IfErr result (λ e. HasZone zone self.old → (¬ HasTooFew kind count (worker_share self.old zone)) → IsOfSection e) }
        ensures denied { IfErr result (λ e. IsDeniedAt zone (drain_request count kind (worker_share self.old zone)) e self.old self.new) }
    {
        let Some(share) = self.shares.get_mut(zone) else {
            return Err(CallError::NoZone);
        };
        share.drain(kind, count)
    }

    /// Frees all pages of the worker's list of this type; where it has none, no zone is asked. Refused 30.
    fn drain_list(&mut self, zone: usize, kind: MigrateType) -> Result<(), CallError>
        requires { HasZone zone self.old }
        ensures ok { OnOk result (IsListDrained zone kind self.old self.new) }
        ensures denied { IfErr result (λ e. IsListDenied zone kind e self.old self.new) }
        ensures zones { length self.new.shares ≡ length self.old.shares }
    {
        let pages = self.cached_len(zone, kind);
        if pages == 0 {
            return Ok(());
        }
        self.drain(zone, kind, pages)
    }

    /// Frees all pages of the worker's lists of this zone, a list at a time: where one is denied, the lists before it are empty, and
    /// the rest is as it was.
    pub fn drain_all(&mut self, zone: usize) -> Result<(), CallError>
        ensures ok { OnOk result (AreDrained zone self.old self.new) }
        ensures zone { (result ≡ Err NoZone) ↔ ¬ HasZone zone self.old }
        ensures same { (¬ HasZone zone self.old) → self.new ≡ self.old }
        ensures denied { IfErr result (λ e. HasZone zone self.old → AreDrainedTill zone e self.old self.new) }
    {
        if zone >= self.shares.len() {
            return Err(CallError::NoZone);
        }
        self.drain_list(zone, MigrateType::Unmovable)?;
        self.drain_list(zone, MigrateType::Reclaimable)?;
        self.drain_list(zone, MigrateType::Movable)
    }

    /// Takes the page in front of the worker's list of this type, and lends it. None where the list is empty.
    #[inline(always)]
    pub fn take(&mut self, zone: usize, kind: MigrateType) -> Option<PageNo>
        requires { HasZone zone self.old }
        ensures some { IfSome result (λ page. IsAt zone (IsTaken kind page) self.old self.new) }
        ensures none { IfNone result ((self.new ≡ self.old) × (cached_of (share_at (worker_share self.old zone) 0) kind ≡ [])) }
    {
        take_page(&mut self.shares[zone].share, kind)
    }

    /// Puts a lent page at the front of the worker's list of its type. Refused 20, and 21 where the list is full.
    #[inline(always)]
    pub fn put(&mut self, zone: usize, page: PageNo) -> Result<(), CallError>
        requires { HasZone zone self.old }
        ensures ok { OnOk result (IsAt zone (IsPutOn page) self.old self.new) }
        ensures denied { IfErr result (λ e. IsAt zone (IsPutDenial page e) self.old self.new) }
    {
        put_page(&mut self.shares[zone].share, page)
    }

    /// How many zones of the row the worker has not left.
    #[inline(always)]
    pub fn zones(&self) -> usize
        ensures { result ≡ length self.now.shares }
    {
        self.shares.len()
    }

    /// How many pages the worker's list of this type has.
    pub fn cached_len(&self, zone: usize, kind: MigrateType) -> usize
        requires { HasZone zone self.now }
        ensures same { result ≡ length (cached_of (share_at (worker_share self.now zone) 0) kind) }
        ensures within { result ≤ LONGEST_LIST }
    {
        self.shares[zone].share.cached_len(0, kind)
    }

    /// Whether the block at this page, of this order, is lent to the worker.
    pub fn is_lent(&self, zone: usize, page: PageNo, order: Order) -> bool
        requires { HasZone zone self.now }
        ensures { result ≡ is_lent (share_at (worker_share self.now zone) 0) page order }
    {
        self.shares[zone].share.is_lent(0, page, order)
    }

    /// Whether the page is one of the zone's.
    pub fn has_page(&self, zone: usize, page: PageNo) -> bool
        requires { HasZone zone self.now }
        ensures { (result ≡ true) ↔ HasPage (gated_at self.now zone).key page }
    {
        self.shares[zone].has_page(page)
    }

    /// Whether the zone has a pageblock of this number.
    pub fn has_pageblock(&self, zone: usize, pageblock: u32) -> bool
        requires { HasZone zone self.now }
        ensures { (result ≡ true) ↔ HasPageblock (gated_at self.now zone).key pageblock }
    {
        self.shares[zone].has_pageblock(pageblock)
    }

    /// A reader of a zone's board that has seen all that is published.
    pub fn reader(&self, zone: usize) -> Result<GatedReader, ReaderError>
        ensures made { IfOk result (λ r. HasZone zone self.now × IsNewReader (gated_at self.now zone).key r) }
        ensures zone { (result ≡ Err NoReaderZone) ↔ ¬ HasZone zone self.now }
        ensures board { (result ≡ Err NoBoard) ↔ (HasZone zone self.now × ((gated_at self.now zone).key.board ≡ None)) }
    {
        let Some(share) = self.shares.get(zone) else {
            return Err(ReaderError::NoZone);
        };
        share.reader()
    }

    /// What a zone reports.
    #[inline(always)]
    pub fn tell(&mut self, zone: usize, question: Question) -> Result<Answer, Busy>
        requires { HasZone zone self.old }
        ensures same { self.new ≡ self.old }
        ensures told { IfOk result (λ a. IsThen (gated_at self.old zone).key (worker_share self.old zone) (Tells question a)) }
    {
        self.shares[zone].tell(question)
    }

    /// The worker leaves its last zone. False where somebody is in: then it has not.
    pub fn leave(&mut self) -> bool
        requires { 0 < length self.old.shares }
        ensures left { IsTrue result → HasLeftLast self.old self.new }
        ensures not { result ≡ false → self.new ≡ self.old }
    {
        let Some(share) = self.shares.pop() else {
            unreachable!()
        };
        match share.leave() {
            Ok(visit) => {
                self.left.push_reserved(visit);
                true
            }
            Err(share) => {
                self.shares.push_reserved(share);
                false
            }
        }
    }

    /// The worker leaves its zones, the last first, till it has left all. False where somebody is in one: then it has left those behind it.
    pub fn leave_all(&mut self) -> bool
        ensures left { IsTrue result → HasLeftDownTo 0 self.old self.new }
        ensures some { HasLeftDownTo (length self.new.shares) self.old self.new }
        ensures not { result ≡ false → 0 < length self.new.shares }
    {
        for _ in 0..self.shares.len() {
            if !self.leave() {
                return false;
            }
        }
        true
    }
}
