//! What stands behind a lock. Each call is exact here: what it does not name stays.
ghost use Rattle.std.specs.Prelude.{ℕ, ◌≡◌, ◌<◌, ◌≤◌, ◌==◌, [], All, IfErr, IfNone, IfOk, IfSome, IsTrue, OnOk, Ok, Err, Some, false, true, length};
ghost use Rattle.std.specs.List.{count_by};
ghost use Rattle.zp_model.specs.declared.refused.Refused.TheVariants.{Memory};
ghost use Rattle.zp_model.specs.declared.constants.TheConstants.{LARGEST_ORDER};
ghost use Rattle.zp_model.specs.declared.request.Request.TheVariants as request;
ghost use Rattle.zp_model.specs.Zone.{workers_of};
ghost use Rattle.zp_model.specs.Runs.{may_alloc_run};
ghost use Rattle.zp_share.specs.Gathering.{IsCrewOf};
ghost use Rattle.zp_model.specs.declared.request.Reply.TheVariants as reply;
ghost use Rattle.zp_model.specs.Choose.{origin};
ghost use Rattle.zp_zone.specs.NamedZone.{page_reply, told_reply};
ghost use Rattle.zp_zone.specs.Seats.{IsSeatOf};
ghost use Rattle.zp_share.specs.PageUses.{IsOneBlock, is_lent_run};
ghost use Rattle.zp_share.specs.PlainShares.{lends_for};
ghost use Rattle.zp_share.specs.Sections.{IsAsked, IsRefilled, MayAsk, done_reply};
ghost use Rattle.zp_share.specs.Shares.{ShareState, key_of, share_at, with_zone_share};
ghost use Rattle.zp_share.specs.ZoneShares.{cached_of, plain_share};
ghost use Rattle.zp_model.specs.Run.{IsHistory};
ghost use Rattle.zp_counts.specs.CountBoards.{last_reading};
ghost use mathlib.Core.List.{IsPrefix};
ghost use Rattle.zp_gate.specs.Boards.{HasRead, IsTiedTo};
ghost use Rattle.zp_gate.specs.Calls.{answer_of, request_of};
ghost use Rattle.zp_gate.specs.GatedZones.{AreSectionsTill, IsGatheredIn, IsLeavingOf, IsOneShare, IsSectionOf, IsWrittenTo, drain_request, each_is, free_of, freed_of, page_of};
ghost use Rattle.zp_gate.specs.declared.call.Given.TheVariants.{Done};
ghost use Rattle.zp_gate.specs.Readings.{IsZoneOf, Tells};

use crate::call::{Given, ZoneCall};
use crate::granted::Granted;
use crate::publishing::{publish, was_asked};
use crate::question::{Answer, Question, ZoneTold};
use std::alloc::Global;
use std::marker::Model;
use zp_counts::{Board, BoardReader, Publisher, Reading};
use zp_info::{TextBuffer, push_counts};
use zp_model::{Mark, MigrateType, Order, PageNo, Refused};
use zp_share::{Share, Totals, gather_zone};
use zp_zone::{Told, Zone};

/// A zone, the shares of it that workers left when they ended, for which there is room, and the right to publish its counts, where it has a board.
#[derive(Drop)]
pub struct GatedZone {
    zone: Box<Zone>,
    workers: u32,
    left: Vec<Share>,
    board: Option<Publisher>,
}

impl Model for GatedZone {
    ghost use Rattle.std.specs.Prelude.{◌≡◌, ◌≤◌, vec_capacity};
    ghost use Rattle.zp_model.specs.Zone.{workers_of};
    ghost use Rattle.zp_gate.specs.GatedZones.{GatedState};

    ghost Value = { GatedState };

    ghost view = { λ g. record { zone = g.zone.value; left = g.left.items; board = g.board } };

    ghost invariant = { λ g. (g.workers ≡ workers_of g.zone.value.plain) × (g.workers ≤ vec_capacity g.left) };
}

impl GatedZone {
    /// A zone of so many workers, of whom none has left. Refused 6.
    pub(crate) fn new(
        alloc: Global,
        zone: Zone,
        workers: u32,
        board: Option<Publisher>,
    ) -> Result<GatedZone, Refused>
        requires { workers ≡ workers_of zone.plain }
        ensures new { IfOk result (λ g. g ≡ record { zone = zone; left = []; board = board }) }
        ensures why { IfErr result (λ e. e ≡ Memory) }
    {
        let Ok(left) = Vec::with_capacity(alloc, workers as usize) else {
            return Err(Refused::Memory);
        };
        let Ok(zone) = Box::new(alloc, zone) else {
            return Err(Refused::Memory);
        };
        Ok(GatedZone {
            zone,
            workers,
            left,
            board,
        })
    }

    /// A block for a share of the zone.
    #[tactic(auto, using(crate::proofs::Keeping::workers_stay, crate::proofs::Keeping::section_without))]
    #[inline(always)]
    pub(crate) fn alloc(
        &mut self,
        board: &Option<Board>,
        share: &mut Share,
        order: Order,
        kind: MigrateType,
        mark: Mark,
    ) -> Result<PageNo, Refused>
        requires board { IsTiedTo board.now self.old.board }
        requires share { IsOneShare (key_of self.old.zone) share.old }
        ensures { IsSectionOf (request.Alloc order kind mark) (page_reply result) self.old self.new share.old share.new }
    {
        if let None = &self.board {
            return share.alloc_block(&mut self.zone, 0, order, kind, mark);
        }
        self.alloc_published(board, share, order, kind, mark)
    }

    /// The same with a board, out of line: a zone without one pays for one test alone.
    #[inline(never)]
    fn alloc_published(
        &mut self,
        board: &Option<Board>,
        share: &mut Share,
        order: Order,
        kind: MigrateType,
        mark: Mark,
    ) -> Result<PageNo, Refused>
        requires board { IsTiedTo board.now self.old.board }
        requires share { IsOneShare (key_of self.old.zone) share.old }
        ensures { IsSectionOf (request.Alloc order kind mark) (page_reply result) self.old self.new share.old share.new }
    {
        let answer = share.alloc_block(&mut self.zone, 0, order, kind, mark);
        publish(&mut self.board, board, &self.zone, was_asked(&answer));
        answer
    }

    /// A block for a share of the zone, and where it came from.
    pub(crate) fn alloc_told(
        &mut self,
        board: &Option<Board>,
        share: &mut Share,
        order: Order,
        kind: MigrateType,
        mark: Mark,
    ) -> Result<Told, Refused>
        requires board { IsTiedTo board.now self.old.board }
        requires share { IsOneShare (key_of self.old.zone) share.old }
        ensures section { IsSectionOf (request.Alloc order kind mark) (told_reply result) self.old self.new share.old share.new }
        ensures told { IfOk result (λ t. origin self.old.zone.plain.area order kind ≡ Some t.origin) }
    {
        let origin = self.zone.origin(order, kind);
        let page = self.alloc(board, share, order, kind, mark)?;
        let Some(origin) = origin else { unreachable!() };
        Ok(Told { page, origin })
    }

    /// A block back from a share of the zone.
    #[tactic(auto, using(crate::proofs::Keeping::workers_stay, crate::proofs::Keeping::section_without))]
    #[inline(always)]
    pub(crate) fn free(
        &mut self,
        board: &Option<Board>,
        share: &mut Share,
        page: PageNo,
        order: Order,
    ) -> Result<(), Refused>
        requires board { IsTiedTo board.now self.old.board }
        requires share { IsOneShare (key_of self.old.zone) share.old }
        ensures { IsSectionOf (request.Free page order) (done_reply reply.Freed result) self.old self.new share.old share.new }
    {
        if let None = &self.board {
            return share.free_block(&mut self.zone, 0, page, order);
        }
        self.free_published(board, share, page, order)
    }

    /// The same with a board, out of line: a zone without one pays for one test alone.
    #[tactic(auto, using(crate::proofs::Keeping::workers_stay))]
    #[inline(never)]
    fn free_published(
        &mut self,
        board: &Option<Board>,
        share: &mut Share,
        page: PageNo,
        order: Order,
    ) -> Result<(), Refused>
        requires board { IsTiedTo board.now self.old.board }
        requires share { IsOneShare (key_of self.old.zone) share.old }
        ensures { IsSectionOf (request.Free page order) (done_reply reply.Freed result) self.old self.new share.old share.new }
    {
        let answer = share.free_block(&mut self.zone, 0, page, order);
        publish(&mut self.board, board, &self.zone, was_asked(&answer));
        answer
    }

    /// A block of the one kind for each place of an array, one after another up to the first that is refused.
    pub(crate) fn alloc_many(
        &mut self,
        board: &Option<Board>,
        share: &mut Share,
        order: Order,
        kind: MigrateType,
        mark: Mark,
        pages: &mut [u32],
    ) -> Granted
        requires board { IsTiedTo board.now self.old.board }
        requires share { IsOneShare (key_of self.old.zone) share.old }
        ensures made { AreSectionsTill (each_is (request.Alloc order kind mark)) (page_of pages.new) (length pages.old) result self.old self.new share.old share.new }
        ensures written { IsWrittenTo result.count pages.old pages.new }
    {
        for count in 0..pages.len() {
            match self.alloc(board, share, order, kind, mark) {
                Ok(page) => pages[count] = page.number(),
                Err(refused) => {
                    return Granted {
                        count,
                        refused: Some(refused),
                    };
                }
            }
        }
        Granted {
            count: pages.len(),
            refused: None,
        }
    }

    /// The blocks of two arrays back, one after another up to the first that is refused.
    pub(crate) fn free_many(
        &mut self,
        board: &Option<Board>,
        share: &mut Share,
        pages: &[u32],
        orders: &[u32],
    ) -> Granted
        requires board { IsTiedTo board.now self.old.board }
        requires share { IsOneShare (key_of self.old.zone) share.old }
        requires each { length orders.now ≡ length pages.now }
        requires orders { All (λ k. k ≤ LARGEST_ORDER) orders.now }
        ensures { AreSectionsTill (free_of pages.now orders.now) freed_of (length pages.now) result self.old self.new share.old share.new }
    {
        for count in 0..pages.len() {
            let order = Order::at(orders[count] as u8);
            match self.free(board, share, PageNo::new(pages[count]), order) {
                Ok(()) => {}
                Err(refused) => {
                    return Granted {
                        count,
                        refused: Some(refused),
                    };
                }
            }
        }
        Granted {
            count: pages.len(),
            refused: None,
        }
    }

    /// The lowest run of so many free pages for a share of the zone.
    #[tactic(auto, using(crate::proofs::Keeping::workers_stay, crate::proofs::Keeping::section_without))]
    #[inline(always)]
    pub(crate) fn alloc_run(
        &mut self,
        board: &Option<Board>,
        share: &mut Share,
        pages: u32,
        align: u8,
        mark: Mark,
    ) -> Result<PageNo, Refused>
        requires board { IsTiedTo board.now self.old.board }
        requires share { IsOneShare (key_of self.old.zone) share.old }
        requires run { IsTrue (may_alloc_run pages align) }
        ensures { IsSectionOf (request.AllocRun pages align mark) (page_reply result) self.old self.new share.old share.new }
    {
        if let None = &self.board {
            return share.alloc_run(&mut self.zone, 0, pages, align, mark);
        }
        self.alloc_run_published(board, share, pages, align, mark)
    }

    /// The same with a board, out of line: a zone without one pays for one test alone.
    #[inline(never)]
    fn alloc_run_published(
        &mut self,
        board: &Option<Board>,
        share: &mut Share,
        pages: u32,
        align: u8,
        mark: Mark,
    ) -> Result<PageNo, Refused>
        requires board { IsTiedTo board.now self.old.board }
        requires share { IsOneShare (key_of self.old.zone) share.old }
        requires run { IsTrue (may_alloc_run pages align) }
        ensures { IsSectionOf (request.AllocRun pages align mark) (page_reply result) self.old self.new share.old share.new }
    {
        let answer = share.alloc_run(&mut self.zone, 0, pages, align, mark);
        publish(&mut self.board, board, &self.zone, was_asked(&answer));
        answer
    }

    /// The pages of a run back from a share of the zone, which are one lent block of this order.
    #[tactic(auto, using(crate::proofs::Keeping::workers_stay, crate::proofs::Keeping::section_without))]
    #[inline(always)]
    pub(crate) fn free_run_as_block(
        &mut self,
        board: &Option<Board>,
        share: &mut Share,
        page: PageNo,
        pages: u32,
        order: Order,
    ) -> Result<(), Refused>
        requires board { IsTiedTo board.now self.old.board }
        requires share { IsOneShare (key_of self.old.zone) share.old }
        requires block { IsOneBlock (share_at share.old 0).seat.part.base (share_at share.old 0).uses page pages order }
        ensures { IsSectionOf (request.FreeRun page pages) (done_reply reply.Freed result) self.old self.new share.old share.new }
    {
        if let None = &self.board {
            return share.free_run_as_block(&mut self.zone, 0, page, pages, order);
        }
        self.free_run_as_block_published(board, share, page, pages, order)
    }

    /// The same with a board, out of line: a zone without one pays for one test alone.
    #[inline(never)]
    fn free_run_as_block_published(
        &mut self,
        board: &Option<Board>,
        share: &mut Share,
        page: PageNo,
        pages: u32,
        order: Order,
    ) -> Result<(), Refused>
        requires board { IsTiedTo board.now self.old.board }
        requires share { IsOneShare (key_of self.old.zone) share.old }
        requires block { IsOneBlock (share_at share.old 0).seat.part.base (share_at share.old 0).uses page pages order }
        ensures { IsSectionOf (request.FreeRun page pages) (done_reply reply.Freed result) self.old self.new share.old share.new }
    {
        let answer = share.free_run_as_block(&mut self.zone, 0, page, pages, order);
        publish(&mut self.board, board, &self.zone, was_asked(&answer));
        answer
    }

    /// The pages of a run back from a share of the zone, each of them lent, from block to block.
    pub(crate) fn free_lent_run(
        &mut self,
        board: &Option<Board>,
        share: &mut Share,
        page: PageNo,
        pages: u32,
    ) -> Result<(), Refused>
        requires board { IsTiedTo board.now self.old.board }
        requires share { IsOneShare (key_of self.old.zone) share.old }
        requires lent { is_lent_run (share_at share.old 0).seat.part.base (share_at share.old 0).uses page pages ≡ true }
        ensures { IsSectionOf (request.FreeRun page pages) (done_reply reply.Freed result) self.old self.new share.old share.new }
    {
        let answer = share.free_lent_run(&mut self.zone, 0, page, pages);
        publish(&mut self.board, board, &self.zone, was_asked(&answer));
        answer
    }

    /// Another request of a share to the zone. The block that it names, if it names one, is lent.
    #[tactic(auto, using(crate::proofs::Keeping::workers_stay, crate::proofs::Keeping::section_without))]
    #[inline(always)]
    pub(crate) fn section(
        &mut self,
        board: &Option<Board>,
        share: &mut Share,
        call: ZoneCall,
    ) -> Result<Given, Refused>
        requires board { IsTiedTo board.now self.old.board }
        requires share { IsOneShare (key_of self.old.zone) share.old }
        requires may { MayAsk (workers_of self.old.zone.plain) share.old.batch (request_of call) (share_at share.old 0) }
        requires lent { lends_for (request_of call) (plain_share (share_at share.old 0)) ≡ true }
        ensures { IsSectionOf (request_of call) (answer_of call result) self.old self.new share.old share.new }
    {
        if let None = &self.board {
            return asked(&mut self.zone, share, call);
        }
        self.section_published(board, share, call)
    }

    /// The same with a board, out of line: a zone without one pays for one test alone.
    #[tactic(auto, using(crate::proofs::Keeping::workers_stay))]
    #[inline(never)]
    fn section_published(
        &mut self,
        board: &Option<Board>,
        share: &mut Share,
        call: ZoneCall,
    ) -> Result<Given, Refused>
        requires board { IsTiedTo board.now self.old.board }
        requires share { IsOneShare (key_of self.old.zone) share.old }
        requires may { MayAsk (workers_of self.old.zone.plain) share.old.batch (request_of call) (share_at share.old 0) }
        requires lent { lends_for (request_of call) (plain_share (share_at share.old 0)) ≡ true }
        ensures { IsSectionOf (request_of call) (answer_of call result) self.old self.new share.old share.new }
    {
        let answer = asked(&mut self.zone, share, call);
        publish(&mut self.board, board, &self.zone, was_asked(&answer));
        answer
    }

    /// Frees so many pages from the back of the share's list of this type.
    #[tactic(auto, using(crate::proofs::Keeping::workers_stay, crate::proofs::Keeping::section_without))]
    #[inline(always)]
    pub(crate) fn drain(
        &mut self,
        board: &Option<Board>,
        share: &mut Share,
        kind: MigrateType,
        count: usize,
    ) -> Result<(), Refused>
        requires board { IsTiedTo board.now self.old.board }
        requires share { IsOneShare (key_of self.old.zone) share.old }
        requires some { 1 ≤ count }
        requires within { count ≤ length (cached_of (share_at share.old 0) kind) }
        ensures { IsSectionOf (drain_request count kind share.old) (done_reply reply.Drained result) self.old self.new share.old share.new }
    {
        if let None = &self.board {
            return share.drain(&mut self.zone, 0, kind, count);
        }
        self.drain_published(board, share, kind, count)
    }

    /// The same with a board, out of line: a zone without one pays for one test alone.
    #[inline(never)]
    fn drain_published(
        &mut self,
        board: &Option<Board>,
        share: &mut Share,
        kind: MigrateType,
        count: usize,
    ) -> Result<(), Refused>
        requires board { IsTiedTo board.now self.old.board }
        requires share { IsOneShare (key_of self.old.zone) share.old }
        requires some { 1 ≤ count }
        requires within { count ≤ length (cached_of (share_at share.old 0) kind) }
        ensures { IsSectionOf (drain_request count kind share.old) (done_reply reply.Drained result) self.old self.new share.old share.new }
    {
        let answer = share.drain(&mut self.zone, 0, kind, count);
        publish(&mut self.board, board, &self.zone, was_asked(&answer));
        answer
    }

    /// Fills the share's empty list of this type, by the section of a refill whose pages are not returned.
    #[tactic(auto, using(crate::proofs::Keeping::refill_workers, crate::proofs::Keeping::refill_without))]
    #[inline(always)]
    pub(crate) fn fill(
        &mut self,
        board: &Option<Board>,
        share: &mut Share,
        kind: MigrateType,
        mark: Mark,
    ) -> Result<(), Refused>
        requires board { IsTiedTo board.now self.old.board }
        requires share { IsOneShare (key_of self.old.zone) share.old }
        requires empty { cached_of (share_at share.old 0) kind ≡ [] }
        requires lists { 1 ≤ share.old.batch }
        ensures { IsRefilled (λ q. IsSectionOf (request.Refill kind mark share.old.batch) q self.old self.new share.old share.new) result }
    {
        if let None = &self.board {
            return share.fill(&mut self.zone, 0, kind, mark);
        }
        self.fill_published(board, share, kind, mark)
    }

    /// The same with a board, out of line: a zone without one pays for one test alone.
    #[inline(never)]
    fn fill_published(
        &mut self,
        board: &Option<Board>,
        share: &mut Share,
        kind: MigrateType,
        mark: Mark,
    ) -> Result<(), Refused>
        requires board { IsTiedTo board.now self.old.board }
        requires share { IsOneShare (key_of self.old.zone) share.old }
        requires empty { cached_of (share_at share.old 0) kind ≡ [] }
        requires lists { 1 ≤ share.old.batch }
        ensures { IsRefilled (λ q. IsSectionOf (request.Refill kind mark share.old.batch) q self.old self.new share.old share.new) result }
    {
        let answer = share.fill(&mut self.zone, 0, kind, mark);
        publish(&mut self.board, board, &self.zone, was_asked(&answer));
        answer
    }

    /// What the zone reports to a share of it.
    #[inline(always)]
    pub(crate) fn tell(&mut self, share: &mut Share, question: Question) -> Answer
        requires share { IsOneShare (key_of self.old.zone) share.old }
        ensures same { self.new ≡ self.old }
        ensures share { share.new ≡ share.old }
        ensures zone { IsZoneOf (key_of self.old.zone) share.old self.old.zone }
        ensures told { Tells question result self.old.zone }
    {
        share.check(&mut self.zone, 0);
        self.zone.history();
        told(&self.zone, question)
    }

    /// A worker leaves its share. It comes back where as many were left as the zone has workers.
    pub(crate) fn keep(&mut self, share: Share) -> Option<Share>
        ensures kept { IfNone result (IsLeavingOf share self.old self.new) }
        ensures full { IfSome result (λ s. (s ≡ share) × (workers_of self.old.zone.plain ≤ length self.old.left) × (self.new ≡ self.old)) }
    {
        if self.left.len() >= self.left.capacity() {
            return Some(share);
        }
        self.left.push_reserved(share);
        None
    }

    /// A reader that has seen all that is published of the zone.
    pub(crate) fn reader(&mut self, board: &Board) -> BoardReader
        requires { IsTiedTo (Some board.now) self.old.board }
        ensures same { self.new ≡ self.old }
        ensures reader { HasRead self.old.board result }
        ensures history { IsHistory self.old.zone.plain self.old.zone.entries }
    {
        self.zone.history();
        let Some(publisher) = &mut self.board else {
            unreachable!()
        };
        publisher.reader(board)
    }

    /// The counts that are published last, with their place: the reader has then seen all.
    pub(crate) fn read_board(&mut self, board: &Board, reader: &mut BoardReader) -> Reading
        requires board { IsTiedTo (Some board.now) self.old.board }
        requires reader { reader.old.tie ≡ board.now.tie }
        ensures same { self.new ≡ self.old }
        ensures reader { HasRead self.old.board reader.new }
        ensures before { IsPrefix reader.old.seen reader.new.seen }
        ensures known { reader.old.known ≤ reader.new.known }
        ensures told { result ≡ last_reading reader.new.seen }
        ensures history { IsHistory self.old.zone.plain self.old.zone.entries }
    {
        self.zone.history();
        let Some(publisher) = &mut self.board else {
            unreachable!()
        };
        publisher.read_board(board, reader)
    }

    /// Where the pages of the zone are; nothing, exactly where a worker has not left its share.
    pub(crate) fn gather(&mut self) -> Option<Totals>
        requires left { All (IsOneShare (key_of self.old.zone)) self.old.left }
        ensures same { self.new ≡ self.old }
        ensures some { IfSome result (IsGatheredIn self.old) }
        ensures none { IfNone result (¬ IsCrewOf self.old.left self.old.zone) }
    {
        if !is_crew(self.left.as_slice(), self.workers) {
            return None;
        }
        self.zone.history();
        Some(gather_zone(&mut self.zone, self.left.as_mut_slice(), 0))
    }
}

/// One request of a share to a zone. The block that it names, if it names one, is lent.
#[inline(always)]
fn asked(zone: &mut Zone, share: &mut Share, call: ZoneCall) -> Result<Given, Refused>
    requires one { length share.old.zones ≡ 1 }
    requires seat { IsSeatOf zone.old (share_at share.old 0).seat }
    requires may { MayAsk (workers_of zone.old.plain) share.old.batch (request_of call) (share_at share.old 0) }
    requires lent { lends_for (request_of call) (plain_share (share_at share.old 0)) ≡ true }
    ensures asked { IsAsked (request_of call) (answer_of call result) zone.old zone.new (share_at share.old 0) (share_at share.new 0) }
    ensures share { share.new ≡ with_zone_share 0 (share_at share.new 0) share.old }
{
    match call {
        ZoneCall::AllocLow(order) => match share.alloc_low(zone, 0, order) {
            Ok(block) => Ok(Given::Block(block)),
            Err(refused) => Err(refused),
        },
        ZoneCall::Collect => match share.collect(zone, 0) {
            Ok(block) => Ok(Given::Block(block)),
            Err(refused) => Err(refused),
        },
        ZoneCall::Post(page, order, to) => done(share.post(zone, 0, page, order, to)),
        ZoneCall::Isolate(pageblock) => done(share.isolate(zone, 0, pageblock)),
        ZoneCall::Release(pageblock, kind) => done(share.release(zone, 0, pageblock, kind)),
        ZoneCall::AllocRunAt(page, pages) => match share.alloc_run_at(zone, 0, page, pages) {
            Ok(_) => Ok(Given::Done),
            Err(refused) => Err(refused),
        },
    }
}

/// The result where there is nothing to return.
#[inline(always)]
fn done(answer: Result<(), Refused>) -> Result<Given, Refused>
    ensures ok { OnOk answer (result ≡ Ok Done) }
    ensures err { IfErr answer (λ e. result ≡ Err e) }
{
    match answer {
        Ok(()) => Ok(Given::Done),
        Err(refused) => Err(refused),
    }
}

/// What a zone reports.
#[inline(always)]
fn told(zone: &Zone, question: Question) -> Answer
    ensures { Tells question result zone.now }
{
    match question {
        Question::Zone => Answer::Zone(ZoneTold {
            counts: zone.counts(),
            level: zone.level(),
            posted: zone.posted_pages(),
        }),
        Question::Line => {
            let mut line = TextBuffer::new();
            push_counts(&mut line, zone.name(), zone.largest(), &zone.counts());
            Answer::Line(line)
        }
        Question::Page(page) => Answer::Page(zone.entry(page)),
        Question::Pageblock(pageblock) => Answer::Pageblock(zone.pageblock(pageblock)),
        Question::Types => Answer::Types(zone.counts_by_type()),
    }
}

/// Whether each of so many workers has exactly one of the shares.
fn is_crew(shares: &[Share], workers: u32) -> bool
    ensures yes { IsTrue result → (w : ℕ) → w < workers → count_by (λ (s : ShareState). s.worker == w) shares.now ≡ 1 }
    ensures no { result ≡ false → ¬ ((w : ℕ) → w < workers → count_by (λ (s : ShareState). s.worker == w) shares.now ≡ 1) }
{
    for number in 0..workers {
        if shares_of(shares, number) != 1 {
            return false;
        }
    }
    true
}

/// How many of the shares are those of the worker of this number.
fn shares_of(shares: &[Share], number: u32) -> usize
    ensures { result ≡ count_by (λ (s : ShareState). s.worker == number) shares.now }
{
    let mut count = 0;
    for share in shares {
        if u32::from(share.worker().number()) == number {
            count += 1;
        }
    }
    count
}
