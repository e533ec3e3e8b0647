//! One section of a share with a guarded zone: a request on the zone, the same change in the share, one entry to be kept, and then
//! the zone's counts published once, also where the zone refuses the request. Where there is no room for an entry the zone is not asked,
//! and nothing is published. Each of the twelve typed calls is the section of its request.
ghost use Rattle.std.specs.Prelude.{◌≡◌, ◌<◌, ◌≤◌, length, [], IsTrue};
ghost use Rattle.zp_model.specs.Runs.{may_alloc_run};
ghost use Rattle.zp_model.specs.declared.request.Request.TheVariants as request;
ghost use Rattle.zp_model.specs.declared.request.Reply.TheVariants as reply;
ghost use Rattle.zp_zone.specs.NamedZone.{page_reply, block_reply, isolate_reply, release_reply};
ghost use Rattle.zp_share.specs.PlainShares.{back};
ghost use Rattle.zp_share.specs.Sections.{MayAsk, done_reply, list_reply};
ghost use Rattle.zp_share.specs.ZoneShares.{cached_of};
ghost use Rattle.zp_share.specs.Shares.{IsShareOf, HasWorkerAt, share_at, workers_at};
ghost use Rattle.zp_shared.specs.Rows.{IsAskedUnderLock, board_at};

use super::{Guarded, note};
use crate::naming::Naming;
use zp_counts::Board;
use zp_journal::Keeps;
use zp_model::{
    Block, Mark, MigrateType, Order, PageList, PageNo, Refused, Reply, Request, Worker,
};
use zp_share::{Share, answered, is_section};

impl<J: Naming, K: Keeps> Guarded<J, K> {
    /// One request to the zone. Refused 20 where the block that it names is not lent, else 30 where there is no room for an entry, and
    /// as the zone refuses it.
    #[inline(always)]
    pub fn section(&mut self, board: &Board, share: &mut Share, request: &Request) -> Reply
        requires fits { IsShareOf J.zones share.old }
        requires place { self.old.place < length share.old.zones }
        requires board { board.now ≡ board_at J.boards self.old.place }
        requires may { MayAsk (workers_at J.zones self.old.place) share.old.batch request.now (share_at share.old self.old.place) }
        ensures { IsAskedUnderLock J.zones request.now result self.old self.new share.old share.new }
    {
        // a clause of this call says that the zone is the run of its entries
        self.zone.history();
        let board_is_full = self.publisher.is_full(board);
        if self.journal.is_full(board_is_full) {
            return share.refuse(self.place, request);
        }
        let reply = share.section(&mut self.zone, self.place, request);
        if !is_section(&reply) {
            // not at the last number of sections: the share's are entries of the journal, and fewer than can be counted
            share.check(&mut self.zone, self.place);
            return reply;
        }
        note(
            &mut self.journal,
            &mut self.publisher,
            board,
            &self.zone,
            share,
            self.place,
        );
        reply
    }

    /// Allocates a block of this order for this type, held to this mark, which is then lent: its first page. Refused 10, 11 or 30.
    pub fn alloc_block(
        &mut self,
        board: &Board,
        share: &mut Share,
        order: Order,
        kind: MigrateType,
        mark: Mark,
    ) -> Result<PageNo, Refused>
        requires fits { IsShareOf J.zones share.old }
        requires place { self.old.place < length share.old.zones }
        requires board { board.now ≡ board_at J.boards self.old.place }
        ensures { IsAskedUnderLock J.zones (request.Alloc order kind mark) (page_reply result) self.old self.new share.old share.new }
    {
        let request = Request::Alloc(order, kind, mark);
        answered!(self.section(board, share, &request), Reply::Page(page) => page)
    }

    /// Allocates the lowest block of this order, which is then lent. Refused 11 or 30.
    pub fn alloc_low(
        &mut self,
        board: &Board,
        share: &mut Share,
        order: Order,
    ) -> Result<Block, Refused>
        requires fits { IsShareOf J.zones share.old }
        requires place { self.old.place < length share.old.zones }
        requires board { board.now ≡ board_at J.boards self.old.place }
        ensures { IsAskedUnderLock J.zones (request.AllocLow order) (block_reply result) self.old self.new share.old share.new }
    {
        let request = Request::AllocLow(order);
        answered!(self.section(board, share, &request), Reply::Block(block) => block)
    }

    /// Frees a lent block. Refused 20 where it is not lent with this order, and 30.
    pub fn free_block(
        &mut self,
        board: &Board,
        share: &mut Share,
        page: PageNo,
        order: Order,
    ) -> Result<(), Refused>
        requires fits { IsShareOf J.zones share.old }
        requires place { self.old.place < length share.old.zones }
        requires board { board.now ≡ board_at J.boards self.old.place }
        ensures { IsAskedUnderLock J.zones (request.Free page order) (done_reply reply.Freed result) self.old self.new share.old share.new }
    {
        let request = Request::Free(page, order);
        answered!(self.section(board, share, &request), Reply::Freed => ())
    }

    /// Posts a lent block to a worker. Refused as `free_block` is.
    pub fn post(
        &mut self,
        board: &Board,
        share: &mut Share,
        page: PageNo,
        order: Order,
        to: Worker,
    ) -> Result<(), Refused>
        requires fits { IsShareOf J.zones share.old }
        requires place { self.old.place < length share.old.zones }
        requires board { board.now ≡ board_at J.boards self.old.place }
        requires to { HasWorkerAt J.zones self.old.place to }
        ensures { IsAskedUnderLock J.zones (request.Post page order to) (done_reply reply.Posted result) self.old self.new share.old share.new }
    {
        let request = Request::Post(page, order, to);
        answered!(self.section(board, share, &request), Reply::Posted => ())
    }

    /// The block in front of those posted to the worker, which is then lent. Refused 12 or 30.
    pub fn collect(&mut self, board: &Board, share: &mut Share) -> Result<Block, Refused>
        requires fits { IsShareOf J.zones share.old }
        requires place { self.old.place < length share.old.zones }
        requires board { board.now ≡ board_at J.boards self.old.place }
        ensures { IsAskedUnderLock J.zones request.Collect (block_reply result) self.old self.new share.old share.new }
    {
        let request = Request::Collect;
        answered!(self.section(board, share, &request), Reply::Block(block) => block)
    }

    /// Fills an empty list with up to a batch of pages of its type, the one taken first in front: the pages. Refused 10, 11 or 30.
    pub fn refill(
        &mut self,
        board: &Board,
        share: &mut Share,
        kind: MigrateType,
        mark: Mark,
    ) -> Result<PageList, Refused>
        requires fits { IsShareOf J.zones share.old }
        requires place { self.old.place < length share.old.zones }
        requires board { board.now ≡ board_at J.boards self.old.place }
        requires empty { cached_of (share_at share.old self.old.place) kind ≡ [] }
        requires some { 1 ≤ share.old.batch }
        ensures { IsAskedUnderLock J.zones (request.Refill kind mark share.old.batch) (list_reply result) self.old self.new share.old share.new }
    {
        let request = Request::Refill(kind, mark, share.lists().batch());
        answered!(self.section(board, share, &request), Reply::Pages(pages) => pages)
    }

    /// Frees `count` pages from the back of the list of this type, the last one first. Refused 30.
    pub fn drain(
        &mut self,
        board: &Board,
        share: &mut Share,
        kind: MigrateType,
        count: usize,
    ) -> Result<(), Refused>
        requires fits { IsShareOf J.zones share.old }
        requires place { self.old.place < length share.old.zones }
        requires board { board.now ≡ board_at J.boards self.old.place }
        requires some { 1 ≤ count }
        requires within { count ≤ length (cached_of (share_at share.old self.old.place) kind) }
        ensures { IsAskedUnderLock J.zones (request.Drain kind (back count (cached_of (share_at share.old self.old.place) kind))) (done_reply reply.Drained result) self.old self.new share.old share.new }
    {
        let request = Request::Drain(kind, share.back(self.place, kind, count));
        answered!(self.section(board, share, &request), Reply::Drained => ())
    }

    /// Isolates the pageblock of this number. The worker's lists and lent blocks stay, also those of the pageblock. Refused 13, 14
    /// or 30.
    pub fn isolate(
        &mut self,
        board: &Board,
        share: &mut Share,
        pageblock: u32,
    ) -> Result<(), Refused>
        requires fits { IsShareOf J.zones share.old }
        requires place { self.old.place < length share.old.zones }
        requires board { board.now ≡ board_at J.boards self.old.place }
        ensures { IsAskedUnderLock J.zones (request.Isolate pageblock) (isolate_reply result) self.old self.new share.old share.new }
    {
        let request = Request::Isolate(pageblock);
        answered!(self.section(board, share, &request), Reply::Isolated => ())
    }

    /// Gives an isolated pageblock a migrate type. Refused 13, 15 or 30.
    pub fn release(
        &mut self,
        board: &Board,
        share: &mut Share,
        pageblock: u32,
        kind: MigrateType,
    ) -> Result<(), Refused>
        requires fits { IsShareOf J.zones share.old }
        requires place { self.old.place < length share.old.zones }
        requires board { board.now ≡ board_at J.boards self.old.place }
        ensures { IsAskedUnderLock J.zones (request.Release pageblock kind) (release_reply result) self.old self.new share.old share.new }
    {
        let request = Request::Release(pageblock, kind);
        answered!(self.section(board, share, &request), Reply::Released => ())
    }

    /// Allocates the lowest run of so many pages outside isolated pageblocks that begins at an absolute page which is a multiple of two to the power
    /// `align`, held to this mark: its first page. All of it is then lent. Refused 10, 11 or 30.
    pub fn alloc_run(
        &mut self,
        board: &Board,
        share: &mut Share,
        pages: u32,
        align: u8,
        mark: Mark,
    ) -> Result<PageNo, Refused>
        requires fits { IsShareOf J.zones share.old }
        requires place { self.old.place < length share.old.zones }
        requires board { board.now ≡ board_at J.boards self.old.place }
        requires run { IsTrue (may_alloc_run pages align) }
        ensures { IsAskedUnderLock J.zones (request.AllocRun pages align mark) (page_reply result) self.old self.new share.old share.new }
    {
        let request = Request::AllocRun(pages, align, mark);
        answered!(self.section(board, share, &request), Reply::Page(page) => page)
    }

    /// Allocates the run of so many pages that begins at this page: its first page. All of it is then lent. Refused 16, 17 or 30.
    pub fn alloc_run_at(
        &mut self,
        board: &Board,
        share: &mut Share,
        page: PageNo,
        pages: u32,
    ) -> Result<PageNo, Refused>
        requires fits { IsShareOf J.zones share.old }
        requires place { self.old.place < length share.old.zones }
        requires board { board.now ≡ board_at J.boards self.old.place }
        ensures { IsAskedUnderLock J.zones (request.AllocRunAt page pages) (page_reply result) self.old self.new share.old share.new }
    {
        let request = Request::AllocRunAt(page, pages);
        answered!(self.section(board, share, &request), Reply::Page(first) => first)
    }

    /// Frees so many pages from this one on, by whatever blocks they are lent. Refused 20 where one of them is not lent, or there is none, and 30.
    pub fn free_run(
        &mut self,
        board: &Board,
        share: &mut Share,
        page: PageNo,
        pages: u32,
    ) -> Result<(), Refused>
        requires fits { IsShareOf J.zones share.old }
        requires place { self.old.place < length share.old.zones }
        requires board { board.now ≡ board_at J.boards self.old.place }
        ensures { IsAskedUnderLock J.zones (request.FreeRun page pages) (done_reply reply.Freed result) self.old self.new share.old share.new }
    {
        let request = Request::FreeRun(page, pages);
        answered!(self.section(board, share, &request), Reply::Freed => ())
    }
}
