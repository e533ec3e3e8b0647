//! The requests of a share to the lent zone at a place of the row: each is one section, a request on the zone and the same change in
//! the share.
ghost use Rattle.std.specs.Prelude.{◌≡◌, ◌<◌, ◌≤◌, length, [], IsTrue, true};
ghost use Rattle.zp_model.specs.Runs.{may_alloc_run};
ghost use Rattle.zp_model.specs.Zone.{workers_of};
ghost use Rattle.zp_model.specs.declared.request.Request.TheVariants as request;
ghost use Rattle.zp_model.specs.declared.request.Reply.TheVariants as reply;
ghost use Rattle.zp_zone.specs.NamedZone.{page_reply, block_reply, isolate_reply, release_reply};
ghost use Rattle.zp_zone.specs.Seats.{IsSeatOf};
ghost use Rattle.zp_share.specs.PageUses.{IsOneBlock, is_lent_run};
ghost use Rattle.zp_share.specs.PlainShares.{back};
ghost use Rattle.zp_share.specs.Sections.{IsAsked, IsRefilled, MayAsk, done_reply, list_reply};
ghost use Rattle.zp_share.specs.ZoneShares.{cached_of};
ghost use Rattle.zp_share.specs.Shares.{share_at, with_zone_share};

use super::Share;
use crate::answered;
use zp_model::{
    Block, Mark, MigrateType, Order, PageList, PageNo, Refused, Reply, Request, Worker,
};
use zp_zone::Zone;

impl Share {
    /// One request to the zone, and the same change in the share. Refused 20 where the block that it names is not lent, 30 at the
    /// last number of sections, and as the zone refuses it.
    #[inline(always)]
    pub fn section(&mut self, zone: &mut Zone, place: usize, request: &Request) -> Reply
        requires place { place < length self.old.zones }
        requires seat { IsSeatOf zone.old (share_at self.old place).seat }
        requires may { MayAsk (workers_of zone.old.plain) self.old.batch request.now (share_at self.old place) }
        ensures section { IsAsked request.now result zone.old zone.new (share_at self.old place) (share_at self.new place) }
        ensures others { self.new ≡ with_zone_share place (share_at self.new place) self.old }
    {
        self.zones[place].section(zone, request)
    }

    /// Allocates a block of this order for this type, held to this mark, which is then lent: its first page. Refused 10, 11 or 30.
    pub fn alloc_block(
        &mut self,
        zone: &mut Zone,
        place: usize,
        order: Order,
        kind: MigrateType,
        mark: Mark,
    ) -> Result<PageNo, Refused>
        requires place { place < length self.old.zones }
        requires seat { IsSeatOf zone.old (share_at self.old place).seat }
        ensures section { IsAsked (request.Alloc order kind mark) (page_reply result) zone.old zone.new (share_at self.old place) (share_at self.new place) }
        ensures others { self.new ≡ with_zone_share place (share_at self.new place) self.old }
    {
        self.zones[place].alloc_block(zone, order, kind, mark)
    }

    /// Allocates the lowest block of this order, which is then lent. Refused 11 or 30.
    pub fn alloc_low(
        &mut self,
        zone: &mut Zone,
        place: usize,
        order: Order,
    ) -> Result<Block, Refused>
        requires place { place < length self.old.zones }
        requires seat { IsSeatOf zone.old (share_at self.old place).seat }
        ensures section { IsAsked (request.AllocLow order) (block_reply result) zone.old zone.new (share_at self.old place) (share_at self.new place) }
        ensures others { self.new ≡ with_zone_share place (share_at self.new place) self.old }
    {
        let request = Request::AllocLow(order);
        answered!(self.section(zone, place, &request), Reply::Block(block) => block)
    }

    /// Frees a lent block. Refused 20 where it is not lent with this order, and 30.
    pub fn free_block(
        &mut self,
        zone: &mut Zone,
        place: usize,
        page: PageNo,
        order: Order,
    ) -> Result<(), Refused>
        requires place { place < length self.old.zones }
        requires seat { IsSeatOf zone.old (share_at self.old place).seat }
        ensures section { IsAsked (request.Free page order) (done_reply reply.Freed result) zone.old zone.new (share_at self.old place) (share_at self.new place) }
        ensures others { self.new ≡ with_zone_share place (share_at self.new place) self.old }
    {
        self.zones[place].free_block(zone, page, order)
    }

    /// Posts a lent block to a worker. Refused as `free_block` is.
    pub fn post(
        &mut self,
        zone: &mut Zone,
        place: usize,
        page: PageNo,
        order: Order,
        to: Worker,
    ) -> Result<(), Refused>
        requires place { place < length self.old.zones }
        requires seat { IsSeatOf zone.old (share_at self.old place).seat }
        requires to { to < workers_of zone.old.plain }
        ensures section { IsAsked (request.Post page order to) (done_reply reply.Posted result) zone.old zone.new (share_at self.old place) (share_at self.new place) }
        ensures others { self.new ≡ with_zone_share place (share_at self.new place) self.old }
    {
        let request = Request::Post(page, order, to);
        answered!(self.section(zone, place, &request), Reply::Posted => ())
    }

    /// The block in front of those posted to the worker, which is then lent. Refused 12 or 30.
    pub fn collect(&mut self, zone: &mut Zone, place: usize) -> Result<Block, Refused>
        requires place { place < length self.old.zones }
        requires seat { IsSeatOf zone.old (share_at self.old place).seat }
        ensures section { IsAsked request.Collect (block_reply result) zone.old zone.new (share_at self.old place) (share_at self.new place) }
        ensures others { self.new ≡ with_zone_share place (share_at self.new place) self.old }
    {
        answered!(self.section(zone, place, &Request::Collect), Reply::Block(block) => block)
    }

    /// Fills an empty list with up to a batch of pages of its type, the one taken first in front: the pages. Refused 10 or 11
    /// where none is got, and 30.
    pub fn refill(
        &mut self,
        zone: &mut Zone,
        place: usize,
        kind: MigrateType,
        mark: Mark,
    ) -> Result<PageList, Refused>
        requires place { place < length self.old.zones }
        requires seat { IsSeatOf zone.old (share_at self.old place).seat }
        requires empty { cached_of (share_at self.old place) kind ≡ [] }
        requires some { 1 ≤ self.old.batch }
        ensures section { IsAsked (request.Refill kind mark self.old.batch) (list_reply result) zone.old zone.new (share_at self.old place) (share_at self.new place) }
        ensures others { self.new ≡ with_zone_share place (share_at self.new place) self.old }
    {
        let request = Request::Refill(kind, mark, self.lists.batch());
        answered!(self.section(zone, place, &request), Reply::Pages(pages) => pages)
    }

    /// Fills an empty list as `refill` does, and returns no pages. Refused 10 or 11 where none is got, and 30.
    pub fn fill(
        &mut self,
        zone: &mut Zone,
        place: usize,
        kind: MigrateType,
        mark: Mark,
    ) -> Result<(), Refused>
        requires place { place < length self.old.zones }
        requires seat { IsSeatOf zone.old (share_at self.old place).seat }
        requires empty { cached_of (share_at self.old place) kind ≡ [] }
        requires some { 1 ≤ self.old.batch }
        ensures section { IsRefilled (λ q. IsAsked (request.Refill kind mark self.old.batch) q zone.old zone.new (share_at self.old place) (share_at self.new place)) result }
        ensures others { self.new ≡ with_zone_share place (share_at self.new place) self.old }
    {
        let batch = self.lists.batch();
        self.zones[place].fill(zone, kind, mark, batch)
    }

    /// Frees `count` pages from the back of the list of this type, the last one first. Refused 30.
    pub fn drain(
        &mut self,
        zone: &mut Zone,
        place: usize,
        kind: MigrateType,
        count: usize,
    ) -> Result<(), Refused>
        requires place { place < length self.old.zones }
        requires seat { IsSeatOf zone.old (share_at self.old place).seat }
        requires some { 1 ≤ count }
        requires within { count ≤ length (cached_of (share_at self.old place) kind) }
        ensures section { IsAsked (request.Drain kind (back count (cached_of (share_at self.old place) kind))) (done_reply reply.Drained result) zone.old zone.new (share_at self.old place) (share_at self.new place) }
        ensures others { self.new ≡ with_zone_share place (share_at self.new place) self.old }
    {
        self.zones[place].drain(zone, kind, count)
    }

    /// Isolates the pageblock of this number. The worker's lists and lent blocks stay, also those of the pageblock. Refused 13, 14
    /// or 30.
    pub fn isolate(&mut self, zone: &mut Zone, place: usize, pageblock: u32) -> Result<(), Refused>
        requires place { place < length self.old.zones }
        requires seat { IsSeatOf zone.old (share_at self.old place).seat }
        ensures section { IsAsked (request.Isolate pageblock) (isolate_reply result) zone.old zone.new (share_at self.old place) (share_at self.new place) }
        ensures others { self.new ≡ with_zone_share place (share_at self.new place) self.old }
    {
        let request = Request::Isolate(pageblock);
        answered!(self.section(zone, place, &request), Reply::Isolated => ())
    }

    /// Gives an isolated pageblock a migrate type. Refused 13, 15 or 30.
    pub fn release(
        &mut self,
        zone: &mut Zone,
        place: usize,
        pageblock: u32,
        kind: MigrateType,
    ) -> Result<(), Refused>
        requires place { place < length self.old.zones }
        requires seat { IsSeatOf zone.old (share_at self.old place).seat }
        ensures section { IsAsked (request.Release pageblock kind) (release_reply result) zone.old zone.new (share_at self.old place) (share_at self.new place) }
        ensures others { self.new ≡ with_zone_share place (share_at self.new place) self.old }
    {
        let request = Request::Release(pageblock, kind);
        answered!(self.section(zone, place, &request), Reply::Released => ())
    }

    /// Allocates the lowest run of so many pages outside isolated pageblocks that begins at a multiple of two to the power `align`, held to this mark:
    /// its first page. All of it is then lent. Refused 10, 11 or 30.
    pub fn alloc_run(
        &mut self,
        zone: &mut Zone,
        place: usize,
        pages: u32,
        align: u8,
        mark: Mark,
    ) -> Result<PageNo, Refused>
        requires place { place < length self.old.zones }
        requires seat { IsSeatOf zone.old (share_at self.old place).seat }
        requires run { IsTrue (may_alloc_run pages align) }
        ensures section { IsAsked (request.AllocRun pages align mark) (page_reply result) zone.old zone.new (share_at self.old place) (share_at self.new place) }
        ensures others { self.new ≡ with_zone_share place (share_at self.new place) self.old }
    {
        self.zones[place].alloc_run(zone, pages, align, mark)
    }

    /// Allocates the run of so many pages that begins at this page: its first page. All of it is then lent. Refused 16, 17 or 30.
    pub fn alloc_run_at(
        &mut self,
        zone: &mut Zone,
        place: usize,
        page: PageNo,
        pages: u32,
    ) -> Result<PageNo, Refused>
        requires place { place < length self.old.zones }
        requires seat { IsSeatOf zone.old (share_at self.old place).seat }
        ensures section { IsAsked (request.AllocRunAt page pages) (page_reply result) zone.old zone.new (share_at self.old place) (share_at self.new place) }
        ensures others { self.new ≡ with_zone_share place (share_at self.new place) self.old }
    {
        self.zones[place].alloc_run_at(zone, page, pages)
    }

    /// Frees so many pages from this one on, by whatever blocks they are lent. Refused 20 where one of them is not lent, or there is none, and 30.
    pub fn free_run(
        &mut self,
        zone: &mut Zone,
        place: usize,
        page: PageNo,
        pages: u32,
    ) -> Result<(), Refused>
        requires place { place < length self.old.zones }
        requires seat { IsSeatOf zone.old (share_at self.old place).seat }
        ensures section { IsAsked (request.FreeRun page pages) (done_reply reply.Freed result) zone.old zone.new (share_at self.old place) (share_at self.new place) }
        ensures others { self.new ≡ with_zone_share place (share_at self.new place) self.old }
    {
        self.zones[place].free_run(zone, page, pages)
    }

    /// The same of pages of which the caller knows that they are one lent block, of this order. Refused 30.
    #[inline(always)]
    pub fn free_run_as_block(
        &mut self,
        zone: &mut Zone,
        place: usize,
        page: PageNo,
        pages: u32,
        order: Order,
    ) -> Result<(), Refused>
        requires place { place < length self.old.zones }
        requires seat { IsSeatOf zone.old (share_at self.old place).seat }
        requires block { IsOneBlock (share_at self.old place).seat.part.base (share_at self.old place).uses page pages order }
        ensures section { IsAsked (request.FreeRun page pages) (done_reply reply.Freed result) zone.old zone.new (share_at self.old place) (share_at self.new place) }
        ensures others { self.new ≡ with_zone_share place (share_at self.new place) self.old }
    {
        self.zones[place].free_run_as_block(zone, page, pages, order)
    }

    /// The same of pages of which the caller knows that each is lent: they are freed from block to block. Refused 30.
    pub fn free_lent_run(
        &mut self,
        zone: &mut Zone,
        place: usize,
        page: PageNo,
        pages: u32,
    ) -> Result<(), Refused>
        requires place { place < length self.old.zones }
        requires seat { IsSeatOf zone.old (share_at self.old place).seat }
        requires lent { is_lent_run (share_at self.old place).seat.part.base (share_at self.old place).uses page pages ≡ true }
        ensures section { IsAsked (request.FreeRun page pages) (done_reply reply.Freed result) zone.old zone.new (share_at self.old place) (share_at self.new place) }
        ensures others { self.new ≡ with_zone_share place (share_at self.new place) self.old }
    {
        self.zones[place].free_lent_run(zone, page, pages)
    }
}
