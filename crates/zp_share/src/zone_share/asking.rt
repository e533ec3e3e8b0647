//! One section of a share with the lent zone: a request on the zone, whatever is asked, and the same change in the share.
ghost use Rattle.std.specs.Prelude.{ℕ, ◌≡◌, ◌≤◌, ◌+◌, ◌++◌, length, slice_set};
ghost use Rattle.zp_model.specs.MigrateType.{type_number};
ghost use Rattle.zp_model.specs.Rows.{list_at};
ghost use Rattle.zp_model.specs.declared.constants.TheConstants.{LONGEST_LIST, MAX_BATCH};
ghost use Rattle.zp_model.specs.Zone.{workers_of};
ghost use Rattle.zp_model.specs.declared.request.Request.TheVariants as request;
ghost use Rattle.zp_model.specs.declared.request.Reply.TheVariants as reply;
ghost use Rattle.zp_zone.specs.NamedZone.{page_reply};
ghost use Rattle.zp_zone.specs.Seats.{IsSeatOf};
ghost use Rattle.zp_share.specs.PlainShares.{back, lends_for, lists_after, without_back};
ghost use Rattle.zp_share.specs.Sections.{HaveRoom, IsAsked, IsForNoRun, IsRefilled, MayAsk, done_reply};
ghost use Rattle.zp_share.specs.ZoneShares.{HasAtMost, IsShare, RefillsAtMost, cached_of, plain_share};

use super::ZoneShare;
use crate::page_stack::PageStack;
use crate::page_use::PageUse;
use zp_model::{Mark, MigrateType, Order, PageNo, Refused, Reply, Request, TYPES};
use zp_zone::{Zone, page_reply};

impl ZoneShare {
    /// Whether the block that a request names, if it names one, is lent, and each page of a run that it frees.
    #[inline(always)]
    pub fn lends_for(&self, request: &Request) -> bool
        ensures lent { result ≡ lends_for request.now (plain_share self.now) }
        ensures share { IsShare self.now }
    {
        // the invariant is at hand where a field is
        let _ = &self.seat;
        match request {
            Request::Free(page, order) => self.is_lent(*page, *order),
            Request::Post(page, order, _) => self.is_lent(*page, *order),
            Request::FreeRun(page, pages) => self.is_lent_run(*page, *pages),
            _ => true,
        }
    }

    /// One request to the zone, and the same change in the share. Refused 20 where the block that it names is not lent, and 30
    /// at the last number of sections.
    #[inline(always)]
    pub fn section(&mut self, zone: &mut Zone, request: &Request) -> Reply
        requires seat { IsSeatOf zone.old self.old.seat }
        requires may { MayAsk (workers_of zone.old.plain) MAX_BATCH request.now self.old }
        ensures section { IsAsked request.now result zone.old zone.new self.old self.new }
        ensures lists { (n : ℕ) → RefillsAtMost n request.now → HasAtMost n self.old → HasAtMost n self.new }
    {
        // the requests that are made most have ways of their own, on which no room is cleared for a list of pages
        if let Request::Alloc(order, kind, mark) = request {
            return page_reply(self.alloc_block(zone, *order, *kind, *mark));
        }
        if let Request::Free(page, order) = request {
            return freed_reply(self.free_block(zone, *page, *order));
        }
        if let Request::Refill(kind, mark, count) = request {
            return self.refill(zone, *kind, *mark, *count);
        }
        if let Request::AllocRun(pages, align, mark) = request {
            return page_reply(self.alloc_run(zone, *pages, *align, *mark));
        }
        if let Request::AllocRunAt(page, pages) = request {
            return page_reply(self.alloc_run_at(zone, *page, *pages));
        }
        if let Request::FreeRun(page, pages) = request {
            return freed_reply(self.free_run(zone, *page, *pages));
        }
        self.ask(zone, request)
    }

    /// One request to the zone that is for no run, whichever it is.
    #[inline(always)]
    fn ask(&mut self, zone: &mut Zone, request: &Request) -> Reply
        requires seat { IsSeatOf zone.old self.old.seat }
        requires may { MayAsk (workers_of zone.old.plain) MAX_BATCH request.now self.old }
        requires plain { IsForNoRun request.now }
        ensures section { IsAsked request.now result zone.old zone.new self.old self.new }
        ensures lists { (n : ℕ) → RefillsAtMost n request.now → HasAtMost n self.old → HasAtMost n self.new }
    {
        if !self.lends_for(request) {
            return Reply::Refused(Refused::NotLent);
        }
        if self.sections.are_full() {
            return Reply::Refused(Refused::JournalFull);
        }
        let worker = self.seat.worker();
        let reply = zone.ask(&mut self.seat, request);
        self.uses.note(request, &reply);
        note_lists(&mut self.cached, request, &reply);
        self.sections.add(worker, request, &reply);
        reply
    }

    /// Allocates a block of this order for this type, held to this mark, which is then lent: its first page. Refused 10, 11 or 30.
    #[inline(always)]
    pub fn alloc_block(
        &mut self,
        zone: &mut Zone,
        order: Order,
        kind: MigrateType,
        mark: Mark,
    ) -> Result<PageNo, Refused>
        requires seat { IsSeatOf zone.old self.old.seat }
        ensures section { IsAsked (request.Alloc order kind mark) (page_reply result) zone.old zone.new self.old self.new }
        ensures lists { (n : ℕ) → HasAtMost n self.old → HasAtMost n self.new }
    {
        if self.sections.are_full() {
            return Err(Refused::JournalFull);
        }
        let worker = self.seat.worker();
        let got = zone.alloc(&mut self.seat, order, kind, mark);
        self.uses.note_alloc(order, kind, mark, &got);
        let reply = page_reply(got);
        self.sections
            .add(worker, &Request::Alloc(order, kind, mark), &reply);
        got
    }

    /// Frees a lent block. Refused 20 where it is not lent with this order, and 30.
    #[inline(always)]
    pub fn free_block(&mut self, zone: &mut Zone, page: PageNo, order: Order) -> Result<(), Refused>
        requires seat { IsSeatOf zone.old self.old.seat }
        ensures section { IsAsked (request.Free page order) (done_reply reply.Freed result) zone.old zone.new self.old self.new }
        ensures lists { (n : ℕ) → HasAtMost n self.old → HasAtMost n self.new }
    {
        if !self.is_lent(page, order) {
            return Err(Refused::NotLent);
        }
        if self.sections.are_full() {
            return Err(Refused::JournalFull);
        }
        let worker = self.seat.worker();
        zone.free(&mut self.seat, page, order);
        let request = Request::Free(page, order);
        self.uses.note(&request, &Reply::Freed);
        self.sections.add(worker, &request, &Reply::Freed);
        Ok(())
    }

    /// Up to so many pages for this type, each held to this mark, which come to the front of its list: the pages. Refused as `fill` is.
    #[inline(always)]
    fn refill(&mut self, zone: &mut Zone, kind: MigrateType, mark: Mark, count: u8) -> Reply
        requires seat { IsSeatOf zone.old self.old.seat }
        requires may { MayAsk (workers_of zone.old.plain) MAX_BATCH (request.Refill kind mark count) self.old }
        ensures section { IsAsked (request.Refill kind mark count) result zone.old zone.new self.old self.new }
        ensures lists { (n : ℕ) → RefillsAtMost n (request.Refill kind mark count) → HasAtMost n self.old → HasAtMost n self.new }
    {
        if let Err(refused) = self.fill(zone, kind, mark, count) {
            return Reply::Refused(refused);
        }
        let Some(entry) = self.sections.last() else {
            unreachable!()
        };
        entry.reply()
    }

    /// Up to so many pages for this type, each held to this mark, which come to the front of its list. Refused 10, 11 or 30.
    // (where little memory is left, most refills are refused, on each way down a row: that way has no list of pages in hand)
    #[inline(always)]
    pub fn fill(
        &mut self,
        zone: &mut Zone,
        kind: MigrateType,
        mark: Mark,
        count: u8,
    ) -> Result<(), Refused>
        requires seat { IsSeatOf zone.old self.old.seat }
        requires may { MayAsk (workers_of zone.old.plain) MAX_BATCH (request.Refill kind mark count) self.old }
        ensures section { IsRefilled (λ q. IsAsked (request.Refill kind mark count) q zone.old zone.new self.old self.new) result }
        ensures lists { (n : ℕ) → RefillsAtMost n (request.Refill kind mark count) → HasAtMost n self.old → HasAtMost n self.new }
    {
        if self.sections.are_full() {
            return Err(Refused::JournalFull);
        }
        let worker = self.seat.worker();
        match zone.refill(&mut self.seat, kind, mark, count) {
            Ok(pages) => {
                let got = pages.as_slice();
                self.uses.set_all(got, PageUse::Cached(kind));
                put_pages(&mut self.cached, kind, got);
                self.sections.add_refill(worker, kind, mark, count, got);
                Ok(())
            }
            Err(refused) => {
                let request = Request::Refill(kind, mark, count);
                self.sections
                    .add(worker, &request, &Reply::Refused(refused));
                Err(refused)
            }
        }
    }

    /// Frees so many pages from the back of the list of this type, the last one first. Refused 30.
    // (the pages are read where the list has them till all is noted: none are passed down)
    #[inline(always)]
    pub fn drain(&mut self, zone: &mut Zone, kind: MigrateType, count: usize) -> Result<(), Refused>
        requires seat { IsSeatOf zone.old self.old.seat }
        requires within { count ≤ length (cached_of self.old kind) }
        ensures section { IsAsked (request.Drain kind (back count (cached_of self.old kind))) (done_reply reply.Drained result) zone.old zone.new self.old self.new }
        ensures lists { (n : ℕ) → HasAtMost n self.old → HasAtMost n self.new }
    {
        let ZoneShare {
            seat,
            uses,
            cached,
            sections,
        } = self;
        if sections.are_full() {
            return Err(Refused::JournalFull);
        }
        let worker = seat.worker();
        let lists = &*cached;
        let pages = lists[kind.number()].back(count);
        zone.drain(seat, kind, pages);
        uses.set_all(pages, PageUse::Away);
        sections.add_drain(worker, kind, pages);
        drop_pages(cached, kind, count);
        Ok(())
    }
}

/// The result of a request for a block to be freed, as a reply.
#[inline(always)]
fn freed_reply(got: Result<(), Refused>) -> Reply
    ensures { result ≡ done_reply reply.Freed got }
{
    match got {
        Ok(()) => Reply::Freed,
        Err(refused) => Reply::Refused(refused),
    }
}

/// These pages come to the front of the list of this type.
#[inline(always)]
fn put_pages(lists: &mut [PageStack; TYPES], kind: MigrateType, pages: &[PageNo])
    requires { length pages.now + length (list_at lists.old (type_number kind)) ≤ LONGEST_LIST }
    ensures { lists.new ≡ slice_set lists.old (type_number kind) (pages.now ++ list_at lists.old (type_number kind)) }
{
    lists[kind.number()].push_all_front(pages);
}

/// So many pages leave the back of the list of this type.
#[inline(always)]
fn drop_pages(lists: &mut [PageStack; TYPES], kind: MigrateType, count: usize)
    requires { count ≤ length (list_at lists.old (type_number kind)) }
    ensures { lists.new ≡ slice_set lists.old (type_number kind) (without_back count (list_at lists.old (type_number kind))) }
{
    lists[kind.number()].drop_back(count);
}

/// A refill's pages are put on in front, and those of a drain leave the back.
#[inline(always)]
fn note_lists(lists: &mut [PageStack; TYPES], request: &Request, reply: &Reply)
    requires { HaveRoom request.now reply.now lists.old }
    ensures { lists.new ≡ lists_after request.now reply.now lists.old }
{
    match request {
        Request::Refill(kind, _, _) => {
            if let Reply::Pages(pages) = reply {
                put_pages(lists, *kind, pages.as_slice());
            }
        }
        Request::Drain(kind, pages) => {
            if let Reply::Drained = reply {
                drop_pages(lists, *kind, pages.as_slice().len());
            }
        }
        _ => {}
    }
}
