//! Entries of a journal: what a worker asked of a zone, and the reply.
ghost use Rattle.std.specs.Prelude.{◌≡◌, ◌≤◌, ◌↔◌, length, IsSome, IfSome, IsTrue, false};
ghost use Rattle.zp_model.specs.declared.constants.TheConstants.{LONGEST_LIST};
ghost use Rattle.zp_model.specs.declared.request.Request.TheVariants as request;
ghost use Rattle.zp_model.specs.declared.request.Reply.TheVariants as reply;
ghost use Rattle.zp_model.specs.Entries.{HasOneList, answered_of, asked_of, entry_of_parts, has_pages, pages_of};

use crate::{Block, Mark, MigrateType, Order, PageList, PageNo, Refused, Reply, Request, Worker};
use std::marker::Model;

/// A request, without the pages of a drain.
#[derive(Clone, Copy, Debug, Drop)]
pub enum Asked {
    Alloc(Order, MigrateType, Mark),
    AllocLow(Order),
    Free(PageNo, Order),
    Post(PageNo, Order, Worker),
    Collect,
    Refill(MigrateType, Mark, u8),
    Drain(MigrateType),
    Isolate(u32),
    Release(u32, MigrateType),
    AllocRun(u32, u8, Mark),
    AllocRunAt(PageNo, u32),
    FreeRun(PageNo, u32),
}

/// A reply, without the pages of a refill.
#[derive(Clone, Copy, PartialEq, Eq, Debug, Drop)]
pub enum Answered {
    Page(PageNo),
    Block(Block),
    Freed,
    Posted,
    Pages,
    Drained,
    Isolated,
    Released,
    Refused(Refused),
}

/// One request that a worker made of a zone, with its reply. It is a few bytes, and room for one list of pages, which is written
/// only where the entry has one: an entry is written over where it lies.
#[derive(Debug, Drop)]
pub struct Entry {
    worker: Worker,
    asked: Asked,
    answered: Answered,
    pages: PageList,
}

impl Model for Entry {
    ghost use Rattle.zp_model.specs.Entries.{Entry, entry_of_parts};

    ghost Value = { Entry };

    ghost view = { λ e. entry_of_parts e.worker e.asked e.answered e.pages };
}

impl Entry {
    ghost use Rattle.zp_model.specs.Entries.{blank_entry};

    /// An entry to be written over.
    pub fn blank() -> Entry
        ensures { result ≡ blank_entry }
    {
        Entry {
            worker: Worker::first(),
            asked: Asked::Collect,
            answered: Answered::Freed,
            pages: PageList::new(),
        }
    }

    /// The entry of a worker's request with this reply. None where both have a list of pages, which no zone returns.
    pub fn new(worker: Worker, request: &Request, reply: &Reply) -> Option<Entry>
        ensures when { IsSome result ↔ HasOneList request.now reply.now }
        ensures entry { IfSome result (λ e. e ≡ record { worker = worker; request = request.now; reply = reply.now }) }
    {
        if has_two_lists(request, reply) {
            return None;
        }
        let mut entry = Entry::blank();
        entry.set(worker, request, reply);
        Some(entry)
    }

    /// Becomes the entry of a worker's request with this reply.
    // (in line, with what it calls: where a caller knows which request it is, no list is made for it)
    #[inline(always)]
    pub fn set(&mut self, worker: Worker, request: &Request, reply: &Reply)
        requires { HasOneList request.now reply.now }
        ensures { self.new ≡ record { worker = worker; request = request.now; reply = reply.now } }
    {
        self.worker = worker;
        self.asked = asked_of(request);
        self.answered = answered_of(reply);
        set_pages(&mut self.pages, request, reply);
    }

    /// Becomes the entry of a worker's drain of these pages, which are copied once.
    #[inline(always)]
    pub fn set_drain(&mut self, worker: Worker, kind: MigrateType, pages: &[PageNo])
        requires { length pages.now ≤ LONGEST_LIST }
        ensures { self.new ≡ record { worker = worker; request = request.Drain kind pages.now; reply = reply.Drained } }
    {
        self.worker = worker;
        self.asked = Asked::Drain(kind);
        self.answered = Answered::Drained;
        self.pages.set(pages);
    }

    /// Becomes the entry of a worker's refill that got these pages, which are copied once.
    #[inline(always)]
    pub fn set_refill(
        &mut self,
        worker: Worker,
        kind: MigrateType,
        mark: Mark,
        count: u8,
        pages: &[PageNo],
    )
        requires { length pages.now ≤ LONGEST_LIST }
        ensures { self.new ≡ record { worker = worker; request = request.Refill kind mark count; reply = reply.Pages pages.now } }
    {
        self.worker = worker;
        self.asked = Asked::Refill(kind, mark, count);
        self.answered = Answered::Pages;
        self.pages.set(pages);
    }

    /// Becomes the same as another entry.
    pub fn copy(&mut self, other: &Entry)
        ensures { self.new ≡ other.now }
    {
        self.worker = other.worker;
        self.asked = other.asked;
        self.answered = other.answered;
        if has_pages(&other.asked, &other.answered) {
            self.pages.set(other.pages.as_slice());
        }
    }

    pub fn worker(&self) -> Worker
        ensures { result ≡ self.now.worker }
    {
        self.worker
    }

    /// The request and the reply, where they lie, without a copy of the list of either: it comes beside them, and is the pages of
    /// a drain, or of a refill; else it says nothing.
    #[inline(always)]
    pub fn parts(&self) -> (Asked, Answered, &[PageNo])
        ensures same { entry_of_parts self.now.worker result.0 result.1 result.2.now ≡ self.now }
        ensures within { length result.2.now ≤ LONGEST_LIST }
    {
        (self.asked, self.answered, self.pages.as_slice())
    }

    /// What was asked.
    pub fn request(&self) -> Request
        ensures { result ≡ self.now.request }
    {
        match self.asked {
            Asked::Alloc(order, kind, mark) => Request::Alloc(order, kind, mark),
            Asked::AllocLow(order) => Request::AllocLow(order),
            Asked::Free(page, order) => Request::Free(page, order),
            Asked::Post(page, order, to) => Request::Post(page, order, to),
            Asked::Collect => Request::Collect,
            Asked::Refill(kind, mark, count) => Request::Refill(kind, mark, count),
            Asked::Drain(kind) => Request::Drain(kind, self.pages.copied()),
            Asked::Isolate(pageblock) => Request::Isolate(pageblock),
            Asked::Release(pageblock, kind) => Request::Release(pageblock, kind),
            Asked::AllocRun(pages, align, mark) => Request::AllocRun(pages, align, mark),
            Asked::AllocRunAt(page, pages) => Request::AllocRunAt(page, pages),
            Asked::FreeRun(page, pages) => Request::FreeRun(page, pages),
        }
    }

    /// The reply.
    pub fn reply(&self) -> Reply
        ensures { result ≡ self.now.reply }
    {
        match self.answered {
            Answered::Page(page) => Reply::Page(page),
            Answered::Block(block) => Reply::Block(block),
            Answered::Freed => Reply::Freed,
            Answered::Posted => Reply::Posted,
            Answered::Pages => Reply::Pages(self.pages.copied()),
            Answered::Drained => Reply::Drained,
            Answered::Isolated => Reply::Isolated,
            Answered::Released => Reply::Released,
            Answered::Refused(refused) => Reply::Refused(refused),
        }
    }
}

/// Whether both have a list of pages.
fn has_two_lists(request: &Request, reply: &Reply) -> bool
    ensures two { IsTrue result → HasOneList request.now reply.now → ⊥ }
    ensures one { result ≡ false → HasOneList request.now reply.now }
{
    matches!((request, reply), (Request::Drain(_, _), Reply::Pages(_)))
}

/// Whether an entry has a list of pages.
fn has_pages(asked: &Asked, answered: &Answered) -> bool
    ensures { result ≡ has_pages asked.now answered.now }
{
    matches!(asked, Asked::Drain(_)) || matches!(answered, Answered::Pages)
}

/// A request without its list.
#[inline(always)]
fn asked_of(request: &Request) -> Asked
    ensures { result ≡ asked_of request.now }
{
    match request {
        Request::Alloc(order, kind, mark) => Asked::Alloc(*order, *kind, *mark),
        Request::AllocLow(order) => Asked::AllocLow(*order),
        Request::Free(page, order) => Asked::Free(*page, *order),
        Request::Post(page, order, to) => Asked::Post(*page, *order, *to),
        Request::Collect => Asked::Collect,
        Request::Refill(kind, mark, count) => Asked::Refill(*kind, *mark, *count),
        Request::Drain(kind, _) => Asked::Drain(*kind),
        Request::Isolate(pageblock) => Asked::Isolate(*pageblock),
        Request::Release(pageblock, kind) => Asked::Release(*pageblock, *kind),
        Request::AllocRun(pages, align, mark) => Asked::AllocRun(*pages, *align, *mark),
        Request::AllocRunAt(page, pages) => Asked::AllocRunAt(*page, *pages),
        Request::FreeRun(page, pages) => Asked::FreeRun(*page, *pages),
    }
}

/// A reply without its list.
#[inline(always)]
fn answered_of(reply: &Reply) -> Answered
    ensures { result ≡ answered_of reply.now }
{
    match reply {
        Reply::Page(page) => Answered::Page(*page),
        Reply::Block(block) => Answered::Block(*block),
        Reply::Freed => Answered::Freed,
        Reply::Posted => Answered::Posted,
        Reply::Pages(_) => Answered::Pages,
        Reply::Drained => Answered::Drained,
        Reply::Isolated => Answered::Isolated,
        Reply::Released => Answered::Released,
        Reply::Refused(refused) => Answered::Refused(*refused),
    }
}

/// The list becomes that of the request or of the reply, where one of them has a list.
#[inline(always)]
fn set_pages(pages: &mut PageList, request: &Request, reply: &Reply)
    ensures { pages.new ≡ pages_of request.now reply.now pages.old }
{
    if let Request::Drain(_, given) = request {
        pages.replace(given.as_slice());
    } else if let Reply::Pages(got) = reply {
        pages.replace(got.as_slice());
    }
}
