//! Worked histories: what is asked of a new zone, what it has to reply, and what it reports at the end. They are data: one function
//! replays them all, as a journal.

use super::*;
use arrayvec::ArrayVec;
use std::alloc::AllocGlobal;
use zp_journal::{Journal, JournalCheck, replay_journal};
use zp_model::{
    Block, Entry, LONGEST_LIST, PageList, PageNo, Refused, Reply, Request, State, Worker,
};

/// What is asked, in numbers.
#[derive(Clone, Copy, Drop)]
pub(super) enum Ask<'a> {
    Alloc(u8, MigrateType, Mark),
    Low(u8),
    Free(u32, u8),
    Post(u32, u8, u8),
    Collect,
    Refill(u8, Mark),
    Drain(MigrateType, &'a [u32]),
    Isolate(u32),
    Release(u32, MigrateType),
    Run(u32, u8, Mark),
    RunAt(u32, u32),
    FreeRun(u32, u32),
}

/// A reply, in numbers.
#[derive(Clone, Copy, Drop)]
pub(super) enum Said<'a> {
    Page(u32),
    Block(u32, u8, MigrateType),
    Freed,
    Posted,
    Pages(&'a [u32]),
    Drained,
    Isolated,
    Released,
    Refused(Refused),
}

/// A worker's request, with its reply.
pub(super) type Asked<'a> = (u8, Ask<'a>, Said<'a>);

/// What is noted of a page, in numbers.
#[derive(Clone, Copy, PartialEq, Eq, Drop)]
pub(super) enum Noted {
    Tail,
    Free(u8),
    Out(u8, MigrateType, u8),
    Posted(u8, MigrateType, u8),
}

/// A page, what is noted of it, and the pages before and after it on its list.
pub(super) type Told = (u32, Noted, Option<u32>, Option<u32>);

/// What is asked of a zone of two workers, and what it reports then: its free pages, those in posted blocks, and some pages.
#[derive(Clone, Copy, Drop)]
pub(super) struct History<'a> {
    /// What it shows.
    pub(super) shows: &'a str,
    pub(super) config: Making<'a>,
    pub(super) asked: &'a [Asked<'a>],
    pub(super) free: u32,
    pub(super) posted: u32,
    pub(super) pages: &'a [Told],
}

fn list(numbers: &[u32]) -> PageList {
    let mut pages: ArrayVec<PageNo, LONGEST_LIST> = ArrayVec::new();
    for number in numbers {
        let _ = pages.try_push(PageNo::new(*number));
    }
    PageList::of(pages.as_slice())
}

fn request(ask: Ask<'_>) -> Option<Request> {
    let request = match ask {
        Ask::Alloc(order, kind, mark) => Request::Alloc(Order::new(order)?, kind, mark),
        Ask::Low(order) => Request::AllocLow(Order::new(order)?),
        Ask::Free(page, order) => Request::Free(PageNo::new(page), Order::new(order)?),
        Ask::Post(page, order, to) => {
            Request::Post(PageNo::new(page), Order::new(order)?, Worker::new(to)?)
        }
        Ask::Collect => Request::Collect,
        Ask::Refill(count, mark) => Request::Refill(MigrateType::Movable, mark, count),
        Ask::Drain(kind, pages) => Request::Drain(kind, list(pages)),
        Ask::Isolate(pageblock) => Request::Isolate(pageblock),
        Ask::Release(pageblock, kind) => Request::Release(pageblock, kind),
        Ask::Run(pages, align, mark) => Request::AllocRun(pages, align, mark),
        Ask::RunAt(page, pages) => Request::AllocRunAt(PageNo::new(page), pages),
        Ask::FreeRun(page, pages) => Request::FreeRun(PageNo::new(page), pages),
    };
    Some(request)
}

fn reply(said: Said<'_>) -> Option<Reply> {
    let reply = match said {
        Said::Page(page) => Reply::Page(PageNo::new(page)),
        Said::Block(page, order, kind) => Reply::Block(Block {
            page: PageNo::new(page),
            order: Order::new(order)?,
            kind,
        }),
        Said::Freed => Reply::Freed,
        Said::Posted => Reply::Posted,
        Said::Pages(pages) => Reply::Pages(list(pages)),
        Said::Drained => Reply::Drained,
        Said::Isolated => Reply::Isolated,
        Said::Released => Reply::Released,
        Said::Refused(refused) => Reply::Refused(refused),
    };
    Some(reply)
}

fn entry(asked: &Asked<'_>) -> Option<Entry> {
    let (worker, ask, said) = *asked;
    Entry::new(Worker::new(worker)?, &request(ask)?, &reply(said)?)
}

/// Room for the longest history.
const ROOM: u32 = 2048;

/// A journal with no entry.
pub(super) fn empty_journal(rt: &impl AllocGlobal) -> Result<Journal, Refused> {
    Journal::new(rt.alloc(), ROOM)
}

/// The journal goes on.
pub(super) fn go_on_by(rt: &impl Abort, journal: &mut Journal, asked: &Asked<'_>) {
    let Some(entry) = entry(asked) else {
        assert!(rt; false, "there is no such request");
        return;
    };
    assert!(rt; !journal.is_full());
    journal.append(&entry);
}

fn go_on_by_all(rt: &impl Abort, journal: &mut Journal, asked: &[Asked<'_>]) {
    for it in asked {
        go_on_by(rt, journal, it);
    }
}

/// The history as a journal.
pub(super) fn journal_of(
    rt: &(impl Abort + AllocGlobal),
    asked: &[Asked<'_>],
) -> Result<Journal, Refused> {
    let mut journal = empty_journal(rt)?;
    go_on_by_all(rt, &mut journal, asked);
    Ok(journal)
}

fn noted_as(state: State) -> Noted {
    match state {
        State::Tail => Noted::Tail,
        State::Free(order) => Noted::Free(order.number()),
        State::Out(order, kind, worker) => Noted::Out(order.number(), kind, worker.number()),
        State::Posted(order, kind, worker) => Noted::Posted(order.number(), kind, worker.number()),
    }
}

/// What a zone reports of a page, where the page is its own.
fn told_of(zone: &Zone, page: u32) -> Option<Told> {
    let entry = zone.entry(PageNo::new(page))?;
    let back = entry.back.map(PageNo::number);
    let forward = entry.forward.map(PageNo::number);
    Some((page, noted_as(entry.state), back, forward))
}

/// Whether a zone reports what it has to, but of its pages.
fn is_told(zone: &Zone, history: &History<'_>) -> bool {
    zone.name() == history.config.name
        && zone.pages() == history.config.pages
        && zone.counts().free == history.free
        && zone.posted_pages() == history.posted
}

/// Compares what a zone reports with what it has to report.
pub(super) fn compare(rt: &impl Abort, zone: &Zone, history: &History<'_>) {
    assert!(rt; is_told(zone, history), "{}", history.shows);
    for page in history.pages {
        assert!(rt; told_of(zone, page.0) == Some(*page), "page {}", page.0);
    }
}

/// A new zone with this largest order replies as the journal says: what it has become. None where it does not.
pub(super) fn replayed(
    rt: &(impl Abort + AllocGlobal),
    making: &Making<'_>,
    largest: Largest,
    journal: &Journal,
) -> Option<Zone> {
    let config = ZoneConfig {
        name: making.name,
        base: making.base,
        pages: making.pages,
        min: making.min,
        largest,
    };
    match replay_journal(rt.alloc(), config, 2, journal) {
        Ok(JournalCheck::Legal(zone)) => Some(zone),
        Ok(JournalCheck::Differs(number)) => {
            assert!(rt; false, "entry {number} differs");
            None
        }
        Err(_) => None,
    }
}

/// A new zone replies to all of the history as it says, and reports then what it says.
pub(super) fn expect(
    rt: &(impl Abort + AllocGlobal),
    history: &History<'_>,
) -> Result<(), Refused> {
    let journal = journal_of(rt, history.asked)?;
    let Some(zone) = replayed(rt, &history.config, Largest::usual(), &journal) else {
        assert!(rt; false, "{}", history.shows);
        return Ok(());
    };
    compare(rt, &zone, history);
    Ok(())
}
