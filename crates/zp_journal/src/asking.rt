//! A zone is asked for what an entry says, where its worker may ask for it. Nothing is known of the request beforehand: what the
//! zone requires is tested. The entry's request and reply are looked at where they lie: no list of pages is copied.
ghost use Rattle.std.specs.Prelude.{◌≡◌, ℕ, List, true};
ghost use Rattle.std.specs.List.{list_all};
ghost use Rattle.zp_model.specs.Entries.{reply_of, request_of};
ghost use Rattle.zp_model.specs.Zone.{workers_of};
ghost use Rattle.zp_model.specs.Run.{is_distinct, is_out, may_ask};
ghost use Rattle.zp_model.specs.Step.{step};
ghost use Rattle.zp_zone.specs.Asking.{MaySeatAsk};
ghost use Rattle.zp_zone.specs.NamedZone.{block_reply, isolate_reply, page_reply, pages_reply, release_reply};
ghost use Rattle.zp_zone.specs.Seats.{Agrees, HasPages, IsSeatOf, asked};
ghost use Rattle.zp_journal.specs.Asking.{IsAnsweredWith, IsReplyWith, IsSeatStill};

use arrayvec::ArrayVec;
use zp_model::{Answered, Asked, Block, LARGEST_ALIGNMENT, MAX_BATCH, Order, PageNo, Refused};
use zp_zone::{Seat, Zone};

/// The zone's reply, where the seat's worker may ask for this and the reply's list is that of the pages. Else nothing; the zone does not
/// change where its worker may not ask. `workers` is how many the zone has.
pub(crate) fn ask(
    zone: &mut Zone,
    seat: &mut Seat,
    workers: usize,
    request: &Asked,
    pages: &[PageNo],
) -> Option<Answered>
    requires seat { IsSeatOf zone.old seat.old }
    requires workers { workers ≡ workers_of zone.old.plain }
    ensures answered { IsAnsweredWith zone.old seat.old.worker (request_of request.now pages.now) pages.now result zone.new }
    ensures seat { IsSeatStill seat.old seat.new }
{
    zone.check(seat);
    if !may_ask(zone, seat, workers, request, pages) {
        return None;
    }
    answer(zone, seat, request, pages)
}

/// The zone's reply, where its list is that of the pages.
fn answer(zone: &mut Zone, seat: &mut Seat, request: &Asked, pages: &[PageNo]) -> Option<Answered>
    requires seat { IsSeatOf zone.old seat.old }
    requires may { MaySeatAsk (workers_of zone.old.plain) (request_of request.now pages.now) seat.old }
    ensures reply { IsReplyWith pages.now (step zone.old.plain seat.old.worker (request_of request.now pages.now)).reply result }
    ensures after { zone.new ≡ asked seat.old.worker (request_of request.now pages.now) zone.old }
    ensures seat { IsSeatStill seat.old seat.new }
{
    match request {
        Asked::Alloc(order, kind, mark) => page_answer(zone.alloc(seat, *order, *kind, *mark)),
        Asked::AllocLow(order) => block_answer(zone.alloc_low(seat, *order)),
        Asked::Free(page, order) => {
            zone.free(seat, *page, *order);
            Some(Answered::Freed)
        }
        Asked::Post(page, order, to) => {
            zone.post(seat, *page, *order, *to);
            Some(Answered::Posted)
        }
        Asked::Collect => block_answer(zone.collect(seat)),
        Asked::Refill(kind, mark, count) => {
            pages_answer(zone.refill(seat, *kind, *mark, *count), pages)
        }
        Asked::Drain(kind) => {
            zone.drain(seat, *kind, pages);
            Some(Answered::Drained)
        }
        Asked::Isolate(pageblock) => isolate_answer(zone.isolate(seat, *pageblock)),
        Asked::Release(pageblock, kind) => release_answer(zone.release(seat, *pageblock, *kind)),
        Asked::AllocRun(pages, align, mark) => {
            page_answer(zone.alloc_run(seat, *pages, *align, *mark))
        }
        Asked::AllocRunAt(page, pages) => page_answer(zone.alloc_run_at(seat, *page, *pages)),
        Asked::FreeRun(page, pages) => {
            zone.free_run(seat, *page, *pages);
            Some(Answered::Freed)
        }
    }
}

fn page_answer(got: Result<PageNo, Refused>) -> Option<Answered>
    ensures { (ps : List ℕ) → IsReplyWith ps (page_reply got) result }
{
    match got {
        Ok(page) => Some(Answered::Page(page)),
        Err(refused) => Some(Answered::Refused(refused)),
    }
}

fn block_answer(got: Result<Block, Refused>) -> Option<Answered>
    ensures { (ps : List ℕ) → IsReplyWith ps (block_reply got) result }
{
    match got {
        Ok(block) => Some(Answered::Block(block)),
        Err(refused) => Some(Answered::Refused(refused)),
    }
}

fn isolate_answer(got: Result<(), Refused>) -> Option<Answered>
    ensures { (ps : List ℕ) → IsReplyWith ps (isolate_reply got) result }
{
    match got {
        Ok(()) => Some(Answered::Isolated),
        Err(refused) => Some(Answered::Refused(refused)),
    }
}

fn release_answer(got: Result<(), Refused>) -> Option<Answered>
    ensures { (ps : List ℕ) → IsReplyWith ps (release_reply got) result }
{
    match got {
        Ok(()) => Some(Answered::Released),
        Err(refused) => Some(Answered::Refused(refused)),
    }
}

/// The reply of a refill, where it got these pages.
fn pages_answer(
    got: Result<ArrayVec<PageNo, MAX_BATCH>, Refused>,
    pages: &[PageNo],
) -> Option<Answered>
    ensures { IsReplyWith pages.now (pages_reply got) result }
{
    match got {
        Ok(got) if got.as_slice() == pages => Some(Answered::Pages),
        Ok(_) => None,
        Err(refused) => Some(Answered::Refused(refused)),
    }
}

/// Whether the seat's worker may ask for this: each block and each run to be freed is the seat's, a worker named is one of the zone's, the pages
/// of a refill are some and not more than a batch, and a run has a page and an alignment that may be asked.
fn may_ask(zone: &Zone, seat: &Seat, workers: usize, request: &Asked, pages: &[PageNo]) -> bool
    requires seat { IsSeatOf zone.now seat.now }
    requires workers { workers ≡ workers_of zone.now.plain }
    ensures may { result ≡ may_ask zone.now.plain seat.now.worker (request_of request.now pages.now) }
    ensures seat { Agrees zone.now seat.now → result ≡ true → MaySeatAsk (workers_of zone.now.plain) (request_of request.now pages.now) seat.now }
{
    match request {
        Asked::Free(page, order) => zone.held_by(seat, *page, *order),
        Asked::Post(page, order, to) => {
            zone.held_by(seat, *page, *order) && usize::from(to.number()) < workers
        }
        Asked::Refill(_, _, count) => *count >= 1 && usize::from(*count) <= MAX_BATCH,
        Asked::Drain(_) => holds_all(zone, seat, pages) && has_no_page_twice(pages),
        Asked::AllocRun(pages, align, _) => *pages >= 1 && *align <= LARGEST_ALIGNMENT,
        Asked::FreeRun(page, pages) => zone.run_held_by(seat, *page, *pages),
        Asked::Alloc(_, _, _)
        | Asked::AllocLow(_)
        | Asked::AllocRunAt(_, _)
        | Asked::Collect
        | Asked::Isolate(_)
        | Asked::Release(_, _) => true,
    }
}

/// Whether each of the pages is out to the seat's worker, as a block of order 0.
fn holds_all(zone: &Zone, seat: &Seat, pages: &[PageNo]) -> bool
    requires { IsSeatOf zone.now seat.now }
    ensures out { result ≡ list_all (λ page. is_out zone.now.plain seat.now.worker page 0) pages.now }
    ensures has { Agrees zone.now seat.now → result ≡ true → HasPages seat.now pages.now }
{
    for page in pages {
        if !zone.held_by(seat, *page, Order::zero()) {
            return false;
        }
    }
    true
}

/// Whether each page stands in the list once.
fn has_no_page_twice(pages: &[PageNo]) -> bool
    ensures { result ≡ is_distinct pages.now }
{
    for (place, page) in pages.iter().enumerate() {
        if pages[place + 1..].contains(page) {
            return false;
        }
    }
    true
}
