//! A worker with lists over one zone whose journal has room for two entries, by the calls that desks make, and where the zone's pages are when
//! it is closed.
ghost use Rattle.std.specs.Prelude.{◌≡◌, ◌∷◌, [], length, true};
ghost use Rattle.zp_model.specs.Zone.{workers_of};
ghost use Rattle.zp_share.specs.Shares.{IsShareOf, key_of};
ghost use Rattle.zp_shared.specs.Rows.{AreReadersOf, key_at, opened_board, opened_key};

use super::one_zone::{OnlyWorker, alone, config, opened_with_lists};
use std::alloc::Global;
use std::marker::Brand;
use std::process::Abort;
use std::sync::Wait;
use std::test::*;
use zp_journal::{Journal, JournalCheck, replay_journal};
use zp_model::{Mark, MigrateType, Order, PageNo};
use zp_share::{ListConfig, Share, Totals, alloc, drain_all, free, gather};
use zp_shared::{BoardReader, Closed, LockedZones, Naming, OpenedZone, SharedZone};
use zp_zone::Zone;

/// What the worker asks for.
#[derive(Clone, Copy, Drop)]
enum Call {
    /// A block of this order.
    Take(u8),
    /// That the block at this page, of this order, is taken back.
    Give(u32, u8),
    Drain,
}

/// What a call returns: the page of a block, how many pages were drained, the number of a refusal.
#[derive(Clone, Copy, PartialEq, Eq, Drop)]
enum Told {
    Page(u32),
    Freed,
    Drained(u32),
    Refused(u8),
}

use Call::*;
use Told::*;

/// A full journal.
const FULL: Told = Refused(30);

const NOT_LENT: Told = Refused(20);

/// The calls, what each returns, and then the pages of the worker's list, the front first, and those that are lent.
const CALLS: [(Call, Told, &[u32], &[u32]); 14] = [
    (Take(0), Page(3072), &[3073, 3074, 3075], &[3072]),
    (Take(0), Page(3073), &[3074, 3075], &[3072, 3073]),
    (Take(0), Page(3074), &[3075], &[3072, 3073, 3074]),
    (Take(0), Page(3075), &[], &[3072, 3073, 3074, 3075]),
    (
        Take(0),
        Page(3076),
        &[3077, 3078, 3079],
        &[3072, 3073, 3074, 3075, 3076],
    ),
    (
        Give(3072, 0),
        Freed,
        &[3072, 3077, 3078, 3079],
        &[3073, 3074, 3075, 3076],
    ),
    (
        Give(3073, 0),
        Freed,
        &[3073, 3072, 3077, 3078, 3079],
        &[3074, 3075, 3076],
    ),
    (
        Give(3074, 0),
        Freed,
        &[3074, 3073, 3072, 3077, 3078, 3079],
        &[3075, 3076],
    ),
    (
        Give(3075, 0),
        FULL,
        &[3074, 3073, 3072, 3077, 3078, 3079],
        &[3075, 3076],
    ),
    (
        Give(3075, 1),
        NOT_LENT,
        &[3074, 3073, 3072, 3077, 3078, 3079],
        &[3075, 3076],
    ),
    (
        Take(0),
        Page(3074),
        &[3073, 3072, 3077, 3078, 3079],
        &[3074, 3075, 3076],
    ),
    (
        Give(3075, 0),
        Freed,
        &[3075, 3073, 3072, 3077, 3078, 3079],
        &[3074, 3076],
    ),
    (
        Take(1),
        FULL,
        &[3075, 3073, 3072, 3077, 3078, 3079],
        &[3074, 3076],
    ),
    (
        Drain,
        FULL,
        &[3075, 3073, 3072, 3077, 3078, 3079],
        &[3074, 3076],
    ),
];

impl<'a, J: Naming, R: Wait> OnlyWorker<'a, J, R> {
    /// What the call returns.
    fn call(&mut self, call: Call) -> Told {
        match call {
            Take(order) => self.take_block(order),
            Give(page, order) => self.give_block(page, order),
            Drain => self.drain(),
        }
    }

    fn take_block(&mut self, order: u8) -> Told {
        let Some(order) = Order::new(order) else {
            return Refused(0);
        };
        let OnlyWorker { share, view } = self;
        match alloc(share, view, order, MigrateType::Movable, 0, Mark::Low) {
            Ok(lent) => Page(lent.page.number()),
            Err(refused) => Refused(refused.number()),
        }
    }

    fn give_block(&mut self, page: u32, order: u8) -> Told {
        let Some(order) = Order::new(order) else {
            return Refused(0);
        };
        let OnlyWorker { share, view } = self;
        match free(share, view, 0, PageNo::new(page), order) {
            Ok(()) => Freed,
            Err(refused) => Refused(refused.number()),
        }
    }

    fn drain(&mut self) -> Told {
        let OnlyWorker { share, view } = self;
        match drain_all(share, view) {
            Ok(pages) => Drained(pages as u32),
            Err(refused) => Refused(refused.number()),
        }
    }
}

/// Whether the list of movable pages has these pages, the front first.
fn has_list(share: &Share, expected: &[u32]) -> bool
    requires { length share.now.zones ≡ 1 }
{
    let kind = MigrateType::Movable;
    let back = share.back(0, kind, share.cached_len(0, kind));
    let pages = back.as_slice();
    for (page, number) in pages.iter().rev().zip(expected) {
        if page.number() != *number {
            return false;
        }
    }
    pages.len() == expected.len()
}

/// Whether of the pages that the zone gave these are lent.
fn has_lent(share: &Share, expected: &[u32]) -> bool
    requires { length share.now.zones ≡ 1 }
{
    for page in 3072..3080 {
        let is_lent = share.is_lent(0, PageNo::new(page), Order::zero());
        if is_lent != expected.contains(&page) {
            return false;
        }
    }
    true
}

/// What is left when the zone is closed: how many sections the worker made, where the zone's pages are, and its journal.
#[derive(Drop)]
struct Ended {
    sections: u64,
    totals: Option<Totals>,
    journal: Journal,
}

/// The worker makes its calls: its share then.
fn make_calls<J: Naming, R: Abort + Wait>(rt: &R, worker: OnlyWorker<'_, J, R>) -> Share
    ensures fits { IsShareOf J.zones result }
    ensures one { length result.zones ≡ 1 }
{
    let mut worker = worker;
    for (place, (call, told, list, lent)) in CALLS.iter().enumerate() {
        assert!(rt; worker.call(*call) == *told, "call {place}");
        assert!(rt; has_list(&worker.share, list), "call {place}: the list");
        assert!(rt; has_lent(&worker.share, lent), "call {place}: lent pages");
    }
    let OnlyWorker { share, .. } = worker;
    share
}

/// The worker makes its calls, and the zone is closed. None where something could not be made.
fn run_calls<J: Naming, R: Abort + Wait>(
    rt: &R,
    alloc: Global,
    mut opened: OpenedZone,
    share: Share,
) -> Option<Ended>
    requires zones { J.zones ≡ opened_key opened ∷ [] }
    requires boards { J.boards ≡ opened_board opened ∷ [] }
    requires fits { IsShareOf J.zones share }
    requires one { length share.zones ≡ 1 }
    requires single { (opened_key opened).workers ≡ 1 }
{
    match alone(alloc, opened.reader()) {
        Some(readers) => run_over::<J, R>(rt, opened, readers, share),
        None => None,
    }
}

/// The same with this reader.
fn run_over<J: Naming, R: Abort + Wait>(
    rt: &R,
    opened: OpenedZone,
    readers: Vec<BoardReader>,
    share: Share,
) -> Option<Ended>
    requires zones { J.zones ≡ opened_key opened ∷ [] }
    requires boards { J.boards ≡ opened_board opened ∷ [] }
    requires readers { AreReadersOf J.zones J.boards readers.items }
    requires fits { IsShareOf J.zones share }
    requires one { length share.zones ≡ 1 }
    requires single { (opened_key opened).workers ≡ 1 }
{
    let row = [SharedZone::<J>::new(0, opened)];
    let view = LockedZones::<J, (), R>::new(rt, &row, readers);
    let share = make_calls(rt, OnlyWorker { share, view });
    let [shared] = row;
    left_of::<J>(shared.close(&mut []), share)
}

/// What is left of the zone, where it lay at its place.
fn left_of<J: Naming>(closed: Closed, share: Share) -> Option<Ended>
    requires here { closed.at_place ≡ true → key_of closed.zone ∷ [] ≡ J.zones }
    requires fits { IsShareOf J.zones share }
    requires one { length share.zones ≡ 1 }
    requires single { (key_at J.zones 0).workers ≡ 1 }
{
    let Closed {
        zone,
        journal,
        at_place: true,
    } = closed
    else {
        return None;
    };
    let sections = share.sections(0);
    let totals = gather_one(zone, share);
    Some(Ended {
        sections,
        totals,
        journal,
    })
}

/// Where the pages of a zone are, with the share of its only worker.
fn gather_one(mut zone: Zone, mut share: Share) -> Option<Totals>
    requires fits { IsShareOf (key_of zone ∷ []) share }
    requires one { length share.zones ≡ 1 }
    requires single { workers_of zone.plain ≡ 1 }
{
    // a clause of this call says that the share's worker is one of the zone's
    share.check(&mut zone, 0);
    gather(&mut [zone], &mut [share]).first().copied()
}

/// What the worker's calls leave of the zone. None where something could not be made.
fn left_by_calls<R: Abort + Wait>(rt: &R, alloc: Global) -> Option<Ended> {
    let (opened, share) = opened_with_lists(alloc, 2, ListConfig::new(4, 6)?)?;
    run_calls::<Brand, R>(rt, alloc, opened, share)
}

/// How many pages are free after the journal. None where it is not legal.
fn free_after(alloc: Global, journal: &Journal) -> Option<u32> {
    match replay_journal(alloc, config(), 1, journal).ok()? {
        JournalCheck::Legal(zone) => Some(zone.counts().free),
        JournalCheck::Differs(_) => None,
    }
}

const TOTALS: Totals = Totals {
    free: 4088,
    posted: 0,
    cached: 6,
    lent: 2,
};

/// A list that the page just put on fills up stays full; one that is full before takes no page, which stays lent, and none is drained. When
/// the zone is closed, its pages are free, on the list, or lent.
#[test]
fn a_full_list_stays_by_calls(rt: HostRuntime) {
    let Some(ended) = left_by_calls(&rt, rt.alloc()) else {
        assert!(rt; false, "the worker runs");
        return;
    };
    assert!(rt; ended.sections == 2 && ended.totals == Some(TOTALS));
    assert!(rt; ended.journal.len() == 2);
    assert!(rt; free_after(rt.alloc(), &ended.journal) == Some(4088));
}
