//! What a worker does with a zone and with its own lists, step by step, and what it gets. Sequences are data: one function
//! carries them all out.
ghost use Rattle.std.specs.Prelude.{◌≡◌, length, map};
ghost use Rattle.zp_share.specs.Shares.{IsShareOf, key_of};

use std::alloc::{AllocGlobal, Global};
use std::process::Abort;
use std::test::*;
use zp_model::{LARGEST_ALIGNMENT, Largest, Mark, MigrateType, Order, PageNo, Refused};
use zp_share::{ListConfig, PlainZones, Share, Zones, alloc, drain_all, free};
use zp_zone::{Zone, ZoneConfig};

/// A step, in numbers.
#[derive(Clone, Copy, Drop)]
pub(super) enum Step {
    Alloc(u8, MigrateType, Mark),
    Low(u8),
    Free(u32, u8),
    /// Takes so many single Movable pages, which are these, from this one on; gives so many back.
    AllocPages(u32, u32),
    FreePages(u32, u32),
    /// The lowest run of so many pages that is aligned so; the run of so many at a page; frees so many from a page on.
    AllocRun(u32, u8, Mark),
    AllocRunAt(u32, u32),
    FreeRun(u32, u32),
    /// Puts a page on its list by hand.
    Put(u32),
    /// Takes a page from its list by hand.
    Take(MigrateType),
    DrainAll,
    Look,
}

/// A result, in numbers.
#[derive(Clone, Copy, PartialEq, Eq, Drop)]
pub(super) enum Replied {
    Page(u32),
    Done,
    Empty,
    Drained(usize),
    Refused(Refused),
    /// The free pages of the zone, those on the lists for Unmovable, Reclaimable and Movable, and the sections made.
    Left(u32, [usize; 3], u64),
}

/// A step and its result.
pub(super) type Told = (Step, Replied);

/// What is asked of a new zone of so many pages with such a least mark, and of its worker's lists of such a batch and such a room.
#[derive(Clone, Copy, Drop)]
pub(super) struct Sequence<'a> {
    /// What it shows.
    pub(super) shows: &'a str,
    pub(super) zone: (u32, u32),
    pub(super) lists: (u8, u8),
    pub(super) steps: &'a [Told],
}

/// A row of one zone, and the share of its one worker.
#[derive(Drop)]
struct Hand {
    zones: PlainZones,
    share: Share,
    ghost fits: { IsShareOf (map key_of zones) share },
    ghost one: { length share.zones ≡ 1 },
}

/// The zone `DMA` from page 0 on, and lists of these settings.
fn hand_with(alloc: Global, pages: u32, min: u32, lists: ListConfig) -> Result<Hand, Refused> {
    let config = ZoneConfig {
        name: "DMA",
        base: 0,
        pages,
        min,
        largest: Largest::usual(),
    };
    let (zone, seats) = Zone::new(alloc, config, 1)?;
    let Ok(mut zones) = Vec::with_capacity(alloc, 1) else {
        return Err(Refused::Memory);
    };
    zones.push_reserved(zone);
    let share = Share::new(alloc, seats, lists)?;
    Ok(Hand {
        zones: PlainZones::new(zones),
        share,
    })
}

fn allocated(hand: &mut Hand, order: Order, kind: MigrateType, mark: Mark) -> Replied {
    match alloc(&mut hand.share, &mut hand.zones, order, kind, 0, mark) {
        Ok(lent) => Replied::Page(lent.page.number()),
        Err(refused) => Replied::Refused(refused),
    }
}

fn lowest(hand: &mut Hand, order: Order) -> Replied {
    match hand.zones.alloc_low(&mut hand.share, 0, order) {
        Ok(block) => Replied::Page(block.page.number()),
        Err(refused) => Replied::Refused(refused),
    }
}

fn freed(hand: &mut Hand, page: PageNo, order: Order) -> Replied {
    match free(&mut hand.share, &mut hand.zones, 0, page, order) {
        Ok(()) => Replied::Done,
        Err(refused) => Replied::Refused(refused),
    }
}

fn allocated_pages(hand: &mut Hand, first: u32, pages: u32) -> Replied {
    for page in first..first.saturating_add(pages) {
        let said = allocated(hand, Order::zero(), MigrateType::Movable, Mark::Low);
        if said != Replied::Page(page) {
            return said;
        }
    }
    Replied::Done
}

fn freed_pages(hand: &mut Hand, first: u32, pages: u32) -> Replied {
    for page in first..first.saturating_add(pages) {
        let said = freed(hand, PageNo::new(page), Order::zero());
        if said != Replied::Done {
            return said;
        }
    }
    Replied::Done
}

fn lowest_run(hand: &mut Hand, pages: u32, align: u8, mark: Mark) -> Replied {
    if pages == 0 || align > LARGEST_ALIGNMENT {
        return Replied::Empty;
    }
    said_of(hand.zones.alloc_run(&mut hand.share, 0, pages, align, mark))
}

fn run_at(hand: &mut Hand, page: PageNo, pages: u32) -> Replied {
    said_of(hand.zones.alloc_run_at(&mut hand.share, 0, page, pages))
}

fn said_of(got: Result<PageNo, Refused>) -> Replied {
    match got {
        Ok(page) => Replied::Page(page.number()),
        Err(refused) => Replied::Refused(refused),
    }
}

fn freed_run(hand: &mut Hand, page: PageNo, pages: u32) -> Replied {
    match hand.zones.free_run(&mut hand.share, 0, page, pages) {
        Ok(()) => Replied::Done,
        Err(refused) => Replied::Refused(refused),
    }
}

fn put(hand: &mut Hand, page: PageNo) -> Replied {
    match hand.share.put_cached(0, page) {
        Ok(()) => Replied::Done,
        Err(refused) => Replied::Refused(refused),
    }
}

fn taken(hand: &mut Hand, kind: MigrateType) -> Replied {
    match hand.share.take_cached(0, kind) {
        Some(page) => Replied::Page(page.number()),
        None => Replied::Empty,
    }
}

fn drained(hand: &mut Hand) -> Replied {
    match drain_all(&mut hand.share, &mut hand.zones) {
        Ok(pages) => Replied::Drained(pages),
        Err(refused) => Replied::Refused(refused),
    }
}

fn left(hand: &Hand) -> Replied {
    let share = &hand.share;
    let cached = [
        share.cached_len(0, MigrateType::Unmovable),
        share.cached_len(0, MigrateType::Reclaimable),
        share.cached_len(0, MigrateType::Movable),
    ];
    match hand.zones.as_slice().first() {
        Some(zone) => Replied::Left(zone.counts().free, cached, share.sections(0)),
        None => Replied::Empty,
    }
}

/// The result of a step, where there is such an order.
fn carry_out(hand: &mut Hand, step: Step) -> Option<Replied> {
    let said = match step {
        Step::Alloc(order, kind, mark) => allocated(hand, Order::new(order)?, kind, mark),
        Step::Low(order) => lowest(hand, Order::new(order)?),
        Step::Free(page, order) => freed(hand, PageNo::new(page), Order::new(order)?),
        Step::AllocPages(first, pages) => allocated_pages(hand, first, pages),
        Step::FreePages(first, pages) => freed_pages(hand, first, pages),
        Step::AllocRun(pages, align, mark) => lowest_run(hand, pages, align, mark),
        Step::AllocRunAt(page, pages) => run_at(hand, PageNo::new(page), pages),
        Step::FreeRun(page, pages) => freed_run(hand, PageNo::new(page), pages),
        Step::Put(page) => put(hand, PageNo::new(page)),
        Step::Take(kind) => taken(hand, kind),
        Step::DrainAll => drained(hand),
        Step::Look => left(hand),
    };
    Some(said)
}

/// A new zone and its worker's lists return this for each step.
pub(super) fn expect(rt: &(impl Abort + AllocGlobal), sequence: &Sequence<'_>) -> Result<(), Fail> {
    let Sequence {
        shows,
        zone,
        lists,
        steps,
    } = sequence;
    let lists = ListConfig::new(lists.0, lists.1).ok_or("there are such lists")?;
    let mut hand = hand_with(rt.alloc(), zone.0, zone.1, lists)?;
    for (number, (step, said)) in steps.iter().enumerate() {
        let answer = carry_out(&mut hand, *step);
        assert!(rt; answer == Some(*said), "{shows}: step {number}");
    }
    Ok(())
}
