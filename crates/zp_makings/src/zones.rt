//! A zone that one thread owns, and the requests of two of its workers.
ghost use Rattle.std.specs.Prelude.{◌≡◌};
ghost use Rattle.zp_zone.specs.Seats.{IsSeatOf};

use std::alloc::Global;
use zp_loads::{Unmade, config, expect};
use zp_model::{Mark, MigrateType, Order, PageNo};
use zp_zone::{Seat, Zone};

/// How many pages the zone has.
pub const PAGES: u32 = 4096;

/// The first page of the front block of a zone of which nothing was asked.
pub const FRONT: u32 = 3072;

/// The pageblock of that page.
const FRONT_PAGEBLOCK: u32 = 3;

/// How many pages a refill asks for.
const BATCH: u8 = 4;

/// How many pages a run has: no power of two.
const RUN: u32 = 37;

/// The zone with two workers, who make so many rounds of requests.
pub fn zone(alloc: Global, calls: u32) -> Result<(), Unmade> {
    match two_workers(alloc) {
        Ok(mut crew) => crew.rounds(calls),
        Err(unmade) => Err(unmade),
    }
}

/// The zone with two workers.
fn two_workers(alloc: Global) -> Result<SeatedZone, Unmade> {
    let (zone, mut seats) = Zone::new(alloc, config(PAGES), 2)?;
    let (Some(second), Some(first)) = (seats.pop(), seats.pop()) else {
        return Err(Unmade::Other);
    };
    Ok(SeatedZone {
        zone,
        first,
        second,
    })
}

/// A zone and the seats of two workers.
#[derive(Drop)]
struct SeatedZone {
    zone: Zone,
    first: Seat,
    second: Seat,
    ghost first_fits: { IsSeatOf zone first },
    ghost second_fits: { IsSeatOf zone second },
}

impl SeatedZone {
    /// So many rounds.
    fn rounds(&mut self, rounds: u32) -> Result<(), Unmade> {
        for _ in 0..rounds {
            self.round()?;
        }
        Ok(())
    }

    /// Each of the twelve requests, and what the zone reports. All pages are free after it, as before.
    fn round(&mut self) -> Result<(), Unmade> {
        let SeatedZone {
            zone,
            first,
            second,
            ..
        } = self;
        lowest(zone, first)?;
        run_of_pages(zone, first)?;
        isolated(zone, second)?;
        passed(zone, first, second)?;
        refilled(zone, second)?;
        expect(is_whole(zone))
    }
}

/// Allocates and frees the lowest block of the largest order.
fn lowest(zone: &mut Zone, seat: &mut Seat) -> Result<(), Unmade>
    requires { IsSeatOf zone.old seat.old }
    ensures zone { zone.new.tie ≡ zone.old.tie }
    ensures seat { seat.new.tie ≡ seat.old.tie }
{
    let block = zone.alloc_low(seat, Order::largest())?;
    zone.free(seat, block.page, block.order);
    expect(block.page.number() == 0)
}

/// Allocates a run of pages at a place, and the lowest run of as many, and frees each.
fn run_of_pages(zone: &mut Zone, seat: &mut Seat) -> Result<(), Unmade>
    requires { IsSeatOf zone.old seat.old }
    ensures zone { zone.new.tie ≡ zone.old.tie }
    ensures seat { seat.new.tie ≡ seat.old.tie }
{
    let taken = zone.alloc_run_at(seat, PageNo::new(FRONT + 3), RUN)?;
    zone.free_run(seat, taken, RUN);
    let lowest = zone.alloc_run(seat, RUN, 0, Mark::Any)?;
    zone.free_run(seat, lowest, RUN);
    expect(taken.number() == FRONT + 3 && lowest.number() == 0)
}

/// The pageblock of the front page is isolated and released, which makes it the front one again.
fn isolated(zone: &mut Zone, seat: &mut Seat) -> Result<(), Unmade>
    requires { IsSeatOf zone.old seat.old }
    ensures zone { zone.new.tie ≡ zone.old.tie }
    ensures seat { seat.new.tie ≡ seat.old.tie }
{
    zone.isolate(seat, FRONT_PAGEBLOCK)?;
    zone.release(seat, FRONT_PAGEBLOCK, MigrateType::Movable)?;
    Ok(())
}

/// A page goes from the one worker to the other, who gives it back.
fn passed(zone: &mut Zone, giver: &mut Seat, receiver: &mut Seat) -> Result<(), Unmade>
    requires giver { IsSeatOf zone.old giver.old }
    requires receiver { IsSeatOf zone.old receiver.old }
    ensures zone { zone.new.tie ≡ zone.old.tie }
    ensures giver { giver.new.tie ≡ giver.old.tie }
    ensures receiver { receiver.new.tie ≡ receiver.old.tie }
{
    let order = Order::zero();
    let page = zone.alloc(giver, order, MigrateType::Movable, Mark::Low)?;
    // Only the zone shows that the receiver is one of its workers.
    zone.check(receiver);
    zone.post(giver, page, order, receiver.worker());
    let block = zone.collect(receiver)?;
    zone.free(receiver, block.page, block.order);
    expect(page.number() == FRONT && block.page == page)
}

/// Allocates four pages at a time, and frees them so.
fn refilled(zone: &mut Zone, seat: &mut Seat) -> Result<(), Unmade>
    requires { IsSeatOf zone.old seat.old }
    ensures zone { zone.new.tie ≡ zone.old.tie }
    ensures seat { seat.new.tie ≡ seat.old.tie }
{
    let kind = MigrateType::Movable;
    let pages = zone.refill(seat, kind, Mark::Any, BATCH)?;
    zone.drain(seat, kind, pages.as_slice());
    let wanted = [FRONT, FRONT + 1, FRONT + 2, FRONT + 3].map(PageNo::new);
    expect(pages.as_slice() == wanted.as_slice())
}

/// How many pages of the front pageblock are free.
fn free_in_front(zone: &Zone) -> u32 {
    match zone.pageblock(FRONT_PAGEBLOCK) {
        Some(told) => told.free,
        None => 0,
    }
}

/// Whether the zone reports its front page.
fn has_front(zone: &Zone) -> bool {
    match zone.entry(PageNo::new(FRONT)) {
        Some(_) => true,
        None => false,
    }
}

/// Whether all that the zone reports is of a zone whose pages are all free.
fn is_whole(zone: &Zone) -> bool {
    let counts = zone.counts();
    counts.free == PAGES
        && counts.by_order[10] == 4
        && zone.posted_pages() == 0
        && has_front(zone)
        && free_in_front(zone) == 1024
}
