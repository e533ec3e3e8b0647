//! Four workers of one zone behind its lock, each with a reader of its counts.

ghost use Rattle.std.specs.Prelude.{◌≡◌, ◌∷◌, [], All};
ghost use Rattle.zp_shared.specs.Rows.{opened_board, opened_key};
ghost use Rattle.zp_zone.specs.Seats.{IsSeatOf, IsUnused};

use crate::errors::Broken;
use rand_core::Rng;
use rand_pcg::Pcg32;
use std::alloc::Global;
use std::sync::Wait;
use std::thread::{Threads, map_vec};
use uses::{ReaderAt, RowOfOne, RowReader, RowWorker, WorkerAt};
use zp_model::{ORDERS, Order};
use zp_share::Lent;
use zp_shared::{Closed, Keeps, Naming, OpenedZone, share_zones};
use zp_zone::Seat;

/// How many workers the zone has.
pub const WORKERS: u32 = 4;

/// How many blocks a worker has at most. All together are far fewer than the zone has, so that who comes first never shows.
const SLOTS: usize = 64;

/// The counts are read at each of so many requests.
const READ_EACH: u32 = 64;

/// A worker, its reader, and what its requests are drawn by.
#[derive(Drop)]
struct Member<J: Naming> {
    worker: RowWorker<J>,
    reader: RowReader<J>,
    seed: u64,
}

/// What a worker leaves.
#[derive(Clone, Copy, PartialEq, Eq, Debug, Drop)]
pub struct Stint {
    /// How many sections it made.
    pub sections: u64,
    /// How many pages it has still.
    pub lent_pages: u64,
    /// How many of its readings were of an earlier place than the one before, or of other free pages than those of the blocks.
    pub bad_readings: u64,
}

/// The zone as a row of one, with its workers.
#[derive(Drop)]
pub struct Crew<J: Naming, K: Keeps> {
    row: RowOfOne<J, K>,
    members: Vec<Member<J>>,
}

/// What is left of a crew.
#[derive(Drop)]
pub struct Left<K: Keeps> {
    pub closed: Closed<K>,
    pub stints: Vec<Stint>,
}

/// The opened zone as a row of one.
fn row_of<J: Naming, K: Keeps>(
    alloc: Global,
    opened: OpenedZone<K>,
) -> Result<RowOfOne<J, K>, Broken>
    requires named { J.zones ≡ opened_key opened ∷ [] }
    requires boards { J.boards ≡ opened_board opened ∷ [] }
{
    let mut zones = Vec::with_capacity(alloc, 1)?;
    zones.push_reserved(opened);
    Ok(RowOfOne::new(share_zones::<J, K>(alloc, zones)?))
}

/// The worker of a seat, and its reader.
fn member_of<J: Naming, K: Keeps>(
    alloc: Global,
    opened: &mut OpenedZone<K>,
    seat: Seat,
    seed: u64,
) -> Result<Member<J>, Broken>
    requires named { J.zones ≡ opened_key opened.old ∷ [] }
    requires boards { J.boards ≡ opened_board opened.old ∷ [] }
    requires fits { IsSeatOf opened.old.zone seat }
    requires unused { IsUnused seat }
    ensures { opened.new ≡ opened.old }
{
    let (own, other) = (opened.reader(), opened.reader());
    let Some(worker) = RowWorker::new(alloc, seat, own) else {
        return Err(Broken::Memory);
    };
    let Some(reader) = RowReader::new(alloc, other) else {
        return Err(Broken::Memory);
    };
    Ok(Member {
        worker,
        reader,
        seed,
    })
}

/// A worker for each of these seats of the opened zone.
fn members_of<J: Naming, K: Keeps>(
    alloc: Global,
    opened: &mut OpenedZone<K>,
    seats: Vec<Seat>,
    seed: u64,
) -> Result<Vec<Member<J>>, Broken>
    requires named { J.zones ≡ opened_key opened.old ∷ [] }
    requires boards { J.boards ≡ opened_board opened.old ∷ [] }
    requires fits { All (IsSeatOf opened.old.zone) seats.items }
    requires unused { All IsUnused seats.items }
    ensures { opened.new ≡ opened.old }
{
    let mut members = Vec::with_capacity(alloc, seats.len())?;
    for seat in seats {
        let member = member_of(alloc, opened, seat, seed)?;
        if members.push(member).is_err() {
            return Err(Broken::Memory);
        }
    }
    Ok(members)
}

/// The opened zone as a row of one, with a worker for each of these seats.
pub fn crew_of<J: Naming, K: Keeps>(
    alloc: Global,
    mut opened: OpenedZone<K>,
    seats: Vec<Seat>,
    seed: u64,
) -> Result<Crew<J, K>, Broken>
    requires named { J.zones ≡ opened_key opened ∷ [] }
    requires boards { J.boards ≡ opened_board opened ∷ [] }
    requires fits { All (IsSeatOf opened.zone) seats.items }
    requires unused { All IsUnused seats.items }
{
    let members = members_of(alloc, &mut opened, seats, seed)?;
    match row_of(alloc, opened) {
        Ok(row) => Ok(Crew { row, members }),
        Err(e) => Err(e),
    }
}

/// The block of a slot is given back, or one is taken where it has none: one section.
fn ask<J: Naming, R: Wait, K: Keeps>(
    worker: &mut WorkerAt<'_, J, R, K>,
    slot: &mut Option<Lent>,
    order: Order,
) {
    match *slot {
        Some(lent) => {
            if worker.give(&lent).is_ok() {
                *slot = None;
            }
        }
        None => *slot = worker.take(order).ok(),
    }
}

/// An order by a drawn word: each is half as frequent as the one below it.
fn order_of(word: u32) -> Order {
    let number = (word | 1 << 10).trailing_zeros();
    Order::new(number as u8).unwrap_or(Order::zero())
}

/// How many pages the blocks have.
fn pages_of(slots: &[Option<Lent>; SLOTS]) -> u64 {
    let mut pages = 0_u64;
    for slot in slots {
        if let Some(lent) = slot {
            pages = pages.saturating_add(u64::from(lent.order.pages()));
        }
    }
    pages
}

/// What a reader has seen.
#[derive(Clone, Copy, PartialEq, Eq, Debug, Drop)]
struct Seen {
    place: u64,
    bad: u64,
}

/// Reads the counts.
fn read<J: Naming, R, K: Keeps>(reader: &mut ReaderAt<'_, J, R, K>, seen: Seen) -> Seen {
    let reading = reader.read();
    let mut pages = 0_u64;
    for order in 0..ORDERS {
        pages = pages.saturating_add(u64::from(reading.counts.by_order[order]) << order);
    }
    let is_good = reading.place >= seen.place && pages == u64::from(reading.counts.free);
    Seen {
        place: reading.place,
        bad: seen.bad.saturating_add(u64::from(!is_good)),
    }
}

/// One worker makes so many requests, and keeps what it then has.
fn work<J: Naming, R: Wait, K: Keeps>(
    rt: &R,
    member: Member<J>,
    row: &RowOfOne<J, K>,
    requests: u32,
) -> Stint {
    let Member {
        worker,
        reader,
        seed,
    } = member;
    let (mut worker, mut reader) = (worker.at(rt, row), reader.at(rt, row));
    let mut random = Pcg32::new(seed, u64::from(worker.number()));
    let mut slots = [None; SLOTS];
    let mut seen = Seen { place: 0, bad: 0 };
    for request in 0..requests {
        let slot = random.next_u32() as usize % SLOTS;
        let order = order_of(random.next_u32());
        ask(&mut worker, &mut slots[slot], order);
        if request % READ_EACH == 0 {
            seen = read(&mut reader, seen);
        }
    }
    Stint {
        sections: worker.sections(),
        lent_pages: pages_of(&slots),
        bad_readings: seen.bad,
    }
}

/// All workers make so many requests each, at the same time, and the zone is closed.
pub fn work_all<J: Naming + Send + Sync, K: Keeps + Send + Sync, R: Threads + Wait + Sync>(
    rt: &R,
    crew: Crew<J, K>,
    requests: u32,
) -> Result<Left<K>, Broken> {
    let Crew { row, members } = crew;
    let done = map_vec(rt, members, &|member| work(rt, member, &row, requests));
    let Ok(stints) = done else {
        return Err(Broken::Memory);
    };
    let Some(zone) = row.into_zone() else {
        return Err(Broken::Memory);
    };
    Ok(Left {
        closed: zone.close(&mut []),
        stints,
    })
}
