//! Counts read off the board of a zone that goes on without end, while its sections are made.

ghost use Rattle.std.specs.Prelude.{◌≡◌, ◌∷◌, [], All, IfOk};
ghost use Rattle.zp_shared.specs.Rows.{opened_board, opened_key};
ghost use Rattle.zp_zone.specs.Seats.{IsSeatOf, IsUnused};

use crate::clock::timed;
use crate::threads::work_until;
use std::alloc::Global;
use std::marker::Brand;
use std::rt::Clock;
use std::sync::Wait;
use std::sync::atomic::{AtomicBool, Ordering};
use std::thread::{Threads, join};
use std::time::Duration;
use zp_loads::{Unmade, config};
use zp_model::Order;
use zp_share::ListConfig;
use zp_shared::{Keeps, Naming, NoJournal, OneZone, OpenedZone, ZoneCrew, ZoneReader};
use zp_zone::{Seat, Zone};

/// How many times the counts were read, how many sections were made meanwhile, and the time of both.
#[derive(Clone, Copy, Drop)]
pub struct TimedReads {
    pub reads: u64,
    pub sections: u64,
    pub time: Duration,
}

/// Reads the counts of the zone so often: how many readings were not the one before. Then it is over.
fn read_to_the_end<J: Naming, R, K: Keeps>(
    rt: &R,
    reader: ZoneReader<J>,
    zone: &OneZone<J, K>,
    reads: u32,
    is_over: &AtomicBool,
) -> u64 {
    let mut reader = reader.at(rt, zone);
    let mut changed = 0_u64;
    let mut last = reader.read();
    for _ in 0..reads {
        let reading = reader.read();
        if reading != last {
            changed = changed.saturating_add(1);
        }
        last = reading;
    }
    is_over.store(true, Ordering::SeqCst);
    changed
}

/// The last worker of the crew makes pairs, while this thread reads so often. Where no thread can be made, no section is made.
fn time_crew<J: Naming + Send + Sync, R: Threads + Wait + Clock + Sync>(
    rt: &R,
    crew: ZoneCrew<J, NoJournal>,
    order: Order,
    reads: u32,
) -> anyhow::Result<TimedReads> {
    let ZoneCrew {
        zone,
        mut workers,
        reader,
    } = crew;
    let Some(worker) = workers.pop() else {
        return Err(Unmade::Other.into());
    };
    let (zone, is_over) = (&zone, &AtomicBool::new(false));
    let ((sum, changed), time) = timed(
        rt,
        || join(
            rt,
            move || work_until(rt, worker, zone, order, is_over),
            move || read_to_the_end(rt, reader, zone, reads, is_over),
        ),
    )?;
    if changed > sum.calls {
        anyhow::bail!("zonebench: counts changed more often than sections were made")
    }
    Ok(TimedReads {
        reads: u64::from(reads),
        sections: sum.calls,
        time,
    })
}

/// The crew of these seats, timed so.
fn time_as<J: Naming + Send + Sync, R: Threads + Wait + Clock + Sync>(
    rt: &R,
    alloc: Global,
    opened: OpenedZone<NoJournal>,
    seats: Vec<Seat>,
    order: Order,
    reads: u32,
) -> anyhow::Result<TimedReads>
    requires named { J.zones ≡ opened_key opened ∷ [] }
    requires boards { J.boards ≡ opened_board opened ∷ [] }
    requires fits { All (IsSeatOf opened.zone) seats.items }
    requires unused { All IsUnused seats.items }
{
    match ZoneCrew::<J, NoJournal>::new(alloc, opened, seats, ListConfig::none()) {
        Ok(crew) => time_crew(rt, crew, order, reads),
        Err(refused) => Err(Unmade::from(refused).into()),
    }
}

/// The time of so many reads of the counts of a zone of so many pages, while another thread takes blocks of this order and gives them
/// back.
pub fn time<R: Threads + Wait + Clock + Sync>(
    rt: &R,
    alloc: Global,
    pages: u32,
    order: Order,
    reads: u32,
) -> anyhow::Result<TimedReads> {
    match opened(alloc, pages) {
        Ok((opened, seats)) => time_as::<Brand, R>(rt, alloc, opened, seats, order, reads),
        Err(unmade) => Err(unmade.into()),
    }
}

/// A zone of so many pages that is opened for threads and keeps nothing, and the seat of its worker.
fn opened(alloc: Global, pages: u32) -> Result<(OpenedZone<NoJournal>, Vec<Seat>), Unmade>
    ensures fits { IfOk result (λ o. All (IsSeatOf o.0.zone) o.1.items) }
    ensures unused { IfOk result (λ o. All IsUnused o.1.items) }
{
    let (zone, seats) = Zone::new(alloc, config(pages), 1)?;
    Ok((OpenedZone::without_journal(alloc, zone, u64::MAX)?, seats))
}
