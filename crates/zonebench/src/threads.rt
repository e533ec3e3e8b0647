//! Workers at the same time over one zone behind its lock, whatever the zone keeps.

ghost use Rattle.std.specs.Prelude.{◌≡◌, ◌∷◌, [], All};
ghost use Rattle.zp_shared.specs.Rows.{opened_board, opened_key};
ghost use Rattle.zp_zone.specs.Seats.{IsSeatOf, IsUnused};

use crate::check::Sum;
use crate::clock::timed;
use std::alloc::Global;
use std::rt::Clock;
use std::sync::Wait;
use std::sync::atomic::{AtomicBool, Ordering};
use std::thread::{Threads, map_vec};
use std::time::Duration;
use zp_loads::{Checksum, Unmade, longest_lists};
use zp_model::{Mark, MigrateType, Order};
use zp_share::ListConfig;
use zp_shared::{Keeps, Naming, OneZone, OpenedZone, WorkerAt, ZoneCrew, ZoneWorker};
use zp_zone::Seat;

/// What a worker allocates and frees, again and again.
#[derive(Clone, Copy, PartialEq, Eq, Debug, Drop)]
pub enum Pairs {
    /// A page, by its lists, which are the longest ones.
    Cached,
    /// A block of this order, by a worker with no lists: two sections.
    PastLists(Order),
}

/// What so many workers of a zone do, all at the same time: so many pairs each.
#[derive(Clone, Copy, PartialEq, Eq, Debug, Drop)]
pub struct PairsPlan {
    pub workers: u32,
    pub pairs: Pairs,
    pub each: u32,
}

impl PairsPlan {
    /// What one of the workers does.
    pub fn stint(&self) -> Result<PairsStint, Unmade> {
        let (lists, order) = match self.pairs {
            Pairs::Cached => (longest_lists()?, Order::zero()),
            Pairs::PastLists(order) => (ListConfig::none(), order),
        };
        Ok(PairsStint {
            lists,
            order,
            each: self.each,
        })
    }
}

/// What a worker has and does: the settings of its lists, the order of its blocks, and how many pairs it makes.
#[derive(Clone, Copy, Drop)]
pub struct PairsStint {
    lists: ListConfig,
    order: Order,
    each: u32,
}

/// Allocates a Movable block and frees it; its page counts into the checksum.
fn pair<J: Naming, R: Wait, K: Keeps>(
    worker: &mut WorkerAt<'_, J, R, K>,
    order: Order,
    checksum: &mut Checksum,
) {
    match worker.alloc(order, MigrateType::Movable, Mark::Any) {
        Ok(lent) => {
            checksum.add_page(&Some(lent.page));
            let _ = worker.give(&lent);
        }
        Err(_) => checksum.add_page(&None),
    }
}

/// A worker makes its pairs. Returns how many sections they were, and the checksum of the pages.
fn work<J: Naming, R: Wait, K: Keeps>(
    rt: &R,
    worker: ZoneWorker<J>,
    zone: &OneZone<J, K>,
    stint: &PairsStint,
) -> Sum {
    let mut worker = worker.at(rt, zone);
    let mut checksum = Checksum::new();
    for _ in 0..stint.each {
        pair(&mut worker, stint.order, &mut checksum);
    }
    Sum {
        calls: worker.sections(),
        checksum: checksum.value(),
    }
}

/// The same until another thread says that it is over.
pub fn work_until<J: Naming, R: Wait, K: Keeps>(
    rt: &R,
    worker: ZoneWorker<J>,
    zone: &OneZone<J, K>,
    order: Order,
    is_over: &AtomicBool,
) -> Sum {
    let mut worker = worker.at(rt, zone);
    let mut checksum = Checksum::new();
    for _ in 0..u32::MAX {
        if is_over.load(Ordering::SeqCst) {
            break;
        }
        pair(&mut worker, order, &mut checksum);
    }
    Sum {
        calls: worker.sections(),
        checksum: checksum.value(),
    }
}

/// The sums of workers at the same time, and the time from the first worker's start to the last one's end.
#[derive(Drop)]
pub struct TimedWork {
    pub sums: Vec<Sum>,
    pub time: Duration,
}

impl TimedWork {
    /// How many sections were made in all.
    pub fn sections(&self) -> u64 {
        self.sums
            .iter()
            .fold(0_u64, |sections, sum| sections.saturating_add(sum.calls))
    }
}

/// The crew works, and is timed. All begin together; where no thread can be made, a worker waits for its turn in this one.
fn time_crew<J: Naming + Send + Sync, R: Threads + Wait + Clock + Sync, K: Keeps + Send>(
    rt: &R,
    crew: ZoneCrew<J, K>,
    stint: &PairsStint,
) -> anyhow::Result<TimedWork> {
    let ZoneCrew { zone, workers, .. } = crew;
    let (sums, time) = timed(
        rt,
        || map_vec(rt, workers, &|worker| work(rt, worker, &zone, stint)),
    )?;
    Ok(TimedWork { sums: sums?, time })
}

/// The workers of these seats make their pairs.
pub fn time_as<J: Naming + Send + Sync, R: Threads + Wait + Clock + Sync, K: Keeps + Send>(
    rt: &R,
    alloc: Global,
    opened: OpenedZone<K>,
    seats: Vec<Seat>,
    stint: &PairsStint,
) -> anyhow::Result<TimedWork>
    requires named { J.zones ≡ opened_key opened ∷ [] }
    requires boards { J.boards ≡ opened_board opened ∷ [] }
    requires fits { All (IsSeatOf opened.zone) seats.items }
    requires unused { All IsUnused seats.items }
{
    match ZoneCrew::<J, K>::new(alloc, opened, seats, stint.lists) {
        Ok(crew) => time_crew(rt, crew, stint),
        Err(refused) => Err(Unmade::from(refused).into()),
    }
}
