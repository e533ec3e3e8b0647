//! Workers, each in a thread of its own, over one zone that goes on without end: nothing is kept of what is asked of it.

use std::sync::Wait;
use std::thread::{Threads, map_vec};
use zp_model::Order;
use zp_shared::{Naming, NoJournal, OneZone, ZoneWorker};

/// What the workers leave.
#[derive(Clone, Copy, PartialEq, Eq, Debug, Drop)]
pub struct EndlessRun {
    /// How many sections they made.
    pub sections: u64,
    /// How many pages are free when all have ended.
    pub free_pages: u32,
}

/// One worker allocates a page and frees it, so many times: how many sections it made.
fn rounds<J: Naming, R: Wait>(
    rt: &R,
    worker: ZoneWorker<J>,
    zone: &OneZone<J, NoJournal>,
    rounds: u32,
) -> u64 {
    let mut worker = worker.at(rt, zone);
    for _ in 0..rounds {
        let Ok(lent) = worker.take(Order::zero()) else {
            break;
        };
        // From here to the `give` the page is this worker's.
        if worker.give(&lent).is_err() {
            break;
        }
    }
    worker.sections()
}

/// The workers take a page and give it back, so many times, all at the same time. None where there is no memory.
pub fn work_without_end<J: Naming + Send + Sync, R: Threads + Wait + Sync>(
    rt: &R,
    zone: OneZone<J, NoJournal>,
    workers: Vec<ZoneWorker<J>>,
    many: u32,
) -> Option<EndlessRun> {
    let made = map_vec(rt, workers, &|worker| rounds(rt, worker, &zone, many)).ok()?;
    let sections = made
        .iter()
        .fold(0_u64, |sum, made| sum.saturating_add(*made));
    let closed = zone.into_zone()?.close(&mut []);
    Some(EndlessRun {
        sections,
        free_pages: closed.zone.counts().free,
    })
}
