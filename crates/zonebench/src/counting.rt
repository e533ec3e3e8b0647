//! One workload alone, so that its instructions can be counted.

ghost use Rattle.std.specs.Prelude.{◌≤◌, IfOk};

use crate::check::{Sum, sum_of};
use crate::locked::{self, Kept};
use crate::runs::RunLoad;
use crate::shapes::{RunTaking, RunWish, Shape};
use crate::threads::{Pairs, PairsPlan};
use crate::workload::Workload;
use std::alloc::Global;
use std::rt::Clock;
use std::sync::Wait;
use std::thread::Threads;
use zp_loads::{Cached, PastLists, SeatSource, Unmade};
use zp_model::MAX_PAGES;

/// How instructions are counted, where the processor's own counters are not to be had.
pub const HOW_TO_COUNT: &str =
    "instructions a call: run `valgrind --tool=callgrind zonebench count WORKLOAD PAGES CALLS` with two numbers of calls, \
and divide the difference in instructions by that in calls";

/// The names of workloads, as a message has them.
const NAMES: &str =
    "pairs-0, pairs-4, pairs-9, pairs-10, runs, churn, press, burst, scattered and claims, and each with cached- or past-lists- before it, \
or with largest-9-, largest-4- or largest-1- for a zone of that largest order, and pairs with locked- before them for a zone behind its \
lock with a whole journal, locked-none- for one with no journal, or locked-pieces- for one with a journal that is cut; \
alloc-run-37, alloc-run-1000, alloc-run-at-37 and alloc-run-at-1000 for runs of so many pages, allocated and freed; \
and search-2 and search-2047 for runs that are not there";

/// The way on which the blocks of a workload come and go.
#[derive(Clone, Copy, PartialEq, Eq, Debug, Drop)]
pub enum Way {
    Seated,
    Cached,
    PastLists,
    Largest9,
    Largest4,
    Largest1,
}

impl Way {
    /// The way that a name begins with, and the name of the workload that is left.
    fn split(name: &str) -> (Way, &str) {
        if let Some(rest) = name.strip_prefix("cached-") {
            (Way::Cached, rest)
        } else if let Some(rest) = name.strip_prefix("past-lists-") {
            (Way::PastLists, rest)
        } else if let Some(rest) = name.strip_prefix("largest-9-") {
            (Way::Largest9, rest)
        } else if let Some(rest) = name.strip_prefix("largest-4-") {
            (Way::Largest4, rest)
        } else if let Some(rest) = name.strip_prefix("largest-1-") {
            (Way::Largest1, rest)
        } else {
            (Way::Seated, name)
        }
    }

    /// About so many calls of a workload on this way.
    fn sum(self, alloc: Global, workload: &Workload, pages: u32, calls: u32) -> Result<Sum, Unmade>
        requires { 1 ≤ pages }
    {
        let ops = workload.ops(pages, calls);
        match self {
            Way::Seated => sum_of::<SeatSource<10>>(alloc, workload, pages, ops),
            Way::Cached => sum_of::<Cached>(alloc, workload, pages, ops),
            Way::PastLists => sum_of::<PastLists>(alloc, workload, pages, ops),
            Way::Largest9 => sum_of::<SeatSource<9>>(alloc, workload, pages, ops),
            Way::Largest4 => sum_of::<SeatSource<4>>(alloc, workload, pages, ops),
            Way::Largest1 => sum_of::<SeatSource<1>>(alloc, workload, pages, ops),
        }
    }
}

/// The workload of this name.
fn wanted(name: &str) -> anyhow::Result<Workload> {
    match Workload::named(name) {
        Some(workload) => Ok(workload),
        None => anyhow::bail!("zonebench: there is no workload {name}; there are {NAMES}"),
    }
}

/// The numbers of pages and of calls.
fn numbers(pages: &str, calls: &str) -> anyhow::Result<(u32, u32)>
    ensures { IfOk result (λ n. 1 ≤ n.0) }
{
    let (Ok(pages), Ok(calls)) = (pages.parse::<u32>(), calls.parse::<u32>()) else {
        anyhow::bail!("zonebench: PAGES and CALLS are numbers")
    };
    if pages == 0 || pages > MAX_PAGES {
        anyhow::bail!("zonebench: PAGES is 1 to {MAX_PAGES}")
    }
    Ok((pages, calls))
}

/// What a zone behind its lock keeps, and the name of the workload that is left, where a name begins so.
fn split_locked(name: &str) -> Option<(Kept, &str)> {
    if let Some(rest) = name.strip_prefix("locked-none-") {
        Some((Kept::Nothing, rest))
    } else if let Some(rest) = name.strip_prefix("locked-pieces-") {
        Some((Kept::Pieces, rest))
    } else if let Some(rest) = name.strip_prefix("locked-") {
        Some((Kept::Whole, rest))
    } else {
        None
    }
}

/// Makes so many sections of pairs on a zone behind its lock that keeps this.
fn locked_sum<R: Clock + Threads + Wait + Sync>(
    rt: &R,
    alloc: Global,
    kept: Kept,
    workload: &Workload,
    pages: u32,
    calls: u32,
) -> anyhow::Result<Sum> {
    let Workload::Pairs(order) = workload else {
        anyhow::bail!("zonebench: of a zone behind its lock there are pairs alone")
    };
    if let Some(room) = kept.room()
        && calls > room
    {
        anyhow::bail!(
            "zonebench: a zone with a {} has room for {room} calls",
            kept.name()
        )
    }
    let plan = PairsPlan {
        workers: 1,
        pairs: Pairs::PastLists(*order),
        each: calls / 2,
    };
    match locked::time(rt, alloc, pages, kept, plan)?.sums.pop() {
        Some(sum) => Ok(sum),
        None => Err(Unmade::AllocError.into()),
    }
}

/// Searches so many times for a run that is not there.
fn search_sum(alloc: Global, wish: RunWish, pages: u32, calls: u32) -> Result<Sum, Unmade> {
    let mut taking = RunTaking::new(alloc, pages, wish)?;
    for _ in 0..calls {
        taking.ask();
    }
    Ok(Sum {
        calls: u64::from(calls),
        checksum: taking.checksum(),
    })
}

/// Makes about so many calls of the workload of this name in a zone of so many pages, and prints how many they were, and the
/// checksum of the results.
pub fn print_count<R: Print + Clock + Threads + Wait + Sync>(
    rt: &R,
    alloc: Global,
    name: &str,
    pages: &str,
    calls: &str,
) -> anyhow::Result<()> {
    let (pages, calls) = numbers(pages, calls)?;
    let sum = if let Some((kept, rest)) = split_locked(name) {
        locked_sum(rt, alloc, kept, &wanted(rest)?, pages, calls)?
    } else if let Some(load) = RunLoad::named(name) {
        load.sum(alloc, pages, calls)?
    } else if let Some(wish) = RunWish::named(name) {
        search_sum(alloc, wish, pages, calls)?
    } else {
        let (way, rest) = Way::split(name);
        way.sum(alloc, &wanted(rest)?, pages, calls)?
    };
    println!(rt; "{name} {pages} {} {:016x}", sum.calls, sum.checksum)?;
    Ok(())
}
