//! How long the dearest requests that are known take, each call by itself.

use crate::clock::timed;
use crate::grounds::{Ground, PAGES};
use crate::shapes::{
    Draining, Giving, Isolating, Nothing, RUN_WISHES, Refilling, RunTaking, RunWish, Shape, Taking,
    WISHES, list_end, run_wishes, wishes,
};
use crate::steps::{Steps, begun};
use crate::times::Times;
use std::alloc::Global;
use std::rt::Clock;
use zp_loads::Unmade;
use zp_progress::{Progress, Task};

/// The calls of each request.
const CALLS: u32 = 10_000;

/// The calls of a request whose ground is laid anew before each one.
const CALLS_ANEW: u32 = 1000;

/// The calls of a search for a run.
const SEARCHES: u32 = 1000;

/// The calls whose results are summed.
const CALLS_SUMMED: u32 = 10;

/// The pages of zones in which a claim walks a longer list, and a search for a run passes more pages, and the calls.
const WIDE: [(u32, u32); 2] = [(1 << 20, 100), (1 << 24, 10)];

const GIVING: &str = "ten joins";

const REFILLING: &str = "refill of 31 borrowed pages";

const DRAINING: &str = "drain of 64 pages, ten joins each";

/// The pageblocks that are isolated and released, by their grounds.
const ISOLATING: [(&str, Ground); 2] = [
    ("isolate and release a pageblock", Ground::Whole),
    ("the same of 512 single pages", Ground::HalfPageblock),
];

/// The requests: the clock alone, wishes, long lists, what is freed, refilled and drained, what is isolated, and searches.
const REQUESTS: usize = 4 + WISHES + WIDE.len() + ISOLATING.len() + RUN_WISHES * (1 + WIDE.len());

/// What a terminal shows of a table that takes long.
const TASK: Task<'static> = Task {
    name: "zonebench worst",
    unit: "requests",
};

/// The times of so many calls.
fn times_of(
    rt: &impl Clock,
    alloc: Global,
    shape: &mut impl Shape,
    calls: u32,
) -> anyhow::Result<Times> {
    let mut times = Times::new(alloc, calls)?;
    for _ in 0..calls {
        let ((), time) = timed(rt, || shape.ask())?;
        times.add(time)?;
        shape.restore()?;
    }
    Ok(times)
}

/// Prints a line of the table, where there is memory for the request's zone.
fn print_times<S: Shape>(
    rt: &(impl Print + Clock),
    alloc: Global,
    steps: &mut Steps<impl Progress + Drop>,
    name: &str,
    made: Result<S, Unmade>,
    calls: u32,
) -> anyhow::Result<()> {
    match made {
        Ok(mut shape) => print_times_of(rt, alloc, steps, name, &mut shape, calls),
        Err(unmade) => Err(unmade.into()),
    }
}

/// Prints a line of the table.
fn print_times_of(
    rt: &(impl Print + Clock),
    alloc: Global,
    steps: &mut Steps<impl Progress + Drop>,
    name: &str,
    shape: &mut impl Shape,
    calls: u32,
) -> anyhow::Result<()> {
    let mut times = times_of(rt, alloc, shape, calls)?;
    steps.clear();
    if let Some(spread) = times.spread() {
        println!(rt; "{name:<36}{:>10}{:>14}", spread.median, spread.high)?;
    }
    steps.step();
    Ok(())
}

/// Prints the lines of the blocks that are wished for.
fn print_wishes(
    rt: &(impl Print + Clock),
    alloc: Global,
    steps: &mut Steps<impl Progress + Drop>,
) -> anyhow::Result<()> {
    for (name, wish) in wishes() {
        let calls = if wish.ground.is_laid_anew() {
            CALLS_ANEW
        } else {
            CALLS
        };
        let made = Taking::new(alloc, PAGES, wish);
        print_times(rt, alloc, steps, name, made, calls)?;
    }
    Ok(())
}

/// Prints the lines of the claim at the end of a list, in wide zones.
fn print_long_lists(
    rt: &(impl Print + Clock),
    alloc: Global,
    steps: &mut Steps<impl Progress + Drop>,
) -> anyhow::Result<()> {
    for (pages, calls) in WIDE {
        let name = format!(in alloc; "the same of {pages} pages")?;
        let made = Taking::new(alloc, pages, list_end());
        print_times(rt, alloc, steps, name.as_str(), made, calls)?;
    }
    Ok(())
}

/// Prints the lines of pageblocks that are isolated and released.
fn print_isolating(
    rt: &(impl Print + Clock),
    alloc: Global,
    steps: &mut Steps<impl Progress + Drop>,
) -> anyhow::Result<()> {
    for (name, ground) in ISOLATING {
        let made = Isolating::new(alloc, ground);
        print_times(rt, alloc, steps, name, made, CALLS)?;
    }
    Ok(())
}

/// Prints the lines of a search for a run, in wide zones too.
fn print_search(
    rt: &(impl Print + Clock),
    alloc: Global,
    steps: &mut Steps<impl Progress + Drop>,
    name: &str,
    wish: RunWish,
) -> anyhow::Result<()> {
    let made = RunTaking::new(alloc, PAGES, wish);
    print_times(rt, alloc, steps, name, made, SEARCHES)?;
    for (pages, calls) in WIDE {
        let name = format!(in alloc; "the same in a zone of {pages}")?;
        let made = RunTaking::new(alloc, pages, wish);
        print_times(rt, alloc, steps, name.as_str(), made, calls)?;
    }
    Ok(())
}

/// Prints the lines of all searches for runs.
fn print_searches(
    rt: &(impl Print + Clock),
    alloc: Global,
    steps: &mut Steps<impl Progress + Drop>,
) -> anyhow::Result<()> {
    for (name, wish) in run_wishes() {
        print_search(rt, alloc, steps, name, wish)?;
    }
    Ok(())
}

/// Prints the table: of each request the median and the 99.9th percentile, the time of the clock with them.
pub fn print_all(
    rt: &(impl Print + Eprint + Clock),
    alloc: Global,
    is_watched: bool,
) -> anyhow::Result<()> {
    let mut steps = begun(rt, TASK, REQUESTS, is_watched);
    println!(rt;
        "{:<36}{:>10}{:>14}",
        "nanoseconds of one call", "median", "99.9 per cent"
    )?;
    print_times_of(
        rt,
        alloc,
        &mut steps,
        "the clock alone",
        &mut Nothing,
        CALLS,
    )?;
    print_wishes(rt, alloc, &mut steps)?;
    print_long_lists(rt, alloc, &mut steps)?;
    print_times(rt, alloc, &mut steps, GIVING, Giving::new(alloc), CALLS)?;
    let refilling = Refilling::new(alloc);
    print_times(rt, alloc, &mut steps, REFILLING, refilling, CALLS)?;
    print_isolating(rt, alloc, &mut steps)?;
    print_times(rt, alloc, &mut steps, DRAINING, Draining::new(alloc), CALLS)?;
    print_searches(rt, alloc, &mut steps)
}

/// Prints the checksum of the results of a few calls, where there is memory for the request's zone.
fn print_sum<S: Shape>(rt: &impl Print, name: &str, made: Result<S, Unmade>) -> anyhow::Result<()> {
    match made {
        Ok(mut shape) => print_sum_of(rt, name, &mut shape),
        Err(unmade) => Err(unmade.into()),
    }
}

/// Prints the checksum of the results of a few calls.
fn print_sum_of(rt: &impl Print, name: &str, shape: &mut impl Shape) -> anyhow::Result<()> {
    for _ in 0..CALLS_SUMMED {
        shape.ask();
        shape.restore()?;
    }
    println!(rt;
        "worst {name} {PAGES} {CALLS_SUMMED} {:016x}",
        shape.checksum()
    )?;
    Ok(())
}

/// Prints the checksums of all requests: the request, the pages of the zone, the calls, and the checksum of the results.
pub fn print_sums(rt: &impl Print, alloc: Global) -> anyhow::Result<()> {
    for (name, wish) in wishes() {
        print_sum(rt, name, Taking::new(alloc, PAGES, wish))?;
    }
    print_sum(rt, GIVING, Giving::new(alloc))?;
    print_sum(rt, REFILLING, Refilling::new(alloc))?;
    for (name, ground) in ISOLATING {
        print_sum(rt, name, Isolating::new(alloc, ground))?;
    }
    print_sum(rt, DRAINING, Draining::new(alloc))
}
