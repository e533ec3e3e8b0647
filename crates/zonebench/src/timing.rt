//! The time of each workload.

ghost use Rattle.std.specs.Prelude.{◌<◌};

use crate::board::BoardBench;
use crate::clock::timed;
use crate::counting::HOW_TO_COUNT;
use crate::locked::{self, KEPT, Kept, SECTIONS};
use crate::reading;
use crate::steps::{Steps, begun};
use crate::threads::{Pairs, PairsPlan};
use crate::workload::{SIZES, Workload};
use std::alloc::Global;
use std::rt::Clock;
use std::sync::Wait;
use std::thread::Threads;
use std::time::Duration;
use zp_loads::{Cached, DrawnLoad, LoadSource, PastLists, SeatSource, Unmade};
use zp_model::Order;
use zp_progress::{Progress, Task};

/// The calls that are timed, about.
pub const CALLS: u32 = 2_000_000;

/// The samples of sections on a locked zone, each with a zone of its own.
const SAMPLES: u32 = 8;

/// The pages of the zone that workers in threads share.
const SHARED_PAGES: u32 = SIZES[1];

/// The pairs by a seat, and their orders.
const SEATED_PAIRS: [(&str, u8); 4] = [
    ("pairs of order 0", 0),
    ("pairs of order 4", 4),
    ("pairs of order 9", 9),
    ("pairs of order 10", 10),
];

/// Those in zones of other largest orders.
const SMALL_PAIRS: [(&str, u8); 1] = [("pairs of order 0", 0)];

/// Those by a worker's lists.
const CACHED_PAIRS: [(&str, u8); 1] = [("hot pair of order 0", 0)];

/// Those past them.
const PAIRS_PAST_LISTS: [(&str, u8); 2] = [("pairs of order 0", 0), ("pairs of order 10", 10)];

/// What keeps more than one block lent, and the calls at each size of a zone.
const MIXED: [(&str, Workload, [u32; 3]); 4] = [
    ("runs of 64 pages", Workload::Runs, [CALLS; 3]),
    ("churn of all orders", Workload::Churn, [CALLS; 3]),
    ("press at nine tenths", Workload::Press, [CALLS; 3]),
    ("bursts of all pages", Workload::Burst, [1000, 250, 16]),
];

/// The lines of the table with a time for each size of a zone: those of pairs and what is mixed, scattered pages, claims, and two of
/// sections for each choice of what a locked zone keeps.
const LINES: usize = SEATED_PAIRS.len()
    + 2 * SMALL_PAIRS.len()
    + CACHED_PAIRS.len()
    + PAIRS_PAST_LISTS.len()
    + 4 * MIXED.len()
    + 2
    + 2 * KEPT.len();

/// The times that are taken. Beneath the table are two of crews for each choice of what a zone keeps, two of cached pairs, four of boards and
/// two of readings.
const MEASUREMENTS: usize = SIZES.len() * LINES + 2 * KEPT.len() + 8;

/// What a terminal shows of a table that takes long.
const TASK: Task<'static> = Task {
    name: "zonebench",
    unit: "measurements",
};

/// Tenths of a nanosecond that a call of a workload takes in a zone of so many pages.
pub fn tenths_a_call<S: LoadSource>(
    rt: &impl Clock,
    alloc: Global,
    workload: &Workload,
    pages: u32,
    ops: u32,
) -> anyhow::Result<u128> {
    let mut bench = DrawnLoad::<S>::new(alloc, pages)?;
    workload.prepare(&mut bench)?;
    tenths_of_run(rt, &mut bench, workload, ops)
}

/// Tenths of a nanosecond that a call of a workload takes where the zone is prepared for it.
fn tenths_of_run<S: LoadSource>(
    rt: &impl Clock,
    bench: &mut DrawnLoad<S>,
    workload: &Workload,
    ops: u32,
) -> anyhow::Result<u128> {
    let (calls, time) = timed(rt, || workload.run(bench, ops))?;
    Ok(tenths_each(time, calls?))
}

/// Tenths of a nanosecond for each of so many calls.
fn tenths_each(time: Duration, calls: u64) -> u128 {
    time.as_nanos().saturating_mul(10) / u128::from(calls.max(1))
}

/// Prints a line of a table, when all its times are known: in tenths of a nanosecond.
pub fn print_line(
    rt: &impl Print,
    steps: &mut Steps<impl Progress + Drop>,
    name: &str,
    tenths: &[u128],
) -> anyhow::Result<()> {
    steps.clear();
    print!(rt; "{name:<40}")?;
    for tenths in tenths {
        print!(rt; "{:>10}.{}", tenths / 10, tenths % 10)?;
    }
    println!(rt;)?;
    Ok(())
}

/// Prints a line between those of a table.
fn print_heading(
    rt: &impl Print,
    steps: &mut Steps<impl Progress + Drop>,
    heading: &str,
) -> anyhow::Result<()> {
    steps.clear();
    println!(rt; "{heading}")?;
    Ok(())
}

/// Each size of a zone, with so many calls at it.
fn with_sizes(ops: [u32; 3]) -> [(u32, u32); 3] {
    let [few, more, most] = SIZES;
    [(few, ops[0]), (more, ops[1]), (most, ops[2])]
}

/// Prints a line of the table: the time of a workload at each size.
fn print_times<S: LoadSource>(
    rt: &(impl Print + Clock),
    alloc: Global,
    steps: &mut Steps<impl Progress + Drop>,
    name: &str,
    workload: &Workload,
    ops: [u32; 3],
) -> anyhow::Result<()> {
    let line = steps.at_each(with_sizes(ops), |(pages, ops)| {
        tenths_a_call::<S>(rt, alloc, workload, pages, ops)
    })?;
    print_line(rt, steps, name, &line)
}

/// Tenths of a nanosecond that a section takes on a locked zone of so many pages that keeps this: the least of several samples.
fn tenths_a_section<R: Clock + Threads + Wait + Sync>(
    rt: &R,
    alloc: Global,
    pages: u32,
    kept: Kept,
    plan: &PairsPlan,
) -> anyhow::Result<u128> {
    let mut least = u128::MAX;
    for _ in 0..SAMPLES {
        let timed = locked::time(rt, alloc, pages, kept, *plan)?;
        least = least.min(tenths_each(timed.time, timed.sections()));
    }
    Ok(least)
}

/// As many pairs past the lists as there is room for in a journal, by so many workers together.
fn pairs_of(workers: u32, order: Order) -> PairsPlan
    requires { 0 < workers }
{
    PairsPlan {
        workers,
        pairs: Pairs::PastLists(order),
        each: SECTIONS / 2 / workers,
    }
}

/// Prints a line of the table: the time of a section on a locked zone that keeps this, at each size.
fn print_section_times<R: Print + Clock + Threads + Wait + Sync>(
    rt: &R,
    alloc: Global,
    steps: &mut Steps<impl Progress + Drop>,
    name: &str,
    kept: Kept,
    order: Order,
) -> anyhow::Result<()> {
    let plan = pairs_of(1, order);
    let line = steps.at_each(
        SIZES,
        |pages| tenths_a_section(rt, alloc, pages, kept, &plan),
    )?;
    print_line(rt, steps, name, &line)
}

/// Prints the table's lines of sections on a locked zone, for whose lock nobody else waits, by what it keeps.
fn print_locked_lines<R: Print + Clock + Threads + Wait + Sync>(
    rt: &R,
    alloc: Global,
    steps: &mut Steps<impl Progress + Drop>,
) -> anyhow::Result<()> {
    for kept in KEPT {
        steps.clear();
        println!(rt; "sections on a locked zone, {}", kept.name())?;
        print_section_times(rt, alloc, steps, "pairs of order 0", kept, Order::zero())?;
        print_section_times(
            rt,
            alloc,
            steps,
            "pairs of order 10",
            kept,
            Order::largest(),
        )?;
    }
    Ok(())
}

/// Prints a line under the table, at the second size of a zone.
fn print_shared_line(
    rt: &impl Print,
    steps: &mut Steps<impl Progress + Drop>,
    name: &str,
    tenths: u128,
) -> anyhow::Result<()> {
    steps.step();
    steps.clear();
    println!(rt; "{name:<40}{:>22}.{}", tenths / 10, tenths % 10)?;
    Ok(())
}

/// Prints a line under the table: the time of a section on a locked zone that keeps this, at the second size of a zone, where so many
/// workers make as many together as one alone would.
fn print_crew_time<R: Print + Clock + Threads + Wait + Sync>(
    rt: &R,
    alloc: Global,
    steps: &mut Steps<impl Progress + Drop>,
    kept: Kept,
    threads: &str,
    workers: u32,
) -> anyhow::Result<()>
    requires { 0 < workers }
{
    let name = format!(in alloc; "{}, {threads}", kept.name())?;
    let plan = pairs_of(workers, Order::zero());
    let tenths = tenths_a_section(rt, alloc, SHARED_PAGES, kept, &plan)?;
    print_shared_line(rt, steps, name.as_str(), tenths)
}

/// Prints the lines of sections that one thread makes on a locked zone, and four at the same time, by what it keeps.
fn print_crew_lines<R: Print + Clock + Threads + Wait + Sync>(
    rt: &R,
    alloc: Global,
    steps: &mut Steps<impl Progress + Drop>,
) -> anyhow::Result<()> {
    print_heading(rt, steps, "sections of pairs of order 0 on a locked zone")?;
    for kept in KEPT {
        print_crew_time(rt, alloc, steps, kept, "one thread", 1)?;
        print_crew_time(rt, alloc, steps, kept, "four threads", 4)?;
    }
    Ok(())
}

/// Prints a line under the table: the time of pairs of cached pages of each of so many workers, all at the same time, at the second
/// size of a zone.
fn print_shared_time<R: Print + Clock + Threads + Wait + Sync>(
    rt: &R,
    alloc: Global,
    steps: &mut Steps<impl Progress + Drop>,
    name: &str,
    workers: u32,
) -> anyhow::Result<()> {
    let plan = PairsPlan {
        workers,
        pairs: Pairs::Cached,
        each: CALLS / 2,
    };
    let timed = locked::time(rt, alloc, SHARED_PAGES, Kept::Whole, plan)?;
    print_shared_line(rt, steps, name, tenths_each(timed.time, u64::from(CALLS)))
}

/// Prints a line under the table: the time of each of so many steps.
fn print_time_of(
    rt: &impl Print,
    steps: &mut Steps<impl Progress + Drop>,
    name: &str,
    (time, made): (Duration, u64),
) -> anyhow::Result<()> {
    steps.step();
    print_line(rt, steps, name, &[tenths_each(time, made)])
}

/// Prints the lines of what a section publishes on a board, and of a read off it.
fn print_times_of_board(
    rt: &(impl Print + Clock),
    steps: &mut Steps<impl Progress + Drop>,
    published: &str,
    read: &str,
    board: &mut BoardBench,
) -> anyhow::Result<()> {
    print_time_of(rt, steps, published, board.time_publishing(rt)?)?;
    print_time_of(rt, steps, read, board.time_reads(rt, CALLS)?)
}

/// The same, where there is memory for the board.
fn print_board_times(
    rt: &(impl Print + Clock),
    steps: &mut Steps<impl Progress + Drop>,
    published: &str,
    read: &str,
    made: Result<BoardBench, Unmade>,
) -> anyhow::Result<()> {
    match made {
        Ok(mut board) => print_times_of_board(rt, steps, published, read, &mut board),
        Err(unmade) => Err(unmade.into()),
    }
}

/// Prints these lines of a board with room for each of its counts, and of one that turns.
fn print_boards(
    rt: &(impl Print + Clock),
    alloc: Global,
    steps: &mut Steps<impl Progress + Drop>,
) -> anyhow::Result<()> {
    print_board_times(
        rt,
        steps,
        "counts published on a board",
        "counts read off a board",
        BoardBench::fixed(alloc),
    )?;
    print_board_times(
        rt,
        steps,
        "counts published on a board that turns",
        "counts read off a board that turns",
        BoardBench::turning(alloc),
    )
}

/// Prints two lines under the table: the time of a read of the counts of a zone while another thread makes sections, and of such a
/// section.
fn print_reading_times<R: Print + Clock + Threads + Wait + Sync>(
    rt: &R,
    alloc: Global,
    steps: &mut Steps<impl Progress + Drop>,
) -> anyhow::Result<()> {
    let timed = reading::time(rt, alloc, SHARED_PAGES, Order::zero(), CALLS)?;
    print_time_of(
        rt,
        steps,
        "counts read while sections are made",
        (timed.time, timed.reads),
    )?;
    print_time_of(
        rt,
        steps,
        "sections made while counts are read",
        (timed.time, timed.sections),
    )
}

/// Prints the table, under it the times of one worker and of four at the same time, those of boards, and how to count instructions.
pub fn print_all<R: Print + Eprint + Clock + Threads + Wait + Sync>(
    rt: &R,
    alloc: Global,
    is_watched: bool,
) -> anyhow::Result<()> {
    let mut steps = begun(rt, TASK, MEASUREMENTS, is_watched);
    print_table(rt, alloc, &mut steps)?;
    print_locked_lines(rt, alloc, &mut steps)?;
    print_crew_lines(rt, alloc, &mut steps)?;
    print_shared_time(rt, alloc, &mut steps, "cached pairs, one thread", 1)?;
    print_shared_time(rt, alloc, &mut steps, "cached pairs, four threads", 4)?;
    print_boards(rt, alloc, &mut steps)?;
    print_reading_times(rt, alloc, &mut steps)?;
    print_heading(rt, &mut steps, HOW_TO_COUNT)
}

/// Prints lines of the table: the time of pairs of these orders.
fn print_pairs<S: LoadSource>(
    rt: &(impl Print + Clock),
    alloc: Global,
    steps: &mut Steps<impl Progress + Drop>,
    pairs: &[(&str, u8)],
) -> anyhow::Result<()> {
    for (name, order) in pairs {
        if let Some(order) = Order::new(*order) {
            print_times::<S>(
                rt,
                alloc,
                steps,
                name,
                &Workload::Pairs(order),
                [CALLS / 2; 3],
            )?;
        }
    }
    Ok(())
}

/// Prints lines of the table: the times of what keeps more than one block lent.
fn print_mixed<S: LoadSource>(
    rt: &(impl Print + Clock),
    alloc: Global,
    steps: &mut Steps<impl Progress + Drop>,
) -> anyhow::Result<()> {
    for (name, workload, ops) in MIXED {
        print_times::<S>(rt, alloc, steps, name, &workload, ops)?;
    }
    Ok(())
}

/// Prints the table: nanoseconds a call, by the pages of the zone; first by a seat, then by a worker's share.
fn print_table(
    rt: &(impl Print + Clock),
    alloc: Global,
    steps: &mut Steps<impl Progress + Drop>,
) -> anyhow::Result<()> {
    println!(rt;
        "{:<40}{:>12}{:>12}{:>12}",
        "nanoseconds a call", "1024 pages", "4096", "65536"
    )?;
    print_pairs::<SeatSource<10>>(rt, alloc, steps, &SEATED_PAIRS)?;
    print_mixed::<SeatSource<10>>(rt, alloc, steps)?;
    print_times::<SeatSource<10>>(
        rt,
        alloc,
        steps,
        "Unmovable among scattered Movable",
        &Workload::Scattered,
        [100_000, 20_000, 1000],
    )?;
    print_times::<SeatSource<10>>(
        rt,
        alloc,
        steps,
        "claims of order 10",
        &Workload::Claims,
        [CALLS / 2; 3],
    )?;
    print_largest_lines(rt, alloc, steps)?;
    print_share_lines(rt, alloc, steps)
}

/// Prints the table's lines of zones of other largest orders.
fn print_largest_lines(
    rt: &(impl Print + Clock),
    alloc: Global,
    steps: &mut Steps<impl Progress + Drop>,
) -> anyhow::Result<()> {
    print_heading(rt, steps, "largest order 9")?;
    print_pairs::<SeatSource<9>>(rt, alloc, steps, &SMALL_PAIRS)?;
    print_mixed::<SeatSource<9>>(rt, alloc, steps)?;
    print_heading(rt, steps, "largest order 4")?;
    print_pairs::<SeatSource<4>>(rt, alloc, steps, &SMALL_PAIRS)?;
    print_mixed::<SeatSource<4>>(rt, alloc, steps)
}

/// Prints the table's lines of a worker's share.
fn print_share_lines(
    rt: &(impl Print + Clock),
    alloc: Global,
    steps: &mut Steps<impl Progress + Drop>,
) -> anyhow::Result<()> {
    print_heading(rt, steps, "with lists of workers")?;
    print_pairs::<Cached>(rt, alloc, steps, &CACHED_PAIRS)?;
    print_mixed::<Cached>(rt, alloc, steps)?;
    print_heading(rt, steps, "past the lists of workers")?;
    print_pairs::<PastLists>(rt, alloc, steps, &PAIRS_PAST_LISTS)
}
