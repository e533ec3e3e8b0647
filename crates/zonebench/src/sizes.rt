//! The time of each workload over the sizes of zones, up to the largest.

use crate::runs;
use crate::steps::{Steps, begun};
use crate::timing::{CALLS, print_line, tenths_a_call};
use crate::workload::Workload;
use std::alloc::Global;
use std::rt::Clock;
use zp_loads::{Cached, LoadSource, SeatSource};
use zp_progress::{Progress, Task};

/// The sizes of the zones, in pages.
const SIZES: [u32; 5] = [1 << 16, 1 << 18, 1 << 20, 1 << 22, 1 << 24];

/// The workloads by a seat.
const SEATED: [&str; 10] = [
    "pairs-0",
    "pairs-4",
    "pairs-9",
    "pairs-10",
    "runs",
    "churn",
    "press",
    "burst",
    "scattered",
    "claims",
];

/// The workloads in which a worker's lists have a part.
const CACHED: [&str; 5] = ["pairs-0", "runs", "churn", "press", "burst"];

/// The times that are taken.
const MEASUREMENTS: usize = SIZES.len() * (SEATED.len() + CACHED.len() + runs::LINES.len());

/// What a terminal shows of a table that takes long.
const TASK: Task<'static> = Task {
    name: "zonebench sizes",
    unit: "measurements",
};

/// Each size of a zone, with the number for `run` that makes about as many calls in it as are timed.
fn with_ops(workload: &Workload) -> [(u32, u32); SIZES.len()] {
    let mut sizes = [(0, 0); SIZES.len()];
    for (size, pages) in sizes.iter_mut().zip(SIZES) {
        *size = (pages, workload.ops(pages, CALLS));
    }
    sizes
}

/// Prints a line of the table: the time of a workload at each size.
fn print_times<S: LoadSource>(
    rt: &(impl Print + Clock),
    alloc: Global,
    steps: &mut Steps<impl Progress + Drop>,
    name: &str,
    workload: &Workload,
) -> anyhow::Result<()> {
    let line = steps.at_each(with_ops(workload), |(pages, ops)| {
        tenths_a_call::<S>(rt, alloc, workload, pages, ops)
    })?;
    print_line(rt, steps, name, &line)
}

/// Prints the lines of the workloads of these names.
fn print_lines<S: LoadSource>(
    rt: &(impl Print + Clock),
    alloc: Global,
    steps: &mut Steps<impl Progress + Drop>,
    names: &[&str],
) -> anyhow::Result<()> {
    for name in names {
        if let Some(workload) = Workload::named(name) {
            print_times::<S>(rt, alloc, steps, name, &workload)?;
        }
    }
    Ok(())
}

/// Prints the lines of runs of pages.
fn print_run_lines(
    rt: &(impl Print + Clock),
    alloc: Global,
    steps: &mut Steps<impl Progress + Drop>,
) -> anyhow::Result<()> {
    for (name, load, call) in runs::LINES {
        let line = steps.at_each(SIZES, |pages| load.tenths_a_call(rt, alloc, call, pages))?;
        print_line(rt, steps, name, &line)?;
    }
    Ok(())
}

/// Prints the table: nanoseconds a call, by the pages of the zone; first by a seat, then by a worker's lists, and last those of runs of
/// pages, by a seat.
pub fn print_all(
    rt: &(impl Print + Eprint + Clock),
    alloc: Global,
    is_watched: bool,
) -> anyhow::Result<()> {
    let mut steps = begun(rt, TASK, MEASUREMENTS, is_watched);
    println!(rt;
        "{:<40}{:>12}{:>12}{:>12}{:>12}{:>12}",
        "nanoseconds a call", "65536 pages", "262144", "1048576", "4194304", "16777216"
    )?;
    print_lines::<SeatSource<10>>(rt, alloc, &mut steps, &SEATED)?;
    steps.clear();
    println!(rt; "with lists of workers")?;
    print_lines::<Cached>(rt, alloc, &mut steps, &CACHED)?;
    steps.clear();
    println!(rt; "runs of pages")?;
    print_run_lines(rt, alloc, &mut steps)
}
