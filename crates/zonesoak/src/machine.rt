//! A machine of 16 GiB: three wide zones that eight workers share.

use std::alloc::Global;
use std::marker::Brand;
use std::sync::Wait;
use std::thread::Threads;
use uses::{MachineRun, machine_zones, run_machine};
use zp_loads::Unmade;
use zp_progress::Progress;

/// How many blocks each worker takes.
const ROUNDS: u32 = 11_000;

/// Makes the zones, and has all workers ask them.
fn run<R: Threads + Wait + Sync>(rt: &R, alloc: Global) -> Result<MachineRun, Unmade> {
    let zones = machine_zones(alloc)?;
    Ok(run_machine::<Brand, R>(rt, alloc, zones, ROUNDS)?)
}

/// Says how many sections the highest zone had, two for each block, and how many pages are free at the end.
pub fn print<R: Print + Threads + Wait + Sync>(
    rt: &R,
    alloc: Global,
    progress: &mut impl Progress,
) -> anyhow::Result<()> {
    let MachineRun {
        sections,
        free_pages,
    } = run(rt, alloc)?;
    progress.clear();
    println!(rt;
        "8 workers, three zones of 16 GiB: {sections} sections of the highest, free pages {free_pages}"
    )?;
    Ok(())
}
