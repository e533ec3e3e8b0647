//! `zonesoak`: a zone that threads share is asked millions of times, by workers at the same time, with a reader of its board beside them.
//! Then the pages are counted.
//!
//! It tests what is not proved: zones which go on without end do so under load, on a machine. What it prints is the same on every one;
//! the workers' requests meet in another order each time. On a terminal standard error shows how far it is.
#![tactic(auto)]

mod cut;
mod ended;
mod endless;
mod machine;
mod soak;
mod stint;
mod watch;

use soak::LOADS;
use std::io::IsTerminal;
use zp_progress::{Progress, ProgressMeter, Task, is_watched};

/// How many workers each zone has, where it is not said.
const WORKERS: u32 = 4;

/// What a terminal shows where it takes long: how many zones have got all their requests.
const TASK: Task<'static> = Task {
    name: "zonesoak",
    unit: "parts",
};

/// The parts: each load, and three more.
const PARTS: usize = LOADS.len() + 3;

fn main(rt: HostRuntime) -> anyhow::Result<()> {
    let is_watched = is_watched(&rt, rt.stderr().is_terminal());
    let mut progress = ProgressMeter::new(&rt, TASK, is_watched);
    soak::print(&rt, rt.alloc(), &mut progress)?;
    ended::print(&rt, rt.alloc(), &mut progress)?;
    progress.at(PARTS - 2, PARTS);
    cut::print(&rt, rt.alloc(), &mut progress)?;
    progress.at(PARTS - 1, PARTS);
    machine::print(&rt, rt.alloc(), &mut progress)
}
