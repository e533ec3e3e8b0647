//! `zoneload JOB ROUNDS SEED`: the jobs that users of the allocator wait for, each on inputs that the seed draws, and on other inputs each
//! round. It prints the job, the rounds and a digest of all that was answered, which is the same at each run, whoever of the threads came
//! first. The jobs:
//!
//! - `traces`: long traces of all requests, by 1, 4 and 32 workers with lists and without, replayed one command after another;
//! - `awkward`: a worker with thousands of labels, an info for each command, 32 workers of few commands over full zones, and a bad line at
//!   the end, replayed so;
//! - `threads`: long traces replayed in threads, with the zones' journals replayed and written;
//! - `serving`: pages of a zone by its seat, and of a row of zones with marks by a worker's lists, by one thread;
//! - `sharing`: four workers on one zone behind its lock, whatever the zone keeps, and a replay of its journal;
//! - `scattered`: Unmovable pages all over the pageblocks, then claims, borrows, lowest blocks, isolations, refills and drains.
//!
//! With the word `all` in the place of a job it makes them all, each on few inputs.
#![tactic(auto)]

mod awkward;
mod bench;
mod crew;
mod digest;
mod errors;
mod making;
mod memory;
mod replays;
mod scattered;
mod serving;
mod sharing;
mod sources;
mod text;

use crate::digest::Digest;
use std::env;
use std::sync::Wait;
use std::thread::Threads;

/// The jobs, by their names.
const JOBS: [&str; 6] = [
    "traces",
    "awkward",
    "threads",
    "serving",
    "sharing",
    "scattered",
];

/// So many rounds of a job.
fn job_of<R: AllocGlobal + Threads + Wait + Sync>(
    rt: &R,
    name: &str,
    rounds: u32,
    seed: u64,
) -> anyhow::Result<Digest> {
    match name {
        "traces" => replays::serial(rt, rounds, seed),
        "awkward" => awkward::serial(rt, rounds, seed),
        "threads" => replays::threads(rt, rounds, seed),
        "serving" => serving::serve(rt.alloc(), rounds, seed),
        "sharing" => sharing::share(rt, rounds, seed),
        "scattered" => scattered::serve(rt.alloc(), rounds, seed),
        _ => anyhow::bail!("zoneload: there is no job {name}"),
    }
}

/// Prints what comes of so many rounds of a job.
fn print_job<R: Print + AllocGlobal + Threads + Wait + Sync>(
    rt: &R,
    name: &str,
    rounds: u32,
    seed: u64,
) -> anyhow::Result<()> {
    let digest = job_of(rt, name, rounds, seed)?;
    println!(rt; "{name} {rounds} {:016x}", digest.value())?;
    Ok(())
}

/// A number from a word.
fn number(word: &str) -> anyhow::Result<u32> {
    match word.parse::<u32>() {
        Ok(number) => Ok(number),
        Err(_) => anyhow::bail!("zoneload: ROUNDS and SEED are numbers"),
    }
}

fn main(rt: HostRuntime) -> anyhow::Result<()> {
    let words: Vec<String> = env::args(&rt)?.skip(1).collect(rt.alloc())?;
    let [name, rounds, seed] = words.as_slice() else {
        anyhow::bail!("zoneload: the words are JOB ROUNDS SEED");
    };
    let (rounds, seed) = (number(rounds)?, u64::from(number(seed)?));
    if name.as_str() != "all" {
        return print_job(&rt, name, rounds, seed);
    }
    for job in JOBS {
        print_job(&rt, job, rounds, seed)?;
    }
    Ok(())
}
