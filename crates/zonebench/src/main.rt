//! `zonebench [check | worst | sizes | makings | count WORKLOAD PAGES CALLS]`: workloads over a zone, each with its seed, by a seat of the zone and by a
//! worker with lists of its own, which threads run over a shared zone too.
//!
//! With no word it prints how long a call of each takes, and a section on a zone behind its lock by what the zone keeps, and what is
//! published on a board and read off it. With `check` it prints the checksums of the pages returned, which do not depend on the
//! machine, and starts no thread. With `worst` it prints how long the dearest requests that are known take. With `sizes` it prints how
//! long a call of each workload, and a request for a run of pages, takes in zones of up to 2^24 pages, and with `makings` how long
//! creating such zones takes. With `count` it makes so many calls of one workload, so that a tool can count their instructions.
//!
//! A line of a table is printed when all its times are known. Where that takes long, standard error shows on a terminal how far the table
//! is, between the measurements.
#![tactic(auto)]

mod board;
mod check;
mod clock;
mod counting;
mod entries;
mod grounds;
mod locked;
mod makings;
mod reading;
mod runs;
mod shapes;
mod sizes;
mod steps;
mod threads;
mod times;
mod timing;
mod workload;
mod worst;

use std::env;
use std::io::IsTerminal;
use zp_progress::is_watched;

fn main(rt: HostRuntime) -> anyhow::Result<()> {
    let words: Vec<String> = env::args(&rt)?.skip(1).collect(rt.alloc())?;
    let is_watched = is_watched(&rt, rt.stderr().is_terminal());
    match words.as_slice() {
        [] => timing::print_all(&rt, rt.alloc(), is_watched),
        [word] if word.as_str() == "check" => check::print_all(&rt, rt.alloc()),
        [word] if word.as_str() == "worst" => worst::print_all(&rt, rt.alloc(), is_watched),
        [word] if word.as_str() == "sizes" => sizes::print_all(&rt, rt.alloc(), is_watched),
        [word] if word.as_str() == "makings" => makings::print_all(&rt, rt.alloc(), is_watched),
        [word, name, pages, calls] if word.as_str() == "count" => {
            counting::print_count(&rt, rt.alloc(), name, pages, calls)
        }
        _ => anyhow::bail!(
            "zonebench: the words are check, worst, sizes, makings, or count WORKLOAD PAGES CALLS"
        ),
    }
}
