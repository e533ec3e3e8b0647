//! `zoneview`: pictures and figures of zones, for whoever asks why a block is not there.
//!
//! `zoneview index` reads `/proc/buddyinfo`, or lines of its shape, on standard input, and `zoneview events` the page events of a kernel; the other
//! commands read a trace, as `zonereplay` does, and draw its zones.
#![tactic(auto)]

mod command_line;
mod event_words;
mod events;
mod index;
mod input;
mod pictures;
mod screen;

use pictures::Picture;
use screen::{Screen, Terminals};
use std::env;
use std::io::IsTerminal;
use std::process::ExitCode;
use std::rt::{Clock, Env};

/// The status of a run whose words are wrong.
const WRONG_WORDS: u8 = 2;

fn main(rt: HostRuntime) -> ExitCode {
    let terminals = Terminals {
        output: rt.stdout().is_terminal(),
        errors: rt.stderr().is_terminal(),
    };
    match run(&rt, terminals) {
        Ok(status) => ExitCode::from(status),
        Err(error) => {
            // There is nobody left to tell that standard error failed.
            let _ = eprintln!(&rt; "zoneview: {error}");
            ExitCode::from(1)
        }
    }
}

/// Does what the words ask for, and returns the program's status.
fn run(
    rt: &(impl Print + Eprint + Input + Env + Clock + AllocGlobal),
    terminals: Terminals,
) -> anyhow::Result<u8> {
    let words: Vec<String> = env::args(rt)?.collect(rt.alloc())?;
    let command = command_line::command(rt.alloc())?;
    let matches = match command.try_get_matches_from(words.as_slice()) {
        Ok(matches) => matches,
        Err(error) => {
            error.print(rt)?;
            return Ok(if error.use_stderr() { WRONG_WORDS } else { 0 });
        }
    };
    let screen = Screen::of(rt, terminals);
    match matches.subcommand() {
        Some(("index", found)) => index::run(rt, found, screen),
        Some(("map", found)) => pictures::run(rt, Picture::Map, found, screen),
        Some(("pagetypeinfo", found)) => pictures::run(rt, Picture::TypeTables, found, screen),
        Some(("film", found)) => pictures::run(rt, Picture::Film, found, screen),
        Some(("events", found)) => events::run(rt, found, screen),
        Some(("chart", found)) => pictures::run(rt, Picture::Chart, found, screen),
        _ => Ok(WRONG_WORDS),
    }
}
