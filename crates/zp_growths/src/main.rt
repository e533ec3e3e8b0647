//! `zp_growths WORD [CALLS]`: makes the thing that the word names once, then so many rounds of calls on it, and prints `made` and ends with
//! 0. Where there is no memory for it, it prints so, by which result, and ends with 1; at any other result, also of a call, with 2. With no
//! word it prints the words, each with `calls` behind it where there are calls on what it makes.
//!
//! But for its words nothing else takes memory, so a run in which the growths of memory are refused one after another shows what each
//! creation returns then, and whether it leaves something; and two runs with few and with many calls, whether a call takes any
//! (`tests/growths`).
#![tactic(auto)]

mod crews;
mod locked;
mod offices;
mod words;

use std::env;
use std::process::ExitCode;
use std::rt::Env;
use std::sync::Wait;
use std::thread::Threads;
use words::{WORDS, make, making_of};
use zp_loads::Unmade;

fn main(rt: HostRuntime) -> ExitCode {
    let words = match own_words(&rt) {
        Ok(words) => words,
        Err(unmade) => return told(&rt, Err(unmade)),
    };
    match words.as_slice() {
        [] => list(&rt),
        [word] => told(&rt, run(&rt, word, "0")),
        [word, calls] => told(&rt, run(&rt, word, calls)),
        _ => told(&rt, Err(Unmade::Other)),
    }
}

/// The words of the command line.
fn own_words(rt: &(impl Env + AllocGlobal)) -> Result<Vec<String>, Unmade> {
    let Ok(args) = env::args(rt) else {
        return Err(Unmade::AllocError);
    };
    Ok(args.skip(1).collect(rt.alloc())?)
}

/// Prints the words.
fn list(rt: &impl Print) -> ExitCode {
    for word in &WORDS {
        let calls = if word.has_calls { " calls" } else { "" };
        if println!(rt; "{}{calls}", word.name).is_err() {
            return ExitCode::from(2);
        }
    }
    ExitCode::from(0)
}

/// Makes what a word names, with so many rounds of calls.
fn run<R: AllocGlobal + Threads + Wait + Sync>(
    rt: &R,
    word: &str,
    calls: &str,
) -> Result<(), Unmade> {
    match (making_of(word), calls.parse::<u32>()) {
        (Some(making), Ok(calls)) => make(rt, rt.alloc(), making, calls),
        _ => Err(Unmade::Other),
    }
}

/// Prints what came of it.
fn told(rt: &impl Print, outcome: Result<(), Unmade>) -> ExitCode {
    let (printed, status) = match outcome {
        Ok(()) => (rt.println("made"), 0),
        Err(unmade) => (rt.println(unmade), unmade.status()),
    };
    if printed.is_err() {
        return ExitCode::from(2);
    }
    ExitCode::from(status)
}
