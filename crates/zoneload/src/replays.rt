//! Long traces, replayed one command after another and in threads.

use crate::digest::Digest;
use crate::errors::Broken;
use crate::making::{MOST_LINES, Plan, Reach, TraceMaker};
use crate::memory::{DigestWriter, TextReader};
use crate::text::Lists;
use std::alloc::Global;
use std::sync::Wait;
use std::thread::Threads;
use zp_office::OpenGate;
use zp_replay::{Ending, replay_serial, replay_threads};

/// The labels of a worker who binds each once.
const LABEL_A_LINE: u32 = 4096;

/// The labels of a worker who binds few, again and again.
const FEW_LABELS: u32 = 256;

/// The plan of a trace of a round: 1, 4 or 32 workers, with lists and without, over one to four zones.
fn plan_of(round: u32) -> Plan {
    Plan {
        zones: 1 + (round % 4) as usize,
        min: 512,
        workers: match round % 3 {
            0 => 4,
            1 => 1,
            _ => 32,
        },
        lists: if round % 2 == 0 {
            Lists::Longest
        } else {
            Lists::None
        },
        lines: MOST_LINES,
        labels: if round % 5 == 4 {
            FEW_LABELS
        } else {
            LABEL_A_LINE
        },
        reach: Reach::All,
    }
}

/// Replays a good trace, one command after another: a digest of what it writes.
pub fn replayed(alloc: Global, text: &[u8]) -> Result<u64, Broken> {
    let mut reader = TextReader::new(text);
    let mut writer = DigestWriter::new();
    match replay_serial(alloc, &mut reader, &mut writer)? {
        Ending::Good => Ok(writer.digest()),
        Ending::BadLine(_) => Err(Broken::Trace),
    }
}

/// So many traces, one command after another.
pub fn serial(rt: &impl AllocGlobal, rounds: u32, seed: u64) -> anyhow::Result<Digest> {
    let mut maker = TraceMaker::new(rt.alloc(), seed)?;
    let mut digest = Digest::new();
    for round in 0..rounds {
        maker.draw(rt.alloc(), &plan_of(round))?;
        digest.add(replayed(rt.alloc(), maker.text())?);
    }
    Ok(digest)
}

/// The plan of a trace of a round, in threads: a worker alone, four workers with a zone each, or 32 workers with all zones in common.
fn threaded_plan_of(round: u32) -> Plan {
    let (zones, workers, reach) = match round % 3 {
        0 => (4, 4, Reach::Own),
        1 => (2, 1, Reach::All),
        _ => (4, 32, Reach::All),
    };
    Plan {
        zones,
        min: 0,
        workers,
        lists: Lists::Longest,
        lines: MOST_LINES,
        labels: LABEL_A_LINE,
        reach,
    }
}

/// Replays a trace in threads, and writes its journals where all that it writes is the same whoever comes first: a digest of that,
/// else of how many lines it writes.
fn replayed_in_threads<R: AllocGlobal + Threads + Wait + Sync>(
    rt: &R,
    text: &[u8],
    is_fixed: bool,
) -> Result<u64, Broken> {
    let mut reader = TextReader::new(text);
    let mut writer = DigestWriter::new();
    let ended = replay_threads(
        rt,
        rt.alloc(),
        &mut reader,
        &mut writer,
        is_fixed,
        &OpenGate,
    );
    match ended? {
        Ending::Good if is_fixed => Ok(writer.digest()),
        Ending::Good => Ok(writer.lines()),
        Ending::BadLine(_) => Err(Broken::Trace),
    }
}

/// So many traces in threads.
pub fn threads<R: AllocGlobal + Threads + Wait + Sync>(
    rt: &R,
    rounds: u32,
    seed: u64,
) -> anyhow::Result<Digest> {
    let mut maker = TraceMaker::new(rt.alloc(), seed)?;
    let mut digest = Digest::new();
    for round in 0..rounds {
        let plan = threaded_plan_of(round);
        let is_fixed = plan.reach == Reach::Own || plan.workers == 1;
        maker.draw(rt.alloc(), &plan)?;
        digest.add(replayed_in_threads(rt, maker.text(), is_fixed)?);
    }
    Ok(digest)
}
