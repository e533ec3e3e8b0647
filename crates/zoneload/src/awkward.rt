//! Traces that are dear for what they are.

use crate::digest::Digest;
use crate::errors::Broken;
use crate::making::{MOST_LINES, Plan, Reach, TraceMaker};
use crate::memory::{DigestWriter, TextReader};
use crate::replays::replayed;
use crate::text::Lists;
use std::alloc::Global;
use zp_replay::{Ending, replay_serial};

/// The blocks of a worker with as many labels as a trace has room for: each is taken, and then each given back.
const LABELS: usize = 2046;

/// The commands of 32 workers with few commands each.
const FEW_LINES: usize = 300;

/// A worker alone.
fn alone() -> Plan {
    Plan {
        zones: 1,
        min: 0,
        workers: 1,
        lists: Lists::None,
        lines: MOST_LINES,
        labels: 4096,
        reach: Reach::All,
    }
}

/// Four workers over four zones.
fn together() -> Plan {
    Plan {
        zones: 4,
        min: 512,
        workers: 4,
        lists: Lists::Longest,
        lines: MOST_LINES,
        labels: 4096,
        reach: Reach::All,
    }
}

/// All workers that there may be, with few commands.
fn crowd() -> Plan {
    Plan {
        zones: 4,
        min: 512,
        workers: 32,
        lists: Lists::Longest,
        lines: FEW_LINES,
        labels: 4096,
        reach: Reach::All,
    }
}

/// A worker takes as many blocks as it has labels for, and gives them back in another order.
fn draw_labels(alloc: Global, maker: &mut TraceMaker) -> Result<(), Broken> {
    let plan = alone();
    maker.begin(alloc, &plan)?;
    for _ in 0..LABELS {
        maker.alloc(&plan, 0)?;
    }
    for _ in 0..LABELS {
        maker.free(&plan, 0)?;
    }
    Ok(())
}

/// Behind each command there is an info.
fn draw_infos(alloc: Global, maker: &mut TraceMaker) -> Result<(), Broken> {
    let plan = together();
    maker.begin(alloc, &plan)?;
    for turn in 0..MOST_LINES as u32 {
        if !maker.has_room(2) {
            break;
        }
        maker.free(&plan, turn % 4)?;
        maker.info(&plan, turn % 4)?;
    }
    Ok(())
}

/// The last line is bad: which line it is.
fn draw_bad(alloc: Global, maker: &mut TraceMaker) -> Result<(), Broken> {
    let plan = Plan {
        zones: 4,
        min: 512,
        workers: 4,
        lists: Lists::Longest,
        lines: MOST_LINES - 1,
        labels: 4096,
        reach: Reach::All,
    };
    maker.draw(alloc, &plan)?;
    maker.bad_line()
}

/// Replays a trace that ends with its bad line: a digest of what it writes.
fn refused(alloc: Global, text: &[u8]) -> Result<u64, Broken> {
    let mut reader = TextReader::new(text);
    let mut writer = DigestWriter::new();
    match replay_serial(alloc, &mut reader, &mut writer)? {
        Ending::BadLine(number) => Ok(writer.digest() ^ u64::from(number)),
        Ending::Good => Err(Broken::Trace),
    }
}

/// The trace of a round: what it writes.
fn round_of(alloc: Global, maker: &mut TraceMaker, round: u32) -> Result<u64, Broken> {
    match round % 4 {
        0 => draw_labels(alloc, maker)?,
        1 => draw_infos(alloc, maker)?,
        2 => maker.draw(alloc, &crowd())?,
        _ => {
            draw_bad(alloc, maker)?;
            return refused(alloc, maker.text());
        }
    }
    replayed(alloc, maker.text())
}

/// So many traces, one command after another.
pub fn serial(rt: &impl AllocGlobal, rounds: u32, seed: u64) -> anyhow::Result<Digest> {
    let mut maker = TraceMaker::new(rt.alloc(), seed)?;
    let mut digest = Digest::new();
    for round in 0..rounds {
        digest.add(round_of(rt.alloc(), &mut maker, round)?);
    }
    Ok(digest)
}
