//! Boards of counts under load.

ghost use Rattle.std.specs.Prelude.{◌≡◌, ◌<◌};
ghost use Rattle.zp_counts.specs.CountBoards.{ArePackable};
ghost use Rattle.zonebench.specs.declared.board.TheConstants.{ROOM};

use crate::clock::timed;
use std::alloc::Global;
use std::rt::Clock;
use std::time::Duration;
use zp_counts::{Board, BoardReader, Publisher, are_packable, new_board, new_turning_board};
use zp_loads::Unmade;
use zp_model::{Counts, ORDERS};

/// How many counts are published, and so many a board that does not turn has room for.
const ROOM: u32 = 65_536;

/// A board with its publisher and a reader, and the counts that are published next.
#[derive(Drop)]
pub struct BoardBench {
    board: Board,
    publisher: Publisher,
    reader: BoardReader,
    counts: Counts,
    ghost publishes: { publisher.tie ≡ board.tie },
    ghost reads: { reader.tie ≡ board.tie },
    ghost packable: { ArePackable counts },
}

impl BoardBench {
    /// A board with room for so many counts as a journal has entries at most.
    pub fn fixed(alloc: Global) -> Result<BoardBench, Unmade> {
        let counts = no_free_pages();
        let (board, mut publisher) = new_board(alloc, ROOM, &counts)?;
        let reader = publisher.reader(&board);
        Ok(BoardBench {
            board,
            publisher,
            reader,
            counts,
        })
    }

    /// One that turns, and is never full.
    pub fn turning(alloc: Global) -> Result<BoardBench, Unmade> {
        let counts = no_free_pages();
        let (board, mut publisher) = new_turning_board(alloc, u64::MAX, &counts)?;
        let reader = publisher.reader(&board);
        Ok(BoardBench {
            board,
            publisher,
            reader,
            counts,
        })
    }

    /// Publishes counts with so many free pages, where there is room.
    fn publish(&mut self, free: u32)
        requires { free < ROOM }
    {
        self.counts.free = free;
        let board = &self.board;
        if !self.publisher.is_full(board) {
            self.publisher.publish(board, &self.counts);
        }
    }

    /// The free pages that are read.
    fn read(&mut self) -> u32 {
        let board = &self.board;
        self.reader.read(board).counts.free
    }

    fn publish_all(&mut self) {
        for free in 0..ROOM {
            self.publish(free);
        }
    }

    /// Reads so often: how often the free pages were others than those read before.
    fn read_all(&mut self, reads: u32) -> u32 {
        let mut changed = 0_u32;
        let mut last = 0;
        for _ in 0..reads {
            let free = self.read();
            if free != last {
                changed = changed.wrapping_add(1);
            }
            last = free;
        }
        changed
    }

    /// The time of so many publishings, and their number.
    pub fn time_publishing(&mut self, rt: &impl Clock) -> anyhow::Result<(Duration, u64)> {
        let ((), time) = timed(rt, || self.publish_all())?;
        Ok((time, u64::from(ROOM)))
    }

    /// The time of so many reads.
    pub fn time_reads(&mut self, rt: &impl Clock, reads: u32) -> anyhow::Result<(Duration, u64)> {
        let (changed, time) = timed(rt, || self.read_all(reads))?;
        if changed > 1 {
            anyhow::bail!("zonebench: a board that nobody writes on changed")
        }
        Ok((time, u64::from(reads)))
    }
}

/// The counts of a zone with no free page.
fn no_free_pages() -> Counts
    ensures { ArePackable result }
{
    Counts {
        by_order: [0; ORDERS],
        free: 0,
    }
}
