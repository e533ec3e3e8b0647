//! Journals and boards.

ghost use Rattle.std.specs.Prelude.{◌≡◌};

use std::alloc::Global;
use zp_counts::{
    Board, BoardReader, Publisher, are_packable, new_board, new_turning_board, new_wide_board,
};
use zp_journal::Journal;
use zp_loads::{Unmade, expect};
use zp_model::Counts;

/// How many entries each has room for.
const ROOM: u32 = 1024;

/// A journal with no entry.
pub fn journal(alloc: Global) -> Result<(), Unmade> {
    let _journal = Journal::new(alloc, ROOM)?;
    Ok(())
}

/// A board, and so many counts that are published and read.
pub fn board(alloc: Global, calls: u32) -> Result<(), Unmade> {
    let (board, publisher) = new_board(alloc, ROOM, &Counts::default())?;
    publish_and_read(board, publisher, calls)
}

/// A board that turns, with as many.
pub fn turning_board(alloc: Global, calls: u32) -> Result<(), Unmade> {
    let opening = Counts::default();
    if !are_packable(&opening) {
        return Err(Unmade::Other);
    }
    let (board, publisher) = new_turning_board(alloc, u64::MAX, &opening)?;
    publish_and_read(board, publisher, calls)
}

/// One whose words hold any counts, with as many.
pub fn wide_board(alloc: Global, calls: u32) -> Result<(), Unmade> {
    let (board, publisher) = new_wide_board(alloc, u64::MAX, &Counts::default())?;
    publish_and_read(board, publisher, calls)
}

/// So many counts are published on a board and read.
fn publish_and_read(board: Board, mut publisher: Publisher, calls: u32) -> Result<(), Unmade>
    requires { publisher.tie ≡ board.tie }
{
    let reader = publisher.reader(&board);
    let mut board = ReadBoard {
        board,
        publisher,
        reader,
    };
    board.rounds(calls)
}

/// A board with its publisher and a reader.
#[derive(Drop)]
struct ReadBoard {
    board: Board,
    publisher: Publisher,
    reader: BoardReader,
    ghost publishes: { publisher.tie ≡ board.tie },
    ghost reads: { reader.tie ≡ board.tie },
}

impl ReadBoard {
    /// So many rounds.
    fn rounds(&mut self, rounds: u32) -> Result<(), Unmade> {
        for free in 0..rounds {
            self.publish_and_read(free)?;
        }
        Ok(())
    }

    /// Publishes counts with so many free pages and reads them, with the publisher and without it.
    fn publish_and_read(&mut self, free: u32) -> Result<(), Unmade> {
        let board = &self.board;
        let counts = Counts {
            by_order: [0; 11],
            free,
        };
        if self.publisher.is_full(board) || !are_packable(&counts) {
            return Err(Unmade::Other);
        }
        self.publisher.publish(board, &counts);
        let read = self.reader.read(board);
        let last = self.publisher.read_board(board, &mut self.reader);
        expect(read.counts.free == free && last == read)
    }
}
