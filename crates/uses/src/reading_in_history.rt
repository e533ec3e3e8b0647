//! A reading that was taken with no lock, and the zone's history, as one.
ghost use Rattle.std.specs.Prelude.{◌≡◌};
ghost use Rattle.zp_shared.specs.Rows.{IsCountsOf, board_at};

use zp_shared::{Board, BoardReader, Guarded, Naming, Reading};

/// Reads a zone's board as who has no lock reads it, and then under the lock: the first reading is the zone's counts after as many entries
/// of its journal as the reading's place says.
pub fn read_before_the_lock<J: Naming>(
    guarded: &mut Guarded<J>,
    board: &Board,
    reader: &mut BoardReader,
) -> Reading
    requires board { board.now ≡ board_at J.boards guarded.old.place }
    requires reader { reader.old.tie ≡ board.now.tie }
    ensures same { guarded.new ≡ guarded.old }
    ensures counts { IsCountsOf guarded.old.zone result }
{
    let reading = reader.read(board);
    guarded.read_board(board, reader);
    reading
}
