//! A zone behind a lock.
ghost use Rattle.std.specs.Prelude.{◌≡◌, All, true, false};
ghost use Rattle.zp_counts.specs.declared.reading.Reading.{Reading};
ghost use Rattle.zp_counts.specs.CountBoards.{CountsSeen, IsReadingOf};
ghost use Rattle.zp_model.specs.Run.{IsHistory};
ghost use Rattle.zp_share.specs.Shares.{key_of};
ghost use Rattle.zp_shared.specs.Rows.{board_at, key_at, opened_key, HaveReadAll, HaveReadZone, IsCountsOf, IsElsewhere};

use crate::guarded::Guarded;
use crate::locking::lock_soon;
use crate::naming::Naming;
use crate::opened::OpenedZone;
use std::marker::Model;
use std::sync::{Mutex, MutexGuard, Wait};
use zp_counts::{Board, BoardReader};
use zp_journal::{Keeps, WholeJournal};
use zp_zone::Zone;

/// The lock at one place of a row, and the board of that place beside it, which is read without the lock. All locks of a row have one
/// type, so what lies under them can be exchanged: whoever takes the lock asks what lies there for its place.
#[derive(Drop)]
pub struct SharedZone<J: Naming, K: Keeps = WholeJournal> {
    pub state: Mutex<Guarded<J, K>>,
    pub board: Board,
    place: usize,
}

impl<J: Naming, K: Keeps> Model for SharedZone<J, K> {
    ghost use Rattle.std.specs.Prelude.{◌≡◌, ℕ};
    ghost use Rattle.zp_shared.specs.Rows.{board_at};

    ghost Value = { ℕ };

    ghost view = { λ z. z.place };

    ghost invariant = { λ z. z.board ≡ board_at J.boards z.place };
}

/// A zone out of its lock, with what is kept of it, and whether it is the one of the lock's place.
#[derive(Drop)]
pub struct Closed<K: Keeps = WholeJournal> {
    pub zone: Zone,
    pub journal: K,
    pub at_place: bool,
}

impl<J: Naming, K: Keeps> SharedZone<J, K> {
    /// The opened zone behind a lock of its own, at this place of the row.
    pub fn new(place: usize, opened: OpenedZone<K>) -> SharedZone<J, K>
        requires key { opened_key opened ≡ key_at J.zones place }
        requires board { opened.board ≡ board_at J.boards place }
        ensures { result ≡ place }
    {
        let (guarded, board) = Guarded::opened(place, opened);
        SharedZone {
            state: Mutex::new(guarded),
            board,
            place,
        }
    }

    /// The lock's place in the row.
    pub fn place(&self) -> usize
        ensures { result ≡ self.now }
    {
        self.place
    }

    /// The board of the lock's place.
    pub fn board(&self) -> &Board
        ensures { result.now ≡ board_at J.boards self.now }
    {
        &self.board
    }

    /// The lock, taken: what lies under it. A thread that finds it taken tries it for a while, and then sleeps until it is its turn. Who
    /// means to make sections of the zone of this place asks what lies there for its place first.
    #[inline(always)]
    pub fn lock<R: Wait>(&self, rt: &R) -> MutexGuard<'_, Guarded<J, K>> {
        lock_soon(&self.state, rt)
    }

    /// The zone and what is kept of it, out of their lock for good. Where the zone is the one of the lock's place, each of the readers has then
    /// seen all that was published: each reading that it took is the zone's counts after as many of its entries as the reading's place says.
    /// Else none is read.
    pub fn close(self, readers: &mut [BoardReader]) -> Closed<K>
        requires { All (λ (r : CountsSeen). r.tie ≡ (board_at J.boards self).tie) readers.old }
        ensures journal { K.keeps result.zone result.journal }
        ensures history { IsHistory result.zone.plain result.zone.entries }
        ensures here { result.at_place ≡ true → key_of result.zone ≡ key_at J.zones self }
        ensures room { result.at_place ≡ true → K.bounds (board_at J.boards self).capacity (K.capacity result.journal (board_at J.boards self).capacity) }
        ensures read { result.at_place ≡ true → HaveReadZone result.zone readers.old readers.new }
        ensures taken { result.at_place ≡ true → (r : Reading) → All (λ (s : CountsSeen). IsReadingOf s.seen r → IsCountsOf result.zone r) readers.old }
        ensures strayed { result.at_place ≡ false → IsElsewhere J.zones self result.zone × (readers.new ≡ readers.old) }
    {
        let (mut guarded, board, place) = self.into_guarded();
        let at_place = guarded.place() == place;
        // a clause of this call says what is published
        guarded.counts();
        if at_place {
            read_all(&mut guarded, &board, readers);
        }
        let (zone, journal) = guarded.into_parts();
        Closed {
            zone,
            journal,
            at_place,
        }
    }

    /// What lies under the lock, the board of the lock's place, and that place.
    pub(crate) fn into_guarded(self) -> (Guarded<J, K>, Board, usize)
        ensures board { result.1 ≡ board_at J.boards self }
        ensures place { result.2 ≡ self }
    {
        let SharedZone {
            state,
            board,
            place,
        } = self;
        (state.into_inner(), board, place)
    }
}

/// Has each of the readers read the board of a zone.
fn read_all<J: Naming, K: Keeps>(
    guarded: &mut Guarded<J, K>,
    board: &Board,
    readers: &mut [BoardReader],
)
    requires board { board.now ≡ board_at J.boards guarded.old.place }
    requires readers { All (λ (r : CountsSeen). r.tie ≡ board.now.tie) readers.old }
    ensures same { guarded.new ≡ guarded.old }
    ensures read { HaveReadAll guarded.old.published readers.old readers.new }
{
    let Some((first, rest)) = readers.split_first_mut() else {
        return;
    };
    guarded.show_board(board, first);
    read_all(guarded, board, rest);
}
