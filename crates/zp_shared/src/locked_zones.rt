//! One worker's view of a row of zones that threads share.
ghost use Rattle.std.specs.Prelude.{◌≡◌, ◌<◌, false, length, IfSome};
ghost use Rattle.std.specs.Sync.Mutex.{mutex_guard_value};
ghost use Rattle.zp_counts.specs.declared.reading.Reading.{Reading};
ghost use Rattle.zp_counts.specs.CountBoards.{IsReadingOf, last_reading};
ghost use Rattle.zp_share.specs.Sections.{MayAsk};
ghost use Rattle.zp_share.specs.Shares.{IsShareOf, share_at, workers_at};
ghost use Rattle.zp_shared.specs.Rows.{IsRowOf, AreReadersOf, HaveSeen, HasReadAfter, IsAskedUnderLock, IsReadAt, board_at, is_not_lent, seen_at, seen_by};

use crate::guarded::Guarded;
use crate::naming::{Earlier, Naming};
use crate::shared_zone::SharedZone;
use std::marker::{Model, PhantomData};
use std::sync::{MutexGuard, Wait};
use zp_counts::{Board, BoardReader, Reading};
use zp_journal::{Keeps, WholeJournal};
use zp_model::{Counts, Refused, Reply, Request};
use zp_share::{Share, Zones};

/// A row of zones as one worker turns to them, with a reader of each zone's board: each request takes the lock of its zone, once, and
/// counts are read with no lock. Each section that is not refused 20 ends with its reader shown the zone's board, while the lock is held: so no
/// reading after it is older than it. Where the zone of another place lies under a lock, the request is refused 30, nothing is asked, and
/// the view has strayed. It does not show what its zones are. Contracts see its readers, which have seen all that `E` names, and whether it
/// has strayed.
#[derive(Drop)]
pub struct LockedZones<'a, J: Naming, E: Earlier, R, K: Keeps = WholeJournal> {
    rt: &'a R,
    zones: &'a [SharedZone<J, K>],
    readers: Vec<BoardReader>,
    strayed: bool,
    since: PhantomData<E>,
}

impl<'a, J: Naming, E: Earlier, R, K: Keeps> Model for LockedZones<'a, J, E, R, K> {
    ghost use Rattle.zp_shared.specs.Rows.{IsRowOf, AreReadersOf, HaveSeen, ViewState, seen_by};

    ghost Value = { ViewState };

    ghost view = { λ z. record { readers = z.readers.items; strayed = z.strayed } };

    ghost invariant = { λ z. IsRowOf J.zones z.zones.now × AreReadersOf J.zones J.boards z.readers.items × HaveSeen E.seen (seen_by z.readers.items) };
}

impl<'a, J: Naming, E: Earlier, R, K: Keeps> LockedZones<'a, J, E, R, K> {
    /// A view of the whole row, with a reader of each zone.
    pub fn new(
        rt: &'a R,
        zones: &'a [SharedZone<J, K>],
        readers: Vec<BoardReader>,
    ) -> LockedZones<'a, J, E, R, K>
        requires row { IsRowOf J.zones zones.now }
        requires readers { AreReadersOf J.zones J.boards readers.items }
        requires seen { HaveSeen E.seen (seen_by readers.items) }
        ensures { result ≡ record { readers = readers.items; strayed = false } }
    {
        LockedZones {
            rt,
            zones,
            readers,
            strayed: false,
            since: PhantomData,
        }
    }

    /// Whether the zone of another place was found under a lock.
    pub fn strayed(&self) -> bool
        ensures { result ≡ self.now.strayed }
    {
        self.strayed
    }

    /// The readers, which have seen all that they had seen when they were lent, and more where more was read.
    pub fn into_readers(self) -> Vec<BoardReader>
        ensures same { result.items ≡ self.entry.readers }
        ensures fit { AreReadersOf J.zones J.boards result.items }
        ensures seen { HaveSeen E.seen (seen_by result.items) }
    {
        self.readers
    }

    /// The counts of the zone at a place, with their place: the last of those that its reader has then seen, which begin with all that
    /// it had seen. Takes no lock and never waits.
    pub fn read(&mut self, zone: usize) -> Reading
        requires { zone < length J.zones }
        ensures last { result ≡ last_reading (seen_at (seen_by self.new.readers) zone) }
        ensures read { IsReadAt zone self.old self.new }
        ensures some { 0 < length (seen_at (seen_by self.new.readers) zone) }

        // What was read before is of what is seen still, and so is this.
        ensures taken { IsReadingOf (seen_at (seen_by self.new.readers) zone) result }
        ensures kept { (r : Reading) → IsReadingOf (seen_at (seen_by self.old.readers) zone) r → IsReadingOf (seen_at (seen_by self.new.readers) zone) r }
    {
        let board = self.shared_at(zone).board();
        self.readers[zone].read(board)
    }

    // The lock at a place of the row, with the board beside it.
    fn shared_at(&self, zone: usize) -> &'a SharedZone<J, K>
        requires { zone < length J.zones }
        ensures { result.now ≡ zone }
    {
        let row = self.zones;
        &row[zone]
    }
}

impl<'a, J: Naming, E: Earlier, R: Wait, K: Keeps> LockedZones<'a, J, E, R, K> {
    // The zone at a place, locked, where the one of that place lies there; and the board of that place.
    #[inline(always)]
    fn locked(&self, zone: usize) -> Option<(MutexGuard<'a, Guarded<J, K>>, &'a Board)>
        requires { zone < length J.zones }
        ensures place { IfSome result (λ g. (mutex_guard_value g.0).place ≡ zone) }
        ensures board { IfSome result (λ g. g.1.now ≡ board_at J.boards zone) }
    {
        let shared = self.shared_at(zone);
        let guarded = shared.lock(self.rt);
        if guarded.place() == zone {
            Some((guarded, shared.board()))
        } else {
            None
        }
    }
}

impl<'a, J: Naming, E: Earlier, R: Wait, K: Keeps> Zones for LockedZones<'a, J, E, R, K> {
    ghost use Rattle.std.specs.Prelude.{None};
    ghost use Rattle.zp_shared.specs.Rows.{HasCovered, HasSeenAll, IsReadAfter, IsReadAt, board_at, shown_at};
    ghost use Rattle.zp_shared.specs.Covered.{covered_counted, covered_still};

    ghost keys = { λ z. J.zones };

    ghost told = { λ z. None };

    ghost shown = { shown_at };

    ghost reads = { λ z y i q t. IsReadAfter (K.bounds (board_at J.boards i).capacity) i q t z y };

    ghost counted = { λ z y i. IsReadAt i z y };

    ghost covers = { HasCovered };

    ghost ended = { λ z i t. HasSeenAll (K.bounds (board_at J.boards i).capacity) z i };

    ghost covers_own = { λ z y i q t read section. read.own section };

    ghost covers_counted = { λ z y i read j n covered. covered_counted z y i j n read covered };

    ghost covers_still = { λ z y i q t read j n covered. covered_still z y j n (read.seen j) covered };

    ghost ends = { λ z y i q t read full. read.full full };

    // (in line: where a caller knows which request it is, no room is cleared for a list of pages)
    #[inline(always)]
    fn section(&mut self, share: &mut Share, zone: usize, request: &Request) -> Reply {
        let Some((mut guarded, board)) = self.locked(zone) else {
            self.strayed = true;
            return share.refuse(zone, request);
        };
        let reader = &mut self.readers[zone];
        section_and_reading(&mut guarded, board, reader, share, request)
    }

    /// The counts of the reading that `read` makes.
    fn counts(&mut self, zone: usize) -> Counts {
        self.read(zone).counts
    }
}

/// One request to the guarded zone, and then the reader is shown its board, unless it was refused as the block that it names is not lent.
#[inline(always)]
fn section_and_reading<J: Naming, K: Keeps>(
    guarded: &mut Guarded<J, K>,
    board: &Board,
    reader: &mut BoardReader,
    share: &mut Share,
    request: &Request,
) -> Reply
    requires fits { IsShareOf J.zones share.old }
    requires place { guarded.old.place < length share.old.zones }
    requires board { board.now ≡ board_at J.boards guarded.old.place }
    requires reader { reader.old.tie ≡ board.now.tie }
    requires may { MayAsk (workers_at J.zones guarded.old.place) share.old.batch request.now (share_at share.old guarded.old.place) }
    ensures asked { IsAskedUnderLock J.zones request.now result guarded.old guarded.new share.old share.new }
    ensures read { HasReadAfter (K.bounds board.now.capacity) result guarded.new reader.old reader.new }
{
    let reply = guarded.section(board, share, request);
    if is_not_lent(&reply) {
        return reply;
    }
    guarded.show_board(board, reader);
    reply
}

/// Whether a request was refused as the block that it names is not lent.
#[inline(always)]
fn is_not_lent(reply: &Reply) -> bool
    ensures { result ≡ is_not_lent reply.now }
{
    matches!(reply, Reply::Refused(Refused::NotLent))
}
