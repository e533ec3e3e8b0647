//! A worker of one zone that threads share.
ghost use Rattle.std.specs.Prelude.{◌≡◌, ◌≢◌, ◌≤◌, ◌*◌, ◌∷◌, [], ◌⊎◌, false, length, map, Err, IfOk, IfErr, IfSome, IsTrue, OnErr, OnOk};
ghost use Rattle.zp_counts.specs.CountBoards.{BoardState};
ghost use Rattle.zp_counts.specs.declared.reading.Reading.{Reading};
ghost use Rattle.zp_counts.specs.CountBoards.{last_reading};
ghost use Rattle.zp_model.specs.declared.migrate_type.MigrateType.TheVariants.{Movable};
ghost use Rattle.zp_model.specs.declared.mark.Mark.TheVariants.{Low};
ghost use Rattle.zp_model.specs.declared.refused.Refused.TheVariants.{JournalFull, Memory, NotLent};
ghost use Rattle.zp_model.specs.declared.constants.TheConstants.{LONGEST_LIST, TYPES, MAX_ZONES};
ghost use Rattle.zp_share.specs.Readings.{CoversOwn};
ghost use Rattle.zp_share.specs.Shares.{ZoneKey, AreAskedDown, DrainsOnce, HasEmptyLists, HasSameLent, HasSameLentBut, IsDrainedTill, IsFreedIn, IsLentBy, IsSameShare, IsShareOf, KeepsLent, sections_at, share_at};
ghost use Rattle.zp_share.specs.ZoneShares.{IsAllocRefusal, is_lent};
ghost use Rattle.zp_shared.specs.OneZones.{WorkerState, opening_worker};
ghost use Rattle.zp_shared.specs.Rows.{AreReaders, AreReadersOf, HasCovered, HasSeenAll, IsReadAt, board_at, seen_at, seen_by};
ghost use Rattle.zp_zone.specs.Seats.{IsUnused};

use crate::locked_zones::LockedZones;
use crate::naming::Naming;
use crate::one_zone::OneZone;
use std::alloc::Global;
use std::marker::{Model, PhantomData};
use std::sync::Wait;
use zp_counts::{BoardReader, Reading};
use zp_journal::Keeps;
use zp_model::{Mark, MigrateType, Order, Refused};
use zp_share::{Lent, ListConfig, Share, alloc, drain_all, free};
use zp_zone::Seat;

/// A worker's share of the zone and its reader of the zone's board, to be moved into the worker's thread. Contracts see the share.
#[derive(Drop)]
pub struct ZoneWorker<J: Naming> {
    share: Share,
    readers: Vec<BoardReader>,
    of: PhantomData<J>,
}

impl<J: Naming> Model for ZoneWorker<J> {
    ghost use Rattle.std.specs.Prelude.{◌≡◌, length};
    ghost use Rattle.zp_share.specs.Shares.{IsShareOf, ShareState};
    ghost use Rattle.zp_shared.specs.Rows.{AreReaders};

    ghost Value = { ShareState };

    ghost view = { λ w. w.share };

    ghost invariant = { λ w. IsShareOf J.zones w.share × (length w.share.zones ≡ 1) × AreReaders J.zones J.boards w.readers };
}

impl<J: Naming> ZoneWorker<J> {
    /// The worker of a seat, with no lists: each of its requests is a section. None where there is no memory.
    pub fn new(alloc: Global, seat: Seat, reader: BoardReader) -> Option<ZoneWorker<J>>
        requires tie { map (λ (k : ZoneKey). k.tie) J.zones ≡ seat.tie ∷ [] }
        requires board { map (λ (b : BoardState). b.tie) J.boards ≡ reader.tie ∷ [] }
        requires each { length J.boards ≡ length J.zones }
        requires unused { IsUnused seat }
        ensures { IfSome result (λ w. w ≡ opening_worker 0 0 seat) }
    {
        ZoneWorker::with_lists(alloc, seat, reader, ListConfig::none()).ok()
    }

    /// The worker of a seat, with empty lists of these settings: single pages come from them and go to them. Refused 6.
    pub fn with_lists(
        alloc: Global,
        seat: Seat,
        reader: BoardReader,
        lists: ListConfig,
    ) -> Result<ZoneWorker<J>, Refused>
        requires tie { map (λ (k : ZoneKey). k.tie) J.zones ≡ seat.tie ∷ [] }
        requires board { map (λ (b : BoardState). b.tie) J.boards ≡ reader.tie ∷ [] }
        requires each { length J.boards ≡ length J.zones }
        requires unused { IsUnused seat }
        ensures worker { IfOk result (λ w. w ≡ opening_worker lists.batch lists.high_len seat) }
        ensures why { IfErr result (λ e. e ≡ Memory) }
    {
        let (Ok(mut seats), Ok(mut readers)) = (
            Vec::with_capacity(alloc, 1),
            Vec::with_capacity(alloc, 1),
        ) else {
            return Err(Refused::Memory);
        };
        seats.push_reserved(seat);
        readers.push_reserved(reader);
        Ok(ZoneWorker {
            share: Share::new(alloc, seats, lists)?,
            readers,
            of: PhantomData,
        })
    }

    /// The worker turns to its zone.
    pub fn at<'a, R, K: Keeps>(self, rt: &'a R, zone: &'a OneZone<J, K>) -> WorkerAt<'a, J, R, K>
        ensures { result.share ≡ self }
    {
        let ZoneWorker { share, readers, .. } = self;
        WorkerAt {
            share,
            view: LockedZones::<J, (), R, K>::new(rt, zone.as_slice(), readers),
        }
    }
}

/// A worker at work on its zone. Contracts see its share, and its view of the zone's counts.
#[derive(Drop)]
pub struct WorkerAt<'a, J: Naming, R, K: Keeps> {
    share: Share,
    view: LockedZones<'a, J, (), R, K>,
}

impl<'a, J: Naming, R, K: Keeps> Model for WorkerAt<'a, J, R, K> {
    ghost use Rattle.std.specs.Prelude.{◌≡◌, length};
    ghost use Rattle.zp_share.specs.Shares.{IsShareOf};
    ghost use Rattle.zp_shared.specs.OneZones.{WorkerState};

    ghost Value = { WorkerState };

    ghost view = { λ w. record { share = w.share; view = w.view } };

    ghost invariant = { λ w. IsShareOf J.zones w.share × (length w.share.zones ≡ 1) };
}

impl<'a, J: Naming, R, K: Keeps> WorkerAt<'a, J, R, K> {
    /// Its number among the zone's workers.
    pub fn number(&self) -> u8
        ensures { result ≡ self.now.share.worker }
    {
        self.share.worker().number()
    }

    /// How many sections it has made.
    pub fn sections(&self) -> u64
        ensures { result ≡ sections_at self.now.share 0 }
    {
        self.share.sections(0)
    }

    /// Its share, which tells what is lent to it and what its lists have.
    pub fn share(&self) -> &Share
        ensures { result.now ≡ self.now.share }
    {
        &self.share
    }

    /// The zone's counts, with their place: no older than the worker's last section. Takes no lock and never waits.
    pub fn read(&mut self) -> Reading
        ensures share { self.new.share ≡ self.old.share }
        ensures last { result ≡ last_reading (seen_at (seen_by self.new.view.readers) 0) }
        ensures read { IsReadAt 0 self.old.view self.new.view }
    {
        self.view.read(0)
    }

    /// The worker turns away from its zone.
    pub fn into_worker(self) -> ZoneWorker<J>
        ensures { result ≡ self.entry.share }
    {
        let WorkerAt { share, view } = self;
        ZoneWorker {
            share,
            readers: view.into_readers(),
            of: PhantomData,
        }
    }
}

impl<'a, J: Naming, R: Wait, K: Keeps> WorkerAt<'a, J, R, K> {
    /// Allocates a block of this order for this type, held to this mark: it is then lent. One section, or none where the worker's list has
    /// a page. Refused 10 where the mark forbids it, 11 where there is none, 30 where no section can be made.
    pub fn alloc(&mut self, order: Order, kind: MigrateType, mark: Mark) -> Result<Lent, Refused>
        ensures same { IsSameShare self.old.share self.new.share }
        ensures lent { IfOk result (λ l. IsTrue (is_lent (share_at self.new.share l.zone) l.page l.order)) }
        ensures order { IfOk result (λ l. l.order ≡ order) }
        ensures place { IfOk result (λ l. l.zone ≤ 0) }
        ensures kept { KeepsLent self.old.share self.new.share }
        ensures blocks { IsLentBy result self.old.share self.new.share }
        ensures only { IfErr result IsAllocRefusal }
        ensures asked { AreAskedDown order kind mark 0 result self.old.share self.new.share }
        ensures read { CoversOwn (HasCovered self.old.view) (HasCovered self.new.view) self.old.share self.new.share }
        ensures full { result ≡ Err JournalFull → HasSeenAll (K.bounds (board_at J.boards 0).capacity) self.new.view 0 }
    {
        let WorkerAt { share, view } = self;
        alloc(share, view, order, kind, 0, mark)
    }

    /// A block of this order for Movable requests, held to the mark low: `alloc` for who wants neither chosen.
    pub fn take(&mut self, order: Order) -> Result<Lent, Refused>
        ensures same { IsSameShare self.old.share self.new.share }
        ensures lent { IfOk result (λ l. IsTrue (is_lent (share_at self.new.share l.zone) l.page l.order)) }
        ensures order { IfOk result (λ l. l.order ≡ order) }
        ensures place { IfOk result (λ l. l.zone ≤ 0) }
        ensures kept { KeepsLent self.old.share self.new.share }
        ensures blocks { IsLentBy result self.old.share self.new.share }
        ensures only { IfErr result IsAllocRefusal }
        ensures asked { AreAskedDown order Movable Low 0 result self.old.share self.new.share }
        ensures read { CoversOwn (HasCovered self.old.view) (HasCovered self.new.view) self.old.share self.new.share }
        ensures full { result ≡ Err JournalFull → HasSeenAll (K.bounds (board_at J.boards 0).capacity) self.new.view 0 }
    {
        self.alloc(order, MigrateType::Movable, Mark::Low)
    }

    /// Frees a block. A single page goes to the worker's list of its type, where it has lists. Refused 20 where no such block is
    /// lent to it, and 30; then the share is as it was.
    pub fn give(&mut self, lent: &Lent) -> Result<(), Refused>
        ensures same { IsSameShare self.old.share self.new.share }
        ensures not_lent { is_lent (share_at self.old.share 0) lent.now.page lent.now.order ≡ false → result ≡ Err NotLent }
        ensures gone { OnOk result (is_lent (share_at self.new.share 0) lent.now.page lent.now.order ≡ false) }
        ensures others { HasSameLentBut 0 lent.now.page self.old.share self.new.share }
        ensures left { OnErr result (self.new.share ≡ self.old.share) }
        ensures freed { OnOk result (IsFreedIn (HasSeenAll (K.bounds (board_at J.boards 0).capacity) self.new.view 0) 0 lent.now.page lent.now.order self.old.share self.new.share) }
        ensures read { CoversOwn (HasCovered self.old.view) (HasCovered self.new.view) self.old.share self.new.share }
        ensures full { result ≡ Err JournalFull → HasSeenAll (K.bounds (board_at J.boards 0).capacity) self.new.view 0 }
        ensures only { IfErr result (λ e. (e ≡ NotLent) ⊎ (e ≡ JournalFull)) }
    {
        let WorkerAt { share, view } = self;
        free(share, view, 0, lent.page, lent.order)
    }

    /// Frees all pages of the worker's lists, each list in one section: how many they were. Refused 30; then the lists before that one are
    /// empty, and that one and the rest as they were.
    pub fn drain(&mut self) -> Result<usize, Refused>
        ensures same { IsSameShare self.old.share self.new.share }
        ensures empty { OnOk result (HasEmptyLists self.new.share) }
        ensures stopped { OnErr result (IsDrainedTill 0 self.old.share self.new.share) }
        ensures once { DrainsOnce self.old.share self.new.share }
        ensures read { CoversOwn (HasCovered self.old.view) (HasCovered self.new.view) self.old.share self.new.share }
        ensures full { result ≡ Err JournalFull → HasSeenAll (K.bounds (board_at J.boards 0).capacity) self.new.view 0 }
        ensures lent { HasSameLent self.old.share self.new.share }
        ensures only { IfErr result (λ e. e ≡ JournalFull) }
        ensures few { IfOk result (λ n. n ≤ MAX_ZONES * (TYPES * LONGEST_LIST)) }
    {
        let WorkerAt { share, view } = self;
        drain_all(share, view)
    }
}
