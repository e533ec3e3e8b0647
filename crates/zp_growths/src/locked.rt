//! Zones behind locks.
ghost use Rattle.std.specs.Prelude.{◌≡◌, ◌∷◌, [], All, IfOk, length};
ghost use Rattle.zp_share.specs.Shares.{IsShareOf, key_of};
ghost use Rattle.zp_shared.specs.Rows.{board_at, opened_board, opened_key};
ghost use Rattle.zp_zone.specs.Seats.{IsSeatOf, IsUnused};

use std::alloc::Global;
use std::marker::Brand;
use std::sync::Wait;
use zp_journal::Journal;
use zp_loads::{Unmade, config, expect};
use zp_makings::lists;
use zp_makings::zones::{FRONT, PAGES};
use zp_model::{Counts, Mark, MigrateType, Order};
use zp_share::Share;
use zp_shared::{
    Board, BoardReader, CutJournal, Guarded, Keeps, Naming, NoJournal, OpenedZone, SharedZone,
    WholeJournal, open_zones, reader_rows, readers_of,
};
use zp_zone::{Seat, Zone};

/// How many requests a journal has room for.
pub const ENTRIES: u32 = 1024;

/// A zone that is opened for threads.
pub fn opened(alloc: Global) -> Result<(), Unmade> {
    let (zone, _seats) = Zone::new(alloc, config(PAGES), 1)?;
    match OpenedZone::new(alloc, zone, ENTRIES) {
        Ok(_opened) => Ok(()),
        Err(refused) => Err(refused.into()),
    }
}

/// Readers of a row of one zone, for one worker and for two.
pub fn readers(alloc: Global) -> Result<(), Unmade> {
    let mut zones = Vec::with_capacity(alloc, 1)?;
    let (zone, _seats) = Zone::new(alloc, config(PAGES), 1)?;
    zones.push_reserved(zone);
    let mut opened = open_zones(alloc, zones, ENTRIES)?;
    let _readers = readers_of(alloc, &mut opened)?;
    let _rows = reader_rows(alloc, &mut opened, 2)?;
    Ok(())
}

/// A zone, and its worker's share.
fn zone_and_share(alloc: Global) -> Result<(Zone, Share), Unmade>
    ensures new { IfOk result (λ z. z.0.entries ≡ []) }
    ensures fits { IfOk result (λ z. IsShareOf (key_of z.0 ∷ []) z.1) }
    ensures one { IfOk result (λ z. length z.1.zones ≡ 1) }
{
    let (zone, seats) = Zone::new(alloc, config(PAGES), 1)?;
    with_share(alloc, zone, seats)
}

/// The zone, and the share of its last seat.
fn with_share(alloc: Global, zone: Zone, mut seats: Vec<Seat>) -> Result<(Zone, Share), Unmade>
    requires seats { All (IsSeatOf zone) seats.items }
    requires unused { All IsUnused seats.items }
    ensures zone { IfOk result (λ z. z.0 ≡ zone) }
    ensures fits { IfOk result (λ z. IsShareOf (key_of z.0 ∷ []) z.1) }
    ensures one { IfOk result (λ z. length z.1.zones ≡ 1) }
{
    let share = match seats.pop() {
        Some(seat) => share_of(alloc, &zone, seat),
        None => Err(Unmade::Other),
    };
    match share {
        Ok(share) => Ok((zone, share)),
        Err(unmade) => Err(unmade),
    }
}

/// An opened zone, and its worker's share.
fn opened_zone(alloc: Global) -> Result<(OpenedZone, Share), Unmade>
    ensures fits { IfOk result (λ o. IsShareOf (opened_key o.0 ∷ []) o.1) }
    ensures one { IfOk result (λ o. length o.1.zones ≡ 1) }
{
    let (zone, share) = zone_and_share(alloc)?;
    let opened = OpenedZone::new(alloc, zone, ENTRIES)?;
    Ok((opened, share))
}

/// The share of the worker of this seat.
fn share_of(alloc: Global, zone: &Zone, seat: Seat) -> Result<Share, Unmade>
    requires seat { IsSeatOf zone.now seat }
    requires unused { IsUnused seat }
    ensures fits { IfOk result (IsShareOf (key_of zone.now ∷ [])) }
    ensures one { IfOk result (λ s. length s.zones ≡ 1) }
{
    let lists = lists()?;
    let mut seats = Vec::with_capacity(alloc, 1)?;
    seats.push_reserved(seat);
    Ok(Share::new(alloc, seats, lists)?)
}

/// A zone behind its lock, and so many rounds of sections under the lock.
pub fn shared<R: Wait>(rt: &R, alloc: Global, calls: u32) -> Result<(), Unmade> {
    let (opened, share) = opened_zone(alloc)?;
    shared_as::<Brand, WholeJournal, R>(rt, opened, share, calls)
}

/// The same of a zone that keeps nothing.
pub fn without_journal<R: Wait>(rt: &R, alloc: Global, calls: u32) -> Result<(), Unmade> {
    let (zone, share) = zone_and_share(alloc)?;
    let opened = OpenedZone::without_journal(alloc, zone, u64::MAX)?;
    shared_as::<Brand, NoJournal, R>(rt, opened, share, calls)
}

/// The same of a zone whose journal can be cut.
pub fn with_pieces<R: Wait>(rt: &R, alloc: Global, calls: u32) -> Result<(), Unmade> {
    let journal = Journal::new(alloc, ENTRIES)?;
    let (zone, share) = zone_and_share(alloc)?;
    match OpenedZone::with_pieces(alloc, zone, journal, u64::MAX) {
        Ok(opened) => shared_as::<Brand, CutJournal, R>(rt, opened, share, calls),
        Err(refused) => Err(refused.into()),
    }
}

/// As `shared`, under the name of the opened zone.
fn shared_as<J: Naming, K: Keeps, R: Wait>(
    rt: &R,
    mut opened: OpenedZone<K>,
    share: Share,
    calls: u32,
) -> Result<(), Unmade>
    requires zones { J.zones ≡ opened_key opened ∷ [] }
    requires boards { J.boards ≡ opened_board opened ∷ [] }
    requires fits { IsShareOf J.zones share }
    requires one { length share.zones ≡ 1 }
{
    let reader = opened.reader();
    let shared = SharedZone::<J, K>::new(0, opened);
    let mut locked = Locked {
        shared,
        reader,
        share,
    };
    locked.rounds(rt, calls)
}

/// A zone behind its lock at the first place, with a reader of its board and the share of its worker.
#[derive(Drop)]
struct Locked<J: Naming, K: Keeps> {
    shared: SharedZone<J, K>,
    reader: BoardReader,
    share: Share,
    ghost place: { shared ≡ 0 },
    ghost reads: { reader.tie ≡ (board_at J.boards 0).tie },
    ghost fits: { IsShareOf J.zones share },
    ghost one: { length share.zones ≡ 1 },
}

impl<J: Naming, K: Keeps> Locked<J, K> {
    /// So many rounds.
    fn rounds<R: Wait>(&mut self, rt: &R, rounds: u32) -> Result<(), Unmade> {
        for _ in 0..rounds {
            self.round(rt)?;
        }
        Ok(())
    }

    /// Allocates a page under the lock and frees it, and reads the board before it, between the two and after them.
    fn round<R: Wait>(&mut self, rt: &R) -> Result<(), Unmade> {
        let Locked {
            shared,
            reader,
            share,
            ..
        } = self;
        take_and_give(rt, shared, reader, share)
    }
}

/// As `Locked::round`.
fn take_and_give<J: Naming, K: Keeps, R: Wait>(
    rt: &R,
    shared: &SharedZone<J, K>,
    reader: &mut BoardReader,
    share: &mut Share,
) -> Result<(), Unmade>
    requires place { shared.now ≡ 0 }
    requires reader { reader.old.tie ≡ (board_at J.boards 0).tie }
    requires fits { IsShareOf J.zones share.old }
    requires one { length share.old.zones ≡ 1 }
    ensures reader { reader.new.tie ≡ reader.old.tie }
    ensures fits { IsShareOf J.zones share.new }
    ensures one { length share.new.zones ≡ 1 }
{
    let board = shared.board();
    let before = reader.read(board);
    let mut guarded = shared.lock(rt);
    if guarded.place() != 0 {
        return Err(Unmade::Other);
    }
    give_again(&mut guarded, board, reader, share, &before.counts)
}

/// The part of it under the lock, where the counts were these before.
fn give_again<J: Naming, K: Keeps>(
    guarded: &mut Guarded<J, K>,
    board: &Board,
    reader: &mut BoardReader,
    share: &mut Share,
    before: &Counts,
) -> Result<(), Unmade>
    requires place { guarded.old.place ≡ 0 }
    requires board { board.now ≡ board_at J.boards 0 }
    requires reader { reader.old.tie ≡ board.now.tie }
    requires fits { IsShareOf J.zones share.old }
    requires one { length share.old.zones ≡ 1 }
    ensures reader { reader.new.tie ≡ reader.old.tie }
    ensures fits { IsShareOf J.zones share.new }
    ensures one { length share.new.zones ≡ 1 }
{
    let order = Order::zero();
    let page = guarded.alloc_block(board, share, order, MigrateType::Movable, Mark::Any)?;
    let taken = guarded.read_board(board, reader);
    guarded.free_block(board, share, page, order)?;
    let after = guarded.read_board(board, reader);
    expect(page.number() == FRONT)?;
    expect(taken.counts.by_order == [1, 1, 1, 1, 1, 1, 1, 1, 1, 1, 3])?;
    expect(before.free == 4096 && taken.counts.free == 4095 && after.counts == *before)
}
