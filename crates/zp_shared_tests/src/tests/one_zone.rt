//! A zone of 4,096 pages from page 0 on that one worker asks, without lists, while another thread reads its board.
ghost use Rattle.std.specs.Prelude.{◌≡◌, ◌<◌, ◌≤◌, ◌∷◌, [], All, IfSome, length};
ghost use Rattle.zp_journal.specs.declared.journal.TheConstants.{LONGEST_JOURNAL};
ghost use Rattle.zp_model.specs.Zone.{workers_of};
ghost use Rattle.zp_share.specs.Shares.{IsShareOf, key_of};
ghost use Rattle.zp_shared.specs.Rows.{AreReadersOf, IsRowOf, opened_board, opened_key};

use std::alloc::Global;
use std::marker::Brand;
use std::sync::Wait;
use std::thread::{Threads, join};
use zp_journal::{Journal, LONGEST_JOURNAL, counts_after};
use zp_model::{Counts, Largest, Mark, MigrateType, Order, Refused};
use zp_share::{Lent, ListConfig, Share, alloc};
use zp_shared::{
    BoardReader, LockedZones, Naming, OpenedZone, Reading, SharedZone, close_zones, share_zones,
};
use zp_zone::{Zone, ZoneConfig};

/// More pages than the worker takes.
const MOST_PAGES: u32 = 1024;

pub(super) fn config() -> ZoneConfig<'static> {
    ZoneConfig {
        name: "DMA",
        base: 0,
        pages: 4096,
        min: 0,
        largest: Largest::usual(),
    }
}

/// The zone, opened with room for so many entries, and its worker's share, without lists.
pub(super) fn opened_zone(alloc: Global, capacity: u32) -> Option<(OpenedZone, Share)>
    ensures fits { IfSome result (λ o. IsShareOf (opened_key o.0 ∷ []) o.1) }
    ensures one { IfSome result (λ o. length o.1.zones ≡ 1) }
{
    opened_with_lists(alloc, capacity, ListConfig::new(0, 0)?)
}

/// The zone, opened with room for so many entries, and its worker's share.
pub(super) fn opened_with_lists(
    alloc: Global,
    capacity: u32,
    lists: ListConfig,
) -> Option<(OpenedZone, Share)>
    ensures fits { IfSome result (λ o. IsShareOf (opened_key o.0 ∷ []) o.1) }
    ensures one { IfSome result (λ o. length o.1.zones ≡ 1) }
    ensures alone { IfSome result (λ o. (opened_key o.0).workers ≡ 1) }
{
    if capacity > LONGEST_JOURNAL {
        return None;
    }
    match Zone::new(alloc, config(), 1) {
        Ok((zone, seats)) => match Share::new(alloc, seats, lists) {
            Ok(share) => opened_beside(alloc, zone, share, capacity),
            Err(_) => None,
        },
        Err(_) => None,
    }
}

/// The zone, opened with room for so many entries, and the share of its only worker.
fn opened_beside(
    alloc: Global,
    zone: Zone,
    share: Share,
    capacity: u32,
) -> Option<(OpenedZone, Share)>
    requires new { zone.entries ≡ [] }
    requires fits { IsShareOf (key_of zone ∷ []) share }
    requires one { length share.zones ≡ 1 }
    requires capacity { capacity ≤ LONGEST_JOURNAL }
    ensures fits { IfSome result (λ o. IsShareOf (opened_key o.0 ∷ []) o.1) }
    ensures one { IfSome result (λ o. length o.1.zones ≡ 1) }
    ensures alone { IfSome result (λ o. (opened_key o.0).workers ≡ workers_of zone.plain) }
{
    match OpenedZone::new(alloc, zone, capacity) {
        Ok(opened) => Some((opened, share)),
        Err(_) => None,
    }
}

/// The counts of the zone after so many entries of the journal. None where it has not so many, or one of them is not legal.
pub(super) fn counts_at(alloc: Global, journal: &Journal, place: u64) -> Option<Counts> {
    counts_after(alloc, config(), 1, journal, place).ok()?
}

/// What its worker gets: how many pages it has got, the number of the refusal that ended that, whether the zone strayed, and what
/// its view reads then.
#[derive(Clone, Copy, PartialEq, Eq, Debug, Drop)]
pub(super) struct Taken {
    pub(super) pages: u32,
    pub(super) refused: u8,
    pub(super) strayed: bool,
    pub(super) last: Reading,
}

/// What the worker got, what the other read meanwhile, and the zone's journal.
#[derive(Drop)]
pub(super) struct Ran {
    pub(super) taken: Taken,
    pub(super) readings: Vec<Reading>,
    pub(super) journal: Journal,
}

/// The worker takes single pages until it is refused, and another thread reads so often meanwhile. None where something could not be made.
pub(super) fn run<R: Sync + Threads + Wait>(
    rt: &R,
    alloc: Global,
    capacity: u32,
    reads: u32,
) -> Option<Ran> {
    let (opened, share) = opened_zone(alloc, capacity)?;
    run_as::<Brand, R>(rt, alloc, opened, share, reads)
}

/// As `run`, under the name of the opened zone.
fn run_as<J: Naming + Send + Sync, R: Sync + Threads + Wait>(
    rt: &R,
    alloc: Global,
    mut opened: OpenedZone,
    share: Share,
    reads: u32,
) -> Option<Ran>
    requires zones { J.zones ≡ opened_key opened ∷ [] }
    requires boards { J.boards ≡ opened_board opened ∷ [] }
    requires fits { IsShareOf J.zones share }
    requires one { length share.zones ≡ 1 }
{
    match (alone(alloc, opened.reader()), alone(alloc, opened.reader())) {
        (Some(mine), Some(other)) => run_with::<J, R>(rt, alloc, opened, share, mine, other, reads),
        _ => None,
    }
}

/// The same with these readers.
fn run_with<J: Naming + Send + Sync, R: Sync + Threads + Wait>(
    rt: &R,
    alloc: Global,
    opened: OpenedZone,
    share: Share,
    mine: Vec<BoardReader>,
    other: Vec<BoardReader>,
    reads: u32,
) -> Option<Ran>
    requires zones { J.zones ≡ opened_key opened ∷ [] }
    requires boards { J.boards ≡ opened_board opened ∷ [] }
    requires fits { IsShareOf J.zones share }
    requires one { length share.zones ≡ 1 }
    requires mine { AreReadersOf J.zones J.boards mine.items }
    requires other { AreReadersOf J.zones J.boards other.items }
{
    let opened = alone(alloc, opened)?;
    match share_zones::<J, _>(alloc, opened) {
        Ok(row) => run_row(rt, alloc, row, OwnReaders { share, mine, other }, reads),
        Err(_) => None,
    }
}

/// A worker's share, its reader, and that of who reads beside it.
#[derive(Drop)]
struct OwnReaders {
    share: Share,
    mine: Vec<BoardReader>,
    other: Vec<BoardReader>,
}

/// The worker and the reader at the same time, each in a thread.
fn run_row<J: Naming + Send + Sync, R: Sync + Threads + Wait>(
    rt: &R,
    alloc: Global,
    row: Vec<SharedZone<J>>,
    own: OwnReaders,
    reads: u32,
) -> Option<Ran>
    requires row { IsRowOf J.zones row.items }
    requires zones { length J.zones ≡ 1 }
    requires boards { length J.boards ≡ 1 }
    requires fits { IsShareOf J.zones own.share }
    requires one { length own.share.zones ≡ 1 }
    requires mine { AreReadersOf J.zones J.boards own.mine.items }
    requires other { AreReadersOf J.zones J.boards own.other.items }
{
    let OwnReaders { share, mine, other } = own;
    let view = LockedZones::<J, (), R>::new(rt, row.as_slice(), mine);
    let reading = LockedZones::<J, (), R>::new(rt, row.as_slice(), other);
    let worker = OnlyWorker { share, view };
    let ((taken, mine), (readings, other)) = join(
        rt,
        move || worker.take_pages(),
        move || read_often(alloc, reading, reads),
    );
    let journal = journal_of(alloc, row, [mine, other])?;
    Some(Ran {
        taken,
        readings,
        journal,
    })
}

/// The journal of the zone, out of its lock, when these readers have seen all. None where there is no memory, or it lay at another's place.
fn journal_of<J: Naming>(
    alloc: Global,
    row: Vec<SharedZone<J>>,
    mut readers: [Vec<BoardReader>; 2],
) -> Option<Journal>
    requires row { IsRowOf J.zones row.items }
    requires zones { length J.zones ≡ 1 }
    requires boards { length J.boards ≡ 1 }
    requires readers { All (λ rs. AreReadersOf J.zones J.boards rs.items) readers }
{
    let zones = Vec::with_capacity(alloc, 1);
    let journals = Vec::with_capacity(alloc, 1);
    let closed = match (zones, journals) {
        (Ok(zones), Ok(journals)) => close_zones(row, &mut readers, zones, journals),
        _ => None,
    };
    let (_zones, mut journals) = closed?;
    journals.pop()
}

/// A vector of one.
pub(super) fn alone<T: Drop>(alloc: Global, one: T) -> Option<Vec<T>>
    ensures { IfSome result (λ all. all.items ≡ one ∷ []) }
{
    let mut all = Vec::with_capacity(alloc, 1).ok()?;
    all.push_reserved(one);
    Some(all)
}

/// The one worker of a row of one zone, with its view of the row.
#[derive(Drop)]
pub(super) struct OnlyWorker<'a, J: Naming, R> {
    pub(super) share: Share,
    pub(super) view: LockedZones<'a, J, (), R>,
    ghost fits: { IsShareOf J.zones share },
    ghost one: { length share.zones ≡ 1 },
    ghost row: { length J.zones ≡ 1 },
}

impl<'a, J: Naming, R: Wait> OnlyWorker<'a, J, R> {
    /// Takes a single page.
    fn take(&mut self) -> Result<Lent, Refused> {
        let OnlyWorker { share, view } = self;
        alloc(
            share,
            view,
            Order::zero(),
            MigrateType::Movable,
            0,
            Mark::Any,
        )
    }

    /// Takes single pages until it is refused: what it got, and its readers.
    fn take_pages(self) -> (Taken, Vec<BoardReader>)
        ensures { AreReadersOf J.zones J.boards result.1.items }
    {
        let mut worker = self;
        let mut pages = MOST_PAGES;
        let mut refused = 0;
        for taken in 0..MOST_PAGES {
            if let Err(why) = worker.take() {
                pages = taken;
                refused = why.number();
                break;
            }
        }
        let OnlyWorker { mut view, .. } = worker;
        let taken = Taken {
            pages,
            refused,
            strayed: view.strayed(),
            last: view.read(0),
        };
        (taken, view.into_readers())
    }
}

/// So many readings of the first zone, and the readers of the view. Where there is no memory they are fewer.
fn read_often<'a, J: Naming, R>(
    alloc: Global,
    mut view: LockedZones<'a, J, (), R>,
    reads: u32,
) -> (Vec<Reading>, Vec<BoardReader>)
    requires { 0 < length J.zones }
    ensures { AreReadersOf J.zones J.boards result.1.items }
{
    let mut readings = Vec::new(alloc);
    for _ in 0..reads {
        if readings.push(view.read(0)).is_err() {
            break;
        }
    }
    (readings, view.into_readers())
}
