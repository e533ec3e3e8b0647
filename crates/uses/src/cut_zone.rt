//! Workers in threads over one zone whose journal is cut when it is nearly full; the pieces are replayed at the end.
ghost use Rattle.std.specs.Prelude.{◌≡◌, ◌++◌, ◌∷◌, [], ◌↔◌, IfSome, IsTrue, List, Some};
ghost use Rattle.zp_model.specs.Info.{counts_of};
ghost use Rattle.zp_model.specs.Zone.{zone_opening};
ghost use Rattle.zp_journal.specs.Pieces.{AreAdjoining, IsReplayedWhole, entries_of};
ghost use Rattle.zp_journal.specs.declared.pieces.Piece.{Piece};
ghost use Rattle.zp_journal.specs.Cuts.{IsCutOf};

use crate::replayed_pieces::replayed_zone;
use std::alloc::Global;
use std::sync::{Mutex, Wait};
use std::thread::{Threads, map_vec};
use zp_journal::{Journal, Piece};
use zp_model::{Counts, Order, Refused};
use zp_shared::{Closed, CutJournal, Naming, OneZone, SharedZone, WorkerAt, ZoneWorker};
use zp_zone::{Zone, ZoneConfig};

/// For how many entries each journal has room.
pub const PIECE: u32 = 200;

/// From so many on it is cut, after a worker's round: nine tenths. What is left is enough for the other workers' rounds, up to ten of them.
const NEARLY_FULL: u32 = PIECE / 10 * 9;

/// The pieces that were handed over, in order.
type Pieces = Mutex<Vec<Piece>>;

/// What is left of a run.
#[derive(Drop)]
pub struct CutRun {
    /// The zone when all have ended.
    pub zone: Zone,
    /// All journals in order, the last one too, each with its place.
    pub pieces: Vec<Piece>,
    /// The zone that the pieces lead to. Where they adjoin, a new zone returns the same results for the same requests, and has as many free
    /// blocks as the zone.
    pub replayed: Option<Zone>,
}

/// Where the zone's journal is nearly full, it goes to the pieces, and an empty one takes its place. The zone's lock is held meanwhile, so
/// the pieces stand in their order.
fn cut_where_nearly_full<J: Naming, R: Wait>(
    rt: &R,
    alloc: Global,
    shared: &SharedZone<J, CutJournal>,
    pieces: &Pieces,
) -> Result<(), Refused> {
    let mut guarded = shared.lock(rt);
    if guarded.journal().len() < NEARLY_FULL {
        return Ok(());
    }
    let piece = guarded.cut(Journal::new(alloc, PIECE)?);
    let mut handed_over = pieces.lock(rt);
    match handed_over.push(piece) {
        Ok(()) => Ok(()),
        Err(_) => Err(Refused::Memory),
    }
}

/// A worker allocates a page and frees it: two sections.
fn round<J: Naming, R: Wait>(worker: &mut WorkerAt<'_, J, R, CutJournal>) -> Result<(), Refused> {
    let lent = worker.take(Order::zero())?;
    worker.give(&lent)
}

/// One worker allocates a page and frees it, so many times, and looks after each round whether the journal is to be cut. Whether all of
/// it was done.
fn rounds<J: Naming, R: Wait>(
    rt: &R,
    alloc: Global,
    worker: ZoneWorker<J>,
    zone: &OneZone<J, CutJournal>,
    pieces: &Pieces,
    rounds: u32,
) -> bool {
    let mut worker = worker.at(rt, zone);
    for _ in 0..rounds {
        let done = round(&mut worker);
        let cut = cut_where_nearly_full(rt, alloc, zone.shared(), pieces);
        if done.is_err() || cut.is_err() {
            return false;
        }
    }
    true
}

/// The workers take a page and give it back, so many times, all at the same time. Whether all of it was done; not where there is no memory.
fn work<J: Naming + Send + Sync, R: Threads + Wait + Sync>(
    rt: &R,
    alloc: Global,
    zone: &OneZone<J, CutJournal>,
    workers: Vec<ZoneWorker<J>>,
    pieces: &Pieces,
    many: u32,
) -> bool {
    let work = |worker| rounds(rt, alloc, worker, zone, pieces, many);
    match map_vec(rt, workers, &work) {
        Ok(done) => done.iter().all(|done| *done),
        Err(_) => false,
    }
}

/// Whether the zone has these counts.
fn has_counts(zone: &Zone, counts: Counts) -> bool
    ensures { IsTrue result ↔ (counts_of zone.now.plain.area.largest zone.now.plain.area.free ≡ counts) }
{
    zone.counts() == counts
}

/// The zone, where there is one and it has these counts.
fn with_counts(zone: Option<Zone>, counts: Counts) -> Option<Zone>
    ensures same { IfSome result (λ z. zone ≡ Some z) }
    ensures some { IfSome zone (λ z. counts_of z.plain.area.largest z.plain.area.free ≡ counts → result ≡ Some z) }
    ensures counts { IfSome result (λ z. counts_of z.plain.area.largest z.plain.area.free ≡ counts) }
{
    let zone = zone?;
    if has_counts(&zone, counts) {
        Some(zone)
    } else {
        None
    }
}

/// Reports on the zone and its pieces. None where the config makes no zone, or there is no memory for the replay.
fn outcome(
    alloc: Global,
    config: ZoneConfig<'_>,
    workers: u32,
    zone: Zone,
    pieces: Vec<Piece>,
) -> Option<CutRun>
    ensures zone { IfSome result (λ run. run.zone ≡ zone) }
    ensures pieces { IfSome result (λ run. run.pieces ≡ pieces) }
    ensures adjoin { IfSome result (λ run. IfSome run.replayed (λ z. AreAdjoining 0 run.pieces.items)) }
    ensures replayed { IfSome result (λ run. IfSome run.replayed (λ z. IsReplayedWhole config.entry.name.now (zone_opening config.entry.largest config.entry.base config.entry.pages config.entry.min workers) (entries_of run.pieces.items) (Some z))) }
    ensures same { IfSome result (λ run. IfSome run.replayed (λ z. counts_of z.plain.area.largest z.plain.area.free ≡ counts_of run.zone.plain.area.largest run.zone.plain.area.free)) }
{
    let replayed = replayed_zone(alloc, ZoneConfig { ..config }, workers, pieces.as_slice()).ok()?;
    let replayed = with_counts(replayed, zone.counts());
    Some(CutRun {
        zone,
        pieces,
        replayed,
    })
}

/// The pieces, with this one behind them.
fn with_last(mut pieces: Vec<Piece>, last: Piece) -> Option<Vec<Piece>>
    ensures { IfSome result (λ ps. ps.items ≡ pieces.items ++ last ∷ []) }
{
    match pieces.push(last) {
        Ok(_) => Some(pieces),
        Err(_) => None,
    }
}

/// Reports on the zone, taken out of its lock, and on the pieces before its last. None where it was found at another's place, or as
/// `outcome`.
fn closed<J: Naming>(
    alloc: Global,
    config: ZoneConfig<'_>,
    crew: u32,
    shared: SharedZone<J, CutJournal>,
    pieces: Vec<Piece>,
) -> Option<CutRun>
    ensures last { IfSome result (λ run. (ps : List Piece) × (p : Piece) × (run.pieces.items ≡ ps ++ p ∷ []) × IsCutOf run.zone (record { handed = p.before; journal = p.journal })) }
    ensures adjoin { IfSome result (λ run. IfSome run.replayed (λ z. AreAdjoining 0 run.pieces.items)) }
    ensures replayed { IfSome result (λ run. IfSome run.replayed (λ z. IsReplayedWhole config.entry.name.now (zone_opening config.entry.largest config.entry.base config.entry.pages config.entry.min crew) (entries_of run.pieces.items) (Some z))) }
    ensures same { IfSome result (λ run. IfSome run.replayed (λ z. counts_of z.plain.area.largest z.plain.area.free ≡ counts_of run.zone.plain.area.largest run.zone.plain.area.free)) }
{
    let Closed {
        zone,
        journal,
        at_place: true,
    } = shared.close(&mut [])
    else {
        return None;
    };
    match with_last(pieces, journal.into_piece()) {
        Some(pieces) => outcome(alloc, ZoneConfig { ..config }, crew, zone, pieces),
        None => None,
    }
}

/// So many workers of a zone of this config take a page and give it back, so many times, all at the same time; then all that was asked
/// of the zone is replayed, from the pieces put together. None where there is no memory, a thread is missing, a worker was refused, the config
/// makes no zone, or the zone was found at another's place.
pub fn work_in_pieces<J: Naming + Send + Sync, R: Threads + Wait + Sync>(
    rt: &R,
    alloc: Global,
    config: ZoneConfig<'_>,
    crew: u32,
    zone: OneZone<J, CutJournal>,
    workers: Vec<ZoneWorker<J>>,
    many: u32,
) -> Option<CutRun>
    ensures last { IfSome result (λ run. (ps : List Piece) × (p : Piece) × (run.pieces.items ≡ ps ++ p ∷ []) × IsCutOf run.zone (record { handed = p.before; journal = p.journal })) }
    ensures adjoin { IfSome result (λ run. IfSome run.replayed (λ z. AreAdjoining 0 run.pieces.items)) }
    ensures replayed { IfSome result (λ run. IfSome run.replayed (λ z. IsReplayedWhole config.entry.name.now (zone_opening config.entry.largest config.entry.base config.entry.pages config.entry.min crew) (entries_of run.pieces.items) (Some z))) }
    ensures same { IfSome result (λ run. IfSome run.replayed (λ z. counts_of z.plain.area.largest z.plain.area.free ≡ counts_of run.zone.plain.area.largest run.zone.plain.area.free)) }
{
    let pieces = Mutex::new(Vec::new(alloc));
    let done = work(rt, alloc, &zone, workers, &pieces, many);
    match zone.into_zone() {
        Some(shared) if done => closed(
            alloc,
            ZoneConfig { ..config },
            crew,
            shared,
            pieces.into_inner(),
        ),
        _ => None,
    }
}
