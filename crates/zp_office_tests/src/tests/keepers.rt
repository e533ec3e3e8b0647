//! Two workers at their desks, each in a thread of its own, over a zone that keeps nothing, and over one whose journal is cut.
ghost use Rattle.std.specs.Prelude.{◌≡◌, ◌∷◌, [], All, IfSome, map};
ghost use Rattle.std.specs.List.{AllZip};
ghost use Rattle.zp_share.specs.Shares.{key_of};
ghost use Rattle.zp_office.specs.Desks.{IsReady};
ghost use Rattle.zp_office.specs.Runs.{IsLentTo};
ghost use Rattle.zp_shared.specs.Rows.{IsRowOf, opened_board, opened_key};

use super::rows::opened_trace;
use std::alloc::Global;
use std::marker::Brand;
use std::sync::Wait;
use std::test::*;
use std::thread::Threads;
use zp_journal::Journal;
use zp_model::Refused;
use zp_office::{CommandReply, Desk, OpenGate, run_workers};
use zp_shared::{
    BoardReader, Closed, CutJournal, Keeps, Naming, NoJournal, OpenedZone, SharedZone, reader_rows,
    share_zones,
};
use zp_zone::Zone;

/// Each worker allocates a page and frees it: two sections.
const PAGES: &str = "zone DMA 0 4096 0\nworkers 2\nlists 0 0\n\
    0 alloc a 0 M DMA low\n0 free a\n1 alloc a 0 M DMA low\n1 free a\n";

/// For how many sections there is room, which is what the workers make.
const SECTIONS: u32 = 4;

/// The zone of the trace, and the desks of its workers.
fn opened_one(alloc: Global) -> Option<(Zone, Vec<Desk>)>
    ensures new { IfSome result (λ r. r.0.entries ≡ []) }
    ensures ready { IfSome result (λ r. All (IsReady (key_of r.0 ∷ [])) r.1.items) }
{
    let (mut zones, desks) = opened_trace(alloc, PAGES)?;
    if zones.len() != 1 {
        return None;
    }
    Some((zones.remove(0), desks))
}

/// What is left when all workers have ended.
#[derive(Drop)]
struct Ran<K: Keeps> {
    desks: Vec<Desk>,
    closed: Closed<K>,
}

/// A vector of one.
fn alone<T: Drop>(alloc: Global, one: T) -> Option<Vec<T>>
    ensures { IfSome result (λ all. all.items ≡ one ∷ []) }
{
    let mut all = Vec::with_capacity(alloc, 1).ok()?;
    all.push_reserved(one);
    Some(all)
}

/// The workers of these desks run over the zone.
fn run_over<K: Keeps + Send, R: Sync + Threads + Wait>(
    rt: &R,
    alloc: Global,
    opened: OpenedZone<K>,
    desks: Vec<Desk>,
) -> Result<Ran<K>, Refused>
    requires ready { All (IsReady (opened_key opened ∷ [])) desks.items }
{
    let Some(mut row) = alone(alloc, opened) else {
        return Err(Refused::Memory);
    };
    let readers = reader_rows(alloc, &mut row, desks.len())?;
    run_as::<Brand, K, R>(rt, alloc, row, readers, desks)
}

/// As `run_over`, under the name of the opened zone.
fn run_as<J: Naming + Send + Sync, K: Keeps + Send, R: Sync + Threads + Wait>(
    rt: &R,
    alloc: Global,
    opened: Vec<OpenedZone<K>>,
    readers: Vec<Vec<BoardReader>>,
    desks: Vec<Desk>,
) -> Result<Ran<K>, Refused>
    requires keys { map opened_key opened.items ≡ J.zones }
    requires boards { map opened_board opened.items ≡ J.boards }
    requires readers { AllZip (IsLentTo J.zones J.boards) readers.items desks.items }
    requires ready { All (IsReady J.zones) desks.items }
{
    let (mut readers, mut desks) = (readers, desks);
    let row = share_zones::<J, K>(alloc, opened)?;
    work::<J, K, R>(rt, alloc, &row, &mut readers, &mut desks)?;
    let closed = close(row)?;
    Ok(Ran { desks, closed })
}

/// The workers run over the row.
fn work<J: Naming + Send + Sync, K: Keeps + Send, R: Sync + Threads + Wait>(
    rt: &R,
    alloc: Global,
    row: &[SharedZone<J, K>],
    readers: &mut [Vec<BoardReader>],
    desks: &mut [Desk],
) -> Result<(), Refused>
    requires row { IsRowOf J.zones row.now }
    requires readers { AllZip (IsLentTo J.zones J.boards) readers.old desks.old }
    requires ready { All (IsReady J.zones) desks.old }
{
    run_workers(rt, alloc, row, readers, desks, &OpenGate)
}

/// The zone out of its lock. Refused 31 where there is none.
fn close<J: Naming, K: Keeps>(row: Vec<SharedZone<J, K>>) -> Result<Closed<K>, Refused> {
    let mut row = row;
    match row.pop() {
        Some(shared) => Ok(shared.close(&mut [])),
        None => Err(Refused::NoThread),
    }
}

/// Whether each worker got a page and gave it back, and the zone is whole.
fn have_worked(desks: &[Desk], zone: &Zone) -> bool {
    for desk in desks {
        if !matches!(desk.replies(), [CommandReply::Page(_), CommandReply::Freed]) {
            return false;
        }
    }
    desks.len() == 2 && zone.counts().free == 4096
}

/// The workers run over a zone that keeps nothing. None where something could not be made.
fn run_without_journal<R: Sync + Threads + Wait>(rt: &R, alloc: Global) -> Option<Ran<NoJournal>> {
    let (zone, desks) = opened_one(alloc)?;
    match OpenedZone::without_journal(alloc, zone, u64::from(SECTIONS)) {
        Ok(opened) => run_over(rt, alloc, opened, desks).ok(),
        Err(_) => None,
    }
}

/// The same over one with a journal that their sections just fit into, cut by nobody.
fn run_with_pieces<R: Sync + Threads + Wait>(rt: &R, alloc: Global) -> Option<Ran<CutJournal>> {
    let journal = Journal::new(alloc, SECTIONS).ok()?;
    let (zone, desks) = opened_one(alloc)?;
    match OpenedZone::with_pieces(alloc, zone, journal, u64::MAX) {
        Ok(opened) => run_over(rt, alloc, opened, desks).ok(),
        Err(_) => None,
    }
}

#[test]
fn desks_work_over_a_zone_without_a_journal(rt: HostRuntime) {
    let Some(Ran { desks, closed }) = run_without_journal(&rt, rt.alloc()) else {
        assert!(rt; false, "the workers run");
        return;
    };
    assert!(rt; have_worked(desks.as_slice(), &closed.zone));
}

/// The journal is the one piece, and begins with the first entry.
#[test]
fn desks_work_over_a_zone_whose_journal_is_cut(rt: HostRuntime) {
    let Some(Ran { desks, closed }) = run_with_pieces(&rt, rt.alloc()) else {
        assert!(rt; false, "the workers run");
        return;
    };
    assert!(rt; have_worked(desks.as_slice(), &closed.zone));
    let piece = closed.journal.into_piece();
    assert!(rt; piece.before == 0 && piece.journal.len() == SECTIONS);
}
