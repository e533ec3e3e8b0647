//! The workers of a trace at work over its zones, each in a thread of its own, and what they leave.
ghost use Rattle.std.specs.Prelude.{◌≡◌, ◌≤◌, [], All, IfSome, map};
ghost use Rattle.std.specs.List.{AllZip};
ghost use Rattle.zp_journal.specs.declared.journal.TheConstants.{LONGEST_JOURNAL};
ghost use Rattle.zp_zone.specs.Seats.{ZoneState};
ghost use Rattle.zp_share.specs.Shares.{key_of};
ghost use Rattle.zp_office.specs.Desks.{IsReady};
ghost use Rattle.zp_shared.specs.Rows.{AreKept, IsRowOf, opened_board, opened_key};
ghost use Rattle.zp_office.specs.Runs.{IsLentTo};

use super::plan::{Plan, Turns};
use std::alloc::Global;
use std::marker::Brand;
use std::sync::Wait;
use std::thread::Threads;
use std::time::Clock;
use zp_journal::{Journal, LONGEST_JOURNAL};
use zp_model::Refused;
use zp_office::{Desk, opened_desks, run_workers};
use zp_shared::{
    BoardReader, Naming, OpenedZone, SharedZone, close_zones, open_zones, reader_rows, share_zones,
};
use zp_trace::parse_trace;
use zp_zone::Zone;

/// The zones that a trace declares, and the desks of its workers.
pub(super) fn opened_trace(alloc: Global, text: &str) -> Option<(Vec<Zone>, Vec<Desk>)>
    ensures new { IfSome result (λ r. All (λ (z : ZoneState). z.entries ≡ []) r.0.items) }
    ensures ready { IfSome result (λ r. All (IsReady (map key_of r.0.items)) r.1.items) }
{
    let trace = parse_trace(alloc, text.as_bytes()).ok()?;
    opened_desks(alloc, &trace).ok()
}

/// What is left when all workers have ended: their desks, and the zones out of their locks, with their journals, where each lay at its
/// place.
#[derive(Drop)]
pub(super) struct Ran {
    pub(super) desks: Vec<Desk>,
    pub(super) closed: Option<(Vec<Zone>, Vec<Journal>)>,
}

/// The workers of a trace run. None where something could not be made, a thread was missing, or a worker gave up waiting.
pub(super) fn run_trace<R: Clock + Sync + Threads + Wait>(
    rt: &R,
    alloc: Global,
    text: &str,
    plan: Plan,
) -> Option<Ran> {
    let (zones, desks) = opened_trace(alloc, text)?;
    if plan.capacity > LONGEST_JOURNAL {
        return None;
    }
    run_zones(rt, alloc, zones, desks, plan).ok()
}

/// The zones are shared by the workers at these desks.
fn run_zones<R: Clock + Sync + Threads + Wait>(
    rt: &R,
    alloc: Global,
    zones: Vec<Zone>,
    desks: Vec<Desk>,
    plan: Plan,
) -> Result<Ran, Refused>
    requires new { All (λ (z : ZoneState). z.entries ≡ []) zones.items }
    requires capacity { plan.capacity ≤ LONGEST_JOURNAL }
    requires ready { All (IsReady (map key_of zones.items)) desks.items }
{
    let mut opened = open_zones(alloc, zones, plan.capacity)?;
    let readers = reader_rows(alloc, &mut opened, desks.len())?;
    run_as::<Brand, R>(rt, alloc, opened, readers, desks, plan)
}

/// As `run_zones`, under the name of the opened zones.
fn run_as<J: Naming + Send + Sync, R: Clock + Sync + Threads + Wait>(
    rt: &R,
    alloc: Global,
    opened: Vec<OpenedZone>,
    readers: Vec<Vec<BoardReader>>,
    desks: Vec<Desk>,
    plan: Plan,
) -> Result<Ran, Refused>
    requires keys { map opened_key opened.items ≡ J.zones }
    requires boards { map opened_board opened.items ≡ J.boards }
    requires readers { AllZip (IsLentTo J.zones J.boards) readers.items desks.items }
    requires ready { All (IsReady J.zones) desks.items }
{
    let (mut readers, mut desks) = (readers, desks);
    let row = share_zones::<J, _>(alloc, opened)?;
    let (Ok(zone_room), Ok(journal_room)) = (
        Vec::with_capacity(alloc, row.len()),
        Vec::with_capacity(alloc, row.len()),
    ) else {
        return Err(Refused::Memory);
    };
    let lent = readers.as_mut_slice();
    run_row::<J, R>(rt, alloc, &row, lent, &mut desks, plan)?;
    let closed = close_zones(row, lent, zone_room, journal_room);
    Ok(Ran { desks, closed })
}

/// The workers run over the row. Refused 31, too, where one gave up waiting.
fn run_row<J: Naming + Send + Sync, R: Clock + Sync + Threads + Wait>(
    rt: &R,
    alloc: Global,
    row: &[SharedZone<J>],
    readers: &mut [Vec<BoardReader>],
    desks: &mut [Desk],
    plan: Plan,
) -> Result<(), Refused>
    requires row { IsRowOf J.zones row.now }
    requires readers { AllZip (IsLentTo J.zones J.boards) readers.old desks.old }
    requires ready { All (IsReady J.zones) desks.old }
    ensures { AllZip (AreKept J.zones J.boards) readers.old readers.new }
{
    let turns = Turns::new(rt, row, plan);
    run_workers(rt, alloc, row, readers, desks, &turns)?;
    if turns.were_kept() {
        Ok(())
    } else {
        Err(Refused::NoThread)
    }
}
