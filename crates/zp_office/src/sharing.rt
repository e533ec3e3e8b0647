//! Zones in one hand go to workers in threads, and come back.
ghost use Rattle.std.specs.Prelude.{◌≡◌, ◌≤◌, ◌⊎◌, [], All, Err, IfErr, IfOk, OnOk, length, map, replicate};
ghost use Rattle.std.specs.List.{AllZip};
ghost use Rattle.std.specs.Vec.{vec_capacity};
ghost use Rattle.zp_model.specs.declared.refused.Refused.TheVariants.{Memory, NoThread};
ghost use Rattle.zp_zone.specs.Seats.{ZoneState};
ghost use Rattle.zp_journal.specs.declared.journal.TheConstants.{LONGEST_JOURNAL};
ghost use Rattle.zp_counts.specs.CountBoards.{BoardState};
ghost use Rattle.zp_journal.specs.Journals.{IsJournalOf, JournalState};
ghost use Rattle.zp_share.specs.Shares.{IsShareOf, key_of};
ghost use Rattle.zp_office.specs.Desks.{DeskState, IsReady, IsWorked};
ghost use Rattle.zp_shared.specs.Rows.{HaveReadZones, IsLegalBy, opened_board, opened_key};
ghost use Rattle.zp_office.specs.Runs.{HaveShare, HaveShares, IsLentTo};

use crate::desk::Desk;
use crate::gate::Gate;
use crate::workers::run_workers;
use std::alloc::Global;
use std::marker::Brand;
use std::sync::Wait;
use std::thread::Threads;
use zp_counts::BoardReader;
use zp_journal::Journal;
use zp_model::Refused;
use zp_shared::{Naming, OpenedZone, close_zones, open_zones, reader_rows, share_zones};
use zp_zone::Zone;

/// Zones that were shared, in their order, with all that was kept of them: the journal of each, and the row of readers of each worker.
#[derive(Drop)]
pub struct ClosedZones {
    pub zones: Vec<Zone>,
    pub journals: Vec<Journal>,
    pub readers: Vec<Vec<BoardReader>>,
}

/// The zones are shared by the workers at these desks, each in a thread of its own, and come back when all have ended, each with its
/// journal, which has room for so many entries, and with the readers, which have then seen all that was published of the zones. Refused 6,
/// and then no worker has begun; or 31, where a thread cannot be started or a zone lies under another's lock. A refusal loses the zones.
pub fn run_zones<R: Threads + Wait + Sync, G: Gate + Sync>(
    rt: &R,
    alloc: Global,
    zones: Vec<Zone>,
    capacity: u32,
    desks: &mut [Desk],
    gate: &G,
) -> Result<ClosedZones, Refused>
    requires new { All (λ (z : ZoneState). z.entries ≡ []) zones.items }
    requires capacity { capacity ≤ LONGEST_JOURNAL }
    requires ready { All (IsReady (map key_of zones.items)) desks.old }
    ensures keys { IfOk result (λ c. map key_of c.zones.items ≡ map key_of zones.items) }
    ensures worked { OnOk result (AllZip IsWorked desks.old desks.new) }
    ensures memory { result ≡ Err Memory → desks.new ≡ desks.old }
    ensures why { IfErr result (λ e. (e ≡ Memory) ⊎ (e ≡ NoThread)) }

    // The journals are legal from the openings of the zones, each worker's entries are its sections, and the readings are counts after them.
    ensures journals { IfOk result (λ c. AllZip IsJournalOf c.zones.items c.journals.items) }
    ensures legal { IfOk result (λ c. AllZip IsLegalBy (map key_of zones.items) c.journals.items) }
    ensures rooms { IfOk result (λ c. map (λ (j : JournalState). j.capacity) c.journals.items ≡ replicate (length zones.items) capacity) }
    ensures agree { IfOk result (λ c. HaveShares c.zones.items desks.new) }
    ensures many { IfOk result (λ c. length c.readers.items ≡ length desks.old) }
    ensures read { IfOk result (λ c. All (HaveReadZones c.zones.items) c.readers.items) }
{
    let many = zones.len();
    let (Ok(zone_room), Ok(journal_room)) = (
        Vec::with_capacity(alloc, many),
        Vec::with_capacity(alloc, many),
    ) else {
        return Err(Refused::Memory);
    };
    let mut opened = open_zones(alloc, zones, capacity)?;
    let mut readers = reader_rows(alloc, &mut opened, desks.len())?;
    let (mut zones, journals) = run_as::<Brand, R, G>(
        rt,
        alloc,
        opened,
        &mut readers,
        desks,
        gate,
        (zone_room, journal_room),
    )?;
    check_desks(&mut zones, desks);
    Ok(ClosedZones {
        zones,
        journals,
        readers,
    })
}

// As `run_zones`, under the name of the opened zones, with room for what comes back.
fn run_as<J: Naming + Send + Sync, R: Threads + Wait + Sync, G: Gate + Sync>(
    rt: &R,
    alloc: Global,
    opened: Vec<OpenedZone>,
    readers: &mut [Vec<BoardReader>],
    desks: &mut [Desk],
    gate: &G,
    room: (Vec<Zone>, Vec<Journal>),
) -> Result<(Vec<Zone>, Vec<Journal>), Refused>
    requires keys { map opened_key opened.items ≡ J.zones }
    requires boards { map opened_board opened.items ≡ J.boards }
    requires readers { AllZip (IsLentTo J.zones J.boards) readers.old desks.old }
    requires ready { All (IsReady J.zones) desks.old }
    requires empty { (room.0.items ≡ []) × (room.1.items ≡ []) }
    requires room { (length opened.items ≤ vec_capacity room.0) × (length opened.items ≤ vec_capacity room.1) }
    ensures keys { IfOk result (λ c. map key_of c.0.items ≡ J.zones) }
    ensures journals { IfOk result (λ c. AllZip IsJournalOf c.0.items c.1.items) }
    ensures legal { IfOk result (λ c. AllZip IsLegalBy J.zones c.1.items) }
    ensures rooms { IfOk result (λ c. map (λ (j : JournalState). j.capacity) c.1.items ≡ map (λ (b : BoardState). b.capacity) J.boards) }
    ensures read { IfOk result (λ c. All (HaveReadZones c.0.items) readers.new) }
    ensures worked { OnOk result (AllZip IsWorked desks.old desks.new) }
    ensures memory { result ≡ Err Memory → desks.new ≡ desks.old }
    ensures why { IfErr result (λ e. (e ≡ Memory) ⊎ (e ≡ NoThread)) }
{
    let row = share_zones::<J, _>(alloc, opened)?;
    run_workers(rt, alloc, &row, readers, desks, gate)?;
    let (zones, journals) = room;
    close_zones(row, readers, zones, journals).ok_or(Refused::NoThread)
}

// Nothing changes, and the share of each desk agrees with each of the zones.
fn check_desks(zones: &mut [Zone], desks: &mut [Desk])
    requires { All (λ (d : DeskState). IsShareOf (map key_of zones.old) d.share) desks.old }
    ensures zones { zones.new ≡ zones.old }
    ensures desks { desks.new ≡ desks.old }
    ensures agree { HaveShares zones.old desks.old }
{
    for desk in desks.iter_mut() {
        check_desk(zones, desk);
    }
}

// The same of one desk.
fn check_desk(zones: &mut [Zone], desk: &mut Desk)
    requires { IsShareOf (map key_of zones.old) desk.old.share }
    ensures zones { zones.new ≡ zones.old }
    ensures desk { desk.new ≡ desk.old }
    ensures agree { HaveShare zones.old desk.old }
{
    for place in 0..zones.len() {
        desk.check(&mut zones[place], place);
    }
}
