//! A row of zones is opened, goes behind its locks, and comes out again.
ghost use Rattle.std.specs.Prelude.{◌≡◌, ◌<◌, ◌≤◌, [], ◌∷◌, All, length, map, IfOk, IfErr, IfSome};
ghost use Rattle.std.specs.List.{AllZip};
ghost use Rattle.std.specs.Vec.{vec_capacity};
ghost use Rattle.zp_model.specs.declared.refused.Refused.TheVariants.{Memory};
ghost use Rattle.zp_zone.specs.Seats.{ZoneState};
ghost use Rattle.zp_journal.specs.declared.journal.TheConstants.{LONGEST_JOURNAL};
ghost use Rattle.zp_counts.specs.CountBoards.{BoardState};
ghost use Rattle.zp_journal.specs.Journals.{IsJournalOf, JournalState};
ghost use Rattle.zp_share.specs.Shares.{key_of};
ghost use Rattle.zp_shared.specs.Rows.{OpenedState, AreKept, AreReaders, AreReadersOf, HaveReadAt, HaveReadZones, IsLegalBy, IsRowOf, board_at, key_at, opened_board, opened_key, opened_reader, zone_counts};

use crate::guarded::Guarded;
use crate::naming::Naming;
use crate::opened::OpenedZone;
use crate::shared_zone::SharedZone;
use std::alloc::Global;
use zp_counts::{Board, BoardReader};
use zp_journal::{Journal, Keeps, NoJournal};
use zp_model::Refused;
use zp_zone::Zone;

/// The zones, opened for threads in their order, each with a journal and a board that have room for so many entries. Refused 6.
pub fn open_zones(
    alloc: Global,
    zones: Vec<Zone>,
    capacity: u32,
) -> Result<Vec<OpenedZone>, Refused>
    requires new { All (λ (z : ZoneState). z.entries ≡ []) zones.items }
    requires capacity { capacity ≤ LONGEST_JOURNAL }
    ensures zones { IfOk result (λ row. map (λ (o : OpenedState). o.zone) row.items ≡ zones.items) }
    ensures capacity { IfOk result (λ row. All (λ (o : OpenedState). o.board.capacity ≡ capacity) row.items) }
    ensures published { IfOk result (λ row. All (λ (o : OpenedState). o.published ≡ zone_counts o.zone ∷ []) row.items) }
    ensures why { IfErr result (λ e. e ≡ Memory) }
{
    let Ok(mut row) = Vec::with_capacity(alloc, zones.len()) else {
        return Err(Refused::Memory);
    };
    for zone in zones {
        row.push_reserved(OpenedZone::new(alloc, zone, capacity)?);
    }
    Ok(row)
}

/// The same for zones that keep nothing of what is asked of them, and make so many sections at most. Refused 6.
pub fn open_zones_without_journals(
    alloc: Global,
    zones: Vec<Zone>,
    sections: u64,
) -> Result<Vec<OpenedZone<NoJournal>>, Refused>
    requires { All (λ (z : ZoneState). z.entries ≡ []) zones.items }
    ensures zones { IfOk result (λ row. map (λ (o : OpenedState). o.zone) row.items ≡ zones.items) }
    ensures keys { IfOk result (λ row. map opened_key row.items ≡ map key_of zones.items) }
    ensures sections { IfOk result (λ row. All (λ (o : OpenedState). (o.board.capacity ≡ sections) × (o.capacity ≡ sections)) row.items) }
    ensures published { IfOk result (λ row. All (λ (o : OpenedState). o.published ≡ zone_counts o.zone ∷ []) row.items) }
    ensures why { IfErr result (λ e. e ≡ Memory) }
{
    let Ok(mut row) = Vec::with_capacity(alloc, zones.len()) else {
        return Err(Refused::Memory);
    };
    for zone in zones {
        row.push_reserved(OpenedZone::without_journal(alloc, zone, sections)?);
    }
    Ok(row)
}

/// A reader of each zone's board, in their order. Refused 6.
pub fn readers_of<K: Keeps>(
    alloc: Global,
    opened: &mut [OpenedZone<K>],
) -> Result<Vec<BoardReader>, Refused>
    ensures same { opened.new ≡ opened.old }
    ensures readers { IfOk result (λ rs. rs.items ≡ map opened_reader opened.old) }
    ensures fit { IfOk result (λ rs. AreReadersOf (map opened_key opened.old) (map opened_board opened.old) rs.items) }
    ensures why { IfErr result (λ e. e ≡ Memory) }
{
    let Ok(mut readers) = Vec::with_capacity(alloc, opened.len()) else {
        return Err(Refused::Memory);
    };
    for zone in opened.iter_mut() {
        readers.push_reserved(zone.reader());
    }
    Ok(readers)
}

/// A row of readers for each of so many workers. Refused 6.
pub fn reader_rows<K: Keeps>(
    alloc: Global,
    opened: &mut [OpenedZone<K>],
    workers: usize,
) -> Result<Vec<Vec<BoardReader>>, Refused>
    ensures same { opened.new ≡ opened.old }
    ensures many { IfOk result (λ rows. length rows.items ≡ workers) }
    ensures fit { IfOk result (λ rows. All (AreReaders (map opened_key opened.old) (map opened_board opened.old)) rows.items) }
    ensures why { IfErr result (λ e. e ≡ Memory) }
{
    let Ok(mut rows) = Vec::with_capacity(alloc, workers) else {
        return Err(Refused::Memory);
    };
    for _ in 0..workers {
        rows.push_reserved(readers_of(alloc, opened)?);
    }
    Ok(rows)
}

/// The opened zones, each behind a lock of its own, in their order. Refused 6.
pub fn share_zones<J: Naming, K: Keeps>(
    alloc: Global,
    opened: Vec<OpenedZone<K>>,
) -> Result<Vec<SharedZone<J, K>>, Refused>
    requires keys { map opened_key opened.items ≡ J.zones }
    requires boards { map opened_board opened.items ≡ J.boards }
    ensures row { IfOk result (λ row. IsRowOf J.zones row.items) }
    ensures why { IfErr result (λ e. e ≡ Memory) }
{
    let Ok(mut row) = Vec::with_capacity(alloc, opened.len()) else {
        return Err(Refused::Memory);
    };
    for zone in opened {
        let place = row.len();
        row.push_reserved(SharedZone::new(place, zone));
    }
    Ok(row)
}

/// The zones and their journals, out of their locks for good, in the rooms that were kept for them. Each reader of the rows that are lent has
/// then seen all that was published of its zone. None where one of the zones lay at another's place.
pub fn close_zones<J: Naming>(
    row: Vec<SharedZone<J>>,
    readers: &mut [Vec<BoardReader>],
    zones: Vec<Zone>,
    journals: Vec<Journal>,
) -> Option<(Vec<Zone>, Vec<Journal>)>
    requires row { IsRowOf J.zones row.items }
    requires boards { length J.boards ≡ length J.zones }
    requires readers { All (AreReaders J.zones J.boards) readers.old }
    requires empty { (zones.items ≡ []) × (journals.items ≡ []) }
    requires room { (length row.items ≤ vec_capacity zones) × (length row.items ≤ vec_capacity journals) }
    ensures keys { IfSome result (λ c. map key_of c.0.items ≡ J.zones) }
    ensures journals { IfSome result (λ c. AllZip IsJournalOf c.0.items c.1.items) }
    ensures legal { IfSome result (λ c. AllZip IsLegalBy J.zones c.1.items) }
    ensures rooms { IfSome result (λ c. map (λ (j : JournalState). j.capacity) c.1.items ≡ map (λ (b : BoardState). b.capacity) J.boards) }
    ensures read { IfSome result (λ c. All (HaveReadZones c.0.items) readers.new) }
    ensures readers { AllZip (AreKept J.zones J.boards) readers.old readers.new }
{
    let mut zones = zones;
    let mut journals = journals;
    for shared in row {
        let (zone, journal) = close_with(shared, readers)?;
        zones.push_reserved(zone);
        journals.push_reserved(journal);
    }
    Some((zones, journals))
}

/// The zone and its journal, out of its lock for good; its reader in each of the rows has then seen all that was published of it. None where
/// it lay at another's place.
fn close_with<J: Naming>(
    shared: SharedZone<J>,
    readers: &mut [Vec<BoardReader>],
) -> Option<(Zone, Journal)>
    requires place { shared < length J.zones }
    requires readers { All (AreReaders J.zones J.boards) readers.old }
    ensures key { IfSome result (λ c. key_of c.0 ≡ key_at J.zones shared) }
    ensures journal { IfSome result (λ c. IsJournalOf c.0 c.1) }
    ensures room { IfSome result (λ c. c.1.capacity ≡ (board_at J.boards shared).capacity) }
    ensures read { IfSome result (λ c. AllZip (HaveReadAt shared c.0) readers.old readers.new) }
    ensures readers { AllZip (AreKept J.zones J.boards) readers.old readers.new }
{
    let (mut guarded, board, place) = shared.into_guarded();
    if guarded.place() != place {
        return None;
    }
    read_rows(&mut guarded, &board, readers);
    Some(guarded.into_parts())
}

/// Has the reader of the zone's place in each of the rows read the zone's board.
fn read_rows<J: Naming>(guarded: &mut Guarded<J>, board: &Board, readers: &mut [Vec<BoardReader>])
    requires place { guarded.old.place < length J.zones }
    requires board { board.now ≡ board_at J.boards guarded.old.place }
    requires readers { All (AreReaders J.zones J.boards) readers.old }
    ensures same { guarded.new ≡ guarded.old }
    ensures read { AllZip (HaveReadAt guarded.old.place guarded.old.zone) readers.old readers.new }
    ensures readers { AllZip (AreKept J.zones J.boards) readers.old readers.new }
{
    for row in readers.iter_mut() {
        read_row(guarded, board, row);
    }
}

/// Has the reader of the zone's place in a row read the zone's board.
fn read_row<J: Naming>(guarded: &mut Guarded<J>, board: &Board, readers: &mut Vec<BoardReader>)
    requires place { guarded.old.place < length J.zones }
    requires board { board.now ≡ board_at J.boards guarded.old.place }
    requires readers { AreReaders J.zones J.boards readers.old }
    ensures same { guarded.new ≡ guarded.old }
    ensures read { HaveReadAt guarded.old.place guarded.old.zone readers.old readers.new }
    ensures readers { AreKept J.zones J.boards readers.old readers.new }
{
    let place = guarded.place();
    guarded.read_board(board, &mut readers[place]);
}
