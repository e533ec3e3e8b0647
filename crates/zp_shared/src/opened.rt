//! A zone that is opened for threads, before the row that it is in has a name.
ghost use Rattle.std.specs.Prelude.{◌≡◌, ◌≤◌, true, false, [], ◌∷◌, length, min, nat_le, IfOk, IfErr};
ghost use Rattle.zp_model.specs.declared.refused.Refused.TheVariants.{Memory};
ghost use Rattle.zp_model.specs.Zone.{pages_of};
ghost use Rattle.zp_counts.specs.CountBoards.{HoldsCounts};
ghost use Rattle.zp_journal.specs.declared.journal.TheConstants.{LONGEST_JOURNAL};
ghost use Rattle.zp_shared.specs.Rows.{OpenedState, IsPublished, opened_reader, zone_counts};

use std::alloc::{AllocError, Global};
use std::marker::Model;
use zp_counts::{Board, BoardReader, Publisher, new_board, new_turning_board, new_wide_board};
use zp_journal::{CutJournal, Journal, Keeps, NoJournal, WholeJournal};
use zp_model::{NARROW_PAGES, Refused};
use zp_zone::Zone;

/// A zone with what it keeps, which has no entry, and a board with the zone's counts.
pub struct OpenedZone<K: Keeps = WholeJournal> {
    zone: Zone,
    journal: K,
    board: Board,
    publisher: Publisher,
}

/// Written out, so that it is one call wherever an opened zone is dropped.
impl<K: Keeps> Drop for OpenedZone<K> {
    fn drop(self) {
        let OpenedZone {
            zone: _zone,
            journal: _journal,
            board: _board,
            publisher: _publisher,
        } = self;
    }
}

impl<K: Keeps> Model for OpenedZone<K> {
    ghost use Rattle.std.specs.Prelude.{◌≡◌, ◌≤◌, length};
    ghost use Rattle.zp_model.specs.Zone.{pages_of};
    ghost use Rattle.zp_counts.specs.CountBoards.{HoldsCounts};
    ghost use Rattle.zp_shared.specs.Rows.{OpenedState, IsPublished};

    ghost Value = { OpenedState };

    ghost view = { λ o. record { zone = o.zone; board = o.board; published = o.publisher.published; capacity = K.capacity o.journal o.board.capacity; handed = K.handed o.journal } };

    ghost invariant = { λ o. K.keeps o.zone o.journal × K.bounds o.board.capacity (K.capacity o.journal o.board.capacity) × (length o.zone.entries ≤ K.capacity o.journal o.board.capacity) × (o.publisher.tie ≡ o.board.tie) × IsPublished o.zone o.publisher.published × HoldsCounts o.board.tie (pages_of o.zone.plain) };
}

impl OpenedZone<WholeJournal> {
    /// A zone of which nothing was asked, with a journal and a board that have room for so many entries. Refused 6, and then the zone
    /// is lost.
    pub fn new(alloc: Global, zone: Zone, capacity: u32) -> Result<OpenedZone, Refused>
        requires new { zone.entries ≡ [] }
        requires capacity { capacity ≤ LONGEST_JOURNAL }
        ensures zone { IfOk result (λ o. o.zone ≡ zone) }
        ensures turns { IfOk result (λ o. o.board.tie.turns ≡ false) }
        ensures capacity { IfOk result (λ o. o.board.capacity ≡ capacity) }
        ensures published { IfOk result (λ o. o.published ≡ zone_counts zone ∷ []) }
        ensures why { IfErr result (λ e. e ≡ Memory) }
    {
        let journal = Journal::new(alloc, capacity)?;
        let Ok((board, publisher)) = new_board(alloc, capacity, &zone.counts()) else {
            return Err(Refused::Memory);
        };
        // a clause of this call says that the zone is the run of its entries
        zone.history();
        Ok(OpenedZone {
            zone,
            journal,
            board,
            publisher,
        })
    }
}

impl OpenedZone<NoJournal> {
    /// A zone of which nothing was asked, that keeps nothing of what is. It makes so many sections at most; at `u64::MAX` no time that
    /// anybody has ends them. Refused 6, and then the zone is lost.
    pub fn without_journal(
        alloc: Global,
        zone: Zone,
        sections: u64,
    ) -> Result<OpenedZone<NoJournal>, Refused>
        requires new { zone.entries ≡ [] }
        ensures zone { IfOk result (λ o. o.zone ≡ zone) }
        ensures turns { IfOk result (λ o. o.board.tie.turns ≡ true) }
        ensures capacity { IfOk result (λ o. (o.board.capacity ≡ sections) × (o.capacity ≡ sections)) }
        ensures published { IfOk result (λ o. o.published ≡ zone_counts zone ∷ []) }
        ensures why { IfErr result (λ e. e ≡ Memory) }
    {
        // a clause of this call says that the zone is the run of its entries
        zone.history();
        OpenedZone::turning(alloc, zone, NoJournal, sections)
    }
}

impl OpenedZone<CutJournal> {
    /// A zone of which nothing was asked, with its first journal, which has no entry. It makes so many sections at most, as above. Refused
    /// 6, and then zone and journal are lost.
    pub fn with_pieces(
        alloc: Global,
        zone: Zone,
        journal: Journal,
        sections: u64,
    ) -> Result<OpenedZone<CutJournal>, Refused>
        requires new { zone.entries ≡ [] }
        requires empty { journal.entries ≡ [] }
        ensures zone { IfOk result (λ o. o.zone ≡ zone) }
        ensures turns { IfOk result (λ o. o.board.tie.turns ≡ true) }
        ensures capacity { IfOk result (λ o. (o.board.capacity ≡ sections) × (o.capacity ≡ min journal.capacity sections)) }
        ensures handed { IfOk result (λ o. o.handed ≡ 0) }
        ensures published { IfOk result (λ o. o.published ≡ zone_counts zone ∷ []) }
        ensures why { IfErr result (λ e. e ≡ Memory) }
    {
        // a clause of this call says that the zone is the run of its entries
        zone.history();
        OpenedZone::turning(alloc, zone, CutJournal::new(journal), sections)
    }
}

impl<K: Keeps> OpenedZone<K> {
    /// A zone of which nothing was asked, with this to keep, and a board that turns.
    fn turning(
        alloc: Global,
        zone: Zone,
        journal: K,
        sections: u64,
    ) -> Result<OpenedZone<K>, Refused>
        requires new { zone.entries ≡ [] }
        requires keeps { K.keeps zone journal }
        requires room { K.bounds sections (K.capacity journal sections) }
        ensures zone { IfOk result (λ o. o.zone ≡ zone) }
        ensures turns { IfOk result (λ o. o.board.tie.turns ≡ true) }
        ensures board { IfOk result (λ o. o.board.capacity ≡ sections) }
        ensures kept { IfOk result (λ o. (o.capacity ≡ K.capacity journal sections) × (o.handed ≡ K.handed journal)) }
        ensures published { IfOk result (λ o. o.published ≡ zone_counts zone ∷ []) }
        ensures why { IfErr result (λ e. e ≡ Memory) }
    {
        // a clause of this call says that the zone is the run of its entries
        zone.history();
        let Ok((board, publisher)) = turning_board(alloc, &zone, sections) else {
            return Err(Refused::Memory);
        };
        Ok(OpenedZone {
            zone,
            journal,
            board,
            publisher,
        })
    }

    /// A reader of the zone's board, that has seen all that is on it.
    pub fn reader(&mut self) -> BoardReader
        ensures same { self.new ≡ self.old }
        ensures reader { result ≡ opened_reader self.old }
    {
        self.publisher.reader(&self.board)
    }

    /// The zone, what it keeps, its board, and the right to publish on it.
    pub(crate) fn into_parts(self) -> (Zone, K, Board, Publisher)
        ensures zone { result.0 ≡ self.zone }
        ensures journal { K.keeps self.zone result.1 }
        ensures capacity { (self.capacity ≡ K.capacity result.1 self.board.capacity) × (self.handed ≡ K.handed result.1) }
        ensures room { K.bounds self.board.capacity (K.capacity result.1 self.board.capacity) × (length self.zone.entries ≤ K.capacity result.1 self.board.capacity) }
        ensures board { result.2 ≡ self.board }
        ensures publisher { (result.3.tie ≡ self.board.tie) × (result.3.published ≡ self.published) }
        ensures published { IsPublished self.zone self.published }
        ensures counts { HoldsCounts self.board.tie (pages_of self.zone.plain) }
    {
        let OpenedZone {
            zone,
            journal,
            board,
            publisher,
        } = self;
        (zone, journal, board, publisher)
    }
}

/// A board that turns, with the counts of a zone, and its publisher. Its words are packed where the zone has few enough pages for that.
fn turning_board(
    alloc: Global,
    zone: &Zone,
    sections: u64,
) -> Result<(Board, Publisher), AllocError>
    ensures tie { IfOk result (λ r. r.1.tie ≡ r.0.tie) }
    ensures turns { IfOk result (λ r. r.0.tie.turns ≡ true) }
    ensures packed { IfOk result (λ r. r.0.tie.packed ≡ nat_le (pages_of zone.now.plain) NARROW_PAGES) }
    ensures capacity { IfOk result (λ r. r.0.capacity ≡ sections) }
    ensures published { IfOk result (λ r. r.1.published ≡ zone_counts zone.now ∷ []) }
{
    let counts = zone.counts();
    if zone.pages() > NARROW_PAGES {
        return new_wide_board(alloc, sections, &counts);
    }
    new_turning_board(alloc, sections, &counts)
}
