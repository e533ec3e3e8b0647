//! What lies under a lock: a zone, what is kept of the requests made of it, and the right to publish its counts, with the place in the
//! row that the zone says is its own.
ghost use Rattle.std.specs.Prelude.{ℕ, ◌≡◌, ◌<◌, ◌≤◌, ◌++◌, ◌∷◌, ◌↔◌, [], length, IfSome, IsSome, Some};
ghost use Rattle.zp_model.specs.Entries.{Entry};
ghost use Rattle.zp_model.specs.Info.{counts_of};
ghost use Rattle.zp_model.specs.Lawful.{IsLawful};
ghost use Rattle.zp_model.specs.Area.{pageblocks_of};
ghost use Rattle.zp_model.specs.Zone.{pages_of, workers_of};
ghost use Rattle.zp_zone.specs.NamedZone.{IsPageblockOf};
ghost use Rattle.zp_model.specs.Run.{IsHistory};
ghost use Rattle.zp_zone.specs.Seats.{ZoneState};
ghost use Rattle.zp_journal.specs.Journals.{IsJournalOf};
ghost use Rattle.zp_share.specs.Shares.{IsShareOf, key_of, share_at};
ghost use Rattle.zp_share.specs.ZoneShares.{IsShare, SharesIn};
ghost use mathlib.Core.List.{IsPrefix};
ghost use Rattle.zp_counts.specs.declared.reading.Reading.{Reading};
ghost use Rattle.zp_counts.specs.CountBoards.{HoldsCounts, IsReadingOf, last_counts};
ghost use Rattle.zp_shared.specs.Rows.{IsCountsOf, IsPublished, board_at, key_at, opened_key, zone_counts};

use crate::naming::Naming;
use crate::opened::OpenedZone;
use std::marker::{Model, PhantomData};
use zp_counts::{Board, BoardReader, Publisher, Reading};
use zp_journal::{Journal, Keeps, WholeJournal};
use zp_model::Counts;
use zp_share::Share;
use zp_zone::{Pageblock, Zone};

mod cutting;
mod sections;

/// A zone that says its place in the row, what is kept of all that was asked of it since its opening, and the right to publish its
/// counts. A lock forgets what it holds but for the type, so the type says it: what never changes of the zone, and its board, are what
/// the row's name has at that place; what is kept is of the entries that the zone and its seats agree on; and what is published are the
/// zone's counts at its opening and after each of these entries. The board has room for them: where its words are packed, the zone has
/// few enough pages.
pub struct Guarded<J: Naming, K: Keeps = WholeJournal> {
    place: usize,
    zone: Zone,
    journal: K,
    publisher: Publisher,
    of: PhantomData<J>,
}

/// Written out, so that it is one call wherever such a zone is dropped.
impl<J: Naming, K: Keeps> Drop for Guarded<J, K> {
    fn drop(self) {
        let Guarded {
            place: _place,
            zone: _zone,
            journal: _journal,
            publisher: _publisher,
            of: _of,
        } = self;
    }
}

impl<J: Naming, K: Keeps> Model for Guarded<J, K> {
    ghost use Rattle.std.specs.Prelude.{◌≡◌, ◌≤◌, length};
    ghost use Rattle.zp_share.specs.Shares.{key_of};
    ghost use Rattle.zp_counts.specs.CountBoards.{BoardState, HoldsCounts};
    ghost use Rattle.zp_shared.specs.Rows.{GuardedZone, IsPublished, key_at, board_at};

    ghost Value = { GuardedZone };

    ghost view = { λ g. record { place = g.place; capacity = K.capacity g.journal (board_at J.boards g.place).capacity; handed = K.handed g.journal; zone = g.zone; published = g.publisher.published } };

    ghost invariant = { λ g. (key_of g.zone ≡ key_at J.zones g.place) × K.keeps g.zone g.journal × (g.publisher.tie ≡ (board_at J.boards g.place).tie) × K.bounds (board_at J.boards g.place).capacity (K.capacity g.journal (board_at J.boards g.place).capacity) × (length g.zone.entries ≤ K.capacity g.journal (board_at J.boards g.place).capacity) × IsPublished g.zone g.publisher.published × HoldsCounts (board_at J.boards g.place).tie (key_at J.zones g.place).pages };
}

impl<J: Naming, K: Keeps> Guarded<J, K> {
    /// The opened zone, which belongs to this place of the row, and its board.
    pub(crate) fn opened(place: usize, opened: OpenedZone<K>) -> (Guarded<J, K>, Board)
        requires key { opened_key opened ≡ key_at J.zones place }
        requires board { opened.board ≡ board_at J.boards place }
        ensures guarded { result.0 ≡ record { place = place; capacity = opened.capacity; handed = opened.handed; zone = opened.zone; published = opened.published } }
        ensures board { result.1 ≡ opened.board }
    {
        let (zone, journal, board, publisher) = opened.into_parts();
        let guarded = Guarded {
            place,
            zone,
            journal,
            publisher,
            of: PhantomData,
        };
        (guarded, board)
    }

    /// The place in the row that the zone says is its own.
    pub fn place(&self) -> usize
        ensures place { result ≡ self.now.place }
        ensures key { key_of self.now.zone ≡ key_at J.zones self.now.place }
    {
        self.place
    }

    /// How many free blocks of each order there are, and how many free pages: the last counts that are published, whatever is kept.
    #[tactic(auto, using(crate::proofs::Publishing::last_published))]
    pub fn counts(&self) -> Counts
        ensures counts { result ≡ counts_of self.now.zone.plain.area.largest self.now.zone.plain.area.free }
        ensures published { IsPublished self.now.zone self.now.published }
        ensures newest { result ≡ last_counts self.now.published }
        ensures lawful { IsLawful self.now.zone.plain }
    {
        // a clause of this call says that the zone is the run of its entries
        self.zone.history();
        self.zone.counts()
    }

    /// What the zone reports of its pageblock of this number, where it has one.
    pub fn pageblock(&self, pageblock: u32) -> Option<Pageblock>
        ensures when { IsSome result ↔ (pageblock < pageblocks_of self.now.zone.plain.area.largest (pages_of self.now.zone.plain)) }
        ensures told { IfSome result (IsPageblockOf self.now.zone.plain pageblock) }
    {
        self.zone.pageblock(pageblock)
    }

    /// The zone's counts, read off its board, and how many entries it has made. The reader has then seen all that is published: each
    /// reading that it took, this one too, is the zone's counts after as many of its entries as the reading's place says.
    pub fn read_board(&mut self, board: &Board, reader: &mut BoardReader) -> Reading
        requires board { board.now ≡ board_at J.boards self.old.place }
        requires reader { reader.old.tie ≡ board.now.tie }
        ensures same { self.new ≡ self.old }
        ensures counts { result ≡ record { counts = zone_counts self.old.zone; place = length self.old.zone.entries } }
        ensures before { IsPrefix reader.old.seen self.old.published }
        ensures known { reader.old.known ≤ length self.old.published }
        ensures reader { reader.new ≡ record { tie = reader.old.tie; seen = self.old.published; known = length self.old.published; looks = [] } }
        ensures published { IsPublished self.old.zone self.old.published }
        ensures taken { (r : Reading) → IsReadingOf reader.old.seen r → IsCountsOf self.old.zone r }
        ensures room { (length self.old.zone.entries ≤ self.old.capacity) × K.bounds (board_at J.boards self.old.place).capacity self.old.capacity }
    {
        // a clause of this call says that the zone is the run of its entries
        self.zone.history();
        self.publisher.read_board(board, reader)
    }

    /// The same without a result: no counts are unpacked.
    #[inline(always)]
    pub fn show_board(&mut self, board: &Board, reader: &mut BoardReader)
        requires board { board.now ≡ board_at J.boards self.old.place }
        requires reader { reader.old.tie ≡ board.now.tie }
        ensures same { self.new ≡ self.old }
        ensures before { IsPrefix reader.old.seen self.old.published }
        ensures known { reader.old.known ≤ length self.old.published }
        ensures reader { reader.new ≡ record { tie = reader.old.tie; seen = self.old.published; known = length self.old.published; looks = [] } }
        ensures published { IsPublished self.old.zone self.old.published }
        ensures taken { (r : Reading) → IsReadingOf reader.old.seen r → IsCountsOf self.old.zone r }
        ensures room { (length self.old.zone.entries ≤ self.old.capacity) × K.bounds (board_at J.boards self.old.place).capacity self.old.capacity }
    {
        // a clause of this call says that the zone is the run of its entries
        self.zone.history();
        self.publisher.show_board(board, reader);
    }

    /// Nothing changes, and the share and the zone agree: what is out in the worker's name is what the share has.
    pub fn check(&mut self, share: &mut Share)
        requires fits { IsShareOf J.zones share.old }
        requires place { self.old.place < length share.old.zones }
        ensures same { self.new ≡ self.old }
        ensures share { share.new ≡ share.old }
        ensures agrees { SharesIn self.old.zone (share_at share.old self.old.place) }
        ensures known { share.old.worker < workers_of self.old.zone.plain }
        ensures whole { IsShare (share_at share.old self.old.place) }
        ensures worker { (share_at share.old self.old.place).seat.worker ≡ share.old.worker }
    {
        share.check(&mut self.zone, self.place);
    }

    /// The zone and what is kept of it, with their place forgotten.
    pub fn into_parts(self) -> (Zone, K)
        ensures zone { result.0 ≡ self.zone }
        ensures key { key_of result.0 ≡ key_at J.zones self.place }
        ensures journal { K.keeps result.0 result.1 }
        ensures room { K.bounds (board_at J.boards self.place).capacity (K.capacity result.1 (board_at J.boards self.place).capacity) }
        ensures history { IsHistory result.0.plain result.0.entries }
    {
        let Guarded {
            zone,
            journal,
            place: _place,
            publisher: _publisher,
            of: _of,
        } = self;
        zone.history();
        (zone, journal)
    }
}

impl<J: Naming> Guarded<J, WholeJournal> {
    /// All that was asked of the zone since its opening, in order: one entry for each section of a worker. A zone that is made and
    /// asked the same has the same replies, and becomes this zone.
    pub fn journal(&self) -> &Journal
        ensures capacity { result.now.capacity ≡ self.now.capacity }
        ensures room { result.now.capacity ≡ (board_at J.boards self.now.place).capacity }
        ensures history { IsJournalOf self.now.zone result.now }
    {
        &self.journal
    }
}

// The share's last section with the zone of a place is kept, and then the zone's counts go on the board.
#[inline(always)]
fn note<K: Keeps>(
    journal: &mut K,
    publisher: &mut Publisher,
    board: &Board,
    zone: &Zone,
    share: &Share,
    place: usize,
)
    requires place { place < length share.now.zones }
    requires room { (n : ℕ) × (z : ZoneState) × K.keeps z journal.old × (length z.entries < K.capacity journal.old n) }
    requires board { publisher.old.tie ≡ board.now.tie }
    requires board_room { length publisher.old.published ≤ board.now.capacity }
    requires counts { HoldsCounts publisher.old.tie (pages_of zone.now.plain) }
    ensures kept { (z : ZoneState) (e : Entry) → K.keeps z journal.old → (share_at share.now place).sections.last ≡ Some e → zone.now.entries ≡ z.entries ++ e ∷ [] → K.keeps zone.now journal.new }
    ensures capacity { (e : Entry) → (share_at share.now place).sections.last ≡ Some e → (n : ℕ) → K.capacity journal.new n ≡ K.capacity journal.old n }
    ensures handed { (e : Entry) → (share_at share.now place).sections.last ≡ Some e → K.handed journal.new ≡ K.handed journal.old }
    ensures tie { publisher.new.tie ≡ publisher.old.tie }
    ensures published { publisher.new.published ≡ publisher.old.published ++ zone_counts zone.now ∷ [] }
{
    // a clause of this call says that the zone is the run of its entries
    zone.history();
    if let Some(entry) = share.last(place) {
        journal.keep(entry);
    }
    publisher.publish(board, &zone.counts());
}
