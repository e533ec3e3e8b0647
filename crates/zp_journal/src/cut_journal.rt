//! All that was asked of a zone, in journals that are handed over one after another.
ghost use Rattle.std.specs.Prelude.{◌≡◌, ◌≤◌, [], length};
ghost use Rattle.zp_zone.specs.Seats.{ZoneState};
ghost use Rattle.zp_journal.specs.Cuts.{CutState, IsCutOf};
ghost use Rattle.zp_journal.specs.Journals.{JournalState};

use crate::journal::Journal;
use crate::keeps::Keeps;
use crate::pieces::Piece;
use std::marker::Model;
use std::mem;
use zp_model::Entry;

/// The journal of what was asked of the zone since the last cut. When it is full, the zone is asked no more until it is cut. Contracts
/// see the journal, and how many entries were handed over before.
#[derive(Drop)]
pub struct CutJournal {
    journal: Journal,
    handed: u64,
}

impl Model for CutJournal {
    ghost use Rattle.zp_journal.specs.Cuts.{CutState};

    ghost Value = { CutState };

    ghost view = { λ c. record { handed = c.handed; journal = c.journal } };
}

impl CutJournal {
    /// The first journal, which has no entry.
    pub fn new(journal: Journal) -> CutJournal
        requires { journal.entries ≡ [] }
        ensures { result ≡ record { handed = 0; journal = journal } }
    {
        CutJournal { journal, handed: 0 }
    }

    /// The journal since the last cut.
    pub fn journal(&self) -> &Journal
        ensures { result.now ≡ self.now.journal }
    {
        &self.journal
    }

    /// How many entries were handed over.
    pub fn handed(&self) -> u64
        ensures { result ≡ self.now.handed }
    {
        self.handed
    }

    /// The piece so far; the zone, which has made so many entries in all, goes on with the empty journal.
    pub fn cut(&mut self, empty: Journal, entries: u64) -> Piece
        ensures piece { result ≡ record { before = self.old.handed; journal = self.old.journal } }
        ensures cut { self.new ≡ record { handed = entries; journal = empty } }
    {
        let cut = CutJournal {
            journal: empty,
            handed: entries,
        };
        mem::replace(self, cut).into_piece()
    }

    /// The piece since the last cut, for good.
    pub fn into_piece(self) -> Piece
        ensures { result ≡ record { before = self.handed; journal = self.journal } }
    {
        let CutJournal { journal, handed } = self;
        Piece {
            before: handed,
            journal,
        }
    }

    /// The journal since the last cut, for good: `into_piece` for who does not ask where it begins.
    pub fn into_journal(self) -> Journal
        ensures { result ≡ self.journal }
    {
        self.into_piece().journal
    }
}

impl Keeps for CutJournal {
    ghost use Rattle.std.specs.Prelude.{◌≤◌, ◌+◌, min};
    ghost use Rattle.zp_journal.specs.Cuts.{IsCutOf};

    ghost capacity = { λ c n. min (c.handed + c.journal.capacity) n };

    ghost bounds = { λ n c. c ≤ n };

    ghost handed = { λ c. c.handed };

    ghost keeps = { IsCutOf };

    #[inline(always)]
    fn is_full(&self, board_is_full: bool) -> bool {
        self.journal.is_full() || board_is_full
    }

    #[inline(always)]
    fn keep(&mut self, entry: &Entry) {
        self.journal.append(entry);
    }
}
