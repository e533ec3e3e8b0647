//! All that was asked of a zone.
ghost use Rattle.std.specs.Prelude.{◌≡◌};

use crate::journal::Journal;
use crate::keeps::Keeps;
use zp_model::Entry;

/// The journal of all that was asked of the zone, with room for as many entries as the zone's board has. When it is full, the zone is
/// asked no more.
pub type WholeJournal = Journal;

impl Keeps for Journal {
    ghost use Rattle.std.specs.Prelude.{◌≡◌};
    ghost use Rattle.zp_journal.specs.Journals.{IsJournalOf, JournalState};

    ghost capacity = { λ j n. j.capacity };

    ghost bounds = { λ n c. c ≡ n };

    ghost handed = { λ j. 0 };

    ghost keeps = { IsJournalOf };

    #[inline(always)]
    fn is_full(&self, _board_is_full: bool) -> bool {
        Journal::is_full(self)
    }

    #[inline(always)]
    fn keep(&mut self, entry: &Entry) {
        self.append(entry);
    }
}
