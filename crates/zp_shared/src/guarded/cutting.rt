//! A zone's journal is handed over, and an empty one goes on from there.
ghost use Rattle.std.specs.Prelude.{◌≡◌, ◌+◌, [], drop, take, length, min};
ghost use Rattle.zp_journal.specs.Journals.{JournalState};
ghost use Rattle.zp_model.specs.Run.{IsHistory, IsLegal, opening_of, run};
ghost use Rattle.zp_shared.specs.Rows.{board_at};

use super::Guarded;
use crate::naming::Naming;
use zp_journal::{CutJournal, Journal, Piece};

impl<J: Naming> Guarded<J, CutJournal> {
    /// What was asked of the zone since the last cut, in order.
    pub fn journal(&self) -> &Journal
        ensures entries { result.now.entries ≡ drop self.now.handed self.now.zone.entries }
        ensures history { IsHistory self.now.zone.plain self.now.zone.entries }
    {
        self.journal.journal()
    }

    /// The piece since the last cut, which is handed over: the zone goes on with the empty journal. Put together, the pieces handed over
    /// and the one at hand have the zone's entries, in order; each begins, and is legal, where the one before it ended.
    pub fn cut(&mut self, empty: Journal) -> Piece
        requires { empty.entries ≡ [] }
        ensures begins { result.before ≡ self.old.handed }
        ensures ends { result.before + length result.journal.entries ≡ self.new.handed }
        ensures entries { result.journal.entries ≡ drop self.old.handed self.old.zone.entries }
        ensures legal { IsLegal (run (opening_of self.old.zone.plain) (take self.old.handed self.old.zone.entries)) result.journal.entries }
        ensures cut { self.new ≡ record self.old { handed = length self.old.zone.entries; capacity = min (length self.old.zone.entries + empty.capacity) (board_at J.boards self.old.place).capacity } }
    {
        let entries = self.publisher.place();
        self.journal.cut(empty, entries)
    }
}
