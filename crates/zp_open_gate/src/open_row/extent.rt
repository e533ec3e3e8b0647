//! What never changes of a row and its zones. It is told beside the locks, whoever is in.
ghost use Rattle.std.specs.Prelude.{◌≡◌, ◌↔◌, IfSome, IsSome, IsTrue, length};
ghost use Rattle.zp_open_gate.specs.Rows.{HasPage, HasPageblock, HasZone, key_at};

use super::OpenRow;
use zp_model::{Largest, PageNo};

impl OpenRow {
    /// How many zones the row has.
    pub fn zones(&self) -> usize
        ensures { result ≡ length self.now }
    {
        self.locks.len()
    }

    /// The order of the largest block and of the pageblocks of the zone at this place, where the row has it.
    pub fn largest(&self, zone: usize) -> Option<Largest>
        ensures has { IsSome result ↔ HasZone self.now zone }
        ensures told { IfSome result (λ largest. largest ≡ (key_at self.now zone).largest) }
    {
        match self.locks.get(zone) {
            Some(lock) => Some(lock.largest),
            None => None,
        }
    }

    /// Whether the row has a zone at this place, and that zone this page.
    pub fn has_page(&self, zone: usize, page: PageNo) -> bool
        ensures { IsTrue result ↔ (HasZone self.now zone × HasPage (key_at self.now zone) page) }
    {
        match self.locks.get(zone) {
            Some(lock) => page.number() >= lock.base && page.number() - lock.base < lock.pages,
            None => false,
        }
    }

    /// Whether the row has a zone at this place, and that zone a pageblock of this number.
    pub fn has_pageblock(&self, zone: usize, pageblock: u32) -> bool
        ensures { IsTrue result ↔ (HasZone self.now zone × HasPageblock (key_at self.now zone) pageblock) }
    {
        match self.locks.get(zone) {
            Some(lock) => (pageblock as usize) < lock.largest.pageblocks(lock.pages),
            None => false,
        }
    }
}
