//! The requests of a pageblock. Each call is one visit of the zone, and one call of the room there; what is out stays so.
//!
//! In Linux: `start_isolate_page_range` and `undo_isolate_page_range`.
ghost use Rattle.std.specs.Prelude.{◌≡◌, ◌≤◌, ◌↔◌, Err, IfOk, length};
ghost use Rattle.zp_model.specs.declared.request.Request.TheVariants as request;
ghost use Rattle.zp_zone.specs.NamedZone.{isolate_reply, release_reply};
ghost use Rattle.zp_open_gate.specs.declared.visited.NotVisited.TheVariants.{NoZone};
ghost use Rattle.zp_open_gate.specs.Rows.{key_at};
ghost use Rattle.zp_open_gate.specs.Visits.{IsAsked, IsOfVisit};

use super::OpenRow;
use crate::visited::{NotVisited, Visited};
use zp_model::{MigrateType, Refused};

impl OpenRow {
    /// Isolates the pageblock of this number, counted from 0: from now on its free pages, and those that come back to it, are chosen by
    /// nobody and no mark looks at them, until it is released. Refused 13 where the zone has no such pageblock, 14 where it is isolated
    /// already.
    pub fn isolate(
        &self,
        zone: usize,
        pageblock: u32,
    ) -> Result<Visited<Result<(), Refused>>, NotVisited>
        ensures zone { (result ≡ Err NoZone) ↔ (length self.now ≤ zone) }
        ensures made { IfOk result (λ v. IsOfVisit (key_at self.now zone) v.visit (IsAsked (request.Isolate pageblock) (isolate_reply v.answer))) }
    {
        let (lock, mut visitor) = self.enter(zone)?;
        let room = visitor.slot_mut(&lock.table.shared, 0);
        let answer = room.isolate(pageblock);
        let visit = lock.leave(visitor);
        Ok(Visited { answer, visit })
    }

    /// Gives the pageblock of this number, which is isolated, a migrate type: its free pages are chosen again. Refused 13 where the zone has
    /// no such pageblock, 15 where it is not isolated.
    pub fn release(
        &self,
        zone: usize,
        pageblock: u32,
        kind: MigrateType,
    ) -> Result<Visited<Result<(), Refused>>, NotVisited>
        ensures zone { (result ≡ Err NoZone) ↔ (length self.now ≤ zone) }
        ensures made { IfOk result (λ v. IsOfVisit (key_at self.now zone) v.visit (IsAsked (request.Release pageblock kind) (release_reply v.answer))) }
    {
        let (lock, mut visitor) = self.enter(zone)?;
        let room = visitor.slot_mut(&lock.table.shared, 0);
        let answer = room.release(pageblock, kind);
        let visit = lock.leave(visitor);
        Ok(Visited { answer, visit })
    }
}
