//! Runs of pages at any place, which are got and put back. Each call is one visit of the zone, and one call of the room there.
//!
//! In Linux: `alloc_contig_range` and `free_contig_range`.
ghost use Rattle.std.specs.Prelude.{◌≡◌, ◌≤◌, ◌↔◌, Err, IfOk, IsTrue, length};
ghost use Rattle.zp_model.specs.declared.request.Request.TheVariants as request;
ghost use Rattle.zp_model.specs.Runs.{may_alloc_run, may_free_run};
ghost use Rattle.zp_zone.specs.NamedZone.{page_reply};
ghost use Rattle.zp_open_gate.specs.declared.visited.NotVisited.TheVariants.{NoZone};
ghost use Rattle.zp_open_gate.specs.Rows.{key_at};
ghost use Rattle.zp_open_gate.specs.Visits.{IsAsked, IsOfVisit, IsPut};

use super::OpenRow;
use crate::visited::{NotVisited, Visited};
use zp_model::{Mark, PageNo, Refused};

impl OpenRow {
    /// The lowest run of so many pages outside isolated pageblocks that begins at an absolute page which is a multiple of two to the power
    /// `align`, held to this mark: its first page. Each block of its cut is out, with its pageblock's type noted. Refused 10 or 11.
    pub fn get_run(
        &self,
        zone: usize,
        pages: u32,
        align: u8,
        mark: Mark,
    ) -> Result<Visited<Result<PageNo, Refused>>, NotVisited>
        requires run { IsTrue (may_alloc_run pages align) }
        ensures zone { (result ≡ Err NoZone) ↔ (length self.now ≤ zone) }
        ensures made { IfOk result (λ v. IsOfVisit (key_at self.now zone) v.visit (IsAsked (request.AllocRun pages align mark) (page_reply v.answer))) }
        ensures out { IfOk result (λ v. IfOk v.answer (λ first. IsOfVisit (key_at self.now zone) v.visit (λ y z. IsTrue (may_free_run z.zone.plain z.worker first pages)))) }
    {
        let (lock, mut visitor) = self.enter(zone)?;
        let room = visitor.slot_mut(&lock.table.shared, 0);
        let answer = room.get_run(pages, align, mark);
        let visit = lock.leave(visitor);
        Ok(Visited { answer, visit })
    }

    /// The run of so many pages that begins at this page, in isolated pageblocks too, held to no mark: its first page. Each block of its cut is
    /// out, with its pageblock's type noted. Refused 16 or 17.
    pub fn get_run_at(
        &self,
        zone: usize,
        page: PageNo,
        pages: u32,
    ) -> Result<Visited<Result<PageNo, Refused>>, NotVisited>
        ensures zone { (result ≡ Err NoZone) ↔ (length self.now ≤ zone) }
        ensures made { IfOk result (λ v. IsOfVisit (key_at self.now zone) v.visit (IsAsked (request.AllocRunAt page pages) (page_reply v.answer))) }
        ensures out { IfOk result (λ v. IfOk v.answer (λ first. IsOfVisit (key_at self.now zone) v.visit (λ y z. IsTrue (may_free_run z.zone.plain z.worker first pages)))) }
    {
        let (lock, mut visitor) = self.enter(zone)?;
        let room = visitor.slot_mut(&lock.table.shared, 0);
        let answer = room.get_run_at(page, pages);
        let visit = lock.leave(visitor);
        Ok(Visited { answer, visit })
    }

    /// So many pages back from this one on, whoever got them and by whatever blocks. What the blocks around the first and the last of them have
    /// beyond the run stays out. Refused 20 exactly where there are none, or one of them is not out, and then nothing has changed.
    pub fn put_run(
        &self,
        zone: usize,
        page: PageNo,
        pages: u32,
    ) -> Result<Visited<Result<(), Refused>>, NotVisited>
        ensures zone { (result ≡ Err NoZone) ↔ (length self.now ≤ zone) }
        ensures made { IfOk result (λ v. IsOfVisit (key_at self.now zone) v.visit (λ y z. IsPut (may_free_run y.zone.plain y.worker page pages) (request.FreeRun page pages) v.answer y z)) }
    {
        let (lock, mut visitor) = self.enter(zone)?;
        let room = visitor.slot_mut(&lock.table.shared, 0);
        let answer = room.put_run(page, pages);
        let visit = lock.leave(visitor);
        Ok(Visited { answer, visit })
    }
}
