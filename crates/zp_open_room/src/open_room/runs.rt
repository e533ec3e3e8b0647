//! Runs of pages at any place, which are got and put back. Each call is one step of the plain zone and one entry, but a refusal with 20, which
//! is none.
//!
//! In Linux: `alloc_contig_range` and `free_contig_range`.
ghost use Rattle.std.specs.Prelude.{◌≡◌, ◌↔◌, IfErr, IfOk, IsOk, IsTrue, OnErr, OnOk};
ghost use Rattle.zp_model.specs.declared.refused.Refused.TheVariants.{NotLent};
ghost use Rattle.zp_model.specs.declared.request.Request.TheVariants as request;
ghost use Rattle.zp_model.specs.Runs.{may_alloc_run, may_free_run};
ghost use Rattle.zp_model.specs.Step.{step};
ghost use Rattle.zp_zone.specs.NamedZone.{page_reply};
ghost use Rattle.zp_zone.specs.Seats.{asked};

use super::OpenRoom;
use zp_model::{Mark, PageNo, Refused};

impl OpenRoom {
    /// The lowest run of so many pages outside isolated pageblocks that begins at an absolute page which is a multiple of two to the power
    /// `align`, held to this mark: its first page. Each block of its cut is out, with its pageblock's type noted. Refused 10 or 11.
    #[tactic(auto, using(crate::proofs::Posted::alloc_run_posted, crate::proofs::Given::run_is_out))]
    pub fn get_run(&mut self, pages: u32, align: u8, mark: Mark) -> Result<PageNo, Refused>
        requires run { IsTrue (may_alloc_run pages align) }
        ensures reply { page_reply result ≡ (step self.old.zone.plain self.old.worker (request.AllocRun pages align mark)).reply }
        ensures after { self.new ≡ record self.old { zone = asked self.old.worker (request.AllocRun pages align mark) self.old.zone } }
        ensures out { IfOk result (λ first. IsTrue (may_free_run self.new.zone.plain self.new.worker first pages)) }
    {
        let got = self.zone.alloc_run(&mut self.seat, pages, align, mark);
        // a clause of this call says that the zone is lawful
        let _pages = self.zone.pages();
        got
    }

    /// The run of so many pages that begins at this page, in isolated pageblocks too, held to no mark: its first page. Each block of its cut is
    /// out, with its pageblock's type noted. Refused 16 or 17.
    #[tactic(auto, using(crate::proofs::Posted::alloc_run_at_posted, crate::proofs::Given::run_is_out))]
    pub fn get_run_at(&mut self, page: PageNo, pages: u32) -> Result<PageNo, Refused>
        ensures reply { page_reply result ≡ (step self.old.zone.plain self.old.worker (request.AllocRunAt page pages)).reply }
        ensures after { self.new ≡ record self.old { zone = asked self.old.worker (request.AllocRunAt page pages) self.old.zone } }
        ensures out { IfOk result (λ first. IsTrue (may_free_run self.new.zone.plain self.new.worker first pages)) }
    {
        let got = self.zone.alloc_run_at(&mut self.seat, page, pages);
        // a clause of this call says that the zone is lawful
        let _pages = self.zone.pages();
        got
    }

    /// So many pages back from this one on, whoever got them and by whatever blocks. What the blocks around the first and the last of them have
    /// beyond the run stays out. Refused 20 exactly where there are none, or one of them is not out, and then nothing has changed.
    #[tactic(auto, using(crate::proofs::Posted::free_run_posted))]
    pub fn put_run(&mut self, page: PageNo, pages: u32) -> Result<(), Refused>
        ensures exact { IsOk result ↔ IsTrue (may_free_run self.old.zone.plain self.old.worker page pages) }
        ensures ok { OnOk result (self.new ≡ record self.old { zone = asked self.old.worker (request.FreeRun page pages) self.old.zone }) }
        ensures err { OnErr result (self.new ≡ self.old) }
        ensures why { IfErr result (λ e. e ≡ NotLent) }
    {
        if !self.zone.run_held_by(&self.seat, page, pages) {
            return Err(Refused::NotLent);
        }
        self.zone.free_run(&mut self.seat, page, pages);
        Ok(())
    }
}
