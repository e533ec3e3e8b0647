//! The requests of a pageblock. Each is one step of the plain zone and one entry, and what is out stays so.
//!
//! In Linux: `start_isolate_page_range` and `undo_isolate_page_range`.
ghost use Rattle.std.specs.Prelude.{◌≡◌};
ghost use Rattle.zp_model.specs.declared.request.Request.TheVariants as request;
ghost use Rattle.zp_model.specs.Step.{step};
ghost use Rattle.zp_zone.specs.NamedZone.{isolate_reply, release_reply};
ghost use Rattle.zp_zone.specs.Seats.{asked};

use super::OpenRoom;
use zp_model::{MigrateType, Refused};

impl OpenRoom {
    /// Isolates the pageblock of this number, counted from 0: from now on its free pages, and those that come back to it, are chosen by
    /// nobody and no mark looks at them, until it is released. Refused 13 where the zone has no such pageblock, 14 where it is isolated
    /// already.
    #[tactic(auto, using(crate::proofs::Posted::isolate_posted))]
    pub fn isolate(&mut self, pageblock: u32) -> Result<(), Refused>
        ensures reply { isolate_reply result ≡ (step self.old.zone.plain self.old.worker (request.Isolate pageblock)).reply }
        ensures after { self.new ≡ record self.old { zone = asked self.old.worker (request.Isolate pageblock) self.old.zone } }
    {
        self.zone.isolate(&mut self.seat, pageblock)
    }

    /// Gives the pageblock of this number, which is isolated, a migrate type: its free pages are chosen again. Refused 13 where the zone has
    /// no such pageblock, 15 where it is not isolated.
    #[tactic(auto, using(crate::proofs::Posted::release_posted))]
    pub fn release(&mut self, pageblock: u32, kind: MigrateType) -> Result<(), Refused>
        ensures reply { release_reply result ≡ (step self.old.zone.plain self.old.worker (request.Release pageblock kind)).reply }
        ensures after { self.new ≡ record self.old { zone = asked self.old.worker (request.Release pageblock kind) self.old.zone } }
    {
        self.zone.release(&mut self.seat, pageblock, kind)
    }
}
