//! The requests of a pageblock, without seats. Each is one step of the plain zone.
//!
//! In Linux: `set_migratetype_isolate` and `unset_migratetype_isolate`.
ghost use Rattle.std.specs.Prelude.{◌≡◌, ◌<◌};
ghost use Rattle.zp_model.specs.Zone.{workers_of};
ghost use Rattle.zp_model.specs.declared.request.Request.TheVariants as request;
ghost use Rattle.zp_model.specs.Step.{step};
ghost use Rattle.zp_zone.specs.NamedZone.{KeepsOut, isolate_reply, release_reply};

use super::UntiedZone;
use zp_model::{MigrateType, PageblockType, Refused, Worker};

impl UntiedZone {
    /// Isolates a pageblock. Refused 13 where the zone has none of this number, and 14 where it is isolated.
    pub fn isolate(&mut self, worker: Worker, pageblock: u32) -> Result<(), Refused>
        requires worker { worker < workers_of self.old.plain }
        ensures reply { isolate_reply result ≡ (step self.old.plain worker (request.Isolate pageblock)).reply }
        ensures after { self.new ≡ record self.old { plain = (step self.old.plain worker (request.Isolate pageblock)).zone } }

        // What the calls after it can rest on.
        ensures kept { KeepsOut self.old.plain self.new.plain }
    {
        // it is noted in the request, and changes nothing
        let _ = worker;
        // a clause of this call says that what is noted as free is free
        let _pages = self.buddy.pages();
        let number = pageblock as usize;
        if number >= self.buddy.pageblocks() {
            return Err(Refused::BadPageblock);
        }
        if self.buddy.pageblock_type(number).is_isolate() {
            return Err(Refused::AlreadyIsolated);
        }
        self.buddy.retype(number, PageblockType::Isolate);
        Ok(())
    }

    /// Gives an isolated pageblock a migrate type. Refused 13 where the zone has none of this number, and 15 where it is not isolated.
    pub fn release(
        &mut self,
        worker: Worker,
        pageblock: u32,
        kind: MigrateType,
    ) -> Result<(), Refused>
        requires worker { worker < workers_of self.old.plain }
        ensures reply { release_reply result ≡ (step self.old.plain worker (request.Release pageblock kind)).reply }
        ensures after { self.new ≡ record self.old { plain = (step self.old.plain worker (request.Release pageblock kind)).zone } }

        // What the calls after it can rest on.
        ensures kept { KeepsOut self.old.plain self.new.plain }
    {
        // it is noted in the request, and changes nothing
        let _ = worker;
        // a clause of this call says that what is noted as free is free
        let _pages = self.buddy.pages();
        let number = pageblock as usize;
        if number >= self.buddy.pageblocks() {
            return Err(Refused::BadPageblock);
        }
        if !self.buddy.pageblock_type(number).is_isolate() {
            return Err(Refused::NotIsolated);
        }
        self.buddy.retype(number, kind.pageblock_type());
        Ok(())
    }
}
