//! The requests of a pageblock, by a seat. Each is one step of the plain zone and one entry, and the seat's blocks stay.
//!
//! In Linux: `start_isolate_page_range` and `undo_isolate_page_range`.
ghost use Rattle.std.specs.Prelude.{◌≡◌, ◌<◌};
ghost use Rattle.zp_model.specs.declared.request.Request.TheVariants as request;
ghost use Rattle.zp_model.specs.Zone.{workers_of};
ghost use Rattle.zp_model.specs.Step.{step};
ghost use Rattle.zp_zone.specs.NamedZone.{isolate_reply, release_reply};
ghost use Rattle.zp_zone.specs.Seats.{IsSeatOf, KeepsSeats, Agrees, KeepsBlocks, asked, replied};

use super::Zone;
use crate::seat::Seat;
use std::marker::Brand;
use zp_model::{MigrateType, Refused};

impl Zone {
    /// Isolates the pageblock of this number, counted from 0: from now on its free pages, and those that come back to it, are chosen by
    /// nobody and no mark looks at them, until it is released. What is out, posted or on a worker's list stays where it is. Any worker may
    /// ask. Refused 13 where the zone has no such pageblock, 14 where it is isolated already.
    pub fn isolate(&mut self, seat: &mut Seat, pageblock: u32) -> Result<(), Refused>
        requires seat { IsSeatOf self.old seat.old }
        ensures reply { isolate_reply result ≡ (step self.old.plain seat.old.worker (request.Isolate pageblock)).reply }
        ensures after { self.new ≡ asked seat.old.worker (request.Isolate pageblock) self.old }
        ensures seat { seat.new ≡ replied (request.Isolate pageblock) (isolate_reply result) seat.old }
        ensures known { seat.old.worker < workers_of self.old.plain }
        ensures agrees { Agrees self.old seat.old × Agrees self.new seat.new }

        // What the calls after it can rest on.
        ensures worker { seat.new.worker ≡ seat.old.worker }
        ensures fits { IsSeatOf self.new seat.new }
        ensures seats { KeepsSeats self.old self.new }
        ensures kept { KeepsBlocks seat.old seat.new }
    {
        let worker = seat.enter::<Brand, _>(&mut self.keeper, &self.untied, &pageblock);
        self.untied.isolate(worker, pageblock)
    }

    /// Gives the pageblock of this number, which is isolated, a migrate type: its free pages are chosen again. Any worker may ask. Refused
    /// 13 where the zone has no such pageblock, 15 where it is not isolated.
    pub fn release(
        &mut self,
        seat: &mut Seat,
        pageblock: u32,
        kind: MigrateType,
    ) -> Result<(), Refused>
        requires seat { IsSeatOf self.old seat.old }
        ensures reply { release_reply result ≡ (step self.old.plain seat.old.worker (request.Release pageblock kind)).reply }
        ensures after { self.new ≡ asked seat.old.worker (request.Release pageblock kind) self.old }
        ensures seat { seat.new ≡ replied (request.Release pageblock kind) (release_reply result) seat.old }
        ensures known { seat.old.worker < workers_of self.old.plain }
        ensures agrees { Agrees self.old seat.old × Agrees self.new seat.new }

        // What the calls after it can rest on.
        ensures worker { seat.new.worker ≡ seat.old.worker }
        ensures fits { IsSeatOf self.new seat.new }
        ensures seats { KeepsSeats self.old self.new }
        ensures kept { KeepsBlocks seat.old seat.new }
    {
        let worker = seat.enter::<Brand, _>(&mut self.keeper, &self.untied, &(pageblock, kind));
        self.untied.release(worker, pageblock, kind)
    }
}
