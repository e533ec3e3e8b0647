//! A zone that keeps nothing of what is asked of it.

ghost use Rattle.std.specs.Prelude.{◌≡◌, All, IfOk};
ghost use Rattle.zp_zone.specs.Seats.{IsSeatOf, IsUnused};

use std::alloc::Global;
use zp_loads::{Unmade, config};
use zp_shared::{NoJournal, OpenedZone};
use zp_zone::{Seat, Zone};

/// A zone of so many pages with numbers for so many sections, opened for threads, and the seats of its workers.
pub fn endless(
    alloc: Global,
    pages: u32,
    workers: u32,
    sections: u64,
) -> Result<(OpenedZone<NoJournal>, Vec<Seat>), Unmade>
    ensures fits { IfOk result (λ o. All (IsSeatOf o.0.zone) o.1.items) }
    ensures unused { IfOk result (λ o. All IsUnused o.1.items) }
{
    let (zone, seats) = Zone::new(alloc, config(pages), workers)?;
    Ok((OpenedZone::without_journal(alloc, zone, sections)?, seats))
}
