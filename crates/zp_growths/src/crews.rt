//! One zone behind its lock, with its workers.
ghost use Rattle.std.specs.Prelude.{◌≡◌, ◌∷◌, [], All, IfOk};
ghost use Rattle.zp_shared.specs.Rows.{opened_board, opened_key};
ghost use Rattle.zp_zone.specs.Seats.{IsSeatOf, IsUnused};

use crate::locked::ENTRIES;
use std::alloc::Global;
use std::marker::Brand;
use std::sync::Wait;
use zp_loads::{Unmade, config, expect};
use zp_makings::lists;
use zp_makings::zones::{FRONT, PAGES};
use zp_model::Order;
use zp_share::ListConfig;
use zp_shared::{Keeps, Naming, OpenedZone, WorkerAt, ZoneCrew};
use zp_zone::{Seat, Zone};

/// A crew of one worker with lists, and so many rounds of its commands.
pub fn crew<R: Wait>(rt: &R, alloc: Global, calls: u32) -> Result<(), Unmade> {
    let lists = lists()?;
    let (opened, seats) = opened(alloc)?;
    crew_as::<Brand, R>(rt, alloc, opened, seats, lists, calls)
}

/// An opened zone, and the seat of its worker.
fn opened(alloc: Global) -> Result<(OpenedZone, Vec<Seat>), Unmade>
    ensures fits { IfOk result (λ o. All (IsSeatOf o.0.zone) o.1.items) }
    ensures unused { IfOk result (λ o. All IsUnused o.1.items) }
{
    let (zone, seats) = Zone::new(alloc, config(PAGES), 1)?;
    Ok((OpenedZone::new(alloc, zone, ENTRIES)?, seats))
}

/// As `crew`, under the name of the opened zone.
fn crew_as<J: Naming, R: Wait>(
    rt: &R,
    alloc: Global,
    opened: OpenedZone,
    seats: Vec<Seat>,
    lists: ListConfig,
    calls: u32,
) -> Result<(), Unmade>
    requires zones { J.zones ≡ opened_key opened ∷ [] }
    requires boards { J.boards ≡ opened_board opened ∷ [] }
    requires fits { All (IsSeatOf opened.zone) seats.items }
    requires unused { All IsUnused seats.items }
{
    let crew = ZoneCrew::<J, _>::new(alloc, opened, seats, lists)?;
    let ZoneCrew {
        zone,
        mut workers,
        ..
    } = crew;
    let worker = workers.pop().ok_or(Unmade::Other)?;
    rounds(&mut worker.at(rt, &zone), calls)
}

/// So many rounds.
fn rounds<J: Naming, R: Wait, K: Keeps>(
    worker: &mut WorkerAt<'_, J, R, K>,
    rounds: u32,
) -> Result<(), Unmade> {
    for _ in 0..rounds {
        round(worker)?;
    }
    Ok(())
}

/// A page comes by a refill of four and goes back to the list, which is then drained. The counts are read meanwhile and after it.
fn round<J: Naming, R: Wait, K: Keeps>(worker: &mut WorkerAt<'_, J, R, K>) -> Result<(), Unmade> {
    let lent = worker.take(Order::zero())?;
    let meanwhile = worker.read();
    worker.give(&lent)?;
    let drained = worker.drain()?;
    let after = worker.read();
    expect(lent.page.number() == FRONT && drained == 4)?;
    expect(meanwhile.counts.free == PAGES - 4 && after.counts.free == PAGES)
}
