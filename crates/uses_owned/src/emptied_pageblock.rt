//! A pageblock that is emptied while workers go on: it is isolated, those who have its pages give them back, and it is released when all
//! of them are free.
ghost use Rattle.zp_zone.specs.Seats.{IsSeatOf};

use crate::handing_over::zone_of_two;
use std::alloc::Global;
use zp_model::{Mark, MigrateType, Order};
use zp_zone::{Seat, Zone, ZoneConfig};

/// How many pages that the worker keeps come back with a drain.
const KEPT: u8 = 4;

/// How many pages of the pageblock are free while it is emptied.
#[derive(Clone, Copy, PartialEq, Eq, Debug, Drop)]
pub struct Emptying {
    /// When it is isolated.
    pub isolated: u32,
    /// When a block of it has come back.
    pub given_back: u32,
    /// When the pages that a worker kept have come back too.
    pub drained: u32,
    /// Whether all its pages are free then, and are one block.
    pub is_whole: bool,
}

/// How many pages of a pageblock are free.
fn free_in(zone: &Zone, pageblock: u32) -> u32 {
    match zone.pageblock(pageblock) {
        Some(told) => told.free,
        None => 0,
    }
}

/// Whether all pages of a pageblock are free, where it is not a short one: then they are one block.
fn is_whole(zone: &Zone, pageblock: u32) -> bool {
    match zone.pageblock(pageblock) {
        Some(told) => told.largest == Some(zone.largest().order()),
        None => false,
    }
}

/// The holder has a block of the pageblock, and the other worker keeps some of its pages. It is isolated, both free what they have,
/// and it is released for Unmovable requests.
fn empty(zone: &mut Zone, holder: &mut Seat, other: &mut Seat, pageblock: u32) -> Option<Emptying>
    requires holder { IsSeatOf zone.old holder.old }
    requires other { IsSeatOf zone.old other.old }
{
    let held = zone.alloc_low(holder, Order::zero()).ok()?;
    let kept = zone
        .refill(other, MigrateType::Movable, Mark::Any, KEPT)
        .ok()?;
    zone.isolate(holder, pageblock).ok()?;
    let isolated = free_in(zone, pageblock);
    zone.free(holder, held.page, held.order);
    let given_back = free_in(zone, pageblock);
    zone.drain(other, MigrateType::Movable, kept.as_slice());
    let drained = free_in(zone, pageblock);
    let is_whole = is_whole(zone, pageblock);
    zone.release(holder, pageblock, MigrateType::Unmovable)
        .ok()?;
    Some(Emptying {
        isolated,
        given_back,
        drained,
        is_whole,
    })
}

/// A zone with two workers who have pages of its first pageblock, which is emptied.
pub fn empty_a_pageblock(alloc: Global, config: ZoneConfig<'_>) -> Option<Emptying> {
    let (mut zone, mut holder, mut other) = zone_of_two(alloc, ZoneConfig { ..config })?;
    empty(&mut zone, &mut holder, &mut other, 0)
}
