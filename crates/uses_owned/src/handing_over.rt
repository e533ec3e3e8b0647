//! A block that one worker allocates and another frees.
ghost use Rattle.std.specs.Prelude.{IfSome};
ghost use Rattle.zp_zone.specs.Seats.{IsSeatOf};

use std::alloc::Global;
use zp_model::{Block, Mark, MigrateType, Order, PageNo};
use zp_zone::{Seat, Zone, ZoneConfig};

/// The giver takes a block and posts it to the receiver: its page.
pub fn send(zone: &mut Zone, giver: &mut Seat, receiver: &mut Seat, order: Order) -> Option<PageNo>
    requires giver { IsSeatOf zone.old giver.old }
    requires receiver { IsSeatOf zone.old receiver.old }
    ensures giver { IsSeatOf zone.new giver.new }
    ensures receiver { IsSeatOf zone.new receiver.new }
{
    let movable = MigrateType::Movable;
    let page = zone.alloc(giver, order, movable, Mark::Low).ok()?;
    // Only the zone shows that the receiver is one of its workers.
    zone.check(receiver);
    zone.post(giver, page, order, receiver.worker());
    Some(page)
}

/// The receiver collects a block that was posted to it and frees it: which block it was.
pub fn receive(zone: &mut Zone, receiver: &mut Seat) -> Option<Block>
    requires { IsSeatOf zone.old receiver.old }
    ensures { IsSeatOf zone.new receiver.new }
{
    let block = zone.collect(receiver).ok()?;
    zone.free(receiver, block.page, block.order);
    Some(block)
}

/// A zone with two workers, and their seats: the giver's and the receiver's.
pub(crate) fn zone_of_two(alloc: Global, config: ZoneConfig<'_>) -> Option<(Zone, Seat, Seat)>
    ensures { IfSome result (λ z. IsSeatOf z.0 z.1 × IsSeatOf z.0 z.2) }
{
    let (zone, mut seats) = Zone::new(alloc, ZoneConfig { ..config }, 2).ok()?;
    match (seats.pop(), seats.pop()) {
        (Some(receiver), Some(giver)) => Some((zone, giver, receiver)),
        _ => None,
    }
}

/// A block goes from the giver to the receiver, who gives it back: how many pages are free then.
fn pass(zone: &mut Zone, giver: &mut Seat, receiver: &mut Seat, order: Order) -> Option<u32>
    requires giver { IsSeatOf zone.old giver.old }
    requires receiver { IsSeatOf zone.old receiver.old }
{
    let sent = send(zone, giver, receiver, order)?;
    let received = receive(zone, receiver)?;
    if received.page != sent {
        return None;
    }
    Some(zone.counts().free)
}

/// A zone with two workers, where a block goes from the one to the other, who gives it back: how many pages are free then.
pub fn relay(alloc: Global, config: ZoneConfig<'_>, order: Order) -> Option<u32> {
    let (mut zone, mut giver, mut receiver) = zone_of_two(alloc, ZoneConfig { ..config })?;
    pass(&mut zone, &mut giver, &mut receiver, order)
}
