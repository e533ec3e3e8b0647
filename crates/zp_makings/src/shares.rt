//! Workers' shares of a zone in one hand.
ghost use Rattle.std.specs.Prelude.{◌≡◌, All, length, map};
ghost use Rattle.zp_share.specs.Shares.{IsShareOf, key_of};
ghost use Rattle.zp_zone.specs.Seats.{IsUnused};

use crate::hand::{RowHand, lists};
use crate::zones::PAGES;
use std::alloc::Global;
use zp_loads::{Unmade, config};
use zp_share::{PlainZones, Share, ZoneShare};
use zp_zone::{Seat, Zone};

/// The share of a seat.
pub fn zone_share(alloc: Global) -> Result<(), Unmade> {
    let (_zone, seats) = Zone::new(alloc, config(PAGES), 1)?;
    share_of_last(alloc, seats)
}

/// The share of the last of these seats.
fn share_of_last(alloc: Global, mut seats: Vec<Seat>) -> Result<(), Unmade>
    requires { All IsUnused seats.items }
{
    let share = match seats.pop() {
        Some(seat) => ZoneShare::new(alloc, seat),
        None => return Err(Unmade::Other),
    };
    match share {
        Ok(_share) => Ok(()),
        Err(refused) => Err(refused.into()),
    }
}

/// A share, and so many rounds of its commands.
pub fn share(alloc: Global, calls: u32) -> Result<(), Unmade> {
    let mut zones = Vec::with_capacity(alloc, 1)?;
    let (zone, seats) = Zone::new(alloc, config(PAGES), 1)?;
    zones.push_reserved(zone);
    let share = Share::new(alloc, seats, lists()?)?;
    let mut hand = RowHand {
        zones: PlainZones::new(zones),
        share,
    };
    hand.rounds(calls)
}
