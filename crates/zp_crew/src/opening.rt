//! Creates a crew: zones of some configs, and the shares of their workers.
ghost use Rattle.std.specs.Prelude.{◌≡◌, ◌≤◌, List, [], All, drop, length, map, slice_index_or, IfErr, IfOk, OnOk};
ghost use Rattle.std.specs.List.{range_with_len};
ghost use Rattle.zp_model.specs.declared.constants.TheConstants.{MAX_ZONES};
ghost use Rattle.zp_zone.specs.Seats.{ZoneState, SeatState};
ghost use Rattle.zp_share.specs.Crews.{AreSharesOf};
ghost use Rattle.zp_share.specs.Shares.{named_zone, no_seat, plain};
ghost use Rattle.zp_crew.specs.Opening.{AreSeatsOf, CanBeMade, IsWhyNone, opened_zone, opening_share, plain_config};

use crate::seat_row::SeatRow;
use std::alloc::Global;
use zp_model::Refused;
use zp_share::{ListConfig, Share};
use zp_zone::{Seat, Zone, ZoneConfig};

/// A row of zones, and the share of each of its workers, in order.
#[derive(Drop)]
pub struct Crew {
    pub zones: Vec<Zone>,
    pub shares: Vec<Share>,
}

/// A zone of each of these configs, in order, with all its pages free, and the shares of so many workers, in order, each of all zones, with
/// nothing in it and lists of these settings. Refused 1 to 5 as the first config of which no zone can be made is refused, and 6.
pub fn open_crew(
    alloc: Global,
    configs: &[ZoneConfig<'_>],
    workers: u32,
    lists: ListConfig,
) -> Result<Crew, Refused>
    requires some { 1 ≤ length configs.now }
    requires few { length configs.now ≤ MAX_ZONES }
    ensures good { OnOk result (All (CanBeMade workers) (map plain_config configs.now)) }
    ensures many { IfOk result (λ c. length c.zones.items ≡ length configs.now) }
    ensures workers { IfOk result (λ c. length c.shares.items ≡ workers) }
    ensures zones { IfOk result (λ c. map named_zone c.zones.items ≡ map (opened_zone workers) (map plain_config configs.now)) }
    ensures shares { IfOk result (λ c. map plain c.shares.items ≡ map (opening_share lists.batch lists.high_len (map plain_config configs.now)) (range_with_len 0 workers)) }
    ensures crew { IfOk result (λ c. AreSharesOf c.zones.items c.shares.items) }
    ensures new { IfOk result (λ c. All (λ (z : ZoneState). z.entries ≡ []) c.zones.items) }
    ensures why { IfErr result (IsWhyNone workers (map plain_config configs.now)) }
{
    let (zones, mut seats) = seated_zones(alloc, configs, workers)?;
    let Ok(mut shares) = Vec::with_capacity(alloc, workers as usize) else {
        return Err(Refused::Memory);
    };
    for _ in 0..workers {
        let own = next_seats(alloc, &mut seats)?;
        shares.push_reserved(Share::new(alloc, own, lists)?);
    }
    Ok(Crew { zones, shares })
}

/// A zone of each config, and the seats of its workers, in order.
fn seated_zones(
    alloc: Global,
    configs: &[ZoneConfig<'_>],
    workers: u32,
) -> Result<(Vec<Zone>, Vec<SeatRow>), Refused>
    ensures good { OnOk result (All (CanBeMade workers) (map plain_config configs.now)) }
    ensures zones { IfOk result (λ c. map named_zone c.0.items ≡ map (opened_zone workers) (map plain_config configs.now)) }
    ensures seats { IfOk result (λ c. AreSeatsOf workers c.0.items c.1.items) }
    ensures new { IfOk result (λ c. All (λ (z : ZoneState). z.entries ≡ []) c.0.items) }
    ensures why { IfErr result (IsWhyNone workers (map plain_config configs.now)) }
{
    let Ok(mut zones) = Vec::with_capacity(alloc, configs.len()) else {
        return Err(Refused::Memory);
    };
    let Ok(mut seats) = Vec::with_capacity(alloc, configs.len()) else {
        return Err(Refused::Memory);
    };
    for config in configs {
        let (zone, row) = Zone::wide(alloc, ZoneConfig { ..*config }, workers)?;
        zones.push_reserved(zone);
        seats.push_reserved(SeatRow::new(row));
    }
    Ok((zones, seats))
}

/// The front seat of each row, taken off it.
fn next_seats(alloc: Global, seats: &mut [SeatRow]) -> Result<Vec<Seat>, Refused>
    requires { All (λ (row : List SeatState). 1 ≤ length row) seats.old }
    ensures front { IfOk result (λ own. own.items ≡ map (λ crew. slice_index_or crew 0 no_seat) seats.old) }
    ensures rest { OnOk result (seats.new ≡ map (λ (row : List SeatState). drop 1 row) seats.old) }
    ensures why { IfErr result (λ r. r ≡ Refused.Memory) }
{
    let Ok(mut own) = Vec::with_capacity(alloc, seats.len()) else {
        return Err(Refused::Memory);
    };
    for row in seats.iter_mut() {
        own.push_reserved(row.take_front());
    }
    Ok(own)
}
