//! Two pages at a time, freed in the order in which they came.

ghost use Rattle.zp_zone.specs.Seats.{IsSeatOf};

use zp_model::{Mark, MigrateType, Order, Refused};
use zp_zone::{Seat, Zone};

/// Allocates two pages, and frees both. Where only one is to be had, it is freed too.
pub fn take_two(zone: &mut Zone, seat: &mut Seat) -> Result<(), Refused>
    requires { IsSeatOf zone.old seat.old }
    ensures { IsSeatOf zone.new seat.new }
{
    let order = Order::zero();
    let first = zone.alloc(seat, order, MigrateType::Movable, Mark::Low)?;
    let second = match zone.alloc(seat, order, MigrateType::Movable, Mark::Low) {
        Ok(second) => second,
        Err(refused) => {
            zone.free(seat, first, order);
            return Err(refused);
        }
    };
    zone.free(seat, first, order);
    zone.free(seat, second, order);
    Ok(())
}
