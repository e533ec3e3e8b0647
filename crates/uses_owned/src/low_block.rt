//! A block as low as can be, for a device that reaches low pages alone.
ghost use Rattle.std.specs.Prelude.{IfSome, IsTrue};
ghost use Rattle.zp_zone.specs.Seats.{IsSeatOf, has};

use zp_model::{Block, Order, PageNo};
use zp_zone::{Seat, Zone};

/// The lowest block of this order, where it starts below the limit. Where it does not, it goes back at once.
pub fn take_below(zone: &mut Zone, seat: &mut Seat, order: Order, limit: PageNo) -> Option<Block>
    requires { IsSeatOf zone.old seat.old }
    ensures fits { IsSeatOf zone.new seat.new }
    ensures lent { IfSome result (λ block. IsTrue (has seat.new block.page block.order)) }
{
    let block = zone.alloc_low(seat, order).ok()?;
    if block.page.number() < limit.number() {
        return Some(block);
    }
    zone.free(seat, block.page, block.order);
    None
}
