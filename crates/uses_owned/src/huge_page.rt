//! A run of 512 pages, 2 MiB of pages of 4 KiB, or a single page in its place.
ghost use Rattle.std.specs.Prelude.{IfOk};
ghost use Rattle.zp_zone.specs.Seats.{IsSeatOf};
ghost use Rattle.uses_owned.specs.Lent.{IsLent};

use zp_model::{Mark, MigrateType, Order, PageNo, Refused};
use zp_zone::{Seat, Zone};

/// The pages that were got: their first one, and their order, 9 or 0.
#[derive(Clone, Copy, PartialEq, Eq, Debug, Drop)]
pub struct Run {
    pub page: PageNo,
    pub order: Order,
}

/// A run of 512 pages, or where there is none above the low mark, a single page.
pub fn take_huge_page(zone: &mut Zone, seat: &mut Seat, huge: Order) -> Result<Run, Refused>
    requires { IsSeatOf zone.old seat.old }
    ensures fits { IsSeatOf zone.new seat.new }
    ensures lent { IfOk result (IsLent seat.new) }
{
    if let Ok(page) = zone.alloc(seat, huge, MigrateType::Movable, Mark::Low) {
        return Ok(Run { page, order: huge });
    }
    let order = Order::zero();
    let page = zone.alloc(seat, order, MigrateType::Movable, Mark::Min)?;
    Ok(Run { page, order })
}

/// Gives the pages back.
pub fn give_run(zone: &mut Zone, seat: &mut Seat, run: Run)
    requires fits { IsSeatOf zone.old seat.old }
    requires lent { IsLent seat.old run }
    ensures { IsSeatOf zone.new seat.new }
{
    zone.free(seat, run.page, run.order);
}
