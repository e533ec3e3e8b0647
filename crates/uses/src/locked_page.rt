//! One worker allocates and frees a page of a zone that threads share, over a view of its own: with no desk and no script, whatever
//! the zone keeps.
ghost use Rattle.std.specs.Prelude.{◌≡◌, ◌<◌, length};
ghost use Rattle.zp_share.specs.Shares.{IsShareOf};

use std::sync::Wait;
use zp_model::{Mark, MigrateType, Order, Refused};
use zp_share::{Share, alloc, free};
use zp_shared::{Earlier, Keeps, LockedZones, Naming};

/// Takes a page of the zone at this place, or of one below it, and frees it; each takes the zone's lock once, where the worker's
/// list has no page. The worker can go on in the same way.
pub fn touch_a_page<J: Naming, E: Earlier, R: Wait, K: Keeps>(
    zones: &mut LockedZones<'_, J, E, R, K>,
    share: &mut Share,
    zone: usize,
) -> Result<(), Refused>
    requires fits { IsShareOf J.zones share.old }
    requires zone { zone < length share.old.zones }
    ensures fits { IsShareOf J.zones share.new }
    ensures many { length share.new.zones ≡ length share.old.zones }
{
    let order = Order::zero();
    let lent = alloc(share, zones, order, MigrateType::Movable, zone, Mark::Low)?;
    // From here to the `free` the page is this worker's.
    free(share, zones, lent.zone, lent.page, lent.order)
}
