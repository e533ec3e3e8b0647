//! The first caller: one zone, one page.

use std::alloc::Global;
use zp_model::{Largest, Mark, MigrateType, Order, Refused};
use zp_zone::{Zone, ZoneConfig};

/// Makes a zone, allocates one page of it, and frees the page. Returns how many pages are free then.
pub fn one_page(alloc: Global) -> Result<u32, Refused> {
    let config = ZoneConfig {
        name: "Normal",
        base: 0,
        pages: 4096,
        min: 64,
        largest: Largest::usual(),
    };
    let (mut zone, mut seats) = Zone::new(alloc, config, 1)?;
    let seat = &mut seats[0];
    let order = Order::zero();
    let page = zone.alloc(seat, order, MigrateType::Movable, Mark::Low)?;
    // From here to the `free` the page is this caller's.
    zone.free(seat, page, order);
    Ok(zone.counts().free)
}
