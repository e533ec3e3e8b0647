//! A pool of single pages over a zone of its own.
ghost use Rattle.std.specs.Prelude.{◌≡◌, IfOk, IfSome, IsTrue};
ghost use Rattle.zp_zone.specs.Seats.{IsSeatOf, Agrees, has};

use std::alloc::Global;
use zp_model::{Mark, MigrateType, Order, PageNo, Refused};
use zp_zone::{Seat, Zone, ZoneConfig};

/// A zone and the one seat of it.
#[derive(Drop)]
pub struct PagePool {
    zone: Zone,
    seat: Seat,
    ghost fits: { IsSeatOf zone seat },
    ghost agrees: { Agrees zone seat },
}

impl PagePool {
    pub fn new(alloc: Global, config: ZoneConfig<'_>) -> Result<PagePool, Refused> {
        let (mut zone, mut seats) = Zone::new(alloc, ZoneConfig { ..config }, 1)?;
        let Some(mut seat) = seats.pop() else {
            return Err(Refused::BadWorkers);
        };
        zone.check(&mut seat);
        Ok(PagePool { zone, seat })
    }

    /// A page, while more pages are free than the low mark.
    pub fn take(&mut self) -> Option<PageNo>
        ensures { IfSome result (λ page. IsTrue (has self.new.seat page 0)) }
    {
        let order = Order::zero();
        self.zone
            .alloc(&mut self.seat, order, MigrateType::Movable, Mark::Low)
            .ok()
    }

    /// Frees a page. Returns false, and does nothing, where the page is not one that was taken here.
    pub fn put(&mut self, page: PageNo) -> bool
        ensures { result ≡ has self.old.seat page 0 }
    {
        let order = Order::zero();
        if !self.zone.held_by(&self.seat, page, order) {
            return false;
        }
        self.zone.free(&mut self.seat, page, order);
        true
    }

    /// How many pages are free.
    pub fn free_pages(&self) -> u32 {
        self.zone.counts().free
    }
}
