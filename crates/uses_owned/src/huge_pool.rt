//! A pool of blocks of 2 MiB over pages of 4 KiB, as a hypervisor lends them to its guests. The zone's largest order is 9: each
//! pageblock is one such block, and no block that comes back is joined to more.
ghost use Rattle.std.specs.Prelude.{◌≡◌, IfSome, IsTrue};
ghost use Rattle.zp_zone.specs.Seats.{IsSeatOf, Agrees, has};
ghost use Rattle.uses_owned.specs.declared.huge_pool.TheConstants.{HUGE};

use std::alloc::Global;
use zp_model::{Largest, Mark, MigrateType, Order, PageNo, Refused};
use zp_zone::{Seat, Zone, ZoneConfig};

/// The order of a block of 2 MiB.
const HUGE: u8 = 9;

/// A zone of such blocks, and the one seat of it.
#[derive(Drop)]
pub struct HugePool {
    zone: Zone,
    seat: Seat,
    ghost fits: { IsSeatOf zone seat },
    ghost agrees: { Agrees zone seat },
}

impl HugePool {
    /// A pool of so many blocks of 2 MiB: 1 to 128, else 3 is refused.
    pub fn new(alloc: Global, blocks: u32) -> Result<HugePool, Refused> {
        let Some(largest) = Largest::new(HUGE) else {
            return Err(Refused::BadPages);
        };
        let config = ZoneConfig {
            name: "Huge",
            base: 0,
            pages: blocks.saturating_mul(largest.pageblock_pages()),
            min: 0,
            largest,
        };
        let (mut zone, mut seats) = Zone::new(alloc, config, 1)?;
        let Some(mut seat) = seats.pop() else {
            return Err(Refused::BadWorkers);
        };
        zone.check(&mut seat);
        Ok(HugePool { zone, seat })
    }

    /// A block: its first page.
    pub fn take(&mut self) -> Option<PageNo>
        ensures { IfSome result (λ page. IsTrue (has self.new.seat page HUGE)) }
    {
        let order = Order::at(HUGE);
        self.zone
            .alloc(&mut self.seat, order, MigrateType::Movable, Mark::Any)
            .ok()
    }

    /// Frees a block. Returns false, and does nothing, where no block that was taken here begins at the page.
    pub fn put(&mut self, page: PageNo) -> bool
        ensures { result ≡ has self.old.seat page HUGE }
    {
        let order = Order::at(HUGE);
        if !self.zone.held_by(&self.seat, page, order) {
            return false;
        }
        self.zone.free(&mut self.seat, page, order);
        true
    }

    /// How many blocks are free.
    pub fn free_blocks(&self) -> u32 {
        self.zone.counts().by_order[usize::from(HUGE)]
    }
}
