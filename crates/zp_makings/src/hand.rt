//! The hand of a worker with lists of its own, over any row of zones.
ghost use Rattle.std.specs.Prelude.{◌≡◌, length};
ghost use Rattle.zp_share.specs.Shares.{IsShareOf};

use crate::zones::FRONT;
use zp_loads::{Unmade, expect};
use zp_model::{Mark, MigrateType, Order, PageNo};
use zp_share::{ListConfig, Share, Zones, alloc, drain_all, free};

/// The settings of lists of four pages at a time, and six at most.
pub fn lists() -> Result<ListConfig, Unmade> {
    ListConfig::new(4, 6).ok_or(Unmade::Other)
}

/// A row of one zone, and the share of a worker whose lists are empty.
#[derive(Drop)]
pub struct RowHand<Z: Zones + Drop> {
    pub zones: Z,
    pub share: Share,
    ghost fits: { IsShareOf (Z.keys zones) share },
    ghost one: { length share.zones ≡ 1 },
}

impl<Z: Zones + Drop> RowHand<Z> {
    /// So many rounds.
    pub fn rounds(&mut self, rounds: u32) -> Result<(), Unmade> {
        for _ in 0..rounds {
            self.round()?;
        }
        Ok(())
    }

    /// Five pages are allocated; three of them go to the list, which is then full and frees a batch, and the last one comes from it again.
    /// Then all go back.
    fn round(&mut self) -> Result<(), Unmade> {
        self.take(&[FRONT, FRONT + 1, FRONT + 2, FRONT + 3, FRONT + 4])?;
        self.give(&[FRONT, FRONT + 1, FRONT + 2])?;
        self.take(&[FRONT + 2])?;
        self.give(&[FRONT + 2, FRONT + 3, FRONT + 4])?;
        let drained = drain_all(&mut self.share, &mut self.zones)?;
        let free = self.zones.counts(0).free;
        expect(drained == 4 && free == 4096)
    }

    /// Takes a page for each of these, which it has to be.
    fn take(&mut self, pages: &[u32]) -> Result<(), Unmade> {
        for page in pages {
            let taken = alloc(
                &mut self.share,
                &mut self.zones,
                Order::zero(),
                MigrateType::Movable,
                0,
                Mark::Low,
            )?;
            expect(taken.page.number() == *page)?;
        }
        Ok(())
    }

    /// Gives these pages back.
    fn give(&mut self, pages: &[u32]) -> Result<(), Unmade> {
        for page in pages {
            free(
                &mut self.share,
                &mut self.zones,
                0,
                PageNo::new(*page),
                Order::zero(),
            )?;
        }
        Ok(())
    }
}
