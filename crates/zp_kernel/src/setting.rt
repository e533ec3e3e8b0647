//! What a kernel's requests become here.
ghost use Rattle.std.specs.Prelude.{◌≡◌};
ghost use Rattle.zp_kernel.specs.Settings.{kind_of, top_of};

use zp_events::ZoneLimit;
use zp_model::{MigrateType, Order};

/// For each limit that a request sets, the place of the highest zone that it allows.
#[derive(Clone, Copy, PartialEq, Eq, Debug, Drop)]
pub struct Limits {
    pub dma: usize,
    pub dma32: usize,
    pub normal: usize,
    pub movable: usize,
}

impl Limits {
    /// The place of the highest zone that this limit allows.
    pub(crate) fn top(&self, limit: ZoneLimit) -> usize
        ensures { result ≡ top_of self.now limit }
    {
        match limit {
            ZoneLimit::Dma => self.dma,
            ZoneLimit::Dma32 => self.dma32,
            ZoneLimit::Normal => self.normal,
            ZoneLimit::Movable => self.movable,
        }
    }
}

/// The order of the zones' largest blocks, and where the zones of each limit are.
#[derive(Clone, Copy, PartialEq, Eq, Debug, Drop)]
pub struct Setting {
    pub largest: Order,
    pub limits: Limits,
}

/// The type of Linux's number, where our zones have it.
pub(crate) fn kind_of(number: u32) -> Option<MigrateType>
    ensures { result ≡ kind_of number }
{
    match number {
        0 => Some(MigrateType::Unmovable),
        1 => Some(MigrateType::Movable),
        2 => Some(MigrateType::Reclaimable),
        _ => None,
    }
}
