//! Where a load takes its blocks, and gives them back.

ghost use Rattle.std.specs.Prelude.{◌≡◌};

use crate::unmade::Unmade;
use std::alloc::Global;
use zp_model::{Largest, MigrateType, Order, PageNo};
use zp_zone::ZoneConfig;

/// A zone from page 0 on, with nothing lent at first, and the way in which its blocks are allocated and freed.
pub trait LoadSource: Drop {
    /// Over a zone of so many pages, marks 0.
    fn new(alloc: Global, pages: u32) -> Result<Self, Unmade>;

    /// A block of this order for this type, held to no mark: its first page.
    fn take(&mut self, order: Order, kind: MigrateType) -> Option<PageNo>;

    /// Frees a block, where it is lent.
    fn give(&mut self, page: PageNo, order: Order);
}

/// A zone of so many pages from page 0 on, marks 0, of this largest order.
pub fn config_of(pages: u32, largest: Largest) -> ZoneConfig<'static>
    ensures base { result.base ≡ 0 }
    ensures pages { result.pages ≡ pages }
    ensures min { result.min ≡ 0 }
    ensures largest { result.largest ≡ largest }
{
    ZoneConfig {
        name: "Normal",
        base: 0,
        pages,
        min: 0,
        largest,
    }
}

/// The same of the usual largest order.
pub fn config(pages: u32) -> ZoneConfig<'static>
    ensures base { result.base ≡ 0 }
    ensures pages { result.pages ≡ pages }
    ensures min { result.min ≡ 0 }
{
    config_of(pages, Largest::usual())
}
