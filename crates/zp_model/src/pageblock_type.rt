//! Types of pageblocks.
//!
//! In Linux: `get_pageblock_migratetype`, with `MIGRATE_ISOLATE`.
ghost use Rattle.std.specs.Prelude.{◌≡◌, ◌<◌};
ghost use Rattle.zp_model.specs.PageblockType.{is_isolate, migrate_type, noted_type, pageblock_type_number};

use crate::MigrateType;
use crate::constants::PAGEBLOCK_TYPES;

/// What the pages of a pageblock are for, or that it is isolated: nothing is chosen from its free pages.
#[derive(Clone, Copy, PartialEq, Eq, Debug, Drop)]
pub enum PageblockType {
    Unmovable,
    Reclaimable,
    Movable,
    Isolate,
}

impl PageblockType {
    /// The number of the type, 0 to 3, in the order of the variants: that of its list among the lists of one order.
    pub const fn number(self) -> usize
        ensures number { result ≡ pageblock_type_number self }
        ensures within { result < PAGEBLOCK_TYPES }
    {
        match self {
            PageblockType::Unmovable => 0,
            PageblockType::Reclaimable => 1,
            PageblockType::Movable => 2,
            PageblockType::Isolate => 3,
        }
    }

    /// Whether such a pageblock is isolated.
    pub const fn is_isolate(self) -> bool
        ensures { result ≡ is_isolate self }
    {
        matches!(self, PageblockType::Isolate)
    }

    /// The migrate type whose requests choose from such a pageblock first; an isolated one has none.
    pub const fn migrate_type(self) -> Option<MigrateType>
        ensures { result ≡ migrate_type self }
    {
        match self {
            PageblockType::Unmovable => Some(MigrateType::Unmovable),
            PageblockType::Reclaimable => Some(MigrateType::Reclaimable),
            PageblockType::Movable => Some(MigrateType::Movable),
            PageblockType::Isolate => None,
        }
    }

    /// The type noted for a block out that is taken from such a pageblock whatever its type.
    pub const fn noted(self) -> MigrateType
        ensures { result ≡ noted_type self }
    {
        match self {
            PageblockType::Unmovable => MigrateType::Unmovable,
            PageblockType::Reclaimable => MigrateType::Reclaimable,
            PageblockType::Movable | PageblockType::Isolate => MigrateType::Movable,
        }
    }
}
