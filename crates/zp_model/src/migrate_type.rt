//! Migrate types.
//!
//! In Linux: `enum migratetype`.
ghost use Rattle.std.specs.Prelude.{◌≡◌, ◌<◌};
ghost use Rattle.zp_model.specs.MigrateType.{foreign, type_number};
ghost use Rattle.zp_model.specs.PageblockType.{pageblock_type};

use crate::PageblockType;
use crate::constants::TYPES;

/// What kind of use a page is asked for.
#[derive(Clone, Copy, PartialEq, Eq, Debug, Drop)]
pub enum MigrateType {
    Unmovable,
    Reclaimable,
    Movable,
}

impl MigrateType {
    /// The number of the type, 0 to 2, in the order of the variants.
    pub const fn number(self) -> usize
        ensures number { result ≡ type_number self }
        ensures within { result < TYPES }
    {
        match self {
            MigrateType::Unmovable => 0,
            MigrateType::Reclaimable => 1,
            MigrateType::Movable => 2,
        }
    }

    /// The type of a pageblock whose pages are for such use.
    pub const fn pageblock_type(self) -> PageblockType
        ensures { result ≡ pageblock_type self }
    {
        match self {
            MigrateType::Unmovable => PageblockType::Unmovable,
            MigrateType::Reclaimable => PageblockType::Reclaimable,
            MigrateType::Movable => PageblockType::Movable,
        }
    }

    /// The types that a request for this type may take from besides its own, in the order in which it looks at them.
    pub const fn fallbacks(self) -> [MigrateType; 2]
        ensures { result ≡ foreign self }
    {
        match self {
            MigrateType::Unmovable => [MigrateType::Reclaimable, MigrateType::Movable],
            MigrateType::Reclaimable => [MigrateType::Unmovable, MigrateType::Movable],
            MigrateType::Movable => [MigrateType::Reclaimable, MigrateType::Unmovable],
        }
    }
}
