//! A worker's share: its own lists of pages, the blocks lent to it, and its sections.
#![tactic(auto)]

mod answered;
mod commands;
mod gathering;
mod list_config;
mod packed_use;
mod page_stack;
mod page_use;
mod page_uses;
mod plain_zones;
mod sections_made;
mod share;
mod zone_share;
mod zones;

pub use answered::is_section;
pub use commands::{Lent, alloc, drain_all, free};
pub use gathering::{Totals, gather, gather_zone};
pub use list_config::ListConfig;
pub use plain_zones::PlainZones;
pub use share::Share;
pub use zone_share::ZoneShare;
pub use zones::Zones;
