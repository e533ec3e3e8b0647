//! The vocabulary of the zone allocator: the small types that all crates share, the definitions of the plain zone
//! (`specs/`), and the laws on maximal blocks.
//!
//! Contracts see an order, a page and a worker as a number. The definitions read from top to bottom in the order of
//! `specs/Lib.antt`.
#![tactic(auto)]

mod block;
mod blocks_law;
mod constants;
mod counts;
mod entry;
mod largest;
mod mark;
mod migrate_type;
mod name;
mod order;
mod origin;
mod page;
mod page_list;
mod pageblock_type;
mod refused;
mod request;
mod state;
mod worker;

pub use block::Block;
pub use blocks_law::{each_page_in_one_block, unjoined_blocks_are_maximal};
pub use constants::{
    BASE_LIMIT, BASE_STEP, LARGEST_ALIGNMENT, LARGEST_BLOCK_PAGES, LARGEST_ORDER, LONGEST_LIST,
    LONGEST_NAME, MAX_BATCH, MAX_PAGES, MAX_WORKERS, MAX_ZONES, NAME_PLACES, NARROW_BASE_LIMIT,
    NARROW_PAGES, NUMBER_PLACES, ORDERS, PAGEBLOCK_TYPES, TRACE_ZONES, TYPES,
};
pub use counts::{Counts, CountsByType};
pub use entry::{Answered, Asked, Entry};
pub use largest::Largest;
pub use mark::{Level, Mark};
pub use migrate_type::MigrateType;
pub use name::Name;
pub use order::Order;
pub use origin::Origin;
pub use page::{PageAt, PageNo};
pub use page_list::PageList;
pub use pageblock_type::PageblockType;
pub use refused::Refused;
pub use request::{Reply, Request};
pub use state::State;
pub use worker::Worker;
