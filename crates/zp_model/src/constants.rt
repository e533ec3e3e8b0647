//! The bounds of the allocator, each stated here and nowhere else.
//!
//! In Linux: `MAX_PAGE_ORDER`, `pageblock_nr_pages`, `MIGRATE_PCPTYPES` and their like.

/// The largest order that a zone's blocks can have. Each zone has a largest order of its own, this one at most.
pub const LARGEST_ORDER: u8 = 10;

/// The pages of a block of that order.
pub const LARGEST_BLOCK_PAGES: u32 = 1 << LARGEST_ORDER;

/// How many orders there are.
pub const ORDERS: usize = LARGEST_ORDER as usize + 1;

/// How many migrate types there are.
pub const TYPES: usize = 3;

/// How many types a pageblock can have: the migrate types, and Isolate.
pub const PAGEBLOCK_TYPES: usize = TYPES + 1;

/// The largest number of pages of a zone. (The buddy of a page is one bit away, so it is a power of two.)
pub const MAX_PAGES: u32 = 1 << 24;

/// The largest number of pages of a narrow zone: one that a trace declares.
pub const NARROW_PAGES: u32 = 65_536;

/// The largest number of workers of a zone.
pub const MAX_WORKERS: u32 = 32;

/// The most zones of a row.
pub const MAX_ZONES: usize = 64;

/// The most zones that a trace declares.
pub const TRACE_ZONES: usize = 4;

/// A run may be asked for at a multiple of two to this power at most, in absolute pages.
pub const LARGEST_ALIGNMENT: u8 = 24;

/// What the base of a zone is a multiple of, so that blocks of all orders start at their multiples in absolute numbers too.
pub const BASE_STEP: u32 = LARGEST_BLOCK_PAGES;

/// The largest base of a zone.
pub const BASE_LIMIT: u32 = 1 << 30;

/// The largest base of a narrow zone.
pub const NARROW_BASE_LIMIT: u32 = 16_777_216;

/// The places of a zone's name in the info line, and of a number there.
pub const NAME_PLACES: usize = 8;

pub const NUMBER_PLACES: usize = 6;

/// The most bytes of a name.
pub const LONGEST_NAME: usize = 8;

/// The most pages of one refill of a worker's list.
pub const MAX_BATCH: usize = 31;

/// The most pages of a worker's list, and so of the list of pages in a journal entry.
pub const LONGEST_LIST: usize = 64;
