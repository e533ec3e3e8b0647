//! What C reads of a zone, by numbers.
ghost use Rattle.std.specs.Prelude.{◌≡◌};
ghost use Rattle.zp_model.specs.MigrateType.{type_number};
ghost use Rattle.zonealloc.specs.Readings.{counts_told, page_told, pageblock_told, types_told};

use zp_gate::ZoneTold;
use zp_model::{CountsByType, Level, MigrateType, ORDERS, Order, PAGEBLOCK_TYPES, State, Worker};
use zp_zone::Pageblock;

/// How many free blocks of each order, how many free and posted pages, and the highest mark that the free pages are above.
#[repr(C)]
#[derive(Drop)]
pub struct ZoneCounts {
    pub by_order: [u32; ORDERS],
    pub free: u32,
    pub posted: u32,
    pub level: u32,
}

/// How many free blocks of each order there are in the pageblocks of each type, by the type's number, and how many pageblocks of each type.
#[repr(C)]
#[derive(Drop)]
pub struct ZoneTypes {
    pub free: [[u32; ORDERS]; PAGEBLOCK_TYPES],
    pub pageblocks: [u32; PAGEBLOCK_TYPES],
}

/// What is noted of a page: the state's number, its order, its type and its worker.
#[repr(C)]
#[derive(Default, Drop)]
pub struct PageTold {
    pub state: u32,
    pub order: u32,
    pub kind: u32,
    pub worker: u32,
}

/// What a pageblock is: its type's number, how many of its pages are free, and the order of its largest free block, 11 where it has
/// none.
#[repr(C)]
#[derive(Drop)]
pub struct PageblockTold {
    pub kind: u32,
    pub free: u32,
    pub largest: u32,
}

/// The order that no free block has.
const NO_ORDER: u32 = 11;

/// What a zone tells of itself, by numbers.
pub fn counts_told(told: &ZoneTold) -> ZoneCounts
    ensures { result ≡ counts_told told.now }
{
    ZoneCounts {
        by_order: told.counts.by_order,
        free: told.counts.free,
        posted: told.posted,
        level: match told.level {
            Level::Short => 0,
            Level::Min => 1,
            Level::Low => 2,
            Level::High => 3,
        },
    }
}

/// What a zone tells of its types.
pub fn types_told(told: &CountsByType) -> ZoneTypes
    ensures { result ≡ types_told told.now }
{
    ZoneTypes {
        free: told.free,
        pageblocks: told.pageblocks,
    }
}

/// What is noted of a page, by numbers.
pub fn page_told(state: &State) -> PageTold
    ensures { result ≡ page_told state.now }
{
    match state {
        State::Tail => PageTold::default(),
        State::Free(order) => PageTold {
            state: 1,
            order: u32::from(order.number()),
            ..PageTold::default()
        },
        State::Out(order, kind, worker) => block_told(2, order, kind, worker),
        State::Posted(order, kind, worker) => block_told(3, order, kind, worker),
    }
}

/// A block with its type and its worker, by numbers.
fn block_told(state: u32, order: &Order, kind: &MigrateType, worker: &Worker) -> PageTold
    ensures { result ≡ record { state = state; order = order.now; kind = type_number kind.now; worker = worker.now } }
{
    PageTold {
        state,
        order: u32::from(order.number()),
        kind: kind.number() as u32,
        worker: u32::from(worker.number()),
    }
}

/// What a pageblock is, by numbers.
pub fn pageblock_told(told: &Pageblock) -> PageblockTold
    ensures { result ≡ pageblock_told told.now }
{
    PageblockTold {
        kind: told.kind.number() as u32,
        free: told.free,
        largest: match told.largest {
            Some(order) => u32::from(order.number()),
            None => NO_ORDER,
        },
    }
}
