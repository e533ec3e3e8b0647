//! What a zone of 2^24 pages reports of the last page of the largest narrow zone, of the page after it, and of its own last page, as blocks
//! come and go there. The values that it has to report were worked out from `docs/rules.md`.

use std::alloc::Global;
use zp_loads::{LoadSource, SeatSource, Unmade, expect};
use zp_model::{MAX_PAGES, MigrateType, NARROW_PAGES, Order, PageNo, State, Worker};
use zp_zone::ZonePage;

/// The pages that are watched.
const WATCHED: [u32; 3] = [LAST_NARROW, FIRST_WIDE, LAST];

const LAST_NARROW: u32 = NARROW_PAGES - 1;

const FIRST_WIDE: u32 = NARROW_PAGES;

const LAST: u32 = MAX_PAGES - 1;

/// The pages of a pageblock.
const PAGEBLOCK: u32 = 1024;

/// The pageblocks of the watched pages.
const PAGEBLOCKS: [u32; 3] = [63, 64, 16_383];

/// The blocks that leave of a pageblock its last page alone: their orders, and their places in it.
const HALVES: [(u8, u32); 10] = [
    (9, 0),
    (8, 512),
    (7, 768),
    (6, 896),
    (5, 960),
    (4, 992),
    (3, 1008),
    (2, 1016),
    (1, 1020),
    (0, 1022),
];

/// The blocks that are left of a pageblock whose first page is taken.
const RESTS: [(u8, u32); 10] = [
    (0, 1),
    (1, 2),
    (2, 4),
    (3, 8),
    (4, 16),
    (5, 32),
    (6, 64),
    (7, 128),
    (8, 256),
    (9, 512),
];

/// The zone in one hand.
type Whole = SeatSource<10>;

/// Takes a block, which has to begin at this page.
fn take(zone: &mut Whole, order: Order, page: u32) -> Result<(), Unmade> {
    let answer = zone.take(order, MigrateType::Movable);
    expect(answer == Some(PageNo::new(page)))
}

/// Takes these blocks of a pageblock.
fn take_all(zone: &mut Whole, pageblock: u32, blocks: &[(u8, u32)]) -> Result<(), Unmade> {
    let head = pageblock.saturating_mul(PAGEBLOCK);
    for (number, place) in blocks {
        let order = Order::new(*number).ok_or(Unmade::Other)?;
        take(zone, order, head.saturating_add(*place))?;
    }
    Ok(())
}

/// Takes the pageblocks between these two, the higher ones first.
fn take_between(zone: &mut Whole, low: u32, high: u32) -> Result<(), Unmade> {
    for pageblock in (low..high).rev() {
        if pageblock != low {
            take(zone, Order::largest(), pageblock.saturating_mul(PAGEBLOCK))?;
        }
    }
    Ok(())
}

/// Frees a page that was taken.
fn give(zone: &mut Whole, page: u32) {
    zone.give(PageNo::new(page), Order::zero());
}

/// The zone must report these entries of the watched pages.
fn tells(zone: &Whole, told: [ZonePage; 3]) -> Result<(), Unmade> {
    for (page, told) in WATCHED.iter().zip(told) {
        expect(zone.entry(PageNo::new(*page)) == Some(told))?;
    }
    Ok(())
}

/// A page that heads no block.
fn tail() -> ZonePage {
    ZonePage {
        state: State::Tail,
        back: None,
        forward: None,
    }
}

/// A single page that is out.
fn out() -> ZonePage {
    ZonePage {
        state: State::Out(Order::zero(), MigrateType::Movable, Worker::first()),
        back: None,
        forward: None,
    }
}

/// The head of a free block between these neighbours on its list.
fn free(order: Order, back: Option<u32>, forward: Option<u32>) -> ZonePage {
    ZonePage {
        state: State::Free(order),
        back: back.map(PageNo::new),
        forward: forward.map(PageNo::new),
    }
}

/// A single free page.
fn single(back: Option<u32>, forward: Option<u32>) -> ZonePage {
    free(Order::zero(), back, forward)
}

/// Two free pages.
fn double(back: Option<u32>, forward: Option<u32>) -> ZonePage {
    free(Order::zero().higher(), back, forward)
}

/// A free pageblock.
fn whole(back: Option<u32>, forward: Option<u32>) -> ZonePage {
    free(Order::largest(), back, forward)
}

/// All three are taken, each alone, from a zone all of whose pages are free: the highest pageblock is in front.
fn go_out(zone: &mut Whole) -> Result<(), Unmade> {
    let [narrow, wide, last] = PAGEBLOCKS;
    let (before, after) = (Some(64_512), Some(66_560));
    tells(zone, [tail(), whole(after, before), tail()])?;
    take_all(zone, last, &HALVES)?;
    tells(zone, [tail(), whole(after, before), single(None, None)])?;
    take(zone, Order::zero(), LAST)?;
    tells(zone, [tail(), whole(after, before), out()])?;
    take_between(zone, wide, last)?;
    tells(zone, [tail(), whole(None, before), out()])?;
    take(zone, Order::zero(), FIRST_WIDE)?;
    take_all(zone, wide, &RESTS)?;
    take_all(zone, narrow, &HALVES)?;
    tells(zone, [single(None, None), out(), out()])?;
    take(zone, Order::zero(), LAST_NARROW)?;
    tells(zone, [out(), out(), out()])
}

/// The watched pages are freed, each alone at first, as its buddy is out; then the buddies of two of them.
fn come_back(zone: &mut Whole) -> Result<(), Unmade> {
    give(zone, LAST);
    give(zone, FIRST_WIDE);
    give(zone, LAST_NARROW);
    let (narrow, wide, last) = (Some(LAST_NARROW), Some(FIRST_WIDE), Some(LAST));
    tells(
        zone,
        [single(None, wide), single(narrow, last), single(wide, None)],
    )?;
    give(zone, FIRST_WIDE + 1);
    tells(
        zone,
        [single(None, last), double(None, None), single(narrow, None)],
    )?;
    give(zone, LAST - 1);
    tells(
        zone,
        [single(None, None), double(Some(LAST - 1), None), tail()],
    )
}

/// Follows the watched pages as they are allocated and freed: a result other than the rules' is an error.
pub fn follow(alloc: Global) -> Result<(), Unmade> {
    let mut zone = Whole::new(alloc, MAX_PAGES)?;
    go_out(&mut zone)?;
    come_back(&mut zone)
}
