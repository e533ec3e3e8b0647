//! Requests whose results follow by hand from the rules: both allocators return these, and agree after each.

use crate::pair::{Pair, new_pair, order_of, page_of};
use std::alloc::{AllocError, AllocGlobal};
use std::process::Abort;
use std::test::Fail;
use zp_model::{MigrateType, PageAt, PageblockType};

const UNMOVABLE: MigrateType = MigrateType::Unmovable;

const RECLAIMABLE: MigrateType = MigrateType::Reclaimable;

const MOVABLE: MigrateType = MigrateType::Movable;

/// A request, and its result.
#[derive(Clone, Copy, Drop)]
enum Step {
    /// A block of this order for a type: its first page.
    Take(u8, MigrateType, Option<u32>),
    /// The lowest block of this order: its first page.
    Low(u8, Option<u32>),
    /// The block of this order at this page comes back.
    Give(u32, u8),
    /// No block of this order at this page may come back, though all its pages are out.
    Keep(u32, u8),
    /// The pageblock of this number gets a type.
    Retype(usize, PageblockType),
}

/// Makes a step of both, and compares the result.
fn make_step(rt: &impl Abort, pair: &mut Pair, step: Step) {
    match step {
        Step::Take(order, kind, expected) => {
            let page = pair.take(rt, order_of(rt, order), kind);
            assert!(rt; page.map(PageAt::number) == expected);
        }
        Step::Low(order, expected) => {
            let page = pair.take_low(rt, order_of(rt, order));
            assert!(rt; page.map(PageAt::number) == expected);
        }
        Step::Give(page, order) => {
            let is_given = pair.give(rt, page_of(rt, page), order_of(rt, order));
            assert!(rt; is_given, "page {page}");
        }
        Step::Keep(page, order) => {
            let is_given = pair.give(rt, page_of(rt, page), order_of(rt, order));
            assert!(rt; !is_given, "page {page}");
        }
        Step::Retype(pageblock, kind) => {
            assert!(rt; pair.retype(rt, pageblock, kind), "pageblock {pageblock}");
        }
    }
}

/// Makes the steps in turn, and compares the two after each.
fn make_steps(rt: &impl Abort, pair: &mut Pair, steps: &[Step]) {
    for step in steps {
        make_step(rt, pair, *step);
        pair.compare(rt);
    }
}

/// The same of a new zone of so many pages with this largest order.
fn compare_steps(
    rt: &(impl Abort + AllocGlobal),
    largest: u8,
    pages: u32,
    steps: &[Step],
) -> Result<(), AllocError> {
    let mut pair = new_pair(rt, largest, pages)?;
    make_steps(rt, &mut pair, steps);
    Ok(())
}

/// The largest order of a new zone, its pages, and what is asked of it.
type Case = (u8, u32, &'static [Step]);

const CASES: [Case; 17] = [
    (
        10,
        4096,
        &[Step::Take(0, MOVABLE, Some(3072)), Step::Give(3072, 0)],
    ),
    (
        10,
        4096,
        &[
            Step::Take(0, UNMOVABLE, Some(3072)),
            Step::Take(0, MOVABLE, Some(2048)),
            Step::Take(0, UNMOVABLE, Some(3073)),
        ],
    ),
    (
        10,
        8,
        &[
            Step::Take(0, UNMOVABLE, Some(0)),
            Step::Take(0, MOVABLE, Some(1)),
            Step::Take(1, UNMOVABLE, Some(2)),
            Step::Give(0, 0),
            Step::Give(2, 1),
            Step::Give(1, 0),
        ],
    ),
    (
        10,
        1024,
        &[
            Step::Take(9, MOVABLE, Some(0)),
            Step::Take(0, UNMOVABLE, Some(512)),
            Step::Take(0, MOVABLE, Some(513)),
            Step::Give(0, 9),
            Step::Take(1, MOVABLE, Some(0)),
        ],
    ),
    (
        10,
        1023,
        &[
            Step::Take(10, MOVABLE, None),
            Step::Take(9, MOVABLE, Some(0)),
            Step::Take(9, MOVABLE, None),
        ],
    ),
    (10, 13, &[Step::Take(2, MOVABLE, Some(8))]),
    (
        10,
        1,
        &[
            Step::Take(0, RECLAIMABLE, Some(0)),
            Step::Take(0, RECLAIMABLE, None),
        ],
    ),
    // The lowest block is split, though the block in front of a list would do; a smaller one does not stand in its way.
    (
        10,
        4096,
        &[
            Step::Take(0, UNMOVABLE, Some(3072)),
            Step::Low(0, Some(0)),
            Step::Low(10, Some(1024)),
            Step::Low(9, Some(512)),
            Step::Take(0, MOVABLE, Some(1)),
            Step::Give(0, 0),
            Step::Low(0, Some(0)),
        ],
    ),
    (
        10,
        13,
        &[
            Step::Take(0, MOVABLE, Some(12)),
            Step::Low(0, Some(0)),
            Step::Low(3, None),
            Step::Low(2, Some(4)),
            Step::Low(2, Some(8)),
            Step::Low(2, None),
        ],
    ),
    (
        2,
        11,
        &[
            Step::Take(0, UNMOVABLE, Some(4)),
            Step::Low(3, None),
            Step::Low(2, Some(0)),
            Step::Low(2, None),
            Step::Low(1, Some(6)),
            Step::Low(0, Some(5)),
            Step::Low(0, Some(8)),
            Step::Low(1, None),
            Step::Low(0, Some(9)),
            Step::Low(0, Some(10)),
            Step::Low(0, None),
        ],
    ),
    // Nothing is taken of an isolated pageblock, whose free blocks stay free, and are joined, until it is released.
    (
        2,
        12,
        &[
            Step::Retype(2, PageblockType::Isolate),
            // The front of the Movable list is page 4 now, of which pages 5 to 7 are left to Unmovable, and then to Reclaimable.
            Step::Take(0, UNMOVABLE, Some(4)),
            Step::Take(2, MOVABLE, Some(0)),
            Step::Take(1, RECLAIMABLE, Some(6)),
            Step::Take(0, MOVABLE, Some(5)),
            Step::Take(0, MOVABLE, None),
            Step::Low(0, None),
            Step::Retype(2, PageblockType::Movable),
            Step::Take(0, MOVABLE, Some(8)),
            Step::Low(1, Some(10)),
        ],
    ),
    (
        2,
        12,
        &[
            Step::Retype(2, PageblockType::Isolate),
            Step::Take(2, MOVABLE, Some(4)),
            Step::Low(0, Some(0)),
            Step::Low(2, None),
            Step::Take(2, UNMOVABLE, None),
            // Pages 1 to 3 are free, and page 0 comes back to them.
            Step::Retype(0, PageblockType::Isolate),
            Step::Take(0, MOVABLE, None),
            Step::Low(0, None),
            Step::Give(0, 0),
            Step::Take(0, UNMOVABLE, None),
            // The block of four pages is Reclaimable when it is released, and Movable claims it.
            Step::Retype(0, PageblockType::Reclaimable),
            Step::Take(0, MOVABLE, Some(0)),
            Step::Retype(2, PageblockType::Unmovable),
            Step::Take(2, UNMOVABLE, Some(8)),
            Step::Give(4, 2),
            Step::Low(2, Some(4)),
        ],
    ),
    // Pageblocks of two pages: the last one, which is short, has page 4. Any free page lets a type claim its pageblock.
    (
        1,
        5,
        &[
            Step::Take(2, MOVABLE, None),
            Step::Low(2, None),
            Step::Take(0, UNMOVABLE, Some(2)),
            Step::Take(0, RECLAIMABLE, Some(0)),
            Step::Take(0, MOVABLE, Some(4)),
            // There are only single pages now, and Movable claims by these too.
            Step::Take(1, MOVABLE, None),
            Step::Take(0, MOVABLE, Some(1)),
            Step::Take(0, MOVABLE, Some(3)),
            Step::Take(0, UNMOVABLE, None),
            Step::Give(2, 0),
            Step::Give(3, 0),
            Step::Give(0, 0),
            Step::Give(1, 0),
            // Two free buddies of the largest order are not joined.
            Step::Take(2, MOVABLE, None),
            Step::Take(1, MOVABLE, Some(0)),
            Step::Take(1, MOVABLE, Some(2)),
            Step::Keep(0, 2),
        ],
    ),
    // Pageblocks of four pages: of the last one there are pages 8 and 9.
    (
        2,
        10,
        &[
            Step::Take(3, MOVABLE, None),
            Step::Take(2, UNMOVABLE, Some(4)),
            Step::Take(2, MOVABLE, Some(0)),
            // The short pageblock is claimed with two free pages; with one free page it is not, and page 9 is borrowed.
            Step::Take(0, RECLAIMABLE, Some(8)),
            Step::Take(0, UNMOVABLE, Some(9)),
            Step::Take(0, UNMOVABLE, None),
            // Movable claims by no single page, and Reclaimable does.
            Step::Give(5, 0),
            Step::Give(7, 0),
            Step::Take(0, MOVABLE, Some(7)),
            Step::Give(7, 0),
            Step::Take(0, RECLAIMABLE, Some(7)),
            // By two pages Movable claims.
            Step::Give(4, 0),
            Step::Take(1, MOVABLE, Some(4)),
            Step::Give(0, 2),
            Step::Give(4, 1),
            Step::Give(6, 0),
            Step::Give(7, 0),
            // Two free buddies of the largest order are not joined.
            Step::Take(3, MOVABLE, None),
            Step::Take(2, MOVABLE, Some(4)),
            Step::Take(2, MOVABLE, Some(0)),
            Step::Keep(0, 3),
        ],
    ),
    // Pageblocks of eight pages: of the last one there are pages 16 to 20.
    (
        3,
        21,
        &[
            Step::Take(4, MOVABLE, None),
            Step::Take(2, RECLAIMABLE, Some(8)),
            Step::Take(3, UNMOVABLE, Some(0)),
            // The high half of the Reclaimable pageblock is free, which is enough for a claim; the three pages left are not.
            Step::Take(0, UNMOVABLE, Some(12)),
            Step::Take(2, MOVABLE, Some(16)),
            Step::Take(2, MOVABLE, None),
            Step::Take(1, MOVABLE, Some(14)),
            Step::Low(0, Some(13)),
            Step::Low(0, Some(20)),
            Step::Low(0, None),
            Step::Give(8, 2),
            Step::Give(12, 0),
            Step::Give(13, 0),
            Step::Give(14, 1),
            Step::Give(0, 3),
            // Two free buddies of the largest order are not joined.
            Step::Take(4, UNMOVABLE, None),
            Step::Give(16, 2),
            Step::Give(20, 0),
            Step::Take(3, UNMOVABLE, Some(0)),
            Step::Take(3, UNMOVABLE, Some(8)),
            Step::Keep(0, 4),
        ],
    ),
    // Pageblocks of 32 pages: of the last one there are 11.
    (
        5,
        75,
        &[
            Step::Take(6, UNMOVABLE, None),
            Step::Take(10, MOVABLE, None),
            Step::Take(4, UNMOVABLE, Some(32)),
            Step::Take(5, RECLAIMABLE, Some(0)),
            // The 16 free pages of the Unmovable pageblock are enough for a claim; the 15 left are not.
            Step::Take(0, RECLAIMABLE, Some(48)),
            Step::Take(4, MOVABLE, None),
            Step::Take(3, MOVABLE, Some(64)),
            Step::Take(3, MOVABLE, Some(56)),
            Step::Take(2, UNMOVABLE, Some(52)),
            Step::Low(1, Some(50)),
            Step::Low(1, Some(72)),
            Step::Give(32, 4),
            Step::Give(48, 0),
            Step::Give(50, 1),
            Step::Give(52, 2),
            Step::Give(56, 3),
            Step::Give(0, 5),
            // Two free buddies of the largest order are not joined.
            Step::Take(6, RECLAIMABLE, None),
            Step::Take(5, RECLAIMABLE, Some(0)),
            Step::Take(5, RECLAIMABLE, Some(32)),
            Step::Keep(0, 6),
        ],
    ),
    // Pageblocks of 512 pages: of the last one there are 76.
    (
        9,
        1100,
        &[
            Step::Take(10, MOVABLE, None),
            Step::Take(8, UNMOVABLE, Some(512)),
            Step::Take(9, RECLAIMABLE, Some(0)),
            // The 256 free pages of the Unmovable pageblock are enough for a claim; the 255 left are not.
            Step::Take(0, RECLAIMABLE, Some(768)),
            Step::Take(4, MOVABLE, Some(1024)),
            Step::Take(6, MOVABLE, Some(832)),
            Step::Give(768, 0),
            Step::Take(4, MOVABLE, Some(1040)),
            Step::Give(832, 6),
            Step::Give(512, 8),
            Step::Give(0, 9),
            // Two free buddies of the largest order are not joined.
            Step::Take(10, RECLAIMABLE, None),
            Step::Take(9, RECLAIMABLE, Some(0)),
            Step::Take(9, RECLAIMABLE, Some(512)),
            Step::Keep(0, 10),
        ],
    ),
];

#[test]
fn worked_requests_are_answered_alike(rt: HostRuntime) -> Result<(), Fail> {
    for (largest, pages, steps) in CASES {
        compare_steps(&rt, largest, pages, steps)?;
    }
    Ok(())
}
