//! Refills and drains in worked histories: a mark that stops inside a block, pages of blocks that come back in any order, and pages of
//! another type. The pages are those that requests for one page, one after another, get and free.

use super::histories::*;
use super::*;

const MOVABLE: MigrateType = MigrateType::Movable;

const UNMOVABLE: MigrateType = MigrateType::Unmovable;

const HISTORIES: [History<'static>; 5] = [
    // The mark is 5, so of 16 pages 11 may go out: 8 of the lower half, 2 and 1 of the upper one. Of those that come back the first four are
    // a block that falls; the fifth joins a page that was left.
    History {
        shows: "a mark stops a refill inside a block",
        config: Making {
            name: "DMA",
            base: 1024,
            pages: 16,
            min: 4,
        },
        asked: &[
            (
                0,
                Ask::Refill(16, Mark::Low),
                Said::Pages(&[
                    1024, 1025, 1026, 1027, 1028, 1029, 1030, 1031, 1032, 1033, 1034,
                ]),
            ),
            (
                0,
                Ask::Refill(1, Mark::Low),
                Said::Refused(Refused::BelowMark),
            ),
            (
                0,
                Ask::Drain(MOVABLE, &[1027, 1026, 1025, 1024, 1034, 1033]),
                Said::Drained,
            ),
        ],
        free: 11,
        posted: 0,
        pages: &[
            (1024, Noted::Free(2), None, Some(1036)),
            (1025, Noted::Tail, None, None),
            (1028, Noted::Out(0, MOVABLE, 0), None, None),
            (1032, Noted::Out(0, MOVABLE, 0), None, None),
            (1033, Noted::Free(0), None, None),
            (1034, Noted::Free(1), None, None),
            (1036, Noted::Free(2), Some(1024), None),
        ],
    },
    History {
        shows: "pages of a block come back turned",
        config: Making {
            name: "DMA",
            base: 0,
            pages: 16,
            min: 0,
        },
        asked: &[
            (
                1,
                Ask::Refill(16, Mark::Any),
                Said::Pages(&[0, 1, 2, 3, 4, 5, 6, 7, 8, 9, 10, 11, 12, 13, 14, 15]),
            ),
            (
                1,
                Ask::Drain(MOVABLE, &[5, 4, 7, 6, 15, 14, 13, 12, 2, 3, 0, 1, 8, 9, 10]),
                Said::Drained,
            ),
        ],
        free: 15,
        posted: 0,
        pages: &[
            (0, Noted::Free(3), None, None),
            (8, Noted::Free(1), None, None),
            (10, Noted::Free(0), None, None),
            (11, Noted::Out(0, MOVABLE, 1), None, None),
            (12, Noted::Free(2), None, None),
        ],
    },
    // Page 2 stands behind page 1, but is in another block.
    History {
        shows: "pages that only follow each other come back one by one",
        config: Making {
            name: "DMA",
            base: 0,
            pages: 8,
            min: 0,
        },
        asked: &[
            (
                0,
                Ask::Refill(8, Mark::Any),
                Said::Pages(&[0, 1, 2, 3, 4, 5, 6, 7]),
            ),
            (0, Ask::Drain(MOVABLE, &[1, 2, 3, 4]), Said::Drained),
        ],
        free: 4,
        posted: 0,
        pages: &[
            (1, Noted::Free(0), Some(4), None),
            (2, Noted::Free(1), None, None),
            (4, Noted::Free(0), None, Some(1)),
        ],
    },
    History {
        shows: "a refill claims a pageblock for its first page",
        config: Making {
            name: "DMA",
            base: 0,
            pages: 1024,
            min: 0,
        },
        asked: &[
            (0, Ask::Isolate(0), Said::Isolated),
            (0, Ask::Release(0, UNMOVABLE), Said::Released),
            (0, Ask::Refill(4, Mark::Any), Said::Pages(&[0, 1, 2, 3])),
            (0, Ask::Low(2), Said::Block(4, 2, MOVABLE)),
        ],
        free: 1016,
        posted: 0,
        pages: &[(8, Noted::Free(3), None, None)],
    },
    // A pageblock of 8 pages is too small to be claimed.
    History {
        shows: "a refill borrows page by page",
        config: Making {
            name: "DMA",
            base: 0,
            pages: 8,
            min: 0,
        },
        asked: &[
            (0, Ask::Isolate(0), Said::Isolated),
            (0, Ask::Release(0, UNMOVABLE), Said::Released),
            (0, Ask::Refill(3, Mark::Any), Said::Pages(&[0, 1, 2])),
            (0, Ask::Low(0), Said::Block(3, 0, UNMOVABLE)),
        ],
        free: 4,
        posted: 0,
        pages: &[(4, Noted::Free(2), None, None)],
    },
];

#[test]
fn refills_and_drains_are_as_pages_one_by_one(rt: HostRuntime) -> Result<(), Fail> {
    for history in &HISTORIES {
        expect(&rt, history)?;
    }
    Ok(())
}
