//! Isolated pageblocks in worked histories. A page is taken from the highest pageblock of a new zone.

use super::histories::*;
use super::*;

const MOVABLE: MigrateType = MigrateType::Movable;

const UNMOVABLE: MigrateType = MigrateType::Unmovable;

const NO_BLOCK: Said<'_> = Said::Refused(Refused::NoBlock);

const HISTORIES: [History<'static>; 3] = [
    // What is isolated is chosen by no request: not by its own type's, not by a claim, not as the lowest block. It is free all the same.
    History {
        shows: "nothing is chosen from an isolated pageblock",
        config: Making {
            name: "DMA",
            base: 1024,
            pages: 4096,
            min: 0,
        },
        asked: &[
            (0, Ask::Isolate(3), Said::Isolated),
            (0, Ask::Isolate(0), Said::Isolated),
            (1, Ask::Isolate(3), Said::Refused(Refused::AlreadyIsolated)),
            (1, Ask::Isolate(4), Said::Refused(Refused::BadPageblock)),
            (
                0,
                Ask::Isolate(u32::MAX),
                Said::Refused(Refused::BadPageblock),
            ),
            (
                0,
                Ask::Release(4, MOVABLE),
                Said::Refused(Refused::BadPageblock),
            ),
            (
                0,
                Ask::Release(2, MOVABLE),
                Said::Refused(Refused::NotIsolated),
            ),
            (0, Ask::Low(10), Said::Block(2048, 10, MOVABLE)),
            (1, Ask::Alloc(10, UNMOVABLE, Mark::Low), Said::Page(3072)),
            (0, Ask::Alloc(0, MOVABLE, Mark::Any), NO_BLOCK),
            (0, Ask::Low(0), NO_BLOCK),
            (
                0,
                Ask::Alloc(0, MOVABLE, Mark::Low),
                Said::Refused(Refused::BelowMark),
            ),
            (1, Ask::Release(3, UNMOVABLE), Said::Released),
            (0, Ask::Alloc(0, UNMOVABLE, Mark::Low), Said::Page(4096)),
        ],
        free: 2047,
        posted: 0,
        pages: &[
            (1024, Noted::Free(10), None, None),
            (2048, Noted::Out(10, MOVABLE, 0), None, None),
            (3072, Noted::Out(10, UNMOVABLE, 1), None, None),
            (4096, Noted::Out(0, UNMOVABLE, 0), None, None),
            (4097, Noted::Free(0), None, None),
        ],
    },
    // What is out, posted and drained of a pageblock when it is isolated comes back to it, and joins there.
    History {
        shows: "pages come back to an isolated pageblock",
        config: Making {
            name: "DMA",
            base: 0,
            pages: 2048,
            min: 0,
        },
        asked: &[
            (0, Ask::Alloc(1, UNMOVABLE, Mark::Any), Said::Page(1024)),
            (0, Ask::Post(1024, 1, 1), Said::Posted),
            (1, Ask::Alloc(0, UNMOVABLE, Mark::Any), Said::Page(1026)),
            (1, Ask::Alloc(0, UNMOVABLE, Mark::Any), Said::Page(1027)),
            (0, Ask::Isolate(1), Said::Isolated),
            (1, Ask::Drain(UNMOVABLE, &[1027, 1026]), Said::Drained),
            (1, Ask::Collect, Said::Block(1024, 1, UNMOVABLE)),
            (1, Ask::Alloc(10, UNMOVABLE, Mark::Any), Said::Page(0)),
            (1, Ask::Free(1024, 1), Said::Freed),
            (0, Ask::Alloc(0, UNMOVABLE, Mark::Any), NO_BLOCK),
        ],
        free: 1024,
        posted: 0,
        pages: &[
            (0, Noted::Out(10, UNMOVABLE, 1), None, None),
            (1024, Noted::Free(10), None, None),
            (1026, Noted::Tail, None, None),
        ],
    },
    // A refill stops at its mark, which looks at the pages outside isolated pageblocks. What is free there comes first on a list, the highest
    // in front, when the pageblock is released.
    History {
        shows: "a refill stops at the mark of the available pages",
        config: Making {
            name: "DMA",
            base: 0,
            pages: 1028,
            min: 2,
        },
        asked: &[
            (0, Ask::Isolate(0), Said::Isolated),
            (0, Ask::Refill(4, Mark::Min), Said::Pages(&[1024, 1025])),
            (
                0,
                Ask::Refill(4, Mark::Min),
                Said::Refused(Refused::BelowMark),
            ),
            (0, Ask::Release(0, MOVABLE), Said::Released),
            (0, Ask::Refill(2, Mark::Min), Said::Pages(&[1026, 1027])),
        ],
        free: 1024,
        posted: 0,
        pages: &[(0, Noted::Free(10), None, None)],
    },
];

#[test]
fn isolated_pageblocks_are_passed_over(rt: HostRuntime) -> Result<(), Fail> {
    for history in &HISTORIES {
        expect(&rt, history)?;
    }
    Ok(())
}
