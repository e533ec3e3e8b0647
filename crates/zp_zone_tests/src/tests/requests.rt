//! Each request in worked histories. A page is taken from the highest pageblock of a new zone, and its block leaves the higher halves.

use super::histories::*;
use super::*;

const MOVABLE: MigrateType = MigrateType::Movable;

const UNMOVABLE: MigrateType = MigrateType::Unmovable;

const BELOW: Said<'_> = Said::Refused(Refused::BelowMark);

const NO_BLOCK: Said<'_> = Said::Refused(Refused::NoBlock);

const HISTORIES: [History<'static>; 12] = [
    History {
        shows: "entries tell heads tails and neighbours",
        config: Making {
            name: "Normal",
            base: 1024,
            pages: 4109,
            min: 0,
        },
        asked: &[(0, Ask::Alloc(10, MOVABLE, Mark::Any), Said::Page(4096))],
        free: 3085,
        posted: 0,
        pages: &[
            (1024, Noted::Free(10), Some(2048), None),
            (2048, Noted::Free(10), Some(3072), Some(1024)),
            (3072, Noted::Free(10), None, Some(2048)),
            (4096, Noted::Out(10, MOVABLE, 0), None, None),
            (1025, Noted::Tail, None, None),
            (5120, Noted::Free(3), None, None),
            (5128, Noted::Free(2), None, None),
            (5132, Noted::Free(0), None, None),
        ],
    },
    // The lowest block is noted with the type that its pageblock has when it is taken, and keeps it when an Unmovable page claims
    // the pageblock.
    History {
        shows: "the lowest block has the type of its pageblock",
        config: Making {
            name: "DMA",
            base: 1024,
            pages: 1024,
            min: 0,
        },
        asked: &[
            (0, Ask::Low(0), Said::Block(1024, 0, MOVABLE)),
            (0, Ask::Alloc(0, UNMOVABLE, Mark::Any), Said::Page(1536)),
            (0, Ask::Low(0), Said::Block(1025, 0, UNMOVABLE)),
            (0, Ask::Low(10), NO_BLOCK),
        ],
        free: 1021,
        posted: 0,
        pages: &[
            (1024, Noted::Out(0, MOVABLE, 0), None, None),
            (1025, Noted::Out(0, UNMOVABLE, 0), None, None),
        ],
    },
    // What worker 0 posts stands on worker 1's list in the order of the posting.
    History {
        shows: "posted blocks stand in their order",
        config: Making {
            name: "DMA",
            base: 0,
            pages: 4096,
            min: 0,
        },
        asked: &[
            (1, Ask::Collect, Said::Refused(Refused::NothingPosted)),
            (0, Ask::Alloc(3, MOVABLE, Mark::Any), Said::Page(3072)),
            (0, Ask::Post(3072, 3, 1), Said::Posted),
            (0, Ask::Alloc(0, MOVABLE, Mark::Any), Said::Page(3080)),
            (0, Ask::Post(3080, 0, 1), Said::Posted),
        ],
        free: 4087,
        posted: 9,
        pages: &[
            (3072, Noted::Posted(3, MOVABLE, 1), None, Some(3080)),
            (3080, Noted::Posted(0, MOVABLE, 1), Some(3072), None),
        ],
    },
    // The block posted first is collected first. In a zone of 8 pages an Unmovable page is borrowed: its pageblock stays Movable, and
    // the page stays Unmovable on its way.
    History {
        shows: "blocks are collected as they were posted",
        config: Making {
            name: "DMA",
            base: 1024,
            pages: 8,
            min: 0,
        },
        asked: &[
            (0, Ask::Alloc(0, UNMOVABLE, Mark::Any), Said::Page(1024)),
            (0, Ask::Alloc(1, MOVABLE, Mark::Any), Said::Page(1026)),
            (0, Ask::Post(1026, 1, 0), Said::Posted),
            (0, Ask::Post(1024, 0, 0), Said::Posted),
            (0, Ask::Collect, Said::Block(1026, 1, MOVABLE)),
            (0, Ask::Collect, Said::Block(1024, 0, UNMOVABLE)),
            (0, Ask::Collect, Said::Refused(Refused::NothingPosted)),
            (0, Ask::Low(0), Said::Block(1025, 0, MOVABLE)),
        ],
        free: 4,
        posted: 0,
        pages: &[
            (1024, Noted::Out(0, UNMOVABLE, 0), None, None),
            (1026, Noted::Out(1, MOVABLE, 0), None, None),
        ],
    },
    // Where all pages are posted, none is free: a request is refused for its mark where it has one, else for want of a block.
    History {
        shows: "requests are refused for their mark first",
        config: Making {
            name: "DMA",
            base: 0,
            pages: 1024,
            min: 0,
        },
        asked: &[
            (0, Ask::Alloc(10, MOVABLE, Mark::Low), Said::Page(0)),
            (0, Ask::Post(0, 10, 0), Said::Posted),
            (0, Ask::Alloc(0, MOVABLE, Mark::Low), BELOW),
            (0, Ask::Alloc(0, MOVABLE, Mark::Any), NO_BLOCK),
        ],
        free: 0,
        posted: 1024,
        pages: &[],
    },
    // A request asks for more free pages than its mark and all its own pages but one: 1,023 are too few for 1,024.
    History {
        shows: "a mark counts the pages asked for",
        config: Making {
            name: "DMA",
            base: 0,
            pages: 1023,
            min: 0,
        },
        asked: &[
            (0, Ask::Alloc(10, MOVABLE, Mark::Low), BELOW),
            (0, Ask::Alloc(10, MOVABLE, Mark::Any), NO_BLOCK),
        ],
        free: 1023,
        posted: 0,
        pages: &[],
    },
    History {
        shows: "pages are got and given back in batches",
        config: Making {
            name: "DMA",
            base: 0,
            pages: 4096,
            min: 0,
        },
        asked: &[
            (
                0,
                Ask::Refill(4, Mark::Low),
                Said::Pages(&[3072, 3073, 3074, 3075]),
            ),
            (
                0,
                Ask::Drain(MOVABLE, &[3072, 3073, 3074, 3075]),
                Said::Drained,
            ),
            (0, Ask::Drain(MOVABLE, &[]), Said::Drained),
            (0, Ask::Refill(1, Mark::Low), Said::Pages(&[3072])),
        ],
        free: 4095,
        posted: 0,
        pages: &[(3072, Noted::Out(0, MOVABLE, 0), None, None)],
    },
    // 31 pages are the most that a refill returns: here all that there are, the smallest blocks first.
    History {
        shows: "a refill may take all pages",
        config: Making {
            name: "DMA",
            base: 0,
            pages: 31,
            min: 0,
        },
        asked: &[
            (
                0,
                Ask::Refill(31, Mark::Any),
                Said::Pages(&[
                    30, 28, 29, 24, 25, 26, 27, 16, 17, 18, 19, 20, 21, 22, 23, 0, 1, 2, 3, 4, 5,
                    6, 7, 8, 9, 10, 11, 12, 13, 14, 15,
                ]),
            ),
            (0, Ask::Refill(1, Mark::Any), NO_BLOCK),
            (0, Ask::Refill(1, Mark::Min), BELOW),
            (
                0,
                Ask::Drain(
                    MOVABLE,
                    &[
                        30, 28, 29, 24, 25, 26, 27, 16, 17, 18, 19, 20, 21, 22, 23, 0, 1, 2, 3, 4,
                        5, 6, 7, 8, 9, 10, 11, 12, 13, 14, 15,
                    ],
                ),
                Said::Drained,
            ),
        ],
        free: 31,
        posted: 0,
        pages: &[(16, Noted::Free(3), None, None)],
    },
    // The mark stops a refill after two pages, and one before the first.
    History {
        shows: "a refill that is stopped answers what it got",
        config: Making {
            name: "DMA",
            base: 0,
            pages: 8,
            min: 2,
        },
        asked: &[
            (0, Ask::Alloc(2, MOVABLE, Mark::Any), Said::Page(0)),
            (0, Ask::Refill(4, Mark::Min), Said::Pages(&[4, 5])),
            (0, Ask::Refill(4, Mark::Min), BELOW),
            (0, Ask::Alloc(0, MOVABLE, Mark::Any), Said::Page(6)),
            (0, Ask::Refill(1, Mark::Low), BELOW),
        ],
        free: 1,
        posted: 0,
        pages: &[],
    },
    // Where the mark lets one page go, a refill of four returns one.
    History {
        shows: "a refill may answer one page",
        config: Making {
            name: "DMA",
            base: 0,
            pages: 8,
            min: 7,
        },
        asked: &[
            (0, Ask::Refill(4, Mark::Low), BELOW),
            (0, Ask::Refill(4, Mark::Min), Said::Pages(&[0])),
            (0, Ask::Refill(4, Mark::Min), BELOW),
        ],
        free: 7,
        posted: 0,
        pages: &[],
    },
    History {
        shows: "a refill ends with the pages of the zone",
        config: Making {
            name: "DMA",
            base: 0,
            pages: 5,
            min: 0,
        },
        asked: &[(0, Ask::Refill(6, Mark::Any), Said::Pages(&[4, 0, 1, 2, 3]))],
        free: 0,
        posted: 0,
        pages: &[],
    },
    // The page that is freed last is in front. The type that a drain names changes nothing.
    History {
        shows: "pages are given back in their order",
        config: Making {
            name: "DMA",
            base: 1024,
            pages: 4,
            min: 0,
        },
        asked: &[
            (0, Ask::Alloc(0, MOVABLE, Mark::Any), Said::Page(1024)),
            (0, Ask::Alloc(0, MOVABLE, Mark::Any), Said::Page(1025)),
            (0, Ask::Alloc(0, MOVABLE, Mark::Any), Said::Page(1026)),
            (0, Ask::Alloc(0, MOVABLE, Mark::Any), Said::Page(1027)),
            (0, Ask::Free(1025, 0), Said::Freed),
            (0, Ask::Free(1027, 0), Said::Freed),
            (0, Ask::Refill(2, Mark::Any), Said::Pages(&[1027, 1025])),
            (0, Ask::Drain(UNMOVABLE, &[1027, 1025]), Said::Drained),
            (0, Ask::Alloc(0, MOVABLE, Mark::Any), Said::Page(1025)),
            (0, Ask::Low(0), Said::Block(1027, 0, MOVABLE)),
        ],
        free: 0,
        posted: 0,
        pages: &[],
    },
];

#[test]
fn requests_are_answered_so(rt: HostRuntime) -> Result<(), Fail> {
    for history in &HISTORIES {
        expect(&rt, history)?;
    }
    Ok(())
}
