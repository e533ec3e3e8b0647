//! Runs of pages at any place in worked histories: what goes out by the blocks of a cut, and what comes back in parts of them.

use super::histories::*;
use super::*;
use std::alloc::AllocGlobal;
use zp_journal::{JournalCheck, replay_journal};

const MOVABLE: MigrateType = MigrateType::Movable;

const BAD_RUN: Said<'_> = Said::Refused(Refused::BadRun);

const NOT_FREE: Said<'_> = Said::Refused(Refused::NotFree);

const NO_BLOCK: Said<'_> = Said::Refused(Refused::NoBlock);

const BELOW_MARK: Said<'_> = Said::Refused(Refused::BelowMark);

const LARGE: Making<'static> = Making {
    name: "DMA",
    base: 0,
    pages: 4096,
    min: 0,
};

const SMALL: Making<'static> = Making {
    name: "DMA",
    base: 0,
    pages: 13,
    min: 0,
};

/// 100 pages from page 1000 on.
const HUNDRED: Asked<'static> = (0, Ask::RunAt(1000, 100), Said::Page(1000));

/// Four pages behind them.
const FOUR: Asked<'static> = (0, Ask::RunAt(1100, 4), Said::Page(1100));

/// Eight of them from two blocks, the first eight, what is left of two blocks before the first ones, and all that is left.
const EIGHT_INSIDE: Asked<'static> = (0, Ask::FreeRun(1020, 8), Said::Freed);

const FIRST_EIGHT: Asked<'static> = (0, Ask::FreeRun(1000, 8), Said::Freed);

const TWELVE_INSIDE: Asked<'static> = (0, Ask::FreeRun(1008, 12), Said::Freed);

const THE_REST: Asked<'static> = (0, Ask::FreeRun(1028, 76), Said::Freed);

/// Six pages inside a zone of 13, the lowest three, and the next two.
const SIX: Asked<'static> = (0, Ask::RunAt(5, 6), Said::Page(5));

const THREE: Asked<'static> = (0, Ask::Run(3, 0, Mark::Any), Said::Page(0));

const TWO: Asked<'static> = (0, Ask::Run(2, 0, Mark::Any), Said::Page(3));

/// All of these but the last two.
const NINE: Asked<'static> = (0, Ask::FreeRun(0, 9), Said::Freed);

const HISTORIES: [History<'static>; 11] = [
    History {
        shows: "a run goes out as the blocks of its cut",
        config: LARGE,
        asked: &[HUNDRED, (0, Ask::RunAt(1099, 1), NOT_FREE)],
        free: 3996,
        posted: 0,
        pages: &[
            (1000, Noted::Out(3, MOVABLE, 0), None, None),
            (1008, Noted::Out(4, MOVABLE, 0), None, None),
            (1024, Noted::Out(6, MOVABLE, 0), None, None),
            (1088, Noted::Out(3, MOVABLE, 0), None, None),
            (1096, Noted::Out(2, MOVABLE, 0), None, None),
            (1100, Noted::Free(2), None, None),
            (992, Noted::Free(3), None, None),
            (1104, Noted::Free(4), None, None),
            (1120, Noted::Free(5), None, Some(960)),
            (960, Noted::Free(5), Some(1120), None),
            (896, Noted::Free(6), None, None),
            (1152, Noted::Free(7), None, Some(768)),
            (1280, Noted::Free(8), None, Some(512)),
            (512, Noted::Free(8), Some(1280), None),
            (768, Noted::Free(7), Some(1152), None),
            (1536, Noted::Free(9), None, Some(0)),
            (0, Noted::Free(9), Some(1536), None),
            (3072, Noted::Free(10), None, Some(2048)),
            (2048, Noted::Free(10), Some(3072), None),
        ],
    },
    History {
        shows: "a run that is a free block goes out as this block",
        config: LARGE,
        asked: &[HUNDRED, FOUR],
        free: 3992,
        posted: 0,
        pages: &[
            (1096, Noted::Out(2, MOVABLE, 0), None, None),
            (1100, Noted::Out(2, MOVABLE, 0), None, None),
            (1104, Noted::Free(4), None, None),
        ],
    },
    History {
        shows: "what is left of two blocks stays out",
        config: LARGE,
        asked: &[HUNDRED, FOUR, EIGHT_INSIDE],
        free: 4000,
        posted: 0,
        pages: &[
            (1000, Noted::Out(3, MOVABLE, 0), None, None),
            (1008, Noted::Out(3, MOVABLE, 0), None, None),
            (1016, Noted::Out(2, MOVABLE, 0), None, None),
            (1024, Noted::Free(2), None, Some(1020)),
            (1020, Noted::Free(2), Some(1024), None),
            (1028, Noted::Out(2, MOVABLE, 0), None, None),
            (1032, Noted::Out(3, MOVABLE, 0), None, None),
            (1040, Noted::Out(4, MOVABLE, 0), None, None),
            (1056, Noted::Out(5, MOVABLE, 0), None, None),
            (1088, Noted::Out(3, MOVABLE, 0), None, None),
            (1096, Noted::Out(2, MOVABLE, 0), None, None),
            (1100, Noted::Out(2, MOVABLE, 0), None, None),
        ],
    },
    History {
        shows: "a run that comes back joins what is free beside it",
        config: LARGE,
        asked: &[HUNDRED, FOUR, EIGHT_INSIDE, FIRST_EIGHT],
        free: 4008,
        posted: 0,
        pages: &[
            (992, Noted::Free(4), None, Some(1104)),
            (1104, Noted::Free(4), Some(992), None),
            (1000, Noted::Tail, None, None),
            (1008, Noted::Out(3, MOVABLE, 0), None, None),
        ],
    },
    History {
        shows: "all that lies before a free block joins it",
        config: LARGE,
        asked: &[HUNDRED, FOUR, EIGHT_INSIDE, FIRST_EIGHT, TWELVE_INSIDE],
        free: 4020,
        posted: 0,
        pages: &[
            (0, Noted::Free(10), None, Some(3072)),
            (3072, Noted::Free(10), Some(0), Some(2048)),
            (2048, Noted::Free(10), Some(3072), None),
            (1024, Noted::Free(2), None, None),
            (1028, Noted::Out(2, MOVABLE, 0), None, None),
        ],
    },
    History {
        shows: "all parts have come back",
        config: LARGE,
        asked: &[
            HUNDRED,
            FOUR,
            EIGHT_INSIDE,
            FIRST_EIGHT,
            TWELVE_INSIDE,
            THE_REST,
        ],
        free: 4096,
        posted: 0,
        pages: &[
            (1024, Noted::Free(10), None, Some(0)),
            (0, Noted::Free(10), Some(1024), Some(3072)),
            (3072, Noted::Free(10), Some(0), Some(2048)),
            (2048, Noted::Free(10), Some(3072), None),
        ],
    },
    History {
        shows: "blocks of a run are as large as their place allows",
        config: SMALL,
        asked: &[
            SIX,
            (0, Ask::RunAt(8, 6), BAD_RUN),
            (0, Ask::RunAt(0, 0), BAD_RUN),
        ],
        free: 7,
        posted: 0,
        pages: &[
            (5, Noted::Out(0, MOVABLE, 0), None, None),
            (6, Noted::Out(1, MOVABLE, 0), None, None),
            (8, Noted::Out(1, MOVABLE, 0), None, None),
            (10, Noted::Out(0, MOVABLE, 0), None, None),
            (11, Noted::Free(0), None, Some(4)),
            (4, Noted::Free(0), Some(11), Some(12)),
            (12, Noted::Free(0), Some(4), None),
            (0, Noted::Free(2), None, None),
        ],
    },
    History {
        shows: "the lowest run",
        config: SMALL,
        asked: &[SIX, THREE, (0, Ask::Run(3, 0, Mark::Any), NO_BLOCK)],
        free: 4,
        posted: 0,
        pages: &[
            (0, Noted::Out(1, MOVABLE, 0), None, None),
            (2, Noted::Out(0, MOVABLE, 0), None, None),
            (3, Noted::Free(0), None, Some(11)),
            (11, Noted::Free(0), Some(3), Some(4)),
            (4, Noted::Free(0), Some(11), Some(12)),
            (12, Noted::Free(0), Some(4), None),
        ],
    },
    History {
        shows: "a run over the ends of blocks comes back",
        config: SMALL,
        asked: &[SIX, THREE, TWO, NINE],
        free: 11,
        posted: 0,
        pages: &[
            (0, Noted::Free(3), None, None),
            (8, Noted::Free(0), None, Some(11)),
            (9, Noted::Out(0, MOVABLE, 0), None, None),
            (10, Noted::Out(0, MOVABLE, 0), None, None),
            (11, Noted::Free(0), Some(8), Some(12)),
            (12, Noted::Free(0), Some(11), None),
        ],
    },
    History {
        shows: "a run passes over pageblocks, and over an isolated one only at its place",
        config: Making {
            name: "DMA",
            base: 0,
            pages: 8192,
            min: 0,
        },
        asked: &[
            (0, Ask::RunAt(3000, 1), Said::Page(3000)),
            (1, Ask::Run(4096, 12, Mark::Low), Said::Page(4096)),
            (0, Ask::Run(2000, 0, Mark::Low), Said::Page(0)),
            (0, Ask::Run(2000, 0, Mark::Low), NO_BLOCK),
            (0, Ask::Isolate(3), Said::Isolated),
            (1, Ask::RunAt(3072, 8), Said::Page(3072)),
            (0, Ask::Run(1000, 0, Mark::Low), Said::Page(2000)),
        ],
        free: 1087,
        posted: 0,
        pages: &[
            (2000, Noted::Out(4, MOVABLE, 0), None, None),
            (2048, Noted::Out(9, MOVABLE, 0), None, None),
            (2992, Noted::Out(3, MOVABLE, 0), None, None),
            (3000, Noted::Out(0, MOVABLE, 0), None, None),
            (3001, Noted::Free(0), None, None),
            (3008, Noted::Free(6), None, None),
            (3072, Noted::Out(3, MOVABLE, 1), None, None),
            (4096, Noted::Out(10, MOVABLE, 1), None, None),
            (7168, Noted::Out(10, MOVABLE, 1), None, None),
        ],
    },
    History {
        shows: "the mark counts all pages of a run",
        config: Making {
            name: "DMA",
            base: 0,
            pages: 8,
            min: 2,
        },
        asked: &[
            (0, Ask::Run(6, 0, Mark::Low), Said::Page(0)),
            (0, Ask::Run(5, 0, Mark::Low), BELOW_MARK),
            (0, Ask::Run(3, 0, Mark::Any), NO_BLOCK),
        ],
        free: 2,
        posted: 0,
        pages: &[
            (0, Noted::Out(2, MOVABLE, 0), None, None),
            (4, Noted::Out(1, MOVABLE, 0), None, None),
            (6, Noted::Free(1), None, None),
        ],
    },
];

/// A zone, what is asked of it, and last what no worker may ask for: pages of another worker, free pages, and runs of no page.
const ILLEGAL: [(Making<'static>, &[Asked<'static>]); 4] = [
    (
        LARGE,
        &[
            HUNDRED,
            FOUR,
            EIGHT_INSIDE,
            FIRST_EIGHT,
            (1, Ask::FreeRun(1030, 1), Said::Freed),
        ],
    ),
    (
        SMALL,
        &[SIX, THREE, TWO, NINE, (0, Ask::FreeRun(2, 5), Said::Freed)],
    ),
    (SMALL, &[SIX, (0, Ask::FreeRun(5, 0), Said::Freed)]),
    (SMALL, &[(0, Ask::Run(0, 0, Mark::Any), Said::Page(0))]),
];

/// The number of the first entry that no new zone would have made.
fn first_illegal(
    rt: &(impl Abort + AllocGlobal),
    making: &Making<'_>,
    asked: &[Asked<'_>],
) -> Result<Option<u32>, Refused> {
    let journal = journal_of(rt, asked)?;
    let config = ZoneConfig {
        name: making.name,
        base: making.base,
        pages: making.pages,
        min: making.min,
        largest: Largest::usual(),
    };
    match replay_journal(rt.alloc(), config, 2, &journal)? {
        JournalCheck::Legal(_) => Ok(None),
        JournalCheck::Differs(number) => Ok(Some(number)),
    }
}

#[test]
fn only_the_worker_may_free_a_run(rt: HostRuntime) -> Result<(), Fail> {
    for (making, asked) in &ILLEGAL {
        let first = first_illegal(&rt, making, asked)?;
        assert!(rt; first == Some(asked.len() as u32));
    }
    Ok(())
}

/// The counts after 100 pages from page 1000 on.
#[test]
fn free_blocks_around_a_run_are_counted(rt: HostRuntime) -> Result<(), Fail> {
    let journal = journal_of(&rt, &[HUNDRED])?;
    let counts = replayed(&rt, &LARGE, Largest::usual(), &journal).map(|zone| zone.counts());
    let by_order = [0, 0, 1, 1, 1, 2, 1, 2, 2, 2, 2];
    assert!(rt;
        counts
            == Some(Counts {
                by_order,
                free: 3996
            })
    );
    Ok(())
}

#[test]
fn runs_are_as_worked(rt: HostRuntime) -> Result<(), Fail> {
    for history in &HISTORIES {
        expect(&rt, history)?;
    }
    Ok(())
}
