//! What a zone reports of its pageblocks after worked histories: its level, how many pages are free, and each pageblock.

use super::histories::*;
use super::*;

const MOVABLE: MigrateType = MigrateType::Movable;

/// A pageblock's type, how many of its pages are free, and the order of the largest free block in it.
type Told = (PageblockType, u32, Option<u8>);

/// What is asked of a zone of pageblocks of this order, and what it reports then: its level, its free pages, and some pageblocks by number.
#[derive(Clone, Copy, Drop)]
struct Case {
    config: Making<'static>,
    largest: u8,
    asked: &'static [Asked<'static>],
    level: Level,
    free: u32,
    pageblocks: &'static [(u32, Option<Told>)],
}

const LENDING: Making<'static> = Making {
    name: "DMA",
    base: 1024,
    pages: 40,
    min: 0,
};

const EMPTYING: Making<'static> = Making {
    name: "DMA",
    base: 0,
    pages: 12,
    min: 0,
};

const CASES: [Case; 5] = [
    // Each pageblock has lent something: the short last one a page, the next a half, and the lowest, which is claimed, one more page.
    Case {
        config: LENDING,
        largest: 4,
        asked: &[
            (0, Ask::Alloc(0, MOVABLE, Mark::Any), Said::Page(1056)),
            (0, Ask::Alloc(3, MOVABLE, Mark::Any), Said::Page(1040)),
            (
                0,
                Ask::Alloc(0, MigrateType::Reclaimable, Mark::Any),
                Said::Page(1024),
            ),
        ],
        level: Level::High,
        free: 30,
        pageblocks: &[
            (0, Some((PageblockType::Reclaimable, 15, Some(3)))),
            (1, Some((PageblockType::Movable, 8, Some(3)))),
            (2, Some((PageblockType::Movable, 7, Some(2)))),
            (3, None),
            (u32::MAX, None),
        ],
    },
    // A pageblock is isolated of which a page is out; then the other one is, and no page is left to choose; the page comes back; and the
    // first is released.
    Case {
        config: EMPTYING,
        largest: 3,
        asked: &[
            (0, Ask::Low(0), Said::Block(0, 0, MOVABLE)),
            (0, Ask::Isolate(0), Said::Isolated),
        ],
        level: Level::High,
        free: 11,
        pageblocks: &[(0, Some((PageblockType::Isolate, 7, Some(2))))],
    },
    Case {
        config: EMPTYING,
        largest: 3,
        asked: &[
            (0, Ask::Low(0), Said::Block(0, 0, MOVABLE)),
            (0, Ask::Isolate(0), Said::Isolated),
            (0, Ask::Isolate(1), Said::Isolated),
        ],
        level: Level::Short,
        free: 11,
        pageblocks: &[(1, Some((PageblockType::Isolate, 4, Some(2))))],
    },
    Case {
        config: EMPTYING,
        largest: 3,
        asked: &[
            (0, Ask::Low(0), Said::Block(0, 0, MOVABLE)),
            (0, Ask::Isolate(0), Said::Isolated),
            (0, Ask::Isolate(1), Said::Isolated),
            (0, Ask::Free(0, 0), Said::Freed),
        ],
        level: Level::Short,
        free: 12,
        pageblocks: &[
            (0, Some((PageblockType::Isolate, 8, Some(3)))),
            (1, Some((PageblockType::Isolate, 4, Some(2)))),
        ],
    },
    Case {
        config: EMPTYING,
        largest: 3,
        asked: &[
            (0, Ask::Low(0), Said::Block(0, 0, MOVABLE)),
            (0, Ask::Isolate(0), Said::Isolated),
            (0, Ask::Isolate(1), Said::Isolated),
            (0, Ask::Free(0, 0), Said::Freed),
            (0, Ask::Release(0, MigrateType::Reclaimable), Said::Released),
        ],
        level: Level::High,
        free: 12,
        pageblocks: &[(0, Some((PageblockType::Reclaimable, 8, Some(3))))],
    },
];

/// What the zone reports of a pageblock, where it has one of this number.
fn told_in(zone: &Zone, pageblock: u32) -> Option<Told> {
    let told = zone.pageblock(pageblock)?;
    Some((told.kind, told.free, told.largest.map(Order::number)))
}

fn compare_pageblocks(rt: &impl Abort, zone: &Zone, case: &Case) {
    assert!(rt; zone.level() == case.level);
    assert!(rt; zone.counts().free == case.free);
    for (pageblock, told) in case.pageblocks {
        assert!(rt; told_in(zone, *pageblock) == *told, "pageblock {pageblock}");
    }
}

#[test]
fn pageblocks_are_told(rt: HostRuntime) -> Result<(), Fail> {
    for case in &CASES {
        let largest = Largest::new(case.largest).ok_or("a zone can have this largest order")?;
        let journal = journal_of(&rt, case.asked)?;
        let Some(zone) = replayed(&rt, &case.config, largest, &journal) else {
            assert!(rt; false, "the zone can be made");
            return Ok(());
        };
        compare_pageblocks(&rt, &zone, case);
    }
    Ok(())
}
