//! Which block is taken, and what is joined: worked histories whose results follow by hand from the rules of choosing and of the
//! lists' order.

use super::histories::*;
use super::*;
use std::alloc::AllocGlobal;
use zp_journal::Journal;

const UNMOVABLE: MigrateType = MigrateType::Unmovable;

const RECLAIMABLE: MigrateType = MigrateType::Reclaimable;

const MOVABLE: MigrateType = MigrateType::Movable;

const NO_BLOCK: Said<'_> = Said::Refused(Refused::NoBlock);

/// What is asked of a zone of so many pages, of which so many are free at the end.
type Chosen = (u32, u32, &'static [Asked<'static>]);

const CHOSEN: [Chosen; 9] = [
    // With 512 pages free the pageblock is claimed, with 511 a block is borrowed: the smallest.
    (
        1024,
        1020,
        &[
            (0, Ask::Alloc(9, MOVABLE, Mark::Any), Said::Page(0)),
            (0, Ask::Alloc(0, UNMOVABLE, Mark::Any), Said::Page(512)),
            (0, Ask::Alloc(0, MOVABLE, Mark::Any), Said::Page(513)),
            (0, Ask::Free(0, 9), Said::Freed),
            (0, Ask::Alloc(1, MOVABLE, Mark::Any), Said::Page(0)),
        ],
    ),
    // Of a zone whose higher pageblock is short, what is taken of that one: the largest block, where half of a whole pageblock is free.
    (
        1624,
        599,
        &[
            (0, Ask::Alloc(10, MOVABLE, Mark::Any), Said::Page(0)),
            (0, Ask::Alloc(0, UNMOVABLE, Mark::Any), Said::Page(1024)),
        ],
    ),
    (
        1536,
        511,
        &[
            (0, Ask::Alloc(10, MOVABLE, Mark::Any), Said::Page(0)),
            (0, Ask::Alloc(0, UNMOVABLE, Mark::Any), Said::Page(1024)),
        ],
    ),
    (
        1535,
        510,
        &[
            (0, Ask::Alloc(10, MOVABLE, Mark::Any), Said::Page(0)),
            (0, Ask::Alloc(0, UNMOVABLE, Mark::Any), Said::Page(1534)),
        ],
    ),
    (
        1025,
        0,
        &[
            (0, Ask::Alloc(10, MOVABLE, Mark::Any), Said::Page(0)),
            (0, Ask::Alloc(0, UNMOVABLE, Mark::Any), Said::Page(1024)),
        ],
    ),
    // The list of order 8 has 1024, 512 and 0; only 256 pages are free from 1024 on.
    (
        2048,
        0,
        &[
            (0, Ask::Alloc(8, MOVABLE, Mark::Any), Said::Page(1024)),
            (0, Ask::Alloc(8, MOVABLE, Mark::Any), Said::Page(1280)),
            (0, Ask::Alloc(9, MOVABLE, Mark::Any), Said::Page(1536)),
            (0, Ask::Alloc(8, MOVABLE, Mark::Any), Said::Page(0)),
            (0, Ask::Alloc(8, MOVABLE, Mark::Any), Said::Page(256)),
            (0, Ask::Alloc(8, MOVABLE, Mark::Any), Said::Page(512)),
            (0, Ask::Alloc(8, MOVABLE, Mark::Any), Said::Page(768)),
            (0, Ask::Free(0, 8), Said::Freed),
            (0, Ask::Free(512, 8), Said::Freed),
            (0, Ask::Free(1024, 8), Said::Freed),
            (0, Ask::Alloc(8, UNMOVABLE, Mark::Any), Said::Page(512)),
            (0, Ask::Alloc(8, UNMOVABLE, Mark::Any), Said::Page(0)),
            (0, Ask::Alloc(8, UNMOVABLE, Mark::Any), Said::Page(1024)),
        ],
    ),
    // Joins stop at the end of the zone,
    (
        1536,
        512,
        &[
            (0, Ask::Alloc(9, MOVABLE, Mark::Any), Said::Page(1024)),
            (0, Ask::Free(1024, 9), Said::Freed),
            (0, Ask::Alloc(10, MOVABLE, Mark::Any), Said::Page(0)),
            (0, Ask::Alloc(10, MOVABLE, Mark::Any), NO_BLOCK),
        ],
    ),
    // at a buddy of another order: page 2 is free, and page 3 is not;
    (
        8,
        0,
        &[
            (0, Ask::Alloc(1, MOVABLE, Mark::Any), Said::Page(0)),
            (0, Ask::Alloc(0, MOVABLE, Mark::Any), Said::Page(2)),
            (0, Ask::Alloc(0, MOVABLE, Mark::Any), Said::Page(3)),
            (0, Ask::Free(2, 0), Said::Freed),
            (0, Ask::Free(0, 1), Said::Freed),
            (0, Ask::Alloc(2, MOVABLE, Mark::Any), Said::Page(4)),
            (0, Ask::Alloc(2, MOVABLE, Mark::Any), NO_BLOCK),
            (0, Ask::Free(3, 0), Said::Freed),
            (0, Ask::Alloc(2, MOVABLE, Mark::Any), Said::Page(0)),
        ],
    ),
    // and at the largest order: two blocks of it come back, and stay two.
    (
        2048,
        0,
        &[
            (0, Ask::Alloc(10, MOVABLE, Mark::Any), Said::Page(1024)),
            (0, Ask::Alloc(10, MOVABLE, Mark::Any), Said::Page(0)),
            (0, Ask::Free(1024, 10), Said::Freed),
            (0, Ask::Free(0, 10), Said::Freed),
            (0, Ask::Alloc(10, MOVABLE, Mark::Any), Said::Page(0)),
            (0, Ask::Alloc(10, MOVABLE, Mark::Any), Said::Page(1024)),
        ],
    ),
];

/// A zone of so many pages, of which so many are free at the end, replies as the journal says.
fn expect_journal(rt: &(impl Abort + AllocGlobal), pages: u32, free: u32, journal: &Journal) {
    let making = Making {
        name: "DMA",
        base: 0,
        pages,
        min: 0,
    };
    let zone = replayed(rt, &making, Largest::usual(), journal);
    let found = zone.as_ref().map(free_pages);
    assert!(rt; found == Some(free), "{pages} pages");
}

fn free_pages(zone: &Zone) -> u32 {
    zone.counts().free
}

#[test]
fn blocks_are_chosen_and_joined(rt: HostRuntime) -> Result<(), Fail> {
    for (pages, free, asked) in CHOSEN {
        expect_journal(&rt, pages, free, &journal_of(&rt, asked)?);
    }
    Ok(())
}

fn takes(rt: &impl Abort, journal: &mut Journal, order: u8, kind: MigrateType, page: u32) {
    let asked = (0, Ask::Alloc(order, kind, Mark::Any), Said::Page(page));
    go_on_by(rt, journal, &asked);
}

fn finds_none(rt: &impl Abort, journal: &mut Journal, order: u8, kind: MigrateType) {
    let asked = (0, Ask::Alloc(order, kind, Mark::Any), NO_BLOCK);
    go_on_by(rt, journal, &asked);
}

fn gives(rt: &impl Abort, journal: &mut Journal, order: u8, page: u32) {
    let asked = (0, Ask::Free(page, order), Said::Freed);
    go_on_by(rt, journal, &asked);
}

/// Makes the lowest pageblock Unmovable, of which every second block of this order, at most 10, stays free, the lowest in
/// front of its list: 512 pages, or all of them at order 10.
fn halve_lowest(rt: &impl Abort, journal: &mut Journal, order: u8) {
    let order = order.min(10);
    let blocks = 1024u32 >> order;
    for i in 0..blocks {
        takes(rt, journal, order, UNMOVABLE, i << order);
    }
    for i in 0..blocks / 2 {
        gives(rt, journal, order, (blocks - 1 - 2 * i) << order);
    }
    if blocks == 1 {
        gives(rt, journal, order, 0);
    }
}

/// A page of this type is taken from the halved pageblock, and then an Unmovable one, which shows whether the first one claimed it.
fn ask_for_claim(
    rt: &impl Abort,
    journal: &mut Journal,
    order: u8,
    kind: MigrateType,
    (page, next): (u32, u32),
) {
    takes(rt, journal, 10, MOVABLE, 1024);
    halve_lowest(rt, journal, order);
    takes(rt, journal, 0, kind, page);
    gives(rt, journal, 10, 1024);
    takes(rt, journal, 0, UNMOVABLE, next);
}

fn expect_claim(
    rt: &(impl Abort + AllocGlobal),
    order: u8,
    kind: MigrateType,
    pages: (u32, u32),
) -> Result<(), Refused> {
    let mut journal = empty_journal(rt)?;
    ask_for_claim(rt, &mut journal, order, kind, pages);
    let free = if order == 10 { 2046 } else { 1534 };
    expect_journal(rt, 2048, free, &journal);
    Ok(())
}

/// The order of the free blocks, the page taken from the halved pageblock, and the Unmovable one after it where the type may not claim: the
/// pageblock is Unmovable still. After a claim an Unmovable request has no list of its own, and claims the other pageblock.
const CLAIMS: [(u8, u32, u32); 11] = [
    (0, 1, 3),
    (1, 2, 3),
    (2, 4, 5),
    (3, 8, 9),
    (4, 16, 17),
    (5, 32, 1024),
    (6, 64, 1024),
    (7, 128, 1024),
    (8, 256, 1024),
    (9, 512, 1024),
    (10, 0, 1024),
];

#[test]
fn claims_by_order(rt: HostRuntime) -> Result<(), Fail> {
    for (order, first, borrowed) in CLAIMS {
        expect_claim(&rt, order, MOVABLE, (first, borrowed))?;
        expect_claim(&rt, order, RECLAIMABLE, (first, 1024))?;
    }
    Ok(())
}

/// Takes a whole pageblock: as one block of order 10, or its first page as a block of order 0 and the rest behind it.
fn take_pageblock(rt: &impl Abort, journal: &mut Journal, order: u8, kind: MigrateType, page: u32) {
    takes(rt, journal, order, kind, page);
    for rest in order..10 {
        takes(rt, journal, rest, kind, page | (1 << rest));
    }
}

/// Three pageblocks, one of each type, of each of which a block of this order is free.
fn ask_for_types(
    rt: &impl Abort,
    journal: &mut Journal,
    order: u8,
    kind: MigrateType,
    pages: [u32; 3],
) {
    take_pageblock(rt, journal, order, UNMOVABLE, 2048);
    take_pageblock(rt, journal, order, RECLAIMABLE, 1024);
    take_pageblock(rt, journal, order, MOVABLE, 0);
    for page in [0, 1024, 2048] {
        gives(rt, journal, order, page);
    }
    for page in pages {
        takes(rt, journal, order, kind, page);
    }
    finds_none(rt, journal, order, kind);
}

fn expect_types(
    rt: &(impl Abort + AllocGlobal),
    order: u8,
    kind: MigrateType,
    pages: [u32; 3],
) -> Result<(), Refused> {
    let mut journal = empty_journal(rt)?;
    ask_for_types(rt, &mut journal, order, kind, pages);
    expect_journal(rt, 3072, 0, &journal);
    Ok(())
}

/// An own block comes first, then those of the other types in their order.
const FOREIGN: [(MigrateType, [u32; 3]); 3] = [
    (UNMOVABLE, [2048, 1024, 0]),
    (RECLAIMABLE, [1024, 2048, 0]),
    (MOVABLE, [0, 1024, 2048]),
];

/// Blocks of order 10 are claimed, and of order 0, where no more is free, borrowed.
#[test]
fn foreign_types_in_order(rt: HostRuntime) -> Result<(), Fail> {
    for (kind, pages) in FOREIGN {
        expect_types(&rt, 10, kind, pages)?;
        expect_types(&rt, 0, kind, pages)?;
    }
    Ok(())
}

/// The lowest stands in front, and is claimed; then the others are listed anew.
#[test]
fn claimed_blocks_stand_highest_first(rt: HostRuntime) -> Result<(), Fail> {
    let mut journal = empty_journal(&rt)?;
    halve_lowest(&rt, &mut journal, 7);
    for page in [128, 896, 640, 384] {
        takes(&rt, &mut journal, 7, RECLAIMABLE, page);
    }
    expect_journal(&rt, 1024, 0, &journal);
    Ok(())
}
