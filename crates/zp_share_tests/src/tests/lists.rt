//! Worked sequences. What a zone returns follows from its rules: free pages are taken from the last pageblock of a new zone, and a page
//! split off leaves the higher halves.

use super::sequences::*;
use std::test::*;
use zp_model::{Mark, MigrateType, Refused};

const UNMOVABLE: MigrateType = MigrateType::Unmovable;

const RECLAIMABLE: MigrateType = MigrateType::Reclaimable;

const MOVABLE: MigrateType = MigrateType::Movable;

const NOT_LENT: Replied = Replied::Refused(Refused::NotLent);

const SEQUENCES: [Sequence<'static>; 13] = [
    // The first page of an empty list brings three others with it; a page that is freed comes again, and cannot be freed twice.
    Sequence {
        shows: "pages come from the list and go there",
        zone: (4096, 0),
        lists: (4, 6),
        steps: &[
            (Step::Look, Replied::Left(4096, [0, 0, 0], 0)),
            (Step::Alloc(0, MOVABLE, Mark::Low), Replied::Page(3072)),
            (Step::Look, Replied::Left(4092, [0, 0, 3], 1)),
            (Step::Free(3072, 0), Replied::Done),
            (Step::Look, Replied::Left(4092, [0, 0, 4], 1)),
            (Step::Free(3072, 0), NOT_LENT),
            (Step::Look, Replied::Left(4092, [0, 0, 4], 1)),
        ],
    },
    // The third page put back makes the list full, which frees four from its back.
    Sequence {
        shows: "a full list gives back a batch",
        zone: (4096, 0),
        lists: (4, 6),
        steps: &[
            (Step::Alloc(0, MOVABLE, Mark::Low), Replied::Page(3072)),
            (Step::Alloc(0, MOVABLE, Mark::Low), Replied::Page(3073)),
            (Step::Alloc(0, MOVABLE, Mark::Low), Replied::Page(3074)),
            (Step::Alloc(0, MOVABLE, Mark::Low), Replied::Page(3075)),
            (Step::Alloc(0, MOVABLE, Mark::Low), Replied::Page(3076)),
            (Step::Free(3072, 0), Replied::Done),
            (Step::Free(3073, 0), Replied::Done),
            (Step::Free(3074, 0), Replied::Done),
            (Step::Look, Replied::Left(4092, [0, 0, 2], 3)),
            (Step::Alloc(0, MOVABLE, Mark::Low), Replied::Page(3074)),
            (Step::Look, Replied::Left(4092, [0, 0, 1], 3)),
            (Step::DrainAll, Replied::Drained(1)),
            (Step::Look, Replied::Left(4093, [0, 0, 0], 4)),
        ],
    },
    // The mark stops a refill after two pages; the next one gets none.
    Sequence {
        shows: "a refill that is stopped gives what it got",
        zone: (8, 2),
        lists: (4, 6),
        steps: &[
            (Step::Alloc(2, MOVABLE, Mark::Any), Replied::Page(0)),
            (Step::Alloc(0, MOVABLE, Mark::Min), Replied::Page(4)),
            (Step::Look, Replied::Left(2, [0, 0, 1], 2)),
            (Step::Alloc(0, MOVABLE, Mark::Min), Replied::Page(5)),
            (Step::Look, Replied::Left(2, [0, 0, 0], 2)),
            (
                Step::Alloc(0, MOVABLE, Mark::Min),
                Replied::Refused(Refused::BelowMark),
            ),
            (Step::Look, Replied::Left(2, [0, 0, 0], 3)),
        ],
    },
    // The mark leaves one page: it is returned, and the list is empty after it.
    Sequence {
        shows: "a refill that gets one page leaves an empty list",
        zone: (8, 3),
        lists: (4, 6),
        steps: &[
            (Step::Alloc(2, MOVABLE, Mark::Any), Replied::Page(0)),
            (Step::Alloc(0, MOVABLE, Mark::Min), Replied::Page(4)),
            (Step::Look, Replied::Left(3, [0, 0, 0], 2)),
            (
                Step::Alloc(0, MOVABLE, Mark::Min),
                Replied::Refused(Refused::BelowMark),
            ),
            (Step::Look, Replied::Left(3, [0, 0, 0], 3)),
        ],
    },
    // At no mark the pages of the zone end the refill, and the next one finds no block. What is on the list is held to no mark.
    Sequence {
        shows: "a refill takes the last pages of a zone",
        zone: (3, 3),
        lists: (4, 6),
        steps: &[
            (Step::Alloc(0, MOVABLE, Mark::Any), Replied::Page(2)),
            (Step::Look, Replied::Left(0, [0, 0, 2], 1)),
            (Step::Alloc(0, MOVABLE, Mark::Low), Replied::Page(0)),
            (Step::Alloc(0, MOVABLE, Mark::Low), Replied::Page(1)),
            (
                Step::Alloc(0, MOVABLE, Mark::Any),
                Replied::Refused(Refused::NoBlock),
            ),
            (Step::Look, Replied::Left(0, [0, 0, 0], 2)),
        ],
    },
    // A list that was filled by hand frees a batch before the free, and is full again after it.
    Sequence {
        shows: "a list full before and after gives back twice",
        zone: (4096, 0),
        lists: (1, 4),
        steps: &[
            (Step::Alloc(0, MOVABLE, Mark::Low), Replied::Page(3072)),
            (Step::Alloc(0, MOVABLE, Mark::Low), Replied::Page(3073)),
            (Step::Alloc(0, MOVABLE, Mark::Low), Replied::Page(3074)),
            (Step::Alloc(0, MOVABLE, Mark::Low), Replied::Page(3075)),
            (Step::Alloc(0, MOVABLE, Mark::Low), Replied::Page(3076)),
            (Step::Put(3072), Replied::Done),
            (Step::Put(3073), Replied::Done),
            (Step::Put(3074), Replied::Done),
            (Step::Put(3075), Replied::Done),
            (Step::Put(3076), Replied::Refused(Refused::ListFull)),
            (Step::Look, Replied::Left(4091, [0, 0, 4], 5)),
            (Step::Free(3076, 0), Replied::Done),
            (Step::Look, Replied::Left(4093, [0, 0, 3], 7)),
            (Step::Alloc(0, MOVABLE, Mark::Low), Replied::Page(3076)),
            (Step::Alloc(0, MOVABLE, Mark::Low), Replied::Page(3075)),
            (Step::Alloc(0, MOVABLE, Mark::Low), Replied::Page(3074)),
            (Step::Look, Replied::Left(4093, [0, 0, 0], 7)),
        ],
    },
    // A list of 63 pages stays; one of 64 frees 31.
    Sequence {
        shows: "the longest list gives back the largest batch",
        zone: (4096, 0),
        lists: (31, 64),
        steps: &[
            (Step::AllocPages(3072, 65), Replied::Done),
            (Step::Look, Replied::Left(4003, [0, 0, 28], 3)),
            (Step::FreePages(3072, 35), Replied::Done),
            (Step::Look, Replied::Left(4003, [0, 0, 63], 3)),
            (Step::Free(3107, 0), Replied::Done),
            (Step::Look, Replied::Left(4034, [0, 0, 33], 4)),
            (Step::Alloc(0, MOVABLE, Mark::Low), Replied::Page(3107)),
            (Step::DrainAll, Replied::Drained(32)),
            (Step::Look, Replied::Left(4066, [0, 0, 0], 5)),
        ],
    },
    // The least list: a second page fills it, and the one that was put there first is freed.
    Sequence {
        shows: "the shortest list keeps one page",
        zone: (4096, 0),
        lists: (1, 2),
        steps: &[
            (Step::Alloc(0, MOVABLE, Mark::Low), Replied::Page(3072)),
            (Step::Alloc(0, MOVABLE, Mark::Low), Replied::Page(3073)),
            (Step::Free(3072, 0), Replied::Done),
            (Step::Look, Replied::Left(4094, [0, 0, 1], 2)),
            (Step::Free(3073, 0), Replied::Done),
            (Step::Look, Replied::Left(4095, [0, 0, 1], 3)),
            (Step::Alloc(0, MOVABLE, Mark::Low), Replied::Page(3073)),
            (Step::Look, Replied::Left(4095, [0, 0, 0], 3)),
        ],
    },
    // No page goes on a list that is not lent, and no larger block. The page that was put there last comes first.
    Sequence {
        shows: "a list takes lent pages up to its room",
        zone: (16, 0),
        lists: (1, 2),
        steps: &[
            (Step::Alloc(0, RECLAIMABLE, Mark::Low), Replied::Page(0)),
            (Step::Alloc(0, RECLAIMABLE, Mark::Low), Replied::Page(1)),
            (Step::Alloc(1, RECLAIMABLE, Mark::Any), Replied::Page(2)),
            (Step::Put(0), Replied::Done),
            (Step::Put(0), NOT_LENT),
            (Step::Free(0, 0), NOT_LENT),
            (Step::Put(1), Replied::Done),
            (Step::Put(2), NOT_LENT),
            (Step::Put(15), NOT_LENT),
            (Step::Put(16), NOT_LENT),
            (Step::Look, Replied::Left(12, [0, 2, 0], 3)),
            (Step::Take(RECLAIMABLE), Replied::Page(1)),
            (Step::Take(RECLAIMABLE), Replied::Page(0)),
            (Step::Take(RECLAIMABLE), Replied::Empty),
        ],
    },
    // With no lists a page goes on none, and each page is a section.
    Sequence {
        shows: "no lists have no room",
        zone: (16, 0),
        lists: (0, 0),
        steps: &[
            (Step::Alloc(0, MOVABLE, Mark::Low), Replied::Page(0)),
            (Step::Put(0), Replied::Refused(Refused::ListFull)),
            (Step::Free(0, 0), Replied::Done),
            (Step::Look, Replied::Left(16, [0, 0, 0], 2)),
        ],
    },
    // The lowest block is lent, and freed with its order alone. A refused request is a section too.
    Sequence {
        shows: "the lowest block is lent",
        zone: (8, 1),
        lists: (4, 6),
        steps: &[
            (Step::Low(2), Replied::Page(0)),
            (Step::Free(0, 0), NOT_LENT),
            (Step::Low(3), Replied::Refused(Refused::NoBlock)),
            (
                Step::Alloc(2, MOVABLE, Mark::Min),
                Replied::Refused(Refused::BelowMark),
            ),
            (Step::Look, Replied::Left(4, [0, 0, 0], 3)),
            (Step::Free(0, 2), Replied::Done),
            (Step::Free(0, 2), NOT_LENT),
            (Step::Look, Replied::Left(8, [0, 0, 0], 4)),
        ],
    },
    // The one pageblock of the zone is claimed for Unmovable while page 0 is lent for Movable: page 0 goes to the list for
    // Movable, and comes from it. At the end the front block of order 8 is claimed back, and its pageblock with it.
    Sequence {
        shows: "a page goes to the list of the type it was lent for",
        zone: (1024, 0),
        lists: (1, 3),
        steps: &[
            (Step::Alloc(0, MOVABLE, Mark::Low), Replied::Page(0)),
            (Step::Alloc(0, UNMOVABLE, Mark::Low), Replied::Page(512)),
            (Step::Free(0, 0), Replied::Done),
            (Step::Look, Replied::Left(1022, [0, 0, 1], 2)),
            (Step::Alloc(0, UNMOVABLE, Mark::Low), Replied::Page(513)),
            (Step::Look, Replied::Left(1021, [0, 0, 1], 3)),
            (Step::Free(512, 0), Replied::Done),
            (Step::Look, Replied::Left(1021, [1, 0, 1], 3)),
            (Step::Alloc(0, MOVABLE, Mark::Low), Replied::Page(0)),
            (Step::Look, Replied::Left(1021, [1, 0, 0], 3)),
            (Step::Alloc(0, MOVABLE, Mark::Low), Replied::Page(768)),
            (Step::Alloc(0, UNMOVABLE, Mark::Low), Replied::Page(512)),
            (Step::Look, Replied::Left(1020, [0, 0, 0], 4)),
        ],
    },
    // The same for a page that was lent for Unmovable, and whose pageblock is claimed back for Movable.
    Sequence {
        shows: "a page of a pageblock claimed back keeps its list",
        zone: (1024, 0),
        lists: (1, 3),
        steps: &[
            (Step::Alloc(0, UNMOVABLE, Mark::Low), Replied::Page(0)),
            (Step::Alloc(0, MOVABLE, Mark::Low), Replied::Page(512)),
            (Step::Free(0, 0), Replied::Done),
            (Step::Look, Replied::Left(1022, [1, 0, 0], 2)),
            (Step::Alloc(0, MOVABLE, Mark::Low), Replied::Page(513)),
            (Step::Alloc(0, UNMOVABLE, Mark::Low), Replied::Page(0)),
            (Step::Look, Replied::Left(1021, [0, 0, 0], 3)),
        ],
    },
];

#[test]
fn lists_are_filled_and_emptied(rt: HostRuntime) -> Result<(), Fail> {
    for sequence in &SEQUENCES {
        expect(&rt, sequence)?;
    }
    Ok(())
}
