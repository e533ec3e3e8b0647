//! Runs of pages at any place by one worker, who has lists or none.

use super::sequences::Replied::*;
use super::sequences::Step::*;
use super::sequences::{Sequence, Told, expect};
use std::test::*;
use zp_model::{Mark, MigrateType, Refused};

const MOVABLE: MigrateType = MigrateType::Movable;

const NOT_LENT: super::sequences::Replied = Refused(Refused::NotLent);

/// A run goes out as the blocks of its cut, and comes back in parts that are no blocks.
const HUNDRED: [Told; 13] = [
    (AllocRunAt(1000, 100), Page(1000)),
    (AllocRunAt(1099, 1), Refused(Refused::NotFree)),
    (AllocRunAt(1100, 4), Page(1100)),
    (FreeRun(1020, 8), Done),
    (FreeRun(1000, 8), Done),
    (FreeRun(1004, 4), NOT_LENT),
    (Free(1008, 4), NOT_LENT),
    (FreeRun(1008, 12), Done),
    (FreeRun(1028, 77), NOT_LENT),
    (Free(1056, 5), Done),
    (FreeRun(1028, 28), Done),
    (FreeRun(1088, 16), Done),
    (Look, Left(4096, [0, 0, 0], 9)),
];

const THIRTEEN: [Told; 10] = [
    (AllocRunAt(5, 6), Page(5)),
    (AllocRunAt(8, 6), Refused(Refused::BadRun)),
    (AllocRunAt(0, 0), Refused(Refused::BadRun)),
    (AllocRun(3, 0, Mark::Any), Page(0)),
    (AllocRun(3, 0, Mark::Any), Refused(Refused::NoBlock)),
    (AllocRun(2, 0, Mark::Any), Page(3)),
    (FreeRun(0, 9), Done),
    (FreeRun(2, 5), NOT_LENT),
    (FreeRun(9, 0), NOT_LENT),
    (Look, Left(11, [0, 0, 0], 7)),
];

const EIGHT: [Told; 3] = [
    (AllocRun(6, 0, Mark::Low), Page(0)),
    (AllocRun(5, 0, Mark::Low), Refused(Refused::BelowMark)),
    (AllocRun(3, 0, Mark::Any), Refused(Refused::NoBlock)),
];

/// A page that is lent from a list may be freed by a run, and one that is on the list may not.
const LISTED: [Told; 6] = [
    (Alloc(0, MOVABLE, Mark::Low), Page(3072)),
    (FreeRun(3073, 1), NOT_LENT),
    (FreeRun(3072, 2), NOT_LENT),
    (AllocRunAt(3070, 3), Refused(Refused::NotFree)),
    (FreeRun(3072, 1), Done),
    (Look, Left(4093, [0, 0, 3], 3)),
];

const SEQUENCES: [Sequence<'static>; 4] = [
    Sequence {
        shows: "a run comes back in parts",
        zone: (4096, 0),
        lists: (0, 0),
        steps: &HUNDRED,
    },
    Sequence {
        shows: "a small zone has the lowest run, or none",
        zone: (13, 0),
        lists: (0, 0),
        steps: &THIRTEEN,
    },
    Sequence {
        shows: "a run is held to a mark by all its pages",
        zone: (8, 2),
        lists: (0, 0),
        steps: &EIGHT,
    },
    Sequence {
        shows: "a page on a list is not freed by a run",
        zone: (4096, 0),
        lists: (4, 10),
        steps: &LISTED,
    },
];

#[test]
fn runs_of_one_worker(rt: HostRuntime) -> Result<(), Fail> {
    for sequence in &SEQUENCES {
        expect(&rt, sequence)?;
    }
    Ok(())
}
