//! Each section once, through the locks, with ample memory, and then each with a full journal.

use super::case::Told::*;
use super::case::{Case, FULL, NOT_LENT, expect_cases};
use super::plan::{AT_ONCE, Plan};
use std::test::*;

const CASES: [Case<'static>; 1] = [
    // Twelve sections with the zone `DMA` fill its journal: each of the nine is made, and one of them refused by the zone. What comes then is
    // refused, and the zone `Normal` has a journal of its own.
    Case {
        shows: "each section is made until the journal is full",
        trace: "zone DMA 0 4096 0\nzone Normal 4096 4096 0\nworkers 1\nlists 4 6\n\
            0 alloc a 1 M DMA low\n0 info\n0 free a\n0 free a\n\
            0 alloc b 1 M DMA low\n0 post b 0\n0 free b\n0 collect c DMA\n0 collect d DMA\n0 free c\n\
            0 alloc e 0 M DMA low\n0 info\n0 free e\n0 drain\n0 isolate DMA 1\n0 release DMA 1 M\n0 low f 10 DMA\n0 info\n\
            0 alloc g 1 M DMA low\n0 low h 0 DMA\n0 collect i DMA\n0 alloc j 0 M DMA low\n0 free f\n0 post f 0\n\
            0 isolate DMA 1\n0 release DMA 1 M\n0 info\n\
            0 alloc k 1 M Normal low\n0 info\n",
        plan: Plan {
            capacity: 12,
            ..AT_ONCE
        },
        replies: &[&[
            Page(3072),
            Free(4094, 4096),
            Freed,
            NOT_LENT,
            Page(3072),
            Posted,
            NOT_LENT,
            Block(3072, 1),
            Refused(12),
            Freed,
            Page(3072),
            Free(4092, 4096),
            Freed,
            Drained(4),
            Isolated,
            Released,
            Page(0),
            Free(3072, 4096),
            FULL,
            FULL,
            FULL,
            FULL,
            FULL,
            FULL,
            FULL,
            FULL,
            Free(3072, 4096),
            Page(7168),
            Free(3072, 4094),
        ]],
        zones: &[(12, 3072), (1, 4094)],
    },
];

#[test]
fn sections_are_made_until_the_journal_is_full(rt: HostRuntime) {
    expect_cases(&rt, rt.alloc(), &CASES);
}
