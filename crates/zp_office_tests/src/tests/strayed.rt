//! Two zones that lie under each other's locks.

use super::case::Told::*;
use super::case::{Case, FULL, expect_cases};
use super::plan::{AT_ONCE, Plan};
use std::test::*;

const CASES: [Case<'static>; 2] = [
    // From the third call to the tenth the zones lie under each other's locks: each section is refused, and the counts are read off the
    // boards. Then they lie at their places again, and all is as it was.
    Case {
        shows: "a zone under another lock is asked nothing",
        trace: "zone DMA 0 4096 0\nzone Normal 4096 4096 0\nworkers 1\nlists 4 6\n\
            0 alloc a 1 M DMA low\n0 alloc b 0 M DMA low\n\
            0 alloc c 1 M DMA low\n0 low d 0 DMA\n0 collect e DMA\n0 alloc f 0 R DMA low\n0 free a\n0 post a 0\n0 drain\n0 info\n\
            0 free a\n0 drain\n0 info\n",
        plan: Plan {
            exchanges: [3, 11],
            ..AT_ONCE
        },
        replies: &[&[
            Page(3072),
            Page(3074),
            FULL,
            FULL,
            FULL,
            FULL,
            FULL,
            FULL,
            FULL,
            Free(4090, 4096),
            Freed,
            Drained(3),
            Free(4095, 4096),
        ]],
        zones: &[(4, 4095), (0, 4096)],
    },
    Case {
        shows: "a row is not closed where its zones strayed",
        trace: "zone DMA 0 4096 0\nzone Normal 4096 4096 0\nworkers 1\nlists 0 0\n0 info\n",
        plan: Plan {
            exchanges: [1, 0],
            ..AT_ONCE
        },
        replies: &[&[Free(4096, 4096)]],
        zones: &[],
    },
];

#[test]
fn zones_that_strayed_are_asked_nothing(rt: HostRuntime) {
    expect_cases(&rt, rt.alloc(), &CASES);
}
