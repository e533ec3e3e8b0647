//! What a worker's commands return where the journals of their zones are full.

use super::case::Told::*;
use super::case::{Case, FULL, NOT_LENT, expect_cases};
use super::plan::{AT_ONCE, Plan};
use std::test::*;

const CASES: [Case<'static>; 5] = [
    Case {
        shows: "a journal may have no room",
        trace: "zone DMA 0 4096 0\nworkers 1\nlists 0 0\n0 low a 0 DMA\n0 info\n",
        plan: Plan {
            capacity: 0,
            ..AT_ONCE
        },
        replies: &[&[FULL, Free(4096, 4096)]],
        zones: &[(0, 4096)],
    },
    // The zone below is not asked where the journal of the zone named is full.
    Case {
        shows: "a full journal ends the walk through the zones",
        trace: "zone DMA 0 4096 0\nzone Normal 4096 4096 0\nworkers 1\nlists 0 0\n\
            0 alloc a 3 M Normal low\n0 alloc b 3 M Normal low\n0 info\n0 alloc b 3 M DMA low\n",
        plan: Plan {
            capacity: 1,
            ..AT_ONCE
        },
        replies: &[&[Page(7168), FULL, Free(4096, 4088), Page(3072)]],
        zones: &[(1, 4088), (1, 4088)],
    },
    // A list that the page just put on fills up stays full; one that is full before takes no page, which stays lent, and none is drained.
    Case {
        shows: "a full list stays where the journal is full",
        trace: "zone DMA 0 4096 0\nworkers 1\nlists 4 6\n\
            0 alloc a 0 M DMA low\n0 alloc b 0 M DMA low\n0 alloc c 0 M DMA low\n0 alloc d 0 M DMA low\n\
            0 alloc e 0 M DMA low\n0 alloc f 0 M DMA low\n0 alloc g 0 M DMA low\n0 alloc h 0 M DMA low\n\
            0 free a\n0 free b\n0 free c\n0 free d\n0 free e\n0 free f\n\
            0 free g\n0 free f\n0 drain\n0 alloc a 0 M DMA low\n0 free g\n0 info\n",
        plan: Plan {
            capacity: 2,
            ..AT_ONCE
        },
        replies: &[&[
            Page(3072),
            Page(3073),
            Page(3074),
            Page(3075),
            Page(3076),
            Page(3077),
            Page(3078),
            Page(3079),
            Freed,
            Freed,
            Freed,
            Freed,
            Freed,
            Freed,
            FULL,
            NOT_LENT,
            FULL,
            Page(3077),
            Freed,
            Free(4088, 4088),
        ]],
        zones: &[(2, 4088)],
    },
    // A page put on a list goes on being handed out from it, and makes room on it; a block that lies on no list is refused.
    Case {
        shows: "a list lends its pages where the journal is full",
        trace: "zone DMA 0 4096 0\nworkers 1\nlists 4 6\n\
            0 alloc a 0 M DMA low\n0 alloc b 0 M DMA low\n0 alloc c 0 M DMA low\n0 alloc d 0 M DMA low\n\
            0 alloc e 0 M DMA low\n0 free a\n0 free b\n0 free c\n0 free d\n0 alloc f 0 M DMA low\n0 free d\n\
            0 alloc g 1 M DMA low\n0 drain\n0 info\n",
        plan: Plan {
            capacity: 2,
            ..AT_ONCE
        },
        replies: &[&[
            Page(3072),
            Page(3073),
            Page(3074),
            Page(3075),
            Page(3076),
            Freed,
            Freed,
            Freed,
            FULL,
            Page(3074),
            Freed,
            FULL,
            FULL,
            Free(4088, 4088),
        ]],
        zones: &[(2, 4088)],
    },
    // What was drained before the refusal stays drained: the list of `DMA` is empty, and that of `Normal` has its pages.
    Case {
        shows: "what was drained before a full journal stays drained",
        trace: "zone DMA 0 4096 0\nzone Normal 4096 4096 0\nworkers 1\nlists 4 6\n\
            0 alloc a 0 M DMA low\n0 alloc b 0 M Normal low\n0 alloc c 3 M Normal low\n0 drain\n0 info\n\
            0 alloc d 0 M DMA low\n0 alloc e 0 M Normal low\n",
        plan: Plan {
            capacity: 2,
            ..AT_ONCE
        },
        replies: &[&[
            Page(3072),
            Page(7168),
            Page(7176),
            FULL,
            Free(4095, 4084),
            FULL,
            Page(7169),
        ]],
        zones: &[(2, 4095), (2, 4084)],
    },
];

#[test]
fn commands_are_answered_so_where_journals_are_full(rt: HostRuntime) {
    expect_cases(&rt, rt.alloc(), &CASES);
}
