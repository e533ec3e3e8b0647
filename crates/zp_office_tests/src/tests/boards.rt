//! Boards: what readers read after a section, and while a zone is locked.

use super::case::Told::*;
use super::case::{Case, expect_cases};
use super::plan::{AT_ONCE, Plan};
use std::test::*;

const CASES: [Case<'static>; 2] = [
    // A reader reads before and after a section of its worker; the other's first reading comes after that. The section is of one zone,
    // whose board alone has new counts.
    Case {
        shows: "a reading after a section is of its counts",
        trace: "zone DMA 0 4096 0\nzone Normal 4096 4096 0\nworkers 2\nlists 0 0\n\
            0 info\n0 alloc a 0 M Normal any\n0 info\n1 info\n",
        plan: Plan {
            late: 1,
            early_calls: 3,
            ..AT_ONCE
        },
        replies: &[
            &[Free(4096, 4096), Page(7168), Free(4096, 4095)],
            &[Free(4096, 4095)],
        ],
        zones: &[(0, 4096), (1, 4095)],
    },
    Case {
        shows: "counts are read while another has the lock",
        trace: "zone DMA 0 4096 0\nworkers 2\nlists 0 0\n0 alloc a 0 M DMA low\n1 info\n",
        plan: Plan {
            late: 0,
            early_calls: 1,
            is_locked: true,
            ..AT_ONCE
        },
        replies: &[&[Page(3072)], &[Free(4096, 4096)]],
        zones: &[(1, 4095)],
    },
];

#[test]
fn counts_are_read_off_boards(rt: HostRuntime) {
    expect_cases(&rt, rt.alloc(), &CASES);
}
