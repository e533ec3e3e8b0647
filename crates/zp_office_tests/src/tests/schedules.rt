//! Workers in threads of their own: neither waits for the other to end all that it has to do.

use super::case::Told::*;
use super::case::{Case, expect_cases};
use super::plan::{AT_ONCE, Plan};
use std::test::*;

const PAGE_EACH: &str =
    "zone DMA 0 4096 0\nworkers 2\nlists 0 0\n0 alloc a 0 M DMA low\n1 alloc a 0 M DMA low\n";

/// The worker that ends its call before the other begins has the zone's first page, and the other the second: whichever of them that is.
const CASES: [Case<'static>; 2] = [
    Case {
        shows: "worker 0 waits for the other",
        trace: PAGE_EACH,
        plan: Plan {
            late: 0,
            early_calls: 1,
            ..AT_ONCE
        },
        replies: &[&[Page(3073)], &[Page(3072)]],
        zones: &[(2, 4094)],
    },
    Case {
        shows: "worker 1 waits for the other",
        trace: PAGE_EACH,
        plan: Plan {
            late: 1,
            early_calls: 1,
            ..AT_ONCE
        },
        replies: &[&[Page(3072)], &[Page(3073)]],
        zones: &[(2, 4094)],
    },
];

#[test]
fn each_worker_can_wait_for_the_other(rt: HostRuntime) {
    expect_cases(&rt, rt.alloc(), &CASES);
}
