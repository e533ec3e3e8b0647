//! Two calls at the same time, each in a thread of its own, or neither of them. Which of the two happens when is not proved.

use std::test::*;
use zp_office::{join_or_neither, join_or_neither_on};

// A stack that no system has.
const HUGE: Option<usize> = Some(usize::MAX);

#[test]
fn both_are_called(rt: HostRuntime) {
    let (mut a, mut b) = (1u32, 2u32);
    let both = join_or_neither(&rt, &mut || a += 10, &mut || b += 10);
    assert_eq!(rt; both, Some(((), ())));
    assert_eq!(rt; (a, b), (11, 12));
}

#[test]
fn neither_is_called_where_no_thread_can_be_made(rt: HostRuntime) {
    let (mut a, mut b) = (1u32, 2u32);
    let both = join_or_neither_on(&rt, HUGE, &mut || a = 3, &mut || b = 4);
    assert_eq!(rt; both, None);
    assert_eq!(rt; (a, b), (1, 2));
}
