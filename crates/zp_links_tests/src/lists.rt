//! Two lists, call by call.

use std::process::Abort;
use std::test::*;
use zp_links::Lists;
use zp_model::{MAX_PAGES, PageAt};
use zp_table::PageTable;

/// A call on a list, with its page.
#[derive(Clone, Copy, Drop)]
enum Call {
    PushFront,
    PushBack,
    Remove,
    PopFront,
}

/// Makes a call on a list. A page that is pushed is on no list before.
fn make(rt: &impl Abort, lists: &mut Lists, call: Call, list: usize, at: PageAt) {
    assert!(rt; list < lists.count());
    assert!(rt; at.index() < lists.pages());
    match call {
        Call::PushFront => {
            assert!(rt; !lists.on_any(at));
            lists.push_front(list, at);
        }
        Call::PushBack => {
            assert!(rt; !lists.on_any(at));
            lists.push_back(list, at);
        }
        Call::Remove => {
            assert!(rt; lists.is_on(list, at));
            lists.remove(list, at);
        }
        Call::PopFront => assert!(rt; lists.pop_front(list) == Some(at)),
    }
}

/// Compares a list with the pages that it has to have.
fn expect_list(rt: &impl Abort, lists: &Lists, list: usize, wanted: &[u32]) {
    assert!(rt; list < lists.count());
    assert!(rt; lists.len(list) as usize == wanted.len());
    let mut next = lists.front(list);
    for page in wanted {
        assert!(rt; next.map(PageAt::number) == Some(*page));
        next = after(lists, list, next);
    }
    assert!(rt; next.is_none());
}

/// The page that stands after this one on a list, where it stands there.
fn after(lists: &Lists, list: usize, page: Option<PageAt>) -> Option<PageAt> {
    match page {
        Some(at) if list < lists.count() && at.index() < lists.pages() && lists.is_on(list, at) =>
            lists.after(list, at),
        _ => None,
    }
}

/// A call on a list of two, with its page, and then the pages of both.
type Case = (Call, usize, u32, &'static [u32], &'static [u32]);

const CASES: [Case; 6] = [
    (Call::PushFront, 0, 5, &[5], &[]),
    (Call::PushFront, 0, 7, &[7, 5], &[]),
    (Call::PushBack, 0, 2, &[7, 5, 2], &[]),
    (Call::Remove, 0, 5, &[7, 2], &[]),
    (Call::PushFront, 1, 5, &[7, 2], &[5]),
    (Call::PopFront, 0, 7, &[2], &[5]),
];

fn expect_case(rt: &impl Abort, lists: &mut Lists, case: &Case) {
    let (call, list, page, first, second) = *case;
    assert!(rt; page < MAX_PAGES);
    make(rt, lists, call, list, PageAt::at(page));
    expect_list(rt, lists, 0, first);
    expect_list(rt, lists, 1, second);
}

#[test]
fn two_lists_over_eight_pages(rt: HostRuntime) -> Result<(), Fail> {
    let mut lists = Lists::new(rt.alloc(), PageTable::new(rt.alloc(), 8)?, 2)?;
    for case in &CASES {
        expect_case(&rt, &mut lists, case);
    }
    Ok(())
}
