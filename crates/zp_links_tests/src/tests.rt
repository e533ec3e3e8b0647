//! The words of entries, worked by hand from the layouts: the narrow one up to 65,536 pages, else the one in memory.

use std::process::Abort;
use std::test::*;
use zp_links::Lists;
use zp_model::{MigrateType, Order, PageAt, State, Worker};
use zp_table::PageTable;

/// The lists over a table of so many pages: one, which the pages stand on in this order.
fn listed(rt: &(impl Abort + AllocGlobal), pages: u32, list: &[u32]) -> Result<Lists, Fail> {
    assert!(rt; pages <= zp_model::MAX_PAGES);
    let mut lists = Lists::new(rt.alloc(), PageTable::new(rt.alloc(), pages)?, 1)?;
    for &page in list {
        assert!(rt; page < zp_model::MAX_PAGES);
        let at = PageAt::at(page);
        assert!(rt; lists.count() == 1 && at.index() < lists.pages() && !lists.on_any(at));
        lists.push_back(0, at);
    }
    Ok(lists)
}

/// What is noted of a page: one of a block of the largest order, one of a block of one page, or one that the last worker has.
#[derive(Clone, Copy, Drop)]
enum Noted {
    Tail,
    Largest,
    Single,
    Out,
}

fn state_of(noted: Noted) -> State {
    match noted {
        Noted::Tail => State::Tail,
        Noted::Largest => State::Free(Order::largest()),
        Noted::Single => State::Free(Order::zero()),
        Noted::Out => {
            let last = Worker::new(31).unwrap_or(Worker::first());
            State::Out(Order::zero(), MigrateType::Movable, last)
        }
    }
}

/// How many pages there are, which of them stand on the one list, a page, what is noted of it, and the word of its entry.
type Case = (u32, &'static [u32], u32, Noted, u64);

const CASES: [Case; 9] = [
    (8, &[], 5, Noted::Tail, 0x0000_4000_2000_0000),
    (8, &[], 5, Noted::Largest, 0x0000_4000_2000_0029),
    (8, &[], 5, Noted::Out, 0x0000_4000_2000_1F82),
    (
        65_536,
        &[3, 5, 65_535],
        5,
        Noted::Single,
        0x0000_0000_DFFF_E001,
    ),
    (
        4096,
        &[3072, 2048, 1024, 0],
        0,
        Noted::Largest,
        0x0000_0100_2000_0029,
    ),
    (
        4096,
        &[3072, 2048, 1024, 0],
        2048,
        Noted::Largest,
        0x0000_0300_0080_0029,
    ),
    (131_072, &[], 70_000, Noted::Tail, 0x8000_0000_0100_0000),
    (131_072, &[], 70_000, Noted::Out, 0x8000_003F_0500_0000),
    (
        131_072,
        &[3, 65_536, 131_071],
        65_536,
        Noted::Single,
        0x00FF_FF80_0200_0003,
    ),
];

/// The word of a page's entry, once this is noted of it. None where the page is not one of the lists'.
fn word_of(lists: &mut Lists, page: u32, noted: Noted) -> Option<u64> {
    let at = PageAt::new(page)?;
    if at.index() >= lists.pages() {
        return None;
    }
    lists.set_state(at, state_of(noted));
    if at.index() >= lists.pages() {
        return None;
    }
    Some(lists.word(at))
}

#[test]
fn entries_are_packed_in_words(rt: HostRuntime) -> Result<(), Fail> {
    for (pages, list, page, noted, word) in CASES {
        let mut lists = listed(&rt, pages, list)?;
        assert!(rt;
            word_of(&mut lists, page, noted) == Some(word),
            "page {page} of {pages}"
        );
    }
    Ok(())
}
