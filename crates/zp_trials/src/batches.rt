//! Runs of pages that are taken and given back as one, beside the same pages one by one.

use crate::pair::{Pair, new_pair, order_of, page_of};
use std::alloc::{AllocError, AllocGlobal};
use std::process::Abort;
use std::test::Fail;
use zp_model::{LARGEST_ORDER, MAX_PAGES, MigrateType, PageAt};

const UNMOVABLE: MigrateType = MigrateType::Unmovable;

const RECLAIMABLE: MigrateType = MigrateType::Reclaimable;

const MOVABLE: MigrateType = MigrateType::Movable;

/// A type, and how many pages are wanted for it.
type Wanted = (MigrateType, u32);

/// More pages than a block has, as many, and fewer; the foreign types claim and borrow.
const WANTED: [Wanted; 12] = [
    (MOVABLE, 31),
    (MOVABLE, 1),
    (UNMOVABLE, 31),
    (MOVABLE, 7),
    (RECLAIMABLE, 16),
    (UNMOVABLE, 3),
    (MOVABLE, 31),
    (RECLAIMABLE, 5),
    (UNMOVABLE, 1024),
    (MOVABLE, 1024),
    (RECLAIMABLE, 31),
    (UNMOVABLE, 1),
];

/// In which order pages of a block come back, one by one: the place of each is its number times an odd one, with these bits turned.
pub type Places = (u32, u32);

/// Rising, falling, turned, and mixed.
const PLACES: [Places; 6] = [(1, 0), (1, 1023), (1, 5), (3, 0), (5, 6), (13, 9)];

/// Takes runs until all that are wanted have come, or there is none.
fn take_runs(
    rt: &(impl Abort + AllocGlobal),
    pair: &mut Pair,
) -> Result<Vec<(PageAt, u32)>, AllocError> {
    let mut taken = Vec::new(rt.alloc());
    for (kind, most) in WANTED {
        if let Some(run) = pair.take_run(rt, kind, most) {
            taken.push(run)?;
        }
        pair.compare(rt);
    }
    Ok(taken)
}

/// Frees the pages of a run in blocks, the largest first.
fn give_blocks(rt: &impl Abort, pair: &mut Pair, run: (PageAt, u32), places: Places) {
    let (head, count) = run;
    let mut at = head.number();
    for step in 0..=LARGEST_ORDER {
        let order = order_of(rt, LARGEST_ORDER - step);
        if count / order.pages() % 2 == 1 {
            pair.give_run(rt, page_of(rt, at), order, places);
            pair.compare(rt);
            assert!(rt; at < MAX_PAGES);
            at += order.pages();
        }
    }
}

/// Takes runs from a new zone of so many pages, and gives them back.
fn compare_runs(
    rt: &(impl Abort + AllocGlobal),
    largest: u8,
    pages: u32,
) -> Result<(), AllocError> {
    let mut pair = new_pair(rt, largest, pages)?;
    let taken = take_runs(rt, &mut pair)?;
    let mut places = PLACES.iter().cycle();
    for run in taken {
        if let Some(places) = places.next() {
            give_blocks(rt, &mut pair, run, *places);
        }
    }
    Ok(())
}

#[test]
fn runs_agree_at_each_largest_order(rt: HostRuntime) -> Result<(), Fail> {
    for largest in 1..=LARGEST_ORDER {
        // the last pageblock is short
        compare_runs(&rt, largest, (3 << largest) - 1)?;
    }
    Ok(())
}
