//! Zones of four pageblocks whose free blocks are scattered, so that a request looks long for a pageblock that it may claim. Each
//! stands for all largest orders from 2 on: where a pageblock has two pages, one free page is enough for a claim.

use crate::pair::{Pair, order_of, page_of};
use crate::random::{Requests, ask_at_random};
use std::alloc::{AllocError, AllocGlobal};
use std::process::Abort;
use std::test::Fail;
use zp_model::{LARGEST_ORDER, Largest, MigrateType, Order, PageAt};

const UNMOVABLE: MigrateType = MigrateType::Unmovable;

const RECLAIMABLE: MigrateType = MigrateType::Reclaimable;

const MOVABLE: MigrateType = MigrateType::Movable;

/// The type of a pageblock, the order of its free blocks, and how many there are.
#[derive(Clone, Copy, Drop)]
struct Scattered(MigrateType, u8, u32);

/// Of a block so many blocks of an order come back: every second one from its first page on.
fn give_every_second(rt: &impl Abort, pair: &mut Pair, head: PageAt, order: Order, blocks: u32) {
    for block in 0..blocks.min(512) {
        let page = head.number() + 2 * block * order.pages();
        let is_given = pair.give(rt, page_of(rt, page), order);
        assert!(rt; is_given, "page {page}");
    }
}

/// Makes of a new zone one of these pageblocks, the highest first, in each of which so many blocks of an order are free: every second one
/// from its first page on. They came back in this order, so that the highest of the lowest pageblock stands in front.
fn scatter(rt: &impl Abort, pair: &mut Pair, largest: Largest, pageblocks: &[Scattered; 4]) {
    let mut heads = [None; 4];
    for (head, Scattered(kind, ..)) in heads.iter_mut().zip(pageblocks) {
        *head = pair.take(rt, largest.order(), *kind);
    }
    for (head, Scattered(_, order, blocks)) in heads.iter().zip(pageblocks) {
        let head = head.expect(rt, "no pageblock");
        give_every_second(rt, pair, head, order_of(rt, *order), *blocks);
    }
    pair.compare(rt);
}

/// Takes blocks of this order for these types, which are these, in turn.
fn take_in_turn(
    rt: &impl Abort,
    pair: &mut Pair,
    order: u8,
    requests: &[(MigrateType, Option<u32>)],
) {
    let order = order_of(rt, order);
    for (kind, expected) in requests {
        let page = pair.take(rt, order, *kind);
        assert!(rt; page.map(PageAt::number) == *expected);
        pair.compare(rt);
    }
}

/// The same of a new zone of these pageblocks; and then makes requests at random.
fn compare_scattered(
    rt: &(impl Abort + AllocGlobal),
    largest: Largest,
    order: u8,
    pageblocks: &[Scattered; 4],
    requests: &[(MigrateType, Option<u32>)],
) -> Result<(), AllocError> {
    let pages = 4 * largest.order().pages();
    let mut pair = Pair::new(rt.alloc(), pages, largest)?;
    scatter(rt, &mut pair, largest, pageblocks);
    take_in_turn(rt, &mut pair, order, requests);
    let at_random = Requests {
        count: 100,
        orders: largest.number() + 2,
        every: 5,
    };
    ask_at_random(rt, &mut pair, pages, at_random)
}

/// With half of its pages free a pageblock may be claimed, with one fewer not. The blocks of those that may not stand in front.
#[test]
fn pages_are_claimed_late_in_a_list(rt: HostRuntime) -> Result<(), Fail> {
    for number in 2..=LARGEST_ORDER {
        let largest = Largest::new(number).expect(&rt, "no largest order");
        let pages = largest.order().pages();
        assert!(rt; pages >= 4);
        let half = pages / 2;
        compare_scattered(
            &rt,
            largest,
            0,
            &[
                Scattered(MOVABLE, 0, half),
                Scattered(MOVABLE, 0, half),
                Scattered(MOVABLE, 0, half - 1),
                Scattered(MOVABLE, 0, half - 1),
            ],
            &[
                (UNMOVABLE, Some(3 * pages - 2)),
                (RECLAIMABLE, Some(4 * pages - 2)),
                (UNMOVABLE, Some(3 * pages - 4)),
                (RECLAIMABLE, Some(4 * pages - 4)),
                (MOVABLE, Some(pages - 4)),
            ],
        )?;
    }
    Ok(())
}

/// The largest block lies in a pageblock with too few free pages: the claim is by a single page. The next type may not claim by the
/// pages that are left, and borrows one.
#[test]
fn pages_are_claimed_below_larger_blocks(rt: HostRuntime) -> Result<(), Fail> {
    for number in 2..=LARGEST_ORDER {
        let largest = Largest::new(number).expect(&rt, "no largest order");
        let pages = largest.order().pages();
        assert!(rt; pages >= 4);
        compare_scattered(
            &rt,
            largest,
            0,
            &[
                Scattered(MOVABLE, number - 2, 1),
                Scattered(MOVABLE, 0, pages / 2),
                Scattered(MOVABLE, 0, 0),
                Scattered(MOVABLE, 0, 0),
            ],
            &[
                (UNMOVABLE, Some(3 * pages - 2)),
                (RECLAIMABLE, Some(3 * pages - 4)),
                (MOVABLE, Some(3 * pages)),
            ],
        )?;
    }
    Ok(())
}

/// Movable claims by no block below the least order: it borrows the front of the first other type.
#[test]
fn smaller_blocks_are_borrowed(rt: HostRuntime) -> Result<(), Fail> {
    for number in 2..=LARGEST_ORDER {
        let largest = Largest::new(number).expect(&rt, "no largest order");
        let pages = largest.order().pages();
        let least = largest.least_movable_claim();
        assert!(rt; 1 <= least && least <= 5);
        let apart = 1 << least;
        assert!(rt; 2 * apart <= pages);
        compare_scattered(
            &rt,
            largest,
            least - 1,
            &[
                Scattered(UNMOVABLE, least - 1, pages / apart),
                Scattered(RECLAIMABLE, least - 1, pages / apart),
                Scattered(MOVABLE, 0, 0),
                Scattered(MOVABLE, 0, 0),
            ],
            &[
                (MOVABLE, Some(3 * pages - apart)),
                (MOVABLE, Some(3 * pages - 2 * apart)),
            ],
        )?;
    }
    Ok(())
}

/// By a block of the least order Movable claims: it passes over the Reclaimable pageblocks, less than half of which is free, and
/// claims the Unmovable one. Where no pageblock may be claimed, it borrows.
#[test]
fn blocks_are_claimed_or_borrowed(rt: HostRuntime) -> Result<(), Fail> {
    for number in 3..=LARGEST_ORDER {
        let largest = Largest::new(number).expect(&rt, "no largest order");
        let pages = largest.order().pages();
        let least = largest.least_movable_claim();
        assert!(rt; least <= 5);
        let apart = 2 << least;
        assert!(rt; 2 * apart <= pages);
        let half = pages / apart;
        let fewer = Scattered(RECLAIMABLE, least, half - 1);
        let none = Scattered(MOVABLE, 0, 0);
        compare_scattered(
            &rt,
            largest,
            least,
            &[Scattered(UNMOVABLE, least, half), fewer, fewer, none],
            &[
                (MOVABLE, Some(4 * pages - apart)),
                (MOVABLE, Some(4 * pages - 2 * apart)),
            ],
        )?;
        compare_scattered(
            &rt,
            largest,
            least,
            &[Scattered(UNMOVABLE, least, half - 1), fewer, fewer, none],
            &[
                (MOVABLE, Some(2 * pages - 2 * apart)),
                (UNMOVABLE, Some(4 * pages - 2 * apart)),
            ],
        )?;
    }
    Ok(())
}
