//! Counts on a board, where there is memory.
ghost use Rattle.std.specs.Prelude.{◌≡◌};

use super::*;
use std::process::Abort;
use std::test::*;
use zp_model::Counts;

/// The largest counts that fit into packed words.
const LARGEST: Counts = Counts {
    by_order: [
        2_097_151, 2_097_151, 65_535, 65_535, 65_535, 65_535, 4095, 4095, 4095, 4095, 4095,
    ],
    free: 2_097_151,
};

/// Such counts at a place.
fn single_pages_at(place: u64, free: u32) -> Reading {
    Reading {
        counts: single_pages(free),
        place,
    }
}

/// Counts of so many free pages, each a block of its own.
fn single_pages(free: u32) -> Counts {
    let mut counts = Counts::default();
    counts.by_order[0] = free;
    counts.free = free;
    counts
}

#[test]
fn readers_see_the_last_counts(rt: HostRuntime) -> Result<(), Fail> {
    let (board, mut publisher) = new_board(rt.alloc(), 2, &single_pages(7))?;
    let mut first = publisher.reader(&board);
    let mut second = publisher.reader(&board);
    assert_eq!(rt; first.read(&board), single_pages_at(0, 7));
    publisher.publish(&board, &single_pages(65_536));
    assert_eq!(rt; first.read(&board), single_pages_at(1, 65_536));
    let counts = Counts {
        by_order: [1, 2, 3, 4, 5, 6, 7, 8, 9, 10, u32::MAX],
        free: u32::MAX - 1,
    };
    publisher.publish(&board, &counts);
    assert!(rt; publisher.is_full(&board));
    let all = Reading { counts, place: 2 };
    // what was published before its first read, it sees
    assert_eq!(rt; second.read(&board), all);
    assert_eq!(rt; publisher.read_board(&board, &mut first), all);
    Ok(())
}

#[test]
fn readers_see_the_last_counts_of_a_board_that_turns(rt: HostRuntime) -> Result<(), Fail> {
    let opening = single_pages(7);
    assert!(rt; are_packable(&opening));
    let (board, mut publisher) = new_turning_board(rt.alloc(), 2, &opening)?;
    let mut first = publisher.reader(&board);
    let mut second = publisher.reader(&board);
    assert_eq!(rt; first.read(&board), single_pages_at(0, 7));
    let counts = single_pages(65_536);
    assert!(rt; are_packable(&counts));
    publisher.publish(&board, &counts);
    assert!(rt; !publisher.is_full(&board));
    assert_eq!(rt; first.read(&board), single_pages_at(1, 65_536));
    assert!(rt; are_packable(&LARGEST));
    publisher.publish(&board, &LARGEST);
    assert!(rt; publisher.is_full(&board));
    let all = Reading {
        counts: LARGEST,
        place: 2,
    };
    // what was published before its first read, it sees
    assert_eq!(rt; second.read(&board), all);
    assert_eq!(rt; publisher.read_board(&board, &mut first), all);
    Ok(())
}

#[test]
fn readers_see_the_last_counts_of_a_wide_board(rt: HostRuntime) -> Result<(), Fail> {
    let (board, mut publisher) = new_wide_board(rt.alloc(), 1, &single_pages(7))?;
    let mut first = publisher.reader(&board);
    let mut second = publisher.reader(&board);
    assert_eq!(rt; first.read(&board), single_pages_at(0, 7));
    let counts = Counts {
        by_order: [1, 2, 3, 4, 5, 6, 7, 8, 9, 10, u32::MAX],
        free: u32::MAX - 1,
    };
    publisher.publish(&board, &counts);
    assert!(rt; publisher.is_full(&board));
    let all = Reading { counts, place: 1 };
    // what was published before its first read, it sees
    assert_eq!(rt; second.read(&board), all);
    assert_eq!(rt; publisher.read_board(&board, &mut first), all);
    Ok(())
}

#[test]
fn a_board_that_turns_goes_on_after_its_slots(rt: HostRuntime) -> Result<(), Fail> {
    let opening = single_pages(0);
    assert!(rt; are_packable(&opening));
    let (board, mut publisher) = new_turning_board(rt.alloc(), u64::MAX, &opening)?;
    let mut early = publisher.reader(&board);
    let mut often = publisher.reader(&board);
    for free in 1..40 {
        let counts = single_pages(free);
        assert!(rt; are_packable(&counts));
        assert!(rt; !publisher.is_full(&board));
        publisher.publish(&board, &counts);
        assert_eq!(rt; often.read(&board), single_pages_at(u64::from(free), free));
    }
    // it was passed by more than there are slots
    assert_eq!(rt; early.read(&board), single_pages_at(39, 39));
    assert_eq!(rt;
        publisher.read_board(&board, &mut often),
        single_pages_at(39, 39)
    );
    Ok(())
}

#[test]
fn counts_with_one_too_many_do_not_fit(rt: HostRuntime) {
    assert!(rt; are_packable(&LARGEST));
    for order in 0..zp_model::ORDERS {
        let mut counts = LARGEST;
        counts.by_order[order] += 1;
        assert!(rt; !are_packable(&counts));
    }
    let free = LARGEST.free + 1;
    assert!(rt; !are_packable(&Counts { free, ..LARGEST }));
}

#[test]
fn a_board_of_no_capacity_has_its_opening_counts(rt: HostRuntime) -> Result<(), Fail> {
    let (board, mut publisher) = new_board(rt.alloc(), 0, &single_pages(5))?;
    assert!(rt; publisher.is_full(&board));
    let mut reader = publisher.reader(&board);
    assert_eq!(rt; reader.read(&board), single_pages_at(0, 5));
    let under = publisher.read_board(&board, &mut reader);
    assert_eq!(rt; under, single_pages_at(0, 5));
    Ok(())
}

/// How many counts are published by the times at which a reader looks: between two of these it sleeps.
const PUBLISHED: [u32; 6] = [1, 2, 17, 63, 164, 501];

/// Publishes the counts of these numbers, from the one after `from` on. Those of number n have n free pages.
fn publish_pages<R: Abort>(
    rt: &R,
    board: &Board,
    mut publisher: Publisher,
    from: u32,
    to: u32,
) -> Publisher
    requires { publisher.tie ≡ board.now.tie }
    ensures { result.tie ≡ board.now.tie }
{
    for before in from..to {
        let counts = single_pages(before + 1);
        assert!(rt; are_packable(&counts));
        assert!(rt; !publisher.is_full(board));
        publisher.publish(board, &counts);
    }
    publisher
}

/// A reader that slept reads the newest counts, however many came meanwhile.
fn expect_newest_counts<R: Abort>(rt: &R, board: &Board, mut publisher: Publisher)
    requires { publisher.tie ≡ board.now.tie }
{
    let mut reader = publisher.reader(board);
    let mut before = 1;
    for published in PUBLISHED {
        publisher = publish_pages(rt, board, publisher, before, published);
        let reading = reader.read(board);
        assert_eq!(rt; reading.counts, single_pages(published));
        assert_eq!(rt; reading.place, publisher.place());
        before = published;
    }
}

#[test]
fn a_reader_that_slept_sees_the_newest_counts(rt: HostRuntime) -> Result<(), Fail> {
    let opening = single_pages(1);
    let (board, publisher) = new_board(rt.alloc(), 500, &opening)?;
    expect_newest_counts(&rt, &board, publisher);
    assert!(rt; are_packable(&opening));
    let (board, publisher) = new_turning_board(rt.alloc(), u64::MAX, &opening)?;
    expect_newest_counts(&rt, &board, publisher);
    let (board, publisher) = new_wide_board(rt.alloc(), u64::MAX, &opening)?;
    expect_newest_counts(&rt, &board, publisher);
    Ok(())
}
