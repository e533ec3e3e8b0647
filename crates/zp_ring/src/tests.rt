//! Boards that turn, in one thread and in three.
ghost use Rattle.std.specs.Prelude.{◌≡◌, ◌+◌, ◌*◌, ◌<◌, ◌≤◌, ◌^◌};

use super::*;
use std::alloc::Global;
use std::process::Abort;
use std::sync::Wait;
use std::test::*;
use std::thread::{Threads, join};

#[test]
fn readers_see_the_last_entry(rt: HostRuntime) -> Result<(), Fail> {
    let (board, mut publisher) = Ring::<2, 3>::new(rt.alloc(), &[7, 8])?;
    let mut first = publisher.reader(&board);
    let mut second = publisher.reader(&board);
    assert_eq!(rt; first.read(&board).words, [7, 8]);
    publisher.publish(&board, &[1, 2]);
    assert_eq!(rt; first.read(&board).words, [1, 2]);
    publisher.publish(&board, &[2, 1]);
    // what was published before its first read, it sees
    assert_eq!(rt; second.read(&board).words, [2, 1]);
    assert_eq!(rt; second.read(&board).place, 2);
    publisher.publish(&board, &[u64::MAX, 0]);
    publisher.publish(&board, &[5, 6]);
    assert_eq!(rt; publisher.read_board(&board, &mut first).words, [5, 6]);
    assert_eq!(rt; first.read(&board).words, [5, 6]);
    assert_eq!(rt; first.read(&board).place, 4);
    assert_eq!(rt; second.read(&board).words, [5, 6]);
    assert_eq!(rt; publisher.newest(&board).words, [5, 6]);
    assert_eq!(rt; publisher.reader(&board).read(&board).words, [5, 6]);
    Ok(())
}

/// Entry n of the boards below, counted from 0.
fn entry(place: u64) -> [u64; 3] {
    [
        place,
        place.wrapping_mul(0x9E37_79B9_7F4A_7C15),
        u64::MAX - place,
    ]
}

fn publish_all<const S: usize>(
    board: &Ring<3, S>,
    mut publisher: RingPublisher<3, S>,
    many: u64,
) -> RingPublisher<3, S>
    requires { publisher.tie ≡ board.now.tie }
    ensures { result.tie ≡ board.now.tie }
{
    for number in 0..many {
        if !publisher.is_full() && number < u64::MAX {
            publisher.publish(board, &entry(number + 1));
        }
    }
    publisher
}

/// What came of many readings: whether each was an entry of its place, at no place before that of the one before it, and how many were
/// of a new place.
#[derive(Drop)]
struct ManyReadings<const S: usize> {
    reader: RingReader<3, S>,
    are_good: bool,
    new: u64,
}

fn read_all<const S: usize>(
    board: &Ring<3, S>,
    mut reader: RingReader<3, S>,
    many: u64,
) -> ManyReadings<S>
    requires { reader.tie ≡ board.now.tie }
    ensures { result.reader.tie ≡ board.now.tie }
{
    let mut are_good = true;
    let mut new = 0_u64;
    let mut place = 0;
    for _ in 0..many {
        let reading = reader.read(board);
        if reading.words != entry(reading.place) || reading.place < place {
            are_good = false;
        }
        if reading.place != place {
            new = new.saturating_add(1);
        }
        place = reading.place;
    }
    ManyReadings {
        reader,
        are_good,
        new,
    }
}

/// One thread publishes, and two read.
fn expect_good_readings<const S: usize, R: Abort + Threads + Wait + Sync>(
    rt: &R,
    alloc: Global,
    many: u64,
)
    requires slots { 2 ≤ S }
    requires size { 3 * S + 1 < 2 ^ 32 }
{
    let Ok((board, mut publisher)) = Ring::<3, S>::new(alloc, &entry(0)) else {
        assert!(rt; false, "the board can be made");
        return;
    };
    let board = &board;
    let first = publisher.reader(board);
    let second = publisher.reader(board);
    let (mut publisher, (mut first, mut second)) = join(
        rt,
        move || -> RingPublisher<3, S>
            requires { publisher.tie ≡ board.now.tie }
            ensures { result.tie ≡ board.entry.now.tie }
        { publish_all(board, publisher, many) },
        move || -> (ManyReadings<S>, ManyReadings<S>)
            requires { (first.tie ≡ board.now.tie) × (second.tie ≡ board.now.tie) }
            ensures { (result.0.reader.tie ≡ board.entry.now.tie) × (result.1.reader.tie ≡ board.entry.now.tie) }
        {
            join(
                rt,
                move || -> ManyReadings<S>
                    requires { first.tie ≡ board.now.tie }
                    ensures { result.reader.tie ≡ board.entry.now.tie }
                { read_all(board, first, many) },
                move || -> ManyReadings<S>
                    requires { second.tie ≡ board.now.tie }
                    ensures { result.reader.tie ≡ board.entry.now.tie }
                { read_all(board, second, many) },
            )
        },
    );
    assert!(rt; first.are_good);
    assert!(rt; second.are_good);
    assert_eq!(rt; first.reader.read(board).words, entry(many));
    assert_eq!(rt;
        publisher.read_board(board, &mut second.reader).words,
        entry(many)
    );
    assert_eq!(rt; publisher.newest(board).place, many);
}

#[test]
fn readings_are_good_over_two_slots(rt: HostRuntime) {
    expect_good_readings::<2, _>(&rt, rt.alloc(), 100_000);
}

#[test]
fn readings_are_good_over_three_slots(rt: HostRuntime) {
    expect_good_readings::<3, _>(&rt, rt.alloc(), 100_000);
}

#[test]
fn readings_are_good_over_sixteen_slots(rt: HostRuntime) {
    expect_good_readings::<16, _>(&rt, rt.alloc(), 100_000);
}
