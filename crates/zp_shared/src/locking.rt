//! How the lock of a zone is taken: it is tried for a while before the thread sleeps.
//!
//! A section takes some hundred nanoseconds. Each time another thread makes the next one, the zone's cache lines move to its processor,
//! which takes longer than the section. So a thread that finds the lock taken does not look again at once: it rests, each time longer,
//! while the thread that has the zone in its processor's cache makes many sections in a row.

use std::hint::spin_loop;
use std::sync::{Mutex, MutexGuard, Wait};
use std::thread::yield_now;

/// The first rest, in hints to the processor. It is short, as most often one section has to end.
const FIRST_REST: u32 = 64;

/// How many times as long as a rest the next one is.
const GROWTH: u32 = 8;

/// The longest rest, in hints to the processor.
const LONGEST_REST: u32 = 8192;

/// How often a lock is tried again before the thread sleeps.
const TRIES: u32 = 5;

/// Takes a lock. Where nobody has it, nothing else is done.
// (not in line: a section is, whole, and would be there twice)
#[inline(never)]
pub(crate) fn lock_soon<'a, T, R: Wait>(lock: &'a Mutex<T>, rt: &R) -> MutexGuard<'a, T> {
    match lock.try_lock() {
        Some(guard) => guard,
        None => lock_later(lock, rt),
    }
}

/// Takes a lock that another thread had a moment ago: by some tries with rests before them, or else asleep until it is this thread's turn.
#[inline(never)]
fn lock_later<'a, T, R: Wait>(lock: &'a Mutex<T>, rt: &R) -> MutexGuard<'a, T> {
    let mut hints = FIRST_REST;
    for _ in 0..TRIES {
        rest(hints);
        if let Some(guard) = lock.try_lock() {
            return guard;
        }
        hints = LONGEST_REST.min(hints.saturating_mul(GROWTH));
    }
    lock.lock(rt)
}

/// Rests for so many hints to the processor. After all but the first rest another thread may have the processor: the one with the lock may
/// be off it.
fn rest(hints: u32) {
    for _ in 0..hints {
        spin_loop();
    }
    if hints > FIRST_REST {
        yield_now();
    }
}
