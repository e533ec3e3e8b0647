//! What one worker does: it takes blocks of all orders and gives them back, by random numbers that its seed determines.

use rand_core::Rng;
use rand_pcg::Pcg32;
use std::sync::Wait;
use zp_model::Order;
use zp_share::Lent;
use zp_shared::{Keeps, Naming, OneZone, WorkerAt, ZoneWorker};

/// How many blocks a worker has at most. Of as many of all orders, four workers' together are more than any zone has, so requests are
/// refused now and then.
const SLOTS: usize = 64;

/// The blocks that a worker has.
type Slots = [Option<Lent>; SLOTS];

/// What a worker leaves.
#[derive(Clone, Copy, PartialEq, Eq, Debug, Drop)]
pub struct SoakStint {
    /// How many sections it made.
    pub sections: u64,
    /// How many pages it has still.
    pub lent_pages: u64,
}

/// An order by a random word: each is half as frequent as the one below it.
fn order_of(word: u32) -> Order {
    let number = (word | 1 << 10).trailing_zeros();
    Order::new(number as u8).unwrap_or(Order::zero())
}

/// Frees the block of a slot, or allocates one where it has none: one section.
fn ask<J: Naming, R: Wait, K: Keeps>(
    worker: &mut WorkerAt<'_, J, R, K>,
    slot: &mut Option<Lent>,
    order: Order,
) {
    match *slot {
        Some(lent) => {
            if worker.give(&lent).is_ok() {
                *slot = None;
            }
        }
        None => *slot = worker.take(order).ok(),
    }
}

/// How many pages the blocks have.
fn pages_of(slots: &Slots) -> u64 {
    let mut pages = 0_u64;
    for slot in slots {
        if let Some(lent) = slot {
            pages = pages.saturating_add(u64::from(lent.order.pages()));
        }
    }
    pages
}

/// One worker makes so many requests, and keeps what it then has.
pub fn work<J: Naming, R: Wait, K: Keeps>(
    rt: &R,
    worker: ZoneWorker<J>,
    zone: &OneZone<J, K>,
    requests: u32,
) -> SoakStint {
    let mut worker = worker.at(rt, zone);
    let mut random = Pcg32::new(u64::from(requests), u64::from(worker.number()));
    let mut slots: Slots = [None; SLOTS];
    for _ in 0..requests {
        let slot = random.next_u32() as usize % SLOTS;
        let order = order_of(random.next_u32());
        ask(&mut worker, &mut slots[slot], order);
    }
    SoakStint {
        sections: worker.sections(),
        lent_pages: pages_of(&slots),
    }
}
