//! When the workers of a trace have their turns, and what becomes of their zones' locks meanwhile.

use crossbeam_utils::atomic::AtomicCell;
use std::sync::Wait;
use std::time::{Clock, Duration};
use std::{mem, thread};
use zp_model::Worker;
use zp_office::Gate;
use zp_shared::{Naming, SharedZone};

#[derive(Clone, Copy, Drop)]
pub(super) struct Plan {
    /// How many entries the journal of each zone has room for.
    pub(super) capacity: u32,
    /// The worker that begins only when the other has ended so many of its calls.
    pub(super) late: u8,
    pub(super) early_calls: u32,
    /// Whether it waits with the first zone's lock in its hand. The other begins when it has that.
    pub(super) is_locked: bool,
    /// Before these calls of any worker, counted from 1, what lies under the first two locks is exchanged.
    pub(super) exchanges: [u32; 2],
}

/// Nobody waits, no zone strays, and the journals have ample room.
pub(super) const AT_ONCE: Plan = Plan {
    capacity: 100,
    late: 0,
    early_calls: 0,
    is_locked: false,
    exchanges: [0, 0],
};

/// Gives the workers their turns. Who waits gives up after ten seconds.
#[derive(Drop)]
pub(super) struct Turns<'a, J: Naming, R> {
    rt: &'a R,
    row: &'a [SharedZone<J>],
    plan: Plan,
    /// How many calls the early worker has ended.
    ended: AtomicCell<u32>,
    /// How many times the late worker has taken the lock.
    taken: AtomicCell<u32>,
    gave_up: AtomicCell<u32>,
}

impl<'a, J: Naming, R> Turns<'a, J, R> {
    pub(super) fn new(rt: &'a R, row: &'a [SharedZone<J>], plan: Plan) -> Turns<'a, J, R> {
        Turns {
            rt,
            row,
            plan,
            ended: AtomicCell::new(0),
            taken: AtomicCell::new(0),
            gave_up: AtomicCell::new(0),
        }
    }

    /// Whether nobody gave up.
    pub(super) fn were_kept(&self) -> bool {
        self.gave_up.load() == 0
    }
}

impl<'a, J: Naming, R: Clock + Wait> Turns<'a, J, R> {
    fn wait_for(&self, count: &AtomicCell<u32>, least: u32) {
        for _ in 0..10_000 {
            if count.load() >= least {
                return;
            }
            thread::sleep(self.rt, Duration::from_millis(1));
        }
        self.gave_up.store(1);
    }

    fn wait_locked(&self) {
        let Some(first) = self.row.first() else {
            return
        };
        let guarded = first.state.lock(self.rt);
        self.taken.store(1);
        self.wait_for(&self.ended, self.plan.early_calls);
        drop(guarded);
    }

    fn begin(&self, worker: Worker) {
        let is_late = worker.number() == self.plan.late;
        match (is_late, self.plan.is_locked) {
            (true, true) => self.wait_locked(),
            (true, false) => self.wait_for(&self.ended, self.plan.early_calls),
            (false, true) => self.wait_for(&self.taken, 1),
            (false, false) => {}
        }
    }

    fn exchange(&self) {
        let (Some(first), Some(second)) = (self.row.first(), self.row.get(1)) else {
            return;
        };
        let mut low = first.state.lock(self.rt);
        let mut high = second.state.lock(self.rt);
        mem::swap(&mut *low, &mut *high);
    }
}

impl<'a, J: Naming, R: Clock + Wait> Gate for Turns<'a, J, R> {
    fn before(&self, worker: Worker, call: u32) {
        if call == 1 {
            self.begin(worker);
        }
        if self.plan.exchanges.contains(&call) {
            self.exchange();
        }
    }

    fn after(&self, worker: Worker, call: u32) {
        if worker.number() != self.plan.late {
            self.ended.store(call);
        }
    }
}
