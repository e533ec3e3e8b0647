//! What is called round each command of a worker, which is not proved.

use super::rows::opened_trace;
use std::cell::Cell;
use std::test::*;
use zp_model::Worker;
use zp_office::{Gate, work};
use zp_share::PlainZones;

/// Notes how often it was called, and whether a call came out of its place: before and after each command in turn, counted from 1.
#[derive(Drop)]
struct Noting {
    calls: Cell<u32>,
    strayed: Cell<bool>,
}

impl Noting {
    fn note(&self, worker: Worker, call: u32, after: bool) {
        let seen = self.calls.get();
        let expected = (seen / 2).wrapping_add(1);
        if worker.number() != 1 || call != expected || after != (seen % 2 == 1) {
            self.strayed.set(true);
        }
        self.calls.set(seen.wrapping_add(1));
    }
}

impl Gate for Noting {
    fn before(&self, worker: Worker, call: u32) {
        self.note(worker, call, false);
    }

    fn after(&self, worker: Worker, call: u32) {
        self.note(worker, call, true);
    }
}

#[test]
fn a_gate_is_called_round_each_command(rt: HostRuntime) {
    let text = "zone DMA 0 8 0\nworkers 2\nlists 0 0\n1 low a 2 DMA\n1 info\n1 free a\n";
    let Some((zones, mut desks)) = opened_trace(rt.alloc(), text) else {
        assert!(rt; false, "the zone can be made");
        return;
    };
    let mut row = PlainZones::new(zones);
    let Some(mut desk) = desks.pop() else {
        assert!(rt; false, "there are two workers");
        return;
    };
    let gate = Noting {
        calls: Cell::new(0),
        strayed: Cell::new(false),
    };
    work(&mut desk, &mut row, &gate);
    assert_eq!(rt; gate.calls.get(), 6);
    assert!(rt; !gate.strayed.get());
}
