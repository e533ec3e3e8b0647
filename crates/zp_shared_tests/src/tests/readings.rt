//! A board, read while another worker takes pages.

use super::one_zone::{counts_at, run};
use std::alloc::Global;
use std::test::*;
use zp_journal::Journal;
use zp_model::Counts;
use zp_shared::Reading;

/// The counts of the zone when so many pages of its highest 1,024 are taken, from the lowest on.
fn counts_without(taken: u32) -> Counts {
    let rest = 1024_u32.wrapping_sub(taken);
    let mut by_order = [0; 11];
    for (order, count) in by_order.iter_mut().enumerate() {
        *count = rest >> (order as u32 % 32) & 1;
    }
    by_order[10] = by_order[10].wrapping_add(3);
    Counts {
        by_order,
        free: rest.wrapping_add(3072),
    }
}

/// Whether each reading is of the counts that the zone had at its place, which is none before that of the reading before it.
fn are_in_order(readings: &[Reading]) -> bool {
    let mut last = 0;
    for reading in readings {
        let Ok(taken) = u32::try_from(reading.place) else {
            return false;
        };
        if taken < last || reading.counts != counts_without(taken) {
            return false;
        }
        last = taken;
    }
    true
}

/// The journal gives the same counts at a place as the zone had there, and none past its end.
fn tells_each_place(alloc: Global, journal: &Journal) -> bool {
    for place in 0..101 {
        if counts_at(alloc, journal, u64::from(place)) != Some(counts_without(place)) {
            return false;
        }
    }
    counts_at(alloc, journal, 101).is_none()
}

/// A worker takes 100 pages, which fills the journal, while another thread reads 1,000 times.
#[test]
fn readings_never_go_back(rt: HostRuntime) {
    let Some(ran) = run(&rt, rt.alloc(), 100, 1000) else {
        assert!(rt; false, "the workers run");
        return;
    };
    assert!(rt; ran.taken.pages == 100 && ran.taken.last.place == 100);
    assert!(rt; ran.readings.len() == 1000 && are_in_order(ran.readings.as_slice()));
    assert!(rt; tells_each_place(rt.alloc(), &ran.journal));
}
