//! The free blocks of zones over a run of any length.
ghost use Rattle.std.specs.Prelude.{◌<◌};

use std::alloc::{AllocError, Global};
use zp_model::ORDERS;
use zp_zone::Zone;

/// The most samples that are kept of a zone: where there are so many each second one goes, and from then on half as many are taken.
pub const MOST_SAMPLES: usize = 2_000;

/// The free blocks of each zone by order, after each of so many events.
#[derive(Drop)]
pub struct Samples {
    zones: Vec<Vec<[u32; ORDERS]>>,
    step: u64,
    events: u64,
}

impl Samples {
    /// Of so many zones, before the first event.
    pub fn new(alloc: Global, zones: usize) -> Result<Samples, AllocError> {
        let mut rows = Vec::new(alloc);
        for _ in 0..zones {
            rows.push(Vec::new(alloc))?;
        }
        Ok(Samples {
            zones: rows,
            step: 1,
            events: 0,
        })
    }

    /// How many events there were.
    pub fn events(&self) -> u64 {
        self.events
    }

    /// The samples of each zone.
    pub fn zones(&self) -> &[Vec<[u32; ORDERS]>] {
        &self.zones
    }

    /// The zones are so now, after one event more.
    pub fn note(&mut self, zones: &[Zone]) -> Result<(), AllocError> {
        self.events = self.events.saturating_add(1);
        if self.events % self.step.max(1) != 0 {
            return Ok(());
        }
        for (row, zone) in self.zones.iter_mut().zip(zones) {
            row.push(zone.counts().by_order)?;
        }
        let len = match self.zones.first() {
            Some(row) => row.len(),
            None => 0,
        };
        if len >= MOST_SAMPLES {
            self.thin_out();
        }
        Ok(())
    }

    /// Each second sample goes.
    fn thin_out(&mut self) {
        for row in self.zones.iter_mut() {
            keep_each_second(row);
        }
        self.step = self.step.saturating_mul(2);
    }
}

/// Of a row the second stays, the fourth, and so on.
fn keep_each_second(row: &mut Vec<[u32; ORDERS]>) {
    let half = row.len() / 2;
    for place in 0..half {
        row[place] = row[2 * place + 1];
    }
    row.truncate(half);
}
