//! How long it takes to create a zone, and a worker's share of it.

use crate::clock::timed;
use crate::steps::{Steps, begun};
use std::alloc::Global;
use std::rt::Clock;
use zp_loads::{Unmade, config, config_of, longest_lists};
use zp_model::Largest;
use zp_progress::{Progress, Task};
use zp_share::Share;
use zp_zone::Zone;

/// The sizes of the zones, in pages.
const SIZES: [u32; 3] = [1 << 16, 1 << 20, 1 << 24];

/// The largest orders of the zones.
const LARGEST: [u8; 6] = [10, 9, 6, 5, 4, 1];

/// How many samples there are, of which the least time is printed.
const SAMPLES: u32 = 5;

/// The times that are taken: of zones, and of a share.
const MEASUREMENTS: usize = SIZES.len() * (LARGEST.len() + 1);

/// What a terminal shows of a table that takes long.
const TASK: Task<'static> = Task {
    name: "zonebench makings",
    unit: "measurements",
};

/// What is made.
#[derive(Clone, Copy, Drop)]
enum Made {
    /// A zone of this largest order.
    Zone(Largest),
    /// A worker's share of a zone.
    Share,
}

impl Made {
    /// The nanoseconds of one creation, for a zone of so many pages.
    fn nanos(self, rt: &impl Clock, alloc: Global, pages: u32) -> anyhow::Result<u128> {
        match self {
            Made::Zone(largest) => zone_nanos(rt, alloc, pages, largest),
            Made::Share => share_nanos(rt, alloc, pages),
        }
    }

    /// The least of several.
    fn least_nanos(self, rt: &impl Clock, alloc: Global, pages: u32) -> anyhow::Result<u128> {
        let mut least = u128::MAX;
        for _ in 0..SAMPLES {
            least = least.min(self.nanos(rt, alloc, pages)?);
        }
        Ok(least)
    }
}

fn zone_nanos(
    rt: &impl Clock,
    alloc: Global,
    pages: u32,
    largest: Largest,
) -> anyhow::Result<u128> {
    let (made, time) = timed(rt, || Zone::wide(alloc, config_of(pages, largest), 1))?;
    match made {
        Ok(_made) => Ok(time.as_nanos()),
        Err(refused) => Err(Unmade::from(refused).into()),
    }
}

fn share_nanos(rt: &impl Clock, alloc: Global, pages: u32) -> anyhow::Result<u128> {
    let lists = longest_lists()?;
    match Zone::wide(alloc, config(pages), 1) {
        Ok((_zone, seats)) => {
            let (made, time) = timed(rt, || Share::new(alloc, seats, lists))?;
            match made {
                Ok(_share) => Ok(time.as_nanos()),
                Err(refused) => Err(Unmade::from(refused).into()),
            }
        }
        Err(refused) => Err(Unmade::from(refused).into()),
    }
}

/// Prints a line of the table: the time of a creation at each size.
fn print_times(
    rt: &(impl Print + Clock),
    alloc: Global,
    steps: &mut Steps<impl Progress + Drop>,
    name: &str,
    made: Made,
) -> anyhow::Result<()> {
    let line = steps.at_each(SIZES, |pages| made.least_nanos(rt, alloc, pages))?;
    steps.clear();
    print_line(rt, name, &line)
}

/// Prints a line of the table, in milliseconds.
fn print_line(rt: &impl Print, name: &str, nanos: &[u128]) -> anyhow::Result<()> {
    print!(rt; "{name:<40}")?;
    for nanos in nanos {
        let hundredths = *nanos / 10_000;
        print!(rt; "{:>9}.{:02}", hundredths / 100, hundredths % 100)?;
    }
    println!(rt;)?;
    Ok(())
}

/// Prints the table: milliseconds of a creation, by the pages of the zone.
pub fn print_all(
    rt: &(impl Print + Eprint + Clock),
    alloc: Global,
    is_watched: bool,
) -> anyhow::Result<()> {
    let mut steps = begun(rt, TASK, MEASUREMENTS, is_watched);
    println!(rt;
        "{:<40}{:>12}{:>12}{:>12}",
        "milliseconds of a making", "65536 pages", "1048576", "16777216"
    )?;
    for number in LARGEST {
        if let Some(largest) = Largest::new(number) {
            let name = format!(in alloc; "a zone of largest order {number}")?;
            print_times(rt, alloc, &mut steps, name.as_str(), Made::Zone(largest))?;
        }
    }
    print_times(rt, alloc, &mut steps, "a worker's share", Made::Share)
}
