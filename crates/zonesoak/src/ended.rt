//! A zone whose sections come to an end: where all their numbers are used up, each further request is refused. With 2^64 numbers that is
//! after some hundred years at best; here there are few.

ghost use Rattle.std.specs.Prelude.{◌≡◌, ◌∷◌, [], All};
ghost use Rattle.zp_shared.specs.Rows.{opened_board, opened_key};
ghost use Rattle.zp_zone.specs.Seats.{IsSeatOf, IsUnused};

use crate::WORKERS;
use crate::endless::endless;
use std::alloc::Global;
use std::marker::Brand;
use std::sync::Wait;
use std::thread::Threads;
use uses::{EndlessRun, work_without_end};
use zp_loads::Unmade;
use zp_progress::Progress;
use zp_share::ListConfig;
use zp_shared::{Naming, NoJournal, OpenedZone, ZoneCrew};
use zp_zone::Seat;

/// How many sections the zone has numbers for.
const SECTIONS: u64 = 1001;

/// The pages of the zone.
const PAGES: u32 = 1024;

/// The workers of these seats take a page and give it back, until they are refused.
fn run_as<J: Naming + Send + Sync, R: Threads + Wait + Sync>(
    rt: &R,
    alloc: Global,
    opened: OpenedZone<NoJournal>,
    seats: Vec<Seat>,
) -> Result<EndlessRun, Unmade>
    requires named { J.zones ≡ opened_key opened ∷ [] }
    requires boards { J.boards ≡ opened_board opened ∷ [] }
    requires fits { All (IsSeatOf opened.zone) seats.items }
    requires unused { All IsUnused seats.items }
{
    let crew = ZoneCrew::<J, NoJournal>::new(alloc, opened, seats, ListConfig::none())?;
    let ZoneCrew { zone, workers, .. } = crew;
    work_without_end(rt, zone, workers, u32::MAX).ok_or(Unmade::Other)
}

/// Makes the zone, and has its numbers used up.
fn run<R: Threads + Wait + Sync>(rt: &R, alloc: Global) -> Result<EndlessRun, Unmade> {
    match endless(alloc, PAGES, WORKERS, SECTIONS) {
        Ok((opened, seats)) => run_as::<Brand, R>(rt, alloc, opened, seats),
        Err(unmade) => Err(unmade),
    }
}

/// Prints how many sections were made. At the end each worker may have a page that it could not free.
pub fn print<R: Print + Threads + Wait + Sync>(
    rt: &R,
    alloc: Global,
    progress: &mut impl Progress,
) -> anyhow::Result<()> {
    let run = run(rt, alloc)?;
    progress.clear();
    println!(rt;
        "{WORKERS} workers, numbers for {SECTIONS} sections: {} sections, pages out {}",
        run.sections,
        if PAGES - WORKERS <= run.free_pages && run.free_pages < PAGES {
            "1 to 4"
        } else {
            "BAD"
        }
    )?;
    Ok(())
}
