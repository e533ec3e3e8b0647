//! A zone whose journal is cut again and again while its workers work; at the end the pieces are replayed, one after another.

ghost use Rattle.std.specs.Prelude.{◌≡◌, ◌∷◌, [], All, IfOk};
ghost use Rattle.zp_shared.specs.Rows.{opened_board, opened_key};
ghost use Rattle.zp_zone.specs.Seats.{IsSeatOf, IsUnused};

use crate::WORKERS;
use std::alloc::Global;
use std::marker::Brand;
use std::sync::Wait;
use std::thread::Threads;
use uses::{CutRun, PIECE, work_in_pieces};
use zp_journal::Journal;
use zp_loads::{Unmade, config};
use zp_progress::Progress;
use zp_share::ListConfig;
use zp_shared::{CutJournal, Naming, OpenedZone, ZoneCrew};
use zp_zone::{Seat, Zone};

/// How many pages each worker allocates and frees: two sections each. There is a cut after 180 to 190 sections.
const ROUNDS: u32 = 5000;

/// The fewest cuts that are wanted.
const CUTS: usize = 200;

/// The pages of the zone.
const PAGES: u32 = 1024;

/// The workers of these seats take a page and give it back, so many times.
fn run_as<J: Naming + Send + Sync, R: Threads + Wait + Sync>(
    rt: &R,
    alloc: Global,
    opened: OpenedZone<CutJournal>,
    seats: Vec<Seat>,
) -> Result<CutRun, Unmade>
    requires named { J.zones ≡ opened_key opened ∷ [] }
    requires boards { J.boards ≡ opened_board opened ∷ [] }
    requires fits { All (IsSeatOf opened.zone) seats.items }
    requires unused { All IsUnused seats.items }
{
    let crew = ZoneCrew::<J, CutJournal>::new(alloc, opened, seats, ListConfig::none())?;
    let ZoneCrew { zone, workers, .. } = crew;
    work_in_pieces(rt, alloc, config(PAGES), WORKERS, zone, workers, ROUNDS).ok_or(Unmade::Other)
}

/// The zone with its first journal, opened for threads, and the seats of its workers.
fn opened(alloc: Global) -> Result<(OpenedZone<CutJournal>, Vec<Seat>), Unmade>
    ensures fits { IfOk result (λ o. All (IsSeatOf o.0.zone) o.1.items) }
    ensures unused { IfOk result (λ o. All IsUnused o.1.items) }
{
    let journal = Journal::new(alloc, PIECE)?;
    let (zone, seats) = Zone::new(alloc, config(PAGES), WORKERS)?;
    Ok((
        OpenedZone::with_pieces(alloc, zone, journal, u64::MAX)?,
        seats,
    ))
}

/// Makes the zone, and has it work.
fn run<R: Threads + Wait + Sync>(rt: &R, alloc: Global) -> Result<CutRun, Unmade> {
    match opened(alloc) {
        Ok((opened, seats)) => run_as::<Brand, R>(rt, alloc, opened, seats),
        Err(unmade) => Err(unmade),
    }
}

/// Says whether there were cuts enough, and whether the pieces together are what was asked of the zone.
pub fn print<R: Print + Threads + Wait + Sync>(
    rt: &R,
    alloc: Global,
    progress: &mut impl Progress,
) -> anyhow::Result<()> {
    let run = run(rt, alloc)?;
    progress.clear();
    println!(rt;
        "{WORKERS} workers, a journal in pieces: {} cuts, pieces {}, free pages {}",
        if run.pieces.len() > CUTS {
            "200 and more"
        } else {
            "TOO FEW"
        },
        if run.replayed.is_some() {
            "legal"
        } else {
            "NOT LEGAL"
        },
        run.zone.counts().free
    )?;
    Ok(())
}
