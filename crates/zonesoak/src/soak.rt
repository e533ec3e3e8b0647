//! Ten million requests of four workers over one zone of 65,536 pages that keeps nothing of them, and a reader beside them; and as many
//! workers as a zone can have, which are more than a machine has processors for, at one lock.

ghost use Rattle.std.specs.Prelude.{◌≡◌, ◌∷◌, [], All};
ghost use Rattle.zp_shared.specs.Rows.{opened_board, opened_key};
ghost use Rattle.zp_zone.specs.Seats.{IsSeatOf, IsUnused};

use crate::endless::endless;
use crate::stint::{SoakStint, work};
use crate::watch::{BoardWatch, read_all_the_while};
use crate::{PARTS, WORKERS};
use std::alloc::Global;
use std::marker::Brand;
use std::sync::Wait;
use std::thread::{Threads, join, map_vec};
use zp_loads::Unmade;
use zp_model::{MAX_WORKERS, NARROW_PAGES};
use zp_progress::Progress;
use zp_share::ListConfig;
use zp_shared::{Naming, NoJournal, OneZone, OpenedZone, ZoneCrew};
use zp_zone::Seat;

/// How many workers a zone has, and how many requests each of them makes.
#[derive(Clone, Copy, PartialEq, Eq, Debug, Drop)]
pub struct SoakLoad {
    workers: u32,
    requests: u32,
}

/// What is asked of a zone, each load of a new one.
pub const LOADS: [SoakLoad; 2] = [
    SoakLoad {
        workers: WORKERS,
        requests: 2_500_000,
    },
    SoakLoad {
        workers: MAX_WORKERS,
        requests: 40_000,
    },
];

/// What was seen at the end.
#[derive(Clone, Copy, PartialEq, Eq, Debug, Drop)]
struct Soak {
    sections: u64,
    lent_pages: u64,
    free_pages: u64,
    watch: BoardWatch,
}

/// All that the workers leave.
fn all_of(stints: &[SoakStint]) -> SoakStint {
    let mut all = SoakStint {
        sections: 0,
        lent_pages: 0,
    };
    for stint in stints {
        all.sections = all.sections.saturating_add(stint.sections);
        all.lent_pages = all.lent_pages.saturating_add(stint.lent_pages);
    }
    all
}

/// What is seen of the zone when all its workers have ended.
fn end_of<J: Naming>(
    zone: OneZone<J, NoJournal>,
    stints: &[SoakStint],
    watch: BoardWatch,
) -> Result<Soak, Unmade> {
    let Some(zone) = zone.into_zone() else {
        return Err(Unmade::Other);
    };
    let SoakStint {
        sections,
        lent_pages,
    } = all_of(stints);
    Ok(Soak {
        sections,
        lent_pages,
        free_pages: u64::from(zone.close(&mut []).zone.counts().free),
        watch,
    })
}

/// The workers make their requests, all at the same time, and the reader reads all the while.
fn run_crew<J: Naming + Send + Sync, R: Threads + Wait + Sync>(
    rt: &R,
    crew: ZoneCrew<J, NoJournal>,
    load: SoakLoad,
) -> Result<Soak, Unmade> {
    let ZoneCrew {
        zone,
        workers,
        reader,
    } = crew;
    let requests = u64::from(load.requests) * u64::from(load.workers);
    let (stints, watch) = join(
        rt,
        || map_vec(
            rt,
            workers,
            &|worker| work(rt, worker, &zone, load.requests),
        ),
        || read_all_the_while(rt, reader, &zone, requests),
    );
    match stints {
        Ok(stints) => end_of(zone, stints.as_slice(), watch),
        Err(e) => Err(Unmade::from(e)),
    }
}

/// As `run`, under the name of the opened zone.
fn run_as<J: Naming + Send + Sync, R: Threads + Wait + Sync>(
    rt: &R,
    alloc: Global,
    opened: OpenedZone<NoJournal>,
    seats: Vec<Seat>,
    load: SoakLoad,
) -> Result<Soak, Unmade>
    requires named { J.zones ≡ opened_key opened ∷ [] }
    requires boards { J.boards ≡ opened_board opened ∷ [] }
    requires fits { All (IsSeatOf opened.zone) seats.items }
    requires unused { All IsUnused seats.items }
{
    let crew = ZoneCrew::<J, NoJournal>::new(alloc, opened, seats, ListConfig::none())?;
    run_crew(rt, crew, load)
}

/// Makes a zone, and all the requests of it.
fn run<R: Threads + Wait + Sync>(rt: &R, alloc: Global, load: SoakLoad) -> Result<Soak, Unmade> {
    match endless(alloc, NARROW_PAGES, load.workers, u64::MAX) {
        Ok((opened, seats)) => run_as::<Brand, R>(rt, alloc, opened, seats, load),
        Err(unmade) => Err(unmade),
    }
}

/// Says how many requests were made, and whether the pages add up and the readings were good: a line for each load.
pub fn print<R: Print + Threads + Wait + Sync>(
    rt: &R,
    alloc: Global,
    progress: &mut impl Progress,
) -> anyhow::Result<()> {
    for (part, load) in LOADS.iter().enumerate() {
        let seen = run(rt, alloc, *load)?;
        progress.clear();
        println!(rt;
            "{} workers, no journal: {} sections, free and lent pages {}, last place read {}, readings {}",
            load.workers,
            seen.sections,
            seen.free_pages.saturating_add(seen.lent_pages),
            seen.watch.place,
            if seen.watch.are_good { "good" } else { "BAD" }
        )?;
        progress.at(part + 1, PARTS);
    }
    Ok(())
}
