//! Sections on a zone behind its lock, by what the zone keeps of them.

ghost use Rattle.std.specs.Prelude.{◌≡◌, [], All, IfOk};
ghost use Rattle.zp_zone.specs.Seats.{IsSeatOf, IsUnused};

use crate::threads::{PairsPlan, PairsStint, TimedWork, time_as};
use std::alloc::Global;
use std::marker::Brand;
use std::rt::Clock;
use std::sync::Wait;
use std::thread::Threads;
use zp_journal::Journal;
use zp_loads::{Unmade, config};
use zp_shared::{CutJournal, NoJournal, OpenedZone, WholeJournal};
use zp_zone::{Seat, Zone};

/// The room of a zone's journal, where it has one: the most sections.
pub const SECTIONS: u32 = 65_536;

/// What a zone keeps of its sections.
#[derive(Clone, Copy, PartialEq, Eq, Debug, Drop)]
pub enum Kept {
    /// All of them.
    Whole,
    /// None of them.
    Nothing,
    /// Those since its journal was cut. Nobody cuts it here, so it is one piece.
    Pieces,
}

/// Each choice.
pub const KEPT: [Kept; 3] = [Kept::Whole, Kept::Nothing, Kept::Pieces];

impl Kept {
    pub fn name(self) -> &'static str {
        match self {
            Kept::Whole => "whole journal",
            Kept::Nothing => "no journal",
            Kept::Pieces => "journal that is cut",
        }
    }

    /// How many sections there is room for, where that is bounded.
    pub fn room(self) -> Option<u32> {
        match self {
            Kept::Whole | Kept::Pieces => Some(SECTIONS),
            Kept::Nothing => None,
        }
    }
}

/// Over a zone with a journal of all its sections.
fn time_whole<R: Threads + Wait + Clock + Sync>(
    rt: &R,
    alloc: Global,
    zone: Zone,
    seats: Vec<Seat>,
    stint: &PairsStint,
) -> anyhow::Result<TimedWork>
    requires new { zone.entries ≡ [] }
    requires fits { All (IsSeatOf zone) seats.items }
    requires unused { All IsUnused seats.items }
{
    match OpenedZone::new(alloc, zone, SECTIONS) {
        Ok(opened) => time_as::<Brand, R, WholeJournal>(rt, alloc, opened, seats, stint),
        Err(refused) => Err(Unmade::from(refused).into()),
    }
}

/// Over a zone with no journal.
fn time_nothing<R: Threads + Wait + Clock + Sync>(
    rt: &R,
    alloc: Global,
    zone: Zone,
    seats: Vec<Seat>,
    stint: &PairsStint,
) -> anyhow::Result<TimedWork>
    requires new { zone.entries ≡ [] }
    requires fits { All (IsSeatOf zone) seats.items }
    requires unused { All IsUnused seats.items }
{
    match OpenedZone::without_journal(alloc, zone, u64::MAX) {
        Ok(opened) => time_as::<Brand, R, NoJournal>(rt, alloc, opened, seats, stint),
        Err(refused) => Err(Unmade::from(refused).into()),
    }
}

/// The zone with the first piece of its journal.
fn with_pieces(alloc: Global, zone: Zone) -> Result<OpenedZone<CutJournal>, Unmade>
    requires new { zone.entries ≡ [] }
    ensures zone { IfOk result (λ o. o.zone ≡ zone) }
{
    let journal = Journal::new(alloc, SECTIONS)?;
    Ok(OpenedZone::with_pieces(alloc, zone, journal, u64::MAX)?)
}

/// Over such a zone.
fn time_pieces<R: Threads + Wait + Clock + Sync>(
    rt: &R,
    alloc: Global,
    zone: Zone,
    seats: Vec<Seat>,
    stint: &PairsStint,
) -> anyhow::Result<TimedWork>
    requires new { zone.entries ≡ [] }
    requires fits { All (IsSeatOf zone) seats.items }
    requires unused { All IsUnused seats.items }
{
    match with_pieces(alloc, zone) {
        Ok(opened) => time_as::<Brand, R, CutJournal>(rt, alloc, opened, seats, stint),
        Err(unmade) => Err(unmade.into()),
    }
}

/// The plan over a zone of so many pages that keeps this, marks 0. Past its room a section is refused.
pub fn time<R: Threads + Wait + Clock + Sync>(
    rt: &R,
    alloc: Global,
    pages: u32,
    kept: Kept,
    plan: PairsPlan,
) -> anyhow::Result<TimedWork> {
    let stint = plan.stint()?;
    match Zone::wide(alloc, config(pages), plan.workers) {
        Ok((zone, seats)) => match kept {
            Kept::Whole => time_whole(rt, alloc, zone, seats, &stint),
            Kept::Nothing => time_nothing(rt, alloc, zone, seats, &stint),
            Kept::Pieces => time_pieces(rt, alloc, zone, seats, &stint),
        },
        Err(refused) => Err(Unmade::from(refused).into()),
    }
}
