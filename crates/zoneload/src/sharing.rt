//! A zone that four workers share, whatever it keeps of their requests, and the replay of its journal.

ghost use Rattle.std.specs.Prelude.{◌≡◌, ◌∷◌, [], All};
ghost use Rattle.zp_shared.specs.Rows.{opened_board, opened_key};
ghost use Rattle.zp_zone.specs.Seats.{IsSeatOf, IsUnused};

use crate::crew::{Left, WORKERS, crew_of, work_all};
use crate::digest::Digest;
use crate::errors::Broken;
use crate::memory::DigestWriter;
use crate::sources::config;
use std::alloc::Global;
use std::marker::Brand;
use std::sync::Wait;
use std::thread::Threads;
use zp_journal::{Journal, JournalCheck, replay_journal};
use zp_shared::{Closed, CutJournal, Keeps, Naming, NoJournal, OpenedZone, WholeJournal};
use zp_text::write_journal;
use zp_zone::{Seat, Zone};

/// The requests of a worker of a zone that goes on without end.
const ENDLESS: u32 = 100_000;

/// The requests of a worker of a zone with a journal: four workers fill one that has as much room as there can be.
const JOURNALED: u32 = 16_384;

/// The room of a journal.
const ENTRIES: u32 = 65_536;

/// What the workers leave, whoever came first.
fn digest_of<K: Keeps>(left: &Left<K>) -> u64 {
    let mut digest = Digest::new();
    for stint in left.stints.as_slice() {
        digest.add(stint.sections);
        digest.add(stint.lent_pages);
        digest.add(stint.bad_readings);
    }
    digest.add(u64::from(left.closed.zone.counts().free));
    digest.value()
}

/// The workers of these seats make so many requests each.
fn run_as<J: Naming + Send + Sync, K: Keeps + Send + Sync, R: AllocGlobal + Threads + Wait + Sync>(
    rt: &R,
    opened: OpenedZone<K>,
    seats: Vec<Seat>,
    seed: u64,
    requests: u32,
) -> Result<Left<K>, Broken>
    requires named { J.zones ≡ opened_key opened ∷ [] }
    requires boards { J.boards ≡ opened_board opened ∷ [] }
    requires fits { All (IsSeatOf opened.zone) seats.items }
    requires unused { All IsUnused seats.items }
{
    match crew_of::<J, K>(rt.alloc(), opened, seats, seed) {
        Ok(crew) => work_all(rt, crew, requests),
        Err(e) => Err(e),
    }
}

/// Over a zone that keeps nothing: a digest of what is left.
fn run_endless<R: AllocGlobal + Threads + Wait + Sync>(rt: &R, seed: u64) -> Result<u64, Broken> {
    let (zone, seats) = Zone::new(rt.alloc(), config(), WORKERS)?;
    let opened = OpenedZone::without_journal(rt.alloc(), zone, u64::MAX)?;
    let left = run_as::<Brand, NoJournal, R>(rt, opened, seats, seed, ENDLESS)?;
    Ok(digest_of(&left))
}

/// A zone that is asked the same answers the same: a digest of how much is written of it.
fn replayed(alloc: Global, journal: &Journal) -> Result<u64, Broken> {
    let JournalCheck::Legal(zone) = replay_journal(alloc, config(), WORKERS, journal)? else {
        return Err(Broken::Journal);
    };
    let mut writer = DigestWriter::new();
    if write_journal(&mut writer, "Normal", journal).is_err() {
        return Err(Broken::Journal);
    }
    Ok(writer.lines() ^ u64::from(zone.counts().free) << 32)
}

/// Over a zone with a journal that is cut, here never before the end: a digest of what is left, and of the journal's replay.
fn run_pieces<R: AllocGlobal + Threads + Wait + Sync>(rt: &R, seed: u64) -> Result<u64, Broken> {
    let (zone, seats) = Zone::new(rt.alloc(), config(), WORKERS)?;
    let journal = Journal::new(rt.alloc(), ENTRIES)?;
    let opened = OpenedZone::with_pieces(rt.alloc(), zone, journal, u64::MAX)?;
    let left = run_as::<Brand, CutJournal, R>(rt, opened, seats, seed, JOURNALED)?;
    let digest = digest_of(&left);
    let Left { closed, .. } = left;
    let Closed { journal, .. } = closed;
    let journal = journal.into_journal();
    Ok(digest ^ replayed(rt.alloc(), &journal)?)
}

/// Over a zone with a journal of all that is asked: a digest of what is left, and of the journal's replay.
fn run_whole<R: AllocGlobal + Threads + Wait + Sync>(rt: &R, seed: u64) -> Result<u64, Broken> {
    let (zone, seats) = Zone::new(rt.alloc(), config(), WORKERS)?;
    let opened = OpenedZone::new(rt.alloc(), zone, ENTRIES)?;
    let left = run_as::<Brand, WholeJournal, R>(rt, opened, seats, seed, JOURNALED)?;
    let digest = digest_of(&left);
    Ok(digest ^ replayed(rt.alloc(), &left.closed.journal)?)
}

/// So many rounds, each on zones that are made anew.
pub fn share<R: AllocGlobal + Threads + Wait + Sync>(
    rt: &R,
    rounds: u32,
    seed: u64,
) -> anyhow::Result<Digest> {
    let mut digest = Digest::new();
    for round in 0..rounds {
        let seed = seed.wrapping_add(u64::from(round) << 32);
        digest.add(run_endless(rt, seed)?);
        digest.add(run_pieces(rt, seed)?);
        digest.add(run_whole(rt, seed)?);
    }
    Ok(digest)
}
