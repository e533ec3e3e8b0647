//! Two workers, each in a thread of its own, over a zone that they share; and the zone's journal, replayed.
ghost use Rattle.std.specs.Prelude.{◌≡◌, ◌≤◌, ◌∷◌, [], All, IfOk, IfSome, length, map};
ghost use Rattle.zp_office.specs.Desks.{IsReady};
ghost use Rattle.zp_model.specs.declared.mark.Mark.TheVariants.{Low};
ghost use Rattle.zp_model.specs.declared.migrate_type.MigrateType.TheVariants.{Movable};
ghost use Rattle.zp_office.specs.declared.command.Command.{Command};
ghost use Rattle.zp_share.specs.Shares.{IsShareOf, key_of};
ghost use Rattle.zp_zone.specs.Seats.{ZoneState};

use std::alloc::Global;
use std::sync::Wait;
use std::thread::Threads;
use zp_crew::open_crew;
use zp_journal::{Journal, JournalCheck, replay_journal};
use zp_model::{Mark, MigrateType, Order, Refused};
use zp_office::{ClosedZones, Command, Desk, OpenGate, run_zones};
use zp_share::{ListConfig, Share};
use zp_zone::{Zone, ZoneConfig};

/// How many requests the journal has room for: two of each worker.
const ENTRIES: u32 = 4;

/// A zone that two workers shared.
#[derive(Clone, Copy, PartialEq, Eq, Debug, Drop)]
pub struct SharedRun {
    /// How many pages are free when both have ended.
    pub free_pages: u32,
    /// How many requests were made of the zone.
    pub requests: u32,
    /// Whether a new zone returns the same results for the same requests, in the same order.
    pub is_legal: bool,
}

/// What each worker does: it allocates a page and frees it.
fn script(alloc: Global) -> Result<Vec<Command>, Refused>
    ensures { IfOk result (λ s. s.items ≡ Command.Alloc 0 0 Movable 0 Low ∷ Command.Free 0 ∷ []) }
{
    let Ok(mut script) = Vec::with_capacity(alloc, 2) else {
        return Err(Refused::Memory);
    };
    script.push_reserved(Command::Alloc {
        slot: 0,
        order: Order::zero(),
        kind: MigrateType::Movable,
        zone: 0,
        mark: Mark::Low,
    });
    script.push_reserved(Command::Free { slot: 0 });
    Ok(script)
}

/// The desk of a worker of these zones, with its script.
fn desk(alloc: Global, zones: &[Zone], share: Share) -> Result<Desk, Refused>
    requires fits { IsShareOf (map key_of zones.now) share }
    requires some { 1 ≤ length zones.now }
    ensures { IfOk result (IsReady (map key_of zones.now)) }
{
    // the zones are named for the contract alone
    let _ = zones;
    match script(alloc) {
        Ok(script) => Desk::new(alloc, share, script),
        Err(refused) => Err(refused),
    }
}

/// The desks of the last two workers of these zones.
fn two_desks(alloc: Global, zones: &[Zone], mut shares: Vec<Share>) -> Option<(Desk, Desk)>
    requires fit { All (IsShareOf (map key_of zones.now)) shares.items }
    requires some { 1 ≤ length zones.now }
    ensures first { IfSome result (λ d. IsReady (map key_of zones.now) d.0) }
    ensures second { IfSome result (λ d. IsReady (map key_of zones.now) d.1) }
{
    let (Some(second), Some(first)) = (shares.pop(), shares.pop()) else {
        return None;
    };
    match (desk(alloc, zones, first), desk(alloc, zones, second)) {
        (Ok(first), Ok(second)) => Some((first, second)),
        _ => None,
    }
}

/// A row of one zone, and the desks of its two workers. None where the config is refused, or there is no memory.
fn opened(alloc: Global, config: ZoneConfig<'_>) -> Option<(Vec<Zone>, Desk, Desk)>
    ensures new { IfSome result (λ o. All (λ (z : ZoneState). z.entries ≡ []) o.0.items) }
    ensures first { IfSome result (λ o. IsReady (map key_of o.0.items) o.1) }
    ensures second { IfSome result (λ o. IsReady (map key_of o.0.items) o.2) }
{
    let configs = [ZoneConfig { ..config }];
    let crew = open_crew(alloc, &configs, 2, ListConfig::none()).ok()?;
    let zones = crew.zones;
    match two_desks(alloc, &zones, crew.shares) {
        Some((first, second)) => Some((zones, first, second)),
        None => None,
    }
}

/// The workers carry out their scripts: the zone after that, and its journal. None where there is no memory or no thread.
fn run<R: Threads + Wait + Sync>(
    rt: &R,
    alloc: Global,
    zones: Vec<Zone>,
    desks: &mut [Desk],
) -> Option<(Zone, Journal)>
    requires new { All (λ (z : ZoneState). z.entries ≡ []) zones.items }
    requires ready { All (IsReady (map key_of zones.items)) desks.old }
{
    match run_zones(rt, alloc, zones, ENTRIES, desks, &OpenGate) {
        Ok(closed) => last_of(closed),
        Err(_) => None,
    }
}

/// The last zone, and its journal.
fn last_of(closed: ClosedZones) -> Option<(Zone, Journal)> {
    let ClosedZones {
        mut zones,
        mut journals,
        ..
    } = closed;
    match (zones.pop(), journals.pop()) {
        (Some(zone), Some(journal)) => Some((zone, journal)),
        _ => None,
    }
}

/// Reports on the zone that the workers shared. None where there is no memory to replay its journal.
fn outcome(
    alloc: Global,
    config: ZoneConfig<'_>,
    zone: &Zone,
    journal: &Journal,
) -> Option<SharedRun> {
    let check = replay_journal(alloc, ZoneConfig { ..config }, 2, journal).ok()?;
    Some(SharedRun {
        free_pages: zone.counts().free,
        requests: journal.len(),
        is_legal: matches!(check, JournalCheck::Legal(_)),
    })
}

/// Two workers take a page each and give it back, at the same time; then the zone's journal is replayed. None where the config is
/// refused, or there is no memory or no thread.
pub fn share_a_zone<R: Threads + Wait + Sync>(
    rt: &R,
    alloc: Global,
    config: ZoneConfig<'_>,
) -> Option<SharedRun> {
    let (zones, first, second) = opened(alloc, ZoneConfig { ..config })?;
    let (zone, journal) = run(rt, alloc, zones, &mut [first, second])?;
    outcome(alloc, ZoneConfig { ..config }, &zone, &journal)
}
