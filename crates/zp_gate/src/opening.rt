//! The opening of a row: its zones behind their locks, and its workers.
ghost use Rattle.std.specs.Prelude.{ℕ, ◌≡◌, ◌<◌, ◌+◌, ◌↔◌, true, All, IfErr, IfOk, IsOk, IsSome, OnOk, length, map};
ghost use Rattle.zp_model.specs.Bounds.{IsCrew};
ghost use Rattle.zp_model.specs.declared.refused.Refused.TheVariants.{Memory};
ghost use Rattle.zp_zone.specs.Making.{IsWideWhy};
ghost use Rattle.std.specs.Arc.{arc_value};
ghost use Rattle.zp_zone.specs.Seats.{IsUnused};
ghost use Rattle.zp_gate.specs.GatedZones.{IsSeatBy};
ghost use Rattle.zp_gate.specs.GatedRows.{HaveBoards, IsGoodConfig, IsWhyNoRow, key_for, lock_key, untied, wanted_by};
ghost use Rattle.zp_gate.specs.GatedWorkers.{AllDown, AreInOrder, IsNewWorker};

use crate::gate_facts::GateFacts;
use crate::gated_row::GatedRow;
use crate::gated_share::GatedShare;
use crate::gated_worker::GatedWorker;
use crate::publishing::board_of;
use crate::try_lock::{TryLock, shut_in};
use std::alloc::Global;
use std::sync::Arc;
use zp_model::{Name, Refused};
use zp_share::ListConfig;
use zp_zone::{Seat, Zone, ZoneConfig};

/// A zone of a row while the row is made: its lock, and the seats that no worker has yet.
#[derive(Drop)]
struct OpenedZone {
    lock: Arc<TryLock, Global>,
    seats: Vec<Seat>,
    ghost order: { AreInOrder seats.items },
    ghost unused: { All IsUnused seats.items },
    ghost of: { All (IsSeatBy (lock_key (arc_value lock)).zone) seats.items },
}

/// A row of zones, each with all its pages free and with a board for its counts or without, and its workers, the one of the highest number
/// first.
pub fn open_row(
    alloc: Global,
    configs: &[ZoneConfig<'_>],
    workers: u32,
    lists: ListConfig,
    boards: bool,
) -> Result<(GatedRow, Vec<Box<GatedWorker>>), Refused>
    requires crew { IsCrew workers }
    ensures good { OnOk result (All (IsGoodConfig workers) configs.now) }
    ensures why { IfErr result (IsWhyNoRow workers configs.now) }
    ensures keys { IfOk result (λ r. map untied r.0 ≡ map (key_for workers) configs.now) }
    ensures boards { IfOk result (λ r. HaveBoards boards r.0) }
    ensures crew { IfOk result (λ r. length r.1.items ≡ workers) }
    ensures new { IfOk result (λ r. AllDown (λ w b. IsNewWorker w lists.batch lists.high_len r.0 b.value) workers r.1.items) }
{
    let mut zones = opened_zones(alloc, configs, workers, boards)?;
    let crew = crew_of(alloc, zones.as_mut_slice(), workers, lists)?;
    let Ok(mut locks) = Vec::with_capacity(alloc, zones.len()) else {
        return Err(Refused::Memory);
    };
    for zone in zones {
        locks.push_reserved(zone.lock);
    }
    Ok((GatedRow { locks }, crew))
}

/// The zones of a row, with all their seats.
fn opened_zones(
    alloc: Global,
    configs: &[ZoneConfig<'_>],
    workers: u32,
    boards: bool,
) -> Result<Vec<OpenedZone>, Refused>
    requires crew { IsCrew workers }
    ensures good { OnOk result (All (IsGoodConfig workers) configs.now) }
    ensures why { IfErr result (IsWhyNoRow workers configs.now) }
    ensures zones { IfOk result (λ zs. length zs.items ≡ length configs.now) }
    ensures keys { IfOk result (λ zs. map untied (map (λ z. lock_key (arc_value z.lock)) zs.items) ≡ map (key_for workers) configs.now) }
    ensures boards { IfOk result (λ zs. HaveBoards boards (map (λ z. lock_key (arc_value z.lock)) zs.items)) }
    ensures seats { IfOk result (λ zs. All (λ z. length z.seats.items ≡ workers) zs.items) }
{
    let Ok(mut zones) = Vec::with_capacity(alloc, configs.len()) else {
        return Err(Refused::Memory);
    };
    for config in configs {
        match opened_zone(alloc, config, workers, boards) {
            Ok(zone) => zones.push_reserved(zone),
            Err(why) => return Err(why),
        }
    }
    Ok(zones)
}

/// One zone behind its lock, and its seats.
fn opened_zone(
    alloc: Global,
    config: &ZoneConfig<'_>,
    workers: u32,
    boards: bool,
) -> Result<OpenedZone, Refused>
    requires crew { IsCrew workers }
    ensures good { OnOk result (IsGoodConfig workers config.now) }
    ensures why { IfErr result (IsWideWhy (wanted_by workers config.now)) }
    ensures key { IfOk result (λ z. untied (lock_key (arc_value z.lock)) ≡ key_for workers config.now) }
    ensures board { IfOk result (λ z. IsSome (lock_key (arc_value z.lock)).board ↔ (boards ≡ true)) }
    ensures seats { IfOk result (λ z. length z.seats.items ≡ workers) }
{
    let Some(name) = Name::new(config.name.as_bytes()) else {
        return Err(Refused::BadName);
    };
    let (zone, mut seats) = Zone::wide(alloc, ZoneConfig { ..*config }, workers)?;
    let Some(seat) = seats.pop() else {
        unreachable!()
    };
    let (board, publisher) = board_of(alloc, &zone, boards)?;
    let key = GateFacts {
        seat,
        name,
        base: config.base,
        pages: config.pages,
        min: config.min,
        largest: config.largest,
        workers,
        board,
    };
    let table = shut_in(alloc, zone, publisher, &key)?;
    seats.push_reserved(key.seat);
    let lock = TryLock::of(
        table,
        key.board,
        key.base,
        key.pages,
        key.largest,
        key.workers,
    );
    let Ok(lock) = Arc::new(alloc, lock) else {
        return Err(Refused::Memory);
    };
    Ok(OpenedZone { lock, seats })
}

/// So many workers, the last one first.
fn crew_of(
    alloc: Global,
    zones: &mut [OpenedZone],
    workers: u32,
    lists: ListConfig,
) -> Result<Vec<Box<GatedWorker>>, Refused>
    requires seats { All (λ z. length z.seats.items ≡ workers) zones.old }
    ensures why { IfErr result (λ e. e ≡ Memory) }
    ensures keys { IfOk result (λ _. map (λ z. lock_key (arc_value z.lock)) zones.new ≡ map (λ z. lock_key (arc_value z.lock)) zones.old) }
    ensures crew { IfOk result (λ crew. length crew.items ≡ workers) }
    ensures new { IfOk result (λ crew. AllDown (λ w b. IsNewWorker w lists.batch lists.high_len (map (λ z. lock_key (arc_value z.lock)) zones.old) b.value) workers crew.items) }
{
    let Ok(mut crew) = Vec::with_capacity(alloc, workers as usize) else {
        return Err(Refused::Memory);
    };
    for _ in 0..workers {
        let worker = next_worker(alloc, zones, lists)?;
        let Ok(worker) = Box::new(alloc, worker) else {
            return Err(Refused::Memory);
        };
        crew.push_reserved(worker);
    }
    Ok(crew)
}

/// The worker of the last seats that are left, of which each zone has as many.
fn next_worker(
    alloc: Global,
    zones: &mut [OpenedZone],
    lists: ListConfig,
) -> Result<GatedWorker, Refused>
    requires { All (λ z. 0 < length z.seats.items) zones.old }
    ensures why { IfErr result (λ e. e ≡ Memory) }
    ensures keys { IfOk result (λ _. map (λ z. lock_key (arc_value z.lock)) zones.new ≡ map (λ z. lock_key (arc_value z.lock)) zones.old) }
    ensures new { IfOk result (λ v. (w : ℕ) → All (λ z. length z.seats.items ≡ w + 1) zones.old → IsNewWorker w lists.batch lists.high_len (map (λ z. lock_key (arc_value z.lock)) zones.old) v) }
    ensures left { IsOk result → (w : ℕ) → All (λ z. length z.seats.items ≡ w + 1) zones.old → All (λ z. length z.seats.items ≡ w) zones.new }
{
    let Ok(mut shares) = Vec::with_capacity(alloc, zones.len()) else {
        return Err(Refused::Memory);
    };
    let Ok(left) = Vec::with_capacity(alloc, zones.len()) else {
        return Err(Refused::Memory);
    };
    for zone in zones {
        let Some(seat) = zone.seats.pop() else {
            unreachable!()
        };
        shares.push_reserved(GatedShare::new(alloc, &zone.lock, seat, lists)?);
    }
    Ok(GatedWorker { shares, left })
}
