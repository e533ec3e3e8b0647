//! A worker's own lists. What asks no zone wants no lock.
ghost use Rattle.std.specs.Prelude.{◌≡◌, ◌<◌, ◌⊎◌, ◌↔◌, [], IfErr, IfOk};
ghost use Rattle.zp_model.specs.declared.request.Reply.TheVariants as reply;
ghost use Rattle.zp_share.specs.Shares.{share_at};
ghost use Rattle.zp_share.specs.ZoneShares.{cached_of};
ghost use Rattle.zp_gate.specs.GatedWorkers.{HasZone, IsAt, IsTaken, worker_share};
ghost use Rattle.zonealloc.specs.Calls.{AsksDrain, AsksRefill, HasNotSoMany, HasNoZone, IsAsking, IsAtZone, IsCall, IsDenied, IsDrainAllCall, IsOf, IsPages, IsPutCall, IsRefillDenied, IsRefusedOrBusy, IsTakeCall, TellsCached, TellsLent};
ghost use Rattle.zonealloc.specs.Numbers.{IsNoMark, IsNoOrder, IsNoType};

use crate::answers::{
    BAD_ARGUMENT, BAD_HANDLE, DONE, LIST_EMPTY, call_error, kind_of, mark_of, order_of,
};
use crate::handles::WorkerHandle;
use zp_model::{MigrateType, PageNo};

/// The page in front of the worker's list of this type, which is then lent.
#[unsafe(no_mangle)]
pub extern "C" fn zonealloc_take(
    worker: &mut WorkerHandle,
    zone: u32,
    kind: u32,
    page: &mut u32,
) -> u32
    ensures call { IsTakeCall zone kind result page.old page.new worker.old.slot.value worker.new.slot.value }
    ensures denied { IsDenied (IsNoType kind) (HasNoZone zone) (λ n. n ≡ 44) result worker.old.slot.value }
{
    let Some(kind) = kind_of(kind) else {
        return BAD_ARGUMENT;
    };
    if !worker.is_live() {
        return BAD_HANDLE;
    }
    let held = worker.slot.held();
    if zone as usize >= held.zones() {
        return BAD_ARGUMENT;
    }
    match held.take(zone as usize, kind) {
        Some(first) => {
            *page = first.number();
            DONE
        }
        None => LIST_EMPTY,
    }
}

/// A lent page to the front of the worker's list of its type.
#[tactic(auto, using(crate::proofs::Putting::put_denied, crate::proofs::Putting::put_number_of, crate::proofs::Putting::put_lists))]
#[unsafe(no_mangle)]
pub extern "C" fn zonealloc_put(worker: &mut WorkerHandle, zone: u32, page: u32) -> u32
    ensures call { IsPutCall zone page result worker.old.slot.value worker.new.slot.value }
    ensures denied { IsDenied ⊥ (HasNoZone zone) (λ n. (n < 40) ⊎ (n ≡ 46)) result worker.old.slot.value }
    ensures lists { (result ≡ 46) ↔ IsOf (IsAtZone zone (λ s. s.batch ≡ 0)) worker.old.slot.value }
{
    if !worker.is_live() {
        return BAD_HANDLE;
    }
    let held = worker.slot.held();
    if zone as usize >= held.zones() {
        return BAD_ARGUMENT;
    }
    match held.put(zone as usize, PageNo::new(page)) {
        Ok(()) => DONE,
        Err(why) => call_error(why),
    }
}

/// Whether the block is lent to the worker with this order: 1 or 0.
#[unsafe(no_mangle)]
pub extern "C" fn zonealloc_is_lent(
    worker: &mut WorkerHandle,
    zone: u32,
    page: u32,
    order: u32,
    lent: &mut u32,
) -> u32
    ensures call { IsAsking (TellsLent zone page order) result lent.old lent.new worker.old.slot.value worker.new.slot.value }
    ensures denied { IsDenied (IsNoOrder order) (HasNoZone zone) (λ n. ⊥) result worker.old.slot.value }
{
    let Some(order) = order_of(order) else {
        return BAD_ARGUMENT;
    };
    if !worker.is_live() {
        return BAD_HANDLE;
    }
    let held = worker.slot.held();
    if zone as usize >= held.zones() {
        return BAD_ARGUMENT;
    }
    let is_lent = held.is_lent(zone as usize, PageNo::new(page), order);
    *lent = u32::from(is_lent);
    DONE
}

/// How many pages the worker's list of this type has.
#[unsafe(no_mangle)]
pub extern "C" fn zonealloc_cached(
    worker: &mut WorkerHandle,
    zone: u32,
    kind: u32,
    pages: &mut u32,
) -> u32
    ensures call { IsAsking (TellsCached zone kind) result pages.old pages.new worker.old.slot.value worker.new.slot.value }
    ensures denied { IsDenied (IsNoType kind) (HasNoZone zone) (λ n. ⊥) result worker.old.slot.value }
{
    let Some(kind) = kind_of(kind) else {
        return BAD_ARGUMENT;
    };
    if !worker.is_live() {
        return BAD_HANDLE;
    }
    let held = worker.slot.held();
    if zone as usize >= held.zones() {
        return BAD_ARGUMENT;
    }
    let cached = held.cached_len(zone as usize, kind);
    *pages = cached as u32;
    DONE
}

/// Fills the worker's empty list of this type with up to a batch of pages.
#[tactic(auto, using(crate::proofs::Answering::denied_at))]
#[unsafe(no_mangle)]
pub extern "C" fn zonealloc_refill(
    worker: &mut WorkerHandle,
    zone: u32,
    kind: u32,
    mark: u32,
) -> u32
    ensures call { IsCall (AsksRefill zone kind mark) IsPages (Unit {0}) zone result worker.old.slot.value worker.new.slot.value }
    ensures denied { IsDenied (IsNoType kind ⊎ IsNoMark mark) (HasNoZone zone) (λ n. IsRefusedOrBusy n ⊎ ((n ≡ 45) ⊎ (n ≡ 46))) result worker.old.slot.value }
    ensures lists { IsRefillDenied zone kind ((¬ IsNoType kind) × (¬ IsNoMark mark)) result worker.old.slot.value }
{
    let Some(kind) = kind_of(kind) else {
        return BAD_ARGUMENT;
    };
    let Some(mark) = mark_of(mark) else {
        return BAD_ARGUMENT;
    };
    if !worker.is_live() {
        return BAD_HANDLE;
    }
    let held = worker.slot.held();
    match held.refill(zone as usize, kind, mark) {
        Ok(()) => DONE,
        Err(why) => call_error(why),
    }
}

/// Frees so many pages from the back of the worker's list of this type.
#[unsafe(no_mangle)]
pub extern "C" fn zonealloc_drain(
    worker: &mut WorkerHandle,
    zone: u32,
    kind: u32,
    count: u32,
) -> u32
    ensures call { IsCall (AsksDrain zone kind count) (λ q. q ≡ reply.Drained) (Unit {0}) zone result worker.old.slot.value worker.new.slot.value }
    ensures denied { IsDenied (IsNoType kind) (HasNotSoMany zone kind count) IsRefusedOrBusy result worker.old.slot.value }
{
    let Some(kind) = kind_of(kind) else {
        return BAD_ARGUMENT;
    };
    if !worker.is_live() {
        return BAD_HANDLE;
    }
    let held = worker.slot.held();
    match held.drain(zone as usize, kind, count as usize) {
        Ok(()) => DONE,
        Err(why) => call_error(why),
    }
}

/// Frees all pages of the worker's lists of this zone, a list at a time. Where it does not return 0 the lists before the one that was
/// refused are empty, and the rest is unchanged.
#[unsafe(no_mangle)]
pub extern "C" fn zonealloc_drain_all(worker: &mut WorkerHandle, zone: u32) -> u32
    ensures call { IsDrainAllCall zone result worker.old.slot.value worker.new.slot.value }
    ensures denied { IsDenied ⊥ (HasNoZone zone) (λ n. (n ≡ 30) ⊎ (n ≡ 42)) result worker.old.slot.value }
{
    if !worker.is_live() {
        return BAD_HANDLE;
    }
    let held = worker.slot.held();
    match held.drain_all(zone as usize) {
        Ok(()) => DONE,
        Err(why) => call_error(why),
    }
}
