//! What a worker asks of the zones of its row.
ghost use Rattle.std.specs.Prelude.{◌≡◌, ◌⊎◌};
ghost use Rattle.zp_model.specs.declared.request.Request.TheVariants as request;
ghost use Rattle.zp_model.specs.declared.request.Reply.TheVariants as reply;
ghost use Rattle.zonealloc.specs.Calls.{Asks, AsksAlloc, AsksRelease, HasNoWorker, HasNoZone, IsBlockAt, IsCall, IsDenied, IsLentDenied, IsRefusedOrBusy, IsTold};
ghost use Rattle.zonealloc.specs.Numbers.{IsNoMark, IsNoOrder, IsNoType, IsNoWorker};

use crate::answers::{BAD_ARGUMENT, DONE, kind_of, mark_of, number_of, order_of, origin_number};
use crate::asking::{ask, ask_alloc, ask_free, ask_told};
use crate::handles::WorkerHandle;
use zp_gate::{Given, ZoneCall};
use zp_model::PageNo;

/// A block of 2 to the order pages, which is then lent: its first page.
#[tactic(auto, using(crate::proofs::Answering::denied_call, crate::proofs::Answering::denied_by))]
#[unsafe(no_mangle)]
pub extern "C" fn zonealloc_alloc(
    worker: &mut WorkerHandle,
    zone: u32,
    order: u32,
    kind: u32,
    mark: u32,
    page: &mut u32,
) -> u32
    ensures call { IsCall (AsksAlloc order kind mark) (λ q. q ≡ reply.Page page.new) (page.new ≡ page.old) zone result worker.old.slot.value worker.new.slot.value }
    ensures denied { IsDenied (IsNoOrder order ⊎ (IsNoType kind ⊎ IsNoMark mark)) (HasNoZone zone) IsRefusedOrBusy result worker.old.slot.value }
{
    let Some(order) = order_of(order) else {
        return BAD_ARGUMENT;
    };
    let Some(kind) = kind_of(kind) else {
        return BAD_ARGUMENT;
    };
    let Some(mark) = mark_of(mark) else {
        return BAD_ARGUMENT;
    };
    match ask_alloc(worker, zone, order, kind, mark) {
        Ok(first) => {
            *page = first.number();
            DONE
        }
        Err(why) => why,
    }
}

/// As `zonealloc_alloc`, and where the block came from: 0, a list of its own type; 1, another type's, whose pageblock was claimed; 2, another
/// type's, borrowed.
#[tactic(auto, using(crate::proofs::Answering::denied_call, crate::proofs::Answering::denied_by))]
#[unsafe(no_mangle)]
pub extern "C" fn zonealloc_alloc_told(
    worker: &mut WorkerHandle,
    zone: u32,
    order: u32,
    kind: u32,
    mark: u32,
    page: &mut u32,
    origin: &mut u32,
) -> u32
    ensures call { IsCall (AsksAlloc order kind mark) (λ q. q ≡ reply.Page page.new) ((page.new ≡ page.old) × (origin.new ≡ origin.old)) zone result worker.old.slot.value worker.new.slot.value }
    ensures told { IsTold order kind mark page.new origin.new zone result worker.old.slot.value worker.new.slot.value }
    ensures denied { IsDenied (IsNoOrder order ⊎ (IsNoType kind ⊎ IsNoMark mark)) (HasNoZone zone) IsRefusedOrBusy result worker.old.slot.value }
{
    let Some(order) = order_of(order) else {
        return BAD_ARGUMENT;
    };
    let Some(kind) = kind_of(kind) else {
        return BAD_ARGUMENT;
    };
    let Some(mark) = mark_of(mark) else {
        return BAD_ARGUMENT;
    };
    match ask_told(worker, zone, order, kind, mark) {
        Ok(told) => {
            *page = told.page.number();
            *origin = origin_number(told.origin);
            DONE
        }
        Err(why) => why,
    }
}

/// The lowest free block of this order, which is then lent: its first page.
#[tactic(auto, using(crate::proofs::Answering::denied_call, crate::proofs::Answering::denied_by))]
#[unsafe(no_mangle)]
pub extern "C" fn zonealloc_alloc_low(
    worker: &mut WorkerHandle,
    zone: u32,
    order: u32,
    page: &mut u32,
) -> u32
    ensures call { IsCall (Asks (request.AllocLow order)) (IsBlockAt page.new order) (page.new ≡ page.old) zone result worker.old.slot.value worker.new.slot.value }
    ensures denied { IsDenied (IsNoOrder order) (HasNoZone zone) IsRefusedOrBusy result worker.old.slot.value }
{
    let Some(order) = order_of(order) else {
        return BAD_ARGUMENT;
    };
    match ask(worker, zone, ZoneCall::AllocLow(order)) {
        Ok(Given::Block(block)) => {
            *page = block.page.number();
            DONE
        }
        Ok(_) => unreachable!(),
        Err(why) => why,
    }
}

/// Frees a lent block.
#[tactic(auto, using(crate::proofs::Answering::denied_call, crate::proofs::Answering::denied_by))]
#[unsafe(no_mangle)]
pub extern "C" fn zonealloc_free(worker: &mut WorkerHandle, zone: u32, page: u32, order: u32) -> u32
    ensures call { IsCall (Asks (request.Free page order)) (λ q. q ≡ reply.Freed) (Unit {0}) zone result worker.old.slot.value worker.new.slot.value }
    ensures denied { IsDenied (IsNoOrder order) (HasNoZone zone) IsRefusedOrBusy result worker.old.slot.value }
    ensures lent { IsLentDenied zone (request.Free page order) (¬ IsNoOrder order) result worker.old.slot.value }
{
    let Some(order) = order_of(order) else {
        return BAD_ARGUMENT;
    };
    match ask_free(worker, zone, PageNo::new(page), order) {
        Ok(()) => DONE,
        Err(why) => why,
    }
}

/// Posts a lent block to the worker of this number.
#[tactic(auto, using(crate::proofs::Answering::denied_call, crate::proofs::Answering::denied_by))]
#[unsafe(no_mangle)]
pub extern "C" fn zonealloc_post(
    worker: &mut WorkerHandle,
    zone: u32,
    page: u32,
    order: u32,
    to: u32,
) -> u32
    ensures call { IsCall (Asks (request.Post page order to)) (λ q. q ≡ reply.Posted) (Unit {0}) zone result worker.old.slot.value worker.new.slot.value }
    ensures denied { IsDenied (IsNoOrder order ⊎ IsNoWorker to) (HasNoWorker zone to) IsRefusedOrBusy result worker.old.slot.value }
    ensures lent { IsLentDenied zone (request.Post page order to) ((¬ IsNoOrder order) × (¬ IsNoWorker to)) result worker.old.slot.value }
{
    let Some(order) = order_of(order) else {
        return BAD_ARGUMENT;
    };
    let Some(to) = number_of(to) else {
        return BAD_ARGUMENT;
    };
    let call = ZoneCall::Post(PageNo::new(page), order, to);
    match ask(worker, zone, call) {
        Ok(Given::Done) => DONE,
        Ok(_) => unreachable!(),
        Err(why) => why,
    }
}

/// The block in front of those posted to the worker, which is then lent: its first page, and its order.
#[tactic(auto, using(crate::proofs::Answering::denied_call, crate::proofs::Answering::denied_by))]
#[unsafe(no_mangle)]
pub extern "C" fn zonealloc_collect(
    worker: &mut WorkerHandle,
    zone: u32,
    page: &mut u32,
    order: &mut u32,
) -> u32
    ensures call { IsCall (Asks request.Collect) (IsBlockAt page.new order.new) ((page.new ≡ page.old) × (order.new ≡ order.old)) zone result worker.old.slot.value worker.new.slot.value }
    ensures denied { IsDenied ⊥ (HasNoZone zone) IsRefusedOrBusy result worker.old.slot.value }
{
    match ask(worker, zone, ZoneCall::Collect) {
        Ok(Given::Block(block)) => {
            *page = block.page.number();
            *order = u32::from(block.order.number());
            DONE
        }
        Ok(_) => unreachable!(),
        Err(why) => why,
    }
}

/// Isolates a pageblock, by its number in the zone.
#[tactic(auto, using(crate::proofs::Answering::denied_call, crate::proofs::Answering::denied_by))]
#[unsafe(no_mangle)]
pub extern "C" fn zonealloc_isolate(worker: &mut WorkerHandle, zone: u32, pageblock: u32) -> u32
    ensures call { IsCall (Asks (request.Isolate pageblock)) (λ q. q ≡ reply.Isolated) (Unit {0}) zone result worker.old.slot.value worker.new.slot.value }
    ensures denied { IsDenied ⊥ (HasNoZone zone) IsRefusedOrBusy result worker.old.slot.value }
{
    match ask(worker, zone, ZoneCall::Isolate(pageblock)) {
        Ok(Given::Done) => DONE,
        Ok(_) => unreachable!(),
        Err(why) => why,
    }
}

/// Gives an isolated pageblock a type.
#[tactic(auto, using(crate::proofs::Answering::denied_call, crate::proofs::Answering::denied_by))]
#[unsafe(no_mangle)]
pub extern "C" fn zonealloc_release(
    worker: &mut WorkerHandle,
    zone: u32,
    pageblock: u32,
    kind: u32,
) -> u32
    ensures call { IsCall (AsksRelease pageblock kind) (λ q. q ≡ reply.Released) (Unit {0}) zone result worker.old.slot.value worker.new.slot.value }
    ensures denied { IsDenied (IsNoType kind) (HasNoZone zone) IsRefusedOrBusy result worker.old.slot.value }
{
    let Some(kind) = kind_of(kind) else {
        return BAD_ARGUMENT;
    };
    match ask(worker, zone, ZoneCall::Release(pageblock, kind)) {
        Ok(Given::Done) => DONE,
        Ok(_) => unreachable!(),
        Err(why) => why,
    }
}
