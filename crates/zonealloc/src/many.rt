//! Many blocks in one passage of a zone's gate: the requests of a worker, one after another up to the first that is refused.
ghost use Rattle.std.specs.Prelude.{◌≡◌, ◌⊎◌, false, length, true};
ghost use Rattle.zp_gate.specs.GatedZones.{IsWrittenTo, freed_of, page_of};
ghost use Rattle.zonealloc.specs.Calls.{HasNoZone, IsDenied, IsRefusedOrBusy};
ghost use Rattle.zonealloc.specs.ManyCalls.{AreOrders, AsksAllocs, AsksFrees, IsManyCall, NameNoBlocks};
ghost use Rattle.zonealloc.specs.Numbers.{IsNoMark, IsNoOrder, IsNoType};

use crate::answers::{BAD_ARGUMENT, BAD_HANDLE, BUSY, end_of, kind_of, mark_of, order_of};
use crate::handles::WorkerHandle;
use zp_model::LARGEST_ORDER;

/// Blocks of 2 to the order pages, one for each place of an array, up to the first that is refused. They are then lent: their first pages,
/// and how many there are.
#[unsafe(no_mangle)]
pub extern "C" fn zonealloc_alloc_many(
    worker: &mut WorkerHandle,
    zone: u32,
    order: u32,
    kind: u32,
    mark: u32,
    pages: &mut [u32],
    got: &mut usize,
) -> u32
    ensures call { IsManyCall (AsksAllocs order kind mark) (page_of pages.new) (length pages.old) got.new zone result worker.old.slot.value worker.new.slot.value }
    ensures written { IsWrittenTo got.new pages.old pages.new }
    ensures denied { IsDenied (IsNoOrder order ⊎ (IsNoType kind ⊎ (IsNoMark mark ⊎ (length pages.old ≡ 0)))) (HasNoZone zone) IsRefusedOrBusy result worker.old.slot.value }
{
    *got = 0;
    let Some(order) = order_of(order) else {
        return BAD_ARGUMENT;
    };
    let Some(kind) = kind_of(kind) else {
        return BAD_ARGUMENT;
    };
    let Some(mark) = mark_of(mark) else {
        return BAD_ARGUMENT;
    };
    if pages.is_empty() {
        return BAD_ARGUMENT;
    }
    if !worker.is_live() {
        return BAD_HANDLE;
    }
    let held = worker.slot.held();
    if zone as usize >= held.zones() {
        return BAD_ARGUMENT;
    }
    match held.alloc_many(zone as usize, order, kind, mark, pages) {
        Ok(granted) => {
            *got = granted.count;
            end_of(granted.refused)
        }
        Err(_) => BUSY,
    }
}

/// Frees lent blocks, by their first pages and their orders, up to the first that is refused: how many there are.
#[unsafe(no_mangle)]
pub extern "C" fn zonealloc_free_many(
    worker: &mut WorkerHandle,
    zone: u32,
    pages: &[u32],
    orders: &[u32],
    freed: &mut usize,
) -> u32
    ensures call { IsManyCall (AsksFrees pages.now orders.now) freed_of (length pages.now) freed.new zone result worker.old.slot.value worker.new.slot.value }
    ensures denied { IsDenied (NameNoBlocks pages.now orders.now) (HasNoZone zone) IsRefusedOrBusy result worker.old.slot.value }
{
    *freed = 0;
    if orders.len() != pages.len() || pages.is_empty() || !are_orders(orders) {
        return BAD_ARGUMENT;
    }
    if !worker.is_live() {
        return BAD_HANDLE;
    }
    let held = worker.slot.held();
    if zone as usize >= held.zones() {
        return BAD_ARGUMENT;
    }
    match held.free_many(zone as usize, pages, orders) {
        Ok(granted) => {
            *freed = granted.count;
            end_of(granted.refused)
        }
        Err(_) => BUSY,
    }
}

/// Whether each of the numbers is an order's.
fn are_orders(orders: &[u32]) -> bool
    ensures each { result ≡ true → AreOrders orders.now }
    ensures not { result ≡ false → ¬ AreOrders orders.now }
{
    for order in orders {
        if *order > u32::from(LARGEST_ORDER) {
            return false;
        }
    }
    true
}
