//! The one road from a worker's handle to a zone: the handle lends the worker, which makes the request. The most frequent
//! ones, which allocate and free a block or a run, have functions of their own.
ghost use Rattle.std.specs.Prelude.{IfErr, IfOk, IsTrue, OnOk};
ghost use Rattle.zp_model.specs.declared.request.Request.TheVariants as request;
ghost use Rattle.zp_model.specs.declared.request.Reply.TheVariants as reply;
ghost use Rattle.zp_model.specs.Runs.{may_alloc_run};
ghost use Rattle.zp_gate.specs.GatedWorkers.{IsGrantedAt, IsToldAt};
ghost use Rattle.zp_gate.specs.Calls.{reply_of, request_of};
ghost use Rattle.zonealloc.specs.Calls.{IsAskDenied, IsOfBoth};

use crate::answers::{BAD_HANDLE, call_error};
use crate::handles::WorkerHandle;
use zp_gate::{Given, ZoneCall};
use zp_model::{Mark, MigrateType, Order, PageNo};
use zp_zone::Told;

/// A block for the worker in a handle: its first page, else the number of why there is none.
#[tactic(auto, using(crate::proofs::Answering::ask_denied))]
#[inline(always)]
pub fn ask_alloc(
    worker: &mut WorkerHandle,
    zone: u32,
    order: Order,
    kind: MigrateType,
    mark: Mark,
) -> Result<PageNo, u32>
    ensures granted { IfOk result (λ page. IsOfBoth (IsGrantedAt zone (request.Alloc order kind mark) (reply.Page page)) worker.old.slot.value worker.new.slot.value) }
    ensures denied { IfErr result (λ n. IsAskDenied zone (request.Alloc order kind mark) n worker.old.slot.value worker.new.slot.value) }
{
    if !worker.is_live() {
        return Err(BAD_HANDLE);
    }
    let held = worker.slot.held();
    match held.alloc(zone as usize, order, kind, mark) {
        Ok(page) => Ok(page),
        Err(why) => Err(call_error(why)),
    }
}

/// The same, and where the block came from.
pub fn ask_told(
    worker: &mut WorkerHandle,
    zone: u32,
    order: Order,
    kind: MigrateType,
    mark: Mark,
) -> Result<Told, u32>
    ensures granted { IfOk result (λ t. IsOfBoth (IsGrantedAt zone (request.Alloc order kind mark) (reply.Page t.page)) worker.old.slot.value worker.new.slot.value) }
    ensures told { IfOk result (λ t. IsOfBoth (IsToldAt zone order kind mark t) worker.old.slot.value worker.new.slot.value) }
    ensures denied { IfErr result (λ n. IsAskDenied zone (request.Alloc order kind mark) n worker.old.slot.value worker.new.slot.value) }
{
    if !worker.is_live() {
        return Err(BAD_HANDLE);
    }
    let held = worker.slot.held();
    match held.alloc_told(zone as usize, order, kind, mark) {
        Ok(told) => Ok(told),
        Err(why) => Err(call_error(why)),
    }
}

/// Frees a block of the worker in a handle; else the number of why it was not freed.
#[tactic(auto, using(crate::proofs::Answering::ask_denied))]
#[inline(always)]
pub fn ask_free(worker: &mut WorkerHandle, zone: u32, page: PageNo, order: Order) -> Result<(), u32>
    ensures granted { OnOk result (IsOfBoth (IsGrantedAt zone (request.Free page order) reply.Freed) worker.old.slot.value worker.new.slot.value) }
    ensures denied { IfErr result (λ n. IsAskDenied zone (request.Free page order) n worker.old.slot.value worker.new.slot.value) }
{
    if !worker.is_live() {
        return Err(BAD_HANDLE);
    }
    let held = worker.slot.held();
    match held.free(zone as usize, page, order) {
        Ok(()) => Ok(()),
        Err(why) => Err(call_error(why)),
    }
}

/// A run of pages for the worker in a handle: its first page, else the number of why there is none.
pub fn ask_alloc_run(
    worker: &mut WorkerHandle,
    zone: u32,
    pages: u32,
    align: u8,
    mark: Mark,
) -> Result<PageNo, u32>
    requires { IsTrue (may_alloc_run pages align) }
    ensures granted { IfOk result (λ page. IsOfBoth (IsGrantedAt zone (request.AllocRun pages align mark) (reply.Page page)) worker.old.slot.value worker.new.slot.value) }
    ensures denied { IfErr result (λ n. IsAskDenied zone (request.AllocRun pages align mark) n worker.old.slot.value worker.new.slot.value) }
{
    if !worker.is_live() {
        return Err(BAD_HANDLE);
    }
    let held = worker.slot.held();
    match held.alloc_run(zone as usize, pages, align, mark) {
        Ok(page) => Ok(page),
        Err(why) => Err(call_error(why)),
    }
}

/// Frees a run of pages of the worker in a handle; else the number of why it was not freed.
#[tactic(auto, using(crate::proofs::Answering::ask_denied))]
#[inline(always)]
pub fn ask_free_run(
    worker: &mut WorkerHandle,
    zone: u32,
    page: PageNo,
    pages: u32,
) -> Result<(), u32>
    ensures granted { OnOk result (IsOfBoth (IsGrantedAt zone (request.FreeRun page pages) reply.Freed) worker.old.slot.value worker.new.slot.value) }
    ensures denied { IfErr result (λ n. IsAskDenied zone (request.FreeRun page pages) n worker.old.slot.value worker.new.slot.value) }
{
    if !worker.is_live() {
        return Err(BAD_HANDLE);
    }
    let held = worker.slot.held();
    match held.free_run(zone as usize, page, pages) {
        Ok(()) => Ok(()),
        Err(why) => Err(call_error(why)),
    }
}

/// Another request of the worker in a handle to the zone at a place: what is given, else the number of why nothing is.
// (inlined, so that each export has the way of its own call alone)
#[inline(always)]
pub fn ask(worker: &mut WorkerHandle, zone: u32, call: ZoneCall) -> Result<Given, u32>
    ensures granted { IfOk result (λ g. IsOfBoth (IsGrantedAt zone (request_of call) (reply_of call g)) worker.old.slot.value worker.new.slot.value) }
    ensures denied { IfErr result (λ n. IsAskDenied zone (request_of call) n worker.old.slot.value worker.new.slot.value) }
{
    if !worker.is_live() {
        return Err(BAD_HANDLE);
    }
    let held = worker.slot.held();
    match held.section(zone as usize, call) {
        Ok(given) => Ok(given),
        Err(why) => Err(call_error(why)),
    }
}
