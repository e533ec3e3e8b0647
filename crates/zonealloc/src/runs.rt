//! Runs of pages, of any number and at any place, that a worker asks of the zones of its row.
ghost use Rattle.std.specs.Prelude.{◌≡◌, ◌⊎◌};
ghost use Rattle.zp_model.specs.declared.request.Request.TheVariants as request;
ghost use Rattle.zp_model.specs.declared.request.Reply.TheVariants as reply;
ghost use Rattle.zonealloc.specs.Calls.{Asks, AsksAllocRun, HasNoZone, IsCall, IsDenied, IsLentDenied, IsRefusedOrBusy};
ghost use Rattle.zonealloc.specs.Numbers.{IsNoAlignment, IsNoMark};

use crate::answers::{BAD_ARGUMENT, DONE, alignment_of, mark_of};
use crate::asking::{ask, ask_alloc_run, ask_free_run};
use crate::handles::WorkerHandle;
use zp_gate::{Given, ZoneCall};
use zp_model::PageNo;

/// The lowest run of so many free pages that begins at a multiple of two to the power `align`, which is then lent: its first page.
#[tactic(auto, using(crate::proofs::Answering::denied_call, crate::proofs::Answering::denied_by))]
#[unsafe(no_mangle)]
pub extern "C" fn zonealloc_alloc_run(
    worker: &mut WorkerHandle,
    zone: u32,
    pages: u32,
    align: u32,
    mark: u32,
    page: &mut u32,
) -> u32
    ensures call { IsCall (AsksAllocRun pages align mark) (λ q. q ≡ reply.Page page.new) (page.new ≡ page.old) zone result worker.old.slot.value worker.new.slot.value }
    ensures denied { IsDenied ((pages ≡ 0) ⊎ (IsNoAlignment align ⊎ IsNoMark mark)) (HasNoZone zone) IsRefusedOrBusy result worker.old.slot.value }
{
    if pages == 0 {
        return BAD_ARGUMENT;
    }
    let Some(align) = alignment_of(align) else {
        return BAD_ARGUMENT;
    };
    let Some(mark) = mark_of(mark) else {
        return BAD_ARGUMENT;
    };
    match ask_alloc_run(worker, zone, pages, align, mark) {
        Ok(first) => {
            *page = first.number();
            DONE
        }
        Err(why) => why,
    }
}

/// So many free pages from this one on, which are then lent.
#[tactic(auto, using(crate::proofs::Answering::denied_call, crate::proofs::Answering::denied_by))]
#[unsafe(no_mangle)]
pub extern "C" fn zonealloc_alloc_run_at(
    worker: &mut WorkerHandle,
    zone: u32,
    page: u32,
    pages: u32,
) -> u32
    ensures call { IsCall (Asks (request.AllocRunAt page pages)) (λ q. q ≡ reply.Page page) (Unit {0}) zone result worker.old.slot.value worker.new.slot.value }
    ensures denied { IsDenied ⊥ (HasNoZone zone) IsRefusedOrBusy result worker.old.slot.value }
{
    match ask(worker, zone, ZoneCall::AllocRunAt(PageNo::new(page), pages)) {
        Ok(Given::Done) => DONE,
        Ok(_) => unreachable!(),
        Err(why) => why,
    }
}

/// Frees so many lent pages from this one on, by whatever blocks they are lent.
#[tactic(auto, using(crate::proofs::Answering::denied_call, crate::proofs::Answering::denied_by))]
#[unsafe(no_mangle)]
pub extern "C" fn zonealloc_free_run(
    worker: &mut WorkerHandle,
    zone: u32,
    page: u32,
    pages: u32,
) -> u32
    ensures call { IsCall (Asks (request.FreeRun page pages)) (λ q. q ≡ reply.Freed) (Unit {0}) zone result worker.old.slot.value worker.new.slot.value }
    ensures denied { IsDenied ⊥ (HasNoZone zone) IsRefusedOrBusy result worker.old.slot.value }
    ensures lent { IsLentDenied zone (request.FreeRun page pages) (Unit {0}) result worker.old.slot.value }
{
    match ask_free_run(worker, zone, PageNo::new(page), pages) {
        Ok(()) => DONE,
        Err(why) => why,
    }
}
