//! A block goes back.
ghost use Rattle.std.specs.Prelude.{◌≡◌, ◌^◌, ◌<◌, OnOk, OnErr, length};
ghost use Rattle.zp_kernel.specs.KernelStates.{back_by, given_back, given_up, lent_of, part_freed, part_pages, passed_back, passing_noted, refusal_noted, run_given_back};
ghost use Rattle.zp_kernel.specs.Crews.{IsCrewDone, IsSameCrew};

use crate::event_counts::{EventCounts, Happening};
use crate::held::{Held, Holder};
use crate::kernel_state::KernelState;
use crate::kernel_zones::KernelZones;
use std::alloc::AllocError;
use zp_model::{Block, Refused, Worker};
use zp_share::Lent;

/// The block of the zone at this place, as a lent one.
fn lent_of(zone: usize, block: &Block) -> Lent
    ensures { result ≡ lent_of zone block.now }
{
    Lent {
        zone,
        page: block.page,
        order: block.order,
    }
}

/// Another worker's block comes to this one, which frees it.
fn pass_back(crew: &mut KernelZones, from: Worker, lent: &Lent, to: Worker) -> Result<(), Refused>
    requires { to < length crew.old.shares }
    ensures done { IsCrewDone (passed_back from lent.now to crew.old) result crew.new }
    ensures same { IsSameCrew crew.old crew.new }
{
    crew.post(from, lent, to)?;
    let block = crew.collect(to, lent.zone)?;
    crew.free(to, &lent_of(lent.zone, &block))
}

/// The worker frees a block, its own or another's.
fn back_by(crew: &mut KernelZones, by: Worker, held: &Held) -> Result<(), Refused>
    requires { by < length crew.old.shares }
    ensures done { IsCrewDone (back_by by held.now crew.old) result crew.new }
    ensures same { IsSameCrew crew.old crew.new }
{
    if held.worker.number() == by.number() {
        return crew.free(by, &held.lent);
    }
    pass_back(crew, held.worker, &held.lent, by)
}

fn note_passing(counts: &mut EventCounts, own: bool)
    ensures { counts.new ≡ passing_noted own counts.old }
{
    if !own {
        counts.note(Happening::Passed);
    }
}

fn note_refusal(counts: &mut EventCounts, outcome: Result<(), Refused>)
    ensures { counts.new ≡ refusal_noted outcome counts.old }
{
    match outcome {
        Ok(()) => (),
        Err(refused) => counts.note(Happening::Refused(refused)),
    }
}

/// The worker frees a block that no frame holds any more.
pub fn give_back(state: &mut KernelState, by: Worker, held: &Held)
    requires { by < length state.old.crew.shares }
    ensures after { state.new ≡ given_back by held.now state.old }
    ensures same { IsSameCrew state.old.crew state.new.crew }
{
    state.counts.note_back(held.lent.order.pages());
    note_passing(&mut state.counts, held.worker.number() == by.number());
    let outcome = back_by(&mut state.crew, by, held);
    note_refusal(&mut state.counts, outcome);
}

/// The frame gives up its block.
pub fn give_up(state: &mut KernelState, by: Worker, frame: u64, held: &Held)
    requires { by < length state.old.crew.shares }
    ensures after { state.new ≡ given_up by frame held.now state.old }
    ensures same { IsSameCrew state.old.crew state.new.crew }
{
    let _held = state.frames.remove(frame);
    give_back(state, by, held);
}

/// How many pages a part has that is freed: as many as a block of this order, but no more than the block has from this page on.
fn part_pages(held: &Held, from: u32, order: u32) -> u32
    requires { from < 2 ^ held.now.lent.order }
    ensures pages { result ≡ part_pages held.now from order }
    ensures some { 0 < result }
{
    let behind = held.pages_behind(from);
    if order < 32 {
        behind.min(1 << order)
    } else {
        behind
    }
}

/// So many pages of the block, from this one on, are freed by the worker that has it.
fn give_back_run(state: &mut KernelState, held: &Held, from: u32, pages: u32)
    ensures after { state.new ≡ run_given_back from pages held.now state.old }
    ensures same { IsSameCrew state.old.crew state.new.crew }
{
    state.counts.note_back(pages);
    let page = held.page_behind(from);
    let outcome = state
        .crew
        .free_run(held.worker, held.lent.zone, page, pages);
    note_refusal(&mut state.counts, outcome);
}

/// The pages of a part of the holder's block are freed, from this one on as many as a block of this order has. Refused where there is no memory
/// to note what is left; then nothing was asked, and nothing changed.
pub fn free_part(
    state: &mut KernelState,
    by: Worker,
    holder: &Holder,
    from: u32,
    order: u32,
) -> Result<(), AllocError>
    requires worker { by < length state.old.crew.shares }
    requires inside { from < 2 ^ holder.now.held.lent.order }
    ensures after { OnOk result (state.new ≡ part_freed by from order holder.now.frame holder.now.held state.old) }
    ensures left { OnErr result (state.new ≡ state.old) }
    ensures same { IsSameCrew state.old.crew state.new.crew }
{
    let held = &holder.held;
    let pages = part_pages(held, from, order);
    let is_split = state.frames.split(holder.frame, held, from, pages)?;
    state.counts.note(Happening::Part);
    if is_split {
        give_back_run(state, held, from, pages);
    } else {
        give_back(state, by, held);
    }
    Ok(())
}
