//! The kernel freed a block.
ghost use Rattle.std.specs.Prelude.{◌≡◌, ◌<◌, ◌≤◌, ◌-◌, ◌^◌, IfSome, None, OnOk, OnErr, length, ltb};
ghost use Rattle.std.specs.FinMap.{get};
ghost use Rattle.zp_kernel.specs.Crews.{IsSameCrew};
ghost use Rattle.zp_kernel.specs.Events.{freed, freed_at, freed_held};
ghost use Rattle.zp_kernel.specs.Frames.{holder_around, reaching};

use crate::event_counts::Happening;
use crate::frame_table::FrameTable;
use crate::giving_back::{free_part, give_up};
use crate::held::{Held, Holder};
use crate::kernel_state::KernelState;
use std::alloc::AllocError;
use zp_events::FrameBlock;
use zp_model::{ORDERS, Worker};

/// Whether the block has a page that stands so far behind its first.
fn has_page(held: &Held, behind: u64) -> bool
    ensures { result ≡ ltb behind (2 ^ held.now.lent.order) }
{
    behind < u64::from(held.lent.order.pages())
}

/// The block that a head holds, where it reaches over the frame that stands so far behind the head.
fn reaching(frames: &FrameTable, head: u64, behind: u64) -> Option<Holder>
    ensures reaching { result ≡ reaching head behind (get frames.now head) }
    ensures held { IfSome result (λ r. (r.frame ≡ head) × (behind < 2 ^ r.held.lent.order)) }
{
    let held = frames.get(head)?;
    if has_page(&held, behind) {
        Some(Holder { frame: head, held })
    } else {
        None
    }
}

/// The nearest block that begins below this frame and reaches over it.
fn holder_around(frames: &FrameTable, frame: u64) -> Option<Holder>
    ensures around { result ≡ holder_around frames.now frame }
    ensures below { IfSome result (λ r. r.frame ≤ frame) }
    ensures reach { IfSome result (λ r. frame - r.frame < 2 ^ r.held.lent.order) }
{
    'orders: for order in 1..ORDERS {
        let behind = frame % (1 << order);
        if let Some(holder) = reaching(frames, frame - behind, behind) {
            return Some(holder);
        }
    }
    None
}

/// At a frame that holds a block. Refused where there is no memory to note what is left of it; then nothing changed.
fn free_held(
    state: &mut KernelState,
    by: Worker,
    block: &FrameBlock,
    held: &Held,
) -> Result<(), AllocError>
    requires worker { by < length state.old.crew.shares }
    ensures after { OnOk result (state.new ≡ freed_held by block.now held.now state.old) }
    ensures left { OnErr result (state.new ≡ state.old) }
    ensures same { IsSameCrew state.old.crew state.new.crew }
{
    let order = u32::from(held.lent.order.number());
    if block.order < order {
        let holder = Holder {
            frame: block.frame,
            held: *held,
        };
        return free_part(state, by, &holder, 0, block.order);
    }
    let happening = if block.order == order {
        Happening::Freed
    } else {
        Happening::Larger
    };
    state.counts.note(happening);
    give_up(state, by, block.frame, held);
    Ok(())
}

/// At a frame that holds none. Refused as `free_held` is.
fn free_inside(state: &mut KernelState, by: Worker, block: &FrameBlock) -> Result<(), AllocError>
    requires worker { by < length state.old.crew.shares }
    ensures after { OnOk result (state.new ≡ freed_at by block.now None state.old) }
    ensures left { OnErr result (state.new ≡ state.old) }
    ensures same { IsSameCrew state.old.crew state.new.crew }
{
    match holder_around(&state.frames, block.frame) {
        Some(holder) => {
            let behind = block.frame - holder.frame;
            free_part(state, by, &holder, behind as u32, block.order)
        }
        None => {
            state.counts.note(Happening::Unknown);
            Ok(())
        }
    }
}

/// The kernel freed this block, and the worker frees what stands for it. Refused where there is no memory to note what is left of a block; then
/// nothing was asked, and nothing changed.
pub fn free_block(state: &mut KernelState, by: Worker, block: &FrameBlock) -> Result<(), AllocError>
    requires worker { by < length state.old.crew.shares }
    ensures after { OnOk result (state.new ≡ freed by block.now state.old) }
    ensures left { OnErr result (state.new ≡ state.old) }
    ensures same { IsSameCrew state.old.crew state.new.crew }
{
    match state.frames.get(block.frame) {
        Some(held) => free_held(state, by, block, &held),
        None => free_inside(state, by, block),
    }
}
