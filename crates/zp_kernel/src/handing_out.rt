//! The kernel handed out a block.
ghost use Rattle.std.specs.Prelude.{◌≡◌, ◌<◌, ◌≤◌, ◌↔◌, IfSome, IsSome, OnOk, OnErr, length};
ghost use Rattle.std.specs.FinMap.{get};
ghost use Rattle.zp_kernel.specs.KernelStates.{holding_none};
ghost use Rattle.zp_kernel.specs.Crews.{IsSameCrew};
ghost use Rattle.zp_kernel.specs.Events.{asked, handed_out, still_held};
ghost use Rattle.zp_kernel.specs.Settings.{AreBelow};

use crate::event_counts::Happening;
use crate::giving_back::give_back;
use crate::held::Held;
use crate::kernel_state::KernelState;
use crate::setting::{Setting, kind_of};
use std::alloc::AllocError;
use zp_events::{FrameBlock, PageRequest};
use zp_model::{MigrateType, Order, PageNo, Worker};
use zp_share::Lent;

/// The order of this number, where it is not above the largest.
fn order_within(number: u32, largest: Order) -> Option<Order>
    ensures order { IfSome result (λ k. k ≡ number) }
    ensures when { IsSome result ↔ (number ≤ largest) }
{
    if number <= u32::from(largest.number()) {
        Some(Order::at(number as u8))
    } else {
        None
    }
}

/// What the frame held still goes back.
fn clear(state: &mut KernelState, by: Worker, before: Option<Held>)
    requires { by < length state.old.crew.shares }
    ensures after { state.new ≡ still_held by before state.old }
    ensures same { IsSameCrew state.old.crew state.new.crew }
{
    match before {
        Some(held) => {
            state.counts.note(Happening::Again);
            give_back(state, by, &held);
        }
        None => (),
    }
}

/// The worker asks for the block, of this order, which is the block's. The frame has a place in the table already, whatever stands there.
fn ask(
    state: &mut KernelState,
    by: Worker,
    block: &FrameBlock,
    order: Order,
    kind: MigrateType,
    top: usize,
)
    requires worker { by < length state.old.crew.shares }
    requires zone { top < length state.old.crew.zones }
    requires order { order ≡ block.now.order }
    requires place { IsSome (get state.old.frames block.now.frame) }
    ensures after { state.new ≡ asked by block.now kind top (holding_none block.now.frame state.old) }
    ensures same { IsSameCrew state.old.crew state.new.crew }
{
    let origins = state.crew.origins(by, order, kind);
    match state.crew.alloc(by, order, kind, top) {
        Ok(lent) => {
            let place = lent.zone;
            let origin = origins[place];
            state.frames.set(block.frame, Held { lent, worker: by });
            state.counts.note_origin(origin, kind);
            state.counts.note(Happening::Given);
            state.counts.note_out(order.pages());
        }
        Err(refused) => {
            let _place = state.frames.remove(block.frame);
            state.counts.note(Happening::Refused(refused));
        }
    }
}

/// The kernel handed out this block for this request, and the worker asks for one. Refused where there is no memory to note it;
/// then nothing was asked, and nothing changed.
pub fn hand_out(
    state: &mut KernelState,
    setting: &Setting,
    by: Worker,
    block: &FrameBlock,
    request: &PageRequest,
) -> Result<(), AllocError>
    requires worker { by < length state.old.crew.shares }
    requires limits { AreBelow (length state.old.crew.zones) setting.now.limits }
    ensures after { OnOk result (state.new ≡ handed_out setting.now by block.now request.now state.old) }
    ensures left { OnErr result (state.new ≡ state.old) }
    ensures same { IsSameCrew state.old.crew state.new.crew }
{
    let Some(order) = order_within(block.order, setting.largest) else {
        state.counts.note(Happening::TooLarge);
        return Ok(());
    };
    let Some(kind) = kind_of(request.migrate_type) else {
        state.counts.note(Happening::OtherType);
        return Ok(());
    };
    let top = setting.limits.top(request.zone_limit);
    // the frame has its place in the table before anything is asked, so that no memory is missing afterwards
    let lent = Lent {
        zone: top,
        page: PageNo::new(0),
        order,
    };
    let place = Held { lent, worker: by };
    let before = state.frames.insert(block.frame, place)?;
    clear(state, by, before);
    ask(state, by, block, order, kind, top);
    Ok(())
}
