//! A kernel's page events, carried out.
ghost use Rattle.std.specs.Prelude.{◌≡◌, ◌≤◌, OnOk, OnErr, length, map};
ghost use Rattle.std.specs.FinMap.{empty, get};
ghost use Rattle.zp_share.specs.Shares.{named_zone};
ghost use Rattle.zp_share.specs.Crews.{AreSharesOf, crew_of};
ghost use Rattle.zp_kernel.specs.Counts.{none_counted};
ghost use Rattle.zp_kernel.specs.Events.{after_event};
ghost use Rattle.zp_kernel.specs.Settings.{AreBelow};

use crate::event_counts::{EventCounts, Happening};
use crate::frame_table::FrameTable;
use crate::freeing::free_block;
use crate::handing_out::hand_out;
use crate::held::Held;
use crate::kernel_state::KernelState;
use crate::kernel_zones::KernelZones;
use crate::setting::Setting;
use std::alloc::{AllocError, Global};
use std::marker::Model;
use zp_events::{Action, PageEvent};
use zp_share::{PlainZones, Share};
use zp_zone::Zone;

/// Our zones, which stand for a kernel's, with what its page events have made of them.
#[derive(Drop)]
pub struct Kernel {
    setting: Setting,
    state: KernelState,
}

impl Model for Kernel {
    ghost use Rattle.std.specs.Prelude.{length};
    ghost use Rattle.zp_kernel.specs.Events.{PlainKernel};
    ghost use Rattle.zp_kernel.specs.Settings.{AreBelow};

    ghost Value = { PlainKernel };

    ghost use Rattle.std.specs.Coded.{codes};
    ghost use Rattle.zp_kernel.specs.contracts.frame_table.FrameTable as table;

    ghost coded = { Prim.hlevel (codes, table.the_row.coded) };

    ghost view = { λ k. record { setting = k.setting; state = k.state } };

    ghost invariant = { λ k. AreBelow (length k.state.crew.zones) k.setting.limits };
}

impl Kernel {
    /// Before the first event.
    pub fn new(alloc: Global, zones: PlainZones, shares: Vec<Share>, setting: Setting) -> Kernel
        requires some { 1 ≤ length shares.items }
        requires shares { AreSharesOf zones shares.items }
        requires limits { AreBelow (length zones) setting.limits }
        ensures { result ≡ record { setting = setting; state = record { crew = crew_of zones shares.items; frames = empty; counts = none_counted } } }
    {
        let state = KernelState {
            crew: KernelZones::new(zones, shares),
            frames: FrameTable::new(alloc),
            counts: EventCounts::none(),
        };
        Kernel { setting, state }
    }

    /// Carries out an event. Refused where there is no memory to note what a frame holds; then nothing changed.
    pub fn carry_out(&mut self, event: &PageEvent) -> Result<(), AllocError>
        ensures after { OnOk result (self.new ≡ record self.old { state = after_event self.old.setting self.old.state event.now }) }
        ensures left { OnErr result (self.new ≡ self.old) }
    {
        let by = self.state.crew.worker_of(event.cpu);
        match &event.action {
            Action::Alloc(block, request) => {
                hand_out(&mut self.state, &self.setting, by, block, request)?;
            }
            Action::Refuse(_block, _request) => self.state.counts.note(Happening::KernelRefused),
            Action::Free(block) => free_block(&mut self.state, by, block)?,
            Action::Fallback => self.state.counts.note(Happening::Fallback),
        }
        Ok(())
    }

    /// What was counted.
    pub fn counts(&self) -> &EventCounts
        ensures { result.now ≡ self.now.state.counts }
    {
        &self.state.counts
    }

    /// What this page frame holds.
    pub fn held(&self, frame: u64) -> Option<Held>
        ensures { result ≡ get self.now.state.frames frame }
    {
        self.state.frames.get(frame)
    }

    /// The zones, the lowest first.
    pub fn zones(&self) -> &[Zone]
        ensures { map named_zone result.now ≡ self.now.state.crew.zones }
    {
        self.state.crew.zones()
    }

    /// The zones and shares as the events left them.
    pub fn into_parts(self) -> (PlainZones, Vec<Share>)
        ensures some { 1 ≤ length result.1.items }
        ensures shares { AreSharesOf result.0 result.1.items }
        ensures crew { crew_of result.0 result.1.items ≡ self.state.crew }
    {
        let Kernel { setting: _, state } = self;
        let KernelState {
            crew,
            frames: _,
            counts: _,
        } = state;
        crew.into_parts()
    }
}
