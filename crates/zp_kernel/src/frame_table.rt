//! The blocks that page frames hold.
ghost use Rattle.std.specs.Prelude.{◌≡◌, IfOk, OnOk, OnErr, IsSome};
ghost use Rattle.std.specs.FinMap as map;

use crate::held::Held;
use std::alloc::{AllocError, Global};
use std::collections::HashMap;
use std::marker::Model;

mod splitting;

/// What each page frame holds.
#[derive(Drop)]
pub struct FrameTable {
    held: HashMap<u64, Held>,
}

impl Model for FrameTable {
    ghost use Rattle.zp_kernel.specs.Frames.{Frames, frames_code, frames_of};

    ghost Value = { Frames };

    ghost coded = { frames_code };

    ghost view = { λ t. frames_of t.held.entries };
}

impl FrameTable {
    pub fn new(alloc: Global) -> FrameTable
        ensures { result ≡ map.empty }
    {
        FrameTable {
            held: HashMap::new(alloc),
        }
    }

    pub fn get(&self, frame: u64) -> Option<Held>
        ensures { result ≡ map.get self.now frame }
    {
        self.held.get(&frame).copied()
    }

    /// The frame holds this: what it held before.
    pub fn insert(&mut self, frame: u64, held: Held) -> Result<Option<Held>, AllocError>
        ensures before { IfOk result (λ old. old ≡ map.get self.old frame) }
        ensures after { OnOk result (self.new ≡ map.insert self.old frame held) }
        ensures left { OnErr result (self.new ≡ self.old) }
    {
        let before = self.held.insert(frame, held)?;
        Ok(before)
    }

    /// The frame, which holds a block, holds this one.
    pub fn set(&mut self, frame: u64, held: Held)
        requires { IsSome (map.get self.old frame) }
        ensures { self.new ≡ map.insert self.old frame held }
    {
        match self.held.insert(frame, held) {
            Ok(_before) => (),
            Err(_full) => unreachable!(),
        }
    }

    /// The frame holds nothing: what it held before.
    pub fn remove(&mut self, frame: u64) -> Option<Held>
        ensures before { result ≡ map.get self.old frame }
        ensures after { self.new ≡ map.remove self.old frame }
    {
        self.held.remove(&frame)
    }
}
