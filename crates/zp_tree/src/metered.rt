//! The nodes of a status tree. The only reads of them are by a meter, which each raises by one.
ghost use Rattle.std.specs.Prelude.{◌≡◌, ◌≤◌, ◌<◌, ◌+◌, ◌^◌, ℕ, IfOk, length, replicate, slice_index, slice_index_or, slice_set};
ghost use Rattle.zp_tree.specs.declared.constants.TheConstants.{FAN};

use crate::constants::FAN;
use crate::meter::Meter;
use crate::rank::Rank;
use std::alloc::{AllocError, Global};
use std::marker::Model;

/// Nodes side by side: words, or ranks. Contracts see the row of them.
#[derive(Drop)]
pub struct Metered<T> {
    nodes: Vec<T>,
}

impl<T> Model for Metered<T> {
    ghost use Rattle.std.specs.Prelude.{List};

    ghost Value = { List T };

    ghost view = { λ m. m.nodes.items };
}

impl<T: Copy + Drop> Metered<T> {
    /// So many nodes like this one.
    pub fn new(alloc: Global, node: T, count: usize) -> Result<Metered<T>, AllocError>
        requires { (y : T) → T.is_clone node y → y ≡ node }
        ensures { IfOk result (λ m. m ≡ replicate count node) }
    {
        let nodes = Vec::from_elem(alloc, node, count)?;
        Ok(Metered { nodes })
    }

    /// How many nodes there are.
    #[inline(always)]
    pub fn len(&self) -> usize
        ensures { result ≡ length self.now }
    {
        self.nodes.len()
    }

    /// The node at a place. One read.
    #[inline(always)]
    pub fn read(&self, at: usize, meter: &mut Meter) -> T
        requires inside { at < length self.now }
        requires count { meter.old + 1 < 2 ^ 64 }
        ensures node { (past : T) → result ≡ slice_index_or self.now at past }
        ensures counted { meter.new ≡ meter.old + 1 }
    {
        meter.rise();
        self.nodes[at]
    }

    /// Puts a node at a place.
    #[inline(always)]
    pub fn write(&mut self, at: usize, node: T)
        requires { at < length self.old }
        ensures { self.new ≡ slice_set self.old at node }
    {
        self.nodes[at] = node;
    }
}

impl Metered<Rank> {
    /// The ranks from a place on that are one word. One read.
    #[inline(always)]
    pub fn read_eight(&self, from: usize, meter: &mut Meter) -> &[Rank]
        requires inside { from + FAN ≤ length self.now }
        requires count { meter.old + 1 < 2 ^ 64 }
        ensures eight { length result.now ≡ FAN }
        ensures ranks { (i : ℕ) → i < FAN → slice_index result.now i ≡ slice_index self.now (from + i) }
        ensures room { from + FAN < 2 ^ 64 }
        ensures counted { meter.new ≡ meter.old + 1 }
    {
        meter.rise();
        &self.nodes[from..from + FAN]
    }
}
