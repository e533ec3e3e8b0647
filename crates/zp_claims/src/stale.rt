//! The pageblocks that have changed since they were looked at.
ghost use Rattle.std.specs.Prelude.{ℕ, ◌≡◌, ◌+◌, ◌<◌, ◌≤◌, ◌↔◌, false, true, length, replicate, slice_set, IfNone, IfOk, IfSome, IsTrue};
ghost use Rattle.zp_model.specs.declared.constants.TheConstants.{MAX_PAGES};
ghost use Rattle.zp_claims.specs.Stale.{cleared, is_marked};

use arrayvec::ArrayVec;
use std::alloc::{AllocError, Global};
use std::marker::Model;

/// How many pageblocks wait at most to be looked at.
pub const MOST_STALE: usize = 64;

/// A set of pageblocks that have changed since they were looked at, at most `MOST_STALE`. Contracts see which they are, and a number that falls with
/// each that is taken out.
#[derive(Drop)]
pub struct StaleSet {
    marks: Vec<bool>,
    /// Each that is marked is among these. Nothing here keeps that each of these is marked, or stands once: no contract needs it.
    waiting: ArrayVec<u32, MOST_STALE>,
}

impl Model for StaleSet {
    ghost use Rattle.std.specs.Prelude.{length};
    ghost use Rattle.zp_claims.specs.Stale.{IsWaiting, Stale};

    ghost Value = { Stale };

    ghost view = { λ s. record { marks = s.marks.items; waiting = length s.waiting.items } };

    ghost invariant = { λ s. IsWaiting s.marks.items s.waiting.items };
}

impl StaleSet {
    /// Of so many pageblocks none.
    pub fn new(alloc: Global, pageblocks: usize) -> Result<StaleSet, AllocError>
        requires { pageblocks ≤ MAX_PAGES }
        ensures { IfOk result (λ s. s.marks ≡ replicate pageblocks false) }
    {
        let marks = Vec::from_elem(alloc, false, pageblocks)?;
        Ok(StaleSet {
            marks,
            waiting: ArrayVec::new(),
        })
    }

    /// Whether a pageblock is in the set.
    #[inline(always)]
    pub fn has(&self, pageblock: usize) -> bool
        requires { pageblock < length self.now.marks }
        ensures { result ≡ is_marked self.now.marks pageblock }
    {
        self.marks[pageblock]
    }

    /// Whether as many wait as there is room for. One more then takes the place of another.
    pub fn is_full(&self) -> bool
        ensures { IsTrue result ↔ (self.now.waiting ≡ MOST_STALE) }
    {
        self.waiting.is_full()
    }

    /// Puts a pageblock that is not in the set into it. Where the set is full, it takes another one out and returns that.
    pub fn mark(&mut self, pageblock: usize) -> Option<usize>
        requires { pageblock < length self.old.marks }
        ensures marks { self.new.marks ≡ slice_set (cleared self.old.marks result) pageblock true }
        ensures other { IfSome result (λ b. b < length self.old.marks) }
    {
        let other = if self.waiting.is_full() {
            Some(self.take())
        } else {
            None
        };
        self.waiting.push(pageblock as u32);
        self.marks[pageblock] = true;
        other
    }

    /// Takes a pageblock out of the set, where there is one.
    pub fn next(&mut self) -> Option<usize>
        ensures marks { self.new.marks ≡ cleared self.old.marks result }
        ensures other { IfSome result (λ b. (b < length self.old.marks) × (self.new.waiting < self.old.waiting)) }
        ensures none { IfNone result ((b : ℕ) → is_marked self.old.marks b ≡ false) }
    {
        if self.waiting.is_empty() {
            return None;
        }
        Some(self.take())
    }

    /// Takes the one that waits last out of the set.
    fn take(&mut self) -> usize
        requires { 0 < self.old.waiting }
        ensures marks { self.new.marks ≡ slice_set self.old.marks result false }
        ensures inside { result < length self.old.marks }
        ensures fewer { self.new.waiting + 1 ≡ self.old.waiting }
    {
        let Some(last) = self.waiting.pop() else {
            unreachable!()
        };
        self.marks[last as usize] = false;
        last as usize
    }
}
