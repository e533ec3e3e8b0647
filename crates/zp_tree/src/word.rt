//! The blocks of 32 places in one word.
//!
//! Six levels of a binary tree in its own numbering: bit 1 stands for all places, bits 2 and 3 for its halves, and so on to bits 32 to 63
//! for single places. A bit is set where its places are a block.
ghost use Rattle.std.specs.Prelude.{◌≡◌, ◌≤◌, ◌<◌, ◌+◌, ◌*◌, ◌^◌, cond, length};
ghost use Rattle.zp_model.specs.Block.{head};
ghost use Rattle.zp_tree.specs.declared.constants.TheConstants.{PLACES, WORD_LEVELS};
ghost use Rattle.zp_tree.specs.Words.{node, IsPlace, IsMarked, IsChain, IsHalved, IsPaired, IsUnpaired, IsRow, IsLargestIn, IsFirstOf, IsFirst, IsUnion};

use crate::buddies::BUDDIES;
use crate::constants::{PLACES, WORD_LEVELS};
use crate::meter::Meter;
use crate::metered::Metered;
use std::marker::Model;

/// The blocks of 32 places. Contracts see the number whose bits they are.
#[derive(Clone, Copy, PartialEq, Eq, Debug, Drop)]
pub struct Word {
    bits: u64,
}

impl Model for Word {
    ghost use Rattle.std.specs.Prelude.{ℕ, ◌≡◌};
    ghost use Rattle.std.specs.Int.{bit_at};

    ghost Value = { ℕ };

    ghost view = { λ w. w.bits };

    ghost invariant = { λ w. bit_at w.bits 0 ≡ 0 };

    ghost inverse = { λ n. record { bits = n } };
}

/// The number of the node of 2 to the `level` places at a place.
fn node_of(place: u32, level: u8) -> u32
    requires { IsPlace place level }
    ensures node { result ≡ node place level }
    ensures within { (0 < result) × (result < 64) }
{
    (PLACES + place) >> level
}

/// The bits of the buddies of the runs around a place, from level `from` to below level `to`.
#[inline]
fn chain(place: u32, from: u8, to: u8) -> u64
    requires place { place < PLACES }
    requires up { from ≤ to }
    requires levels { to ≤ WORD_LEVELS }
    ensures { IsChain place from to result }
{
    let first = (PLACES + place) >> from;
    let end = (PLACES + place) >> to;
    // the buddies from level `to` on are on the way up from both nodes
    BUDDIES[first as usize] ^ BUDDIES[end as usize]
}

/// How many places a block of this level has.
fn places_of(level: u8) -> u32
    requires { level ≤ WORD_LEVELS }
    ensures places { result ≡ 2 ^ level }
    ensures within { result ≤ PLACES }
{
    1 << level
}

impl Word {
    /// The word of no block.
    pub fn empty() -> Word
        ensures { result ≡ 0 }
    {
        Word { bits: 0 }
    }

    /// With the block of this level at a place.
    #[inline]
    pub fn with(self, place: u32, level: u8) -> Word
        requires { IsPlace place level }
        ensures { IsMarked self result place level 1 }
    {
        Word {
            bits: self.bits | 1 << node_of(place, level),
        }
    }

    /// With the block of this level around a place. Its node is that of the place on this level.
    #[inline]
    pub fn with_around(self, place: u32, level: u8) -> Word
        requires place { place < PLACES }
        requires level { level ≤ WORD_LEVELS }
        ensures { IsMarked self result (head place level) level 1 }
    {
        Word {
            bits: self.bits | 1 << ((PLACES + place) >> level),
        }
    }

    /// Without the block of this level at a place.
    #[inline]
    pub fn without(self, place: u32, level: u8) -> Word
        requires { IsPlace place level }
        ensures { IsMarked self result place level 0 }
    {
        Word {
            bits: self.bits & !(1 << node_of(place, level)),
        }
    }

    /// Without the block of this level around a place.
    #[inline]
    pub fn without_around(self, place: u32, level: u8) -> Word
        requires place { place < PLACES }
        requires level { level ≤ WORD_LEVELS }
        ensures { IsMarked self result (head place level) level 0 }
    {
        Word {
            bits: self.bits & !(1 << ((PLACES + place) >> level)),
        }
    }

    /// With the block of this level at a place, or without it.
    #[inline(always)]
    pub fn put(self, place: u32, level: u8, is_set: bool) -> Word
        requires { IsPlace place level }
        ensures { IsMarked self result place level (cond is_set 1 0) }
    {
        if is_set {
            self.with(place, level)
        } else {
            self.without(place, level)
        }
    }

    /// With the high halves that are left where a block of level `from` is split down to `to`.
    #[inline]
    pub fn with_halves(self, place: u32, from: u8, to: u8) -> Word
        requires block { IsPlace place from }
        requires down { to ≤ from }
        ensures { IsHalved self result place from to }
    {
        let halves = chain(place, to, from);
        Word {
            bits: self.bits | halves,
        }
    }

    /// With the buddies of the runs around a place, from level `from` to below level `to`.
    #[inline]
    pub fn with_buddies(self, place: u32, from: u8, to: u8) -> Word
        requires place { place < PLACES }
        requires up { from ≤ to }
        requires levels { to ≤ WORD_LEVELS }
        ensures { IsPaired self result place from to }
    {
        let buddies = chain(place, from, to);
        Word {
            bits: self.bits | buddies,
        }
    }

    /// Without the buddies of the runs around a place, from level `from` to below level `to`.
    #[inline]
    pub fn without_buddies(self, place: u32, from: u8, to: u8) -> Word
        requires place { place < PLACES }
        requires up { from ≤ to }
        requires levels { to ≤ WORD_LEVELS }
        ensures { IsUnpaired self result place from to }
    {
        let buddies = chain(place, from, to);
        Word {
            bits: self.bits & !buddies,
        }
    }

    /// The largest level of a block.
    #[inline]
    pub fn largest(self) -> Option<u8>
        ensures { IsLargestIn self 0 WORD_LEVELS result }
    {
        if self.bits == 0 {
            return None;
        }
        // the nodes of a level have one length in bits, and those of the larger levels come first
        let first = self.bits.trailing_zeros();
        Some((first.leading_zeros() - (31 - WORD_LEVELS as u32)) as u8)
    }

    /// The bits of the nodes of the places of node `node` that are `down` levels below it, the first in bit 0.
    #[inline]
    fn row_below(self, node: u32, down: u8) -> u64
        requires node { (0 < node) × (node * 2 ^ down + 2 ^ down ≤ 64) }
        requires down { down ≤ WORD_LEVELS }
        ensures { IsRow self node down result }
    {
        let width = places_of(down);
        (self.bits >> (node << down)) & ((1u64 << width) - 1)
    }

    /// The largest level of a block whose places all lie in the run of this level at a place.
    pub fn largest_in(self, place: u32, level: u8) -> Option<u8>
        requires { IsPlace place level }
        ensures { IsLargestIn self place level result }
    {
        let node = node_of(place, level);
        'levels: for down in 0..=level {
            if self.row_below(node, down) != 0 {
                return Some(level - down);
            }
        }
        None
    }

    /// The first place where a block of this level starts.
    fn first_of(self, level: u8) -> Option<u32>
        requires { level ≤ WORD_LEVELS }
        ensures { IsFirstOf self level result }
    {
        let row = self.row_below(1, WORD_LEVELS - level);
        if row == 0 {
            None
        } else {
            Some(row.trailing_zeros() << level)
        }
    }

    /// The first block of this level or more: its place and its level.
    pub fn first(self, least: u8) -> Option<(u32, u8)>
        requires { least ≤ WORD_LEVELS }
        ensures { IsFirst self least result }
    {
        let mut first = None;
        let mut end = PLACES;
        'levels: for level in least..=WORD_LEVELS {
            let place = self.first_of(level).unwrap_or(PLACES);
            if place < end {
                first = Some((place, level));
                end = place;
            }
        }
        first
    }
}

/// The blocks of some words together, at their places in each. Each word is read once.
pub fn union(words: &Metered<Word>, from: usize, count: usize, meter: &mut Meter) -> Word
    requires inside { from + count ≤ length words.now }
    requires room { from + count < 2 ^ 64 }
    requires count { meter.old + count < 2 ^ 64 }
    ensures union { IsUnion words.now from count result }
    ensures counted { meter.new ≡ meter.old + count }
{
    let mut bits = 0;
    'words: for place in 0..count {
        let word = words.read(from + place, meter);
        bits |= word.bits;
    }
    Word { bits }
}
