//! What is noted of each pageblock.
ghost use Rattle.std.specs.Prelude.{ℕ, ◌≡◌, ◌<◌, ◌≤◌, ◌↔◌, length, replicate, slice_set, is_some, None, Some, IfOk, IsTrue};
ghost use Rattle.zp_model.specs.declared.constants.TheConstants.{MAX_PAGES};
ghost use Rattle.zp_claims.specs.Noted.{noted_at, IsBeside, IsLargestBeside};
ghost use Rattle.zp_claims.specs.Codes.{claim_of};
ghost use Rattle.zp_claims.specs.declared.code.TheConstants.{CODES};

use crate::claim::Claim;
use crate::code::{CODES, code_of};
use std::alloc::{AllocError, Global};
use std::marker::Model;
use zp_model::{MigrateType, ORDERS, Order};

/// What is noted of each pageblock, and how many are noted with each type and order. Contracts see what is noted of each.
#[derive(Drop)]
pub struct ClaimTable {
    codes: Vec<u8>,
    /// How many pageblocks have each code.
    numbers: [u32; CODES],
}

impl Model for ClaimTable {
    ghost use Rattle.std.specs.Prelude.{List, Option, map};
    ghost use Rattle.zp_claims.specs.declared.claim.Claim.{Claim};
    ghost use Rattle.zp_claims.specs.Codes.{IsNumbered, claim_of};

    ghost Value = { List (Option Claim) };

    ghost view = { λ t. map claim_of t.codes.items };

    ghost invariant = { λ t. IsNumbered t.codes.items t.numbers };
}

impl ClaimTable {
    /// A table of so many pageblocks with nothing noted.
    pub fn new(alloc: Global, pageblocks: usize) -> Result<ClaimTable, AllocError>
        requires { pageblocks ≤ MAX_PAGES }
        ensures { IfOk result (λ t. t ≡ replicate pageblocks None) }
    {
        let nothing = code_of(None);
        let codes = Vec::from_elem(alloc, nothing, pageblocks)?;
        let mut numbers = [0; CODES];
        numbers[nothing as usize] = pageblocks as u32;
        Ok(ClaimTable { codes, numbers })
    }

    /// Whether anything is noted of a pageblock.
    pub fn has(&self, pageblock: usize) -> bool
        requires { pageblock < length self.now }
        ensures { result ≡ is_some (noted_at self.now pageblock) }
    {
        let nothing = code_of(None);
        self.codes[pageblock] != nothing
    }

    /// Notes this of a pageblock.
    #[inline(always)]
    pub fn note(&mut self, pageblock: usize, claim: Option<Claim>)
        requires { pageblock < length self.old }
        ensures { self.new ≡ slice_set self.old pageblock claim }
    {
        let code = code_of(claim);
        if self.codes[pageblock] != code {
            self.note_anew(pageblock, code);
        }
    }

    /// The same where something else was noted.
    // (out of line, as most notes change nothing)
    #[cold]
    #[inline(never)]
    fn note_anew(&mut self, pageblock: usize, code: u8)
        requires inside { pageblock < length self.old }
        requires code { code < CODES }
        ensures { self.new ≡ slice_set self.old pageblock (claim_of code) }
    {
        let old = self.codes[pageblock] as usize;
        self.numbers[old] -= 1;
        self.numbers[code as usize] += 1;
        self.codes[pageblock] = code;
    }

    /// Whether a pageblock is noted with this type and order.
    fn is_noted(&self, kind: MigrateType, order: Order) -> bool
        ensures { IsTrue result ↔ ((b : ℕ) × (noted_at self.now b ≡ Some (record { kind = kind; order = order }))) }
    {
        self.numbers[code_of(Some(Claim { kind, order })) as usize] > 0
    }

    /// Whether a pageblock is noted with this order and a type other than this one.
    fn is_noted_beside(&self, kind: MigrateType, order: Order) -> bool
        ensures { IsTrue result ↔ ((b : ℕ) × IsBeside self.now kind b order) }
    {
        let [one, other] = kind.fallbacks();
        self.is_noted(one, order) || self.is_noted(other, order)
    }

    /// The largest order that is noted with a type other than this one.
    pub fn largest_beside(&self, kind: MigrateType) -> Option<Order>
        ensures { IsLargestBeside self.now kind result }
    {
        // that each pageblock has one of the codes is known where they are in reach
        let _codes = &self.codes;
        let mut left = ORDERS as u8;
        'orders: while 0 < left {
            left -= 1;
            let order = Order::at(left);
            if self.is_noted_beside(kind, order) {
                return Some(order);
            }
        }
        None
    }
}
