//! What is noted of the pageblocks for a claim, so that none has to look at all of them. A change of a pageblock marks it alone; it is
//! looked at when a claim asks, or when too many are marked.
ghost use Rattle.std.specs.Prelude.{ℕ, ◌≡◌, ◌<◌, ◌↔◌, length, slice_index, slice_set, IsTrue};
ghost use Rattle.zp_model.specs.Choose.{claim_pages};
ghost use Rattle.zp_claims.specs.Noted.{noted_at};
ghost use Rattle.zp_area.specs.Claims.{claim_of, IsClaimed, IsClaimedBut, IsPageblock};

use crate::kept_blocks::KeptBlocks;
use zp_claims::{Claim, ClaimTable, StaleSet};
use zp_model::PageAt;

/// Whether a pageblock has fewer free pages than a claim needs.
#[inline(always)]
fn has_few(blocks: &KeptBlocks, pageblock: usize) -> bool
    requires { pageblock < length blocks.now.free_in.items }
    ensures { IsTrue result ↔ (slice_index blocks.now.free_in.items pageblock < claim_pages blocks.now.largest) }
{
    blocks.free_in[pageblock] < blocks.largest.claim_pages()
}

/// What is to be noted of a pageblock: nothing, where it is isolated. Mostly its number of free pages or its largest block says so.
#[inline(always)]
fn claim_of(blocks: &KeptBlocks, pageblock: usize) -> Option<Claim>
    requires { IsPageblock blocks.now.largest blocks.now.tree blocks.now.kinds.items blocks.now.free_in.items pageblock }
    ensures { result ≡ claim_of blocks.now.largest blocks.now.tree blocks.now.kinds.items pageblock }
{
    if has_few(blocks, pageblock) {
        return None;
    }
    let first = PageAt::at(pageblock as u32 * blocks.largest.pageblock_pages());
    let order = blocks.tree.largest_in(first, blocks.largest.order())?;
    if order.number() + 1 >= blocks.largest.number() {
        return None;
    }
    let kind = blocks.kinds[pageblock].migrate_type()?;
    Some(Claim { kind, order })
}

/// What is noted of the pageblocks, and which of them have changed since.
#[derive(Drop)]
pub struct Noted {
    pub claims: ClaimTable,
    pub stale: StaleSet,
}

/// Notes anew what a pageblock is.
fn note(claims: &mut ClaimTable, blocks: &KeptBlocks, pageblock: usize)
    requires pageblock { IsPageblock blocks.now.largest blocks.now.tree blocks.now.kinds.items blocks.now.free_in.items pageblock }
    requires room { pageblock < length claims.old }
    ensures { claims.new ≡ slice_set claims.old pageblock (claim_of blocks.now.largest blocks.now.tree blocks.now.kinds.items pageblock) }
{
    let claim = claim_of(blocks, pageblock);
    claims.note(pageblock, claim);
}

/// Marks a pageblock that has changed. Where too many are marked then, another one is looked at. But where nothing is noted of this one,
/// and it has too few free pages for a claim, that is right: it is not marked, and none is looked at.
// (out of line: most changes are of a pageblock that is marked)
#[cold]
#[inline(never)]
fn mark(noted: &mut Noted, blocks: &KeptBlocks, pageblock: usize)
    requires pageblocks { (b : ℕ) → b < length blocks.now.kinds.items → IsPageblock blocks.now.largest blocks.now.tree blocks.now.kinds.items blocks.now.free_in.items b }
    requires inside { pageblock < length blocks.now.kinds.items }
    requires others { IsClaimedBut pageblock blocks.now.largest blocks.now.tree blocks.now.kinds.items noted.old.claims noted.old.stale.marks }
    ensures { IsClaimed blocks.now.largest blocks.now.tree blocks.now.kinds.items noted.new.claims noted.new.stale.marks }
{
    if noted.stale.is_full() && has_few(blocks, pageblock) && !noted.claims.has(pageblock) {
        return;
    }
    if let Some(other) = noted.stale.mark(pageblock) {
        note(&mut noted.claims, blocks, other);
    }
}

/// The same of a pageblock that may be marked already.
#[inline(always)]
pub fn changed(noted: &mut Noted, blocks: &KeptBlocks, pageblock: usize)
    requires pageblocks { (b : ℕ) → b < length blocks.now.kinds.items → IsPageblock blocks.now.largest blocks.now.tree blocks.now.kinds.items blocks.now.free_in.items b }
    requires inside { pageblock < length blocks.now.kinds.items }
    requires others { IsClaimedBut pageblock blocks.now.largest blocks.now.tree blocks.now.kinds.items noted.old.claims noted.old.stale.marks }
    ensures { IsClaimed blocks.now.largest blocks.now.tree blocks.now.kinds.items noted.new.claims noted.new.stale.marks }
{
    if !noted.stale.has(pageblock) {
        mark(noted, blocks, pageblock);
    }
}

/// Looks at each pageblock that is marked, and notes anew what it is.
#[inline(never)]
pub fn look_at_marked(noted: &mut Noted, blocks: &KeptBlocks)
    requires pageblocks { (b : ℕ) → b < length blocks.now.kinds.items → IsPageblock blocks.now.largest blocks.now.tree blocks.now.kinds.items blocks.now.free_in.items b }
    requires claimed { IsClaimed blocks.now.largest blocks.now.tree blocks.now.kinds.items noted.old.claims noted.old.stale.marks }
    ensures claimed { IsClaimed blocks.now.largest blocks.now.tree blocks.now.kinds.items noted.new.claims noted.new.stale.marks }
    ensures all { (b : ℕ) → noted_at noted.new.claims b ≡ claim_of blocks.now.largest blocks.now.tree blocks.now.kinds.items b }
{
    'marked: while let Some(pageblock) = noted.stale.next() {
        note(&mut noted.claims, blocks, pageblock);
    }
}
