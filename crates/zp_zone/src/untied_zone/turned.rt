//! Pages of a block that stand next to each other: how many of the first pages of a drain come back as one block.
//!
//! Of a page p the other half of its block of order k + 1 is the block of order k around p XOR 2^k. So if the d-th page is p XOR d for each d
//! below 2^k, the first pages are those of a block: rising where p is its first page, falling where p is its last one, and else turned in
//! halves. Lists give back pages in these orders, as a refill fills them with pages of a block.
ghost use Rattle.std.specs.Prelude.{ℕ, ◌≡◌, ◌<◌, ◌≤◌, ◌+◌, ◌*◌, ◌^◌, length, true, bit_xor, slice_index_or};
ghost use Rattle.zp_zone.specs.Runs.{AreTurned};

use zp_model::{BASE_LIMIT, Order, PageAt, PageNo};

/// Whether, after the first pages, as many as a block of this order has, as many again are those of the other half.
fn is_other_half(base: u32, first: PageAt, order: Order, pages: &[PageNo]) -> bool
    requires base { base ≤ BASE_LIMIT }
    ensures room { result ≡ true → 2 * 2 ^ order ≤ length pages.now }
    ensures turned { result ≡ true → (d : ℕ) → 2 ^ order ≤ d → d < 2 * 2 ^ order → slice_index_or pages.now d 0 ≡ base + bit_xor first d }
{
    let half = order.pages() as usize;
    if pages.len() < 2 * half {
        return false;
    }
    'pages: for it in half..2 * half {
        if pages[it].number() != base + (first.number() ^ it as u32) {
            return false;
        }
    }
    true
}

/// The order of the block whose pages the first ones are.
// (out of line: most pages stand alone)
#[inline(never)]
fn longer_order(base: u32, first: PageAt, largest: Order, pages: &[PageNo]) -> Order
    requires base { base ≤ BASE_LIMIT }
    requires some { 0 < length pages.now }
    requires first { slice_index_or pages.now 0 0 ≡ base + first }
    ensures within { result ≤ largest }
    ensures room { 2 ^ result ≤ length pages.now }
    ensures turned { AreTurned base pages.now first result }
{
    let mut order = Order::zero();
    'halves: while order.number() < largest.number() && is_other_half(base, first, order, pages) {
        order = order.higher();
    }
    order
}

/// The order of the block, no larger than the largest, whose pages the first ones are: 0 where the first one stands alone.
// (in line, so that a page that stands alone is seen by one compare)
#[inline(always)]
pub fn turned_order(base: u32, first: PageAt, largest: Order, pages: &[PageNo]) -> Order
    requires base { base ≤ BASE_LIMIT }
    requires some { 0 < length pages.now }
    requires first { slice_index_or pages.now 0 0 ≡ base + first }
    ensures within { result ≤ largest }
    ensures room { 2 ^ result ≤ length pages.now }
    ensures turned { AreTurned base pages.now first result }
{
    if pages.len() < 2 || pages[1].number() != base + (first.number() ^ 1) {
        return Order::zero();
    }
    longer_order(base, first, largest, pages)
}
