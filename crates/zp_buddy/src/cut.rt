//! The cut of a run of pages: the aligned blocks that tile it, each as large as its place and the rest of the run allow.
//!
//! In Linux: the loop of `__free_pages_memory`.
ghost use Rattle.std.specs.Prelude.{ℕ, ◌≡◌, ◌≤◌, ◌<◌, ◌+◌, ◌^◌};
ghost use Rattle.zp_model.specs.declared.constants.TheConstants.{MAX_PAGES};
ghost use Rattle.zp_model.specs.Block.{head};
ghost use Rattle.zp_model.specs.Runs.{fitting_order};

use zp_model::{Largest, Order, PageAt};

/// The order of the first block of the cut of so many pages from this one on: the largest that may begin them. It is told by the zeros that its
/// place and their number have behind and in front.
#[inline(always)]
pub fn fitting_order(largest: Largest, at: PageAt, pages: u32) -> Order
    requires { 0 < pages }
    ensures { result ≡ fitting_order largest at pages }
{
    let aligned = at.number().trailing_zeros();
    let fits = 31 - pages.leading_zeros();
    Order::at(aligned.min(fits).min(u32::from(largest.number())) as u8)
}

/// The order of the least aligned run that has so many pages from this one on. One of order `most` has them.
pub fn covering_order(largest: Largest, at: PageAt, pages: u32, most: Order) -> Order
    requires some { 0 < pages }
    requires within { at + pages ≤ head at most + 2 ^ most }
    requires few { at + pages ≤ MAX_PAGES }
    ensures most { result ≤ most }
    ensures within { at + pages ≤ head at result + 2 ^ result }
    ensures least { (k : ℕ) → k < result → head at k + 2 ^ k < at + pages }
{
    let end = at.number() + pages;
    // (a run of one block is its own: then none larger is looked at)
    let mut order = fitting_order(largest, at, pages);
    'orders: while at.head(order).number() + order.pages() < end {
        order = order.higher();
    }
    order
}
