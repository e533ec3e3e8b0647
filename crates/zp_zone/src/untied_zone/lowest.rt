//! The lowest run of free pages that is long enough, and that begins at a multiple of some power of two.
//!
//! Where a block begins, what is noted of its head tells where the next one does, so no page inside a block is looked at. Most blocks are not
//! looked at either. Whole groups of free pages are passed by the ranks of the status tree, one byte for each 1,024 pages. And where pages
//! are met that a run may not have, the search goes on at the next block that is large enough to be in a run, or a little before it: a run of
//! n pages has an aligned block of half of n + 1 pages in it. The place at which it goes on may lie inside a block, which is found by the heads
//! around it.
//!
//! In Linux: `alloc_contig_pages` tries the aligned runs of a zone, the lowest first, and looks at each page of them.
ghost use Rattle.std.specs.Prelude.{ℕ, ◌≡◌, ◌<◌, ◌≤◌, ◌+◌, ◌^◌, true, false, IfNone, IfSome};
ghost use Rattle.zp_model.specs.declared.constants.TheConstants.{BASE_LIMIT, LARGEST_ALIGNMENT, MAX_PAGES};
ghost use Rattle.zp_model.specs.Block.{is_max};
ghost use Rattle.zp_model.specs.Runs.{lowest_run, may_alloc_run};
ghost use Rattle.zp_model.specs.Zone.{pages_of};
ghost use Rattle.zp_zone.specs.Lowest.{IsFirstMultiple, IsNextStart, IsPassed, IsPassedFor};

use super::UntiedZone;
use zp_model::{LARGEST_BLOCK_PAGES, LARGEST_ORDER, Largest, Order, PageAt, State};

/// The pages past a block that a run may not have which are passed with it, before ranks are asked where the search goes on.
const PAGES_TOGETHER: u32 = 32;

/// Pages side by side, as a search passes them: how many, and whether a run may have them.
#[derive(Clone, Copy, Drop)]
struct PassedPages {
    count: u32,
    serve: bool,
}

impl UntiedZone {
    /// The lowest run of so many free pages outside isolated pageblocks that begins at an absolute page which is a multiple of two to the power
    /// `align`.
    pub fn lowest_run(&self, pages: u32, align: u8) -> Option<PageAt>
        requires { may_alloc_run pages align ≡ true }
        ensures { result ≡ lowest_run self.now.plain pages align }
    {
        let last = self.buddy.pages().checked_sub(pages)?;
        // the pages from `start` to `next` serve, but are too few, and no run begins before `start`
        let mut start = self.next_start(0, pages, align);
        let mut next: u32 = 0;
        'passes: while start <= last {
            // no run begins before `start`, so the pages before it need not be looked at
            next = next.max(start);
            let passed = self.pages_at(PageAt::at(next), start, pages, align);
            next += passed.count;
            if !passed.serve {
                start = self.next_start(next, pages, align);
            } else if next >= start + pages {
                return Some(PageAt::at(start));
            }
        }
        None
    }

    /// The first place from this page on at which a run may begin, as far as it is told by the groups of pages that have a free block, and by those
    /// that have one large enough to be in a run.
    fn next_start(&self, from: u32, pages: u32, align: u8) -> u32
        requires from { from ≤ MAX_PAGES }
        requires few { pages ≤ MAX_PAGES }
        requires may { may_alloc_run pages align ≡ true }
        ensures { IsNextStart self.now.plain pages align from result }
    {
        // a run begins in a free block of this order or more, or less than its pages before one
        let order = order_inside(pages, self.largest());
        let block = self.buddy.bare_until(from, order);
        // and its first page lies in a free block
        let free = self.buddy.bare_until(from, Order::zero());
        let first = from.max(free);
        let least = first.max(block.saturating_sub(order.pages() - 1));
        first_multiple(self.base, least, align)
    }

    /// Pages from this one on, in a search for so many pages that has come to `start`: they all serve, or no run begins from there on before their
    /// end. Those of whole groups are passed at once. So are those of a group that is not whole, where no run can begin inside it.
    fn pages_at(&self, at: PageAt, start: u32, pages: u32, align: u8) -> PassedPages
        requires may { may_alloc_run pages align ≡ true }
        requires order { at < start + pages }
        requires inside { start + pages ≤ pages_of self.now.plain }
        ensures { IsPassedFor self.now.plain pages align start at result.count result.serve }
    {
        // clauses of these calls say how large a block can be, and how many pages there can be
        let largest = self.largest().number();
        let _pages = self.pages();
        let next = at.number();
        let end = start + pages;
        let whole = self.buddy.whole_until(next, end);
        if whole > next {
            return PassedPages {
                count: whole - next,
                serve: true,
            };
        }
        if largest == LARGEST_ORDER
            && next % LARGEST_BLOCK_PAGES == 0
            && end - next >= LARGEST_BLOCK_PAGES
            && first_multiple(self.base, next + 1, align) - next >= LARGEST_BLOCK_PAGES
        {
            return PassedPages {
                count: LARGEST_BLOCK_PAGES,
                serve: false,
            };
        }
        self.blocks_at(at, align)
    }

    /// The pages of the block in which a page lies, from the page on. Where a run may not have them and may begin at any page, those of some blocks
    /// behind it that it may not have either are passed with them.
    fn blocks_at(&self, at: PageAt, align: u8) -> PassedPages
        requires { at < pages_of self.now.plain }
        ensures { IsPassed self.now.plain at result.count result.serve }
    {
        let block = self.block_at(at);
        if block.serve || align != 0 {
            return block;
        }
        PassedPages {
            count: self.passed_with(at, block.count),
            serve: false,
        }
    }

    /// How many pages a run may not have from this one on, up to the first block that it may have. So many are known to be such. Where it may have
    /// none of `PAGES_TOGETHER` behind them, no more are looked at.
    fn passed_with(&self, at: PageAt, count: u32) -> u32
        requires { IsPassed self.now.plain at count false }
        ensures { IsPassed self.now.plain at result false }
    {
        let pages = self.pages();
        let first = at.number();
        let mut next = first + count;
        let end = pages.min(next + PAGES_TOGETHER);
        'behind: while next < end {
            let Some(block) = self.block_headed(PageAt::at(next)) else {
                return next - first;
            };
            if block.serve {
                return next - first;
            }
            next += block.count;
        }
        next - first
    }

    /// The pages of the block in which a page lies, from the page on.
    fn block_at(&self, at: PageAt) -> PassedPages
        requires { at < pages_of self.now.plain }
        ensures { IsPassed self.now.plain at result.count result.serve }
    {
        if let Some(block) = self.block_headed(at) {
            return block;
        }
        self.rest_around(at)
    }

    /// The pages of the block that a page heads, where it heads one.
    #[inline(always)]
    fn block_headed(&self, at: PageAt) -> Option<PassedPages>
        requires { at < pages_of self.now.plain }
        ensures passed { IfSome result (λ p. IsPassed self.now.plain at p.count p.serve) }
        ensures whole { IfSome result (λ p. (k : ℕ) → is_max self.now.plain.area.largest self.now.plain.area.free at k ≡ true → p.count ≡ 2 ^ k) }
        ensures none { IfNone result ((k : ℕ) → is_max self.now.plain.area.largest self.now.plain.area.free at k ≡ true → ⊥) }
    {
        // a clause of this call says that what is noted as free is free
        let _pages = self.buddy.pages();
        match self.buddy.holding(at) {
            State::Free(order) => Some(PassedPages {
                count: order.pages(),
                serve: !self.buddy.type_of(at).is_isolate(),
            }),
            State::Out(order, _, _) => Some(PassedPages {
                count: order.pages(),
                serve: false,
            }),
            State::Posted(order, _, _) => Some(PassedPages {
                count: order.pages(),
                serve: false,
            }),
            State::Tail => None,
        }
    }

    /// The pages from this one on of the block in which it lies, where it heads none: one of the aligned heads around it is that of the block. At
    /// most as many pages are looked at as there are orders. A page in no block is passed alone.
    // (out of line: a search comes inside a block only where it goes on far away)
    #[inline(never)]
    fn rest_around(&self, at: PageAt) -> PassedPages
        requires inside { at < pages_of self.now.plain }
        requires tail { (k : ℕ) → is_max self.now.plain.area.largest self.now.plain.area.free at k ≡ true → ⊥ }
        ensures { IsPassed self.now.plain at result.count result.serve }
    {
        // a clause of this call says how large a block can be
        let largest = self.largest().number();
        let mut number = 1;
        'orders: while number <= largest {
            let order = Order::at(number);
            if let Some(rest) = self.rest_of(at.head(order), at) {
                return rest;
            }
            number += 1;
        }
        PassedPages {
            count: 1,
            serve: false,
        }
    }

    /// The pages from page `at` on of the block that page `head` heads, where it has that page.
    #[inline(always)]
    fn rest_of(&self, head: PageAt, at: PageAt) -> Option<PassedPages>
        requires inside { at < pages_of self.now.plain }
        requires before { head ≤ at }
        ensures passed { IfSome result (λ p. IsPassed self.now.plain at p.count p.serve) }
        ensures none { IfNone result ((k : ℕ) → is_max self.now.plain.area.largest self.now.plain.area.free head k ≡ true → head + 2 ^ k ≤ at) }
    {
        let Some(block) = self.block_headed(head) else {
            return None;
        };
        let next = at.number();
        let first = head.number();
        let before = next - first;
        if block.count <= before {
            return None;
        }
        Some(PassedPages {
            count: block.count - before,
            serve: block.serve,
        })
    }
}

/// The greatest order, at most the largest, of which there is an aligned block in each run of so many pages.
fn order_inside(pages: u32, largest: Largest) -> Order
    requires some { 0 < pages }
    requires few { pages ≤ MAX_PAGES }
    ensures inside { 2 ^ (result + 1) ≤ pages + 1 }
    ensures within { result ≤ largest }
    ensures greatest { result < largest → pages + 1 < 2 ^ (result + 2) }
{
    let fits = 31 - ((pages + 1) / 2).leading_zeros();
    Order::at(fits.min(u32::from(largest.number())) as u8)
}

/// The first place from this one on whose absolute page is a multiple of two to the power `align`, in a zone with this base.
fn first_multiple(base: u32, from: u32, align: u8) -> u32
    requires base { base ≤ BASE_LIMIT }
    requires from { from ≤ MAX_PAGES }
    requires align { align ≤ LARGEST_ALIGNMENT }
    ensures { IsFirstMultiple base from align result }
{
    let step = 1 << align;
    let number = (base + from + (step - 1)) >> align;
    (number << align) - base
}
