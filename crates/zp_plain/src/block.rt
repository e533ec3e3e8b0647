//! Sets of pages: what `Block.antt` says, page by page.
ghost use Rattle.std.specs.Prelude.{◌≡◌, ◌<◌, ◌≤◌, ◌+◌, length};
ghost use Rattle.zp_model.specs.declared.constants.TheConstants.{LARGEST_ORDER};
ghost use Rattle.zp_plain.specs.declared.room.TheConstants.{PLAIN_PAGES};
ghost use Rattle.zp_model.specs.Block.{has, has_run, is_max, head as head_of, size};
ghost use Rattle.zp_model.specs.Runs.{is_within, with_pages, without_pages};

use zp_model::{Largest, Order, PageAt};

/// Whether a page is in the set.
pub fn has(set: &[bool], page: usize) -> bool
    ensures { result ≡ has set.now page }
{
    page < set.len() && set[page]
}

/// Whether the run of this order from a page on lies in the set.
pub fn has_run(set: &[bool], head: PageAt, order: Order) -> bool
    ensures { result ≡ has_run set.now head order }
{
    'pages: for i in 0..order.pages() as usize {
        if !has(set, head.index() + i) {
            return false;
        }
    }
    true
}

/// Whether the double of the block, the aligned run of the next order around it, lies in the set.
fn has_double(set: &[bool], head: PageAt, order: Order) -> bool
    requires { order < LARGEST_ORDER }
    ensures { result ≡ has_run set.now (head_of head (order + 1)) (order + 1) }
{
    let double = order.higher();
    has_run(
        set,
        PageAt::at(head.number() / double.pages() * double.pages()),
        double,
    )
}

/// Whether this is a maximal block of the set, where no block has an order above the largest.
#[tactic(auto, unfolding(zp_model::specs::Block::is_max))]
pub fn is_max(largest: Largest, set: &[bool], head: PageAt, order: Order) -> bool
    ensures { result ≡ is_max largest set.now head order }
{
    order.number() <= largest.number()
        && head.number() % order.pages() == 0
        && has_run(set, head, order)
        && (order.number() == largest.number() || !has_double(set, head, order))
}

/// The order of this number.
pub fn order_of(number: usize) -> Order
    requires { number ≤ LARGEST_ORDER }
    ensures { result ≡ number }
{
    Order::at(number as u8)
}

/// Whether a page is one of so many from this one on.
fn is_within(first: PageAt, pages: u32, page: usize) -> bool
    ensures { result ≡ is_within first pages page }
{
    first.index() <= page && page < first.index() + pages as usize
}

/// Puts so many pages from this one on into the set.
pub fn add_pages(set: &mut Vec<bool>, first: PageAt, pages: u32)
    ensures { set.new.items ≡ with_pages set.old.items first pages }
{
    'pages: for i in 0..set.len() {
        set[i] = set[i] || is_within(first, pages, i);
    }
}

/// Takes so many pages from this one on out of the set.
pub fn remove_pages(set: &mut Vec<bool>, first: PageAt, pages: u32)
    ensures { set.new.items ≡ without_pages set.old.items first pages }
{
    'pages: for i in 0..set.len() {
        set[i] = set[i] && !is_within(first, pages, i);
    }
}

/// How many pages the set has.
#[tactic(auto, unfolding(zp_model::specs::Block::size))]
pub fn size(set: &[bool]) -> u32
    requires { length set.now ≤ PLAIN_PAGES }
    ensures { result ≡ size set.now }
{
    let mut pages = 0;
    'pages: for mark in set {
        if *mark {
            pages += 1;
        }
    }
    pages
}
