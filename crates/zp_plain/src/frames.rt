//! What is noted of each page, and which blocks are clear: what `Frames.antt` says, page by page.
ghost use Rattle.std.specs.Prelude.{◌≡◌, ◌≤◌, ◌+◌, ◌^◌, ◌↔◌, ℕ, true, length, IsTrue};
ghost use Rattle.zp_plain.specs.declared.room.TheConstants.{PLAIN_PAGES};
ghost use Rattle.zp_model.specs.Block.{IsBlock};
ghost use Rattle.zp_model.specs.Rows.{list_at, stands_in};
ghost use Rattle.zp_model.specs.Frames.{restate, restated, IsClear};
ghost use Rattle.zp_plain.specs.Clear.{open_frames, IsClearRun};

use crate::area::stands_in;
use crate::block::has;
use crate::block_set::block_at;
use crate::page_row::PageRow;
use crate::room::PLAIN_PAGES;
use zp_model::{Largest, Order, PageAt, State};

/// What is noted of a page that heads this free block, or none.
fn restate(block: Option<Order>, note: State) -> State
    ensures { result ≡ restate block note }
{
    match block {
        Some(order) => State::Free(order),
        None => match note {
            State::Free(_) => State::Tail,
            State::Tail => State::Tail,
            State::Out(order, kind, worker) => State::Out(order, kind, worker),
            State::Posted(order, kind, worker) => State::Posted(order, kind, worker),
        },
    }
}

/// Notes of each page whether it heads a free block.
pub fn restate_all(largest: Largest, free: &[bool], notes: &mut Vec<State>)
    requires pages { length notes.old.items ≡ length free.now }
    requires small { length free.now ≤ PLAIN_PAGES }
    ensures { notes.new.items ≡ restated largest free.now notes.old.items }
{
    'pages: for i in 0..notes.len() {
        notes[i] = restate(block_at(largest, free, PageAt::at(i as u32)), notes[i]);
    }
}

/// Whether this is a block of a zone of so many pages.
fn is_block(largest: Largest, pages: usize, head: PageAt, order: Order) -> bool
    ensures { IsTrue result ↔ IsBlock largest pages head order }
{
    order.number() <= largest.number()
        && head.number() % order.pages() == 0
        && head.index() + order.pages() as usize <= pages
}

/// Whether a page stands on a further list.
fn is_aside(sides: &[PageRow], page: PageAt) -> bool
    ensures { IsTrue result ↔ ((r : ℕ) × (stands_in page (list_at sides.now r) ≡ true)) }
{
    'sides: for side in sides {
        if stands_in(page, side.as_slice()) {
            return true;
        }
    }
    false
}

/// Whether none of so many pages from this one on is free or on a further list.
pub fn is_clear_run(free: &[bool], sides: &[PageRow], first: PageAt, pages: u32) -> bool
    requires { first + pages ≤ PLAIN_PAGES }
    ensures { IsTrue result ↔ IsClearRun free.now sides.now first pages }
{
    'pages: for i in first.index()..first.index() + pages as usize {
        if has(free, i) || is_aside(sides, PageAt::at(i as u32)) {
            return false;
        }
    }
    true
}

/// Whether this is a block of the zone of which no page is free or on a further list.
pub fn is_clear(
    largest: Largest,
    free: &[bool],
    sides: &[PageRow],
    head: PageAt,
    order: Order,
) -> bool
    requires { length free.now ≤ PLAIN_PAGES }
    ensures { IsTrue result ↔ IsClear (open_frames largest free.now sides.now) head order }
{
    is_block(largest, free.len(), head, order) && is_clear_run(free, sides, head, order.pages())
}
