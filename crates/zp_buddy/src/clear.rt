//! Whether a block may come back: no page of it is free or on a list past the free ones.
//!
//! In Linux: `free_pages_check`.
ghost use Rattle.std.specs.Prelude.{◌≡◌, ◌<◌, ◌≤◌, ◌+◌, ◌%◌, ◌^◌, ◌↔◌, ℕ, length, IsTrue};
ghost use Rattle.zp_model.specs.Block.{IsBlock, head};
ghost use Rattle.zp_model.specs.BlockSet.{Starts};
ghost use Rattle.zp_area.specs.Given.{IsClearRun};
ghost use Rattle.zp_area.specs.Blocks.{block_set};

use zp_area::FreeArea;
use zp_model::{Order, PageAt};

/// Whether there is a block of this order at `at`.
pub fn is_block(area: &FreeArea, at: PageAt, order: Order) -> bool
    ensures { IsTrue result ↔ IsBlock area.now.largest (length area.now.rows.states) at order }
{
    order.number() <= area.largest().number()
        && at.number() % order.pages() == 0
        && at.number() + order.pages() <= area.pages()
}

/// Whether a page lies in a free block of more than this order.
fn is_in_larger(area: &FreeArea, at: PageAt, order: Order) -> bool
    ensures { IsTrue result ↔ ((k : ℕ) × (order < k) × (k ≤ area.now.largest) × Starts (block_set area.now) (head at k) k) }
{
    let mut larger = order;
    'orders: while larger.number() < area.largest().number() {
        larger = larger.higher();
        if area.is_free(at.head(larger), larger) {
            return true;
        }
    }
    false
}

/// Whether no page of the block is free or on a list past the free ones. A free block that has a page of it has all of it, or
/// its head lies there and stands on a list.
pub fn is_clear_run(area: &FreeArea, at: PageAt, order: Order) -> bool
    requires { IsBlock area.now.largest (length area.now.rows.states) at order }
    ensures { IsTrue result ↔ IsClearRun area.now.largest area.now.rows.states area.now.rows.lists at order }
{
    // clauses of this call say that the lists hold the heads of the free blocks
    let _pages = area.pages();
    if is_in_larger(area, at, order) {
        return false;
    }
    'pages: for i in at.number()..at.number() + order.pages() {
        if area.on_any(PageAt::at(i)) {
            return false;
        }
    }
    true
}
