//! The opening of a zone: all pages free.
//!
//! In Linux: `memmap_init` and `memblock_free_all`.
ghost use Rattle.std.specs.Prelude.{◌≡◌, ◌<◌, ◌≤◌, ◌+◌, ◌^◌, length};
ghost use Rattle.zp_model.specs.Area.{lists_count};
ghost use Rattle.zp_buddy.specs.Opened.{IsOpenedTo, all_movable};

use zp_area::FreeArea;
use zp_model::{Order, PageAt};

/// The largest order, at most `most`, of a block with no more than so many pages.
fn fitting(most: Order, pages: u32) -> Order
    requires { 0 < pages }
    ensures within { result ≤ most }
    ensures fits { 2 ^ result ≤ pages }
    ensures largest { result < most → pages < 2 ^ (result + 1) }
{
    let mut order = most;
    'orders: while pages < order.pages() {
        order = order.lower();
    }
    order
}

/// Adds all pages, in blocks as large as they can be, the lowest first.
pub fn add_all_pages(area: &mut FreeArea)
    requires table { lists_count area.old.largest ≤ length area.old.rows.lists }
    requires movable { area.old.kinds ≡ all_movable area.old.largest (length area.old.rows.states) }
    requires bare { IsOpenedTo area.old.largest (length area.old.rows.states) 0 area.old.rows.states area.old.rows.lists }
    ensures largest { area.new.largest ≡ area.old.largest }
    ensures opened { IsOpenedTo area.old.largest (length area.old.rows.states) (length area.old.rows.states) area.new.rows.states area.new.rows.lists }
    ensures table { length area.new.rows.lists ≡ length area.old.rows.lists }
    ensures kinds { area.new.kinds ≡ area.old.kinds }
{
    let pages = area.pages();
    let mut at = 0;
    let mut order = area.largest().order();
    'heads: while at < pages {
        order = fitting(order, pages - at);
        area.add(PageAt::at(at), order);
        at += order.pages();
    }
}
