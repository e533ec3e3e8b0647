//! Which pages are free, and taking a free block whole.
//!
//! In Linux: `is_free_buddy_page` and `del_page_from_free_list`.
ghost use Rattle.std.specs.Prelude.{◌≡◌, ◌≤◌, ◌+◌, length};
ghost use Rattle.zp_model.specs.BlockSet.{Starts, cover};
ghost use Rattle.zp_model.specs.Frames.{with_area};
ghost use Rattle.zp_model.specs.Runs.{IsFreeRun, has_pages};
ghost use Rattle.zp_model.specs.Take.{leave};
ghost use Rattle.zp_area.specs.Blocks.{block_set};
ghost use Rattle.zp_buddy.specs.Choices.{area_in, frames_in};
ghost use Rattle.zp_buddy.specs.Sound.{IsSound};

use zp_area::FreeArea;
use zp_model::{Order, PageAt};

/// Whether so many pages from this one on are all free. They are looked at by the free blocks in which they lie.
pub fn is_free_run(area: &FreeArea, at: PageAt, pages: u32) -> bool
    requires { at + pages ≤ length area.now.rows.states }
    ensures { result ≡ has_pages (cover (block_set area.now)) at pages }
{
    // a clause of this call says that all that is kept is of one set of blocks
    let _pages = area.pages();
    let end = at.number() + pages;
    let mut next = at.number();
    'looks: while next < end {
        let page = PageAt::at(next);
        let Some(order) = area.order_around(page) else {
            return false;
        };
        next = page.head(order).number() + order.pages();
    }
    true
}

/// Takes a free block out of the free area whole.
#[inline(always)]
pub fn take_whole(area: &mut FreeArea, at: PageAt, order: Order)
    requires free { Starts (block_set area.old) at order }
    requires sound { IsSound area.old.largest area.old.rows.states area.old.kinds area.old.rows.lists }
    ensures largest { area.new.largest ≡ area.old.largest }
    ensures sound { IsSound area.old.largest area.new.rows.states area.new.kinds area.new.rows.lists }
    ensures pages { length area.new.rows.states ≡ length area.old.rows.states }
    ensures kinds { area.new.kinds ≡ area.old.kinds }
    ensures after { frames_in area.old.largest area.new ≡ with_area (frames_in area.old.largest area.old) (leave (frames_in area.old.largest area.old).area at order) }
{
    // a clause of this call says that all that is kept is of one set of blocks
    let _pages = area.pages();
    area.remove(at, order);
}
