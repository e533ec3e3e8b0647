//! Takes the block that a request gets. In Linux: `steal_suitable_fallback`, then `expand`.
//!
//! Nothing is kept here: the free area has the blocks, and `choice.rt` says which one a request gets. `take` does at most four steps:
//!
//! 1. `FreeArea::take_first`: the front of the first list of the request's own type that is not empty, from the request's order upwards. It
//!    leaves its list, its high halves come to theirs, and the head of the low run is the answer.
//! 2. Where there is none, `claimed_block`: the largest block of another type whose pageblock has half of its pages free, where it is large
//!    enough for the request and for its type. The request claims that pageblock: `FreeArea::retype` gives it the request's type and moves
//!    its free blocks to the lists of that type.
//! 3. Where nothing can be claimed, `borrowed_block`: the smallest block of another type that serves. Its pageblock keeps its type.
//! 4. `FreeArea::split_off` takes the block of step 2 or 3, as step 1 does its own.
//!
//! Most requests need step 1 alone, so the others stand out of line (`take_foreign`) and take no registers from it. The list on which the
//! block was found says its pageblock's type, and that it stands in front: neither is read again.
//!
//! Cost, where m is the zone's largest order: step 1 looks at m + 1 fronts and splits m times at most. To learn its order a
//! claim looks at four fronts, and then at 64 pageblocks and 22 counts at most. It then walks the lists of that order alone, to the first
//! block whose pageblock has pages enough. At orders m and m - 1 that is the front; below them many blocks can stand before it.
ghost use Rattle.std.specs.Prelude.{◌≡◌, ◌≤◌, ◌<◌, ◌^◌, length, None, Some};
ghost use Rattle.zp_model.specs.Choose.{own};
ghost use Rattle.zp_model.specs.Frames.{with_area};
ghost use Rattle.zp_model.specs.Take.{taken};
ghost use Rattle.zp_buddy.specs.Sound.{IsSound};
ghost use Rattle.zp_buddy.specs.Choices.{IsFreeBlock, IsTaken, area_in, chosen_of, frames_in};
ghost use Rattle.zp_buddy.specs.Runs.{IsRunOf};

use crate::choice::{Choice, FreeBlock, foreign_choice};
use crate::split::take_block;
use zp_area::FreeArea;
use zp_model::{MigrateType, Order, PageAt};

/// Takes the low run of order `order` of the chosen block, and returns its head. A pageblock that is claimed gets the request's type first.
fn take_chosen(area: &mut FreeArea, chosen: Choice, order: Order, kind: MigrateType) -> PageAt
    requires chosen { IsFreeBlock area.old order chosen.block }
    requires sound { IsSound area.old.largest area.old.rows.states area.old.kinds area.old.rows.lists }
    ensures largest { area.new.largest ≡ area.old.largest }
    ensures sound { IsSound area.old.largest area.new.rows.states area.new.kinds area.new.rows.lists }
    ensures head { result ≡ chosen.block.head }
    ensures pages { length area.new.rows.states ≡ length area.old.rows.states }
    ensures typed { length area.new.kinds ≡ length area.old.kinds }
    ensures after { frames_in area.old.largest area.new ≡ with_area (frames_in area.old.largest area.old) (taken (frames_in area.old.largest area.old).area order kind (Some (chosen_of chosen))) }
{
    // clauses of this call say that each pageblock has a type, and after a change of type that the lists are of the set
    let _pages = area.pages();
    let FreeBlock {
        head,
        order: found,
        kind: own,
    } = chosen.block;
    if !chosen.claims {
        take_block(area, head, found, own, order);
        return head;
    }
    area.retype(area.largest().pageblock_of(head), kind.pageblock_type());
    let _pages = area.pages();
    take_block(area, head, found, kind, order);
    head
}

/// Takes a block of another type, where none of the request's own type serves.
// (out of line, as most requests find one of their own)
#[cold]
#[inline(never)]
fn take_foreign(area: &mut FreeArea, order: Order, kind: MigrateType) -> Option<PageAt>
    requires own { own (area_in area.old.largest area.old) order kind ≡ None }
    requires sound { IsSound area.old.largest area.old.rows.states area.old.kinds area.old.rows.lists }
    ensures { IsTaken area.old order kind area.new result }
{
    let chosen = foreign_choice(area, order, kind)?;
    Some(take_chosen(area, chosen, order, kind))
}

/// Takes the block that a request for a block of this order and type gets: its head, where there is one.
#[inline(always)]
pub fn take(area: &mut FreeArea, order: Order, kind: MigrateType) -> Option<PageAt>
    requires { IsSound area.old.largest area.old.rows.states area.old.kinds area.old.rows.lists }
    ensures { IsTaken area.old order kind area.new result }
{
    if let Some(head) = area.take_first(order, kind) {
        return Some(head);
    }
    take_foreign(area, order, kind)
}

/// Takes pages in a row off the smallest block of the request's own type: as many as a block has, `most` of them or fewer. Where the type has
/// no block, one page as `take` does. The first page, and how many.
#[inline(always)]
pub fn take_run(area: &mut FreeArea, kind: MigrateType, most: u32) -> Option<(PageAt, u32)>
    requires some { 0 < most }
    requires sound { IsSound area.old.largest area.old.rows.states area.old.kinds area.old.rows.lists }
    ensures { IsRunOf area.old kind most area.new result }
{
    // a clause of this call says that all that is kept is of one set of blocks
    let _pages = area.pages();
    if let Some(found) = area.take_first_pages(kind, most) {
        return Some(found);
    }
    let head = take_foreign(area, Order::zero(), kind)?;
    Some((head, 1))
}
