//! Giving back pages in a row, as many as a list drains: they come back the highest first, as lists do, and few blocks come and go.
//!
//! Given back one by one, the pages of an aligned run leave what its block does, given back once. So the run goes back by its last blocks, each as
//! large as the run and its end allow. A free buddy behind such a block would be joined with it, and the two with pages of the run before
//! them: it leaves the area first, and comes back with the run, whose end moves behind it. Of 31 pages before a free one, as those of a block
//! that a list was filled from, one block of 32 comes back.
//!
//! In Linux: `free_pcppages_bulk`, which gives back each page by itself.
ghost use Rattle.std.specs.Prelude.{◌≡◌, ◌≤◌, ◌<◌, ◌+◌, ◌-◌, ◌%◌, ◌^◌, length, IfSome};
ghost use Rattle.zp_model.specs.declared.state.State.TheVariants.{Free};
ghost use Rattle.zp_model.specs.PageblockType.{pageblock_type};
ghost use Rattle.zp_model.specs.Area.{kind_at};
ghost use Rattle.zp_model.specs.Block.{size};
ghost use Rattle.zp_model.specs.BlockSet.{cover};
ghost use Rattle.zp_model.specs.Frames.{with_area};
ghost use Rattle.zp_model.specs.Rows.{state_at};
ghost use Rattle.zp_model.specs.RunLaws.{IsFitting};
ghost use Rattle.zp_area.specs.Blocks.{block_set};
ghost use Rattle.zp_buddy.specs.Choices.{frames_in};
ghost use Rattle.zp_buddy.specs.FallingRuns.{AreTails, IsGivingAs, falling_run};
ghost use Rattle.zp_buddy.specs.Runs.{AreClear, gives};
ghost use Rattle.zp_buddy.specs.Sound.{IsSound};

use crate::join::join;
use crate::split::take_block;
use zp_area::FreeArea;
use zp_model::{Largest, MigrateType, Order, PageAt};

/// The order of the largest block that a run, from one page up to another, ends with.
#[inline(always)]
fn last_order(from: u32, end: u32, largest: Largest) -> Order
    requires { from < end }
    ensures { IsFitting largest end (end - from) result }
{
    let aligned = end.trailing_zeros();
    let fits = 31 - (end - from).leading_zeros();
    Order::at(aligned.min(fits).min(u32::from(largest.number())) as u8)
}

/// The type for which the free buddy behind the last block of a run leaves, where there is one. That of an isolated pageblock stays, as does
/// one that is joined with no page of the run before the block.
#[inline(always)]
fn behind(area: &FreeArea, from: u32, end: u32, order: Order) -> Option<MigrateType>
    requires last { IsFitting area.now.largest end (end - from) order }
    ensures order { IfSome result (λ kind. order < area.now.largest) }
    ensures double { IfSome result (λ kind. (end - 2 ^ order) % 2 ^ (order + 1) ≡ 0) }
    ensures free { IfSome result (λ kind. state_at area.now.rows.states end ≡ Free order) }
    ensures typed { IfSome result (λ kind. pageblock_type kind ≡ kind_at area.now.largest area.now.kinds end) }
{
    // a clause of this call says how many pages there can be
    let pages = area.pages();
    if order.number() >= area.largest().number()
        || end - from <= order.pages()
        || end / order.pages() % 2 == 0
        || end >= pages
        || !area.is_free(PageAt::at(end), order)
    {
        return None;
    }
    let kind = area.type_of(area.largest().pageblock_of(PageAt::at(end)));
    if kind.is_isolate() {
        return None;
    }
    Some(kind.noted())
}

/// Takes the free blocks that would be joined with the last block of a run off the area, as long as there is one. The end of the run is behind
/// them then, and its last block has this order.
#[inline(always)]
fn take_behind(area: &mut FreeArea, from: u32, end: u32) -> (u32, Order)
    requires some { from < end }
    requires sound { IsSound area.old.largest area.old.rows.states area.old.kinds area.old.rows.lists }
    requires clear { AreClear (frames_in area.old.largest area.old) from (end - from) }
    requires tails { AreTails (frames_in area.old.largest area.old) from end }
    ensures same { IsGivingAs area.old.largest area.old area.new from end result.0 }
    ensures tails { AreTails (frames_in area.old.largest area.new) from end }
    ensures last { IsFitting area.old.largest result.0 (result.0 - from) result.1 }
    ensures before { result.0 - 2 ^ result.1 < end }
{
    let largest = area.largest();
    let mut end = end;
    let mut order = last_order(from, end, largest);
    'buddies: while let Some(kind) = behind(area, from, end, order) {
        take_block(area, PageAt::at(end), order, kind, order);
        end += order.pages();
        order = last_order(from, end, largest);
    }
    (end, order)
}

/// Gives back the last block of a run, joined with its free buddies. The end of what is left.
#[inline(always)]
fn give_last(area: &mut FreeArea, from: u32, end: u32) -> u32
    requires some { from < end }
    requires sound { IsSound area.old.largest area.old.rows.states area.old.kinds area.old.rows.lists }
    requires clear { AreClear (frames_in area.old.largest area.old) from (end - from) }
    requires tails { AreTails (frames_in area.old.largest area.old) from end }
    ensures same { IsGivingAs area.old.largest area.old area.new from end result }
    ensures tails { AreTails (frames_in area.old.largest area.new) from result }
    ensures less { result < end }
{
    let (behind, order) = take_behind(area, from, end);
    let left = behind - order.pages();
    join(area, PageAt::at(left), order);
    left
}

/// Gives back pages in a row, of which nothing is noted, one after another, the highest first.
pub fn give_falling(area: &mut FreeArea, at: PageAt, pages: u32)
    requires sound { IsSound area.old.largest area.old.rows.states area.old.kinds area.old.rows.lists }
    requires clear { AreClear (frames_in area.old.largest area.old) at pages }
    requires tails { AreTails (frames_in area.old.largest area.old) at (at + pages) }
    ensures largest { area.new.largest ≡ area.old.largest }
    ensures sound { IsSound area.old.largest area.new.rows.states area.new.kinds area.new.rows.lists }
    ensures pages { length area.new.rows.states ≡ length area.old.rows.states }
    ensures kinds { area.new.kinds ≡ area.old.kinds }
    ensures size { size (cover (block_set area.new)) ≡ size (cover (block_set area.old)) + pages }
    ensures after { frames_in area.old.largest area.new ≡ with_area (frames_in area.old.largest area.old) (gives (frames_in area.old.largest area.old).area (falling_run at pages)) }
{
    let from = at.number();
    let mut end = from + pages;
    'parts: while from < end {
        end = give_last(area, from, end);
    }
}
