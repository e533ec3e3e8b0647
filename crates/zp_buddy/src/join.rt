//! Giving a block back to the free area.
//!
//! In Linux: `__free_one_page`.
ghost use Rattle.std.specs.Prelude.{◌≡◌, ◌+◌, ◌^◌, length};
ghost use Rattle.zp_model.specs.Block.{size};
ghost use Rattle.zp_model.specs.BlockSet.{cover};
ghost use Rattle.zp_model.specs.Frames.{IsClear, given};
ghost use Rattle.zp_buddy.specs.Sound.{IsSound};
ghost use Rattle.zp_area.specs.Blocks.{block_set};
ghost use Rattle.zp_buddy.specs.Choices.{frames_in};

use zp_area::FreeArea;
use zp_model::{Order, PageAt, State};

/// Joins a block that comes back with its free buddies as far as that goes, and adds the joined block.
#[inline(always)]
pub fn join(area: &mut FreeArea, at: PageAt, order: Order)
    requires sound { IsSound area.old.largest area.old.rows.states area.old.kinds area.old.rows.lists }
    requires clear { IsClear (frames_in area.old.largest area.old) at order }
    ensures largest { area.new.largest ≡ area.old.largest }
    ensures sound { IsSound area.old.largest area.new.rows.states area.new.kinds area.new.rows.lists }
    ensures pages { length area.new.rows.states ≡ length area.old.rows.states }
    ensures kinds { area.new.kinds ≡ area.old.kinds }
    ensures size { size (cover (block_set area.new)) ≡ size (cover (block_set area.old)) + 2 ^ order }
    ensures after { frames_in area.old.largest area.new ≡ given (frames_in area.old.largest area.old) at order }
{
    area.hold(at, State::Tail);
    area.join_up(at, order);
}
