//! Taking a block out of the free area and splitting it.
//!
//! In Linux: `del_page_from_free_list` and `expand`.
ghost use Rattle.std.specs.Prelude.{◌≡◌, ◌≤◌, length};
ghost use Rattle.zp_model.specs.PageblockType.{pageblock_type};
ghost use Rattle.zp_model.specs.Area.{kind_at};
ghost use Rattle.zp_model.specs.BlockSet.{Starts};
ghost use Rattle.zp_model.specs.Frames.{with_area};
ghost use Rattle.zp_model.specs.Take.{leave};
ghost use Rattle.zp_buddy.specs.Sound.{IsSound};
ghost use Rattle.zp_buddy.specs.Choices.{frames_in};
ghost use Rattle.zp_area.specs.Blocks.{block_set};

use zp_area::FreeArea;
use zp_model::{MigrateType, Order, PageAt};

/// Takes the free block of order `found` at `head`, in a pageblock of type `kind`, which is so not isolated, splits it down to `order`, and leaves its low part out
/// of the area.
#[inline(always)]
pub fn take_block(area: &mut FreeArea, head: PageAt, found: Order, kind: MigrateType, order: Order)
    requires down { order ≤ found }
    requires free { Starts (block_set area.old) head found }
    requires typed { pageblock_type kind ≡ kind_at area.old.largest area.old.kinds head }
    requires sound { IsSound area.old.largest area.old.rows.states area.old.kinds area.old.rows.lists }
    ensures largest { area.new.largest ≡ area.old.largest }
    ensures sound { IsSound area.old.largest area.new.rows.states area.new.kinds area.new.rows.lists }
    ensures pages { length area.new.rows.states ≡ length area.old.rows.states }
    ensures kinds { area.new.kinds ≡ area.old.kinds }
    ensures after { frames_in area.old.largest area.new ≡ with_area (frames_in area.old.largest area.old) (leave (frames_in area.old.largest area.old).area head order) }
{
    area.split_off(head, found, order, kind);
}
