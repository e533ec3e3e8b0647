//! Moving the free blocks of a pageblock to the lists of another type.
//!
//! In Linux: `move_freepages_block`.
ghost use Rattle.std.specs.Prelude.{◌≡◌, ◌≢◌, ◌<◌, ◌≤◌, ℕ, length, slice_index_or, slice_set};
ghost use Rattle.zp_model.specs.declared.state.State.TheVariants.{Free};
ghost use Rattle.zp_model.specs.declared.pageblock_type.PageblockType.TheVariants.{Movable};
ghost use Rattle.zp_model.specs.Rows.{state_at, IsOn};
ghost use Rattle.zp_model.specs.Area.{list_number};
ghost use Rattle.zp_area.specs.Moved.{moved, pages_seen};
ghost use Rattle.zp_area.specs.Retyped.{all_relisted};
ghost use Rattle.zp_area.specs.OneSet.{IsOneSet};

use crate::free_lists::list_of;
use zp_links::Lists;
use zp_model::{Largest, PageAt, PageblockType, State};

/// Moves the free block that starts at a page, if one does, to the front of the list of another type. Returns how many pages
/// it has, or 1 where none starts.
fn move_block(lists: &mut Lists, at: PageAt, from: PageblockType, to: PageblockType) -> u32
    requires page { at < length lists.old.states }
    requires list { (k : ℕ) → state_at lists.old.states at ≡ Free k → list_number k to < length lists.old.lists }
    requires listed { (k : ℕ) → state_at lists.old.states at ≡ Free k → IsOn lists.old.lists (list_number k from) at }
    ensures after { lists.new ≡ moved lists.old at from to (state_at lists.old.states at) }
    ensures pages { result ≡ pages_seen (state_at lists.old.states at) }
{
    // a clause of this call says that no page stands twice and each is one of the zone's
    let _pages = lists.pages();
    if let State::Free(order) = lists.state(at) {
        lists.remove(list_of(order, from), at);
        lists.push_front(list_of(order, to), at);
        return order.pages();
    }
    1
}

/// Gives a pageblock another type, and moves its free blocks to the lists of that type, the lowest first.
#[cold]
#[inline(never)]
pub fn retype(
    lists: &mut Lists,
    kinds: &mut Vec<PageblockType>,
    largest: Largest,
    pageblock: usize,
    kind: PageblockType,
)
    requires one { IsOneSet largest (record { largest = largest; rows = lists.old; kinds = kinds.old.items }) }
    requires pageblock { pageblock < length kinds.old.items }
    requires other { kind ≢ slice_index_or kinds.old.items pageblock Movable }
    ensures states { lists.new.states ≡ lists.old.states }
    ensures kinds { kinds.new.items ≡ slice_set kinds.old.items pageblock kind }
    ensures lists { lists.new.lists ≡ all_relisted largest (record { largest = largest; rows = lists.old; kinds = kinds.old.items }) kinds.new.items }
{
    let from = kinds[pageblock];
    let size = largest.pageblock_pages() as usize;
    let first = pageblock * size;
    let end = lists.pages().min(first + size);
    let mut i = first;
    'pages: while i < end {
        let seen = move_block(lists, PageAt::at(i as u32), from, kind);
        i = end.min(i + seen as usize);
    }
    kinds[pageblock] = kind;
}
