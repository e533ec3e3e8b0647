//! The numbers of `/proc/pagetypeinfo`.
//!
//! In Linux: `pagetypeinfo_showfree` and `pagetypeinfo_showblockcount`.
ghost use Rattle.std.specs.Prelude.{◌≡◌, ◌≤◌, ◌<◌, ◌+◌};
ghost use Rattle.zp_model.specs.declared.constants.TheConstants.{BASE_LIMIT};
ghost use Rattle.zp_model.specs.Area.{kind_at, pageblocks_of};
ghost use Rattle.zp_model.specs.Zone.{pages_of};
ghost use Rattle.zp_view.specs.Tables.{is_kind, is_typed_block, typed_blocks, typed_pageblocks};

use zp_model::{Order, PageNo, PageblockType, State};
use zp_zone::Zone;

/// Whether a place of the zone lies in a pageblock of this type.
fn is_in_kind(zone: &Zone, place: u32, kind: PageblockType) -> bool
    requires { place < pages_of zone.now.plain }
    ensures { result ≡ is_kind kind (kind_at zone.now.plain.area.largest zone.now.plain.area.kinds place) }
{
    let _ = zone.counts();
    match zone.pageblock(place / zone.largest().pageblock_pages()) {
        Some(pageblock) => pageblock.kind.number() == kind.number(),
        None => unreachable!(),
    }
}

/// Whether a free block of this order begins at a page of the zone, which stands at this place of it, in a pageblock of this type.
fn is_typed_block(zone: &Zone, page: PageNo, place: u32, order: Order, kind: PageblockType) -> bool
    requires page { page ≡ zone.now.plain.base + place }
    requires place { place < pages_of zone.now.plain }
    ensures { result ≡ is_typed_block zone.now.plain.area order kind place }
{
    match zone.entry(page) {
        Some(entry) => entry.state == State::Free(order) && is_in_kind(zone, place, kind),
        None => unreachable!(),
    }
}

/// How many free blocks of this order the zone has in pageblocks of this type; `first` is the zone's first page.
pub fn free_blocks(zone: &Zone, first: PageNo, order: Order, kind: PageblockType) -> u32
    requires first { first ≡ zone.now.plain.base }
    requires low { first ≤ BASE_LIMIT }
    ensures { result ≡ typed_blocks zone.now.plain.area order kind }
{
    let mut blocks = 0;
    'places: for place in 0..zone.pages() {
        let page = PageNo::new(first.number() + place);
        if is_typed_block(zone, page, place, order, kind) {
            blocks += 1;
        }
    }
    blocks
}

/// How many pageblocks of this type the zone has; the last may be short.
pub fn pageblocks(zone: &Zone, kind: PageblockType) -> u32
    ensures { result ≡ typed_pageblocks zone.now.plain.area kind }
{
    let _ = zone.counts();
    let pages = zone.largest().pageblock_pages();
    let mut count = 0;
    'pageblocks: for number in 0..(zone.pages() + (pages - 1)) / pages {
        match zone.pageblock(number) {
            Some(pageblock) => {
                if pageblock.kind.number() == kind.number() {
                    count += 1;
                }
            }
            None => unreachable!(),
        }
    }
    count
}
