//! Which free block a request takes: one of its own type's, one of a pageblock that it claims, or one that it borrows.
//!
//! In Linux: `__rmqueue_smallest`, and `find_suitable_fallback` with `__rmqueue_fallback`.
ghost use Rattle.std.specs.Prelude.{◌≡◌, ◌≤◌, ◌||◌, not, leb, IfSome, None};
ghost use Rattle.std.specs.List.{find};
ghost use Rattle.zp_model.specs.declared.migrate_type.MigrateType.TheVariants.{Movable};
ghost use Rattle.zp_model.specs.BlockSet.{first_of, orders_from, Starts};
ghost use Rattle.zp_model.specs.Area.{kind_at};
ghost use Rattle.zp_model.specs.MigrateType.{same_type};
ghost use Rattle.zp_model.specs.PageblockType.{pageblock_type};
ghost use Rattle.zp_model.specs.Choose.{own, claim, borrow, least_movable_claim, origin};
ghost use Rattle.zp_area.specs.Blocks.{block_set, free_list_of};
ghost use Rattle.zp_area.specs.Claims.{is_half_free};
ghost use Rattle.zp_buddy.specs.Choices.{area_in, front_of_order, half_free_of_order, IsFoundAs, IsChosen};

use zp_area::FreeArea;
use zp_model::{Largest, MigrateType, Order, Origin, PageAt};

/// A free block, and the type of its pageblock.
#[derive(Clone, Copy, PartialEq, Eq, Debug, Drop)]
pub struct FreeBlock {
    pub head: PageAt,
    pub order: Order,
    pub kind: MigrateType,
}

/// The block that a request takes, and whether it claims the block's pageblock first.
#[derive(Clone, Copy, PartialEq, Eq, Debug, Drop)]
pub struct Choice {
    pub block: FreeBlock,
    pub claims: bool,
}

/// Whether a request for this type may claim by a block of this order at all.
fn may_claim(largest: Largest, order: Order, kind: MigrateType) -> bool
    ensures { result ≡ (leb (least_movable_claim largest) order || not (same_type kind Movable)) }
{
    order.number() >= largest.least_movable_claim() || kind != MigrateType::Movable
}

/// The block in front of the first list of this order and of one of these types that isn't empty.
fn front_of(area: &FreeArea, order: Order, kinds: &[MigrateType]) -> Option<FreeBlock>
    ensures { IsFoundAs area.now order (front_of_order area.now.largest area.now kinds.now order) result }
{
    'kinds: for kind in kinds {
        if let Some(head) = area.front(order, kind.pageblock_type()) {
            let kind = *kind;
            return Some(FreeBlock { head, order, kind });
        }
    }
    None
}

/// The same over the orders from `order` on, the least first.
fn first_front(area: &FreeArea, order: Order, kinds: &[MigrateType]) -> Option<FreeBlock>
    ensures { IsFoundAs area.now order (first_of (front_of_order area.now.largest area.now kinds.now) (orders_from area.now.largest order)) result }
{
    let mut number = order.number();
    'orders: while number <= area.largest().number() {
        if let Some(block) = front_of(area, Order::at(number), kinds) {
            return Some(block);
        }
        number += 1;
    }
    None
}

/// The smallest block that serves of another type.
fn borrowed_block(area: &FreeArea, order: Order, kind: MigrateType) -> Option<FreeBlock>
    ensures { IsFoundAs area.now order (borrow (area_in area.now.largest area.now) order kind) result }
{
    first_front(area, order, &kind.fallbacks())
}

/// The first block of a list in whose pageblock half of the pages are free.
fn half_free_on(area: &FreeArea, order: Order, kind: MigrateType) -> Option<PageAt>
    ensures found { result ≡ find (is_half_free area.now.largest area.now) (free_list_of area.now.largest area.now order (pageblock_type kind)) }
    ensures starts { IfSome result (λ at. Starts (block_set area.now) at order) }
    ensures typed { IfSome result (λ at. pageblock_type kind ≡ kind_at area.now.largest area.now.kinds at) }
{
    // a clause of this call says that no page stands twice
    let _pages = area.pages();
    let largest = area.largest();
    let list = kind.pageblock_type();
    let mut next = area.front(order, list);
    'heads: while let Some(head) = next {
        if area.free_in(largest.pageblock_of(head)) >= largest.claim_pages() {
            return Some(head);
        }
        next = area.after(order, list, head);
    }
    None
}

/// The first block of this order and of one of these types in whose pageblock half of the pages are free.
fn half_free_of(area: &FreeArea, order: Order, kinds: &[MigrateType]) -> Option<FreeBlock>
    ensures { IsFoundAs area.now order (half_free_of_order area.now.largest area.now kinds.now order) result }
{
    'kinds: for kind in kinds {
        if let Some(head) = half_free_on(area, order, *kind) {
            let kind = *kind;
            return Some(FreeBlock { head, order, kind });
        }
    }
    None
}

/// The largest block of another type that may be claimed. Its order is known beforehand, so that lists of that order alone are
/// walked, and none where there is no such block.
fn claimed_block(area: &mut FreeArea, order: Order, kind: MigrateType) -> Option<FreeBlock>
    ensures answer { IsFoundAs area.old order (claim (area_in area.old.largest area.old) order kind) result }
    ensures same { area.new ≡ area.old }
{
    // a clause of this call says that the lists hold the heads of the blocks
    let _pages = area.pages();
    let largest = area.largest_claimable(kind)?;
    if largest.number() < order.number() || !may_claim(area.largest(), largest, kind) {
        return None;
    }
    half_free_of(area, largest, &kind.fallbacks())
}

/// The block that a request takes where none of its own type serves.
pub fn foreign_choice(area: &mut FreeArea, order: Order, kind: MigrateType) -> Option<Choice>
    requires { own (area_in area.old.largest area.old) order kind ≡ None }
    ensures answer { IsChosen area.old.largest area.old order kind result }
    ensures same { area.new ≡ area.old }
{
    if let Some(block) = claimed_block(area, order, kind) {
        return Some(Choice {
            block,
            claims: true,
        });
    }
    let block = borrowed_block(area, order, kind)?;
    Some(Choice {
        block,
        claims: false,
    })
}

/// Where the block comes from that a request takes, where there is one.
pub fn origin(area: &mut FreeArea, order: Order, kind: MigrateType) -> Option<Origin>
    ensures answer { result ≡ origin (area_in area.old.largest area.old) order kind }
    ensures same { area.new ≡ area.old }
{
    if let Some(_) = first_front(area, order, &[kind]) {
        return Some(Origin::Own);
    }
    if let Some(_) = claimed_block(area, order, kind) {
        return Some(Origin::Claimed);
    }
    if let Some(_) = borrowed_block(area, order, kind) {
        return Some(Origin::Borrowed);
    }
    None
}
