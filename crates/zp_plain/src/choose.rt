//! Which free block a request takes: what `Choose.antt` says, looked for on the lists.
ghost use Rattle.std.specs.Prelude.{◌≡◌};
ghost use Rattle.std.specs.List.{find};
ghost use Rattle.std.specs.Option.{option_map};
ghost use Rattle.zp_model.specs.BlockSet.{first_of, orders_from};
ghost use Rattle.zp_model.specs.Choose.{borrow, claim, choose, is_claimable, own};
ghost use Rattle.zp_plain.specs.Chosen.{as_chosen, claimable_at, front_at};

use crate::area::size_in;
use crate::block::order_of;
use crate::take::PlainArea;
use zp_model::{MigrateType, Order, PageAt};

/// A chosen block's head, and whether its pageblock is claimed.
#[derive(Clone, Copy, Drop)]
pub struct PlainChoice {
    pub head: PageAt,
    pub claims: bool,
}

/// The front of the first list of this order and of one of these types that has one.
fn front_of(area: &PlainArea, order: Order, kinds: &[MigrateType]) -> Option<PageAt>
    ensures { result ≡ first_of (front_at area.now order) kinds.now }
{
    'kinds: for kind in kinds {
        if let Some(head) = area.front(order, kind.pageblock_type()) {
            return Some(head);
        }
    }
    None
}

/// The same over the orders from `order` on, the least first.
fn first_front(area: &PlainArea, order: Order, kinds: &[MigrateType]) -> Option<PageAt>
    ensures { result ≡ first_of (λ o. first_of (front_at area.now o) kinds.now) (orders_from area.now.largest order) }
{
    let end = area.orders();
    'orders: for number in order.index()..end {
        if let Some(head) = front_of(area, order_of(number), kinds) {
            return Some(head);
        }
    }
    None
}

/// The least block of the type's own.
fn own(area: &PlainArea, order: Order, kind: MigrateType) -> Option<PageAt>
    ensures { result ≡ own area.now order kind }
{
    first_front(area, order, &[kind])
}

/// The least block of another type.
fn borrow(area: &PlainArea, order: Order, kind: MigrateType) -> Option<PageAt>
    ensures { result ≡ borrow area.now order kind }
{
    first_front(area, order, &kind.fallbacks())
}

/// Whether a request for this type may claim by the block of this order at a page.
fn is_claimable(area: &PlainArea, kind: MigrateType, order: Order, head: PageAt) -> bool
    ensures { result ≡ is_claimable area.now kind order head }
{
    let largest = area.largest();
    (order.number() >= largest.least_movable_claim() || kind != MigrateType::Movable)
        && size_in(largest, area.marks(), largest.pageblock_of(head)) >= largest.claim_pages()
}

/// The first block of a list that may be claimed.
fn claimable_on(
    area: &PlainArea,
    list: &[PageAt],
    kind: MigrateType,
    order: Order,
) -> Option<PageAt>
    ensures { result ≡ find (is_claimable area.now kind order) list.now }
{
    'heads: for head in list {
        if is_claimable(area, kind, order, *head) {
            return Some(*head);
        }
    }
    None
}

/// The first block of this order and of one of these types that may be claimed.
fn claimable_of(
    area: &PlainArea,
    kind: MigrateType,
    order: Order,
    kinds: &[MigrateType],
) -> Option<PageAt>
    ensures { result ≡ first_of (claimable_at area.now kind order) kinds.now }
{
    'kinds: for from in kinds {
        if let Some(head) = claimable_on(
            area,
            area.list(order, from.pageblock_type()),
            kind,
            order,
        ) {
            return Some(head);
        }
    }
    None
}

/// The largest block of another type that may be claimed.
fn claim(area: &PlainArea, order: Order, kind: MigrateType) -> Option<PageAt>
    ensures { result ≡ claim area.now order kind }
{
    let mut left = area.orders();
    'orders: while left > order.index() {
        left -= 1;
        if let Some(head) = claimable_of(area, kind, order_of(left), &kind.fallbacks()) {
            return Some(head);
        }
    }
    None
}

/// The block that a request for a block of this order and type takes.
pub fn choose(area: &PlainArea, order: Order, kind: MigrateType) -> Option<PlainChoice>
    ensures { option_map as_chosen result ≡ choose area.now order kind }
{
    if let Some(head) = own(area, order, kind) {
        return Some(PlainChoice {
            head,
            claims: false,
        });
    }
    if let Some(head) = claim(area, order, kind) {
        return Some(PlainChoice { head, claims: true });
    }
    let head = borrow(area, order, kind)?;
    Some(PlainChoice {
        head,
        claims: false,
    })
}
