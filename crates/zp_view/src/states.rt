//! The states of pages: what the zone notes of the block that has a page, and whether its worker has that lent or in a list.
ghost use Rattle.std.specs.Prelude.{◌≡◌, ◌↔◌, IfNone, IfOk, IfSome, IsNone, IsSome, Some};
ghost use Rattle.std.specs.Option.{ForSome};
ghost use Rattle.zp_zone.specs.NamedZone.{IsPageOf};
ghost use Rattle.zp_view.specs.States.{IsPageBlock, IsRowFrom, IsStateOf, IsWhole, order_noted};

use crate::blocks::{block_around, has_page};
use crate::page_state::PageState;
use std::alloc::{AllocError, Global};
use zp_model::{BASE_LIMIT, Order, PageNo, State, Worker};
use zp_zone::Zone;

/// Who has the shares of a row of zones, and so knows which blocks are lent: what is out to a worker and not lent to it is in its lists.
pub trait Lenders {
    ghost use Rattle.std.specs.Prelude.{ℕ, Bool};

    // Of the zone at this place, whether the worker has the block lent that begins at this page, of this order.
    ghost lent: { Self → ℕ → ℕ → ℕ → ℕ → Bool };

    fn is_lent(&self, worker: Worker, zone: usize, page: PageNo, order: Order) -> bool
        ensures { result ≡ lent self.now zone worker page order };
}

/// A block of a zone, whose pages are all in one state: its first page, absolute, and its order.
#[derive(Clone, Copy, PartialEq, Eq, Debug, Drop)]
pub struct PageBlock {
    pub first: PageNo,
    pub order: Order,
    pub state: PageState,
}

/// The block that is noted at its first page, where one is.
fn block_noted<L: Lenders>(
    lenders: &L,
    place: usize,
    first: PageNo,
    noted: State,
) -> Option<PageBlock>
    ensures none { IsNone result → noted ≡ State.Tail }
    ensures first { IfSome result (λ b. b.first ≡ first) }
    ensures order { IfSome result (λ b. order_noted noted ≡ Some b.order) }
    ensures state { IfSome result (λ b. IsStateOf (L.lent lenders.now place) first noted b.state) }
{
    let (order, state) = match noted {
        State::Tail => return None,
        State::Free(order) => (order, PageState::Free(order)),
        State::Posted(order, _, worker) => (order, PageState::Posted(worker)),
        State::Out(order, _, worker) => {
            if lenders.is_lent(worker, place, first, order) {
                (order, PageState::Out(worker))
            } else {
                (order, PageState::Cached(worker))
            }
        }
    };
    Some(PageBlock {
        first,
        order,
        state,
    })
}

/// The block that has this page, where the page is one of the zone, which stands at this place of its row.
pub fn block_at<L: Lenders>(
    zone: &Zone,
    lenders: &L,
    place: usize,
    page: PageNo,
) -> Option<PageBlock>
    ensures when { IsSome result ↔ IsPageOf zone.now.plain page }
    ensures block { IfSome result (IsPageBlock (L.lent lenders.now place) zone.now.plain page) }
{
    let block = block_around(zone, page)?;
    match block_noted(lenders, place, block.first, block.state) {
        Some(block) => Some(block),
        None => unreachable!(),
    }
}

/// The block that has this page: the one before, where that has it.
#[tactic(auto, using(crate::proofs::Wholes::whole_of))]
fn block_after<L: Lenders>(
    zone: &Zone,
    lenders: &L,
    place: usize,
    before: Option<PageBlock>,
    page: PageNo,
) -> Option<PageBlock>
    requires before { ForSome before (IsWhole (L.lent lenders.now place) zone.now.plain) }
    ensures none { IfNone result (IsPageOf zone.now.plain page → ⊥) }
    ensures block { IfSome result (IsPageBlock (L.lent lenders.now place) zone.now.plain page) }
    ensures whole { IfSome result (IsWhole (L.lent lenders.now place) zone.now.plain) }
{
    if let Some(block) = before {
        if has_page(block.first, block.order, page) {
            return Some(block);
        }
    }
    block_at(zone, lenders, place, page)
}

/// The states of the pages of a zone, which stands at this place of its row, from the page `first` on, where the zone begins; from another page
/// on those that are the zone's, and none from a page on that lies above the base of each zone.
pub fn page_row<L: Lenders>(
    alloc: Global,
    zone: &Zone,
    lenders: &L,
    place: usize,
    first: PageNo,
) -> Result<Vec<PageState>, AllocError>
    ensures { IfOk result (λ row. IsRowFrom (L.lent lenders.now place) zone.now.plain first row.items) }
{
    let mut row = Vec::new(alloc);
    if first.number() > BASE_LIMIT {
        return Ok(row);
    }
    let mut before = None;
    'pages: for offset in 0..zone.pages() {
        let page = PageNo::new(first.number() + offset);
        let Some(block) = block_after(zone, lenders, place, before, page) else {
            return Ok(row);
        };
        row.push(block.state)?;
        before = Some(block);
    }
    Ok(row)
}
