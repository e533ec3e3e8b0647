//! The block that has a page.
ghost use Rattle.std.specs.Prelude.{◌≡◌, ◌↔◌, IfSome, IsSome};
ghost use Rattle.zp_zone.specs.NamedZone.{IsPageOf};
ghost use Rattle.zp_view.specs.Blocks.{LiesInBlock, reaches};

use zp_model::{Order, PageNo, State};
use zp_zone::Zone;

/// A block of a zone, free, out or posted: its first page, absolute, and what is noted there.
#[derive(Clone, Copy, PartialEq, Eq, Debug, Drop)]
pub struct ZoneBlock {
    pub first: PageNo,
    pub state: State,
}

/// Whether a block of this order at this page has the other page.
pub fn has_page(first: PageNo, order: Order, page: PageNo) -> bool
    ensures { result ≡ reaches (State.Free order) first page }
{
    first.number() <= page.number() && page.number() - first.number() < order.pages()
}

/// Whether the block that is noted at its first page has the other page.
fn reaches(state: State, first: PageNo, page: PageNo) -> bool
    ensures { result ≡ reaches state first page }
{
    match state {
        State::Tail => false,
        State::Free(order) | State::Out(order, _, _) | State::Posted(order, _, _) => {
            has_page(first, order, page)
        }
    }
}

/// The block that has this page, where the page is one of the zone. It is looked for from the page down: at once where it begins there.
pub fn block_around(zone: &Zone, page: PageNo) -> Option<ZoneBlock>
    ensures when { IsSome result ↔ IsPageOf zone.now.plain page }
    ensures block { IfSome result (λ b. LiesInBlock zone.now.plain page b.first b.state) }
{
    zone.entry(page)?;
    let number = page.number();
    'down: for back in 0..=number {
        let first = PageNo::new(number - back);
        if let Some(entry) = zone.entry(first) {
            if reaches(entry.state, first, page) {
                return Some(ZoneBlock {
                    first,
                    state: entry.state,
                });
            }
        }
    }
    // each zone is lawful, so that each of its pages lies in a block
    let _ = zone.counts();
    unreachable!()
}
