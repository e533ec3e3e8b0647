//! Zones of ours that stand for a machine's.
ghost use Rattle.std.specs.Prelude.{◌≡◌, IfSome, IfNone};
ghost use Rattle.zp_capture.specs.Plans.{CannotBe, HasPlace, in_place};

use crate::zone_info::MemoryZone;
use zp_model::{BASE_LIMIT, BASE_STEP, MAX_PAGES, Name};

/// What a zone of ours is made with: its first page is of the number that a zone can begin at, so it may have some pages more than the machine's.
#[derive(Clone, Copy, PartialEq, Eq, Debug, Drop)]
pub struct ZonePlan {
    /// The machine's node whose zone it is.
    pub node: u32,
    pub name: Name,
    /// Its first page, absolute.
    pub base: u32,
    pub pages: u32,
    /// Its least mark, in pages.
    pub min: u32,
}

/// The plan of a zone that stands for this one; none where it would be larger than a zone can be, or lie higher.
pub fn plan_of(zone: &MemoryZone) -> Option<ZonePlan>
    ensures some { IfSome result (λ p. (p ≡ in_place zone.now) × HasPlace zone.now) }
    ensures none { IfNone result (CannotBe zone.now) }
{
    let base = zone.start - zone.start % u64::from(BASE_STEP);
    let pages = zone.start.checked_add(zone.spanned)? - base;
    let (Ok(base), Ok(pages)) = (u32::try_from(base), u32::try_from(pages)) else {
        return None;
    };
    if base > BASE_LIMIT || pages == 0 || pages > MAX_PAGES {
        return None;
    }
    Some(ZonePlan {
        node: zone.node,
        name: zone.name,
        base,
        pages,
        min: u32::try_from(zone.min).unwrap_or(pages).min(pages),
    })
}
