//! Gathering the shares of all workers: where the pages of each zone are.
ghost use Rattle.std.specs.Prelude.{ℕ, ◌≡◌, ◌<◌, ◌≤◌, ◌+◌, All, length, map};
ghost use Rattle.std.specs.List.{sum_by};
ghost use Rattle.zp_model.specs.declared.constants.TheConstants.{MAX_PAGES, MAX_ZONES};
ghost use Rattle.zp_zone.specs.Seats.{IsSeatOf};
ghost use Rattle.zp_share.specs.Commands.{zone_at};
ghost use Rattle.zp_share.specs.Shares.{ShareState, IsShareOf, key_of, named_zone, plain, share_at};
ghost use Rattle.zp_share.specs.Gathering.{AddsUp, IsCrewOf, IsOneOf, cached_pages, gathered, owns_at, totals_of};

use crate::share::Share;
use arrayvec::ArrayVec;
use zp_model::MAX_ZONES;
use zp_zone::Zone;

/// How many pages of a zone are free, posted, on workers' lists, and lent.
#[derive(Clone, Copy, PartialEq, Eq, Debug, Default, Drop)]
pub struct Totals {
    pub free: u32,
    pub posted: u32,
    pub cached: u32,
    pub lent: u32,
}

/// Where the pages of each zone are, with the shares of all its workers. All stay as they were; each share is checked with each
/// zone.
pub fn gather(zones: &mut [Zone], shares: &mut [Share]) -> ArrayVec<Totals, MAX_ZONES>
    requires few { length zones.old ≤ MAX_ZONES }
    requires fits { All (IsShareOf (map key_of zones.old)) shares.old }
    requires crew { All (IsCrewOf shares.old) zones.old }
    ensures zones { zones.new ≡ zones.old }
    ensures shares { shares.new ≡ shares.old }
    ensures totals { result.items ≡ gathered (map named_zone zones.old) (map plain shares.old) }
    ensures adds_up { (i : ℕ) → i < length zones.old → AddsUp (zone_at (map named_zone zones.old) i).plain (owns_at (map plain shares.old) i) }
{
    let mut totals = ArrayVec::new();
    for place in 0..zones.len() {
        totals.push(gather_zone(&mut zones[place], shares, place));
    }
    totals
}

/// Where the pages of the zone at this place are. All stay as they were; each share is checked with the zone.
pub fn gather_zone(zone: &mut Zone, shares: &mut [Share], place: usize) -> Totals
    requires place { All (λ (s : ShareState). place < length s.zones) shares.old }
    requires fits { All (λ s. IsSeatOf zone.old (share_at s place).seat) shares.old }
    requires crew { IsCrewOf shares.old zone.old }
    ensures zone { zone.new ≡ zone.old }
    ensures shares { shares.new ≡ shares.old }
    ensures agree { All (IsOneOf zone.old place) shares.old }
    ensures totals { result ≡ totals_of zone.old.plain (owns_at (map plain shares.old) place) }
    ensures adds_up { AddsUp zone.old.plain (owns_at (map plain shares.old) place) }
{
    check_all(zone, shares, place);
    let pages = zone.pages();
    let free = zone.counts().free;
    let posted = zone.posted_pages();
    let cached = cached_pages(shares, place);
    Totals {
        free,
        posted,
        cached,
        // the shares agree with the zone, so what is left is lent
        lent: pages - free - posted - cached,
    }
}

/// Nothing changes, and each share agrees with the zone at this place.
fn check_all(zone: &mut Zone, shares: &mut [Share], place: usize)
    requires place { All (λ (s : ShareState). place < length s.zones) shares.old }
    requires fits { All (λ s. IsSeatOf zone.old (share_at s place).seat) shares.old }
    ensures zone { zone.new ≡ zone.old }
    ensures shares { shares.new ≡ shares.old }
    ensures agree { All (IsOneOf zone.old place) shares.old }
{
    for share in shares {
        share.check(zone, place);
    }
}

/// How many pages are on the shares' lists for the zone at this place.
fn cached_pages(shares: &[Share], place: usize) -> u32
    requires place { All (λ (s : ShareState). place < length s.zones) shares.now }
    requires few { sum_by cached_pages (owns_at (map plain shares.now) place) ≤ MAX_PAGES }
    ensures { result ≡ sum_by cached_pages (owns_at (map plain shares.now) place) }
{
    let mut pages = 0;
    for share in shares {
        pages += share.cached_pages(place);
    }
    pages
}
