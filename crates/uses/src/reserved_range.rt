//! A range of pages that is kept out of a zone for a while, as a kernel keeps its image, or a driver a buffer that the hardware wants in one piece.
ghost use Rattle.std.specs.Prelude.{◌≡◌, ◌<◌, ◌≤◌, length, IfErr};
ghost use Rattle.zp_share.specs.Shares.{IsShareOf};
ghost use Rattle.zp_share.specs.ZoneShares.{IsRunRefusal};

use zp_model::{PageNo, Refused};
use zp_share::{Share, Zones};

/// Takes the run of so many pages at this page out of the zone at this place, and frees it. A run that was got is never refused 20 when it is freed.
pub fn reserve_for_a_while<Z: Zones>(
    zones: &mut Z,
    share: &mut Share,
    zone: usize,
    page: PageNo,
    pages: u32,
) -> Result<(), Refused>
    requires fits { IsShareOf (Z.keys zones.old) share.old }
    requires zone { zone < length share.old.zones }
    ensures why { IfErr result IsRunRefusal }
    ensures fits { IsShareOf (Z.keys zones.new) share.new }
{
    let first = zones.alloc_run_at(share, zone, page, pages)?;
    // From here to the `free_run` the pages are this worker's.
    zones.free_run(share, zone, first, pages)
}
