//! Which blocks the workers of a capture's zones have lent.

use zp_model::{Order, PageNo, Worker};
use zp_share::Share;
use zp_view::Lenders;

/// The shares of all workers, in order. Past the last worker, and past the last zone, nothing is lent.
#[derive(Clone, Copy, Drop)]
pub struct ShareRow<'a> {
    pub shares: &'a [Share],
}

impl Lenders for ShareRow<'_> {
    ghost use Rattle.std.specs.Prelude.{map, slice_index_or};
    ghost use Rattle.zp_share.specs.PlainShares.{lends, own_at};
    ghost use Rattle.zp_share.specs.Shares.{plain};
    ghost use Rattle.zp_kernel.specs.Crews.{no_share};

    ghost lent = { λ r i w p k. lends (own_at (slice_index_or (map plain r.shares.now) w no_share) i) p k };

    fn is_lent(&self, worker: Worker, zone: usize, page: PageNo, order: Order) -> bool {
        match self.shares.get(usize::from(worker.number())) {
            Some(share) if zone < share.zones() => share.is_lent(zone, page, order),
            _ => false,
        }
    }
}
