//! Nothing of what was asked of a zone.

use crate::keeps::Keeps;
use zp_model::Entry;

/// No entry is kept. The zone's history is there in the proofs alone, as that of any zone is, and the zone can be asked for as long as
/// its sections can be numbered.
#[derive(Drop)]
pub struct NoJournal;

impl Keeps for NoJournal {
    ghost use Rattle.std.specs.Prelude.{◌≡◌};
    ghost use Rattle.zp_model.specs.Run.{IsHistory};
    ghost use Rattle.zp_zone.specs.Seats.{ZoneState};

    ghost capacity = { λ k n. n };

    ghost bounds = { λ n c. c ≡ n };

    ghost handed = { λ k. 0 };

    ghost keeps = { λ z k. IsHistory z.plain z.entries };

    #[inline(always)]
    fn is_full(&self, board_is_full: bool) -> bool {
        board_is_full
    }

    #[inline(always)]
    fn keep(&mut self, _entry: &Entry) {}
}
