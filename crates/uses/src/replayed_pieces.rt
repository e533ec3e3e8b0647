//! A journal that was written away in pieces, replayed piece by piece.
ghost use Rattle.std.specs.Prelude.{IfErr, IfOk, IfSome, OnOk, Some};
ghost use Rattle.zp_model.specs.Zone.{zone_opening};
ghost use Rattle.zp_journal.specs.Pieces.{AreAdjoining, IsReplayedWhole, entries_of};
ghost use Rattle.zp_zone.specs.Making.{wanted, IsGood, IsWhy};

use std::alloc::Global;
use zp_journal::{Piece, are_adjoining, replay_pieces};
use zp_model::Refused;
use zp_zone::{Zone, ZoneConfig};

/// The zone of this config and so many workers that the pieces lead to: each begins where the one before it ended, and all their entries, put
/// together, are the zone's own. Else None. Refused 1 to 6, as creating the zone is.
pub fn replayed_zone(
    alloc: Global,
    config: ZoneConfig<'_>,
    workers: u32,
    pieces: &[Piece],
) -> Result<Option<Zone>, Refused>
    ensures good { OnOk result (IsGood (wanted config.entry.name.now config.entry.base config.entry.pages config.entry.min workers)) }
    ensures why { IfErr result (IsWhy (wanted config.entry.name.now config.entry.base config.entry.pages config.entry.min workers)) }
    ensures adjoin { IfOk result (λ o. IfSome o (λ z. AreAdjoining 0 pieces.now)) }
    ensures zone { IfOk result (λ o. IfSome o (λ z. IsReplayedWhole config.entry.name.now (zone_opening config.entry.largest config.entry.base config.entry.pages config.entry.min workers) (entries_of pieces.now) (Some z))) }
{
    let zone = replay_pieces(alloc, ZoneConfig { ..config }, workers, pieces)?;
    if are_adjoining(pieces) {
        Ok(zone)
    } else {
        Ok(None)
    }
}
