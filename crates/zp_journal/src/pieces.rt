//! The pieces of a zone's journal that was handed over one after another: whether they adjoin, and their replay.
ghost use Rattle.std.specs.Prelude.{◌≡◌, ◌<◌, ◌^◌, ◌↔◌, [], length, IsTrue, OnOk, IfOk, IfErr};
ghost use Rattle.zp_model.specs.Zone.{zone_opening};
ghost use Rattle.zp_zone.specs.Making.{wanted, IsGood, IsWhy};
ghost use Rattle.zp_journal.specs.Asking.{AreSeatsOf};
ghost use Rattle.zp_journal.specs.Pieces.{AreAdjoining, IsOneFurther, IsReplayedWhole, entries_of};

use crate::journal::Journal;
use crate::replay::{replay_further, replay_opening};
use std::alloc::Global;
use zp_model::Refused;
use zp_zone::{Seat, Zone, ZoneConfig};

/// A zone's journal from some entry on, up to where it was cut or closed.
#[derive(Drop)]
pub struct Piece {
    /// How many entries of the zone come before its first.
    pub before: u64,
    pub journal: Journal,
}

/// Whether the first of these pieces begins with the zone's first entry, and each of the others where the one before it ended; they have
/// fewer entries than can be numbered.
pub fn are_adjoining(pieces: &[Piece]) -> bool
    ensures { IsTrue result ↔ (AreAdjoining 0 pieces.now × (length (entries_of pieces.now) < 2 ^ 64)) }
{
    let mut before: u64 = 0;
    for piece in pieces {
        if piece.before != before {
            return false;
        }
        let Some(more) = before.checked_add(u64::from(piece.journal.len())) else {
            return false;
        };
        before = more;
    }
    true
}

/// A zone is asked for what the entries of a piece say: whether each of them is what the zone would have made.
fn go_on(zone: &mut Zone, seats: &mut [Seat], piece: &Piece) -> bool
    requires { AreSeatsOf zone.old seats.old }
    ensures gone { IsOneFurther zone.old piece.now.journal.entries result zone.new }
    ensures seats { AreSeatsOf zone.new seats.new }
{
    match replay_further(zone, seats, &piece.journal) {
        None => true,
        Some(_) => false,
    }
}

/// The zone of this config and so many workers that the pieces lead to, one after another: asked for all their entries, in order. None where
/// one of these is not what the zone would have made. Refused 1 to 6, as creating the zone is.
pub fn replay_pieces(
    alloc: Global,
    config: ZoneConfig<'_>,
    workers: u32,
    pieces: &[Piece],
) -> Result<Option<Zone>, Refused>
    ensures good { OnOk result (IsGood (wanted config.entry.name.now config.entry.base config.entry.pages config.entry.min workers)) }
    ensures why { IfErr result (IsWhy (wanted config.entry.name.now config.entry.base config.entry.pages config.entry.min workers)) }
    ensures replayed { IfOk result (IsReplayedWhole config.entry.name.now (zone_opening config.entry.largest config.entry.base config.entry.pages config.entry.min workers) (entries_of pieces.now)) }
{
    let (zone, seats) = replay_opening(alloc, ZoneConfig { ..config }, workers)?;
    Ok(replay_pieces_from(zone, seats, pieces))
}

/// The zone that the pieces lead to from this one, of which nothing was asked: it is asked for all their entries, in order. None where one of
/// these is not what it would have made.
pub fn replay_pieces_from(mut zone: Zone, mut seats: Vec<Seat>, pieces: &[Piece]) -> Option<Zone>
    requires seats { AreSeatsOf zone seats.items }
    requires unasked { zone.entries ≡ [] }
    ensures { IsReplayedWhole zone.name zone.plain (entries_of pieces.now) result }
{
    if go_on_all(&mut zone, &mut seats, pieces) {
        Some(zone)
    } else {
        None
    }
}

/// A zone is asked for what the entries of the pieces say: whether each of them is what the zone would have made.
fn go_on_all(zone: &mut Zone, seats: &mut [Seat], pieces: &[Piece]) -> bool
    requires { AreSeatsOf zone.old seats.old }
    ensures gone { IsOneFurther zone.old (entries_of pieces.now) result zone.new }
    ensures seats { AreSeatsOf zone.new seats.new }
{
    for piece in pieces {
        if !go_on(zone, seats, piece) {
            return false;
        }
    }
    true
}
