//! A journal's replay: a zone is asked all that the journal says, one entry after another. It is made anew for that, or goes on from
//! where it is.
ghost use Rattle.std.specs.Prelude.{◌≡◌, ◌↔◌, ◌≤◌, [], length, IsTrue, OnOk, IfOk, IfErr};
ghost use Rattle.zp_model.specs.Zone.{zone_opening};
ghost use Rattle.zp_zone.specs.Making.{wanted, IsGood, IsWhy, IsWideGood, IsWideWhy};
ghost use Rattle.zp_journal.specs.Journals.{IsChecked, IsCountedAfter, IsRepeatedUpTo, IsReplayedFurther};
ghost use Rattle.zp_journal.specs.Asking.{AreSeatsOf, IsRepeated};

use crate::asking::ask;
use crate::journal::Journal;
use std::alloc::Global;
use zp_model::{Answered, Counts, Entry, Refused};
use zp_zone::{Seat, Zone, ZoneConfig};

/// What a replay finds.
#[derive(Drop)]
pub enum JournalCheck {
    /// Each entry is what the zone would have made: the zone that they lead to.
    Legal(Zone),
    /// The number of the first entry whose request cannot be made, or gets another reply.
    Differs(u32),
}

/// A zone of this config of which nothing was asked, with the seats of all its workers, as `replay_further` wants them. Refused 1 to 6
/// as creating the zone is.
pub fn replay_opening(
    alloc: Global,
    config: ZoneConfig<'_>,
    workers: u32,
) -> Result<(Zone, Vec<Seat>), Refused>
    ensures good { OnOk result (IsGood (wanted config.entry.name.now config.entry.base config.entry.pages config.entry.min workers)) }
    ensures why { IfErr result (IsWhy (wanted config.entry.name.now config.entry.base config.entry.pages config.entry.min workers)) }
    ensures zone { IfOk result (λ z. z.0 ≡ record { tie = z.0.tie; name = config.entry.name.now; plain = zone_opening config.entry.largest config.entry.base config.entry.pages config.entry.min workers; entries = [] }) }
    ensures seats { IfOk result (λ z. AreSeatsOf z.0 z.1.items) }
{
    let (zone, seats) = Zone::new(alloc, ZoneConfig { ..config }, workers)?;
    Ok((zone, seats))
}

/// As `replay_opening`, but a wide zone. Refused 1 to 6, as creating a wide zone is.
pub fn replay_wide_opening(
    alloc: Global,
    config: ZoneConfig<'_>,
    workers: u32,
) -> Result<(Zone, Vec<Seat>), Refused>
    ensures good { OnOk result (IsWideGood (wanted config.entry.name.now config.entry.base config.entry.pages config.entry.min workers)) }
    ensures why { IfErr result (IsWideWhy (wanted config.entry.name.now config.entry.base config.entry.pages config.entry.min workers)) }
    ensures zone { IfOk result (λ z. z.0 ≡ record { tie = z.0.tie; name = config.entry.name.now; plain = zone_opening config.entry.largest config.entry.base config.entry.pages config.entry.min workers; entries = [] }) }
    ensures seats { IfOk result (λ z. AreSeatsOf z.0 z.1.items) }
{
    let (zone, seats) = Zone::wide(alloc, ZoneConfig { ..config }, workers)?;
    Ok((zone, seats))
}

/// A zone goes on as a journal says: it is asked for what the entries say, one after another, from where it is. None where each of
/// them is what the zone would have made. Else the number of the first whose request cannot be made, or gets another reply,
/// counted from 1: the zone was asked for those before it, and for that one where its worker may ask for it.
pub fn replay_further(zone: &mut Zone, seats: &mut [Seat], journal: &Journal) -> Option<u32>
    requires seats { AreSeatsOf zone.old seats.old }
    ensures replayed { IsReplayedFurther zone.old journal.now.entries result zone.new }
    ensures seats { AreSeatsOf zone.new seats.new }
{
    repeat_first(zone, seats, journal, journal.len())
}

/// Whether a zone of this config and so many workers could have made the journal. Refused 1 to 6, as creating the zone is.
pub fn replay_journal(
    alloc: Global,
    config: ZoneConfig<'_>,
    workers: u32,
    journal: &Journal,
) -> Result<JournalCheck, Refused>
    ensures good { OnOk result (IsGood (wanted config.entry.name.now config.entry.base config.entry.pages config.entry.min workers)) }
    ensures why { IfErr result (IsWhy (wanted config.entry.name.now config.entry.base config.entry.pages config.entry.min workers)) }
    ensures check { IfOk result (IsChecked config.entry.name.now (zone_opening config.entry.largest config.entry.base config.entry.pages config.entry.min workers) journal.now.entries) }
{
    let (zone, seats) = replay_opening(alloc, ZoneConfig { ..config }, workers)?;
    Ok(replay_journal_from(zone, seats, journal))
}

/// Whether this zone, of which nothing was asked, could have made the journal.
pub fn replay_journal_from(mut zone: Zone, mut seats: Vec<Seat>, journal: &Journal) -> JournalCheck
    requires seats { AreSeatsOf zone seats.items }
    requires unasked { zone.entries ≡ [] }
    ensures { IsChecked zone.name zone.plain journal.now.entries result }
{
    match replay_further(&mut zone, &mut seats, journal) {
        None => JournalCheck::Legal(zone),
        Some(number) => JournalCheck::Differs(number),
    }
}

/// The counts of a zone of this config and so many workers after the first `place` entries of the journal: none where it has not so
/// many, or where one of them is not legal. Refused 1 to 6, as creating the zone is.
pub fn counts_after(
    alloc: Global,
    config: ZoneConfig<'_>,
    workers: u32,
    journal: &Journal,
    place: u64,
) -> Result<Option<Counts>, Refused>
    ensures good { OnOk result (IsGood (wanted config.entry.name.now config.entry.base config.entry.pages config.entry.min workers)) }
    ensures why { IfErr result (IsWhy (wanted config.entry.name.now config.entry.base config.entry.pages config.entry.min workers)) }
    ensures counts { IfOk result (IsCountedAfter (zone_opening config.entry.largest config.entry.base config.entry.pages config.entry.min workers) journal.now.entries place) }
{
    let (zone, seats) = replay_opening(alloc, ZoneConfig { ..config }, workers)?;
    Ok(counts_after_from(zone, seats, journal, place))
}

/// The counts of this zone after the first `place` entries of the journal: none where it has not so many, or where one of them is not
/// legal there.
pub fn counts_after_from(
    mut zone: Zone,
    mut seats: Vec<Seat>,
    journal: &Journal,
    place: u64,
) -> Option<Counts>
    requires { AreSeatsOf zone seats.items }
    ensures { IsCountedAfter zone.plain journal.now.entries place result }
{
    if place > u64::from(journal.len()) {
        return None;
    }
    match repeat_first(&mut zone, &mut seats, journal, place as u32) {
        None => Some(zone.counts()),
        Some(_) => None,
    }
}

/// The zone is asked for what the first `count` entries say, one after another: the number of the first that is not legal, where
/// one of them is not.
fn repeat_first(zone: &mut Zone, seats: &mut [Seat], journal: &Journal, count: u32) -> Option<u32>
    requires seats { AreSeatsOf zone.old seats.old }
    requires within { count ≤ length journal.now.entries }
    ensures repeated { IsRepeatedUpTo zone.old journal.now.entries count result zone.new }
    ensures seats { AreSeatsOf zone.new seats.new }
{
    for number in 0..count {
        if !repeat(zone, seats, journal.entry(number + 1)) {
            return Some(number + 1);
        }
    }
    None
}

/// The zone is asked for what the entry says: whether the entry's worker may ask for it, and has the entry's reply.
fn repeat(zone: &mut Zone, seats: &mut [Seat], entry: &Entry) -> bool
    requires { AreSeatsOf zone.old seats.old }
    ensures repeated { IsRepeated zone.old entry.now result zone.new }
    ensures seats { AreSeatsOf zone.new seats.new }
{
    let workers = seats.len();
    let place = usize::from(entry.worker().number());
    if place >= workers {
        return false;
    }
    let (request, answered, pages) = entry.parts();
    match ask(zone, &mut seats[place], workers, &request, pages) {
        Some(reply) => is_same(&reply, &answered),
        None => false,
    }
}

/// Whether two replies are the same, but for their lists.
fn is_same(reply: &Answered, other: &Answered) -> bool
    ensures { IsTrue result ↔ (reply.now ≡ other.now) }
{
    reply == other
}
