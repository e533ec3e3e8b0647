//! One command, carried out.
ghost use Rattle.std.specs.Prelude.{ℕ, ◌≡◌, ◌≤◌, List, length, map, All, Some};
ghost use Rattle.std.specs.List.{range_with_len};
ghost use Rattle.zp_model.specs.declared.constants.TheConstants.{TRACE_ZONES};
ghost use Rattle.zp_model.specs.declared.counts.Counts.{Counts};
ghost use Rattle.zp_zone.specs.NamedZone.{NamedZone};
ghost use Rattle.zp_share.specs.Readings.{CoversOwn};
ghost use Rattle.zp_share.specs.Shares.{IsDone, IsSameShare, IsShareOf, world};
ghost use Rattle.zp_office.specs.Desks.{HaveWorker, HasSlotBelow, IsAnswerTo, IsCommandFor, IsFreeAnswer, IsInRow, IsPostAnswer, Slots, answer_with, carried_out, counts_in, free_kept, lent_of, post_kept};

use crate::command::Command;
use crate::counts_row::CountsRow;
use crate::reply::CommandReply;
use zp_model::{Block, Refused, Worker};
use zp_share::{Lent, Share, Zones, alloc, drain_all, free};

/// Carries out one command. A block that is lent goes to the command's slot, and stays there when it is freed.
pub fn carry_out<Z: Zones>(
    share: &mut Share,
    slots: &mut [Option<Lent>],
    zones: &mut Z,
    command: Command,
) -> CommandReply
    requires fits { IsShareOf (Z.keys zones.old) share.old }
    requires command { IsCommandFor (Z.keys zones.old) command }
    requires slot { HasSlotBelow (length slots.old) command }
    requires kept { All (IsInRow (length share.old.zones)) slots.old }
    ensures keys { Z.keys zones.new ≡ Z.keys zones.old }
    ensures fits { IsShareOf (Z.keys zones.new) share.new }
    ensures same { IsSameShare share.old share.new }
    ensures slots { length slots.new ≡ length slots.old }
    ensures kept { All (IsInRow (length share.old.zones)) slots.new }
    ensures answers { IsAnswerTo (length share.old.zones) command result }
    ensures read { CoversOwn (Z.covers zones.old) (Z.covers zones.new) share.old share.new }
    ensures shown { (cs : List Counts) → result ≡ CommandReply.Info cs → cs ≡ map (Z.shown zones.new) (range_with_len 0 (length share.old.zones)) }
    ensures told { (rows : List NamedZone) → Z.told zones.old ≡ Some rows → IsDone (carried_out slots.old (world rows share.old) command) (answer_with slots.new result) (Z.told zones.new) share.new }
{
    match command {
        Command::Alloc {
            slot,
            order,
            kind,
            zone,
            mark,
        } => match alloc(share, zones, order, kind, zone, mark) {
            Ok(lent) => {
                let page = lent.page;
                slots[slot] = Some(lent);
                CommandReply::Page(page)
            }
            Err(refused) => CommandReply::Refused(refused),
        },
        Command::Low { slot, order, zone } => match zones.alloc_low(share, zone, order) {
            Ok(block) => {
                slots[slot] = Some(lent_of(zone, &block));
                CommandReply::Page(block.page)
            }
            Err(refused) => CommandReply::Refused(refused),
        },
        Command::Free { slot } => free_kept(share, zones, slots[slot]),
        Command::Post { slot, to } => post_kept(share, zones, slots[slot], to),
        Command::Collect { slot, zone } => match zones.collect(share, zone) {
            Ok(block) => {
                slots[slot] = Some(lent_of(zone, &block));
                CommandReply::Block(block)
            }
            Err(refused) => CommandReply::Refused(refused),
        },
        Command::Drain => match drain_all(share, zones) {
            Ok(pages) => CommandReply::Drained(pages as u32),
            Err(refused) => CommandReply::Refused(refused),
        },
        Command::Isolate { zone, pageblock } => match zones.isolate(share, zone, pageblock) {
            Ok(()) => CommandReply::Isolated,
            Err(refused) => CommandReply::Refused(refused),
        },
        Command::Release {
            zone,
            pageblock,
            kind,
        } => match zones.release(share, zone, pageblock, kind) {
            Ok(()) => CommandReply::Released,
            Err(refused) => CommandReply::Refused(refused),
        },
        Command::Info => CommandReply::Info(counts_in(share, zones)),
    }
}

/// The block of the zone at this place, as a lent one.
fn lent_of(zone: usize, block: &Block) -> Lent
    ensures { result ≡ lent_of zone block.now }
{
    Lent {
        zone,
        page: block.page,
        order: block.order,
    }
}

/// Frees the block that a slot keeps.
fn free_kept<Z: Zones>(share: &mut Share, zones: &mut Z, kept: Option<Lent>) -> CommandReply
    requires fits { IsShareOf (Z.keys zones.old) share.old }
    requires kept { IsInRow (length share.old.zones) kept }
    ensures keys { Z.keys zones.new ≡ Z.keys zones.old }
    ensures fits { IsShareOf (Z.keys zones.new) share.new }
    ensures same { IsSameShare share.old share.new }
    ensures answers { IsFreeAnswer result }
    ensures read { CoversOwn (Z.covers zones.old) (Z.covers zones.new) share.old share.new }
    ensures told { (rows : List NamedZone) (slots : Slots) → Z.told zones.old ≡ Some rows → IsDone (free_kept slots kept (world rows share.old)) (answer_with slots result) (Z.told zones.new) share.new }
{
    let Some(lent) = kept else {
        return CommandReply::Refused(Refused::NotLent);
    };
    match free(share, zones, lent.zone, lent.page, lent.order) {
        Ok(()) => CommandReply::Freed,
        Err(refused) => CommandReply::Refused(refused),
    }
}

/// Posts the block that a slot keeps to a worker.
fn post_kept<Z: Zones>(
    share: &mut Share,
    zones: &mut Z,
    kept: Option<Lent>,
    to: Worker,
) -> CommandReply
    requires fits { IsShareOf (Z.keys zones.old) share.old }
    requires kept { IsInRow (length share.old.zones) kept }
    requires to { HaveWorker (Z.keys zones.old) to }
    ensures keys { Z.keys zones.new ≡ Z.keys zones.old }
    ensures fits { IsShareOf (Z.keys zones.new) share.new }
    ensures same { IsSameShare share.old share.new }
    ensures answers { IsPostAnswer result }
    ensures read { CoversOwn (Z.covers zones.old) (Z.covers zones.new) share.old share.new }
    ensures told { (rows : List NamedZone) (slots : Slots) → Z.told zones.old ≡ Some rows → IsDone (post_kept slots kept to (world rows share.old)) (answer_with slots result) (Z.told zones.new) share.new }
{
    let Some(lent) = kept else {
        return CommandReply::Refused(Refused::NotLent);
    };
    match zones.post(share, lent.zone, lent.page, lent.order, to) {
        Ok(()) => CommandReply::Posted,
        Err(refused) => CommandReply::Refused(refused),
    }
}

/// The counts of each zone.
fn counts_in<Z: Zones>(share: &Share, zones: &mut Z) -> CountsRow
    requires fits { IsShareOf (Z.keys zones.old) share.now }
    requires few { length share.now.zones ≤ TRACE_ZONES }
    ensures keys { Z.keys zones.new ≡ Z.keys zones.old }
    ensures each { length result ≡ length share.now.zones }
    ensures covered { (i n : ℕ) → Z.covers zones.old i n → Z.covers zones.new i n }
    ensures shown { result ≡ map (Z.shown zones.new) (range_with_len 0 (length share.now.zones)) }
    ensures told { (rows : List NamedZone) → Z.told zones.old ≡ Some rows → (result ≡ counts_in (world rows share.now)) × (Z.told zones.new ≡ Some rows) }
{
    let mut row = CountsRow::new();
    for zone in 0..share.zones() {
        row.push(zones.counts(zone));
    }
    row
}
