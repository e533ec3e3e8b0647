//! A worker's script, carried out.
ghost use Rattle.std.specs.Prelude.{◌≡◌, ◌<◌, List, length, Some};
ghost use Rattle.zp_zone.specs.NamedZone.{NamedZone};
ghost use Rattle.zp_share.specs.Readings.{CoversOwn};
ghost use Rattle.zp_share.specs.Shares.{IsShareOf};
ghost use Rattle.zp_office.specs.Desks.{IsCommandFor, IsDeskLeft, IsNextAnswered, IsReady, IsWorked, after_command, after_commands, desk_world, next_of};

use crate::carrying_out::carry_out;
use crate::desk::Desk;
use crate::gate::Gate;
use zp_share::Zones;

/// Carries out the command that comes next, and notes its reply.
pub fn work_next<Z: Zones>(desk: &mut Desk, zones: &mut Z)
    requires next { length desk.old.replies < length desk.old.script }
    requires fits { IsShareOf (Z.keys zones.old) desk.old.share }
    requires command { IsCommandFor (Z.keys zones.old) (next_of desk.old) }
    ensures keys { Z.keys zones.new ≡ Z.keys zones.old }
    ensures fits { IsShareOf (Z.keys zones.new) desk.new.share }
    ensures answered { IsNextAnswered desk.old desk.new }
    ensures read { CoversOwn (Z.covers zones.old) (Z.covers zones.new) desk.old.share desk.new.share }
    ensures told { (rows : List NamedZone) → Z.told zones.old ≡ Some rows → IsDeskLeft (after_command (desk_world rows desk.old) (next_of desk.old)) (Z.told zones.new) desk.new }
{
    let command = desk.next_command();
    let reply = carry_out(&mut desk.share, &mut desk.slots, zones, command);
    desk.note(reply);
}

/// Carries out the whole script, with the gate called round each command. Each has one reply, and the count of the replies rises
/// by the script's length: a desk whose script was carried out is not ready to be worked again. The readings of the zones cover the worker's
/// own sections then.
pub fn work<Z: Zones, G: Gate>(desk: &mut Desk, zones: &mut Z, gate: &G)
    requires { IsReady (Z.keys zones.old) desk.old }
    ensures keys { Z.keys zones.new ≡ Z.keys zones.old }
    ensures fits { IsShareOf (Z.keys zones.new) desk.new.share }
    ensures worked { IsWorked desk.old desk.new }
    ensures read { CoversOwn (Z.covers zones.old) (Z.covers zones.new) desk.old.share desk.new.share }
    ensures told { (rows : List NamedZone) → Z.told zones.old ≡ Some rows → IsDeskLeft (after_commands (desk_world rows desk.old) desk.old.script) (Z.told zones.new) desk.new }
{
    let worker = desk.worker();
    for at in 0..desk.script().len() {
        let call = at as u32 + 1;
        gate.before(worker, call);
        work_next(desk, zones);
        gate.after(worker, call);
    }
}
