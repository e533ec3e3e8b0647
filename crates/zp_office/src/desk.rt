//! A worker's desk.
ghost use Rattle.std.specs.Prelude.{◌≡◌, ◌<◌, ◌≤◌, [], ◌∷◌, ◌++◌, All, IfOk, IfErr, length};
ghost use Rattle.zp_model.specs.declared.refused.Refused.TheVariants.{Memory};
ghost use Rattle.zp_office.specs.declared.desk.TheConstants.{MAX_COMMANDS};
ghost use Rattle.zp_zone.specs.Seats.{IsSeatOf};
ghost use Rattle.zp_share.specs.ZoneShares.{SharesIn};
ghost use Rattle.zp_share.specs.Shares.{share_at};
ghost use Rattle.zp_office.specs.Desks.{HasSlotBelow, next_of, opening_desk};

use crate::command::Command;
use crate::reply::CommandReply;
use std::alloc::Global;
use std::marker::Model;
use zp_model::{Refused, Worker};
use zp_share::{Lent, Share};
use zp_zone::Zone;

/// How many commands a script has at most.
pub const MAX_COMMANDS: usize = 65_536;

/// A worker's share, the script of its commands, its slots, and the replies to the commands that were carried out: as many as
/// these. All room is made with it.
#[derive(Drop)]
pub struct Desk {
    pub(crate) share: Share,
    script: Vec<Command>,
    pub(crate) slots: Vec<Option<Lent>>,
    replies: Vec<CommandReply>,
}

impl Model for Desk {
    ghost use Rattle.std.specs.Prelude.{◌≡◌, ◌≤◌, All, length, vec_capacity};
    ghost use Rattle.zp_office.specs.declared.desk.TheConstants.{MAX_COMMANDS};
    ghost use Rattle.zp_office.specs.Desks.{DeskState, HasSlotBelow, IsInRow};

    ghost Value = { DeskState };

    ghost view = { λ d. record { share = d.share; script = d.script.items; slots = d.slots.items; replies = d.replies.items } };

    ghost invariant = { λ d. (length d.script.items ≤ MAX_COMMANDS) × (length d.script.items ≤ vec_capacity d.replies) × (length d.replies.items ≤ length d.script.items) × (length d.slots.items ≡ length d.script.items) × All (HasSlotBelow (length d.script.items)) d.script.items × All (IsInRow (length d.share.zones)) d.slots.items };
}

impl Desk {
    /// The desk of a share with a script, of which no command was carried out. Refused 6, and then the share is lost.
    pub fn new(alloc: Global, share: Share, script: Vec<Command>) -> Result<Desk, Refused>
        requires few { length script.items ≤ MAX_COMMANDS }
        requires slots { All (HasSlotBelow (length script.items)) script.items }
        ensures desk { IfOk result (λ d. d ≡ opening_desk share script.items) }
        ensures why { IfErr result (λ e. e ≡ Memory) }
    {
        let Ok(slots) = Vec::from_elem(alloc, None, script.len()) else {
            return Err(Refused::Memory);
        };
        let Ok(replies) = Vec::with_capacity(alloc, script.len()) else {
            return Err(Refused::Memory);
        };
        Ok(Desk {
            share,
            script,
            slots,
            replies,
        })
    }

    pub fn worker(&self) -> Worker
        ensures { result ≡ self.now.share.worker }
    {
        self.share.worker()
    }

    pub fn share(&self) -> &Share
        ensures { result.now ≡ self.now.share }
    {
        &self.share
    }

    /// The commands, in order.
    pub fn script(&self) -> &[Command]
        ensures same { result.now ≡ self.now.script }
        ensures few { length result.now ≤ MAX_COMMANDS }
    {
        &self.script
    }

    /// The replies to the commands carried out so far, in order.
    pub fn replies(&self) -> &[CommandReply]
        ensures same { result.now ≡ self.now.replies }
        ensures within { length result.now ≤ length self.now.script }
    {
        &self.replies
    }

    /// Nothing changes, and the share agrees with the zone at this place.
    pub(crate) fn check(&mut self, zone: &mut Zone, place: usize)
        requires place { place < length self.old.share.zones }
        requires seat { IsSeatOf zone.old (share_at self.old.share place).seat }
        ensures zone { zone.new ≡ zone.old }
        ensures desk { self.new ≡ self.old }
        ensures agree { SharesIn zone.old (share_at self.old.share place) }
    {
        self.share.check(zone, place);
    }

    /// The share as the commands left it.
    pub fn into_share(self) -> Share
        ensures { result ≡ self.share }
    {
        self.share
    }

    /// The command that comes next.
    pub(crate) fn next_command(&self) -> Command
        requires { length self.now.replies < length self.now.script }
        ensures next { result ≡ next_of self.now }
        ensures slot { HasSlotBelow (length self.now.slots) result }
    {
        self.script[self.replies.len()]
    }

    /// The reply to the command that came next.
    pub(crate) fn note(&mut self, reply: CommandReply)
        requires { length self.old.replies < length self.old.script }
        ensures { self.new ≡ record self.old { replies = self.old.replies ++ reply ∷ [] } }
    {
        self.replies.push_reserved(reply);
    }
}
