//! A row of zones with the desks of all its workers, in one hand.
ghost use Rattle.std.specs.Prelude.{◌≡◌, ◌<◌, ◌≤◌, [], IfOk, IfErr, length, map, vec_capacity};
ghost use Rattle.zp_model.specs.declared.constants.TheConstants.{TRACE_ZONES};
ghost use Rattle.zp_trace.specs.Grammar.{IsBeginning, lines_of};
ghost use Rattle.zp_share.specs.Crews.{AreSharesOf, crew_of};
ghost use Rattle.zp_share.specs.Shares.{named_zone};
ghost use Rattle.zp_share.specs.PlainShares.{lends, own_at};
ghost use Rattle.zp_office.specs.Bases.{bases_of};
ghost use Rattle.zp_office.specs.Offices.{AreDesksOf, HaveCommands, crew_in, desk_of, in_order, next_done, office_of, opened_office, workers_in};

use crate::desk::Desk;
use crate::making::opened_desks;
use crate::reply::CommandReply;
use crate::working::work_next;
use std::alloc::Global;
use std::marker::Model;
use zp_model::{Order, PageNo, Refused, Worker};
use zp_share::{PlainZones, Share};
use zp_trace::{CommandLine, Trace};
use zp_zone::Zone;

/// A row of zones, and the desk of each of its workers, in order.
#[derive(Drop)]
pub struct Office {
    zones: PlainZones,
    desks: Vec<Desk>,
}

impl Model for Office {
    ghost use Rattle.zp_office.specs.Offices.{OfficeState, AreDesksOf, office_of};

    ghost Value = { OfficeState };

    ghost view = { λ o. office_of o.zones o.desks.items };

    ghost invariant = { λ o. AreDesksOf o.zones o.desks.items };
}

impl Office {
    /// The zones that a trace declares, and the desks of its workers, before the first command. Refused 6.
    pub fn open(alloc: Global, trace: &Trace) -> Result<Office, Refused>
        requires { IsBeginning (lines_of trace.now) }
        ensures office { IfOk result (λ o. o ≡ opened_office trace.now) }
        ensures turns { IfOk result (λ o. HaveCommands o (workers_in trace.now.commands)) }
        ensures why { IfErr result (λ r. r ≡ Refused.Memory) }
    {
        let (zones, desks) = opened_desks(alloc, trace)?;
        Ok(Office::new(zones, desks))
    }

    /// These zones and desks.
    pub fn new(zones: Vec<Zone>, desks: Vec<Desk>) -> Office
        requires { AreDesksOf zones.items desks.items }
        ensures { result ≡ office_of zones.items desks.items }
    {
        Office {
            zones: PlainZones::new(zones),
            desks,
        }
    }

    pub fn zones(&self) -> &[Zone]
        ensures zones { map named_zone result.now ≡ self.now.zones }
        ensures few { length result.now ≤ TRACE_ZONES }
    {
        self.zones.as_slice()
    }

    /// How many workers there are.
    pub fn workers(&self) -> usize
        ensures { result ≡ length self.now.desks }
    {
        self.desks.len()
    }

    /// The replies to a worker's commands so far, in order.
    pub fn replies(&self, worker: Worker) -> &[CommandReply]
        requires { worker < length self.now.desks }
        ensures { result.now ≡ (desk_of self.now worker).replies }
    {
        self.desks[usize::from(worker.number())].replies()
    }

    /// Whether the block of this order at this page of a zone is lent to a worker. What is out to a worker and is not lent to it is in one
    /// of its lists. Past the last worker, and past the last zone, nothing is lent.
    pub fn is_lent(&self, worker: Worker, zone: usize, page: PageNo, order: Order) -> bool
        ensures { result ≡ lends (own_at (desk_of self.now worker).share zone) page order }
    {
        match self.desks.get(usize::from(worker.number())) {
            Some(desk) if zone < desk.share().zones() => desk.share().is_lent(zone, page, order),
            _ => false,
        }
    }

    /// The worker carries out the command of its script that comes next.
    pub fn carry_out_next(&mut self, worker: Worker)
        requires worker { worker < length self.old.desks }
        requires next { length (desk_of self.old worker).replies < length (desk_of self.old worker).script }
        ensures office { self.new ≡ next_done worker self.old }
        ensures bases { bases_of self.new ≡ bases_of self.old }
    {
        let desk = &mut self.desks[usize::from(worker.number())];
        work_next(desk, &mut self.zones);
    }

    /// Each of these commands' workers carries out the next command of its script, in this order.
    pub fn carry_out_all(&mut self, commands: &[CommandLine])
        requires { HaveCommands self.old (workers_in commands.now) }
        ensures { self.new ≡ in_order self.old (workers_in commands.now) }
    {
        for command in commands {
            self.carry_out_next(command.worker);
        }
    }

    /// The zones, and the shares of all workers in order, without the scripts and the replies. The room is for the shares, so that no
    /// memory is taken.
    pub fn into_parts(self, room: Vec<Share>) -> (PlainZones, Vec<Share>)
        requires empty { room.items ≡ [] }
        requires room { length self.desks ≤ vec_capacity room }
        ensures few { length result.0 ≤ TRACE_ZONES }
        ensures shares { AreSharesOf result.0 result.1.items }
        ensures crew { crew_of result.0 result.1.items ≡ crew_in self }
    {
        let Office { zones, desks } = self;
        let mut shares = room;
        for desk in desks {
            shares.push_reserved(desk.into_share());
        }
        (zones, shares)
    }
}
