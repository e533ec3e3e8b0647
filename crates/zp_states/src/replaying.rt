//! A trace that is carried out request by request.
ghost use Rattle.std.specs.Prelude.{◌≡◌, ◌≤◌, ◌<◌, ◌+◌, ◌↔◌, IfOk, IfErr, IfSome, IsSome, IsTrue, cond, length, map, min};
ghost use Rattle.zp_model.specs.declared.constants.TheConstants.{BASE_LIMIT, TRACE_ZONES};
ghost use Rattle.zp_trace.specs.Grammar.{IsBeginning, lines_of};
ghost use Rattle.zp_share.specs.Commands.{zone_at};
ghost use Rattle.zp_share.specs.Shares.{named_zone};
ghost use Rattle.zp_zone.specs.NamedZone.{IsPageOf};
ghost use Rattle.zp_view.specs.Tables.{typed_blocks, typed_pageblocks};
ghost use Rattle.zp_view.specs.States.{IsPageBlock, IsRowOf};
ghost use Rattle.zp_states.specs.Lent.{is_lent_to};
ghost use Rattle.zp_states.specs.Replays.{office_at};

use std::alloc::{AllocError, Global};
use std::marker::Model;
use zp_model::{Order, PageNo, PageblockType, Refused, Worker};
use zp_office::Office;
use zp_trace::Trace;
use zp_view::{Lenders, PageBlock, PageState, block_at, free_blocks, page_row, pageblocks};
use zp_zone::Zone;

/// The zones of a trace and its workers' desks, after its first requests, which were carried out one after another.
#[derive(Drop)]
pub struct Replay<'a> {
    trace: &'a Trace,
    office: Office,
    done: usize,
}

impl<'a> Model for Replay<'a> {
    ghost use Rattle.zp_states.specs.Replays.{ReplayState, IsReplay};

    ghost Value = { ReplayState };

    ghost view = { λ r. record { trace = r.trace.now; done = r.done } };

    ghost invariant = { λ r. IsReplay r.trace.now r.done r.office };
}

impl<'a> Replay<'a> {
    /// Before the first request. Refused 6.
    pub fn open(alloc: Global, trace: &'a Trace) -> Result<Replay<'a>, Refused>
        requires { IsBeginning (lines_of trace.now) }
        ensures opened { IfOk result (λ r. r ≡ record { trace = trace.now; done = 0 }) }
        ensures why { IfErr result (λ r. r ≡ Refused.Memory) }
    {
        let office = Office::open(alloc, trace)?;
        Ok(Replay {
            trace,
            office,
            done: 0,
        })
    }

    /// After the first of its requests, so many, or after all, where there are no more. Refused 6.
    pub fn after(alloc: Global, trace: &'a Trace, requests: usize) -> Result<Replay<'a>, Refused>
        requires { IsBeginning (lines_of trace.now) }
        ensures after { IfOk result (λ r. r ≡ record { trace = trace.now; done = min requests (length trace.now.commands) }) }
        ensures why { IfErr result (λ r. r ≡ Refused.Memory) }
    {
        let mut replay = Replay::open(alloc, trace)?;
        'requests: for _request in 0..requests.min(trace.commands.len()) {
            replay.step();
        }
        Ok(replay)
    }

    /// How many requests were carried out.
    pub fn done(&self) -> usize
        ensures { result ≡ self.now.done }
    {
        self.done
    }

    /// Carries out the next request, where one is left.
    pub fn step(&mut self) -> bool
        ensures when { IsTrue result ↔ (self.old.done < length self.old.trace.commands) }
        ensures after { self.new ≡ record self.old { done = self.old.done + cond result 1 0 } }
    {
        let commands = self.trace.commands.as_slice();
        if self.done >= commands.len() {
            return false;
        }
        let worker = commands[self.done].worker;
        self.office.carry_out_next(worker);
        self.done += 1;
        true
    }

    /// The zones, the lowest first.
    pub fn zones(&self) -> &[Zone]
        ensures zones { map named_zone result.now ≡ (office_at self.now).zones }
        ensures few { length result.now ≤ TRACE_ZONES }
    {
        self.office.zones()
    }

    /// How many zones there are.
    pub fn zone_count(&self) -> usize
        ensures { result ≡ length (office_at self.now).zones }
    {
        self.office.zones().len()
    }

    /// The first page of a zone, which is where the trace declares it.
    pub fn first_page(&self, zone: usize) -> PageNo
        requires { zone < length (office_at self.now).zones }
        ensures first { result ≡ (zone_at (office_at self.now).zones zone).plain.base }
        ensures low { result ≤ BASE_LIMIT }
    {
        PageNo::new(self.trace.header.zones.as_slice()[zone].base)
    }

    /// The block of a zone that has this page, where the page is one of the zone.
    pub fn block_at(&self, zone: usize, page: PageNo) -> Option<PageBlock>
        requires { zone < length (office_at self.now).zones }
        ensures when { IsSome result ↔ IsPageOf (zone_at (office_at self.now).zones zone).plain page }
        ensures block { IfSome result (IsPageBlock (is_lent_to (office_at self.now) zone) (zone_at (office_at self.now).zones zone).plain page) }
    {
        block_at(&self.office.zones()[zone], self, zone, page)
    }

    /// The state of each page of a zone, in order.
    pub fn page_row(&self, alloc: Global, zone: usize) -> Result<Vec<PageState>, AllocError>
        requires { zone < length (office_at self.now).zones }
        ensures { IfOk result (λ row. IsRowOf (is_lent_to (office_at self.now) zone) (zone_at (office_at self.now).zones zone).plain row.items) }
    {
        let first = self.first_page(zone);
        page_row(alloc, &self.office.zones()[zone], self, zone, first)
    }

    /// How many free blocks of this order a zone has in pageblocks of this type.
    pub fn free_blocks(&self, zone: usize, order: Order, kind: PageblockType) -> u32
        requires { zone < length (office_at self.now).zones }
        ensures { result ≡ typed_blocks (zone_at (office_at self.now).zones zone).plain.area order kind }
    {
        let first = self.first_page(zone);
        free_blocks(&self.office.zones()[zone], first, order, kind)
    }

    /// How many pageblocks of this type a zone has.
    pub fn pageblocks(&self, zone: usize, kind: PageblockType) -> u32
        requires { zone < length (office_at self.now).zones }
        ensures { result ≡ typed_pageblocks (zone_at (office_at self.now).zones zone).plain.area kind }
    {
        pageblocks(&self.office.zones()[zone], kind)
    }
}

impl Lenders for Replay<'_> {
    ghost use Rattle.zp_states.specs.Lent.{is_lent_to};
    ghost use Rattle.zp_states.specs.Replays.{office_at};

    ghost lent = { λ r. is_lent_to (office_at r) };

    fn is_lent(&self, worker: Worker, zone: usize, page: PageNo, order: Order) -> bool {
        self.office.is_lent(worker, zone, page, order)
    }
}
