//! A zone in one hand, with its one seat.

ghost use Rattle.std.specs.Prelude.{◌≡◌, ◌<◌, ◌↔◌, IfSome, IsSome, IsTrue, false};
ghost use Rattle.zp_model.specs.declared.mark.Mark.TheVariants.{Any};
ghost use Rattle.zp_model.specs.declared.request.Request.TheVariants as request;
ghost use Rattle.zp_model.specs.Step.{step};
ghost use Rattle.zp_zone.specs.NamedZone.{IsPageOf, IsToldOf, page_reply};
ghost use Rattle.zp_zone.specs.Seats.{IsSeatOf, Agrees, asked, has_run};

use crate::source::{LoadSource, config_of};
use crate::unmade::Unmade;
use std::alloc::Global;
use zp_model::{Largest, Mark, MigrateType, Order, PageNo, Refused};
use zp_zone::{Seat, Zone, ZonePage};

/// A zone's requests, by its seat. The zone is of this largest order: at 9 its largest blocks are of 2 MiB, where pages have 4 KiB.
#[derive(Drop)]
pub struct SeatSource<const LARGEST: u8> {
    zone: Zone,
    seat: Seat,
    ghost fits: { IsSeatOf zone seat },
    ghost agrees: { Agrees zone seat },
}

impl<const LARGEST: u8> SeatSource<LARGEST> {
    /// Isolates the first pageblock, and releases it for Movable requests. Returns whether both were done.
    pub fn isolate_and_release(&mut self) -> bool {
        let isolated = self.zone.isolate(&mut self.seat, 0);
        let released = self.zone.release(&mut self.seat, 0, MigrateType::Movable);
        isolated.is_ok() && released.is_ok()
    }

    /// Takes the lowest run of so many pages, held to no mark: its first page. There is no run of no page.
    pub fn take_run(&mut self, pages: u32) -> Result<PageNo, Refused>
        ensures reply { 0 < pages → page_reply result ≡ (step self.old.zone.plain self.old.seat.worker (request.AllocRun pages 0 Any)).reply }
        ensures after { 0 < pages → self.new.zone ≡ asked self.old.seat.worker (request.AllocRun pages 0 Any) self.old.zone }
    {
        if pages == 0 {
            return Err(Refused::BadRun);
        }
        self.zone.alloc_run(&mut self.seat, pages, 0, Mark::Any)
    }

    /// Takes so many pages from this one on, where they are free: the first of them.
    pub fn take_run_at(&mut self, page: PageNo, pages: u32) -> Result<PageNo, Refused>
        ensures reply { page_reply result ≡ (step self.old.zone.plain self.old.seat.worker (request.AllocRunAt page pages)).reply }
        ensures after { self.new.zone ≡ asked self.old.seat.worker (request.AllocRunAt page pages) self.old.zone }
    {
        self.zone.alloc_run_at(&mut self.seat, page, pages)
    }

    /// Frees so many pages from this one on, where they are lent, by whatever blocks.
    pub fn give_run(&mut self, page: PageNo, pages: u32)
        ensures after { IsTrue (has_run self.old.seat page pages) → self.new.zone ≡ asked self.old.seat.worker (request.FreeRun page pages) self.old.zone }
        ensures same { has_run self.old.seat page pages ≡ false → self.new.zone ≡ self.old.zone }
    {
        if self.zone.run_held_by(&self.seat, page, pages) {
            self.zone.free_run(&mut self.seat, page, pages);
        }
    }

    /// What the zone reports of a page.
    pub fn entry(&self, page: PageNo) -> Option<ZonePage>
        ensures when { IsSome result ↔ IsPageOf self.now.zone.plain page }
        ensures described { IfSome result (λ e. IsToldOf self.now.zone.plain page e.state e.back e.forward) }
    {
        self.zone.entry(page)
    }
}

impl<const LARGEST: u8> LoadSource for SeatSource<LARGEST> {
    fn new(alloc: Global, pages: u32) -> Result<SeatSource<LARGEST>, Unmade> {
        let largest = Largest::new(LARGEST).ok_or(Unmade::Other)?;
        let (mut zone, mut seats) = Zone::wide(alloc, config_of(pages, largest), 1)?;
        let Some(mut seat) = seats.pop() else {
            return Err(Unmade::Other);
        };
        zone.check(&mut seat);
        Ok(SeatSource { zone, seat })
    }

    fn take(&mut self, order: Order, kind: MigrateType) -> Option<PageNo> {
        self.zone.alloc(&mut self.seat, order, kind, Mark::Any).ok()
    }

    fn give(&mut self, page: PageNo, order: Order) {
        if self.zone.held_by(&self.seat, page, order) {
            self.zone.free(&mut self.seat, page, order);
        }
    }
}
