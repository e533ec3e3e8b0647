//! Seats.
ghost use Rattle.std.specs.Prelude.{◌≡◌, ◌<◌, ◌≤◌, length, IfOk, OnOk};
ghost use Rattle.zp_model.specs.Zone.{workers_of};
ghost use Rattle.zp_model.specs.Step.{step};
ghost use Rattle.zp_model.specs.Books.{entered, part};
ghost use Rattle.zp_zone.specs.Asking.{MaySeatAsk};
ghost use Rattle.zp_zone.specs.Seats.{KeepsBooks, replied_in, seats_of};

use crate::books::{Asks, Books, Enters, Part, Parts};
use crate::untied_zone::UntiedZone;
use std::alloc::{AllocError, Global};
use std::marker::Model;
use zp_model::{MAX_WORKERS, Worker};
use zp_tie::{Keeper, Token};

/// One worker's right to act in one zone. It is made with the zone, and cannot be copied. Contracts see what is the worker's
/// in the zone: its blocks out, and the entries of its requests.
#[derive(Drop)]
pub struct Seat {
    worker: Worker,
    base: u32,
    pages: u32,
    token: Token<Books, Part>,
}

impl Model for Seat {
    ghost use Rattle.std.specs.Prelude.{◌≡◌, length};
    ghost use Rattle.zp_zone.specs.Seats.{SeatState};

    ghost Value = { SeatState };

    ghost view = { λ s. record { tie = s.token.tie; worker = s.worker; part = s.token.mine } };

    ghost invariant = { λ s. (s.token.worker ≡ s.worker) × (s.base ≡ s.token.mine.base) × (s.pages ≡ length s.token.mine.blocks) };
}

impl Seat {
    pub fn worker(&self) -> Worker
        ensures { result ≡ self.now.worker }
    {
        self.worker
    }

    /// The absolute number of the zone's first page.
    pub fn base(&self) -> u32
        ensures { result ≡ self.now.part.base }
    {
        self.base
    }

    /// How many pages the zone has.
    pub fn pages(&self) -> u32
        ensures { result ≡ length self.now.part.blocks }
    {
        self.pages
    }

    /// A request of the worker is entered: the books and what is the worker's change in one step, by what the request makes of the
    /// zone, and what is other workers' stays. Seat and books agree before it and after it. The caller picks the request, by what it
    /// is about. Returns the worker.
    pub(crate) fn enter<Q: Asks, T>(
        &mut self,
        keeper: &mut Keeper<Books, Part, Parts>,
        zone: &UntiedZone,
        about: &T,
    ) -> Worker
        requires tie { self.old.tie ≡ keeper.old.tie }
        requires zone { keeper.old.whole.plain ≡ zone.now.plain }
        requires books { KeepsBooks keeper.old }
        requires may { MaySeatAsk (workers_of zone.now.plain) Q.request self.old }
        ensures worker { result ≡ self.old.worker }
        ensures keeper { keeper.new ≡ record keeper.old { whole = entered self.old.worker Q.request keeper.old.whole } }
        ensures zone { keeper.new.whole.plain ≡ (step zone.now.plain self.old.worker Q.request).zone }
        ensures books { KeepsBooks keeper.new }
        ensures seat { self.new ≡ replied_in zone.now.plain Q.request (step zone.now.plain self.old.worker Q.request).reply self.old }
        ensures known { self.old.worker < keeper.old.dealt }
        ensures agrees { (self.old.part ≡ part self.old.worker keeper.old.whole) × (self.new.part ≡ part self.new.worker keeper.new.whole) }
    {
        zone.lawful();
        keeper.request::<T, Enters<Q>>(&mut self.token, about);
        self.worker
    }

    /// Nothing changes, and the seat and the books agree.
    pub(crate) fn meet(&mut self, keeper: &mut Keeper<Books, Part, Parts>)
        requires { self.old.tie ≡ keeper.old.tie }
        ensures same { (self.new ≡ self.old) × (keeper.new ≡ keeper.old) }
        ensures agreed { (self.old.worker < keeper.old.dealt) × (self.old.part ≡ part self.old.worker keeper.old.whole) }
    {
        keeper.check(&mut self.token);
    }
}

/// The seats of a zone, one for each worker in order.
pub(crate) fn seats(
    alloc: Global,
    keeper: &mut Keeper<Books, Part, Parts>,
    base: u32,
    pages: u32,
    workers: u32,
) -> Result<Vec<Seat>, AllocError>
    requires within { workers ≤ MAX_WORKERS }
    requires none { keeper.old.dealt ≡ 0 }
    requires base { base ≡ keeper.old.whole.plain.base }
    requires pages { pages ≡ length keeper.old.whole.plain.out }
    ensures seats { IfOk result (λ v. v.items ≡ seats_of keeper.old.tie keeper.old.whole workers) }
    ensures dealt { OnOk result (keeper.new ≡ record keeper.old { dealt = workers }) }
{
    let mut seats = Vec::with_capacity(alloc, workers as usize)?;
    'crew: for number in 0..workers {
        let Some(worker) = Worker::new(number as u8) else {
            unreachable!()
        };
        let token = keeper.deal();
        seats.push_reserved(Seat {
            worker,
            base,
            pages,
            token,
        });
    }
    Ok(seats)
}
