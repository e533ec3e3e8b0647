//! What one worker has of one zone.
ghost use Rattle.std.specs.Prelude.{ℕ, ◌≡◌, ◌<◌, ◌≤◌, ◌↔◌, length, IfOk, IfErr, IfSome, IsSome, IsTrue, Some};
ghost use Rattle.zp_model.specs.Zone.{workers_of};
ghost use Rattle.zp_model.specs.declared.constants.TheConstants.{LONGEST_LIST};
ghost use Rattle.zp_model.specs.declared.refused.Refused.TheVariants.{Memory};
ghost use Rattle.zp_model.specs.Rows.{front};
ghost use Rattle.zp_zone.specs.Seats.{IsSeatOf, IsUnused};
ghost use Rattle.zp_share.specs.Gathering.{cached_pages};
ghost use Rattle.std.specs.Option.{option_copied};
ghost use Rattle.zp_share.specs.PlainShares.{back, lent_kind, taken, put, putting};
ghost use Rattle.zp_share.specs.Sections.{IsBack};
ghost use Rattle.zp_share.specs.ZoneShares.{HasAtMost, use_in, is_lent, cached_of, IsShare, SharesIn, IsLeft, plain_share, opening_share};

use crate::page_stack::PageStack;
use crate::page_use::PageUse;
use crate::page_uses::PageUses;
use crate::sections_made::SectionsMade;
use std::alloc::Global;
use std::marker::Model;
use zp_model::{Entry, LONGEST_LIST, MigrateType, Order, PageList, PageNo, Refused, TYPES, Worker};
use zp_zone::{Seat, Zone};

mod asking;
mod runs;

/// What one worker has of a zone: its lists of pages of order 0, one for each type, the blocks lent to it, and its sections.
#[derive(Drop)]
pub struct ZoneShare {
    seat: Seat,
    uses: PageUses,
    cached: [PageStack; TYPES],
    sections: SectionsMade,
}

impl Model for ZoneShare {
    ghost use Rattle.std.specs.Prelude.{◌≡◌};
    ghost use Rattle.zp_share.specs.ZoneShares.{ZoneShareState, IsShare};

    ghost Value = { ZoneShareState };

    ghost view = { λ s. record { seat = s.seat; uses = s.uses.uses; cached = s.cached; sections = s.sections } };

    ghost invariant = { λ s. (s.uses.base ≡ s.seat.part.base) × IsShare (record { seat = s.seat; uses = s.uses.uses; cached = s.cached; sections = s.sections }) };
}

impl ZoneShare {
    /// The share of a seat with which no request was made. Refused 6.
    pub fn new(alloc: Global, seat: Seat) -> Result<ZoneShare, Refused>
        requires { IsUnused seat }
        ensures share { IfOk result (λ s. s ≡ opening_share seat (length seat.part.blocks)) }
        ensures why { IfErr result (λ e. e ≡ Memory) }
    {
        let Ok(uses) = PageUses::new(alloc, seat.base(), seat.pages()) else {
            return Err(Refused::Memory);
        };
        Ok(ZoneShare {
            seat,
            uses,
            cached: [PageStack::new(), PageStack::new(), PageStack::new()],
            sections: SectionsMade::new(),
        })
    }

    pub fn worker(&self) -> Worker
        ensures { result ≡ self.now.seat.worker }
    {
        self.seat.worker()
    }

    /// Whether the block at this page, of this order, is lent. In each share the blocks out to its worker are its cached
    /// pages and its lent blocks, each once.
    pub fn is_lent(&self, page: PageNo, order: Order) -> bool
        ensures lent { result ≡ is_lent self.now page order }
        ensures share { IsShare self.now }
    {
        self.uses.is_lent(page, order)
    }

    /// The type of the block at this page, where it is lent with this order.
    pub(crate) fn lent_kind(&self, page: PageNo, order: Order) -> Option<MigrateType>
        ensures kind { result ≡ lent_kind (use_in self.now page) order }
        ensures lent { IsSome result ↔ IsTrue (is_lent self.now page order) }
    {
        self.uses.lent_kind(page, order)
    }

    /// How many pages the list of this type has.
    pub fn cached_len(&self, kind: MigrateType) -> usize
        ensures same { result ≡ length (cached_of self.now kind) }
        ensures within { result ≤ LONGEST_LIST }
        ensures share { IsShare self.now }
    {
        self.cached[kind.number()].len()
    }

    /// The pages at the back of the list of this type, the last one first.
    pub fn back(&self, kind: MigrateType, count: usize) -> PageList
        requires { count ≤ length (cached_of self.now kind) }
        ensures pages { result ≡ back count (cached_of self.now kind) }
        ensures back { IsBack self.now kind result }
    {
        PageList::of(self.cached[kind.number()].back(count))
    }

    /// How many pages all lists have.
    pub(crate) fn cached_pages(&self) -> u32
        ensures { result ≡ cached_pages (plain_share self.now) }
    {
        let mut pages = 0;
        for list in &self.cached {
            pages += list.len() as u32;
        }
        pages
    }

    /// How many sections were made.
    pub fn sections(&self) -> u64
        ensures { result ≡ self.now.sections.made }
    {
        self.sections.made()
    }

    /// The last section's worker, request and reply.
    pub fn last(&self) -> Option<&Entry>
        ensures { option_copied result ≡ self.now.sections.last }
    {
        self.sections.last()
    }

    /// Nothing changes, and the share and the zone agree: what is out in the worker's name is what the share has.
    pub fn check(&mut self, zone: &mut Zone)
        requires { IsSeatOf zone.old self.old.seat }
        ensures same { IsLeft zone.old zone.new self.old self.new }
        ensures agrees { SharesIn zone.old self.old }
        ensures known { self.new.seat.worker < workers_of zone.new.plain }
        ensures fits { IsSeatOf zone.new self.new.seat }
        ensures whole { IsShare self.old }
    {
        zone.check(&mut self.seat);
    }

    /// Takes the front of the list of this type, and lends it.
    #[inline(always)]
    pub fn take_cached(&mut self, kind: MigrateType) -> Option<PageNo>
        ensures answer { result ≡ front (cached_of self.old kind) }
        ensures after { plain_share self.new ≡ taken kind (plain_share self.old) }
        ensures seat { self.new.seat ≡ self.old.seat }
        ensures lent { IfSome result (λ page. IsTrue (is_lent self.new page 0)) }
        ensures share { IsShare self.old }
        ensures lists { (n : ℕ) → HasAtMost n self.old → HasAtMost n self.new }
    {
        let page = self.cached[kind.number()].pop_front()?;
        self.uses.set(page, PageUse::Lent(Order::zero(), kind));
        Some(page)
    }

    /// Puts a lent page at the front of the list of its type. Refused 20 where the page is not lent with order 0, and 21
    /// where the list has `high_len` pages.
    #[inline(always)]
    pub fn put_cached(&mut self, page: PageNo, high_len: usize) -> Result<(), Refused>
        requires { high_len ≤ LONGEST_LIST }
        ensures answer { result ≡ (putting (plain_share self.old) page high_len).answer }
        ensures after { plain_share self.new ≡ (putting (plain_share self.old) page high_len).share }
        ensures seat { self.new.seat ≡ self.old.seat }
        ensures lists { HasAtMost high_len self.old → HasAtMost high_len self.new }
    {
        let Some(kind) = self.uses.lent_kind(page, Order::zero()) else {
            return Err(Refused::NotLent);
        };
        // most pages are movable: the place of their list is known where this is compiled
        if let MigrateType::Movable = kind {
            if self.cached_len(MigrateType::Movable) >= high_len {
                return Err(Refused::ListFull);
            }
            self.put_lent(page, MigrateType::Movable);
            return Ok(());
        }
        if self.cached_len(kind) >= high_len {
            return Err(Refused::ListFull);
        }
        self.put_lent(page, kind);
        Ok(())
    }

    /// Puts a lent page of this type at the front of its list.
    pub(crate) fn put_lent(&mut self, page: PageNo, kind: MigrateType)
        requires lent { lent_kind (use_in self.old page) 0 ≡ Some kind }
        requires room { length (cached_of self.old kind) < LONGEST_LIST }
        ensures after { plain_share self.new ≡ put page kind (plain_share self.old) }
        ensures seat { self.new.seat ≡ self.old.seat }
        ensures lists { (n : ℕ) → length (cached_of self.old kind) < n → HasAtMost n self.old → HasAtMost n self.new }
    {
        self.uses.set(page, PageUse::Cached(kind));
        self.cached[kind.number()].push_front(page);
    }
}
