//! What each page of a zone is to one worker.
ghost use Rattle.std.specs.Prelude.{◌≡◌, ◌<◌, ◌-◌, ◌↔◌, All, replicate, slice_set, IfOk, IfNone, IfSome, IsSome, IsTrue};
ghost use Rattle.zp_model.specs.declared.request.Request.TheVariants as request;
ghost use Rattle.zp_zone.specs.NamedZone.{page_reply};
ghost use Rattle.zp_share.specs.declared.page_use.PageUse.TheVariants.{Away};
ghost use Rattle.zp_share.specs.PageUses.{use_of, all_as, uses_after, is_lent_as, IsPlace};
ghost use Rattle.zp_share.specs.PlainShares.{lent_kind};
ghost use Rattle.zp_share.specs.Sections.{HasPlaces};

mod runs;

use crate::packed_use::PackedUse;
use crate::page_use::PageUse;
use std::alloc::{AllocError, Global};
use std::marker::Model;
use zp_model::{Mark, MigrateType, Order, PageNo, Refused, Reply, Request};

/// One byte for each page of a zone, made with the share.
#[derive(Drop)]
pub struct PageUses {
    base: usize,
    uses: Vec<PackedUse>,
}

impl Model for PageUses {
    ghost use Rattle.std.specs.Prelude.{◌<◌, ◌^◌};
    ghost use Rattle.zp_share.specs.PageUses.{UsesState};

    ghost Value = { UsesState };

    ghost view = { λ u. record { base = u.base; uses = u.uses.items } };

    ghost invariant = { λ u. u.base < 2 ^ 32 };
}

impl PageUses {
    /// No page is the worker's.
    pub fn new(alloc: Global, base: u32, pages: u32) -> Result<PageUses, AllocError>
        ensures { IfOk result (λ u. u ≡ record { base = base; uses = replicate pages Away }) }
    {
        let away = PackedUse::new(PageUse::Away);
        let uses = Vec::from_elem(alloc, away, pages as usize)?;
        Ok(PageUses {
            base: base as usize,
            uses,
        })
    }

    /// Whether a block of this order is lent at an absolute page. Nothing else of the page's use is unpacked.
    pub fn is_lent(&self, page: PageNo, order: Order) -> bool
        ensures { result ≡ is_lent_as order (use_of self.now.base self.now.uses page) }
    {
        match self.packed(page) {
            Some(packed) => packed.is_lent(order),
            None => false,
        }
    }

    /// The type of the block at an absolute page, where it is lent with this order.
    pub fn lent_kind(&self, page: PageNo, order: Order) -> Option<MigrateType>
        ensures kind { result ≡ lent_kind (use_of self.now.base self.now.uses page) order }
        ensures lent { IsSome result ↔ IsTrue (is_lent_as order (use_of self.now.base self.now.uses page)) }
    {
        match self.packed(page) {
            Some(packed) => packed.lent_kind(order),
            None => None,
        }
    }

    /// What an absolute page of the zone is to the worker, as its byte. A page that is none of the zone is not the worker's.
    #[inline(always)]
    fn packed(&self, page: PageNo) -> Option<PackedUse>
        ensures some { IfSome result (λ packed. packed ≡ use_of self.now.base self.now.uses page) }
        ensures none { IfNone result (use_of self.now.base self.now.uses page ≡ Away) }
    {
        // what wraps is past the end of every vector: one test for both ends of the zone
        let place = (page.number() as usize).wrapping_sub(self.base);
        self.uses.get(place).copied()
    }

    /// An absolute page of the zone gets another use.
    pub fn set(&mut self, page: PageNo, used: PageUse)
        requires { IsPlace self.old page }
        ensures { self.new ≡ record self.old { uses = slice_set self.old.uses (page - self.old.base) used } }
    {
        self.put(page, PackedUse::new(used));
    }

    /// All of these pages get one use.
    #[inline(always)]
    pub fn set_all(&mut self, pages: &[PageNo], used: PageUse)
        requires { All (IsPlace self.old) pages.now }
        ensures { self.new ≡ record self.old { uses = all_as self.old.base used pages.now self.old.uses } }
    {
        // it is packed once for all
        let packed = PackedUse::new(used);
        put_all(self.uses.as_mut_slice(), self.base, pages, packed);
    }

    #[inline(always)]
    fn put(&mut self, page: PageNo, packed: PackedUse)
        requires { IsPlace self.old page }
        ensures { self.new ≡ record self.old { uses = slice_set self.old.uses (page - self.old.base) packed } }
    {
        self.uses[page.number() as usize - self.base] = packed;
    }

    /// What a request for a block of this order for this type, with this reply, makes of the pages.
    #[inline(always)]
    pub fn note_alloc(
        &mut self,
        order: Order,
        kind: MigrateType,
        mark: Mark,
        got: &Result<PageNo, Refused>,
    )
        requires { HasPlaces (request.Alloc order kind mark) (page_reply got.now) self.old }
        ensures { self.new ≡ record self.old { uses = uses_after self.old.base (request.Alloc order kind mark) (page_reply got.now) self.old.uses } }
    {
        // the mark is named for the clauses alone
        let _ = mark;
        if let Ok(page) = got {
            self.set(*page, PageUse::Lent(order, kind));
        }
    }

    /// What a request that is for no run, with this reply, makes of the pages.
    #[inline(always)]
    pub fn note(&mut self, request: &Request, reply: &Reply)
        requires { HasPlaces request.now reply.now self.old }
        ensures { self.new ≡ record self.old { uses = uses_after self.old.base request.now reply.now self.old.uses } }
    {
        match request {
            Request::Alloc(order, kind, _) => {
                if let Reply::Page(page) = reply {
                    self.set(*page, PageUse::Lent(*order, *kind));
                }
            }
            Request::AllocLow(order) => {
                if let Reply::Block(block) = reply {
                    self.set(block.page, PageUse::Lent(*order, block.kind));
                }
            }
            Request::Free(page, _) => {
                if let Reply::Freed = reply {
                    self.set(*page, PageUse::Away);
                }
            }
            Request::Post(page, _, _) => {
                if let Reply::Posted = reply {
                    self.set(*page, PageUse::Away);
                }
            }
            Request::Collect => {
                if let Reply::Block(block) = reply {
                    self.set(block.page, PageUse::Lent(block.order, block.kind));
                }
            }
            Request::Refill(kind, _, _) => {
                if let Reply::Pages(pages) = reply {
                    self.set_all(pages.as_slice(), PageUse::Cached(*kind));
                }
            }
            Request::Drain(_, pages) => {
                if let Reply::Drained = reply {
                    self.set_all(pages.as_slice(), PageUse::Away);
                }
            }
            // a page is to the worker what it was, whatever the type of its pageblock
            Request::Isolate(_) | Request::Release(_, _) => {}
            // runs are noted with the zone at hand
            Request::AllocRun(_, _, _) | Request::AllocRunAt(_, _) | Request::FreeRun(_, _) => {}
        }
    }
}

/// Writes one use at each of these pages of a zone with this base. A function of a slice: where its bytes stand is not read anew after
/// each of them.
#[inline(always)]
fn put_all(uses: &mut [PackedUse], base: usize, pages: &[PageNo], packed: PackedUse)
    requires { All (IsPlace (record { base = base; uses = uses.old })) pages.now }
    ensures { uses.new ≡ all_as base packed pages.now uses.old }
{
    for page in pages {
        uses[page.number() as usize - base] = packed;
    }
}
