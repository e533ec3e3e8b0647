//! A worker's share of a row of zones.
ghost use Rattle.std.specs.Prelude.{ℕ, ◌≡◌, ◌<◌, ◌≤◌, ◌==◌, map, length, All, IfOk, IfErr, IfNone, IfSome, IsSome, IsTrue, Some, true, ◌↔◌, slice_index_or};
ghost use Rattle.zp_model.specs.Zone.{workers_of};
ghost use Rattle.zp_model.specs.Rows.{front};
ghost use Rattle.zp_model.specs.declared.refused.Refused.TheVariants.{Memory};
ghost use Rattle.zp_model.specs.declared.constants.TheConstants.{LONGEST_LIST};
ghost use Rattle.zp_zone.specs.Seats.{SeatState, IsSeatOf, IsUnused};
ghost use Rattle.zp_model.specs.Bounds.{AreLists};
ghost use Rattle.std.specs.Option.{option_copied};
ghost use Rattle.zp_share.specs.PageUses.{IsOneBlock, is_lent_run};
ghost use Rattle.zp_share.specs.PlainShares.{back, lends_for, lent_kind, put, putting, refused_full, taken};
ghost use Rattle.zp_share.specs.Sections.{IsBack};
ghost use Rattle.zp_share.specs.ZoneShares.{ZoneShareState, IsShare, SharesIn, use_in, is_lent, cached_of, opening_share, plain_share};
ghost use Rattle.zp_share.specs.Commands.{is_listed};
ghost use Rattle.zp_share.specs.Gathering.{cached_pages};
ghost use Rattle.zp_share.specs.Shares.{no_seat, plain, share_at, with_zone_share};

use crate::list_config::ListConfig;
use crate::zone_share::ZoneShare;
use std::alloc::Global;
use std::marker::Model;
use zp_model::{
    Entry, MAX_ZONES, MigrateType, Order, PageList, PageNo, Refused, Reply, Request, Worker,
};
use zp_zone::{Seat, Zone};

mod requests;

/// What one worker has of each zone of a row: its lists of pages of order 0, the blocks lent to it, and its sections. Zones
/// are named by their place in the row, the lowest first.
///
/// In Linux: `struct per_cpu_pages` of each zone.
#[derive(Drop)]
pub struct Share {
    worker: Worker,
    lists: ListConfig,
    zones: Vec<ZoneShare>,
}

impl Model for Share {
    ghost use Rattle.std.specs.Prelude.{◌≡◌, ◌≤◌, All, length};
    ghost use Rattle.zp_model.specs.declared.constants.TheConstants.{MAX_ZONES};
    ghost use Rattle.zp_share.specs.ZoneShares.{ZoneShareState, HasAtMost};
    ghost use Rattle.zp_share.specs.Shares.{ShareState};

    ghost Value = { ShareState };

    ghost view = { λ s. record { worker = s.worker; batch = s.lists.batch; high_len = s.lists.high_len; zones = s.zones.items } };

    ghost invariant = { λ s. (length s.zones.items ≤ MAX_ZONES) × All (λ (z : ZoneShareState). z.seat.worker ≡ s.worker) s.zones.items × All (HasAtMost s.lists.high_len) s.zones.items };
}

impl Share {
    /// The share of a worker's seats, one of each zone in the zones' order, with which no request was made. Refused 6.
    pub fn new(alloc: Global, seats: Vec<Seat>, lists: ListConfig) -> Result<Share, Refused>
        requires some { 1 ≤ length seats.items }
        requires few { length seats.items ≤ MAX_ZONES }
        requires worker { All (λ (s : SeatState). s.worker ≡ (slice_index_or seats.items 0 no_seat).worker) seats.items }
        requires unused { All IsUnused seats.items }
        ensures share { IfOk result (λ s. s ≡ record { worker = (slice_index_or seats.items 0 no_seat).worker; batch = lists.batch; high_len = lists.high_len; zones = map (λ (t : SeatState). opening_share t (length t.part.blocks)) seats.items }) }
        ensures why { IfErr result (λ e. e ≡ Memory) }
    {
        let worker = seats[0].worker();
        let Ok(mut zones) = Vec::with_capacity(alloc, seats.len()) else {
            return Err(Refused::Memory);
        };
        for seat in seats {
            zones.push_reserved(ZoneShare::new(alloc, seat)?);
        }
        Ok(Share {
            worker,
            lists,
            zones,
        })
    }

    pub fn worker(&self) -> Worker
        ensures worker { result ≡ self.now.worker }
        ensures each { All (λ (z : ZoneShareState). z.seat.worker ≡ self.now.worker) self.now.zones }
    {
        self.worker
    }

    /// How many zones there are.
    pub fn zones(&self) -> usize
        ensures zones { result ≡ length self.now.zones }
        ensures few { result ≤ MAX_ZONES }
    {
        self.zones.len()
    }

    /// The settings of the worker's lists.
    pub fn lists(&self) -> ListConfig
        ensures batch { result.batch ≡ self.now.batch }
        ensures high_len { result.high_len ≡ self.now.high_len }
        ensures settings { AreLists self.now.batch self.now.high_len }
    {
        self.lists
    }

    /// Whether blocks of this order come from the worker's lists and go there.
    pub fn is_listed(&self, order: Order) -> bool
        ensures { result ≡ is_listed (plain self.now) order }
    {
        order.number() == 0 && self.lists.batch() != 0
    }

    /// Whether the block at this page of this zone, of this order, is lent. In each share the blocks out to its worker are its
    /// cached pages and its lent blocks, each once.
    pub fn is_lent(&self, zone: usize, page: PageNo, order: Order) -> bool
        requires { zone < length self.now.zones }
        ensures lent { result ≡ is_lent (share_at self.now zone) page order }
        ensures share { IsShare (share_at self.now zone) }
    {
        self.zones[zone].is_lent(page, order)
    }

    /// The type of the block at this page of this zone, where it is lent with this order.
    pub(crate) fn lent_kind(&self, zone: usize, page: PageNo, order: Order) -> Option<MigrateType>
        requires { zone < length self.now.zones }
        ensures kind { result ≡ lent_kind (use_in (share_at self.now zone) page) order }
        ensures lent { IsSome result ↔ IsTrue (is_lent (share_at self.now zone) page order) }
    {
        self.zones[zone].lent_kind(page, order)
    }

    /// How many pages the list of this type has, of this zone's pages.
    pub fn cached_len(&self, zone: usize, kind: MigrateType) -> usize
        requires { zone < length self.now.zones }
        ensures same { result ≡ length (cached_of (share_at self.now zone) kind) }
        ensures within { result ≤ LONGEST_LIST }
        ensures room { result ≤ self.now.high_len }
        ensures share { IsShare (share_at self.now zone) }
    {
        self.zones[zone].cached_len(kind)
    }

    /// How many pages all lists of this zone have.
    pub(crate) fn cached_pages(&self, zone: usize) -> u32
        requires { zone < length self.now.zones }
        ensures { result ≡ cached_pages (plain_share (share_at self.now zone)) }
    {
        self.zones[zone].cached_pages()
    }

    /// Whether the block that a request to this zone names, if it names one, is lent.
    #[inline(always)]
    pub fn lends_for(&self, zone: usize, request: &Request) -> bool
        requires { zone < length self.now.zones }
        ensures { result ≡ lends_for request.now (plain_share (share_at self.now zone)) }
    {
        self.zones[zone].lends_for(request)
    }

    /// Whether so many pages from this one of this zone on, one at least, are lent, by whatever blocks.
    pub fn is_lent_run(&self, zone: usize, page: PageNo, pages: u32) -> bool
        requires { zone < length self.now.zones }
        ensures { result ≡ is_lent_run (share_at self.now zone).seat.part.base (share_at self.now zone).uses page pages }
    {
        self.zones[zone].is_lent_run(page, pages)
    }

    /// The order of the lent block that so many pages from this one of this zone on are, where they are one. One look tells.
    #[inline(always)]
    pub fn lent_block(&self, zone: usize, page: PageNo, pages: u32) -> Option<Order>
        requires { zone < length self.now.zones }
        ensures some { IfSome result (IsOneBlock (share_at self.now zone).seat.part.base (share_at self.now zone).uses page pages) }
        ensures lent { IfSome result (λ _. is_lent_run (share_at self.now zone).seat.part.base (share_at self.now zone).uses page pages ≡ true) }
        ensures none { IfNone result ((k : ℕ) → IsOneBlock (share_at self.now zone).seat.part.base (share_at self.now zone).uses page pages k → ⊥) }
    {
        self.zones[zone].lent_block(page, pages)
    }

    /// The reply to a request for which no section can be made: 20 where the block that it names is not lent, else 30.
    pub fn refuse(&self, zone: usize, request: &Request) -> Reply
        requires { zone < length self.now.zones }
        ensures { result ≡ refused_full request.now (plain_share (share_at self.now zone)) }
    {
        if self.lends_for(zone, request) {
            Reply::Refused(Refused::JournalFull)
        } else {
            Reply::Refused(Refused::NotLent)
        }
    }

    /// The pages at the back of the list of this type, the last one first, as a drain frees them.
    pub fn back(&self, zone: usize, kind: MigrateType, count: usize) -> PageList
        requires zone { zone < length self.now.zones }
        requires within { count ≤ length (cached_of (share_at self.now zone) kind) }
        ensures pages { result ≡ back count (cached_of (share_at self.now zone) kind) }
        ensures back { IsBack (share_at self.now zone) kind result }
    {
        self.zones[zone].back(kind, count)
    }

    /// How many sections were made with this zone.
    pub fn sections(&self, zone: usize) -> u64
        requires { zone < length self.now.zones }
        ensures { result ≡ (share_at self.now zone).sections.made }
    {
        self.zones[zone].sections()
    }

    /// The last section with this zone: its worker, its request and its reply.
    pub fn last(&self, zone: usize) -> Option<&Entry>
        requires { zone < length self.now.zones }
        ensures { option_copied result ≡ (share_at self.now zone).sections.last }
    {
        self.zones[zone].last()
    }

    /// Nothing changes, and the share and the zone agree: what is out in the worker's name is what the share has.
    pub fn check(&mut self, zone: &mut Zone, place: usize)
        requires place { place < length self.old.zones }
        requires seat { IsSeatOf zone.old (share_at self.old place).seat }
        ensures zone { zone.new ≡ zone.old }
        ensures share { self.new ≡ self.old }
        ensures agrees { SharesIn zone.old (share_at self.old place) }
        ensures known { self.old.worker < workers_of zone.old.plain }
        ensures whole { IsShare (share_at self.old place) }
        ensures worker { (share_at self.old place).seat.worker ≡ self.old.worker }
    {
        self.zones[place].check(zone);
    }

    /// Takes the front of the list of this type, and lends it.
    #[inline(always)]
    pub fn take_cached(&mut self, zone: usize, kind: MigrateType) -> Option<PageNo>
        requires { zone < length self.old.zones }
        ensures answer { result ≡ front (cached_of (share_at self.old zone) kind) }
        ensures after { plain_share (share_at self.new zone) ≡ taken kind (plain_share (share_at self.old zone)) }
        ensures seat { (share_at self.new zone).seat ≡ (share_at self.old zone).seat }
        ensures others { self.new ≡ with_zone_share zone (share_at self.new zone) self.old }
        ensures lent { IfSome result (λ page. IsTrue (is_lent (share_at self.new zone) page 0)) }
        ensures share { IsShare (share_at self.old zone) }
    {
        self.zones[zone].take_cached(kind)
    }

    /// Puts a lent page at the front of the list of its type. Refused 20 where the page is not lent with order 0, and 21
    /// where the list has `high_len` pages.
    #[inline(always)]
    pub fn put_cached(&mut self, zone: usize, page: PageNo) -> Result<(), Refused>
        requires { zone < length self.old.zones }
        ensures answer { result ≡ (putting (plain_share (share_at self.old zone)) page self.old.high_len).answer }
        ensures after { plain_share (share_at self.new zone) ≡ (putting (plain_share (share_at self.old zone)) page self.old.high_len).share }
        ensures seat { (share_at self.new zone).seat ≡ (share_at self.old zone).seat }
        ensures others { self.new ≡ with_zone_share zone (share_at self.new zone) self.old }
    {
        let high_len = self.lists.high_len();
        self.zones[zone].put_cached(page, high_len)
    }

    /// Puts a lent page of this type at the front of its list: how many pages the list then has.
    pub(crate) fn put_lent(&mut self, zone: usize, page: PageNo, kind: MigrateType) -> usize
        requires zone { zone < length self.old.zones }
        requires lent { lent_kind (use_in (share_at self.old zone) page) 0 ≡ Some kind }
        requires free { length (cached_of (share_at self.old zone) kind) < self.old.high_len }
        ensures len { result ≡ length (cached_of (share_at self.new zone) kind) }
        ensures room { result ≤ self.new.high_len }
        ensures share { IsShare (share_at self.new zone) }
        ensures after { plain_share (share_at self.new zone) ≡ put page kind (plain_share (share_at self.old zone)) }
        ensures seat { (share_at self.new zone).seat ≡ (share_at self.old zone).seat }
        ensures others { self.new ≡ with_zone_share zone (share_at self.new zone) self.old }
    {
        self.zones[zone].put_lent(page, kind);
        self.cached_len(zone, kind)
    }
}
