//! A row of zones to which a worker turns with its share.
ghost use Rattle.std.specs.Prelude.{ℕ, ◌≡◌, ◌≢◌, ◌<◌, ◌≤◌, List, [], length, IsTrue, true, Option, Some};
ghost use Rattle.zp_model.specs.declared.counts.Counts.{Counts};
ghost use Rattle.zp_model.specs.Runs.{may_alloc_run};
ghost use Rattle.zp_model.specs.declared.refused.Refused.TheVariants.{JournalFull};
ghost use Rattle.zp_model.specs.declared.request.Reply.{Reply};
ghost use Rattle.zp_model.specs.declared.request.Request.TheVariants as request;
ghost use Rattle.zp_model.specs.declared.request.Reply.TheVariants as reply;
ghost use Rattle.zp_zone.specs.NamedZone.{NamedZone, page_reply, block_reply, isolate_reply, release_reply};
ghost use Rattle.zp_share.specs.PlainShares.{back};
ghost use Rattle.zp_share.specs.Sections.{IsRefilled, MayAsk, done_reply, list_reply};
ghost use Rattle.zp_share.specs.ZoneShares.{cached_of};
ghost use Rattle.zp_share.specs.Commands.{counts_at};
ghost use Rattle.zp_share.specs.Shares.{ShareState, ZoneKey, IsShareOf, HasWorkerAt, IsAskedAt, is_section, sections_at, share_at, workers_at};

use crate::answered;
use crate::share::Share;
use zp_model::{
    Block, Counts, Mark, MigrateType, Order, PageList, PageNo, Refused, Reply, Request, Worker,
};

/// A row of zones. A section makes one request to the zone at a place of the row, and the same change in the share: one section
/// more, of this request and this reply, or a refusal 20 or 30 with nothing changed. Where the row shows what its zones are, they and
/// the reply are exactly those of one step of that zone. Each of the twelve typed calls is the section of its request, and
/// `fill` is that of a refill. The row says what each of them leaves of its readings (`reads`): after a section the readings of its zone
/// cover it.
pub trait Zones {
    // What ties each zone to its seats, its name, and how many workers it has; this never changes.
    ghost keys: { Self → List ZoneKey };
    // The zones, where the row shows them.
    ghost told: { Self → Option (List NamedZone) };
    // The counts that a reading of each zone returns: the zone's own, where the row shows its zones; where it does not, those that were
    // seen last.
    ghost shown: { Self → ℕ → Counts };
    // What a request to the zone of a place, with this reply, leaves of the row's readings, with the share as it is then.
    ghost reads: { Self → Self → ℕ → Reply → ShareState → Type 0 };
    // What a reading of the counts of the zone of a place leaves of the row's readings.
    ghost counted: { Self → Self → ℕ → Type 0 };
    // The row's readings of the zone of a place cover so many of the worker's sections with it. The row says how.
    ghost covers: { Self → ℕ → ℕ → Type 0 };
    // There is no room for a section more with the zone of a place, as far as the row and this share can know.
    ghost ended: { Self → ℕ → ShareState → Type 0 };

    /// One request to the zone at a place. Refused 20 where the block that it names is not lent, 30, and as the zone refuses it.
    fn section(&mut self, share: &mut Share, zone: usize, request: &Request) -> Reply
        requires fits { IsShareOf (keys self.old) share.old }
        requires zone { zone < length share.old.zones }
        requires may { MayAsk (workers_at (keys self.old) zone) share.old.batch request.now (share_at share.old zone) }
        ensures asked { IsAskedAt zone request.now result (keys self.old) (keys self.new) (told self.old) (told self.new) share.old share.new }
        ensures read { reads self.old self.new zone result share.new };

    /// How many free blocks of each order the zone has, and how many free pages, as a reading of it returns.
    fn counts(&mut self, zone: usize) -> Counts
        requires { zone < length (keys self.old) }
        ensures keys { keys self.new ≡ keys self.old }
        ensures shown { result ≡ shown self.new zone }
        ensures others { (i : ℕ) → i ≢ zone → shown self.new i ≡ shown self.old i }
        ensures read { counted self.old self.new zone }
        ensures told { (rows : List NamedZone) → told self.old ≡ Some rows → (told self.new ≡ Some rows) × (result ≡ counts_at rows zone) };

    /// Allocates a block of this order for this type, held to this mark, which is then lent: its first page. Refused 10, 11 or 30.
    // (out of line, and so are a refill and a drain: what is done for each page of a list is small without them)
    #[inline(never)]
    fn alloc_block(
        &mut self,
        share: &mut Share,
        zone: usize,
        order: Order,
        kind: MigrateType,
        mark: Mark,
    ) -> Result<PageNo, Refused>
        requires fits { IsShareOf (keys self.old) share.old }
        requires zone { zone < length share.old.zones }
        ensures asked { IsAskedAt zone (request.Alloc order kind mark) (page_reply result) (keys self.old) (keys self.new) (told self.old) (told self.new) share.old share.new }
        ensures read { reads self.old self.new zone (page_reply result) share.new }
    {
        let request = Request::Alloc(order, kind, mark);
        answered!(self.section(share, zone, &request), Reply::Page(page) => page)
    }

    /// Allocates the lowest block of this order, which is then lent. Refused 11 or 30.
    fn alloc_low(&mut self, share: &mut Share, zone: usize, order: Order) -> Result<Block, Refused>
        requires fits { IsShareOf (keys self.old) share.old }
        requires zone { zone < length share.old.zones }
        ensures asked { IsAskedAt zone (request.AllocLow order) (block_reply result) (keys self.old) (keys self.new) (told self.old) (told self.new) share.old share.new }
        ensures read { reads self.old self.new zone (block_reply result) share.new }
    {
        let request = Request::AllocLow(order);
        answered!(self.section(share, zone, &request), Reply::Block(block) => block)
    }

    /// Frees a lent block. Refused 20 where it is not lent with this order, and 30.
    fn free_block(
        &mut self,
        share: &mut Share,
        zone: usize,
        page: PageNo,
        order: Order,
    ) -> Result<(), Refused>
        requires fits { IsShareOf (keys self.old) share.old }
        requires zone { zone < length share.old.zones }
        ensures asked { IsAskedAt zone (request.Free page order) (done_reply reply.Freed result) (keys self.old) (keys self.new) (told self.old) (told self.new) share.old share.new }
        ensures read { reads self.old self.new zone (done_reply reply.Freed result) share.new }
    {
        let request = Request::Free(page, order);
        answered!(self.section(share, zone, &request), Reply::Freed => ())
    }

    /// Posts a lent block to a worker. Refused as `free_block` is.
    fn post(
        &mut self,
        share: &mut Share,
        zone: usize,
        page: PageNo,
        order: Order,
        to: Worker,
    ) -> Result<(), Refused>
        requires fits { IsShareOf (keys self.old) share.old }
        requires zone { zone < length share.old.zones }
        requires to { HasWorkerAt (keys self.old) zone to }
        ensures asked { IsAskedAt zone (request.Post page order to) (done_reply reply.Posted result) (keys self.old) (keys self.new) (told self.old) (told self.new) share.old share.new }
        ensures read { reads self.old self.new zone (done_reply reply.Posted result) share.new }
    {
        let request = Request::Post(page, order, to);
        answered!(self.section(share, zone, &request), Reply::Posted => ())
    }

    /// The block in front of those posted to the worker, which is then lent. Refused 12 or 30.
    fn collect(&mut self, share: &mut Share, zone: usize) -> Result<Block, Refused>
        requires fits { IsShareOf (keys self.old) share.old }
        requires zone { zone < length share.old.zones }
        ensures asked { IsAskedAt zone request.Collect (block_reply result) (keys self.old) (keys self.new) (told self.old) (told self.new) share.old share.new }
        ensures read { reads self.old self.new zone (block_reply result) share.new }
    {
        answered!(self.section(share, zone, &Request::Collect), Reply::Block(block) => block)
    }

    /// Fills an empty list with up to a batch of pages of its type, the one taken first in front: the pages. Refused 10, 11 or 30.
    #[inline(never)]
    fn refill(
        &mut self,
        share: &mut Share,
        zone: usize,
        kind: MigrateType,
        mark: Mark,
    ) -> Result<PageList, Refused>
        requires fits { IsShareOf (keys self.old) share.old }
        requires zone { zone < length share.old.zones }
        requires empty { cached_of (share_at share.old zone) kind ≡ [] }
        requires some { 1 ≤ share.old.batch }
        ensures asked { IsAskedAt zone (request.Refill kind mark share.old.batch) (list_reply result) (keys self.old) (keys self.new) (told self.old) (told self.new) share.old share.new }
        ensures read { reads self.old self.new zone (list_reply result) share.new }
    {
        let request = Request::Refill(kind, mark, share.lists().batch());
        answered!(self.section(share, zone, &request), Reply::Pages(pages) => pages)
    }

    /// Fills an empty list as `refill` does, and returns no pages, for who takes them off the list. Refused 10, 11 or 30.
    #[inline(never)]
    fn fill(
        &mut self,
        share: &mut Share,
        zone: usize,
        kind: MigrateType,
        mark: Mark,
    ) -> Result<(), Refused>
        requires fits { IsShareOf (keys self.old) share.old }
        requires zone { zone < length share.old.zones }
        requires empty { cached_of (share_at share.old zone) kind ≡ [] }
        requires some { 1 ≤ share.old.batch }
        ensures asked { IsRefilled (λ q. IsAskedAt zone (request.Refill kind mark share.old.batch) q (keys self.old) (keys self.new) (told self.old) (told self.new) share.old share.new) result }
        ensures read { IsRefilled (λ q. reads self.old self.new zone q share.new) result }
    {
        match self.refill(share, zone, kind, mark) {
            Ok(_) => Ok(()),
            Err(refused) => Err(refused),
        }
    }

    /// Frees `count` pages from the back of the list of this type, the last one first. Refused 30.
    #[inline(never)]
    fn drain(
        &mut self,
        share: &mut Share,
        zone: usize,
        kind: MigrateType,
        count: usize,
    ) -> Result<(), Refused>
        requires fits { IsShareOf (keys self.old) share.old }
        requires zone { zone < length share.old.zones }
        requires some { 1 ≤ count }
        requires within { count ≤ length (cached_of (share_at share.old zone) kind) }
        ensures asked { IsAskedAt zone (request.Drain kind (back count (cached_of (share_at share.old zone) kind))) (done_reply reply.Drained result) (keys self.old) (keys self.new) (told self.old) (told self.new) share.old share.new }
        ensures read { reads self.old self.new zone (done_reply reply.Drained result) share.new }
    {
        let request = Request::Drain(kind, share.back(zone, kind, count));
        answered!(self.section(share, zone, &request), Reply::Drained => ())
    }

    /// Isolates the zone's pageblock of this number. The worker's lists and lent blocks stay, also those of the pageblock. Refused
    /// 13, 14 or 30.
    fn isolate(&mut self, share: &mut Share, zone: usize, pageblock: u32) -> Result<(), Refused>
        requires fits { IsShareOf (keys self.old) share.old }
        requires zone { zone < length share.old.zones }
        ensures asked { IsAskedAt zone (request.Isolate pageblock) (isolate_reply result) (keys self.old) (keys self.new) (told self.old) (told self.new) share.old share.new }
        ensures read { reads self.old self.new zone (isolate_reply result) share.new }
    {
        let request = Request::Isolate(pageblock);
        answered!(self.section(share, zone, &request), Reply::Isolated => ())
    }

    /// Gives an isolated pageblock of the zone a migrate type. Refused 13, 15 or 30.
    fn release(
        &mut self,
        share: &mut Share,
        zone: usize,
        pageblock: u32,
        kind: MigrateType,
    ) -> Result<(), Refused>
        requires fits { IsShareOf (keys self.old) share.old }
        requires zone { zone < length share.old.zones }
        ensures asked { IsAskedAt zone (request.Release pageblock kind) (release_reply result) (keys self.old) (keys self.new) (told self.old) (told self.new) share.old share.new }
        ensures read { reads self.old self.new zone (release_reply result) share.new }
    {
        let request = Request::Release(pageblock, kind);
        answered!(self.section(share, zone, &request), Reply::Released => ())
    }

    /// Allocates the lowest run of so many pages outside isolated pageblocks that begins at an absolute page which is a multiple of two to the power
    /// `align`, held to this mark: its first page. All of it is then lent. Refused 10, 11 or 30.
    fn alloc_run(
        &mut self,
        share: &mut Share,
        zone: usize,
        pages: u32,
        align: u8,
        mark: Mark,
    ) -> Result<PageNo, Refused>
        requires fits { IsShareOf (keys self.old) share.old }
        requires zone { zone < length share.old.zones }
        requires run { IsTrue (may_alloc_run pages align) }
        ensures asked { IsAskedAt zone (request.AllocRun pages align mark) (page_reply result) (keys self.old) (keys self.new) (told self.old) (told self.new) share.old share.new }
        ensures read { reads self.old self.new zone (page_reply result) share.new }
    {
        let request = Request::AllocRun(pages, align, mark);
        answered!(self.section(share, zone, &request), Reply::Page(page) => page)
    }

    /// Allocates the run of so many pages that begins at this page, in isolated pageblocks too, held to no mark: its first page. All of it is then
    /// lent. Refused 16, 17 or 30.
    fn alloc_run_at(
        &mut self,
        share: &mut Share,
        zone: usize,
        page: PageNo,
        pages: u32,
    ) -> Result<PageNo, Refused>
        requires fits { IsShareOf (keys self.old) share.old }
        requires zone { zone < length share.old.zones }
        ensures asked { IsAskedAt zone (request.AllocRunAt page pages) (page_reply result) (keys self.old) (keys self.new) (told self.old) (told self.new) share.old share.new }
        ensures read { reads self.old self.new zone (page_reply result) share.new }
    {
        let request = Request::AllocRunAt(page, pages);
        answered!(self.section(share, zone, &request), Reply::Page(first) => first)
    }

    /// Frees so many pages from this one on, by whatever blocks they are lent. What the blocks around the first and the last of them have beyond
    /// the run stays lent. Refused 20 where one of them is not lent, or there is none, and 30.
    fn free_run(
        &mut self,
        share: &mut Share,
        zone: usize,
        page: PageNo,
        pages: u32,
    ) -> Result<(), Refused>
        requires fits { IsShareOf (keys self.old) share.old }
        requires zone { zone < length share.old.zones }
        ensures asked { IsAskedAt zone (request.FreeRun page pages) (done_reply reply.Freed result) (keys self.old) (keys self.new) (told self.old) (told self.new) share.old share.new }
        ensures read { reads self.old self.new zone (done_reply reply.Freed result) share.new }
    {
        let request = Request::FreeRun(page, pages);
        answered!(self.section(share, zone, &request), Reply::Freed => ())
    }

    // A section is covered by the readings after it, and what was covered is so still.
    ghost covers_own: { (z y : Self) (i : ℕ) (q : Reply) (t : ShareState) → reads z y i q t → is_section q ≡ true → covers y i (sections_at t i) };

    ghost covers_counted: { (z y : Self) (i : ℕ) → counted z y i → (j n : ℕ) → covers z j n → covers y j n };

    ghost covers_still: { (z y : Self) (i : ℕ) (q : Reply) (t : ShareState) → reads z y i q t → (j n : ℕ) → covers z j n → covers y j n };
    // A request is refused 30 where there is no room.
    ghost ends: { (z y : Self) (i : ℕ) (q : Reply) (t : ShareState) → reads z y i q t → q ≡ Reply.Refused JournalFull → ended y i t };
}
