//! Pages that are allocated and freed several at a time, without seats. Each call is one step of the plain zone.
//!
//! In Linux: `rmqueue_bulk` and `free_pcppages_bulk`.
ghost use Rattle.std.specs.Prelude.{◌≡◌, ◌<◌, ◌≤◌, ◌^◌, All, IfOk, IsTrue, drop, length};
ghost use Rattle.zp_model.specs.declared.request.Request.TheVariants as request;
ghost use Rattle.zp_model.specs.Step.{step};
ghost use Rattle.zp_model.specs.Run.{is_distinct};
ghost use Rattle.zp_model.specs.Zone.{workers_of};
ghost use Rattle.zp_zone.specs.NamedZone.{KeepsOut, KeepsOutBeside, IsFresh, AreOut, pages_reply};

use super::UntiedZone;
use super::falling::is_falling;
use super::parts::put_part;
use arrayvec::ArrayVec;
use zp_model::{MAX_BATCH, Mark, MigrateType, Order, PageNo, Refused, Worker};

impl UntiedZone {
    /// Up to `count` pages for this type, each held to this mark, in the order taken. Refused 10 or 11 where none is got; a
    /// refill that is stopped after a page or more returns the pages that it got.
    pub fn refill(
        &mut self,
        worker: Worker,
        kind: MigrateType,
        mark: Mark,
        count: u8,
    ) -> Result<ArrayVec<PageNo, MAX_BATCH>, Refused>
        requires worker { worker < workers_of self.old.plain }
        requires some { 1 ≤ count }
        requires batch { count ≤ MAX_BATCH }
        ensures reply { pages_reply result ≡ (step self.old.plain worker (request.Refill kind mark count)).reply }
        ensures after { self.new ≡ record self.old { plain = (step self.old.plain worker (request.Refill kind mark count)).zone } }

        // What the calls after it can rest on.
        ensures some { IfOk result (λ pages. 0 < length pages.items) }
        ensures most { IfOk result (λ pages. length pages.items ≤ count) }
        ensures out { IfOk result (λ pages. AreOut self.new.plain worker pages.items) }
        ensures distinct { IfOk result (λ pages. IsTrue (is_distinct pages.items)) }
        ensures fresh { IfOk result (λ pages. All (IsFresh self.old.plain) pages.items) }
        ensures kept { KeepsOut self.old.plain self.new.plain }
    {
        let (first, taken) = self.alloc_part(worker, kind, mark, u32::from(count))?;
        let mut pages = [PageNo::new(0); MAX_BATCH];
        put_part(&mut pages, 0, first, taken);
        let mut got = taken;
        'parts: while got < u32::from(count) {
            let wanted = u32::from(count) - got;
            let Ok(part) = self.alloc_part(worker, kind, mark, wanted) else {
                break;
            };
            let (next, more) = part;
            put_part(&mut pages, got as usize, next, more);
            got += more;
        }
        let mut batch = ArrayVec::from(pages);
        batch.truncate(got as usize);
        Ok(batch)
    }

    /// Frees these pages, each a block of order 0, in the slice's order. Their type is only noted. It is never refused.
    pub fn drain(&mut self, worker: Worker, kind: MigrateType, pages: &[PageNo])
        requires worker { worker < workers_of self.old.plain }
        requires out { AreOut self.old.plain worker pages.now }
        requires distinct { IsTrue (is_distinct pages.now) }
        ensures after { self.new ≡ record self.old { plain = (step self.old.plain worker (request.Drain kind pages.now)).zone } }

        // What the calls after it can rest on.
        ensures gone { All (IsFresh self.new.plain) pages.now }
        ensures kept { KeepsOutBeside pages.now self.old.plain self.new.plain }
    {
        // it is noted in the request, and changes nothing
        let _ = kind;
        // a clause of this call says that the zone is lawful
        self.lawful();
        if is_falling(pages) {
            self.free_falling(worker, pages);
            return;
        }
        let mut rest = pages;
        'parts: while !rest.is_empty() {
            let order = self.part_order(worker, rest);
            self.free_part(worker, rest, order);
            rest = past_part(rest, order);
        }
    }
}

/// What is left of a drain behind its first part, which has this order.
// (most pages stand alone, and are passed with no power of two)
#[inline(always)]
fn past_part(pages: &[PageNo], order: Order) -> &[PageNo]
    requires { 2 ^ order ≤ length pages.now }
    ensures { result.now ≡ drop (2 ^ order) pages.now }
{
    if order.number() == 0 {
        &pages[1..]
    } else {
        &pages[order.pages() as usize..]
    }
}
