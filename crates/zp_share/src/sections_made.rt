//! How many sections a share has made with one zone, and the last one.
ghost use Rattle.std.specs.Prelude.{◌≡◌, ◌<◌, ◌≤◌, ◌+◌, ◌==◌, length, Some, None, false};
ghost use Rattle.std.specs.Option.{option_copied};
ghost use Rattle.zp_model.specs.Entries.{HasOneList};
ghost use Rattle.zp_model.specs.declared.constants.TheConstants.{LONGEST_LIST};
ghost use Rattle.zp_model.specs.declared.request.Request.TheVariants as request;
ghost use Rattle.zp_model.specs.declared.request.Reply.TheVariants as reply;

use std::marker::Model;
use zp_model::{Entry, Mark, MigrateType, PageNo, Reply, Request, Worker};

/// The number of sections after which none can be counted.
pub const LAST_SECTION: u64 = u64::MAX;

/// How many there were, and the last one. The entry of the last one is written over where it lies.
#[derive(Drop)]
pub struct SectionsMade {
    made: u64,
    last: Entry,
}

impl Model for SectionsMade {
    ghost use Rattle.zp_share.specs.PlainShares.{SectionsState, last_made};

    ghost Value = { SectionsState };

    ghost view = { λ s. record { made = s.made; last = last_made s.made s.last } };
}

impl SectionsMade {
    pub fn new() -> SectionsMade
        ensures { result ≡ record { made = 0; last = None } }
    {
        SectionsMade {
            made: 0,
            last: Entry::blank(),
        }
    }

    pub fn made(&self) -> u64
        ensures { result ≡ self.now.made }
    {
        self.made
    }

    /// Whether no further section can be counted.
    pub fn are_full(&self) -> bool
        ensures full { result ≡ (self.now.made == LAST_SECTION) }
        ensures room { result ≡ false → self.now.made < LAST_SECTION }
    {
        self.made == LAST_SECTION
    }

    pub fn last(&self) -> Option<&Entry>
        ensures { option_copied result ≡ self.now.last }
    {
        if self.made == 0 {
            return None;
        }
        Some(&self.last)
    }

    /// One section more, in which a worker's request got this reply.
    #[inline(always)]
    pub fn add(&mut self, worker: Worker, request: &Request, reply: &Reply)
        requires room { self.old.made < LAST_SECTION }
        requires entry { HasOneList request.now reply.now }
        ensures { self.new ≡ record { made = self.old.made + 1; last = Some (record { worker = worker; request = request.now; reply = reply.now }) } }
    {
        self.made += 1;
        self.last.set(worker, request, reply);
    }

    /// One section more, in which a worker freed these pages of this type.
    #[inline(always)]
    pub fn add_drain(&mut self, worker: Worker, kind: MigrateType, pages: &[PageNo])
        requires room { self.old.made < LAST_SECTION }
        requires within { length pages.now ≤ LONGEST_LIST }
        ensures { self.new ≡ record { made = self.old.made + 1; last = Some (record { worker = worker; request = request.Drain kind pages.now; reply = reply.Drained }) } }
    {
        self.made += 1;
        self.last.set_drain(worker, kind, pages);
    }

    /// One section more, in which a worker asked for so many pages for this type, each held to this mark, and got these.
    #[inline(always)]
    pub fn add_refill(
        &mut self,
        worker: Worker,
        kind: MigrateType,
        mark: Mark,
        count: u8,
        pages: &[PageNo],
    )
        requires room { self.old.made < LAST_SECTION }
        requires within { length pages.now ≤ LONGEST_LIST }
        ensures { self.new ≡ record { made = self.old.made + 1; last = Some (record { worker = worker; request = request.Refill kind mark count; reply = reply.Pages pages.now }) } }
    {
        self.made += 1;
        self.last.set_refill(worker, kind, mark, count, pages);
    }
}
