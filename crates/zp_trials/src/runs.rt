//! Runs of pages at any place, of a zone beside the definitions. In the plain allocator the pages of a run leave or come at once, and the lists
//! settle once. Which blocks a run goes out as, and what stays out of a block that reaches over its end, is worked out here, page by page. The
//! same is a journal, which a zone has to replay.
ghost use Rattle.std.specs.Prelude.{◌+◌, ◌≤◌};
ghost use Rattle.zp_model.specs.Frames.{IsNote};
ghost use Rattle.zp_plain.specs.declared.room.TheConstants.{PLAIN_PAGES};

use crate::pair::{order_of, page_of};
use crate::zones::{Asked, BASE, absolute, compare_replayed, kind_of, mark_of};
use rand_core::Rng;
use rand_pcg::Pcg32;
use std::alloc::AllocGlobal;
use std::process::Abort;
use std::test::Fail;
use zp_model::{
    LARGEST_ALIGNMENT, Largest, Mark, MigrateType, NARROW_PAGES, Order, PageAt, PageNo, Refused,
    Reply, Request, State, Worker,
};
use zp_plain::PLAIN_PAGES;

/// How many requests a zone gets.
const REQUESTS: u32 = 300;

/// The same of the largest zone, each of whose requests looks at all its pages.
const FEW_REQUESTS: u32 = 60;

/// How many alignments a run may be asked for with.
const ALIGNMENTS: u32 = LARGEST_ALIGNMENT as u32 + 1;

/// A block that is out: its first page, the page after its last one, and the type noted of it.
type Block = (u32, u32, MigrateType);

impl Asked {
    /// Notes this of a page that is not free.
    fn note(&mut self, rt: &impl Abort, page: u32, state: State)
        requires { IsNote state }
    {
        let at = page_of(rt, page);
        assert!(rt; self.plain.is_clear(at, Order::zero()));
        // a clause of this call says that each page has a note
        let _pages = self.plain.pages();
        self.plain.hold(at, state);
    }

    /// The type for which a block at this page goes out with a run.
    fn noted_at(&self, rt: &impl Abort, page: u32) -> MigrateType {
        let at = page_of(rt, page);
        assert!(rt; at.number() < self.plain.pages());
        self.plain.type_of(at).noted()
    }

    /// The order of the largest block that begins at this page and has no more than so many pages.
    fn fitting_order(&self, rt: &impl Abort, first: u32, pages: u32) -> Order {
        let mut fitting = Order::zero();
        for number in 0..=self.plain.largest().number() {
            let order = order_of(rt, number);
            if first % order.pages() == 0 && order.pages() <= pages {
                fitting = order;
            }
        }
        fitting
    }

    /// The pages up to this end go out as the blocks of their cut, with this type, or each with its pageblock's.
    fn hand_out(&mut self, rt: &impl Abort, first: u32, end: u32, kind: Option<MigrateType>) {
        assert!(rt; end <= PLAIN_PAGES);
        let mut next = first;
        'blocks: for _ in 0..PLAIN_PAGES {
            if next >= end {
                return;
            }
            let order = self.fitting_order(rt, next, end - next);
            let noted = kind.unwrap_or(self.noted_at(rt, next));
            self.note(rt, next, State::Out(order, noted, Worker::first()));
            next += order.pages();
        }
    }

    /// So many pages from this one on, which are free, go out.
    fn take_run(&mut self, rt: &impl Abort, first: u32, pages: u32) {
        assert!(rt; first <= PLAIN_PAGES && pages <= PLAIN_PAGES);
        self.plain.leave_run(page_of(rt, first), pages);
        self.hand_out(rt, first, first + pages, None);
    }

    /// The block that is out and has this page.
    fn block_around(&self, rt: &impl Abort, page: u32) -> Option<Block> {
        for number in 0..=self.plain.largest().number() {
            let order = order_of(rt, number);
            let head = page_of(rt, page / order.pages() * order.pages());
            assert!(rt; head.number() < self.plain.pages());
            if let State::Out(noted, kind, _) = self.plain.holding(head) {
                if noted == order {
                    return Some((head.number(), head.number() + order.pages(), kind));
                }
            }
        }
        None
    }

    /// Whether a page of the zone is free.
    fn is_free(&self, page: u32) -> bool {
        match PageAt::new(page) {
            Some(at) => page < self.plain.pages() && !self.plain.is_clear(at, Order::zero()),
            None => false,
        }
    }

    /// Whether a page of the zone is free, outside isolated pageblocks.
    fn is_available(&self, page: u32) -> bool {
        match PageAt::new(page) {
            Some(at) => self.is_free(page) && !self.is_isolated(at),
            None => false,
        }
    }

    fn is_isolated(&self, at: PageAt) -> bool {
        at.number() < self.plain.pages() && self.plain.type_of(at).is_isolate()
    }

    /// The first page of the lowest run of so many available pages that is so aligned. It goes down from the zone's end.
    fn lowest_run(&self, pages: u32, align: u8) -> Option<u32> {
        let pages_of_zone = self.plain.pages();
        let mut lowest = None;
        let mut available = 0_u32;
        for back in 1..=pages_of_zone {
            let page = pages_of_zone - back;
            available = if self.is_available(page) {
                available.saturating_add(1)
            } else {
                0
            };
            let alignment = BASE.wrapping_add(page).trailing_zeros();
            if available >= pages && alignment >= u32::from(align) {
                lowest = Some(page);
            }
        }
        lowest
    }

    /// Asks for the lowest run.
    fn run(&mut self, rt: &impl Abort, pages: u32, align: u8, mark: Mark) {
        let reply = if !self.is_above(mark, pages) {
            Reply::Refused(Refused::BelowMark)
        } else if let Some(first) = self.lowest_run(pages, align) {
            self.take_run(rt, first, pages);
            Reply::Page(absolute(page_of(rt, first)))
        } else {
            Reply::Refused(Refused::NoBlock)
        };
        self.log(rt, &Request::AllocRun(pages, align, mark), &reply);
    }

    /// Asks for the run at a page.
    fn run_at(&mut self, rt: &impl Abort, first: u32, pages: u32) {
        assert!(rt; first <= PLAIN_PAGES && pages <= PLAIN_PAGES);
        let page = PageNo::new(BASE + first);
        let reply = if pages == 0 || first + pages > self.plain.pages() {
            Reply::Refused(Refused::BadRun)
        } else if self.first_used(first, first + pages).is_none() {
            self.take_run(rt, first, pages);
            Reply::Page(page)
        } else {
            Reply::Refused(Refused::NotFree)
        };
        self.log(rt, &Request::AllocRunAt(page, pages), &reply);
    }

    /// So many pages from this one on come back, none of which is free.
    fn give_clear_run(&mut self, rt: &impl Abort, at: PageAt, pages: u32)
        requires { at + pages ≤ PLAIN_PAGES }
    {
        let is_clear = self.plain.is_clear_run(at, pages);
        assert!(rt; is_clear);
        if is_clear {
            self.plain.give_run(at, pages);
        }
    }

    /// The pages up to this end, all of them out, come back.
    fn free_run(&mut self, rt: &impl Abort, first: u32, end: u32) {
        assert!(rt; first < end && end <= PLAIN_PAGES);
        let (head, _, kind) = self.block_around(rt, first).expect(rt, "no block");
        let (_, after, kind_after) = self.block_around(rt, end - 1).expect(rt, "no block");
        self.note(rt, head, State::Tail);
        for page in first..end {
            self.note(rt, page, State::Tail);
        }
        let at = page_of(rt, first);
        assert!(rt; at.number() == first);
        self.give_clear_run(rt, at, end - first);
        self.hand_out(rt, head, first, Some(kind));
        self.hand_out(rt, end, after, Some(kind_after));
        let request = Request::FreeRun(absolute(at), end - first);
        self.log(rt, &request, &Reply::Freed);
    }

    /// The first page before this end that is not free.
    fn first_used(&self, from: u32, end: u32) -> Option<u32> {
        for page in from..end {
            if !self.is_free(page) {
                return Some(page);
            }
        }
        None
    }

    /// The first page before this end that is free, or the end.
    fn first_free(&self, from: u32, end: u32) -> u32 {
        for page in from..end {
            if self.is_free(page) {
                return page;
            }
        }
        end
    }

    /// The first pages from this one on that are out come back, so many at most.
    fn free_some(&mut self, rt: &impl Abort, from: u32, most: u32) {
        let pages = self.plain.pages();
        if let Some(first) = self.first_used(from, pages) {
            let last = pages.min(first.saturating_add(most));
            self.free_run(rt, first, self.first_free(first, last));
        }
    }
}

/// A number of pages, by a random word: few, or up to a third of the zone.
fn count_of(word: u32, pages: u32) -> u32 {
    if word % 2 == 0 {
        1 + word / 2 % 8
    } else {
        1 + word / 2 % (pages / 3 + 1)
    }
}

/// An alignment, by a random word: mostly a low one.
fn align_of(word: u32) -> u8 {
    if word % 8 == 0 {
        (word / 8 % ALIGNMENTS) as u8
    } else {
        (word / 8 % 5) as u8
    }
}

/// A run is asked for or comes back, or now and then a pageblock gets another type.
fn ask_at_random(rt: &impl Abort, asked: &mut Asked, random: &mut Pcg32) {
    let pages = asked.plain.pages();
    let place = random.next_u32() % pages.max(1);
    let count = count_of(random.next_u32(), pages);
    let word = random.next_u32();
    match word % 16 {
        0 => {
            let pageblock = place as usize % asked.plain.pageblocks().max(1);
            asked.retype(rt, pageblock, kind_of(word / 16));
        }
        1 | 2 | 3 => {
            let align = align_of(random.next_u32());
            asked.run(rt, count, align, mark_of(word / 16));
        }
        4 | 5 | 6 | 7 | 8 => asked.run_at(rt, place, count.saturating_sub(1)),
        _ => asked.free_some(rt, place, count),
    }
}

/// A new zone of so many pages by its definitions that was asked so often at random.
fn asked_at_random(
    rt: &(impl Abort + AllocGlobal),
    largest: Largest,
    pages: u32,
    requests: u32,
) -> Result<Asked, Fail> {
    let mut asked = Asked::new(rt, largest, pages, pages / 5, requests)?;
    let mut random = Pcg32::new(u64::from(pages), 0);
    for _ in 0..requests {
        ask_at_random(rt, &mut asked, &mut random);
    }
    Ok(asked)
}

/// Such a zone is then asked for all that is left; a zone replays it.
fn compare_runs(rt: &(impl Abort + AllocGlobal), largest: u8, pages: u32) -> Result<(), Fail> {
    let largest = Largest::new(largest).expect(rt, "no largest order");
    let mut asked = asked_at_random(rt, largest, pages, REQUESTS)?;
    asked.refill_all(rt)?;
    compare_replayed(rt, largest, pages, &asked)
}

/// A largest order, and how many pages a zone has. All but two of the zones end in a short pageblock.
type Case = (u8, u32);

fn compare_cases(rt: &(impl Abort + AllocGlobal), cases: &[Case]) -> Result<(), Fail> {
    for &(largest, pages) in cases {
        compare_runs(rt, largest, pages)?;
    }
    Ok(())
}

const SMALL: [Case; 7] = [
    (1, 1),
    (10, 1),
    (1, 31),
    (2, 41),
    (10, 13),
    (3, 52),
    (5, 150),
];

#[test]
fn runs_of_small_zones_agree(rt: HostRuntime) -> Result<(), Fail> {
    compare_cases(&rt, &SMALL)
}

const LARGE: [Case; 5] = [
    (10, 1_023),
    (10, 1_024),
    (9, 1_100),
    (10, 2_500),
    (10, 5_119),
];

#[test]
fn runs_over_pageblocks_agree(rt: HostRuntime) -> Result<(), Fail> {
    compare_cases(&rt, &LARGE)
}

#[test]
fn runs_of_the_largest_narrow_zone_agree(rt: HostRuntime) -> Result<(), Fail> {
    let largest = Largest::usual();
    let asked = asked_at_random(&rt, largest, NARROW_PAGES, FEW_REQUESTS)?;
    compare_replayed(&rt, largest, NARROW_PAGES, &asked)
}
