//! Refills and drains of a zone beside the definitions. The plain allocator is asked for each page by itself; the same as refills and drains is
//! a journal, which a zone has to replay.

use crate::pair::page_of;
use arrayvec::ArrayVec;
use rand_core::Rng;
use rand_pcg::Pcg32;
use std::alloc::{AllocError, AllocGlobal};
use std::process::Abort;
use std::test::Fail;
use zp_journal::{Journal, JournalCheck, replay_journal};
use zp_model::{
    Entry, LARGEST_ORDER, LONGEST_LIST, Largest, MAX_BATCH, Mark, MigrateType, Order, PageAt,
    PageList, PageNo, PageblockType, Refused, Reply, Request, State, Worker,
};
use zp_plain::{PLAIN_PAGES, PlainBuddy};
use zp_zone::{Zone, ZoneConfig};

/// The zone's first page.
pub const BASE: u32 = 2_048;

/// How many requests a zone gets.
const REQUESTS: u32 = 300;

/// How many refills take all that is left of the largest zone.
pub const REFILLS: u32 = 170;

/// How many pages a drain has at most: a power of two, so that the bits of a place can be turned.
const PICKED: usize = 32;

/// The page of the zone at this place.
pub fn absolute(at: PageAt) -> PageNo {
    PageNo::new(BASE + at.number())
}

/// A zone by its definitions, asked page by page, and the journal of its refills and drains.
#[derive(Drop)]
pub struct Asked {
    pub plain: PlainBuddy,
    min: u32,
    /// The pages that are out, in the order in which they went out.
    out: Vec<PageAt>,
    journal: Journal,
}

impl Asked {
    /// A new zone of so many pages, and a journal for so many requests and the last refills.
    pub fn new(
        rt: &(impl Abort + AllocGlobal),
        largest: Largest,
        pages: u32,
        min: u32,
        requests: u32,
    ) -> Result<Asked, Fail> {
        assert!(rt; pages <= PLAIN_PAGES && requests <= 1_000);
        Ok(Asked {
            plain: PlainBuddy::new(rt.alloc(), pages, largest, 0)?,
            min,
            out: Vec::new(rt.alloc()),
            journal: Journal::new(rt.alloc(), requests + REFILLS)?,
        })
    }

    pub fn log(&mut self, rt: &impl Abort, request: &Request, reply: &Reply) {
        let entry = Entry::new(Worker::first(), request, reply).expect(rt, "two lists");
        assert!(rt; !self.journal.is_full());
        self.journal.append(&entry);
    }

    /// Whether so many pages may go out at a mark.
    pub fn is_above(&self, mark: Mark, pages: u32) -> bool {
        let free = u64::from(self.plain.available_pages());
        let min = u64::from(self.min);
        let pages = u64::from(pages);
        match mark {
            Mark::Low => free >= min + min / 4 + pages,
            Mark::Min => free >= min + pages,
            Mark::Any => true,
        }
    }

    /// One page, which is out then.
    fn take_page(&mut self, kind: MigrateType, mark: Mark) -> Result<PageAt, Refused> {
        if !self.is_above(mark, 1) {
            return Err(Refused::BelowMark);
        }
        let Some(at) = self.plain.take(Order::zero(), kind) else {
            return Err(Refused::NoBlock);
        };
        self.plain
            .hold(at, State::Out(Order::zero(), kind, Worker::first()));
        Ok(at)
    }

    /// A refill: so many requests for one page, up to the first that is refused.
    fn refill(
        &mut self,
        rt: &impl Abort,
        kind: MigrateType,
        mark: Mark,
        count: u8,
    ) -> Result<(), AllocError> {
        let mut got: ArrayVec<PageNo, LONGEST_LIST> = ArrayVec::new();
        let mut why = None;
        'pages: for _ in 0..count {
            match self.take_page(kind, mark) {
                Ok(at) => {
                    let _ = got.try_push(absolute(at));
                    self.out.push(at)?;
                }
                Err(refused) => {
                    why = Some(refused);
                    break;
                }
            }
        }
        let reply = match why {
            Some(refused) if got.is_empty() => Reply::Refused(refused),
            _ => Reply::Pages(PageList::of(got.as_slice())),
        };
        self.log(rt, &Request::Refill(kind, mark, count), &reply);
        Ok(())
    }

    /// All that is left goes out, which is in the order of the lists.
    pub fn refill_all(&mut self, rt: &impl Abort) -> Result<(), AllocError> {
        for _ in 0..REFILLS {
            self.refill(rt, MigrateType::Movable, Mark::Any, MAX_BATCH as u8)?;
        }
        Ok(())
    }

    /// The last one of the pages that are out, or one by a random word, goes to be freed.
    fn pick(&mut self, mixed: Option<u32>) -> Option<PageAt> {
        let Some(word) = mixed else {
            return self.out.pop();
        };
        if self.out.is_empty() {
            return None;
        }
        let place = word as usize % self.out.len();
        Some(self.out.swap_remove(place))
    }

    /// So many of the pages that are out: the last ones, which fall, or any.
    fn pick_all(&mut self, random: &mut Pcg32, count: usize) -> ArrayVec<PageNo, PICKED> {
        let mut picked = ArrayVec::new();
        let is_mixed = random.next_u32() % 3 == 0;
        'pages: for _ in 0..count {
            let mixed = if is_mixed {
                Some(random.next_u32())
            } else {
                None
            };
            let Some(at) = self.pick(mixed) else {
                break;
            };
            let _ = picked.try_push(absolute(at));
        }
        picked
    }

    /// A drain of these pages: each is freed by itself. The places come with the bits of a number turned.
    fn drain(&mut self, rt: &impl Abort, picked: &[PageNo], turn: usize) {
        let mut pages: ArrayVec<PageNo, LONGEST_LIST> = ArrayVec::new();
        for place in 0..PICKED {
            if let Some(page) = picked.get(place ^ turn) {
                self.free_page(rt, *page);
                let _ = pages.try_push(*page);
            }
        }
        let request = Request::Drain(MigrateType::Movable, PageList::of(pages.as_slice()));
        self.log(rt, &request, &Reply::Drained);
    }

    fn free_page(&mut self, rt: &impl Abort, page: PageNo) {
        let at = page_of(rt, page.number().wrapping_sub(BASE));
        assert!(rt; self.plain.is_clear(at, Order::zero()));
        self.plain.give(at, Order::zero());
    }

    /// A pageblock is isolated, or where it is released it gets this type.
    pub fn retype(&mut self, rt: &impl Abort, pageblock: usize, kind: MigrateType) {
        assert!(rt; pageblock < self.plain.pageblocks());
        let number = u32::try_from(pageblock).expect(rt, "no pageblock");
        if self.plain.pageblock_type(pageblock) == PageblockType::Isolate {
            self.plain.retype(pageblock, kind.pageblock_type());
            self.log(rt, &Request::Release(number, kind), &Reply::Released);
        } else {
            self.plain.retype(pageblock, PageblockType::Isolate);
            self.log(rt, &Request::Isolate(number), &Reply::Isolated);
        }
    }
}

/// A type, by a random word.
pub fn kind_of(word: u32) -> MigrateType {
    match word % 4 {
        0 => MigrateType::Unmovable,
        1 => MigrateType::Reclaimable,
        _ => MigrateType::Movable,
    }
}

/// A mark, by a random word.
pub fn mark_of(word: u32) -> Mark {
    match word % 3 {
        0 => Mark::Low,
        1 => Mark::Min,
        _ => Mark::Any,
    }
}

/// A refill, a drain, or now and then another type for a pageblock.
fn ask_at_random(rt: &impl Abort, asked: &mut Asked, random: &mut Pcg32) -> Result<(), AllocError> {
    let word = random.next_u32();
    let count = 1 + word % MAX_BATCH as u32;
    if random.next_u32() % 16 == 0 {
        let pageblock = word as usize % asked.plain.pageblocks().max(1);
        asked.retype(rt, pageblock, kind_of(random.next_u32()));
    } else if random.next_u32() % 2 == 0 {
        let kind = kind_of(random.next_u32());
        asked.refill(rt, kind, mark_of(random.next_u32()), count as u8)?;
    } else {
        let picked = asked.pick_all(random, count as usize);
        let turn = random.next_u32() as usize % PICKED;
        asked.drain(rt, picked.as_slice(), turn);
    }
    Ok(())
}

/// A new zone of so many pages by its definitions, which has been asked at random.
fn asked_at_random(
    rt: &(impl Abort + AllocGlobal),
    largest: Largest,
    pages: u32,
    min: u32,
) -> Result<Asked, Fail> {
    let mut asked = Asked::new(rt, largest, pages, min, REQUESTS)?;
    let mut random = Pcg32::new(u64::from(pages), u64::from(min));
    for _ in 0..REQUESTS {
        ask_at_random(rt, &mut asked, &mut random)?;
    }
    asked.refill_all(rt)?;
    Ok(asked)
}

/// A new zone replays a journal, and is as the definitions leave it.
pub fn compare_replayed(
    rt: &(impl Abort + AllocGlobal),
    largest: Largest,
    pages: u32,
    asked: &Asked,
) -> Result<(), Fail> {
    let zone = replayed(rt, largest, pages, asked)?;
    compare(rt, &zone, &asked.plain);
    Ok(())
}

/// A new zone that replays a journal.
fn replayed(
    rt: &(impl Abort + AllocGlobal),
    largest: Largest,
    pages: u32,
    asked: &Asked,
) -> Result<Zone, Fail> {
    let config = ZoneConfig {
        name: "DMA",
        base: BASE,
        pages,
        min: asked.min,
        largest,
    };
    match replay_journal(rt.alloc(), config, 1, &asked.journal)? {
        JournalCheck::Legal(zone) => Ok(zone),
        JournalCheck::Differs(number) => {
            assert!(rt; false, "entry {number} differs");
            Err(Refused::Memory)?
        }
    }
}

/// Whether the zone notes the same of a page.
fn is_same_page(zone: &Zone, plain: &PlainBuddy, number: u32) -> bool {
    let Some(at) = PageAt::new(number) else {
        return false;
    };
    match zone.entry(absolute(at)) {
        Some(entry) => number < plain.pages() && entry.state == plain.holding(at),
        None => false,
    }
}

/// Compares the counts, and what is noted of each page.
fn compare(rt: &impl Abort, zone: &Zone, plain: &PlainBuddy) {
    assert!(rt; zone.counts() == plain.counts());
    for number in 0..zone.pages() {
        assert!(rt; is_same_page(zone, plain, number), "page {number}");
    }
}

/// The last pageblock is short; the least mark is above what a refill asks for in small zones, and inside a block in large ones.
#[test]
fn batches_are_as_pages_one_by_one(rt: HostRuntime) -> Result<(), Fail> {
    for number in 1..=LARGEST_ORDER {
        let largest = Largest::new(number).expect(&rt, "no largest order");
        let pages = (5 << number) - 1;
        let asked = asked_at_random(&rt, largest, pages, pages / 5)?;
        compare_replayed(&rt, largest, pages, &asked)?;
    }
    Ok(())
}
