//! Requests in zones that make them dear, each by `docs/rules.md`.

use crate::grounds::{Ground, PAGEBLOCK_PAGES, PAGEBLOCKS, PAGES};
use std::alloc::Global;
use zp_loads::{DrawnLoad, LentBlock, LoadSource, PastLists, SeatSource, Unmade};
use zp_model::{MigrateType, Order, PageNo};

/// A request that is dear.
pub trait Shape: Drop {
    /// Makes the request.
    fn ask(&mut self);

    /// Brings the zone back to where the request is dear.
    fn restore(&mut self) -> Result<(), Unmade>;

    /// The checksum of all pages returned, those of the preparation too.
    fn checksum(&self) -> u64;
}

/// No request: the time of the clock alone.
#[derive(Clone, Copy, Drop)]
pub struct Nothing;

impl Shape for Nothing {
    fn ask(&mut self) {}

    fn restore(&mut self) -> Result<(), Unmade> {
        Ok(())
    }

    fn checksum(&self) -> u64 {
        0
    }
}

/// A block that is allocated on a ground, for the one type and the other in turn, and freed each time.
#[derive(Clone, Copy, Drop)]
pub struct Wish {
    pub ground: Ground,
    pub order: Order,
    pub kinds: [MigrateType; 2],
}

impl Wish {
    /// A page, on this ground.
    fn page(ground: Ground, kinds: [MigrateType; 2]) -> Wish {
        Wish {
            ground,
            order: Order::zero(),
            kinds,
        }
    }
}

/// How many requests there are that take a block.
pub const WISHES: usize = 6;

/// The blocks that are dear to split, to find or to claim.
pub fn wishes() -> [(&'static str, Wish); WISHES] {
    let (unmovable, reclaimable, movable) = (
        MigrateType::Unmovable,
        MigrateType::Reclaimable,
        MigrateType::Movable,
    );
    // half of each pageblock is free, in blocks that are too small
    let too_small = Wish {
        ground: Ground::Halves(movable),
        order: Order::zero().higher(),
        kinds: [unmovable; 2],
    };
    // and in blocks by which a Movable request may not claim
    let borrow = Wish::page(Ground::Halves(unmovable), [movable; 2]);
    // the free pages are of another type each time
    let in_turn = Wish::page(Ground::OnePageblock, [unmovable, movable]);
    let retype = Wish::page(Ground::HalfPageblock, [unmovable, reclaimable]);
    [
        ("ten splits", Wish::page(Ground::Whole, [movable; 2])),
        ("claim that fails beside 64 pageblocks", too_small),
        ("borrow after such a claim", borrow),
        ("claims in turn", in_turn),
        ("retype of 512 single pages", retype),
        ("claim at the end of a long list", list_end()),
    ]
}

/// A claim of the last block of a list none of whose other blocks may be claimed.
pub fn list_end() -> Wish {
    Wish::page(Ground::LongList, [MigrateType::Unmovable; 2])
}

/// A wish, asked of a zone.
#[derive(Drop)]
pub struct Taking {
    bench: DrawnLoad<SeatSource<10>>,
    wish: Wish,
    lent: Option<LentBlock>,
}

impl Taking {
    /// In a zone of so many pages.
    pub fn new(alloc: Global, pages: u32, wish: Wish) -> Result<Taking, Unmade> {
        let mut bench = DrawnLoad::new(alloc, pages)?;
        wish.ground.prepare(&mut bench)?;
        Ok(Taking {
            bench,
            wish,
            lent: None,
        })
    }
}

impl Shape for Taking {
    fn ask(&mut self) {
        self.lent = self.bench.take(self.wish.order, self.wish.kinds[0]);
    }

    fn restore(&mut self) -> Result<(), Unmade> {
        if let Some(lent) = self.lent {
            self.bench.give(lent);
        }
        self.lent = None;
        let [asked, next] = self.wish.kinds;
        self.wish.kinds = [next, asked];
        if self.wish.ground.is_laid_anew() {
            self.wish.ground.prepare(&mut self.bench)?;
        }
        Ok(())
    }

    fn checksum(&self) -> u64 {
        self.bench.checksum()
    }
}

/// A page that joins ten times when it is freed.
#[derive(Drop)]
pub struct Giving {
    bench: DrawnLoad<SeatSource<10>>,
    lent: Option<LentBlock>,
}

impl Giving {
    pub fn new(alloc: Global) -> Result<Giving, Unmade> {
        let mut bench = DrawnLoad::new(alloc, PAGES)?;
        let lent = bench.take(Order::zero(), MigrateType::Movable);
        Ok(Giving { bench, lent })
    }
}

impl Shape for Giving {
    fn ask(&mut self) {
        if let Some(lent) = self.lent {
            self.bench.give(lent);
        }
    }

    fn restore(&mut self) -> Result<(), Unmade> {
        self.lent = self.bench.take(Order::zero(), MigrateType::Movable);
        Ok(())
    }

    fn checksum(&self) -> u64 {
        self.bench.checksum()
    }
}

/// A run of so many pages that is not there, on a ground of which much is looked at for it.
#[derive(Clone, Copy, Drop)]
pub struct RunWish {
    ground: Ground,
    pages: u32,
}

impl RunWish {
    /// Two pages, where each pageblock has one: each lent page is passed by itself.
    fn two_pages() -> RunWish {
        RunWish {
            ground: Ground::LastPages,
            pages: 2,
        }
    }

    /// One page less than two pageblocks have, where no two pageblocks side by side are free: each lent page between them is passed by
    /// itself, as a run might begin behind it.
    fn near_two_pageblocks() -> RunWish {
        RunWish {
            ground: Ground::SecondPageblocks,
            pages: 2 * PAGEBLOCK_PAGES - 1,
        }
    }

    /// The run of this name.
    pub fn named(name: &str) -> Option<RunWish> {
        match name {
            "search-2" => Some(RunWish::two_pages()),
            "search-2047" => Some(RunWish::near_two_pageblocks()),
            _ => None,
        }
    }
}

/// How many such runs there are.
pub const RUN_WISHES: usize = 2;

/// The runs that are dear to look for.
pub fn run_wishes() -> [(&'static str, RunWish); RUN_WISHES] {
    [
        ("run of 2 where single pages are", RunWish::two_pages()),
        (
            "run of 2047 where 1024 are the most",
            RunWish::near_two_pageblocks(),
        ),
    ]
}

/// A run, asked of a zone.
#[derive(Drop)]
pub struct RunTaking {
    bench: DrawnLoad<SeatSource<10>>,
    pages: u32,
}

impl RunTaking {
    /// In a zone of so many pages.
    pub fn new(alloc: Global, pages: u32, wish: RunWish) -> Result<RunTaking, Unmade> {
        let mut bench = DrawnLoad::new(alloc, pages)?;
        wish.ground.prepare(&mut bench)?;
        Ok(RunTaking {
            bench,
            pages: wish.pages,
        })
    }
}

impl Shape for RunTaking {
    fn ask(&mut self) {
        let is_there = self.bench.source.take_run(self.pages).is_ok();
        self.bench.count(usize::from(is_there));
    }

    fn restore(&mut self) -> Result<(), Unmade> {
        Ok(())
    }

    fn checksum(&self) -> u64 {
        self.bench.checksum()
    }
}

/// The first pageblock, isolated and released.
#[derive(Drop)]
pub struct Isolating {
    bench: DrawnLoad<SeatSource<10>>,
}

impl Isolating {
    pub fn new(alloc: Global, ground: Ground) -> Result<Isolating, Unmade> {
        let mut bench = DrawnLoad::new(alloc, PAGES)?;
        ground.prepare(&mut bench)?;
        Ok(Isolating { bench })
    }
}

impl Shape for Isolating {
    fn ask(&mut self) {
        let is_done = self.bench.source.isolate_and_release();
        self.bench.count(usize::from(is_done));
    }

    fn restore(&mut self) -> Result<(), Unmade> {
        Ok(())
    }

    fn checksum(&self) -> u64 {
        self.bench.checksum()
    }
}

/// A refill each of whose pages is borrowed after a claim that fails beside 64 pageblocks.
#[derive(Drop)]
pub struct Refilling {
    bench: DrawnLoad<PastLists>,
}

impl Refilling {
    pub fn new(alloc: Global) -> Result<Refilling, Unmade> {
        let mut bench = DrawnLoad::new(alloc, PAGES)?;
        Ground::Halves(MigrateType::Unmovable).prepare(&mut bench)?;
        Ok(Refilling { bench })
    }
}

impl Shape for Refilling {
    fn ask(&mut self) {
        let pages = self.bench.source.refill(MigrateType::Movable);
        self.bench.count(pages);
    }

    fn restore(&mut self) -> Result<(), Unmade> {
        self.bench.source.drain(MigrateType::Movable);
        Ok(())
    }

    fn checksum(&self) -> u64 {
        self.bench.checksum()
    }
}

/// A drain each of whose pages joins ten times: one page of each pageblock.
#[derive(Drop)]
pub struct Draining {
    bench: DrawnLoad<PastLists>,
}

impl Draining {
    pub fn new(alloc: Global) -> Result<Draining, Unmade> {
        let mut bench = DrawnLoad::new(alloc, PAGES)?;
        list_first_pages(&mut bench);
        Ok(Draining { bench })
    }
}

impl Shape for Draining {
    fn ask(&mut self) {
        let pages = self.bench.source.drain(MigrateType::Movable);
        self.bench.count(pages);
    }

    fn restore(&mut self) -> Result<(), Unmade> {
        list_first_pages(&mut self.bench);
        Ok(())
    }

    fn checksum(&self) -> u64 {
        self.bench.checksum()
    }
}

/// Puts the first page of each pageblock on the worker's list, where all pages are free.
fn list_first_pages(bench: &mut DrawnLoad<PastLists>) {
    for _ in 0..PAGEBLOCKS {
        // the blocks come back below
        let _ = bench.take(Order::largest(), MigrateType::Movable);
    }
    list_pages_from(&mut bench.source);
}

/// Frees the lent pageblocks, the last one first, and puts the first page of each on the worker's list: the lowest free one.
fn list_pages_from(source: &mut PastLists) {
    for after in 1..=PAGEBLOCKS {
        let head = PageNo::new((PAGEBLOCKS - after) * PAGEBLOCK_PAGES);
        source.give(head, Order::largest());
        if let Some(page) = source.take_low(Order::zero()) {
            source.put(page);
        }
    }
}
