//! The callers, run. A small function for each turns its results into numbers, which are compared here.
ghost use Rattle.std.specs.Prelude.{ℕ, None};
ghost use Rattle.zp_zone.specs.Seats.{IsSeatOf};

use arrayvec::ArrayVec;
use std::alloc::Global;
use std::test::*;
use uses_owned::{
    Emptying, HugePool, Memory, PagePool, empty_a_pageblock, give_run, one_page, relay, show,
    take_below, take_huge_page, take_two,
};
use zp_model::{Largest, Level, Order, PageNo};
use zp_text::{WriteFault, Writer};
use zp_zone::{Seat, Zone, ZoneConfig};

/// A zone of one pageblock, with this least mark.
fn dma(min: u32) -> ZoneConfig<'static> {
    ZoneConfig {
        name: "DMA",
        base: 0,
        pages: 1024,
        min,
        largest: Largest::usual(),
    }
}

/// Of the 1,024 pages one is out and four are kept; they come back in turn.
const EMPTIED: Emptying = Emptying {
    isolated: 1019,
    given_back: 1020,
    drained: 1024,
    is_whole: true,
};

#[test]
fn a_pageblock_is_emptied(rt: HostRuntime) {
    assert!(rt; empty_a_pageblock(rt.alloc(), dma(0)) == Some(EMPTIED));
}

#[test]
fn one_page_is_taken_and_given_back(rt: HostRuntime) {
    assert!(rt; one_page(rt.alloc()) == Ok(4096));
}

/// A page of the pool, how many are free then, whether another page is taken back, and whether this one is, once and again; and how many
/// are free at the end.
fn pooled(pool: &mut PagePool) -> Option<(u32, u32, [bool; 3], u32)> {
    let page = pool.take()?;
    let free = pool.free_pages();
    let put = [pool.put(PageNo::new(1)), pool.put(page), pool.put(page)];
    Some((page.number(), free, put, pool.free_pages()))
}

#[test]
fn a_pool_gives_pages_and_takes_its_own_back(rt: HostRuntime) {
    let Ok(mut pool) = PagePool::new(rt.alloc(), dma(511)) else {
        assert!(rt; false, "the pool can be made");
        return;
    };
    assert!(rt; pooled(&mut pool) == Some((0, 1023, [false, true, false], 1024)));
}

/// The blocks that a pool of four gives in turn, and then none.
const TAKEN: [Option<u32>; 5] = [Some(1536), Some(1024), Some(512), Some(0), None];

/// Pages, and whether a block is taken back there.
const PUT: [(u32, bool); 4] = [(0, true), (512, true), (512, false), (1025, false)];

/// Whether all blocks are taken and put so, of which two are free at the end.
fn is_pooled(pool: &mut HugePool) -> bool {
    for page in TAKEN {
        if pool.take().map(PageNo::number) != page {
            return false;
        }
    }
    for (page, taken_back) in PUT {
        if pool.put(PageNo::new(page)) != taken_back {
            return false;
        }
    }
    pool.free_blocks() == 2
}

#[test]
fn a_pool_of_huge_blocks_has_no_larger_ones(rt: HostRuntime) {
    let Ok(mut pool) = HugePool::new(rt.alloc(), 4) else {
        assert!(rt; false, "the pool can be made");
        return;
    };
    assert!(rt; pool.free_blocks() == 4);
    assert!(rt; is_pooled(&mut pool));
}

#[test]
fn a_pool_has_one_block_to_128(rt: HostRuntime) {
    for (blocks, is_made) in [(0, false), (128, true), (129, false)] {
        assert!(rt;
            HugePool::new(rt.alloc(), blocks).is_ok() == is_made,
            "{blocks} blocks"
        );
    }
}

/// A zone of one pageblock, and its one seat.
#[derive(Drop)]
struct Hand {
    zone: Zone,
    seat: Seat,
    ghost fits: { IsSeatOf zone seat },
}

impl Hand {
    fn new(alloc: Global, min: u32) -> Option<Hand> {
        let (zone, mut seats) = Zone::new(alloc, dma(min), 1).ok()?;
        match seats.pop() {
            Some(seat) => Some(Hand { zone, seat }),
            None => None,
        }
    }
}

/// Whether a run is whole, and the next one a page, which is freed; and how many pages are free before that and after.
fn taken_runs(zone: &mut Zone, seat: &mut Seat) -> Option<(bool, bool, u32, u32)>
    requires { IsSeatOf zone.old seat.old }
    ensures { IsSeatOf zone.new seat.new }
{
    let huge = Order::new(9)?;
    let whole = take_huge_page(zone, seat, huge).ok()?;
    let single = take_huge_page(zone, seat, huge).ok()?;
    let orders = (whole.order == huge, single.order == Order::zero());
    let free = zone.counts().free;
    give_run(zone, seat, single);
    let after = zone.counts().free;
    Some((orders.0, orders.1, free, after))
}

#[test]
fn a_huge_page_is_whole_or_single(rt: HostRuntime) {
    let Some(mut hand) = Hand::new(rt.alloc(), 200) else {
        assert!(rt; false, "the zone can be made");
        return;
    };
    let Hand { zone, seat, .. } = &mut hand;
    assert!(rt; taken_runs(zone, seat) == Some((true, true, 511, 512)));
    assert!(rt; take_two(zone, seat).is_ok());
    assert!(rt; zone.counts().free == 512);
}

/// How many pages are free when a block of four pages has gone from worker to worker and back.
fn relayed(alloc: Global) -> Option<u32> {
    relay(alloc, dma(511), Order::new(2)?)
}

#[test]
fn a_block_goes_from_worker_to_worker(rt: HostRuntime) {
    assert!(rt; relayed(rt.alloc()) == Some(1024));
}

/// The page of a block of 16 pages below page 20.
fn low_page(zone: &mut Zone, seat: &mut Seat) -> Option<u32>
    requires { IsSeatOf zone.old seat.old }
    ensures { IsSeatOf zone.new seat.new }
{
    let block = take_below(zone, seat, Order::new(4)?, PageNo::new(20))?;
    Some(block.page.number())
}

/// The pages of the lowest blocks, one after another, and how many pages are free then.
fn low_pages(zone: &mut Zone, seat: &mut Seat) -> ([Option<u32>; 3], u32)
    requires { IsSeatOf zone.old seat.old }
    ensures { IsSeatOf zone.new seat.new }
{
    let first = low_page(zone, seat);
    let second = low_page(zone, seat);
    let third = low_page(zone, seat);
    ([first, second, third], zone.counts().free)
}

#[test]
fn a_block_below_a_limit_is_kept(rt: HostRuntime) {
    let Some(mut hand) = Hand::new(rt.alloc(), 511) else {
        assert!(rt; false, "the zone can be made");
        return;
    };
    let Hand { zone, seat, .. } = &mut hand;
    assert!(rt; low_pages(zone, seat) == ([Some(0), Some(16), None], 1024 - 32));
}

/// Keeps the bytes that it is given.
#[derive(Drop)]
struct Kept {
    bytes: ArrayVec<u8, 160>,
}

impl Writer for Kept {
    ghost contents = { λ w. None };

    ghost failures = { λ w. 0 };

    fn write(&mut self, piece: &[u8]) -> Result<usize, WriteFault> {
        for byte in piece {
            let _ = self.bytes.try_push(*byte);
        }
        Ok(piece.len())
    }
}

const MEMORY: Memory = Memory {
    free_pages: 1024,
    largest_blocks: 1,
    level: Level::High,
};

const LINE: &str =
    "Node 0, zone      DMA      0      0      0      0      0      0      0      0      0      0      1 \n";

/// Whether the zone shows this line, and the figures of `MEMORY`.
fn is_shown(zone: &Zone, line: &str) -> bool {
    let mut writer = Kept {
        bytes: ArrayVec::new(),
    };
    let memory = show(zone, &mut writer);
    memory == Ok(MEMORY) && writer.bytes.as_slice() == line.as_bytes()
}

#[test]
fn a_zone_is_shown(rt: HostRuntime) {
    let Some(hand) = Hand::new(rt.alloc(), 511) else {
        assert!(rt; false, "the zone can be made");
        return;
    };
    assert!(rt; is_shown(&hand.zone, LINE));
}
