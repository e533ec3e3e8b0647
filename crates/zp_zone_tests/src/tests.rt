//! Zones that are made and refused, their bounds, their marks, and the info line.
ghost use Rattle.zp_zone.specs.Seats.{IsSeatOf};

mod batches;
mod choosing;
mod histories;
mod isolating;
mod pageblocks;
mod pieces;
mod requests;
mod runs;

use std::alloc::Global;
use std::process::Abort;
use std::test::*;
use zp_info::{INFO_LINE, TextBuffer, push_counts};
use zp_model::{Counts, Largest, Level, Mark, MigrateType, Order, PageblockType, Refused};
use zp_zone::{Seat, Zone, ZoneConfig};

/// What a zone is made with, but its largest order.
#[derive(Clone, Copy, Drop)]
struct Making<'a> {
    name: &'a str,
    base: u32,
    pages: u32,
    min: u32,
}

/// Name, base, pages, least mark and workers of a zone to create, and the number of the refusal, or 0 where the zone is created: of a
/// narrow zone, and of a wide one.
type Made = (&'static str, u32, u32, u32, u32, u8, u8);

const MAKINGS: [Made; 16] = [
    ("a", 0, 1, 1, 1, 0, 0),
    ("Movable8", 16_777_216, 65_536, 65_536, 32, 0, 0),
    ("", 0, 4096, 0, 1, 1, 1),
    ("Movables9", 0, 4096, 0, 1, 1, 1),
    ("DMA 32", 7, 0, 1, 0, 1, 1),
    ("DMA32", 512, 4096, 0, 1, 2, 2),
    ("DMA32", 16_778_240, 0, 1, 0, 2, 3),
    ("DMA32", 0, 0, 1, 0, 3, 3),
    ("DMA32", 0, 65_537, 0, 1, 3, 0),
    ("DMA32", 0, 4096, 4097, 33, 4, 4),
    ("DMA32", 0, 4096, 0, 0, 5, 5),
    ("DMA32", 0, 4096, 0, 33, 5, 5),
    ("Normal", 1_073_741_824, 65_537, 65_537, 32, 2, 0),
    ("Normal", 1_073_742_848, 0, 1, 0, 2, 2),
    ("Normal", 4_294_966_272, 4096, 0, 1, 2, 2),
    ("Normal", 0, 16_777_217, 0, 1, 3, 3),
];

/// What such a zone is created from.
fn config_of(made: &Made) -> (ZoneConfig<'static>, u32) {
    let (name, base, pages, min, workers, ..) = *made;
    let config = ZoneConfig {
        name,
        base,
        pages,
        min,
        largest: Largest::usual(),
    };
    (config, workers)
}

/// The number of a refusal, or 0.
fn number_of(made: Result<(Zone, Vec<Seat>), Refused>) -> u8 {
    match made {
        Ok(_) => 0,
        Err(refused) => refused.number(),
    }
}

#[test]
fn zones_are_made_or_refused_with_the_least_number(rt: HostRuntime) {
    for (place, made) in MAKINGS.iter().enumerate() {
        let (config, workers) = config_of(made);
        let narrow = number_of(Zone::new(rt.alloc(), config, workers));
        assert!(rt; narrow == made.5, "making {place}");
    }
}

#[test]
fn wide_zones_are_made_or_refused_with_the_least_number(rt: HostRuntime) {
    for (place, made) in MAKINGS.iter().enumerate() {
        let (config, workers) = config_of(made);
        let wide = number_of(Zone::wide(rt.alloc(), config, workers));
        assert!(rt; wide == made.6, "making {place}");
    }
}

/// The bounds, as numbers: what the clauses cite are these constants, so no clause would notice another number.
const BOUNDS: [(u32, u32); 16] = [
    (zp_model::LARGEST_ORDER as u32, 10),
    (zp_model::ORDERS as u32, 11),
    (zp_model::TYPES as u32, 3),
    (zp_model::MAX_PAGES, 16_777_216),
    (zp_model::NARROW_PAGES, 65_536),
    (zp_model::MAX_WORKERS, 32),
    (zp_model::BASE_LIMIT, 1_073_741_824),
    (zp_model::NARROW_BASE_LIMIT, 16_777_216),
    (zp_model::MAX_ZONES as u32, 64),
    (zp_model::TRACE_ZONES as u32, 4),
    (zp_model::BASE_STEP, 1_024),
    (zp_model::NAME_PLACES as u32, 8),
    (zp_model::NUMBER_PLACES as u32, 6),
    (zp_model::LONGEST_NAME as u32, 8),
    (zp_model::MAX_BATCH as u32, 31),
    (zp_model::LONGEST_LIST as u32, 64),
];

#[test]
fn the_bounds_are_those_of_the_rules(rt: HostRuntime) {
    for (place, (bound, number)) in BOUNDS.iter().enumerate() {
        assert!(rt; bound == number, "bound {place}");
    }
    let usual = Largest::usual();
    assert!(rt; usual.number() == 10 && usual.pageblock_pages() == 1_024);
    assert!(rt; usual.least_movable_claim() == 5 && usual.claim_pages() == 512);
}

/// Takes single pages at a mark until one is refused: how many pages are free then.
fn free_at_refusal(zone: &mut Zone, seat: &mut Seat, mark: Mark) -> u32
    requires { IsSeatOf zone.old seat.old }
    ensures { IsSeatOf zone.new seat.new }
{
    'pages: for _ in 0..64 {
        let page = zone.alloc(seat, Order::zero(), MigrateType::Movable, mark);
        if page.is_err() {
            break;
        }
    }
    zone.counts().free
}

/// Takes single pages while the zone is at its highest level: how many pages are free then.
fn free_below_high(zone: &mut Zone, seat: &mut Seat) -> u32
    requires { IsSeatOf zone.old seat.old }
    ensures { IsSeatOf zone.new seat.new }
{
    'pages: for _ in 0..64 {
        if zone.level() != Level::High {
            break;
        }
        let _ = zone.alloc(seat, Order::zero(), MigrateType::Movable, Mark::Any);
    }
    zone.counts().free
}

/// The least mark, and the low and the high one, a quarter and a half of it above it, both rounded down.
const MARKS: [(u32, u32, u32); 9] = [
    (1, 1, 1),
    (2, 2, 3),
    (3, 3, 4),
    (4, 5, 6),
    (5, 6, 7),
    (6, 7, 9),
    (7, 8, 10),
    (8, 10, 12),
    (9, 11, 13),
];

/// How many pages are free when a zone of this least mark is no more at its high level, and when a page is refused at each mark.
fn marks(zone: &mut Zone, seat: &mut Seat) -> [u32; 4]
    requires { IsSeatOf zone.old seat.old }
{
    let high = free_below_high(zone, seat);
    let low = free_at_refusal(zone, seat, Mark::Low);
    let min = free_at_refusal(zone, seat, Mark::Min);
    let any = free_at_refusal(zone, seat, Mark::Any);
    [high, low, min, any]
}

/// The same of a new zone of 64 pages.
fn marks_of(alloc: Global, min: u32) -> Result<[u32; 4], Refused> {
    let config = ZoneConfig {
        name: "DMA",
        base: 0,
        pages: 64,
        min,
        largest: Largest::usual(),
    };
    let (mut zone, mut seats) = Zone::new(alloc, config, 1)?;
    Ok(marks(&mut zone, &mut seats[0]))
}

#[test]
fn marks_are_rounded_down(rt: HostRuntime) {
    for (min, low, high) in MARKS {
        let found = marks_of(rt.alloc(), min);
        assert!(rt; found == Ok([high, low, min, 0]), "least mark {min}");
    }
}

const COUNTS: Counts = Counts {
    by_order: [
        0,
        1,
        12,
        65_535,
        999_999,
        1_000_000,
        4_294_967_295,
        7,
        0,
        0,
        64,
    ],
    free: 0,
};

/// The info line of these counts, for a largest order.
const LINES: [(u8, &str); 3] = [
    (1, "Node 0, zone      DMA      0      1 \n"),
    (3, "Node 0, zone      DMA      0      1     12  65535 \n"),
    (
        10,
        "Node 0, zone      DMA      0      1     12  65535 999999 1000000 4294967295      7      0      0     64 \n",
    ),
];

/// Whether the counts have this info line.
fn has_line(largest: Largest, line: &str) -> bool {
    let mut text: TextBuffer<INFO_LINE> = TextBuffer::new();
    push_counts(&mut text, "DMA", largest, &COUNTS);
    text.as_bytes() == line.as_bytes()
}

#[test]
fn a_line_has_its_numbers_right_aligned_or_whole(rt: HostRuntime) {
    for (number, line) in LINES {
        let is_right = match Largest::new(number) {
            Some(largest) => has_line(largest, line),
            None => false,
        };
        assert!(rt; is_right, "largest order {number}");
    }
}
