//! A journal that is replayed in pieces: cut at each place, it leads to the zone that the whole leads to, and an illegal entry is found
//! with its number in its piece.
ghost use Rattle.std.specs.Prelude.{◌≤◌, IfOk, length};
ghost use Rattle.zp_journal.specs.Asking.{AreSeatsOf};

use super::histories::*;
use super::*;
use std::alloc::AllocGlobal;
use zp_journal::{replay_further, replay_opening};

const MOVABLE: MigrateType = MigrateType::Movable;

/// What two workers ask of a zone of four pageblocks: blocks are allocated, handed on, collected and freed, and pages got in a batch.
const ASKED: &[Asked<'static>] = &[
    (0, Ask::Alloc(3, MOVABLE, Mark::Any), Said::Page(3072)),
    (0, Ask::Post(3072, 3, 1), Said::Posted),
    (0, Ask::Alloc(0, MOVABLE, Mark::Any), Said::Page(3080)),
    (1, Ask::Collect, Said::Block(3072, 3, MOVABLE)),
    (0, Ask::Post(3080, 0, 1), Said::Posted),
    (1, Ask::Free(3072, 3), Said::Freed),
    (1, Ask::Alloc(10, MOVABLE, Mark::Any), Said::Page(2048)),
    (0, Ask::Alloc(3, MOVABLE, Mark::Any), Said::Page(3072)),
];

/// What the workers have then, asked for once more.
const ASKED_THEN: &[Asked<'static>] = &[
    (1, Ask::Collect, Said::Block(3080, 0, MOVABLE)),
    (1, Ask::Free(2048, 10), Said::Freed),
    (0, Ask::Free(3072, 3), Said::Freed),
    (1, Ask::Free(3080, 0), Said::Freed),
];

/// What the zone reports after `ASKED`: blocks of 1,024, 8 and 1 pages are not free.
const TOLD: History<'static> = History {
    shows: "pieces lead where the whole does",
    config: Making {
        name: "DMA",
        base: 0,
        pages: 4096,
        min: 0,
    },
    asked: ASKED,
    free: 4096 - 1024 - 8 - 1,
    posted: 1,
    pages: &[
        (2048, Noted::Out(10, MOVABLE, 1), None, None),
        (3072, Noted::Out(3, MOVABLE, 0), None, None),
        (3080, Noted::Posted(0, MOVABLE, 1), None, None),
    ],
};

/// The zone before anything was asked of it.
fn opening(rt: &impl AllocGlobal) -> Result<(Zone, Vec<Seat>), Refused>
    ensures { IfOk result (λ z. AreSeatsOf z.0 z.1.items) }
{
    let config = ZoneConfig {
        name: "DMA",
        base: 0,
        pages: 4096,
        min: 0,
        largest: Largest::usual(),
    };
    replay_opening(rt.alloc(), config, 2)
}

/// The zone goes on as it was asked here, and the first entry that is not legal is found to be this one.
fn go_on(
    rt: &(impl Abort + AllocGlobal),
    zone: &mut Zone,
    seats: &mut [Seat],
    asked: &[Asked<'_>],
    first: Option<u32>,
) -> Result<(), Fail>
    requires { AreSeatsOf zone.old seats.old }
    ensures { AreSeatsOf zone.new seats.new }
{
    let journal = journal_of(rt, asked)?;
    let found = replay_further(zone, seats, &journal);
    assert!(rt; found == first);
    Ok(())
}

/// All pages are free, as four blocks.
fn expect_whole(rt: &impl Abort, zone: &Zone) {
    assert_eq!(rt; zone.counts().free, 4096);
    assert_eq!(rt; zone.counts().by_order[10], 4);
    assert_eq!(rt; zone.posted_pages(), 0);
}

/// The zone goes on by two pieces: the first is legal, and in the second this entry is the first that is not.
fn go_on_in_two(
    rt: &(impl Abort + AllocGlobal),
    zone: &mut Zone,
    seats: &mut [Seat],
    before: &[Asked<'_>],
    after: &[Asked<'_>],
    first: Option<u32>,
) -> Result<(), Fail>
    requires { AreSeatsOf zone.old seats.old }
    ensures { AreSeatsOf zone.new seats.new }
{
    go_on(rt, zone, seats, before, None)?;
    go_on(rt, zone, seats, after, first)
}

/// Cut here, the history leads to the zone that the whole leads to; it replies then as that does, when a piece of no entry has come
/// between.
fn go_on_cut(
    rt: &(impl Abort + AllocGlobal),
    zone: &mut Zone,
    seats: &mut [Seat],
    told: &History<'_>,
    then: &[Asked<'_>],
    cut: usize,
) -> Result<(), Fail>
    requires seats { AreSeatsOf zone.old seats.old }
    requires within { cut ≤ length told.now.asked.now }
{
    let (before, after) = told.asked.split_at(cut);
    go_on_in_two(rt, zone, seats, before, after, None)?;
    compare(rt, zone, told);
    go_on_in_two(rt, zone, seats, &[], then, None)?;
    expect_whole(rt, zone);
    Ok(())
}

/// The same of a new zone.
fn expect_cut(
    rt: &(impl Abort + AllocGlobal),
    told: &History<'_>,
    then: &[Asked<'_>],
    cut: usize,
) -> Result<(), Fail>
    requires { cut ≤ length told.now.asked.now }
{
    let (mut zone, mut seats) = opening(rt)?;
    go_on_cut(rt, &mut zone, &mut seats, told, then, cut)
}

/// At each place.
fn expect_cuts(
    rt: &(impl Abort + AllocGlobal),
    told: &History<'_>,
    then: &[Asked<'_>],
) -> Result<(), Fail> {
    for cut in 0..told.asked.len() {
        expect_cut(rt, told, then, cut)?;
    }
    expect_cut(rt, told, then, told.asked.len())
}

#[test]
fn pieces_lead_where_the_whole_does(rt: HostRuntime) -> Result<(), Fail> {
    expect(&rt, &TOLD)?;
    expect_cuts(&rt, &TOLD, ASKED_THEN)
}

/// A journal with no entry leaves a new zone unchanged.
#[test]
fn no_entry_changes_nothing(rt: HostRuntime) -> Result<(), Fail> {
    let (mut zone, mut seats) = opening(&rt)?;
    go_on(&rt, &mut zone, &mut seats, &[], None)?;
    expect_whole(&rt, &zone);
    Ok(())
}

/// A piece, the number of its first entry that is not legal, and how many pages are free where that was tried.
type Illegal = (&'static [Asked<'static>], u32, u32);

/// What is not legal after `ASKED`. A request that cannot be made leaves the zone as it was; one that gets another reply was made.
const ILLEGAL: &[Illegal] = &[
    (&[(0, Ask::Free(3080, 0), Said::Freed)], 1, 3063),
    (&[(2, Ask::Collect, Said::Freed)], 1, 3063),
    (
        &[
            (1, Ask::Collect, Said::Block(3080, 0, MOVABLE)),
            (1, Ask::Free(3080, 1), Said::Freed),
        ],
        2,
        3063,
    ),
    (
        &[
            (1, Ask::Collect, Said::Block(3080, 0, MOVABLE)),
            (0, Ask::Free(3072, 3), Said::Freed),
            (0, Ask::Alloc(3, MOVABLE, Mark::Any), Said::Page(3080)),
            (1, Ask::Free(3080, 0), Said::Freed),
        ],
        3,
        3063,
    ),
    (
        &[
            (0, Ask::Free(3072, 3), Said::Freed),
            (1, Ask::Free(2048, 10), Said::Posted),
        ],
        2,
        4095,
    ),
];

/// The piece is not legal after what was asked.
fn expect_illegal(
    rt: &(impl Abort + AllocGlobal),
    asked: &[Asked<'_>],
    illegal: &Illegal,
) -> Result<(), Fail> {
    let (piece, number, free) = *illegal;
    let (mut zone, mut seats) = opening(rt)?;
    go_on_in_two(rt, &mut zone, &mut seats, asked, piece, Some(number))?;
    assert_eq!(rt; zone.counts().free, free);
    Ok(())
}

#[test]
fn an_illegal_entry_is_found_in_its_piece(rt: HostRuntime) -> Result<(), Fail> {
    for illegal in ILLEGAL {
        expect_illegal(&rt, ASKED, illegal)?;
    }
    Ok(())
}
