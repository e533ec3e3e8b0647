//! Runs of pages under a lock: each request is one section and one entry, and the journal gives the counts after each of them.
ghost use Rattle.std.specs.Prelude.{◌≡◌, ◌∷◌, [], length};
ghost use Rattle.zp_share.specs.Shares.{IsShareOf};
ghost use Rattle.zp_shared.specs.Rows.{board_at, opened_board, opened_key};

use super::one_zone::{counts_at, opened_zone};
use std::alloc::Global;
use std::marker::Brand;
use std::process::Abort;
use std::sync::Wait;
use std::test::*;
use zp_journal::Journal;
use zp_model::{Counts, Mark, PageNo};
use zp_share::Share;
use zp_shared::{Naming, OpenedZone, SharedZone};

/// A run at a place, part of which is freed; then the lowest run of eight pages that is aligned to eight.
const COUNTS: [Counts; 4] = [
    Counts {
        by_order: [0, 0, 0, 0, 0, 0, 0, 0, 0, 0, 4],
        free: 4096,
    },
    Counts {
        by_order: [0, 0, 1, 1, 1, 2, 1, 2, 2, 2, 2],
        free: 3996,
    },
    Counts {
        by_order: [0, 0, 3, 1, 1, 2, 1, 2, 2, 2, 2],
        free: 4004,
    },
    Counts {
        by_order: [0, 0, 3, 2, 2, 3, 2, 3, 3, 1, 2],
        free: 3996,
    },
];

/// The first pages of both runs, under the lock of the first place.
fn take_and_free<J: Naming, R: Wait>(
    rt: &R,
    shared: &SharedZone<J>,
    mut share: Share,
) -> Option<(u32, u32)>
    requires place { shared.now ≡ 0 }
    requires fits { IsShareOf J.zones share }
    requires one { length share.zones ≡ 1 }
{
    let board = shared.board();
    let mut guarded = shared.state.lock(rt);
    if guarded.place() != 0 {
        return None;
    }
    let taken = guarded
        .alloc_run_at(board, &mut share, PageNo::new(1000), 100)
        .ok()?;
    guarded
        .free_run(board, &mut share, PageNo::new(1020), 8)
        .ok()?;
    let lowest = guarded.alloc_run(board, &mut share, 8, 3, Mark::Any).ok()?;
    Some((taken.number(), lowest.number()))
}

/// The same of a zone alone behind its lock, and its journal.
fn taken_and_freed<J: Naming, R: Wait>(
    rt: &R,
    opened: OpenedZone,
    share: Share,
) -> Option<((u32, u32), Journal)>
    requires zones { J.zones ≡ opened_key opened ∷ [] }
    requires boards { J.boards ≡ opened_board opened ∷ [] }
    requires fits { IsShareOf J.zones share }
    requires one { length share.zones ≡ 1 }
{
    let shared = SharedZone::<J>::new(0, opened);
    let pages = take_and_free(rt, &shared, share)?;
    let closed = shared.close(&mut []);
    Some((pages, closed.journal))
}

/// The same of a new zone.
fn run_once<R: Wait>(rt: &R, alloc: Global) -> Option<((u32, u32), Journal)> {
    let (opened, share) = opened_zone(alloc, 10)?;
    taken_and_freed::<Brand, R>(rt, opened, share)
}

#[test]
fn runs_are_replayed_from_a_journal(rt: HostRuntime) {
    let Some((pages, journal)) = run_once(&rt, rt.alloc()) else {
        assert!(rt; false, "runs can be taken");
        return;
    };
    assert!(rt; pages == (1000, 0));
    for (place, counts) in COUNTS.iter().enumerate() {
        let found = counts_at(rt.alloc(), &journal, place as u64);
        assert!(rt; found == Some(*counts), "place {place}");
    }
}
