//! Readings with their places, and the counts that the zone's journal gives for as many entries.
ghost use Rattle.std.specs.Prelude.{◌≡◌, ◌∷◌, [], length};
ghost use Rattle.zp_share.specs.Shares.{IsShareOf};
ghost use Rattle.zp_shared.specs.Rows.{board_at, opened_board, opened_key};

use super::one_zone::{Ran, Taken, counts_at, opened_zone, run};
use std::alloc::Global;
use std::marker::Brand;
use std::process::Abort;
use std::sync::Wait;
use std::test::*;
use zp_journal::Journal;
use zp_model::{Counts, Mark, MigrateType, Order};
use zp_share::Share;
use zp_shared::{BoardReader, Naming, OpenedZone, Reading, SharedZone};

/// The counts where all pages are free, and where one was taken.
const WHOLE: Counts = Counts {
    by_order: [0, 0, 0, 0, 0, 0, 0, 0, 0, 0, 4],
    free: 4096,
};

const ONE_TAKEN: Counts = Counts {
    by_order: [1, 1, 1, 1, 1, 1, 1, 1, 1, 1, 3],
    free: 4095,
};

/// What is read at the first place, and at the one after it.
const BEFORE: Reading = Reading {
    counts: WHOLE,
    place: 0,
};

const AFTER: Reading = Reading {
    counts: ONE_TAKEN,
    place: 1,
};

/// A reading with no lock, the page that was then taken, a reading under the lock, and the journal.
#[derive(Drop)]
struct Read {
    before: Reading,
    page: u32,
    after: Reading,
    journal: Journal,
}

/// A page of a zone alone behind its lock is taken.
fn read_and_take<J: Naming, R: Wait>(rt: &R, mut opened: OpenedZone, share: Share) -> Option<Read>
    requires zones { J.zones ≡ opened_key opened ∷ [] }
    requires boards { J.boards ≡ opened_board opened ∷ [] }
    requires fits { IsShareOf J.zones share }
    requires one { length share.zones ≡ 1 }
{
    let mut reader = opened.reader();
    let shared = SharedZone::<J>::new(0, opened);
    let before = reader.read(shared.board());
    let (page, after) = take_and_read(rt, &shared, &mut reader, share)?;
    let closed = shared.close(&mut [reader]);
    Some(Read {
        before,
        page,
        after,
        journal: closed.journal,
    })
}

/// A page is taken under the lock of the first place, and the board is read.
fn take_and_read<J: Naming, R: Wait>(
    rt: &R,
    shared: &SharedZone<J>,
    reader: &mut BoardReader,
    mut share: Share,
) -> Option<(u32, Reading)>
    requires place { shared.now ≡ 0 }
    requires reader { reader.old.tie ≡ (board_at J.boards 0).tie }
    requires fits { IsShareOf J.zones share }
    requires one { length share.zones ≡ 1 }
    ensures { reader.new.tie ≡ reader.old.tie }
{
    let board = shared.board();
    let mut guarded = shared.state.lock(rt);
    if guarded.place() != 0 {
        return None;
    }
    let page = guarded
        .alloc_block(
            board,
            &mut share,
            Order::zero(),
            MigrateType::Movable,
            Mark::Any,
        )
        .ok()?;
    Some((page.number(), guarded.read_board(board, reader)))
}

/// The same of a new zone. None where something could not be made.
fn read_once<R: Wait>(rt: &R, alloc: Global) -> Option<Read> {
    let (opened, share) = opened_zone(alloc, 10)?;
    read_and_take::<Brand, R>(rt, opened, share)
}

/// What the journal says of its places, from 0 on.
const TOLD: [Option<Counts>; 3] = [Some(WHOLE), Some(ONE_TAKEN), None];

#[test]
fn a_reading_is_at_its_place_of_the_journal(rt: HostRuntime) {
    let Some(read) = read_once(&rt, rt.alloc()) else {
        assert!(rt; false, "a page can be taken");
        return;
    };
    assert!(rt; read.before == BEFORE && read.page == 3072 && read.after == AFTER);
    for (place, counts) in TOLD.iter().enumerate() {
        let found = counts_at(rt.alloc(), &read.journal, place as u64);
        assert!(rt; found == *counts, "place {place}");
    }
}

/// The view has not strayed: the zone's journal is full.
#[test]
fn the_board_of_a_full_journal_is_read_whole(rt: HostRuntime) {
    let expected = Taken {
        pages: 1,
        refused: 30,
        strayed: false,
        last: AFTER,
    };
    let Some(ran) = run(&rt, rt.alloc(), 1, 0) else {
        assert!(rt; false, "the worker runs");
        return;
    };
    assert!(rt; ran.taken == expected);
}
