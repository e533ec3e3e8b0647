//! The cut of a run of pages: the aligned blocks that tile it, block by block.
//!
//! In Linux: the loop of `__free_pages_memory`, and of `free_contig_range` where it frees by orders.
ghost use Rattle.std.specs.Prelude.{ℕ, ◌≡◌, ◌≤◌, ◌<◌, ◌+◌, None, true};
ghost use Rattle.zp_model.specs.Area.{kind_at};
ghost use Rattle.zp_model.specs.Block.{has};
ghost use Rattle.zp_model.specs.Lawful.{IsListedArea};
ghost use Rattle.zp_model.specs.PageblockType.{noted_type};
ghost use Rattle.zp_model.specs.Rows.{state_at};
ghost use Rattle.zp_buddy.specs.Runs.{AreClear};
ghost use Rattle.zp_zone.specs.Kept.{IsPostedAside, holding_of};
ghost use Rattle.zp_zone.specs.RunsAt.{IsGivenRun, IsNotedRun};

use zp_buddy::{Buddy, fitting_order};
use zp_model::{MigrateType, Order, PageAt, State, Worker};

/// Frees so many pages from this one on, which are neither free nor out nor posted, block by block of the run's cut: what freeing them at once
/// leaves.
pub fn give_cut(buddy: &mut Buddy, from: u32, pages: u32)
    requires clear { AreClear buddy.old from pages }
    requires listed { IsListedArea buddy.old.area }
    requires beside { IsPostedAside buddy.old.sides buddy.old.states }
    requires unheld { (i : ℕ) → has buddy.old.area.free i ≡ true → holding_of (state_at buddy.old.states i) ≡ None }
    requires here { (i : ℕ) → from ≤ i → i < from + pages → holding_of (state_at buddy.old.states i) ≡ None }
    ensures { IsGivenRun buddy.old buddy.new from pages }
{
    // a clause of this call says how many pages there can be
    let _pages = buddy.pages();
    let largest = buddy.largest();
    let mut next = from;
    let mut left = pages;
    'tiles: while left > 0 {
        // a clause of this call says that what is noted as free is free
        let _framed = buddy.pages();
        let head = PageAt::at(next);
        let order = fitting_order(largest, head, left);
        buddy.give(head, order);
        let given = order.pages();
        next += given;
        left -= given;
    }
}

/// Notes so many clear pages from this one on as out to a worker for a type, block by block of the run's cut.
pub fn note_cut(buddy: &mut Buddy, worker: Worker, kind: MigrateType, from: u32, pages: u32)
    requires clear { AreClear buddy.old from pages }
    requires beside { IsPostedAside buddy.old.sides buddy.old.states }
    ensures { IsNotedRun buddy.old buddy.new worker (λ g. kind) from pages }
{
    // a clause of this call says how many pages there can be
    let _pages = buddy.pages();
    let largest = buddy.largest();
    let mut next = from;
    let mut left = pages;
    'tiles: while left > 0 {
        let head = PageAt::at(next);
        let order = fitting_order(largest, head, left);
        buddy.hold(head, State::Out(order, kind, worker));
        let noted = order.pages();
        next += noted;
        left -= noted;
    }
}

/// Notes so many clear pages from this one on as out to a worker, block by block of the run's cut, each for its own pageblock's type.
pub fn note_taken(buddy: &mut Buddy, worker: Worker, from: u32, pages: u32)
    requires clear { AreClear buddy.old from pages }
    requires beside { IsPostedAside buddy.old.sides buddy.old.states }
    ensures { IsNotedRun buddy.old buddy.new worker (λ g. noted_type (kind_at buddy.old.area.largest buddy.old.area.kinds g)) from pages }
{
    // a clause of this call says how many pages there can be
    let _pages = buddy.pages();
    let largest = buddy.largest();
    let mut next = from;
    let mut left = pages;
    'tiles: while left > 0 {
        let head = PageAt::at(next);
        let order = fitting_order(largest, head, left);
        let kind = buddy.type_of(head).noted();
        buddy.hold(head, State::Out(order, kind, worker));
        let noted = order.pages();
        next += noted;
        left -= noted;
    }
}
