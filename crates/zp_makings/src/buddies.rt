//! The parts below a zone.

use std::alloc::Global;
use zp_area::FreeArea;
use zp_buddy::Buddy;
use zp_links::Lists;
use zp_loads::{Unmade, expect};
use zp_model::{Largest, MigrateType, Order};
use zp_table::PageTable;
use zp_tree::OrderTree;

/// How many pages each has.
const PAGES: u32 = 4096;

/// How many further lists there are.
const SIDE: usize = 2;

/// A table of pages.
pub fn table(alloc: Global) -> Result<(), Unmade> {
    let _table = PageTable::new(alloc, PAGES)?;
    Ok(())
}

/// Lists over a table.
pub fn lists(alloc: Global) -> Result<(), Unmade> {
    let table = PageTable::new(alloc, PAGES)?;
    let _lists = Lists::new(alloc, table, SIDE)?;
    Ok(())
}

/// The status tree.
pub fn tree(alloc: Global) -> Result<(), Unmade> {
    let _tree = OrderTree::new(alloc, PAGES)?;
    Ok(())
}

/// A free area with no block.
pub fn area(alloc: Global) -> Result<(), Unmade> {
    let _area = FreeArea::new(alloc, PAGES, Largest::usual(), SIDE)?;
    Ok(())
}

/// A buddy allocator, and so many rounds of its takes and gives.
pub fn buddy(alloc: Global, calls: u32) -> Result<(), Unmade> {
    match Buddy::new(alloc, PAGES, Largest::usual(), SIDE) {
        Ok(mut buddy) => rounds(&mut buddy, calls),
        Err(e) => Err(e.into()),
    }
}

/// So many rounds.
fn rounds(buddy: &mut Buddy, rounds: u32) -> Result<(), Unmade> {
    for _ in 0..rounds {
        take_and_give(buddy)?;
    }
    Ok(())
}

/// Allocates and frees a page, and then the lowest one.
fn take_and_give(buddy: &mut Buddy) -> Result<(), Unmade> {
    let order = Order::zero();
    for kind in [MigrateType::Movable, MigrateType::Unmovable] {
        let Some(page) = buddy.take(order, kind) else {
            return Err(Unmade::Other);
        };
        buddy.give(page, order);
    }
    let Some(lowest) = buddy.take_low(order) else {
        return Err(Unmade::Other);
    };
    buddy.give(lowest, order);
    expect(lowest.number() == 0 && buddy.free_pages() == PAGES)
}
