//! What is free in a zone, and of which type, before a request that is dear.

use zp_loads::{DrawnLoad, LoadSource, Unmade};
use zp_model::{LARGEST_BLOCK_PAGES, MigrateType, Order};

/// The pages of the zone, but where a request names them.
pub const PAGES: u32 = 65_536;

/// The pages of a pageblock, at the usual largest order.
pub const PAGEBLOCK_PAGES: u32 = LARGEST_BLOCK_PAGES;

/// The pageblocks of the zone.
pub const PAGEBLOCKS: u32 = PAGES / PAGEBLOCK_PAGES;

/// What is free; the rest is lent.
#[derive(Clone, Copy, Drop)]
pub enum Ground {
    /// All pages.
    Whole,
    /// One pageblock.
    OnePageblock,
    /// Every second page of one pageblock: 512 blocks of order 0.
    HalfPageblock,
    /// Every second page, and all pageblocks are of this type.
    Halves(MigrateType),
    /// The last page of each pageblock.
    LastPages,
    /// Every second pageblock, from the first one on.
    SecondPageblocks,
    /// Every second page, but for one in each pageblock other than the first, whose pages are the last of the list: no pageblock before
    /// it on the list has the free pages that a claim asks for.
    LongList,
}

impl Ground {
    /// Brings a zone there.
    pub fn prepare<S: LoadSource>(&self, bench: &mut DrawnLoad<S>) -> Result<(), Unmade> {
        match self {
            Ground::Whole => settle(bench, MigrateType::Movable),
            Ground::OnePageblock => {
                lend_pageblocks(bench, MigrateType::Movable)?;
                bench.give_at(0);
                Ok(())
            }
            Ground::HalfPageblock => {
                lend_pages(bench, MigrateType::Movable)?;
                bench.give_picked(|page| page % 2 == 0 && page < PAGEBLOCK_PAGES);
                Ok(())
            }
            Ground::Halves(kind) => {
                lend_pages(bench, *kind)?;
                bench.give_picked(|page| page % 2 == 0);
                Ok(())
            }
            Ground::LastPages => {
                lend_pages(bench, MigrateType::Movable)?;
                bench.give_picked(|page| page % PAGEBLOCK_PAGES == PAGEBLOCK_PAGES - 1);
                Ok(())
            }
            Ground::SecondPageblocks => {
                lend_pages(bench, MigrateType::Movable)?;
                bench.give_picked(|page| page / PAGEBLOCK_PAGES % 2 == 0);
                Ok(())
            }
            Ground::LongList => {
                lend_pages(bench, MigrateType::Movable)?;
                bench.give_picked(|page| page % 2 == 0 && page < PAGEBLOCK_PAGES);
                bench.give_picked(|page| page % 2 == 0 && page % PAGEBLOCK_PAGES != 0);
                Ok(())
            }
        }
    }

    /// Whether a request leaves another ground, also when its block is freed: a claim takes the list's end with it.
    pub fn is_laid_anew(&self) -> bool {
        matches!(self, Ground::LongList)
    }
}

/// Lends all pageblocks, which get this type: each is of it, or is claimed.
fn lend_pageblocks<S: LoadSource>(
    bench: &mut DrawnLoad<S>,
    kind: MigrateType,
) -> Result<(), Unmade> {
    bench.give_all();
    bench.lend_all(Order::largest(), kind)
}

/// All pages are free, and all pageblocks of this type.
fn settle<S: LoadSource>(bench: &mut DrawnLoad<S>, kind: MigrateType) -> Result<(), Unmade> {
    lend_pageblocks(bench, kind)?;
    bench.give_all();
    Ok(())
}

/// All pages are lent one by one, and all pageblocks of this type.
fn lend_pages<S: LoadSource>(bench: &mut DrawnLoad<S>, kind: MigrateType) -> Result<(), Unmade> {
    settle(bench, kind)?;
    bench.lend_all(Order::zero(), kind)
}
