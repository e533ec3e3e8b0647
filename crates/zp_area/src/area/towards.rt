//! Taking a part out of the block in which it lies, at whatever place it has there and whatever the type of its pageblock.
//!
//! The block leaves the set whole; then each half that does not have the part comes to its list, the largest first. Outside isolated pageblocks
//! that is one change of the tree, of the number of free pages and of the pageblock's mark.
//!
//! In Linux: `take_page_off_buddy`, with `break_down_buddy_pages`.
ghost use Rattle.std.specs.Prelude.{◌≡◌, ◌≤◌, ◌<◌};
ghost use Rattle.zp_model.specs.PageblockType.{pageblock_type};
ghost use Rattle.zp_model.specs.Area.{kind_at};
ghost use Rattle.zp_model.specs.Block.{head};
ghost use Rattle.zp_model.specs.BlockSet.{Starts};
ghost use Rattle.zp_area.specs.Blocks.{block_set};
ghost use Rattle.zp_area.specs.Towards.{split_towards};

use super::FreeArea;
use crate::free_lists::list_of;
use crate::listed_block::ListedBlock;
use crate::splits::half_beside;
use crate::{noting, splits};
use zp_model::{MigrateType, Order, PageAt};

impl FreeArea {
    /// Takes the aligned run of order `to` around a page out of the block of order `from` in which it lies. The halves beside it come into the
    /// set, the largest first. The run is in no block then.
    pub fn split_towards(&mut self, at: PageAt, from: Order, to: Order)
        requires block { Starts (block_set self.old) (head at from) from }
        requires down { to ≤ from }
        ensures { self.new ≡ split_towards self.old.largest self.old at from to }
    {
        // a clause of this call says that all that is kept is of one set of blocks
        let _pages = self.pages();
        let pageblock = self.largest().pageblock_of(at);
        match self.type_of(pageblock).migrate_type() {
            Some(kind) => self.take_part(at, from, to, kind),
            None => self.halve_towards(at, from, to),
        }
    }

    /// The same in a pageblock of this type, which is not isolated.
    #[inline(always)]
    fn take_part(&mut self, at: PageAt, from: Order, to: Order, kind: MigrateType)
        requires block { Starts (block_set self.old) (head at from) from }
        requires typed { pageblock_type kind ≡ kind_at self.old.largest self.old.kinds at }
        requires down { to ≤ from }
        ensures { self.new ≡ split_towards self.old.largest self.old at from to }
    {
        // a clause of this call says that all that is kept is of one set of blocks
        let _pages = self.pages();
        if to.number() < from.number() {
            self.halve_down(at, from, to, kind);
        } else {
            let block = ListedBlock {
                head: at.head(from),
                order: from,
                list: list_of(from, kind.pageblock_type()),
                is_front: false,
            };
            self.take_whole(block, kind);
        }
    }

    /// The same of a block that is halved.
    #[inline(always)]
    fn halve_down(&mut self, at: PageAt, from: Order, to: Order, kind: MigrateType)
        requires block { Starts (block_set self.old) (head at from) from }
        requires typed { pageblock_type kind ≡ kind_at self.old.largest self.old.kinds at }
        requires down { to < from }
        ensures { self.new ≡ split_towards self.old.largest self.old at from to }
    {
        let pageblock = self.blocks.largest.pageblock_of(at);
        splits::split_towards(
            &mut self.blocks,
            pageblock,
            kind.pageblock_type(),
            at,
            from,
            to,
        );
        noting::changed(&mut self.noted, &self.blocks, pageblock);
    }

    /// The same in a pageblock of any type: each half comes by itself.
    // (out of line: isolated pageblocks are few)
    #[inline(never)]
    fn halve_towards(&mut self, at: PageAt, from: Order, to: Order)
        requires block { Starts (block_set self.old) (head at from) from }
        requires down { to ≤ from }
        ensures { self.new ≡ split_towards self.old.largest self.old at from to }
    {
        // a clause of this call says that all that is kept is of one set of blocks
        let _pages = self.pages();
        self.remove(at.head(from), from);
        let mut order = from;
        'halves: while to.number() < order.number() {
            order = order.lower();
            self.add(half_beside(at, order), order);
        }
    }
}
