//! A set of blocks as a free area keeps it, all of which changes with the set.
use zp_links::Lists;
use zp_model::{Largest, PageblockType};
use zp_tree::OrderTree;

/// The notes of the pages with the lists, the types of the pageblocks, and what is kept beside them.
#[derive(Drop)]
pub struct KeptBlocks {
    pub largest: Largest,
    pub lists: Lists,
    pub kinds: Vec<PageblockType>,
    /// The blocks outside isolated pageblocks.
    pub tree: OrderTree,
    /// How many pages of each pageblock are in blocks.
    pub free_in: Vec<u32>,
}
