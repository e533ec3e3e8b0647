//! What the pages of a zone are: the block that has a page, the counts of free blocks and pageblocks by type, and what stands in the way of a
//! block.
//!
//! In Linux: `/proc/pagetypeinfo`, and what `page_owner` reports.
#![tactic(auto)]

mod blocks;
mod page_state;
mod states;
mod tables;
mod ways;

pub use blocks::{ZoneBlock, block_around, has_page};
pub use page_state::PageState;
pub use states::{Lenders, PageBlock, block_at, page_row};
pub use tables::{free_blocks, pageblocks};
pub use ways::{Holdings, holdings_in, least_used_run, used_pages};
