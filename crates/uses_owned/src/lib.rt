//! Callers of a zone that one thread owns, as a user would write them. Each is proved from the contracts of the calls that it makes:
//! there is no proof file here, and where one were wanted, a contract below would say too little.
#![tactic(auto)]

mod buddyinfo;
mod emptied_pageblock;
mod first_page;
mod handing_over;
mod huge_page;
mod huge_pool;
mod low_block;
mod open_room;
mod page_pool;
mod two_pages;

pub use buddyinfo::{Memory, show};
pub use emptied_pageblock::{Emptying, empty_a_pageblock};
pub use first_page::one_page;
pub use handing_over::{receive, relay, send};
pub use huge_page::{Run, give_run, take_huge_page};
pub use huge_pool::HugePool;
pub use low_block::take_below;
pub use open_room::pass_through;
pub use page_pool::PagePool;
pub use two_pages::take_two;
