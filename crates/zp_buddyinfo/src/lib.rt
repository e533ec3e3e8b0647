//! `/proc/buddyinfo` of any Linux, and the lines of the same shape: what they say, and Linux's two indexes of how much of a zone's free
//! memory is of use to a request.
#![tactic(auto)]

mod bounds;
mod index;
mod page;
mod report;
mod row;
mod style;
mod table;
mod text;
mod words;

pub use bounds::{ORDERS, PAGE_LIMIT, WHOLE};
pub use index::{FragmentationIndex, FreeBlocks};
pub use page::parse_size;
pub use report::report_text;
pub use row::BuddyinfoRow;
pub use style::Style;
pub use table::{TableFault, read_table};
