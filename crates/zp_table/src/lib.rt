//! A table with an entry for each page of a zone: what is noted of the page, and its neighbours in its list.
//!
//! Contracts see the table as the list of its entries. Each set changes its own fields of one entry.
#![tactic(auto)]

mod entry;
mod field;
mod layout;
mod link;
mod narrow_word;
mod packed_entry;
mod packed_state;
mod packing_law;
mod table;

pub use entry::PageEntry;
pub use link::Link;
pub use packing_law::unpacking_undoes_packing;
pub use table::PageTable;
pub use zp_model::State;
