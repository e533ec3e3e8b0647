//! What the programs that measure and strain the allocator share: zones from page 0 on, the ways on which their blocks come and go, the load
//! over them, numbers that a seed determines, and why something was not made.
#![tactic(auto)]

mod cached;
mod load;
mod random;
mod seated;
mod source;
mod unmade;

pub use cached::{Cached, PastLists, longest_lists};
pub use load::{DrawnLoad, LentBlock};
pub use random::{Checksum, Random, below};
pub use seated::SeatSource;
pub use source::{LoadSource, config, config_of};
pub use unmade::{Unmade, expect};
