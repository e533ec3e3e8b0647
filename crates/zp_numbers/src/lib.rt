//! Decimal numbers as texts write them: digits with no leading zero, or `0` itself.
#![tactic(auto)]

mod decimal;

pub use decimal::{parse_u32, parse_u64};
