//! How far long work is, shown on a line of standard error that is written over again and again: where somebody looks on, and not in the
//! first two seconds.
#![tactic(auto)]

mod line;
mod meter;
mod pace;
mod told;

pub use line::{CLEARED, ProgressLine};
pub use meter::{ProgressMeter, Task, is_watched};
pub use pace::is_due;
pub use told::{Progress, Unwatched};
