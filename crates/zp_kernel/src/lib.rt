//! A kernel's page events, carried out over our zones: what the kernel asked of its own is asked of these.
#![tactic(auto)]

mod event_counts;
mod event_run;
mod frame_table;
mod freeing;
mod giving_back;
mod handing_out;
mod held;
mod kernel;
mod kernel_state;
mod kernel_zones;
mod line_counts;
mod setting;

pub use event_counts::{EventCounts, Happening, TypeCounts};
pub use event_run::{EventRun, Onlooker};
pub use held::Held;
pub use kernel::Kernel;
pub use line_counts::{LineCounts, Remark, remark_of};
pub use setting::{Limits, Setting};
