//! A capture of what a kernel did with its pages: what it says of the machine's zones, and the report on its events, carried
//! out over zones of ours.
#![tactic(auto)]

mod capture;
mod capture_watch;
mod counts_rows;
mod ends;
mod fault;
mod machine;
mod opening;
mod options;
mod plan;
mod planning;
mod printing;
mod report;
mod samples;
mod share_row;
mod summary;
mod zone_info;

pub use capture::Capture;
pub use fault::CaptureFault;
pub use opening::ZoneSettings;
pub use options::{EventOptions, Form};
pub use plan::{ZonePlan, plan_of};
pub use planning::{PlanFault, plans_of};
pub use printing::print_events;
pub use summary::Summary;
pub use zone_info::{MemoryZone, ZoneInfo};
