//! The office of a trace: its zones, a desk for each worker with the worker's share and script, and the workers, one after another or
//! each in a thread.
#![tactic(auto)]

mod beside;
mod carrying_out;
mod command;
mod counts_row;
mod desk;
mod gate;
mod label_slots;
mod making;
mod office;
mod opening;
mod places;
mod reply;
mod script;
mod sharing;
mod workers;
mod working;

pub use beside::{join_or_neither, join_or_neither_on};
pub use command::Command;
pub use counts_row::CountsRow;
pub use desk::{Desk, MAX_COMMANDS};
pub use gate::{Gate, OpenGate};
pub use making::opened_desks;
pub use office::Office;
pub use opening::opened;
pub use reply::CommandReply;
pub use script::script_of;
pub use sharing::{ClosedZones, run_zones};
pub use workers::run_workers;
pub use working::{work, work_next};
