//! A row of zones, each behind a lock that one caller at a time may hold; whoever comes meanwhile gets an error. Nobody waits here, so
//! that a static library may have it, and the caller's lock is checked: a lock that was forgotten makes calls fail, and breaks nothing.
#![tactic(auto)]

mod call;
mod call_error;
mod gate_facts;
mod gated_reader;
mod gated_row;
mod gated_share;
mod gated_worker;
mod gated_zone;
mod granted;
mod lists;
mod opening;
mod publishing;
mod question;
mod reader_error;
mod try_lock;
mod visit_view;

pub use call::{Given, ZoneCall};
pub use call_error::CallError;
pub use gated_reader::GatedReader;
pub use gated_row::GatedRow;
pub use gated_worker::GatedWorker;
pub use granted::Granted;
pub use opening::open_row;
pub use question::{Answer, Question, ZoneTold};
pub use reader_error::ReaderError;
pub use try_lock::{Busy, GatherError, Gathered};
