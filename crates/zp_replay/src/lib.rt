//! Replays of traces: a trace in, the replies to its requests and the zones' totals out.
//!
//! What a good trace writes, when its commands are carried out in its order, is a definition, `output` in `specs/Output.antt`: a
//! function of the trace alone. The serial replay is proved to write it, over any reader and writer that tell their bytes. The
//! replay in threads is proved to write the report of an office whose workers have each carried out their commands.
#![tactic(auto)]

mod ending;
mod exit;
mod input;
mod journals;
mod lines;
mod report;
mod serial;
mod threads;
mod traces;

pub use ending::{Ending, ReplayFault};
pub use exit::{Exit, exit_status};
pub use input::INPUT_LIMIT;
pub use serial::replay_serial;
pub use threads::replay_threads;
pub use zp_flags::{FlagFault, Flags, read_flags};
pub use zp_text::{Failures, Sink, Source};
pub use zp_trace::{Trace, TraceFault, parse_trace};
