//! What is written as text: info lines; and journals, a line for each entry and the line that says what a replay found.
#![tactic(auto)]

mod gathering;
mod info;
mod journal;
mod line;
mod verdict;

pub use gathering::{GATHERED, make_room, write_gathered};
pub use info::{write_counts, write_info};
pub use journal::write_journal;
pub use verdict::{VERDICT_LINE, Verdict, push_verdict};
pub use zp_streams::{Failures, ReadFault, Reader, Sink, Source, WriteFault, Writer, write_all};
