//! Linux's page events (include/trace/events/kmem.h), as ftrace's own text and `perf script` write them: what one line of such a text says,
//! and the lines of a text one after another. The lines of `trace-cmd report` were never tried on a text that it wrote.
#![tactic(auto)]

mod buffer_lines;
mod event;
mod fields;
mod flags;
mod head;
mod line;
mod number;
mod reading;
mod text;
mod window;
mod words;
mod zone_lines;

pub use buffer_lines::{BufferEntries, buffer_entries, lost_events};
pub use event::{Action, FrameBlock, Line, PageEvent, PageRequest, ZoneLimit};
pub use head::holds_event_name;
pub use line::read_line;
pub use reading::{LONGEST_LINE, LineFault, Lines};
pub use text::{AtBroken, LineSink, TextFault, read_lines};
pub use zone_lines::{labelled_number, zone_head};
