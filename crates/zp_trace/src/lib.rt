//! Traces: what they hold, the grammar of their text, and the parser.
//!
//! A trace is one text. Its grammar says what the text of each line is and which lines may stand after which; the parser
//! returns the trace that a text writes, or the number of the text's bad line.
#![tactic(auto)]

mod bounds;
mod calls;
mod forms;
mod grammar_law;
mod keys;
mod labels;
mod line;
mod parser;
mod trace;
mod values;
mod words;

pub use bounds::MOST_LINES;
pub use grammar_law::{
    a_good_text_has_no_bad_line, a_text_has_one_bad_line, a_text_writes_one_trace,
};
pub use keys::label_key;
pub use line::{Call, CommandLine, ZoneLine};
pub use parser::parse_trace;
pub use trace::{Commands, Header, Trace, TraceFault, ZoneLines};
