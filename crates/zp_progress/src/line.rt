//! What a line says.

use std::fmt;
use std::fmt::{Display, Formatter};

/// What goes before a line, and in its place: back to the beginning, and all that stands there goes.
pub const CLEARED: &str = "\r\x1b[K";

/// A line, as `zoneview film: 1200 of 4096 requests`, or `zoneview events: 1024 page events`.
#[derive(Clone, Copy, PartialEq, Eq, Debug, Drop)]
pub struct ProgressLine<'a> {
    pub task: &'a str,
    pub done: u64,
    /// Of how much, where that is known.
    pub of: Option<u64>,
    /// What is counted.
    pub unit: &'a str,
}

impl Display for ProgressLine<'_> {
    ghost use Rattle.std.specs.Prelude.{Some};
    ghost use Rattle.zp_progress.specs.Lines.{line_text};

    ghost output = { λ line. Some (line_text line) };

    fn fmt<W: fmt::Write>(&self, f: &mut Formatter<W>) -> fmt::Result {
        let ProgressLine {
            task,
            done,
            of,
            unit,
        } = *self;
        match of {
            Some(of) => write!(f, "{task}: {done} of {of} {unit}"),
            None => write!(f, "{task}: {done} {unit}"),
        }
    }
}
