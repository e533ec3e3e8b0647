//! A trace, and why a text is none.
ghost use Rattle.std.specs.Prelude.{◌≡◌, ◌<◌, ◌≤◌, ◌↔◌, [], ◌∷◌, ◌+◌, ◌++◌, length, IsTrue, OnOk, OnErr};
ghost use Rattle.zp_model.specs.declared.constants.TheConstants.{TRACE_ZONES};
ghost use Rattle.zp_trace.specs.Spelling.{header_of};

use crate::line::{CommandLine, ZoneLine};
use std::alloc::{AllocError, Global};
use std::marker::Model;

/// The zones of a trace, the lowest first.
#[derive(Debug, Drop)]
pub struct ZoneLines {
    lines: Vec<ZoneLine>,
}

impl Model for ZoneLines {
    ghost use Rattle.std.specs.Prelude.{List, length, ◌≤◌};
    ghost use Rattle.zp_model.specs.declared.constants.TheConstants.{TRACE_ZONES};
    ghost use Rattle.zp_trace.specs.declared.line.ZoneLine.{ZoneLine};

    ghost Value = { List ZoneLine };

    ghost view = { λ z. z.lines.items };

    ghost invariant = { λ z. length z.lines.items ≤ TRACE_ZONES };
}

impl ZoneLines {
    pub(crate) fn new(alloc: Global) -> ZoneLines
        ensures { result ≡ [] }
    {
        ZoneLines {
            lines: Vec::new(alloc),
        }
    }

    /// Puts a zone at the end. Where memory is wanting, the list stays as it was.
    pub(crate) fn push(&mut self, line: ZoneLine) -> Result<(), AllocError>
        requires { length self.old < TRACE_ZONES }
        ensures ok { OnOk result (self.new ≡ self.old ++ line ∷ []) }
        ensures err { OnErr result (self.new ≡ self.old) }
    {
        let ZoneLine {
            name,
            base,
            pages,
            min,
            largest,
        } = line;
        self.lines.push(ZoneLine {
            name,
            base,
            pages,
            min,
            largest,
        })?;
        Ok(())
    }

    pub fn as_slice(&self) -> &[ZoneLine]
        ensures same { result.now ≡ self.now }
        ensures within { length result.now ≤ TRACE_ZONES }
    {
        &self.lines
    }
}

/// The commands of a trace, in order.
#[derive(Debug, Drop)]
pub struct Commands {
    commands: Vec<CommandLine>,
}

impl Model for Commands {
    ghost use Rattle.std.specs.Prelude.{List};
    ghost use Rattle.zp_trace.specs.declared.line.CommandLine.{CommandLine};

    ghost Value = { List CommandLine };

    ghost view = { λ c. c.commands.items };
}

impl Commands {
    pub(crate) fn of(commands: Vec<CommandLine>) -> Commands
        ensures { result ≡ commands.items }
    {
        Commands { commands }
    }

    pub fn len(&self) -> usize
        ensures { result ≡ length self.now }
    {
        self.commands.len()
    }

    pub fn is_empty(&self) -> bool
        ensures { IsTrue result ↔ (self.now ≡ []) }
    {
        self.commands.is_empty()
    }

    pub fn as_slice(&self) -> &[CommandLine]
        ensures { result.now ≡ self.now }
    {
        &self.commands
    }
}

/// What stands before the worker lines.
#[derive(Debug, Drop)]
pub struct Header {
    pub zones: ZoneLines,
    pub workers: u32,
    /// How many pages a worker's list gets or frees at a time; 0 where workers have no lists.
    pub batch: u32,
    /// How many pages a worker's list may have.
    pub high: u32,
}

impl Header {
    /// How many lines write it.
    pub(crate) fn lines(&self) -> usize
        ensures same { result ≡ length (header_of self.now) }
        ensures within { result ≤ TRACE_ZONES + 2 }
    {
        self.zones.as_slice().len() + 2
    }
}

/// What a text of the grammar says.
#[derive(Debug, Drop)]
pub struct Trace {
    pub header: Header,
    pub commands: Commands,
}

/// Why there is no trace.
#[derive(Clone, Copy, PartialEq, Eq, Debug, Drop)]
pub enum TraceFault {
    /// The first line that may not stand after the lines before it, counted from 1.
    BadLine(u32),
    /// There is no memory for the zones or the commands.
    Memory,
}

impl From<AllocError> for TraceFault {
    ghost use Rattle.zp_trace.specs.declared.trace.TraceFault.TheVariants.{Memory};

    ghost from_gives = { λ _ e. e ≡ Memory };

    fn from(_e: AllocError) -> TraceFault {
        TraceFault::Memory
    }
}
