//! Why there is no report on a capture.

use crate::planning::PlanFault;
use std::alloc::AllocError;
use std::error::Error;
use std::fmt::{Display, Formatter};
use std::{fmt, io};
use zp_events::{LONGEST_LINE, TextFault};
use zp_model::{BASE_LIMIT, BASE_STEP, MAX_PAGES, MAX_WORKERS, Refused};

/// Why a capture was not carried out, or not to its end.
#[derive(Debug, Drop)]
pub enum CaptureFault {
    /// No zones are planned.
    Plan(PlanFault),
    /// The zones were not made.
    Refused(Refused),
    /// The line of this number, from 1 on, begins as one of a page event and is none.
    Broken(u64),
    /// The line of this number is longer than any that is read.
    TooLong(u64),
    /// There are more lines than are counted.
    TooMany,
    /// The input failed.
    Read,
    /// The output failed, or there is no memory.
    Io(io::Error),
}

/// The rule that a refusal to create the zones names.
fn write_rule<W: fmt::Write>(refused: Refused, f: &mut Formatter<W>) -> fmt::Result {
    match refused {
        Refused::BadName => f.write_str("a zone's name is not 1 to 8 ASCII letters or digits"),
        Refused::BadBase => write!(
            f,
            "a zone's first page is no multiple of {BASE_STEP}, or above {BASE_LIMIT}"
        ),
        Refused::BadPages => write!(f, "a zone has not 1 to {MAX_PAGES} pages"),
        Refused::BadMark => f.write_str("a zone's least mark is above its pages"),
        Refused::BadWorkers => write!(f, "there are not 1 to {MAX_WORKERS} workers"),
        Refused::Memory => f.write_str("no memory"),
        _ => {
            let number = refused.number();
            write!(f, "refused {number}")
        }
    }
}

impl Display for CaptureFault {
    fn fmt<W: fmt::Write>(&self, f: &mut Formatter<W>) -> fmt::Result {
        match self {
            CaptureFault::Plan(fault) => write!(f, "{fault}"),
            CaptureFault::Refused(refused) => {
                f.write_str("the zones cannot be made: ")?;
                write_rule(*refused, f)
            }
            CaptureFault::Broken(line) => write!(
                f,
                "line {line}: begins as a page event, and is none"
            ),
            CaptureFault::TooLong(line) => {
                write!(f, "line {line}: has more than {LONGEST_LINE} bytes")
            }
            CaptureFault::TooMany => f.write_str("too many lines"),
            CaptureFault::Read => f.write_str("cannot read standard input"),
            CaptureFault::Io(error) => write!(f, "{error}"),
        }
    }
}

impl Error for CaptureFault {}

impl From<io::Error> for CaptureFault {
    fn from(error: io::Error) -> CaptureFault {
        CaptureFault::Io(error)
    }
}

impl From<AllocError> for CaptureFault {
    fn from(error: AllocError) -> CaptureFault {
        CaptureFault::Io(error.into())
    }
}

impl From<Refused> for CaptureFault {
    fn from(refused: Refused) -> CaptureFault {
        CaptureFault::Refused(refused)
    }
}

impl From<PlanFault> for CaptureFault {
    fn from(fault: PlanFault) -> CaptureFault {
        CaptureFault::Plan(fault)
    }
}

/// The fault of a text that was not read to its end; a fault of the zones' opening goes before that of the call which met it.
pub fn fault_of(fault: TextFault, opening: Option<CaptureFault>) -> CaptureFault {
    match fault {
        TextFault::Broken(number) => CaptureFault::Broken(number),
        TextFault::TooLong(number) => CaptureFault::TooLong(number),
        TextFault::TooMany => CaptureFault::TooMany,
        TextFault::Read => CaptureFault::Read,
        TextFault::Sink(error) => match opening {
            Some(fault) => fault,
            None => CaptureFault::Io(error),
        },
    }
}
