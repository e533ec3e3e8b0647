//! How the program ends.
ghost use Rattle.std.specs.Prelude.{◌≡◌};
ghost use Rattle.zp_replay.specs.Exits.{exit_status};

use crate::ending::{Ending, ReplayFault};
use std::fmt;
use std::fmt::{Display, Formatter};
use zp_flags::FlagFault;

/// What came of the program's run. Its text is what is said on standard error: a line, or nothing.
#[derive(Clone, Copy, PartialEq, Eq, Debug, Drop)]
pub enum Exit {
    /// A trace was read.
    Replayed(Ending),
    /// The replay broke off.
    Broken(ReplayFault),
    /// The words of the command line are no flags.
    Refused(FlagFault),
}

impl Display for Exit {
    ghost use Rattle.std.specs.Prelude.{Some};
    ghost use Rattle.zp_replay.specs.Exits.{exit_text};

    ghost output = { λ exit. Some (exit_text exit) };

    fn fmt<W: fmt::Write>(&self, f: &mut Formatter<W>) -> fmt::Result {
        match self {
            Exit::Replayed(_) => Ok(()),
            Exit::Broken(fault) => writeln!(f, "{fault}"),
            Exit::Refused(fault) => writeln!(f, "{fault}"),
        }
    }
}

/// The exit status.
pub fn exit_status(exit: Exit) -> u8
    ensures { result ≡ exit_status exit }
{
    match exit {
        Exit::Replayed(Ending::Good) => 0,
        Exit::Replayed(Ending::BadLine(_)) | Exit::Broken(_) | Exit::Refused(FlagFault::Memory) => {
            1
        }
        Exit::Refused(FlagFault::Unknown | FlagFault::NeedsThreads) => 2,
    }
}
