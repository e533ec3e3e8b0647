//! How a replay ends.

ghost use Rattle.std.specs.Prelude.{◌≡◌};

use std::alloc::AllocError;
use std::error::Error;
use std::fmt;
use std::fmt::{Display, Formatter};
use zp_text::WriteFault;

/// What was replayed.
#[derive(Clone, Copy, PartialEq, Eq, Debug, Drop)]
pub enum Ending {
    /// A good trace: its output was written.
    Good,
    /// A bad trace: the number of its bad line was written.
    BadLine(u32),
}

/// Why a replay broke off.
#[derive(Clone, Copy, PartialEq, Eq, Debug, Drop)]
pub enum ReplayFault {
    /// There is no memory.
    Memory,
    /// The reader failed.
    Read,
    /// The writer failed.
    Write,
    /// A thread could not be started.
    NoThread,
}

impl Display for ReplayFault {
    ghost use Rattle.std.specs.Prelude.{Some};
    ghost use Rattle.zp_replay.specs.Faults.{replay_message};

    ghost output = { λ fault. Some (replay_message fault) };

    fn fmt<W: fmt::Write>(&self, f: &mut Formatter<W>) -> fmt::Result {
        f.write_str(match self {
            ReplayFault::Memory => "zonereplay: no memory",
            ReplayFault::Read => "zonereplay: cannot read",
            ReplayFault::Write => "zonereplay: cannot write",
            ReplayFault::NoThread => "zonereplay: no thread",
        })
    }
}

impl Error for ReplayFault {}

impl From<AllocError> for ReplayFault {
    ghost use Rattle.zp_replay.specs.declared.ending.ReplayFault.TheVariants.{Memory};

    ghost from_gives = { λ _ e. e ≡ Memory };

    fn from(_e: AllocError) -> ReplayFault {
        ReplayFault::Memory
    }
}

impl From<WriteFault> for ReplayFault {
    ghost use Rattle.zp_replay.specs.declared.ending.ReplayFault.TheVariants.{Write};

    ghost from_gives = { λ _ e. e ≡ Write };

    fn from(_e: WriteFault) -> ReplayFault {
        ReplayFault::Write
    }
}
