//! Why something was not made.

use std::alloc::AllocError;
use thiserror::Error;
use zp_model::Refused;

/// What was answered in place of the thing that was to be made.
#[derive(Clone, Copy, PartialEq, Eq, Debug, Drop, Error)]
pub enum Unmade {
    /// An `AllocError`.
    #[error("no memory (AllocError)")]
    AllocError,
    /// Refused 6.
    #[error("no memory (refused 6)")]
    Refused,
    /// The fault that says there is no memory.
    #[error("no memory (Memory)")]
    Fault,
    /// A thread could not be started.
    #[error("no thread (refused 31)")]
    NoThread,
    /// Anything else, as a call's wrong answer.
    #[error("another answer")]
    Other,
}

impl Unmade {
    /// The exit status.
    pub fn status(self) -> u8 {
        match self {
            Unmade::Other => 2,
            _ => 1,
        }
    }
}

impl From<AllocError> for Unmade {
    fn from(_e: AllocError) -> Unmade {
        Unmade::AllocError
    }
}

impl From<Refused> for Unmade {
    fn from(refused: Refused) -> Unmade {
        match refused {
            Refused::Memory => Unmade::Refused,
            Refused::NoThread => Unmade::NoThread,
            _ => Unmade::Other,
        }
    }
}

/// Whether calls returned what they have to.
pub fn expect(is_right: bool) -> Result<(), Unmade> {
    if is_right { Ok(()) } else { Err(Unmade::Other) }
}
