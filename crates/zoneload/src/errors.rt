//! Why a job broke off.

use std::alloc::AllocError;
use thiserror::Error;
use zp_model::Refused;
use zp_replay::{ReplayFault, TraceFault};

/// A job that could not be made, or that was answered what it must not be.
#[derive(Clone, Copy, PartialEq, Eq, Debug, Drop, Error)]
pub enum Broken {
    #[error("zoneload: out of memory")]
    Memory,
    #[error("zoneload: a trace was not replayed as it is")]
    Trace,
    #[error("zoneload: a journal is not legal")]
    Journal,
}

impl From<AllocError> for Broken {
    fn from(_e: AllocError) -> Broken {
        Broken::Memory
    }
}

impl From<Refused> for Broken {
    fn from(_refused: Refused) -> Broken {
        Broken::Memory
    }
}

impl From<TraceFault> for Broken {
    fn from(_fault: TraceFault) -> Broken {
        Broken::Trace
    }
}

impl From<ReplayFault> for Broken {
    fn from(fault: ReplayFault) -> Broken {
        match fault {
            ReplayFault::Memory => Broken::Memory,
            _ => Broken::Trace,
        }
    }
}
