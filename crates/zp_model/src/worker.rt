//! Workers.
ghost use Rattle.std.specs.Prelude.{◌≡◌, ◌<◌, ℕ, IfSome, IsSome, ◌↔◌};

use crate::constants::MAX_WORKERS;
use std::marker::Model;

/// The number of a worker: 0 to 31.
#[derive(Clone, Copy, PartialEq, Eq, Debug, Drop)]
pub struct Worker {
    number: u8,
}

impl Model for Worker {
    ghost use Rattle.std.specs.Prelude.{ℕ, ◌<◌};
    ghost use Rattle.zp_model.specs.declared.constants.TheConstants.{MAX_WORKERS};

    ghost Value = { ℕ };

    ghost view = { λ w. w.number };

    ghost invariant = { λ w. w.number < MAX_WORKERS };

    ghost inverse = { λ n. record { number = n } };
}

impl Worker {
    /// The worker of this number, where a zone can have one.
    pub const fn new(number: u8) -> Option<Worker>
        ensures some { IfSome result (λ w. w ≡ number) }
        ensures when { IsSome result ↔ (number < MAX_WORKERS) }
    {
        if (number as u32) < MAX_WORKERS {
            Some(Worker { number })
        } else {
            None
        }
    }

    /// The first worker, which each zone has.
    pub const fn first() -> Worker
        ensures { result ≡ 0 }
    {
        Worker { number: 0 }
    }

    pub const fn number(self) -> u8
        ensures same { result ≡ self }
        ensures within { result < MAX_WORKERS }
    {
        self.number
    }
}
