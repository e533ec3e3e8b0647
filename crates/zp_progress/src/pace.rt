//! When a line is due.
ghost use Rattle.std.specs.Prelude.{◌↔◌, IsTrue};
ghost use Rattle.zp_progress.specs.Due.{IsDue};

use std::time::Duration;

/// Work that takes at most this long reports nothing.
const FIRST_NANOS: u128 = 2_000_000_000;

/// From one line to the next.
const NEXT_NANOS: u128 = 100_000_000;

/// Whether a line is due, so long after the work began, where the last one was shown so long after it, if there was one.
pub fn is_due(passed: Duration, shown: Option<Duration>) -> bool
    ensures { IsTrue result ↔ IsDue passed shown }
{
    if passed.as_nanos() < FIRST_NANOS {
        return false;
    }
    match shown {
        None => true,
        Some(shown) => passed.saturating_sub(shown).as_nanos() >= NEXT_NANOS,
    }
}
