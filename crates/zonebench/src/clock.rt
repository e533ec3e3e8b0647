//! How long work takes.

use std::rt::Clock;
use std::time::{Duration, Instant};

/// What comes of the work, and the time that it takes.
#[inline(always)]
pub fn timed<T: Drop, F: FnOnce() -> T>(rt: &impl Clock, work: F) -> anyhow::Result<(T, Duration)>
    requires { F.IsAlwaysCallable work }
{
    let start = Instant::now(rt)?;
    let made = work();
    let time = start.elapsed(rt)?;
    Ok((made, time))
}
