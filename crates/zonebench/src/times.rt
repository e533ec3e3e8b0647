//! The times of single calls, and where most of them lie.

ghost use Rattle.std.specs.Prelude.{◌≡◌, ◌<◌, ◌-◌, ◌/◌, length, slice_index_or, IsSorted, IsPermutation};
ghost use Rattle.std.specs.Ordering.{nat_cmp};

use std::alloc::Global;
use std::time::Duration;
use zp_loads::Unmade;

/// Of how many calls one takes longer than the high time that is printed.
const CALLS_A_HIGH_TIME: usize = 1000;

/// What half of the times are at most, and what all but one in a thousand are, in nanoseconds.
#[derive(Clone, Copy, Drop)]
pub struct Spread {
    pub median: u64,
    pub high: u64,
}

/// Puts the times in rising order, and returns their spread.
fn spread_of(times: &mut [u64]) -> Spread
    requires { 0 < length times.old }
    ensures same { IsPermutation times.old times.new }
    ensures sorted { IsSorted nat_cmp times.new }
    ensures median { result.median ≡ slice_index_or times.new (length times.new / 2) 0 }
    ensures high { result.high ≡ slice_index_or times.new (length times.new - length times.new / 1000 - 1) 0 }
{
    times.sort_unstable();
    let above = times.len() / CALLS_A_HIGH_TIME;
    Spread {
        median: times[times.len() / 2],
        high: times[times.len() - above - 1],
    }
}

/// The times of calls, in nanoseconds.
#[derive(Drop)]
pub struct Times {
    nanos: Vec<u64>,
}

impl Times {
    /// None, with room for so many.
    pub fn new(alloc: Global, calls: u32) -> Result<Times, Unmade> {
        Ok(Times {
            nanos: Vec::with_capacity(alloc, calls as usize)?,
        })
    }

    pub fn add(&mut self, time: Duration) -> Result<(), Unmade> {
        let nanos = u64::try_from(time.as_nanos()).unwrap_or(u64::MAX);
        if self.nanos.push(nanos).is_err() {
            return Err(Unmade::AllocError);
        }
        Ok(())
    }

    /// The spread of the times, where there are any.
    pub fn spread(&mut self) -> Option<Spread> {
        if self.nanos.is_empty() {
            return None;
        }
        Some(spread_of(&mut self.nanos))
    }
}
