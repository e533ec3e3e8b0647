//! How far a table is.

use std::rt::Clock;
use zp_progress::{Progress, ProgressMeter, Task};

/// How many of a table's measurements are made. A terminal shows it after each one, and never while one is made.
#[derive(Drop)]
pub struct Steps<P: Progress + Drop> {
    progress: P,
    done: usize,
    of: usize,
}

/// None of the measurements of a table is made, which begins now: what is counted, and how many they are.
pub fn begun<'a, R: Eprint + Clock>(
    rt: &'a R,
    task: Task<'a>,
    of: usize,
    is_watched: bool,
) -> Steps<ProgressMeter<'a, R>> {
    Steps {
        progress: ProgressMeter::new(rt, task, is_watched),
        done: 0,
        of,
    }
}

impl<P: Progress + Drop> Steps<P> {
    /// One more is made.
    pub fn step(&mut self) {
        self.done = self.done.saturating_add(1);
        self.progress.at(self.done, self.of);
    }

    /// What is measured at each of these places of a line, one after the other.
    pub fn at_each<A: Copy + Drop, F: Fn(A) -> anyhow::Result<u128>, const N: usize>(
        &mut self,
        places: [A; N],
        measure: F,
    ) -> anyhow::Result<[u128; N]>
        requires { F.IsAlwaysCallable measure }
    {
        let mut line = [0; N];
        for place in 0..N {
            line[place] = measure(places[place])?;
            self.step();
        }
        Ok(line)
    }

    /// Clears what was shown, since a line of the table is about to be printed.
    pub fn clear(&mut self) {
        self.progress.clear();
    }
}
