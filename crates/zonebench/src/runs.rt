//! The requests for runs of pages: how long they take, and so many of them, to be counted.

use crate::check::Sum;
use crate::clock::timed;
use std::alloc::Global;
use std::rt::Clock;
use zp_loads::{Checksum, LoadSource, SeatSource, Unmade};
use zp_model::{PageNo, Refused};

/// How often all runs are allocated and freed, where that is timed.
const ROUNDS: u32 = 100;

/// How a run is asked for.
#[derive(Clone, Copy, PartialEq, Eq, Debug, Drop)]
pub enum RunRequest {
    /// As the lowest one.
    Lowest,
    /// By its first page.
    At,
}

/// Which of the calls are timed.
#[derive(Clone, Copy, PartialEq, Eq, Debug, Drop)]
pub enum RunCall {
    Alloc,
    /// A free; a test and the free after it count as one.
    Free,
}

/// Runs of so many pages, side by side from the zone's first page on. All are allocated, and then freed, both times the lowest one first.
#[derive(Clone, Copy, Drop)]
pub struct RunLoad {
    request: RunRequest,
    /// The pages of each run.
    pages: u32,
    /// The runs, where the zone has so many.
    most: u32,
}

const LOWEST_37: RunLoad = RunLoad {
    request: RunRequest::Lowest,
    pages: 37,
    most: 1000,
};

const AT_37: RunLoad = RunLoad {
    request: RunRequest::At,
    pages: 37,
    most: 1000,
};

const LOWEST_1000: RunLoad = RunLoad {
    request: RunRequest::Lowest,
    pages: 1000,
    most: 60,
};

const AT_1000: RunLoad = RunLoad {
    request: RunRequest::At,
    pages: 1000,
    most: 60,
};

/// The calls of which a table has a line.
pub const LINES: [(&str, RunLoad, RunCall); 6] = [
    ("alloc_run of 37 pages", LOWEST_37, RunCall::Alloc),
    ("alloc_run_at of 37 pages", AT_37, RunCall::Alloc),
    ("free_run of 37 pages", AT_37, RunCall::Free),
    ("alloc_run of 1000 pages", LOWEST_1000, RunCall::Alloc),
    ("alloc_run_at of 1000 pages", AT_1000, RunCall::Alloc),
    ("free_run of 1000 pages", AT_1000, RunCall::Free),
];

impl RunLoad {
    /// The load of this name.
    pub fn named(name: &str) -> Option<RunLoad> {
        match name {
            "alloc-run-37" => Some(LOWEST_37),
            "alloc-run-at-37" => Some(AT_37),
            "alloc-run-1000" => Some(LOWEST_1000),
            "alloc-run-at-1000" => Some(AT_1000),
            _ => None,
        }
    }

    /// How many runs there are in a zone of so many pages.
    fn runs_in(self, pages: u32) -> u32 {
        self.most.min(pages / self.pages.max(1))
    }

    /// Allocates the run at this page. Where the pages before it are lent and it is free, it is the lowest one.
    fn alloc(self, source: &mut SeatSource<10>, page: PageNo) -> Result<PageNo, Refused> {
        match self.request {
            RunRequest::Lowest => source.take_run(self.pages),
            RunRequest::At => source.take_run_at(page, self.pages),
        }
    }

    /// Allocates so many runs; their first pages count into the checksum.
    fn alloc_all(self, source: &mut SeatSource<10>, runs: u32, checksum: &mut Checksum) {
        let mut first: u32 = 0;
        for _ in 0..runs {
            let page = self.alloc(source, PageNo::new(first)).ok();
            checksum.add_page(&page);
            first = first.saturating_add(self.pages);
        }
    }

    /// Frees so many runs.
    fn free_all(self, source: &mut SeatSource<10>, runs: u32) {
        let mut first: u32 = 0;
        for _ in 0..runs {
            source.give_run(PageNo::new(first), self.pages);
            first = first.saturating_add(self.pages);
        }
    }

    /// About so many calls in a zone of so many pages, half of them frees.
    pub fn sum(self, alloc: Global, pages: u32, calls: u32) -> Result<Sum, Unmade> {
        let mut source = SeatSource::<10>::new(alloc, pages)?;
        let mut checksum = Checksum::new();
        let runs = self.runs_in(pages);
        let rounds = calls / 2 / runs.max(1);
        for _ in 0..rounds {
            self.alloc_all(&mut source, runs, &mut checksum);
            self.free_all(&mut source, runs);
        }
        Ok(Sum {
            calls: (2 * u64::from(rounds)).saturating_mul(u64::from(runs)),
            checksum: checksum.value(),
        })
    }

    /// Tenths of a nanosecond that such a call takes in a zone of so many pages.
    pub fn tenths_a_call(
        self,
        rt: &impl Clock,
        alloc: Global,
        call: RunCall,
        pages: u32,
    ) -> anyhow::Result<u128> {
        let mut source = SeatSource::<10>::new(alloc, pages)?;
        let mut checksum = Checksum::new();
        let runs = self.runs_in(pages);
        let mut nanos: u128 = 0;
        for _ in 0..ROUNDS {
            let ((), allocating) = timed(rt, || self.alloc_all(&mut source, runs, &mut checksum))?;
            let ((), freeing) = timed(rt, || self.free_all(&mut source, runs))?;
            let time = match call {
                RunCall::Alloc => allocating,
                RunCall::Free => freeing,
            };
            nanos = nanos.saturating_add(time.as_nanos());
        }
        let calls = u64::from(ROUNDS) * u64::from(runs);
        Ok(nanos.saturating_mul(10) / u128::from(calls.max(1)))
    }
}
