//! The line on a terminal.

ghost use Rattle.std.specs.Prelude.{◌≡◌, false, None};

use crate::line::{CLEARED, ProgressLine};
use crate::pace::is_due;
use crate::told::Progress;
use std::env;
use std::rt::{Clock, Env};
use std::time::{Duration, Instant};

/// What is done, and what of it is counted.
#[derive(Clone, Copy, PartialEq, Eq, Debug, Drop)]
pub struct Task<'a> {
    pub name: &'a str,
    pub unit: &'a str,
}

/// Shows on standard error how far a task is.
pub struct ProgressMeter<'a, R: Eprint + Clock> {
    rt: &'a R,
    task: Task<'a>,
    /// When the task began, where somebody looks on.
    began: Option<Instant>,
    /// How long after that the last line was shown.
    shown: Option<Duration>,
    /// Whether a line stands there.
    stands: bool,
}

/// Whether a line can be written over where standard error goes: on a terminal that knows how.
pub fn is_watched(rt: &(impl Env + AllocGlobal), is_terminal: bool) -> bool
    ensures file { is_terminal ≡ false → result ≡ false }
{
    if !is_terminal {
        return false;
    }
    match env::var(rt, "TERM") {
        Ok(kind) => kind.as_str() != "dumb",
        Err(_) => false,
    }
}

impl<'a, R: Eprint + Clock> ProgressMeter<'a, R> {
    /// For a task that begins now. Where nobody looks on, and where there is no clock, it shows nothing.
    pub fn new(rt: &'a R, task: Task<'a>, is_watched: bool) -> ProgressMeter<'a, R>
        ensures silent { is_watched ≡ false → result.began ≡ None }
        ensures fresh { result.stands ≡ false }
    {
        ProgressMeter {
            rt,
            task,
            began: if is_watched {
                Instant::now(rt).ok()
            } else {
                None
            },
            shown: None,
            stands: false,
        }
    }

    /// Shows how far the task is, where a line is due.
    fn tell(&mut self, done: u64, of: Option<u64>)
        ensures silent { self.old.began ≡ None → self.new ≡ self.old }
    {
        let Some(began) = self.began else {
            return;
        };
        let Ok(passed) = began.elapsed(self.rt) else {
            return;
        };
        if is_due(passed, self.shown) {
            self.shown = Some(passed);
            let Task { name, unit } = self.task;
            self.show(ProgressLine {
                task: name,
                done,
                of,
                unit,
            });
        }
    }

    /// Writes over the line. Where standard error fails, the work goes on.
    fn show(&mut self, line: ProgressLine<'_>) {
        let _ = eprint!(self.rt; "{CLEARED}{line}");
        self.stands = true;
    }
}

impl<R: Eprint + Clock> Progress for ProgressMeter<'_, R> {
    fn at(&mut self, done: usize, of: usize)
        ensures silent { self.old.began ≡ None → self.new ≡ self.old }
    {
        self.tell(done as u64, Some(of as u64));
    }

    fn past(&mut self, done: u64)
        ensures silent { self.old.began ≡ None → self.new ≡ self.old }
    {
        self.tell(done, None);
    }

    fn clear(&mut self)
        ensures { self.new.stands ≡ false }
    {
        if self.stands {
            self.stands = false;
            let _ = eprint!(self.rt; "{CLEARED}");
        }
    }
}

/// A line that stands there goes with it, whatever became of the task.
impl<R: Eprint + Clock> Drop for ProgressMeter<'_, R> {
    fn drop(self) {
        let ProgressMeter {
            rt,
            task: _task,
            began: _began,
            shown: _shown,
            stands,
        } = self;
        if stands {
            let _ = eprint!(rt; "{CLEARED}");
        }
    }
}
