//! What the lines of a text are, counted.
ghost use Rattle.std.specs.Prelude.{◌≡◌};
ghost use Rattle.zp_kernel.specs.Lines.{IsLostSaid, IsUnkeptSaid, IsRemark, no_lines, with_broken, with_event, with_named, with_other, event_count};

use crate::event_counts::one_more;
use zp_events::{Action, buffer_entries, holds_event_name, lost_events};

/// How many lines of each kind a text has. A count stays at the largest number.
#[derive(Clone, Copy, PartialEq, Eq, Debug, Drop)]
pub struct LineCounts {
    pub lines: u64,
    /// Blocks that the kernel handed out.
    pub allocs: u64,
    /// Requests that it refused.
    pub refusals: u64,
    pub frees: u64,
    /// Requests that it met out of the free pages of another type.
    pub fallbacks: u64,
    /// Broken lines that were passed over.
    pub broken: u64,
    /// Lines that are none of a page event.
    pub others: u64,
    /// Of these the ones that hold an event's name.
    pub named: u64,
    /// The number of the first one of them, from 1 on; 0 where there is none.
    pub first_named: u64,
    /// Events that were lost, by reports of lost ones.
    pub lost: u64,
    /// Events that a buffer did not keep, by its head.
    pub unkept: u64,
}

/// What a line that is none of a page event reports of such events.
#[derive(Clone, Copy, PartialEq, Eq, Debug, Drop)]
pub struct Remark {
    /// It holds an event's name.
    pub is_named: bool,
    /// So many events are lost.
    pub lost: u64,
    /// So many events were written to the buffer and are not there.
    pub unkept: u64,
}

/// How many events a line says are lost.
fn lost_of(line: &[u8]) -> u64
    ensures { IsLostSaid line.now result }
{
    match lost_events(line) {
        Some(lost) => lost,
        None => 0,
    }
}

/// How many events a line says a buffer did not keep.
fn unkept_of(line: &[u8]) -> u64
    ensures { IsUnkeptSaid line.now result }
{
    match buffer_entries(line) {
        Some(entries) => entries.written.saturating_sub(entries.kept),
        None => 0,
    }
}

/// What a line that is none of a page event reports of such events.
pub fn remark_of(line: &[u8]) -> Remark
    ensures { IsRemark line.now result }
{
    Remark {
        is_named: holds_event_name(line),
        lost: lost_of(line),
        unkept: unkept_of(line),
    }
}

impl LineCounts {
    /// Of no line.
    pub fn none() -> LineCounts
        ensures { result ≡ no_lines }
    {
        LineCounts {
            lines: 0,
            allocs: 0,
            refusals: 0,
            frees: 0,
            fallbacks: 0,
            broken: 0,
            others: 0,
            named: 0,
            first_named: 0,
            lost: 0,
            unkept: 0,
        }
    }

    /// How many lines are events.
    pub fn events(&self) -> u64
        ensures { result ≡ event_count self.now }
    {
        let requests = self.allocs.saturating_add(self.refusals);
        requests
            .saturating_add(self.frees)
            .saturating_add(self.fallbacks)
    }

    /// One line more, an event.
    pub fn note_event(&mut self, action: &Action)
        ensures { self.new ≡ with_event action.now self.old }
    {
        self.lines = one_more(self.lines);
        match action {
            Action::Alloc(..) => self.allocs = one_more(self.allocs),
            Action::Refuse(..) => self.refusals = one_more(self.refusals),
            Action::Free(..) => self.frees = one_more(self.frees),
            Action::Fallback => self.fallbacks = one_more(self.fallbacks),
        }
    }

    /// One line more, none of an event, of which this is to be reported.
    pub fn note_other(&mut self, remark: Remark)
        ensures { self.new ≡ with_other remark self.old }
    {
        self.lines = one_more(self.lines);
        self.others = one_more(self.others);
        self.lost = self.lost.saturating_add(remark.lost);
        self.unkept = self.unkept.saturating_add(remark.unkept);
        if remark.is_named {
            self.note_named();
        }
    }

    /// The line holds an event's name.
    fn note_named(&mut self)
        ensures { self.new ≡ with_named self.old }
    {
        if self.named == 0 {
            self.first_named = self.lines;
        }
        self.named = one_more(self.named);
    }

    /// One line more, a broken one that is passed over.
    pub fn note_broken(&mut self)
        ensures { self.new ≡ with_broken self.old }
    {
        self.lines = one_more(self.lines);
        self.broken = one_more(self.broken);
    }
}
