//! Texts that are read off a reader which gives pieces and can fail.
ghost use Rattle.std.specs.Prelude.{◌≡◌, ◌<◌, None};

use std::alloc::Global;
use std::io;
use std::marker::Brand;
use std::sync::ledger::{Blank, Ledger};
use std::test::*;
use zp_events::{AtBroken, LineSink, Lines, PageEvent, TextFault, read_lines};
use zp_streams::{Failures, ReadFault, Reader};

/// Gives at most so many bytes at a time, and fails at one call, counted from 0.
#[derive(Drop)]
struct Pieces<'a, L: Ledger> {
    rest: &'a [u8],
    piece: usize,
    until_failure: u64,
    failures: Failures<L>,
}

impl<'a, L: Ledger> Reader for Pieces<'a, L> {
    ghost remaining = { λ p. None };

    ghost failures = { λ p. p.failures };

    fn read(&mut self, buffer: &mut [u8]) -> Result<usize, ReadFault> {
        if self.until_failure == 0 {
            self.failures.add();
            return Err(ReadFault);
        }
        self.until_failure -= 1;
        let count = self.piece.min(self.rest.len()).min(buffer.len());
        let (piece, rest) = self.rest.split_at(count);
        buffer[..count].copy_from_slice(piece);
        self.rest = rest;
        Ok(count)
    }
}

/// Counts what it receives, and fails once it has received so much.
#[derive(Drop)]
struct Counter {
    events: u64,
    others: u64,
    broken: u64,
    most: u64,
}

impl Counter {
    /// What it returns once it has counted.
    fn answer(&self) -> io::Result<()> {
        let told = self
            .events
            .saturating_add(self.others)
            .saturating_add(self.broken);
        if told > self.most {
            return Err(io::ErrorKind::Other.into());
        }
        Ok(())
    }
}

impl LineSink for Counter {
    ghost carries = { λ s e t. Unit {0} };

    ghost passes = { λ s line t. Unit {0} };

    ghost drops = { λ s t. Unit {0} };

    ghost fails = { λ s t. Unit {0} };

    fn event(&mut self, _event: &PageEvent) -> io::Result<()> {
        self.events = self.events.saturating_add(1);
        self.answer()
    }

    fn other(&mut self, _line: &[u8]) -> io::Result<()> {
        self.others = self.others.saturating_add(1);
        self.answer()
    }

    fn broken(&mut self) -> io::Result<()> {
        self.broken = self.broken.saturating_add(1);
        self.answer()
    }
}

/// How a text is read: bytes of a piece, the call that fails, what is done at a broken line, and what the sink bears.
type Reading = (usize, u64, AtBroken, u64);

/// How the reading ends, as a word and a number, and how many events, other lines and broken ones were reported.
type Ended = (&'static str, u64, u64, u64, u64);

/// The end as a word and a number.
fn ending(read: Result<u64, TextFault>) -> (&'static str, u64) {
    match read {
        Ok(lines) => ("read", lines),
        Err(TextFault::Broken(number)) => ("broken", number),
        Err(TextFault::TooLong(number)) => ("too long", number),
        Err(TextFault::TooMany) => ("too many", 0),
        Err(TextFault::Read) => ("failed", 0),
        Err(TextFault::Sink(_error)) => ("refused", 0),
    }
}

/// Reads a text.
fn read_text<L: Ledger>(alloc: Global, text: &[u8], reading: Reading, blank: Blank) -> Ended
    requires name { blank.name ≡ L.name }
    requires parts { blank.parts ≡ L.parts }
    requires some { 0 < blank.parts }
{
    let (piece, until_failure, at_broken, most) = reading;
    let reader = Pieces {
        rest: text,
        piece,
        until_failure,
        failures: Failures::<L>::new(blank),
    };
    let mut counter = Counter {
        events: 0,
        others: 0,
        broken: 0,
        most,
    };
    let Ok(mut lines) = Lines::new(alloc, reader) else {
        return ("no memory", 0, 0, 0, 0);
    };
    let (word, number) = ending(read_lines(&mut lines, &mut counter, at_broken));
    (word, number, counter.events, counter.others, counter.broken)
}

/// The same, with a ledger of its own.
fn ended(alloc: Global, text: &[u8], reading: Reading) -> Ended {
    let blank = Blank::new(1);
    read_text::<Brand>(alloc, text, reading, blank)
}

const TEXT: &str =
    "# head\n [1] 2.9:  mm_page_free: page=1 pfn=7 order=0\n [1] 2.9: mm_page_free: page=1\n\nlast";

const READINGS: [(Reading, Ended); 7] = [
    ((1, 1_000, AtBroken::KeepGoing, 9), ("read", 5, 1, 3, 1)),
    ((4_096, 9, AtBroken::KeepGoing, 9), ("read", 5, 1, 3, 1)),
    ((7, 1_000, AtBroken::End, 9), ("broken", 3, 1, 1, 0)),
    ((1, 6, AtBroken::End, 9), ("failed", 0, 0, 0, 0)),
    ((1, 20, AtBroken::End, 9), ("failed", 0, 0, 1, 0)),
    ((100, 1, AtBroken::KeepGoing, 9), ("failed", 0, 1, 2, 1)),
    ((4_096, 9, AtBroken::KeepGoing, 2), ("refused", 0, 1, 1, 1)),
];

#[test]
fn texts_are_read_to_where_they_end(rt: HostRuntime) {
    for (reading, told) in &READINGS {
        assert!(rt; ended(rt.alloc(), TEXT.as_bytes(), *reading) == *told);
    }
}

/// A line of so many bytes is read.
fn long_line_ended(alloc: Global, length: usize) -> Ended {
    let Ok(line) = vec![in alloc; b'x'; length] else {
        return ("no memory", 0, 0, 0, 0);
    };
    ended(alloc, &line, (4_096, 1_000, AtBroken::End, 9))
}

const LONG_LINES: [(usize, Ended); 3] = [
    (65_536, ("read", 1, 0, 1, 0)),
    (65_537, ("too long", 1, 0, 0, 0)),
    (200_000, ("too long", 1, 0, 0, 0)),
];

#[test]
fn long_lines_are_told_apart(rt: HostRuntime) {
    for (length, told) in &LONG_LINES {
        assert!(rt; long_line_ended(rt.alloc(), *length) == *told);
    }
}
