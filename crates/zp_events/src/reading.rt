//! A reader, line by line.
ghost use Rattle.std.specs.Prelude.{◌≡◌, ◌≢◌, ◌<◌, ◌≤◌, ◌+◌, [], Err, None, IfErr, IfOk, MatchBool};
ghost use Rattle.zp_events.specs.Reading.{HasNoLineFeed, IsAhead, IsOver, IsReadOn, IsTooLong, behind_line, is_unended, line_ahead, passed_with, spot};

use crate::window::Window;
use crate::words::place_of_byte;
use std::alloc::{AllocError, Global};
use zp_streams::Reader;

/// The most bytes of a line, without its line feed.
pub const LONGEST_LINE: usize = 65_536;

/// Why there is no next line.
#[derive(Clone, Copy, PartialEq, Eq, Debug, Drop)]
pub enum LineFault {
    /// The reader failed.
    Read,
    /// The next line has more than `LONGEST_LINE` bytes.
    TooLong,
}

/// A reader, line by line. It keeps the longest line and a chunk at most.
#[derive(Drop)]
pub struct Lines<R: Reader> {
    window: Window,
    reader: R,
    /// How long the line is that `peek` found.
    ahead: Option<usize>,
    passed: u64,
}

/// The length of a line, where it is not too long.
fn line_within(length: usize) -> Result<usize, LineFault>
    ensures ok { IfOk result (λ n. (n ≡ length) × (length ≤ LONGEST_LINE)) }
    ensures err { IfErr result (λ e. (e ≡ LineFault.TooLong) × (LONGEST_LINE < length)) }
{
    if length > LONGEST_LINE {
        return Err(LineFault::TooLong);
    }
    Ok(length)
}

impl<R: Reader + Drop> Lines<R> {
    /// All the lines that a reader has left. It takes all the memory that it ever takes.
    pub fn new(alloc: Global, reader: R) -> Result<Lines<R>, AllocError>
        ensures window { IfOk result (λ lines. lines.window ≡ []) }
        ensures reader { IfOk result (λ lines. lines.reader ≡ reader) }
        ensures ahead { IfOk result (λ lines. lines.ahead ≡ None) }
        ensures passed { IfOk result (λ lines. lines.passed ≡ 0) }
    {
        let window = Window::new(alloc)?;
        Ok(Lines {
            window,
            reader,
            ahead: None,
            passed: 0,
        })
    }
}

impl<R: Reader> Lines<R> {
    /// Whether there is a next line, which `line` then returns and `pass` passes.
    pub fn peek(&mut self) -> Result<bool, LineFault>
        ensures read { IsReadOn (spot self.old.window (R.remaining self.old.reader) self.old.passed) (spot self.new.window (R.remaining self.new.reader) self.new.passed) }
        ensures found { IfOk result (λ more. MatchBool more (IsAhead (spot self.new.window (R.remaining self.new.reader) self.new.passed) self.new.ahead) (IsOver (spot self.new.window (R.remaining self.new.reader) self.new.passed))) }
        ensures too_long { result ≡ Err LineFault.TooLong → IsTooLong self.new.window }
        ensures no_more { result ≡ Err LineFault.Read → HasNoLineFeed self.new.window }
        ensures failed { result ≡ Err LineFault.Read → R.failures self.new.reader ≡ R.failures self.old.reader + 1 }
        ensures calm { result ≢ Err LineFault.Read → R.failures self.new.reader ≡ R.failures self.old.reader }
    {
        self.ahead = None;
        let mut searched = 0;
        'reads: loop {
            if let Some(end) = place_of_byte(&self.window.bytes()[searched..], b'\n') {
                self.ahead = Some(line_within(searched + end)?);
                return Ok(true);
            }
            searched = line_within(self.window.bytes().len())?;
            let Ok(count) = self.window.fill(&mut self.reader) else {
                return Err(LineFault::Read);
            };
            if count == 0 {
                if searched == 0 {
                    return Ok(false);
                }
                self.ahead = Some(searched);
                return Ok(true);
            }
        }
    }

    /// The line that `peek` found, without its line feed; nothing where it found none.
    pub fn line(&self) -> &[u8]
        ensures { result.now ≡ line_ahead self.now.ahead self.now.window }
    {
        let bytes = self.window.bytes();
        match self.ahead {
            Some(length) => &bytes[..length.min(bytes.len())],
            None => &bytes[..0],
        }
    }

    /// Whether the line that `peek` found has no line feed, as the last one may lack it.
    pub fn is_unended(&self) -> bool
        ensures { result ≡ is_unended self.now.ahead self.now.window }
    {
        match self.ahead {
            Some(length) => self.window.bytes().len() <= length,
            None => false,
        }
    }

    /// How many lines were passed.
    pub fn passed(&self) -> u64
        ensures { result ≡ self.now.passed }
    {
        self.passed
    }

    /// Passes the line that `peek` found, with its line feed; does nothing where it found none.
    pub fn pass(&mut self)
        ensures window { self.new.window ≡ behind_line self.old.ahead self.old.window }
        ensures passed { self.new.passed ≡ passed_with self.old.ahead self.old.passed }
        ensures ahead { self.new.ahead ≡ None }
        ensures reader { self.new.reader ≡ self.old.reader }
    {
        if let Some(length) = self.ahead {
            let whole = length.saturating_add(1).min(self.window.bytes().len());
            self.window.pass(whole);
            self.passed = self.passed.saturating_add(1);
            self.ahead = None;
        }
    }
}
