//! Text that is gathered in place.
ghost use Rattle.std.specs.Prelude.{◌≡◌, ◌<◌, ◌≤◌, ◌+◌, ◌++◌, [], length};
ghost use Rattle.std.specs.Fmt.{decimal};
ghost use Rattle.zp_model.specs.Info.{number_field};

use itoa::write_digits;
use std::marker::Model;
use zp_model::NUMBER_PLACES;

/// The most digits of a number of 32 bits.
pub const DIGITS: usize = 10;

/// The least number that has more digits than a line of counts has places for it.
const LONG: u32 = 1_000_000;

/// An empty field: the places of a number, and a space.
const FIELD: &str = "       ";

/// At most `CAP` bytes of text, which lie in the value itself: what is appended is written once, where it stays.
#[derive(Drop)]
pub struct TextBuffer<const CAP: usize> {
    bytes: [u8; CAP],
    len: usize,
}

impl<const CAP: usize> Model for TextBuffer<CAP> {
    ghost use Rattle.std.specs.Prelude.{ℕ, List, ◌≡◌, ◌≤◌, length, take};

    ghost Value = { List ℕ };

    ghost view = { λ t. take t.len t.bytes };

    ghost invariant = { λ t. (t.len ≤ CAP) × (length t.bytes ≡ CAP) };
}

impl<const CAP: usize> TextBuffer<CAP> {
    /// No text.
    #[inline(always)]
    pub fn new() -> TextBuffer<CAP>
        ensures { result ≡ [] }
    {
        TextBuffer {
            bytes: [0; CAP],
            len: 0,
        }
    }

    /// How many bytes the text has.
    #[inline]
    pub fn len(&self) -> usize
        ensures value { result ≡ length self.now }
        ensures within { result ≤ CAP }
    {
        self.len
    }

    /// The text.
    #[inline]
    pub fn as_bytes(&self) -> &[u8]
        ensures { result.now ≡ self.now }
    {
        &self.bytes[..self.len]
    }

    /// No text any more.
    #[inline]
    pub fn clear(&mut self)
        ensures { self.new ≡ [] }
    {
        self.len = 0;
    }

    /// Appends a text.
    #[inline(always)]
    pub fn push(&mut self, text: &str)
        requires { length self.old + length text.now ≤ CAP }
        ensures bytes { self.new ≡ self.old ++ text.now }
        ensures len { length self.new ≡ length self.old + length text.now }
    {
        let start = self.len;
        let end = start + text.len();
        let bytes = &mut self.bytes[..];
        bytes[start..end].copy_from_slice(text.as_bytes());
        self.len = end;
    }

    /// Appends a number.
    #[inline]
    pub fn push_number(&mut self, number: u32)
        requires { length self.old + DIGITS ≤ CAP }
        ensures bytes { self.new ≡ self.old ++ decimal number }
        ensures len { length self.new ≤ length self.old + DIGITS }
    {
        let end = self.len + digits_of(number);
        write_digits(u64::from(number), &mut self.bytes, end);
        self.len = end;
    }

    /// Appends a number, right-aligned in its places, and a space.
    #[inline]
    pub fn push_field(&mut self, number: u32)
        requires { length self.old + DIGITS + 1 ≤ CAP }
        ensures bytes { self.new ≡ self.old ++ number_field number }
        ensures len { length self.new ≤ length self.old + DIGITS + 1 }
    {
        if number < LONG {
            self.push_short_field(number);
        } else {
            self.push_number(number);
            self.push(" ");
        }
    }

    /// The same of a number that has places for all its digits.
    #[inline(always)]
    fn push_short_field(&mut self, number: u32)
        requires short { number < LONG }
        requires room { length self.old + NUMBER_PLACES + 1 ≤ CAP }
        ensures bytes { self.new ≡ self.old ++ number_field number }
        ensures len { length self.new ≡ length self.old + NUMBER_PLACES + 1 }
    {
        let start = self.len;
        let end = start + NUMBER_PLACES;
        let bytes = &mut self.bytes[..];
        bytes[start..end + 1].copy_from_slice(FIELD.as_bytes());
        write_digits(u64::from(number), bytes, end);
        self.len = end + 1;
    }
}

/// How many digits a number has.
#[inline]
fn digits_of(number: u32) -> usize
    ensures digits { result ≡ length (decimal number) }
    ensures within { result ≤ DIGITS }
{
    if number < 10 {
        1
    } else if number < 100 {
        2
    } else if number < 1_000 {
        3
    } else if number < 10_000 {
        4
    } else if number < 100_000 {
        5
    } else if number < 1_000_000 {
        6
    } else if number < 10_000_000 {
        7
    } else if number < 100_000_000 {
        8
    } else if number < 1_000_000_000 {
        9
    } else {
        10
    }
}
