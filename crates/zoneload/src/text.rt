//! The text of a trace, line by line.

use crate::errors::Broken;
use itoa::Buffer;
use std::alloc::Global;
use zp_replay::INPUT_LIMIT;

/// The names of zones, the lowest first. Each zone has all the pages that a zone can have, and begins where the one before it ends.
pub const ZONES: [&str; 4] = ["DMA", "DMA32", "Normal", "Movable"];

/// The pages of a zone.
pub const PAGES: u32 = 65_536;

/// What workers' lists are: a batch, and the most pages of a list.
#[derive(Clone, Copy, PartialEq, Eq, Debug, Drop)]
pub enum Lists {
    None,
    Longest,
}

/// A text, with room for the longest trace, which is used again and again.
#[derive(Drop)]
pub struct Text {
    bytes: Vec<u8>,
    lines: usize,
}

impl Text {
    pub fn new(alloc: Global) -> Result<Text, Broken> {
        Ok(Text {
            bytes: Vec::with_capacity(alloc, INPUT_LIMIT)?,
            lines: 0,
        })
    }

    pub fn clear(&mut self) {
        self.bytes.clear();
        self.lines = 0;
    }

    pub fn as_bytes(&self) -> &[u8] {
        &self.bytes
    }

    /// How many lines were ended.
    pub fn lines(&self) -> usize {
        self.lines
    }

    /// A word, and a space behind it.
    pub fn word(&mut self, word: &str) -> Result<(), Broken> {
        self.bytes.extend_from_slice(word.as_bytes())?;
        self.bytes.extend_from_slice(b" ")?;
        Ok(())
    }

    /// A number, and a space behind it.
    pub fn number(&mut self, number: u32) -> Result<(), Broken> {
        let mut digits = Buffer::new();
        self.word(digits.format(number))
    }

    /// The label of a number.
    pub fn label(&mut self, number: u32) -> Result<(), Broken> {
        self.bytes.extend_from_slice(b"v")?;
        self.number(number)
    }

    /// The line's end comes in the place of the last space.
    pub fn end(&mut self) -> Result<(), Broken> {
        let _ = self.bytes.pop();
        self.bytes.extend_from_slice(b"\n")?;
        self.lines = self.lines.saturating_add(1);
        Ok(())
    }

    /// A zone line: the zone at this place.
    fn zone(&mut self, place: u32, name: &str, min: u32) -> Result<(), Broken> {
        self.word("zone")?;
        self.word(name)?;
        self.number(place.wrapping_mul(PAGES))?;
        self.number(PAGES)?;
        self.number(min)?;
        self.end()
    }

    /// A header of so many zones, the least mark of each of so many pages, and so many workers.
    pub fn header(
        &mut self,
        zones: usize,
        min: u32,
        workers: u32,
        lists: Lists,
    ) -> Result<(), Broken> {
        for (place, name) in ZONES.iter().enumerate() {
            if place < zones {
                self.zone(place as u32, name, min)?;
            }
        }
        self.word("workers")?;
        self.number(workers)?;
        self.end()?;
        self.word("lists")?;
        self.word(match lists {
            Lists::None => "0 0",
            Lists::Longest => "31 64",
        })?;
        self.end()
    }
}
