//! A reader of a text in memory, and a writer that digests what is written.

use crate::digest::Digest;
use zp_text::{ReadFault, Reader, WriteFault, Writer};

/// Gives the bytes of a text.
#[derive(Drop)]
pub struct TextReader<'a> {
    rest: &'a [u8],
}

impl<'a> TextReader<'a> {
    pub fn new(text: &'a [u8]) -> TextReader<'a> {
        TextReader { rest: text }
    }
}

impl<'a> Reader for TextReader<'a> {
    ghost use Rattle.std.specs.Prelude.{Some};

    ghost remaining = { λ r. Some r.rest.now };

    ghost failures = { λ _. 0 };

    fn read(&mut self, buffer: &mut [u8]) -> Result<usize, ReadFault> {
        let count = self.rest.len().min(buffer.len());
        let (piece, rest) = self.rest.split_at(count);
        buffer[..count].copy_from_slice(piece);
        self.rest = rest;
        Ok(count)
    }
}

/// Digests the bytes that it takes, and counts their lines.
#[derive(Drop)]
pub struct DigestWriter {
    digest: Digest,
    lines: u64,
}

impl DigestWriter {
    pub fn new() -> DigestWriter {
        DigestWriter {
            digest: Digest::new(),
            lines: 0,
        }
    }

    /// Of all bytes that were written.
    pub fn digest(&self) -> u64 {
        self.digest.value()
    }

    /// How many lines were written.
    pub fn lines(&self) -> u64 {
        self.lines
    }

    /// Takes a whole piece.
    fn take(&mut self, piece: &[u8]) {
        self.digest.add_bytes(piece);
        for byte in piece {
            self.lines = self.lines.wrapping_add(u64::from(*byte == b'\n'));
        }
    }
}

impl Writer for DigestWriter {
    ghost use Rattle.std.specs.Prelude.{None};

    ghost contents = { λ _. None };

    ghost failures = { λ _. 0 };

    fn write(&mut self, piece: &[u8]) -> Result<usize, WriteFault> {
        self.take(piece);
        Ok(piece.len())
    }
}
