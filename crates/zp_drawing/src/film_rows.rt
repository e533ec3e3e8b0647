//! The rows of a film: pages from left to right, requests from top to bottom.
ghost use Rattle.std.specs.Prelude.{◌≡◌, ◌+◌, ◌↔◌, IsTrue, OnErr, OnOk, slice_index_or};
ghost use Rattle.zp_drawing.specs.Films.{IsPushed, IsRowOf, IsSeenAgain, IsSeenAsBefore, rows_with};

use crate::cells::{Kind, Tally};
use crate::films::{Film, Strip, TOP};
use crate::svg::{Rect, write_rect};
use std::io::Write;
use std::{io, mem};

impl Film {
    /// Whether the next row is the last one again.
    fn is_seen_again(&self) -> bool
        ensures { IsTrue result ↔ IsSeenAgain self.now self.now.next.items }
    {
        self.alike > 0 && self.next.as_slice() == self.shown.as_slice()
    }

    /// Puts down one row more: each cell is of the kind that most of its pages have.
    pub fn push<W: Write>(&mut self, writer: &mut W, tally: &Tally) -> io::Result<()>
        ensures ok { OnOk result (IsPushed self.old self.new tally.now) }
        // What was seen before can still be written.
        ensures err { OnErr result (IsSeenAsBefore self.old self.new) }
    {
        fill_row(&mut self.next, tally);
        if self.is_seen_again() {
            self.alike = self.alike.saturating_add(1);
            return Ok(());
        }
        self.finish(writer)?;
        mem::swap(&mut self.shown, &mut self.next);
        self.alike = 1;
        Ok(())
    }

    /// Writes the rows that were not written yet.
    pub fn finish<W: Write>(&mut self, writer: &mut W) -> io::Result<()>
        ensures ok { OnOk result (self.new ≡ record self.old { top = rows_with self.old.top self.old.alike; alike = 0 }) }
        ensures err { OnErr result (self.new ≡ self.old) }
    {
        let y = TOP.saturating_add(self.top.saturating_mul(self.height));
        let height = self.alike.saturating_mul(self.height);
        if self.alike > 0 {
            for strip in self.strips.iter() {
                write_strip(writer, *strip, self.shown.as_slice(), self.width, y, height)?;
            }
        }
        self.top = self.top.saturating_add(self.alike);
        self.alike = 0;
        Ok(())
    }
}

/// Puts down of each cell the kind that most of its pages have.
fn fill_row(row: &mut [usize], tally: &Tally)
    ensures { IsRowOf tally.now row.new }
{
    'cells: for (cell, kind) in row.iter_mut().enumerate() {
        *kind = tally.most(cell).number();
    }
}

/// The kind of a cell of a strip.
fn kind_at(strip: Strip, kinds: &[usize], cell: usize) -> usize
    ensures { result ≡ slice_index_or kinds.now (strip.cell + cell) 0 }
{
    kinds
        .get(strip.cell.saturating_add(cell))
        .copied()
        .unwrap_or(0)
}

/// Writes the cells of one zone in rows that are alike: a rectangle for each run of equal cells.
fn write_strip<W: Write>(
    writer: &mut W,
    strip: Strip,
    kinds: &[usize],
    width: usize,
    y: usize,
    height: usize,
) -> io::Result<()> {
    let mut from = 0;
    for cell in 0..strip.cells {
        let end = cell.saturating_add(1);
        let kind = kind_at(strip, kinds, from);
        if end < strip.cells && kind_at(strip, kinds, end) == kind {
            continue;
        }
        let rect = Rect {
            x: strip.left.saturating_add(from.saturating_mul(width)),
            y,
            width: end.saturating_sub(from).saturating_mul(width),
            height,
        };
        write_rect(writer, rect, Kind::at(kind))?;
        from = end;
    }
    Ok(())
}
