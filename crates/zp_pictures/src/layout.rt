//! How many pages and requests a cell of a film puts together, and where the cells of each zone are.
use std::alloc::{AllocError, Global};
use zp_drawing::{GAP, LEFT, Strip};
use zp_model::TRACE_ZONES;
use zp_trace::ZoneLine;

/// The most cells in each direction.
const MOST_CELLS: usize = 2_000;

/// The pixels that a film of few cells is to have, and the most that a cell has.
const FIELD_WIDTH: usize = 930;

const FIELD_HEIGHT: usize = 560;

const WIDEST: usize = 16;

/// The cells of a film.
#[derive(Clone, Copy, PartialEq, Eq, Debug, Drop)]
pub struct Layout {
    /// How many pages a cell has, and how many states of the zones, each after one request more.
    pub pages: u32,
    pub states: usize,
    /// How many cells there are from left to right, and from top to bottom.
    pub cells: usize,
    pub rows: usize,
    /// The size of a cell, in pixels.
    pub width: usize,
    pub height: usize,
}

/// How many parts of this size so many have.
fn parts(all: usize, size: usize) -> usize {
    let size = size.max(1);
    let whole = all / size;
    if all % size == 0 {
        whole
    } else {
        whole.saturating_add(1)
    }
}

/// How many cells a zone has.
fn cells_of(line: &ZoneLine, pages: u32) -> usize {
    parts(line.pages as usize, pages as usize)
}

/// How many cells all zones have.
fn all_cells(lines: &[ZoneLine], pages: u32) -> usize {
    let mut cells = 0usize;
    for line in lines {
        cells = cells.saturating_add(cells_of(line, pages));
    }
    cells
}

/// The cells of a film of these zones, and of so many states.
pub fn lay_out(lines: &[ZoneLine], states: usize) -> Layout {
    let all = all_cells(lines, 1);
    let pages = parts(all, MOST_CELLS - TRACE_ZONES).max(1);
    let pages = u32::try_from(pages).unwrap_or(u32::MAX);
    let together = parts(states, MOST_CELLS).max(1);
    let cells = all_cells(lines, pages);
    let rows = parts(states, together);
    Layout {
        pages,
        states: together,
        cells,
        rows,
        width: (FIELD_WIDTH / cells.max(1)).max(1).min(WIDEST),
        height: (FIELD_HEIGHT / rows.max(1)).max(1).min(WIDEST),
    }
}

/// The strips of the zones, from left to right.
pub fn strips_of(
    alloc: Global,
    lines: &[ZoneLine],
    layout: &Layout,
) -> Result<Vec<Strip>, AllocError> {
    let mut strips = Vec::new(alloc);
    let mut cell = 0usize;
    let mut left = LEFT;
    for line in lines {
        let cells = cells_of(line, layout.pages);
        strips.push(Strip { cell, cells, left })?;
        let width = cells.saturating_mul(layout.width);
        cell = cell.saturating_add(cells);
        left = left.saturating_add(width).saturating_add(GAP);
    }
    Ok(strips)
}
