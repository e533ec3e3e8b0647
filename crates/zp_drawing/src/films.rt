//! A film: the zones of a trace, and the rows that were seen last.
ghost use Rattle.std.specs.Prelude.{◌≡◌, IfOk, replicate, vec_len};

use std::alloc::{AllocError, Global};

/// The pixels left of the cells, above them, and between two zones.
pub const LEFT: usize = 70;

pub const TOP: usize = 64;

pub const GAP: usize = 8;

/// The cells of one zone in each row.
#[derive(Clone, Copy, PartialEq, Eq, Debug, Drop)]
pub struct Strip {
    /// The first cell, among those of all zones.
    pub cell: usize,
    /// How many cells there are.
    pub cells: usize,
    /// Where the zone begins, in pixels.
    pub left: usize,
}

/// The rows of a film so far: those last seen, which are alike, are not written yet.
#[derive(Drop)]
pub struct Film {
    pub(crate) strips: Vec<Strip>,
    /// The size of a cell, in pixels.
    pub(crate) width: usize,
    pub(crate) height: usize,
    pub(crate) shown: Vec<usize>,
    pub(crate) next: Vec<usize>,
    pub(crate) top: usize,
    pub(crate) alike: usize,
    ghost even: { vec_len next ≡ vec_len shown },
}

impl Film {
    /// A film with these strips, of so many cells, before its first row.
    pub fn new(
        alloc: Global,
        strips: Vec<Strip>,
        cells: usize,
        width: usize,
        height: usize,
    ) -> Result<Film, AllocError>
        ensures strips { IfOk result (λ film. film.strips ≡ strips) }
        ensures cells { IfOk result (λ film. film.shown.items ≡ replicate cells 0) }
        ensures size { IfOk result (λ film. (film.width ≡ width) × (film.height ≡ height)) }
        ensures none { IfOk result (λ film. (film.top ≡ 0) × (film.alike ≡ 0)) }
    {
        let shown = Vec::from_elem(alloc, 0, cells)?;
        let next = Vec::from_elem(alloc, 0, cells)?;
        Ok(Film {
            strips,
            width,
            height,
            shown,
            next,
            top: 0,
            alike: 0,
        })
    }
}
