//! Cells of a picture: neighbouring pages that are shown as one, by the state that most of them have.
ghost use Rattle.std.specs.Prelude.{◌≡◌, ◌<◌, ◌≤◌, ◌*◌, ℕ, IfOk, length, vec_len, replicate, slice_index_or};
ghost use Rattle.zp_drawing.specs.declared.cells.TheConstants.{KINDS};
ghost use Rattle.zp_drawing.specs.Kinds.{Occurs, kind_number, kind_of};
ghost use Rattle.zp_drawing.specs.Tallies.{IsFirstMost, count_of, counts_in, counts_with};

use std::alloc::{AllocError, Global};
use zp_view::PageState;

/// How many kinds of pages a picture tells apart.
pub const KINDS: usize = 76;

const FIRST_OUT: usize = 11;

const FIRST_CACHED: usize = 43;

const POSTED: usize = 75;

/// What a picture tells apart: free pages by order, pages that are out and pages in lists by worker, and posted ones.
#[derive(Clone, Copy, PartialEq, Eq, Debug, Drop)]
pub enum Kind {
    Free(usize),
    Out(usize),
    Cached(usize),
    Posted,
}

impl Kind {
    /// The kind of pages in this state.
    pub fn of(state: PageState) -> Kind
        ensures kind { result ≡ kind_of state }
        ensures occurs { Occurs result }
    {
        match state {
            PageState::Free(order) => Kind::Free(order.index()),
            PageState::Out(worker) => Kind::Out(usize::from(worker.number())),
            PageState::Cached(worker) => Kind::Cached(usize::from(worker.number())),
            PageState::Posted(_) => Kind::Posted,
        }
    }

    /// Its place among all kinds: an order or a worker past the last counts as the last.
    pub fn number(self) -> usize
        ensures place { result ≡ kind_number self }
        ensures within { result < KINDS }
    {
        match self {
            Kind::Free(order) => order.min(FIRST_OUT - 1),
            Kind::Out(worker) => FIRST_OUT + worker.min(31),
            Kind::Cached(worker) => FIRST_CACHED + worker.min(31),
            Kind::Posted => POSTED,
        }
    }

    /// The kind at this place, and posted past the last.
    pub fn at(number: usize) -> Kind
        ensures place { number < KINDS → kind_number result ≡ number }
        ensures past { KINDS ≤ number → result ≡ Kind.Posted }
        ensures occurs { Occurs result }
    {
        if number < FIRST_OUT {
            Kind::Free(number)
        } else if number < FIRST_CACHED {
            Kind::Out(number - FIRST_OUT)
        } else if number < POSTED {
            Kind::Cached(number - FIRST_CACHED)
        } else {
            Kind::Posted
        }
    }
}

/// The place of the largest of these counts: where some are as large, the first.
fn first_most(counts: &[u32]) -> usize
    requires { 0 < length counts.now }
    ensures most { IsFirstMost counts.now result }
    ensures within { result < length counts.now }
{
    let mut best = 0;
    'kinds: for number in 1..counts.len() {
        if counts[number] > counts[best] {
            best = number;
        }
    }
    best
}

/// How many pages of each kind the cells of a row have.
#[derive(Drop)]
pub struct Tally {
    counts: Vec<u32>,
    cells: usize,
    ghost in_step: { vec_len counts ≡ cells * KINDS },
}

impl Tally {
    /// So many cells without a page.
    pub fn new(alloc: Global, cells: usize) -> Result<Tally, AllocError>
        ensures cells { IfOk result (λ tally. tally.cells ≡ cells) }
        ensures empty { IfOk result (λ tally. tally.counts.items ≡ replicate (cells * KINDS) 0) }
    {
        let Some(places) = cells.checked_mul(KINDS) else {
            return Err(AllocError);
        };
        let counts = Vec::from_elem(alloc, 0, places)?;
        Ok(Tally { counts, cells })
    }

    /// How many cells there are.
    pub fn cells(&self) -> usize
        ensures { result ≡ self.now.cells }
    {
        self.cells
    }

    /// Adds pages of a kind to a cell, up to the largest count; nothing where there is no such cell.
    pub fn add(&mut self, cell: usize, kind: Kind, pages: u32)
        ensures cells { self.new.cells ≡ self.old.cells }
        ensures added { cell < self.old.cells → self.new.counts.items ≡ counts_with self.old.counts.items cell kind pages }
        ensures past { self.old.cells ≤ cell → self.new.counts.items ≡ self.old.counts.items }
    {
        if cell < self.cells {
            let place = cell * KINDS + kind.number();
            let count = self.counts[place].saturating_add(pages);
            self.counts[place] = count;
        }
    }

    /// How many pages of a kind a cell has: none where there is no such cell.
    pub fn count(&self, cell: usize, kind: Kind) -> u32
        ensures counted { cell < self.now.cells → result ≡ count_of self.now.counts.items cell kind }
        ensures past { self.now.cells ≤ cell → result ≡ 0 }
    {
        if cell < self.cells {
            self.counts[cell * KINDS + kind.number()]
        } else {
            0
        }
    }

    /// The kind that most pages of a cell have: of those that are as many, the first, and so where there is no such cell.
    pub fn most(&self, cell: usize) -> Kind
        ensures most { cell < self.now.cells → IsFirstMost (counts_in self.now.counts.items cell) (kind_number result) }
        ensures past { self.now.cells ≤ cell → kind_number result ≡ 0 }
        ensures occurs { Occurs result }
    {
        if cell < self.cells {
            let place = cell * KINDS;
            Kind::at(first_most(&self.counts[place..place + KINDS]))
        } else {
            Kind::at(0)
        }
    }

    /// Takes all pages off the cells.
    pub fn clear(&mut self)
        ensures cells { self.new.cells ≡ self.old.cells }
        ensures empty { (n : ℕ) → n < length self.new.counts.items → slice_index_or self.new.counts.items n 0 ≡ 0 }
    {
        'counts: for count in self.counts.iter_mut() {
            *count = 0;
        }
    }
}
