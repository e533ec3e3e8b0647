//! A list of pages with room for all pages that a zone can have.
ghost use Rattle.std.specs.Prelude.{◌≡◌, ◌<◌, ◌≤◌, [], ◌∷◌, ◌++◌, length, replicate, IfOk};
ghost use Rattle.zp_plain.specs.declared.room.TheConstants.{PLAIN_PAGES};
ghost use Rattle.zp_model.specs.Rows.{after, front};

use crate::room::PLAIN_PAGES;
use std::alloc::{AllocError, Global};
use std::marker::Model;
use zp_model::PageAt;

/// A list of pages, the front first. It takes memory only when it is made.
#[derive(Drop)]
pub struct PageRow {
    pages: Vec<PageAt>,
}

impl Model for PageRow {
    ghost use Rattle.std.specs.Prelude.{List, ℕ, vec_capacity, ◌≤◌};
    ghost use Rattle.zp_plain.specs.declared.room.TheConstants.{PLAIN_PAGES};

    ghost Value = { List ℕ };

    ghost view = { λ r. r.pages.items };

    ghost invariant = { λ r. PLAIN_PAGES ≤ vec_capacity r.pages };
}

impl PageRow {
    pub fn new(alloc: Global) -> Result<PageRow, AllocError>
        ensures { IfOk result (λ r. r ≡ []) }
    {
        let pages = Vec::with_capacity(alloc, PLAIN_PAGES as usize)?;
        Ok(PageRow { pages })
    }

    pub fn as_slice(&self) -> &[PageAt]
        ensures { result.now ≡ self.now }
    {
        self.pages.as_slice()
    }

    pub fn front(&self) -> Option<PageAt>
        ensures { result ≡ front self.now }
    {
        self.pages.first().copied()
    }

    /// The page after this one.
    pub fn after(&self, page: PageAt) -> Option<PageAt>
        ensures { result ≡ after page self.now }
    {
        let mut left = self.pages.as_slice();
        'pages: while let Some((first, rest)) = left.split_first() {
            if *first == page {
                return rest.first().copied();
            }
            left = rest;
        }
        None
    }

    pub fn clear(&mut self)
        ensures { self.new ≡ [] }
    {
        self.pages.clear();
    }

    /// Puts a page at the end.
    pub fn push(&mut self, page: PageAt)
        requires { length self.old < PLAIN_PAGES }
        ensures { self.new ≡ self.old ++ page ∷ [] }
    {
        let _ = self.pages.push(page);
    }
}

/// So many empty lists.
pub fn empty_rows(alloc: Global, count: usize) -> Result<Vec<PageRow>, AllocError>
    ensures { IfOk result (λ v. v.items ≡ replicate count []) }
{
    let mut rows = Vec::with_capacity(alloc, count)?;
    for _ in 0..count {
        rows.push(PageRow::new(alloc)?)?;
    }
    Ok(rows)
}
