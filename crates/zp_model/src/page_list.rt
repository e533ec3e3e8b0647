//! Short lists of pages, as the entries of a journal keep them: the pages of a drain, and those that a refill got.
ghost use Rattle.std.specs.Prelude.{◌≡◌, ◌<◌, ◌≤◌, List, [], ◌∷◌, ◌++◌, length, ℕ};

use crate::constants::LONGEST_LIST;
use crate::page::PageNo;
use arrayvec::ArrayVec;
use std::marker::Model;

/// Absolute pages, at most `LONGEST_LIST`, in order, in place: creating one takes no memory.
#[derive(PartialEq, Eq, Debug, Drop)]
pub struct PageList {
    pages: ArrayVec<PageNo, LONGEST_LIST>,
}

impl Model for PageList {
    ghost use Rattle.std.specs.Prelude.{List, ℕ};

    ghost Value = { List ℕ };

    ghost view = { λ p. p.pages.items };

    ghost inverse = { λ ps. record { pages = record { items = ps } } };
}

impl PageList {
    pub fn new() -> PageList
        ensures { result ≡ [] }
    {
        PageList {
            pages: ArrayVec::new(),
        }
    }

    /// Puts a page at the end.
    pub fn push(&mut self, page: PageNo)
        requires { length self.old < LONGEST_LIST }
        ensures { self.new ≡ self.old ++ page ∷ [] }
    {
        self.pages.push(page);
    }

    /// These pages.
    pub fn of(pages: &[PageNo]) -> PageList
        requires { length pages.now ≤ LONGEST_LIST }
        ensures { result ≡ pages.now }
    {
        let mut list = ArrayVec::new();
        let Ok(()) = list.try_extend_from_slice(pages) else {
            unreachable!()
        };
        PageList { pages: list }
    }

    /// Holds these pages instead of those that it had.
    pub fn set(&mut self, pages: &[PageNo])
        requires { length pages.now ≤ LONGEST_LIST }
        ensures { self.new ≡ pages.now }
    {
        // most lists are as long as the one before: no place of it is cleared
        if self.pages.len() == pages.len() {
            self.pages.as_mut_slice().copy_from_slice(pages);
            return;
        }
        self.replace(pages);
    }

    /// The same, whatever it had.
    // (for requests of any kind, most of which have no list: no test of the length comes in line with them)
    #[inline(always)]
    pub fn replace(&mut self, pages: &[PageNo])
        requires { length pages.now ≤ LONGEST_LIST }
        ensures { self.new ≡ pages.now }
    {
        self.pages.clear();
        let Ok(()) = self.pages.try_extend_from_slice(pages) else {
            unreachable!()
        };
    }

    /// The same pages once more.
    pub fn copied(&self) -> PageList
        ensures { result ≡ self.now }
    {
        PageList::of(self.as_slice())
    }

    pub fn as_slice(&self) -> &[PageNo]
        ensures same { result.now ≡ self.now }
        ensures within { length result.now ≤ LONGEST_LIST }
    {
        self.pages.as_slice()
    }
}
