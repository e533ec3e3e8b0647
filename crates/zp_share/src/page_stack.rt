//! A worker's list of pages of one type.
ghost use Rattle.std.specs.Prelude.{◌≡◌, ◌<◌, ◌≤◌, ◌+◌, [], ◌∷◌, ◌++◌, drop, length, reverse, take};
ghost use Rattle.zp_model.specs.Rows.{front, rest};
ghost use Rattle.zp_share.specs.PlainShares.{back, without_back};

use arrayvec::ArrayVec;
use std::marker::Model;
use zp_model::{LONGEST_LIST, PageNo};

/// Absolute pages, at most `LONGEST_LIST`, in place. Contracts see them with the front first; in the vector it is last, so
/// that taking and putting at the front move no page.
#[derive(Drop)]
pub struct PageStack {
    pages: ArrayVec<PageNo, LONGEST_LIST>,
}

impl Model for PageStack {
    ghost use Rattle.std.specs.Prelude.{List, ℕ, reverse};

    ghost Value = { List ℕ };

    ghost view = { λ s. reverse s.pages.items };
}

impl PageStack {
    pub fn new() -> PageStack
        ensures { result ≡ [] }
    {
        PageStack {
            pages: ArrayVec::new(),
        }
    }

    pub fn len(&self) -> usize
        ensures same { result ≡ length self.now }
        ensures within { result ≤ LONGEST_LIST }
    {
        self.pages.len()
    }

    pub fn push_front(&mut self, page: PageNo)
        requires { length self.old < LONGEST_LIST }
        ensures { self.new ≡ page ∷ self.old }
    {
        self.pages.push(page);
    }

    pub fn pop_front(&mut self) -> Option<PageNo>
        ensures answer { result ≡ front self.old }
        ensures after { self.new ≡ rest self.old }
    {
        self.pages.pop()
    }

    /// Puts all of these in front, in their order.
    pub fn push_all_front(&mut self, pages: &[PageNo])
        requires { length pages.now + length self.old ≤ LONGEST_LIST }
        ensures { self.new ≡ pages.now ++ self.old }
    {
        let len = self.pages.len();
        let Ok(()) = self.pages.try_extend_from_slice(pages) else {
            unreachable!()
        };
        // the one that comes first is the front, which is last in the vector
        turn(self.pages.as_mut_slice(), len);
    }

    /// The pages at the back, the last one first.
    pub fn back(&self, count: usize) -> &[PageNo]
        requires { count ≤ length self.now }
        ensures pages { result.now ≡ back count self.now }
        ensures many { length result.now ≡ count }
        ensures within { length result.now ≤ LONGEST_LIST }
    {
        &self.pages.as_slice()[..count]
    }

    /// Takes the pages at the back away.
    pub fn drop_back(&mut self, count: usize)
        requires { count ≤ length self.old }
        ensures { self.new ≡ without_back count self.old }
    {
        let left = self.pages.len() - count;
        self.pages.as_mut_slice().copy_within(count.., 0);
        self.pages.truncate(left);
    }
}

/// The pages from this place on come in the opposite order.
#[inline(always)]
fn turn(pages: &mut [PageNo], from: usize)
    requires { from ≤ length pages.old }
    ensures { pages.new ≡ take from pages.old ++ reverse (drop from pages.old) }
{
    pages[from..].reverse();
}
