//! The table of page entries.
//!
//! In Linux: `mem_map`, an array of `struct page`.
ghost use Rattle.std.specs.Prelude.{◌≡◌, ◌<◌, ◌≤◌, ◌+◌, ◌↔◌, length, replicate, IfOk, IsTrue};
ghost use Rattle.zp_model.specs.declared.constants.TheConstants.{MAX_PAGES};
ghost use Rattle.zp_model.specs.Rows.{with_run};
ghost use Rattle.zp_table.specs.Entries.{blank, entry_at, IsUnlinked, with_entry_at, with_state_at, with_links_at, with_back_at, with_forward_at};
ghost use Rattle.zp_table.specs.Packed.{packed, told_layout};

use crate::entry::PageEntry;
use crate::link::Link;
use crate::narrow_word::narrow_word;
use crate::packed_entry::PackedEntry;
use std::alloc::{AllocError, Global};
use std::marker::Model;
use zp_model::{NARROW_PAGES, PageAt, State};

/// An entry for each page.
#[derive(Drop)]
pub struct PageTable {
    entries: Vec<PackedEntry>,
}

impl Model for PageTable {
    ghost use Rattle.std.specs.Prelude.{List, length, ◌≤◌};
    ghost use Rattle.zp_model.specs.declared.constants.TheConstants.{MAX_PAGES};
    ghost use Rattle.zp_table.specs.declared.entry.PageEntry.{PageEntry};

    ghost Value = { List PageEntry };

    ghost view = { λ t. t.entries.items };

    ghost invariant = { λ t. length t.entries.items ≤ MAX_PAGES };
}

impl PageTable {
    /// A table of so many blank entries.
    pub fn new(alloc: Global, pages: u32) -> Result<PageTable, AllocError>
        requires { pages ≤ MAX_PAGES }
        ensures table { IfOk result (λ t. t ≡ replicate pages blank) }
        ensures unlinked { IfOk result IsUnlinked }
    {
        let blank = PackedEntry::new(PageEntry {
            state: State::Tail,
            back: Link::none(),
            forward: Link::none(),
        });
        let entries = Vec::from_elem(alloc, blank, pages as usize)?;
        Ok(PageTable { entries })
    }

    /// How many entries the table has.
    pub fn len(&self) -> usize
        ensures same { result ≡ length self.now }
        ensures within { result ≤ MAX_PAGES }
    {
        self.entries.len()
    }

    pub fn entry(&self, at: PageAt) -> PageEntry
        requires { at < length self.now }
        ensures { result ≡ entry_at self.now at }
    {
        let place = at.index();
        self.entries[place].entry()
    }

    /// What is noted of a page. Nothing else of its entry is unpacked.
    pub fn state(&self, at: PageAt) -> State
        requires { at < length self.now }
        ensures { result ≡ (entry_at self.now at).state }
    {
        self.entries[at.index()].state()
    }

    /// Whether this is noted of a page. Its bits are compared, and nothing is unpacked.
    pub fn holds(&self, at: PageAt, state: State) -> bool
        requires { at < length self.now }
        ensures { IsTrue result ↔ ((entry_at self.now at).state ≡ state) }
    {
        self.entries[at.index()].is_state(state)
    }

    /// The page before a page in its list.
    pub fn back(&self, at: PageAt) -> Link
        requires { at < length self.now }
        ensures { result ≡ (entry_at self.now at).back }
    {
        self.entries[at.index()].back()
    }

    /// The page after a page in its list.
    pub fn forward(&self, at: PageAt) -> Link
        requires { at < length self.now }
        ensures { result ≡ (entry_at self.now at).forward }
    {
        self.entries[at.index()].forward()
    }

    /// The word of a page's entry: in the narrow layout, where that has numbers for all pages of the table, and else as it
    /// lies in memory. A link to a page that the layout has no number for becomes none.
    pub fn word(&self, at: PageAt) -> u64
        requires { at < length self.now }
        ensures { result ≡ packed (told_layout (length self.now)) (entry_at self.now at) }
    {
        let packed = self.entries[at.index()];
        if self.entries.len() <= NARROW_PAGES as usize {
            narrow_word(packed.entry())
        } else {
            packed.word()
        }
    }

    /// Gives a page another entry, which is written whole.
    pub fn set(&mut self, at: PageAt, entry: PageEntry)
        requires { at < length self.old }
        ensures { self.new ≡ with_entry_at self.old at entry }
    {
        self.entries[at.index()] = PackedEntry::new(entry);
    }

    /// Gives so many pages in a row, from this one on, the same entry. It is packed once, and each is written whole.
    #[inline(always)]
    pub fn set_run(&mut self, at: PageAt, pages: u32, entry: PageEntry)
        requires { at + pages ≤ length self.old }
        ensures { self.new ≡ with_run self.old at pages entry }
    {
        let from = at.index();
        let to = from + pages as usize;
        write_each(&mut self.entries[from..to], PackedEntry::new(entry));
    }

    pub fn set_state(&mut self, at: PageAt, state: State)
        requires { at < length self.old }
        ensures { self.new ≡ with_state_at self.old at state }
    {
        self.entries[at.index()].set_state(state);
    }

    pub fn set_links(&mut self, at: PageAt, back: Link, forward: Link)
        requires { at < length self.old }
        ensures { self.new ≡ with_links_at self.old at back forward }
    {
        self.entries[at.index()].set_links(back, forward);
    }

    pub fn set_back(&mut self, at: PageAt, back: Link)
        requires { at < length self.old }
        ensures { self.new ≡ with_back_at self.old at back }
    {
        self.entries[at.index()].set_back(back);
    }

    pub fn set_forward(&mut self, at: PageAt, forward: Link)
        requires { at < length self.old }
        ensures { self.new ≡ with_forward_at self.old at forward }
    {
        self.entries[at.index()].set_forward(forward);
    }
}

/// Writes the same entry to each of a slice.
// (in line: over a slice of its own the loop reads no pointer and makes no test)
#[inline(always)]
fn write_each(entries: &mut [PackedEntry], entry: PackedEntry)
    ensures { entries.new ≡ replicate (length entries.old) entry }
{
    for it in entries.iter_mut() {
        *it = entry;
    }
}
