//! Lists of pages.
//!
//! In Linux: `list_add`, `list_add_tail` and `list_del` on `page->lru`.
ghost use Rattle.std.specs.Prelude.{◌≡◌, ◌<◌, ◌≤◌, ◌+◌, ℕ, true, false, [], ◌∷◌, ◌++◌, length, map, replicate, slice_get, IfOk, IfSome, IsTrue, ◌↔◌, None, Some};
ghost use Rattle.zp_model.specs.Rows.{Rows, list_at, state_at, IsOn, IsLoose, IsRow, with_list, with_state, with_run, without_page, front, rest, after};
ghost use Rattle.zp_model.specs.declared.constants.TheConstants.{MAX_PAGES};
ghost use Rattle.zp_table.specs.Entries.{IsUnlinked};
ghost use Rattle.zp_table.specs.Packed.{packed, told_layout};
ghost use Rattle.zp_links.specs.Linked.{states_of, At, entry_in, loose_entry};
ghost use Rattle.zp_links.specs.Moved.{StandAsBefore};

use crate::ends::{Ends, is_front};
use crate::neighbour::{close_gap, set_back_or_last, set_forward_or_first};
use std::alloc::{AllocError, Global};
use std::marker::Model;
use zp_model::PageAt;
use zp_table::{Link, PageEntry, PageTable, State};

/// A row of lists of pages; no page stands twice.
#[derive(Drop)]
pub struct Lists {
    table: PageTable,
    ends: Vec<Ends>,
}

impl Model for Lists {
    ghost use Rattle.zp_model.specs.Rows.{Rows};
    ghost use Rattle.zp_links.specs.Linked.{spelled, states_of, IsLinked};

    ghost Value = { Rows };

    ghost view = { λ s. record { lists = spelled s.table s.ends.items; states = states_of s.table } };

    ghost invariant = { λ s. IsLinked s.table s.ends.items (spelled s.table s.ends.items) };
}

impl Lists {
    /// So many empty lists over a table.
    pub fn new(alloc: Global, table: PageTable, count: usize) -> Result<Lists, AllocError>
        requires { IsUnlinked table }
        ensures lists { IfOk result (λ l. l ≡ record { lists = replicate count []; states = states_of table }) }
        ensures loose { IfOk result (λ l. (p : ℕ) → IsLoose l.lists p) }
    {
        // the table has at most as many pages as a zone can have, which the lists rely on
        let _pages = table.len();
        let nowhere = Link::none();
        let empty = Ends {
            first: nowhere,
            last: nowhere,
            len: 0,
        };
        let ends = Vec::from_elem(alloc, empty, count)?;
        Ok(Lists { table, ends })
    }

    /// Puts a page in front of a list.
    pub fn push_front(&mut self, list: usize, at: PageAt)
        requires list { list < length self.old.lists }
        requires page { at < length self.old.states }
        requires loose { IsLoose self.old.lists at }
        ensures after { self.new ≡ with_list self.old list (at ∷ list_at self.old.lists list) }
        ensures on { IsOn self.new.lists list at }
        ensures others { StandAsBefore at self.old.lists self.new.lists }
    {
        let here = Link::to(at);
        let ends = &mut self.ends[list];
        let next = ends.first;
        self.table.set_links(at, Link::none(), next);
        set_back_or_last(&mut self.table, &mut ends.last, next, here);
        ends.first = here;
        ends.len += 1;
    }

    /// Notes a state of a page and puts the page in front of a list: its entry is written once.
    // inlined, as a state that the caller knows is packed when it is compiled
    #[inline(always)]
    pub fn push_front_noted(&mut self, list: usize, at: PageAt, state: State)
        requires list { list < length self.old.lists }
        requires page { at < length self.old.states }
        requires loose { IsLoose self.old.lists at }
        ensures after { self.new ≡ with_list (with_state self.old at state) list (at ∷ list_at self.old.lists list) }
        ensures on { IsOn self.new.lists list at }
        ensures others { StandAsBefore at self.old.lists self.new.lists }
    {
        let here = Link::to(at);
        let ends = &mut self.ends[list];
        let next = ends.first;
        let entry = PageEntry {
            state,
            back: Link::none(),
            forward: next,
        };
        self.table.set(at, entry);
        set_back_or_last(&mut self.table, &mut ends.last, next, here);
        ends.first = here;
        ends.len += 1;
    }

    /// Puts a page at the end of a list.
    pub fn push_back(&mut self, list: usize, at: PageAt)
        requires list { list < length self.old.lists }
        requires page { at < length self.old.states }
        requires loose { IsLoose self.old.lists at }
        ensures after { self.new ≡ with_list self.old list (list_at self.old.lists list ++ at ∷ []) }
        ensures on { IsOn self.new.lists list at }
        ensures others { StandAsBefore at self.old.lists self.new.lists }
    {
        let here = Link::to(at);
        let ends = &mut self.ends[list];
        let previous = ends.last;
        self.table.set_links(at, previous, Link::none());
        set_forward_or_first(&mut self.table, &mut ends.first, previous, here);
        ends.last = here;
        ends.len += 1;
    }

    /// Takes a page out of its list. No search is made.
    pub fn remove(&mut self, list: usize, at: PageAt)
        requires { IsOn self.old.lists list at }
        ensures after { self.new ≡ with_list self.old list (without_page at (list_at self.old.lists list)) }
        ensures loose { IsLoose self.new.lists at }
        ensures others { StandAsBefore at self.old.lists self.new.lists }
    {
        close_gap(&mut self.table, &mut self.ends[list], at);
        let nowhere = Link::none();
        self.table.set_links(at, nowhere, nowhere);
    }

    /// Takes a page out of its list and notes a state of it: its entry is written once.
    // inlined, as a state that the caller knows is packed when it is compiled
    #[inline(always)]
    pub fn remove_noted(&mut self, list: usize, at: PageAt, state: State)
        requires { IsOn self.old.lists list at }
        ensures after { self.new ≡ with_state (with_list self.old list (without_page at (list_at self.old.lists list))) at state }
        ensures loose { IsLoose self.new.lists at }
        ensures others { StandAsBefore at self.old.lists self.new.lists }
    {
        close_gap(&mut self.table, &mut self.ends[list], at);
        let nowhere = Link::none();
        let entry = PageEntry {
            state,
            back: nowhere,
            forward: nowhere,
        };
        self.table.set(at, entry);
    }

    /// Takes the page in front of a list out of it and notes a state of it: its entry is written once. Nothing stands before it, so
    /// its back link is not read.
    // inlined, as a state that the caller knows is packed when it is compiled
    #[inline(always)]
    pub fn remove_front_noted(&mut self, list: usize, at: PageAt, state: State)
        requires { front (list_at self.old.lists list) ≡ Some at }
        ensures after { self.new ≡ with_state (with_list self.old list (without_page at (list_at self.old.lists list))) at state }
        ensures loose { IsLoose self.new.lists at }
        ensures others { StandAsBefore at self.old.lists self.new.lists }
    {
        let nowhere = Link::none();
        let ends = &mut self.ends[list];
        let next = self.table.forward(at);
        set_back_or_last(&mut self.table, &mut ends.last, next, nowhere);
        ends.first = next;
        ends.len -= 1;
        let entry = PageEntry {
            state,
            back: nowhere,
            forward: nowhere,
        };
        self.table.set(at, entry);
    }

    /// Takes the page in front of a list.
    pub fn pop_front(&mut self, list: usize) -> Option<PageAt>
        requires { list < length self.old.lists }
        ensures answer { result ≡ front (list_at self.old.lists list) }
        ensures after { self.new ≡ with_list self.old list (rest (list_at self.old.lists list)) }
        ensures page { IfSome result (λ at. at < length self.new.states) }
        ensures loose { IfSome result (IsLoose self.new.lists) }
        ensures others { IfSome result (λ at. StandAsBefore at self.old.lists self.new.lists) }
    {
        let ends = self.ends[list];
        match ends.first.page() {
            None => None,
            Some(at) => {
                self.remove(list, at);
                Some(at)
            }
        }
    }

    /// The page in front of a list.
    pub fn front(&self, list: usize) -> Option<PageAt>
        requires { list < length self.now.lists }
        ensures answer { result ≡ front (list_at self.now.lists list) }
        ensures on { IfSome result (IsOn self.now.lists list) }
    {
        self.ends[list].first.page()
    }

    /// The page after a page of a list.
    pub fn after(&self, list: usize, at: PageAt) -> Option<PageAt>
        requires { IsOn self.now.lists list at }
        ensures answer { result ≡ after at (list_at self.now.lists list) }
        ensures on { IfSome result (IsOn self.now.lists list) }
    {
        // the page's own link names it, whichever the list
        let _list = list;
        self.table.forward(at).page()
    }

    /// How many pages a list has.
    pub fn len(&self, list: usize) -> u32
        requires { list < length self.now.lists }
        ensures { result ≡ length (list_at self.now.lists list) }
    {
        self.ends[list].len
    }

    /// Whether a page stands on a list. The list is walked.
    pub fn is_on(&self, list: usize, at: PageAt) -> bool
        requires { list < length self.now.lists }
        ensures { IsTrue result ↔ IsOn self.now.lists list at }
    {
        let ends = self.ends[list];
        let mut next = ends.first.page();
        for _place in 0..ends.len {
            match next {
                None => return false,
                Some(page) => {
                    if page == at {
                        return true;
                    }
                    next = self.table.forward(page).page();
                }
            }
        }
        false
    }

    /// Whether a page stands on some list. The fronts of the lists are looked at, and no list is walked.
    pub fn on_any(&self, at: PageAt) -> bool
        ensures on { IsTrue result ↔ ((r : ℕ) × IsOn self.now.lists r at) }
        ensures loose { result ≡ false → IsLoose self.now.lists at }
    {
        // a page with no entry stands nowhere; one that no page stands before is a front, or on no list
        if at.index() >= self.table.len() {
            return false;
        }
        self.table.back(at).page().is_some() || is_front(&self.ends, at)
    }

    /// What is noted of a page.
    pub fn state(&self, at: PageAt) -> State
        requires { at < length self.now.states }
        ensures { result ≡ state_at self.now.states at }
    {
        self.table.state(at)
    }

    /// Whether this is noted of a page. Its bits are compared, and nothing is unpacked.
    pub fn holds(&self, at: PageAt, state: State) -> bool
        requires { at < length self.now.states }
        ensures { IsTrue result ↔ (state_at self.now.states at ≡ state) }
    {
        self.table.holds(at, state)
    }

    /// Notes another state of a page.
    pub fn set_state(&mut self, at: PageAt, state: State)
        requires { at < length self.old.states }
        ensures { self.new ≡ with_state self.old at state }
    {
        self.table.set_state(at, state);
    }

    /// Notes this of so many pages in a row that stand on no list: each entry is written whole.
    #[inline(always)]
    pub fn set_run(&mut self, at: PageAt, pages: u32, state: State)
        requires run { at + pages ≤ length self.old.states }
        requires loose { (p : ℕ) → at ≤ p → p < at + pages → IsLoose self.old.lists p }
        ensures { self.new ≡ record self.old { states = with_run self.old.states at pages state } }
    {
        let nowhere = Link::none();
        let entry = PageEntry {
            state,
            back: nowhere,
            forward: nowhere,
        };
        self.table.set_run(at, pages, entry);
    }

    /// The page before a page in its list.
    pub fn back(&self, at: PageAt) -> Option<PageAt>
        requires { at < length self.now.states }
        ensures previous { (r p : ℕ) → IsOn self.now.lists r p → after p (list_at self.now.lists r) ≡ Some at → result ≡ Some p }
        ensures first { (r : ℕ) → slice_get (list_at self.now.lists r) 0 ≡ Some at → result ≡ None }
        ensures loose { IsLoose self.now.lists at → result ≡ None }
    {
        self.table.back(at).page()
    }

    /// The page after a page in its list, as the page's link names it.
    pub fn forward(&self, at: PageAt) -> Option<PageAt>
        requires { at < length self.now.states }
        ensures next { (r : ℕ) → IsOn self.now.lists r at → result ≡ after at (list_at self.now.lists r) }
        ensures loose { IsLoose self.now.lists at → result ≡ None }
    {
        self.table.forward(at).page()
    }

    /// The word of the page's entry, in the layout of `PageTable::word` for so many pages: what is noted of it, and its neighbours in
    /// its list.
    pub fn word(&self, at: PageAt) -> u64
        requires { at < length self.now.states }
        ensures on { (r k : ℕ) → At self.now.lists r k at → result ≡ packed (told_layout (length self.now.states)) (entry_in self.now r k at) }
        ensures loose { IsLoose self.now.lists at → result ≡ packed (told_layout (length self.now.states)) (loose_entry (state_at self.now.states at)) }
    {
        self.table.word(at)
    }

    /// How many pages there are.
    pub fn pages(&self) -> usize
        ensures same { result ≡ length self.now.states }
        ensures within { result ≤ MAX_PAGES }
        ensures row { IsRow self.now.lists (length self.now.states) }
    {
        self.table.len()
    }

    /// How many lists there are.
    pub fn count(&self) -> usize
        ensures same { result ≡ length self.now.lists }
        ensures row { IsRow self.now.lists (length self.now.states) }
    {
        self.ends.len()
    }
}
