//! The entries of a zone.
ghost use Rattle.std.specs.Prelude.{◌≡◌, ◌<◌, ◌≤◌, ◌-◌, ◌++◌, ◌∷◌, [], length, take, vec_capacity, slice_get, Some, false, IfOk, IfErr, leb};
ghost use Rattle.zp_model.specs.declared.refused.Refused.TheVariants.{Memory};

use std::alloc::Global;
use std::marker::Model;
use zp_model::{Entry, Refused};

/// The most entries of a journal.
pub const LONGEST_JOURNAL: u32 = 65_536;

/// How many blank entries are put into the room at a time: some 2.4 KB, which the section that comes upon them writes under its lock.
const BLANKS: usize = 8;

/// Entries, the oldest first, with room for a number of them that is settled when the journal is made. The room gets blank entries as
/// they are needed, a few at a time, and these are written over one after another: what is never needed is never touched.
#[derive(Drop)]
pub struct Journal {
    room: Vec<Entry>,
    len: u32,
    capacity: u32,
}

impl Model for Journal {
    ghost use Rattle.std.specs.Prelude.{◌≤◌, length, take, vec_capacity};
    ghost use Rattle.zp_journal.specs.Journals.{JournalState};
    ghost use Rattle.zp_journal.specs.declared.journal.TheConstants.{LONGEST_JOURNAL};

    ghost Value = { JournalState };

    ghost view = { λ j. record { capacity = j.capacity; entries = take j.len j.room.items } };

    ghost invariant = { λ j. (j.len ≤ length j.room.items) × (length j.room.items ≤ j.capacity) × (j.capacity ≤ vec_capacity j.room) × (j.capacity ≤ LONGEST_JOURNAL) };
}

impl Journal {
    /// A journal with no entry, and room for so many. Refused 6.
    pub fn new(alloc: Global, capacity: u32) -> Result<Journal, Refused>
        requires { capacity ≤ LONGEST_JOURNAL }
        ensures journal { IfOk result (λ j. j ≡ record { capacity = capacity; entries = [] }) }
        ensures why { IfErr result (λ e. e ≡ Memory) }
    {
        let Ok(room) = Vec::with_capacity(alloc, capacity as usize) else {
            return Err(Refused::Memory);
        };
        Ok(Journal {
            room,
            len: 0,
            capacity,
        })
    }

    /// How many entries there are.
    pub fn len(&self) -> u32
        ensures entries { result ≡ length self.now.entries }
        ensures room { result ≤ self.now.capacity }
        ensures within { result ≤ LONGEST_JOURNAL }
    {
        self.len
    }

    /// The entry of this number; the oldest has number 1.
    pub fn entry(&self, number: u32) -> &Entry
        requires some { 1 ≤ number }
        requires within { number ≤ length self.now.entries }
        ensures { slice_get self.now.entries (number - 1) ≡ Some result.now }
    {
        &self.room[number as usize - 1]
    }

    /// Whether there is no room for an entry more.
    pub fn is_full(&self) -> bool
        ensures full { result ≡ leb self.now.capacity (length self.now.entries) }
        ensures room { result ≡ false → length self.now.entries < self.now.capacity }
        ensures within { self.now.capacity ≤ LONGEST_JOURNAL }
    {
        self.len >= self.capacity
    }

    /// Puts the same as an entry at the end. It takes no memory.
    #[inline(always)]
    pub fn append(&mut self, entry: &Entry)
        requires { length self.old.entries < self.old.capacity }
        ensures { self.new ≡ record { capacity = self.old.capacity; entries = self.old.entries ++ entry.now ∷ [] } }
    {
        let len = self.len as usize;
        make_room(&mut self.room, len, self.capacity as usize);
        self.room[len].copy(entry);
        self.len += 1;
    }
}

/// There is an entry at this place, where there is none a few blank ones more.
#[inline(always)]
fn make_room(room: &mut Vec<Entry>, place: usize, capacity: usize)
    requires place { place ≤ length room.old.items }
    requires some { place < capacity }
    requires within { length room.old.items ≤ capacity }
    requires room { capacity ≤ vec_capacity room.old }
    ensures place { place < length room.new.items }
    ensures same { take place room.new.items ≡ take place room.old.items }
    ensures within { length room.new.items ≤ capacity }
    ensures room { capacity ≤ vec_capacity room.new }
{
    if place == room.len() {
        add_blanks(room, capacity);
    }
}

/// A few blank entries more, as many as there is room for.
#[cold]
#[inline(never)]
fn add_blanks(room: &mut Vec<Entry>, capacity: usize)
    requires some { length room.old.items < capacity }
    requires room { capacity ≤ vec_capacity room.old }
    ensures more { length room.old.items < length room.new.items }
    ensures same { take (length room.old.items) room.new.items ≡ room.old.items }
    ensures within { length room.new.items ≤ capacity }
    ensures room { capacity ≤ vec_capacity room.new }
{
    let rest = capacity - room.len();
    'blanks: for _ in 0..rest.min(BLANKS) {
        room.push_reserved(Entry::blank());
    }
}
