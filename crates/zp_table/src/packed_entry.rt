//! The entry of a page in one word.
ghost use Rattle.std.specs.Prelude.{◌≡◌, ◌↔◌, ◌<◌, IfSome, IsTrue};
ghost use Rattle.zp_model.specs.declared.constants.TheConstants.{MAX_PAGES};
ghost use Rattle.zp_table.specs.declared.layout.TheConstants.{LINK_BITS};
ghost use Rattle.zp_table.specs.Fields.{IsField, field, with_field};
ghost use Rattle.zp_table.specs.Links.{number_of};
ghost use Rattle.zp_table.specs.Packed.{packed, wide};

use crate::entry::PageEntry;
use crate::field::{field, field_there, with_field};
use crate::layout::{
    BACK_AT, FORWARD_AT, LINK_BITS, ORDER_AT, ORDER_BITS, STATE_AT, STATE_BITS, TYPE_AT, TYPE_BITS,
    WHICH_BITS, WORKER_AT, WORKER_BITS,
};
use crate::link::Link;
use crate::packed_state::packed_state;
use std::marker::Model;
use zp_model::{MigrateType, Order, State, Worker};

/// An entry in eight bytes. What a call does not need of it is not unpacked.
#[derive(Clone, Copy, Drop)]
pub struct PackedEntry {
    word: u64,
}

impl Model for PackedEntry {
    ghost use Rattle.zp_table.specs.declared.entry.PageEntry.{PageEntry};
    ghost use Rattle.zp_table.specs.Packed.{IsPacked, packed, unpacked, wide};

    ghost Value = { PageEntry };

    ghost view = { λ e. unpacked wide e.word };

    ghost invariant = { λ e. IsPacked wide e.word };

    ghost inverse = { λ v. record { word = packed wide v } };

    ghost inverse_ok = { λ e h i. record { word = h.1 i } };
}

impl PackedEntry {
    pub fn new(entry: PageEntry) -> PackedEntry
        ensures { result ≡ entry }
    {
        // from the top down, so that nothing lies yet where a field is put
        let word = with_link(0, FORWARD_AT, entry.forward);
        let word = with_field(word, STATE_AT, STATE_BITS, packed_state(entry.state));
        let word = with_link(word, BACK_AT, entry.back);
        PackedEntry { word }
    }

    /// The word itself.
    pub fn word(self) -> u64
        ensures { result ≡ packed wide self }
    {
        self.word
    }

    pub fn entry(self) -> PageEntry
        ensures { result ≡ self }
    {
        PageEntry {
            state: self.state(),
            back: self.back(),
            forward: self.forward(),
        }
    }

    pub fn state(self) -> State
        ensures { result ≡ self.state }
    {
        let state = field(self.word, STATE_AT, STATE_BITS);
        // each part is read before the match, so that no branch is taken for it
        let order = Order::at(field(state, ORDER_AT, ORDER_BITS) as u8);
        let migrate_type = match field(state, TYPE_AT, TYPE_BITS) {
            0 => MigrateType::Unmovable,
            1 => MigrateType::Reclaimable,
            _ => MigrateType::Movable,
        };
        let worker = Worker::new(field(state, WORKER_AT, WORKER_BITS) as u8).unwrap_or(
            Worker::first(),
        );
        match field(state, 0, WHICH_BITS) {
            0 => State::Tail,
            1 => State::Free(order),
            2 => State::Out(order, migrate_type, worker),
            _ => State::Posted(order, migrate_type, worker),
        }
    }

    /// Whether this is the state. Its bits are compared where they stand, and nothing is unpacked.
    #[tactic(auto, using(crate::proofs::Packing::state_tells))]
    pub fn is_state(self, state: State) -> bool
        ensures { IsTrue result ↔ (self.state ≡ state) }
    {
        let bits = with_field(0, STATE_AT, STATE_BITS, packed_state(state));
        field_there(self.word, STATE_AT, STATE_BITS) == bits
    }

    pub fn back(self) -> Link
        ensures { result ≡ self.back }
    {
        Link::numbered(link_number(self.word, BACK_AT))
    }

    pub fn forward(self) -> Link
        ensures { result ≡ self.forward }
    {
        Link::numbered(link_number(self.word, FORWARD_AT))
    }

    pub fn set_state(&mut self, state: State)
        ensures { self.new ≡ record self.old { state = state } }
    {
        self.word = with_field(self.word, STATE_AT, STATE_BITS, packed_state(state));
    }

    pub fn set_back(&mut self, back: Link)
        ensures { self.new ≡ record self.old { back = back } }
    {
        self.word = with_link(self.word, BACK_AT, back);
    }

    pub fn set_forward(&mut self, forward: Link)
        ensures { self.new ≡ record self.old { forward = forward } }
    {
        self.word = with_link(self.word, FORWARD_AT, forward);
    }

    pub fn set_links(&mut self, back: Link, forward: Link)
        ensures { self.new ≡ record self.old { back = back; forward = forward } }
    {
        self.set_back(back);
        self.set_forward(forward);
    }
}

/// The number of the link that begins at this bit of a word.
fn link_number(word: u64, at: u32) -> u32
    requires { IsField at LINK_BITS }
    ensures { result ≡ field word at LINK_BITS }
{
    field(word, at, LINK_BITS) as u32
}

/// A word with another link there.
fn with_link(word: u64, at: u32, link: Link) -> u64
    requires { IsField at LINK_BITS }
    ensures same { result ≡ with_field word at LINK_BITS (number_of MAX_PAGES link) }
    ensures fits { IfSome link (λ page. page < MAX_PAGES) }
{
    with_field(word, at, LINK_BITS, link.number() as u64)
}
