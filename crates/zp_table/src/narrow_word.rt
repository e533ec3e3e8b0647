//! The word of an entry in the narrow layout.
ghost use Rattle.std.specs.Prelude.{◌≡◌};
ghost use Rattle.zp_table.specs.Packed.{narrow, packed};

use crate::entry::PageEntry;
use crate::field::with_field;
use crate::layout::{NARROW_BACK_AT, NARROW_FORWARD_AT, NARROW_LINK_BITS};
use crate::packed_state::packed_state;
use zp_model::NARROW_PAGES;

/// The word of an entry in the narrow layout, for a table whose pages it can number.
pub fn narrow_word(entry: PageEntry) -> u64
    ensures { result ≡ packed narrow entry }
{
    let PageEntry {
        state,
        back,
        forward,
    } = entry;
    let back = back.number_below(NARROW_PAGES) as u64;
    let forward = forward.number_below(NARROW_PAGES) as u64;
    let word = packed_state(state);
    let word = with_field(word, NARROW_FORWARD_AT, NARROW_LINK_BITS, forward);
    with_field(word, NARROW_BACK_AT, NARROW_LINK_BITS, back)
}
