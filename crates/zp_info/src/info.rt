//! Info lines.
//!
//! In Linux: `frag_show_print`.
ghost use Rattle.std.specs.Prelude.{◌≡◌, ◌≤◌, ◌+◌, ◌*◌, ◌++◌, ℕ, List, [], ◌∷◌, length, replicate};
ghost use Rattle.zp_model.specs.Info.{info_line, right_aligned};
ghost use Rattle.zp_model.specs.Naming.{IsName};

use crate::text_buffer::TextBuffer;
use zp_model::{Counts, Largest, NAME_PLACES};

/// The most bytes of a line: no count of 32 bits has more than ten digits.
pub const INFO_LINE: usize = 160;

/// Appends the info line of a zone of this name and largest order with these counts, as `/proc/buddyinfo` shows it: 22 bytes,
/// seven for each order up to the largest, and more where a count has more than six digits, and a line feed.
pub fn push_counts<const CAP: usize>(
    text: &mut TextBuffer<CAP>,
    name: &str,
    largest: Largest,
    counts: &Counts,
)
    requires name { IsName name.now }
    requires room { length text.old + INFO_LINE ≤ CAP }
    ensures bytes { text.new ≡ text.old ++ info_line name.now largest counts.now }
    ensures len { length text.new ≤ length text.old + INFO_LINE }
{
    text.push("Node 0, zone ");
    push_name(text, name);
    text.push(" ");
    'numbers: for count in &counts.by_order[..largest.order().index() + 1] {
        text.push_field(*count);
    }
    text.push("\n");
}

/// Appends a name, right-aligned in its places.
fn push_name<const CAP: usize>(text: &mut TextBuffer<CAP>, name: &str)
    requires name { length name.now ≤ NAME_PLACES }
    requires room { length text.old + NAME_PLACES ≤ CAP }
    ensures bytes { text.new ≡ text.old ++ right_aligned NAME_PLACES name.now }
    ensures len { length text.new ≡ length text.old + NAME_PLACES }
{
    text.push(spaces(NAME_PLACES - name.len()));
    text.push(name);
}

/// So many spaces.
fn spaces(count: usize) -> &'static str
    requires { count ≤ NAME_PLACES }
    ensures spaces { result.now ≡ replicate count 32 }
    ensures len { length result.now ≡ count }
{
    match count {
        0 => "",
        1 => " ",
        2 => "  ",
        3 => "   ",
        4 => "    ",
        5 => "     ",
        6 => "      ",
        7 => "       ",
        _ => "        ",
    }
}
