//! The line that says what a journal's replay found.
ghost use Rattle.std.specs.Prelude.{◌≡◌, ◌≤◌, ◌+◌, ◌++◌, length};
ghost use Rattle.zp_text.specs.JournalText.{verdict_line};

use crate::line::{push_spaced_number, push_word};
use zp_info::TextBuffer;
use zp_model::LONGEST_NAME;

/// The most bytes of a line.
pub const VERDICT_LINE: usize = 64;

/// What a journal's replay found.
#[derive(Clone, Copy, PartialEq, Eq, Debug, Drop)]
pub enum Verdict {
    /// Each entry is what the zone would have made.
    Legal,
    /// The number of the first entry that is not.
    Differs(u32),
}

/// Appends the line of the zone of this name, whose journal has so many entries: `journal NAME N legal`, or `journal NAME differs N`.
pub fn push_verdict<const CAP: usize>(
    text: &mut TextBuffer<CAP>,
    name: &str,
    entries: u32,
    verdict: Verdict,
)
    requires name { length name.now ≤ LONGEST_NAME }
    requires room { length text.old + VERDICT_LINE ≤ CAP }
    ensures bytes { text.new ≡ text.old ++ verdict_line name.now entries verdict }
    ensures len { length text.new ≤ length text.old + VERDICT_LINE }
{
    text.push("journal");
    push_word(text, name);
    match verdict {
        Verdict::Legal => {
            push_spaced_number(text, entries);
            push_word(text, "legal");
        }
        Verdict::Differs(number) => {
            push_word(text, "differs");
            push_spaced_number(text, number);
        }
    }
    text.push("\n");
}
