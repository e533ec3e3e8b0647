//! What ftrace says of its buffer.
ghost use Rattle.std.specs.Prelude.{◌≡◌, ℕ, List, IfSome, IfNone};
ghost use Rattle.zp_events.specs.Numbers.{IsNumber};
ghost use Rattle.zp_events.specs.Words.{words_of};
ghost use Rattle.zp_events.specs.BufferLines.{AreEntries, BeginsWithLost, IsLost};

use crate::number::number_of;
use crate::words::{behind, first_word, split_at_byte};
use crate::zone_lines::behind_word;

/// How many events a buffer kept of those that were written to it.
#[derive(Clone, Copy, PartialEq, Eq, Debug, Drop)]
pub struct BufferEntries {
    pub kept: u64,
    pub written: u64,
}

/// What the head of a trace says of its buffer.
pub fn buffer_entries(line: &[u8]) -> Option<BufferEntries>
    ensures some { IfSome result (λ entries. AreEntries (words_of line.now) entries.kept entries.written) }
    ensures none { IfNone result ((kept written : ℕ) → AreEntries (words_of line.now) kept written → ⊥) }
{
    let behind_mark = behind_word(line, b"#")?;
    let behind_label = behind_word(behind_mark, b"entries-in-buffer/entries-written:")?;
    let (word, _rest) = first_word(behind_label)?;
    let (kept_digits, written_digits) = split_at_byte(word, b'/')?;
    let kept = number_of(kept_digits, 10)?;
    let written = number_of(written_digits, 10)?;
    Some(BufferEntries { kept, written })
}

/// How many events a report at the front of a text says are lost.
fn lost_at(text: &[u8]) -> Option<u64>
    ensures some { IfSome result (λ n. BeginsWithLost text.now n) }
    ensures none { IfNone result ((n : ℕ) → BeginsWithLost text.now n → ⊥) }
{
    let inside = behind(text, b"[LOST ")?;
    let (digits, after) = split_at_byte(inside, b' ')?;
    let number = number_of(digits, 10)?;
    let _rest = behind(after, b"EVENTS]")?;
    Some(number)
}

/// How many events the first report of lost ones in a line says.
pub fn lost_events(line: &[u8]) -> Option<u64>
    ensures some { IfSome result (λ n. IsLost line.now n) }
    ensures none { IfNone result ((n : ℕ) → IsLost line.now n → ⊥) }
{
    for at in 0..line.len() {
        if let Some(number) = lost_at(&line[at..]) {
            return Some(number);
        }
    }
    None
}
