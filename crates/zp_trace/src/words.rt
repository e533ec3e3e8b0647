//! Cutting bytes into lines and words.
ghost use Rattle.std.specs.Prelude.{◌≡◌, ◌==◌, ◌<◌, ℕ, List, ◌∷◌, ◌++◌, length, All, IfSome, IfNone, ◌≢◌};
ghost use Rattle.std.specs.List.{slice_split};
ghost use Rattle.zp_trace.specs.Spelling.{spelled, space, line_feed, joined, AreWords};

use crate::bounds::MOST_WORDS;
use arrayvec::ArrayVec;

/// The words of a line, where they lie.
pub type Words<'a> = ArrayVec<&'a [u8], MOST_WORDS>;

/// What stands before the first such byte, and what stands after it.
fn split_at_byte(bytes: &[u8], byte: u8) -> Option<(&[u8], &[u8])>
    ensures some { IfSome result (λ x. (bytes.now ≡ x.0.now ++ byte ∷ x.1.now) × All (λ b. b ≢ byte) x.0.now) }
    ensures none { IfNone result (All (λ b. b ≢ byte) bytes.now) }
{
    let at = bytes.iter().position(|b| *b == byte)?;
    Some((&bytes[..at], &bytes[at + 1..]))
}

/// The words between the spaces of a line, where they are not too many.
fn split_words(line: &[u8]) -> Option<Words<'_>>
    ensures some { IfSome result (λ words. spelled words.items ≡ slice_split (λ b. b == space) line.now) }
    ensures none { IfNone result (MOST_WORDS < length (slice_split (λ b. b == space) line.now)) }
{
    let mut words = ArrayVec::new();
    let mut rest = line;
    while let Some((word, after)) = split_at_byte(rest, b' ') {
        if words.is_full() {
            return None;
        }
        words.push(word);
        rest = after;
    }
    if words.is_full() {
        return None;
    }
    words.push(rest);
    Some(words)
}

/// The words of the first line, and the text after its line feed.
pub fn first_line(text: &[u8]) -> Option<(Words<'_>, &[u8])>
    ensures text { IfSome result (λ x. text.now ≡ joined (spelled x.0.items) ++ line_feed ∷ x.1.now) }
    ensures only { IfSome result (λ x. (words : List (List ℕ)) (more : List ℕ) → AreWords words
        → text.now ≡ joined words ++ line_feed ∷ more → (spelled x.0.items ≡ words) × (x.1.now ≡ more)) }
    ensures none { IfNone result ((words : List (List ℕ)) (more : List ℕ) → AreWords words
        → text.now ≡ joined words ++ line_feed ∷ more → ⊥) }
{
    let (line, rest) = split_at_byte(text, b'\n')?;
    let words = split_words(line)?;
    Some((words, rest))
}
