//! Lines of `/proc/zoneinfo`.
ghost use Rattle.std.specs.Prelude.{◌≡◌, ◌++◌, ◌∷◌, [], codes, ℕ, List, IfSome, IfNone};
ghost use Rattle.zp_events.specs.Numbers.{IsNumber, IsSmall};
ghost use Rattle.zp_events.specs.Words.{words_of};
ghost use Rattle.zp_events.specs.ZoneLines.{IsLabelled, IsZoneHead};

use crate::number::{number_of, small_number_of};
use crate::words::{before, first_word, is_blank};

/// The word of a text that has one word alone.
fn only_word(text: &[u8]) -> Option<&[u8]>
    ensures some { IfSome result (λ word. words_of text.now ≡ word.now ∷ []) }
    ensures none { IfNone result ((word : List ℕ) → words_of text.now ≡ word ∷ [] → ⊥) }
{
    let (word, rest) = first_word(text)?;
    if is_blank(rest) { Some(word) } else { None }
}

/// What stands behind the first word of a text, where that is this one.
pub fn behind_word<'a>(text: &'a [u8], first: &[u8]) -> Option<&'a [u8]>
    ensures some { IfSome result (λ rest. words_of text.now ≡ first.now ∷ words_of rest.now) }
    ensures none { IfNone result ((more : List (List ℕ)) → words_of text.now ≡ first.now ∷ more → ⊥) }
{
    let (word, rest) = first_word(text)?;
    if word == first { Some(rest) } else { None }
}

/// The number that a text writes whose words are this label and a number.
pub fn labelled_number(line: &[u8], label: &[u8]) -> Option<u64>
    ensures some { IfSome result (λ n. IsLabelled (words_of line.now) label.now n) }
    ensures none { IfNone result ((n : ℕ) → IsLabelled (words_of line.now) label.now n → ⊥) }
{
    let rest = behind_word(line, label)?;
    let word = only_word(rest)?;
    number_of(word, 10)
}

/// The number of a node, as a heading writes it: with a comma behind it.
fn node_of(word: &[u8]) -> Option<u32>
    ensures some { IfSome result (λ n. (number : List ℕ) × (word.now ≡ number ++ codes ",") × IsSmall number n) }
    ensures none { IfNone result ((number : List ℕ) (n : ℕ) → word.now ≡ number ++ codes "," → IsSmall number n → ⊥) }
{
    let number = before(word, b",")?;
    small_number_of(number)
}

/// The node and the name of the zone of which the lines behind this one tell.
pub fn zone_head(line: &[u8]) -> Option<(u32, &[u8])>
    ensures some { IfSome result (λ x. IsZoneHead (words_of line.now) x.0 x.1.now) }
    ensures none { IfNone result ((node : ℕ) (name : List ℕ) → IsZoneHead (words_of line.now) node name → ⊥) }
{
    let behind_node = behind_word(line, b"Node")?;
    let (number, behind_number) = first_word(behind_node)?;
    let behind_zone = behind_word(behind_number, b"zone")?;
    let name = only_word(behind_zone)?;
    let node = node_of(number)?;
    Some((node, name))
}
