//! Cutting bytes into words.
ghost use Rattle.std.specs.Prelude.{◌≡◌, List, [], ◌∷◌, ◌++◌, All, MatchBool, IfSome, IfNone, ◌≢◌, ℕ};
ghost use Rattle.std.specs.Str.{bytes_eq};
ghost use Rattle.std.specs.List.{AllByRecursion};
ghost use Rattle.zp_events.specs.Words.{IsFirstPlace, words_of};

use memchr::memchr;

/// The place of the first such byte.
pub fn place_of_byte(bytes: &[u8], byte: u8) -> Option<usize>
    ensures some { IfSome result (λ place. IsFirstPlace bytes.now byte place) }
    ensures none { IfNone result (AllByRecursion (λ b. b ≢ byte) bytes.now) }
{
    memchr(byte, bytes)
}

/// What stands before the first such byte, and what stands after it.
pub fn split_at_byte(bytes: &[u8], byte: u8) -> Option<(&[u8], &[u8])>
    ensures some { IfSome result (λ x. (bytes.now ≡ x.0.now ++ byte ∷ x.1.now) × All (λ b. b ≢ byte) x.0.now) }
    ensures none { IfNone result (All (λ b. b ≢ byte) bytes.now) }
{
    let at = bytes.iter().position(|b| *b == byte)?;
    Some((&bytes[..at], &bytes[at + 1..]))
}

/// Whether two texts are the same.
pub fn is_text(text: &[u8], other: &[u8]) -> bool
    ensures { result ≡ bytes_eq text.now other.now }
{
    text == other
}

/// What stands behind this front of a text.
pub fn behind<'a>(text: &'a [u8], front: &[u8]) -> Option<&'a [u8]>
    ensures some { IfSome result (λ rest. text.now ≡ front.now ++ rest.now) }
    ensures none { IfNone result ((rest : List ℕ) → text.now ≡ front.now ++ rest → ⊥) }
{
    text.strip_prefix(front)
}

/// What stands before this end of a text.
pub fn before<'a>(text: &'a [u8], end: &[u8]) -> Option<&'a [u8]>
    ensures some { IfSome result (λ front. text.now ≡ front.now ++ end.now) }
    ensures none { IfNone result ((front : List ℕ) → text.now ≡ front ++ end.now → ⊥) }
{
    text.strip_suffix(end)
}

/// The spaces at the front of a text, and what stands behind them, where it is not all spaces.
pub fn split_spaces(text: &[u8]) -> Option<(&[u8], &[u8])>
    ensures some { IfSome result (λ x. (text.now ≡ x.0.now ++ x.1.now) × All (λ b. b ≡ 32) x.0.now) }
    ensures word { IfSome result (λ x. (b : ℕ) × (more : List ℕ) × (b ≢ 32) × (x.1.now ≡ b ∷ more)) }
    ensures none { IfNone result (All (λ b. b ≡ 32) text.now) }
{
    let at = text.iter().position(|b| *b != b' ')?;
    Some((&text[..at], &text[at..]))
}

/// The first word of a text, and what stands behind it.
pub fn first_word(text: &[u8]) -> Option<(&[u8], &[u8])>
    ensures some { IfSome result (λ x. words_of text.now ≡ x.0.now ∷ words_of x.1.now) }
    ensures none { IfNone result (words_of text.now ≡ []) }
{
    let (_spaces, rest) = split_spaces(text)?;
    if let Some((word, after)) = split_at_byte(rest, b' ') {
        return Some((word, after));
    }
    Some((rest, &rest[rest.len()..]))
}

/// Whether a text has no words.
pub fn is_blank(text: &[u8]) -> bool
    ensures { MatchBool result (words_of text.now ≡ []) (words_of text.now ≢ []) }
{
    match first_word(text) {
        Some(_) => false,
        None => true,
    }
}
