//! Words that are decimal numbers.
ghost use Rattle.std.specs.Prelude.{◌≡◌, ◌<◌, ◌≤◌, ◌+◌, ◌*◌, ◌^◌, ℕ, IfSome, IfNone};
ghost use Rattle.std.specs.Fmt.{decimal};

/// The number with one more digit at its end, where it fits.
fn with_digit(number: u64, digit: u8) -> Option<u64>
    ensures some { IfSome result (λ n. n ≡ number * 10 + digit) }
    ensures fits { IfSome result (λ n. n < 2 ^ 64) }
    ensures none { IfNone result (2 ^ 64 ≤ number * 10 + digit) }
{
    number.checked_mul(10)?.checked_add(u64::from(digit))
}

/// The number below 2^64 that a word writes: decimal digits with no leading zero, or `0` itself.
pub fn parse_u64(word: &[u8]) -> Option<u64>
    ensures some { IfSome result (λ n. word.now ≡ decimal n) }
    ensures fits { IfSome result (λ n. n < 2 ^ 64) }
    ensures none { IfNone result ((n : ℕ) → n < 2 ^ 64 → word.now ≡ decimal n → ⊥) }
{
    if word.is_empty() || (word[0] == b'0' && word.len() > 1) {
        return None;
    }
    let mut number: u64 = 0;
    for digit in word {
        if !digit.is_ascii_digit() {
            return None;
        }
        let Some(next) = with_digit(number, *digit - b'0') else {
            return None;
        };
        number = next;
    }
    Some(number)
}

/// The number below 2^32 that a word writes: decimal digits with no leading zero, or `0` itself.
pub fn parse_u32(word: &[u8]) -> Option<u32>
    ensures some { IfSome result (λ n. word.now ≡ decimal n) }
    ensures fits { IfSome result (λ n. n < 2 ^ 32) }
    ensures none { IfNone result ((n : ℕ) → n < 2 ^ 32 → word.now ≡ decimal n → ⊥) }
{
    let Ok(number) = u32::try_from(parse_u64(word)?) else {
        return None;
    };
    Some(number)
}
