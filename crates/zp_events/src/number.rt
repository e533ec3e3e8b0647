//! Numbers of a line.
ghost use Rattle.std.specs.Prelude.{◌≡◌, ◌<◌, ◌≤◌, ◌+◌, ◌*◌, ◌^◌, ℕ, IfSome, IfNone, SomeIff};
ghost use Rattle.std.specs.Char.{digit_value};
ghost use Rattle.zp_events.specs.Numbers.{IsNumber, IsSmall, IsFrame};

use crate::words::behind;

/// The value of a digit of this base.
fn digit_of(byte: u8, base: u32) -> Option<u32>
    requires least { 2 ≤ base }
    requires most { base ≤ 36 }
    ensures { SomeIff result (digit_value byte < base) (digit_value byte) }
{
    char::from(byte).to_digit(base)
}

/// The number with one more digit at its end, where it fits.
fn with_digit(number: u64, base: u32, digit: u32) -> Option<u64>
    ensures some { IfSome result (λ n. n ≡ number * base + digit) }
    ensures fits { IfSome result (λ n. n < 2 ^ 64) }
    ensures none { IfNone result (2 ^ 64 ≤ number * base + digit) }
{
    number
        .checked_mul(u64::from(base))?
        .checked_add(u64::from(digit))
}

/// The number that a word writes in digits of a base, which may begin with zeros.
pub fn number_of(word: &[u8], base: u32) -> Option<u64>
    requires least { 2 ≤ base }
    requires most { base ≤ 36 }
    ensures some { IfSome result (λ n. IsNumber base word.now n) }
    ensures none { IfNone result ((n : ℕ) → IsNumber base word.now n → ⊥) }
{
    if word.is_empty() {
        return None;
    }
    let mut number: u64 = 0;
    for byte in word {
        let digit = digit_of(*byte, base)?;
        number = with_digit(number, base, digit)?;
    }
    Some(number)
}

/// The decimal number of 32 bits that a word writes.
pub fn small_number_of(word: &[u8]) -> Option<u32>
    ensures some { IfSome result (λ n. IsSmall word.now n) }
    ensures none { IfNone result ((n : ℕ) → IsSmall word.now n → ⊥) }
{
    let Ok(number) = u32::try_from(number_of(word, 10)?) else {
        return None;
    };
    Some(number)
}

/// The number of a page frame that a word writes.
pub fn frame_of(word: &[u8]) -> Option<u64>
    ensures some { IfSome result (λ n. IsFrame word.now n) }
    ensures none { IfNone result ((n : ℕ) → IsFrame word.now n → ⊥) }
{
    if let Some(digits) = behind(word, b"0x") {
        return number_of(digits, 16);
    }
    number_of(word, 10)
}
