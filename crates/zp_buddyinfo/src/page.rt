//! The size of a page, as a word says it.
ghost use Rattle.std.specs.Prelude.{◌≡◌, ◌<◌, ◌++◌, IfSome, IfNone};
ghost use Rattle.zp_buddyinfo.specs.Sizes.{EndsInNoLetter, IsNoSize, IsSize, letter_of, bytes_of};

use zp_numbers::parse_u64;

/// What a size counts.
#[derive(Clone, Copy, PartialEq, Eq, Debug, Drop)]
pub enum SizeUnit {
    Byte,
    Kibibyte,
    Mebibyte,
    Gibibyte,
}

impl SizeUnit {
    /// So many bytes.
    fn bytes(self) -> u64
        ensures { result ≡ bytes_of self }
    {
        match self {
            SizeUnit::Byte => 1,
            SizeUnit::Kibibyte => 1024,
            SizeUnit::Mebibyte => 1_048_576,
            SizeUnit::Gibibyte => 1_073_741_824,
        }
    }
}

/// What stands before the letter of a unit, and the unit.
fn split_unit(word: &[u8]) -> (&[u8], SizeUnit)
    ensures parts { word.now ≡ result.0.now ++ letter_of result.1 }
    ensures plain { result.1 ≡ SizeUnit.Byte → EndsInNoLetter result.0.now }
{
    match word.split_last() {
        Some((b'K', digits)) => (digits, SizeUnit::Kibibyte),
        Some((b'M', digits)) => (digits, SizeUnit::Mebibyte),
        Some((b'G', digits)) => (digits, SizeUnit::Gibibyte),
        _ => (word, SizeUnit::Byte),
    }
}

/// The bytes that a word says: a number above 0, and K, M or G where it counts 1024 bytes, their square or their cube.
pub fn parse_size(word: &str) -> Option<u64>
    ensures some { IfSome result (λ bytes. (0 < bytes) × IsSize word.now bytes) }
    ensures none { IfNone result (IsNoSize word.now) }
{
    let (digits, unit) = split_unit(word.as_bytes());
    let bytes = parse_u64(digits)?.checked_mul(unit.bytes())?;
    (bytes > 0).then_some(bytes)
}
