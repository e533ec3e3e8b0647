//! Fields of a word. Masks and shifts stand here alone.
ghost use Rattle.std.specs.Prelude.{◌≡◌, ◌<◌, ◌*◌, ◌^◌};
ghost use Rattle.zp_table.specs.Fields.{IsField, field, with_field};

/// So many bits of a word, from one on.
pub fn field(word: u64, from: u32, bits: u32) -> u64
    requires { IsField from bits }
    ensures same { result ≡ field word from bits }
    ensures within { result < 2 ^ bits }
{
    let mask = (1 << bits) - 1;
    (word >> from) & mask
}

/// The same bits, left where they stand, and no others.
pub fn field_there(word: u64, from: u32, bits: u32) -> u64
    requires { IsField from bits }
    ensures { result ≡ field word from bits * 2 ^ from }
{
    let mask = ((1 << bits) - 1) << from;
    word & mask
}

/// A word with other bits there.
pub fn with_field(word: u64, from: u32, bits: u32, value: u64) -> u64
    requires place { IsField from bits }
    requires fits { value < 2 ^ bits }
    ensures { result ≡ with_field word from bits value }
{
    let mask = ((1 << bits) - 1) << from;
    (word & !mask) | (value << from)
}
