//! Texts that are appended to one.
ghost use Rattle.std.specs.Prelude.{◌≡◌, ◌++◌, ◌<◌, List, ℕ, OnOk, string_bytes};
ghost use Rattle.std.specs.List.{concat};
ghost use Rattle.std.specs.Fmt.{decimal};
ghost use Rattle.zp_buddyinfo.specs.Rows.{spelled};
ghost use Rattle.zp_buddyinfo.specs.Report.{right_aligned, zero_padded, thousandths};

use crate::bounds::WHOLE;
use itoa::Buffer;
use std::alloc::{AllocError, Global};

/// Appends the parts of a text, in their order.
pub fn push_parts(text: &mut String, parts: &[&str]) -> Result<(), AllocError>
    ensures { OnOk result (string_bytes text.new ≡ string_bytes text.old ++ concat (spelled parts.now)) }
{
    for part in parts {
        text.push_str(part)?;
    }
    Ok(())
}

/// Appends a text, right-aligned in so many places.
pub fn push_right(
    alloc: Global,
    text: &mut String,
    places: usize,
    word: &str,
) -> Result<(), AllocError>
    ensures { OnOk result (string_bytes text.new ≡ string_bytes text.old ++ right_aligned places word.now) }
{
    let spaces = " ".repeat(alloc, places.saturating_sub(word.len()))?;
    push_parts(text, &[spaces.as_str(), word])
}

/// Appends digits with zeros before them, in so many places.
pub fn push_padded(
    alloc: Global,
    text: &mut String,
    places: usize,
    number: u64,
) -> Result<(), AllocError>
    ensures { OnOk result (string_bytes text.new ≡ string_bytes text.old ++ zero_padded places (decimal number)) }
{
    let mut buffer = Buffer::new();
    let digits = buffer.format(number);
    let zeros = "0".repeat(alloc, places.saturating_sub(digits.len()))?;
    push_parts(text, &[zeros.as_str(), digits])
}

/// Appends a number.
pub fn push_number(text: &mut String, number: u128) -> Result<(), AllocError>
    ensures { OnOk result (string_bytes text.new ≡ string_bytes text.old ++ decimal number) }
{
    let mut buffer = Buffer::new();
    text.push_str(buffer.format(number))
}

/// Appends thousandths, as Linux prints them.
pub fn push_thousandths(alloc: Global, text: &mut String, number: u64) -> Result<(), AllocError>
    ensures { OnOk result (string_bytes text.new ≡ string_bytes text.old ++ thousandths number) }
{
    push_number(text, u128::from(number / WHOLE))?;
    text.push_str(".")?;
    push_padded(alloc, text, 3, number % WHOLE)
}
