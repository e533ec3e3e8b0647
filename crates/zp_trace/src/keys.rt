//! Labels as numbers.
ghost use Rattle.std.specs.Prelude.{◌≡◌, ◌<◌, ◌^◌};
ghost use Rattle.zp_model.specs.Naming.{IsName};
ghost use Rattle.zp_trace.specs.LabelKeys.{label_key};

use crate::bounds::LABEL_BASE;
use zp_model::Name;

/// The number of a label: its letters and digits as digits to the base 128, the first one lowest. None of them is 0 or above 127,
/// so that two labels have one number only where they are the same.
pub fn label_key(label: Name) -> u64
    ensures key { result ≡ label_key label }
    ensures within { result < 2 ^ 56 }
    ensures name { IsName label }
{
    let bytes = label.as_bytes();
    let mut key = 0;
    let mut left = bytes.len();
    while left > 0 {
        left -= 1;
        key = key * LABEL_BASE + u64::from(bytes[left]);
    }
    key
}
