//! Counts packed into few words: each word is a number, and its digits to some base are counts.
ghost use Rattle.std.specs.Prelude.{◌≡◌, ◌<◌, ◌≤◌, ◌^◌, ◌↔◌, length, IsTrue};
ghost use Rattle.std.specs.List.{All};
ghost use Rattle.zp_model.specs.declared.constants.TheConstants.{ORDERS};
ghost use Rattle.zp_counts.specs.CountBoards.{ArePackable, StayBelow};
ghost use Rattle.zp_counts.specs.Packing.{digits_of, number_of, packed_in, packed_words};

use zp_model::{Counts, ORDERS};

/// How many words packed counts take.
pub const PACKED_WORDS: usize = 3;

/// A field of 21 bits is below this: the free pages, and the blocks of orders 0 and 1.
pub const WIDE: u64 = 2_097_152;

/// A field of 16 bits is below this: the blocks of orders 2 to 5.
pub const MIDDLE: u64 = 65_536;

/// A field of 12 bits is below this: the blocks of orders 6 to 10.
pub const NARROW: u64 = 4096;

/// Whether counts fit into packed words.
pub fn are_packable(counts: &Counts) -> bool
    ensures { IsTrue result ↔ ArePackable counts.now }
{
    let low = stay_below(counts, 0, 2, WIDE);
    let middle = stay_below(counts, 2, 6, MIDDLE);
    let high = stay_below(counts, 6, ORDERS, NARROW);
    u64::from(counts.free) < WIDE && low && middle && high
}

/// Whether the counts of these orders are below a limit.
fn stay_below(counts: &Counts, from: usize, to: usize, limit: u64) -> bool
    requires { to ≤ ORDERS }
    ensures { IsTrue result ↔ StayBelow counts.now from to limit }
{
    for order in from..to {
        if u64::from(counts.by_order[order]) >= limit {
            return false;
        }
    }
    true
}

/// The packed words of counts.
pub(crate) fn packed_words(counts: &Counts) -> [u64; PACKED_WORDS]
    requires { ArePackable counts.now }
    ensures words { result ≡ packed_words counts.now }
    ensures back { packed_in result ≡ counts.now }
{
    let by_order = &counts.by_order;
    [
        number_of(WIDE, &by_order[..2]) * WIDE + u64::from(counts.free),
        number_of(MIDDLE, &by_order[2..6]),
        number_of(NARROW, &by_order[6..]),
    ]
}

/// The counts that packed words stand for.
pub(crate) fn packed_in(words: &[u64; PACKED_WORDS]) -> Counts
    ensures { result ≡ packed_in words.now }
{
    let [free, order_0, order_1] = digits_of::<3>(WIDE, words[0]);
    let [order_2, order_3, order_4, order_5] = digits_of::<4>(MIDDLE, words[1]);
    let [order_6, order_7, order_8, order_9, order_10] = digits_of::<5>(NARROW, words[2]);
    Counts {
        by_order: [
            order_0, order_1, order_2, order_3, order_4, order_5, order_6, order_7, order_8,
            order_9, order_10,
        ],
        free,
    }
}

/// The number that has these digits to this base, the first one the least.
fn number_of(base: u64, digits: &[u32]) -> u64
    requires base { 0 < base }
    requires size { base ^ length digits.now ≤ 2 ^ 64 }
    requires digits { All (λ d. d < base) digits.now }
    ensures number { result ≡ number_of base digits.now }
    ensures below { result < base ^ length digits.now }
{
    let mut number = 0;
    for place in (0..digits.len()).rev() {
        number = number * base + u64::from(digits[place]);
    }
    number
}

/// Digits of a number to this base, the least first.
fn digits_of<const N: usize>(base: u64, number: u64) -> [u32; N]
    requires base { (0 < base) × (base ≤ 2 ^ 32) }
    ensures { result ≡ digits_of base N number }
{
    let mut digits = [0; N];
    let mut rest = number;
    for place in 0..N {
        digits[place] = (rest % base) as u32;
        rest /= base;
    }
    digits
}
