//! Counts as the words of an entry: two numbers stand in each word.
ghost use Rattle.std.specs.Prelude.{◌≡◌, ◌∷◌, ◌+◌, ◌*◌, ◌/◌, ◌%◌};
ghost use Rattle.zp_counts.specs.Packing.{paired_in, paired_words, pairs_of};

use zp_model::{Counts, ORDERS};

/// How many words the counts of a zone take, two numbers each: the free blocks of each order, and the free pages.
pub const PAIR_WORDS: usize = (ORDERS + 1) / 2;

/// The lower number of a word is below this.
pub const PAIR: u64 = 4_294_967_296;

/// The words of counts: the free pages and the blocks of order 0 in the first, and those of two orders in each of the others.
pub(crate) fn paired_words(counts: &Counts) -> [u64; PAIR_WORDS]
    ensures words { result ≡ paired_words counts.now }
    ensures back { paired_in result ≡ counts.now }
{
    words_with(&counts.by_order, counts.free)
}

/// The words of the numbers of counts.
fn words_with(by_order: &[u32; ORDERS], free: u32) -> [u64; PAIR_WORDS]
    ensures words { result ≡ pairs_of (free ∷ by_order.now) }
    ensures back { paired_in result ≡ record { by_order = by_order.now; free = free } }
{
    [
        pair(free, by_order[0]),
        pair(by_order[1], by_order[2]),
        pair(by_order[3], by_order[4]),
        pair(by_order[5], by_order[6]),
        pair(by_order[7], by_order[8]),
        pair(by_order[9], by_order[10]),
    ]
}

/// The counts that words stand for.
pub(crate) fn paired_in(words: &[u64; PAIR_WORDS]) -> Counts
    ensures { result ≡ paired_in words.now }
{
    let [first, second, third, fourth, fifth, sixth] = *words;
    Counts {
        by_order: [
            upper(first),
            lower(second),
            upper(second),
            lower(third),
            upper(third),
            lower(fourth),
            upper(fourth),
            lower(fifth),
            upper(fifth),
            lower(sixth),
            upper(sixth),
        ],
        free: lower(first),
    }
}

/// The word of two numbers.
fn pair(lower: u32, upper: u32) -> u64
    ensures { result ≡ upper * PAIR + lower }
{
    u64::from(upper) * PAIR + u64::from(lower)
}

/// The lower number of a word.
fn lower(word: u64) -> u32
    ensures { result ≡ word % PAIR }
{
    (word % PAIR) as u32
}

/// The upper number of a word.
fn upper(word: u64) -> u32
    ensures { result ≡ word / PAIR }
{
    (word / PAIR) as u32
}
