//! What the words of one group say of its blocks.
ghost use Rattle.std.specs.Prelude.{◌≡◌, ◌<◌, ◌≤◌, ◌^◌, ◌+◌, ◌*◌, ◌/◌, ◌↔◌, ℕ, length, IfSome, IsTrue};
ghost use Rattle.zp_model.specs.declared.constants.TheConstants.{LARGEST_ORDER};
ghost use Rattle.zp_tree.specs.declared.constants.TheConstants.{PLACES, WORD_LEVELS, GROUP_PAGES, MOST_GROUPS};
ghost use Rattle.zp_tree.specs.Marks.{IsLowAlone, IsWords, IsInGroups, HasHigh, HasLarge, HasLow, IsNearRank, IsRankOf, IsFirstMark, IsFirstLow, IsFirstHigh, words_before, order_at, IsLargestMark};

use crate::constants::{GROUP_PAGES, PLACES, WORD_LEVELS};
use crate::meter::Meter;
use crate::metered::Metered;
use crate::place::{group_of, high_place, low_place, low_word};
use crate::rank::Rank;
use crate::word::{Word, union};
use zp_model::{Order, PageAt};

/// The number of the first low word of a group.
pub fn first_word(group: usize) -> usize
    requires { group < MOST_GROUPS }
    ensures { result ≡ PLACES * group }
{
    PLACES as usize * group
}

/// The rank of the blocks of a group.
pub fn rank_of(low: &Metered<Word>, high: &Metered<Word>, group: usize) -> Rank
    requires words { IsWords low.now high.now }
    requires group { group < length high.now }
    requires few { length high.now ≤ MOST_GROUPS }
    ensures { IsRankOf low.now high.now group result }
{
    let mut meter = Meter::new();
    if let Some(level) = high.read(group, &mut meter).largest() {
        return Rank::of_number(level + WORD_LEVELS);
    }
    match union(low, first_word(group), PLACES as usize, &mut meter).largest() {
        Some(level) => Rank::of_number(level),
        None => Rank::none(),
    }
}

/// Whether a block of the group stands in its high word.
#[inline]
pub fn has_large(high: &Metered<Word>, group: usize) -> bool
    requires { group < length high.now }
    ensures { IsTrue result ↔ HasLarge high.now group }
{
    let mut meter = Meter::new();
    high.read(group, &mut meter).largest().is_some()
}

/// Whether the low word around a page has a block of this order and none above. Where it does, the page's group has a block of the order.
pub fn has_in_word(low: &Metered<Word>, at: PageAt, order: Order) -> bool
    requires { at / PLACES < length low.now }
    ensures { IsTrue result → (i : ℕ) × HasLow low.now i order × (i / PLACES ≡ at / PLACES) }
{
    let mut meter = Meter::new();
    order.number() < WORD_LEVELS
        && low.read(low_word(at), &mut meter).largest() == Some(order.number())
}

/// The first block of this order or more of those below order 5 that start in some first low words of a group.
fn first_low(
    low: &Metered<Word>,
    group: usize,
    words: u32,
    order: Order,
    meter: &mut Meter,
) -> Option<(PageAt, Order)>
    requires group { group < MOST_GROUPS }
    requires words { words ≤ PLACES }
    requires inside { PLACES * group + words ≤ length low.now }
    requires order { order < WORD_LEVELS }
    requires alone { IsLowAlone low.now }
    requires count { meter.old < 2 ^ 33 }
    ensures first { IsFirstLow low.now (PLACES * group) words order result }
    ensures counted { meter.new ≤ meter.old + words }
    ensures read { meter.old ≤ meter.new }
{
    let first = first_word(group);
    'words: for word in 0..words {
        let number = first + word as usize;
        if let Some((place, level)) = low.read(number, meter).first(order.number()) {
            let at = PageAt::at(PLACES * number as u32 + place);
            return Some((at, Order::new(level)?));
        }
    }
    None
}

/// The first block of this order or more of those from order 5 on of a group. Where its rank says that there are none, no word is read.
fn first_high(
    high: &Metered<Word>,
    group: usize,
    rank: Rank,
    order: Order,
    meter: &mut Meter,
) -> Option<(PageAt, Order)>
    requires group { group < length high.now }
    requires few { length high.now ≤ MOST_GROUPS }
    requires rank { (i o : ℕ) → HasHigh high.now i o → i / GROUP_PAGES ≡ group → o < rank }
    requires count { meter.old < 2 ^ 33 }
    ensures first { IsFirstHigh high.now group order result }
    ensures counted { meter.new ≤ meter.old + 1 }
    ensures read { meter.old ≤ meter.new }
    ensures none { rank ≤ WORD_LEVELS → meter.new ≡ meter.old }
{
    if rank.number() <= WORD_LEVELS {
        return None;
    }
    let least = order.number().max(WORD_LEVELS) - WORD_LEVELS;
    let (place, level) = high.read(group, meter).first(least)?;
    let at = PageAt::at(GROUP_PAGES * group as u32 + PLACES * place);
    Some((at, Order::new(level + WORD_LEVELS)?))
}

/// How many low words of a group come before a block.
fn words_before(block: &Option<(PageAt, Order)>) -> u32
    ensures words { result ≡ words_before block.now }
    ensures within { result ≤ PLACES }
{
    match block {
        Some((at, _)) => high_place(*at),
        None => PLACES,
    }
}

/// The first block of this order or more of a group with blocks of this rank, or nearly. At most as many words are read as it has low ones,
/// and for order 5 or more one.
pub fn first_of(
    low: &Metered<Word>,
    high: &Metered<Word>,
    group: usize,
    rank: Rank,
    order: Order,
    meter: &mut Meter,
) -> Option<(PageAt, Order)>
    requires words { IsWords low.now high.now }
    requires group { group < length high.now }
    requires few { length high.now ≤ MOST_GROUPS }
    requires rank { IsNearRank low.now high.now group rank }
    requires count { meter.old < 2 ^ 32 + 2 ^ 31 }
    ensures first { IsFirstMark low.now high.now group order result }
    ensures counted { meter.new ≤ meter.old + PLACES }
    ensures large { WORD_LEVELS ≤ order → meter.new ≤ meter.old + 1 }
    ensures read { meter.old ≤ meter.new }
{
    let found = first_high(high, group, rank, order, meter);
    if order.number() >= WORD_LEVELS {
        return found;
    }
    let words = words_before(&found);
    if let Some(block) = first_low(low, group, words, order, meter) {
        return Some(block);
    }
    found
}

/// The order of a level of a word, where the word's places have the order `place`.
fn order_of(level: Option<u8>, place: u8) -> Option<Order>
    requires { IfSome level (λ l. l + place ≤ LARGEST_ORDER) }
    ensures { result ≡ order_at level place }
{
    match level {
        Some(number) => Order::new(number + place),
        None => None,
    }
}

/// The largest order of a block that lies in the range of this order at a page.
pub fn largest_in(
    low: &Metered<Word>,
    high: &Metered<Word>,
    at: PageAt,
    order: Order,
) -> Option<Order>
    requires words { IsWords low.now high.now }
    requires aligned { IsInGroups high.now at order }
    ensures { IsLargestMark low.now high.now at order result }
{
    let mut meter = Meter::new();
    let level = order.number();
    if level < WORD_LEVELS {
        let word = low.read(low_word(at), &mut meter);
        return order_of(word.largest_in(low_place(at), level), 0);
    }
    let above = level - WORD_LEVELS;
    let word = high.read(group_of(at), &mut meter);
    if let Some(order) = order_of(word.largest_in(high_place(at), above), WORD_LEVELS) {
        return Some(order);
    }
    order_of(
        union(low, low_word(at), 1 << above, &mut meter).largest(),
        0,
    )
}
