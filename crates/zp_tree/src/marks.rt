//! The bits of blocks in the low and the high words.
ghost use Rattle.std.specs.Prelude.{◌≡◌, ◌≤◌, ◌<◌, ◌+◌, ◌^◌, ℕ, List, cond, length};
ghost use Rattle.zp_model.specs.Block.{head};
ghost use Rattle.zp_tree.specs.declared.constants.TheConstants.{WORD_LEVELS, MOST_GROUPS};
ghost use Rattle.zp_tree.specs.Marks.{mark, AreEmptied, IsWords, IsInGroups, IsGroupCleared, IsRemarked, IsJoinedUp, IsSplitTowards, IsSplitUp};

use crate::constants::{PLACES, WORD_LEVELS};
use crate::groups::first_word;
use crate::meter::Meter;
use crate::metered::Metered;
use crate::place::{group_of, high_place, low_place, low_word};
use crate::word::Word;
use zp_model::{Order, PageAt};

/// Sets the bit of a block, or clears it.
#[inline(always)]
pub fn put_mark(
    low: &mut Metered<Word>,
    high: &mut Metered<Word>,
    at: PageAt,
    order: Order,
    is_set: bool,
)
    requires words { IsWords low.old high.old }
    requires inside { IsInGroups high.old at order }
    ensures { IsRemarked low.old high.old low.new high.new at order (cond is_set 1 0) }
{
    let mut meter = Meter::new();
    let level = order.number();
    if level < WORD_LEVELS {
        let word = low_word(at);
        let old = low.read(word, &mut meter);
        low.write(word, old.put(low_place(at), level, is_set));
    } else {
        let word = group_of(at);
        let old = high.read(word, &mut meter);
        high.write(word, old.put(high_place(at), level - WORD_LEVELS, is_set));
    }
}

/// Clears the bit of a block of order `from`, and sets those of the high halves that are left where it is split down to order `to`. One
/// word is written, and a second one where the chain goes from a high word into a low one.
#[inline]
pub fn split_marks(
    low: &mut Metered<Word>,
    high: &mut Metered<Word>,
    at: PageAt,
    from: Order,
    to: Order,
)
    requires words { IsWords low.old high.old }
    requires inside { IsInGroups high.old at from }
    requires down { to ≤ from }
    ensures { IsSplitUp low.old high.old low.new high.new at from to }
{
    let mut meter = Meter::new();
    let top = from.number();
    let least = to.number();
    let word = low_word(at);
    if top < WORD_LEVELS {
        let place = low_place(at);
        let old = low.read(word, &mut meter);
        let new = old.without(place, top).with_halves(place, top, least);
        low.write(word, new);
        return;
    }
    if least < WORD_LEVELS {
        split_high(high, at, top, WORD_LEVELS);
        let old = low.read(word, &mut meter);
        low.write(word, old.with_halves(0, WORD_LEVELS, least));
    } else {
        split_high(high, at, top, least);
    }
}

/// The same in a high word alone, for the orders of these numbers.
#[inline(always)]
fn split_high(high: &mut Metered<Word>, at: PageAt, from: u8, to: u8)
    requires inside { IsInGroups high.old at from }
    requires down { to ≤ from }
    requires high { WORD_LEVELS ≤ to }
    ensures { (ls : List ℕ) → IsWords ls high.old → IsSplitUp ls high.old ls high.new at from to }
{
    let mut meter = Meter::new();
    let group = group_of(at);
    let place = high_place(at);
    let level = from - WORD_LEVELS;
    let old = high.read(group, &mut meter);
    let new = old
        .without(place, level)
        .with_halves(place, level, to - WORD_LEVELS);
    high.write(group, new);
}

/// Clears the bit of the block of order `from` around a page, and sets those of the halves beside the page that are left where it is split
/// down to order `to`: the buddies of the runs around the page. One word is written, and a second one where the chain goes from a high word
/// into a low one.
#[inline]
pub fn split_marks_around(
    low: &mut Metered<Word>,
    high: &mut Metered<Word>,
    at: PageAt,
    from: Order,
    to: Order,
)
    requires words { IsWords low.old high.old }
    requires inside { IsInGroups high.old (head at from) from }
    requires down { to ≤ from }
    ensures { IsSplitTowards low.old high.old low.new high.new at from to }
{
    let mut meter = Meter::new();
    let top = from.number();
    let least = to.number();
    let word = low_word(at);
    if least >= WORD_LEVELS {
        split_high_around(high, at, top, least);
        return;
    }
    let place = low_place(at);
    let old = low.read(word, &mut meter);
    if top < WORD_LEVELS {
        let left = old.without_around(place, top);
        low.write(word, left.with_buddies(place, least, top));
        return;
    }
    low.write(word, old.with_buddies(place, least, WORD_LEVELS));
    split_high_around(high, at, top, WORD_LEVELS);
}

/// The same in a high word alone, for the orders of these numbers.
#[inline(always)]
fn split_high_around(high: &mut Metered<Word>, at: PageAt, from: u8, to: u8)
    requires inside { IsInGroups high.old (head at from) from }
    requires down { to ≤ from }
    requires high { WORD_LEVELS ≤ to }
    ensures { (ls : List ℕ) → IsWords ls high.old → IsSplitTowards ls high.old ls high.new at from to }
{
    let mut meter = Meter::new();
    let group = group_of(at);
    let place = high_place(at);
    let level = from - WORD_LEVELS;
    let old = high.read(group, &mut meter);
    let left = old.without_around(place, level);
    high.write(group, left.with_buddies(place, to - WORD_LEVELS, level));
}

/// Clears the bits of the buddies of the runs around a page, of orders `from` to below `to`, and sets that of the block of order `to`
/// around it. One word is written, and a second one where the chain goes from a low word into a high one.
#[inline]
pub fn join_marks(
    low: &mut Metered<Word>,
    high: &mut Metered<Word>,
    at: PageAt,
    from: Order,
    to: Order,
)
    requires words { IsWords low.old high.old }
    requires inside { IsInGroups high.old (head at to) to }
    requires up { from ≤ to }
    ensures { IsJoinedUp low.old high.old low.new high.new at from to }
{
    let mut meter = Meter::new();
    let least = from.number();
    let top = to.number();
    let word = low_word(at);
    if least >= WORD_LEVELS {
        join_high(high, at, least, top);
        return;
    }
    let place = low_place(at);
    let old = low.read(word, &mut meter);
    if top < WORD_LEVELS {
        let left = old.without_buddies(place, least, top);
        low.write(word, left.with_around(place, top));
        return;
    }
    low.write(word, old.without_buddies(place, least, WORD_LEVELS));
    join_high(high, at, WORD_LEVELS, top);
}

/// The same in a high word alone, for the orders of these numbers.
#[inline(always)]
fn join_high(high: &mut Metered<Word>, at: PageAt, from: u8, to: u8)
    requires inside { IsInGroups high.old (head at to) to }
    requires up { from ≤ to }
    requires high { WORD_LEVELS ≤ from }
    ensures { (ls : List ℕ) → IsWords ls high.old → IsJoinedUp ls high.old ls high.new at from to }
{
    let mut meter = Meter::new();
    let group = group_of(at);
    let place = high_place(at);
    let level = to - WORD_LEVELS;
    let old = high.read(group, &mut meter);
    let left = old.without_buddies(place, from - WORD_LEVELS, level);
    high.write(group, left.with_around(place, level));
}

/// Empties so many words from one on.
fn empty_words(words: &mut Metered<Word>, from: usize, count: usize)
    requires inside { from + count ≤ length words.old }
    requires room { from + count < 2 ^ 64 }
    ensures { AreEmptied words.old words.new from count }
{
    'words: for place in 0..count {
        words.write(from + place, Word::empty());
    }
}

/// Clears the bits of all blocks of a group.
pub fn clear_marks(low: &mut Metered<Word>, high: &mut Metered<Word>, group: usize)
    requires words { IsWords low.old high.old }
    requires group { group < length high.old }
    requires few { length high.old ≤ MOST_GROUPS }
    ensures { IsGroupCleared low.old high.old low.new high.new group }
{
    empty_words(low, first_word(group), PLACES as usize);
    high.write(group, Word::empty());
}
