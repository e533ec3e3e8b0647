//! Numbers, types and marks, from the word that writes each.
ghost use Rattle.std.specs.Prelude.{◌≡◌, ◌<◌, ◌≤◌, ◌↔◌, ℕ, IsTrue, IfSome, IfNone};
ghost use Rattle.std.specs.Fmt.{decimal};
ghost use Rattle.zp_model.specs.declared.migrate_type.MigrateType.{MigrateType};
ghost use Rattle.zp_model.specs.declared.mark.Mark.{Mark};
ghost use Rattle.zp_model.specs.Bounds.{IsBase, IsPages, IsLargest, IsCrew};
ghost use Rattle.zp_trace.specs.Spelling.{kind_word, mark_word};

use crate::bounds::LARGEST_PAGEBLOCK;
use zp_model::{
    BASE_STEP, LARGEST_ORDER, Largest, MAX_WORKERS, Mark, MigrateType, NARROW_BASE_LIMIT,
    NARROW_PAGES, Order, Worker,
};
use zp_numbers::parse_u32;

pub fn is_word(word: &[u8], other: &[u8]) -> bool
    ensures { IsTrue result ↔ (word.now ≡ other.now) }
{
    word == other
}

/// Whether a word is this text.
pub fn is_text(word: &[u8], text: &str) -> bool
    ensures { IsTrue result ↔ (word.now ≡ text.now) }
{
    is_word(word, text.as_bytes())
}

/// A zone's base.
pub fn base_of(word: &[u8]) -> Option<u32>
    ensures some { IfSome result (λ n. IsBase n × (word.now ≡ decimal n)) }
    ensures none { IfNone result ((n : ℕ) → IsBase n → word.now ≡ decimal n → ⊥) }
{
    let base = parse_u32(word)?;
    if base % BASE_STEP == 0 && base <= NARROW_BASE_LIMIT {
        Some(base)
    } else {
        None
    }
}

/// How many pages a zone has.
pub fn pages_of(word: &[u8]) -> Option<u32>
    ensures some { IfSome result (λ n. IsPages n × (word.now ≡ decimal n)) }
    ensures none { IfNone result ((n : ℕ) → IsPages n → word.now ≡ decimal n → ⊥) }
{
    let pages = parse_u32(word)?;
    if 0 < pages && pages <= NARROW_PAGES {
        Some(pages)
    } else {
        None
    }
}

/// The least mark of a zone of so many pages.
pub fn min_of(word: &[u8], pages: u32) -> Option<u32>
    ensures some { IfSome result (λ n. (n ≤ pages) × (word.now ≡ decimal n)) }
    ensures none { IfNone result ((n : ℕ) → n ≤ pages → word.now ≡ decimal n → ⊥) }
{
    let min = parse_u32(word)?;
    if min <= pages { Some(min) } else { None }
}

/// A zone's largest order.
pub fn largest_of(word: &[u8]) -> Option<Largest>
    ensures some { IfSome result (λ m. IsLargest m × (word.now ≡ decimal m)) }
    ensures none { IfNone result ((m : ℕ) → IsLargest m → word.now ≡ decimal m → ⊥) }
{
    let largest = parse_u32(word)?;
    if largest <= LARGEST_ORDER as u32 {
        Largest::new(largest as u8)
    } else {
        None
    }
}

/// How many workers there are.
pub fn crew_of(word: &[u8]) -> Option<u32>
    ensures some { IfSome result (λ n. IsCrew n × (word.now ≡ decimal n)) }
    ensures none { IfNone result ((n : ℕ) → IsCrew n → word.now ≡ decimal n → ⊥) }
{
    let workers = parse_u32(word)?;
    if 0 < workers && workers <= MAX_WORKERS {
        Some(workers)
    } else {
        None
    }
}

/// The number of one of so many workers.
pub fn worker_of(word: &[u8], workers: u32) -> Option<Worker>
    requires { IsCrew workers }
    ensures some { IfSome result (λ w. (w < workers) × (word.now ≡ decimal w)) }
    ensures none { IfNone result ((w : ℕ) → w < workers → word.now ≡ decimal w → ⊥) }
{
    let number = parse_u32(word)?;
    if number < workers {
        Worker::new(number as u8)
    } else {
        None
    }
}

fn may_be_pageblock(number: u32) -> bool
    ensures { IsTrue result ↔ (number ≤ LARGEST_PAGEBLOCK) }
{
    number <= LARGEST_PAGEBLOCK
}

/// The number of a pageblock.
pub fn pageblock_of(word: &[u8]) -> Option<u32>
    ensures some { IfSome result (λ n. (n ≤ LARGEST_PAGEBLOCK) × (word.now ≡ decimal n)) }
    ensures none { IfNone result ((n : ℕ) → n ≤ LARGEST_PAGEBLOCK → word.now ≡ decimal n → ⊥) }
{
    let pageblock = parse_u32(word)?;
    if may_be_pageblock(pageblock) {
        Some(pageblock)
    } else {
        None
    }
}

pub fn order_of(word: &[u8]) -> Option<Order>
    ensures some { IfSome result (λ k. (k ≤ LARGEST_ORDER) × (word.now ≡ decimal k)) }
    ensures none { IfNone result ((k : ℕ) → k ≤ LARGEST_ORDER → word.now ≡ decimal k → ⊥) }
{
    let number = parse_u32(word)?;
    if number <= LARGEST_ORDER as u32 {
        Order::new(number as u8)
    } else {
        None
    }
}

pub fn kind_of(word: &[u8]) -> Option<MigrateType>
    ensures some { IfSome result (λ kind. word.now ≡ kind_word kind) }
    ensures none { IfNone result ((kind : MigrateType) → word.now ≡ kind_word kind → ⊥) }
{
    if is_text(word, "U") {
        Some(MigrateType::Unmovable)
    } else if is_text(word, "R") {
        Some(MigrateType::Reclaimable)
    } else if is_text(word, "M") {
        Some(MigrateType::Movable)
    } else {
        None
    }
}

pub fn mark_of(word: &[u8]) -> Option<Mark>
    ensures some { IfSome result (λ mark. word.now ≡ mark_word mark) }
    ensures none { IfNone result ((mark : Mark) → word.now ≡ mark_word mark → ⊥) }
{
    if is_text(word, "low") {
        Some(Mark::Low)
    } else if is_text(word, "min") {
        Some(Mark::Min)
    } else if is_text(word, "any") {
        Some(Mark::Any)
    } else {
        None
    }
}
