//! The lines before the worker lines, from their words.
ghost use Rattle.std.specs.Prelude.{◌≡◌, ◌<◌, ◌≤◌, ◌+◌, ◌↔◌, ℕ, Option, length, All, IsTrue, IfSome, IfNone};
ghost use Rattle.zp_model.specs.declared.constants.TheConstants.{TRACE_ZONES};
ghost use Rattle.zp_trace.specs.declared.line.ZoneLine.{ZoneLine};
ghost use Rattle.zp_model.specs.Bounds.{IsCrew, IsLargest, AreLists};
ghost use Rattle.zp_trace.specs.Spelling.{spelled, largest_words, zone_words, workers_words, lists_words};
ghost use Rattle.zp_trace.specs.Grammar.{IsZoneLine, IsAbove};

use crate::line::ZoneLine;
use crate::values::{base_of, crew_of, is_text, largest_of, min_of, pages_of};
use zp_model::{LONGEST_LIST, Largest, MAX_BATCH, Name, TRACE_ZONES};
use zp_numbers::parse_u32;

/// The largest order that such words name, which are no words where a line names none.
fn named_largest(words: &[&[u8]]) -> Option<Option<Largest>>
    ensures some { IfSome result (λ named. IfSome named IsLargest × (spelled words.now ≡ largest_words named)) }
    ensures none { IfNone result ((named : Option ℕ) → IfSome named IsLargest → spelled words.now ≡ largest_words named → ⊥) }
{
    match words {
        [] => Some(None),
        [word] => Some(Some(largest_of(word)?)),
        _ => None,
    }
}

/// The zone that such words declare.
pub fn zone_of(words: &[&[u8]]) -> Option<ZoneLine>
    ensures some { IfSome result (λ z. IsZoneLine z × (spelled words.now ≡ zone_words z)) }
    ensures none { IfNone result ((z : ZoneLine) → IsZoneLine z → spelled words.now ≡ zone_words z → ⊥) }
{
    let [keyword, name, base, pages, min, more @ ..] = words else {
        return None;
    };
    if !is_text(keyword, "zone") {
        return None;
    }
    let name = Name::new(name)?;
    let base = base_of(base)?;
    let pages = pages_of(pages)?;
    let min = min_of(min, pages)?;
    let largest = named_largest(more)?;
    Some(ZoneLine {
        name,
        base,
        pages,
        min,
        largest,
    })
}

/// Whether a zone begins at the end of one before it or above.
fn begins_above(zone: &ZoneLine, other: &ZoneLine) -> bool
    ensures { IsTrue result ↔ (other.now.base + other.now.pages ≤ zone.now.base) }
{
    other.base <= zone.base && other.pages <= zone.base - other.base
}

/// Whether it begins so, and has another name.
fn is_above(zone: &ZoneLine, other: &ZoneLine) -> bool
    ensures { IsTrue result ↔ IsAbove zone.now other.now }
{
    begins_above(zone, other) && other.name.as_bytes() != zone.name.as_bytes()
}

/// Whether there may be one zone more after these, and this zone is above each of them.
pub fn may_follow(before: &[ZoneLine], zone: &ZoneLine) -> bool
    ensures { IsTrue result ↔ ((length before.now < TRACE_ZONES) × All (IsAbove zone.now) before.now) }
{
    before.len() < TRACE_ZONES && before.iter().all(|other| is_above(zone, other))
}

/// How many workers such words say that there are.
pub fn workers_of(words: &[&[u8]]) -> Option<u32>
    ensures some { IfSome result (λ n. IsCrew n × (spelled words.now ≡ workers_words n)) }
    ensures none { IfNone result ((n : ℕ) → IsCrew n → spelled words.now ≡ workers_words n → ⊥) }
{
    let [keyword, count] = words else {
        return None;
    };
    if !is_text(keyword, "workers") {
        return None;
    }
    crew_of(count)
}

/// Whether workers' lists may get so many pages at a time, and have so many.
fn may_be_lists(batch: u32, high: u32) -> bool
    ensures { IsTrue result ↔ AreLists batch high }
{
    let none = batch == 0 && high == 0;
    let some = 1 <= batch
        && batch as usize <= MAX_BATCH
        && batch < high
        && high as usize <= LONGEST_LIST;
    none || some
}

/// The two numbers of pages that such words say of the workers' lists.
pub fn lists_of(words: &[&[u8]]) -> Option<(u32, u32)>
    ensures some { IfSome result (λ x. AreLists x.0 x.1 × (spelled words.now ≡ lists_words x.0 x.1)) }
    ensures none { IfNone result ((batch high : ℕ) → AreLists batch high → spelled words.now ≡ lists_words batch high → ⊥) }
{
    let [keyword, batch, high] = words else {
        return None;
    };
    if !is_text(keyword, "lists") {
        return None;
    }
    let batch = parse_u32(batch)?;
    let high = parse_u32(high)?;
    if may_be_lists(batch, high) {
        Some((batch, high))
    } else {
        None
    }
}
