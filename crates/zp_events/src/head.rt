//! The head of a line: the task, the CPU, the time, and the event's name.
ghost use Rattle.std.specs.Prelude.{◌≡◌, ◌++◌, ℕ, List, drop, IfSome, IfNone, MatchBool};
ghost use Rattle.zp_events.specs.declared.event.EventName.{EventName};
ghost use Rattle.zp_events.specs.Lines.{IsMark, IsLastMark, name_text, IsNamed, IsSpacedName, EndsInName, HoldsEventName};

use crate::event::EventName;
use crate::number::small_number_of;
use crate::words::{before, behind, split_at_byte, split_spaces};

/// The CPU whose mark stands at the front of a text, and what stands behind the mark.
fn mark_at(text: &[u8]) -> Option<(u32, &[u8])>
    ensures some { IfSome result (λ x. IsMark text.now x.0 x.1.now) }
    ensures none { IfNone result ((cpu : ℕ) (rest : List ℕ) → IsMark text.now cpu rest → ⊥) }
{
    let inside = behind(text, b" [")?;
    let (number, after) = split_at_byte(inside, b']')?;
    let cpu = small_number_of(number)?;
    let rest = behind(after, b" ")?;
    Some((cpu, rest))
}

/// The CPU of the last mark of a text.
fn last_mark(text: &[u8]) -> Option<u32>
    ensures some { IfSome result (λ cpu. (rest : List ℕ) × IsLastMark text.now cpu rest) }
    ensures none { IfNone result ((place cpu : ℕ) (rest : List ℕ) → IsMark (drop place text.now) cpu rest → ⊥) }
{
    let mut at = text.len();
    'places: while at > 0 {
        at -= 1;
        if let Some((cpu, _rest)) = mark_at(&text[at..]) {
            return Some(cpu);
        }
    }
    None
}

/// The event that a text names at its front, and what stands behind its name.
fn plain_name(text: &[u8]) -> Option<(EventName, &[u8])>
    ensures some { IfSome result (λ x. text.now ≡ name_text x.0 ++ x.1.now) }
    ensures none { IfNone result ((name : EventName) (rest : List ℕ) → text.now ≡ name_text name ++ rest → ⊥) }
{
    if let Some(rest) = behind(text, b"mm_page_alloc:") {
        return Some((EventName::Alloc, rest));
    }
    if let Some(rest) = behind(text, b"mm_page_free:") {
        return Some((EventName::Free, rest));
    }
    let rest = behind(text, b"mm_page_alloc_extfrag:")?;
    Some((EventName::Fallback, rest))
}

/// The event that a text names at its front, as one of the tools does, and what stands behind its name.
fn event_name(text: &[u8]) -> Option<(EventName, &[u8])>
    ensures some { IfSome result (λ x. IsNamed text.now x.0 x.1.now) }
    ensures none { IfNone result ((name : EventName) (rest : List ℕ) → IsNamed text.now name rest → ⊥) }
{
    if let Some(named) = behind(text, b"kmem:") {
        return plain_name(named);
    }
    plain_name(text)
}

/// The event that a text names behind one space or more, and what stands behind its name.
fn spaced_name(text: &[u8]) -> Option<(EventName, &[u8])>
    ensures some { IfSome result (λ x. IsSpacedName text.now x.0 x.1.now) }
    ensures none { IfNone result ((name : EventName) (rest : List ℕ) → IsSpacedName text.now name rest → ⊥) }
{
    let (spaces, named) = split_spaces(text)?;
    if spaces.is_empty() {
        return None;
    }
    event_name(named)
}

/// The CPU, the event's name and what stands behind that, where they stand before and behind a colon.
pub fn named_beside<'a>(front: &[u8], rest: &'a [u8]) -> Option<(u32, EventName, &'a [u8])>
    ensures name { IfSome result (λ x. IsSpacedName rest.now x.1 x.2.now) }
    ensures mark { IfSome result (λ x. (time : List ℕ) × IsLastMark front.now x.0 time) }
    ensures none { IfNone result ((cpu : ℕ) (time : List ℕ) (name : EventName) (fields : List ℕ) → IsLastMark front.now cpu time → IsSpacedName rest.now name fields → ⊥) }
{
    let (name, fields) = spaced_name(rest)?;
    let cpu = last_mark(front)?;
    Some((cpu, name, fields))
}

/// Whether a text ends in the name of an event, but for its colon.
fn ends_in_name(text: &[u8]) -> bool
    ensures { MatchBool result (EndsInName text.now) (EndsInName text.now → ⊥) }
{
    if let Some(_front) = before(text, b"mm_page_alloc") {
        return true;
    }
    if let Some(_front) = before(text, b"mm_page_free") {
        return true;
    }
    if let Some(_front) = before(text, b"mm_page_alloc_extfrag") {
        return true;
    }
    false
}

/// Whether the name of an event, with its colon, stands anywhere in a line.
pub fn holds_event_name(line: &[u8]) -> bool
    ensures { MatchBool result (HoldsEventName line.now) (HoldsEventName line.now → ⊥) }
{
    let mut rest = line;
    'colons: while let Some((front, behind)) = split_at_byte(rest, b':') {
        if ends_in_name(front) {
            return true;
        }
        rest = behind;
    }
    false
}
