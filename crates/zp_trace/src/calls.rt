//! Worker lines, from their words.
ghost use Rattle.std.specs.Prelude.{◌≡◌, ◌↔◌, List, ℕ, IsTrue, IfSome, IfNone};
ghost use Rattle.zp_model.specs.declared.migrate_type.MigrateType.{MigrateType};
ghost use Rattle.zp_model.specs.declared.mark.Mark.{Mark};
ghost use Rattle.zp_trace.specs.declared.trace.Header.{Header};
ghost use Rattle.zp_trace.specs.declared.line.Call.{Call};
ghost use Rattle.zp_trace.specs.declared.line.Call.TheVariants.{Info, Alloc, Low, Free, Post, Collect, Drain, Isolate, Release};
ghost use Rattle.zp_trace.specs.declared.line.CommandLine.{CommandLine};
ghost use Rattle.zp_trace.specs.Spelling.{spelled, call_words, command_words};
ghost use Rattle.zp_trace.specs.Grammar.{IsHeader, IsDeclared, IsCallOf, IsCommandOf};

use crate::line::{Call, CommandLine};
use crate::trace::Header;
use crate::values::{is_text, is_word, kind_of, mark_of, order_of, pageblock_of, worker_of};
use zp_model::Name;

fn is_info(words: &[&[u8]]) -> bool
    ensures { IsTrue result ↔ (spelled words.now ≡ call_words Info) }
{
    match words {
        [keyword] => is_text(keyword, "info"),
        _ => false,
    }
}

fn is_drain(words: &[&[u8]]) -> bool
    ensures { IsTrue result ↔ (spelled words.now ≡ call_words Drain) }
{
    match words {
        [keyword] => is_text(keyword, "drain"),
        _ => false,
    }
}

/// The declared name that a word is.
fn zone_named(header: &Header, word: &[u8]) -> Option<Name>
    ensures some { IfSome result (λ name. IsDeclared header.now name × (word.now ≡ name)) }
    ensures none { IfNone result ((name : List ℕ) → IsDeclared header.now name → word.now ≡ name → ⊥) }
{
    let zones = header.zones.as_slice();
    let at = zones
        .iter()
        .position(|zone| is_word(word, zone.name.as_bytes()))?;
    Some(zones[at].name)
}

/// The alloc of such words after this header.
fn alloc_of(header: &Header, words: &[&[u8]]) -> Option<Call>
    ensures some { IfSome result (λ call. IsCallOf header.now call × (spelled words.now ≡ call_words call)) }
    ensures none { IfNone result ((label : List ℕ) (order : ℕ) (kind : MigrateType) (zone : List ℕ) (mark : Mark)
        → IsCallOf header.now (Alloc label order kind zone mark) → spelled words.now ≡ call_words (Alloc label order kind zone mark) → ⊥) }
{
    let [keyword, label, order, kind, zone, mark] = words else {
        return None;
    };
    if !is_text(keyword, "alloc") {
        return None;
    }
    let label = Name::new(label)?;
    let order = order_of(order)?;
    let kind = kind_of(kind)?;
    let zone = zone_named(header, zone)?;
    let mark = mark_of(mark)?;
    Some(Call::Alloc {
        label,
        order,
        kind,
        zone,
        mark,
    })
}

/// The low of such words after this header.
fn low_of(header: &Header, words: &[&[u8]]) -> Option<Call>
    ensures some { IfSome result (λ call. IsCallOf header.now call × (spelled words.now ≡ call_words call)) }
    ensures none { IfNone result ((label : List ℕ) (order : ℕ) (zone : List ℕ)
        → IsCallOf header.now (Low label order zone) → spelled words.now ≡ call_words (Low label order zone) → ⊥) }
{
    let [keyword, label, order, zone] = words else {
        return None;
    };
    if !is_text(keyword, "low") {
        return None;
    }
    let label = Name::new(label)?;
    let order = order_of(order)?;
    let zone = zone_named(header, zone)?;
    Some(Call::Low { label, order, zone })
}

/// The free of such words.
fn free_of(words: &[&[u8]]) -> Option<Call>
    ensures some { IfSome result (λ call. (header : Header) → IsCallOf header call × (spelled words.now ≡ call_words call)) }
    ensures none { IfNone result ((header : Header) (label : List ℕ)
        → IsCallOf header (Free label) → spelled words.now ≡ call_words (Free label) → ⊥) }
{
    let [keyword, label] = words else {
        return None;
    };
    if !is_text(keyword, "free") {
        return None;
    }
    let label = Name::new(label)?;
    Some(Call::Free { label })
}

/// The post of such words after this header.
fn post_of(header: &Header, words: &[&[u8]]) -> Option<Call>
    requires { IsHeader header.now }
    ensures some { IfSome result (λ call. IsCallOf header.now call × (spelled words.now ≡ call_words call)) }
    ensures none { IfNone result ((label : List ℕ) (to : ℕ)
        → IsCallOf header.now (Post label to) → spelled words.now ≡ call_words (Post label to) → ⊥) }
{
    let [keyword, label, to] = words else {
        return None;
    };
    if !is_text(keyword, "post") {
        return None;
    }
    let label = Name::new(label)?;
    let to = worker_of(to, header.workers)?;
    Some(Call::Post { label, to })
}

/// The collect of such words after this header.
fn collect_of(header: &Header, words: &[&[u8]]) -> Option<Call>
    ensures some { IfSome result (λ call. IsCallOf header.now call × (spelled words.now ≡ call_words call)) }
    ensures none { IfNone result ((label : List ℕ) (zone : List ℕ)
        → IsCallOf header.now (Collect label zone) → spelled words.now ≡ call_words (Collect label zone) → ⊥) }
{
    let [keyword, label, zone] = words else {
        return None;
    };
    if !is_text(keyword, "collect") {
        return None;
    }
    let label = Name::new(label)?;
    let zone = zone_named(header, zone)?;
    Some(Call::Collect { label, zone })
}

/// The isolate of such words after this header.
fn isolate_of(header: &Header, words: &[&[u8]]) -> Option<Call>
    ensures some { IfSome result (λ call. IsCallOf header.now call × (spelled words.now ≡ call_words call)) }
    ensures none { IfNone result ((zone : List ℕ) (pageblock : ℕ)
        → IsCallOf header.now (Isolate zone pageblock) → spelled words.now ≡ call_words (Isolate zone pageblock) → ⊥) }
{
    let [keyword, zone, pageblock] = words else {
        return None;
    };
    if !is_text(keyword, "isolate") {
        return None;
    }
    let zone = zone_named(header, zone)?;
    let pageblock = pageblock_of(pageblock)?;
    Some(Call::Isolate { zone, pageblock })
}

/// The release of such words after this header.
fn release_of(header: &Header, words: &[&[u8]]) -> Option<Call>
    ensures some { IfSome result (λ call. IsCallOf header.now call × (spelled words.now ≡ call_words call)) }
    ensures none { IfNone result ((zone : List ℕ) (pageblock : ℕ) (kind : MigrateType)
        → IsCallOf header.now (Release zone pageblock kind) → spelled words.now ≡ call_words (Release zone pageblock kind) → ⊥) }
{
    let [keyword, zone, pageblock, kind] = words else {
        return None;
    };
    if !is_text(keyword, "release") {
        return None;
    }
    let zone = zone_named(header, zone)?;
    let pageblock = pageblock_of(pageblock)?;
    let kind = kind_of(kind)?;
    Some(Call::Release {
        zone,
        pageblock,
        kind,
    })
}

/// What such words ask for after this header.
fn call_of(header: &Header, words: &[&[u8]]) -> Option<Call>
    requires { IsHeader header.now }
    ensures some { IfSome result (λ call. IsCallOf header.now call × (spelled words.now ≡ call_words call)) }
    ensures none { IfNone result ((call : Call) → IsCallOf header.now call → spelled words.now ≡ call_words call → ⊥) }
{
    if is_info(words) {
        return Some(Call::Info);
    }
    if is_drain(words) {
        return Some(Call::Drain);
    }
    if let Some(call) = alloc_of(header, words) {
        return Some(call);
    }
    if let Some(call) = low_of(header, words) {
        return Some(call);
    }
    if let Some(call) = post_of(header, words) {
        return Some(call);
    }
    if let Some(call) = collect_of(header, words) {
        return Some(call);
    }
    if let Some(call) = isolate_of(header, words) {
        return Some(call);
    }
    if let Some(call) = release_of(header, words) {
        return Some(call);
    }
    free_of(words)
}

/// The command of such words after this header.
pub fn command_of(header: &Header, words: &[&[u8]]) -> Option<CommandLine>
    requires { IsHeader header.now }
    ensures some { IfSome result (λ c. IsCommandOf header.now c × (spelled words.now ≡ command_words c)) }
    ensures none { IfNone result ((c : CommandLine) → IsCommandOf header.now c → spelled words.now ≡ command_words c → ⊥) }
{
    let [worker, call @ ..] = words else {
        return None;
    };
    let worker = worker_of(worker, header.workers)?;
    let call = call_of(header, call)?;
    Some(CommandLine { worker, call })
}
