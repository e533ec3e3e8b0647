//! One line of buddyinfo.
ghost use Rattle.std.specs.Prelude.{◌≡◌, ◌<◌, ◌^◌, ◌++◌, ◌↔◌, ℕ, List, map, codes, IsTrue, IfSome, IfNone};
ghost use Rattle.std.specs.Fmt.{decimal};
ghost use Rattle.zp_buddyinfo.specs.Figures.{AreFreeBlocks};
ghost use Rattle.zp_buddyinfo.specs.Rows.{spelled, IsZoneName, IsRow, row_words};

use crate::bounds::ORDERS;
use crate::index::FreeBlocks;
use crate::words::is_text;
use arrayvec::ArrayVec;
use zp_numbers::{parse_u32, parse_u64};

/// A zone, as a line of buddyinfo gives it.
#[derive(Drop)]
pub struct BuddyinfoRow<'a> {
    pub node: u32,
    /// The zone's name, where it lies in the text.
    pub zone: &'a str,
    pub blocks: FreeBlocks,
}

/// Whether this may be a zone's name.
fn is_zone_name(word: &[u8]) -> bool
    ensures { IsTrue result ↔ IsZoneName word.now }
{
    !word.is_empty() && word.iter().all(|b| b.is_ascii_graphic())
}

/// The zone's name that a word is.
fn zone_of(word: &[u8]) -> Option<&str>
    ensures some { IfSome result (λ name. (word.now ≡ name.now) × IsZoneName name.now) }
    ensures none { IfNone result (IsZoneName word.now → ⊥) }
{
    if !is_zone_name(word) {
        return None;
    }
    let Ok(name) = str::from_utf8(word) else {
        return None;
    };
    Some(name)
}

/// The node that a word names: its number, and a comma.
fn node_of(word: &[u8]) -> Option<u32>
    ensures some { IfSome result (λ node. word.now ≡ decimal node ++ codes ",") }
    ensures none { IfNone result ((node : ℕ) → node < 2 ^ 32 → word.now ≡ decimal node ++ codes "," → ⊥) }
{
    let (comma, digits) = word.split_last()?;
    if *comma != b',' {
        return None;
    }
    parse_u32(digits)
}

/// The free blocks that words count, one for each order.
fn blocks_of(words: &[&[u8]]) -> Option<FreeBlocks>
    ensures some { IfSome result (λ blocks. AreFreeBlocks blocks × (spelled words.now ≡ map decimal blocks)) }
    ensures none { IfNone result ((blocks : List ℕ) → AreFreeBlocks blocks → spelled words.now ≡ map decimal blocks → ⊥) }
{
    let mut by_order: ArrayVec<u64, ORDERS> = ArrayVec::new();
    for word in words {
        if by_order.is_full() {
            return None;
        }
        by_order.push(parse_u64(word)?);
    }
    FreeBlocks::new(by_order)
}

/// The row that such words give.
pub fn row_of<'a>(words: &[&'a [u8]]) -> Option<BuddyinfoRow<'a>>
    ensures some { IfSome result (λ r. IsRow r.node r.zone.now r.blocks × (spelled words.now ≡ row_words r.node r.zone.now r.blocks)) }
    ensures none { IfNone result ((node : ℕ) (zone blocks : List ℕ) → IsRow node zone blocks → spelled words.now ≡ row_words node zone blocks → ⊥) }
{
    let [head, node, keyword, zone, counts @ ..] = words else {
        return None;
    };
    if !is_text(head, "Node") || !is_text(keyword, "zone") {
        return None;
    }
    let node = node_of(node)?;
    let zone = zone_of(zone)?;
    let blocks = blocks_of(counts)?;
    Some(BuddyinfoRow { node, zone, blocks })
}
