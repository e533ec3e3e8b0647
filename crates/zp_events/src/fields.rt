//! The fields of an event, which stand behind its name.
ghost use Rattle.std.specs.Prelude.{◌≡◌, ◌++◌, ◌∷◌, ℕ, List, Bool, IfSome, IfNone};
ghost use Rattle.zp_events.specs.declared.event.Action.{Action};
ghost use Rattle.zp_events.specs.declared.event.FrameBlock.{FrameBlock};
ghost use Rattle.zp_events.specs.Words.{words_of};
ghost use Rattle.zp_events.specs.Fields.{is_no_page, IsPlace, IsAllocation, IsFreeing, IsAction};

use crate::event::{Action, EventName, FrameBlock, PageRequest};
use crate::flags::zone_limit_of;
use crate::number::{frame_of, small_number_of};
use crate::words::{behind, first_word, is_blank, is_text};

/// What the first word of a text says behind this label, and what stands behind the word.
fn field<'a>(text: &'a [u8], label: &[u8]) -> Option<(&'a [u8], &'a [u8])>
    ensures some { IfSome result (λ x. words_of text.now ≡ (label.now ++ x.0.now) ∷ words_of x.1.now) }
    ensures none { IfNone result ((value : List ℕ) (more : List (List ℕ)) → words_of text.now ≡ (label.now ++ value) ∷ more → ⊥) }
{
    let (word, rest) = first_word(text)?;
    let value = behind(word, label)?;
    Some((value, rest))
}

/// Whether the address of a page is that of none.
#[tactic(auto, unfolding(crate::specs::Fields::is_no_page))]
fn is_no_page(page: &[u8]) -> bool
    ensures { result ≡ is_no_page page.now }
{
    is_text(page, b"(null)")
        | is_text(page, b"(nil)")
        | is_text(page, b"0x0")
        | is_text(page, b"0000000000000000")
}

/// Whether the first fields name no page, the block that they give, and what stands behind them.
fn place_of(text: &[u8]) -> Option<(bool, FrameBlock, &[u8])>
    ensures some { IfSome result (λ x. IsPlace (words_of text.now) x.0 x.1 (words_of x.2.now)) }
    ensures none { IfNone result ((no_page : Bool) (block : FrameBlock) (more : List (List ℕ)) → IsPlace (words_of text.now) no_page block more → ⊥) }
{
    let (page, behind_page) = field(text, b"page=")?;
    let (frame_text, behind_frame) = field(behind_page, b"pfn=")?;
    let (order_text, rest) = field(behind_frame, b"order=")?;
    let frame = frame_of(frame_text)?;
    let order = small_number_of(order_text)?;
    Some((is_no_page(page), FrameBlock { frame, order }, rest))
}

/// What the fields of `mm_page_alloc` say.
fn allocation(text: &[u8]) -> Option<Action>
    ensures some { IfSome result (λ action. IsAllocation (words_of text.now) action) }
    ensures none { IfNone result ((action : Action) → IsAllocation (words_of text.now) action → ⊥) }
{
    let (no_page, block, behind_place) = place_of(text)?;
    let (type_text, behind_type) = field(behind_place, b"migratetype=")?;
    let (flags, rest) = field(behind_type, b"gfp_flags=")?;
    let migrate_type = small_number_of(type_text)?;
    if !is_blank(rest) {
        return None;
    }
    let request = PageRequest {
        migrate_type,
        zone_limit: zone_limit_of(flags),
    };
    if no_page {
        Some(Action::Refuse(block, request))
    } else {
        Some(Action::Alloc(block, request))
    }
}

/// What the fields of `mm_page_free` say.
fn freeing(text: &[u8]) -> Option<Action>
    ensures some { IfSome result (λ action. IsFreeing (words_of text.now) action) }
    ensures none { IfNone result ((action : Action) → IsFreeing (words_of text.now) action → ⊥) }
{
    let (_no_page, block, rest) = place_of(text)?;
    if is_blank(rest) {
        Some(Action::Free(block))
    } else {
        None
    }
}

/// What the fields of an event of this name say.
pub fn action_of(name: EventName, text: &[u8]) -> Option<Action>
    ensures some { IfSome result (λ action. IsAction name (words_of text.now) action) }
    ensures none { IfNone result ((action : Action) → IsAction name (words_of text.now) action → ⊥) }
{
    match name {
        EventName::Alloc => allocation(text),
        EventName::Free => freeing(text),
        EventName::Fallback => Some(Action::Fallback),
    }
}
