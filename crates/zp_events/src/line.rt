//! One line of page events.
ghost use Rattle.std.specs.Prelude.{◌≡◌, ◌↔◌, IfSome, IfNone};
ghost use Rattle.zp_events.specs.declared.event.Line.TheVariants as said;
ghost use Rattle.zp_events.specs.declared.event.PageEvent.{PageEvent};
ghost use Rattle.zp_events.specs.Lines.{IsBeginning, IsEvent, BeginsAsEvent, IsBroken};

use crate::event::{EventName, Line, PageEvent};
use crate::fields::action_of;
use crate::head::named_beside;
use crate::words::split_at_byte;

/// The CPU of a line that begins as one of an event, the event's name, and what stands behind the name.
fn beginning_of(line: &[u8]) -> Option<(u32, EventName, &[u8])>
    ensures some { IfSome result (λ x. IsBeginning line.now x.0 x.1 x.2.now) }
    ensures none { IfNone result (BeginsAsEvent line.now → ⊥) }
{
    let mut rest = line;
    'colons: while let Some((before, behind)) = split_at_byte(rest, b':') {
        if let Some((cpu, name, fields)) = named_beside(before, behind) {
            return Some((cpu, name, fields));
        }
        rest = behind;
    }
    None
}

/// What a line of a text of page events, without its line feed, is.
pub fn read_line(line: &[u8]) -> Line
    ensures event { (event : PageEvent) → (result ≡ said.Event event) ↔ IsEvent line.now event }
    ensures broken { (result ≡ said.Broken) ↔ IsBroken line.now }
    ensures other { (result ≡ said.Other) ↔ (BeginsAsEvent line.now → ⊥) }
{
    let Some((cpu, name, fields)) = beginning_of(line) else {
        return Line::Other;
    };
    let Some(action) = action_of(name, fields) else {
        return Line::Broken;
    };
    Line::Event(PageEvent { cpu, action })
}
