//! The parser of whole texts.
ghost use Rattle.std.specs.Prelude.{◌≡◌, ◌++◌, List, ℕ, map, IfSome, IfNone, IfOk, Err, All};
ghost use Rattle.zp_model.specs.Bounds.{IsCrew, AreLists};
ghost use Rattle.zp_trace.specs.declared.line.ZoneLine.{ZoneLine};
ghost use Rattle.zp_trace.specs.declared.line.CommandLine.{CommandLine};
ghost use Rattle.zp_trace.specs.Lines as line;
ghost use Rattle.zp_trace.specs.declared.trace.TraceFault.TheVariants as fault;
ghost use Rattle.zp_trace.specs.Spelling.{line_text, text_of, header_of};
ghost use Rattle.zp_trace.specs.Grammar.{IsNextZone, IsHeader, IsCommandOf, IsNextCommand, IsBeginning, IsTraceText, IsBadLine};

use crate::bounds::MOST_LINES;
use crate::calls::command_of;
use crate::forms::{lists_of, may_follow, workers_of, zone_of};
use crate::labels::LabelledCommands;
use crate::line::{CommandLine, ZoneLine};
use crate::trace::{Commands, Header, Trace, TraceFault, ZoneLines};
use crate::words::first_line;
use std::alloc::{AllocError, Global};

/// The zone line at the front of a text, which may stand after these zones, and the text after it.
fn zone_line<'a>(before: &[ZoneLine], text: &'a [u8]) -> Option<(ZoneLine, &'a [u8])>
    ensures some { IfSome result (λ x. IsNextZone before.now x.0 × (text.now ≡ line_text (line.Zone x.0) ++ x.1.now)) }
    ensures none { IfNone result ((z : ZoneLine) (more : List ℕ) → IsNextZone before.now z → text.now ≡ line_text (line.Zone z) ++ more → ⊥) }
{
    let (words, rest) = first_line(text)?;
    let zone = zone_of(&words)?;
    if may_follow(before, &zone) {
        Some((zone, rest))
    } else {
        None
    }
}

/// The zones of the zone lines at the front of a text, as many as may stand there, and the text after them.
fn zone_lines(alloc: Global, text: &[u8]) -> Result<(ZoneLines, &[u8]), AllocError>
    ensures zones { IfOk result (λ x. IsBeginning (map line.Zone x.0) × (text.now ≡ text_of (map line.Zone x.0) ++ x.1.now)) }
    ensures all { IfOk result (λ x. (z : ZoneLine) (more : List ℕ) → IsNextZone x.0 z → x.1.now ≡ line_text (line.Zone z) ++ more → ⊥) }
{
    let mut zones = ZoneLines::new(alloc);
    let mut rest = text;
    while let Some((zone, after)) = zone_line(zones.as_slice(), rest) {
        zones.push(zone)?;
        rest = after;
    }
    Ok((zones, rest))
}

/// How many workers the workers line at the front of a text says that there are, and the text after it.
fn workers_line(text: &[u8]) -> Option<(u32, &[u8])>
    ensures some { IfSome result (λ x. IsCrew x.0 × (text.now ≡ line_text (line.Workers x.0) ++ x.1.now)) }
    ensures none { IfNone result ((n : ℕ) (more : List ℕ) → IsCrew n → text.now ≡ line_text (line.Workers n) ++ more → ⊥) }
{
    let (words, rest) = first_line(text)?;
    let workers = workers_of(&words)?;
    Some((workers, rest))
}

/// The two numbers of the lists line at the front of a text, and the text after it.
fn lists_line(text: &[u8]) -> Option<((u32, u32), &[u8])>
    ensures some { IfSome result (λ x. AreLists x.0.0 x.0.1 × (text.now ≡ line_text (line.Lists x.0.0 x.0.1) ++ x.1.now)) }
    ensures none { IfNone result ((batch high : ℕ) (more : List ℕ) → AreLists batch high → text.now ≡ line_text (line.Lists batch high) ++ more → ⊥) }
{
    let (words, rest) = first_line(text)?;
    let lists = lists_of(&words)?;
    Some((lists, rest))
}

/// The header at the front of a text, and the text after it.
fn parse_header(alloc: Global, text: &[u8]) -> Result<(Header, &[u8]), TraceFault>
    ensures good { IfOk result (λ x. IsBeginning (header_of x.0) × (text.now ≡ text_of (header_of x.0) ++ x.1.now)) }
    ensures header { IfOk result (λ x. IsHeader x.0) }
    ensures bad { (n : ℕ) → result ≡ Err (fault.BadLine n) → IsBadLine text.now n }
{
    let (zones, rest) = zone_lines(alloc, text)?;
    let lines = zones.as_slice().len() as u32;
    if lines == 0 {
        return Err(TraceFault::BadLine(1));
    }
    let Some((workers, rest)) = workers_line(rest) else {
        return Err(TraceFault::BadLine(lines + 1));
    };
    let Some(((batch, high), rest)) = lists_line(rest) else {
        return Err(TraceFault::BadLine(lines + 2));
    };
    let header = Header {
        zones,
        workers,
        batch,
        high,
    };
    Ok((header, rest))
}

/// The worker line at the front of a text, which may stand after this header and these commands, and the text after it.
fn command_line<'a>(
    header: &Header,
    before: &LabelledCommands,
    text: &'a [u8],
) -> Option<(CommandLine, &'a [u8])>
    requires { IsHeader header.now }
    ensures some { IfSome result (λ x. IsNextCommand header.now before.now x.0 × (text.now ≡ line_text (line.CommandLine x.0) ++ x.1.now)) }
    ensures none { IfNone result ((c : CommandLine) (more : List ℕ) → IsNextCommand header.now before.now c → text.now ≡ line_text (line.CommandLine c) ++ more → ⊥) }
{
    let (words, rest) = first_line(text)?;
    let command = command_of(header, &words)?;
    if before.has_label(&command) {
        Some((command, rest))
    } else {
        None
    }
}

/// The commands after the header.
fn parse_commands(alloc: Global, header: &Header, text: &[u8]) -> Result<Commands, TraceFault>
    requires header { IsHeader header.now }
    requires begins { IsBeginning (header_of header.now) }
    ensures good { IfOk result (λ commands.
        IsTraceText (text_of (header_of header.now) ++ text.now) (record { header = header.now; commands = commands })) }
    ensures bad { (n : ℕ) → result ≡ Err (fault.BadLine n) → IsBadLine (text_of (header_of header.now) ++ text.now) n }
{
    let mut commands = LabelledCommands::new(alloc);
    let mut rest = text;
    while !rest.is_empty() {
        let lines = header.lines() + commands.len();
        if lines == MOST_LINES {
            return Err(TraceFault::BadLine(lines as u32 + 1));
        }
        let Some((command, after)) = command_line(header, &commands, rest) else {
            return Err(TraceFault::BadLine(lines as u32 + 1));
        };
        commands.push(command)?;
        rest = after;
    }
    Ok(commands.into_commands())
}

/// The trace that a text writes, or the number of the text's bad line.
pub fn parse_trace(alloc: Global, text: &[u8]) -> Result<Trace, TraceFault>
    ensures good { IfOk result (λ trace. IsTraceText text.now trace) }
    ensures header { IfOk result (λ trace. IsHeader trace.header) }
    ensures commands { IfOk result (λ trace. All (IsCommandOf trace.header) trace.commands) }
    ensures bad { (n : ℕ) → result ≡ Err (fault.BadLine n) → IsBadLine text.now n }
{
    let (header, rest) = parse_header(alloc, text)?;
    let commands = parse_commands(alloc, &header, rest)?;
    Ok(Trace { header, commands })
}
