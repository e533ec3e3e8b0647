//! What is written of an office whose workers have carried out a trace's commands.
ghost use Rattle.std.specs.Prelude.{ℕ, ◌≡◌, ◌<◌, ◌≤◌, ◌+◌, ◌++◌, [], All, length, map, vec_capacity, OnOk, OnErr};
ghost use Rattle.std.specs.List.{flat_map};
ghost use Rattle.zp_model.specs.declared.counts.Counts.{Counts};
ghost use Rattle.zp_trace.specs.declared.line.CommandLine.{CommandLine};
ghost use Rattle.zp_streams.specs.Streams.{IsWritten, IsBegun};
ghost use Rattle.zp_share.specs.Commands.{zone_at};
ghost use Rattle.zp_share.specs.Gathering.{AddsUp, owns_at, totals_of};
ghost use Rattle.zp_share.specs.Shares.{named_zone, plain};
ghost use Rattle.zp_share.specs.Crews.{AreSharesOf, crew_of};
ghost use Rattle.zp_office.specs.Offices.{crew_in, workers_in};
ghost use Rattle.zp_replay.specs.Output.{replies_text, reply_at, report, total_lines, total_of};
ghost use Rattle.zp_replay.specs.Replies.{info_lines, info_of, reply_text};

use crate::lines::{LINE, push_reply_line, push_total_of};
use zp_info::{INFO_LINE, TextBuffer, push_counts};
use zp_model::{Counts, MAX_WORKERS, TRACE_ZONES, Worker};
use zp_office::{CommandReply, Office};
use zp_share::{PlainZones, Share, Totals};
use zp_text::{GATHERED, WriteFault, Writer, make_room, write_gathered};
use zp_trace::CommandLine;
use zp_zone::Zone;

/// The most bytes of a reply: those of an info, a line for each zone.
const REPLY: usize = TRACE_ZONES * INFO_LINE;

/// Writes the replies to these commands, the total lines and the info lines. The room is for the shares of all workers, so that
/// no memory is taken.
pub fn write_report<W: Writer>(
    writer: &mut W,
    office: Office,
    commands: &[CommandLine],
    room: Vec<Share>,
) -> Result<(), WriteFault>
    requires workers { All (λ (c : CommandLine). c.worker < length office.desks) commands.now }
    requires empty { room.items ≡ [] }
    requires room { length office.desks ≤ vec_capacity room }
    ensures ok { OnOk result (IsWritten (W.contents writer.old) (W.contents writer.new) (report office (workers_in commands.now))) }
    ensures calm { OnOk result (W.failures writer.new ≡ W.failures writer.old) }
    ensures err { OnErr result (IsBegun (W.contents writer.old) (W.contents writer.new) (report office (workers_in commands.now))) }
    ensures failed { OnErr result (W.failures writer.old < W.failures writer.new) }
    ensures adds_up { OnOk result ((i : ℕ) → i < length office.zones → AddsUp (zone_at office.zones i).plain (owns_at (crew_in office).shares i)) }
{
    write_replies(writer, &office, commands)?;
    let (mut zones, mut shares) = office.into_parts(room);
    write_total_lines(writer, &mut zones, &mut shares)?;
    write_infos(writer, zones.as_slice())
}

/// Writes the replies to these commands, in this order. They are gathered, and go out many in one piece.
fn write_replies<W: Writer>(
    writer: &mut W,
    office: &Office,
    commands: &[CommandLine],
) -> Result<(), WriteFault>
    requires workers { All (λ (c : CommandLine). c.worker < length office.now.desks) commands.now }
    ensures ok { OnOk result (IsWritten (W.contents writer.old) (W.contents writer.new) (replies_text office.now (workers_in commands.now))) }
    ensures calm { OnOk result (W.failures writer.new ≡ W.failures writer.old) }
    ensures err { OnErr result (IsBegun (W.contents writer.old) (W.contents writer.new) (replies_text office.now (workers_in commands.now))) }
    ensures failed { OnErr result (W.failures writer.old < W.failures writer.new) }
{
    // how many replies of each worker were gathered
    let mut written = [0; MAX_WORKERS as usize];
    let mut text: TextBuffer<GATHERED> = TextBuffer::new();
    for command in commands {
        let worker = usize::from(command.worker.number());
        make_room(writer, &mut text, REPLY)?;
        push_reply_at(&mut text, office, command.worker, written[worker]);
        written[worker] += 1;
    }
    write_gathered(writer, text.as_bytes())
}

/// Appends a worker's reply at this place among its replies, where it has one there.
fn push_reply_at<const CAP: usize>(
    text: &mut TextBuffer<CAP>,
    office: &Office,
    worker: Worker,
    place: usize,
)
    requires worker { worker < length office.now.desks }
    requires room { length text.old + REPLY ≤ CAP }
    ensures { text.new ≡ text.old ++ reply_at office.now worker place }
{
    match office.replies(worker).get(place) {
        Some(reply) => push_reply(text, office.zones(), worker, reply),
        None => {}
    }
}

/// Appends a reply to a worker: its line, or of an info the line of each zone.
fn push_reply<const CAP: usize>(
    text: &mut TextBuffer<CAP>,
    zones: &[Zone],
    worker: Worker,
    reply: &CommandReply,
)
    requires { length text.old + REPLY ≤ CAP }
    ensures { text.new ≡ text.old ++ reply_text (map named_zone zones.now) worker reply.now }
{
    match reply {
        CommandReply::Info(counts) => push_info_lines(text, zones, counts.as_slice()),
        reply => push_reply_line(text, worker, reply),
    }
}

/// Appends the info line of each zone, with these counts.
fn push_info_lines<const CAP: usize>(text: &mut TextBuffer<CAP>, zones: &[Zone], counts: &[Counts])
    requires counts { length counts.now ≤ TRACE_ZONES }
    requires room { length text.old + REPLY ≤ CAP }
    ensures { text.new ≡ text.old ++ info_lines (map named_zone zones.now) counts.now }
{
    for at in 0..zones.len().min(counts.len()) {
        let zone = &zones[at];
        push_counts(text, zone.name(), zone.largest(), &counts[at]);
    }
}

/// Writes the info line of each zone.
fn write_infos<W: Writer>(writer: &mut W, zones: &[Zone]) -> Result<(), WriteFault>
    ensures ok { OnOk result (IsWritten (W.contents writer.old) (W.contents writer.new) (flat_map info_of (map named_zone zones.now))) }
    ensures calm { OnOk result (W.failures writer.new ≡ W.failures writer.old) }
    ensures err { OnErr result (IsBegun (W.contents writer.old) (W.contents writer.new) (flat_map info_of (map named_zone zones.now))) }
    ensures failed { OnErr result (W.failures writer.old < W.failures writer.new) }
{
    let mut text: TextBuffer<REPLY> = TextBuffer::new();
    for zone in zones {
        make_room(writer, &mut text, INFO_LINE)?;
        push_counts(&mut text, zone.name(), zone.largest(), &zone.counts());
    }
    write_gathered(writer, text.as_bytes())
}

/// Appends the total line of the zone of this number, with where its pages are.
fn push_total<const CAP: usize>(
    text: &mut TextBuffer<CAP>,
    zones: &PlainZones,
    shares: &[Share],
    number: usize,
    totals: Totals,
)
    requires place { number < length zones.now }
    requires totals { totals ≡ totals_of (zone_at (map named_zone zones.now) number).plain (owns_at (map plain shares.now) number) }
    requires room { length text.old + LINE ≤ CAP }
    ensures { text.new ≡ text.old ++ total_of (crew_of zones.now shares.now) number }
{
    // the shares are named for the contract alone
    let _ = shares;
    push_total_of(text, &zones.as_slice()[number], &totals);
}

/// Writes the total line of each zone. The shares are gathered, so each page is in one place; nothing changes.
fn write_total_lines<W: Writer>(
    writer: &mut W,
    zones: &mut PlainZones,
    shares: &mut [Share],
) -> Result<(), WriteFault>
    requires few { length zones.old ≤ TRACE_ZONES }
    requires shares { AreSharesOf zones.old shares.old }
    ensures ok { OnOk result (IsWritten (W.contents writer.old) (W.contents writer.new) (total_lines (crew_of zones.old shares.old))) }
    ensures calm { OnOk result (W.failures writer.new ≡ W.failures writer.old) }
    ensures err { OnErr result (IsBegun (W.contents writer.old) (W.contents writer.new) (total_lines (crew_of zones.old shares.old))) }
    ensures failed { OnErr result (W.failures writer.old < W.failures writer.new) }
    ensures same { zones.new ≡ zones.old }
    ensures adds_up { (i : ℕ) → i < length zones.old → AddsUp (zone_at (map named_zone zones.old) i).plain (owns_at (map plain shares.old) i) }
{
    let totals = zones.gather(shares);
    let mut text: TextBuffer<REPLY> = TextBuffer::new();
    for number in 0..totals.len() {
        make_room(writer, &mut text, LINE)?;
        push_total(&mut text, zones, shares, number, totals[number]);
    }
    write_gathered(writer, text.as_bytes())
}
