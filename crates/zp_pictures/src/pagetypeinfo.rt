//! The tables of `/proc/pagetypeinfo`.
ghost use Rattle.std.specs.Prelude.{◌≡◌, ◌<◌, IfErr, IfOk, length, map, max};
ghost use Rattle.zp_trace.specs.Grammar.{IsBeginning, lines_of};
ghost use Rattle.zp_share.specs.Commands.{zone_at};
ghost use Rattle.zp_share.specs.Shares.{named_zone};
ghost use Rattle.zp_states.specs.Replays.{office_at};
ghost use Rattle.zp_pictures.specs.Shown.{IsCutShort, IsShownAs};
ghost use Rattle.zp_pictures.specs.Tables.{blocks_by_order, largest_of, tables_of, type_counts, zones_to};

use crate::fault::PictureFault;
use crate::input::{Shown, TraceReading, read_trace, requests_to, write_bad_line};
use crate::output::write_text;
use std::alloc::{AllocError, Global};
use std::io::Write;
use zp_drawing::{TypeCounts, write_type_tables};
use zp_model::{Name, ORDERS, Order, PageblockType};
use zp_states::Replay;
use zp_trace::Trace;
use zp_zone::Zone;

/// The name of a zone.
fn name_of(zone: &Zone) -> Name
    ensures { result ≡ zone.now.name }
{
    match Name::new(zone.name().as_bytes()) {
        Some(name) => name,
        None => unreachable!(),
    }
}

/// The counts of a zone's free blocks in pageblocks of a type, by order.
fn free_of(replay: &Replay<'_>, zone: usize, kind: PageblockType) -> [u32; ORDERS]
    requires { zone < length (office_at replay.now).zones }
    ensures { result ≡ blocks_by_order (zone_at (office_at replay.now).zones zone).plain.area kind }
{
    let mut by_order = [0; ORDERS];
    for number in 0..ORDERS {
        by_order[number] = replay.free_blocks(zone, Order::at(number as u8), kind);
    }
    by_order
}

/// What the tables say of a zone.
fn counts_of(replay: &Replay<'_>, zone: usize) -> TypeCounts
    requires { zone < length (office_at replay.now).zones }
    ensures { result ≡ type_counts (zone_at (office_at replay.now).zones zone) }
{
    TypeCounts {
        name: name_of(&replay.zones()[zone]),
        free: [
            free_of(replay, zone, PageblockType::Unmovable),
            free_of(replay, zone, PageblockType::Reclaimable),
            free_of(replay, zone, PageblockType::Movable),
            free_of(replay, zone, PageblockType::Isolate),
        ],
        pageblocks: [
            replay.pageblocks(zone, PageblockType::Unmovable),
            replay.pageblocks(zone, PageblockType::Reclaimable),
            replay.pageblocks(zone, PageblockType::Movable),
            replay.pageblocks(zone, PageblockType::Isolate),
        ],
    }
}

/// What the tables say of each zone.
fn all_counts(alloc: Global, replay: &Replay<'_>) -> Result<Vec<TypeCounts>, AllocError>
    ensures { IfOk result (λ counts. counts.items ≡ map type_counts (office_at replay.now).zones) }
{
    let mut counts = Vec::new(alloc);
    for zone in 0..replay.zone_count() {
        counts
            .push(counts_of(replay, zone))
            .map_err(AllocError::from)?;
    }
    Ok(counts)
}

/// The larger of two orders.
fn larger(one: Order, other: Order) -> Order
    ensures { result ≡ max one other }
{
    if one.number() < other.number() {
        other
    } else {
        one
    }
}

/// The order of the largest block that one of the zones can have.
fn largest_of(zones: &[Zone]) -> Order
    ensures { result ≡ largest_of (map named_zone zones.now) }
{
    let mut largest = Order::zero();
    for zone in zones {
        largest = larger(largest, zone.largest().order());
    }
    largest
}

/// The tables of the zones of a trace, after its first lines, or after all: whole, so that nothing is written where there is no memory. Memory.
fn tables_to(alloc: Global, trace: &Trace, line: Option<usize>) -> Result<Vec<u8>, PictureFault>
    requires { IsBeginning (lines_of trace.now) }
    ensures tables { IfOk result (λ text. text.items ≡ tables_of (zones_to trace.now line)) }
    ensures why { IfErr result (λ e. e ≡ PictureFault.Memory) }
{
    let replay = Replay::after(alloc, trace, requests_to(trace, line))?;
    let counts = all_counts(alloc, &replay)?;
    let mut text = Vec::new(alloc);
    match write_type_tables(&mut text, &counts, largest_of(replay.zones())) {
        Ok(()) => Ok(text),
        // a text in memory takes all but what there is no memory for
        Err(_) => Err(PictureFault::Memory),
    }
}

/// Writes the tables of `/proc/pagetypeinfo` for the zones of a trace, after its first lines, or after all. Of a text that is no trace the
/// number of its bad line is written.
pub fn print_pagetypeinfo<W: Write>(
    alloc: Global,
    text: &[u8],
    line: Option<usize>,
    writer: &mut W,
) -> Result<Shown, PictureFault>
    ensures shown { IfOk result (IsShownAs (λ t. tables_of (zones_to t line)) text.now (W.contents writer.old) (W.contents writer.new)) }
    ensures fault { IfErr result (IsCutShort (λ t. tables_of (zones_to t line)) text.now (W.contents writer.old) (W.contents writer.new)) }
{
    let trace = match read_trace(alloc, text)? {
        TraceReading::Trace(trace) => trace,
        TraceReading::BadLine(number) => return write_bad_line(writer, number),
    };
    let tables = tables_to(alloc, &trace, line)?;
    write_text(writer, &tables)?;
    Ok(Shown::Picture)
}
