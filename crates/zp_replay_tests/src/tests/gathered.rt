//! Text that is gathered before it is written, beside the same text line by line, on writers with room for each number of its bytes.
ghost use Rattle.std.specs.Prelude.{◌≡◌, ◌<◌};

use super::*;
use crate::rooms::{RoomTaking, RoomWriter};
use std::alloc::{AllocError, Global};
use zp_journal::Journal;
use zp_model::{Entry, Refused};
use zp_text::{WriteFault, write_all, write_journal};

/// So many entries, and so many info lines, are a little more than is gathered in one piece.
const ENTRIES: u32 = 300;

const INFOS: usize = 85;

/// What is written.
#[derive(Clone, Copy, Drop)]
enum Output<'a> {
    /// The lines of a journal.
    Journal(&'a Journal),
    /// What a serial replay of a trace writes.
    Replay(&'a [u8]),
    /// A text, in pieces of these lengths.
    Pieces(&'a [u8], &'a [usize]),
}

/// What came of it.
#[derive(Drop)]
struct Attempt {
    is_whole: bool,
    bytes: Vec<u8>,
    /// The length of each piece that the writer was asked to take.
    asked: Vec<usize>,
}

fn write_pieces<W: Writer>(
    writer: &mut W,
    text: &[u8],
    lengths: &[usize],
) -> Result<(), WriteFault> {
    let mut rest = text;
    for length in lengths {
        let (piece, behind) = rest.split_at((*length).min(rest.len()));
        write_all(writer, piece)?;
        rest = behind;
    }
    Ok(())
}

/// Whether all was written.
fn write_output<K: Ledger, R: AllocGlobal, W: Writer>(
    rt: &R,
    writer: &mut W,
    output: Output<'_>,
    reads: Failures<K>,
) -> bool {
    match output {
        Output::Journal(journal) => write_journal(writer, "DMA", journal).is_ok(),
        Output::Replay(trace) => {
            let mut reader = SliceReader::new(trace, usize::MAX, Schedule::never(), reads);
            replay_serial(rt.alloc(), &mut reader, writer) == Ok(Ending::Good)
        }
        Output::Pieces(text, lengths) => write_pieces(writer, text, lengths).is_ok(),
    }
}

/// What comes of it on a writer with room for so many bytes.
fn written<R: AllocGlobal>(rt: &R, output: Output<'_>, taking: RoomTaking, room: usize) -> Attempt {
    let (reads, writes) = (Blank::new(1), Blank::new(1));
    written_on::<Brand, Brand, R>(rt, output, taking, room, reads, writes)
}

fn written_on<K: Ledger, L: Ledger, R: AllocGlobal>(
    rt: &R,
    output: Output<'_>,
    taking: RoomTaking,
    room: usize,
    reads: Blank,
    writes: Blank,
) -> Attempt
    requires read_name { reads.name ≡ K.name }
    requires read_parts { (reads.parts ≡ K.parts) × (0 < reads.parts) }
    requires write_name { writes.name ≡ L.name }
    requires write_parts { (writes.parts ≡ L.parts) × (0 < writes.parts) }
{
    let reads = Failures::<K>::new(reads);
    let writes = Failures::<L>::new(writes);
    let mut writer = RoomWriter::new(rt.alloc(), room, taking, writes);
    let is_whole = write_output(rt, &mut writer, output, reads);
    let (bytes, asked) = writer.into_parts();
    Attempt {
        is_whole,
        bytes,
        asked,
    }
}

fn some_journal(alloc: Global) -> Result<Journal, Refused> {
    let mut journal = Journal::new(alloc, ENTRIES)?;
    for _ in 0..ENTRIES {
        if !journal.is_full() {
            journal.append(&Entry::blank());
        }
    }
    Ok(journal)
}

fn some_trace(alloc: Global) -> Result<Vec<u8>, AllocError> {
    let mut trace = b"zone A 0 8 0\nworkers 1\nlists 0 0\n".to_vec(alloc)?;
    for _ in 0..INFOS {
        trace.extend_from_slice(b"0 info\n")?;
    }
    Ok(trace)
}

/// The length of each line of a text.
fn lengths_of_lines(alloc: Global, text: &[u8]) -> Result<Vec<usize>, AllocError> {
    let mut lengths = Vec::new(alloc);
    let mut length = 0;
    for byte in text {
        length += 1;
        if *byte == b'\n' {
            lengths.push(length)?;
            length = 0;
        }
    }
    Ok(lengths)
}

/// What an output is compared with.
#[derive(Drop)]
struct Expected {
    text: Vec<u8>,
    /// The lengths of its lines, and those of the pieces in which it is written to a writer with room for all of it.
    lines: Vec<usize>,
    pieces: Vec<usize>,
}

fn expectation<R: AllocGlobal>(rt: &R, output: Output<'_>) -> Result<Expected, AllocError> {
    let whole = written(rt, output, RoomTaking::Whole, usize::MAX);
    let lines = lengths_of_lines(rt.alloc(), whole.bytes.as_slice())?;
    Ok(Expected {
        text: whole.bytes,
        lines,
        pieces: whole.asked,
    })
}

/// Whether a writer that takes a piece whole or not at all has the lines that fit, as if each were a piece of its own.
fn has_lines<R: AllocGlobal>(rt: &R, output: Output<'_>, expected: &Expected, room: usize) -> bool {
    let text = expected.text.as_slice();
    let gathered = written(rt, output, RoomTaking::Whole, room);
    let by_lines = Output::Pieces(text, expected.lines.as_slice());
    let by_lines = written(rt, by_lines, RoomTaking::Whole, room);
    gathered.bytes == by_lines.bytes && gathered.is_whole == (room >= text.len())
}

/// Whether a writer that takes a part of what it is asked to take has all that there is room for, and sees what it would see of pieces that
/// are never tried line by line: the first refusal ends that, but where it comes behind the end of a line.
fn has_parts<R: AllocGlobal>(rt: &R, output: Output<'_>, expected: &Expected, room: usize) -> bool {
    let text = expected.text.as_slice();
    let gathered = written(rt, output, RoomTaking::Half, room);
    let in_pieces = Output::Pieces(text, expected.pieces.as_slice());
    let in_pieces = written(rt, in_pieces, RoomTaking::Half, room);
    gathered.bytes.as_slice() == &text[..room.min(text.len())]
        && gathered.bytes == in_pieces.bytes
        && (gathered.asked == in_pieces.asked
            || is_behind_a_line(text, room) && begins_with(&gathered, &in_pieces))
}

/// Whether room for so many bytes ends where a line does, or holds none of the text or all of it.
fn is_behind_a_line(text: &[u8], room: usize) -> bool {
    room == 0 || room >= text.len() || text[room - 1] == b'\n'
}

/// Whether the one was asked for what the other was, and then perhaps for more.
fn begins_with(whole: &Attempt, begun: &Attempt) -> bool {
    whole.asked.as_slice().starts_with(begun.asked.as_slice())
}

fn expect_all<R: Abort + AllocGlobal>(rt: &R, output: Output<'_>) -> Result<(), AllocError> {
    let expected = expectation(rt, output)?;
    let pieces = expected.pieces.len();
    assert!(rt; 1 < pieces && pieces < expected.lines.len());
    for room in 0..expected.text.len() + 2 {
        assert!(rt;
            has_lines(rt, output, &expected, room),
            "room for {room} bytes"
        );
        assert!(rt;
            has_parts(rt, output, &expected, room),
            "room for {room} bytes"
        );
    }
    Ok(())
}

#[test]
fn a_journal_fills_a_writer_line_by_line(rt: HostRuntime) -> Result<(), Fail> {
    let journal = some_journal(rt.alloc())?;
    expect_all(&rt, Output::Journal(&journal))?;
    Ok(())
}

#[test]
fn a_replay_fills_a_writer_line_by_line(rt: HostRuntime) -> Result<(), Fail> {
    let trace = some_trace(rt.alloc())?;
    expect_all(&rt, Output::Replay(trace.as_slice()))?;
    Ok(())
}
