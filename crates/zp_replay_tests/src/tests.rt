//! Small traces, serially and in threads, with devices that give and take small pieces or fail, and with gates.
ghost use Rattle.std.specs.Prelude.{◌≡◌, ◌<◌};

mod gathered;

use super::memory::{Schedule, SliceReader, VecWriter};
use crossbeam_utils::atomic::AtomicCell;
use std::marker::Brand;
use std::process::Abort;
use std::sync::Wait;
use std::sync::ledger::{Blank, Ledger};
use std::test::*;
use std::thread;
use std::thread::Threads;
use std::time::{Clock, Duration};
use zp_model::Worker;
use zp_office::{Gate, OpenGate};
use zp_replay::{Ending, Failures, ReplayFault, replay_serial, replay_threads};
use zp_text::{Reader, Writer};

/// How the devices of a replay behave.
#[derive(Clone, Copy, Drop)]
struct Devices {
    /// The most bytes of a piece.
    piece: usize,
    reads: Schedule,
    writes: Schedule,
    ghost some: { 0 < piece },
}

#[derive(Clone, Copy, Drop)]
enum Replay {
    Serial,
    Threads,
}

/// What came of a replay.
#[derive(Drop)]
struct Outcome {
    ending: Result<Ending, ReplayFault>,
    written: Vec<u8>,
}

fn sound(piece: usize) -> Devices
    requires { 0 < piece }
{
    Devices {
        piece,
        reads: Schedule::never(),
        writes: Schedule::never(),
    }
}

/// Devices that fail at one call, counted from 0, a byte at a time.
fn deaf_after(calls: usize) -> Devices {
    Devices {
        piece: 1,
        reads: Schedule::after(calls),
        writes: Schedule::never(),
    }
}

fn mute_after(calls: usize) -> Devices {
    Devices {
        piece: 1,
        reads: Schedule::never(),
        writes: Schedule::after(calls),
    }
}

const TRACE: &str = "zone DMA 0 4096 0\nworkers 1\nlists 0 0\n0 info\n";

/// What each of the two replays writes.
const OUTPUTS: [(Replay, &str); 2] = [
    (
        Replay::Serial,
        "\
Node 0, zone      DMA      0      0      0      0      0      0      0      0      0      0      4 \n\
total DMA pages 4096 free 4096 posted 0 cached 0 lent 0 level high\n\
Node 0, zone      DMA      0      0      0      0      0      0      0      0      0      0      4 \n",
    ),
    (
        Replay::Threads,
        "\
Node 0, zone      DMA      0      0      0      0      0      0      0      0      0      0      4 \n\
total DMA pages 4096 free 4096 posted 0 cached 0 lent 0 level high\n\
Node 0, zone      DMA      0      0      0      0      0      0      0      0      0      0      4 \n\
journal DMA 0 legal\n",
    ),
];

/// The replay, with none of its clauses: what is expected of it is compared when it runs.
fn ended<T: AllocGlobal + Threads + Wait + Sync, R: Reader, W: Writer, G: Gate + Sync>(
    rt: &T,
    replay: Replay,
    reader: &mut R,
    writer: &mut W,
    gate: &G,
) -> Result<Ending, ReplayFault> {
    match replay {
        Replay::Serial => replay_serial(rt.alloc(), reader, writer),
        Replay::Threads => replay_threads(rt, rt.alloc(), reader, writer, false, gate),
    }
}

/// What comes of a replay, with this gate where it is in threads.
fn replayed<T: AllocGlobal + Threads + Wait + Sync, G: Gate + Sync>(
    rt: &T,
    replay: Replay,
    text: &[u8],
    devices: Devices,
    gate: &G,
) -> Outcome {
    let (reads, writes) = (Blank::new(1), Blank::new(1));
    replayed_on::<Brand, Brand, T, G>(rt, replay, text, devices, gate, reads, writes)
}

fn replayed_on<K: Ledger, L: Ledger, T: AllocGlobal + Threads + Wait + Sync, G: Gate + Sync>(
    rt: &T,
    replay: Replay,
    text: &[u8],
    devices: Devices,
    gate: &G,
    reads: Blank,
    writes: Blank,
) -> Outcome
    requires read_name { reads.name ≡ K.name }
    requires read_parts { (reads.parts ≡ K.parts) × (0 < reads.parts) }
    requires write_name { writes.name ≡ L.name }
    requires write_parts { (writes.parts ≡ L.parts) × (0 < writes.parts) }
{
    let reads = Failures::<K>::new(reads);
    let writes = Failures::<L>::new(writes);
    let mut reader = SliceReader::new(text, devices.piece, devices.reads, reads);
    let mut writer = VecWriter::new(rt.alloc(), devices.piece, devices.writes, writes);
    let ending = ended(rt, replay, &mut reader, &mut writer, gate);
    Outcome {
        ending,
        written: writer.into_bytes(),
    }
}

/// The replay of a text ends so, and so much was written.
fn expect<R: Abort + AllocGlobal + Threads + Wait + Sync>(
    rt: &R,
    replay: Replay,
    text: &[u8],
    devices: Devices,
    (ending, written): (Result<Ending, ReplayFault>, &[u8]),
) {
    let outcome = replayed(rt, replay, text, devices, &OpenGate);
    let is_so = outcome.ending == ending && outcome.written.as_slice() == written;
    assert!(rt; is_so);
}

#[test]
fn a_bad_line_is_told(rt: HostRuntime) {
    let text = b"zone DMA 0 4096 0\nworkers 33\n";
    for (replay, _) in OUTPUTS {
        let told = (Ok(Ending::BadLine(2)), b"bad line 2\n".as_slice());
        expect(&rt, replay, text, sound(7), told);
    }
}

#[test]
fn pieces_of_each_size_make_one_text(rt: HostRuntime) {
    for (replay, output) in OUTPUTS {
        for piece in 1..=TRACE.len() {
            let whole = (Ok(Ending::Good), output.as_bytes());
            expect(&rt, replay, TRACE.as_bytes(), sound(piece), whole);
        }
    }
}

#[test]
fn failing_reads_write_nothing(rt: HostRuntime) {
    for (replay, _) in OUTPUTS {
        for calls in 0..=TRACE.len() {
            let nothing = (Err(ReplayFault::Read), [].as_slice());
            expect(&rt, replay, TRACE.as_bytes(), deaf_after(calls), nothing);
        }
    }
}

/// What came of a replay of which `calls` bytes are written before a call fails: the whole, where there are no more.
fn begun(output: &str, calls: usize) -> (Result<Ending, ReplayFault>, &[u8]) {
    match output.as_bytes().get(..calls) {
        Some(begun) if calls < output.len() => (Err(ReplayFault::Write), begun),
        _ => (Ok(Ending::Good), output.as_bytes()),
    }
}

/// The last of the calls that would fail comes after the last write.
#[test]
fn failing_writes_leave_a_beginning(rt: HostRuntime) {
    for (replay, output) in OUTPUTS {
        for calls in 0..=output.len() {
            let begun = begun(output, calls);
            expect(&rt, replay, TRACE.as_bytes(), mute_after(calls), begun);
        }
    }
}

/// Whether a replay wrote all, or says what it has not got and wrote nothing; the writer may have no room for what is written.
fn is_whole_or_ended(outcome: &Outcome, output: &str) -> bool {
    match outcome.ending {
        Ok(ending) => { ending == Ending::Good && outcome.written.as_slice() == output.as_bytes() }
        Err(ReplayFault::Memory | ReplayFault::NoThread) => outcome.written.is_empty(),
        Err(fault) => fault == ReplayFault::Write,
    }
}

/// Tried with each allocation failing in turn (`rt try --test --fail-alloc N`).
#[test]
fn a_replay_is_whole_or_ends_for_memory(rt: HostRuntime) {
    for (replay, output) in OUTPUTS {
        let outcome = replayed(&rt, replay, TRACE.as_bytes(), sound(1000), &OpenGate);
        assert!(rt; is_whole_or_ended(&outcome, output));
    }
}

/// The first call of the worker `late` begins only when the worker `early` has ended its first call.
#[derive(Drop)]
struct InTurn<'a, C> {
    clock: &'a C,
    early: u8,
    late: u8,
    ended: AtomicCell<u32>,
    gave_up: AtomicCell<u32>,
}

impl<'a, C: Clock> Gate for InTurn<'a, C> {
    fn before(&self, worker: Worker, call: u32) {
        if worker.number() != self.late || call != 1 {
            return;
        }
        for _ in 0..10_000 {
            if self.ended.load() == 1 {
                return;
            }
            thread::sleep(self.clock, Duration::from_millis(1));
        }
        self.gave_up.store(1);
    }

    fn after(&self, worker: Worker, _call: u32) {
        if worker.number() == self.early {
            self.ended.store(1);
        }
    }
}

/// Two workers with an info each: the one has its reply before the other begins.
fn expect_in_turn<R: Abort + AllocGlobal + Clock + Sync + Threads + Wait>(
    rt: &R,
    early: u8,
    late: u8,
) {
    let gate = InTurn {
        clock: rt,
        early,
        late,
        ended: AtomicCell::new(0),
        gave_up: AtomicCell::new(0),
    };
    let text = b"zone DMA 0 4096 0\nworkers 2\nlists 0 0\n0 info\n1 info\n";
    let outcome = replayed(rt, Replay::Threads, text, sound(1000), &gate);
    assert!(rt; gate.gave_up.load() == 0 && outcome.ending == Ok(Ending::Good));
    assert!(rt;
        outcome
            .written
            .as_slice()
            .starts_with(FIRST_INFOS.as_bytes())
    );
}

/// Neither worker waits for the other to end all its commands, whichever is first.
#[test]
fn workers_work_at_the_same_time(rt: HostRuntime) {
    expect_in_turn(&rt, 0, 1);
    expect_in_turn(&rt, 1, 0);
}

/// What they write first.
const FIRST_INFOS: &str = "\
Node 0, zone      DMA      0      0      0      0      0      0      0      0      0      0      4 \n\
Node 0, zone      DMA      0      0      0      0      0      0      0      0      0      0      4 \n\
total ";
