//! Traces, the zones and desks that they declare, workers in threads, and journals that are replayed.
ghost use Rattle.std.specs.Prelude.{◌≡◌, [], All, IfOk, map};
ghost use Rattle.zp_office.specs.Desks.{IsReady};
ghost use Rattle.zp_share.specs.Shares.{key_of};
ghost use Rattle.zp_trace.specs.Grammar.{IsBeginning, IsHeader, lines_of};
ghost use Rattle.zp_zone.specs.Seats.{ZoneState};

use std::alloc::Global;
use std::sync::Wait;
use std::thread::Threads;
use zp_journal::{Journal, JournalCheck, counts_after, replay_journal};
use zp_loads::{Unmade, config, expect};
use zp_makings::lists;
use zp_makings::zones::PAGES;
use zp_model::Worker;
use zp_office::{Command, Desk, Office, OpenGate, opened, opened_desks, run_zones, script_of};
use zp_share::Share;
use zp_trace::{Trace, TraceFault, parse_trace};
use zp_zone::Zone;

/// A zone of two workers, the same as `config` has, who allocate and free blocks.
const TRACE: &str = "zone DMA 0 4096 0\nworkers 2\nlists 4 6\n\
    0 alloc a 0 M DMA low\n1 alloc a 3 U DMA low\n0 free a\n1 free a\n0 drain\n1 info\n";

/// How many requests a journal has room for.
const ENTRIES: u32 = 64;

/// The trace of a text.
pub fn trace(alloc: Global) -> Result<(), Unmade> {
    let _trace = read_trace(alloc)?;
    Ok(())
}

fn read_trace(alloc: Global) -> Result<Trace, Unmade>
    ensures begun { IfOk result (λ t. IsBeginning (lines_of t)) }
    ensures header { IfOk result (λ t. IsHeader t.header) }
{
    match parse_trace(alloc, TRACE.as_bytes()) {
        Ok(trace) => Ok(trace),
        Err(TraceFault::Memory) => Err(Unmade::Fault),
        Err(TraceFault::BadLine(_)) => Err(Unmade::Other),
    }
}

/// The commands of one of its workers.
pub fn script(alloc: Global) -> Result<(), Unmade> {
    let trace = read_trace(alloc)?;
    let script = script_of(alloc, &trace, Worker::first())?;
    expect(script.len() == 3)
}

/// The zones that it declares, and the shares of their workers.
pub fn shares(alloc: Global) -> Result<(), Unmade> {
    let trace = read_trace(alloc)?;
    let (_zones, shares) = opened(alloc, &trace.header)?;
    expect(shares.len() == 2)
}

/// The desk of a share with a script of one command.
pub fn desk(alloc: Global) -> Result<(), Unmade> {
    let mut script = Vec::with_capacity(alloc, 1)?;
    script.push_reserved(Command::Drain);
    let desk = match lone_share(alloc) {
        Ok(share) => Desk::new(alloc, share, script),
        Err(unmade) => return Err(unmade),
    };
    match desk {
        Ok(_desk) => Ok(()),
        Err(refused) => Err(refused.into()),
    }
}

/// The share of a zone's only worker, without the zone.
fn lone_share(alloc: Global) -> Result<Share, Unmade> {
    let lists = lists()?;
    let (_zone, seats) = Zone::new(alloc, config(PAGES), 1)?;
    match Share::new(alloc, seats, lists) {
        Ok(share) => Ok(share),
        Err(refused) => Err(refused.into()),
    }
}

/// The zones, and the desks of their workers.
pub fn desks(alloc: Global) -> Result<(), Unmade> {
    let (_zones, desks) = opened_trace(alloc)?;
    expect(desks.len() == 2)
}

/// The zones that the trace declares, and the desks of its workers.
fn opened_trace(alloc: Global) -> Result<(Vec<Zone>, Vec<Desk>), Unmade>
    ensures new { IfOk result (λ r. All (λ (z : ZoneState). z.entries ≡ []) r.0.items) }
    ensures ready { IfOk result (λ r. All (IsReady (map key_of r.0.items)) r.1.items) }
{
    let trace = read_trace(alloc)?;
    Ok(opened_desks(alloc, &trace)?)
}

/// The office of the trace, whose workers carry out their commands where there are calls.
pub fn office(alloc: Global, calls: u32) -> Result<(), Unmade> {
    let trace = read_trace(alloc)?;
    let mut office = Office::open(alloc, &trace)?;
    if calls > 0 {
        office.carry_out_all(trace.commands.as_slice());
    }
    Ok(())
}

/// Two workers in threads, each with its script.
pub fn run<R: Threads + Wait + Sync>(rt: &R, alloc: Global) -> Result<(), Unmade> {
    let _journal = journal(rt, alloc)?;
    Ok(())
}

/// The journal of the zone when both workers, in threads, have carried out their commands.
fn journal<R: Threads + Wait + Sync>(rt: &R, alloc: Global) -> Result<Journal, Unmade> {
    let (zones, mut desks) = opened_trace(alloc)?;
    shared_by(rt, alloc, zones, &mut desks)
}

/// The journal of the last zone, when the workers at these desks have shared the zones.
fn shared_by<R: Threads + Wait + Sync>(
    rt: &R,
    alloc: Global,
    zones: Vec<Zone>,
    desks: &mut [Desk],
) -> Result<Journal, Unmade>
    requires new { All (λ (z : ZoneState). z.entries ≡ []) zones.items }
    requires ready { All (IsReady (map key_of zones.items)) desks.old }
{
    let mut closed = run_zones(rt, alloc, zones, ENTRIES, desks, &OpenGate)?;
    closed.journals.pop().ok_or(Unmade::Other)
}

/// The journal is replayed, and found legal.
pub fn replay<R: Threads + Wait + Sync>(rt: &R, alloc: Global) -> Result<(), Unmade> {
    let journal = journal(rt, alloc)?;
    let check = replay_journal(alloc, config(PAGES), 2, &journal)?;
    expect(matches!(check, JournalCheck::Legal(_)))
}

/// The counts after the whole journal: all pages are free.
pub fn counts<R: Threads + Wait + Sync>(rt: &R, alloc: Global) -> Result<(), Unmade> {
    let journal = journal(rt, alloc)?;
    let counts = counts_after(alloc, config(PAGES), 2, &journal, u64::from(journal.len()))?;
    expect(counts.is_some_and(|counts| counts.free == PAGES))
}
