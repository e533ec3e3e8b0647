//! Workers at their desks: rows of one to 32 of them, each in a thread of its own, and the calls of a gate round each command.
ghost use Rattle.std.specs.Prelude.{◌≡◌, [], All, map};
ghost use Rattle.zp_zone.specs.Seats.{ZoneState};
ghost use Rattle.zp_share.specs.Shares.{key_of};
ghost use Rattle.zp_office.specs.Desks.{IsReady};
ghost use Rattle.zp_shared.specs.Rows.{AreReadersOf, opened_board, opened_key};

use super::plan::AT_ONCE;
use super::rows::{Ran, opened_trace, run_trace};
use std::alloc::{AllocError, Global};
use std::cell::Cell;
use std::marker::Brand;
use std::sync::Wait;
use std::test::*;
use std::thread::Threads;
use std::time::Clock;
use zp_journal::Journal;
use zp_model::{Refused, Worker};
use zp_office::{Desk, Gate, work};
use zp_shared::{
    BoardReader, LockedZones, Naming, OpenedZone, SharedZone, open_zones, readers_of, share_zones,
};
use zp_zone::Zone;

/// Each of so many workers allocates a page of one zone, reads its counts, and frees the page.
fn trace_of(alloc: Global, workers: u8) -> Result<String, AllocError> {
    let mut text = format!(in alloc; "zone DMA 0 4096 0\nworkers {workers}\nlists 0 0\n")?;
    for worker in 0..workers {
        let script = format!(in alloc;
            "{worker} alloc a 0 M DMA low\n{worker} info\n{worker} free a\n"
        )?;
        text.push_str(script.as_str())?;
    }
    Ok(text)
}

/// Whether so many workers did all that, and left the zone whole.
fn have_worked(ran: &Ran, workers: u8) -> bool {
    for desk in &ran.desks {
        if desk.replies().len() != 3 {
            return false;
        }
    }
    ran.desks.len() == usize::from(workers)
        && match &ran.closed {
            Some((zones, journals)) => are_whole(zones, journals, workers),
            None => false,
        }
}

fn are_whole(zones: &[Zone], journals: &[Journal], workers: u8) -> bool {
    for (zone, journal) in zones.iter().zip(journals) {
        if zone.counts().free != 4096 || journal.len() != 2 * u32::from(workers) {
            return false;
        }
    }
    zones.len() == 1 && journals.len() == 1
}

/// What so many workers leave. None where something could not be made.
fn run_of<R: Clock + Sync + Threads + Wait>(rt: &R, alloc: Global, workers: u8) -> Option<Ran> {
    let text = trace_of(alloc, workers).ok()?;
    run_trace(rt, alloc, text.as_str(), AT_ONCE)
}

#[test]
fn each_worker_of_a_row_has_a_thread(rt: HostRuntime) {
    for workers in [1, 2, 8, 32] {
        let Some(ran) = run_of(&rt, rt.alloc(), workers) else {
            assert!(rt; false, "{workers} workers run");
            return;
        };
        assert!(rt; have_worked(&ran, workers), "{workers} workers");
    }
}

/// Looks under the first lock whenever it is called, and notes how often the journal had another number of entries than the calls before
/// it have made, one each.
#[derive(Drop)]
struct Watching<'a, J: Naming, R> {
    rt: &'a R,
    row: &'a [SharedZone<J>],
    calls: Cell<u32>,
    strayed: Cell<u32>,
}

impl<'a, J: Naming, R: Wait> Watching<'a, J, R> {
    fn note(&self, made: u32) {
        self.calls.set(self.calls.get().wrapping_add(1));
        let Some(first) = self.row.first() else {
            return;
        };
        let guarded = first.state.lock(self.rt);
        if guarded.journal().len() != made {
            self.strayed.set(self.strayed.get().wrapping_add(1));
        }
    }
}

impl<'a, J: Naming, R: Wait> Gate for Watching<'a, J, R> {
    fn before(&self, _worker: Worker, call: u32) {
        self.note(call.wrapping_sub(1));
    }

    fn after(&self, _worker: Worker, call: u32) {
        self.note(call);
    }
}

/// How often the gate of a trace's last worker was called, and how often it strayed.
fn watch<R: Wait>(rt: &R, alloc: Global, text: &str) -> Option<(u32, u32)> {
    let (zones, mut desks) = opened_trace(alloc, text)?;
    let Some(desk) = desks.pop() else {
        return None;
    };
    watch_zones(rt, alloc, zones, desk).ok()
}

/// The same of the worker at this desk.
fn watch_zones<R: Wait>(
    rt: &R,
    alloc: Global,
    zones: Vec<Zone>,
    desk: Desk,
) -> Result<(u32, u32), Refused>
    requires new { All (λ (z : ZoneState). z.entries ≡ []) zones.items }
    requires ready { IsReady (map key_of zones.items) desk }
{
    let mut opened = open_zones(alloc, zones, 10)?;
    let readers = readers_of(alloc, &mut opened)?;
    watch_as::<Brand, R>(rt, alloc, opened, readers, desk)
}

/// As `watch_zones`, under the name of the opened zones.
fn watch_as<J: Naming, R: Wait>(
    rt: &R,
    alloc: Global,
    opened: Vec<OpenedZone>,
    readers: Vec<BoardReader>,
    mut desk: Desk,
) -> Result<(u32, u32), Refused>
    requires keys { map opened_key opened.items ≡ J.zones }
    requires boards { map opened_board opened.items ≡ J.boards }
    requires readers { AreReadersOf J.zones J.boards readers.items }
    requires ready { IsReady J.zones desk }
{
    let row = share_zones::<J, _>(alloc, opened)?;
    let mut view = LockedZones::<J, (), R>::new(rt, row.as_slice(), readers);
    let gate = Watching {
        rt,
        row: row.as_slice(),
        calls: Cell::new(0),
        strayed: Cell::new(0),
    };
    work(&mut desk, &mut view, &gate);
    Ok((gate.calls.get(), gate.strayed.get()))
}

/// Each of the commands is one section, which the gate finds between its two calls.
#[test]
fn a_command_is_carried_out_between_the_calls_of_its_gate(rt: HostRuntime) {
    let text =
        "zone DMA 0 8 0\nworkers 1\nlists 0 0\n0 low a 2 DMA\n0 post a 0\n0 collect b DMA\n0 free b\n";
    assert!(rt; watch(&rt, rt.alloc(), text) == Some((8, 0)));
}
