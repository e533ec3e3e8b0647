//! Creates a script.
ghost use Rattle.std.specs.Prelude.{◌≡◌, ◌==◌, ◌≤◌, All, IfOk, count_by, length};
ghost use Rattle.zp_trace.specs.declared.bounds.TheConstants.{MOST_LINES};
ghost use Rattle.zp_trace.specs.Grammar.{IsBeginning, lines_of};
ghost use Rattle.zp_office.specs.Desks.{HasSlotBelow};
ghost use Rattle.zp_office.specs.Scripts.{NamesBelow, calls_of, names_of, script_of, scripted};

use crate::command::Command;
use crate::label_slots::LabelSlots;
use crate::places::number_of;
use std::alloc::{AllocError, Global};
use zp_model::Worker;
use zp_trace::{Call, Trace, ZoneLine};

/// The commands of a worker in a trace, in order. Each label of the worker is a slot: the place of the worker's first command that
/// binds it. Each zone is the place of its line.
pub fn script_of(alloc: Global, trace: &Trace, worker: Worker) -> Result<Vec<Command>, AllocError>
    requires { IsBeginning (lines_of trace.now) }
    ensures script { IfOk result (λ s. s.items ≡ script_of trace.now worker) }
    ensures count { IfOk result (λ s. length s.items ≡ count_by (λ c. c.worker == worker) trace.now.commands) }
    ensures few { IfOk result (λ s. length s.items ≤ MOST_LINES) }
    ensures slots { IfOk result (λ s. All (HasSlotBelow (length s.items)) s.items) }
    ensures names { IfOk result (λ s. All (NamesBelow (length trace.now.header.zones) trace.now.header.workers) s.items) }
{
    let zones = trace.header.zones.as_slice();
    let calls = calls_of(alloc, trace.commands.as_slice(), worker)?;
    let slots = LabelSlots::of(alloc, &calls)?;
    let mut script = Vec::with_capacity(alloc, calls.len())?;
    for call in &calls {
        script.push_reserved(scripted(zones, &slots, call));
    }
    Ok(script)
}

/// The calls of a worker, in order.
fn calls_of(
    alloc: Global,
    commands: &[zp_trace::CommandLine],
    worker: Worker,
) -> Result<Vec<Call>, AllocError>
    ensures { IfOk result (λ calls. calls.items ≡ calls_of commands.now worker) }
{
    commands
        .iter()
        .filter(|command| command.worker == worker)
        .map(|command| command.call)
        .collect(alloc)
}

/// A call of a worker whose labels have these slots, as its desk carries it out.
fn scripted(zones: &[ZoneLine], slots: &LabelSlots<'_>, call: &Call) -> Command
    ensures { result ≡ scripted (names_of zones.now) slots.now call.now }
{
    match *call {
        Call::Info => Command::Info,
        Call::Alloc {
            label,
            order,
            kind,
            zone,
            mark,
        } => Command::Alloc {
            slot: slots.slot_of(label),
            order,
            kind,
            zone: number_of(zones, zone),
            mark,
        },
        Call::Low { label, order, zone } => Command::Low {
            slot: slots.slot_of(label),
            order,
            zone: number_of(zones, zone),
        },
        Call::Free { label } => Command::Free {
            slot: slots.slot_of(label),
        },
        Call::Post { label, to } => Command::Post {
            slot: slots.slot_of(label),
            to,
        },
        Call::Collect { label, zone } => Command::Collect {
            slot: slots.slot_of(label),
            zone: number_of(zones, zone),
        },
        Call::Drain => Command::Drain,
        Call::Isolate { zone, pageblock } => Command::Isolate {
            zone: number_of(zones, zone),
            pageblock,
        },
        Call::Release {
            zone,
            pageblock,
            kind,
        } => Command::Release {
            zone: number_of(zones, zone),
            pageblock,
            kind,
        },
    }
}
