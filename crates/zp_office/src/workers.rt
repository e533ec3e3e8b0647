//! Workers at their desks, one thread a desk, over a row of shared zones.
ghost use Rattle.std.specs.Prelude.{◌≡◌, ◌∷◌, All, IfErr, OnErr, OnOk};
ghost use Rattle.std.specs.List.{AllZip};
ghost use Rattle.std.specs.Thread.{IsSend, IsSync};
ghost use Rattle.zp_model.specs.declared.refused.Refused.TheVariants.{NoThread};
ghost use Rattle.zp_office.specs.Desks.{IsReady, IsWorked};
ghost use Rattle.zp_shared.specs.Rows.{AreKept, AreReaders, IsRowOf, seen_by};
ghost use Rattle.zp_office.specs.Runs.{IsLentTo, IsRun, IsStopped};

use crate::beside::join_or_neither_on;
use crate::desk::Desk;
use crate::gate::Gate;
use crate::working::work;
use std::alloc::Global;
use std::marker::Brand;
use std::mem;
use std::sync::Wait;
use std::thread::Threads;
use zp_counts::BoardReader;
use zp_model::Refused;
use zp_shared::{Earlier, Keeps, LockedZones, Naming, SharedZone};

/// Each worker carries out its script, in a thread of its own and all at the same time, with its row of readers, one of each zone.
/// Where a thread cannot be started, refused 31: the desks of a beginning of the row, which is not all of it and may be none, were worked to
/// their end, and those after it are as they were. Takes no memory but what a thread takes to be started.
pub fn run_workers<
    J: Naming + Send + Sync,
    K: Keeps + Send,
    R: Threads + Wait + Sync,
    G: Gate + Sync,
>(
    rt: &R,
    alloc: Global,
    zones: &[SharedZone<J, K>],
    readers: &mut [Vec<BoardReader>],
    desks: &mut [Desk],
    gate: &G,
) -> Result<(), Refused>
    requires row { IsRowOf J.zones zones.now }
    requires readers { AllZip (IsLentTo J.zones J.boards) readers.old desks.old }
    requires ready { All (IsReady J.zones) desks.old }
    ensures ok { OnOk result (AllZip IsWorked desks.old desks.new) }
    ensures err { OnErr result (IsStopped desks.old desks.new) }
    ensures why { IfErr result (λ e. e ≡ NoThread) }
    ensures readers { AllZip (AreKept J.zones J.boards) readers.old readers.new }
{
    run_row(rt, alloc, None, zones, gate, readers, desks)
}

// As `run_workers`, with threads that have stacks of so many bytes, where a size is named.
#[cycle(row)]
pub(crate) fn run_row<
    J: Naming + Send + Sync,
    K: Keeps + Send,
    R: Threads + Wait + Sync,
    G: Gate + Sync,
>(
    rt: &R,
    alloc: Global,
    stack_size: Option<usize>,
    zones: &[SharedZone<J, K>],
    gate: &G,
    readers: &mut [Vec<BoardReader>],
    desks: &mut [Desk],
) -> Result<(), Refused>
    requires row { IsRowOf J.zones zones.now }
    requires readers { AllZip (IsLentTo J.zones J.boards) readers.old desks.old }
    requires ready { All (IsReady J.zones) desks.old }
    ensures ran { IsRun result desks.old desks.new }
    ensures readers { AllZip (AreKept J.zones J.boards) readers.old readers.new }
{
    let Some((first, rest)) = desks.split_first_mut() else {
        return Ok(());
    };
    let Some((mine, others)) = readers.split_first_mut() else {
        unreachable!()
    };
    run_beside(
        rt, alloc, stack_size, zones, gate, mine, first, others, rest,
    )
}

// The first worker works beside the rest.
#[cycle(row)]
fn run_beside<J: Naming + Send + Sync, K: Keeps + Send, R: Threads + Wait + Sync, G: Gate + Sync>(
    rt: &R,
    alloc: Global,
    stack_size: Option<usize>,
    zones: &[SharedZone<J, K>],
    gate: &G,
    mine: &mut Vec<BoardReader>,
    first: &mut Desk,
    others: &mut [Vec<BoardReader>],
    rest: &mut [Desk],
) -> Result<(), Refused>
    requires row { IsRowOf J.zones zones.now }
    requires mine { AreReaders J.zones J.boards mine.old }
    requires first { IsReady J.zones first.old }
    requires others { AllZip (IsLentTo J.zones J.boards) others.old rest.old }
    requires rest { All (IsReady J.zones) rest.old }
    ensures ran { IsRun result (first.old ∷ rest.old) (first.new ∷ rest.new) }
    ensures mine { AreKept J.zones J.boards mine.old mine.new }
    ensures others { AllZip (AreKept J.zones J.boards) others.old others.new }
{
    let mut front = ||
        requires { IsSync R.row × IsSync G.row × IsSend J.row × IsSync J.row × IsSend K.row × IsRowOf J.zones zones.now × AreReaders J.zones J.boards mine.now × IsReady J.zones first.now }
        ensures { IsWorked first.entry.now first.exit.now × AreKept J.zones J.boards mine.entry.now mine.exit.now }
    { work_at(rt, alloc, zones, gate, mine, first) };
    let mut back = || -> Result<(), Refused>
        requires { IsSync R.row × IsSync G.row × IsSend J.row × IsSync J.row × IsSend K.row × IsRowOf J.zones zones.now × AllZip (IsLentTo J.zones J.boards) others.now rest.now × All (IsReady J.zones) rest.now }
        ensures { IsRun result rest.entry.now rest.exit.now × AllZip (AreKept J.zones J.boards) others.entry.now others.exit.now }
    { run_row(rt, alloc, stack_size, zones, gate, others, rest) };
    match join_or_neither_on(rt, stack_size, &mut front, &mut back) {
        Some(((), ran)) => ran,
        None => Err(Refused::NoThread),
    }
}

// One worker works, over a view of its own.
fn work_at<J: Naming, K: Keeps, R: Wait, G: Gate>(
    rt: &R,
    alloc: Global,
    zones: &[SharedZone<J, K>],
    gate: &G,
    readers: &mut Vec<BoardReader>,
    desk: &mut Desk,
)
    requires row { IsRowOf J.zones zones.now }
    requires readers { AreReaders J.zones J.boards readers.old }
    requires ready { IsReady J.zones desk.old }
    ensures worked { IsWorked desk.old desk.new }
    ensures readers { AreKept J.zones J.boards readers.old readers.new }
{
    let lent = mem::replace(readers, Vec::new(alloc));
    *readers = work_since::<J, K, Brand, R, G>(rt, zones, gate, lent, desk);
}

// As `work_at`, under the name of what the readers have seen.
fn work_since<J: Naming, K: Keeps, E: Earlier, R: Wait, G: Gate>(
    rt: &R,
    zones: &[SharedZone<J, K>],
    gate: &G,
    readers: Vec<BoardReader>,
    desk: &mut Desk,
) -> Vec<BoardReader>
    requires row { IsRowOf J.zones zones.now }
    requires readers { AreReaders J.zones J.boards readers }
    requires named { seen_by readers.items ≡ E.seen }
    requires ready { IsReady J.zones desk.old }
    ensures worked { IsWorked desk.old desk.new }
    ensures readers { AreKept J.zones J.boards readers result }
{
    let mut view = LockedZones::<J, E, R, K>::new(rt, zones, readers);
    work(desk, &mut view, gate);
    view.into_readers()
}
