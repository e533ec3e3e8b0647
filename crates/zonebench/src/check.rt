//! The checksums of the workloads, which another allocator with the same rules returns too.

use crate::workload::{SIZES, Workload};
use crate::{entries, worst};
use std::alloc::Global;
use zp_loads::{Cached, DrawnLoad, LoadSource, PastLists, SeatSource, Unmade};
use zp_model::Order;

/// The calls that were made, and the checksum of their results and of those before them.
#[derive(Clone, Copy, Drop)]
pub struct Sum {
    pub calls: u64,
    pub checksum: u64,
}

/// A workload in a zone of so many pages. What is lent at its end is not freed: of two numbers of calls the difference in
/// instructions is that of the calls alone.
pub fn sum_of<S: LoadSource>(
    alloc: Global,
    workload: &Workload,
    pages: u32,
    ops: u32,
) -> Result<Sum, Unmade> {
    let mut bench = DrawnLoad::<S>::new(alloc, pages)?;
    workload.prepare(&mut bench)?;
    let calls = workload.run(&mut bench, ops)?;
    Ok(Sum {
        calls,
        checksum: bench.checksum(),
    })
}

/// Prints the checksums of a workload, a line for each size of a zone.
fn print_sums<S: LoadSource>(
    rt: &impl Print,
    alloc: Global,
    name: &str,
    workload: &Workload,
    ops: u32,
) -> anyhow::Result<()> {
    for pages in SIZES {
        print_sum::<S>(rt, alloc, name, workload, pages, ops)?;
    }
    Ok(())
}

/// Prints the checksum of a workload in a zone of so many pages.
fn print_sum<S: LoadSource>(
    rt: &impl Print,
    alloc: Global,
    name: &str,
    workload: &Workload,
    pages: u32,
    ops: u32,
) -> anyhow::Result<()> {
    let sum = sum_of::<S>(alloc, workload, pages, ops)?;
    println!(rt; "{name} {pages} {ops} {:016x}", sum.checksum)?;
    Ok(())
}

/// Prints the checksums of pairs of an order.
fn print_pairs(rt: &impl Print, alloc: Global, name: &str, order: u8) -> anyhow::Result<()> {
    if let Some(order) = Order::new(order) {
        print_sums::<SeatSource<10>>(rt, alloc, name, &Workload::Pairs(order), 1000)?;
    }
    Ok(())
}

/// Prints the checks of wide zones: all pages of one are allocated one by one and freed at random, and a zone of
/// 2^24 pages reports the right entries of the last page of the largest narrow zone, of the page after it, and of its last page.
fn print_wide(rt: &impl Print, alloc: Global) -> anyhow::Result<()> {
    print_sum::<SeatSource<10>>(rt, alloc, "burst", &Workload::Burst, 1 << 20, 1)?;
    entries::follow(alloc)?;
    println!(rt; "entries of wide pages: as they should be")?;
    Ok(())
}

/// Prints all checksums: the workload, the pages of the zone, the number of calls or rounds, and the checksum of the results.
pub fn print_all(rt: &impl Print, alloc: Global) -> anyhow::Result<()> {
    let hot = Workload::Pairs(Order::zero());
    print_pairs(rt, alloc, "pairs 0", 0)?;
    print_pairs(rt, alloc, "pairs 4", 4)?;
    print_sums::<SeatSource<10>>(rt, alloc, "runs", &Workload::Runs, 12_800)?;
    print_sums::<SeatSource<10>>(rt, alloc, "churn", &Workload::Churn, 100_000)?;
    print_sums::<SeatSource<10>>(rt, alloc, "press", &Workload::Press, 100_000)?;
    print_sums::<SeatSource<10>>(rt, alloc, "burst", &Workload::Burst, 2)?;
    print_sums::<Cached>(rt, alloc, "cached pairs 0", &hot, 1000)?;
    print_pairs(rt, alloc, "pairs 9", 9)?;
    print_pairs(rt, alloc, "pairs 10", 10)?;
    print_sums::<Cached>(rt, alloc, "cached runs", &Workload::Runs, 12_800)?;
    print_sums::<Cached>(rt, alloc, "cached churn", &Workload::Churn, 100_000)?;
    print_sums::<Cached>(rt, alloc, "cached press", &Workload::Press, 100_000)?;
    print_sums::<Cached>(rt, alloc, "cached burst", &Workload::Burst, 2)?;
    print_sums::<PastLists>(rt, alloc, "past lists churn", &Workload::Churn, 100_000)?;
    worst::print_sums(rt, alloc)?;
    print_sums::<SeatSource<9>>(rt, alloc, "largest 9 pairs 0", &hot, 1000)?;
    print_sums::<SeatSource<4>>(rt, alloc, "largest 4 pairs 0", &hot, 1000)?;
    print_sums::<SeatSource<1>>(rt, alloc, "largest 1 pairs 0", &hot, 1000)?;
    print_wide(rt, alloc)
}
