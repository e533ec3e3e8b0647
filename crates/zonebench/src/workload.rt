//! The workloads.

ghost use Rattle.std.specs.Prelude.{◌≡◌, ◌≤◌};
ghost use Rattle.zonebench.specs.Calls.{ops};

use zp_loads::{DrawnLoad, LoadSource, Unmade, below};
use zp_model::{MigrateType, NARROW_PAGES, Order};

/// The sizes of the zones, in pages.
pub const SIZES: [u32; 3] = [1024, 4096, 65_536];

/// The calls of a churn before the ones that count, where the zone has at most 65,536 pages; a wide zone has as many for each 65,536
/// pages, so that half of it is lent, and well mixed.
const WARMING: u32 = 40_000;

/// The blocks of a run.
const RUN: u32 = 64;

/// The most pages that are freed and allocated at a time, under press.
const MOST_EXCHANGED: usize = 64;

/// The orders of a churn have probabilities that fall by halves; the last one takes what is left.
const CHURNED: u64 = 1 << 10;

/// What is asked of a zone.
#[derive(Clone, Copy, Drop)]
pub enum Workload {
    /// A block of this order is allocated and freed, again and again.
    Pairs(Order),
    /// 64 single pages are allocated, and freed in the order in which they came.
    Runs,
    /// Blocks of all orders come and go at random, half of the pages lent.
    Churn,
    /// Single pages come and go at random, nine tenths of them lent.
    Press,
    /// All pages are allocated one by one, and freed at random.
    Burst,
    /// An Unmovable page is allocated and freed, where a third of the pages is free, each alone.
    Scattered,
    /// A block of the largest order is allocated and freed for two types in turn: each claims the one pageblock.
    Claims,
}

impl Workload {
    /// The workload of this name.
    pub fn named(name: &str) -> Option<Workload> {
        match name {
            "pairs-0" => Some(Workload::Pairs(Order::zero())),
            "pairs-4" => Order::new(4).map(Workload::Pairs),
            "pairs-9" => Order::new(9).map(Workload::Pairs),
            "pairs-10" => Some(Workload::Pairs(Order::largest())),
            "runs" => Some(Workload::Runs),
            "churn" => Some(Workload::Churn),
            "press" => Some(Workload::Press),
            "burst" => Some(Workload::Burst),
            "scattered" => Some(Workload::Scattered),
            "claims" => Some(Workload::Claims),
            _ => None,
        }
    }

    /// The number for `run` that makes about so many calls, in a zone of so many pages; one burst at least.
    pub fn ops(&self, pages: u32, calls: u32) -> u32
        requires { 1 ≤ pages }
        ensures { result ≡ ops self.now pages calls }
    {
        match self {
            Workload::Pairs(_) | Workload::Scattered => calls / 2,
            Workload::Runs | Workload::Churn | Workload::Press => calls,
            Workload::Burst => (calls / 2 / pages).max(1),
            Workload::Claims => calls / 4,
        }
    }

    /// What comes before the calls that count.
    pub fn prepare<S: LoadSource>(&self, bench: &mut DrawnLoad<S>) -> Result<(), Unmade> {
        match self {
            Workload::Churn => warm(bench)?,
            Workload::Press => press_down(bench)?,
            Workload::Burst => burst(bench)?,
            Workload::Scattered => scatter(bench)?,
            Workload::Pairs(_) | Workload::Runs | Workload::Claims => {}
        }
        Ok(())
    }

    /// The calls that count. Returns how many calls of the zone they were; a test and the free after it count as one.
    pub fn run<S: LoadSource>(&self, bench: &mut DrawnLoad<S>, ops: u32) -> Result<u64, Unmade> {
        match self {
            Workload::Pairs(order) => pairs(bench, *order, ops),
            Workload::Runs => runs(bench, ops),
            Workload::Churn => churn(bench, ops),
            Workload::Press => press(bench, ops),
            Workload::Burst => bursts(bench, ops),
            Workload::Scattered => scattered(bench, ops),
            Workload::Claims => claims(bench, ops),
        }
    }
}

fn pairs<S: LoadSource>(bench: &mut DrawnLoad<S>, order: Order, ops: u32) -> Result<u64, Unmade> {
    for _ in 0..ops {
        bench.pair(order, MigrateType::Movable);
    }
    Ok(2 * u64::from(ops))
}

fn runs<S: LoadSource>(bench: &mut DrawnLoad<S>, ops: u32) -> Result<u64, Unmade> {
    for _ in 0..ops / (2 * RUN) {
        run(bench)?;
    }
    Ok(u64::from(ops))
}

/// One run.
fn run<S: LoadSource>(bench: &mut DrawnLoad<S>) -> Result<(), Unmade> {
    for _ in 0..RUN {
        bench.lend(Order::zero(), MigrateType::Movable)?;
    }
    bench.give_in_order();
    Ok(())
}

fn churn<S: LoadSource>(bench: &mut DrawnLoad<S>, ops: u32) -> Result<u64, Unmade> {
    for _ in 0..ops {
        churn_once(bench)?;
    }
    Ok(u64::from(ops))
}

/// The calls of a churn before the ones that count.
fn warm<S: LoadSource>(bench: &mut DrawnLoad<S>) -> Result<(), Unmade> {
    for _ in 0..(bench.pages() / u64::from(NARROW_PAGES)).max(1) {
        churn(bench, WARMING)?;
    }
    Ok(())
}

/// Allocates a block of a drawn order where fewer than half of the pages are lent; else frees a drawn one.
fn churn_once<S: LoadSource>(bench: &mut DrawnLoad<S>) -> Result<(), Unmade> {
    let drawn = bench.random.draw();
    if bench.lent_pages() >= bench.pages() / 2 {
        bench.give_drawn(drawn);
        return Ok(());
    }
    let number = (drawn | CHURNED).trailing_zeros();
    if let Some(order) = Order::new(number as u8) {
        bench.lend(order, MigrateType::Movable)?;
    }
    Ok(())
}

/// Takes all pages one by one.
fn fill<S: LoadSource>(bench: &mut DrawnLoad<S>) -> Result<(), Unmade> {
    bench.lend_all(Order::zero(), MigrateType::Movable)
}

/// Leaves nine tenths of the pages lent.
fn press_down<S: LoadSource>(bench: &mut DrawnLoad<S>) -> Result<(), Unmade> {
    fill(bench)?;
    let kept = bench.pages() / 10 * 9;
    for _ in 0..bench.pages() {
        if bench.lent_pages() <= kept {
            break;
        }
        let drawn = bench.random.draw();
        bench.give_drawn(drawn);
    }
    Ok(())
}

fn press<S: LoadSource>(bench: &mut DrawnLoad<S>, ops: u32) -> Result<u64, Unmade> {
    let mut calls: u64 = 0;
    for _ in 0..ops {
        if calls >= u64::from(ops) {
            break;
        }
        let drawn = bench.random.draw();
        calls = calls.saturating_add(exchange(bench, 1 + below(drawn, MOST_EXCHANGED))?);
    }
    Ok(calls)
}

/// Frees so many drawn pages, and takes as many. Returns how many calls these were.
fn exchange<S: LoadSource>(bench: &mut DrawnLoad<S>, pages: usize) -> Result<u64, Unmade>
    requires { pages ≤ 64 }
{
    for _ in 0..pages {
        let drawn = bench.random.draw();
        bench.give_drawn(drawn);
    }
    for _ in 0..pages {
        bench.lend(Order::zero(), MigrateType::Movable)?;
    }
    Ok(2 * pages as u64)
}

/// Takes all pages, and gives them back at random.
fn burst<S: LoadSource>(bench: &mut DrawnLoad<S>) -> Result<(), Unmade> {
    fill(bench)?;
    for _ in 0..bench.pages() {
        let drawn = bench.random.draw();
        bench.give_drawn(drawn);
    }
    Ok(())
}

fn bursts<S: LoadSource>(bench: &mut DrawnLoad<S>, ops: u32) -> Result<u64, Unmade> {
    for _ in 0..ops {
        burst(bench)?;
    }
    Ok((2 * u64::from(ops)).saturating_mul(bench.pages()))
}

/// Leaves a third of the pages free, each alone.
fn scatter<S: LoadSource>(bench: &mut DrawnLoad<S>) -> Result<(), Unmade> {
    fill(bench)?;
    bench.give_picked(|page| page % 3 == 0);
    Ok(())
}

fn scattered<S: LoadSource>(bench: &mut DrawnLoad<S>, ops: u32) -> Result<u64, Unmade> {
    for _ in 0..ops {
        bench.pair(Order::zero(), MigrateType::Unmovable);
    }
    Ok(2 * u64::from(ops))
}

fn claims<S: LoadSource>(bench: &mut DrawnLoad<S>, ops: u32) -> Result<u64, Unmade> {
    for _ in 0..ops {
        bench.pair(Order::largest(), MigrateType::Unmovable);
        bench.pair(Order::largest(), MigrateType::Movable);
    }
    Ok(4 * u64::from(ops))
}
