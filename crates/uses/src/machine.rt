//! A machine of 16 GiB, as pages of 4 KiB: its memory as the three zones that Linux cuts it into on x86-64, and eight workers, each in a thread
//! of its own, that take blocks out of all of them.
ghost use Rattle.std.specs.Prelude.{◌≡◌, All, map};
ghost use Rattle.zp_share.specs.Shares.{IsShareOf};
ghost use Rattle.zp_shared.specs.Rows.{AreReaders, IsRowOf, opened_board, opened_key};

use std::alloc::Global;
use std::marker::PhantomData;
use std::sync::Wait;
use std::thread::{Threads, map_vec};
use zp_crew::open_crew;
use zp_model::{Largest, Mark, MigrateType, Order, Refused};
use zp_share::{Lent, ListConfig, Share, alloc, free};
use zp_shared::{
    BoardReader, LockedZones, Naming, NoJournal, OpenedZone, SharedZone,
    open_zones_without_journals, readers_of, share_zones,
};
use zp_zone::ZoneConfig;

/// The end of the pages below 16 MiB, for devices that reach no further.
const DMA_END: u32 = 1 << 12;

/// The end of the pages below 4 GiB.
const DMA32_END: u32 = 1 << 20;

/// The end of the pages of 16 GiB.
const NORMAL_END: u32 = 1 << 22;

/// The place of the highest zone, out of which a request falls to those below it.
const NORMAL: usize = 2;

/// How many processors the machine has.
const WORKERS: u32 = 8;

/// The zones of the machine, the lowest first, before threads share them, and the shares of its workers.
#[derive(Drop)]
pub struct MachineZones {
    pub zones: Vec<OpenedZone<NoJournal>>,
    pub shares: Vec<Share>,
    ghost fit: { All (IsShareOf (map opened_key zones.items)) shares.items },
}

/// The pages from `base` to `end` as a zone of this name, whose least mark keeps a 1,024th of them back.
fn config(name: &str, base: u32, end: u32) -> ZoneConfig<'_> {
    let pages = end.saturating_sub(base);
    ZoneConfig {
        name,
        base,
        pages,
        min: pages / 1024,
        largest: Largest::usual(),
    }
}

/// The zones, each with all its pages free, and the shares. Refused 6.
pub fn machine_zones(alloc: Global) -> Result<MachineZones, Refused> {
    let configs = [
        config("DMA", 0, DMA_END),
        config("DMA32", DMA_END, DMA32_END),
        config("Normal", DMA32_END, NORMAL_END),
    ];
    let crew = open_crew(alloc, &configs, WORKERS, ListConfig::none())?;
    let zones = open_zones_without_journals(alloc, crew.zones, u64::MAX)?;
    Ok(MachineZones {
        zones,
        shares: crew.shares,
    })
}

/// The zones of the machine under the name of their row, and the shares that no worker has yet.
#[derive(Drop)]
struct Machine<J: Naming> {
    zones: Vec<OpenedZone<NoJournal>>,
    shares: Vec<Share>,
    of: PhantomData<J>,
    ghost keys: { map opened_key zones.items ≡ J.zones },
    ghost boards: { map opened_board zones.items ≡ J.boards },
    ghost fit: { All (IsShareOf J.zones) shares.items },
}

/// A worker of the machine, to be moved into its thread.
#[derive(Drop)]
struct MachineWorker<J: Naming> {
    share: Share,
    readers: Vec<BoardReader>,
    of: PhantomData<J>,
    ghost fits: { IsShareOf J.zones share },
    ghost reads: { AreReaders J.zones J.boards readers },
}

impl<J: Naming> Machine<J> {
    /// The next worker, with a share of all zones.
    fn next(&mut self, alloc: Global) -> Result<MachineWorker<J>, Refused> {
        let Some(share) = self.shares.pop() else {
            return Err(Refused::BadWorkers);
        };
        let readers = readers_of(alloc, &mut self.zones)?;
        Ok(MachineWorker {
            share,
            readers,
            of: PhantomData,
        })
    }

    /// All workers.
    fn workers(&mut self, alloc: Global) -> Result<Vec<MachineWorker<J>>, Refused> {
        let mut workers = Vec::new(alloc);
        for _ in 0..WORKERS {
            let worker = self.next(alloc)?;
            if workers.push(worker).is_err() {
                return Err(Refused::Memory);
            }
        }
        Ok(workers)
    }

    /// The zones, each behind a lock of its own.
    fn share(self, alloc: Global) -> Result<MachineRow<J>, Refused> {
        let Machine { zones, .. } = self;
        let zones = share_zones::<J, NoJournal>(alloc, zones)?;
        Ok(MachineRow { zones })
    }
}

/// The machine's zones, each behind its lock.
#[derive(Drop)]
struct MachineRow<J: Naming> {
    zones: Vec<SharedZone<J, NoJournal>>,
    ghost places: { IsRowOf J.zones zones.items },
}

impl<J: Naming> MachineRow<J> {
    /// How many pages are free when all workers have ended.
    fn close(self) -> u32 {
        let MachineRow { zones } = self;
        let mut free: u32 = 0;
        for zone in zones {
            free = free.saturating_add(zone.close(&mut []).zone.counts().free);
        }
        free
    }
}

/// A worker at work on the machine's zones.
#[derive(Drop)]
struct AtWork<'a, J: Naming, R> {
    share: Share,
    view: LockedZones<'a, J, (), R, NoJournal>,
    ghost fits: { IsShareOf J.zones share },
}

impl<J: Naming, R: Wait> AtWork<'_, J, R> {
    /// Takes a block out of the highest zone, or of one below it where that has none above its mark, and frees it. Returns whether both
    /// were done.
    fn round(&mut self, order: Order) -> bool {
        let share = &mut self.share;
        if share.zones() <= NORMAL {
            return false;
        }
        let Ok(lent) = alloc(
            share,
            &mut self.view,
            order,
            MigrateType::Movable,
            NORMAL,
            Mark::Low,
        ) else {
            return false;
        };
        // From here to the `free` the block is this worker's.
        let Lent { zone, page, order } = lent;
        free(share, &mut self.view, zone, page, order).is_ok()
    }

    /// How many sections of the highest zone the worker made.
    fn sections(&self) -> u64 {
        if NORMAL < self.share.zones() {
            self.share.sections(NORMAL)
        } else {
            0
        }
    }
}

/// One worker makes so many rounds, with the orders in turn: how many sections of the highest zone these were.
fn rounds<J: Naming, R: Wait>(
    rt: &R,
    worker: MachineWorker<J>,
    row: &MachineRow<J>,
    rounds: u32,
) -> u64 {
    let MachineWorker { share, readers, .. } = worker;
    let view = LockedZones::<J, (), R, NoJournal>::new(rt, row.zones.as_slice(), readers);
    let mut at_work = AtWork { share, view };
    for round in 0..rounds {
        let Some(order) = Order::new((round % 11) as u8) else {
            break;
        };
        if !at_work.round(order) {
            break;
        }
    }
    at_work.sections()
}

/// What the workers leave.
#[derive(Clone, Copy, PartialEq, Eq, Debug, Drop)]
pub struct MachineRun {
    /// How many sections of the highest zone they made.
    pub sections: u64,
    /// How many pages are free when all have ended.
    pub free_pages: u32,
}

/// All workers take blocks of all orders and give them back so many times, at the same time; then the zones are closed. Refused 6 where there
/// is no memory, and 31 where a thread could not be started.
pub fn run_machine<J: Naming + Send + Sync, R: Threads + Wait + Sync>(
    rt: &R,
    alloc: Global,
    machine: MachineZones,
    many: u32,
) -> Result<MachineRun, Refused>
    requires zones { J.zones ≡ map opened_key machine.zones.items }
    requires boards { J.boards ≡ map opened_board machine.zones.items }
{
    let MachineZones { zones, shares } = machine;
    let mut machine = Machine::<J> {
        zones,
        shares,
        of: PhantomData,
    };
    let workers = machine.workers(alloc)?;
    let row = machine.share(alloc)?;
    let Ok(made) = map_vec(rt, workers, &|worker| rounds(rt, worker, &row, many)) else {
        return Err(Refused::NoThread);
    };
    let sections = made
        .iter()
        .fold(0_u64, |sum, made| sum.saturating_add(*made));
    Ok(MachineRun {
        sections,
        free_pages: row.close(),
    })
}
