//! One zone that threads share: the zone behind its lock, with the workers of its seats and a reader of its counts.
//!
//! This is where to begin. Rows of more zones are made of the same parts: `share_zones`, `Share` and `LockedZones`.
ghost use Rattle.std.specs.Prelude.{◌≡◌, ◌∷◌, [], All, Some, length, map, IfOk, IfErr};
ghost use Rattle.zp_model.specs.declared.refused.Refused.TheVariants.{Memory};
ghost use Rattle.zp_shared.specs.OneZones.{opening_worker};
ghost use Rattle.zp_shared.specs.Rows.{IsRowOf, opened_board, opened_key};
ghost use Rattle.zp_zone.specs.Seats.{IsSeatOf, IsUnused};

use crate::naming::Naming;
use crate::opened::OpenedZone;
use crate::row::share_zones;
use crate::shared_zone::SharedZone;
use crate::zone_reader::ZoneReader;
use crate::zone_worker::ZoneWorker;
use std::alloc::Global;
use zp_journal::{Keeps, WholeJournal};
use zp_model::Refused;
use zp_share::ListConfig;
use zp_zone::Seat;

/// A zone behind its lock, as the row of one to which its workers and readers turn.
#[derive(Drop)]
pub struct OneZone<J: Naming, K: Keeps = WholeJournal> {
    zones: Vec<SharedZone<J, K>>,
    ghost places: { IsRowOf J.zones zones.items },
    ghost alone: { zones.items ≡ 0 ∷ [] },
}

impl<J: Naming, K: Keeps> OneZone<J, K> {
    /// The row of one, as `share_zones` returns it.
    #[tactic(auto, using(crate::proofs::Places::row_of_one))]
    pub fn new(zones: Vec<SharedZone<J, K>>) -> OneZone<J, K>
        requires row { IsRowOf J.zones zones.items }
        requires one { length J.zones ≡ 1 }
    {
        OneZone { zones }
    }

    /// The opened zone behind its lock. Refused 6, and then the zone is lost.
    pub fn of(alloc: Global, opened: OpenedZone<K>) -> Result<OneZone<J, K>, Refused>
        requires named { J.zones ≡ opened_key opened ∷ [] }
        requires boards { J.boards ≡ opened_board opened ∷ [] }
        ensures why { IfErr result (λ e. e ≡ Memory) }
    {
        let Ok(mut zones) = Vec::with_capacity(alloc, 1) else {
            return Err(Refused::Memory);
        };
        zones.push_reserved(opened);
        Ok(OneZone::new(share_zones::<J, K>(alloc, zones)?))
    }

    /// The zone's lock, with its board beside it.
    pub fn shared(&self) -> &SharedZone<J, K>
        ensures { result.now ≡ 0 }
    {
        &self.zones[0]
    }

    /// The lock for good, so that the zone can be closed. It is always there.
    pub fn into_zone(self) -> Option<SharedZone<J, K>>
        ensures { result ≡ Some 0 }
    {
        let mut zones = self.zones;
        zones.pop()
    }

    /// The row.
    pub(crate) fn as_slice(&self) -> &[SharedZone<J, K>]
        ensures { IsRowOf J.zones result.now }
    {
        self.zones.as_slice()
    }
}

/// One zone, a worker for each of its seats, and a reader that has none: for a thread each.
#[derive(Drop)]
pub struct ZoneCrew<J: Naming, K: Keeps = WholeJournal> {
    pub zone: OneZone<J, K>,
    pub workers: Vec<ZoneWorker<J>>,
    pub reader: ZoneReader<J>,
}

impl<J: Naming, K: Keeps> ZoneCrew<J, K> {
    /// The opened zone behind its lock, with a worker for each of these seats, whose lists have these settings. Refused 6, and then the zone
    /// is lost.
    pub fn new(
        alloc: Global,
        mut opened: OpenedZone<K>,
        seats: Vec<Seat>,
        lists: ListConfig,
    ) -> Result<ZoneCrew<J, K>, Refused>
        requires named { J.zones ≡ opened_key opened ∷ [] }
        requires boards { J.boards ≡ opened_board opened ∷ [] }
        requires fits { All (IsSeatOf opened.zone) seats.items }
        requires unused { All IsUnused seats.items }
        ensures workers { IfOk result (λ crew. crew.workers.items ≡ map (opening_worker lists.batch lists.high_len) seats.items) }
        ensures why { IfErr result (λ e. e ≡ Memory) }
    {
        let workers = workers_of(alloc, &mut opened, seats, lists)?;
        let reader = reader_of(alloc, &mut opened)?;
        let zone = OneZone::of(alloc, opened)?;
        Ok(ZoneCrew {
            zone,
            workers,
            reader,
        })
    }
}

/// A worker for each of these seats. Refused 6.
fn workers_of<J: Naming, K: Keeps>(
    alloc: Global,
    opened: &mut OpenedZone<K>,
    seats: Vec<Seat>,
    lists: ListConfig,
) -> Result<Vec<ZoneWorker<J>>, Refused>
    requires named { J.zones ≡ opened_key opened.old ∷ [] }
    requires boards { J.boards ≡ opened_board opened.old ∷ [] }
    requires fits { All (IsSeatOf opened.old.zone) seats.items }
    requires unused { All IsUnused seats.items }
    ensures same { opened.new ≡ opened.old }
    ensures workers { IfOk result (λ workers. workers.items ≡ map (opening_worker lists.batch lists.high_len) seats.items) }
    ensures why { IfErr result (λ e. e ≡ Memory) }
{
    let Ok(mut workers) = Vec::with_capacity(alloc, seats.len()) else {
        return Err(Refused::Memory);
    };
    for seat in seats {
        let reader = opened.reader();
        workers.push_reserved(ZoneWorker::with_lists(alloc, seat, reader, lists)?);
    }
    Ok(workers)
}

/// A reader of the zone's board. Refused 6.
fn reader_of<J: Naming, K: Keeps>(
    alloc: Global,
    opened: &mut OpenedZone<K>,
) -> Result<ZoneReader<J>, Refused>
    requires named { J.zones ≡ opened_key opened.old ∷ [] }
    requires boards { J.boards ≡ opened_board opened.old ∷ [] }
    ensures same { opened.new ≡ opened.old }
    ensures why { IfErr result (λ e. e ≡ Memory) }
{
    ZoneReader::new(alloc, opened.reader()).ok_or(Refused::Memory)
}
