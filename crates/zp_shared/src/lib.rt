//! Zones that threads share: a row of zones, each behind a lock of its own with a board of its counts beside it, under one name that
//! ties them to the workers' shares and readers.
#![tactic(auto)]

mod guarded;
mod locked_zones;
mod locking;
mod naming;
mod one_zone;
mod opened;
mod row;
mod shared_zone;
mod zone_reader;
mod zone_worker;

pub use guarded::Guarded;
pub use locked_zones::LockedZones;
pub use naming::{Earlier, Naming};
pub use one_zone::{OneZone, ZoneCrew};
pub use opened::OpenedZone;
pub use row::{
    close_zones, open_zones, open_zones_without_journals, reader_rows, readers_of, share_zones,
};
pub use shared_zone::{Closed, SharedZone};
pub use zone_reader::{ReaderAt, ZoneReader};
pub use zone_worker::{WorkerAt, ZoneWorker};
pub use zp_counts::{Board, BoardReader, Reading};
pub use zp_journal::{CutJournal, Keeps, NoJournal, WholeJournal};
