//! Callers of zones that threads share, as a user would write them. As those of `uses_owned`, each is proved from the contracts of the calls
//! that it makes, with no proof file.
#![tactic(auto)]

mod cut_zone;
mod endless_zone;
mod locked_page;
mod machine;
mod reading_in_history;
mod replayed_pieces;
mod reserved_range;

pub use cut_zone::{CutRun, PIECE, work_in_pieces};
pub use endless_zone::{EndlessRun, work_without_end};
pub use locked_page::touch_a_page;
pub use machine::{MachineRun, MachineZones, machine_zones, run_machine};
pub use reading_in_history::read_before_the_lock;
pub use replayed_pieces::replayed_zone;
pub use reserved_range::reserve_for_a_while;

// One zone that threads share, by the names of a row of one.
pub use zp_shared::{
    OneZone as RowOfOne, ReaderAt, WorkerAt, ZoneReader as RowReader, ZoneWorker as RowWorker,
};
