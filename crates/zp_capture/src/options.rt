//! What is asked of a capture.

use crate::plan::ZonePlan;
use zp_buddyinfo::Style;
use zp_events::AtBroken;
use zp_model::Largest;
use zp_share::ListConfig;

/// What is written of a run.
#[derive(Clone, Copy, Drop)]
pub enum Form {
    /// The table, the zones at the end and their indexes, whose bars look so.
    Table(Style),
    /// The counts of each zone after each so many events, as CSV.
    Lines(u64),
    /// The free pages of each zone over the events, as SVG.
    Chart,
}

/// Over which zones a capture is carried out, and what is written of it.
#[derive(Drop)]
pub struct EventOptions {
    /// The zones, the lowest first; those of the machine where there are none.
    pub plans: Vec<ZonePlan>,
    pub lists: ListConfig,
    pub largest: Largest,
    /// How many CPUs have a worker of their own; as many as the machine has, where it is not said.
    pub cpus: Option<u32>,
    pub at_broken: AtBroken,
    /// The bytes of a page, by which free memory is reported.
    pub page: u64,
    pub form: Form,
}
