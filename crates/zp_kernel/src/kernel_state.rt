//! What is kept of a kernel's page events.

use crate::event_counts::EventCounts;
use crate::frame_table::FrameTable;
use crate::kernel_zones::KernelZones;

/// The zones and shares, what each page frame holds, and what was counted.
#[derive(Drop)]
pub struct KernelState {
    pub crew: KernelZones,
    pub frames: FrameTable,
    pub counts: EventCounts,
}
