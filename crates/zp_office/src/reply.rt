//! The replies to a worker's commands.

use crate::counts_row::CountsRow;
use zp_model::{Block, PageNo, Refused};

/// The reply to a worker's command.
#[derive(PartialEq, Eq, Debug, Drop)]
pub enum CommandReply {
    /// The first page of the block that an alloc or a low was lent.
    Page(PageNo),
    /// The block that was collected.
    Block(Block),
    Freed,
    Posted,
    /// How many pages were freed.
    Drained(u32),
    Isolated,
    Released,
    /// The counts of each zone, the lowest zone first.
    Info(CountsRow),
    Refused(Refused),
}
