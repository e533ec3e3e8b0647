//! A zone whose blocks are all out in one name, so that whoever has it gives back any of them.
#![tactic(auto)]

mod open_room;
mod room_totals;

pub use open_room::OpenRoom;
pub use room_totals::RoomTotals;
