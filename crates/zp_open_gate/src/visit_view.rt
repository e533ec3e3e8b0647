//! What is known of a visit behind a lock. No program has one: it is the view of a seat of the lock's table.
use crate::room_key::RoomKey;
use zp_open_room::OpenRoom;

/// The lock's key, the room as the visitor found it, and as he left it.
#[derive(Drop)]
pub struct VisitView {
    pub(crate) key: RoomKey,
    pub(crate) found: Option<OpenRoom>,
    pub(crate) left: Option<OpenRoom>,
}
