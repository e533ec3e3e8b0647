//! A caller of an open room: what one part of a program got another gives back.

use zp_model::{Mark, MigrateType, Order, Refused};
use zp_open_room::OpenRoom;

/// Gets a page of the room, and puts it back. Returns how many pages are free then.
pub fn pass_through(room: &mut OpenRoom) -> Result<u32, Refused> {
    let order = Order::zero();
    let page = room.get_block(order, MigrateType::Movable, Mark::Low)?;
    // Whoever has the room may do this: nothing says who got the page.
    room.put_block(page, order)?;
    Ok(room.free_pages())
}
