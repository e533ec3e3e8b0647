//! A free block that is about to leave its list.

use zp_model::{Order, PageAt};

/// A free block, the number of the list on which its head stands, and whether that is known to be the front.
#[derive(Clone, Copy, Drop)]
pub struct ListedBlock {
    pub head: PageAt,
    pub order: Order,
    pub list: usize,
    pub is_front: bool,
}
