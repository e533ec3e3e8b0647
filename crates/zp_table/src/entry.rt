//! The entry of a page.
//!
//! In Linux: `struct page`.

use crate::link::Link;
use zp_model::State;

/// What is noted of a page, and the pages before and after it in its list.
#[derive(Clone, Copy, PartialEq, Eq, Debug, Drop)]
pub struct PageEntry {
    pub state: State,
    pub back: Link,
    pub forward: Link,
}
