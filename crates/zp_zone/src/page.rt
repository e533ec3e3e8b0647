//! What a zone reports of a page.
//!
//! In Linux: what `dump_page` shows of a `struct page`.

use zp_model::{PageNo, State};

/// What is noted of a page, and its neighbours on its one list, all pages absolute.
#[derive(Clone, Copy, PartialEq, Eq, Debug, Drop)]
pub struct ZonePage {
    pub state: State,
    pub back: Option<PageNo>,
    pub forward: Option<PageNo>,
}
