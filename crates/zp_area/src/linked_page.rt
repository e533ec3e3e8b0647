//! A page as callers see it: what is noted of it, and its neighbours.
//!
//! In Linux: `struct page`.

use zp_model::{PageAt, State};

/// What is noted of a page, and the pages before and after it in its list.
#[derive(Clone, Copy, PartialEq, Eq, Debug, Drop)]
pub struct LinkedPage {
    pub state: State,
    pub back: Option<PageAt>,
    pub forward: Option<PageAt>,
}
