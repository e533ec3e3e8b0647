//! What a page of a zone is.
ghost use Rattle.std.specs.Prelude.{◌≡◌};
ghost use Rattle.zp_view.specs.Ways.{is_used};

use zp_model::{Order, Worker};

/// Each page of a zone is in one of these states.
#[derive(Clone, Copy, PartialEq, Eq, Debug, Drop)]
pub enum PageState {
    /// It lies in a free block of this order.
    Free(Order),
    /// It lies in a block that is lent to this worker.
    Out(Worker),
    /// It lies in a block that is posted to this worker.
    Posted(Worker),
    /// It lies in a list of this worker.
    Cached(Worker),
}

impl PageState {
    /// Whether the page is not free.
    pub fn is_used(self) -> bool
        ensures { result ≡ is_used self }
    {
        !matches!(self, PageState::Free(_))
    }
}
