//! The ends of a list.
ghost use Rattle.std.specs.Prelude.{ℕ, ◌≡◌, ◌↔◌, Some, IsTrue};
ghost use Rattle.zp_links.specs.Linked.{ends_at};

use zp_model::PageAt;
use zp_table::Link;

/// The first and the last page of a list, and its length.
#[derive(Clone, Copy, Drop)]
pub struct Ends {
    pub first: Link,
    pub last: Link,
    pub len: u32,
}

/// Whether a page is the first one of a list.
pub fn is_front(ends: &[Ends], at: PageAt) -> bool
    ensures { IsTrue result ↔ ((r : ℕ) × ((ends_at ends.now r).first ≡ Some at)) }
{
    for end in ends {
        if let Some(page) = end.first.page() {
            if page == at {
                return true;
            }
        }
    }
    false
}
