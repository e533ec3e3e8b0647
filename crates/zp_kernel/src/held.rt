//! What a page frame holds.
ghost use Rattle.std.specs.Prelude.{◌≡◌, ◌≤◌, ◌+◌, ◌^◌};
ghost use Rattle.zp_model.specs.declared.constants.TheConstants.{LARGEST_ORDER};
ghost use Rattle.zp_kernel.specs.Frames.{page_behind, pages_behind, piece};

use zp_model::{Order, PageNo, Worker};
use zp_share::Lent;

/// A block of our zones that stands for a block of the kernel's, or for what is left of one.
#[derive(Clone, Copy, PartialEq, Eq, Debug, Drop)]
pub struct Held {
    pub lent: Lent,
    /// To whom it is lent.
    pub worker: Worker,
}

/// A block, and the page frame that holds it.
#[derive(Clone, Copy, PartialEq, Eq, Debug, Drop)]
pub struct Holder {
    pub frame: u64,
    pub held: Held,
}

impl Held {
    /// Its page that stands so many behind its first one.
    pub(crate) fn page_behind(&self, pages: u32) -> PageNo
        ensures { result ≡ page_behind self.now.lent.page pages }
    {
        PageNo::new(self.lent.page.number().wrapping_add(pages))
    }

    /// How many pages it has behind so many.
    pub(crate) fn pages_behind(&self, pages: u32) -> u32
        requires { pages ≤ 2 ^ self.now.lent.order }
        ensures behind { result ≡ pages_behind self.now pages }
        ensures within { pages + result ≤ 2 ^ LARGEST_ORDER }
    {
        self.lent.order.pages() - pages
    }

    /// Of it the block of this order that begins so many pages behind its first one.
    pub(crate) fn piece(&self, behind: u32, order: Order) -> Held
        ensures { result ≡ piece self.now behind order }
    {
        let lent = Lent {
            zone: self.lent.zone,
            page: self.page_behind(behind),
            order,
        };
        Held {
            lent,
            worker: self.worker,
        }
    }
}
