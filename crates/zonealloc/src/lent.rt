//! The worker in a slot, lent for the time of a call.
ghost use Rattle.std.specs.Prelude.{◌≡◌, IsSome, Some};
ghost use Rattle.std.specs.Borrow.{sem};
ghost use Rattle.zonealloc.specs.Lent.{LendsWorker};

use crate::slots::WorkerSlot;
use zp_gate::GatedWorker;

impl WorkerSlot {
    /// The worker, lent where it lies: the slot keeps it, as it was last written.
    pub fn held(&mut self) -> &mut GatedWorker
        requires { IsSome self.old.value }
        ensures* writes_back { sem 𝓛 (LendsWorker self.entry result) }
        ensures value { self.old.value ≡ Some result.now }
    {
        unsafe { &mut *(self.at as *mut GatedWorker) }
    }
}
