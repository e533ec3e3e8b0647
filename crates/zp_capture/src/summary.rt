//! What a capture is, in numbers.
ghost use Rattle.std.specs.Prelude.{◌≡◌};
ghost use Rattle.zp_capture.specs.Summaries.{counts_of};

use zp_kernel::{EventCounts, Kernel, LineCounts};

/// What a capture's lines are, and what came of its events.
#[derive(Clone, Copy, PartialEq, Eq, Debug, Drop)]
pub struct Summary {
    pub lines: LineCounts,
    pub counts: EventCounts,
}

/// What was counted over zones that may not be opened.
pub fn counts_of(kernel: &Option<Kernel>) -> EventCounts
    ensures { result ≡ counts_of kernel.now }
{
    match kernel {
        Some(kernel) => *kernel.counts(),
        None => EventCounts::none(),
    }
}
