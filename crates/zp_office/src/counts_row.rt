//! The counts of a row of zones.
ghost use Rattle.std.specs.Prelude.{◌≡◌, ◌<◌, ◌≤◌, [], ◌∷◌, ◌++◌, length};
ghost use Rattle.zp_model.specs.declared.constants.TheConstants.{TRACE_ZONES};

use arrayvec::ArrayVec;
use std::marker::Model;
use zp_model::{Counts, TRACE_ZONES};

/// The counts of up to `TRACE_ZONES` zones, in place: creating one takes no memory.
#[derive(PartialEq, Eq, Debug, Drop)]
pub struct CountsRow {
    counts: ArrayVec<Counts, TRACE_ZONES>,
}

impl Model for CountsRow {
    ghost use Rattle.std.specs.Prelude.{List};
    ghost use Rattle.zp_model.specs.declared.counts.Counts.{Counts};

    ghost Value = { List Counts };

    ghost view = { λ r. r.counts.items };

    ghost inverse = { λ c. record { counts = record { items = c } } };
}

impl CountsRow {
    pub fn new() -> CountsRow
        ensures { result ≡ [] }
    {
        CountsRow {
            counts: ArrayVec::new(),
        }
    }

    /// Puts the counts of one zone more at the end.
    pub fn push(&mut self, counts: Counts)
        requires { length self.old < TRACE_ZONES }
        ensures { self.new ≡ self.old ++ counts ∷ [] }
    {
        self.counts.push(counts);
    }

    pub fn as_slice(&self) -> &[Counts]
        ensures same { result.now ≡ self.now }
        ensures within { length result.now ≤ TRACE_ZONES }
    {
        self.counts.as_slice()
    }
}
