//! The lines of a trace.
ghost use Rattle.std.specs.Prelude.{◌≡◌};
ghost use Rattle.zp_trace.specs.Grammar.{bound_label, declared_largest};

use zp_model::{Largest, Mark, MigrateType, Name, Order, Worker};

/// The line that declares a zone.
#[derive(Clone, Copy, PartialEq, Eq, Debug, Drop)]
pub struct ZoneLine {
    pub name: Name,
    /// The first page.
    pub base: u32,
    pub pages: u32,
    /// The least mark, in pages.
    pub min: u32,
    /// The largest order, where the line names one.
    pub largest: Option<Largest>,
}

impl ZoneLine {
    /// The zone's largest order: the one that the line names, else the usual one.
    pub fn declared_largest(&self) -> Largest
        ensures { result ≡ declared_largest self.now }
    {
        match self.largest {
            Some(largest) => largest,
            None => Largest::usual(),
        }
    }
}

/// What a worker line asks for.
#[derive(Clone, Copy, PartialEq, Eq, Debug, Drop)]
pub enum Call {
    /// The counts of each zone.
    Info,
    /// A block of this order for this type, held to this mark, out of the zone of this name or one declared before it; the
    /// label is bound to it.
    Alloc {
        label: Name,
        order: Order,
        kind: MigrateType,
        zone: Name,
        mark: Mark,
    },
    /// The lowest block of this order of the zone of this name, and of no other; the label is bound to it.
    Low {
        label: Name,
        order: Order,
        zone: Name,
    },
    /// The block that this label of the worker is bound to, freed.
    Free {
        label: Name,
    },
    /// The block that this label of the worker is bound to, posted to a worker.
    Post {
        label: Name,
        to: Worker,
    },
    /// The block in front of those posted to the worker in the zone of this name; the label is bound to it.
    Collect {
        label: Name,
        zone: Name,
    },
    /// All pages of the worker's lists, freed.
    Drain,
    /// The pageblock of this number of the zone of this name, isolated.
    Isolate {
        zone: Name,
        pageblock: u32,
    },
    /// The pageblock of this number, which is isolated, given this type.
    Release {
        zone: Name,
        pageblock: u32,
        kind: MigrateType,
    },
}

/// One worker line: who asks, and for what.
#[derive(Clone, Copy, PartialEq, Eq, Debug, Drop)]
pub struct CommandLine {
    pub worker: Worker,
    pub call: Call,
}

impl Call {
    /// The label that the call binds to the block that it gets.
    pub fn bound_label(&self) -> Option<Name>
        ensures { result ≡ bound_label self.now }
    {
        match self {
            Call::Alloc { label, .. } | Call::Low { label, .. } | Call::Collect { label, .. } => {
                Some(*label)
            }
            Call::Info
            | Call::Free { .. }
            | Call::Post { .. }
            | Call::Drain
            | Call::Isolate { .. }
            | Call::Release { .. } => None,
        }
    }
}
