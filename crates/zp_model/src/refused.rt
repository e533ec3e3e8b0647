//! Refusals and their numbers.
ghost use Rattle.std.specs.Prelude.{◌≡◌};
ghost use Rattle.zp_model.specs.Refused.{refused_number};

/// Why a call was refused.
#[derive(Clone, Copy, PartialEq, Eq, Debug, Drop)]
pub enum Refused {
    /// 1: the name is not 1 to 8 ASCII letters or digits.
    BadName,
    /// 2: the base is no multiple of 1,024, or above its limit: 16,777,216 for a narrow zone, 2^30 for a wide one.
    BadBase,
    /// 3: the pages are not 1 to 65,536 for a narrow zone, 1 to 16,777,216 for a wide one.
    BadPages,
    /// 4: the least mark is above the pages.
    BadMark,
    /// 5: the workers are not 1 to 32.
    BadWorkers,
    /// 6: there is no memory for the creation.
    Memory,
    /// 10: the request would take the free pages outside isolated pageblocks to its mark or below.
    BelowMark,
    /// 11: no free block outside isolated pageblocks is large enough.
    NoBlock,
    /// 12: nothing is posted to the worker.
    NothingPosted,
    /// 13: the zone has no pageblock of this number.
    BadPageblock,
    /// 14: the pageblock is isolated already.
    AlreadyIsolated,
    /// 15: the pageblock is not isolated.
    NotIsolated,
    /// 16: the run has no page, or is not wholly the zone's.
    BadRun,
    /// 17: one of the run's pages is not free.
    NotFree,
    /// 20: the block is not lent.
    NotLent,
    /// 21: the worker's list is full.
    ListFull,
    /// 30: the journal is full.
    JournalFull,
    /// 31: a thread could not be started.
    NoThread,
}

impl Refused {
    /// The number of the refusal.
    pub const fn number(self) -> u8
        ensures { result ≡ refused_number self }
    {
        match self {
            Refused::BadName => 1,
            Refused::BadBase => 2,
            Refused::BadPages => 3,
            Refused::BadMark => 4,
            Refused::BadWorkers => 5,
            Refused::Memory => 6,
            Refused::BelowMark => 10,
            Refused::NoBlock => 11,
            Refused::NothingPosted => 12,
            Refused::BadPageblock => 13,
            Refused::AlreadyIsolated => 14,
            Refused::NotIsolated => 15,
            Refused::BadRun => 16,
            Refused::NotFree => 17,
            Refused::NotLent => 20,
            Refused::ListFull => 21,
            Refused::JournalFull => 30,
            Refused::NoThread => 31,
        }
    }
}
