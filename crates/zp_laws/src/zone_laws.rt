//! Laws on lawful zones. Each function does nothing: its contract is the law.
ghost use Rattle.zp_laws.specs.KeptLawful.{
  OpeningIsLawful,
  SettlingListsTheArea,
  ChoosingFindsFree,
  ChoosingPassesIsolated,
  ChoosingMissesNone,
  LowestPassesIsolated,
  LowestMissesNone,
  AllocKeepsLawful,
  StepsKeepLawful,
  RunsKeepLawful,
};

/// The zone that all begins with is lawful.
pub fn opening_is_lawful()
    ensures { OpeningIsLawful }
{}

/// Settling an area lists exactly its maximal free blocks.
pub fn settling_lists_the_area()
    ensures { SettlingListsTheArea }
{}

/// A block is chosen only from the free ones, and large enough.
pub fn choosing_finds_free()
    ensures { ChoosingFindsFree }
{}

/// What is chosen lies in no isolated pageblock.
pub fn choosing_passes_isolated()
    ensures { ChoosingPassesIsolated }
{}

/// None is chosen only where no free block outside isolated pageblocks is large enough.
pub fn choosing_misses_none()
    ensures { ChoosingMissesNone }
{}

/// The lowest block that is looked for lies in no isolated pageblock.
pub fn lowest_passes_isolated()
    ensures { LowestPassesIsolated }
{}

/// None is found only where no free block outside isolated pageblocks is large enough.
pub fn lowest_misses_none()
    ensures { LowestMissesNone }
{}

/// Handing out a block keeps a lawful zone lawful.
pub fn alloc_keeps_lawful()
    ensures { AllocKeepsLawful }
{}

/// Each step keeps a lawful zone lawful.
pub fn steps_keep_lawful()
    ensures { StepsKeepLawful }
{}

/// So does a whole run.
pub fn runs_keep_lawful()
    ensures { RunsKeepLawful }
{}
