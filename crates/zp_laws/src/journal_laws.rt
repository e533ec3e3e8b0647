//! Laws on journals, and on allocating and freeing. Each function does nothing: its contract is the law.
ghost use Rattle.zp_laws.specs.Journals.{JournalsReplay, LegalHistoriesAreJournals, HistoriesBegin, HistoriesGoOn};
ghost use Rattle.zp_laws.specs.TakenBack.{GivingBackRestores, ReleasingRestores};

/// A journal run from where it began gives the zone that made it, and is legal there.
pub fn journals_replay()
    ensures { JournalsReplay }
{}

/// A legal history is the journal of its own requests.
pub fn legal_histories_are_journals()
    ensures { LegalHistoriesAreJournals }
{}

/// A zone as it was made has the empty history.
pub fn histories_begin()
    ensures { HistoriesBegin }
{}

/// A zone's history, and the entry of a request more, is the history of what the request leaves.
pub fn histories_go_on()
    ensures { HistoriesGoOn }
{}

/// A block that is allocated and freed leaves the free pages as they were, and the types where none was claimed.
pub fn giving_back_restores()
    ensures { GivingBackRestores }
{}

/// A pageblock that is isolated, and released with its type, leaves the free pages, the types and the books as they were.
pub fn releasing_restores()
    ensures { ReleasingRestores }
{}
