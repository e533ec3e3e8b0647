//! Laws on requests for runs. Each function does nothing: its contract is the law.
ghost use Rattle.zp_laws.specs.RunsByBlocks.{FreedRunsTellTheirPart, RunsFreedInBlock, RunsFreedInParts, RunsTakenByCut};
ghost use Rattle.zp_laws.specs.KeptRuns.{RunStepsMoveLent};

/// Each request for a run changes what is lent to its worker by exactly the pages that it allocates or frees: each other page stays lent, for
/// the type that it had.
pub fn run_steps_move_lent()
    ensures { RunStepsMoveLent }
{}

/// A run is taken by the blocks of its cut, in rising order.
pub fn runs_are_taken_by_cut()
    ensures { RunsTakenByCut }
{}

/// A run that lies in one block is freed by cutting that block.
pub fn runs_are_freed_in_a_block()
    ensures { RunsFreedInBlock }
{}

/// A longer one is freed block by block, in rising order.
pub fn runs_are_freed_in_parts()
    ensures { RunsFreedInParts }
{}

/// What freeing a run leaves of a worker's part is told by that part alone.
pub fn freed_runs_tell_their_part()
    ensures { FreedRunsTellTheirPart }
{}
