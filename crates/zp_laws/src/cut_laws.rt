//! Laws on the blocks of a run, and on runs that are taken and given back in parts. Each function does nothing: its contract is the law.
ghost use Rattle.zp_model.specs.RunLaws.{
  CutTiles,
  CutInZone,
  CutIsMaximal,
  CutLength,
  LeftInParts,
  GivenInParts,
  LeftByCut,
  GivenByCut,
  LeftByHalving,
};

/// The blocks of a run's cut tile it.
pub fn cuts_tile()
    ensures { CutTiles }
{}

/// They are blocks of the zone.
pub fn cuts_lie_in_the_zone()
    ensures { CutInZone }
{}

/// They are the maximal blocks of the run's pages.
pub fn cuts_are_maximal()
    ensures { CutIsMaximal }
{}

/// They are few.
pub fn cuts_are_short()
    ensures { CutLength }
{}

/// A run may be taken in any parts, the lowest first.
pub fn runs_leave_in_parts()
    ensures { LeftInParts }
{}

/// It may be given back so.
pub fn runs_come_in_parts()
    ensures { GivenInParts }
{}

/// It may be taken block by block of its cut.
pub fn runs_leave_by_cut()
    ensures { LeftByCut }
{}

/// It may be given back so.
pub fn runs_come_by_cut()
    ensures { GivenByCut }
{}

/// A block may be taken out of a free one by halving it.
pub fn blocks_leave_by_halving()
    ensures { LeftByHalving }
{}
