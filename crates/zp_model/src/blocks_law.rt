//! Laws on maximal blocks. Each function does nothing: its contract is the law.
ghost use Rattle.zp_model.specs.Laws.{EachPageInOneBlock, UnjoinedAreMaximal};

/// Each page of a set lies in exactly one maximal block of the set.
pub fn each_page_in_one_block()
    ensures { EachPageInOneBlock }
{}

/// Aligned disjoint blocks of which no two could be joined are the maximal blocks of their pages.
pub fn unjoined_blocks_are_maximal()
    ensures { UnjoinedAreMaximal }
{}
