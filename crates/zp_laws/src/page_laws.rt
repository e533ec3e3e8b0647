//! Laws on the pages that a step moves. Each function does nothing: its contract is the law.
ghost use Rattle.zp_laws.specs.FreePages.{StepsMovePages, RefusalsChangeNothing, StepsKeepTheZone, PagesAddUp};

/// A step changes the free pages by exactly those that it allocates or frees.
pub fn steps_move_pages()
    ensures { StepsMovePages }
{}

/// A refused request leaves the zone as it was.
pub fn refusals_change_nothing()
    ensures { RefusalsChangeNothing }
{}

/// A zone keeps its largest order, its size, its base, its least mark and its workers.
pub fn steps_keep_the_zone()
    ensures { StepsKeepTheZone }
{}

/// Free, out and posted pages of a lawful zone add up to its pages.
pub fn pages_add_up()
    ensures { PagesAddUp }
{}
