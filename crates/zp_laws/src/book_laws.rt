//! Laws on the books of a zone. Each function does nothing: its contract is the law.
ghost use Rattle.zp_laws.specs.KeptBooks.{
  RequestsLeaveOthers,
  RepliesTellTheirPart,
  PartsTellWhatIsOut,
  PartsTellWhatIsLent,
  PartsKeepTheirPlaces,
  RequestsMakeOneEntry,
};

/// A request leaves what is other workers'.
pub fn requests_leave_others()
    ensures { RequestsLeaveOthers }
{}

/// Request and reply say what becomes of the worker's own part, with the types of the pageblocks where a run is allocated.
pub fn replies_tell_their_part()
    ensures { RepliesTellTheirPart }
{}

/// A worker's part says which blocks are out in its name.
pub fn parts_tell_what_is_out()
    ensures { PartsTellWhatIsOut }
{}

/// And which runs of pages are lent to the worker.
pub fn parts_tell_what_is_lent()
    ensures { PartsTellWhatIsLent }
{}

/// A part keeps its base and the number of its pages.
pub fn parts_keep_their_places()
    ensures { PartsKeepTheirPlaces }
{}

/// A request makes one entry more.
pub fn requests_make_one_entry()
    ensures { RequestsMakeOneEntry }
{}
