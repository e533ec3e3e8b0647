//! The laws of the plain zone: what holds of every zone that its requests leave.
#![tactic(auto)]

mod book_laws;
mod cut_laws;
mod journal_laws;
mod page_laws;
mod run_laws;
mod zone_laws;

pub use book_laws::{
    parts_keep_their_places, parts_tell_what_is_lent, parts_tell_what_is_out,
    replies_tell_their_part, requests_leave_others, requests_make_one_entry,
};
pub use cut_laws::{
    blocks_leave_by_halving, cuts_are_maximal, cuts_are_short, cuts_lie_in_the_zone, cuts_tile,
    runs_come_by_cut, runs_come_in_parts, runs_leave_by_cut, runs_leave_in_parts,
};
pub use journal_laws::{
    giving_back_restores, histories_begin, histories_go_on, journals_replay,
    legal_histories_are_journals, releasing_restores,
};
pub use page_laws::{pages_add_up, refusals_change_nothing, steps_keep_the_zone, steps_move_pages};
pub use run_laws::{
    freed_runs_tell_their_part, run_steps_move_lent, runs_are_freed_in_a_block,
    runs_are_freed_in_parts, runs_are_taken_by_cut,
};
pub use zone_laws::{
    alloc_keeps_lawful, choosing_finds_free, choosing_misses_none, choosing_passes_isolated,
    lowest_misses_none, lowest_passes_isolated, opening_is_lawful, runs_keep_lawful,
    settling_lists_the_area, steps_keep_lawful,
};
