//! The journal of a zone: all that was asked of it since its opening, with the replies; and the replay that shows whether a zone
//! could have made it, and what its counts were. A zone can go on by a further journal. And what a zone that threads share keeps of the
//! requests made of it, a choice of the zone's type: all of them in a journal with room for a number of them, none, or journals that are
//! handed over one after another.
#![tactic(auto)]

mod asking;
mod cut_journal;
mod journal;
mod keeps;
mod no_journal;
mod pieces;
mod replay;
mod whole_journal;

pub use cut_journal::CutJournal;
pub use journal::{Journal, LONGEST_JOURNAL};
pub use keeps::Keeps;
pub use no_journal::NoJournal;
pub use pieces::{Piece, are_adjoining, replay_pieces, replay_pieces_from};
pub use replay::{
    JournalCheck, counts_after, counts_after_from, replay_further, replay_journal,
    replay_journal_from, replay_opening, replay_wide_opening,
};
pub use whole_journal::WholeJournal;
