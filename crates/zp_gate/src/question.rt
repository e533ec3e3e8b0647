//! What a zone is asked to report of itself, and what it returns.
use zp_info::{INFO_LINE, TextBuffer};
use zp_model::{Counts, CountsByType, Level, PageNo};
use zp_zone::{Pageblock, ZonePage};

/// How many free blocks of each order and free pages a zone has, its level, and its posted pages, all at one moment.
#[derive(Clone, Copy, Drop)]
pub struct ZoneTold {
    pub counts: Counts,
    pub level: Level,
    pub posted: u32,
}

/// What a zone is asked to tell. Whoever asks changes nothing.
#[derive(Clone, Copy, Drop)]
pub enum Question {
    Zone,
    /// The info line, with its line feed.
    Line,
    /// The page of this absolute number.
    Page(PageNo),
    /// The pageblock of this number.
    Pageblock(u32),
    /// Free blocks and pageblocks by type.
    Types,
}

/// What it reports: of a page or a pageblock that it does not have, nothing.
#[derive(Drop)]
pub enum Answer {
    Zone(ZoneTold),
    Line(TextBuffer<INFO_LINE>),
    Page(Option<ZonePage>),
    Pageblock(Option<Pageblock>),
    Types(CountsByType),
}
