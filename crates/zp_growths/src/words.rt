//! The words, and what is made of each.

use crate::{crews, locked, offices};
use std::alloc::Global;
use std::sync::Wait;
use std::thread::Threads;
use zp_loads::Unmade;
use zp_makings::{boards, buddies, shares, zones};

/// What can be made.
#[derive(Clone, Copy, PartialEq, Eq, Debug, Drop)]
pub enum MakingKind {
    /// Nothing: the growths are those of the command line.
    Nothing,
    PageTable,
    Lists,
    OrderTree,
    FreeArea,
    Buddy,
    Zone,
    ZoneShare,
    Share,
    Journal,
    Board,
    TurningBoard,
    WideBoard,
    OpenedZone,
    Readers,
    SharedZone,
    WithoutJournal,
    WithPieces,
    ZoneCrew,
    Trace,
    Script,
    Shares,
    Desk,
    Desks,
    Office,
    Run,
    Replay,
    CountsAfter,
}

/// A word of the command line.
#[derive(Clone, Copy, Drop)]
pub struct MakingWord {
    pub name: &'static str,
    making: MakingKind,
    /// Whether there are calls on what is made.
    pub has_calls: bool,
}

/// All words, the lower layers first.
pub const WORDS: [MakingWord; 28] = [
    MakingWord {
        name: "nothing",
        making: MakingKind::Nothing,
        has_calls: false,
    },
    MakingWord {
        name: "PageTable",
        making: MakingKind::PageTable,
        has_calls: false,
    },
    MakingWord {
        name: "Lists",
        making: MakingKind::Lists,
        has_calls: false,
    },
    MakingWord {
        name: "OrderTree",
        making: MakingKind::OrderTree,
        has_calls: false,
    },
    MakingWord {
        name: "FreeArea",
        making: MakingKind::FreeArea,
        has_calls: false,
    },
    MakingWord {
        name: "Buddy",
        making: MakingKind::Buddy,
        has_calls: true,
    },
    MakingWord {
        name: "Zone",
        making: MakingKind::Zone,
        has_calls: true,
    },
    MakingWord {
        name: "ZoneShare",
        making: MakingKind::ZoneShare,
        has_calls: false,
    },
    MakingWord {
        name: "Share",
        making: MakingKind::Share,
        has_calls: true,
    },
    MakingWord {
        name: "Journal",
        making: MakingKind::Journal,
        has_calls: false,
    },
    MakingWord {
        name: "new_board",
        making: MakingKind::Board,
        has_calls: true,
    },
    MakingWord {
        name: "new_turning_board",
        making: MakingKind::TurningBoard,
        has_calls: true,
    },
    MakingWord {
        name: "new_wide_board",
        making: MakingKind::WideBoard,
        has_calls: true,
    },
    MakingWord {
        name: "OpenedZone",
        making: MakingKind::OpenedZone,
        has_calls: false,
    },
    MakingWord {
        name: "reader_rows",
        making: MakingKind::Readers,
        has_calls: false,
    },
    MakingWord {
        name: "SharedZone",
        making: MakingKind::SharedZone,
        has_calls: true,
    },
    MakingWord {
        name: "without_journal",
        making: MakingKind::WithoutJournal,
        has_calls: true,
    },
    MakingWord {
        name: "with_pieces",
        making: MakingKind::WithPieces,
        has_calls: true,
    },
    MakingWord {
        name: "ZoneCrew",
        making: MakingKind::ZoneCrew,
        has_calls: true,
    },
    MakingWord {
        name: "parse_trace",
        making: MakingKind::Trace,
        has_calls: false,
    },
    MakingWord {
        name: "script_of",
        making: MakingKind::Script,
        has_calls: false,
    },
    MakingWord {
        name: "opened",
        making: MakingKind::Shares,
        has_calls: false,
    },
    MakingWord {
        name: "Desk",
        making: MakingKind::Desk,
        has_calls: false,
    },
    MakingWord {
        name: "opened_desks",
        making: MakingKind::Desks,
        has_calls: false,
    },
    MakingWord {
        name: "Office",
        making: MakingKind::Office,
        has_calls: true,
    },
    MakingWord {
        name: "run_zones",
        making: MakingKind::Run,
        has_calls: false,
    },
    MakingWord {
        name: "replay_journal",
        making: MakingKind::Replay,
        has_calls: false,
    },
    MakingWord {
        name: "counts_after",
        making: MakingKind::CountsAfter,
        has_calls: false,
    },
];

/// What a word names.
pub fn making_of(name: &str) -> Option<MakingKind> {
    for word in &WORDS {
        if word.name == name {
            return Some(word.making);
        }
    }
    None
}

/// Makes it, with so many rounds of calls on what was made.
pub fn make<R: Threads + Wait + Sync>(
    rt: &R,
    alloc: Global,
    making: MakingKind,
    calls: u32,
) -> Result<(), Unmade> {
    match making {
        MakingKind::Nothing => Ok(()),
        MakingKind::PageTable => buddies::table(alloc),
        MakingKind::Lists => buddies::lists(alloc),
        MakingKind::OrderTree => buddies::tree(alloc),
        MakingKind::FreeArea => buddies::area(alloc),
        MakingKind::Buddy => buddies::buddy(alloc, calls),
        MakingKind::Zone => zones::zone(alloc, calls),
        MakingKind::ZoneShare => shares::zone_share(alloc),
        MakingKind::Share => shares::share(alloc, calls),
        MakingKind::Journal => boards::journal(alloc),
        MakingKind::Board => boards::board(alloc, calls),
        MakingKind::TurningBoard => boards::turning_board(alloc, calls),
        MakingKind::WideBoard => boards::wide_board(alloc, calls),
        MakingKind::OpenedZone => locked::opened(alloc),
        MakingKind::Readers => locked::readers(alloc),
        MakingKind::SharedZone => locked::shared(rt, alloc, calls),
        MakingKind::WithoutJournal => locked::without_journal(rt, alloc, calls),
        MakingKind::WithPieces => locked::with_pieces(rt, alloc, calls),
        MakingKind::ZoneCrew => crews::crew(rt, alloc, calls),
        MakingKind::Trace => offices::trace(alloc),
        MakingKind::Script => offices::script(alloc),
        MakingKind::Shares => offices::shares(alloc),
        MakingKind::Desk => offices::desk(alloc),
        MakingKind::Desks => offices::desks(alloc),
        MakingKind::Office => offices::office(alloc, calls),
        MakingKind::Run => offices::run(rt, alloc),
        MakingKind::Replay => offices::replay(rt, alloc),
        MakingKind::CountsAfter => offices::counts(rt, alloc),
    }
}
