//! What the output is shown on.
use std::env;
use std::rt::Env;
use zp_progress::is_watched;

/// The columns of a screen that does not say how many it has.
const USUAL_COLUMNS: u16 = 80;

/// Which of the program's streams are terminals.
#[derive(Clone, Copy, Debug, Drop)]
pub struct Terminals {
    pub output: bool,
    pub errors: bool,
}

/// What the output is shown on.
#[derive(Clone, Copy, Debug, Drop)]
pub struct Screen {
    pub columns: u16,
    /// Whether it shows colours.
    pub colour: bool,
    pub is_terminal: bool,
    /// Whether standard error shows how far long work is.
    pub is_watched: bool,
}

impl Screen {
    /// A terminal has the columns that `COLUMNS` says, and colours unless `NO_COLOR` says something. A file has the usual columns and no colours.
    pub fn of(rt: &(impl Env + AllocGlobal), terminals: Terminals) -> Screen {
        let is_watched = is_watched(rt, terminals.errors);
        if !terminals.output {
            return Screen {
                columns: USUAL_COLUMNS,
                colour: false,
                is_terminal: false,
                is_watched,
            };
        }
        Screen {
            columns: own_columns(rt),
            colour: !is_set(rt, "NO_COLOR"),
            is_terminal: true,
            is_watched,
        }
    }
}

/// Whether a variable says something.
fn is_set(rt: &(impl Env + AllocGlobal), name: &str) -> bool {
    match env::var(rt, name) {
        Ok(text) => !text.is_empty(),
        Err(_) => false,
    }
}

/// The columns that `COLUMNS` says.
fn own_columns(rt: &(impl Env + AllocGlobal)) -> u16 {
    match env::var(rt, "COLUMNS") {
        Ok(text) => text.as_str().parse().unwrap_or(USUAL_COLUMNS),
        Err(_) => USUAL_COLUMNS,
    }
}
