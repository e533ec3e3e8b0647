//! How a cell of a map is shown: a letter or digit of ASCII, or a half block or a shade of Unicode, in a colour of the terminal.
ghost use Rattle.std.specs.Prelude.{◌≡◌, ◌≤◌, ◌<◌, ◌+◌, ◌^◌, OnOk, length, slice_index_or};
ghost use Rattle.std.specs.Io.KnownBytes.{Appends};
ghost use Rattle.zp_drawing.specs.Glyphs.{cell_text, colour_of, glyph_of, letter_of, lettered, shade_between, shade_of};
ghost use Rattle.zp_drawing.specs.Glyphs.{pages_like, shown_kind, weight_of};

use crate::cells::Kind;
use std::io;
use std::io::Write;
use zp_model::Order;
use zp_view::{PageState, used_pages};

/// The colours, of the terminal's 256, of workers and of their lists; they come again after the eighth.
const WORKER_COLOURS: [u8; 8] = [203, 75, 221, 141, 79, 215, 205, 250];

const LIST_COLOURS: [u8; 8] = [131, 25, 136, 60, 29, 130, 89, 243];

/// The colour of posted pages, and that of free ones of order 0; those of higher orders follow it.
const POSTED_COLOUR: u8 = 231;

const FREE_COLOUR: u8 = 238;

/// How cells are shown.
#[derive(Clone, Copy, PartialEq, Eq, Debug, Drop)]
pub struct CellStyle {
    pub ascii: bool,
    pub colour: bool,
    /// The zone's largest order, whose free pages are shown by a dot.
    pub largest: Order,
}

/// How many of these pages are of the kind of this number.
fn pages_like(states: &[PageState], number: usize) -> usize
    ensures { result ≡ pages_like number states.now }
{
    let mut pages = 0;
    'pages: for state in states {
        if Kind::of(*state).number() == number {
            pages += 1;
        }
    }
    pages
}

/// How much a page of a cell counts: as many as the cell has pages of its kind, and nothing where it is free and others are in use.
fn weight(states: &[PageState], place: usize) -> usize
    requires { place < length states.now }
    ensures { (d : PageState) → result ≡ weight_of states.now (slice_index_or states.now place d) }
{
    if states[place].is_used() || used_pages(states) == 0 {
        pages_like(states, Kind::of(states[place]).number())
    } else {
        0
    }
}

/// The kind that most of the pages in use have; where none is in use, the kind that most have. Of kinds that are as many it is the one of the
/// page that comes first.
pub fn shown_kind(states: &[PageState]) -> Kind
    ensures { result ≡ shown_kind states.now }
{
    if states.is_empty() {
        return Kind::Posted;
    }
    let mut best = 0;
    'pages: for place in 1..states.len() {
        if weight(states, place) > weight(states, best) {
            best = place;
        }
    }
    Kind::of(states[best])
}

/// The letter of a worker, where that of the first is this one; past the 26th it is another.
fn worker_letter(first: u8, past: char, worker: usize) -> char
    requires { first ≤ 97 }
    ensures { result ≡ lettered first past worker }
{
    if worker < 26 {
        char::from(first + worker as u8)
    } else {
        past
    }
}

/// The character of a kind, where only ASCII is wanted.
fn letter(kind: Kind, largest: Order) -> char
    ensures { result ≡ letter_of largest kind }
{
    match kind {
        Kind::Free(order) => {
            if order < largest.index() {
                char::from(b'0' + order as u8)
            } else {
                '.'
            }
        }
        Kind::Out(worker) => worker_letter(b'A', '@', worker),
        Kind::Cached(worker) => worker_letter(b'a', '%', worker),
        Kind::Posted => '*',
    }
}

/// The half block or shade where so many pages of the first half are in use, and so many of the second.
fn shade_between(low: usize, first: usize, high: usize, second: usize) -> char
    requires low { low ≤ first }
    requires high { high ≤ second }
    requires within { first + second < 2 ^ 64 }
    ensures { result ≡ shade_between low first high second }
{
    let used = (low + high) as u128;
    let pages = (first + second) as u128;
    if used == 0 {
        '·'
    } else if used == pages {
        '█'
    } else if low == first && high == 0 {
        '▌'
    } else if low == 0 && high == second {
        '▐'
    } else if 3 * used <= pages {
        '░'
    } else if 3 * used <= 2 * pages {
        '▒'
    } else {
        '▓'
    }
}

/// The half block or shade for how many pages of a cell are in use.
fn shade(states: &[PageState]) -> char
    ensures { result ≡ shade_of states.now }
{
    let half = states.len() / 2;
    let (first, second) = (&states[..half], &states[half..]);
    shade_between(
        used_pages(first),
        first.len(),
        used_pages(second),
        second.len(),
    )
}

/// The terminal's colour of a kind.
fn colour(kind: Kind) -> u8
    ensures { result ≡ colour_of kind }
{
    match kind {
        Kind::Free(order) => FREE_COLOUR + order.min(10) as u8,
        Kind::Out(worker) => WORKER_COLOURS[worker % 8],
        Kind::Cached(worker) => LIST_COLOURS[worker % 8],
        Kind::Posted => POSTED_COLOUR,
    }
}

/// The character of a cell of these pages, which is shown by this kind.
fn glyph(states: &[PageState], kind: Kind, style: &CellStyle) -> char
    ensures { result ≡ glyph_of style.now kind states.now }
{
    if style.ascii {
        letter(kind, style.largest)
    } else {
        shade(states)
    }
}

/// Writes the cell of these pages.
pub fn write_cell<W: Write>(
    writer: &mut W,
    states: &[PageState],
    style: &CellStyle,
) -> io::Result<()>
    ensures { OnOk result (Appends (W.contents writer.old) (W.contents writer.new) (cell_text style.now states.now)) }
{
    let kind = shown_kind(states);
    let glyph = glyph(states, kind, style);
    if !style.colour {
        return write!(writer, "{glyph}");
    }
    let code = colour(kind);
    write!(writer, "\x1b[38;5;{code}m{glyph}\x1b[0m")
}
