//! `zoneview index`: the two indexes of each zone of buddyinfo.
ghost use Rattle.std.specs.Prelude.{◌≤◌, ◌<◌, ◌+◌, ◌*◌};

use crate::WRONG_WORDS;
use crate::input::read_input;
use crate::screen::Screen;
use anyhow::{anyhow, bail};
use clap::ArgMatches;
use std::alloc::Global;
use zp_buddyinfo::{Style, TableFault, parse_size, read_table, report_text};

/// The columns of a line that are no bars.
const COLUMNS_BESIDE_BARS: u16 = 36;

/// The least and the greatest length of a bar.
const SHORTEST_BAR: u16 = 8;

const LONGEST_BAR: u16 = 60;

/// Reads buddyinfo on standard input, and writes its figures.
pub fn run(
    rt: &(impl Print + Eprint + Input + AllocGlobal),
    words: &ArgMatches<'_>,
    screen: Screen,
) -> anyhow::Result<u8> {
    let size = words.get_str("page").unwrap_or("4K");
    let Some(page) = parse_size(size) else {
        eprintln!(rt;
            "zoneview: --page: {size} is no size of a page: it is a number above 0, and K, M or G behind it or nothing"
        )?;
        return Ok(WRONG_WORDS);
    };
    let style = style_of(words, screen);
    let input = read_input(rt)?;
    rt.print(figures(rt.alloc(), input.as_slice(), page, style)?)?;
    Ok(0)
}

/// How the figures are drawn.
pub fn style_of(words: &ArgMatches<'_>, screen: Screen) -> Style {
    Style {
        cells: cells(screen.columns),
        ascii: words.get_flag("ascii"),
        colour: screen.colour,
    }
}

/// The length of a bar, where a line with two of them is to have so many columns.
fn cells(columns: u16) -> u16
    ensures least { SHORTEST_BAR ≤ result }
    ensures most { result ≤ LONGEST_BAR }
    ensures fits { COLUMNS_BESIDE_BARS + 2 * SHORTEST_BAR ≤ columns → COLUMNS_BESIDE_BARS + 2 * result ≤ columns }
    ensures full { result < LONGEST_BAR → columns < COLUMNS_BESIDE_BARS + 2 * (result + 1) }
{
    (columns.saturating_sub(COLUMNS_BESIDE_BARS) / 2).clamp(SHORTEST_BAR, LONGEST_BAR)
}

/// The figures of the zones of a text.
fn figures(alloc: Global, text: &[u8], page: u64, style: Style) -> anyhow::Result<String> {
    let rows = match read_table(alloc, text) {
        Ok(rows) => rows,
        Err(TableFault::BadLine(line)) => {
            bail!(
                "line {line}: no line of buddyinfo, which is: Node 0, zone Normal, and 1 to 21 counts of free blocks"
            )
        }
        Err(TableFault::Memory) => bail!("no memory"),
    };
    Ok(report_text(alloc, page, style, rows.as_slice())?)
}
