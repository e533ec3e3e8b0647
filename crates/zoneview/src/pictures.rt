//! `zoneview map`, `pagetypeinfo`, `film` and `chart`: the zones of a trace, as its requests leave them.

use crate::WRONG_WORDS;
use crate::input::read_input;
use crate::screen::Screen;
use clap::ArgMatches;
use std::alloc::Global;
use std::io;
use std::io::{BufWriter, Write};
use std::rt::Clock;
use zp_drawing::MapStyle;
use zp_model::Order;
use zp_pictures::{MapOptions, Shown, print_chart, print_film, print_map, print_pagetypeinfo};
use zp_progress::{Progress, ProgressMeter, Task};

/// The status of a run whose text is no trace.
const BAD_TRACE: u8 = 1;

/// What is drawn.
#[derive(Clone, Copy, PartialEq, Eq, Debug, Drop)]
pub enum Picture {
    Map,
    TypeTables,
    Film,
    Chart,
}

impl Picture {
    /// Whether what is written is SVG, in which a bad line has no place.
    fn is_svg(self) -> bool {
        match self {
            Picture::Film | Picture::Chart => true,
            Picture::Map | Picture::TypeTables => false,
        }
    }

    /// What a terminal shows of a picture that takes long: how many requests it has carried out.
    fn task(self) -> Task<'static> {
        Task {
            name: match self {
                Picture::Map => "zoneview map",
                Picture::TypeTables => "zoneview pagetypeinfo",
                Picture::Film => "zoneview film",
                Picture::Chart => "zoneview chart",
            },
            unit: "requests",
        }
    }
}

/// Reads a trace on standard input, and draws its zones.
pub fn run(
    rt: &(impl Print + Eprint + Input + Clock + AllocGlobal),
    picture: Picture,
    words: &ArgMatches<'_>,
    screen: Screen,
) -> anyhow::Result<u8> {
    let options = match options_of(picture, words, screen) {
        Ok(options) => options,
        Err(wrong) => {
            eprintln!(rt; "zoneview: {wrong}")?;
            return Ok(WRONG_WORDS);
        }
    };
    let text = read_input(rt)?;
    let mut meter = ProgressMeter::new(rt, picture.task(), screen.is_watched);
    let shown = if screen.is_watched && screen.is_terminal {
        print_whole(rt, picture, text.as_slice(), &options, &mut meter)?
    } else {
        let mut out = BufWriter::new(rt.alloc(), io::writer(rt))?;
        let shown = draw(
            rt.alloc(),
            picture,
            text.as_slice(),
            &options,
            &mut out,
            &mut meter,
        )?;
        out.flush()?;
        shown
    };
    match shown {
        Shown::Picture => Ok(0),
        Shown::BadLine(number) => {
            if picture.is_svg() {
                eprintln!(rt; "zoneview: bad line {number}")?;
            }
            Ok(BAD_TRACE)
        }
    }
}

/// Writes the picture when all of it is there: on a terminal the line that shows how far it is would stand in its midst.
fn print_whole(
    rt: &(impl Print + AllocGlobal),
    picture: Picture,
    text: &[u8],
    options: &MapOptions,
    progress: &mut impl Progress,
) -> anyhow::Result<Shown> {
    let mut whole = Vec::new(rt.alloc());
    let shown = draw(rt.alloc(), picture, text, options, &mut whole, progress)?;
    progress.clear();
    io::writer(rt).write_all(whole.as_slice())?;
    Ok(shown)
}

fn draw<W: Write, P: Progress>(
    alloc: Global,
    picture: Picture,
    text: &[u8],
    options: &MapOptions,
    writer: &mut W,
    progress: &mut P,
) -> anyhow::Result<Shown> {
    Ok(match picture {
        Picture::Map => print_map(alloc, text, options, writer)?,
        Picture::TypeTables => print_pagetypeinfo(alloc, text, options.line, writer)?,
        Picture::Film => print_film(alloc, text, options.line, writer, progress)?,
        Picture::Chart => print_chart(alloc, text, options.line, writer, progress)?,
    })
}

/// What the words ask for, or what is wrong with them.
fn options_of(
    picture: Picture,
    words: &ArgMatches<'_>,
    screen: Screen,
) -> Result<MapOptions, &'static str> {
    let line = match words.get_str("line") {
        None => None,
        Some(word) => match word.parse::<usize>() {
            Ok(line) => Some(line),
            Err(_) => return Err("--line: a number of a line of the trace, from 1 on"),
        },
    };
    Ok(MapOptions {
        line,
        style: style_of(picture, words, screen)?,
    })
}

/// How a map is drawn. (The words of the others have no style.)
fn style_of(
    picture: Picture,
    words: &ArgMatches<'_>,
    screen: Screen,
) -> Result<MapStyle, &'static str> {
    if picture != Picture::Map {
        return Ok(MapStyle {
            width: usize::from(screen.columns),
            ascii: false,
            colour: false,
            order: None,
        });
    }
    let order = match words.get_str("order") {
        None => None,
        Some(word) => match word.parse::<u8>().ok().and_then(Order::new) {
            Some(order) => Some(order),
            None => return Err("--order: an order from 0 to 10"),
        },
    };
    Ok(MapStyle {
        width: usize::from(screen.columns),
        ascii: words.get_flag("ascii"),
        colour: screen.colour,
        order,
    })
}
