//! The rows of a film: the states of all pages, after each request.
ghost use Rattle.std.specs.Prelude.{◌<◌, length};
ghost use Rattle.zp_trace.specs.Grammar.{IsBeginning, lines_of};
ghost use Rattle.zp_states.specs.Replays.{office_at};

use crate::fault::PictureFault;
use crate::layout::Layout;
use std::alloc::{AllocError, Global};
use std::io::Write;
use zp_drawing::{Film, Kind, Strip, Tally};
use zp_model::PageNo;
use zp_progress::Progress;
use zp_states::Replay;
use zp_trace::Trace;

/// Adds a run of pages of a kind, from this place of a zone on, to the cells.
fn add_run(tally: &mut Tally, strip: &Strip, cell_pages: u32, place: u32, pages: u32, kind: Kind) {
    let size = cell_pages.max(1);
    let end = place.saturating_add(pages);
    for cell in place / size..end.saturating_sub(1) / size + 1 {
        let from = cell.saturating_mul(size).max(place);
        let to = cell.saturating_add(1).saturating_mul(size).min(end);
        let at = strip.cell.saturating_add(cell as usize);
        tally.add(at, kind, to.saturating_sub(from));
    }
}

/// Adds the pages of a zone, block by block.
fn add_zone(replay: &Replay<'_>, zone: usize, strip: &Strip, cell_pages: u32, tally: &mut Tally)
    requires { zone < length (office_at replay.now).zones }
{
    let first = replay.first_page(zone).number();
    let mut page = first;
    for _block in 0..replay.zones()[zone].pages() {
        let Some(block) = replay.block_at(zone, PageNo::new(page)) else {
            return;
        };
        let place = block.first.number().saturating_sub(first);
        let pages = block.order.pages();
        add_run(
            tally,
            strip,
            cell_pages,
            place,
            pages,
            Kind::of(block.state),
        );
        page = block.first.number().saturating_add(pages);
    }
}

/// Adds the pages of all zones.
fn add_zones(replay: &Replay<'_>, strips: &[Strip], cell_pages: u32, tally: &mut Tally) {
    for (zone, strip) in strips.iter().enumerate() {
        if zone < replay.zone_count() {
            add_zone(replay, zone, strip, cell_pages, tally);
        }
    }
}

/// The strips again, for the film to keep.
fn copy_of(alloc: Global, strips: &[Strip]) -> Result<Vec<Strip>, AllocError> {
    let mut copy = Vec::new(alloc);
    for strip in strips {
        copy.push(*strip)?;
    }
    Ok(copy)
}

/// Writes the rows of a film of so many states, of which the first is that before the first request. After each request it reports how
/// many there were.
pub fn draw_rows<W: Write, P: Progress>(
    alloc: Global,
    trace: &Trace,
    states: usize,
    layout: &Layout,
    strips: Vec<Strip>,
    writer: &mut W,
    progress: &mut P,
) -> Result<(), PictureFault>
    requires { IsBeginning (lines_of trace.now) }
{
    let kept = copy_of(alloc, &strips)?;
    let mut film = Film::new(alloc, kept, layout.cells, layout.width, layout.height)?;
    let mut tally = Tally::new(alloc, layout.cells)?;
    let mut replay = Replay::open(alloc, trace)?;
    for state in 0..states {
        add_zones(&replay, &strips, layout.pages, &mut tally);
        let next = state.saturating_add(1);
        if next % layout.states.max(1) == 0 || next == states {
            film.push(writer, &tally)?;
            tally.clear();
        }
        progress.at(state, states.saturating_sub(1));
        replay.step();
    }
    film.finish(writer)?;
    Ok(())
}
