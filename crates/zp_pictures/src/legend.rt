//! What the colours of a picture stand for.
use crate::labels::Label;
use std::io;
use std::io::Write;
use zp_drawing::{Kind, write_key, write_order_keys};

/// The pixels of a line of a legend, and of an entry of it.
const LINE: usize = 20;

const ENTRY: usize = 84;

/// How many workers stand in a line, each with its list.
const WORKERS_A_LINE: usize = 5;

/// How many pixels a legend takes from top to bottom.
pub fn legend_height(workers: usize) -> usize {
    let lines = workers.min(32) / WORKERS_A_LINE + 3;
    lines * LINE
}

/// Writes the colours of a worker and of its list.
fn write_worker<W: Write>(writer: &mut W, x: usize, y: usize, worker: usize) -> io::Result<()> {
    let beside = x.saturating_add(ENTRY);
    write_key(writer, x, y, Kind::Out(worker), &Label::Worker(worker))?;
    write_key(
        writer,
        beside,
        y,
        Kind::Cached(worker),
        &Label::List(worker),
    )
}

/// Writes the colours of free pages by order, of posted ones, and of workers and their lists.
pub fn write_legend<W: Write>(
    writer: &mut W,
    x: usize,
    y: usize,
    workers: usize,
) -> io::Result<()> {
    write_order_keys(writer, x, y)?;
    let second = y.saturating_add(LINE);
    write_key(writer, x, second, Kind::Posted, &Label::Posted)?;
    for worker in 0..workers {
        let column = (worker % WORKERS_A_LINE).saturating_mul(2 * ENTRY);
        let line = (worker / WORKERS_A_LINE).saturating_mul(LINE);
        let place = x.saturating_add(ENTRY).saturating_add(column);
        write_worker(writer, place, second.saturating_add(line), worker)?;
    }
    Ok(())
}
