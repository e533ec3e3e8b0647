//! A block of which a part is freed: frames hold what is left of it.
//!
//! In Linux: `split_page`, and the pages behind the end that `make_alloc_exact` frees.
ghost use Rattle.std.specs.Prelude.{◌≡◌, ◌≤◌, ◌<◌, ◌+◌, ◌*◌, ◌^◌, IfOk, OnErr, cond, length};
ghost use Rattle.std.specs.FinMap.{insert, remove};
ghost use Rattle.std.specs.HashMap.{spare};
ghost use Rattle.zp_model.specs.declared.constants.TheConstants.{LARGEST_ORDER};
ghost use Rattle.zp_model.specs.Runs.{cut, fitting_order};
ghost use Rattle.zp_kernel.specs.Frames.{can_split, frame_behind, frames_of, is_clear, split, with_cut};

use super::FrameTable;
use crate::held::Held;
use std::alloc::AllocError;
use std::collections::HashMap;
use zp_model::{LARGEST_ORDER, Largest, Order, PageAt};
use zp_zone::fitting_order;

/// The most blocks that are left of one: those of two cuts, each of fewer pages than the largest block has.
const MOST_PIECES: usize = 4 * LARGEST_ORDER as usize;

/// The frame that stands so many behind this one.
fn frame_behind(frame: u64, behind: u32) -> u64
    ensures { result ≡ frame_behind frame behind }
{
    frame.wrapping_add(u64::from(behind))
}

/// The order of the first block of the cut of so many pages of a block, from this one on.
fn first_order(from: u32, pages: u32) -> Order
    requires some { 0 < pages }
    requires inside { from + pages ≤ 2 ^ LARGEST_ORDER }
    ensures { result ≡ fitting_order LARGEST_ORDER from pages }
{
    fitting_order(Largest::usual(), PageAt::at(from), pages)
}

/// The frame holds this block, for which the table has room.
fn put(table: &mut HashMap<u64, Held>, frame: u64, held: Held)
    requires { 1 ≤ spare table.old }
    ensures after { frames_of table.new.entries ≡ insert (frames_of table.old.entries) frame held }
    ensures room { spare table.old ≤ spare table.new + 1 }
{
    match table.insert(frame, held) {
        Ok(_before) => (),
        Err(_full) => unreachable!(),
    }
}

/// So many pages of the frame's block, from this one on, are held as the blocks of their cut, for which the table has room.
fn put_cut(table: &mut HashMap<u64, Held>, frame: u64, held: &Held, from: u32, pages: u32)
    requires inside { from + pages ≤ 2 ^ LARGEST_ORDER }
    requires room { length (cut LARGEST_ORDER from pages) ≤ spare table.old }
    ensures after { frames_of table.new.entries ≡ with_cut frame held.now from pages (frames_of table.old.entries) }
    ensures room { spare table.old ≤ spare table.new + length (cut LARGEST_ORDER from pages) }
{
    let mut next = from;
    let mut left = pages;
    'pieces: while left > 0 {
        let order = first_order(next, left);
        put(table, frame_behind(frame, next), held.piece(next, order));
        let held_pages = order.pages();
        next += held_pages;
        left -= held_pages;
    }
}

/// What is left of the frame's block without so many pages from this one on is held, for which the table has room.
fn put_left(table: &mut HashMap<u64, Held>, frame: u64, held: &Held, from: u32, pages: u32)
    requires some { 0 < pages }
    requires inside { from + pages ≤ 2 ^ held.now.lent.order }
    requires room { 4 * LARGEST_ORDER ≤ spare table.old }
    ensures { frames_of table.new.entries ≡ split (frames_of table.old.entries) frame held.now from pages }
{
    let rest = held.pages_behind(from) - pages;
    put_cut(table, frame, held, 0, from);
    put_cut(table, frame, held, from + pages, rest);
}

impl FrameTable {
    /// Whether no frame holds a block where one of the cut of so many pages of the frame's block begins, from this one on.
    fn is_clear(&self, frame: u64, from: u32, pages: u32) -> bool
        requires { from + pages ≤ 2 ^ LARGEST_ORDER }
        ensures { result ≡ is_clear self.now frame from pages }
    {
        let mut next = from;
        let mut left = pages;
        'pieces: while left > 0 {
            if self.get(frame_behind(frame, next)).is_some() {
                return false;
            }
            let looked_at = first_order(next, left).pages();
            next += looked_at;
            left -= looked_at;
        }
        true
    }

    /// Whether the frames hold nothing that are to hold what is left of the frame's block without so many pages from this one on.
    fn can_split(&self, frame: u64, held: &Held, from: u32, pages: u32) -> bool
        requires { from + pages ≤ 2 ^ held.now.lent.order }
        ensures { result ≡ can_split self.now frame held.now from pages }
    {
        let rest = held.pages_behind(from) - pages;
        self.is_clear(frame, 0, from) && self.is_clear(frame, from + pages, rest)
    }

    /// The frame gives up its block, and frames hold what is left of that without so many pages from this one on, each block of it where it begins:
    /// whether they held nothing. Where one of them did, they hold nothing of it. Refused where there is no memory for it; then nothing changed.
    pub fn split(
        &mut self,
        frame: u64,
        held: &Held,
        from: u32,
        pages: u32,
    ) -> Result<bool, AllocError>
        requires some { 0 < pages }
        requires inside { from + pages ≤ 2 ^ held.now.lent.order }
        ensures split { IfOk result (λ is_split. is_split ≡ can_split (remove self.old frame) frame held.now from pages) }
        ensures after { IfOk result (λ is_split. self.new ≡ cond is_split (split (remove self.old frame) frame held.now from pages) (remove self.old frame)) }
        ensures left { OnErr result (self.new ≡ self.old) }
    {
        self.held.reserve(MOST_PIECES)?;
        let _before = self.held.remove(&frame);
        let is_split = self.can_split(frame, held, from, pages);
        if is_split {
            put_left(&mut self.held, frame, held, from, pages);
        }
        Ok(is_split)
    }
}
