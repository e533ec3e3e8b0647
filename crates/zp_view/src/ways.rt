//! What stands in the way of a block.
ghost use Rattle.std.specs.Prelude.{◌≡◌, ◌≤◌, ◌<◌, ◌^◌, ◌↔◌, IfSome, IsSome, length};
ghost use Rattle.std.specs.List.{count_by};
ghost use Rattle.zp_view.specs.Ways.{IsLeastUsed, is_cached_by, is_out_to, is_posted_to, is_used};

use crate::page_state::PageState;
use zp_model::{Order, Worker};

/// How many pages a worker has in a run: lent to it, in its lists, and posted to it.
#[derive(Clone, Copy, PartialEq, Eq, Debug, Drop)]
pub struct Holdings {
    pub out: usize,
    pub cached: usize,
    pub posted: usize,
}

/// How many of these pages are in use.
pub fn used_pages(row: &[PageState]) -> usize
    ensures { result ≡ count_by is_used row.now }
{
    let mut used = 0;
    'pages: for state in row {
        if state.is_used() {
            used += 1;
        }
    }
    used
}

/// What of these pages a worker has.
pub fn holdings_in(row: &[PageState], worker: Worker) -> Holdings
    ensures out { result.out ≡ count_by (is_out_to worker) row.now }
    ensures cached { result.cached ≡ count_by (is_cached_by worker) row.now }
    ensures posted { result.posted ≡ count_by (is_posted_to worker) row.now }
{
    let mut held = Holdings {
        out: 0,
        cached: 0,
        posted: 0,
    };
    'pages: for state in row {
        match *state {
            PageState::Out(owner) if owner == worker => held.out += 1,
            PageState::Cached(owner) if owner == worker => held.cached += 1,
            PageState::Posted(owner) if owner == worker => held.posted += 1,
            _ => (),
        }
    }
    held
}

/// Of the aligned runs of this order in a row of a zone's pages, where the first in use are the fewest: its place, the lowest such. None
/// where the row has no such run.
pub fn least_used_run(row: &[PageState], order: Order) -> Option<usize>
    ensures when { IsSome result ↔ (2 ^ order ≤ length row.now) }
    ensures least { IfSome result (IsLeastUsed row.now order) }
{
    let pages = order.pages() as usize;
    let mut best = None;
    'runs: for number in 0..row.len() / pages {
        let start = number * pages;
        let used = used_pages(&row[start..start + pages]);
        best = match best {
            Some((place, fewest)) if fewest <= used => Some((place, fewest)),
            _ => Some((start, used)),
        };
    }
    let (place, _) = best?;
    Some(place)
}
