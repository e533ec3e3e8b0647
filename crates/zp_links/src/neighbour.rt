//! Links to a page from its neighbours: a neighbour's link, or an end of the list where there is no neighbour on that side.
//!
//! In Linux: a list's head is a neighbour like the others, as lists are circular.
ghost use Rattle.std.specs.Prelude.{◌≡◌, ◌<◌, ◌-◌, length};
ghost use Rattle.zp_links.specs.Linked.{MayStand, back_at, forward_at, with_back_of, with_forward_of, end_if};

use crate::ends::Ends;
use zp_model::PageAt;
use zp_table::{Link, PageTable};

/// Sets what names the page before a neighbour: the neighbour's back link, or the list's last page where there is no
/// neighbour.
pub fn set_back_or_last(table: &mut PageTable, last: &mut Link, neighbour: Link, back: Link)
    requires { MayStand neighbour (length table.old) }
    ensures table { table.new ≡ with_back_of table.old neighbour back }
    ensures last { last.new ≡ end_if neighbour back last.old }
{
    match neighbour.page() {
        Some(page) => table.set_back(page, back),
        None => *last = back,
    }
}

/// Sets what names the page after a neighbour: the neighbour's forward link, or the list's first page where there is no
/// neighbour.
pub fn set_forward_or_first(table: &mut PageTable, first: &mut Link, neighbour: Link, forward: Link)
    requires { MayStand neighbour (length table.old) }
    ensures table { table.new ≡ with_forward_of table.old neighbour forward }
    ensures first { first.new ≡ end_if neighbour forward first.old }
{
    match neighbour.page() {
        Some(page) => table.set_forward(page, forward),
        None => *first = forward,
    }
}

/// Makes the neighbours of a page each other's, and counts a page less. The page's own links stay.
// inlined, so that what the removals share costs no call
#[inline(always)]
pub fn close_gap(table: &mut PageTable, ends: &mut Ends, at: PageAt)
    requires page { at < length table.old }
    requires back { MayStand (back_at table.old at) (length table.old) }
    requires forward { MayStand (forward_at table.old at) (length table.old) }
    requires some { 0 < ends.old.len }
    ensures table { table.new ≡ with_forward_of (with_back_of table.old (forward_at table.old at) (back_at table.old at)) (back_at table.old at) (forward_at table.old at) }
    ensures first { ends.new.first ≡ end_if (back_at table.old at) (forward_at table.old at) ends.old.first }
    ensures last { ends.new.last ≡ end_if (forward_at table.old at) (back_at table.old at) ends.old.last }
    ensures len { ends.new.len ≡ ends.old.len - 1 }
{
    let back = table.back(at);
    let forward = table.forward(at);
    set_back_or_last(table, &mut ends.last, forward, back);
    set_forward_or_first(table, &mut ends.first, back, forward);
    ends.len -= 1;
}
