//! A trace with the replies to its workers and what is left of its zones, and the comparison.

use super::plan::Plan;
use super::rows::{Ran, run_trace};
use std::alloc::Global;
use std::process::Abort;
use std::sync::Wait;
use std::test::*;
use std::thread::Threads;
use std::time::Clock;
use zp_journal::Journal;
use zp_office::{CommandReply, Desk};
use zp_zone::Zone;

/// What a worker gets: the page of a block, with its order where it was collected; the number of a refusal; the free pages of the
/// first and the last zone of the row.
#[derive(Clone, Copy, PartialEq, Eq, Drop)]
pub(super) enum Told {
    Page(u32),
    Block(u32, u8),
    Freed,
    Posted,
    Drained(u32),
    Isolated,
    Released,
    Free(u32, u32),
    Refused(u8),
}

use Told::*;

/// A full journal, or a zone that strayed.
pub(super) const FULL: Told = Refused(30);

pub(super) const NOT_LENT: Told = Refused(20);

fn in_short(reply: &CommandReply) -> Told {
    match reply {
        CommandReply::Page(page) => Page(page.number()),
        CommandReply::Block(block) => Block(block.page.number(), block.order.number()),
        CommandReply::Freed => Freed,
        CommandReply::Posted => Posted,
        CommandReply::Drained(pages) => Drained(*pages),
        CommandReply::Isolated => Isolated,
        CommandReply::Released => Released,
        CommandReply::Info(row) => match (row.as_slice().first(), row.as_slice().last()) {
            (Some(first), Some(last)) => Free(first.free, last.free),
            _ => Free(0, 0),
        },
        CommandReply::Refused(refused) => Refused(refused.number()),
    }
}

#[derive(Clone, Copy, Drop)]
pub(super) struct Case<'a> {
    /// What it shows.
    pub(super) shows: &'a str,
    pub(super) trace: &'a str,
    pub(super) plan: Plan,
    /// For each worker, in order.
    pub(super) replies: &'a [&'a [Told]],
    /// How many entries the journal of each zone has, and how many of its pages are free; nothing where a zone lies at another's place.
    pub(super) zones: &'a [(u32, u32)],
}

pub(super) fn expect_cases<R: Abort + Clock + Sync + Threads + Wait>(
    rt: &R,
    alloc: Global,
    cases: &[Case<'_>],
) {
    for case in cases {
        expect_case(rt, alloc, case);
    }
}

fn expect_case<R: Abort + Clock + Sync + Threads + Wait>(rt: &R, alloc: Global, case: &Case<'_>) {
    let Some(ran) = run_trace(rt, alloc, case.trace, case.plan) else {
        assert!(rt; false, "the workers run");
        return;
    };
    assert!(rt; has_come(&ran, case), "{}", case.shows);
}

/// Whether the workers got these replies, and left their zones so.
fn has_come(ran: &Ran, case: &Case<'_>) -> bool {
    are_answered(ran.desks.as_slice(), case.replies)
        && match &ran.closed {
            Some((zones, journals)) => are_left(zones, journals, case.zones),
            None => case.zones.is_empty(),
        }
}

fn are_answered(desks: &[Desk], expected: &[&[Told]]) -> bool {
    for (desk, expected) in desks.iter().zip(expected) {
        if !are_replies(desk.replies(), expected) {
            return false;
        }
    }
    desks.len() == expected.len()
}

fn are_replies(replies: &[CommandReply], expected: &[Told]) -> bool {
    for (reply, expected) in replies.iter().zip(expected) {
        if in_short(reply) != *expected {
            return false;
        }
    }
    replies.len() == expected.len()
}

/// Whether these are the zones, each with so many entries and free pages.
fn are_left(zones: &[Zone], journals: &[Journal], expected: &[(u32, u32)]) -> bool {
    for ((zone, journal), (entries, free)) in zones.iter().zip(journals).zip(expected) {
        if journal.len() != *entries || zone.counts().free != *free {
            return false;
        }
    }
    zones.len() == expected.len() && journals.len() == expected.len() && !expected.is_empty()
}
