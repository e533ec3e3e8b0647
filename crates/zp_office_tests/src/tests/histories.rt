//! Replays of a journal over other zones than the one that made it.

use super::plan::AT_ONCE;
use super::rows::run_trace;
use std::alloc::Global;
use std::sync::Wait;
use std::test::*;
use std::thread::Threads;
use std::time::Clock;
use zp_journal::{Journal, JournalCheck, replay_journal};
use zp_model::Largest;
use zp_zone::ZoneConfig;

/// The result of a replay: how many pages are free at the end, the number of the entry that differs, or that of the refusal.
#[derive(Clone, Copy, PartialEq, Eq, Drop)]
enum Found {
    Legal(u32),
    Differs(u32),
    Refused(u8),
}

/// What a zone named DMA is made with: its base, its pages, its least mark and its largest order.
type Making = (u32, u32, u32, u8);

/// What the journal's replay by this zone finds. None where a zone cannot have the largest order.
fn replayed(alloc: Global, making: Making, workers: u32, journal: &Journal) -> Option<Found> {
    let (base, pages, min, largest) = making;
    let config = ZoneConfig {
        name: "DMA",
        base,
        pages,
        min,
        largest: Largest::new(largest)?,
    };
    let found = match replay_journal(alloc, config, workers, journal) {
        Ok(JournalCheck::Legal(zone)) => Found::Legal(zone.counts().free),
        Ok(JournalCheck::Differs(number)) => Found::Differs(number),
        Err(refused) => Found::Refused(refused.number()),
    };
    Some(found)
}

/// The journal of the one zone of a trace whose workers run.
fn journal_of<R: Clock + Sync + Threads + Wait>(
    rt: &R,
    alloc: Global,
    text: &str,
) -> Option<Journal> {
    let (_zones, mut journals) = run_trace(rt, alloc, text, AT_ONCE)?.closed?;
    journals.pop()
}

const TEXT: &str =
    "zone DMA 0 4096 0\nworkers 2\nlists 0 0\n1 alloc a 0 M DMA any\n1 alloc b 0 M DMA low\n";

/// Worker 1 allocates two single pages, from the highest block down, the second held to the low mark. Another zone would have replied
/// otherwise: with a least mark of 4096 pages the low mark is 5120, another base moves all pages, of 2048 pages the highest block is 1024,
/// with a largest order of 9 it is 3584 and with one of 1 it is 4094, and a zone of one worker has no worker 1.
const CASES: [(Making, u32, Found); 8] = [
    ((0, 4096, 0, 10), 2, Found::Legal(4094)),
    ((0, 4096, 4096, 10), 2, Found::Differs(2)),
    ((4096, 4096, 0, 10), 2, Found::Differs(1)),
    ((0, 2048, 0, 10), 2, Found::Differs(1)),
    ((0, 4096, 0, 9), 2, Found::Differs(1)),
    ((0, 4096, 0, 1), 2, Found::Differs(1)),
    ((0, 4096, 0, 10), 1, Found::Differs(1)),
    ((0, 4096, 0, 10), 33, Found::Refused(5)),
];

#[test]
fn a_journal_is_of_its_zone(rt: HostRuntime) {
    let Some(journal) = journal_of(&rt, rt.alloc(), TEXT) else {
        assert!(rt; false, "the workers run");
        return;
    };
    for (number, (making, workers, expected)) in CASES.iter().enumerate() {
        let found = replayed(rt.alloc(), *making, *workers, &journal);
        assert!(rt; found == Some(*expected), "case {number}");
    }
}
