//! Lines as the tools write them, and what each is.
use std::test::*;
use zp_events::{
    Action, BufferEntries, FrameBlock, Line, PageEvent, PageRequest, ZoneLimit, buffer_entries,
    holds_event_name, lost_events, read_line,
};

/// A line, and of what it is the CPU, the block's frame and order, and the type; the kind is 0 for a request that was served, 1 for one
/// that was refused, 2 for a block that was freed.
type Told = (&'static str, u8, u32, u64, u32, u32, ZoneLimit);

const EVENTS: [Told; 21] = [
    (
        "            init-1       [000] .....     2.713530: mm_page_alloc: page=(____ptrval____) pfn=0x422e order=1 migratetype=0 gfp_flags=GFP_KERNEL_ACCOUNT|__GFP_ZERO",
        0,
        0,
        0x422e,
        1,
        0,
        ZoneLimit::Normal,
    ),
    (
        "              rm-94      [001] ...1.     2.714960: mm_page_free: page=(____ptrval____) pfn=0x4220 order=1",
        2,
        1,
        0x4220,
        1,
        0,
        ZoneLimit::Normal,
    ),
    (
        "     kworker/1:1-35      [001] .....     2.719127: mm_page_free: page=(____ptrval____) pfn=0x4239 order=0",
        2,
        1,
        0x4239,
        0,
        0,
        ZoneLimit::Normal,
    ),
    (
        "            perf   125 [001]    12.359490: kmem:mm_page_alloc: page=0x4a89 pfn=0x4a89 order=0 migratetype=0 gfp_flags=GFP_HIGHUSER|__GFP_ACCOUNT",
        0,
        1,
        0x4a89,
        0,
        0,
        ZoneLimit::Normal,
    ),
    (
        "              sh   126 [000]    12.393993:  kmem:mm_page_free: page=0x4a89 pfn=0x4a89 order=0",
        2,
        0,
        0x4a89,
        0,
        0,
        ZoneLimit::Normal,
    ),
    (
        "              sh   126 [000]    12.395282: kmem:mm_page_alloc: page=0x479e pfn=0x479e order=0 migratetype=1 gfp_flags=GFP_HIGHUSER_MOVABLE|__GFP_COMP|__GFP_ZERO",
        0,
        0,
        0x479e,
        0,
        1,
        ZoneLimit::Movable,
    ),
    (
        "            find   140 [000]    13.683541: kmem:mm_page_alloc: page=0x2522 pfn=0x2522 order=1 migratetype=2 gfp_flags=__GFP_IO|__GFP_FS|__GFP_NOWARN|__GFP_NORETRY|__GFP_COMP|__GFP_NOMEMALLOC|__GFP_RECLAIMABLE",
        0,
        0,
        0x2522,
        1,
        2,
        ZoneLimit::Normal,
    ),
    (
        " kworker/1:1-mm_    29 [001]    13.537484:  kmem:mm_page_free: page=0x4a42 pfn=0x4a42 order=0",
        2,
        1,
        0x4a42,
        0,
        0,
        ZoneLimit::Normal,
    ),
    (
        "       a [003] b-97      [001] d..3.     2.911084: mm_page_free: page=(____ptrval____) pfn=0x46f6 order=0",
        2,
        1,
        0x46f6,
        0,
        0,
        ZoneLimit::Normal,
    ),
    (
        "       a [003] b    97 [001]     2.911084:  kmem:mm_page_free: page=0x46f6 pfn=0x46f6 order=0",
        2,
        1,
        0x46f6,
        0,
        0,
        ZoneLimit::Normal,
    ),
    (
        " [3] mm_page: [4] -97    [001] d..3.     2.911084: mm_page_free: page=(____ptrval____) pfn=0x46f6 order=0",
        2,
        1,
        0x46f6,
        0,
        0,
        ZoneLimit::Normal,
    ),
    (
        "    tmux: server-2018    [002] .....   123.456789: mm_page_free: page=(____ptrval____) pfn=0x48d55 order=0",
        2,
        2,
        0x48d55,
        0,
        0,
        ZoneLimit::Normal,
    ),
    (
        "bash [] [x] [1 1234 [002]   123.456789:   kmem:mm_page_free: page=0x48d55 pfn=0x48d55 order=0",
        2,
        2,
        0x48d55,
        0,
        0,
        ZoneLimit::Normal,
    ),
    (
        "          <idle>-0       [011] d.s3. 90061.000001: mm_page_free: page=(____ptrval____) pfn=0xFfFf order=10",
        2,
        11,
        0xffff,
        10,
        0,
        ZoneLimit::Normal,
    ),
    (
        " [7] [8] : mm_page_free: page= pfn=18446744073709551615 order=00",
        2,
        8,
        18_446_744_073_709_551_615,
        0,
        0,
        ZoneLimit::Normal,
    ),
    (
        "cp-99 [000] 3.0: mm_page_alloc: page=(null) pfn=0x0 order=9 migratetype=1 gfp_flags=GFP_DMA32|GFP_DMA|GFP_TRANSHUGE",
        1,
        0,
        0,
        9,
        1,
        ZoneLimit::Dma,
    ),
    (
        "cp-99 [000] 3.0: mm_page_alloc: page=0000000000000000 pfn=0x0 order=9 migratetype=1 gfp_flags=__GFP_DMA|GFP_DMA32",
        1,
        0,
        0,
        9,
        1,
        ZoneLimit::Dma32,
    ),
    (
        "cp 99 [000] 3.0: kmem:mm_page_alloc: page=(nil) pfn=0 order=9 migratetype=1 gfp_flags=GFP_TRANSHUGE_LIGHT|__GFP_ZERO",
        1,
        0,
        0,
        9,
        1,
        ZoneLimit::Movable,
    ),
    (
        "cp 99 [000] 3.0: kmem:mm_page_alloc: page=0x0 pfn=0x0 order=9 migratetype=1 gfp_flags=__GFP_MOVABLE|GFP_HIGHUSER",
        1,
        0,
        0,
        9,
        1,
        ZoneLimit::Movable,
    ),
    (
        "cp 99 [000] 3.0: kmem:mm_page_alloc: page=0x0 pfn=0x0 order=9 migratetype=1 gfp_flags=__GFP_HIGHMEM|__GFP_MOVABLE",
        1,
        0,
        0,
        9,
        1,
        ZoneLimit::Movable,
    ),
    (
        "cp 99 [000] 3.0: kmem:mm_page_alloc: page=0x0 pfn=0x0 order=9 migratetype=1 gfp_flags=__GFP_MOVABLE|__GFP_RECLAIM",
        1,
        0,
        0,
        9,
        1,
        ZoneLimit::Normal,
    ),
];

const BROKEN: [&str; 12] = [
    " [7] : mm_page_free:",
    " [7] : mm_page_free: page=1 pfn=7",
    " [7] : mm_page_free: page=1 pfn=7 order=0 migratetype=0",
    " [7] : mm_page_free: page=1 pfn=0x order=0",
    " [7] : mm_page_free: page=1 pfn=7g order=0",
    " [7] : mm_page_free: page=1 pfn=7f order=0",
    " [7] : mm_page_free: page=1 pfn=18446744073709551616 order=0",
    " [7] : mm_page_free: page=1 pfn=7 order=4294967296",
    " [7] : mm_page_free: page=1 pfn=7 order=-1",
    " [7] : mm_page_alloc: page=1 pfn=7 order=0",
    " [7] : mm_page_alloc: page=1 pfn=7 order=0 migratetype=0 gfp_flags=A B",
    " [7] : mm_page_alloc: page=1 pfn=7 order=0 gfp_flags=A migratetype=0",
];

const OTHER: [&str; 13] = [
    "",
    "# tracer: nop",
    "#           TASK-PID     CPU#  |||||  TIMESTAMP  FUNCTION",
    "              rm-97      [001] d..3.     2.911084: mm_page_pcpu_drain: page=(____ptrval____) pfn=0x46f6 order=0 migratetype=1",
    "              rm-97      [001] d..3.     2.911084: mm_page_free_batched: page=(____ptrval____) pfn=0x46f6 order=0",
    "              rm-97      [001] d..3.     2.911084: mm_page_alloc_zone_locked: page=(____ptrval____) pfn=0x46f6 order=0 migratetype=1 percpu_refill=1",
    "              rm-97      [001] d..3.     2.911084: bprint: main: mm_page_free: page=1 pfn=7 order=0",
    "              rm-97      (001) d..3.     2.911084: mm_page_free: page=1 pfn=7 order=0",
    "              rm-97      [4294967296] d..3.     2.911084: mm_page_free: page=1 pfn=7 order=0",
    "              rm-97      [001] d..3.     2.911084:mm_page_free: page=1 pfn=7 order=0",
    "              rm-97      [001] d..3.     2.911084 : mm_page_freed: page=1 pfn=7 order=0",
    "              rm-97      [001] d..3.     2.911084: kmem: mm_page_free: page=1 pfn=7 order=0",
    "mm_page_free: page=1 pfn=7 order=0",
];

/// What such a line is.
fn line_of(told: &Told) -> Line {
    let (_, kind, cpu, frame, order, migrate_type, zone_limit) = *told;
    let block = FrameBlock { frame, order };
    let request = PageRequest {
        migrate_type,
        zone_limit,
    };
    let action = match kind {
        0 => Action::Alloc(block, request),
        1 => Action::Refuse(block, request),
        _ => Action::Free(block),
    };
    Line::Event(PageEvent { cpu, action })
}

#[test]
fn lines_of_events_are_read(rt: HostRuntime) {
    for told in &EVENTS {
        assert_eq!(rt; read_line(told.0.as_bytes()), line_of(told), "{}", told.0);
    }
    let fallback =
        "  sh-1 [001] d..1. 2.9: mm_page_alloc_extfrag: page=1 pfn=0x7 alloc_order=0 fallback_order=9";
    let event = PageEvent {
        cpu: 1,
        action: Action::Fallback,
    };
    assert_eq!(rt; read_line(fallback.as_bytes()), Line::Event(event));
}

#[test]
fn other_lines_are_told_apart(rt: HostRuntime) {
    for text in &BROKEN {
        assert_eq!(rt; read_line(text.as_bytes()), Line::Broken, "{text}");
    }
    for text in &OTHER {
        assert_eq!(rt; read_line(text.as_bytes()), Line::Other, "{text}");
    }
}

/// The first line is one that the kernel wrote, the second as its source says (kernel/trace/trace.c).
#[test]
fn what_is_not_to_be_trusted_is_told(rt: HostRuntime) {
    let entries = BufferEntries {
        kept: 47_938,
        written: 47_938,
    };
    let head = b"# entries-in-buffer/entries-written: 47938/47938   #P:2";
    assert!(rt; buffer_entries(head) == Some(entries));
    assert!(rt; lost_events(b"CPU:1 [LOST 123 EVENTS]") == Some(123));
    assert!(rt; holds_event_name(b"main: mm_page_free: page=1"));
    assert!(rt; !holds_event_name(b"mm_page_free page=1: mm_page_freed:"));
}
