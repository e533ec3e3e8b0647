//! The caller, run.

use crate::{SharedRun, share_a_zone};
use std::test::*;
use zp_model::Largest;
use zp_zone::ZoneConfig;

/// A zone of one pageblock.
fn dma() -> ZoneConfig<'static> {
    ZoneConfig {
        name: "DMA",
        base: 0,
        pages: 1024,
        min: 0,
        largest: Largest::usual(),
    }
}

const SHARED: SharedRun = SharedRun {
    free_pages: 1024,
    requests: 4,
    is_legal: true,
};

#[test]
fn two_workers_share_a_zone(rt: HostRuntime) {
    assert!(rt; share_a_zone(&rt, rt.alloc(), dma()) == Some(SHARED));
}
