//! Workers' lists: what is not proved of them.

mod lists;
mod runs;
mod sequences;

use std::test::*;
use zp_share::ListConfig;

/// A batch, a room, and whether lists may have them: batch 0 is with no room alone; a list has room for more than a batch.
const SETTINGS: [(u8, u8, bool); 8] = [
    (0, 0, true),
    (0, 1, false),
    (4, 10, true),
    (8, 8, false),
    (8, 9, true),
    (31, 64, true),
    (32, 64, false),
    (31, 65, false),
];

#[test]
fn the_settings_of_lists(rt: HostRuntime) {
    for (batch, high_len, allowed) in SETTINGS {
        let config = ListConfig::new(batch, high_len);
        assert!(rt; config.is_some() == allowed, "{batch} {high_len}");
    }
}
