//! How many pages a plain zone has at most.

use zp_model::MAX_PAGES;

/// The most pages of a plain zone. Each of its rows has room for them from the first, so they are fewer than those of the largest zone.
pub const PLAIN_PAGES: u32 = 1 << 18;

const _: () = prove!(PLAIN_PAGES <= MAX_PAGES);
