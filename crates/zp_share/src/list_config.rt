//! The settings of all workers' lists.
//!
//! In Linux: `pcp->batch` and `pcp->high`.
ghost use Rattle.std.specs.Prelude.{◌≡◌, ◌≤◌, IfSome, IsSome, ◌↔◌};
ghost use Rattle.zp_model.specs.Bounds.{AreLists};

use zp_model::{LONGEST_LIST, MAX_BATCH};

/// How many pages a refill asks for and a drain frees, and how many pages a list holds at most. Batch 0 means no lists.
#[derive(Clone, Copy, Drop)]
pub struct ListConfig {
    batch: u8,
    high_len: u8,
    ghost settings: { AreLists batch high_len },
}

impl ListConfig {
    /// Batch 0 with no room, or batch 1 to 31 and room for more than that and at most 64 pages.
    pub fn new(batch: u8, high_len: u8) -> Option<ListConfig>
        ensures when { IsSome result ↔ AreLists batch high_len }
        ensures some { IfSome result (λ c. (c.batch ≡ batch) × (c.high_len ≡ high_len)) }
    {
        let none = batch == 0 && high_len == 0;
        let some = batch != 0
            && usize::from(batch) <= MAX_BATCH
            && batch < high_len
            && usize::from(high_len) <= LONGEST_LIST;
        if none || some {
            Some(ListConfig { batch, high_len })
        } else {
            None
        }
    }

    /// No lists: each request is a section.
    pub fn none() -> ListConfig
        ensures { (result.batch ≡ 0) × (result.high_len ≡ 0) }
    {
        ListConfig {
            batch: 0,
            high_len: 0,
        }
    }

    /// How many pages a refill asks for, and a drain frees.
    pub fn batch(&self) -> u8
        ensures same { result ≡ self.now.batch }
        ensures within { result ≤ MAX_BATCH }
    {
        self.batch
    }

    /// How many pages a list holds at most.
    pub fn high_len(&self) -> usize
        ensures same { result ≡ self.now.high_len }
        ensures within { result ≤ LONGEST_LIST }
    {
        usize::from(self.high_len)
    }
}
