//! A digest of answers.

/// Two sums of all words so far: of the words, and of the sums after each. Where words come, or in which order, the digest tells.
#[derive(Clone, Copy, PartialEq, Eq, Debug, Drop)]
pub struct Digest {
    sum: u64,
    sums: u64,
}

impl Digest {
    /// Of no word.
    pub fn new() -> Digest {
        Digest { sum: 1, sums: 0 }
    }

    #[inline(always)]
    pub fn add(&mut self, word: u64) {
        self.sum = self.sum.wrapping_add(word);
        self.sums = self.sums.wrapping_add(self.sum);
    }

    /// Each byte is a word.
    pub fn add_bytes(&mut self, bytes: &[u8]) {
        for byte in bytes {
            self.add(u64::from(*byte));
        }
    }

    pub fn value(&self) -> u64 {
        self.sums.wrapping_mul(0x9E37_79B9_7F4A_7C15) ^ self.sum.rotate_left(32)
    }
}
