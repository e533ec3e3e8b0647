//! Numbers that a seed determines, and a checksum of results. Both are fixed by the expected output: another allocator in another
//! language draws the same numbers and sums the same results.
ghost use Rattle.std.specs.Prelude.{◌<◌, ◌≤◌};

use zp_model::PageNo;

/// The seed of all workloads.
const SEED: u64 = 88_172_645_463_325_252;

/// A shift register of 64 bits.
#[derive(Clone, Copy, Drop)]
pub struct Random {
    state: u64,
}

impl Random {
    pub fn seeded() -> Random {
        Random { state: SEED }
    }

    /// The next number.
    pub fn draw(&mut self) -> u64 {
        let mut state = self.state;
        state ^= state << 13;
        state ^= state >> 7;
        state ^= state << 17;
        self.state = state;
        state
    }
}

/// A number below a bound, from a number drawn.
pub fn below(drawn: u64, bound: usize) -> usize
    requires { 0 < bound }
    ensures { result < bound }
{
    let scaled = (drawn >> 32).wrapping_mul(bound as u64) >> 32;
    (scaled as usize).min(bound - 1)
}

/// A checksum of tokens.
#[derive(Clone, Copy, PartialEq, Eq, Debug, Drop)]
pub struct Checksum {
    value: u64,
}

impl Checksum {
    /// Of no token.
    pub fn new() -> Checksum {
        Checksum { value: 1 }
    }

    pub fn add(&mut self, token: u64) {
        let mut value = self.value ^ token;
        value ^= value << 13;
        value ^= value >> 7;
        self.value = value;
    }

    /// Adds the result of a request for a block: its first page and 1, or 0 where there is none.
    pub fn add_page(&mut self, answer: &Option<PageNo>) {
        match answer {
            Some(page) => self.add(u64::from(page.number()) + 1),
            None => self.add(0),
        }
    }

    pub fn value(&self) -> u64 {
        self.value
    }
}
