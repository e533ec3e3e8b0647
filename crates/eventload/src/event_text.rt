//! Page events of a kernel as ftrace writes them, drawn by a seed.

ghost use Rattle.std.specs.Prelude.{◌<◌};

use rand_core::Rng;
use rand_pcg::Pcg32;
use std::alloc::{AllocError, Global};
use std::io::Write;

/// How many events a round has, and how many blocks are out at most.
const EVENTS: u32 = 100_000;

const MOST_OUT: usize = 4_096;

/// The frames of the machine: 4 GiB of pages of 4 KiB.
const FRAMES: u32 = 1 << 20;

/// The CPUs.
pub const CPUS: u32 = 4;

/// A block that is out: its first frame, and its order.
#[derive(Clone, Copy, Drop)]
struct Out {
    frame: u32,
    order: u32,
}

/// The text so far, and what is out.
#[derive(Drop)]
struct EventMaker {
    random: Pcg32,
    out: Vec<Out>,
    next: u32,
    text: Vec<u8>,
}

impl EventMaker {
    /// A number below a bound.
    fn below(&mut self, bound: u32) -> u32
        requires { 0 < bound }
    {
        self.random.next_u32() % bound
    }

    /// The order of a block: mostly 0, and of those above mostly small ones.
    fn order(&mut self) -> u32 {
        if self.below(8) < 7 { 0 } else { self.below(4) }
    }

    /// Writes what stands before an event's name.
    fn write_front(&mut self, number: u32) -> Result<(), AllocError> {
        let cpu = self.below(CPUS);
        let (seconds, rest) = (number / 1_000_000, number % 1_000_000);
        match write!(
            self.text,
            "              sh-{number:<7} [{cpu:03}] .....{seconds:>6}.{rest:06}: mm_page_"
        ) {
            Ok(()) => Ok(()),
            Err(_) => Err(AllocError),
        }
    }

    /// A block is handed out.
    fn alloc(&mut self, number: u32) -> Result<(), AllocError> {
        let order = self.order();
        let kind = self.below(3);
        let pages = 1 << order.min(10);
        let frame = self.next - self.next % pages;
        self.next = frame.wrapping_add(pages) % FRAMES;
        self.write_front(number)?;
        if self.out.push(Out { frame, order }).is_err() {
            return Err(AllocError);
        }
        match writeln!(
            self.text,
            "alloc: page=(____ptrval____) pfn=0x{frame:x} order={order} migratetype={kind} gfp_flags=GFP_HIGHUSER_MOVABLE|__GFP_COMP"
        ) {
            Ok(()) => Ok(()),
            Err(_) => Err(AllocError),
        }
    }

    /// A block is freed.
    fn free(&mut self, number: u32, place: usize) -> Result<(), AllocError> {
        self.write_front(number)?;
        if place >= self.out.len() {
            return Ok(());
        }
        let Out { frame, order } = self.out.swap_remove(place);
        match writeln!(
            self.text,
            "free: page=(____ptrval____) pfn=0x{frame:x} order={order}"
        ) {
            Ok(()) => Ok(()),
            Err(_) => Err(AllocError),
        }
    }

    /// One event more.
    fn draw(&mut self, number: u32) -> Result<(), AllocError> {
        let out = self.out.len();
        let many = u32::try_from(out).unwrap_or(u32::MAX);
        if many == 0 || out < MOST_OUT && self.below(2) == 0 {
            return self.alloc(number);
        }
        let place = self.below(many) as usize;
        self.free(number, place)
    }
}

/// The text of a round.
pub fn text_of(alloc: Global, seed: u64, round: u32) -> Result<Vec<u8>, AllocError> {
    let mut maker = EventMaker {
        random: Pcg32::new(seed, u64::from(round)),
        out: Vec::new(alloc),
        next: 0,
        text: Vec::new(alloc),
    };
    for number in 0..EVENTS {
        maker.draw(number)?;
    }
    let EventMaker {
        random: _,
        out: _,
        next: _,
        text,
    } = maker;
    Ok(text)
}
