//! Traces that a seed draws.

ghost use Rattle.std.specs.Prelude.{◌<◌};

use crate::errors::Broken;
use crate::text::{Lists, Text, ZONES};
use rand_core::Rng;
use rand_pcg::Pcg32;
use std::alloc::Global;

/// The lines of the longest traces.
pub const MOST_LINES: usize = 4096;

/// Which zones a worker asks.
#[derive(Clone, Copy, PartialEq, Eq, Debug, Drop)]
pub enum Reach {
    /// All of them, with posts to all workers, collects and infos.
    All,
    /// The one at the worker's own place alone, so that who comes first to a zone never shows.
    Own,
}

/// What a trace is like.
#[derive(Clone, Copy, PartialEq, Eq, Debug, Drop)]
pub struct Plan {
    pub zones: usize,
    /// The least mark of each zone, in pages.
    pub min: u32,
    pub workers: u32,
    pub lists: Lists,
    pub lines: usize,
    /// How many labels a worker has: where it has bound them all, it binds the first again.
    pub labels: u32,
    pub reach: Reach,
    ghost zones_there: { 0 < zones },
    ghost workers_there: { 0 < workers },
    ghost labels_there: { 0 < labels },
}

/// What the trace so far has of one worker.
#[derive(Drop)]
struct Hand {
    /// The labels that are bound to a block, but for refusals.
    live: Vec<u32>,
    /// How often a label was bound.
    bound: u32,
}

/// A text, and what draws it.
#[derive(Drop)]
pub struct TraceMaker {
    text: Text,
    random: Pcg32,
    hands: Vec<Hand>,
    /// The zone and the pageblock that are isolated.
    isolated: Option<(usize, u32)>,
}

/// A number below a bound.
pub fn below(random: &mut Pcg32, bound: u32) -> u32
    requires { 0 < bound }
    ensures { result < bound }
{
    random.next_u32() % bound
}

/// An order: mostly 0 to 3, some 9 and 10.
fn order_of(random: &mut Pcg32) -> u32 {
    match random.next_u32() % 20 {
        0 => 9 + random.next_u32() % 2,
        1..=2 => 3,
        3..=4 => 2,
        5..=7 => 1,
        _ => 0,
    }
}

fn kind_of(random: &mut Pcg32) -> &'static str {
    match random.next_u32() % 10 {
        0..=1 => "R",
        2..=4 => "U",
        _ => "M",
    }
}

fn mark_of(random: &mut Pcg32) -> &'static str {
    match random.next_u32() % 8 {
        0 => "any",
        1 => "min",
        _ => "low",
    }
}

/// The name of the zone at this place.
fn zone_named(place: usize) -> &'static str {
    match ZONES.get(place) {
        Some(name) => *name,
        None => ZONES[0],
    }
}

impl TraceMaker {
    pub fn new(alloc: Global, seed: u64) -> Result<TraceMaker, Broken> {
        Ok(TraceMaker {
            text: Text::new(alloc)?,
            random: Pcg32::new(seed, 1),
            hands: Vec::new(alloc),
            isolated: None,
        })
    }

    pub fn text(&self) -> &[u8] {
        self.text.as_bytes()
    }

    /// A trace of this plan.
    pub fn draw(&mut self, alloc: Global, plan: &Plan) -> Result<(), Broken> {
        self.begin(alloc, plan)?;
        for _ in 0..plan.lines {
            if self.text.lines() >= plan.lines {
                break;
            }
            self.command(plan)?;
        }
        Ok(())
    }

    /// The header, and workers with nothing bound.
    pub fn begin(&mut self, alloc: Global, plan: &Plan) -> Result<(), Broken> {
        self.text.clear();
        self.text
            .header(plan.zones, plan.min, plan.workers, plan.lists)?;
        self.isolated = None;
        self.hands.clear();
        for _ in 0..plan.workers {
            let hand = Hand {
                live: Vec::new(alloc),
                bound: 0,
            };
            if self.hands.push(hand).is_err() {
                return Err(Broken::Memory);
            }
        }
        Ok(())
    }

    /// One line of a drawn worker.
    fn command(&mut self, plan: &Plan) -> Result<(), Broken> {
        let worker = below(&mut self.random, plan.workers);
        match self.random.next_u32() % 100 {
            0..=48 => self.alloc(plan, worker),
            49..=87 => self.free(plan, worker),
            88..=89 => self.low(plan, worker),
            90..=91 => self.isolate_or_release(plan, worker),
            92 => self.drain(worker),
            93..=95 => self.post(plan, worker),
            96..=98 => self.collect(plan, worker),
            _ => self.info(plan, worker),
        }
    }

    /// The zone that a worker asks.
    fn zone(&mut self, plan: &Plan, worker: u32) -> usize {
        match plan.reach {
            Reach::All => self.random.next_u32() as usize % plan.zones,
            Reach::Own => worker as usize,
        }
    }

    /// The beginning of a worker's line.
    fn start(&mut self, worker: u32, word: &str) -> Result<(), Broken> {
        self.text.number(worker)?;
        self.text.word(word)
    }

    /// A label that the worker binds: the next one.
    fn bind(&mut self, plan: &Plan, worker: u32) -> Result<(), Broken> {
        if let Some(hand) = self.hands.get_mut(worker as usize) {
            let label = hand.bound % plan.labels;
            hand.bound = hand.bound.wrapping_add(1);
            if hand.live.push(label).is_err() {
                return Err(Broken::Memory);
            }
            self.text.label(label)?;
        }
        Ok(())
    }

    /// A label that the worker has bound, which is bound no more.
    fn unbind(&mut self, worker: u32) -> Option<u32> {
        let drawn = self.random.next_u32() as usize;
        let hand = self.hands.get_mut(worker as usize)?;
        if hand.live.is_empty() {
            return None;
        }
        let place = drawn % hand.live.len();
        Some(hand.live.swap_remove(place))
    }

    /// A block of a drawn order, of a drawn type, at a drawn mark.
    pub fn alloc(&mut self, plan: &Plan, worker: u32) -> Result<(), Broken> {
        let zone = self.zone(plan, worker);
        let order = order_of(&mut self.random);
        self.start(worker, "alloc")?;
        self.bind(plan, worker)?;
        self.text.number(order)?;
        self.text.word(kind_of(&mut self.random))?;
        self.text.word(zone_named(zone))?;
        self.text.word(mark_of(&mut self.random))?;
        self.text.end()
    }

    fn low(&mut self, plan: &Plan, worker: u32) -> Result<(), Broken> {
        let zone = self.zone(plan, worker);
        let order = order_of(&mut self.random);
        self.start(worker, "low")?;
        self.bind(plan, worker)?;
        self.text.number(order)?;
        self.text.word(zone_named(zone))?;
        self.text.end()
    }

    /// A block comes back; where the worker has none, it takes one.
    pub fn free(&mut self, plan: &Plan, worker: u32) -> Result<(), Broken> {
        let Some(label) = self.unbind(worker) else {
            return self.alloc(plan, worker);
        };
        self.start(worker, "free")?;
        self.text.label(label)?;
        self.text.end()
    }

    fn post(&mut self, plan: &Plan, worker: u32) -> Result<(), Broken> {
        if plan.reach == Reach::Own {
            return self.free(plan, worker);
        }
        let to = below(&mut self.random, plan.workers);
        let Some(label) = self.unbind(worker) else {
            return self.alloc(plan, worker);
        };
        self.start(worker, "post")?;
        self.text.label(label)?;
        self.text.number(to)?;
        self.text.end()
    }

    fn collect(&mut self, plan: &Plan, worker: u32) -> Result<(), Broken> {
        if plan.reach == Reach::Own {
            return self.alloc(plan, worker);
        }
        let zone = self.zone(plan, worker);
        self.start(worker, "collect")?;
        self.bind(plan, worker)?;
        self.text.word(zone_named(zone))?;
        self.text.end()
    }

    fn drain(&mut self, worker: u32) -> Result<(), Broken> {
        self.start(worker, "drain")?;
        self.text.end()
    }

    /// The counts of each zone.
    pub fn info(&mut self, plan: &Plan, worker: u32) -> Result<(), Broken> {
        if plan.reach == Reach::Own {
            return self.drain(worker);
        }
        self.start(worker, "info")?;
        self.text.end()
    }

    /// A pageblock is isolated, or the one that is comes back. Where workers have a zone each, each of them has its own.
    fn isolate_or_release(&mut self, plan: &Plan, worker: u32) -> Result<(), Broken> {
        let place = self.zone(plan, worker);
        let drawn = self.random.next_u32() % 64;
        match self.isolated {
            Some((zone, pageblock)) if plan.reach == Reach::All || zone == place => {
                self.isolated = None;
                self.start(worker, "release")?;
                self.text.word(zone_named(zone))?;
                self.text.number(pageblock)?;
                self.text.word(kind_of(&mut self.random))?;
            }
            _ => {
                self.isolated = Some((place, drawn));
                self.start(worker, "isolate")?;
                self.text.word(zone_named(place))?;
                self.text.number(drawn)?;
            }
        }
        self.text.end()
    }

    /// Whether there is room for so many lines more.
    pub fn has_room(&self, lines: usize) -> bool {
        self.text.lines().saturating_add(lines) <= MOST_LINES
    }

    /// A line that no trace may have there: the label of this one was never bound.
    pub fn bad_line(&mut self) -> Result<(), Broken> {
        self.start(0, "free")?;
        self.text.word("unbound")?;
        self.text.end()
    }
}
