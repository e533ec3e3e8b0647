//! A source of blocks under load.

ghost use Rattle.std.specs.Prelude.{◌<◌};

use crate::digest::Digest;
use crate::errors::Broken;
use crate::sources::BlockSource;
use rand_core::Rng;
use rand_pcg::Pcg32;
use std::alloc::Global;
use zp_model::{MigrateType, Order};
use zp_share::Lent;

/// The orders of a churn have probabilities that fall by halves; the last one takes what is left.
const CHURNED: u32 = 1 << 10;

/// A source, the blocks that it has lent, and the digest of all pages answered.
#[derive(Drop)]
pub struct Load<S> {
    source: S,
    lent: Vec<Lent>,
    lent_pages: u64,
    random: Pcg32,
    digest: Digest,
}

impl<S: BlockSource> Load<S> {
    pub fn new(alloc: Global, seed: u64, round: u32) -> Result<Load<S>, Broken> {
        let source = S::new(alloc)?;
        let lent = Vec::with_capacity(alloc, source.pages() as usize)?;
        Ok(Load {
            source,
            lent,
            lent_pages: 0,
            random: Pcg32::new(seed, u64::from(round)),
            digest: Digest::new(),
        })
    }

    /// How many pages the zones have.
    pub fn pages(&self) -> u64 {
        self.source.pages()
    }

    /// How many pages are lent.
    pub fn lent_pages(&self) -> u64 {
        self.lent_pages
    }

    /// A number below a bound.
    pub fn below(&mut self, bound: u32) -> u32
        requires { 0 < bound }
    {
        self.random.next_u32() % bound
    }

    /// A block that was answered is kept. Whether there was one.
    #[inline(always)]
    fn keep(&mut self, taken: Option<Lent>) -> Result<bool, Broken> {
        let Some(lent) = taken else {
            self.digest.add(0);
            return Ok(false);
        };
        self.digest.add(u64::from(lent.page.number()) + 1);
        let pages = u64::from(lent.order.pages());
        if self.lent.push(lent).is_err() {
            return Err(Broken::Memory);
        }
        self.lent_pages = self.lent_pages.saturating_add(pages);
        Ok(true)
    }

    /// Takes a block. Whether there was one.
    pub fn take(&mut self, order: Order, kind: MigrateType) -> Result<bool, Broken> {
        let taken = self.source.take(order, kind);
        self.keep(taken)
    }

    /// Takes the lowest block of this order. Whether there was one.
    pub fn take_low(&mut self, order: Order) -> Result<bool, Broken> {
        let taken = self.source.take_low(order);
        self.keep(taken)
    }

    /// Gives back a drawn block.
    pub fn give_drawn(&mut self) {
        let drawn = self.random.next_u32();
        if self.lent.is_empty() {
            return;
        }
        let place = drawn as usize % self.lent.len();
        let lent = self.lent.swap_remove(place);
        self.lent_pages = self
            .lent_pages
            .saturating_sub(u64::from(lent.order.pages()));
        self.source.give(&lent);
    }

    /// Gives back drawn blocks, until so many pages are lent at most.
    pub fn give_down_to(&mut self, pages: u64) {
        for _ in 0..self.lent.len() {
            if self.lent_pages <= pages {
                break;
            }
            self.give_drawn();
        }
    }

    /// Takes single pages until there is none.
    pub fn take_all(&mut self, kind: MigrateType) -> Result<(), Broken> {
        for _ in 0..self.source.pages() {
            if !self.take(Order::zero(), kind)? {
                break;
            }
        }
        Ok(())
    }

    /// So many calls: a block of a drawn order, where fewer than so many pages are lent; else a drawn one comes back.
    pub fn churn(&mut self, calls: u32, pages: u64) -> Result<(), Broken> {
        for _ in 0..calls {
            if self.lent_pages >= pages {
                self.give_drawn();
            } else {
                let number = (self.random.next_u32() | CHURNED).trailing_zeros();
                let order = Order::new(number as u8).unwrap_or(Order::zero());
                self.take(order, MigrateType::Movable)?;
            }
        }
        Ok(())
    }

    /// So many times 64 drawn pages come back, and as many are taken.
    pub fn press(&mut self, times: u32, kind: MigrateType) -> Result<(), Broken> {
        for _ in 0..times {
            for _ in 0..64 {
                self.give_drawn();
            }
            for _ in 0..64 {
                self.take(Order::zero(), kind)?;
            }
        }
        Ok(())
    }

    /// The pageblock of this number is isolated and released.
    pub fn isolate_and_release(&mut self, pageblock: u32, kind: MigrateType) {
        let is_done = self.source.isolate_and_release(pageblock, kind);
        self.digest.add(u64::from(is_done));
    }

    /// What lies on lists comes back.
    pub fn drain(&mut self) {
        let pages = self.source.drain();
        self.digest.add(pages as u64);
    }

    /// All comes back, in a drawn order: the digest of all answers, with how many pages are free then.
    pub fn end(mut self) -> u64 {
        self.give_down_to(0);
        self.drain();
        let free = self.source.free_pages();
        self.digest.add(free);
        self.digest.value()
    }
}
