//! Pages for one thread.

use crate::bench::Load;
use crate::digest::Digest;
use crate::errors::Broken;
use crate::sources::{BlockSource, Row, Seated};
use std::alloc::Global;
use zp_model::MigrateType;

/// The calls of a churn.
const CHURNS: u32 = 400_000;

/// How often 64 pages come back and are taken.
const PRESSES: u32 = 4000;

/// Blocks of all orders with half of the pages lent, single pages with nine tenths lent, and all pages taken, and given back at random.
fn served<S: BlockSource>(alloc: Global, seed: u64, round: u32) -> Result<u64, Broken> {
    let mut load = Load::<S>::new(alloc, seed, round)?;
    let pages = load.pages();
    load.churn(CHURNS, pages / 2)?;
    load.give_down_to(0);
    load.take_all(MigrateType::Movable)?;
    load.give_down_to(pages / 10 * 9);
    load.press(PRESSES, MigrateType::Movable)?;
    Ok(load.end())
}

/// So many rounds, each on zones that are made anew.
pub fn serve(alloc: Global, rounds: u32, seed: u64) -> anyhow::Result<Digest> {
    let mut digest = Digest::new();
    for round in 0..rounds {
        digest.add(served::<Seated>(alloc, seed, round)?);
        digest.add(served::<Row>(alloc, seed, round)?);
    }
    Ok(digest)
}
