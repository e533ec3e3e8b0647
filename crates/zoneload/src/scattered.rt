//! Memory whose free pages lie alone, between Unmovable ones.

use crate::bench::Load;
use crate::digest::Digest;
use crate::errors::Broken;
use crate::sources::{BlockSource, Row, Seated};
use std::alloc::Global;
use zp_model::{MigrateType, Order};

/// The pageblocks of a zone.
const PAGEBLOCKS: u32 = 64;

/// How many mixed calls there are.
const CALLS: u32 = 60_000;

/// The Unmovable pages: one in so many.
const SCATTERED: u32 = 64;

/// All pages are taken one by one, Movable ones with an Unmovable one now and then, and a third comes back.
fn scatter<S: BlockSource>(load: &mut Load<S>) -> Result<(), Broken> {
    for _ in 0..load.pages() {
        let kind = if load.below(SCATTERED) == 0 {
            MigrateType::Unmovable
        } else {
            MigrateType::Movable
        };
        if !load.take(Order::zero(), kind)? {
            break;
        }
    }
    let pages = load.pages();
    load.give_down_to(pages / 3 * 2);
    Ok(())
}

fn kind_of(drawn: u32) -> MigrateType {
    match drawn {
        0 => MigrateType::Reclaimable,
        1..=2 => MigrateType::Movable,
        _ => MigrateType::Unmovable,
    }
}

/// One of the calls that such memory makes dear.
fn call<S: BlockSource>(load: &mut Load<S>) -> Result<(), Broken> {
    let kind = kind_of(load.below(5));
    match load.below(100) {
        0..=39 => {
            load.take(Order::zero(), kind)?;
        }
        40..=43 => {
            load.take(Order::zero().higher(), kind)?;
        }
        44..=47 => {
            load.take_low(Order::zero())?;
        }
        48..=94 => load.give_drawn(),
        95..=97 => {
            let pageblock = load.below(PAGEBLOCKS);
            load.isolate_and_release(pageblock, kind);
        }
        _ => load.drain(),
    }
    Ok(())
}

/// Mixed calls over scattered pages.
fn served<S: BlockSource>(alloc: Global, seed: u64, round: u32) -> Result<u64, Broken> {
    let mut load = Load::<S>::new(alloc, seed, round)?;
    scatter(&mut load)?;
    for _ in 0..CALLS {
        call(&mut load)?;
    }
    Ok(load.end())
}

/// So many rounds, each on zones that are made anew.
pub fn serve(alloc: Global, rounds: u32, seed: u64) -> anyhow::Result<Digest> {
    let mut digest = Digest::new();
    for round in 0..rounds {
        digest.add(served::<Seated>(alloc, seed, round)?);
        digest.add(served::<Row>(alloc, seed, round)?);
    }
    Ok(digest)
}
