//! `eventload ROUNDS SEED`: page events of a kernel as text, 100,000 a round, drawn by the seed, read and carried out over a zone of 65,536
//! pages by four workers. It prints `events`, the rounds and a digest of all reports.
#![tactic(auto)]

mod event_text;

ghost use Rattle.std.specs.Prelude.{◌≡◌, ◌<◌};

use crate::event_text::{CPUS, text_of};
use md5::{Digest, Md5};
use std::alloc::Global;
use std::env;
use std::marker::Brand;
use std::sync::ledger::{Blank, Ledger};
use zp_buddyinfo::Style;
use zp_capture::{EventOptions, Form, ZonePlan, print_events};
use zp_events::AtBroken;
use zp_model::{Largest, Name};
use zp_progress::Unwatched;
use zp_share::ListConfig;
use zp_streams::{Failures, Source};

/// Over which zone the events are carried out.
fn options(alloc: Global) -> anyhow::Result<EventOptions> {
    let (Some(name), Some(lists)) = (Name::new(b"Normal"), ListConfig::new(31, 62)) else {
        anyhow::bail!("eventload: there is no such zone");
    };
    let mut plans = Vec::new(alloc);
    plans.push(ZonePlan {
        node: 0,
        name,
        base: 0,
        pages: 65_536,
        min: 256,
    })?;
    Ok(EventOptions {
        plans,
        lists,
        largest: Largest::usual(),
        cpus: Some(CPUS),
        at_broken: AtBroken::End,
        page: 4_096,
        form: Form::Table(Style {
            cells: 22,
            ascii: true,
            colour: false,
        }),
    })
}

/// The report on a text, read off a stream with a ledger of its failures.
fn told<L: Ledger>(
    alloc: Global,
    text: &[u8],
    options: &EventOptions,
    failures: Blank,
) -> anyhow::Result<Vec<u8>>
    requires name { failures.name ≡ L.name }
    requires parts { (failures.parts ≡ L.parts) × (0 < failures.parts) }
{
    let reader = Source::new(text, Failures::<L>::new(failures));
    let mut told = Vec::new(alloc);
    print_events(alloc, reader, options, &mut told, Unwatched)?;
    Ok(told)
}

/// The report on a text.
fn told_of(alloc: Global, text: &[u8], options: &EventOptions) -> anyhow::Result<Vec<u8>> {
    told::<Brand>(alloc, text, options, Blank::new(1))
}

/// Reads and carries out so many texts, and returns a digest of their reports.
fn carry_out(alloc: Global, rounds: u32, seed: u64) -> anyhow::Result<[u8; 16]> {
    let options = options(alloc)?;
    let mut digest = Md5::new();
    for round in 0..rounds {
        let text = text_of(alloc, seed, round)?;
        let told = told_of(alloc, text.as_slice(), &options)?;
        digest.update(&told);
    }
    Ok(digest.finalize())
}

/// A number from a word.
fn number(word: &str) -> anyhow::Result<u32> {
    match word.parse::<u32>() {
        Ok(number) => Ok(number),
        Err(_) => anyhow::bail!("eventload: ROUNDS and SEED are numbers"),
    }
}

fn main(rt: HostRuntime) -> anyhow::Result<()> {
    let words: Vec<String> = env::args(&rt)?.skip(1).collect(rt.alloc())?;
    let [rounds, seed] = words.as_slice() else {
        anyhow::bail!("eventload: the words are ROUNDS SEED");
    };
    let (rounds, seed) = (number(rounds)?, number(seed)?);
    let digest = carry_out(rt.alloc(), rounds, u64::from(seed))?;
    println!(rt; "events {rounds} {:032x}", u128::from_be_bytes(digest))?;
    Ok(())
}
