//! The words of `zoneview events`.

use crate::index::style_of;
use crate::screen::Screen;
use clap::ArgMatches;
use std::alloc::Global;
use zp_buddyinfo::parse_size;
use zp_capture::{EventOptions, Form, ZonePlan};
use zp_events::AtBroken;
use zp_model::{Largest, Name};
use zp_share::ListConfig;

/// The lists of workers where none are named: the longest batch, and room for two.
const USUAL_BATCH: u8 = 31;

const USUAL_HIGH: u8 = 62;

const ZONE: &str =
    "--zone: a name of 1 to 8 letters or digits, the first page, a multiple of 1024, how many pages, and the least mark";

const LISTS: &str =
    "--lists: a batch of 1 to 31 pages, and room for more than that and at most 64; or 0 0 for no lists";

const LARGEST: &str = "--largest: an order from 1 to 10";

const CPUS: &str = "--cpus: how many CPUs have a worker of their own, from 1 on";

const EVERY: &str = "--every: how many events, from 1 on";

const PAGE: &str =
    "--page: the size of a page, a number of bytes above 0, and K, M or G behind it or nothing";

const NO_MEMORY: &str = "no memory";

/// The zone that four words name.
fn plan_of(words: &[&str]) -> Option<ZonePlan> {
    let [name, base, pages, min] = words else {
        return None;
    };
    Some(ZonePlan {
        node: 0,
        name: Name::new(name.as_bytes())?,
        base: base.parse::<u32>().ok()?,
        pages: pages.parse::<u32>().ok()?,
        min: min.parse::<u32>().ok()?,
    })
}

/// The zones that are named.
fn plans_of(alloc: Global, words: &ArgMatches<'_>) -> Result<Vec<ZonePlan>, &'static str> {
    let mut plans = Vec::new(alloc);
    let Some(named) = words.get_raw_occurrences("zone") else {
        return Ok(plans);
    };
    for zone in named {
        let Some(plan) = plan_of(zone) else {
            return Err(ZONE);
        };
        if plans.push(plan).is_err() {
            return Err(NO_MEMORY);
        }
    }
    Ok(plans)
}

/// The lists that are named.
fn lists_of(words: &ArgMatches<'_>) -> Result<ListConfig, &'static str> {
    let (batch, high) = match words.get_raw("lists") {
        None => (USUAL_BATCH, USUAL_HIGH),
        Some([batch, high]) => match (batch.parse::<u8>(), high.parse::<u8>()) {
            (Ok(batch), Ok(high)) => (batch, high),
            _ => return Err(LISTS),
        },
        Some(_) => return Err(LISTS),
    };
    ListConfig::new(batch, high).ok_or(LISTS)
}

/// The largest order that is named.
fn largest_of(words: &ArgMatches<'_>) -> Result<Largest, &'static str> {
    match words.get_str("largest") {
        None => Ok(Largest::usual()),
        Some(word) => match word.parse::<u8>().ok().and_then(Largest::new) {
            Some(largest) => Ok(largest),
            None => Err(LARGEST),
        },
    }
}

/// How many CPUs are named.
fn cpus_of(words: &ArgMatches<'_>) -> Result<Option<u32>, &'static str> {
    match words.get_str("cpus") {
        None => Ok(None),
        Some(word) => match word.parse::<u32>() {
            Ok(cpus) if cpus > 0 => Ok(Some(cpus)),
            _ => Err(CPUS),
        },
    }
}

/// The size of a page that is named.
fn page_of(words: &ArgMatches<'_>) -> Result<u64, &'static str> {
    parse_size(words.get_str("page").unwrap_or("4K")).ok_or(PAGE)
}

/// What is done at a broken line.
fn at_broken_of(words: &ArgMatches<'_>) -> AtBroken {
    if words.get_flag("keep-going") {
        AtBroken::KeepGoing
    } else {
        AtBroken::End
    }
}

/// What is to be written.
fn form_of(words: &ArgMatches<'_>, screen: Screen) -> Result<Form, &'static str> {
    if words.get_flag("svg") {
        return Ok(Form::Chart);
    }
    match words.get_str("every") {
        None => Ok(Form::Table(style_of(words, screen))),
        Some(word) => match word.parse::<u64>() {
            Ok(every) if every > 0 => Ok(Form::Lines(every)),
            _ => Err(EVERY),
        },
    }
}

/// What the words ask for, or what is wrong with them.
pub fn options_of(
    alloc: Global,
    words: &ArgMatches<'_>,
    screen: Screen,
) -> Result<EventOptions, &'static str> {
    Ok(EventOptions {
        plans: plans_of(alloc, words)?,
        lists: lists_of(words)?,
        largest: largest_of(words)?,
        cpus: cpus_of(words)?,
        at_broken: at_broken_of(words),
        page: page_of(words)?,
        form: form_of(words, screen)?,
    })
}
