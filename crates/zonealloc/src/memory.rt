//! How much memory a row takes.
ghost use Rattle.std.specs.Prelude.{◌≡◌, ◌≤◌, ◌^◌, All, IfErr, IfOk, IsOk, length};
ghost use Rattle.zp_model.specs.declared.constants.TheConstants.{MAX_WORKERS, MAX_ZONES};
ghost use Rattle.zonealloc.specs.Memory.{HasSize, IsBytesCall, IsNoSize, row_bytes, zone_bytes};
ghost use Rattle.zonealloc.specs.Zones.{IsOfFirst};

use crate::answers::{BAD_ARGUMENT, DONE, refused};
use crate::zone_spec::{ZoneSpec, largest_of, pages_of};
use zp_model::{MAX_WORKERS, MAX_ZONES, Refused};

/// What a row takes beside what its zones and its workers take, in bytes.
pub const ROW_BYTES: u64 = 32;

/// What each worker of a row takes beside what it takes for each zone.
pub const CREW_BYTES: u64 = 56;

/// What a zone takes beside what its pages, its pageblocks, its lists and its workers take.
pub const ZONE_BYTES: u64 = 1152;

/// What each page of a zone takes: its entry.
pub const PAGE_BYTES: u64 = 8;

/// How many pages lie below one high word of the status tree.
pub const GROUP_PAGES: u32 = 1024;

/// What so many pages take in the status tree, each such group begun: 33 words, and their part of the rows of ranks.
pub const GROUP_BYTES: u64 = 280;

/// What each pageblock takes: its type, its free pages and what is noted of it.
pub const PAGEBLOCK_BYTES: u64 = 7;

/// What each free list takes.
pub const LIST_BYTES: u64 = 12;

/// What each worker takes for a zone, beside a byte for each of its pages.
pub const WORKER_BYTES: u64 = 1264;

/// How many bytes creating a row takes at most, with so many workers. (Not proved: the bound is tested.)
#[unsafe(no_mangle)]
pub extern "C" fn zonealloc_bytes(zones: &[ZoneSpec], workers: u32, bytes: &mut u64) -> u32
    ensures { IsBytesCall zones.now workers result bytes.old bytes.new }
{
    if zones.is_empty() || zones.len() > MAX_ZONES {
        return BAD_ARGUMENT;
    }
    if workers == 0 || workers > MAX_WORKERS {
        return refused(Refused::BadWorkers);
    }
    match bytes_of(zones, workers) {
        Ok(told) => {
            *bytes = told;
            DONE
        }
        Err(why) => why,
    }
}

/// What the row takes; else the number of why its first zone that can have no such size has none.
fn bytes_of(zones: &[ZoneSpec], workers: u32) -> Result<u64, u32>
    requires zones { length zones.now ≤ MAX_ZONES }
    requires workers { workers ≤ MAX_WORKERS }
    ensures ok { IfOk result (λ n. n ≡ row_bytes workers zones.now) }
    ensures all { IsOk result → All HasSize zones.now }
    ensures why { IfErr result (IsOfFirst HasSize IsNoSize zones.now) }
{
    let mut bytes = ROW_BYTES + CREW_BYTES * u64::from(workers);
    for zone in zones {
        let told = zone_bytes(zone, workers)?;
        bytes += told;
    }
    Ok(bytes)
}

/// What a zone takes; else the number of why it can have no such size.
#[tactic(auto, using(crate::proofs::Sizes::zone_small))]
fn zone_bytes(zone: &ZoneSpec, workers: u32) -> Result<u64, u32>
    requires { workers ≤ MAX_WORKERS }
    ensures ok { IfOk result (λ n. (n ≡ zone_bytes workers zone.now) × HasSize zone.now) }
    ensures small { IfOk result (λ n. n ≤ 2 ^ 33) }
    ensures why { IfErr result (IsNoSize zone.now) }
{
    let Some(largest) = largest_of(zone) else {
        return Err(BAD_ARGUMENT);
    };
    let Some(pages) = pages_of(zone) else {
        return Err(refused(Refused::BadPages));
    };
    let groups = u64::from(pages.div_ceil(GROUP_PAGES));
    let pageblocks = largest.pageblocks(pages) as u64;
    let lists = largest.lists() as u64;
    let pages = u64::from(pages);
    let kept = PAGE_BYTES * pages + GROUP_BYTES * groups + PAGEBLOCK_BYTES * pageblocks;
    let own = WORKER_BYTES + pages;
    Ok(ZONE_BYTES + LIST_BYTES * lists + kept + u64::from(workers) * own)
}
