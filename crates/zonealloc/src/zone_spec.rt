//! What C makes a zone with.
ghost use Rattle.std.specs.Prelude.{ℕ, ◌≡◌, ◌≤◌, ◌↔◌, true, IfErr, IfNone, IfOk, IfSome, OnOk};
ghost use Rattle.zp_model.specs.declared.constants.TheConstants.{MAX_PAGES};
ghost use Rattle.zp_model.specs.Bounds.{IsLargest};
ghost use Rattle.zp_gate.specs.GatedRows.{key_for, wanted_by};
ghost use Rattle.zonealloc.specs.Zones.{AreApart, IsConfig, IsNoConfig, spec_key, wanted_zone};

use crate::answers::{BAD_ARGUMENT, refused};
use zp_model::{LONGEST_NAME, Largest, MAX_PAGES, Refused};
use zp_zone::ZoneConfig;

/// The first page of a zone, its pages, its least mark, the order of its largest block, and its name.
#[repr(C)]
#[derive(Drop)]
pub struct ZoneSpec {
    base: u32,
    pages: u32,
    min: u32,
    largest: u32,
    name_len: u32,
    name: [u8; LONGEST_NAME],
}

/// The config of a zone; else the number of what is wrong. Creating the zone tests the rest.
pub fn config_of(spec: &ZoneSpec) -> Result<ZoneConfig<'_>, u32>
    ensures ok { IfOk result (λ config. (workers : ℕ) → (key_for workers config ≡ spec_key workers spec.now) × (wanted_by workers config ≡ wanted_zone workers spec.now)) }
    ensures good { OnOk result (IsConfig spec.now) }
    ensures why { IfErr result (IsNoConfig spec.now) }
{
    let bytes = &spec.name;
    let Some(name) = bytes.get(..spec.name_len as usize) else {
        return Err(refused(Refused::BadName));
    };
    let Ok(name) = std::str::from_utf8(name) else {
        return Err(refused(Refused::BadName));
    };
    let Some(largest) = largest_of(spec) else {
        return Err(BAD_ARGUMENT);
    };
    Ok(ZoneConfig {
        name,
        base: spec.base,
        pages: spec.pages,
        min: spec.min,
        largest,
    })
}

/// Whether each zone begins at the end of the one before it, or above that: then no two share a page.
pub fn are_apart(zones: &[ZoneSpec]) -> bool
    ensures { result ≡ true ↔ AreApart zones.now }
{
    let mut end = 0;
    for zone in zones {
        if u64::from(zone.base) < end {
            return false;
        }
        end = u64::from(zone.base) + u64::from(zone.pages);
    }
    true
}

/// The order of the largest block that the zone is to have, where a zone can have it.
pub fn largest_of(spec: &ZoneSpec) -> Option<Largest>
    ensures some { IfSome result (λ m. (m ≡ spec.now.largest) × IsLargest m) }
    ensures none { IfNone result (¬ IsLargest spec.now.largest) }
{
    Largest::new(u8::try_from(spec.largest).ok()?)
}

/// How many pages the zone is to have, where a zone can have so many.
pub fn pages_of(spec: &ZoneSpec) -> Option<u32>
    ensures some { IfSome result (λ n. (n ≡ spec.now.pages) × (1 ≤ n) × (n ≤ MAX_PAGES)) }
    ensures none { IfNone result (¬ ((1 ≤ spec.now.pages) × (spec.now.pages ≤ MAX_PAGES))) }
{
    if spec.pages == 0 || spec.pages > MAX_PAGES {
        return None;
    }
    Some(spec.pages)
}
