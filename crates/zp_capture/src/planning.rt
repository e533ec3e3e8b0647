//! Which zones of ours a capture is carried out over.
ghost use Rattle.std.specs.Prelude.{◌≡◌, ◌<◌, ◌↔◌, [], IfErr, IfNone, IfOk, IfSome, IsTrue};
ghost use Rattle.zp_capture.specs.Plans.{AreInPlace, ArePlanned, ArePlansOf, AreRising, IsFallen, IsPlanFault, end_of};

use crate::plan::{ZonePlan, plan_of};
use crate::zone_info::MemoryZone;
use std::alloc::{AllocError, Global};
use std::fmt;
use std::fmt::{Display, Formatter};
use zp_model::{MAX_ZONES, Name};

/// Why no zones are planned.
#[derive(Clone, Copy, PartialEq, Eq, Debug, Drop)]
pub enum PlanFault {
    /// None are named, and none are reported before the first event.
    NoZones,
    /// There are more than a row has.
    TooManyZones,
    /// No zone of ours can stand for the machine's zone of this name.
    CannotBe(Name),
    /// The named zone of this name begins before the one that is named before it ends.
    Overlap(Name),
    Memory,
}

impl From<AllocError> for PlanFault {
    ghost use Rattle.zp_capture.specs.declared.planning.PlanFault.TheVariants.{Memory};

    ghost from_gives = { λ _ e. e ≡ Memory };

    fn from(_e: AllocError) -> PlanFault {
        PlanFault::Memory
    }
}

impl Display for PlanFault {
    fn fmt<W: fmt::Write>(&self, f: &mut Formatter<W>) -> fmt::Result {
        match self {
            PlanFault::NoZones => f.write_str(
                "no zones: there is no zoneinfo before the first event, so name them by --zone NAME BASE PAGES MIN",
            ),
            PlanFault::TooManyZones => write!(f, "more than {MAX_ZONES} zones"),
            PlanFault::CannotBe(name) => {
                let name = name.as_str();
                write!(
                    f,
                    "zone {name} has no place here: a zone has 1 to 16777216 pages and begins at most at page 2^30, so name parts of it by --zone"
                )
            }
            PlanFault::Overlap(name) => {
                let name = name.as_str();
                write!(
                    f,
                    "zone {name} begins before the zone that is named before it ends: name the lowest first, and each behind the one before"
                )
            }
            PlanFault::Memory => f.write_str("no memory"),
        }
    }
}

/// A zone of ours for each of the machine's, in their order.
fn in_places(alloc: Global, zones: &[MemoryZone]) -> Result<Vec<ZonePlan>, PlanFault>
    ensures plans { IfOk result (λ plans. AreInPlace zones.now plans.items) }
    ensures why { IfErr result (λ e. IsPlanFault [] zones.now e) }
{
    let Ok(mut plans) = Vec::with_capacity(alloc, zones.len()) else {
        return Err(PlanFault::Memory);
    };
    'zones: for zone in zones {
        match plan_of(zone) {
            Some(plan) => plans.push_reserved(plan),
            None => return Err(PlanFault::CannotBe(zone.name)),
        }
    }
    Ok(plans)
}

/// The zones that are named, or else one for each that the machine reports.
fn zones_of(
    alloc: Global,
    named: &[ZonePlan],
    told: &[MemoryZone],
) -> Result<Vec<ZonePlan>, PlanFault>
    ensures plans { IfOk result (λ plans. ArePlansOf named.now told.now plans.items) }
    ensures why { IfErr result (IsPlanFault named.now told.now) }
{
    if named.is_empty() {
        return in_places(alloc, told);
    }
    let mut plans = Vec::new(alloc);
    plans.extend_from_slice(named)?;
    Ok(plans)
}

/// The page behind the last one of a zone.
fn end_of(plan: &ZonePlan) -> u64
    ensures { result ≡ end_of plan.now }
{
    u64::from(plan.base) + u64::from(plan.pages)
}

/// Whether a zone begins before this page.
fn begins_before(plan: &ZonePlan, page: u64) -> bool
    ensures { IsTrue result ↔ (plan.now.base < page) }
{
    u64::from(plan.base) < page
}

/// The name of the first zone that begins before the one in front of it ends.
fn first_fallen(plans: &[ZonePlan]) -> Option<Name>
    ensures some { IfSome result (IsFallen plans.now) }
    ensures none { IfNone result (AreRising plans.now) }
{
    'plans: for place in 0..plans.len().saturating_sub(1) {
        if begins_before(&plans[place + 1], end_of(&plans[place])) {
            return Some(plans[place + 1].name);
        }
    }
    None
}

/// The zones that are planned: those that are named, or else one for each that the machine reports.
pub fn plans_of(
    alloc: Global,
    named: &[ZonePlan],
    told: &[MemoryZone],
) -> Result<Vec<ZonePlan>, PlanFault>
    ensures plans { IfOk result (λ plans. ArePlanned named.now told.now plans.items) }
    ensures why { IfErr result (IsPlanFault named.now told.now) }
{
    let plans = zones_of(alloc, named, told)?;
    if plans.is_empty() {
        return Err(PlanFault::NoZones);
    }
    if plans.len() > MAX_ZONES {
        return Err(PlanFault::TooManyZones);
    }
    match first_fallen(named) {
        Some(name) => Err(PlanFault::Overlap(name)),
        None => Ok(plans),
    }
}
