//! The zones of ours over which a capture is carried out.
ghost use Rattle.std.specs.Prelude.{◌≡◌, ◌≤◌, ◌<◌, ◌↔◌, length, IfOk, IsTrue};
ghost use Rattle.zp_kernel.specs.Settings.{AreBelow};
ghost use Rattle.zp_capture.specs.Limits.{Allows, AreLimitsOf, IsHighest, workers_of};
ghost use Rattle.zp_capture.specs.Opening.{IsOpenedBy};
ghost use Rattle.zp_model.specs.declared.constants.TheConstants.{MAX_WORKERS, MAX_ZONES};

use crate::fault::CaptureFault;
use crate::opening::{ZoneSettings, opened};
use crate::plan::ZonePlan;
use std::alloc::Global;
use zp_events::ZoneLimit;
use zp_kernel::{Kernel, Limits, Setting};
use zp_model::MAX_WORKERS;
use zp_share::PlainZones;

/// How many workers there are, where so many CPUs are named, or so many are reported (0: none is): one for each CPU, up to the most that a
/// zone has, which CPUs then share.
pub fn workers_of(named: Option<u32>, told: u32) -> u32
    ensures workers { result ≡ workers_of named told }
    ensures some { 1 ≤ result }
{
    let cpus = named.unwrap_or(told);
    if cpus == 0 {
        MAX_WORKERS
    } else {
        cpus.min(MAX_WORKERS)
    }
}

/// Whether a limit allows a zone of this name.
fn allows(limit: ZoneLimit, name: &str) -> bool
    ensures { IsTrue result ↔ Allows limit name.now }
{
    match limit {
        ZoneLimit::Dma => name == "DMA",
        ZoneLimit::Dma32 => name == "DMA" || name == "DMA32",
        ZoneLimit::Normal => name != "Movable",
        ZoneLimit::Movable => true,
    }
}

/// The place of the highest zone that a limit allows, or of the lowest where it allows none.
fn highest_allowed(plans: &[ZonePlan], limit: ZoneLimit) -> usize
    requires { 1 ≤ length plans.now }
    ensures { IsHighest limit plans.now result }
{
    let mut place = plans.len();
    'plans: while place > 0 {
        place -= 1;
        if allows(limit, plans[place].name.as_str()) {
            return place;
        }
    }
    0
}

/// For each limit of a request the place of the highest zone that it allows.
pub fn limits_of(plans: &[ZonePlan]) -> Limits
    requires { 1 ≤ length plans.now }
    ensures limits { AreLimitsOf plans.now result }
    ensures below { AreBelow (length plans.now) result }
{
    Limits {
        dma: highest_allowed(plans, ZoneLimit::Dma),
        dma32: highest_allowed(plans, ZoneLimit::Dma32),
        normal: highest_allowed(plans, ZoneLimit::Normal),
        movable: highest_allowed(plans, ZoneLimit::Movable),
    }
}

/// The zones that are planned, before the first event.
pub fn kernel_of(
    alloc: Global,
    plans: &[ZonePlan],
    settings: &ZoneSettings,
) -> Result<Kernel, CaptureFault>
    requires some { 1 ≤ length plans.now }
    requires few { length plans.now ≤ MAX_ZONES }
    requires workers { 1 ≤ settings.now.workers }
    ensures kernel { IfOk result (λ k. IsOpenedBy settings.now plans.now k) }
{
    let crew = opened(alloc, plans, settings)?;
    let setting = Setting {
        largest: settings.largest.order(),
        limits: limits_of(plans),
    };
    let zones = PlainZones::new(crew.zones);
    Ok(Kernel::new(alloc, zones, crew.shares, setting))
}
