//! Creates the zones that are planned, and the shares of their workers.
ghost use Rattle.std.specs.Prelude.{◌≡◌, ◌≤◌, length, map, IfErr, IfOk};
ghost use Rattle.std.specs.List.{range_with_len};
ghost use Rattle.zp_model.specs.declared.constants.TheConstants.{MAX_ZONES};
ghost use Rattle.zp_model.specs.declared.refused.Refused.TheVariants.{Memory};
ghost use Rattle.zp_share.specs.Crews.{AreSharesOf};
ghost use Rattle.zp_share.specs.Shares.{named_zone, plain};
ghost use Rattle.zp_crew.specs.Opening.{IsWhyNone, plain_config};
ghost use Rattle.zp_capture.specs.Opening.{opening_share, planned_config, planned_zone};

use crate::plan::ZonePlan;
use std::alloc::Global;
use zp_crew::{Crew, open_crew};
use zp_model::{Largest, Refused};
use zp_share::ListConfig;
use zp_zone::ZoneConfig;

/// How zones are made: the order of their largest blocks, their workers, and the lists of these.
#[derive(Clone, Copy, Drop)]
pub struct ZoneSettings {
    pub largest: Largest,
    pub workers: u32,
    pub lists: ListConfig,
}

/// The zones that are planned, with all their pages free, and the shares of their workers, in order, with nothing in them. Refused 5 for more
/// than 32 workers, 1 to 4 for a plan of no zone, and 6.
pub fn opened(alloc: Global, plans: &[ZonePlan], settings: &ZoneSettings) -> Result<Crew, Refused>
    requires some { 1 ≤ length plans.now }
    requires few { length plans.now ≤ MAX_ZONES }
    ensures workers { IfOk result (λ c. length c.shares.items ≡ settings.now.workers) }
    ensures zones { IfOk result (λ c. map named_zone c.zones.items ≡ map (planned_zone settings.now) plans.now) }
    ensures shares { IfOk result (λ c. map plain c.shares.items ≡ map (opening_share settings.now plans.now) (range_with_len 0 settings.now.workers)) }
    ensures crew { IfOk result (λ c. AreSharesOf c.zones.items c.shares.items) }
    ensures why { IfErr result (IsWhyNone settings.now.workers (map (planned_config settings.now) plans.now)) }
{
    let configs = planned_configs(alloc, plans, settings)?;
    open_crew(alloc, &configs, settings.workers, settings.lists)
}

/// What the zones that are planned are made with, in order. Refused 6.
fn planned_configs<'a>(
    alloc: Global,
    plans: &'a [ZonePlan],
    settings: &ZoneSettings,
) -> Result<Vec<ZoneConfig<'a>>, Refused>
    ensures configs { IfOk result (λ cs. map plain_config cs.items ≡ map (planned_config settings.now) plans.now) }
    ensures why { IfErr result (λ r. r ≡ Memory) }
{
    let Ok(mut configs) = Vec::with_capacity(alloc, plans.len()) else {
        return Err(Refused::Memory);
    };
    for plan in plans {
        configs.push_reserved(planned_config(plan, settings));
    }
    Ok(configs)
}

/// What the zone that is planned is made with.
fn planned_config<'a>(plan: &'a ZonePlan, settings: &ZoneSettings) -> ZoneConfig<'a>
    ensures { plain_config result ≡ planned_config settings.now plan.now }
{
    ZoneConfig {
        name: plan.name.as_str(),
        base: plan.base,
        pages: plan.pages,
        min: plan.min,
        largest: settings.largest,
    }
}
