//! Creates a crew: the zones that a header declares, and the shares of their workers.
ghost use Rattle.std.specs.Prelude.{◌≡◌, ◌≤◌, [], All, length, map, IfOk, IfErr};
ghost use Rattle.zp_model.specs.declared.constants.TheConstants.{TRACE_ZONES};
ghost use Rattle.zp_trace.specs.Grammar.{IsHeader};
ghost use Rattle.zp_zone.specs.Seats.{ZoneState};
ghost use Rattle.zp_share.specs.Crews.{AreSharesOf};
ghost use Rattle.zp_share.specs.Shares.{named_zone, plain};
ghost use Rattle.zp_crew.specs.Opening.{plain_config};
ghost use Rattle.zp_office.specs.Opening.{declared_config, opened_crew};

use std::alloc::Global;
use zp_crew::{Crew, open_crew};
use zp_model::Refused;
use zp_share::{ListConfig, Share};
use zp_trace::{Header, ZoneLine};
use zp_zone::{Zone, ZoneConfig};

/// The zones that a header declares, with all their pages free, and the shares of their workers, in order, with nothing in them.
/// Refused 6.
pub fn opened(alloc: Global, header: &Header) -> Result<(Vec<Zone>, Vec<Share>), Refused>
    requires { IsHeader header.now }
    ensures zones { IfOk result (λ c. map named_zone c.0.items ≡ (opened_crew header.now).zones) }
    ensures shares { IfOk result (λ c. map plain c.1.items ≡ (opened_crew header.now).shares) }
    ensures few { IfOk result (λ c. length c.0.items ≤ TRACE_ZONES) }
    ensures crew { IfOk result (λ c. AreSharesOf c.0.items c.1.items) }
    ensures new { IfOk result (λ c. All (λ (z : ZoneState). z.entries ≡ []) c.0.items) }
    ensures why { IfErr result (λ r. r ≡ Refused.Memory) }
{
    let Crew { zones, shares } = declared_crew(alloc, header)?;
    Ok((zones, shares))
}

/// The crew that a header declares. Refused 6.
fn declared_crew(alloc: Global, header: &Header) -> Result<Crew, Refused>
    requires { IsHeader header.now }
    ensures zones { IfOk result (λ c. map named_zone c.zones.items ≡ (opened_crew header.now).zones) }
    ensures shares { IfOk result (λ c. map plain c.shares.items ≡ (opened_crew header.now).shares) }
    ensures few { IfOk result (λ c. length c.zones.items ≤ TRACE_ZONES) }
    ensures crew { IfOk result (λ c. AreSharesOf c.zones.items c.shares.items) }
    ensures new { IfOk result (λ c. All (λ (z : ZoneState). z.entries ≡ []) c.zones.items) }
    ensures why { IfErr result (λ r. r ≡ Refused.Memory) }
{
    let configs = declared_configs(alloc, header.zones.as_slice())?;
    let Some(lists) = ListConfig::new(header.batch as u8, header.high as u8) else {
        unreachable!();
    };
    open_crew(alloc, &configs, header.workers, lists)
}

/// What the zones that these lines declare are made with, in order. Refused 6.
fn declared_configs(alloc: Global, lines: &[ZoneLine]) -> Result<Vec<ZoneConfig<'_>>, Refused>
    ensures configs { IfOk result (λ cs. map plain_config cs.items ≡ map declared_config lines.now) }
    ensures why { IfErr result (λ r. r ≡ Refused.Memory) }
{
    let Ok(mut configs) = Vec::with_capacity(alloc, lines.len()) else {
        return Err(Refused::Memory);
    };
    for line in lines {
        configs.push_reserved(declared_config(line));
    }
    Ok(configs)
}

/// What the zone that a line declares is made with.
fn declared_config(line: &ZoneLine) -> ZoneConfig<'_>
    ensures { plain_config result ≡ declared_config line.now }
{
    ZoneConfig {
        name: line.name.as_str(),
        base: line.base,
        pages: line.pages,
        min: line.min,
        largest: line.declared_largest(),
    }
}
