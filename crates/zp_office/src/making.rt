//! Creates desks: a worker's share, with the script of its commands.
ghost use Rattle.std.specs.Prelude.{◌≡◌, [], All, map, IfOk, IfErr};
ghost use Rattle.zp_trace.specs.Grammar.{IsBeginning, lines_of};
ghost use Rattle.zp_zone.specs.Seats.{ZoneState};
ghost use Rattle.zp_share.specs.Shares.{named_zone};
ghost use Rattle.zp_office.specs.Desks.{DeskState, plain_desk};
ghost use Rattle.zp_office.specs.Offices.{AreDesksOf, desk_for, opened_office};

use crate::desk::Desk;
use crate::opening::opened;
use crate::script::script_of;
use std::alloc::Global;
use zp_model::Refused;
use zp_share::Share;
use zp_trace::Trace;
use zp_zone::Zone;

/// The zones that a trace declares, with all their pages free, and the desks of their workers, in order, each with the script of
/// its worker's commands, of which none was carried out. Refused 6.
pub fn opened_desks(alloc: Global, trace: &Trace) -> Result<(Vec<Zone>, Vec<Desk>), Refused>
    requires { IsBeginning (lines_of trace.now) }
    ensures zones { IfOk result (λ c. map named_zone c.0.items ≡ (opened_office trace.now).zones) }
    ensures desks { IfOk result (λ c. map plain_desk c.1.items ≡ (opened_office trace.now).desks) }
    ensures office { IfOk result (λ c. AreDesksOf c.0.items c.1.items) }
    ensures unworked { IfOk result (λ c. All (λ (d : DeskState). d.replies ≡ []) c.1.items) }
    ensures new { IfOk result (λ c. All (λ (z : ZoneState). z.entries ≡ []) c.0.items) }
    ensures why { IfErr result (λ r. r ≡ Refused.Memory) }
{
    let (zones, shares) = opened(alloc, &trace.header)?;
    let desks = desks_of(alloc, shares, trace)?;
    Ok((zones, desks))
}

/// A desk for each share, with the script of its worker. Refused 6.
fn desks_of(alloc: Global, shares: Vec<Share>, trace: &Trace) -> Result<Vec<Desk>, Refused>
    requires { IsBeginning (lines_of trace.now) }
    ensures desks { IfOk result (λ ds. ds.items ≡ map (desk_for trace.now) shares.items) }
    ensures why { IfErr result (λ r. r ≡ Refused.Memory) }
{
    let Ok(mut desks) = Vec::with_capacity(alloc, shares.len()) else {
        return Err(Refused::Memory);
    };
    for share in shares {
        desks.push_reserved(desk_for(alloc, share, trace)?);
    }
    Ok(desks)
}

/// The desk of a share, with the script of its worker. Refused 6.
fn desk_for(alloc: Global, share: Share, trace: &Trace) -> Result<Desk, Refused>
    requires { IsBeginning (lines_of trace.now) }
    ensures desk { IfOk result (λ d. d ≡ desk_for trace.now share) }
    ensures why { IfErr result (λ r. r ≡ Refused.Memory) }
{
    let Ok(script) = script_of(alloc, trace, share.worker()) else {
        return Err(Refused::Memory);
    };
    Desk::new(alloc, share, script)
}
