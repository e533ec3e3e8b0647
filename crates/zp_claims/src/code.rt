//! A byte for what is noted of a pageblock: 0 where nothing is, else the place of the order and the type after it.
ghost use Rattle.std.specs.Prelude.{◌≡◌, ◌<◌};
ghost use Rattle.zp_claims.specs.Codes.{code_of};
ghost use Rattle.zp_claims.specs.declared.code.TheConstants.{CODES};

use crate::claim::Claim;
use zp_model::{ORDERS, TYPES};

/// How many codes there are.
pub const CODES: usize = TYPES * ORDERS + 1;

/// The code of what is noted.
#[inline(always)]
pub fn code_of(claim: Option<Claim>) -> u8
    ensures same { result ≡ code_of claim }
    ensures within { result < CODES }
{
    match claim {
        None => 0,
        Some(noted) => (TYPES * noted.order.index() + noted.kind.number() + 1) as u8,
    }
}
