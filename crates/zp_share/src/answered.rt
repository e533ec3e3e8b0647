//! What a section returns, and what a typed call returns of the reply to its request.
ghost use Rattle.std.specs.Prelude.{◌≡◌};
ghost use Rattle.zp_share.specs.Shares.{is_section};

use zp_model::{Refused, Reply};

/// Whether a reply is that of a section: refused 20 or 30 it is none.
#[inline(always)]
pub fn is_section(reply: &Reply) -> bool
    ensures { result ≡ is_section reply.now }
{
    !matches!(
        reply,
        Reply::Refused(Refused::NotLent) | Reply::Refused(Refused::JournalFull)
    )
}

/// The value, where the reply is of the request's kind; or the refusal. No other reply comes.
#[macro_export]
macro_rules! answered {
    ($reply:expr, $kind:pat => $value:expr) => {
        match $reply {
            $kind => Ok($value),
            Reply::Refused(refused) => Err(refused),
            _ => unreachable!(),
        }
    };
}
