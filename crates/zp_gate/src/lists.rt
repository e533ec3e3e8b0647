//! What a worker does with the lists of its share alone: no lock is at hand.
ghost use Rattle.std.specs.Prelude.{◌≡◌, ◌<◌, [], length, IfErr, IfNone, IfSome, OnOk};
ghost use Rattle.zp_share.specs.Shares.{share_at};
ghost use Rattle.zp_share.specs.ZoneShares.{cached_of};
ghost use Rattle.zp_gate.specs.GatedWorkers.{IsPutDenial, IsPutOn, IsTaken};

use crate::call_error::CallError;
use zp_model::{MigrateType, PageNo, Refused};
use zp_share::Share;

/// Takes the page in front of the list of this type, and lends it. None where the list is empty.
#[inline(always)]
pub fn take_page(share: &mut Share, kind: MigrateType) -> Option<PageNo>
    requires { 0 < length share.old.zones }
    ensures some { IfSome result (λ page. IsTaken kind page share.old share.new) }
    ensures none { IfNone result ((share.new ≡ share.old) × (cached_of (share_at share.old 0) kind ≡ [])) }
{
    // most pages are movable: the place of their list is known where this is compiled
    match kind {
        MigrateType::Movable => share.take_cached(0, MigrateType::Movable),
        _ => share.take_cached(0, kind),
    }
}

/// Puts a lent page at the front of the list of its type. Refused 20, and 21 where the list is full.
#[tactic(auto, using(crate::proofs::Putting::stays, crate::proofs::Putting::has_lists))]
#[inline(always)]
pub fn put_page(share: &mut Share, page: PageNo) -> Result<(), CallError>
    requires { 0 < length share.old.zones }
    ensures ok { OnOk result (IsPutOn page share.old share.new) }
    ensures denied { IfErr result (λ e. IsPutDenial page e share.old share.new) }
{
    // (an arm for each refusal: joined, they cost a put that is not refused two instructions)
    match share.put_cached(0, page) {
        Ok(()) => {
            // a list had room, so there are lists: the settings say so
            let _lists = share.lists();
            Ok(())
        }
        Err(Refused::ListFull) => {
            if share.lists().high_len() == 0 {
                return Err(CallError::NoLists);
            }
            Err(CallError::Refused(Refused::ListFull))
        }
        Err(refused) => {
            if share.lists().high_len() == 0 {
                return Err(CallError::NoLists);
            }
            Err(CallError::Refused(refused))
        }
    }
}
