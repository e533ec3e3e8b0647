//! A zone's counts on a board beside its lock: they are published by whoever is with the zone, and read with no lock.
ghost use Rattle.std.specs.Prelude.{◌≡◌, ◌↔◌, [], cond, true, IfErr, IfOk, IsOk, IsSome, Some};
ghost use Rattle.std.specs.Option.{ForSome};
ghost use Rattle.zp_model.specs.declared.refused.Refused.TheVariants.{Memory};
ghost use Rattle.zp_model.specs.declared.request.Reply.TheVariants as reply;
ghost use Rattle.zp_share.specs.Shares.{is_section};
ghost use Rattle.zp_gate.specs.Boards.{IsBoardOf, IsTiedTo, IsWide, board_after, with_counts};

use std::alloc::Global;
use zp_counts::{Board, Publisher, new_wide_board};
use zp_model::Refused;
use zp_zone::Zone;

/// The place of the last counts for which a board has room: there are no further numbers.
pub const LAST_PLACE: u64 = u64::MAX;

/// A board with the counts of a zone of which nothing was asked, and the right to publish on it, where there is to be one. Refused 6.
pub(crate) fn board_of(
    alloc: Global,
    zone: &Zone,
    boards: bool,
) -> Result<(Option<Board>, Option<Publisher>), Refused>
    requires { zone.now.entries ≡ [] }
    ensures wide { IfOk result (λ r. ForSome r.0 IsWide) }
    ensures of { IfOk result (λ r. IsBoardOf r.0 zone.now r.1) }
    ensures some { IfOk result (λ r. IsSome r.0 ↔ (boards ≡ true)) }
    ensures why { IfErr result (λ e. e ≡ Memory) }
{
    if !boards {
        return Ok((None, None));
    }
    // a clause of this call says that the zone is the run of its entries
    zone.history();
    match new_wide_board(alloc, LAST_PLACE, &zone.counts()) {
        Ok((board, publisher)) => Ok((Some(board), Some(publisher))),
        Err(_) => Err(Refused::Memory),
    }
}

/// Whether the zone was asked, by its answer: it was not where the answer is refused 20 or 30.
#[inline(always)]
pub(crate) fn was_asked<T>(answer: &Result<T, Refused>) -> bool
    ensures ok { IsOk answer.now → result ≡ true }
    ensures err { IfErr answer.now (λ e. result ≡ is_section (reply.Refused e)) }
{
    !matches!(answer, Err(Refused::NotLent | Refused::JournalFull))
}

/// The counts of a zone go on its board, where it has one and was asked.
#[inline(always)]
pub(crate) fn publish(
    publisher: &mut Option<Publisher>,
    board: &Option<Board>,
    zone: &Zone,
    asked: bool,
)
    requires { IsTiedTo board.now publisher.old }
    ensures { publisher.new ≡ board_after asked zone.now publisher.old }
{
    if let Some(publisher) = publisher {
        publish_on(publisher, board, zone, asked);
    }
}

/// The counts of a zone that was asked go on its board, if there is room. Out of line, so that a zone without a board pays for one test alone.
#[inline(never)]
fn publish_on(publisher: &mut Publisher, board: &Option<Board>, zone: &Zone, asked: bool)
    requires { IsTiedTo board.now (Some publisher.old) }
    ensures { publisher.new ≡ cond asked (record publisher.old { published = with_counts zone.now publisher.old.published }) publisher.old }
{
    let Some(board) = board else { unreachable!() };
    if !asked || publisher.is_full(board) {
        return;
    }
    publisher.publish(board, &zone.counts());
}
