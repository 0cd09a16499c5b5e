//! What an ask under way comes to.
ghost use Rattle.std.specs.Prelude.{◌≡◌, ℕ, true, IfOk};
ghost use Rattle.std.specs.Option.{option_copied, option_map};
ghost use Rattle.ix_model.specs.Units.{Units};
ghost use Rattle.ix_lanes.specs.Progress.{is_asking};
ghost use Rattle.ix_lanes.specs.TurnView.{turn_of};
ghost use Rattle.ix_seats.specs.Coming.{query_of, IsComing, IsSafeComing};
ghost use Rattle.ix_seats.specs.Seated.{asked, HasAsk};
ghost use Rattle.ix_seats.specs.Seats.{IsSeat};

use ix_asking::OpenAsk;
use ix_held::Next;
use ix_lanes::{Lane, Turn};
use ix_tables::Version;
use ix_types::{Memory, Query};
use std::alloc::Global;
use std::sync::Arc;

/// What the ask under way comes to; None where no version is held.
pub(crate) fn coming(
    alloc: Global,
    lane: &Lane,
    version: &Option<Arc<Version>>,
    opened: Option<OpenAsk>,
) -> Result<Option<Next>, Memory>
    requires asking { is_asking lane.now.progress ≡ true }
    requires ask { HasAsk lane.now.progress lane.now.bodies opened }
    ensures coming { (seen : ℕ → Units) → IsSeat seen (record { lane = lane.now; version = option_map (λ version. version.value) version.now; ask = opened }) → IfOk result (IsComing seen lane.now) }
    ensures safe { IfOk result (IsSafeComing lane.now) }
{
    ix_model::laws::answers_are_sorted_sets();
    match asked(lane) {
        None => unreachable!(),
        Some(query) => match version {
            None => Ok(None),
            Some(version) => {
                let next = ix_held::ask(alloc, query, version, lane.bodies(), opened)?;
                Ok(Some(next))
            }
        },
    }
}

/// The query of the ask under way; None where the lane doesn't ask.
pub(crate) fn asked(lane: &Lane) -> Option<&Query>
    ensures { option_copied result ≡ asked lane.now.progress }
{
    match lane.next() {
        None => None,
        Some(turn) => query_of(turn),
    }
}

/// The query of a turn that is an ask.
fn query_of(turn: Turn<'_>) -> Option<&Query>
    ensures { option_copied result ≡ query_of (turn_of turn.entry) }
{
    match turn {
        Turn::Ask(query) => Some(query),
        Turn::Lease(_) => None,
        Turn::Put(_) => None,
        Turn::Stage(_) => None,
        Turn::Publish => None,
        Turn::Remove(_) => None,
        Turn::Scan => None,
        Turn::Import => None,
        Turn::Adopt => None,
        Turn::Release => None,
        Turn::Collect => None,
    }
}
