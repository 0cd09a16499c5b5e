//! What a lane loads next, and whether it has a call left.
ghost use Rattle.std.specs.Prelude.{◌≡◌, ℕ, IfOk, slice_get, is_some, true};
ghost use Rattle.std.specs.Option.{option_map, option_and_then};
ghost use Rattle.ix_answers.specs.Needs.{next_need};
ghost use Rattle.ix_lanes.specs.Calls.{call_for, fresh_in, next_call, next_turn};
ghost use Rattle.ix_lanes.specs.TurnView.{turn_of};
ghost use Rattle.ix_model.specs.Units.{units_at};
ghost use Rattle.ix_model_run.specs.Importing.{IsImport};

use crate::known::Known;
use crate::progress::{Import, Place, lacking_at};
use crate::seen::{fresh_in, seen_at};
use ix_lanes::{Lane, Turn};
use ix_types::{FileName, Memory, Query};
use std::alloc::Global;

/// The record that an import loads next; None where it is to be installed.
pub(crate) fn import_next(
    alloc: Global,
    known: &Known,
    import: Import,
) -> Result<Option<FileName>, Memory>
    ensures { IfOk result (λ name. name ≡ slice_get (fresh_in (units_at known.now.publications known.now.current) (units_at known.now.publications import.mark)) import.records) }
{
    let before = seen_at(alloc, &known.publications, known.current)?;
    let after = seen_at(alloc, &known.publications, import.mark)?;
    let fresh = fresh_in(alloc, &before, &after)?;
    Ok(fresh.get(import.records as usize).copied())
}

/// The record that an ask loads next; None where it lacks none, or where nothing is held.
pub(crate) fn ask_next(
    alloc: Global,
    known: &Known,
    query: &Query,
    lane: &Lane,
) -> Result<Option<FileName>, Memory>
    ensures { IfOk result (λ name. name ≡ option_and_then (λ mark. next_need query.now (units_at known.now.publications mark) lane.now.progress.loaded) lane.now.progress.held) }
{
    lacking_at(alloc, &known.publications, query, lane)
}

/// Whether the lane has a call left.
pub(crate) fn has_call(alloc: Global, known: &Known, place: &Place) -> Result<bool, Memory>
    ensures { IsImport place.now.lane.progress place.now.import
        → IfOk result (λ has. has ≡ is_some (next_call (units_at known.now.publications) known.now.current place.now.lane.progress)) }
{
    match place.lane.next() {
        None => Ok(false),
        Some(turn) => is_call(alloc, known, &place.lane, turn),
    }
}

/// Whether the lane's turn is a call.
fn is_call(alloc: Global, known: &Known, lane: &Lane, turn: Turn<'_>) -> Result<bool, Memory>
    ensures { next_turn lane.now.progress ≡ Some (turn_of turn.entry)
        → IfOk result (λ is. is ≡ is_some (call_for (units_at known.now.publications) known.now.current lane.now.progress (turn_of turn.entry))) }
{
    match turn {
        Turn::Ask(query) => Ok(ask_next(alloc, known, query, lane)?.is_some()),
        Turn::Lease(_) => Ok(true),
        Turn::Put(_) => Ok(true),
        Turn::Stage(_) => Ok(true),
        Turn::Publish => Ok(true),
        Turn::Remove(_) => Ok(true),
        Turn::Scan => Ok(true),
        Turn::Import => Ok(true),
        Turn::Adopt => Ok(true),
        Turn::Release => Ok(true),
        Turn::Collect => Ok(true),
    }
}
