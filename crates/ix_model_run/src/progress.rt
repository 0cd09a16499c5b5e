//! How far a lane is, by its own events.
ghost use Rattle.std.specs.Prelude.{◌≡◌, None, Some, if◌then◌else◌, find, is_none, option_and_then, suc, IfOk, OnOk};
ghost use Rattle.std.specs.List.{AllByRecursion};
ghost use Rattle.std.specs.Option.{option_copied};
ghost use Rattle.ix_answers.specs.Answers.{answer};
ghost use Rattle.ix_lanes.specs.declared.answered.AskResult.TheVariants as AskResult;
ghost use Rattle.ix_lanes.specs.TurnView.{turn_of};
ghost use Rattle.ix_lookups.specs.Loaded.{body_named};
ghost use Rattle.ix_answers.specs.Needs.{lacking_of, next_need};
ghost use Rattle.ix_answers.specs.Lookups.{is_among};
ghost use Rattle.ix_lanes.specs.Progress.{Progress, is_asking, loaded_by, ended_at, settled, noted, after_event, progress_after};
ghost use Rattle.ix_machine.specs.Outcomes.{is_done};
ghost use Rattle.ix_lanes.specs.Progress as progress;
ghost use Rattle.ix_lanes.specs.Rules.{IsReady};
ghost use Rattle.ix_lanes.specs.Tasks.{tasks_of};
ghost use Rattle.ix_lanes.specs.Views.{rising_names};
ghost use Rattle.ix_model.specs.Units.{units_at};
ghost use Rattle.ix_replays.specs.Run.{own_events};
ghost use Rattle.ix_model_run.specs.Settling.{asked, ends, given_by, query_of};
ghost use Rattle.ix_model_run.specs.Importing.{IsImport, import_after};

use crate::seen::seen_at;
use ix_answers::{answer, need_of};
use ix_lanes::{AskResult, Lane, Turn};
use ix_lookups::Bodies;
use ix_machine::{Call, Event, Outcome};
use ix_model::{Publication, StoredUnit};
use ix_plan::Step;
use ix_record::RecordValue;
use ix_types::{FileName, Format, Memory, Naming, Query, Seq};
use std::alloc::Global;
use std::collections::BTreeMap;
use std::sync::Arc;

/// The mark of a poll's import, and how many of its records are loaded.
#[derive(Clone, Copy, Debug)]
pub(crate) struct Import {
    pub mark: u64,
    pub records: u64,
}

/// A lane, and the import of its poll where one is under way.
#[derive(Debug, Drop)]
pub(crate) struct Place {
    pub lane: Lane,
    pub import: Import,
}

/// The query of the ask under way; None where none is.
fn asked(lane: &Lane) -> Option<&Query>
    ensures { option_copied result ≡ asked lane.now.progress }
{
    match lane.next() {
        None => None,
        Some(turn) => query_of(turn),
    }
}

/// The query of a turn that is an ask.
fn query_of(turn: Turn<'_>) -> Option<&Query>
    ensures { option_copied result ≡ query_of (turn_of turn.entry) }
{
    match turn {
        Turn::Ask(query) => Some(query),
        Turn::Lease(_) => None,
        Turn::Put(_) => None,
        Turn::Stage(_) => None,
        Turn::Publish => None,
        Turn::Remove(_) => None,
        Turn::Scan => None,
        Turn::Import => None,
        Turn::Adopt => None,
        Turn::Release => None,
        Turn::Collect => None,
    }
}

/// The first of the names under which no body is loaded.
fn first_lacking(needed: &[FileName], bodies: &Bodies) -> Option<FileName>
    ensures { result ≡ find (λ name. is_none (body_named name bodies.now)) needed.now }
{
    needed
        .iter()
        .copied()
        .find(|name| bodies.get(name).is_none())
}

/// The first record that a query needs over the units and that the lane didn't load.
fn lacking(
    alloc: Global,
    query: &Query,
    units: &BTreeMap<FileName, StoredUnit>,
    lane: &Lane,
) -> Result<Option<FileName>, Memory>
    ensures { IfOk result (λ name. name ≡ next_need query.now units.now.entries lane.now.progress.loaded) }
{
    ix_model::laws::answers_are_sorted_sets();
    ix_lookups::laws::loaded_names_have_bodies();
    let needed = need_of(alloc, query, units)?;
    Ok(first_lacking(needed.as_slice(), lane.bodies()))
}

/// The record that an ask of the lane lacks next; None where it lacks none, or where nothing is held.
pub(crate) fn lacking_at(
    alloc: Global,
    publications: &[Publication],
    query: &Query,
    lane: &Lane,
) -> Result<Option<FileName>, Memory>
    ensures { IfOk result (λ name. name ≡ option_and_then (λ mark. next_need query.now (units_at publications.now mark) lane.now.progress.loaded) lane.now.progress.held) }
{
    match lane.held() {
        None => Ok(None),
        Some(mark) => lacking(alloc, query, &seen_at(alloc, publications, mark)?, lane),
    }
}

/// How an ask of the lane ends without a further load; None where a record is lacking.
fn ended_at(
    alloc: Global,
    publications: &[Publication],
    query: &Query,
    lane: &Lane,
) -> Result<Option<AskResult>, Memory>
    ensures { IfOk result (λ ended. ended ≡ ended_at (units_at publications.now) query.now lane.now.progress.held lane.now.progress.loaded) }
{
    match lane.held() {
        None => Ok(Some(AskResult::NoneHeld)),
        Some(mark) => ended_over(alloc, query, &seen_at(alloc, publications, mark)?, lane),
    }
}

/// The answer over the units, where the lane lacks no record; else None.
fn ended_over(
    alloc: Global,
    query: &Query,
    units: &BTreeMap<FileName, StoredUnit>,
    lane: &Lane,
) -> Result<Option<AskResult>, Memory>
    ensures { IfOk result (λ ended. ended ≡ (if is_none (next_need query.now units.now.entries lane.now.progress.loaded) then Some (AskResult.Rows (answer query.now units.now.entries)) else None)) }
{
    if lacking(alloc, query, units, lane)?.is_some() {
        return Ok(None);
    }
    Ok(Some(AskResult::Rows(answer(alloc, query, units)?)))
}

/// How the ask under way ends without a further load; None where a record is lacking, or where no ask is under way.
fn ends(
    alloc: Global,
    publications: &[Publication],
    lane: &Lane,
) -> Result<Option<AskResult>, Memory>
    ensures { IfOk result (λ ended. ended ≡ ends (units_at publications.now) lane.now.progress) }
{
    match asked(lane) {
        None => Ok(None),
        Some(query) => ended_at(alloc, publications, query, lane),
    }
}

/// Answers the asks in front that lack no record. No lane has more of them than a u64 counts.
fn settle(alloc: Global, publications: &[Publication], lane: &mut Lane) -> Result<(), Memory>
    ensures { OnOk result (lane.new.progress ≡ settled (units_at publications.now) lane.old.progress) }
{
    for _ask in 0..u64::MAX {
        let next = ends(alloc, publications, lane)?;
        match next {
            None => return Ok(()),
            Some(ended) => lane.answered(ended),
        }
    }
    Err(Memory)
}

/// The record that an event gives the ask under way.
fn given_by(lane: &Lane, event: &Event) -> Option<FileName>
    ensures { result ≡ given_by event.now lane.now.progress }
{
    if asked(lane).is_none() {
        return None;
    }
    match event.outcome {
        Outcome::Done => loaded_by(&event.call),
        _ => None,
    }
}

/// The record that a load gave.
fn loaded_by(call: &Call) -> Option<FileName>
    ensures { result ≡ loaded_by call.now }
{
    match call {
        Call::Load { name } => Some(*name),
        Call::Lease { .. } => None,
        Call::Put { .. } => None,
        Call::Stage { .. } => None,
        Call::Publish { .. } => None,
        Call::Remove { .. } => None,
        Call::Scan => None,
        Call::Install => None,
        Call::Adopt => None,
        Call::Release => None,
        Call::Collect => None,
    }
}

/// An ask notes what it loaded. Answers are worked out from the units, so the record itself isn't kept.
fn note(alloc: Global, lane: &mut Lane, event: &Event) -> Result<(), Memory>
    ensures { OnOk result (lane.new.progress ≡ noted event.now lane.old.progress) }
{
    match given_by(lane, event) {
        None => Ok(()),
        Some(name) => {
            lane.reserve()?;
            lane.loaded(name, no_record(alloc)?);
            Ok(())
        }
    }
}

/// A record of nothing.
fn no_record(alloc: Global) -> Result<Arc<RecordValue>, Memory> {
    let record = RecordValue {
        format: Format::One,
        symbols: Seq::of(Vec::new(alloc)),
        occurrences: Seq::of(Vec::new(alloc)),
    };
    Ok(Arc::new(alloc, record)?)
}

/// The import behind a call that ended so.
fn import_after(import: Import, outcome: Outcome) -> Result<Import, Memory>
    ensures { IfOk result (λ after. after ≡ import_after outcome import) }
{
    match outcome {
        Outcome::Done => Ok(Import {
            mark: import.mark,
            records: one_more(import.records)?,
        }),
        Outcome::At { mark } => Ok(Import { mark, records: 0 }),
        _ => Ok(import),
    }
}

/// The next count.
fn one_more(count: u64) -> Result<u64, Memory>
    ensures { IfOk result (λ more. more ≡ suc count) }
{
    if count < u64::MAX {
        Ok(count + 1)
    } else {
        Err(Memory)
    }
}

/// One event more of the lane's own.
fn follow(
    alloc: Global,
    publications: &[Publication],
    place: &mut Place,
    event: &Event,
) -> Result<(), Memory>
    ensures progress { OnOk result (place.new.lane.progress ≡ after_event (units_at publications.now) place.old.lane.progress event.now) }
    ensures import { IsImport place.old.lane.progress place.old.import → OnOk result (IsImport place.new.lane.progress place.new.import) }
{
    note(alloc, &mut place.lane, event)?;
    if !place.lane.counts_on() {
        return Err(Memory);
    }
    place.import = import_after(place.import, event.outcome)?;
    place.lane.told(event.outcome);
    settle(alloc, publications, &mut place.lane)
}

/// How far a lane with these steps is behind its own of the events.
pub(crate) fn place_of<N: Naming>(
    alloc: Global,
    naming: &N,
    publications: &[Publication],
    steps: &Seq<Step>,
    lane: u32,
    events: &[Event],
) -> Result<Place, Memory>
    requires { AllByRecursion IsReady steps.now }
    ensures progress { IfOk result (λ place. place.lane.progress ≡ progress_after (units_at publications.now) (tasks_of N.name_of steps.now) (own_events lane events.now)) }
    ensures import { IfOk result (λ place. IsImport place.lane.progress place.import) }
{
    let mut place = begun(alloc, naming, publications, steps)?;
    for event in events {
        if event.lane == lane {
            follow(alloc, publications, &mut place, event)?;
        }
    }
    Ok(place)
}

/// A lane with these steps before its first call.
fn begun<N: Naming>(
    alloc: Global,
    naming: &N,
    publications: &[Publication],
    steps: &Seq<Step>,
) -> Result<Place, Memory>
    requires { AllByRecursion IsReady steps.now }
    ensures progress { IfOk result (λ place. place.lane.progress ≡ settled (units_at publications.now) (progress.begun (tasks_of N.name_of steps.now))) }
    ensures import { IfOk result (λ place. IsImport place.lane.progress place.import) }
{
    let mut lane = Lane::new(alloc, steps, naming)?;
    settle(alloc, publications, &mut lane)?;
    Ok(Place {
        lane,
        import: Import {
            mark: 0,
            records: 0,
        },
    })
}
