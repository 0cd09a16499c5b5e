//! The run of a script, event after event.
ghost use Rattle.std.specs.Prelude.{◌≡◌, ◌<◌, ◌^◌, ◌++◌, ◌∷◌, ◌||◌, [], ℕ, Bool, List, Some, IfOk, OnOk, length, map, is_some};
ghost use Rattle.std.specs.List.{AllByRecursion, enumerate_from, list_any, range_with_len};
ghost use Rattle.std.specs.Option.{option_map, option_and_then};
ghost use Rattle.ix_lanes.specs.Calls.{call_for, next_call, next_turn};
ghost use Rattle.ix_lanes.specs.Progress.{progress_after};
ghost use Rattle.ix_lanes.specs.Rules.{IsReady};
ghost use Rattle.ix_lanes.specs.Tasks.{tasks_of};
ghost use Rattle.ix_lanes.specs.TurnView.{turn_of};
ghost use Rattle.ix_machine.specs.Given.{Given, given_of};
ghost use Rattle.ix_machine.specs.Needs.{seen_at};
ghost use Rattle.ix_machine.specs.PlainOpened.{opening_of};
ghost use Rattle.ix_machine.specs.PlainState.{answered};
ghost use Rattle.ix_machine.specs.Step.{step};
ghost use Rattle.ix_model.specs.Units.{units_at};
ghost use Rattle.ix_plan.specs.Keeps.{IsAccepted};
ghost use Rattle.ix_plan.specs.declared.plan.Script.{Script};
ghost use Rattle.ix_replays.specs.Run.{Run, extended, own_events, fresh, has_call, lanes_of, progress_of, run_from, run_of, transcript_of};
ghost use Rattle.ix_model_run.specs.Importing.{IsImport};
ghost use Rattle.ix_model_run.specs.Kept.{kept_after};
ghost use Rattle.ix_model_run.specs.Standing.{GoesOn, IsAt, Ran, Standing, by_call, tasks_of_each};

use crate::known::Known;
use crate::next::{ask_next, has_call, import_next};
use crate::progress::{Place, place_of};
use ix_lanes::{Answered, Turn};
use ix_machine::{Call, Event, Given, Machine, Opened, Outcome, Purpose, Refused};
use ix_plan::{Script, Step};
use ix_replays::Transcript;
use ix_types::{Memory, Naming, Seq};
use std::alloc::Global;
use std::marker::Model;

/// The transcript of the script's run over what opening found, in the order of lanes and with the flags that are given; None exactly where that run has no
/// value: where order and flags differ in length, where the order names a lane that has ended or isn't there, where a call doesn't allow its flag, or where a
/// lane has a call left. It is worked out as it is defined, so it takes long: each lane is taken from its begin to where it is at each of its events.
pub fn model_run<N: Naming>(
    alloc: Global,
    script: &Script,
    opened: &Opened,
    naming: &N,
    order: &Seq<u32>,
    flags: &Seq<Outcome>,
) -> Result<Option<Transcript>, Memory>
    requires { IsAccepted script.now }
    ensures { IfOk result (λ shown. shown ≡ option_map (transcript_of N.name_of script.now (opening_of opened.now)) (run_of N.name_of script.now (opening_of opened.now) order.now flags.now)) }
{
    ix_lanes::laws::steps_are_ready();
    let lanes = script.lanes.as_slice();
    let mut rerun = Rerun::new(alloc, opened, lanes.len() as u32)?;
    if !rerun.run(naming, lanes, order.as_slice(), flags.as_slice())? {
        return Ok(None);
    }
    if rerun.has_call(naming, lanes)? {
        return Ok(None);
    }
    Ok(Some(rerun.into_transcript(naming, lanes, opened)?))
}

/// The events so far, the machine, and what is kept beside it.
#[derive(Debug, Drop)]
struct Rerun {
    alloc: Global,
    events: Vec<Event>,
    machine: Machine,
    known: Known,
}

impl Model for Rerun {
    ghost use Rattle.ix_model_run.specs.Standing.{Standing};

    ghost Value = { Standing };

    ghost view = { λ r. record { events = r.events.items; state = r.machine; kept = r.known } };
}

impl Rerun {
    /// Before the first event.
    fn new(alloc: Global, opened: &Opened, lanes: u32) -> Result<Rerun, Memory>
        ensures { (name_of : List ℕ → List ℕ) (script : Script) → lanes ≡ length script.lanes → IfOk result (IsAt (fresh name_of script (opening_of opened.now))) }
    {
        Ok(Rerun {
            alloc,
            events: Vec::new(alloc),
            machine: Machine::new(alloc, opened, lanes)?,
            known: Known::new(alloc, opened, lanes)?,
        })
    }

    /// Takes the turns in this order and with these flags. Answers false where the run has no value.
    fn run<N: Naming>(
        &mut self,
        naming: &N,
        lanes: &[Seq<Step>],
        order: &[u32],
        flags: &[Outcome],
    ) -> Result<bool, Memory>
        requires { AllByRecursion (AllByRecursion IsReady) lanes.now }
        ensures { (run : Run) → IsAt run self.old → IfOk result (λ ran. Ran N.name_of (tasks_of_each N.name_of lanes.now) self.new ran (run_from N.name_of (tasks_of_each N.name_of lanes.now) run order.now flags.now)) }
    {
        if order.len() != flags.len() {
            return Ok(false);
        }
        for i in 0..order.len() {
            if !self.extend(naming, lanes, order[i], flags[i])? {
                return Ok(false);
            }
        }
        Ok(true)
    }

    /// The lane makes its next call, with this flag. Answers false where it has none, or where the call doesn't allow the flag.
    fn extend<N: Naming>(
        &mut self,
        naming: &N,
        lanes: &[Seq<Step>],
        lane: u32,
        flag: Outcome,
    ) -> Result<bool, Memory>
        requires { AllByRecursion (AllByRecursion IsReady) lanes.now }
        ensures { (run : Run) → IsAt run self.old → IfOk result (λ made. GoesOn self.new made (extended N.name_of (tasks_of_each N.name_of lanes.now) run lane flag)) }
    {
        match lanes.get(lane as usize) {
            None => Ok(false),
            Some(steps) => {
                let place = self.place(naming, steps, lane)?;
                self.step(naming, lane, &place, flag)
            }
        }
    }

    /// How far a lane with these steps is.
    fn place<N: Naming>(&self, naming: &N, steps: &Seq<Step>, lane: u32) -> Result<Place, Memory>
        requires { AllByRecursion IsReady steps.now }
        ensures progress { (run : Run) → IsAt run self.now → IfOk result (λ place. place.lane.progress ≡ progress_of run lane (tasks_of N.name_of steps.now)) }
        ensures import { IfOk result (λ place. IsImport place.lane.progress place.import) }
    {
        self.place_now(naming, steps, lane)
    }

    /// The same, by the events and the publications that are kept.
    fn place_now<N: Naming>(
        &self,
        naming: &N,
        steps: &Seq<Step>,
        lane: u32,
    ) -> Result<Place, Memory>
        requires { AllByRecursion IsReady steps.now }
        ensures progress { IfOk result (λ place. place.lane.progress ≡ progress_after (units_at self.now.kept.publications) (tasks_of N.name_of steps.now) (own_events lane self.now.events)) }
        ensures import { IfOk result (λ place. IsImport place.lane.progress place.import) }
    {
        place_of(
            self.alloc,
            naming,
            &self.known.publications,
            steps,
            lane,
            &self.events,
        )
    }

    /// A lane that is so far makes its next call.
    fn step<N: Naming>(
        &mut self,
        naming: &N,
        lane: u32,
        place: &Place,
        flag: Outcome,
    ) -> Result<bool, Memory>
        requires { IsImport place.now.lane.progress place.now.import }
        ensures { (run : Run) → IsAt run self.old → IfOk result (λ made. GoesOn self.new made (by_call N.name_of run lane flag (next_call (seen_at run.state) run.state.current place.now.lane.progress))) }
    {
        match place.lane.next() {
            None => Ok(false),
            Some(turn) => self.take(naming, lane, place, turn, flag),
        }
    }

    /// A lane that is so far takes its turn.
    fn take<N: Naming>(
        &mut self,
        naming: &N,
        lane: u32,
        place: &Place,
        turn: Turn<'_>,
        flag: Outcome,
    ) -> Result<bool, Memory>
        requires turn { next_turn place.now.lane.progress ≡ Some (turn_of turn) }
        requires import { IsImport place.now.lane.progress place.now.import }
        ensures { (run : Run) → IsAt run self.old → IfOk result (λ made. GoesOn self.new made (by_call N.name_of run lane flag (call_for (seen_at run.state) run.state.current place.now.lane.progress (turn_of turn.entry)))) }
    {
        match turn {
            Turn::Lease(names) => self.call(naming, lane, &Given::Lease(names), flag),
            Turn::Put(body) => self.call(naming, lane, &Given::Put(body), flag),
            Turn::Stage(unit) => self.call(naming, lane, &Given::Stage(unit), flag),
            Turn::Publish => self.call(naming, lane, &Given::Publish, flag),
            Turn::Remove(output) => self.call(naming, lane, &Given::Remove(output), flag),
            Turn::Scan => self.call(naming, lane, &Given::Scan, flag),
            Turn::Import => match import_next(self.alloc, &self.known, place.import)? {
                Some(name) => { self.call(naming, lane, &Given::Load(name, Purpose::Import), flag) }
                None => self.call(naming, lane, &Given::Install, flag),
            },
            Turn::Adopt => self.call(naming, lane, &Given::Adopt, flag),
            Turn::Release => self.call(naming, lane, &Given::Release, flag),
            Turn::Collect => self.call(naming, lane, &Given::Collect, flag),
            Turn::Ask(query) => match ask_next(self.alloc, &self.known, query, &place.lane)? {
                Some(name) => self.call(naming, lane, &Given::Load(name, Purpose::Ask), flag),
                None => Ok(false),
            },
        }
    }

    /// Makes a call of the lane.
    fn call<N: Naming>(
        &mut self,
        naming: &N,
        lane: u32,
        given: &Given<'_>,
        flag: Outcome,
    ) -> Result<bool, Memory>
        ensures { (run : Run) → IsAt run self.old → IfOk result (λ made. GoesOn self.new made (by_call N.name_of run lane flag (Some (given_of given.now)))) }
    {
        let call = match self.known.call_in(self.alloc, naming, lane, given)? {
            Some(call) => call,
            None => return Ok(false),
        };
        match made(&mut self.machine, naming, lane, given, flag)? {
            Some(outcome) => {
                self.note(naming, lane, given, call, outcome)?;
                Ok(true)
            }
            None => Ok(false),
        }
    }

    /// Notes the call that was made, and how it ended.
    fn note<N: Naming>(
        &mut self,
        naming: &N,
        lane: u32,
        given: &Given<'_>,
        call: Call,
        outcome: Outcome,
    ) -> Result<(), Memory>
        ensures events { OnOk result (self.new.events ≡ self.old.events ++ (record { lane = lane; call = call; outcome = outcome }) ∷ []) }
        ensures state { self.new.state ≡ self.old.state }
        ensures kept { OnOk result (self.new.kept ≡ kept_after N.name_of lane (given_of given.now) outcome self.old.kept) }
    {
        self.known
            .follow(self.alloc, naming, lane, given, &outcome)?;
        self.events.push(Event {
            lane,
            call,
            outcome,
        })?;
        Ok(())
    }

    /// Whether some lane has a call left.
    fn has_call<N: Naming>(&self, naming: &N, lanes: &[Seq<Step>]) -> Result<bool, Memory>
        requires lanes { length lanes.now < 2 ^ 32 }
        requires ready { AllByRecursion (AllByRecursion IsReady) lanes.now }
        ensures { (run : Run) → IsAt run self.now → IfOk result (λ has. has ≡ list_any (has_call N.name_of (tasks_of_each N.name_of lanes.now) run) (range_with_len 0 (length lanes.now))) }
    {
        let mut has = false;
        for lane in 0..lanes.len() {
            has = either(has, self.lane_has_call(naming, &lanes[lane], lane as u32)?);
        }
        Ok(has)
    }

    /// Whether a lane with these steps has a call left.
    fn lane_has_call<N: Naming>(
        &self,
        naming: &N,
        steps: &Seq<Step>,
        lane: u32,
    ) -> Result<bool, Memory>
        requires { AllByRecursion IsReady steps.now }
        ensures { (run : Run) → IsAt run self.now → IfOk result (λ has. has ≡ is_some (next_call (seen_at run.state) run.state.current (progress_of run lane (tasks_of N.name_of steps.now)))) }
    {
        let place = self.place(naming, steps, lane)?;
        has_call(self.alloc, &self.known, &place)
    }

    /// What the run shows.
    fn into_transcript<N: Naming>(
        self,
        naming: &N,
        lanes: &[Seq<Step>],
        opened: &Opened,
    ) -> Result<Transcript, Memory>
        requires lanes { length lanes.now < 2 ^ 32 }
        requires ready { AllByRecursion (AllByRecursion IsReady) lanes.now }
        ensures { (run : Run) (script : Script) → IsAt run self → lanes.now ≡ script.lanes → IfOk result (λ transcript. transcript ≡ transcript_of N.name_of script (opening_of opened.now) run) }
    {
        let answers = self.answers(naming, lanes)?;
        let refused = refused_of(self.alloc, opened.refused.as_slice())?;
        let Rerun {
            alloc: _,
            events,
            machine: _,
            known: _,
        } = self;
        Ok(Transcript {
            refused,
            events: Seq::of(events),
            answers,
        })
    }

    /// What the asks of a lane with these steps answered.
    fn lane_answers<N: Naming>(
        &self,
        naming: &N,
        steps: &Seq<Step>,
        lane: u32,
    ) -> Result<Seq<Answered>, Memory>
        requires { AllByRecursion IsReady steps.now }
        ensures { (run : Run) → IsAt run self.now → IfOk result (λ answers. answers ≡ (progress_of run lane (tasks_of N.name_of steps.now)).answers) }
    {
        let place = self.place(naming, steps, lane)?;
        Ok(place.lane.into_answers())
    }

    /// What the asks of each lane answered.
    fn answers<N: Naming>(
        &self,
        naming: &N,
        lanes: &[Seq<Step>],
    ) -> Result<Seq<Seq<Answered>>, Memory>
        requires lanes { length lanes.now < 2 ^ 32 }
        requires ready { AllByRecursion (AllByRecursion IsReady) lanes.now }
        ensures { (run : Run) → IsAt run self.now → IfOk result (λ answers. answers ≡ map (λ lane. (progress_of run lane.0 lane.1).answers) (enumerate_from 0 (tasks_of_each N.name_of lanes.now))) }
    {
        let mut answers = Vec::new(self.alloc);
        for lane in 0..lanes.len() {
            answers.push(self.lane_answers(naming, &lanes[lane], lane as u32)?)?;
        }
        Ok(Seq::of(answers))
    }
}

/// Whether one of the two holds.
fn either(a: bool, b: bool) -> bool
    ensures { result ≡ (a || b) }
{
    a || b
}

/// Makes a call of the machine; None where it doesn't allow the flag.
fn made<N: Naming>(
    machine: &mut Machine,
    naming: &N,
    lane: u32,
    given: &Given<'_>,
    flag: Outcome,
) -> Result<Option<Outcome>, Memory>
    ensures { IfOk result (λ outcome. (outcome, machine.new) ≡ answered machine.old (step N.name_of machine.old lane (given_of given.now) flag)) }
{
    match given {
        Given::Lease(names) => machine.step(naming, lane, Given::Lease(names), &flag),
        Given::Put(body) => machine.step(naming, lane, Given::Put(body), &flag),
        Given::Stage(unit) => machine.step(naming, lane, Given::Stage(unit), &flag),
        Given::Publish => machine.step(naming, lane, Given::Publish, &flag),
        Given::Remove(output) => machine.step(naming, lane, Given::Remove(output), &flag),
        Given::Scan => machine.step(naming, lane, Given::Scan, &flag),
        Given::Load(name, purpose) => {
            machine.step(naming, lane, Given::Load(*name, *purpose), &flag)
        }
        Given::Install => machine.step(naming, lane, Given::Install, &flag),
        Given::Adopt => machine.step(naming, lane, Given::Adopt, &flag),
        Given::Release => machine.step(naming, lane, Given::Release, &flag),
        Given::Collect => machine.step(naming, lane, Given::Collect, &flag),
    }
}

/// The refused units once more.
fn refused_of(alloc: Global, refused: &[Refused]) -> Result<Seq<Refused>, Memory>
    ensures { IfOk result (λ copy. copy ≡ refused.now) }
{
    let copy = Vec::from_slice(alloc, refused)?;
    Ok(Seq::of(copy))
}
