//! Laws of the definitions, each the contract of a function that does nothing.
ghost use Rattle.std.specs.Prelude.{Contains, ◌≡◌, ◌<◌, ◌↔◌, ◌∷◌, ◌++◌, [], ℕ, List, length, map, Some, None, slice_get, true, false};
ghost use Rattle.std.specs.List.{AllByRecursion};
ghost use Rattle.ix_types.specs.Name.{IsFileName};
ghost use Rattle.ix_plan.specs.Keeps.{IsAccepted};
ghost use Rattle.ix_machine.specs.declared.event.Event.{Event};
ghost use Rattle.ix_machine.specs.declared.event.Outcome.{Outcome};
ghost use Rattle.ix_machine.specs.declared.event.Outcome.TheVariants.{Removed};
ghost use Rattle.ix_machine.specs.Given.{Given};
ghost use Rattle.ix_machine.specs.Laws.{TakesAway};
ghost use Rattle.ix_machine.specs.Needs.{is_needed, is_protected, seen_at, settled, units_need};
ghost use Rattle.ix_machine.specs.Run.{IsSoundOpening, Leads, MayCall, Opening, Turn};
ghost use Rattle.ix_machine.specs.Sound.{IsSound, StandsWhole};
ghost use Rattle.ix_machine.specs.State.{State};
ghost use Rattle.ix_jobs.specs.Made.{Made};
ghost use Rattle.ix_model.specs.Units.{Units};
ghost use Rattle.ix_answers.specs.Needs.{need_of, next_need};
ghost use Rattle.ix_lanes.specs.Calls.{fresh_in, next_call};
ghost use Rattle.ix_lanes.specs.Progress.{Progress};
ghost use Rattle.ix_lanes.specs.declared.doing.Doing.{Doing};
ghost use Rattle.ix_lanes.specs.declared.doing.Doing.TheVariants.{Begun, Putting, Staged, Importing};
ghost use Rattle.ix_lanes.specs.Tasks.{Task};
ghost use Rattle.ix_lanes.specs.Tasks as task;
ghost use Rattle.ix_replays.specs.Run.{Run, extended, fresh, lanes_of, next_of, progress_of, run_of};
ghost use Rattle.ix_allowed.specs.Agree.{AreTasksOf, IsTaskOf, IsUnderWay, LaneAgrees, LanesAgree};
ghost use Rattle.ix_allowed.specs.Laws.{Comes, IsNeededByNone, Moment};

use ix_plan::Script;
use ix_types::Query;

/// In an accepted script each build's job is valid and whole, and one lane at most polls.
pub fn accepted_scripts_are_ready()
    ensures { (name_of : List ℕ → List ℕ) (script : Script) → ((bytes : List ℕ) → IsFileName (name_of bytes)) → IsAccepted script
        → (poller : ℕ) × AreTasksOf name_of poller (lanes_of name_of script) }
{
    ix_jobs::laws::short_plans_have_room();
    ix_jobs::laws::jobs_are_valid();
    ix_jobs::laws::units_have_what_is_planned();
}

/// Along a run each lane has the lease that its progress says and holds what it says, and an open import is that of the lane that polls, at the mark
/// at which it scanned: before the first event, and from each event to the next.
pub fn lanes_agree_with_the_state()
    ensures begun { (name_of : List ℕ → List ℕ) (poller : ℕ) (script : Script) (opening : Opening) → LanesAgree poller (lanes_of name_of script) (fresh name_of script opening) }
    ensures kept { (name_of : List ℕ → List ℕ) (poller : ℕ) (lanes : List (List Task)) (run longer : Run) (lane : ℕ) (flag : Outcome) → AreTasksOf name_of poller lanes
        → LanesAgree poller lanes run → extended name_of lanes run lane flag ≡ Some longer → LanesAgree poller lanes longer }
    ensures each { (name_of : List ℕ → List ℕ) (poller : ℕ) (lanes : List (List Task)) (run : Run) (lane : ℕ) (tasks : List Task) → AreTasksOf name_of poller lanes
        → LanesAgree poller lanes run → slice_get lanes lane ≡ Some tasks → LaneAgrees run.state lane (progress_of run lane tasks) }
    ensures tasks { (name_of : List ℕ → List ℕ) (poller : ℕ) (lanes : List (List Task)) (run : Run) (lane : ℕ) (tasks : List Task) → AreTasksOf name_of poller lanes
        → slice_get lanes lane ≡ Some tasks → AllByRecursion (IsTaskOf name_of poller lane) (progress_of run lane tasks).tasks }
{
    ix_replays::laws::runs_keep_their_marks();
    ix_replays::laws::an_event_takes_its_own_lane_on();
    ix_replays::laws::lanes_hold_what_the_state_says();
    ix_machine::laws::other_lanes_stay();
    ix_machine::laws::a_run_begins_with_what_is_found();
}

/// What a query needs, what an ask lacks and what an import loads is needed by the units that it is for; and what an import loads isn't needed by the
/// units of the current version.
pub fn what_is_loaded_is_needed()
    ensures query { (query : Query) (units : Units) (name : List ℕ) → Contains (need_of query units) name → units_need name units ≡ true }
    ensures asked { (query : Query) (units : Units) (loaded : List (List ℕ)) (name : List ℕ) → next_need query units loaded ≡ Some name → units_need name units ≡ true }
    ensures imported { (before after : Units) (place : ℕ) (name : List ℕ) → slice_get (fresh_in before after) place ≡ Some name
        → (units_need name after ≡ true) × (units_need name before ≡ false) }
{
    ix_answers::laws::needs_are_those();
    ix_model::laws::answers_are_sorted_sets();
}

/// Where a lane and the state agree, the lane's next call may be made; so may each next call of a run.
pub fn each_call_may_be_made()
    ensures of_a_lane { (name_of : List ℕ → List ℕ) (poller : ℕ) (s : State) (lane : ℕ) (p : Progress) (given : Given) → AllByRecursion (IsTaskOf name_of poller lane) p.tasks
        → LaneAgrees s lane p → next_call (seen_at s) s.current p ≡ Some given → MayCall name_of s lane given }
    ensures of_a_run { (name_of : List ℕ → List ℕ) (poller : ℕ) (lanes : List (List Task)) (run : Run) (lane : ℕ) (given : Given) → AreTasksOf name_of poller lanes
        → LanesAgree poller lanes run → next_of name_of lanes run lane ≡ Some given → MayCall name_of run.state lane given }
{
    what_is_loaded_is_needed();
}

/// A run of an accepted script is a run of the machine, each call of which may be made: over a sound opening its state is sound, and no record that is
/// needed is missing. That holds at each moment of a run: a run that has a value comes to it, and where no lane has a call left it has that value.
pub fn runs_are_the_machines()
    ensures comes { (name_of : List ℕ → List ℕ) (script : Script) (opening : Opening) (order : List ℕ) (flags : List Outcome) (run : Run)
        → run_of name_of script opening order flags ≡ Some run → Comes name_of (lanes_of name_of script) (fresh name_of script opening) order flags run }
    ensures whole { (name_of : List ℕ → List ℕ) (script : Script) (opening : Opening) (order : List ℕ) (flags : List Outcome) (run : Run)
        → Comes name_of (lanes_of name_of script) (fresh name_of script opening) order flags run
        → ((lane : ℕ) → lane < length (lanes_of name_of script) → next_of name_of (lanes_of name_of script) run lane ≡ None) → run_of name_of script opening order flags ≡ Some run }
    ensures agrees { (name_of : List ℕ → List ℕ) (poller : ℕ) (script : Script) (opening : Opening) (order : List ℕ) (flags : List Outcome) (run : Run)
        → AreTasksOf name_of poller (lanes_of name_of script) → Comes name_of (lanes_of name_of script) (fresh name_of script opening) order flags run
        → LanesAgree poller (lanes_of name_of script) run }
    ensures moments { (name_of : List ℕ → List ℕ) (script : Script) (opening : Opening) (order : List ℕ) (flags : List Outcome) (run : Run) (before after : List Event) (event : Event)
        → Comes name_of (lanes_of name_of script) (fresh name_of script opening) order flags run → run.events ≡ before ++ event ∷ after
        → Moment name_of (lanes_of name_of script) (fresh name_of script opening) before event }
    ensures may { (name_of : List ℕ → List ℕ) (script : Script) (opening : Opening) (order : List ℕ) (flags : List Outcome) (run : Run) (lane : ℕ) (given : Given)
        → ((bytes : List ℕ) → IsFileName (name_of bytes)) → IsAccepted script
        → Comes name_of (lanes_of name_of script) (fresh name_of script opening) order flags run
        → next_of name_of (lanes_of name_of script) run lane ≡ Some given → MayCall name_of run.state lane given }
    ensures led { (name_of : List ℕ → List ℕ) (script : Script) (opening : Opening) (order : List ℕ) (flags : List Outcome) (run : Run)
        → ((bytes : List ℕ) → IsFileName (name_of bytes)) → IsAccepted script
        → Comes name_of (lanes_of name_of script) (fresh name_of script opening) order flags run
        → (turns : List Turn) × Leads name_of (fresh name_of script opening).state turns run.state × (map (λ turn. turn.lane) turns ≡ order) × (map (λ turn. turn.flag) turns ≡ flags) }
    ensures sound { (name_of : List ℕ → List ℕ) (script : Script) (opening : Opening) (order : List ℕ) (flags : List Outcome) (run : Run)
        → ((bytes : List ℕ) → IsFileName (name_of bytes)) → IsAccepted script → IsSoundOpening name_of opening
        → Comes name_of (lanes_of name_of script) (fresh name_of script opening) order flags run → IsSound name_of run.state }
    ensures none_missing { (name_of : List ℕ → List ℕ) (script : Script) (opening : Opening) (order : List ℕ) (flags : List Outcome) (run : Run) (name : List ℕ)
        → ((bytes : List ℕ) → IsFileName (name_of bytes)) → IsAccepted script → IsSoundOpening name_of opening
        → Comes name_of (lanes_of name_of script) (fresh name_of script opening) order flags run → is_needed run.state name ≡ true → StandsWhole name_of run.state.records name }
{
    accepted_scripts_are_ready();
    lanes_agree_with_the_state();
    each_call_may_be_made();
    ix_machine::laws::every_state_is_sound();
    ix_machine::laws::needed_records_stand();
}

/// No event of a run that says that a record was removed removes one that a visible unit needs, the current version, the open import, a held version or
/// a lease; it changes no other file, and nothing else but that no change of the units pends any more.
pub fn removals_take_what_nobody_needs()
    ensures removed { (name_of : List ℕ → List ℕ) (script : Script) (opening : Opening) (order : List ℕ) (flags : List Outcome) (run longer : Run) (lane : ℕ) (flag : Outcome) (event : Event) (name : List ℕ)
        → ((bytes : List ℕ) → IsFileName (name_of bytes)) → IsAccepted script → IsSoundOpening name_of opening
        → Comes name_of (lanes_of name_of script) (fresh name_of script opening) order flags run → extended name_of (lanes_of name_of script) run lane flag ≡ Some longer
        → longer.events ≡ run.events ++ event ∷ [] → event.outcome ≡ Removed name
        → IsNeededByNone run.state name × TakesAway name run.state.records longer.state.records × (longer.state ≡ record (settled run.state) { records = longer.state.records }) }
    ensures of_a_run { (name_of : List ℕ → List ℕ) (script : Script) (opening : Opening) (order : List ℕ) (flags : List Outcome) (run : Run) (before after : List Event) (event : Event) (name : List ℕ)
        → ((bytes : List ℕ) → IsFileName (name_of bytes)) → IsAccepted script → IsSoundOpening name_of opening
        → run_of name_of script opening order flags ≡ Some run → run.events ≡ before ++ event ∷ after → event.outcome ≡ Removed name
        → (moment : Moment name_of (lanes_of name_of script) (fresh name_of script opening) before event)
        × IsNeededByNone moment.earlier.state name × TakesAway name moment.earlier.state.records moment.longer.state.records }
    ensures nobody { (s : State) (name : List ℕ) → IsNeededByNone s name ↔ (is_protected (settled s) name ≡ false) }
{
    runs_are_the_machines();
    ix_machine::laws::collects_take_loose_records();
}

/// How far the first task left may be: a build imports nothing, a poll puts and stages nothing, and any other task is as it began.
pub fn tasks_are_so_far()
    ensures build { (job : Made) (tasks : List Task) (mark records : ℕ) → IsUnderWay (task.Build job ∷ tasks) (Importing mark records) → ⊥ }
    ensures builds { (job : Made) (tasks : List Task) (files : ℕ) → IsUnderWay (task.Build job ∷ tasks) Begun × IsUnderWay (task.Build job ∷ tasks) (Putting files) × IsUnderWay (task.Build job ∷ tasks) Staged }
    ensures poll { (tasks : List Task) (files : ℕ) → (IsUnderWay (task.Poll ∷ tasks) (Putting files) → ⊥) × (IsUnderWay (task.Poll ∷ tasks) Staged → ⊥) }
    ensures polls { (tasks : List Task) (mark records : ℕ) → IsUnderWay (task.Poll ∷ tasks) Begun × IsUnderWay (task.Poll ∷ tasks) (Importing mark records) }
    ensures none { (doing : Doing) → IsUnderWay [] doing ↔ (doing ≡ Begun) }
    ensures remove { (output : List ℕ) (tasks : List Task) (doing : Doing) → IsUnderWay (task.Remove output ∷ tasks) doing ↔ (doing ≡ Begun) }
    ensures refresh { (tasks : List Task) (doing : Doing) → IsUnderWay (task.Refresh ∷ tasks) doing ↔ (doing ≡ Begun) }
    ensures ask { (query : Query) (tasks : List Task) (doing : Doing) → IsUnderWay (task.Ask query ∷ tasks) doing ↔ (doing ≡ Begun) }
    ensures release { (tasks : List Task) (doing : Doing) → IsUnderWay (task.Release ∷ tasks) doing ↔ (doing ≡ Begun) }
    ensures collect { (tasks : List Task) (doing : Doing) → IsUnderWay (task.Collect ∷ tasks) doing ↔ (doing ≡ Begun) }
{}
