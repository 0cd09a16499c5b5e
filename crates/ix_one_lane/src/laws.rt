//! Laws of the definitions, each the contract of a function that does nothing.
ghost use Rattle.std.specs.Prelude.{◌≡◌, ◌≢◌, ◌⊎◌, ◌∷◌, ◌++◌, [], ℕ, Contains, List, length, Some, None, slice_get};
ghost use Rattle.std.specs.List.{AllByRecursion, AllZip};
ghost use Rattle.ix_types.specs.Name.{IsFileName};
ghost use Rattle.ix_types.specs.declared.row.OccRow.{OccRow};
ghost use Rattle.ix_record.specs.declared.body.Body.{Body};
ghost use Rattle.ix_record.specs.Spelling.{RecordSpelling};
ghost use Rattle.ix_model.specs.declared.publication.StoredUnit.{StoredUnit};
ghost use Rattle.ix_model.specs.Rows.{rows, rows_of_unit};
ghost use Rattle.ix_model.specs.Units.{Units, unit_named};
ghost use Rattle.ix_answers.specs.Answers.{answer};
ghost use Rattle.ix_plan.specs.declared.plan.Script.{Script};
ghost use Rattle.ix_plan.specs.Keeps.{IsAccepted};
ghost use Rattle.ix_plan.specs.declared.plan.Step.TheVariants.{Build, Poll, Ask};
ghost use Rattle.ix_machine.specs.declared.event.Event.{Event};
ghost use Rattle.ix_machine.specs.declared.event.Outcome.{Outcome};
ghost use Rattle.ix_machine.specs.declared.event.Call.TheVariants as call;
ghost use Rattle.ix_machine.specs.declared.event.Outcome.TheVariants.{Done, Clash, Synced};
ghost use Rattle.ix_machine.specs.Listed.{Lists};
ghost use Rattle.ix_machine.specs.Needs.{visible};
ghost use Rattle.ix_machine.specs.Run.{IsSoundOpening, Opening};
ghost use Rattle.ix_jobs.specs.Made.{Made, made_of};
ghost use Rattle.ix_lanes.specs.declared.answered.AskResult.TheVariants.{Rows};
ghost use Rattle.ix_lanes.specs.declared.doing.Doing.TheVariants.{Begun, Staged};
ghost use Rattle.ix_lanes.specs.Laws.{asks_of};
ghost use Rattle.ix_lanes.specs.Tasks.{Task, tasks_of};
ghost use Rattle.ix_lanes.specs.Tasks as task;
ghost use Rattle.ix_replays.specs.Run.{Run, extended, fresh, lanes_of, next_of, progress_of, run_of};
ghost use Rattle.ix_allowed.specs.Laws.{Comes, Moment};
ghost use Rattle.ix_one_lane.specs.Sees.{AsksSeeBuild, HaveBuilt, NoneFailed, answer_now, one_lane};

use crate::given::given;
use ix_plan::{Step, UnitPlan};
use ix_types::Query;

/// In a run of one lane a build that doesn't clash leaves its unit visible, with the values that its job's files spell.
pub fn builds_are_visible()
    ensures { (name_of : List ℕ → List ℕ) (steps : List Step) (turns : List ℕ) (opening : Opening) (order : List ℕ) (flags : List Outcome) (run longer : Run) (lane : ℕ) (event : Event) (job : Made) (behind : List Task)
        → ((bytes : List ℕ) → IsFileName (name_of bytes)) → IsAccepted (one_lane steps turns) → IsSoundOpening name_of opening → NoneFailed flags
        → Comes name_of (tasks_of name_of steps ∷ []) (fresh name_of (one_lane steps turns) opening) order flags run
        → extended name_of (tasks_of name_of steps ∷ []) run lane Done ≡ Some longer → longer.events ≡ run.events ++ event ∷ []
        → (progress_of run 0 (tasks_of name_of steps)).tasks ≡ task.Build job ∷ behind → (progress_of run 0 (tasks_of name_of steps)).doing ≡ Staged
        → event.outcome ≢ Clash → HaveBuilt name_of job (visible longer.state) }
{
    given();
}

/// In a run of one lane an ask behind a poll is answered over the units that are visible where the poll begins.
pub fn asks_see_what_is_visible()
    ensures { (name_of : List ℕ → List ℕ) (steps : List Step) (turns : List ℕ) (opening : Opening) (order later : List ℕ) (flags more : List Outcome) (run end : Run) (query : Query) (behind : List Task)
        → ((bytes : List ℕ) → IsFileName (name_of bytes)) → IsAccepted (one_lane steps turns) → NoneFailed more
        → Comes name_of (tasks_of name_of steps ∷ []) (fresh name_of (one_lane steps turns) opening) order flags run
        → Comes name_of (tasks_of name_of steps ∷ []) run later more end → next_of name_of (tasks_of name_of steps ∷ []) end 0 ≡ None
        → (progress_of run 0 (tasks_of name_of steps)).tasks ≡ task.Poll ∷ task.Ask query ∷ behind → (progress_of run 0 (tasks_of name_of steps)).doing ≡ Begun
        → slice_get (progress_of end 0 (tasks_of name_of steps)).answers (length (progress_of run 0 (tasks_of name_of steps)).answers) ≡ Some (answer_now query run.state) }
{
    given();
}

/// With one lane and no call that fails, an ask behind a build and a poll sees that build's rows.
pub fn asks_see_builds()
    ensures { (name_of : List ℕ → List ℕ) (before behind : List Step) (plan : UnitPlan) (query : Query) (turns : List ℕ) (opening : Opening) (order : List ℕ) (flags : List Outcome) (run : Run)
        → ((bytes : List ℕ) → IsFileName (name_of bytes)) → IsAccepted (one_lane (before ++ Build plan ∷ Poll ∷ Ask query ∷ behind) turns) → IsSoundOpening name_of opening → NoneFailed flags
        → run_of name_of (one_lane (before ++ Build plan ∷ Poll ∷ Ask query ∷ behind) turns) opening order flags ≡ Some run
        → AsksSeeBuild name_of (tasks_of name_of (before ++ Build plan ∷ Poll ∷ Ask query ∷ behind)) (fresh name_of (one_lane (before ++ Build plan ∷ Poll ∷ Ask query ∷ behind) turns) opening) run
        (made_of name_of plan) query (tasks_of name_of behind) (length (asks_of (tasks_of name_of before))) }
{
    given();
}

/// What a build that is visible has: its unit stands under the name of its output path, and to each of its records belongs, in order, a value that the bytes of one of the job's files of that
/// record's name spell. Each row of them is among the rows that queries are answered from.
pub fn visible_builds_have_their_rows()
    ensures { (name_of : List ℕ → List ℕ) (job : Made) (units : Units) → HaveBuilt name_of job units
        → (stored : StoredUnit) × (unit_named (name_of job.unit.output) units ≡ Some stored) × (stored.unit ≡ job.unit)
        × AllZip (λ dep value. (body : Body) × Lists job.bodies body × (body.name ≡ dep.name) × RecordSpelling body.bytes value) job.unit.records stored.values
        × ((row : OccRow) → Contains (rows_of_unit stored) row → Contains (rows units) row) }
{}

/// What it says that an ask sees a build: at some moment of the run an event ends the build, and the poll is next. It clashes, or it is the publish, and synced, and behind it the build is
/// visible. The ask's answer is its query's over all that is visible behind that moment, at that mark.
pub fn asks_that_see_a_build_answer_so()
    ensures { (name_of : List ℕ → List ℕ) (tasks : List Task) (start run : Run) (job : Made) (query : Query) (behind : List Task) (ask : ℕ)
        → AsksSeeBuild name_of tasks start run job query behind ask
        → (before : List Event) × (event : Event) × (after : List Event) × (moment : Moment name_of (tasks ∷ []) start before event)
        × (run.events ≡ start.events ++ (before ++ event ∷ after))
        × ((progress_of moment.earlier 0 tasks).tasks ≡ task.Build job ∷ task.Poll ∷ task.Ask query ∷ behind)
        × ((progress_of moment.longer 0 tasks).tasks ≡ task.Poll ∷ task.Ask query ∷ behind)
        × ((event.outcome ≡ Clash) ⊎ ((event.outcome ≡ Synced) × (event.call ≡ call.Publish (name_of job.unit.output)) × HaveBuilt name_of job (visible moment.longer.state)))
        × (slice_get (progress_of run 0 tasks).answers ask ≡ Some (record { mark = Some (length moment.longer.state.publications); result = Rows (answer query (visible moment.longer.state)) })) }
{}

/// What the laws suppose: a script of one lane has its steps and no others, and no call failed where each flag is Done.
pub fn scripts_of_one_lane_are_these()
    ensures lane { (steps : List Step) (turns : List ℕ) → ◌≡◌ {A = Script} (one_lane steps turns) (record { lanes = steps ∷ []; order = turns }) }
    ensures flags { (flags : List Outcome) → AllByRecursion (λ flag. flag ≡ Done) flags → NoneFailed flags }
{}
