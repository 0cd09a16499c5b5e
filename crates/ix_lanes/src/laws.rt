//! Laws of the definitions, each the contract of a function that does nothing.
ghost use Rattle.std.specs.Prelude.{◌≡◌, ◌∷◌, ◌++◌, [], ℕ, List, Option, Some, None};
ghost use Rattle.std.specs.List.{AllByRecursion};
ghost use Rattle.ix_plan.specs.Keeps.{IsStep};
ghost use Rattle.ix_lanes.specs.Rules.{IsReady};
ghost use Rattle.ix_model.specs.Units.{Units};
ghost use Rattle.ix_machine.specs.declared.event.Event.{Event};
ghost use Rattle.ix_machine.specs.declared.event.Outcome.{Outcome};
ghost use Rattle.ix_machine.specs.declared.event.Outcome.TheVariants.{Done, Written, Shared, Clash, Synced, At, Fault, Lost, Damaged, NoUnit};
ghost use Rattle.ix_lanes.specs.Calls as turn;
ghost use Rattle.ix_lanes.specs.declared.answered.AskResult.TheVariants as ends;
ghost use Rattle.ix_lanes.specs.declared.doing.Doing.TheVariants.{Begun, Importing};
ghost use Rattle.ix_lanes.specs.Laws.{AgreeAt, AreAnswersTo, IsHeldAfter, asks_of, before_a_collect, turns_along, two_files};
ghost use Rattle.ix_lanes.specs.Progress.{Progress, progress_after, told};
ghost use Rattle.ix_lanes.specs.Tasks.{Task, Build, Remove, Poll, Refresh, Ask, Release};

use ix_plan::Step;
use ix_record::Body;
use ix_types::Query;
use ix_unit::UnitValue;

/// After an event a lane holds what it held, nothing, or the version of the mark at which the event ended. What a lane does and answers
/// depends on the units at those marks alone: where others are seen elsewhere, as when more is published later, nothing changes.
pub fn lanes_see_the_marks_of_their_events()
    ensures held { (outcome : Outcome) (p : Progress) → IsHeldAfter outcome p.held (told outcome p).held }
    ensures same { (seen other : ℕ → Units) (tasks : List Task) (events : List Event) → AgreeAt seen other events
        → progress_after seen tasks events ≡ progress_after other tasks events }
{}

/// The answers of a lane are those to the first of its asks, in order, and no other ask's: each its query's rows over the units that are
/// seen at its mark, or NoneHeld exactly where it has no mark, or the word of a load that failed. The asks that are left come next.
pub fn answers_are_those_to_the_asks()
    ensures { (seen : ℕ → Units) (tasks : List Task) (events : List Event)
        → AreAnswersTo seen (asks_of tasks) (progress_after seen tasks events).answers (progress_after seen tasks events).tasks }
{}

/// What the lane of each step does next as its calls end, and that it comes to the step behind it: a build ends with the publish, or with the first put
/// or staging that is refused; a poll with the install, or with the first failure; an ask with a load that failed.
pub fn steps_make_these_calls()
    ensures built { (unit : UnitValue) (names : List (List ℕ)) (first second : Body) → turns_along (before_a_collect (Build (two_files unit names first second))) (Done ∷ Written ∷ Shared ∷ Done ∷ Synced ∷ []) ≡ Some (turn.Lease names) ∷ Some (turn.Put first) ∷ Some (turn.Put second) ∷ Some (turn.Stage unit) ∷ Some turn.Publish ∷ Some turn.Collect ∷ [] }
    ensures clashed { (unit : UnitValue) (names : List (List ℕ)) (first second : Body) → turns_along (before_a_collect (Build (two_files unit names first second))) (Done ∷ Written ∷ Clash ∷ []) ≡ Some (turn.Lease names) ∷ Some (turn.Put first) ∷ Some (turn.Put second) ∷ Some turn.Collect ∷ [] }
    ensures put_failed { (unit : UnitValue) (names : List (List ℕ)) (first second : Body) → turns_along (before_a_collect (Build (two_files unit names first second))) (Done ∷ Fault ∷ []) ≡ Some (turn.Lease names) ∷ Some (turn.Put first) ∷ Some turn.Collect ∷ [] }
    ensures stage_failed { (unit : UnitValue) (names : List (List ℕ)) (first second : Body) → turns_along (before_a_collect (Build (two_files unit names first second))) (Done ∷ Written ∷ Written ∷ Fault ∷ []) ≡ Some (turn.Lease names) ∷ Some (turn.Put first) ∷ Some (turn.Put second) ∷ Some (turn.Stage unit) ∷ Some turn.Collect ∷ [] }
    ensures unpublished { (unit : UnitValue) (names : List (List ℕ)) (first second : Body) → turns_along (before_a_collect (Build (two_files unit names first second))) (Done ∷ Written ∷ Written ∷ Done ∷ Clash ∷ []) ≡ Some (turn.Lease names) ∷ Some (turn.Put first) ∷ Some (turn.Put second) ∷ Some (turn.Stage unit) ∷ Some turn.Publish ∷ Some turn.Collect ∷ [] }
    ensures polled { (mark installed : ℕ) → turns_along (before_a_collect Poll) (At mark ∷ Done ∷ Done ∷ At installed ∷ []) ≡ Some turn.Scan ∷ Some turn.Import ∷ Some turn.Import ∷ Some turn.Import ∷ Some turn.Collect ∷ [] }
    ensures scan_lost { (name : List ℕ) → turns_along (before_a_collect Poll) (Lost name ∷ []) ≡ Some turn.Scan ∷ Some turn.Collect ∷ [] }
    ensures load_damaged { (mark : ℕ) (name : List ℕ) → turns_along (before_a_collect Poll) (At mark ∷ Damaged name ∷ []) ≡ Some turn.Scan ∷ Some turn.Import ∷ Some turn.Collect ∷ [] }
    ensures refreshed { (mark : ℕ) → turns_along (before_a_collect Refresh) (At mark ∷ []) ≡ Some turn.Adopt ∷ Some turn.Collect ∷ [] }
    ensures removed { (output : List ℕ) → turns_along (before_a_collect (Remove output)) (NoUnit ∷ []) ≡ Some (turn.Remove output) ∷ Some turn.Collect ∷ [] }
    ensures asked { (query : Query) (name : List ℕ) → turns_along (before_a_collect (Ask query)) (Done ∷ Lost name ∷ []) ≡ Some (turn.Ask query) ∷ Some (turn.Ask query) ∷ Some turn.Collect ∷ [] }
    ensures ended { turns_along (before_a_collect Release) (Done ∷ Fault ∷ []) ≡ Some turn.Release ∷ Some turn.Collect ∷ None ∷ [] }
{}

/// What a lane holds and has loaded, and its answers, as its calls end: an install and an adoption take a version up, with nothing loaded for it; a
/// release lets it go; a load that failed ends an ask with its word, at the mark that is held.
pub fn calls_change_what_is_held()
    ensures adopted { (mark : ℕ) (p : Progress) → told (At mark) (record p { tasks = Refresh ∷ [] }) ≡ record p { tasks = []; doing = Begun; held = Some mark; loaded = [] } }
    ensures installed { (opened records mark : ℕ) (p : Progress) → told (At mark) (record p { tasks = Poll ∷ []; doing = Importing opened records })
        ≡ record p { tasks = []; doing = Begun; held = Some mark; loaded = [] } }
    ensures released { (p : Progress) → told Done (record p { tasks = Release ∷ [] }) ≡ record p { tasks = []; doing = Begun; held = None; loaded = [] } }
    ensures failed { (query : Query) (p : Progress) → told Fault (record p { tasks = Ask query ∷ [] })
        ≡ record p { tasks = []; doing = Begun; answers = p.answers ++ (record { mark = p.held; result = ends.Fault }) ∷ [] } }
    ensures lost { (query : Query) (name : List ℕ) (p : Progress) → told (Lost name) (record p { tasks = Ask query ∷ [] })
        ≡ record p { tasks = []; doing = Begun; answers = p.answers ++ (record { mark = p.held; result = ends.Lost }) ∷ [] } }
    ensures damaged { (query : Query) (name : List ℕ) (p : Progress) → told (Damaged name) (record p { tasks = Ask query ∷ [] })
        ≡ record p { tasks = []; doing = Begun; answers = p.answers ++ (record { mark = p.held; result = ends.Damaged }) ∷ [] } }
{}

/// The steps of an accepted script may be a lane's.
pub fn steps_are_ready()
    ensures { (steps : List Step) → AllByRecursion IsStep steps → AllByRecursion IsReady steps }
{
    ix_jobs::laws::short_plans_have_room();
}
