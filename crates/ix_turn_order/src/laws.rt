//! Laws of the definitions, each the contract of a function that does nothing.
ghost use Rattle.std.specs.Prelude.{◌≡◌, ◌≢◌, ◌<◌, ◌≤◌, ◌∷◌, ℕ, Bool, true, false, List, [], length, is_some, slice_get, IfSome, Some, None};
ghost use Rattle.ix_lanes.specs.Tasks.{Task};
ghost use Rattle.ix_machine.specs.declared.event.Outcome.{Outcome};
ghost use Rattle.ix_machine.specs.Given.{Given};
ghost use Rattle.ix_machine.specs.Needs.{seen_at};
ghost use Rattle.ix_machine.specs.Run.{Opening};
ghost use Rattle.ix_machine.specs.Step.{Stepped, step};
ghost use Rattle.ix_lanes.specs.Calls.{next_call, next_turn};
ghost use Rattle.ix_lanes.specs.Progress.{after_event};
ghost use Rattle.ix_plan.specs.declared.plan.Script.{Script};
ghost use Rattle.ix_replays.specs.Laws.{LanesHold, RunFits};
ghost use Rattle.ix_replays.specs.Run.{IsReplay, Run, call_of, extended, fresh, has_call, lanes_of, progress_of, transcript_of, with_event};
ghost use Rattle.ix_turn_order.specs.Order.{ComesTo, GoesOn, HaveEnded, IsReplaying};

/// A lane of a run has a call left exactly where it has a task left: an ask in front always lacks a record. So whether it has depends neither on what others
/// publish nor on the current version.
pub fn lanes_have_calls_while_they_have_tasks()
    ensures { (name_of : List ℕ → List ℕ) (lanes : List (List Task)) (run : Run) (lane : ℕ) (tasks : List Task) → slice_get lanes lane ≡ Some tasks
        → has_call name_of lanes run lane ≡ is_some (slice_get (progress_of run lane tasks).tasks 0) }
{}

/// An event of a lane doesn't change whether another one has a call left, and a lane that has ended makes none. So lanes that have ended stay ended.
pub fn ended_lanes_stay_ended()
    ensures others { (name_of : List ℕ → List ℕ) (lanes : List (List Task)) (run longer : Run) (lane other : ℕ) (flag : Outcome) → RunFits run
        → extended name_of lanes run lane flag ≡ Some longer → lane ≢ other → has_call name_of lanes longer other ≡ has_call name_of lanes run other }
    ensures none { (name_of : List ℕ → List ℕ) (lanes : List (List Task)) (run : Run) (lane : ℕ) (flag : Outcome) → has_call name_of lanes run lane ≡ false
        → extended name_of lanes run lane flag ≡ None }
    ensures stay { (name_of : List ℕ → List ℕ) (lanes : List (List Task)) (run next : Run) (lane other : ℕ) (made : Bool) → RunFits run → GoesOn name_of lanes run lane made next
        → has_call name_of lanes run other ≡ false → has_call name_of lanes next other ≡ false }
{
    ix_replays::laws::an_event_takes_its_own_lane_on();
}

/// A call that a lane makes next is a step of it, with whatever flag the machine allows. A lane that does nothing next has none left, and neither has one that isn't there.
pub fn calls_are_steps()
    ensures made { (name_of : List ℕ → List ℕ) (lanes : List (List Task)) (run : Run) (lane : ℕ) (tasks : List Task) (given : Given) (flag : Outcome) (stepped : Stepped)
        → slice_get lanes lane ≡ Some tasks → next_call (seen_at run.state) run.state.current (progress_of run lane tasks) ≡ Some given
        → step name_of run.state lane given flag ≡ Some stepped → GoesOn name_of lanes run lane true (with_event name_of run lane given stepped) }
    ensures ended { (name_of : List ℕ → List ℕ) (lanes : List (List Task)) (run : Run) (lane : ℕ) (tasks : List Task)
        → slice_get lanes lane ≡ Some tasks → next_turn (progress_of run lane tasks) ≡ None → GoesOn name_of lanes run lane false run }
    ensures absent { (name_of : List ℕ → List ℕ) (lanes : List (List Task)) (run : Run) (lane : ℕ) → slice_get lanes lane ≡ None → GoesOn name_of lanes run lane false run }
    ensures own { (name_of : List ℕ → List ℕ) (lanes : List (List Task)) (run : Run) (lane : ℕ) (tasks : List Task) (given : Given) (flag : Outcome) (stepped : Stepped) → RunFits run
        → slice_get lanes lane ≡ Some tasks → next_call (seen_at run.state) run.state.current (progress_of run lane tasks) ≡ Some given
        → step name_of run.state lane given flag ≡ Some stepped
        → progress_of (with_event name_of run lane given stepped) lane tasks ≡ after_event (seen_at stepped.state) (progress_of run lane tasks) (record { lane = lane; call = call_of name_of run.state lane given; outcome = stepped.outcome }) }
{
    ix_replays::laws::an_event_takes_its_own_lane_on();
}

/// An event changes nothing of the units that are seen at marks that were published before it, among them what each lane holds.
pub fn earlier_marks_stay()
    ensures marks { (name_of : List ℕ → List ℕ) (lanes : List (List Task)) (run longer : Run) (lane : ℕ) (flag : Outcome) (mark : ℕ) → RunFits run
        → extended name_of lanes run lane flag ≡ Some longer → mark ≤ length run.state.publications → seen_at longer.state mark ≡ seen_at run.state mark }
    ensures held { (name_of : List ℕ → List ℕ) (lanes : List (List Task)) (run longer : Run) (lane other : ℕ) (flag : Outcome) (tasks : List Task) → RunFits run → LanesHold lanes run
        → extended name_of lanes run lane flag ≡ Some longer → slice_get lanes other ≡ Some tasks
        → IfSome (progress_of run other tasks).held (λ mark. seen_at run.state mark ≡ seen_at longer.state mark) }
{
    ix_replays::laws::runs_keep_their_marks();
    ix_model::laws::the_latest_publication_stands();
}

/// Steps by an order, whether or not the lane has a call left, and then of the first lane that may have one, are the turns of a replay.
pub fn steps_are_turns()
    ensures begins { (name_of : List ℕ → List ℕ) (lanes : List (List Task)) (run : Run) (order : List ℕ) → RunFits run → ComesTo name_of lanes run order run order }
    ensures ordered { (name_of : List ℕ → List ℕ) (lanes : List (List Task)) (start run next : Run) (order rest : List ℕ) (lane : ℕ) (made : Bool)
        → ComesTo name_of lanes start order run (lane ∷ rest) → GoesOn name_of lanes run lane made next → ComesTo name_of lanes start order next rest }
    ensures first { (name_of : List ℕ → List ℕ) (lanes : List (List Task)) (start run next : Run) (order : List ℕ) (lane : ℕ) (made : Bool) → lane < length lanes
        → ComesTo name_of lanes start order run [] → HaveEnded name_of lanes run lane → GoesOn name_of lanes run lane made next → ComesTo name_of lanes start order next [] }
{
    ix_replays::laws::runs_keep_their_marks();
}

/// A replay that comes to a run with no order to go and no call left, from the run before its first event, shows what it has: the turns and flags are those that
/// its events show, and the run is that one.
pub fn replays_end()
    ensures { (name_of : List ℕ → List ℕ) (script : Script) (opening : Opening) (run : Run)
        → ComesTo name_of (lanes_of name_of script) (fresh name_of script opening) script.order run [] → HaveEnded name_of (lanes_of name_of script) run (length script.lanes)
        → (replay : IsReplay name_of script opening (transcript_of name_of script opening run)) × (replay.run ≡ run) }
{
    ix_replays::laws::runs_show_their_order_and_flags();
}
