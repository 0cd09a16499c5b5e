//! Laws of the definitions, each the contract of a function that does nothing.
ghost use Rattle.std.specs.Prelude.{◌≡◌, ◌≢◌, ◌<◌, ◌≤◌, ◌∷◌, ◌++◌, [], ℕ, List, length, map, codes, Some, None};
ghost use Rattle.ix_machine.specs.declared.event.Outcome.{Outcome};
ghost use Rattle.ix_machine.specs.Given.{Given};
ghost use Rattle.ix_machine.specs.State.{State, held_by};
ghost use Rattle.ix_machine.specs.Step.{Stepped, step};
ghost use Rattle.ix_replays.specs.Laws.{LanesHold, MarksFit, NoMarkFalls, RunFits};
ghost use Rattle.ix_machine.specs.declared.event.Event.{Event};
ghost use Rattle.ix_machine.specs.Needs.{seen_at};
ghost use Rattle.ix_machine.specs.Run.{Opening};
ghost use Rattle.ix_lanes.specs.Calls.{next_call};
ghost use Rattle.ix_lanes.specs.Progress.{Progress, after_event, told};
ghost use Rattle.ix_model.specs.Units.{Units};
ghost use Rattle.ix_lanes.specs.Tasks.{Task};
ghost use Rattle.ix_replays.specs.Run.{Run, extended, flag_of, fresh, IsReplay, lanes_of, next_of, progress_of, run_from, run_of};
ghost use Rattle.ix_replays.specs.Text.{event_line, lane_text, refused_line, row_line, transcript_text};
ghost use Rattle.ix_machine.specs.declared.event.Call.TheVariants as call;
ghost use Rattle.ix_machine.specs.declared.opened.UnitFault.TheVariants as cause;
ghost use Rattle.ix_lanes.specs.declared.answered.AskResult.TheVariants as ended;
ghost use Rattle.ix_types.specs.declared.row.Row.TheVariants as row;
ghost use Rattle.ix_types.specs.declared.row.Row.TheVariants.{Unit as UnitRow};
ghost use Rattle.ix_plan.specs.declared.plan.Step.TheVariants.{Poll, Refresh, Release, Collect};
ghost use Rattle.ix_machine.specs.declared.event.Outcome.TheVariants.{Done, Written, Shared, Clash, Synced, Unsynced, NoUnit, At, Removed, Nothing, Fault, Lost, Damaged};
ghost use Rattle.ix_lanes.specs.declared.answered.AskResult.TheVariants.{Rows, NoneHeld};
ghost use Rattle.ix_replays.specs.Worked.{run_shows, turns, builds, lists_the_file, u, n};

use crate::transcript::Transcript;
use ix_plan::Script;

/// Runs worked by hand.
pub fn runs_show_as_worked()
    ensures asked { run_shows ((builds (codes "abc") ∷ Poll ∷ lists_the_file ∷ []) ∷ []) (0 ∷ 0 ∷ 0 ∷ 0 ∷ 0 ∷ 0 ∷ 0 ∷ []) (Done ∷ Done ∷ Done ∷ Done ∷ Done ∷ Done ∷ Done ∷ [])
        ≡ Some (record { outcomes = Done ∷ Written ∷ Done ∷ Synced ∷ At 1 ∷ Done ∷ At 1 ∷ []; answers = ((record { mark = Some 1; result = Rows (UnitRow u ∷ []) }) ∷ []) ∷ [] }) }
    ensures held { run_shows ((builds (codes "abc") ∷ Poll ∷ builds (codes "abd") ∷ lists_the_file ∷ []) ∷ []) (0 ∷ 0 ∷ 0 ∷ 0 ∷ 0 ∷ 0 ∷ 0 ∷ 0 ∷ 0 ∷ 0 ∷ 0 ∷ []) (Done ∷ Done ∷ Done ∷ Done ∷ Done ∷ Done ∷ Done ∷ Done ∷ Done ∷ Done ∷ Done ∷ [])
        ≡ Some (record { outcomes = Done ∷ Written ∷ Done ∷ Synced ∷ At 1 ∷ Done ∷ At 1 ∷ Done ∷ Shared ∷ Done ∷ Synced ∷ []; answers = ((record { mark = Some 1; result = Rows (UnitRow u ∷ []) }) ∷ []) ∷ [] }) }
    ensures two_lanes { run_shows ((builds (codes "abc") ∷ []) ∷ (Collect ∷ []) ∷ []) (0 ∷ 0 ∷ 1 ∷ 0 ∷ 0 ∷ []) (Done ∷ Done ∷ Done ∷ Done ∷ Done ∷ [])
        ≡ Some (record { outcomes = Done ∷ Written ∷ Nothing ∷ Done ∷ Synced ∷ []; answers = [] ∷ [] ∷ [] }) }
    ensures stage_failed { run_shows ((builds (codes "abc") ∷ Collect ∷ []) ∷ []) (0 ∷ 0 ∷ 0 ∷ 0 ∷ []) (Done ∷ Done ∷ Fault ∷ Done ∷ [])
        ≡ Some (record { outcomes = Done ∷ Written ∷ Fault ∷ Removed n ∷ []; answers = [] ∷ [] }) }
    ensures unsynced { run_shows ((builds (codes "abc") ∷ []) ∷ []) (0 ∷ 0 ∷ 0 ∷ 0 ∷ []) (Done ∷ Done ∷ Done ∷ Unsynced ∷ [])
        ≡ Some (record { outcomes = Done ∷ Written ∷ Done ∷ Unsynced ∷ []; answers = [] ∷ [] }) }
    ensures none_held { run_shows ((lists_the_file ∷ []) ∷ []) [] [] ≡ Some (record { outcomes = []; answers = ((record { mark = None; result = NoneHeld }) ∷ []) ∷ [] }) }
    ensures at_zero { run_shows ((Refresh ∷ lists_the_file ∷ []) ∷ []) (0 ∷ []) (Done ∷ [])
        ≡ Some (record { outcomes = At 0 ∷ []; answers = ((record { mark = Some 0; result = Rows [] }) ∷ []) ∷ [] }) }
    ensures second_lane { run_shows ([] ∷ (Refresh ∷ lists_the_file ∷ []) ∷ []) (1 ∷ []) (Done ∷ [])
        ≡ Some (record { outcomes = At 0 ∷ []; answers = [] ∷ ((record { mark = Some 0; result = Rows [] }) ∷ []) ∷ [] }) }
    ensures cut { run_shows ((Refresh ∷ []) ∷ []) [] [] ≡ None }
    ensures too_long { run_shows ((Refresh ∷ []) ∷ []) (0 ∷ 0 ∷ []) (Done ∷ Done ∷ []) ≡ None }
    ensures no_lane { run_shows ((Refresh ∷ []) ∷ []) (1 ∷ 0 ∷ []) (Done ∷ Done ∷ []) ≡ None }
    ensures no_flag { run_shows ((Refresh ∷ []) ∷ []) (0 ∷ []) (Fault ∷ []) ≡ None }
    ensures flags_left { run_shows ((Refresh ∷ []) ∷ []) (0 ∷ []) (Done ∷ Done ∷ []) ≡ None }
{}

/// The order that a replay takes: the script's, without the lanes that have ended, and then lane after lane.
pub fn replays_take_turns()
    ensures skipped { turns ((Release ∷ []) ∷ (Collect ∷ []) ∷ []) (0 ∷ 0 ∷ 0 ∷ 1 ∷ []) (Done ∷ Done ∷ []) ≡ 0 ∷ 1 ∷ [] }
    ensures first { turns ((Release ∷ []) ∷ (Collect ∷ []) ∷ []) (1 ∷ []) (Done ∷ Done ∷ []) ≡ 1 ∷ 0 ∷ [] }
    ensures rest { turns ((Release ∷ Collect ∷ []) ∷ (Collect ∷ []) ∷ []) [] (Done ∷ Done ∷ Done ∷ []) ≡ 0 ∷ 0 ∷ 1 ∷ [] }
{}

/// From a state whose marks fit, each step of the machine, whatever its flag, leaves one whose marks fit; no mark falls, publications are only added, and
/// an event ends at no mark beyond them. So a lane's held marks never fall, but for a release.
pub fn no_mark_falls()
    ensures fit { (name_of : List ℕ → List ℕ) (s : State) (lane : ℕ) (given : Given) (flag : Outcome) (stepped : Stepped) → MarksFit s
        → step name_of s lane given flag ≡ Some stepped → MarksFit stepped.state }
    ensures falls { (name_of : List ℕ → List ℕ) (s : State) (lane : ℕ) (given : Given) (flag : Outcome) (stepped : Stepped) → MarksFit s
        → step name_of s lane given flag ≡ Some stepped → NoMarkFalls s stepped.state }
    ensures within { (name_of : List ℕ → List ℕ) (s : State) (lane : ℕ) (given : Given) (flag : Outcome) (stepped : Stepped) (mark : ℕ) → MarksFit s
        → step name_of s lane given flag ≡ Some stepped → stepped.outcome ≡ At mark → mark ≤ length stepped.state.publications }
{}

/// In a run the marks fit from the start on, and each event keeps that; no mark falls from one event to the next.
pub fn runs_keep_their_marks()
    ensures begun { (name_of : List ℕ → List ℕ) (script : Script) (opening : Opening) → RunFits (fresh name_of script opening) }
    ensures kept { (name_of : List ℕ → List ℕ) (lanes : List (List Task)) (run longer : Run) (lane : ℕ) (flag : Outcome) → RunFits run
        → extended name_of lanes run lane flag ≡ Some longer → RunFits longer }
    ensures falls { (name_of : List ℕ → List ℕ) (lanes : List (List Task)) (run longer : Run) (lane : ℕ) (flag : Outcome) → RunFits run
        → extended name_of lanes run lane flag ≡ Some longer → NoMarkFalls run.state longer.state }
{}

/// An event changes the progress of its own lane alone, and takes that one event further. So what was answered at a mark stays, whatever is published later.
pub fn an_event_takes_its_own_lane_on()
    ensures others { (name_of : List ℕ → List ℕ) (lanes : List (List Task)) (run longer : Run) (lane other : ℕ) (flag : Outcome) (tasks : List Task) → RunFits run
        → extended name_of lanes run lane flag ≡ Some longer → lane ≢ other → progress_of longer other tasks ≡ progress_of run other tasks }
    ensures own { (name_of : List ℕ → List ℕ) (lanes : List (List Task)) (run longer : Run) (lane : ℕ) (flag : Outcome) (tasks : List Task) → RunFits run
        → extended name_of lanes run lane flag ≡ Some longer
        → (event : Event) × (longer.events ≡ run.events ++ event ∷ []) × (progress_of longer lane tasks ≡ after_event (seen_at longer.state) (progress_of run lane tasks) event) }
{
    ix_model::laws::the_latest_publication_stands();
    ix_lanes::laws::lanes_see_the_marks_of_their_events();
}

/// The order and the flags that a run's events show are those that it was made by.
pub fn runs_show_their_order_and_flags()
    ensures order { (name_of : List ℕ → List ℕ) (script : Script) (opening : Opening) (order : List ℕ) (flags : List Outcome) (run : Run)
        → run_of name_of script opening order flags ≡ Some run → map (λ event. event.lane) run.events ≡ order }
    ensures flags { (name_of : List ℕ → List ℕ) (script : Script) (opening : Opening) (order : List ℕ) (flags : List Outcome) (run : Run)
        → run_of name_of script opening order flags ≡ Some run → map (λ event. flag_of event.outcome) run.events ≡ flags }
{}

/// Along a run a lane's held marks never fall: from any point of it on to its end, what a lane holds there is no earlier than what it held before.
pub fn held_marks_never_fall()
    ensures fits { (name_of : List ℕ → List ℕ) (script : Script) (opening : Opening) (order : List ℕ) (flags : List Outcome) (run : Run)
        → run_of name_of script opening order flags ≡ Some run → RunFits run }
    ensures rises { (name_of : List ℕ → List ℕ) (lanes : List (List Task)) (order : List ℕ) (flags : List Outcome) (run end : Run) (lane earlier later : ℕ) → RunFits run
        → run_from name_of lanes run order flags ≡ Some end → held_by run.state lane ≡ Some earlier → held_by end.state lane ≡ Some later → earlier ≤ later }
{}

/// A run leaves no call: where it has a value, no lane has one left. And a script has at most one replay with the same flags.
pub fn runs_leave_no_call()
    ensures ended { (name_of : List ℕ → List ℕ) (script : Script) (opening : Opening) (order : List ℕ) (flags : List Outcome) (run : Run) (lane : ℕ)
        → run_of name_of script opening order flags ≡ Some run → lane < length (lanes_of name_of script) → next_of name_of (lanes_of name_of script) run lane ≡ None }
    ensures one { (name_of : List ℕ → List ℕ) (script : Script) (opening : Opening) (first second : Transcript) → IsReplay name_of script opening first
        → IsReplay name_of script opening second → map (λ event. flag_of event.outcome) first.events ≡ map (λ event. flag_of event.outcome) second.events → first ≡ second }
{}

/// The line of each kind of event.
pub fn each_event_has_its_line()
    ensures leased { event_line (record { lane = 0; call = call.Lease (n ∷ u ∷ []); outcome = Done }) ≡ codes "0 lease 2" ++ 10 ∷ [] }
    ensures put { event_line (record { lane = 1; call = call.Put n; outcome = Shared }) ≡ codes "1 put 9c498cad shared" ++ 10 ∷ [] }
    ensures clashed { event_line (record { lane = 1; call = call.Put n; outcome = Clash }) ≡ codes "1 put 9c498cad clash" ++ 10 ∷ [] }
    ensures staged { event_line (record { lane = 0; call = call.Stage u; outcome = Done }) ≡ codes "0 stage ba7816bf ok" ++ 10 ∷ [] }
    ensures published { event_line (record { lane = 12; call = call.Publish u; outcome = Unsynced }) ≡ codes "12 publish ba7816bf unsynced" ++ 10 ∷ [] }
    ensures removed_none { event_line (record { lane = 0; call = call.Remove u; outcome = NoUnit }) ≡ codes "0 remove ba7816bf none" ++ 10 ∷ [] }
    ensures scanned { event_line (record { lane = 0; call = call.Scan; outcome = (At 3) }) ≡ codes "0 scan ok 3" ++ 10 ∷ [] }
    ensures scan_lost { event_line (record { lane = 0; call = call.Scan; outcome = (Lost u) }) ≡ codes "0 scan lost ba7816bf" ++ 10 ∷ [] }
    ensures scan_failed { event_line (record { lane = 0; call = call.Scan; outcome = Fault }) ≡ codes "0 scan fault" ++ 10 ∷ [] }
    ensures loaded { event_line (record { lane = 0; call = call.Load n; outcome = Done }) ≡ codes "0 load 9c498cad ok" ++ 10 ∷ [] }
    ensures load_damaged { event_line (record { lane = 0; call = call.Load n; outcome = (Damaged n) }) ≡ codes "0 load 9c498cad damaged" ++ 10 ∷ [] }
    ensures installed { event_line (record { lane = 0; call = call.Install; outcome = (At 10) }) ≡ codes "0 install 10" ++ 10 ∷ [] }
    ensures adopted { event_line (record { lane = 0; call = call.Adopt; outcome = (At 0) }) ≡ codes "0 adopt 0" ++ 10 ∷ [] }
    ensures released { event_line (record { lane = 0; call = call.Release; outcome = Done }) ≡ codes "0 release" ++ 10 ∷ [] }
    ensures collected { event_line (record { lane = 0; call = call.Collect; outcome = (Removed n) }) ≡ codes "0 collect removed 9c498cad" ++ 10 ∷ [] }
    ensures nothing { event_line (record { lane = 0; call = call.Collect; outcome = Nothing }) ≡ codes "0 collect nothing" ++ 10 ∷ [] }
{}

/// The lines of refused units and of answers, and the last line.
pub fn other_lines_are_these()
    ensures missing { refused_line (record { name = u; cause = cause.RecordMissing n }) ≡ codes "refused ba7816bf record-missing 9c498cad" ++ 10 ∷ [] }
    ensures field { refused_line (record { name = u; cause = cause.Field 27 }) ≡ codes "refused ba7816bf field 27" ++ 10 ∷ [] }
    ensures none { lane_text 0 ((record { mark = None; result = ended.NoneHeld }) ∷ (record { mark = Some 1; result = ended.Lost }) ∷ []) ≡ codes "ask 0 0 none" ++ 10 ∷ codes "ask 0 1 at 1 lost" ++ 10 ∷ [] }
    ensures rows { lane_text 2 ((record { mark = Some 3; result = ended.Rows (row.Unit u ∷ row.Path (codes "a") ∷ []) }) ∷ []) ≡ codes "ask 2 0 at 3 rows 2" ++ 10 ∷ codes "unit" ++ 9 ∷ codes "ba7816bf" ++ 10 ∷ codes "path" ++ 9 ∷ codes "a" ++ 10 ∷ [] }
    ensures edge { row_line (row.Edge (record { depth = 1; from = codes "s"; to = codes "t"; path = codes "p"; line = 2; column = 3 })) ≡ codes "edge" ++ 9 ∷ codes "1" ++ 9 ∷ codes "s" ++ 9 ∷ codes "t" ++ 9 ∷ codes "p" ++ 9 ∷ codes "2" ++ 9 ∷ codes "3" ++ 10 ∷ [] }
    ensures lanes { transcript_text (record { refused = []; events = []; answers = [] ∷ ((record { mark = None; result = ended.NoneHeld }) ∷ []) ∷ [] }) ≡ codes "ask 1 0 none" ++ 10 ∷ codes "end 0" ++ 10 ∷ [] }
    ensures whole { transcript_text (record { refused = []; events = (record { lane = 0; call = call.Release; outcome = Done }) ∷ []; answers = [] ∷ [] }) ≡ codes "0 release" ++ 10 ∷ codes "end 1" ++ 10 ∷ [] }
{}

/// What a lane's next call leaves held in the machine's state is what its progress holds once it is told how the call ended. Before it the two agree.
pub fn calls_hold_what_lanes_hold()
    ensures { (name_of : List ℕ → List ℕ) (seen : ℕ → Units) (s : State) (lane current : ℕ) (p : Progress) (given : Given) (flag : Outcome) (stepped : Stepped) → lane < length s.held
        → held_by s lane ≡ p.held → next_call seen current p ≡ Some given → step name_of s lane given flag ≡ Some stepped
        → held_by stepped.state lane ≡ (told stepped.outcome p).held }
{}

/// An event leaves a lane's progress with what it holds once it is told how the call ended, and asks that are answered change nothing of it. As many
/// lanes hold or hold nothing as before.
pub fn events_leave_what_is_held()
    ensures event { (seen : ℕ → Units) (p : Progress) (event : Event) → (after_event seen p event).held ≡ (told event.outcome p).held }
    ensures lanes { (name_of : List ℕ → List ℕ) (s : State) (lane : ℕ) (given : Given) (flag : Outcome) (stepped : Stepped) → step name_of s lane given flag ≡ Some stepped
        → length stepped.state.held ≡ length s.held }
{}

/// In every state of a run each lane's progress holds what the machine's state says: so the mark of an answer is the one that its lane last installed or adopted.
pub fn lanes_hold_what_the_state_says()
    ensures begun { (name_of : List ℕ → List ℕ) (script : Script) (opening : Opening) → LanesHold (lanes_of name_of script) (fresh name_of script opening) }
    ensures kept { (name_of : List ℕ → List ℕ) (lanes : List (List Task)) (run longer : Run) (lane : ℕ) (flag : Outcome) → RunFits run → LanesHold lanes run
        → extended name_of lanes run lane flag ≡ Some longer → LanesHold lanes longer }
    ensures end { (name_of : List ℕ → List ℕ) (script : Script) (opening : Opening) (order : List ℕ) (flags : List Outcome) (run : Run)
        → run_of name_of script opening order flags ≡ Some run → LanesHold (lanes_of name_of script) run }
{
    ix_model::laws::the_latest_publication_stands();
    ix_lanes::laws::lanes_see_the_marks_of_their_events();
    ix_machine::laws::other_lanes_stay();
}
