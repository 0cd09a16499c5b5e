//! Runs of a library, call after call. A caller's proof gets a law by calling its function, which does nothing.
ghost use Rattle.std.specs.Prelude.{◌≡◌, ℕ, ◌+◌, ◌≤◌, List, [], ◌∷◌, ◌++◌, length, take, drop, Option, Some, None, option_map, IfSome};
ghost use Rattle.ix_dir.specs.declared.moves.Move.{Move};
ghost use Rattle.ix_dir.specs.Crash.{standing};
ghost use Rattle.ix_dir.specs.Images.{Image, IsImage};
ghost use Rattle.ix_dir.specs.WhatAChangeLeaves.{AddsTo, IfTold};
ghost use Rattle.ix_record.specs.declared.body.Body.{Body};
ghost use Rattle.ix_unit.specs.declared.value.UnitValue.{UnitValue};
ghost use Rattle.ix_model.specs.Units.{units_at};
ghost use Rattle.ix_machine.specs.declared.event.Call.TheVariants as call;
ghost use Rattle.ix_machine.specs.declared.event.Outcome.TheVariants as outcome;
ghost use Rattle.ix_machine.specs.declared.event.Outcome.{Outcome};
ghost use Rattle.ix_machine.specs.declared.event.Purpose.{Purpose};
ghost use Rattle.ix_machine.specs.Given as given;
ghost use Rattle.ix_machine.specs.Given.{Given};
ghost use Rattle.ix_machine.specs.Counts.{acknowledged, made};
ghost use Rattle.ix_machine.specs.Run.{Turn, begun};
ghost use Rattle.ix_opening.specs.AfterOpening.{opening_moves};
ghost use Rattle.ix_opening.specs.Found.{opening_of};
ghost use Rattle.ix_stops.specs.Changes.{units_moves};
ghost use Rattle.ix_machine.specs.declared.event.Purpose.TheVariants as purposes;
ghost use Rattle.ix_machine.specs.State.{State};
ghost use Rattle.ix_machine.specs.Step.{staged_by};
ghost use Rattle.ix_ledger.specs.Books.{event};
ghost use Rattle.ix_ledger.specs.Kept.{Kept};
ghost use Rattle.ix_library.specs.Endings.{flag_for, publish_name, with_event};
ghost use Rattle.ix_library.specs.StandsFor.{StandsFor, Takes};
ghost use Rattle.ix_stops.specs.Prefixes.{CountsFrom, IsPrefixAt, LeavesPrefixes};
ghost use Rattle.ix_facts.specs.Runs.{Called, IsAt, IsLibraryCall, AreLibraryCalls, Played, Store, after_call, after_calls, named_call, played_of, shown, turn, turns_taken};

use crate::given::given_of_steps;

/// A library that stands for a state, and is called again and again, stands at the end for the state of the machine's own run of the calls that ended. What happened
/// since is the events of that run, in order: each call that ended is one, with the machine's outcome, and a call for which memory was wanting is none.
pub fn a_run_is_the_machines()
    ensures event_log { (name_of : List ℕ → List ℕ) (s : State) (first last : Store) (calls : List Called) → IsAt name_of s first → AreLibraryCalls name_of s first calls last
        → (run : Played) × (played_of name_of s (turns_taken calls) ≡ Some run) × (last.events ≡ first.events ++ run.events) × (run.state ≡ after_calls name_of s calls) }
    ensures since_opening { (name_of : List ℕ → List ℕ) (s : State) (first last : Store) (calls : List Called) → IsAt name_of s first → first.events ≡ [] → AreLibraryCalls name_of s first calls last → option_map (λ run. run.events) (played_of name_of s (turns_taken calls)) ≡ Some last.events }
    ensures stands { (name_of : List ℕ → List ℕ) (s : State) (first last : Store) (calls : List Called) → IsAt name_of s first → AreLibraryCalls name_of s first calls last → IsAt name_of (after_calls name_of s calls) last }
    ensures one_each { (name_of : List ℕ → List ℕ) (s : State) (first last : Store) (calls : List Called) → IsAt name_of s first → AreLibraryCalls name_of s first calls last → length last.events ≡ length first.events + length (turns_taken calls) }
{
    given_of_steps();
}

/// Runs are joined: no call is a run, and a run goes on with a call more.
pub fn runs_go_on()
    ensures begins { (name_of : List ℕ → List ℕ) (s : State) (first : Store) → AreLibraryCalls name_of s first [] first }
    ensures goes_on { (name_of : List ℕ → List ℕ) (s : State) (first between last : Store) (calls : List Called) (called : Called) → AreLibraryCalls name_of s first calls between → IsLibraryCall name_of (after_calls name_of s calls) between called last → AreLibraryCalls name_of s first (calls ++ called ∷ []) last }
    ensures state { (name_of : List ℕ → List ℕ) (s : State) (calls : List Called) (called : Called) → after_calls name_of s (calls ++ called ∷ []) ≡ after_call name_of (after_calls name_of s calls) called }
    // A call of a run is one whose clauses say its step, its event, and what is there where memory was wanting.
    ensures call { (name_of : List ℕ → List ℕ) (s : State) (before after : Store) (lane : ℕ) (given : Given) (ending : Option Outcome)
        → IfSome ending (λ how. Takes name_of s lane given (flag_for how) how before.dir after.kept after.shelf after.known after.dir)
        → after.events ≡ with_event before.events lane (shown name_of before.kept lane given) ending
        → (ending ≡ None → StandsFor name_of s after.kept after.shelf after.known after.dir) → (ending ≡ None → after.dir.moves ≡ before.dir.moves)
        → IsLibraryCall name_of s before (record { lane = lane; given = given; ending = ending }) after }
    ensures shown { (name_of : List ℕ → List ℕ) (kept : Kept) (lane : ℕ) (names : List (List ℕ)) (name output : List ℕ) (unit : UnitValue) (body : Body) (purpose : Purpose)
        → (shown name_of kept lane (given.Lease names) ≡ call.Lease names) × (shown name_of kept lane (given.Put body) ≡ call.Put body.name) × (shown name_of kept lane (given.Stage unit) ≡ call.Stage (name_of unit.output))
        × (shown name_of kept lane given.Publish ≡ call.Publish (publish_name name_of kept lane)) × (shown name_of kept lane (given.Remove output) ≡ call.Remove (name_of output)) × (shown name_of kept lane given.Scan ≡ call.Scan)
        × (shown name_of kept lane (given.Load name purpose) ≡ call.Load name) × (shown name_of kept lane given.Install ≡ call.Install) × (shown name_of kept lane given.Adopt ≡ call.Adopt)
        × (shown name_of kept lane given.Release ≡ call.Release) × (shown name_of kept lane given.Collect ≡ call.Collect) }
{}

/// Moves are only added in a run. Where it began behind an opening, at each moment since then each image has the units after some of the publications, from those that
/// were acknowledged at the moment to those that were made, and no refused file.
pub fn a_stop_in_a_run_leaves_a_prefix()
    ensures adds { (name_of : List ℕ → List ℕ) (s : State) (first last : Store) (calls : List Called) → IsAt name_of s first → AreLibraryCalls name_of s first calls last → AddsTo first.dir.moves last.dir.moves }
    ensures leaves { (name_of : List ℕ → List ℕ) (s : State) (first last : Store) (calls : List Called) → IsAt name_of s first → AreLibraryCalls name_of s first calls last
        → IfTold first.dir.moves last.dir.moves (LeavesPrefixes name_of s.publications (after_calls name_of s calls).publications) }
    ensures images { (name_of : List ℕ → List ℕ) (s : State) (first last : Store) (calls : List Called) (before now : List Move) (moment : ℕ) (image : Image) → IsAt name_of s first → AreLibraryCalls name_of s first calls last
        → first.dir.moves ≡ Some before → last.dir.moves ≡ Some now → CountsFrom (length before) (length s.publications) s.publications before
        → length before ≤ moment → moment ≤ length now → IsImage (take moment now) image
        → IsPrefixAt name_of (after_calls name_of s calls).publications (length before) (length s.publications) (take moment now) image }
{
    given_of_steps();
}

/// From the call of an opening on, through it and the run behind it, each image of a moment is one that the directory handed in could have left, up to the second sync of
/// the opening. From there on its units are those after some of the publications, from those that were acknowledged at the moment to those that were made: in the opening
/// those that it found. From the end of the opening on it has no refused file.
pub fn a_stop_since_opening_leaves_a_prefix()
    ensures early { (name_of : List ℕ → List ℕ) (s : State) (first last : Store) (calls : List Called) (start before now : List Move) (moment : ℕ) (image : Image) → IsAt name_of s first → AreLibraryCalls name_of s first calls last
        → first.dir.moves ≡ Some before → last.dir.moves ≡ Some now → before ≡ start ++ opening_moves name_of start
        → length start ≤ moment → moment ≤ length start + 2 → IsImage (take moment now) image → IsImage start image }
    ensures units { (name_of : List ℕ → List ℕ) (s : State) (lanes : ℕ) (first last : Store) (calls : List Called) (start before now : List Move) (moment : ℕ) (image : Image) → s ≡ begun (opening_of name_of (standing start)) lanes
        → IsAt name_of s first → AreLibraryCalls name_of s first calls last → first.dir.moves ≡ Some before → last.dir.moves ≡ Some now → before ≡ start ++ opening_moves name_of start
        → CountsFrom (length before) (length s.publications) s.publications before → length start + 2 ≤ moment → moment ≤ length now → IsImage (take moment now) image
        → (count : ℕ) × (acknowledged (after_calls name_of s calls).publications (length s.publications) (units_moves (drop (length before) (take moment now))) ≤ count)
        × (count ≤ made (after_calls name_of s calls).publications (length s.publications) (units_moves (drop (length before) (take moment now))))
        × ((opening_of name_of image).units ≡ units_at (after_calls name_of s calls).publications count) }
    ensures refused { (name_of : List ℕ → List ℕ) (s : State) (first last : Store) (calls : List Called) (before now : List Move) (moment : ℕ) (image : Image) → IsAt name_of s first → AreLibraryCalls name_of s first calls last
        → first.dir.moves ≡ Some before → last.dir.moves ≡ Some now → CountsFrom (length before) (length s.publications) s.publications before
        → length before ≤ moment → moment ≤ length now → IsImage (take moment now) image → (opening_of name_of image).refused ≡ [] }
{
    given_of_steps();
    ix_opening::laws::a_stop_keeps_sound_units();
    ix_opening::laws::early_images_are_those_handed_in();
    ix_opening::laws::found_names_rise();
    ix_machine::laws::a_run_begins_with_what_is_found();
    ix_model::laws::the_latest_publication_stands();
}

/// A run worked by hand: what its turns show, each once and in order. A turn that the machine doesn't take has no run.
pub fn a_run_as_worked()
    ensures shown { (name_of : List ℕ → List ℕ) (s : State) (name : List ℕ)
        → option_map (λ run. run.events) (played_of name_of s (turn 0 (given.Lease (name ∷ [])) outcome.Done ∷ turn 1 given.Adopt outcome.Done ∷ turn 1 given.Scan outcome.Fault ∷ turn 0 (given.Load name purposes.Ask) outcome.Done ∷ turn 1 given.Release outcome.Done ∷ []))
        ≡ Some (event 0 (call.Lease (name ∷ [])) outcome.Done ∷ event 1 call.Adopt (outcome.At s.current) ∷ event 1 call.Scan outcome.Fault ∷ event 0 (call.Load name) outcome.Done ∷ event 1 call.Release outcome.Done ∷ []) }
    ensures named { (name_of : List ℕ → List ℕ) (s : State) (lane : ℕ) (unit : UnitValue) (output : List ℕ) (body : Body)
        → (named_call name_of s lane (given.Stage unit) ≡ call.Stage (name_of unit.output)) × (named_call name_of s lane (given.Remove output) ≡ call.Remove (name_of output)) × (named_call name_of s lane (given.Put body) ≡ call.Put body.name)
        × (staged_by s lane ≡ Some unit → named_call name_of s lane given.Publish ≡ call.Publish (name_of unit.output)) }
    ensures none { (name_of : List ℕ → List ℕ) (s : State) (lane : ℕ) (turns : List Turn) → played_of name_of s (turn lane given.Adopt outcome.Fault ∷ turns) ≡ None }
    ensures first { (name_of : List ℕ → List ℕ) (s : State) (earlier later : List Turn) (front rest : Played) → played_of name_of s earlier ≡ Some front → played_of name_of front.state later ≡ Some rest → played_of name_of s (earlier ++ later) ≡ Some (record { events = front.events ++ rest.events; state = rest.state }) }
{}
