//! What a library stands for, whether or not its directory tells its moves. A caller's proof gets a law by calling its function, which does nothing.
ghost use Rattle.std.specs.Prelude.{◌≡◌, ℕ, List, [], ◌∷◌, ◌++◌, true, Option, Some, None, IsSome, Result};
ghost use Rattle.std.specs.Global.{Global};
ghost use Rattle.ix_dir.specs.declared.moves.Move.{Move};
ghost use Rattle.ix_dir.specs.State.{DirState, is_staged};
ghost use Rattle.std.specs.declared.sync.Arc.{Arc};
ghost use Rattle.ix_record.specs.declared.body.Body.{Body};
ghost use Rattle.ix_record.specs.declared.value.RecordValue.{RecordValue};
ghost use Rattle.ix_unit.specs.declared.batch.Scan.{Scan};
ghost use Rattle.ix_unit.specs.declared.value.UnitValue.{UnitValue};
ghost use Rattle.ix_shelf.specs.declared.shelf.Put.{Put};
ghost use Rattle.ix_shelf.specs.declared.fault.PutError.{PutError};
ghost use Rattle.ix_shelf.specs.declared.fault.LoadError.{LoadError};
ghost use Rattle.ix_cabinet.specs.declared.change.Settled.{Settled};
ghost use Rattle.ix_cabinet.specs.declared.fault.ScanError.{ScanError};
ghost use Rattle.ix_cabinet.specs.declared.fault.StageError.{StageError};
ghost use Rattle.ix_machine.specs.declared.event.Outcome.{Outcome};
ghost use Rattle.ix_machine.specs.declared.event.Outcome.TheVariants as outcome;
ghost use Rattle.ix_machine.specs.declared.event.Purpose.{Purpose};
ghost use Rattle.ix_machine.specs.Given as given;
ghost use Rattle.ix_machine.specs.Given.{Given};
ghost use Rattle.ix_machine.specs.Laws.{AreNamed};
ghost use Rattle.ix_machine.specs.Needs.{option_any, visible};
ghost use Rattle.ix_machine.specs.declared.opened.Refused.{Refused};
ghost use Rattle.ix_machine.specs.Opening.{opening};
ghost use Rattle.ix_machine.specs.Run.{begun};
ghost use Rattle.ix_machine.specs.Sound.{MarksInOrder};
ghost use Rattle.ix_machine.specs.State.{State};
ghost use Rattle.ix_machine.specs.Step.{ended, step};
ghost use Rattle.ix_guard.specs.Guarding.{lease_of};
ghost use Rattle.ix_guard.specs.Protection.{leases_name};
ghost use Rattle.ix_ledger.specs.Effects.{leased, installed, adopted, released, publish_change, remove_change};
ghost use Rattle.ix_ledger.specs.Kept.{Kept, staged_in};
ghost use Rattle.ix_ledger.specs.OfState.{kept_of};
ghost use Rattle.ix_library.specs.declared.fault.Collected.{Collected};
ghost use Rattle.ix_library.specs.declared.fault.CollectError.{CollectError};
ghost use Rattle.ix_library.specs.declared.fault.PublishError.{PublishError};
ghost use Rattle.ix_library.specs.declared.fault.RemoveError.{RemoveError};
ghost use Rattle.ix_library.specs.declared.known.KnownStamps.{KnownStamps};
ghost use Rattle.ix_library.specs.Conditions.{has_put_each};
ghost use Rattle.ix_library.specs.Endings.{flag_for, with_event, put_ending, put_leaves, stage_ending, stage_leaves, publish_name, publish_ending, publish_leaves, IsPublishAnswer, remove_ending, remove_leaves, IsRemoveAnswer, collect_ending, collect_leaves};
ghost use Rattle.ix_library.specs.LookEndings.{scan_ending, scan_leaves, load_ending, load_leaves};
ghost use Rattle.ix_library.specs.Opened.{BeginsWith};
ghost use Rattle.ix_library.specs.StandsFor.{HasSlots, StandsFor};
ghost use Rattle.ix_shelf.specs.Shelf.{OnShelf};
ghost use Rattle.ix_facts.specs.Runs.{Called, Store, shown};
ghost use Rattle.ix_facts.specs.There.{IsThere, AreThereBehind, call_leaves, calls_leave, calls_log, entry_leaves};

use crate::given::{given_of_guard, given_of_ledger};

/// A library that is there for a state is there, behind each of its calls, for what the call's entry leaves, and for the same state where memory was wanting. Of each call its own
/// clauses are the premises: what it wants of the lane's lease, what it leaves of what is kept, and of the slots.
pub fn each_entry_is_followed()
    ensures leases { (name_of : List ℕ → List ℕ) (s : State) (lane : ℕ) (names : List (List ℕ)) (kept now : Kept) (dir after : DirState) → IsThere s kept dir
        → now ≡ leased kept lane names → (HasSlots kept dir → HasSlots now after) → IsThere (entry_leaves name_of s lane (given.Lease names) outcome.Done) now after }
    ensures puts { (name_of : List ℕ → List ℕ) (s : State) (lane : ℕ) (body : Body) (result : Result Put PutError) (kept now : Kept) (dir after : DirState) → IsThere s kept dir
        → option_any (leases_name body.name) (lease_of kept.guard lane) ≡ true
        → now ≡ put_leaves result kept lane body.name → (HasSlots kept dir → HasSlots now after) → IsThere (call_leaves name_of s lane (given.Put body) (put_ending result)) now after }
    ensures stages { (name_of : List ℕ → List ℕ) (s : State) (lane : ℕ) (unit : UnitValue) (result : Result (Unit {0}) StageError) (kept now : Kept) (dir after : DirState) → IsThere s kept dir
        → has_put_each unit.records (lease_of kept.guard lane) ≡ true
        → now ≡ stage_leaves result kept lane unit → (HasSlots kept dir → HasSlots now after) → IsThere (call_leaves name_of s lane (given.Stage unit) (stage_ending result)) now after }
    ensures publishes { (name_of : List ℕ → List ℕ) (s : State) (lane : ℕ) (result : Result Settled PublishError) (kept now : Kept) (dir after : DirState) → MarksInOrder s → IsThere s kept dir
        → IsSome (staged_in kept lane) → IsPublishAnswer result (publish_name name_of kept lane) (publish_change kept lane (publish_name name_of kept lane))
        → now ≡ publish_leaves result kept lane (publish_change kept lane (publish_name name_of kept lane)) → HasSlots now after → IsThere (call_leaves name_of s lane given.Publish (publish_ending result)) now after }
    ensures removes { (name_of : List ℕ → List ℕ) (s : State) (lane : ℕ) (output : List ℕ) (result : Result Settled RemoveError) (kept now : Kept) (dir after : DirState) → MarksInOrder s → IsThere s kept dir
        → IsRemoveAnswer result (name_of output) (remove_change kept (name_of output) output)
        → now ≡ remove_leaves result kept (remove_change kept (name_of output) output) → (HasSlots kept dir → HasSlots now after) → IsThere (call_leaves name_of s lane (given.Remove output) (remove_ending result)) now after }
    ensures scans { (name_of : List ℕ → List ℕ) (s : State) (lane : ℕ) (result : Result Scan ScanError) (kept now : Kept) (dir after : DirState) → IsThere s kept dir
        → now ≡ scan_leaves result kept lane → (HasSlots kept dir → HasSlots now after) → IsThere (call_leaves name_of s lane given.Scan (scan_ending result)) now after }
    ensures loads { (name_of : List ℕ → List ℕ) (s : State) (lane : ℕ) (name : List ℕ) (purpose : Purpose) (result : Result (Arc RecordValue Global) LoadError) (kept now : Kept) (dir after : DirState) → IsThere s kept dir
        → now ≡ load_leaves purpose result kept → (HasSlots kept dir → HasSlots now after) → IsThere (call_leaves name_of s lane (given.Load name purpose) (load_ending result)) now after }
    ensures installs { (name_of : List ℕ → List ℕ) (s : State) (lane mark : ℕ) (kept now : Kept) (dir after : DirState) → IsThere s kept dir
        → now ≡ installed kept lane → (HasSlots kept dir → HasSlots now after) → IsThere (entry_leaves name_of s lane given.Install (outcome.At mark)) now after }
    ensures adopts { (name_of : List ℕ → List ℕ) (s : State) (lane mark : ℕ) (kept now : Kept) (dir after : DirState) → IsThere s kept dir
        → now ≡ adopted kept lane → (HasSlots kept dir → HasSlots now after) → IsThere (entry_leaves name_of s lane given.Adopt (outcome.At mark)) now after }
    ensures releases { (name_of : List ℕ → List ℕ) (s : State) (lane : ℕ) (kept now : Kept) (dir after : DirState) → IsThere s kept dir
        → now ≡ released kept lane → (HasSlots kept dir → HasSlots now after) → IsThere (entry_leaves name_of s lane given.Release outcome.Done) now after }
    ensures collects { (name_of : List ℕ → List ℕ) (s : State) (lane : ℕ) (result : Result Collected CollectError) (kept now : Kept) (dir after : DirState) → IsThere s kept dir
        → now ≡ collect_leaves result kept → (HasSlots kept dir → HasSlots now after) → IsThere (call_leaves name_of s lane given.Collect (collect_ending result)) now after }
    // Want of memory in a lease, an install, an adopt and a release.
    ensures wanting { (s : State) (kept now : Kept) (dir after : DirState) → IsThere s kept dir → now ≡ kept → (HasSlots kept dir → HasSlots now after) → IsThere s now after }
{
    given_of_ledger();
    given_of_guard();
}

/// A library that is there for a state stays there through its calls, for what their entries leave one after the other; and what happened are their events, in order. The marks
/// stay in order. A library begins so behind an opening, and one that stands for a state is there for it.
pub fn entries_are_followed()
    ensures stays { (name_of : List ℕ → List ℕ) (s : State) (first last : Store) (calls : List Called) → IsThere s first.kept first.dir → AreThereBehind name_of s first calls last
        → IsThere (calls_leave name_of s calls) last.kept last.dir }
    ensures marks { (name_of : List ℕ → List ℕ) (s : State) (lane : ℕ) (given : Given) (how : Outcome) → MarksInOrder s → MarksInOrder (entry_leaves name_of s lane given how) }
    ensures marks_stay { (name_of : List ℕ → List ℕ) (s : State) (calls : List Called) → MarksInOrder s → MarksInOrder (calls_leave name_of s calls) }
    ensures begins { (name_of : List ℕ → List ℕ) (s : State) (first : Store) → AreThereBehind name_of s first [] first }
    ensures goes_on { (name_of : List ℕ → List ℕ) (s : State) (first between last : Store) (calls : List Called) (called : Called) → AreThereBehind name_of s first calls between
        → (IsThere (calls_leave name_of s calls) between.kept between.dir → IsThere (call_leaves name_of (calls_leave name_of s calls) called.lane called.given called.ending) last.kept last.dir)
        → last.events ≡ with_event between.events called.lane (shown name_of between.kept called.lane called.given) called.ending
        → AreThereBehind name_of s first (calls ++ called ∷ []) last }
    ensures logged { (name_of : List ℕ → List ℕ) (s : State) (first last : Store) (calls : List Called) → IsThere s first.kept first.dir → AreThereBehind name_of s first calls last
        → last.events ≡ first.events ++ calls_log name_of s calls }
    ensures opens { (name_of : List ℕ → List ℕ) (moves : Option (List Move)) (lanes : ℕ) (refused : List Refused) (kept : Kept) (dir : DirState) (begins : BeginsWith name_of moves lanes refused kept) → HasSlots kept dir
        → IsThere (begun (opening name_of begins.units begins.records) lanes) kept dir × MarksInOrder (begun (opening name_of begins.units begins.records) lanes) }
    ensures stands { (name_of : List ℕ → List ℕ) (s : State) (kept : Kept) (shelf : OnShelf) (known : KnownStamps) (dir : DirState) → StandsFor name_of s kept shelf known dir → IsThere s kept dir }
    ensures keeps { (s : State) (kept : Kept) (dir : DirState) → IsThere s kept dir → kept ≡ kept_of s }
    ensures there { (s : State) (kept : Kept) (dir : DirState) → IsThere s kept dir → (lane : ℕ) → IsSome (staged_in kept lane) → is_staged dir lane ≡ true }
{}

/// What an entry leaves is what the machine's step leaves that ends so, of all that a library keeps: all but record files and the values of publications.
pub fn an_entry_leaves_what_the_machine_does()
    ensures { (name_of : List ℕ → List ℕ) (s next : State) (lane : ℕ) (given : Given) (how : Outcome) → MarksInOrder s → AreNamed name_of (visible s)
        → step name_of s lane given (flag_for how) ≡ Some (ended how next) → kept_of (entry_leaves name_of s lane given how) ≡ kept_of next }
{
    given_of_ledger();
}
