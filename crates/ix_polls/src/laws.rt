//! What follows for a caller of an importer that follows the machine. A caller's proof gets a law by calling its function, which does nothing.
ghost use Rattle.std.specs.Prelude.{◌≡◌, ◌≤◌, ◌↔◌, ℕ, true, List, [], length, None, Some, slice_get};
ghost use Rattle.ix_dir.specs.State.{DirState};
ghost use Rattle.ix_machine.specs.declared.event.Outcome.{Outcome};
ghost use Rattle.ix_machine.specs.Given.{Given};
ghost use Rattle.ix_machine.specs.Needs.{seen_at};
ghost use Rattle.ix_machine.specs.Run.{Opening, IsFresh, OpenedImport, begun};
ghost use Rattle.ix_machine.specs.Sound.{MarksInOrder};
ghost use Rattle.ix_machine.specs.State.{State};
ghost use Rattle.ix_machine.specs.Step.{Stepped, step};
ghost use Rattle.ix_shelf.specs.Shelf.{OnShelf};
ghost use Rattle.ix_ledger.specs.Kept.{Kept};
ghost use Rattle.ix_library.specs.declared.known.KnownStamps.{KnownStamps};
ghost use Rattle.ix_library.specs.StandsFor.{StandsFor};
ghost use Rattle.ix_outline.specs.Known.{AreTables};
ghost use Rattle.ix_import.specs.Importing.{Importing as Importer, next_of};
ghost use Rattle.ix_lanes.specs.Calls.{fresh_in};
ghost use Rattle.ix_lanes.specs.declared.doing.Doing.{Doing};
ghost use Rattle.ix_lanes.specs.declared.doing.Doing.TheVariants.{Importing};
ghost use Rattle.ix_polls.specs.Following.{IsImporting, IsUnderWay, leaves_import};
ghost use Rattle.ix_polls.specs.Given.{Laws};
ghost use Rattle.ix_polls.specs.Polling.{FollowsThere};

/// From the start of a run on an importer of no units, with no import open, follows the machine.
pub fn an_importer_begins_with_the_machine()
    ensures { (opening : Opening) (lanes : ℕ) (importer : Importer) → importer.number ≡ 0 → importer.import ≡ None → AreTables [] importer.known → IsImporting (begun opening lanes) importer }
{
    ix_model::laws::the_latest_publication_stands();
}

/// A step that is no scan, no load for an import and no install leaves the open import, the current mark, and the units at each mark so far. So the importer
/// follows the machine on, and each lane is as far with its import as before.
pub fn other_steps_leave_the_import()
    ensures import { (name_of : List ℕ → List ℕ) (s : State) (lane : ℕ) (given : Given) (flag : Outcome) (stepped : Stepped) → leaves_import given ≡ true
        → step name_of s lane given flag ≡ Some stepped → stepped.state.import ≡ s.import }
    ensures current { (name_of : List ℕ → List ℕ) (s : State) (lane : ℕ) (given : Given) (flag : Outcome) (stepped : Stepped) → leaves_import given ≡ true
        → step name_of s lane given flag ≡ Some stepped → stepped.state.current ≡ s.current }
    ensures seen { (name_of : List ℕ → List ℕ) (s : State) (lane : ℕ) (given : Given) (flag : Outcome) (stepped : Stepped) (mark : ℕ) → leaves_import given ≡ true
        → step name_of s lane given flag ≡ Some stepped → mark ≤ length s.publications → seen_at stepped.state mark ≡ seen_at s mark }
    ensures follows { (name_of : List ℕ → List ℕ) (s : State) (lane : ℕ) (given : Given) (flag : Outcome) (stepped : Stepped) (importer : Importer) → MarksInOrder s → leaves_import given ≡ true
        → step name_of s lane given flag ≡ Some stepped → IsImporting s importer → IsImporting stepped.state importer }
    ensures under_way { (name_of : List ℕ → List ℕ) (s : State) (lane : ℕ) (given : Given) (flag : Outcome) (stepped : Stepped) (importer : Importer) (other : ℕ) (doing : Doing) → leaves_import given ≡ true
        → step name_of s lane given flag ≡ Some stepped → IsUnderWay s other doing importer → IsUnderWay stepped.state other doing importer }
{
    ix_model::laws::the_latest_publication_stands();
    ix_machine::laws::calls_change_what_they_name();
    ix_library::laws::steps_join();
}

/// Of an import under way the next new name is the next of those that a poll loads; it may be loaded, and the import is the lane's own.
pub fn an_import_under_way_has_its_next_name()
    ensures next { (s : State) (lane mark records : ℕ) (importer : Importer) → IsImporting s importer → IsUnderWay s lane (Importing mark records) importer
        → next_of importer ≡ slice_get (fresh_in (seen_at s s.current) (seen_at s mark)) records }
    ensures own { (s : State) (lane mark records : ℕ) (importer : Importer) → IsUnderWay s lane (Importing mark records) importer → OpenedImport s lane }
    ensures may { (s : State) (name : List ℕ) (importer : Importer) → IsImporting s importer → next_of importer ≡ Some name → IsFresh s name }
    ensures none { (s : State) (importer : Importer) → IsImporting s importer → (importer.import ≡ None) ↔ (s.import ≡ None) }
{
    given();
}

/// Where the library stands for a state that the importer follows, it may go on with the import.
pub fn where_it_follows_it_may_import()
    ensures { (name_of : List ℕ → List ℕ) (s : State) (kept : Kept) (shelf : OnShelf) (known : KnownStamps) (dir : DirState) (importer : Importer) → StandsFor name_of s kept shelf known dir
        → IsImporting s importer → FollowsThere name_of kept shelf known dir importer }
{}

/// What the proofs of this crate take from the crates below.
pub(crate) fn given()
    ensures { Laws }
{
    ix_model::laws::answers_are_sorted_sets();
    ix_model::laws::the_latest_publication_stands();
    ix_import::laws::an_import_begins();
    ix_import::laws::an_import_goes_on();
    ix_import::laws::the_next_name_is_the_least();
    ix_looks::laws::records_that_stand_have_one_value();
}
