//! What a stop leaves of a step that publishes nothing, how many changes of the units a step makes, and what a second opening begins with. A caller's proof gets a law by
//! calling its function, which does nothing.
ghost use Rattle.std.specs.Prelude.{◌≡◌, ◌⊎◌, ℕ, ◌+◌, ◌≤◌, List, [], ◌∷◌, ◌++◌, length, take, drop, count_by, None, Some};
ghost use Rattle.ix_dir.specs.declared.area.Area.TheVariants.{Units, Records};
ghost use Rattle.ix_dir.specs.declared.moves.Move.{Move};
ghost use Rattle.ix_dir.specs.declared.moves.Move.TheVariants.{Synced};
ghost use Rattle.ix_dir.specs.Crash.{standing};
ghost use Rattle.ix_dir.specs.Images.{Image, IsImage};
ghost use Rattle.ix_dir.specs.State.{DirState};
ghost use Rattle.ix_shelf.specs.Shelf.{OnShelf};
ghost use Rattle.ix_model.specs.declared.publication.Publication.{Publication};
ghost use Rattle.ix_model.specs.Units.{units_after};
ghost use Rattle.ix_machine.specs.declared.event.Outcome.{Outcome};
ghost use Rattle.ix_machine.specs.Counts.{acknowledged, is_change};
ghost use Rattle.ix_machine.specs.Given.{Given};
ghost use Rattle.ix_machine.specs.Run.{begun};
ghost use Rattle.ix_machine.specs.State.{State};
ghost use Rattle.ix_machine.specs.Step.{Stepped, step};
ghost use Rattle.ix_ledger.specs.Kept.{Kept};
ghost use Rattle.ix_opening.specs.AfterOpening.{IsFront, opening_moves};
ghost use Rattle.ix_opening.specs.Found.{opening_of};
ghost use Rattle.ix_stops.specs.Changes.{units_moves, waiting};
ghost use Rattle.ix_stops.specs.Prefixes.{CountsFrom, IsPrefix};
ghost use Rattle.ix_changes.specs.Holds.{Waits};
ghost use Rattle.ix_library.specs.declared.known.KnownStamps.{KnownStamps};
ghost use Rattle.ix_library.specs.StandsFor.{Takes};

use crate::given::given_of_steps;

/// At each moment of a step that makes no publication each image has the units from before it, and no refused file: all of them where nothing waited for a sync, as where no
/// change pended, and else those after some of the publications, at least those that were acknowledged before the step.
pub fn while_none_is_made()
    ensures synced { (name_of : List ℕ → List ℕ) (s : State) (lane : ℕ) (given : Given) (flag outcome : Outcome) (dir after : DirState) (kept : Kept) (shelf : OnShelf) (known : KnownStamps) (before now : List Move) (moment : ℕ) (image : Image)
        (takes : Takes name_of s lane given flag outcome dir kept shelf known after) → takes.next.publications ≡ s.publications → dir.moves ≡ Some before → after.moves ≡ Some now → waiting before ≡ 0
        → length before ≤ moment → moment ≤ length now → IsImage (take moment now) image → ((opening_of name_of image).units ≡ units_after s.publications) × ((opening_of name_of image).refused ≡ []) }
    ensures settled { (name_of : List ℕ → List ℕ) (s : State) (lane : ℕ) (given : Given) (flag outcome : Outcome) (dir after : DirState) (kept : Kept) (shelf : OnShelf) (known : KnownStamps) (before now : List Move) (moment : ℕ) (image : Image)
        (takes : Takes name_of s lane given flag outcome dir kept shelf known after) → takes.next.publications ≡ s.publications → dir.moves ≡ Some before → after.moves ≡ Some now → Waits s before → s.pending ≡ None
        → length before ≤ moment → moment ≤ length now → IsImage (take moment now) image → ((opening_of name_of image).units ≡ units_after s.publications) × ((opening_of name_of image).refused ≡ []) }
    ensures pending { (name_of : List ℕ → List ℕ) (s : State) (lane : ℕ) (given : Given) (flag outcome : Outcome) (dir after : DirState) (kept : Kept) (shelf : OnShelf) (known : KnownStamps) (before now : List Move) (from base moment : ℕ) (image : Image)
        (takes : Takes name_of s lane given flag outcome dir kept shelf known after) → takes.next.publications ≡ s.publications → dir.moves ≡ Some before → after.moves ≡ Some now → CountsFrom from base s.publications before
        → length before ≤ moment → moment ≤ length now → IsImage (take moment now) image → IsPrefix name_of s.publications (acknowledged s.publications base (units_moves (drop from before))) (length s.publications) image }
{
    given_of_steps();
}

/// A step makes as many changes of the units as publications: one, or none.
pub fn a_step_changes_units_as_it_publishes()
    ensures moves { (name_of : List ℕ → List ℕ) (s : State) (lane : ℕ) (given : Given) (flag outcome : Outcome) (dir after : DirState) (kept : Kept) (shelf : OnShelf) (known : KnownStamps) (before more : List Move) (from base : ℕ)
        (takes : Takes name_of s lane given flag outcome dir kept shelf known after) → dir.moves ≡ Some before → after.moves ≡ Some (before ++ more) → CountsFrom from base s.publications before
        → length s.publications + count_by is_change (units_moves more) ≡ length takes.next.publications }
    ensures publications { (name_of : List ℕ → List ℕ) (s : State) (lane : ℕ) (given : Given) (flag : Outcome) (stepped : Stepped) → step name_of s lane given flag ≡ Some stepped
        → (stepped.state.publications ≡ s.publications) ⊎ ((publication : Publication) × (stepped.state.publications ≡ s.publications ++ publication ∷ [])) }
{
    given_of_steps();
    ix_machine::laws::acknowledged_changes_are_synced();
    ix_machine::laws::calls_change_what_they_name();
    ix_machine::laws::refusals_change_nothing_else();
    ix_machine::laws::a_flag_is_the_outcome();
}

/// A store that is opened a second time begins with the state with which it began, whether it was stopped behind the end of the first opening or not, and refuses nothing; and
/// the second opening makes two syncs and removes nothing. Where the first one ended early, the files that stand begin with the same state, and its refused files may be there.
pub fn a_second_opening_begins_the_same()
    ensures standing { (name_of : List ℕ → List ℕ) (moves : List Move) (lanes : ℕ) → begun (opening_of name_of (standing (moves ++ opening_moves name_of moves))) lanes ≡ begun (opening_of name_of (standing moves)) lanes }
    ensures standing_refused { (name_of : List ℕ → List ℕ) (moves : List Move) → (opening_of name_of (standing (moves ++ opening_moves name_of moves))).refused ≡ [] }
    ensures stopped { (name_of : List ℕ → List ℕ) (moves : List Move) (lanes : ℕ) (image : Image) → IsImage (moves ++ opening_moves name_of moves) image → begun (opening_of name_of image) lanes ≡ begun (opening_of name_of (standing moves)) lanes }
    ensures stopped_refused { (name_of : List ℕ → List ℕ) (moves : List Move) (image : Image) → IsImage (moves ++ opening_moves name_of moves) image → (opening_of name_of image).refused ≡ [] }
    ensures ended_early { (name_of : List ℕ → List ℕ) (before now : List Move) (lanes : ℕ) → IsFront name_of before now → begun (opening_of name_of (standing now)) lanes ≡ begun (opening_of name_of (standing before)) lanes }
    ensures moves { (name_of : List ℕ → List ℕ) (moves : List Move) → opening_moves name_of (moves ++ opening_moves name_of moves) ≡ Synced Records ∷ Synced Units ∷ [] }
{
    ix_opening::laws::a_second_opening_finds_the_same();
    ix_opening::laws::a_crash_after_the_end_leaves_sound_units();
    ix_opening::laws::a_stop_keeps_sound_units();
    ix_opening::laws::opening_leaves_sound_files();
    ix_dir::laws::settled_area_leaves_what_stands();
    ix_dir::laws::contents_have_bytes();
    ix_machine::laws::a_run_begins_with_what_is_found();
}
