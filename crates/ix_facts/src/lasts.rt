//! How long a stop can undo a publication. A caller's proof gets a law by calling its function, which does nothing.
ghost use Rattle.std.specs.Prelude.{◌≡◌, ℕ, suc, ◌+◌, ◌≤◌, List, length, take, drop, Some, None};
ghost use Rattle.ix_dir.specs.declared.moves.Move.{Move};
ghost use Rattle.ix_dir.specs.Images.{Image, IsImage};
ghost use Rattle.ix_dir.specs.State.{DirState};
ghost use Rattle.ix_shelf.specs.Shelf.{OnShelf};
ghost use Rattle.ix_model.specs.declared.publication.Publication.{Publication};
ghost use Rattle.ix_machine.specs.declared.event.Outcome.TheVariants as outcome;
ghost use Rattle.ix_machine.specs.Counts.{acknowledged};
ghost use Rattle.ix_machine.specs.Given.{Given};
ghost use Rattle.ix_machine.specs.State.{State};
ghost use Rattle.ix_machine.specs.Step.{Stepped, step};
ghost use Rattle.ix_ledger.specs.Kept.{Kept};
ghost use Rattle.ix_stops.specs.Changes.{units_moves, waiting};
ghost use Rattle.ix_stops.specs.Prefixes.{CountsFrom, IsPrefix};
ghost use Rattle.ix_changes.specs.Holds.{Waits};
ghost use Rattle.ix_library.specs.declared.known.KnownStamps.{KnownStamps};
ghost use Rattle.ix_library.specs.StandsFor.{StandsFor};
ghost use Rattle.ix_facts.specs.Runs.{Called, IsAt, IsLibraryCall, AreLibraryCalls, Store, after_call, after_calls};

use crate::given::given_of_steps;

/// At most one change of the units waits for a sync, and none where no change pends. It is so behind an opening, and so a run keeps it. As many publications are not
/// acknowledged as changes wait: at most the last one.
pub fn at_most_the_last_waits()
    ensures begins { (s : State) (moves : List Move) (base : ℕ) → s.pending ≡ None → CountsFrom (length moves) base s.publications moves → Waits s moves }
    ensures goes_on { (name_of : List ℕ → List ℕ) (s : State) (first last : Store) (calls : List Called) (before now : List Move) → IsAt name_of s first → AreLibraryCalls name_of s first calls last
        → first.dir.moves ≡ Some before → last.dir.moves ≡ Some now → Waits s before → Waits (after_calls name_of s calls) now }
    ensures changes { (s : State) (moves : List Move) → Waits s moves → (waiting moves ≤ 1) × (s.pending ≡ None → waiting moves ≡ 0) }
    ensures publications { (publications : List Publication) (moves : List Move) (from base : ℕ) → CountsFrom from base publications moves
        → acknowledged publications base (units_moves (drop from moves)) + waiting moves ≡ length publications }
    ensures settled { (s : State) (moves : List Move) (from base : ℕ) → Waits s moves → CountsFrom from base s.publications moves → s.pending ≡ None
        → acknowledged s.publications base (units_moves (drop from moves)) ≡ length s.publications }
    ensures one { (s : State) (moves : List Move) (from base : ℕ) → Waits s moves → CountsFrom from base s.publications moves
        → length s.publications ≤ acknowledged s.publications base (units_moves (drop from moves)) + 1 }
    // The mark that is said to pend is that before the last publication. It is there where a change waits.
    ensures last { (name_of : List ℕ → List ℕ) (s : State) (kept : Kept) (shelf : OnShelf) (known : KnownStamps) (dir : DirState) (moves : List Move) → StandsFor name_of s kept shelf known dir
        → Waits s moves → (mark : ℕ) → kept.pending ≡ Some mark → suc mark ≡ kept.published }
    ensures pends { (name_of : List ℕ → List ℕ) (s : State) (kept : Kept) (shelf : OnShelf) (known : KnownStamps) (dir : DirState) (moves : List Move) → StandsFor name_of s kept shelf known dir
        → Waits s moves → waiting moves ≡ 1 → (mark : ℕ) × (kept.pending ≡ Some mark) × (suc mark ≡ kept.published) }
{
    given_of_steps();
    ix_changes::laws::at_most_one_change_waits();
}

/// Behind a call that ended Synced no change pends, and all publications are acknowledged. They stay so through the calls that follow: at each later moment a stop leaves
/// all of them, and maybe some of the later ones.
pub fn what_is_synced_lasts()
    ensures settled { (name_of : List ℕ → List ℕ) (s : State) (lane : ℕ) (given : Given) (stepped : Stepped) → step name_of s lane given outcome.Done ≡ Some stepped → stepped.outcome ≡ outcome.Synced → stepped.state.pending ≡ None }
    ensures acknowledged { (name_of : List ℕ → List ℕ) (s : State) (first between after : Store) (calls : List Called) (called : Called) (before now : List Move) (from base : ℕ) → IsAt name_of s first
        → AreLibraryCalls name_of s first calls between → IsLibraryCall name_of (after_calls name_of s calls) between called after → called.ending ≡ Some outcome.Synced
        → first.dir.moves ≡ Some before → after.dir.moves ≡ Some now → Waits s before → CountsFrom from base s.publications before
        → acknowledged (after_call name_of (after_calls name_of s calls) called).publications base (units_moves (drop from now)) ≡ length (after_call name_of (after_calls name_of s calls) called).publications }
    ensures stays { (name_of : List ℕ → List ℕ) (s synced : State) (first between after last : Store) (calls more : List Called) (called : Called) (before mid now : List Move) (from base moment : ℕ) → IsAt name_of s first
        → AreLibraryCalls name_of s first calls between → IsLibraryCall name_of (after_calls name_of s calls) between called after → called.ending ≡ Some outcome.Synced
        → synced ≡ after_call name_of (after_calls name_of s calls) called → AreLibraryCalls name_of synced after more last
        → first.dir.moves ≡ Some before → after.dir.moves ≡ Some mid → last.dir.moves ≡ Some now → Waits s before → CountsFrom from base s.publications before
        → length mid ≤ moment → length synced.publications ≤ acknowledged (after_calls name_of synced more).publications base (units_moves (drop from (take moment now))) }
    ensures stop { (name_of : List ℕ → List ℕ) (s synced : State) (first between after last : Store) (calls more : List Called) (called : Called) (before mid now : List Move) (from base moment : ℕ) (image : Image) → IsAt name_of s first
        → AreLibraryCalls name_of s first calls between → IsLibraryCall name_of (after_calls name_of s calls) between called after → called.ending ≡ Some outcome.Synced
        → synced ≡ after_call name_of (after_calls name_of s calls) called → AreLibraryCalls name_of synced after more last
        → first.dir.moves ≡ Some before → after.dir.moves ≡ Some mid → last.dir.moves ≡ Some now → Waits s before → CountsFrom from base s.publications before
        → length mid ≤ moment → moment ≤ length now → IsImage (take moment now) image
        → IsPrefix name_of (after_calls name_of synced more).publications (length synced.publications) (length (after_calls name_of synced more).publications) image }
{
    given_of_steps();
}
