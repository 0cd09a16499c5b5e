//! Laws of the definitions, each the contract of a function that does nothing.
ghost use Rattle.std.specs.Prelude.{◌≡◌, ◌+◌, ◌-◌, ◌≤◌, ◌++◌, ℕ, List, [], length, map, take, drop};
ghost use Rattle.ix_types.specs.Name.{IsFileName};
ghost use Rattle.ix_dir.specs.declared.area.Area.TheVariants.{Records, Units};
ghost use Rattle.ix_dir.specs.declared.moves.Move.{Move};
ghost use Rattle.ix_dir.specs.Crash.{standing};
ghost use Rattle.ix_dir.specs.Images.{Image, IsImage};
ghost use Rattle.ix_machine.specs.Counts.{acknowledged, changes_after, made};
ghost use Rattle.ix_model.specs.declared.publication.Publication.{Publication};
ghost use Rattle.ix_model.specs.declared.publication.Publication.TheVariants.{Put};
ghost use Rattle.ix_model.specs.declared.publication.StoredUnit.{StoredUnit};
ghost use Rattle.ix_model.specs.Units.{units_after, units_at};
ghost use Rattle.ix_opening.specs.AfterOpening.{opening_moves};
ghost use Rattle.ix_opening.specs.Found.{opening_of};
ghost use Rattle.ix_plan.specs.declared.plan.Script.{Script};
ghost use Rattle.ix_replay.specs.Left.{IsLeft, StopsInOpening, StopsInRun};
ghost use Rattle.ix_replays.specs.Run.{Run, fresh, lanes_of};
ghost use Rattle.ix_stops.specs.Changes.{units_moves, waiting};
ghost use Rattle.ix_stops.specs.Stands.{StandsOnDisk};
ghost use Rattle.ix_stops.specs.UnitFiles.{Spell};
ghost use Rattle.ix_turn_order.specs.Order.{ComesTo};

use ix_types::{Naming, Sha};

/// The name that SHA-256 gives is that of a file, whatever the bytes are.
pub fn names_of_digests_are_file_names()
    ensures { (bytes : List ℕ) → IsFileName (⟦<Sha as Naming>⟧.name_of bytes) }
{}

/// What a replay leaves: the moves before it, those of its opening, and more; unit files that are the spellings of the units after all publications of its run; these are the units that opening found
/// and one more for each units change since. A stop behind opening leaves the units after some of the publications and no refused file, one in it behind the second sync the units that opening found, and one
/// before that what it could leave before.
pub fn a_replay_leaves_its_publications()
    ensures moves { (name_of : List ℕ → List ℕ) (before : List Move) (run : Run) (now : List Move) → IsLeft name_of before run now → (more : List Move) × (now ≡ (before ++ opening_moves name_of before) ++ more) }
    ensures files { (name_of : List ℕ → List ℕ) (before : List Move) (run : Run) (now : List Move) → IsLeft name_of before run now → Spell name_of (standing now Units) (units_after run.state.publications) }
    ensures begins { (name_of : List ℕ → List ℕ) (before : List Move) (run : Run) (now : List Move) → IsLeft name_of before run now
        → (more : List Publication) × (run.state.publications ≡ map (λ (entry : List ℕ × StoredUnit). Put entry.0 entry.1) (opening_of name_of (standing before)).units ++ more) }
    ensures changes { (name_of : List ℕ → List ℕ) (before : List Move) (run : Run) (now : List Move) → IsLeft name_of before run now
        → (changes_after (length (opening_of name_of (standing before)).units) (units_moves (drop (length (before ++ opening_moves name_of before)) now))).made ≡ length run.state.publications }
    ensures stop { (name_of : List ℕ → List ℕ) (before : List Move) (run : Run) (now : List Move) (moment : ℕ) (image : Image) → IsLeft name_of before run now
        → length (before ++ opening_moves name_of before) ≤ moment → moment ≤ length now → IsImage (take moment now) image
        → (count : ℕ) × (acknowledged run.state.publications (length (opening_of name_of (standing before)).units) (units_moves (drop (length (before ++ opening_moves name_of before)) (take moment now))) ≤ count)
        × (count ≤ made run.state.publications (length (opening_of name_of (standing before)).units) (units_moves (drop (length (before ++ opening_moves name_of before)) (take moment now))))
        × ((opening_of name_of image).units ≡ units_at run.state.publications count) × ((opening_of name_of image).refused ≡ []) }
    ensures opening { (name_of : List ℕ → List ℕ) (before : List Move) (run : Run) (now : List Move) (moment : ℕ) (image : Image) → IsLeft name_of before run now
        → length before + 2 ≤ moment → moment ≤ length (before ++ opening_moves name_of before) → IsImage (take moment now) image → (opening_of name_of image).units ≡ (opening_of name_of (standing before)).units }
    ensures early { (name_of : List ℕ → List ℕ) (before : List Move) (run : Run) (now : List Move) (moment : ℕ) (image : Image) → IsLeft name_of before run now
        → length before ≤ moment → moment ≤ length before + 2 → IsImage (take moment now) image → IsImage before image }
{}

/// What a replay that stopped leaves. In its opening: the first of the moves of one, the records, and the sound units, which a stop behind the second sync leaves too. In its run: what the state of a run
/// says to which the replay comes, and a stop leaves the units after all its publications, or without those whose change waits.
pub fn a_stopped_replay_leaves_what_was_there()
    ensures moves { (name_of : List ℕ → List ℕ) (before now : List Move) → StopsInOpening name_of before now → (count : ℕ) × (now ≡ before ++ take count (opening_moves name_of before)) }
    ensures records { (name_of : List ℕ → List ℕ) (before now : List Move) → StopsInOpening name_of before now → standing now Records ≡ standing before Records }
    ensures units { (name_of : List ℕ → List ℕ) (before now : List Move) → StopsInOpening name_of before now → (opening_of name_of (standing now)).units ≡ (opening_of name_of (standing before)).units }
    ensures stop { (name_of : List ℕ → List ℕ) (before now : List Move) (moment : ℕ) (image : Image) → StopsInOpening name_of before now → length before + 2 ≤ moment → moment ≤ length now
        → IsImage (take moment now) image → (opening_of name_of image).units ≡ (opening_of name_of (standing before)).units }
    ensures early { (name_of : List ℕ → List ℕ) (before now : List Move) (moment : ℕ) (image : Image) → StopsInOpening name_of before now → length before ≤ moment → moment ≤ length before + 2
        → IsImage (take moment now) image → IsImage before image }
    ensures run { (name_of : List ℕ → List ℕ) (script : Script) (before now : List Move) → StopsInRun name_of before script now → (run : Run) × (rest : List ℕ)
        × ComesTo name_of (lanes_of name_of script) (fresh name_of script (opening_of name_of (standing before))) script.order run rest × StandsOnDisk name_of run.state now
        × ((image : Image) → IsImage now image → (count : ℕ) × (length run.state.publications - waiting now ≤ count) × (count ≤ length run.state.publications)
        × ((opening_of name_of image).units ≡ units_at run.state.publications count) × ((opening_of name_of image).refused ≡ [])) }
{}
