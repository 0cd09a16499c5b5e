//! What follows of the moves of an opening. A caller's proof gets a law by calling its function, which does nothing.
ghost use Rattle.std.specs.Prelude.{◌≡◌, ℕ, ◌+◌, ◌≤◌, List, [], ◌++◌, length, map, take};
ghost use Rattle.std.specs.FinMap.{entries};
ghost use Rattle.std.specs.List.{AllByRecursion};
ghost use Rattle.std.specs.List.Sorted.{IsStrictlySortedBy};
ghost use Rattle.ix_types.specs.Row.{text_cmp};
ghost use Rattle.ix_dir.specs.declared.area.Area.TheVariants.{Units, Records};
ghost use Rattle.ix_dir.specs.declared.moves.Move.{Move};
ghost use Rattle.ix_dir.specs.Crash.{standing, IsSettled};
ghost use Rattle.ix_dir.specs.Files.{bytes_at};
ghost use Rattle.ix_dir.specs.Images.{Image, IsImage};
ghost use Rattle.ix_dir.specs.Moves.{area_after};
ghost use Rattle.ix_model.specs.Units.{NamesRise};
ghost use Rattle.ix_opening.specs.AfterOpening.{opening_moves, sound_bytes, IsFront};
ghost use Rattle.ix_opening.specs.Found.{opening_of};

/// The unit files that opening leaves are the sound ones, and nothing is pending. Wherever it stops, the records are those that stood.
pub fn opening_leaves_sound_files()
    ensures units { (name_of : List ℕ → List ℕ) (moves : List Move) (name : List ℕ) → bytes_at (area_after (moves ++ opening_moves name_of moves) Units) name ≡ sound_bytes name_of (entries (standing moves Records)) name (bytes_at (area_after moves Units) name) }
    ensures settled { (name_of : List ℕ → List ℕ) (moves : List Move) → IsSettled (moves ++ opening_moves name_of moves) }
    ensures records { (name_of : List ℕ → List ℕ) (before now : List Move) → IsFront name_of before now → standing now Records ≡ standing before Records }
{
    ix_dir::laws::area_takes_a_step();
    ix_dir::laws::values_take_a_step();
    ix_dir::laws::last_value_stands();
    ix_dir::laws::standing_is_image();
}

/// A second opening finds the same sound units, and refuses none.
pub fn a_second_opening_finds_the_same()
    ensures units { (name_of : List ℕ → List ℕ) (moves : List Move) → (opening_of name_of (standing (moves ++ opening_moves name_of moves))).units ≡ (opening_of name_of (standing moves)).units }
    ensures refused { (name_of : List ℕ → List ℕ) (moves : List Move) → (opening_of name_of (standing (moves ++ opening_moves name_of moves))).refused ≡ [] }
{
    ix_dir::laws::area_takes_a_step();
    ix_dir::laws::values_take_a_step();
    ix_dir::laws::last_value_stands();
    ix_dir::laws::standing_is_image();
}

/// Wherever an opening stops, the sound units are those that were. From its second sync on, so are those of each image.
pub fn a_stop_keeps_sound_units()
    ensures standing { (name_of : List ℕ → List ℕ) (before now : List Move) → IsFront name_of before now → (opening_of name_of (standing now)).units ≡ (opening_of name_of (standing before)).units }
    ensures images { (name_of : List ℕ → List ℕ) (before now : List Move) (moment : ℕ) (image : Image) → IsFront name_of before now → length before + 2 ≤ moment → moment ≤ length now → IsImage (take moment now) image → (opening_of name_of image).units ≡ (opening_of name_of (standing before)).units }
{
    ix_dir::laws::area_takes_a_step();
    ix_dir::laws::values_take_a_step();
    ix_dir::laws::last_value_stands();
    ix_dir::laws::standing_is_image();
}

/// Up to its second sync an opening leaves nothing that the directory handed in could not have left.
pub fn early_images_are_those_handed_in()
    ensures { (name_of : List ℕ → List ℕ) (before now : List Move) (moment : ℕ) (image : Image) → IsFront name_of before now → length before ≤ moment → moment ≤ length before + 2 → IsImage (take moment now) image → IsImage before image }
{
    ix_dir::laws::sync_takes_images_away();
}

/// Once an opening is at its end, a crash leaves the sound units, and no refused file.
pub fn a_crash_after_the_end_leaves_sound_units()
    ensures units { (name_of : List ℕ → List ℕ) (moves : List Move) (image : Image) → IsImage (moves ++ opening_moves name_of moves) image → (opening_of name_of image).units ≡ (opening_of name_of (standing moves)).units }
    ensures refused { (name_of : List ℕ → List ℕ) (moves : List Move) (image : Image) → IsImage (moves ++ opening_moves name_of moves) image → (opening_of name_of image).refused ≡ [] }
{
    ix_dir::laws::settled_area_leaves_what_stands();
    opening_leaves_sound_files();
    a_second_opening_finds_the_same();
}

/// Whatever the files, each unit that opening finds has the name of its output path, and units and refused files rise by name.
pub fn found_names_rise()
    ensures named { (name_of : List ℕ → List ℕ) (image : Image) → AllByRecursion (λ entry. entry.0 ≡ name_of entry.1.unit.output) (opening_of name_of image).units }
    ensures units { (name_of : List ℕ → List ℕ) (image : Image) → NamesRise (opening_of name_of image).units }
    ensures refused { (name_of : List ℕ → List ℕ) (image : Image) → IsStrictlySortedBy text_cmp (map (λ r. r.name) (opening_of name_of image).refused) }
{}
