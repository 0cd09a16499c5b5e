//! What follows of moves and of what a crash may leave. A caller's proof gets a law by calling its function, which does nothing.
ghost use Rattle.std.specs.Prelude.{◌≡◌, ◌≢◌, ◌↔◌, ◌⊎◌, ℕ, ◌≤◌, List, [], ◌∷◌, ◌++◌, length, map, take, drop, slice_get, if◌then◌else◌, Bool, true, false, IsTrue, ◌&&◌, Option, None, Some, is_some, Result, Ok, Err, Contains};
ghost use Rattle.std.specs.FinMap.{get};
ghost use Rattle.std.specs.List.{list_any};
ghost use Rattle.ix_dir.specs.declared.area.Area.{Area};
ghost use Rattle.ix_dir.specs.declared.area.Area.TheVariants.{Units, Records};
ghost use Rattle.ix_dir.specs.declared.dir.DirError.{DirError};
ghost use Rattle.ix_dir.specs.Calls.{with_move, Renames, removed, moves_removed, is_find};
ghost use Rattle.ix_dir.specs.Crash.{IsPicked, IsSettled, IsSettledIn, names_since, standing, value_for};
ghost use Rattle.ix_dir.specs.declared.pick.Pick.{Pick};
ghost use Rattle.ix_dir.specs.Files.{File, Files, Contents, bytes_at, stamp_at, contents_of, listed_of, IsRising};
ghost use Rattle.ix_dir.specs.declared.dir.Listed.{Listed};
ghost use Rattle.ix_dir.specs.Images.{Value, values_of, values_step, last_alone, Image, IsImage, IsImageIn};
ghost use Rattle.ix_dir.specs.WhatAChangeLeaves.{LeavesAt, Adds, AddsTo, IfTold};
ghost use Rattle.ix_dir.specs.StoodSinceSync.{StoodSince, syncs, is_placed};
ghost use Rattle.ix_dir.specs.Moves.{Move, Renamed, Synced, area_after, area_step, same_area, same_name};
ghost use Rattle.ix_dir.specs.Stamps.{stamps_of, IsFresh, HasFreshStamps};

/// One move more takes its step from what stood before it.
pub fn area_takes_a_step()
    ensures { (moves : List Move) (move : Move) (area : Area) → area_after (moves ++ move ∷ []) area ≡ area_step area (area_after moves area) move }
{}

/// A read is a find exactly where it answers bytes of the records area.
pub fn finds_are_of_records()
    ensures found { is_find {X = List ℕ} Records (Ok (Some [])) ≡ true }
    ensures nothing { is_find {X = List ℕ} Records (Ok None) ≡ false }
    ensures units { (result : Result (Option (List ℕ)) DirError) → is_find Units result ≡ false }
    ensures failed { (error : DirError) → is_find {X = List ℕ} Records (Err error) ≡ false }
{}

/// One move more takes its step from the values before it.
pub fn values_take_a_step()
    ensures { (moves : List Move) (move : Move) (area : Area) (name : List ℕ) → values_of (moves ++ move ∷ []) area name ≡ values_step area name (values_of moves area name) move }
{}

/// The last value is what stands.
pub fn last_value_stands()
    ensures { (moves : List Move) (area : Area) (name : List ℕ) → last_alone (values_of moves area name) ≡ bytes_at (area_after moves area) name ∷ [] }
{}

/// After a sync of its area a name has one value, what stands there.
pub fn synced_value_stands()
    ensures { (moves : List Move) (area : Area) (name : List ℕ) → values_of (moves ++ Synced area ∷ []) area name ≡ bytes_at (area_after moves area) name ∷ [] }
{}

/// Each value stood there at some moment since the area's last sync.
pub fn values_stood()
    ensures { (moves : List Move) (area : Area) (name : List ℕ) (value : Value) → Contains (values_of moves area name) value → StoodSince moves area name value }
{}

/// Each value that stood there since the area's last sync is among them, unless a file was placed at the name later.
pub fn values_that_stood_stay()
    ensures { (moves : List Move) (area : Area) (name : List ℕ) (value : Value) (since : StoodSince moves area name value) → list_any (is_placed area name) (drop since.moment moves) ≡ false → Contains (values_of moves area name) value }
{}

/// What stands is one of the images.
pub fn standing_is_image()
    ensures { (moves : List Move) → IsImage moves (standing moves) }
{}

/// A rename through a directory leaves its bytes at its name, and no stamp given twice where none was before.
pub fn renames_are_changes()
    ensures left { (old now : List Move) (area : Area) (name bytes : List ℕ) → Renames (Some old) (Some now) area name bytes → LeavesAt area name (Some bytes) old now }
    ensures fresh { (old now : List Move) (area : Area) (name bytes : List ℕ) → Renames (Some old) (Some now) area name bytes → HasFreshStamps old → HasFreshStamps now }
{}

/// What is said of moves where they are told holds of them.
pub fn told_moves_are_spoken_of()
    ensures { (before now : List Move) (test : List Move → List Move → Bool) → IfTold (Some before) (Some now) (λ b n. IsTrue (test b n)) → IsTrue (test before now) }
{}

/// What a change leaves, as a look-up of any name in either area.
pub fn change_leaves()
    ensures bytes { (area : Area) (name : List ℕ) (value : Value) (before now : List Move) (a : Area) (n : List ℕ) → LeavesAt area name value before now → bytes_at (area_after now a) n ≡ (if same_area a area && same_name name n then value else bytes_at (area_after before a) n) }
    ensures stamps { (area : Area) (name : List ℕ) (value : Value) (before now : List Move) (a : Area) (n : List ℕ) → LeavesAt area name value before now → (same_area a area && same_name name n) ≡ false → stamp_at (area_after now a) n ≡ stamp_at (area_after before a) n }
{}

/// After a file was placed at a name, and after a sync of its area, the name has one value.
pub fn placed_and_synced_values_are_alone()
    ensures placed { (moves : List Move) (move : Move) (area : Area) (name : List ℕ) → is_placed area name move ≡ true → values_of (moves ++ move ∷ []) area name ≡ bytes_at (area_after (moves ++ move ∷ []) area) name ∷ [] }
    ensures synced { (moves : List Move) (move : Move) (area : Area) (name : List ℕ) → syncs area move ≡ true → values_of (moves ++ move ∷ []) area name ≡ bytes_at (area_after (moves ++ move ∷ []) area) name ∷ [] }
{}

/// No two names of a list in rising order are the same.
pub fn rising_names_are_apart()
    ensures { (listed : List Listed) (name : List ℕ) (j k : ℕ) → IsRising listed → slice_get (map (λ l. l.name) listed) j ≡ Some name → slice_get (map (λ l. l.name) listed) k ≡ Some name → j ≡ k }
{}

/// A listed name with its stamp is exactly one that stands.
pub fn listed_files_stand()
    ensures { (files : Files) (one : Listed) → Contains (listed_of files) one ↔ (stamp_at files one.name ≡ Some one.stamp) }
{}

/// A sync takes images away and adds none: of those before it, it leaves the ones that have in its area what stands there.
pub fn sync_takes_images_away()
    ensures none_added { (moves : List Move) (area : Area) (image : Image) → IsImage (moves ++ Synced area ∷ []) image → IsImage moves image }
    ensures stands { (moves : List Move) (area : Area) (image : Image) (name : List ℕ) → IsImage (moves ++ Synced area ∷ []) image → get (image area) name ≡ bytes_at (area_after moves area) name }
    ensures those_stay { (moves : List Move) (area : Area) (image : Image) → IsImage moves image → ((name : List ℕ) → get (image area) name ≡ bytes_at (area_after moves area) name) → IsImage (moves ++ Synced area ∷ []) image }
{}

/// From a settled area, a rename or a removal more gives in it what stood before it and what stands after it, and no other contents.
pub fn one_change_more()
    ensures renamed { (moves : List Move) (area : Area) (name bytes : List ℕ) (stamp : ℕ) (contents : Contents) → IsSettledIn area moves → IsImageIn area (moves ++ Renamed area name bytes stamp ∷ []) contents ↔ ((contents ≡ standing moves area) ⊎ (contents ≡ standing (moves ++ Renamed area name bytes stamp ∷ []) area)) }
    ensures removed { (moves : List Move) (area : Area) (name : List ℕ) (contents : Contents) → IsSettledIn area moves → IsImageIn area (moves_removed area name moves) contents ↔ ((contents ≡ standing moves area) ⊎ (contents ≡ standing (moves_removed area name moves) area)) }
{}

/// Files without their stamps have the bytes that they have.
pub fn contents_have_bytes()
    ensures { (files : Files) (name : List ℕ) → get (contents_of files) name ≡ bytes_at files name }
{}

/// After a rename the bytes stand at the name, and all else stands as it did.
pub fn rename_leaves()
    ensures { (moves : List Move) (area : Area) (name bytes : List ℕ) (stamp : ℕ) → LeavesAt area name (Some bytes) moves (moves ++ Renamed area name bytes stamp ∷ []) }
{}

/// After a removal nothing stands at the name, and all else stands as it did.
pub fn removal_leaves()
    ensures { (moves : List Move) (area : Area) (name : List ℕ) → LeavesAt area name None moves (moves_removed area name moves) }
{}

/// After a sync all stands as it did, and nothing of its area is pending.
pub fn sync_leaves()
    ensures areas { (moves : List Move) (area a : Area) → area_after (moves ++ Synced area ∷ []) a ≡ area_after moves a }
    ensures settled { (moves : List Move) (area : Area) → IsSettledIn area (moves ++ Synced area ∷ []) }
{}

/// Each call of a directory adds moves or leaves them as they were, and what is added in two calls is added in both together.
pub fn calls_add_moves()
    ensures added { (moves : Option (List Move)) (move : Move) → AddsTo moves (with_move moves move) }
    ensures removed { (moves : Option (List Move)) (area : Area) (name : List ℕ) → AddsTo moves (removed moves area name) }
    ensures same { (moves : Option (List Move)) → AddsTo moves moves }
    ensures told { (before now : Option (List Move)) → AddsTo before now → is_some now ≡ is_some before }
    ensures front { (before now : List Move) → AddsTo (Some before) (Some now) → take (length before) now ≡ before }
    ensures both { (first second third : Option (List Move)) → AddsTo first second → AddsTo second third → AddsTo first third }
{}

/// What a crash may leave at a moment stays the same when moves are added behind it.
pub fn earlier_images_stay()
    ensures { (before now : List Move) (moment : ℕ) (image : Image) → Adds before now → moment ≤ length before → IsImage (take moment now) image ↔ IsImage (take moment before) image }
{}

/// A file that stands has a stamp that was given to its name.
pub fn standing_stamp_was_given()
    ensures { (moves : List Move) (area : Area) (name : List ℕ) (file : File) → get (area_after moves area) name ≡ Some file → Contains (stamps_of moves name) file.stamp }
{}

/// Stamps that were given stay, and those of later moves come behind them.
pub fn stamps_are_kept()
    ensures { (moves more : List Move) (name : List ℕ) → stamps_of (moves ++ more) name ≡ stamps_of moves name ++ stamps_of more name }
{}

/// A rename and a removal leave the values of every other name of both areas, and a sync leaves those of the other area.
pub fn other_values_stay()
    ensures renamed { (moves : List Move) (area : Area) (name bytes : List ℕ) (stamp : ℕ) (a : Area) (n : List ℕ) → (same_area a area && same_name name n) ≡ false → values_of (moves ++ Renamed area name bytes stamp ∷ []) a n ≡ values_of moves a n }
    ensures removed { (moves : List Move) (area : Area) (name : List ℕ) (a : Area) (n : List ℕ) → (same_area a area && same_name name n) ≡ false → values_of (moves_removed area name moves) a n ≡ values_of moves a n }
    ensures synced { (moves : List Move) (area a : Area) (n : List ℕ) → same_area a area ≡ false → values_of (moves ++ Synced area ∷ []) a n ≡ values_of moves a n }
{}

/// A rename adds its bytes to the values of its name, and a removal of what stands adds that the name is absent.
pub fn own_value_is_added()
    ensures renamed { (moves : List Move) (area : Area) (name bytes : List ℕ) (stamp : ℕ) → values_of (moves ++ Renamed area name bytes stamp ∷ []) area name ≡ values_of moves area name ++ Some bytes ∷ [] }
    ensures removed { (moves : List Move) (area : Area) (name : List ℕ) → is_some (get (area_after moves area) name) ≡ true → values_of (moves_removed area name moves) area name ≡ values_of moves area name ++ None ∷ [] }
{}

/// Where nothing of an area is pending, a crash leaves there what stands.
pub fn settled_area_leaves_what_stands()
    ensures { (moves : List Move) (area : Area) (image : Image) (name : List ℕ) → IsSettledIn area moves → IsImage moves image → get (image area) name ≡ bytes_at (area_after moves area) name }
{}

/// What a pick leaves: each name that was there since the last sync has the value that the pick chooses for its number, and no other name
/// has a file. Where nothing is pending, nothing is in either area.
pub fn a_pick_leaves_these()
    ensures names { (pick : Pick) (moves left : List Move) (area : Area) (i : ℕ) (name : List ℕ) → IsPicked pick moves left → slice_get (names_since moves area) i ≡ Some name → bytes_at (area_after left area) name ≡ value_for pick i (values_of moves area name) }
    ensures others { (pick : Pick) (moves left : List Move) (area : Area) (name : List ℕ) → IsPicked pick moves left → ((i : ℕ) → slice_get (names_since moves area) i ≢ Some name) → bytes_at (area_after left area) name ≡ None }
    ensures settled { (moves : List Move) (area : Area) → IsSettled moves → IsSettledIn area moves }
{}

/// What happens in one area leaves nothing pending in the other, where nothing was.
pub fn other_area_stays_settled()
    ensures renamed { (moves : List Move) (area : Area) (name bytes : List ℕ) (stamp : ℕ) (a : Area) → same_area a area ≡ false → IsSettledIn a moves → IsSettledIn a (moves ++ Renamed area name bytes stamp ∷ []) }
    ensures removed { (moves : List Move) (area : Area) (name : List ℕ) (a : Area) → same_area a area ≡ false → IsSettledIn a moves → IsSettledIn a (moves_removed area name moves) }
    ensures synced { (moves : List Move) (area a : Area) → same_area a area ≡ false → IsSettledIn a moves → IsSettledIn a (moves ++ Synced area ∷ []) }
{}

/// Where no stamp was given to a name twice, none is after a rename with a stamp that no earlier file of the name had, a removal or a sync.
pub fn stamps_stay_fresh()
    ensures renamed { (moves : List Move) (area : Area) (name bytes : List ℕ) (stamp : ℕ) → HasFreshStamps moves → IsFresh moves name stamp → HasFreshStamps (moves ++ Renamed area name bytes stamp ∷ []) }
    ensures removed { (moves : List Move) (area : Area) (name : List ℕ) → HasFreshStamps moves → HasFreshStamps (moves_removed area name moves) }
    ensures synced { (moves : List Move) (area : Area) → HasFreshStamps moves → HasFreshStamps (moves ++ Synced area ∷ []) }
{}

/// Where no stamp was given to a name twice, a name that has the stamp that it had has the file that it had.
pub fn equal_stamps_mean_the_same_file()
    ensures { (before now : List Move) (area : Area) (name : List ℕ) (old new : File) → Adds before now → HasFreshStamps now → get (area_after before area) name ≡ Some old → get (area_after now area) name ≡ Some new → old.stamp ≡ new.stamp → old ≡ new }
{}
