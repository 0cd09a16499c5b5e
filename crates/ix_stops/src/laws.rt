//! What the moves of a step leave on disk, and what a crash at each moment of it leaves. A caller's proof gets a law by calling its function, which
//! does nothing.
ghost use Rattle.std.specs.Prelude.{◌≡◌, ℕ, ◌↔◌, ◌⊎◌, ◌-◌, ◌+◌, List, [], ◌∷◌, ◌++◌, length, Bool, true, false, Option, Some, None};
ghost use Rattle.std.specs.FinMap.{entries, get};
ghost use Rattle.ix_dir.specs.declared.area.Area.{Area};
ghost use Rattle.ix_dir.specs.declared.area.Area.TheVariants.{Units, Records};
ghost use Rattle.ix_dir.specs.declared.moves.Move.{Move};
ghost use Rattle.ix_dir.specs.declared.moves.Move.TheVariants.{Renamed, Removed, Synced};
ghost use Rattle.ix_dir.specs.Calls.{moves_removed};
ghost use Rattle.ix_dir.specs.Crash.{IsSettledIn, standing};
ghost use Rattle.ix_dir.specs.Files.{Contents};
ghost use Rattle.ix_dir.specs.WhatAChangeLeaves.{Adds};
ghost use Rattle.ix_dir.specs.Images.{Image, IsImage};
ghost use Rattle.ix_dir.specs.Moves.{area_after};
ghost use Rattle.ix_unit.specs.Spelling.{UnitSpelling};
ghost use Rattle.ix_cabinet.specs.declared.change.Settled.{Settled};
ghost use Rattle.ix_model.specs.declared.publication.Publication.{Publication};
ghost use Rattle.ix_model.specs.declared.publication.Publication.TheVariants.{Put, Gone};
ghost use Rattle.ix_model.specs.declared.publication.StoredUnit.{StoredUnit};
ghost use Rattle.ix_model.specs.Units as model;
ghost use Rattle.ix_model.specs.Units.{units_at, units_after, unit_named};
ghost use Rattle.ix_machine.specs.Counts as counts;
ghost use Rattle.ix_machine.specs.Needs.{units_need};
ghost use Rattle.ix_machine.specs.Sound.{ValuesStand};
ghost use Rattle.ix_stops.specs.Changes.{waiting, units_moves};
ghost use Rattle.ix_stops.specs.Given.{Laws};
ghost use Rattle.ix_stops.specs.OnDisk.{IsOnDisk};
ghost use Rattle.ix_stops.specs.Prefixes.{IsPrefix, LeavesPrefixes};
ghost use Rattle.ix_stops.specs.Shapes.{syncs, settled_moves, pending_after};
ghost use Rattle.ix_stops.specs.UnitFiles.{Spell};

/// A crash leaves the units after all publications, or without those whose change of the units area waits for a sync, and no refused unit file.
pub fn a_crash_leaves_a_prefix()
    ensures { (name_of : List ℕ → List ℕ) (pending : Option ℕ) (publications : List Publication) (moves : List Move) (image : Image) → IsOnDisk name_of pending publications moves → IsImage moves image → IsPrefix name_of publications (length publications - waiting moves) (length publications) image }
{
    given();
}

/// Syncs leave what stands. Behind them nothing waits in their areas, and at each moment of them a crash leaves a prefix of the publications.
pub fn syncs_change_nothing()
    ensures areas { (moves : List Move) (records units : Bool) (area : Area) → area_after (moves ++ syncs records units) area ≡ area_after moves area }
    ensures records { (moves : List Move) (records units : Bool) → (records ≡ false → IsSettledIn Records moves) → IsSettledIn Records (moves ++ syncs records units) }
    ensures units { (moves : List Move) (records units : Bool) → (units ≡ false → IsSettledIn Units moves) → IsSettledIn Units (moves ++ syncs records units) }
    ensures disk { (name_of : List ℕ → List ℕ) (pending : Option ℕ) (publications : List Publication) (moves : List Move) (records units : Bool) → IsOnDisk name_of pending publications moves → IsOnDisk name_of pending publications (moves ++ syncs records units) }
    ensures leaves { (name_of : List ℕ → List ℕ) (pending : Option ℕ) (publications : List Publication) (moves : List Move) (records units : Bool) → IsOnDisk name_of pending publications moves → LeavesPrefixes name_of publications publications moves (moves ++ syncs records units) }
{
    given();
}

/// A record file may come to a name that neither the visible units nor those before a pending change need. Behind a sync of the units, where a
/// change of them waits, a record may go that the visible units don't need.
pub fn a_record_change_leaves_a_prefix()
    ensures put { (name_of : List ℕ → List ℕ) (pending : Option ℕ) (publications : List Publication) (moves : List Move) (name bytes : List ℕ) (stamp : ℕ) → IsOnDisk name_of pending publications moves → units_need name (units_after publications) ≡ false → ((mark : ℕ) → pending ≡ Some mark → units_need name (units_at publications mark) ≡ false) → IsOnDisk name_of pending publications (moves ++ Renamed Records name bytes stamp ∷ []) × LeavesPrefixes name_of publications publications moves (moves ++ Renamed Records name bytes stamp ∷ []) }
    ensures collected { (name_of : List ℕ → List ℕ) (pending : Option ℕ) (publications : List Publication) (moves : List Move) (units : Bool) (name : List ℕ) → IsOnDisk name_of pending publications moves → (units ≡ false → IsSettledIn Units moves) → units_need name (units_after publications) ≡ false → IsOnDisk name_of None publications (moves_removed Records name (moves ++ syncs false units)) × LeavesPrefixes name_of publications publications moves (moves_removed Records name (moves ++ syncs false units)) }
{
    given();
}

/// Behind syncs of the records and of the units, where a change of them waits, a unit whose records stand whole may come to the name of its output
/// path, and a visible unit may go; then the units are synced, or the change pends.
pub fn a_unit_change_leaves_a_prefix()
    ensures put { (name_of : List ℕ → List ℕ) (pending : Option ℕ) (publications : List Publication) (moves : List Move) (records units : Bool) (name bytes : List ℕ) (stamp : ℕ) (stored : StoredUnit) (settled : Settled) → IsOnDisk name_of pending publications moves → (records ≡ false → IsSettledIn Records moves) → (units ≡ false → IsSettledIn Units moves) → UnitSpelling bytes stored.unit → name ≡ name_of stored.unit.output → ValuesStand name_of (entries (standing moves Records)) stored.unit.records stored.values → (now : List Move) → now ≡ settled_moves settled ((moves ++ syncs records units) ++ Renamed Units name bytes stamp ∷ []) → IsOnDisk name_of (pending_after settled (length publications)) (publications ++ Put name stored ∷ []) now × LeavesPrefixes name_of publications (publications ++ Put name stored ∷ []) moves now }
    ensures gone { (name_of : List ℕ → List ℕ) (pending : Option ℕ) (publications : List Publication) (moves : List Move) (units : Bool) (name : List ℕ) (stored : StoredUnit) (settled : Settled) → IsOnDisk name_of pending publications moves → (units ≡ false → IsSettledIn Units moves) → unit_named name (units_after publications) ≡ Some stored → (now : List Move) → now ≡ settled_moves settled (moves_removed Units name (moves ++ syncs false units)) → IsOnDisk name_of (pending_after settled (length publications)) (publications ++ Gone name ∷ []) now × LeavesPrefixes name_of publications (publications ++ Gone name ∷ []) moves now }
{
    given();
}

/// What steps leave one after the other they leave together, so what is said of each step of a run is said of the run: moves are only added, and
/// so are publications.
pub fn steps_join()
    ensures { (name_of : List ℕ → List ℕ) (first second more : List Publication) (before between now : List Move) → Adds before between → Adds between now → LeavesPrefixes name_of first second before between → LeavesPrefixes name_of second (second ++ more) between now → LeavesPrefixes name_of first (second ++ more) before now }
{
    given();
}

/// A change of the units area waits from its move on until the next sync of that area; no other move counts.
pub fn changes_wait_for_a_sync()
    ensures none { waiting [] ≡ 0 }
    ensures synced { (moves : List Move) → waiting (moves ++ Synced Units ∷ []) ≡ 0 }
    ensures renamed { (moves : List Move) (name bytes : List ℕ) (stamp : ℕ) → waiting (moves ++ Renamed Units name bytes stamp ∷ []) ≡ waiting moves + 1 }
    ensures removed { (moves : List Move) (name : List ℕ) → waiting (moves ++ Removed Units name ∷ []) ≡ waiting moves + 1 }
    ensures records { (moves : List Move) (name bytes : List ℕ) (stamp : ℕ) → waiting (((moves ++ Renamed Records name bytes stamp ∷ []) ++ Removed Records name ∷ []) ++ Synced Records ∷ []) ≡ waiting moves }
    ensures counted { (name bytes : List ℕ) (stamp : ℕ) → units_moves (Renamed Units name bytes stamp ∷ Synced Records ∷ Removed Records name ∷ Synced Units ∷ Renamed Records name bytes stamp ∷ Removed Units name ∷ []) ≡ counts.Changed ∷ counts.Synced ∷ counts.Changed ∷ [] }
{}

/// Unit files spell the units where each file is the spelling of the unit that has its name, by its output path, and each unit has a file.
pub fn files_spell_units()
    ensures { (name_of : List ℕ → List ℕ) (files : Contents) (units : model.Units) → Spell name_of files units ↔ ((name : List ℕ) → ((get files name ≡ None) × (unit_named name units ≡ None)) ⊎ ((bytes : List ℕ) × (stored : StoredUnit) × (get files name ≡ Some bytes) × (unit_named name units ≡ Some stored) × UnitSpelling bytes stored.unit × (name ≡ name_of stored.unit.output))) }
{}

/// What the proofs of this crate take from the crates below.
pub(crate) fn given()
    ensures { Laws }
{
    ix_dir::laws::contents_have_bytes();
    ix_dir::laws::sync_leaves();
    ix_dir::laws::rename_leaves();
    ix_dir::laws::removal_leaves();
    ix_dir::laws::one_change_more();
    ix_dir::laws::other_values_stay();
    ix_model::laws::the_latest_publication_stands();
    ix_machine::laws::acknowledged_changes_are_synced();
    ix_machine::laws::opening_finds_sound_units();
}
