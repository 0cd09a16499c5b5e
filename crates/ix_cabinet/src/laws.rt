//! What follows of unit files, of their changes and of scans. A caller's proof gets a law by calling its function, which does nothing.
ghost use Rattle.std.specs.Prelude.{◌≡◌, ◌↔◌, ◌⊎◌, ℕ, List, [], ◌∷◌, ◌++◌, Contains, Some, None, IsSome};
ghost use Rattle.std.specs.FinMap.{get};
ghost use Rattle.std.specs.Option.{option_map};
ghost use Rattle.ix_dir.specs.declared.area.Area.TheVariants.{Units, Records};
ghost use Rattle.ix_dir.specs.declared.moves.Move.{Move};
ghost use Rattle.ix_dir.specs.declared.moves.Move.TheVariants.{Renamed, Synced};
ghost use Rattle.ix_dir.specs.Calls.{moves_removed};
ghost use Rattle.ix_dir.specs.Crash.{IsSettledIn, standing};
ghost use Rattle.ix_dir.specs.Files.{Files, Contents, bytes_at};
ghost use Rattle.ix_dir.specs.Images.{Value, IsImageIn};
ghost use Rattle.ix_dir.specs.Moves.{area_after};
ghost use Rattle.ix_dir.specs.Stamps.{IsFresh};
ghost use Rattle.ix_dir.specs.WhatAChangeLeaves.{LeavesAt};
ghost use Rattle.ix_unit.specs.Spelling.{UnitSpelling};
ghost use Rattle.ix_unit.specs.Value.{IsValidUnit};
ghost use Rattle.ix_unit.specs.declared.batch.UnitPut.{UnitPut};
ghost use Rattle.ix_unit.specs.declared.value.UnitValue.{UnitValue};
ghost use Rattle.ix_cabinet.specs.declared.change.Settled.TheVariants as settled;
ghost use Rattle.ix_cabinet.specs.Changes.{Publishes};
ghost use Rattle.ix_cabinet.specs.Scan.{StampMap, stamps_in, changed, gone, IsChanged, IsGone, IsUnitFile, IsUnitAt, IsNamedUnit, HoldsUnits};

/// An empty directory holds units alone.
pub fn an_empty_directory_holds_units()
    ensures { (name_of : List ℕ → List ℕ) → HoldsUnits name_of [] }
{}

/// Where the units area holds units alone, it does so after a unit's file came to stand under its name, after a file went away,
/// and where the area is as it was.
pub fn changes_keep_units()
    ensures put { (name_of : List ℕ → List ℕ) (name bytes : List ℕ) (before now : List Move) → HoldsUnits name_of before → IsUnitFile name_of name bytes → LeavesAt Units name (Some bytes) before now → HoldsUnits name_of now }
    ensures removed { (name_of : List ℕ → List ℕ) (name : List ℕ) (before now : List Move) → HoldsUnits name_of before → LeavesAt Units name None before now → HoldsUnits name_of now }
    ensures other { (name_of : List ℕ → List ℕ) (name : List ℕ) (value : Value) (before now : List Move) → HoldsUnits name_of before → LeavesAt Records name value before now → HoldsUnits name_of now }
    ensures same { (name_of : List ℕ → List ℕ) (before now : List Move) → HoldsUnits name_of before → area_after now Units ≡ area_after before Units → HoldsUnits name_of now }
{}

/// A name has the stamp of its file.
pub fn stamps_are_those_of_files()
    ensures { (files : Files) (name : List ℕ) → get (stamps_in files) name ≡ option_map (λ f. f.stamp) (get files name) }
{}

/// The names that changed are those with a stamp now that isn't the known one.
pub fn changed_names_are_those()
    ensures { (known now : StampMap) (name : List ℕ) → Contains (changed known now) name ↔ IsChanged known now name }
{}

/// The names that are gone are those that are known and have no stamp now.
pub fn gone_names_are_those()
    ensures { (known now : StampMap) (name : List ℕ) → Contains (gone known now) name ↔ IsGone known now name }
{}

/// The spelling of a unit is its file under the name of its output path.
pub fn a_spelled_unit_is_a_unit_file()
    ensures { (name_of : List ℕ → List ℕ) (unit : UnitValue) (bytes : List ℕ) → UnitSpelling bytes unit → IsUnitFile name_of (name_of unit.output) bytes }
{}

/// A unit that a scan found is valid and the one of its file: the file stands under the unit's name, spells the unit, and is that of a unit of this
/// name.
pub fn a_found_unit_is_that_of_its_file()
    ensures stands { (files : Files) (put : UnitPut) → IsUnitAt files put → IsSome (bytes_at files put.name) }
    ensures spelled { (files : Files) (put : UnitPut) (bytes : List ℕ) → IsUnitAt files put → bytes_at files put.name ≡ Some bytes → UnitSpelling bytes put.unit.value }
    ensures valid { (name_of : List ℕ → List ℕ) (put : UnitPut) → IsNamedUnit name_of put → IsValidUnit put.unit.value }
    ensures file { (name_of : List ℕ → List ℕ) (put : UnitPut) (bytes : List ℕ) → IsNamedUnit name_of put → UnitSpelling bytes put.unit.value → IsUnitFile name_of put.name bytes }
{}

/// A publication is a rename with a fresh stamp, and behind it a sync where that succeeded.
pub fn a_publication_is_a_rename_and_a_sync()
    ensures synced { (name bytes : List ℕ) (before now : List Move) → Publishes settled.Synced name bytes (Some before) (Some now) → (stamp : ℕ) × (now ≡ before ++ Renamed Units name bytes stamp ∷ Synced Units ∷ []) × IsFresh before name stamp }
    ensures unsynced { (name bytes : List ℕ) (before now : List Move) → Publishes settled.Unsynced name bytes (Some before) (Some now) → (stamp : ℕ) × (now ≡ before ++ Renamed Units name bytes stamp ∷ []) × IsFresh before name stamp }
{}

/// From a settled units area, a publication or a removal whose sync failed gives in it what stood before it and what stands after it, and no
/// other contents; of the records a crash leaves what it left before.
pub fn one_change_more_leaves_two_images()
    ensures published { (name bytes : List ℕ) (before now : List Move) (contents : Contents) → IsSettledIn Units before → Publishes settled.Unsynced name bytes (Some before) (Some now) → IsImageIn Units now contents ↔ ((contents ≡ standing before Units) ⊎ (contents ≡ standing now Units)) }
    ensures removed { (name : List ℕ) (before : List Move) (contents : Contents) → IsSettledIn Units before → IsImageIn Units (moves_removed Units name before) contents ↔ ((contents ≡ standing before Units) ⊎ (contents ≡ standing (moves_removed Units name before) Units)) }
    ensures beside_published { (name bytes : List ℕ) (before now : List Move) (contents : Contents) → Publishes settled.Unsynced name bytes (Some before) (Some now) → IsImageIn Records before contents → IsImageIn Records now contents }
    ensures beside_removed { (name : List ℕ) (before : List Move) (contents : Contents) → IsImageIn Records before contents → IsImageIn Records (moves_removed Units name before) contents }
{
    ix_dir::laws::one_change_more();
    ix_dir::laws::other_values_stay();
}
