//! What a store that stands for a state keeps true on disk and in memory. A caller's proof gets a law by calling its function, which does nothing.
ghost use Rattle.std.specs.Prelude.{◌≡◌, ◌↔◌, ◌⊎◌, ℕ, suc, ◌≤◌, List, [], ◌∷◌, length, map, take, slice_get, true, Option, Some, None, IfSome, option_map, is_some, Contains};
ghost use Rattle.std.specs.FinMap.{get};
ghost use Rattle.std.specs.List.{AllByRecursion};
ghost use Rattle.std.specs.Map.{lookup};
ghost use Rattle.std.specs.BTreeMap.{is_at};
ghost use Rattle.ix_types.specs.Row.{text_cmp};
ghost use Rattle.ix_dir.specs.declared.area.Area.TheVariants.{Units, Records};
ghost use Rattle.ix_dir.specs.declared.moves.Move.{Move};
ghost use Rattle.ix_dir.specs.declared.moves.Move.TheVariants.{Renamed, Placed};
ghost use Rattle.ix_dir.specs.Crash.{standing};
ghost use Rattle.ix_dir.specs.Files.{bytes_at};
ghost use Rattle.ix_dir.specs.Images.{Image, IsImage, values_of};
ghost use Rattle.ix_dir.specs.Moves.{area_after};
ghost use Rattle.ix_dir.specs.State.{DirState, is_staged, staged_bytes};
ghost use Rattle.ix_record.specs.declared.value.RecordValue.{RecordValue};
ghost use Rattle.ix_record.specs.Spelling.{RecordSpelling};
ghost use Rattle.ix_unit.specs.declared.value.RecordDep.{RecordDep};
ghost use Rattle.ix_unit.specs.declared.value.UnitValue.{UnitValue};
ghost use Rattle.ix_unit.specs.Spelling.{UnitSpelling};
ghost use Rattle.ix_unit.specs.Value.{IsValidUnit};
ghost use Rattle.ix_shelf.specs.Shelf.{OnShelf};
ghost use Rattle.ix_cabinet.specs.Scan.{StampMap, stamps_in};
ghost use Rattle.ix_model.specs.declared.publication.StoredUnit.{StoredUnit};
ghost use Rattle.ix_model.specs.Units as model;
ghost use Rattle.ix_model.specs.Units.{needs, unit_named, units_after, units_at};
ghost use Rattle.ix_machine.specs.Needs.{option_any, has_name, was_put as was_put_in};
ghost use Rattle.ix_machine.specs.State.{Import, Lease, State, lease_of, held_by};
ghost use Rattle.ix_machine.specs.Step.{staged_by};
ghost use Rattle.ix_guard.specs.Counts.{names_of};
ghost use Rattle.ix_guard.specs.Guarding.{lease_of as guarded_lease};
ghost use Rattle.ix_guard.specs.Protection.{leases_name, was_put};
ghost use Rattle.ix_ledger.specs.Kept.{Kept, held_in, staged_in, unit_at};
ghost use Rattle.ix_stops.specs.UnitFiles.{Spell};
ghost use Rattle.ix_library.specs.declared.known.KnownStamps.{KnownStamps};
ghost use Rattle.ix_library.specs.StandsFor.{StandsFor};

use crate::given::{given_of_disk, given_of_guard};

/// What is kept in memory is the state's, and so are the record files: publications by number, marks, visible units, staged units, and the names that lanes have
/// leased and put. A lane's slot has what it has staged; put names are leased, and a staged unit is valid and of put records.
pub fn what_is_kept_is_the_states()
    ensures marks { (name_of : List ℕ → List ℕ) (s : State) (kept : Kept) (shelf : OnShelf) (known : KnownStamps) (dir : DirState) → StandsFor name_of s kept shelf known dir
        → (kept.published ≡ length s.publications) × (kept.pending ≡ s.pending) × (kept.import ≡ s.import) × (kept.current ≡ s.current) × (kept.held ≡ s.held) }
    ensures units { (name_of : List ℕ → List ℕ) (s : State) (kept : Kept) (shelf : OnShelf) (known : KnownStamps) (dir : DirState) → StandsFor name_of s kept shelf known dir
        → (name : List ℕ) → unit_at name kept.units ≡ option_map (λ stored. stored.unit) (unit_named name (units_after s.publications)) }
    ensures staged { (name_of : List ℕ → List ℕ) (s : State) (kept : Kept) (shelf : OnShelf) (known : KnownStamps) (dir : DirState) → StandsFor name_of s kept shelf known dir
        → (lane : ℕ) → staged_in kept lane ≡ staged_by s lane }
    ensures leased { (name_of : List ℕ → List ℕ) (s : State) (kept : Kept) (shelf : OnShelf) (known : KnownStamps) (dir : DirState) → StandsFor name_of s kept shelf known dir
        → (lane : ℕ) (name : List ℕ) → option_any (leases_name name) (guarded_lease kept.guard lane) ≡ option_any (λ lease. has_name name lease.names) (lease_of s lane) }
    ensures lanes { (name_of : List ℕ → List ℕ) (s : State) (kept : Kept) (shelf : OnShelf) (known : KnownStamps) (dir : DirState) → StandsFor name_of s kept shelf known dir
        → (lane : ℕ) → is_some (guarded_lease kept.guard lane) ≡ is_some (lease_of s lane) }
    ensures leases { (name_of : List ℕ → List ℕ) (s : State) (kept : Kept) (shelf : OnShelf) (known : KnownStamps) (dir : DirState) → StandsFor name_of s kept shelf known dir
        → (lane : ℕ) (lease : Lease) → lease_of s lane ≡ Some lease → AllByRecursion (λ name. has_name name lease.names ≡ true) lease.put
        × IfSome lease.staged (λ unit. IsValidUnit unit × AllByRecursion (λ dep. has_name dep.name lease.put ≡ true) unit.records) }
    ensures staged_slots { (name_of : List ℕ → List ℕ) (s : State) (kept : Kept) (shelf : OnShelf) (known : KnownStamps) (dir : DirState) → StandsFor name_of s kept shelf known dir
        → (lane : ℕ) (unit : UnitValue) → staged_by s lane ≡ Some unit → (is_staged dir lane ≡ true) × UnitSpelling (staged_bytes dir lane) unit }
    ensures put { (name_of : List ℕ → List ℕ) (s : State) (kept : Kept) (shelf : OnShelf) (known : KnownStamps) (dir : DirState) → StandsFor name_of s kept shelf known dir
        → (lane : ℕ) (name : List ℕ) → was_put kept.guard lane name ≡ was_put_in s lane name }
    ensures records { (name_of : List ℕ → List ℕ) (s : State) (kept : Kept) (shelf : OnShelf) (known : KnownStamps) (dir : DirState) (moves : List Move) → StandsFor name_of s kept shelf known dir
        → dir.moves ≡ Some moves → (name : List ℕ) → lookup (is_at (text_cmp name)) s.records ≡ bytes_at (area_after moves Records) name }
{
    given_of_guard();
}

/// Of the disk: which unit files and records stand, and what a crash may leave of them.
pub fn what_stands_on_disk()
    // The unit files are the spellings of the visible units under the names of their output paths, and no others.
    ensures unit_files { (name_of : List ℕ → List ℕ) (s : State) (kept : Kept) (shelf : OnShelf) (known : KnownStamps) (dir : DirState) (moves : List Move) → StandsFor name_of s kept shelf known dir → dir.moves ≡ Some moves
        → (name bytes : List ℕ) → (bytes_at (area_after moves Units) name ≡ Some bytes) ↔ ((stored : StoredUnit) × (unit_named name (units_after s.publications) ≡ Some stored) × (name ≡ name_of stored.unit.output) × UnitSpelling bytes stored.unit) }
    // The units at each mark that is kept have a value for each of their records, in order, and a whole record that spells it stands under the record's name. These
    // are the mark of the visible units, that from before a change that pends, that of the open import, the current one, and those that lanes hold.
    ensures need_bodies { (name_of : List ℕ → List ℕ) (s : State) (kept : Kept) (shelf : OnShelf) (known : KnownStamps) (dir : DirState) (moves : List Move) → StandsFor name_of s kept shelf known dir → dir.moves ≡ Some moves
        → (mark : ℕ) → (mark ≡ length s.publications) ⊎ ((s.pending ≡ Some mark) ⊎ (((open_import : Import) × (s.import ≡ Some open_import) × (open_import.mark ≡ mark)) ⊎ ((s.current ≡ mark) ⊎ ((lane : ℕ) × (held_by s lane ≡ Some mark)))))
        → (name : List ℕ) (stored : StoredUnit) → unit_named name (units_at s.publications mark) ≡ Some stored
        → (length stored.values ≡ length stored.unit.records) × ((place : ℕ) (dep : RecordDep) (value : RecordValue) → slice_get stored.unit.records place ≡ Some dep → slice_get stored.values place ≡ Some value
        → (bytes : List ℕ) × (bytes_at (area_after moves Records) dep.name ≡ Some bytes) × (dep.name ≡ name_of bytes) × RecordSpelling bytes value) }
    // Where no change of the units pends, each name has had one value since the units were synced. Where one does, a crash leaves the visible units or those from
    // before that change, the last publication, and nothing between.
    ensures one_pending { (name_of : List ℕ → List ℕ) (s : State) (kept : Kept) (shelf : OnShelf) (known : KnownStamps) (dir : DirState) (moves : List Move) → StandsFor name_of s kept shelf known dir → dir.moves ≡ Some moves
        → (s.pending ≡ None → (name : List ℕ) → values_of moves Units name ≡ bytes_at (area_after moves Units) name ∷ [])
        × ((image : Image) → IsImage moves image → Spell name_of (image Units) (units_after s.publications) ⊎ ((mark : ℕ) × (s.pending ≡ Some mark) × (suc mark ≡ length s.publications) × Spell name_of (image Units) (units_at s.publications mark))) }
    // A record of a unit that a crash may leave has had one value since the records were synced, and is whole.
    ensures image_records { (name_of : List ℕ → List ℕ) (s : State) (kept : Kept) (shelf : OnShelf) (known : KnownStamps) (dir : DirState) (moves : List Move) → StandsFor name_of s kept shelf known dir → dir.moves ≡ Some moves
        → (image : Image) (name bytes : List ℕ) (unit : UnitValue) (dep : RecordDep) → IsImage moves image → get (image Units) name ≡ Some bytes → UnitSpelling bytes unit → Contains unit.records dep
        → (body : List ℕ) × (values_of moves Records dep.name ≡ Some body ∷ []) × (dep.name ≡ name_of body) × ((value : RecordValue) × RecordSpelling body value) }
    // A record that was put under a lease stands whole.
    ensures put_bodies { (name_of : List ℕ → List ℕ) (s : State) (kept : Kept) (shelf : OnShelf) (known : KnownStamps) (dir : DirState) (moves : List Move) → StandsFor name_of s kept shelf known dir → dir.moves ≡ Some moves
        → (lane : ℕ) (name : List ℕ) → was_put kept.guard lane name ≡ true
        → (body : List ℕ) × (bytes_at (area_after moves Records) name ≡ Some body) × (name ≡ name_of body) × ((value : RecordValue) × RecordSpelling body value) }
{
    given_of_disk();
    given_of_guard();
}

/// Of memory: need lists, marks, and stamps of unit files.
pub fn what_stands_in_memory()
    // The need lists have the names of the records that the units need, at the mark of the visible units, from before a change that pends, at the open import's mark, at
    // the current one, and at each that a lane holds.
    ensures need_lists { (name_of : List ℕ → List ℕ) (s : State) (kept : Kept) (shelf : OnShelf) (known : KnownStamps) (dir : DirState) → StandsFor name_of s kept shelf known dir
        → (names_of kept.guard.visible ≡ needs (units_after s.publications))
        × (option_map names_of kept.guard.unsynced ≡ option_map (λ mark. needs (units_at s.publications mark)) s.pending)
        × (option_map names_of kept.guard.import ≡ option_map (λ open_import. needs (units_at s.publications open_import.mark)) s.import)
        × (names_of kept.guard.current ≡ needs (units_at s.publications s.current))
        × (map (option_map names_of) kept.guard.held ≡ map (option_map (λ mark. needs (units_at s.publications mark))) s.held) }
    // A mark that a lane holds is at most the current one, that at most the open import's, and all at most the number of publications.
    ensures marks_in_order { (name_of : List ℕ → List ℕ) (s : State) (kept : Kept) (shelf : OnShelf) (known : KnownStamps) (dir : DirState) → StandsFor name_of s kept shelf known dir
        → ((lane mark : ℕ) → held_in kept lane ≡ Some mark → mark ≤ kept.current)
        × ((open_import : Import) → kept.import ≡ Some open_import → (kept.current ≤ open_import.mark) × (open_import.mark ≤ kept.published))
        × (kept.current ≤ kept.published)
        × ((mark : ℕ) → kept.pending ≡ Some mark → mark ≤ kept.published) }
    // The stamps that are known at the current mark, and at the open import's, are those of the units there and no others: each is that with which a move put the
    // spelling of the unit under its name.
    ensures known_stamps { (name_of : List ℕ → List ℕ) (s : State) (kept : Kept) (shelf : OnShelf) (known : KnownStamps) (dir : DirState) (moves : List Move) → StandsFor name_of s kept shelf known dir → dir.moves ≡ Some moves
        → (mark : ℕ) (stamps : StampMap) → ((mark ≡ s.current) × (stamps ≡ known.current)) ⊎ ((open_import : Import) × (s.import ≡ Some open_import) × (mark ≡ open_import.mark) × (known.import ≡ Some stamps))
        → ((name : List ℕ) (stored : StoredUnit) → unit_named name (units_at s.publications mark) ≡ Some stored → (stamp : ℕ) × (get stamps name ≡ Some stamp))
        × ((name : List ℕ) (stamp : ℕ) → get stamps name ≡ Some stamp → (stored : StoredUnit) × (bytes : List ℕ) × (unit_named name (units_at s.publications mark) ≡ Some stored) × UnitSpelling bytes stored.unit
        × (Contains moves (Renamed Units name bytes stamp) ⊎ Contains moves (Placed Units name bytes stamp))) }
    // They are all of one moment, at which the unit files were the spellings of these units, and had these stamps.
    ensures stamped_then { (name_of : List ℕ → List ℕ) (s : State) (kept : Kept) (shelf : OnShelf) (known : KnownStamps) (dir : DirState) (moves : List Move) → StandsFor name_of s kept shelf known dir → dir.moves ≡ Some moves
        → (mark : ℕ) (stamps : StampMap) → ((mark ≡ s.current) × (stamps ≡ known.current)) ⊎ ((open_import : Import) × (s.import ≡ Some open_import) × (mark ≡ open_import.mark) × (known.import ≡ Some stamps))
        → (moment : ℕ) × (moment ≤ length moves) × (stamps ≡ stamps_in (area_after (take moment moves) Units)) × Spell name_of (standing (take moment moves) Units) (units_at s.publications mark) }
    // They are known for an import exactly where one is open.
    ensures import_stamps { (name_of : List ℕ → List ℕ) (s : State) (kept : Kept) (shelf : OnShelf) (known : KnownStamps) (dir : DirState) (moves : List Move) → StandsFor name_of s kept shelf known dir → dir.moves ≡ Some moves → is_some known.import ≡ is_some s.import }
{
    given_of_disk();
    given_of_guard();
}
