//! What each step of the machine leaves on disk by its moves, and what a stop at each moment of them leaves.
ghost use Rattle.std.specs.Prelude.{◌≡◌, ◌↔◌, ℕ, ◌≤◌, List, [], ◌∷◌, ◌++◌, length, take, drop, Bool, false, Some, None, is_some};
ghost use Rattle.ix_dir.specs.declared.area.Area.TheVariants.{Units, Records};
ghost use Rattle.ix_dir.specs.declared.moves.Move.{Move};
ghost use Rattle.ix_dir.specs.declared.moves.Move.TheVariants.{Renamed};
ghost use Rattle.ix_dir.specs.Calls.{moves_removed};
ghost use Rattle.ix_dir.specs.Crash.{IsSettledIn};
ghost use Rattle.ix_record.specs.declared.body.Body.{Body};
ghost use Rattle.ix_unit.specs.declared.value.UnitValue.{UnitValue};
ghost use Rattle.ix_unit.specs.Spelling.{UnitSpelling};
ghost use Rattle.ix_cabinet.specs.declared.change.Settled.{Settled};
ghost use Rattle.ix_machine.specs.declared.event.Outcome.TheVariants.{Done, Written, Removed, Nothing};
ghost use Rattle.ix_machine.specs.Given.{Put, Publish, Remove, Collect};
ghost use Rattle.ix_machine.specs.Needs.{visible};
ghost use Rattle.ix_machine.specs.Sound.{IsSound};
ghost use Rattle.ix_machine.specs.State.{State, Lease, lease_of};
ghost use Rattle.ix_machine.specs.Step.{Stepped, step, name_with_output};
ghost use Rattle.ix_stops.specs.Given.{StepLaws, OpeningLaws};
ghost use Rattle.ix_stops.specs.Changes.{waiting, units_moves};
ghost use Rattle.ix_stops.specs.Prefixes.{IsPrefix, CountsFrom, LeavesPrefixes};
ghost use Rattle.ix_stops.specs.UnitFiles.{Spell};
ghost use Rattle.std.specs.Map.{lookup};
ghost use Rattle.std.specs.BTreeMap.{is_at};
ghost use Rattle.ix_types.specs.Row.{text_cmp};
ghost use Rattle.ix_dir.specs.Files.{bytes_at};
ghost use Rattle.ix_dir.specs.Images.{Image, IsImage};
ghost use Rattle.ix_dir.specs.Moves.{area_after};
ghost use Rattle.ix_model.specs.declared.publication.Publication.{Publication};
ghost use Rattle.ix_model.specs.Units.{units_at, units_after};
ghost use Rattle.ix_machine.specs.Counts.{changes_after};
ghost use Rattle.ix_dir.specs.Crash.{standing};
ghost use Rattle.ix_cabinet.specs.Scan.{HoldsUnits};
ghost use Rattle.ix_machine.specs.Run.{begun, IsSoundOpening};
ghost use Rattle.ix_opening.specs.AfterOpening.{opening_moves};
ghost use Rattle.ix_opening.specs.Found.{opening_of};
ghost use Rattle.ix_stops.specs.Shapes.{syncs, settled_moves};
ghost use Rattle.ix_stops.specs.Stands.{StandsOnDisk, flag_of, outcome_of};

use crate::laws::given;

/// What an opening leaves is where a run begins: both areas hold what it found, and changes count from its end, where none waits for a sync.
pub fn an_opening_begins()
    ensures stands { (name_of : List ℕ → List ℕ) (moves : List Move) (lanes : ℕ) → HoldsUnits name_of (moves ++ opening_moves name_of moves) → IsSoundOpening name_of (opening_of name_of (standing moves)) → StandsOnDisk name_of (begun (opening_of name_of (standing moves)) lanes) (moves ++ opening_moves name_of moves) }
    ensures counts { (name_of : List ℕ → List ℕ) (moves : List Move) (lanes : ℕ) → HoldsUnits name_of (moves ++ opening_moves name_of moves) → IsSoundOpening name_of (opening_of name_of (standing moves)) → CountsFrom (length (moves ++ opening_moves name_of moves)) (length (begun (opening_of name_of (standing moves)) lanes).publications) (begun (opening_of name_of (standing moves)) lanes).publications (moves ++ opening_moves name_of moves) }
{
    given();
    given_opening();
}

/// Where a step leaves the publications, the pending change and the record files, syncs alone may have been made.
pub fn other_steps_sync_at_most()
    ensures { (name_of : List ℕ → List ℕ) (s next : State) (moves : List Move) (records units : Bool) → StandsOnDisk name_of s moves → next.publications ≡ s.publications → next.pending ≡ s.pending → next.records ≡ s.records → StandsOnDisk name_of next (moves ++ syncs records units) × LeavesPrefixes name_of s.publications next.publications moves (moves ++ syncs records units) }
{
    given();
    given_steps();
}

/// A put that is written is one rename in the records.
pub fn a_put_is_a_rename()
    ensures { (name_of : List ℕ → List ℕ) (s : State) (moves : List Move) (lane : ℕ) (body : Body) (stepped : Stepped) (stamp : ℕ) → StandsOnDisk name_of s moves → IsSound name_of s → step name_of s lane (Put body) Done ≡ Some stepped → stepped.outcome ≡ Written → StandsOnDisk name_of stepped.state (moves ++ Renamed Records body.name body.bytes stamp ∷ []) × LeavesPrefixes name_of s.publications stepped.state.publications moves (moves ++ Renamed Records body.name body.bytes stamp ∷ []) }
{
    given();
    given_steps();
}

/// A publish is a sync of the records where one of them waits for it, a sync of the units where a change pends, the rename of the unit file, and
/// a sync of the units where that succeeds.
pub fn a_publish_is_a_rename_behind_syncs()
    ensures { (name_of : List ℕ → List ℕ) (s : State) (moves : List Move) (lane : ℕ) (lease : Lease) (unit : UnitValue) (settled : Settled) (stepped : Stepped) (records : Bool) (bytes : List ℕ) (stamp : ℕ) (now : List Move) → StandsOnDisk name_of s moves → IsSound name_of s → lease_of s lane ≡ Some lease → lease.staged ≡ Some unit → step name_of s lane Publish (flag_of settled) ≡ Some stepped → stepped.outcome ≡ outcome_of settled → (records ≡ false → IsSettledIn Records moves) → UnitSpelling bytes unit → now ≡ settled_moves settled ((moves ++ syncs records (is_some s.pending)) ++ Renamed Units (name_of unit.output) bytes stamp ∷ []) → StandsOnDisk name_of stepped.state now × LeavesPrefixes name_of s.publications stepped.state.publications moves now }
{
    given();
    given_steps();
}

/// A removal of a visible unit is a sync of the units where a change pends, the removal of its file, and a sync of the units where that succeeds.
pub fn a_remove_is_a_removal_behind_a_sync()
    ensures { (name_of : List ℕ → List ℕ) (s : State) (moves : List Move) (lane : ℕ) (output name : List ℕ) (settled : Settled) (stepped : Stepped) (now : List Move) → StandsOnDisk name_of s moves → step name_of s lane (Remove output) (flag_of settled) ≡ Some stepped → name_with_output output (visible s) ≡ Some name → now ≡ settled_moves settled (moves_removed Units name (moves ++ syncs false (is_some s.pending))) → StandsOnDisk name_of stepped.state now × LeavesPrefixes name_of s.publications stepped.state.publications moves now }
{
    given();
    given_steps();
}

/// A collect is a sync of the units where a change pends, and the removal of the loose record where there is one.
pub fn a_collect_is_a_removal_behind_a_sync()
    ensures removed { (name_of : List ℕ → List ℕ) (s : State) (moves : List Move) (lane : ℕ) (stepped : Stepped) (name : List ℕ) → StandsOnDisk name_of s moves → IsSound name_of s → step name_of s lane Collect Done ≡ Some stepped → stepped.outcome ≡ Removed name → StandsOnDisk name_of stepped.state (moves_removed Records name (moves ++ syncs false (is_some s.pending))) × LeavesPrefixes name_of s.publications stepped.state.publications moves (moves_removed Records name (moves ++ syncs false (is_some s.pending))) }
    ensures nothing { (name_of : List ℕ → List ℕ) (s : State) (moves : List Move) (lane : ℕ) (stepped : Stepped) → StandsOnDisk name_of s moves → IsSound name_of s → step name_of s lane Collect Done ≡ Some stepped → stepped.outcome ≡ Nothing → StandsOnDisk name_of stepped.state (moves ++ syncs false (is_some s.pending)) × LeavesPrefixes name_of s.publications stepped.state.publications moves (moves ++ syncs false (is_some s.pending)) }
{
    given();
    given_steps();
}

/// Where no change of the units waits for a sync, a crash leaves the units after all publications, and no refused file.
pub fn what_is_synced_stays()
    ensures units { (name_of : List ℕ → List ℕ) (earlier publications : List Publication) (before now : List Move) (from base : ℕ) (image : Image) → LeavesPrefixes name_of earlier publications before now → CountsFrom from base earlier before → length before ≤ length now → waiting now ≡ 0 → IsImage now image → (opening_of name_of image).units ≡ units_after publications }
    ensures refused { (name_of : List ℕ → List ℕ) (earlier publications : List Publication) (before now : List Move) (from base : ℕ) (image : Image) → LeavesPrefixes name_of earlier publications before now → CountsFrom from base earlier before → length before ≤ length now → waiting now ≡ 0 → IsImage now image → (opening_of name_of image).refused ≡ [] }
{
    given();
}

/// What a directory holds of a state: its record files, its visible units, and nothing that waits for a sync where no change pends. What counts
/// from a moment, and what a prefix is.
pub fn a_directory_holds_a_state()
    ensures records { (name_of : List ℕ → List ℕ) (s : State) (moves : List Move) (name : List ℕ) → StandsOnDisk name_of s moves → lookup (is_at (text_cmp name)) s.records ≡ bytes_at (area_after moves Records) name }
    ensures units { (name_of : List ℕ → List ℕ) (s : State) (moves : List Move) → StandsOnDisk name_of s moves → Spell name_of (standing moves Units) (visible s) }
    ensures settled { (name_of : List ℕ → List ℕ) (s : State) (moves : List Move) → StandsOnDisk name_of s moves → s.pending ≡ None → IsSettledIn Units moves }
    ensures counts { (from base : ℕ) (publications : List Publication) (moves : List Move) → CountsFrom from base publications moves ↔ ((from ≤ length moves) × (waiting (take from moves) ≡ 0) × ((changes_after base (units_moves (drop from moves))).made ≡ length publications)) }
    ensures prefix { (name_of : List ℕ → List ℕ) (publications : List Publication) (least most : ℕ) (image : Image) → IsPrefix name_of publications least most image ↔ ((count : ℕ) × (least ≤ count) × (count ≤ most) × ((opening_of name_of image).units ≡ units_at publications count) × ((opening_of name_of image).refused ≡ [])) }
{}

/// What the proofs of this crate take from the machine.
fn given_steps()
    ensures { StepLaws }
{
    ix_machine::laws::refusals_change_nothing_else();
    ix_machine::laws::calls_change_what_they_name();
    ix_machine::laws::a_publish_adds_what_is_staged();
    ix_machine::laws::collects_take_loose_records();
}

/// What the proofs of this crate take from openings.
fn given_opening()
    ensures { (name_of : List ℕ → List ℕ) (moves : List Move) → OpeningLaws name_of moves }
{
    ix_opening::laws::opening_leaves_sound_files();
    ix_opening::laws::a_second_opening_finds_the_same();
    ix_opening::laws::found_names_rise();
    ix_machine::laws::a_run_begins_with_what_is_found();
    ix_dir::laws::a_pick_leaves_these();
}
