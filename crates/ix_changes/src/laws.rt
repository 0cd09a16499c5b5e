//! What follows for the state that a directory holds. A caller's proof gets a law by calling its function, which does nothing.
ghost use Rattle.std.specs.Prelude.{◌≡◌, ◌≢◌, ◌⊎◌, ℕ, suc, true, List, ◌++◌, length, map, Option, Some, None, Contains};
ghost use Rattle.std.specs.Option.{option_map};
ghost use Rattle.ix_dir.specs.declared.area.Area.TheVariants as area;
ghost use Rattle.ix_dir.specs.declared.moves.Move.{Move};
ghost use Rattle.ix_dir.specs.Crash.{standing};
ghost use Rattle.ix_dir.specs.Moves.{area_after};
ghost use Rattle.ix_dir.specs.Stamps.{HasFreshStamps};
ghost use Rattle.ix_dir.specs.WhatAChangeLeaves.{Adds};
ghost use Rattle.ix_record.specs.declared.value.RecordValue.{RecordValue};
ghost use Rattle.ix_unit.specs.declared.batch.UnitPut.{UnitPut};
ghost use Rattle.ix_shelf.specs.Answers.{StandsWhole, IsRecordOf};
ghost use Rattle.ix_shelf.specs.Shelf.{OnShelf};
ghost use Rattle.ix_cabinet.specs.Scan.{StampMap, stamps_in, changed, gone, IsUnitAt, HoldsUnits};
ghost use Rattle.ix_model.specs.Units.{Units, unit_named};
ghost use Rattle.ix_machine.specs.Needs.{units_need, visible};
ghost use Rattle.ix_machine.specs.Run.{begun, IsSoundOpening};
ghost use Rattle.ix_machine.specs.Sound.{StandsAs, RecordsStand};
ghost use Rattle.ix_machine.specs.State.{State};
ghost use Rattle.ix_opening.specs.AfterOpening.{opening_moves};
ghost use Rattle.ix_opening.specs.Found.{opening_of};
ghost use Rattle.ix_changes.specs.Given.{Laws, LookLaws};
ghost use Rattle.ix_stops.specs.Changes.{waiting};
ghost use Rattle.ix_changes.specs.Holds.{Holds, Leads, Waits, IsAlikeOnDisk};
ghost use Rattle.ix_changes.specs.Stamps.{AreStampsOf};

/// Where a step makes no move, the directory holds the next state if that has the same publications, pending change and record files.
pub fn a_step_without_moves_holds()
    ensures { (name_of : List ℕ → List ℕ) (s next : State) (shelf : OnShelf) (moves : Option (List Move)) → Holds name_of s shelf moves → IsAlikeOnDisk s next → Leads name_of s next moves moves shelf }
{
    given();
}

/// What an opening leaves is held by the directory and a shelf, whatever the shelf knows.
pub fn an_opening_is_held()
    ensures { (name_of : List ℕ → List ℕ) (moves : List Move) (lanes : ℕ) (shelf : OnShelf) → HoldsUnits name_of (moves ++ opening_moves name_of moves) → IsSoundOpening name_of (opening_of name_of (standing moves)) → Holds name_of (begun (opening_of name_of (standing moves)) lanes) shelf (Some (moves ++ opening_moves name_of moves)) }
{
    ix_stops::steps::an_opening_begins();
    ix_opening::laws::opening_leaves_sound_files();
    ix_dir::laws::a_pick_leaves_these();
}

/// At most one change of the units waits for a sync: none where the state says that none pends, and else the last publication, which it says to pend.
pub fn at_most_one_change_waits()
    ensures none { (s : State) (moves : List Move) → s.pending ≡ None → waiting moves ≡ 0 → Waits s moves }
    ensures settled { (s : State) (moves : List Move) → Waits s moves → s.pending ≡ None → waiting moves ≡ 0 }
    ensures one { (s : State) (moves : List Move) → Waits s moves → (waiting moves ≡ 0) ⊎ ((waiting moves ≡ 1) × ((mark : ℕ) × (s.pending ≡ Some mark) × (suc mark ≡ length s.publications))) }
    ensures last { (s : State) (moves : List Move) (mark : ℕ) → Waits s moves → s.pending ≡ Some mark → suc mark ≡ length s.publications }
{}

/// A record that units need, whose records stand, stands whole, so it can be loaded; and what is loaded is the value that the units have.
pub fn what_is_needed_can_be_loaded()
    ensures whole { (name_of : List ℕ → List ℕ) (s : State) (shelf : OnShelf) (moves : List Move) (units : Units) (name : List ℕ) → Holds name_of s shelf (Some moves) → RecordsStand name_of s.records units → units_need name units ≡ true → StandsWhole name_of name moves }
    ensures value { (name_of : List ℕ → List ℕ) (s : State) (shelf : OnShelf) (moves : List Move) (name : List ℕ) (value expected : RecordValue) → Holds name_of s shelf (Some moves) → StandsAs name_of s.records name expected → IsRecordOf name_of name (Some moves) value → value ≡ expected }
{
    given_looks();
}

/// A scan leads from the units whose stamps are known to those that are visible: a unit that is put is visible under its name, a name that is gone
/// has none, and every other name has the unit that it had.
pub fn a_scan_leads_to_what_is_visible()
    ensures come { (name_of : List ℕ → List ℕ) (s : State) (shelf : OnShelf) (moves : List Move) (put : UnitPut) → Holds name_of s shelf (Some moves) → IsUnitAt (area_after moves area.Units) put → option_map (λ stored. stored.unit) (unit_named put.name (visible s)) ≡ Some put.unit.value }
    ensures go { (name_of : List ℕ → List ℕ) (s : State) (shelf : OnShelf) (moves : List Move) (known now : StampMap) (name : List ℕ) → Holds name_of s shelf (Some moves) → now ≡ stamps_in (area_after moves area.Units) → Contains (gone known now) name → unit_named name (visible s) ≡ None }
    ensures stay { (name_of : List ℕ → List ℕ) (s : State) (shelf : OnShelf) (moves : List Move) (before : Units) (known now : StampMap) (puts : List UnitPut) (name : List ℕ) → Holds name_of s shelf (Some moves) → HasFreshStamps moves → AreStampsOf name_of before known moves → now ≡ stamps_in (area_after moves area.Units) → map (λ p. p.name) puts ≡ changed known now → ((put : UnitPut) → Contains puts put → put.name ≢ name) → (Contains (gone known now) name → ⊥) → option_map (λ stored. stored.unit) (unit_named name (visible s)) ≡ option_map (λ stored. stored.unit) (unit_named name before) }
{
    given_looks();
}

/// The stamps of the unit files are those of the visible units, and stay so for these units when moves are added. None are known at first.
pub fn stamps_are_of_units()
    ensures now { (name_of : List ℕ → List ℕ) (s : State) (shelf : OnShelf) (moves : List Move) → Holds name_of s shelf (Some moves) → AreStampsOf name_of (visible s) (stamps_in (area_after moves area.Units)) moves }
    ensures stay { (name_of : List ℕ → List ℕ) (units : Units) (stamps : StampMap) (before now : List Move) → AreStampsOf name_of units stamps before → Adds before now → AreStampsOf name_of units stamps now }
{}

/// What the proofs of this crate take of files that are looked at.
fn given_looks()
    ensures { LookLaws }
{
    ix_dir::laws::contents_have_bytes();
    ix_dir::laws::equal_stamps_mean_the_same_file();
    ix_cabinet::laws::stamps_are_those_of_files();
    ix_cabinet::laws::changed_names_are_those();
    ix_cabinet::laws::gone_names_are_those();
    ix_unit::laws::one_value();
    ix_record::laws::one_value();
}

/// What the proofs of this crate take from the crates below.
pub(crate) fn given()
    ensures { Laws }
{
    ix_dir::laws::other_area_stays_settled();
    ix_stops::laws::syncs_change_nothing();
    ix_stops::steps::other_steps_sync_at_most();
    ix_stops::steps::a_put_is_a_rename();
    ix_stops::steps::a_publish_is_a_rename_behind_syncs();
    ix_stops::steps::a_remove_is_a_removal_behind_a_sync();
    ix_stops::steps::a_collect_is_a_removal_behind_a_sync();
}
