//! What follows of the units and the records that a directory holds. A caller's proof gets a law by calling its function, which does nothing.
ghost use Rattle.std.specs.Prelude.{◌≡◌, ◌⊎◌, ℕ, true, List, Option, IfSome, Contains};
ghost use Rattle.ix_dir.specs.declared.moves.Move.{Move};
ghost use Rattle.ix_record.specs.declared.value.RecordValue.{RecordValue};
ghost use Rattle.ix_unit.specs.declared.batch.UnitPut.{UnitPut};
ghost use Rattle.ix_shelf.specs.Answers.{StandsWhole};
ghost use Rattle.ix_shelf.specs.Shelf.{OnShelf};
ghost use Rattle.ix_cabinet.specs.Scan.{HoldsUnits};
ghost use Rattle.ix_model.specs.Units.{Units, NamesRise, needs};
ghost use Rattle.ix_answers.specs.Batches.{LeadsTo, HaveOneValue};
ghost use Rattle.ix_machine.specs.Needs.{units_need};
ghost use Rattle.ix_machine.specs.Sound.{RecordsStand};
ghost use Rattle.ix_machine.specs.State.{Files, State};
ghost use Rattle.ix_changes.specs.Holds.{Holds};
ghost use Rattle.ix_looks.specs.Given.{Laws};
ghost use Rattle.ix_looks.specs.Values.{HasValue, names_listed};

/// What the areas of a state hold may be looked at: each file of the units area is that of a unit of its name, and a record that units need, whose
/// records stand, stands whole.
pub fn what_is_held_may_be_looked_at()
    ensures units { (name_of : List ℕ → List ℕ) (s : State) (shelf : OnShelf) (moves : Option (List Move)) → Holds name_of s shelf moves → IfSome moves (HoldsUnits name_of) }
    ensures needed { (name_of : List ℕ → List ℕ) (s : State) (shelf : OnShelf) (moves : Option (List Move)) (units : Units) (name : List ℕ) → Holds name_of s shelf moves → RecordsStand name_of s.records units → units_need name units ≡ true → IfSome moves (StandsWhole name_of name) }
{
    given();
}

/// Of each record that they need the units have a value. Each record name has one value over two maps of units whose records stand together.
pub fn records_that_stand_have_one_value()
    ensures found { (name_of : List ℕ → List ℕ) (records : Files) (units : Units) (name : List ℕ) → RecordsStand name_of records units → units_need name units ≡ true → (value : RecordValue) × HasValue units name value }
    ensures alone { (name_of : List ℕ → List ℕ) (records : Files) (units : Units) (name : List ℕ) (value other : RecordValue) → RecordsStand name_of records units → HasValue units name value → HasValue units name other → value ≡ other }
    ensures one { (name_of : List ℕ → List ℕ) (records : Files) (before after : Units) → RecordsStand name_of records before → RecordsStand name_of records after → HaveOneValue before after }
{
    given();
}

/// A record that a unit lists which is put is needed behind a batch that leads on; and one that is needed there is such a record, or was needed before.
pub fn a_batch_brings_what_is_new()
    ensures brought { (puts : List UnitPut) (gone : List (List ℕ)) (before after : Units) (name : List ℕ) → LeadsTo puts gone before after → Contains (names_listed puts) name → Contains (needs after) name }
    ensures needed { (puts : List UnitPut) (gone : List (List ℕ)) (before after : Units) (name : List ℕ) → LeadsTo puts gone before after → NamesRise after → Contains (needs after) name → Contains (needs before) name ⊎ Contains (names_listed puts) name }
{
    given();
}

/// What the proofs of this crate take from the crates below.
pub(crate) fn given()
    ensures { Laws }
{
    ix_dir::laws::contents_have_bytes();
    ix_record::laws::one_value();
    ix_model::laws::answers_are_sorted_sets();
    ix_answers::laws::records_have_one_value();
    ix_changes::laws::a_scan_leads_to_what_is_visible();
    ix_changes::laws::stamps_are_of_units();
    ix_changes::laws::what_is_needed_can_be_loaded();
}
