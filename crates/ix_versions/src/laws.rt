//! Laws of the answers, each the contract of a function that does nothing.
ghost use Rattle.std.specs.Prelude.{◌↔◌, ℕ, List, Contains};
ghost use Rattle.ix_types.specs.Codes.{ShareBit};
ghost use Rattle.ix_types.specs.declared.row.OccRow.{OccRow};
ghost use Rattle.ix_types.specs.declared.row.Row.TheVariants.{Occ};
ghost use Rattle.ix_model.specs.Units.{Units};
ghost use Rattle.ix_answers.specs.Answers.{answer};
ghost use Rattle.ix_versions.specs.Called.{IsCalled};

use ix_types::Query;

/// Callers are the occurrences where something calls: a row that has one of some roles is among the callers' rows of a USR exactly where it is among the occurrences of the USR with
/// these roles and a relation of it has CalledBy.
pub fn callers_are_called_occurrences()
    ensures { (usr : List ℕ) (roles : ℕ) (units : Units) (row : OccRow) → ShareBit row.roles roles
        → Contains (answer (Query.Callers usr) units) (Occ row) ↔ (Contains (answer (Query.Occ usr roles) units) (Occ row) × IsCalled row) }
{
    ix_answers::laws::rows_are_those();
}
