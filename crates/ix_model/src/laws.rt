//! Laws of the definitions, each the contract of a function that does nothing.
ghost use Rattle.ix_model.specs.Answer.{IsAmongDefinitions, definitions, definitions_of};
ghost use Rattle.ix_model.specs.Rows.{rows};
ghost use Rattle.ix_model.specs.SortedSet.{IsSortedSetOf, sorted_set};
ghost use Rattle.ix_types.specs.Row.{occurrence_cmp, text_cmp};
ghost use Rattle.ix_types.specs.declared.row.OccRow.{OccRow};
ghost use Rattle.ix_types.specs.declared.row.Row.TheVariants.{Occ};
ghost use Rattle.ix_model.specs.declared.publication.StoredUnit.{StoredUnit};
ghost use Rattle.ix_model.specs.declared.publication.Publication.{Publication};
ghost use Rattle.ix_model.specs.declared.publication.Publication.TheVariants.{Put, Gone};
ghost use Rattle.ix_model.specs.Units.{Units, changed_name, units_at, units_after, units_after_last, unit_named, KeepsOtherNames, NamesRise};
ghost use Rattle.std.specs.Prelude.{◌≡◌, ◌≤◌, ◌++◌, ◌↔◌, ℕ, List, [], length, Some, None, Contains};

/// The rows of an answer rise strictly, and are those that were selected and no others; likewise the names that units need.
pub fn answers_are_sorted_sets()
    ensures rows { (rows : List OccRow) → IsSortedSetOf occurrence_cmp rows (sorted_set occurrence_cmp rows) }
    ensures texts { (texts : List (List ℕ)) → IsSortedSetOf text_cmp texts (sorted_set text_cmp texts) }
{}

/// Two lists that rise strictly and have the same elements are the same list.
pub fn the_sorted_set_is_one()
    ensures rows { (rows first second : List OccRow) → IsSortedSetOf occurrence_cmp rows first → IsSortedSetOf occurrence_cmp rows second → first ≡ second }
    ensures texts { (texts first second : List (List ℕ)) → IsSortedSetOf text_cmp texts first → IsSortedSetOf text_cmp texts second → first ≡ second }
{}

/// After a publication its name has the unit that was put, or none if the name went, and each other name has what it had.
/// The names rise at every mark, and what is published later changes nothing at an earlier one.
pub fn the_latest_publication_stands()
    ensures put { (earlier : List Publication) (name : List ℕ) (unit : StoredUnit) → unit_named name (units_after_last earlier (Put name unit)) ≡ Some unit }
    ensures gone { (earlier : List Publication) (name : List ℕ) → unit_named name (units_after_last earlier (Gone name)) ≡ None }
    ensures others { (earlier : List Publication) (last : Publication) → KeepsOtherNames (changed_name last) (units_after earlier) (units_after_last earlier last) }
    ensures rises { (publications : List Publication) (n : ℕ) → NamesRise (units_at publications n) }
    ensures none { (publications : List Publication) → units_at publications 0 ≡ [] }
    ensures past { (publications : List Publication) (n : ℕ) → length publications ≤ n → units_at publications n ≡ units_after publications }
    ensures prefix { (earlier later : List Publication) (n : ℕ) → n ≤ length earlier → units_at (earlier ++ later) n ≡ units_at earlier n }
{}

/// A query for the definitions of a USR selects and answers these rows and no others: those of the USR with the role
/// Definition, and where there are none of these, those with the role Declaration.
pub fn definitions_are_those()
    ensures selected { (usr : List ℕ) (all : List OccRow) (row : OccRow) → Contains (definitions usr all) row ↔ IsAmongDefinitions usr all row }
    ensures answered { (usr : List ℕ) (units : Units) (row : OccRow) → Contains (definitions_of usr units) (Occ row) ↔ IsAmongDefinitions usr (rows units) row }
{}
