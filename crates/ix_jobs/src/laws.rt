//! Laws of the definitions, each the contract of a function that does nothing.
ghost use Rattle.std.specs.Prelude.{◌≡◌, ◌↔◌, ◌⊎◌, ℕ, true, List, Contains, Some, slice_get, bit_and};
ghost use Rattle.std.specs.Int.{bit_at};
ghost use Rattle.std.specs.List.{AllByRecursion};
ghost use Rattle.std.specs.List.Sorted.{IsStrictlySortedBy};
ghost use Rattle.ix_types.specs.Name.{IsFileName};
ghost use Rattle.ix_types.specs.Row.{text_cmp};
ghost use Rattle.ix_types.specs.declared.format.Format.{Format};
ghost use Rattle.ix_record.specs.Spelling.{RecordSpelling};
ghost use Rattle.ix_record.specs.Value.{IsValidRecord};
ghost use Rattle.ix_record.specs.Whole.{IsWhole};
ghost use Rattle.ix_unit.specs.Value.{IsValidUnit};
ghost use Rattle.ix_plan.specs.Keeps.{IsRecordPlan, IsUnitPlan, IsShortUnit};
ghost use Rattle.ix_plan.specs.Plans.{is_usr_of};
ghost use Rattle.ix_jobs.specs.Rules.{HasRoom, RecordHasRoom};
ghost use Rattle.ix_jobs.specs.Made.{made_of, record_of, record_with, bytes_of, symbol_of, symbols_of, index_of, relation_of, joined_roles, occurrence_of, dep_of, file_of, include_of, body_of, body_cmp};
ghost use Rattle.ix_jobs.specs.Laws.{IsWrittenIn, ListSame};

use ix_plan::{
    FilePlan, IncludePlan, OccurrencePlan, RecordPlan, RelationPlan, SymbolPlan, UnitPlan,
};
use ix_record::{Body, Occurrence, Relation, Symbol};
use ix_unit::{FileDep, Include, RecordDep};

/// A plan within a script's limits has room.
pub fn short_plans_have_room()
    ensures { (plan : UnitPlan) → IsShortUnit plan → HasRoom plan }
{}

/// What a job makes of a plan that keeps its rules is valid: each record, the unit under a naming, and each file, which spells its record.
/// The unit depends on no record that isn't among the files.
pub fn jobs_are_valid()
    ensures record { (plan : RecordPlan) → IsRecordPlan plan → RecordHasRoom plan → IsValidRecord (record_of plan) }
    ensures spelled { (plan : RecordPlan) → IsRecordPlan plan → RecordHasRoom plan → RecordSpelling (bytes_of plan) (record_of plan) }
    ensures unit { (name_of : List ℕ → List ℕ) (plan : UnitPlan) → ((bytes : List ℕ) → IsFileName (name_of bytes)) → IsUnitPlan plan → HasRoom plan
        → IsValidUnit (made_of name_of plan).unit }
    ensures whole { (name_of : List ℕ → List ℕ) (plan : UnitPlan) → IsUnitPlan plan → HasRoom plan → AllByRecursion (IsWhole name_of) (made_of name_of plan).bodies }
    ensures written { (name_of : List ℕ → List ℕ) (plan : UnitPlan) → AllByRecursion (IsWrittenIn (made_of name_of plan).bodies) (made_of name_of plan).unit.records }
{}

/// A record has the symbols and occurrences of its plan, an occurrence the relations of its, and no others; an index leads to the symbol of its USR.
#[tactic(auto, unfolding(crate::specs::Made::record_of))]
pub fn records_have_what_is_planned()
    ensures symbols { (plan : RecordPlan) (symbol : Symbol) → IsRecordPlan plan
        → Contains (record_of plan).symbols symbol ↔ ((each : SymbolPlan) × Contains plan.symbols each × (symbol_of each ≡ symbol)) }
    ensures occurrences { (plan : RecordPlan) (occurrence : Occurrence)
        → Contains (record_of plan).occurrences occurrence ↔ ((each : OccurrencePlan) × Contains plan.occurrences each × (occurrence_of (symbols_of plan.symbols) each ≡ occurrence)) }
    ensures relations { (symbols : List Symbol) (plan : OccurrencePlan) (relation : Relation)
        → Contains (occurrence_of symbols plan).relations relation ↔ ((each : RelationPlan) × Contains plan.relations each × (relation_of symbols each ≡ relation)) }
    ensures index { (plan : RecordPlan) (usr : List ℕ) → IsRecordPlan plan → is_usr_of plan.symbols usr ≡ true
        → (symbol : Symbol) × (slice_get (record_of plan).symbols (index_of (record_of plan).symbols usr) ≡ Some symbol) × (symbol.usr ≡ usr) }
{}

/// Joined roles have those that an occurrence had, those of each of its relations, and no others.
pub fn roles_are_joined()
    ensures own { (roles : ℕ) (relations : List RelationPlan) → bit_and (joined_roles roles relations) roles ≡ roles }
    ensures theirs { (roles : ℕ) (relations : List RelationPlan) (each : RelationPlan) → Contains relations each
        → bit_and (joined_roles roles relations) each.roles ≡ each.roles }
    ensures no_others { (roles : ℕ) (relations : List RelationPlan) (bit : ℕ) → bit_at (joined_roles roles relations) bit ≡ 1
        → (bit_at roles bit ≡ 1) ⊎ ((each : RelationPlan) × Contains relations each × (bit_at each.roles bit ≡ 1)) }
{}

/// A unit has what its plan lists and no more: unit dependencies, records, files and includes. Names and files are those of its records, and both rise.
pub fn units_have_what_is_planned()
    ensures units { (name_of : List ℕ → List ℕ) (plan : UnitPlan) (path : List ℕ) → Contains (made_of name_of plan).unit.units path ↔ Contains plan.units path }
    ensures records { (name_of : List ℕ → List ℕ) (plan : UnitPlan) (dep : RecordDep)
        → Contains (made_of name_of plan).unit.records dep ↔ ((each : RecordPlan) × Contains plan.records each × (dep_of name_of each ≡ dep)) }
    ensures files { (name_of : List ℕ → List ℕ) (plan : UnitPlan) (file : FileDep)
        → Contains (made_of name_of plan).unit.files file ↔ ((each : FilePlan) × Contains plan.files each × (file_of each ≡ file)) }
    ensures includes { (name_of : List ℕ → List ℕ) (plan : UnitPlan) (include : Include)
        → Contains (made_of name_of plan).unit.includes include ↔ ((each : IncludePlan) × Contains plan.includes each × (include_of each ≡ include)) }
    ensures bodies { (name_of : List ℕ → List ℕ) (plan : UnitPlan) (body : Body)
        → Contains (made_of name_of plan).bodies body ↔ ((each : RecordPlan) × Contains plan.records each × (body_of name_of each ≡ body)) }
    ensures names { (name_of : List ℕ → List ℕ) (plan : UnitPlan) (name : List ℕ)
        → Contains (made_of name_of plan).names name ↔ ((each : RecordPlan) × Contains plan.records each × (name_of (bytes_of each) ≡ name)) }
    ensures names_rise { (name_of : List ℕ → List ℕ) (plan : UnitPlan) → IsStrictlySortedBy text_cmp (made_of name_of plan).names }
    ensures bodies_rise { (name_of : List ℕ → List ℕ) (plan : UnitPlan) → IsStrictlySortedBy body_cmp (made_of name_of plan).bodies }
{}

/// Lists with the same elements, in whatever order and however often, make the same.
pub fn order_and_repeats_do_not_matter()
    ensures occurrences { (format : Format) (symbols : List Symbol) (first second : List OccurrencePlan) → ListSame first second
        → record_with format symbols first ≡ record_with format symbols second }
    ensures relations { (symbols : List Symbol) (plan : OccurrencePlan) (relations : List RelationPlan) → ListSame plan.relations relations
        → (occurrence_of symbols plan).relations ≡ (occurrence_of symbols (record plan { relations = relations })).relations }
    ensures records { (name_of : List ℕ → List ℕ) (plan : UnitPlan) (records : List RecordPlan) → ListSame plan.records records
        → made_of name_of plan ≡ made_of name_of (record plan { records = records }) }
{}
