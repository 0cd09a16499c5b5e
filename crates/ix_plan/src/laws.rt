//! Laws of the definitions. Each is the contract of a function that does nothing.
ghost use Rattle.std.specs.Prelude.{◌≡◌, ◌∷◌, ◌++◌, ◌<◌, ◌≤◌, ◌^◌, ℕ, List, [], length, map, codes, Bool, true, false, Ok, Err, bit_and};
ghost use Rattle.std.specs.List.{AllByRecursion, IsDistinct, filter};
ghost use Rattle.std.specs.Fmt.{decimal};
ghost use Rattle.std.specs.Str.{bytes_eq};
ghost use Rattle.ix_types.specs.Codes.{has_code, kinds, langs, relation_bits};
ghost use Rattle.ix_types.specs.Text.{IsText, IsTextOrEmpty};
ghost use Rattle.ix_types.specs.declared.format.Format.{Format};
ghost use Rattle.ix_types.specs.declared.format.Format.TheVariants.{One, Two};
ghost use Rattle.ix_types.specs.declared.row.Query.TheVariants as query;
ghost use Rattle.ix_plan.specs.declared.plan.Step.TheVariants.{Build, Remove, Ask};
ghost use Rattle.ix_plan.specs.declared.refusal.ScriptRefusal.TheVariants.{BadValue};
ghost use Rattle.serde_json.specs.Data.{Data, Items, item};
ghost use Rattle.ix_plan.specs.Read.{within};
ghost use Rattle.ix_plan.specs.Json.{with_fields, field, field_or, in_order, one_more};
ghost use Rattle.ix_plan.specs.Values.{text_of, flag_of};
ghost use Rattle.ix_plan.specs.Plans.{is_usr_of, file_of};
ghost use Rattle.ix_plan.specs.Reading.{polls, fields_of, script_of_json};
ghost use Rattle.ix_plan.specs.Keeps.{IsAccepted, IsLane, IsStep, IsStepOf, IsLaneOf, IsAsk, IsUnitPlan, IsShortUnit, IsShortRecord, IsRecordPlan, IsFilePlan, IsIncludePlan, IsSymbolPlan, IsOccurrencePlan, IsRelationPlan};

use crate::plan::{
    FilePlan, IncludePlan, OccurrencePlan, RecordPlan, RelationPlan, Script, Step, SymbolPlan,
    UnitPlan,
};
use crate::refusal::ScriptRefusal;
use ix_types::Query;

/// Of two faults the one that is read first is answered: of a file's, a field that it may not have, then its path's, then the flag's; of a list's,
/// the first item's; a script's second lane that polls is judged after all else. A part's fault stands behind the part's name.
#[tactic(auto, unfolding(crate::specs::Plans::file_of))]
pub fn the_first_fault_is_answered()
    ensures fields { (d : Data) (r : ScriptRefusal) → with_fields (codes "path" ∷ codes "system" ∷ []) d ≡ Err r → file_of d ≡ Err r }
    ensures path { (d : Data) (r : ScriptRefusal) → with_fields (codes "path" ∷ codes "system" ∷ []) d ≡ Ok tt → field (codes "path") text_of d ≡ Err r → file_of d ≡ Err r }
    ensures system { (d : Data) (r : ScriptRefusal) (path : List ℕ) → with_fields (codes "path" ∷ codes "system" ∷ []) d ≡ Ok tt → field (codes "path") text_of d ≡ Ok path
        → field_or false (codes "system") flag_of d ≡ Err r → file_of d ≡ Err r }
    ensures items { (i : ℕ) (d : Data) (ds : Items) (before : List (List ℕ)) (r : ScriptRefusal) → within (decimal i) (text_of d) ≡ Err r
        → in_order (λ before. text_of) one_more before i (item d ds) ≡ Err r }
    ensures pollers { (d : Data) (r : ScriptRefusal) → fields_of d ≡ Err r → script_of_json d ≡ Err r }
    ensures place { (part path : List ℕ) → within {A = Script} part (Err (BadValue path)) ≡ Err (BadValue (47 ∷ part ++ path)) }
{}

/// An accepted script has at most 16 lanes of at most 4,096 steps, an order of its lanes, and at most one lane that polls. All its records are of
/// one format, and only in format Two does it ask for a code generation name.
pub fn scripts_keep_their_rules()
    ensures lanes { (script : Script) → IsAccepted script → (length script.lanes ≤ 16) × AllByRecursion IsLane script.lanes }
    ensures steps { (lane : List Step) → IsLane lane → (length lane ≤ 4096) × AllByRecursion IsStep lane }
    ensures order { (script : Script) → IsAccepted script → (length script.order ≤ 65536) × AllByRecursion (λ lane. lane < length script.lanes) script.order }
    ensures pollers { (script : Script) → IsAccepted script → length (filter polls script.lanes) ≤ 1 }
    ensures builds { (plan : UnitPlan) → IsStep (Build plan) → IsUnitPlan plan × IsShortUnit plan }
    ensures removes { (output : List ℕ) → IsStep (Remove output) → IsText output }
    ensures asks { (ask : Query) → IsStep (Ask ask) → IsAsk ask }
    ensures format { (script : Script) → IsAccepted script → (format : Format) × AllByRecursion (IsLaneOf format) script.lanes }
    ensures records { (format : Format) (plan : UnitPlan) → IsStepOf format (Build plan) → AllByRecursion (λ each. each.format ≡ format) plan.records }
    ensures codegen { (format : Format) (text : List ℕ) → IsStepOf format (Ask (query.Codegen text)) → format ≡ Two }
{}

/// The text of each ask with one field. A name may be empty.
pub fn asks_have_their_texts()
    ensures def { (text : List ℕ) → IsAsk (query.Def text) → IsText text }
    ensures refs { (text : List ℕ) → IsAsk (query.Refs text) → IsText text }
    ensures callers { (text : List ℕ) → IsAsk (query.Callers text) → IsText text }
    ensures overrides { (text : List ℕ) → IsAsk (query.Overrides text) → IsText text }
    ensures name { (text : List ℕ) → IsAsk (query.Name text) → IsTextOrEmpty text }
    ensures symbols { (text : List ℕ) → IsAsk (query.Symbols text) → IsText text }
    ensures mains { (text : List ℕ) → IsAsk (query.Mains text) → IsText text }
    ensures units { (text : List ℕ) → IsAsk (query.Units text) → IsText text }
    ensures includes { (text : List ℕ) → IsAsk (query.Includes text) → IsText text }
    ensures includers { (text : List ℕ) → IsAsk (query.Includers text) → IsText text }
    ensures codegen { (text : List ℕ) → IsAsk (query.Codegen text) → IsText text }
{}

/// Asks with roles have at least one, a walk's depth is from 1 to 16, and a pattern has a text.
pub fn asks_are_within_their_limits()
    ensures occ { (usr : List ℕ) (roles : ℕ) → IsAsk (query.Occ usr roles) → IsText usr × (0 < roles) × (roles < 2 ^ 19) }
    ensures rel { (usr : List ℕ) (roles : ℕ) → IsAsk (query.Rel usr roles) → IsText usr × (0 < roles) × (bit_and roles relation_bits ≡ roles) }
    ensures pattern { (text : List ℕ) (start end fold : Bool) → IsAsk (query.Pattern text start end fold) → IsText text }
    ensures incoming { (usr : List ℕ) (depth : ℕ) → IsAsk (query.Incoming usr depth) → IsText usr × (1 ≤ depth) × (depth ≤ 16) }
    ensures outgoing { (usr : List ℕ) (depth : ℕ) → IsAsk (query.Outgoing usr depth) → IsText usr × (1 ≤ depth) × (depth ≤ 16) }
    ensures supertypes { (usr : List ℕ) (depth : ℕ) → IsAsk (query.Supertypes usr depth) → IsText usr × (1 ≤ depth) × (depth ≤ 16) }
    ensures subtypes { (usr : List ℕ) (depth : ℕ) → IsAsk (query.Subtypes usr depth) → IsText usr × (1 ≤ depth) × (depth ≤ 16) }
{}

/// A plan's rules, whatever the length of its lists: a compile job's texts, files and includes.
pub fn units_keep_their_rules()
    ensures texts { (plan : UnitPlan) → IsUnitPlan plan → IsText plan.output × IsTextOrEmpty plan.main × IsTextOrEmpty plan.module }
    ensures units { (plan : UnitPlan) → IsUnitPlan plan → AllByRecursion IsText plan.units }
    ensures records { (plan : UnitPlan) → IsUnitPlan plan → AllByRecursion IsRecordPlan plan.records }
    ensures files { (plan : UnitPlan) → IsUnitPlan plan → AllByRecursion IsFilePlan plan.files }
    ensures includes { (plan : UnitPlan) → IsUnitPlan plan → AllByRecursion IsIncludePlan plan.includes }
    ensures file { (plan : FilePlan) → IsFilePlan plan → IsText plan.path }
    ensures include { (plan : IncludePlan) → IsIncludePlan plan → IsText plan.from × IsText plan.to × (1 ≤ plan.line) × (plan.line < 2 ^ 32) }
{}

/// A record's symbols have USRs of their own, and its occurrences and relations are those of its symbols.
pub fn records_keep_their_rules()
    ensures symbols { (plan : RecordPlan) → IsRecordPlan plan → AllByRecursion (IsSymbolPlan plan.format) plan.symbols }
    ensures own_usrs { (plan : RecordPlan) → IsRecordPlan plan → IsDistinct bytes_eq (map (λ symbol. symbol.usr) plan.symbols) }
    ensures occurrences { (plan : RecordPlan) → IsRecordPlan plan → AllByRecursion (IsOccurrencePlan plan.symbols) plan.occurrences }
    ensures path { (plan : RecordPlan) → IsRecordPlan plan → IsText plan.path }
    ensures symbol { (plan : SymbolPlan) → IsSymbolPlan One plan → IsText plan.usr × IsTextOrEmpty plan.name × (plan.codegen ≡ []) }
    ensures codegen { (plan : SymbolPlan) → IsSymbolPlan Two plan → IsTextOrEmpty plan.codegen }
    ensures words { (format : Format) (plan : SymbolPlan) → IsSymbolPlan format plan
        → (has_code kinds plan.kind ≡ true) × (has_code langs plan.lang ≡ true) × (plan.props < 2 ^ 9) }
    ensures occurrence { (symbols : List SymbolPlan) (plan : OccurrencePlan) → IsOccurrencePlan symbols plan
        → (is_usr_of symbols plan.usr ≡ true) × (1 ≤ plan.line) × (1 ≤ plan.col) × (0 < plan.roles) × (plan.roles < 2 ^ 19) }
    ensures coordinates { (symbols : List SymbolPlan) (plan : OccurrencePlan) → IsOccurrencePlan symbols plan → (plan.line < 2 ^ 32) × (plan.col < 2 ^ 32) }
    ensures relations { (symbols : List SymbolPlan) (plan : OccurrencePlan) → IsOccurrencePlan symbols plan → AllByRecursion (IsRelationPlan symbols) plan.relations }
    ensures relation { (symbols : List SymbolPlan) (plan : RelationPlan) → IsRelationPlan symbols plan
        → (is_usr_of symbols plan.usr ≡ true) × (0 < plan.roles) × (bit_and plan.roles relation_bits ≡ plan.roles) }
{}

/// The lengths of a plan's lists: at most 4,096 for each list of a compile job, 65,536 for each of a record, 256 for each of an occurrence.
pub fn plans_are_within_their_limits()
    ensures units { (plan : UnitPlan) → IsShortUnit plan → length plan.units ≤ 4096 }
    ensures records { (plan : UnitPlan) → IsShortUnit plan → (length plan.records ≤ 4096) × AllByRecursion IsShortRecord plan.records }
    ensures files { (plan : UnitPlan) → IsShortUnit plan → length plan.files ≤ 4096 }
    ensures includes { (plan : UnitPlan) → IsShortUnit plan → length plan.includes ≤ 4096 }
    ensures symbols { (plan : RecordPlan) → IsShortRecord plan → length plan.symbols ≤ 65536 }
    ensures occurrences { (plan : RecordPlan) → IsShortRecord plan
        → (length plan.occurrences ≤ 65536) × AllByRecursion (λ each. length each.relations ≤ 256) plan.occurrences }
{}
