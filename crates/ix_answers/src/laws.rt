//! Laws of the definitions, each the contract of a function that does nothing.
ghost use Rattle.std.specs.Prelude.{◌≡◌, ◌≤◌, ◌<◌, ◌+◌, ◌⊎◌, ◌↔◌, ℕ, Bool, true, false, List, [], ◌∷◌, ◌++◌, length, slice_get, Some, None, Contains};
ghost use Rattle.ix_types.specs.declared.row.EdgeRow.{EdgeRow};
ghost use Rattle.ix_types.specs.declared.row.OccRow.{OccRow};
ghost use Rattle.ix_types.specs.declared.row.Row.{Row};
ghost use Rattle.ix_types.specs.Row.{text_cmp};
ghost use Rattle.ix_model.specs.Answer.{IsAmongDefinitions};
ghost use Rattle.ix_model.specs.Rows.{rows};
ghost use Rattle.ix_model.specs.Units.{Units, NamesRise, units_after, units_after_last};
ghost use Rattle.ix_answers.specs.Agreement.{AgreeOnRecords, HasValuesByName};
ghost use Rattle.ix_answers.specs.Batches.{unit_of, IsUntouched, LeadsTo, HaveOneValue};
ghost use Rattle.ix_answers.specs.Answers.{answer};
ghost use Rattle.ix_answers.specs.Lookups.{providers, related, named, names, coded, in_path, paths, listing, name_at, unit_at};
ghost use Rattle.ix_answers.specs.Meanings.{IsRecord, IsProvider, IsRelated, IsNamed, IsName, IsCoded, ListsUnder, IsListing, IsMain, IsIncluded, IsReference, IsOccurrence, IsRelation, IsCall, IsOverride, IsDeclaredIn, IsDefinedByName, IsDefinedByCodegen, IsDefinedByPattern, HasText, IsRowOf, IsPathOf, IsUnitOf, IsEdgeOf};
ghost use Rattle.ix_answers.specs.NeedsMeaning.{IsNeededByName, IsNeededByCodegen, IsNeededByPattern, IsNeededByWalk};
ghost use Rattle.ix_answers.specs.Needs.{need_of, next_need, lacking_of, level_needs, walk_needs};
ghost use Rattle.ix_answers.specs.Rising.{IsSortedAnswer, AreLoaded, IsLess, IsLeastLacking};
ghost use Rattle.std.specs.List.Sorted.{IsStrictlySortedBy};
ghost use Rattle.ix_answers.specs.Paths.{IsReached, turned};
ghost use Rattle.ix_answers.specs.Pattern.{folded_byte, folded, stands_at};
ghost use Rattle.ix_answers.specs.Walks.{edges_to};

use crate::walks::Walk;
use ix_model::{Publication, StoredUnit};
use ix_record::RecordValue;
use ix_types::Query;
use ix_unit::{RecordDep, UnitPut};

/// A record is among the providers of a USR exactly where some unit lists it and its value has a symbol of that USR; and so each
/// look-up has what units and records say, and nothing else.
pub fn look_ups_are_those()
    ensures providers { (units : Units) (usr name : List ℕ) → Contains (providers usr units) name ↔ IsProvider units usr name }
    ensures related { (units : Units) (usr name : List ℕ) → Contains (related usr units) name ↔ IsRelated units usr name }
    ensures named { (units : Units) (name usr : List ℕ) → Contains (named name units) usr ↔ IsNamed units name usr }
    ensures names { (units : Units) (name : List ℕ) → Contains (names units) name ↔ IsName units name }
    ensures coded { (units : Units) (codegen usr : List ℕ) → Contains (coded codegen units) usr ↔ IsCoded units codegen usr }
    ensures in_path { (units : Units) (path name : List ℕ) → Contains (in_path path units) name ↔ ListsUnder units path name }
    ensures paths { (units : Units) (name path : List ℕ) → Contains (paths name units) path ↔ ListsUnder units path name }
    ensures listing { (units : Units) (path name : List ℕ) → Contains (listing path units) name ↔ IsListing units path name }
{}

/// A query for rows answers these rows and no others, and no path, unit or edge.
pub fn rows_are_those()
    ensures defined { (usr : List ℕ) (units : Units) (r : Row) → Contains (answer (Query.Def usr) units) r ↔ IsRowOf (IsAmongDefinitions usr (rows units)) r }
    ensures refs { (usr : List ℕ) (units : Units) (r : Row) → Contains (answer (Query.Refs usr) units) r ↔ IsRowOf (IsReference usr (rows units)) r }
    ensures occ { (usr : List ℕ) (roles : ℕ) (units : Units) (r : Row) → Contains (answer (Query.Occ usr roles) units) r ↔ IsRowOf (IsOccurrence usr roles (rows units)) r }
    ensures rel { (usr : List ℕ) (roles : ℕ) (units : Units) (r : Row) → Contains (answer (Query.Rel usr roles) units) r ↔ IsRowOf (IsRelation usr roles (rows units)) r }
    ensures callers { (usr : List ℕ) (units : Units) (r : Row) → Contains (answer (Query.Callers usr) units) r ↔ IsRowOf (IsCall usr (rows units)) r }
    ensures overrides { (usr : List ℕ) (units : Units) (r : Row) → Contains (answer (Query.Overrides usr) units) r ↔ IsRowOf (IsOverride usr (rows units)) r }
    ensures symbols { (path : List ℕ) (units : Units) (r : Row) → Contains (answer (Query.Symbols path) units) r ↔ IsRowOf (IsDeclaredIn path (rows units)) r }
    ensures name { (name : List ℕ) (units : Units) (r : Row) → Contains (answer (Query.Name name) units) r ↔ IsRowOf (IsDefinedByName units name) r }
    ensures codegen { (codegen : List ℕ) (units : Units) (r : Row) → Contains (answer (Query.Codegen codegen) units) r ↔ IsRowOf (IsDefinedByCodegen units codegen) r }
    ensures pattern { (text : List ℕ) (start end fold : Bool) (units : Units) (r : Row) → Contains (answer (Query.Pattern text start end fold) units) r ↔ IsRowOf (IsDefinedByPattern units text start end fold) r }
{
    ix_types::laws::a_common_bit_is_set();
    ix_model::laws::answers_are_sorted_sets();
    ix_model::laws::definitions_are_those();
}

/// A query for paths or units answers these and no others.
pub fn paths_and_units_are_those()
    ensures mains { (path : List ℕ) (units : Units) (r : Row) → Contains (answer (Query.Mains path) units) r ↔ IsPathOf (IsMain units path) r }
    ensures units { (path : List ℕ) (units : Units) (r : Row) → Contains (answer (Query.Units path) units) r ↔ IsUnitOf (IsListing units path) r }
    ensures includes { (path : List ℕ) (units : Units) (r : Row) → Contains (answer (Query.Includes path) units) r ↔ IsPathOf (IsIncluded units path) r }
    ensures includers { (path : List ℕ) (units : Units) (r : Row) → Contains (answer (Query.Includers path) units) r ↔ IsPathOf (λ from. IsIncluded units from path) r }
{}

/// A walk answers these edges and no others: an edge of depth k stands behind a path of k - 1 edges from the start, and no shorter
/// path leads to where it begins. On one edge callers and callees are each other's mirror.
pub fn walks_are_those()
    ensures incoming { (usr : List ℕ) (depth : ℕ) (units : Units) (r : Row) → Contains (answer (Query.Incoming usr depth) units) r ↔ IsEdgeOf (IsReached Walk.Incoming (rows units) usr depth) r }
    ensures outgoing { (usr : List ℕ) (depth : ℕ) (units : Units) (r : Row) → Contains (answer (Query.Outgoing usr depth) units) r ↔ IsEdgeOf (IsReached Walk.Outgoing (rows units) usr depth) r }
    ensures supertypes { (usr : List ℕ) (depth : ℕ) (units : Units) (r : Row) → Contains (answer (Query.Supertypes usr depth) units) r ↔ IsEdgeOf (IsReached Walk.Supertypes (rows units) usr depth) r }
    ensures subtypes { (usr : List ℕ) (depth : ℕ) (units : Units) (r : Row) → Contains (answer (Query.Subtypes usr depth) units) r ↔ IsEdgeOf (IsReached Walk.Subtypes (rows units) usr depth) r }
    ensures mirror { (all : List OccRow) (e : EdgeRow) → Contains (edges_to Walk.Incoming all e.from 1) e ↔ Contains (edges_to Walk.Outgoing all e.to 1) (turned e) }
{}

/// A pattern's text stands in a name where the name is some front, the text, and some rest; at the start there is no front, at the
/// end no rest. Folding changes A to Z alone. With both anchors and no folding a pattern answers what the name does.
pub fn patterns_are_those()
    ensures stands { (start end : Bool) (text name : List ℕ) → (stands_at start end text name ≡ true) ↔ HasText text start end name }
    ensures letters { (byte : ℕ) → 65 ≤ byte → byte ≤ 90 → folded_byte byte ≡ byte + 32 }
    ensures others { (byte : ℕ) → (byte < 65) ⊎ (90 < byte) → folded_byte byte ≡ byte }
    ensures whole { (text : List ℕ) (units : Units) → answer (Query.Pattern text true true false) units ≡ answer (Query.Name text) units }
    ensures codegen { (units : Units) → answer (Query.Codegen []) units ≡ [] }
{}

/// Each look-up and each answer rises strictly, so nothing stands in it twice; the rows of an answer are of one kind.
pub fn all_is_sorted()
    ensures providers { (units : Units) (usr : List ℕ) → IsStrictlySortedBy text_cmp (providers usr units) }
    ensures related { (units : Units) (usr : List ℕ) → IsStrictlySortedBy text_cmp (related usr units) }
    ensures named { (units : Units) (name : List ℕ) → IsStrictlySortedBy text_cmp (named name units) }
    ensures names { (units : Units) → IsStrictlySortedBy text_cmp (names units) }
    ensures coded { (units : Units) (codegen : List ℕ) → IsStrictlySortedBy text_cmp (coded codegen units) }
    ensures in_path { (units : Units) (path : List ℕ) → IsStrictlySortedBy text_cmp (in_path path units) }
    ensures paths { (units : Units) (name : List ℕ) → IsStrictlySortedBy text_cmp (paths name units) }
    ensures listing { (units : Units) (path : List ℕ) → IsStrictlySortedBy text_cmp (listing path units) }
    ensures answers { (query : Query) (units : Units) → IsSortedAnswer (answer query units) }
{
    ix_model::laws::answers_are_sorted_sets();
}

/// None comes next exactly where all needed records are loaded. What comes next is needed and isn't loaded. For a walk it is the least
/// of the first level that lacks one.
pub fn the_next_need_is_that()
    ensures none { (query : Query) (units : Units) (loaded : List (List ℕ)) → (next_need query units loaded ≡ None) ↔ AreLoaded loaded (need_of query units) }
    ensures least { (walk : Walk) (usr : List ℕ) (units : Units) (loaded : List (List ℕ)) (n : ℕ) (name : List ℕ) → lacking_of loaded (level_needs walk usr units n) ≡ Some name → IsLeastLacking loaded (level_needs walk usr units n) name }
    ensures first { (walk : Walk) (usr : List ℕ) (units : Units) (loaded : List (List ℕ)) (n depth : ℕ) (name : List ℕ) → n < depth → ((m : ℕ) → m < n → AreLoaded loaded (level_needs walk usr units m)) → lacking_of loaded (level_needs walk usr units n) ≡ Some name → lacking_of loaded (walk_needs walk usr units depth) ≡ Some name }
    ensures plain { (usr : List ℕ) (units : Units) (loaded : List (List ℕ)) (name : List ℕ) → next_need (Query.Def usr) units loaded ≡ Some name → IsLeastLacking loaded (providers usr units) name }
{}

/// Where a batch leads is one for the units of all names. No batch leads from a map to itself, and one change to the map after it. Where
/// records have one value over two maps, a name has it in both.
pub fn batches_lead()
    ensures nothing { (units : Units) → LeadsTo [] [] units units }
    ensures put { (earlier : List Publication) (put : UnitPut) (stored : StoredUnit) → put.unit.value ≡ stored.unit
        → LeadsTo (put ∷ []) [] (units_after earlier) (units_after_last earlier (Publication.Put put.name stored)) }
    ensures gone { (earlier : List Publication) (name : List ℕ) → LeadsTo [] (name ∷ []) (units_after earlier) (units_after_last earlier (Publication.Gone name)) }
    ensures one { (name : List ℕ) (puts : List UnitPut) (gone : List (List ℕ)) (before first second : Units) → LeadsTo puts gone before first
        → LeadsTo puts gone before second → unit_of name first ≡ unit_of name second }
    ensures stays { (before after : Units) (first second : RecordDep) (value other : RecordValue) → HaveOneValue before after → IsRecord before first value
        → IsRecord after second other → first.name ≡ second.name → value ≡ other }
    ensures before { (before after : Units) (first second : RecordDep) (value other : RecordValue) → HaveOneValue before after → IsRecord before first value
        → IsRecord before second other → first.name ≡ second.name → value ≡ other }
    ensures after { (before after : Units) (first second : RecordDep) (value other : RecordValue) → HaveOneValue before after → IsRecord after first value
        → IsRecord after second other → first.name ≡ second.name → value ≡ other }
{
    ix_model::laws::the_latest_publication_stands();
}

/// A query needs these records and no others: those that hold what it asks for or have a relation to it, for a walk those of each USR to
/// which a path leads that is shorter than the depth.
pub fn needs_are_those()
    ensures defined { (usr name : List ℕ) (units : Units) → Contains (need_of (Query.Def usr) units) name ↔ IsProvider units usr name }
    ensures refs { (usr name : List ℕ) (units : Units) → Contains (need_of (Query.Refs usr) units) name ↔ IsProvider units usr name }
    ensures occ { (usr : List ℕ) (roles : ℕ) (name : List ℕ) (units : Units) → Contains (need_of (Query.Occ usr roles) units) name ↔ IsProvider units usr name }
    ensures rel { (usr : List ℕ) (roles : ℕ) (name : List ℕ) (units : Units) → Contains (need_of (Query.Rel usr roles) units) name ↔ IsRelated units usr name }
    ensures callers { (usr name : List ℕ) (units : Units) → Contains (need_of (Query.Callers usr) units) name ↔ IsProvider units usr name }
    ensures overrides { (usr name : List ℕ) (units : Units) → Contains (need_of (Query.Overrides usr) units) name ↔ IsRelated units usr name }
    ensures symbols { (path name : List ℕ) (units : Units) → Contains (need_of (Query.Symbols path) units) name ↔ ListsUnder units path name }
    ensures name { (of name : List ℕ) (units : Units) → Contains (need_of (Query.Name of) units) name ↔ IsNeededByName units of name }
    ensures codegen { (codegen name : List ℕ) (units : Units) → Contains (need_of (Query.Codegen codegen) units) name ↔ IsNeededByCodegen units codegen name }
    ensures pattern { (text : List ℕ) (start end fold : Bool) (name : List ℕ) (units : Units) → Contains (need_of (Query.Pattern text start end fold) units) name ↔ IsNeededByPattern units text start end fold name }
    ensures incoming { (usr : List ℕ) (depth : ℕ) (name : List ℕ) (units : Units) → Contains (need_of (Query.Incoming usr depth) units) name ↔ IsNeededByWalk Walk.Incoming units usr depth name }
    ensures outgoing { (usr : List ℕ) (depth : ℕ) (name : List ℕ) (units : Units) → Contains (need_of (Query.Outgoing usr depth) units) name ↔ IsNeededByWalk Walk.Outgoing units usr depth name }
    ensures supertypes { (usr : List ℕ) (depth : ℕ) (name : List ℕ) (units : Units) → Contains (need_of (Query.Supertypes usr depth) units) name ↔ IsNeededByWalk Walk.Supertypes units usr depth name }
    ensures subtypes { (usr : List ℕ) (depth : ℕ) (name : List ℕ) (units : Units) → Contains (need_of (Query.Subtypes usr depth) units) name ↔ IsNeededByWalk Walk.Subtypes units usr depth name }
    ensures mains { (path : List ℕ) (units : Units) → need_of (Query.Mains path) units ≡ [] }
    ensures units { (path : List ℕ) (units : Units) → need_of (Query.Units path) units ≡ [] }
    ensures includes { (path : List ℕ) (units : Units) → need_of (Query.Includes path) units ≡ [] }
    ensures includers { (path : List ℕ) (units : Units) → need_of (Query.Includers path) units ≡ [] }
{}

/// For a query that is no walk the needed record that comes next is the least one that isn't loaded.
pub fn the_least_need_comes_next()
    ensures defined { (usr : List ℕ) (units : Units) (loaded : List (List ℕ)) (name : List ℕ) → (next_need (Query.Def usr) units loaded ≡ Some name) ↔ IsLeastLacking loaded (need_of (Query.Def usr) units) name }
    ensures refs { (usr : List ℕ) (units : Units) (loaded : List (List ℕ)) (name : List ℕ) → (next_need (Query.Refs usr) units loaded ≡ Some name) ↔ IsLeastLacking loaded (need_of (Query.Refs usr) units) name }
    ensures occ { (usr : List ℕ) (roles : ℕ) (units : Units) (loaded : List (List ℕ)) (name : List ℕ) → (next_need (Query.Occ usr roles) units loaded ≡ Some name) ↔ IsLeastLacking loaded (need_of (Query.Occ usr roles) units) name }
    ensures rel { (usr : List ℕ) (roles : ℕ) (units : Units) (loaded : List (List ℕ)) (name : List ℕ) → (next_need (Query.Rel usr roles) units loaded ≡ Some name) ↔ IsLeastLacking loaded (need_of (Query.Rel usr roles) units) name }
    ensures callers { (usr : List ℕ) (units : Units) (loaded : List (List ℕ)) (name : List ℕ) → (next_need (Query.Callers usr) units loaded ≡ Some name) ↔ IsLeastLacking loaded (need_of (Query.Callers usr) units) name }
    ensures overrides { (usr : List ℕ) (units : Units) (loaded : List (List ℕ)) (name : List ℕ) → (next_need (Query.Overrides usr) units loaded ≡ Some name) ↔ IsLeastLacking loaded (need_of (Query.Overrides usr) units) name }
    ensures symbols { (path : List ℕ) (units : Units) (loaded : List (List ℕ)) (name : List ℕ) → (next_need (Query.Symbols path) units loaded ≡ Some name) ↔ IsLeastLacking loaded (need_of (Query.Symbols path) units) name }
    ensures name { (of : List ℕ) (units : Units) (loaded : List (List ℕ)) (name : List ℕ) → (next_need (Query.Name of) units loaded ≡ Some name) ↔ IsLeastLacking loaded (need_of (Query.Name of) units) name }
    ensures codegen { (codegen : List ℕ) (units : Units) (loaded : List (List ℕ)) (name : List ℕ) → (next_need (Query.Codegen codegen) units loaded ≡ Some name) ↔ IsLeastLacking loaded (need_of (Query.Codegen codegen) units) name }
    ensures pattern { (text : List ℕ) (start end fold : Bool) (units : Units) (loaded : List (List ℕ)) (name : List ℕ) → (next_need (Query.Pattern text start end fold) units loaded ≡ Some name) ↔ IsLeastLacking loaded (need_of (Query.Pattern text start end fold) units) name }
{}

/// For a walk what comes next is the least one that the first level lacks of which not all are loaded, if that level is below the depth.
pub fn the_first_level_comes_next()
    ensures incoming { (usr : List ℕ) (units : Units) (loaded : List (List ℕ)) (n depth : ℕ) (name : List ℕ) → n < depth → ((m : ℕ) → m < n → AreLoaded loaded (level_needs Walk.Incoming usr units m))
        → IsLeastLacking loaded (level_needs Walk.Incoming usr units n) name → next_need (Query.Incoming usr depth) units loaded ≡ Some name }
    ensures outgoing { (usr : List ℕ) (units : Units) (loaded : List (List ℕ)) (n depth : ℕ) (name : List ℕ) → n < depth → ((m : ℕ) → m < n → AreLoaded loaded (level_needs Walk.Outgoing usr units m))
        → IsLeastLacking loaded (level_needs Walk.Outgoing usr units n) name → next_need (Query.Outgoing usr depth) units loaded ≡ Some name }
    ensures supertypes { (usr : List ℕ) (units : Units) (loaded : List (List ℕ)) (n depth : ℕ) (name : List ℕ) → n < depth → ((m : ℕ) → m < n → AreLoaded loaded (level_needs Walk.Supertypes usr units m))
        → IsLeastLacking loaded (level_needs Walk.Supertypes usr units n) name → next_need (Query.Supertypes usr depth) units loaded ≡ Some name }
    ensures subtypes { (usr : List ℕ) (units : Units) (loaded : List (List ℕ)) (n depth : ℕ) (name : List ℕ) → n < depth → ((m : ℕ) → m < n → AreLoaded loaded (level_needs Walk.Subtypes usr units m))
        → IsLeastLacking loaded (level_needs Walk.Subtypes usr units n) name → next_need (Query.Subtypes usr depth) units loaded ≡ Some name }
{}

/// Folding changes each byte by itself: a folded text is as long, and has the folded byte at each place. With no folding a text stays.
pub fn folding_is_of_each_byte()
    ensures length { (text : List ℕ) → length (folded true text) ≡ length text }
    ensures each { (text : List ℕ) (place byte : ℕ) → slice_get text place ≡ Some byte → slice_get (folded true text) place ≡ Some (folded_byte byte) }
    ensures plain { (text : List ℕ) → folded false text ≡ text }
{}

/// Two batches, one after the other, lead where both together lead, if the second puts and removes no name of the first.
pub fn batches_join()
    ensures { (puts more : List UnitPut) (gone more_gone : List (List ℕ)) (before middle after : Units) → LeadsTo puts gone before middle → LeadsTo more more_gone middle after
        → ((put : UnitPut) → Contains puts put → IsUntouched more more_gone put.name) → ((name : List ℕ) → Contains gone name → IsUntouched more more_gone name)
        → LeadsTo (puts ++ more) (gone ++ more_gone) before after }
{}

/// Records have one value over two maps where they have one within each and across. So it is where each has the value of its name, and
/// over a unit with one record.
pub fn records_have_one_value()
    ensures parts { (before after : Units) → AgreeOnRecords before before → AgreeOnRecords after after → AgreeOnRecords before after → HaveOneValue before after }
    ensures by_name { (value_of : List ℕ → RecordValue) (before after : Units) → HasValuesByName value_of before → HasValuesByName value_of after → HaveOneValue before after }
    ensures alone { (name : List ℕ) (stored : StoredUnit) (value : RecordValue) → stored.values ≡ value ∷ [] → HaveOneValue ((name, stored) ∷ []) ((name, stored) ∷ []) }
{}

/// A name at a lesser place comes before one at a greater, and so it is with units where their names rise.
pub fn places_are_in_order()
    ensures names { (units : Units) (first second : ℕ) (low high : List ℕ) → first < second → name_at first units ≡ Some low → name_at second units ≡ Some high → IsLess low high }
    ensures units { (units : Units) (first second : ℕ) (low high : List ℕ × StoredUnit) → NamesRise units → first < second → unit_at first units ≡ Some low → unit_at second units ≡ Some high → IsLess low.0 high.0 }
{}
