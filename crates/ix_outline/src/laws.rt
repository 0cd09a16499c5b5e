//! Laws of what tables remember. Each is the contract of a function that does nothing.
ghost use Rattle.std.specs.Prelude.{◌≡◌, ◌+◌, ◌==◌, ℕ, Bool, not, length, List, [], ◌∷◌, map, Some, Contains};
ghost use Rattle.std.specs.List.{flat_map};
ghost use Rattle.ix_types.specs.Row.{text_cmp};
ghost use Rattle.ix_unit.specs.declared.value.UnitValue.{UnitValue};
ghost use Rattle.ix_model.specs.Units.{Units};
ghost use Rattle.ix_answers.specs.Batches.{unit_of};
ghost use Rattle.ix_answers.specs.Lookups.{providers, related, named, names, coded, in_path, paths, listing};
ghost use Rattle.ix_pages.specs.Pairs.{IsRising, look_up};
ghost use Rattle.ix_outline.specs.Balance.{Balances, times};
ghost use Rattle.ix_outline.specs.Facts.{Fact, provided, relating, naming, coding, placing, pathing, listing_facts};
ghost use Rattle.ix_outline.specs.Finding.{values_under, keys_given};
ghost use Rattle.ix_outline.specs.Following.{Follows, known_after};
ghost use Rattle.ix_outline.specs.Known.{Known, bare, nothing_known, AreTables};
ghost use Rattle.ix_outline.specs.Moving.{Named, units_moved, outlines_moved, lists_name};
ghost use Rattle.ix_outline.specs.Outline.{outline_of};
ghost use Rattle.ix_outline.specs.declared.outline.Outline.{Outline};

use ix_model::StoredUnit;
use ix_record::RecordValue;
use ix_unit::{RecordDep, UnitPut};

/// What the outlines of records and the units give under a key is what each look-up from scratch finds there. A unit is found by its name,
/// and a record is listed exactly where it has a path.
pub fn what_is_given_is_what_look_ups_find()
    ensures providers { (units : Units) (known : Known) (usr : List ℕ) → AreTables units known → IsRising text_cmp known.outlines
        → values_under usr (flat_map provided known.outlines) ≡ providers usr units }
    ensures related { (units : Units) (known : Known) (usr : List ℕ) → AreTables units known → IsRising text_cmp known.outlines
        → values_under usr (flat_map relating known.outlines) ≡ related usr units }
    ensures named { (units : Units) (known : Known) (name : List ℕ) → AreTables units known → IsRising text_cmp known.outlines
        → values_under name (flat_map naming known.outlines) ≡ named name units }
    ensures names { (units : Units) (known : Known) → AreTables units known → IsRising text_cmp known.outlines
        → keys_given (flat_map naming known.outlines) ≡ names units }
    ensures coded { (units : Units) (known : Known) (codegen : List ℕ) → AreTables units known → IsRising text_cmp known.outlines
        → values_under codegen (flat_map coding known.outlines) ≡ coded codegen units }
    ensures in_path { (units : Units) (path : List ℕ) → values_under path (flat_map placing (map bare units)) ≡ in_path path units }
    ensures paths { (units : Units) (name : List ℕ) → values_under name (flat_map pathing (map bare units)) ≡ paths name units }
    ensures listing { (units : Units) (path : List ℕ) → values_under path (flat_map listing_facts (map bare units)) ≡ listing path units }
    ensures unit { (units : Units) (name : List ℕ) → look_up text_cmp (map bare units) name ≡ unit_of name units }
    ensures listed { (units : Named UnitValue) (name : List ℕ) → not (length (values_under name (flat_map pathing units)) == 0) ≡ lists_name units name }
{
    ix_model::laws::answers_are_sorted_sets();
    ix_model::laws::the_sorted_set_is_one();
    ix_answers::laws::look_ups_are_those();
    ix_answers::laws::all_is_sorted();
}

/// A batch's units, and the outlines of the records that come to be listed or stop being listed, come and go so that nothing is lost or
/// made; then what look-ups are given under a key balances too. Names keep rising.
pub fn what_moves_balances()
    ensures units { (puts : List UnitPut) (gone : List (List ℕ)) (units : Named UnitValue) → IsRising text_cmp units
        → Balances units (units_moved puts gone units).entries (units_moved puts gone units).gained (units_moved puts gone units).lost }
    ensures facts { (gives : List ℕ × Outline → List Fact) (before after gained lost : Named Outline) (key value : List ℕ) → Balances before after gained lost
        → times text_cmp text_cmp key value (flat_map gives after) + times text_cmp text_cmp key value (flat_map gives lost)
        ≡ times text_cmp text_cmp key value (flat_map gives before) + times text_cmp text_cmp key value (flat_map gives gained) }
    ensures unit_names { (puts : List UnitPut) (gone : List (List ℕ)) (units : Named UnitValue) → IsRising text_cmp units
        → IsRising text_cmp (units_moved puts gone units).entries }
    ensures outlines { (listed : List ℕ → Bool) (bodies : Named Outline) (settled : List (List ℕ)) (outlines : Named Outline) → IsRising text_cmp outlines
        → Balances outlines (outlines_moved listed bodies settled outlines).entries (outlines_moved listed bodies settled outlines).gained (outlines_moved listed bodies settled outlines).lost }
    ensures outline_names { (listed : List ℕ → Bool) (bodies : Named Outline) (settled : List (List ℕ)) (outlines : Named Outline) → IsRising text_cmp outlines
        → IsRising text_cmp (outlines_moved listed bodies settled outlines).entries }
{}

/// Nothing known is what tables of no units know. Where tables of some units know this, and a batch with the outlines of the new records
/// leads from these units to others, then what is known after the batch is what tables of those know.
pub fn tables_follow_a_batch()
    ensures empty { AreTables [] nothing_known }
    ensures follow { (puts : List UnitPut) (gone : List (List ℕ)) (bodies : Named Outline) (units later : Units) (known : Known)
        → AreTables units known → Follows puts gone bodies units later → IsRising text_cmp known.units → IsRising text_cmp known.outlines
        → AreTables later (known_after puts gone bodies known) }
{
    ix_answers::laws::batches_lead();
}

/// A batch of one unit leads from no units to this one, where each record has the value that its name decides, and the outlines of these
/// values are at hand.
pub fn a_first_unit_follows()
    ensures { (put : UnitPut) (stored : StoredUnit) (value_of : List ℕ → RecordValue) (bodies : Named Outline) → put.unit.value ≡ stored.unit
        → stored.values ≡ map (λ dep. value_of dep.name) stored.unit.records
        → ((dep : RecordDep) → Contains stored.unit.records dep → look_up text_cmp bodies dep.name ≡ Some (outline_of (value_of dep.name)))
        → Follows (put ∷ []) [] bodies [] ((put.name, stored) ∷ []) }
{
    ix_model::laws::the_latest_publication_stands();
    ix_answers::laws::batches_lead();
}
