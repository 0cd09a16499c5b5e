//! Laws of the definitions, each the contract of a function that does nothing.
ghost use Rattle.std.specs.Prelude.{◌≡◌, ◌≢◌, ◌↔◌, ℕ, true, List, [], Some, None, Contains};
ghost use Rattle.ix_record.specs.declared.value.RecordValue.{RecordValue};
ghost use Rattle.ix_unit.specs.declared.value.RecordDep.{RecordDep};
ghost use Rattle.ix_model.specs.Units.{Units, NamesRise};
ghost use Rattle.ix_answers.specs.Answers.{answer};
ghost use Rattle.ix_answers.specs.Meanings.{IsRecord};
ghost use Rattle.ix_answers.specs.Needs.{need_of, next_need};
ghost use Rattle.ix_lookups.specs.Found.{found_in};
ghost use Rattle.ix_lookups.specs.Loaded.{Loaded, body_named, loaded_names};
ghost use Rattle.ix_needs.specs.Chosen.{answer_from, needed_from};
ghost use Rattle.ix_needs.specs.Premises.{is_plain, Holds, AreNeedsLoaded, AreValued};

use ix_record::RecordValue;
use ix_types::Query;
use ix_unit::RecordDep;

/// The records that look-ups name for a query are those that it needs, in the same order.
pub fn look_ups_name_the_needs()
    ensures { (query : Query) (units : Units) → is_plain query ≡ true → needed_from query (found_in units) ≡ need_of query units }
{
    ix_model::laws::answers_are_sorted_sets();
    ix_model::laws::the_sorted_set_is_one();
}

/// Needed records suffice: what is chosen from their bodies is the answer over all rows of all units.
pub fn needed_records_suffice()
    ensures { (query : Query) (units : Units) (bodies : Loaded) → is_plain query ≡ true → Holds units bodies → AreNeedsLoaded query units bodies
        → answer_from query (found_in units) bodies ≡ answer query units }
{
    ix_model::laws::answers_are_sorted_sets();
    ix_model::laws::the_sorted_set_is_one();
    ix_answers::laws::look_ups_are_those();
    ix_answers::laws::paths_and_units_are_those();
}

/// What an answer rests on is met step by step. Where nothing is loaded it holds over any units in order whose records have values; it still does once one body
/// more is loaded, under any name, that is the value of each record of that name; and all that a query needs is loaded exactly where no need comes next.
pub fn bodies_of_units_hold()
    ensures none { (units : Units) (bodies : Loaded) → NamesRise units → AreValued units → bodies.entries ≡ [] → Holds units bodies }
    ensures one { (units : Units) (before after : Loaded) (name : List ℕ) (body : RecordValue) → Holds units before
        → ((dep : RecordDep) (value : RecordValue) → IsRecord units dep value → dep.name ≡ name → value ≡ body) → body_named name after ≡ Some body
        → ((other : List ℕ) → other ≢ name → body_named other after ≡ body_named other before) → Holds units after }
    ensures asked { (query : Query) (units : Units) (bodies : Loaded) → AreNeedsLoaded query units bodies ↔ (next_need query units (loaded_names bodies) ≡ None) }
{
    ix_answers::laws::the_next_need_is_that();
}
