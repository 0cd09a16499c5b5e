//! What an index of facts finds. Each is the contract of a function that does nothing.
ghost use Rattle.std.specs.Prelude.{◌≡◌, ℕ, List};
ghost use Rattle.std.specs.Map.{keys_of};
ghost use Rattle.ix_types.specs.Row.{text_cmp};
ghost use Rattle.ix_index.specs.Counted.{values_at};
ghost use Rattle.ix_outline.specs.Facts.{Fact};
ghost use Rattle.ix_outline.specs.Finding.{values_under, keys_given};
ghost use Rattle.ix_tables.specs.Kept.{TextIndex};
ghost use Rattle.ix_tables.specs.Steps.{IsIndexOf};

use ix_types::Text;

/// An index of facts has under a key the values that the facts give there, and the keys under which they give one.
pub(crate) fn an_index_finds_what_facts_give()
    ensures values { (index : TextIndex) (facts : List Fact) (key : List ℕ) → IsIndexOf text_cmp text_cmp index facts → values_at text_cmp index key ≡ values_under key facts }
    ensures keys { (index : TextIndex) (facts : List Fact) → IsIndexOf text_cmp text_cmp index facts → keys_of index ≡ keys_given facts }
{
    ix_model::laws::answers_are_sorted_sets();
    ix_model::laws::the_sorted_set_is_one();
    ix_index::laws::values_are_what_has_a_count::<Text, Text>();
    ix_index::laws::keys_are_what_has_a_value::<Text, Text>();
}
