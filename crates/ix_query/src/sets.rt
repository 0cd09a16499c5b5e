//! Sorted lists without repeats, by std's sort.
ghost use Rattle.std.specs.Prelude.{◌≡◌, ◌↔◌, true, Contains, IfOk};
ghost use Rattle.std.specs.List.Sorted.{IsStrictlySortedBy};
ghost use Rattle.ix_types.specs.Row.{text_cmp, occurrence_cmp};
ghost use Rattle.ix_model.specs.SortedSet.{sorted_set};

use ix_types::{FileName, OccRow, Text};

/// The items, sorted and without repeats.
fn sorted<T: Ord + Drop>(mut items: Vec<T>) -> Vec<T>
    requires { (x y : T) → T.eq x y ≡ true → x ≡ y }
    ensures rises { IsStrictlySortedBy T.cmp result.items }
    ensures same { (x : T) → Contains result.items x ↔ Contains items.items x }
{
    items.sort_unstable();
    items.dedup();
    items
}

/// The rows, sorted and without repeats.
pub(crate) fn set_of_rows(rows: Vec<OccRow>) -> Vec<OccRow>
    ensures { result.items ≡ sorted_set occurrence_cmp rows.items }
{
    ix_model::laws::answers_are_sorted_sets();
    ix_model::laws::the_sorted_set_is_one();
    sorted(rows)
}

/// The texts, sorted and without repeats.
pub(crate) fn set_of_texts(texts: Vec<Text>) -> Vec<Text>
    ensures { result.items ≡ sorted_set text_cmp texts.items }
{
    ix_model::laws::answers_are_sorted_sets();
    ix_model::laws::the_sorted_set_is_one();
    sorted(texts)
}

/// The names, sorted and without repeats.
pub(crate) fn set_of_names(names: Vec<FileName>) -> Vec<FileName>
    ensures { result.items ≡ sorted_set text_cmp names.items }
{
    ix_model::laws::answers_are_sorted_sets();
    ix_model::laws::the_sorted_set_is_one();
    sorted(names)
}
