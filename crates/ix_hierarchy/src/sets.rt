//! Sorted lists without repeats, by std's sort.
ghost use Rattle.std.specs.Prelude.{◌≡◌, ◌↔◌, true, Contains};
ghost use Rattle.std.specs.List.Sorted.{IsStrictlySortedBy};
ghost use Rattle.ix_types.specs.Row.{text_cmp, edge_cmp};
ghost use Rattle.ix_model.specs.SortedSet.{sorted_set};

use ix_types::{EdgeRow, FileName};

/// The items, sorted and without repeats.
fn sorted<T: Ord + Drop>(mut items: Vec<T>) -> Vec<T>
    requires { (x y : T) → T.eq x y ≡ true → x ≡ y }
    ensures rises { IsStrictlySortedBy T.cmp result.items }
    ensures same { (x : T) → Contains result.items x ↔ Contains items.items x }
{
    items.sort_unstable();
    items.dedup();
    items
}

/// The names, sorted and without repeats.
pub(crate) fn set_of_names(names: Vec<FileName>) -> Vec<FileName>
    ensures { result.items ≡ sorted_set text_cmp names.items }
{
    ix_model::laws::answers_are_sorted_sets();
    ix_model::laws::the_sorted_set_is_one();
    sorted(names)
}

/// The edges, sorted and without repeats.
pub(crate) fn set_of_edges(edges: Vec<EdgeRow>) -> Vec<EdgeRow>
    ensures { result.items ≡ sorted_set edge_cmp edges.items }
{
    ix_levels::laws::edges_have_one_sorted_set();
    sorted(edges)
}
