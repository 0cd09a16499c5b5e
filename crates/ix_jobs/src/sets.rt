//! Sorted lists without repeats, by std's sort.
ghost use Rattle.std.specs.Prelude.{◌≡◌, ◌↔◌, Contains};
ghost use Rattle.std.specs.FinMap.{IsAntisymmetric};
ghost use Rattle.std.specs.List.Sorted.{IsStrictlySortedBy, IsPermutation, IsSorted};
ghost use Rattle.ix_record.specs.Order.{symbol_cmp};
ghost use Rattle.ix_model.specs.SortedSet.{sorted_set};

use ix_record::Symbol;
use std::cmp::Ordering;

/// The items, sorted and without repeats.
pub(crate) fn sorted<T: Ord + Drop>(mut items: Vec<T>) -> Vec<T>
    requires exact { IsAntisymmetric T.cmp }
    ensures { result.items ≡ sorted_set T.cmp items.items }
{
    items.sort_unstable();
    items.dedup();
    items
}

/// The symbols, sorted by USR.
pub(crate) fn by_usr(mut symbols: Vec<Symbol>) -> Vec<Symbol>
    ensures moved { IsPermutation symbols.items result.items }
    ensures sorted { IsSorted symbol_cmp result.items }
{
    symbols.sort_unstable_by(
        |a: &Symbol, b: &Symbol| -> Ordering
            ensures { result ≡ symbol_cmp a.now b.now }
        { a.usr.cmp(&b.usr) },
    );
    symbols
}
