//! The order of symbols, relations and occurrences.
ghost use Rattle.std.specs.Prelude.{◌≡◌};
ghost use Rattle.ix_record.specs.Order.{symbol_cmp, relation_cmp, occurrence_cmp};
ghost use Rattle.ix_wire.specs.Grammar.{last_of, may_follow};

use crate::value::{Occurrence, Relation, Symbol};

/// Whether the symbol is greater than the last one.
pub fn symbol_follows(before: &[Symbol], next: &Symbol) -> bool
    ensures { result ≡ may_follow symbol_cmp (last_of before.now) next.now }
{
    match before.last() {
        Some(last) => last.usr < next.usr,
        None => true,
    }
}

/// Whether the relation is greater than the last one.
pub fn relation_follows(before: &[Relation], next: &Relation) -> bool
    ensures { result ≡ may_follow relation_cmp (last_of before.now) next.now }
{
    match before.last() {
        Some(last) => last < next,
        None => true,
    }
}

/// Whether the occurrence is greater than the last one.
pub fn occurrence_follows(before: &[Occurrence], next: &Occurrence) -> bool
    ensures { result ≡ may_follow occurrence_cmp (last_of before.now) next.now }
{
    match before.last() {
        Some(last) => last.cmp(next).is_lt(),
        None => true,
    }
}
