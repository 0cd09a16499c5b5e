//! The order of dependencies and includes.
ghost use Rattle.std.specs.Prelude.{◌≡◌};
ghost use Rattle.ix_unit.specs.Order.{dependency_cmp, include_cmp};
ghost use Rattle.ix_wire.specs.Grammar.{last_of, may_follow};

use crate::dependency::Dependency;
use crate::value::Include;

/// Whether the dependency is greater than the last one.
pub fn dependency_follows(before: &[Dependency], next: &Dependency) -> bool
    ensures { result ≡ may_follow dependency_cmp (last_of before.now) next.now }
{
    match before.last() {
        Some(last) => last.cmp(next).is_lt(),
        None => true,
    }
}

/// Whether the include is greater than the last one.
pub fn include_follows(before: &[Include], next: &Include) -> bool
    ensures { result ≡ may_follow include_cmp (last_of before.now) next.now }
{
    match before.last() {
        Some(last) => last.cmp(next).is_lt(),
        None => true,
    }
}
