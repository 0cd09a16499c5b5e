//! The counts of a need list, raised or lowered by the record dependencies of a unit.
ghost use Rattle.std.specs.Prelude.{◌≡◌, ◌+◌, ◌-◌, ℕ, List, [], ◌∷◌, map, IfOk};
ghost use Rattle.ix_pages.specs.Paging.{pairs_of};
ghost use Rattle.ix_guard.specs.Counts.{count_at, times, AreCountPages};

use ix_pages::{Pages, laws};
use ix_types::{FileName, Memory};
use ix_unit::RecordDep;
use std::alloc::Global;

/// For each name how many record dependencies need it.
pub(crate) type Counts = Pages<FileName, u64, 64>;

/// The counts with those of some record dependencies beside them.
pub(crate) fn raise_all(
    alloc: Global,
    before: &Counts,
    deps: &[RecordDep],
) -> Result<Counts, Memory>
    requires { AreCountPages before.now }
    ensures pages { IfOk result AreCountPages }
    ensures each { IfOk result (λ after. (name : List ℕ) → count_at (pairs_of after) name
        ≡ count_at (pairs_of before.now) name + times name (map (λ dep. dep.name) deps.now)) }
{
    let mut counts = before.share()?;
    for dep in deps {
        counts = raise(alloc, &counts, dep.name)?;
    }
    Ok(counts)
}

/// The counts without those of some record dependencies.
pub(crate) fn lower_all(
    alloc: Global,
    before: &Counts,
    deps: &[RecordDep],
) -> Result<Counts, Memory>
    requires { AreCountPages before.now }
    ensures pages { IfOk result AreCountPages }
    ensures each { IfOk result (λ after. (name : List ℕ) → count_at (pairs_of after) name
        ≡ count_at (pairs_of before.now) name - times name (map (λ dep. dep.name) deps.now)) }
{
    let mut counts = before.share()?;
    for dep in deps {
        counts = lower(alloc, &counts, dep.name)?;
    }
    Ok(counts)
}

/// How many need a name.
fn count(counts: &Counts, name: FileName) -> u64
    ensures { result ≡ count_at (pairs_of counts.now) name }
{
    match counts.get(&name) {
        None => 0,
        Some(count) => *count,
    }
}

/// The next count. No store comes to the greatest u64: that is answered as want of memory.
pub(crate) fn one_more(count: u64) -> Result<u64, Memory>
    ensures { IfOk result (λ more. more ≡ count + 1) }
{
    count.checked_add(1).ok_or(Memory)
}

/// One more that needs a name.
fn raise(alloc: Global, before: &Counts, name: FileName) -> Result<Counts, Memory>
    requires { AreCountPages before.now }
    ensures pages { IfOk result AreCountPages }
    ensures each { IfOk result (λ after. (other : List ℕ) → count_at (pairs_of after) other
        ≡ count_at (pairs_of before.now) other + times other (name ∷ [])) }
{
    laws::pages_are_the_pairs::<FileName, u64>();
    laws::pages_stay_pages::<FileName, u64>();
    let more = one_more(count(before, name))?;
    before.with(alloc, name, more)
}

/// One less that needs a name; none less where nothing needs it.
fn lower(alloc: Global, before: &Counts, name: FileName) -> Result<Counts, Memory>
    requires { AreCountPages before.now }
    ensures pages { IfOk result AreCountPages }
    ensures each { IfOk result (λ after. (other : List ℕ) → count_at (pairs_of after) other
        ≡ count_at (pairs_of before.now) other - times other (name ∷ [])) }
{
    laws::pages_are_the_pairs::<FileName, u64>();
    laws::pages_stay_pages::<FileName, u64>();
    let now = count(before, name);
    if now <= 1 {
        before.without(alloc, &name)
    } else {
        before.with(alloc, name, now - 1)
    }
}
