//! The counts of a need list, made in one go.
ghost use Rattle.std.specs.Prelude.{◌≡◌, ◌+◌, ◌<◌, ℕ, List, [], ◌∷◌, map, IfOk, OnOk};
ghost use Rattle.std.specs.List.{AllByRecursion};
ghost use Rattle.std.specs.List.Sorted.{IsStrictlySortedBy};
ghost use Rattle.std.specs.Map.{keys_of};
ghost use Rattle.std.specs.BTreeMap.{insert_entry};
ghost use Rattle.ix_types.specs.Row.{text_cmp};
ghost use Rattle.ix_pages.specs.Paging.{pairs_of, ArePages};
ghost use Rattle.ix_pages.specs.Changes.{AreRising};
ghost use Rattle.ix_guard.specs.Counts.{count_at, times, AreCountPages};
ghost use Rattle.ix_guard.specs.Listing.{names_in_all, units_put};
ghost use Rattle.ix_guard.specs.Tallied.{puts_of};

use crate::recount::{Counts, one_more};
use ix_pages::{Change, Pages};
use ix_types::{FileName, Memory};
use ix_unit::{RecordDep, UnitPut};
use std::alloc::Global;
use std::collections::BTreeMap;

/// The counts of the record dependencies of some units.
pub(crate) fn counts_of(alloc: Global, puts: &[UnitPut]) -> Result<Counts, Memory>
    ensures pages { IfOk result AreCountPages }
    ensures each { IfOk result (λ counts. (name : List ℕ) → count_at (pairs_of counts) name ≡ times name (names_in_all (units_put puts.now))) }
{
    let tally = tally_of(alloc, puts)?;
    let counts = in_pages(alloc, &tally)?;
    Ok(counts)
}

/// The counts in a map that is changed in its place.
fn tally_of(alloc: Global, puts: &[UnitPut]) -> Result<BTreeMap<FileName, u64>, Memory>
    ensures needed { IfOk result (λ tally. AllByRecursion (λ pair. 0 < pair.1) tally.entries) }
    ensures each { IfOk result (λ tally. (name : List ℕ) → count_at tally.entries name ≡ times name (names_in_all (units_put puts.now))) }
{
    let mut tally = BTreeMap::new(alloc);
    for put in puts {
        count_all(&mut tally, put.unit.records.as_slice())?;
    }
    Ok(tally)
}

/// Counts those of some record dependencies beside the others.
fn count_all(tally: &mut BTreeMap<FileName, u64>, deps: &[RecordDep]) -> Result<(), Memory>
    requires { AllByRecursion (λ pair. 0 < pair.1) tally.old.entries }
    ensures needed { OnOk result (AllByRecursion (λ pair. 0 < pair.1) tally.new.entries) }
    ensures each { OnOk result ((name : List ℕ) → count_at tally.new.entries name
        ≡ count_at tally.old.entries name + times name (map (λ dep. dep.name) deps.now)) }
{
    for dep in deps {
        count_one(tally, dep.name)?;
    }
    Ok(())
}

/// Counts a name once more.
fn count_one(tally: &mut BTreeMap<FileName, u64>, name: FileName) -> Result<(), Memory>
    requires { AllByRecursion (λ pair. 0 < pair.1) tally.old.entries }
    ensures needed { OnOk result (AllByRecursion (λ pair. 0 < pair.1) tally.new.entries) }
    ensures each { OnOk result ((other : List ℕ) → count_at tally.new.entries other
        ≡ count_at tally.old.entries other + times other (name ∷ [])) }
{
    let more = one_more(counted(tally, &name))?;
    set_count(tally, name, more)?;
    Ok(())
}

/// How often a name was counted.
fn counted(tally: &BTreeMap<FileName, u64>, name: &FileName) -> u64
    ensures { result ≡ count_at tally.now.entries name.now }
{
    match tally.get(name) {
        None => 0,
        Some(count) => *count,
    }
}

/// Sets the count of a name.
fn set_count(tally: &mut BTreeMap<FileName, u64>, name: FileName, count: u64) -> Result<(), Memory>
    ensures { OnOk result (tally.new.entries ≡ insert_entry text_cmp tally.old.entries name count) }
{
    if tally.insert(name, count).is_err() {
        return Err(Memory);
    }
    Ok(())
}

/// The counts in pages.
fn in_pages(alloc: Global, tally: &BTreeMap<FileName, u64>) -> Result<Counts, Memory>
    ensures paged { IfOk result (λ counts. ArePages text_cmp 64 counts) }
    ensures same { IfOk result (λ counts. pairs_of counts ≡ tally.now.entries) }
{
    let none: Counts = Pages::empty();
    let changes = changes_of(alloc, tally)?;
    let counts = none.with_all(alloc, changes)?;
    let _pages = counts.len();
    Ok(counts)
}

/// The changes that put the counts into an empty map.
fn changes_of(
    alloc: Global,
    tally: &BTreeMap<FileName, u64>,
) -> Result<Vec<Change<FileName, u64>>, Memory>
    ensures rise { IsStrictlySortedBy text_cmp (keys_of tally.now.entries) }
    ensures items { IfOk result (λ changes. changes.items ≡ puts_of tally.now.entries) }
{
    let mut changes = Vec::with_capacity(alloc, tally.len())?;
    for (name, count) in tally {
        changes.push(Change::Put(*name, *count))?;
    }
    Ok(changes)
}
