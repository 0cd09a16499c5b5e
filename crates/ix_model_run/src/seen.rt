//! The units at a mark, and what they need.
ghost use Rattle.std.specs.Prelude.{◌≡◌, ◌||◌, filter, not, IfOk};
ghost use Rattle.std.specs.List.{list_any};
ghost use Rattle.std.specs.Str.{bytes_eq};
ghost use Rattle.ix_lanes.specs.Calls.{fresh_in};
ghost use Rattle.ix_machine.specs.Needs.{units_need};
ghost use Rattle.ix_model.specs.Units.{units_at, units_after};

use crate::copies::copied_all;
use ix_model::{Publication, StoredUnit, needs, units_at};
use ix_types::{FileName, Memory};
use std::alloc::{AllocError, Global};
use std::collections::BTreeMap;

/// The units after the first publications, as many as the mark.
pub(crate) fn seen_at(
    alloc: Global,
    publications: &[Publication],
    mark: u64,
) -> Result<BTreeMap<FileName, StoredUnit>, Memory>
    ensures { IfOk result (λ units. units.entries ≡ units_at publications.now mark) }
{
    units_at(alloc, copied_all(alloc, publications)?, mark)
}

/// The units after all publications.
pub(crate) fn visible(
    alloc: Global,
    publications: &[Publication],
) -> Result<BTreeMap<FileName, StoredUnit>, Memory>
    ensures { IfOk result (λ units. units.entries ≡ units_after publications.now) }
{
    seen_at(alloc, publications, publications.len() as u64)
}

/// Whether the unit lists the record.
fn lists(stored: &StoredUnit, name: &FileName) -> bool
    ensures { result ≡ list_any (λ dep. bytes_eq dep.name name.now) stored.now.unit.records }
{
    stored
        .unit
        .records
        .as_slice()
        .iter()
        .any(|dep| dep.name == *name)
}

/// Whether one of the units needs the record.
fn are_needing(units: &BTreeMap<FileName, StoredUnit>, name: &FileName) -> bool
    ensures { result ≡ units_need name.now units.now.entries }
{
    let mut needing = false;
    for (_unit, stored) in units {
        needing = either(needing, lists(stored, name));
    }
    needing
}

/// Whether one of the two holds.
fn either(a: bool, b: bool) -> bool
    ensures { result ≡ (a || b) }
{
    a || b
}

/// The records that the second units need and the first don't, rising.
pub(crate) fn fresh_in(
    alloc: Global,
    before: &BTreeMap<FileName, StoredUnit>,
    after: &BTreeMap<FileName, StoredUnit>,
) -> Result<Vec<FileName>, Memory>
    ensures { IfOk result (λ names. names.items ≡ fresh_in before.now.entries after.now.entries) }
{
    Ok(not_needed(alloc, needs(alloc, after)?, before)?)
}

/// The names of the records that the units don't need.
fn not_needed(
    alloc: Global,
    names: Vec<FileName>,
    units: &BTreeMap<FileName, StoredUnit>,
) -> Result<Vec<FileName>, AllocError>
    ensures { IfOk result (λ left. left.items ≡ filter (λ name. not (units_need name units.now.entries)) names.items) }
{
    names
        .into_iter()
        .filter(|name| !are_needing(units, name))
        .collect(alloc)
}
