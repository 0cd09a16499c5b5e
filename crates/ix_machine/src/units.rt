//! Publications as the plain machine keeps them, and slow walks over the units at a mark.
ghost use Rattle.std.specs.Prelude.{◌≡◌, IfOk, OnOk, map, take};
ghost use Rattle.std.specs.List.{list_any};
ghost use Rattle.std.specs.Str.{bytes_eq};
ghost use Rattle.std.specs.BTreeMap.{insert_entry, values};
ghost use Rattle.ix_types.specs.Row.{text_cmp};
ghost use Rattle.ix_model.specs.Units.{units_at};
ghost use Rattle.ix_machine.specs.Needs.{units_need};
ghost use Rattle.ix_machine.specs.Plain.{publication_of, unit_map, changed_map};
ghost use Rattle.ix_machine.specs.PlainMap.{shown};

use ix_record::RecordValue;
use ix_types::{FileName, Memory, Seq};
use ix_unit::UnitValue;
use std::alloc::{AllocError, Global};
use std::collections::BTreeMap;
use std::sync::Arc;

/// One change of the visible units.
#[derive(Debug, Drop)]
pub enum Change {
    /// A unit comes, with the values of its records.
    Put {
        name: FileName,
        unit: Arc<UnitValue>,
        values: Seq<Arc<RecordValue>>,
    },
    /// The unit of a name goes.
    Gone {
        name: FileName,
    },
}

/// Units by name.
pub type UnitsByName<'a> = BTreeMap<FileName, &'a Arc<UnitValue>>;

/// The units after the first changes, as many as the mark.
pub(crate) fn units_after<'a>(
    alloc: Global,
    changes: &'a [Change],
    mark: u64,
) -> Result<UnitsByName<'a>, Memory>
    ensures { IfOk result (λ units. shown units.entries ≡ unit_map (units_at (map publication_of changes.now) mark)) }
{
    let mut units = BTreeMap::new(alloc);
    for change in front(changes, mark) {
        apply(&mut units, change)?;
    }
    Ok(units)
}

/// The first changes, as many as the mark.
fn front(changes: &[Change], mark: u64) -> &[Change]
    ensures { result.now ≡ take mark changes.now }
{
    if mark < changes.len() as u64 {
        &changes[..mark as usize]
    } else {
        changes
    }
}

/// Makes one more change.
fn apply<'a>(units: &mut UnitsByName<'a>, change: &'a Change) -> Result<(), Memory>
    ensures { OnOk result (shown units.new.entries ≡ changed_map (shown units.old.entries) (publication_of change.now)) }
{
    match change {
        Change::Put { name, unit, .. } => { come(units, *name, unit) }
        Change::Gone { name } => {
            units.remove(name);
            Ok(())
        }
    }
}

/// Puts a unit under its name.
fn come<'a>(
    units: &mut UnitsByName<'a>,
    name: FileName,
    unit: &'a Arc<UnitValue>,
) -> Result<(), Memory>
    ensures { OnOk result (shown units.new.entries ≡ insert_entry text_cmp (shown units.old.entries) name unit.now.value) }
{
    match units.insert(name, unit) {
        Ok(_) => Ok(()),
        Err(_) => Err(Memory),
    }
}

/// Whether the unit lists the record.
fn lists(unit: &Arc<UnitValue>, name: &FileName) -> bool
    ensures { result ≡ list_any (λ dep. bytes_eq dep.name name.now) unit.now.value.records }
{
    unit.records.as_slice().iter().any(|dep| dep.name == *name)
}

/// Whether one of the units lists the record.
fn any_lists(units: &[&Arc<UnitValue>], name: &FileName) -> bool
    ensures { result ≡ list_any (λ unit. list_any (λ dep. bytes_eq dep.name name.now) unit.now.value.records) units.now }
{
    units.iter().any(|unit| lists(unit, name))
}

/// The units, in the order of their names.
pub(crate) fn values_of<'a>(
    alloc: Global,
    units: &UnitsByName<'a>,
) -> Result<Vec<&'a Arc<UnitValue>>, AllocError>
    ensures { IfOk result (λ all. all.items ≡ values units.now) }
{
    units.values().copied().collect(alloc)
}

/// Whether a unit that is there after so many changes needs the record.
pub(crate) fn needs_at(
    alloc: Global,
    changes: &[Change],
    mark: u64,
    name: &FileName,
) -> Result<bool, Memory>
    ensures { IfOk result (λ needs. needs ≡ units_need name.now (units_at (map publication_of changes.now) mark)) }
{
    let units = units_after(alloc, changes, mark)?;
    let all = values_of(alloc, &units)?;
    Ok(any_lists(&all, name))
}
