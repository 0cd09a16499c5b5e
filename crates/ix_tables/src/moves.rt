//! What a batch moves: units, and the outlines of the records that they list.
ghost use Rattle.std.specs.Prelude.{◌≡◌, ◌++◌, map, IfOk, OnOk};
ghost use Rattle.std.specs.List.{fold, flat_map};
ghost use Rattle.ix_outline.specs.Moving.{with_put, moved_out, units_moved, record_names, touched, lists_name, settled, outlines_moved};
ghost use Rattle.ix_tables.specs.Items.{item_of};

use crate::map::Map;
use crate::mover::{Item, Mover};
use crate::outlines::Outlines;
use crate::units::UnitTables;
use ix_outline::Outline;
use ix_types::{FileName, Memory};
use ix_unit::{RecordDep, UnitPut, UnitValue};
use std::alloc::Global;

/// The units after some are put and some are gone, and what came and went.
pub(crate) fn units_moved(
    alloc: Global,
    units: &Map<UnitValue>,
    puts: &[UnitPut],
    gone: &[FileName],
) -> Result<Mover<UnitValue>, Memory>
    ensures { IfOk result (λ m. m ≡ units_moved puts.now gone.now units.now) }
{
    let mut mover = Mover::of(alloc, units)?;
    put_all(alloc, &mut mover, puts)?;
    take_all(alloc, &mut mover, gone)?;
    Ok(mover)
}

/// All that are put come.
fn put_all(alloc: Global, mover: &mut Mover<UnitValue>, puts: &[UnitPut]) -> Result<(), Memory>
    ensures { OnOk result (mover.new ≡ fold with_put mover.old puts.now) }
{
    for put in puts {
        mover.put(alloc, put.name, &put.unit)?;
    }
    Ok(())
}

/// All that are gone go.
fn take_all(alloc: Global, mover: &mut Mover<UnitValue>, gone: &[FileName]) -> Result<(), Memory>
    ensures { OnOk result (mover.new ≡ fold moved_out mover.old gone.now) }
{
    for name in gone {
        mover.take(alloc, *name)?;
    }
    Ok(())
}

/// The names of the records that units which came or went list.
pub(crate) fn touched(alloc: Global, mover: &Mover<UnitValue>) -> Result<Vec<FileName>, Memory>
    ensures { IfOk result (λ names. names.items ≡ touched mover.now) }
{
    let mut names = Vec::new(alloc);
    append_names(&mut names, mover.gained())?;
    append_names(&mut names, mover.lost())?;
    Ok(names)
}

/// Appends the names of the records that units list.
fn append_names(names: &mut Vec<FileName>, units: &[Item<UnitValue>]) -> Result<(), Memory>
    ensures { OnOk result (names.new.items ≡ names.old.items ++ flat_map (λ item. map (λ dep. dep.name) (item_of {T = UnitValue} item).1.records) units.now) }
{
    for unit in units {
        append_deps(names, unit.value.records.as_slice())?;
    }
    Ok(())
}

/// Appends the names of record dependencies.
fn append_deps(names: &mut Vec<FileName>, deps: &[RecordDep]) -> Result<(), Memory>
    ensures { OnOk result (names.new.items ≡ names.old.items ++ map (λ dep. dep.name) deps.now) }
{
    for dep in deps {
        names.push(dep.name)?;
    }
    Ok(())
}

/// The outlines after names were settled for these units.
pub(crate) fn outlines_moved(
    alloc: Global,
    outlines: &Map<Outline>,
    units: &UnitTables,
    bodies: &Outlines,
    names: &[FileName],
) -> Result<Mover<Outline>, Memory>
    ensures { IfOk result (λ m. m ≡ outlines_moved (lists_name units.now) bodies.now names.now outlines.now) }
{
    let mut mover = Mover::of(alloc, outlines)?;
    settle_all(alloc, &mut mover, units, bodies, names)?;
    Ok(mover)
}

/// Settles names, one after the other.
fn settle_all(
    alloc: Global,
    mover: &mut Mover<Outline>,
    units: &UnitTables,
    bodies: &Outlines,
    names: &[FileName],
) -> Result<(), Memory>
    ensures { OnOk result (mover.new ≡ fold (settled (lists_name units.now) bodies.now) mover.old names.now) }
{
    for name in names {
        settle(alloc, mover, units, bodies, *name)?;
    }
    Ok(())
}

/// The outline of a name that the units list stands or comes, that of another goes.
fn settle(
    alloc: Global,
    mover: &mut Mover<Outline>,
    units: &UnitTables,
    bodies: &Outlines,
    name: FileName,
) -> Result<(), Memory>
    ensures { OnOk result (mover.new ≡ settled (lists_name units.now) bodies.now mover.old name) }
{
    if !units.lists(&name) {
        return mover.take(alloc, name);
    }
    if mover.map().get(&name).is_some() {
        return Ok(());
    }
    match bodies.get(&name) {
        None => Ok(()),
        Some(outline) => mover.put(alloc, name, outline),
    }
}
