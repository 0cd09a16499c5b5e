//! What units and their records say, in plain lists: one item for each place where it stands.
ghost use Rattle.std.specs.Prelude.{◌≡◌, ◌++◌, map, IfOk, OnOk};
ghost use Rattle.std.specs.List.{flat_map, filter_map, zip};
ghost use Rattle.ix_answers.specs.Facts.{valued, held_symbol, held_in, related_symbol, related_in, listed_path, listed_in, held, related_symbols, record_deps, listed, includes};

use ix_model::{StoredUnit, append_some};
use ix_record::{Occurrence, RecordValue, Relation, Symbol};
use ix_types::{FileName, Memory, Text};
use ix_unit::{Include, RecordDep};
use std::alloc::Global;
use std::collections::BTreeMap;

/// A symbol, with the name of the record that holds it.
#[derive(Debug, Drop, PartialEq, Eq)]
pub struct HeldSymbol {
    pub holder: FileName,
    pub usr: Text,
    pub name: Text,
    pub codegen: Text,
}

/// A symbol that a relation leads to, with the name of the record that has the relation.
#[derive(Debug, Drop, PartialEq, Eq)]
pub struct RelatedSymbol {
    pub holder: FileName,
    pub usr: Text,
}

/// A path that a unit lists, with the unit's name and main file.
#[derive(Debug, Drop, PartialEq, Eq)]
pub struct ListedPath {
    pub unit: FileName,
    pub main_file: Text,
    pub path: Text,
}

/// What a unit says, in items of a type.
trait UnitFacts<T> {
    ghost use Rattle.std.specs.Prelude.{ℕ, List};
    ghost use Rattle.ix_model.specs.declared.publication.StoredUnit.{StoredUnit};

    /// The items of a unit of a name.
    ghost of_unit: { List ℕ → StoredUnit → List T };

    /// Appends the items of a unit.
    fn append_unit(
        alloc: Global,
        out: &mut Vec<T>,
        name: &FileName,
        stored: &StoredUnit,
    ) -> Result<(), Memory>
        ensures { OnOk result (out.new.items ≡ out.old.items ++ of_unit name.now stored.now) };
}

/// What a record says, in items of a type.
trait RecordFacts<T> {
    ghost use Rattle.std.specs.Prelude.{ℕ, List};
    ghost use Rattle.ix_record.specs.declared.value.RecordValue.{RecordValue};

    /// The items of a record of a name.
    ghost of_record: { List ℕ → RecordValue → List T };

    /// Appends the items of a record.
    fn append_record(
        alloc: Global,
        out: &mut Vec<T>,
        name: &FileName,
        value: &RecordValue,
    ) -> Result<(), Memory>
        ensures { OnOk result (out.new.items ≡ out.old.items ++ of_record name.now value.now) };
}

/// What the units say, one unit after the other.
fn of_units<T: Drop, F: UnitFacts<T>>(
    alloc: Global,
    units: &BTreeMap<FileName, StoredUnit>,
) -> Result<Vec<T>, Memory>
    ensures { IfOk result (λ all. all.items ≡ flat_map (λ entry. F.of_unit entry.0 entry.1) units.now.entries) }
{
    let mut all = Vec::new(alloc);
    for (name, stored) in units {
        F::append_unit(alloc, &mut all, name, stored)?;
    }
    Ok(all)
}

/// Appends what the records of a unit say, one record after the other.
fn append_records<T: Drop, F: RecordFacts<T>>(
    alloc: Global,
    out: &mut Vec<T>,
    deps: &[RecordDep],
    values: &[RecordValue],
) -> Result<(), Memory>
    ensures { OnOk result (out.new.items ≡ out.old.items ++ flat_map (λ r. F.of_record r.0.name r.1) (zip deps.now values.now)) }
{
    for (dep, value) in deps.iter().zip(values) {
        F::append_record(alloc, out, &dep.name, value)?;
    }
    Ok(())
}

/// The symbols of records.
struct HeldFacts;

impl RecordFacts<HeldSymbol> for HeldFacts {
    ghost of_record = { held_in };

    fn append_record(
        _alloc: Global,
        out: &mut Vec<HeldSymbol>,
        name: &FileName,
        value: &RecordValue,
    ) -> Result<(), Memory> {
        append_symbols(out, name, value.symbols.as_slice())
    }
}

impl UnitFacts<HeldSymbol> for HeldFacts {
    ghost of_unit = { λ name stored. flat_map (λ r. held_in r.0.name r.1) (valued stored) };

    fn append_unit(
        alloc: Global,
        out: &mut Vec<HeldSymbol>,
        _name: &FileName,
        stored: &StoredUnit,
    ) -> Result<(), Memory> {
        append_records::<HeldSymbol, HeldFacts>(
            alloc,
            out,
            stored.unit.records.as_slice(),
            stored.values.as_slice(),
        )
    }
}

/// Appends the symbols of a record.
fn append_symbols(
    out: &mut Vec<HeldSymbol>,
    name: &FileName,
    symbols: &[Symbol],
) -> Result<(), Memory>
    ensures { OnOk result (out.new.items ≡ out.old.items ++ map (held_symbol name.now) symbols.now) }
{
    for symbol in symbols {
        out.push(HeldSymbol {
            holder: *name,
            usr: symbol.usr.clone()?,
            name: symbol.name.clone()?,
            codegen: symbol.codegen.clone()?,
        })?;
    }
    Ok(())
}

/// The symbols that relations lead to.
struct RelationFacts;

impl RecordFacts<RelatedSymbol> for RelationFacts {
    ghost of_record = { related_in };

    fn append_record(
        _alloc: Global,
        out: &mut Vec<RelatedSymbol>,
        name: &FileName,
        value: &RecordValue,
    ) -> Result<(), Memory> {
        append_occurrences(
            out,
            name,
            value.symbols.as_slice(),
            value.occurrences.as_slice(),
        )
    }
}

impl UnitFacts<RelatedSymbol> for RelationFacts {
    ghost of_unit = { λ name stored. flat_map (λ r. related_in r.0.name r.1) (valued stored) };

    fn append_unit(
        alloc: Global,
        out: &mut Vec<RelatedSymbol>,
        _name: &FileName,
        stored: &StoredUnit,
    ) -> Result<(), Memory> {
        append_records::<RelatedSymbol, RelationFacts>(
            alloc,
            out,
            stored.unit.records.as_slice(),
            stored.values.as_slice(),
        )
    }
}

/// Appends the symbols that the relations of some occurrences lead to.
fn append_occurrences(
    out: &mut Vec<RelatedSymbol>,
    name: &FileName,
    symbols: &[Symbol],
    occurrences: &[Occurrence],
) -> Result<(), Memory>
    ensures { OnOk result (out.new.items ≡ out.old.items ++ flat_map (λ o. filter_map (related_symbol name.now symbols.now) o.relations) occurrences.now) }
{
    for occurrence in occurrences {
        append_relations(out, name, symbols, occurrence.relations.as_slice())?;
    }
    Ok(())
}

/// Appends the symbols that some relations lead to.
fn append_relations(
    out: &mut Vec<RelatedSymbol>,
    name: &FileName,
    symbols: &[Symbol],
    relations: &[Relation],
) -> Result<(), Memory>
    ensures { OnOk result (out.new.items ≡ out.old.items ++ filter_map (related_symbol name.now symbols.now) relations.now) }
{
    for relation in relations {
        append_some(out, related_symbol(name, symbols, relation)?)?;
    }
    Ok(())
}

/// The symbol that a relation leads to; None where it isn't in the list.
fn related_symbol(
    name: &FileName,
    symbols: &[Symbol],
    relation: &Relation,
) -> Result<Option<RelatedSymbol>, Memory>
    ensures { IfOk result (λ related. related ≡ related_symbol name.now symbols.now relation.now) }
{
    match symbols.get(relation.symbol as usize) {
        Some(symbol) => Ok(Some(RelatedSymbol {
            holder: *name,
            usr: symbol.usr.clone()?,
        })),
        None => Ok(None),
    }
}

/// The record dependencies of units.
struct DepFacts;

impl UnitFacts<RecordDep> for DepFacts {
    ghost of_unit = { λ name stored. stored.unit.records };

    fn append_unit(
        _alloc: Global,
        out: &mut Vec<RecordDep>,
        _name: &FileName,
        stored: &StoredUnit,
    ) -> Result<(), Memory> {
        append_deps(out, stored.unit.records.as_slice())
    }
}

/// Appends copies of record dependencies.
fn append_deps(out: &mut Vec<RecordDep>, deps: &[RecordDep]) -> Result<(), Memory>
    ensures { OnOk result (out.new.items ≡ out.old.items ++ deps.now) }
{
    for dep in deps {
        out.push(RecordDep {
            path: dep.path.clone()?,
            system: dep.system,
            name: dep.name,
        })?;
    }
    Ok(())
}

/// The paths that units list.
struct PathFacts;

impl UnitFacts<ListedPath> for PathFacts {
    ghost of_unit = { listed_in };

    fn append_unit(
        _alloc: Global,
        out: &mut Vec<ListedPath>,
        name: &FileName,
        stored: &StoredUnit,
    ) -> Result<(), Memory> {
        append_record_paths(out, name, stored)?;
        append_file_paths(out, name, stored)?;
        Ok(())
    }
}

/// Appends the paths of records.
fn append_record_paths(
    out: &mut Vec<ListedPath>,
    name: &FileName,
    stored: &StoredUnit,
) -> Result<(), Memory>
    ensures { OnOk result (out.new.items ≡ out.old.items ++ map (λ dep. listed_path name.now stored.now dep.path) stored.now.unit.records) }
{
    for dep in stored.unit.records.as_slice() {
        out.push(listed_path(name, stored, &dep.path)?)?;
    }
    Ok(())
}

/// Appends the paths of files.
fn append_file_paths(
    out: &mut Vec<ListedPath>,
    name: &FileName,
    stored: &StoredUnit,
) -> Result<(), Memory>
    ensures { OnOk result (out.new.items ≡ out.old.items ++ map (λ file. listed_path name.now stored.now file.path) stored.now.unit.files) }
{
    for file in stored.unit.files.as_slice() {
        out.push(listed_path(name, stored, &file.path)?)?;
    }
    Ok(())
}

/// A path that a unit lists.
fn listed_path(name: &FileName, stored: &StoredUnit, path: &Text) -> Result<ListedPath, Memory>
    ensures { IfOk result (λ l. l ≡ listed_path name.now stored.now path.now) }
{
    Ok(ListedPath {
        unit: *name,
        main_file: stored.unit.main_file.clone()?,
        path: path.clone()?,
    })
}

/// The includes of units.
struct IncludeFacts;

impl UnitFacts<Include> for IncludeFacts {
    ghost of_unit = { λ name stored. stored.unit.includes };

    fn append_unit(
        _alloc: Global,
        out: &mut Vec<Include>,
        _name: &FileName,
        stored: &StoredUnit,
    ) -> Result<(), Memory> {
        append_includes(out, stored.unit.includes.as_slice())
    }
}

/// Appends copies of includes.
fn append_includes(out: &mut Vec<Include>, includes: &[Include]) -> Result<(), Memory>
    ensures { OnOk result (out.new.items ≡ out.old.items ++ includes.now) }
{
    for include in includes {
        out.push(Include {
            from: include.from.clone()?,
            line: include.line,
            to: include.to.clone()?,
        })?;
    }
    Ok(())
}

/// The symbols of all records of the units.
pub fn held(
    alloc: Global,
    units: &BTreeMap<FileName, StoredUnit>,
) -> Result<Vec<HeldSymbol>, Memory>
    ensures { IfOk result (λ all. all.items ≡ held units.now.entries) }
{
    of_units::<HeldSymbol, HeldFacts>(alloc, units)
}

/// The symbols that the relations of all records of the units lead to.
pub fn related_symbols(
    alloc: Global,
    units: &BTreeMap<FileName, StoredUnit>,
) -> Result<Vec<RelatedSymbol>, Memory>
    ensures { IfOk result (λ all. all.items ≡ related_symbols units.now.entries) }
{
    of_units::<RelatedSymbol, RelationFacts>(alloc, units)
}

/// The record dependencies of the units.
pub fn record_deps(
    alloc: Global,
    units: &BTreeMap<FileName, StoredUnit>,
) -> Result<Vec<RecordDep>, Memory>
    ensures { IfOk result (λ all. all.items ≡ record_deps units.now.entries) }
{
    of_units::<RecordDep, DepFacts>(alloc, units)
}

/// The paths that the units list.
pub fn listed(
    alloc: Global,
    units: &BTreeMap<FileName, StoredUnit>,
) -> Result<Vec<ListedPath>, Memory>
    ensures { IfOk result (λ all. all.items ≡ listed units.now.entries) }
{
    of_units::<ListedPath, PathFacts>(alloc, units)
}

/// The includes of the units.
pub fn includes(
    alloc: Global,
    units: &BTreeMap<FileName, StoredUnit>,
) -> Result<Vec<Include>, Memory>
    ensures { IfOk result (λ all. all.items ≡ includes units.now.entries) }
{
    of_units::<Include, IncludeFacts>(alloc, units)
}
