//! What is known of a map of units, read from the units alone: rows, needs, definitions.
ghost use Rattle.std.specs.Prelude.{◌≡◌, ◌++◌, map, length, IfOk, OnOk};
ghost use Rattle.std.specs.Option.{option_to_list};
ghost use Rattle.std.specs.List.{filter_map, flat_map};
ghost use Rattle.ix_model.specs.Answer.{is_with, rows_with, definitions, definitions_of};
ghost use Rattle.ix_model.specs.SortedSet.{sorted_set};
ghost use Rattle.ix_model.specs.Units.{needs};
ghost use Rattle.ix_types.specs.Row.{occurrence_cmp};
ghost use Rattle.ix_types.specs.declared.row.Row.TheVariants.{Occ};
ghost use Rattle.ix_model.specs.Rows.{relation_row, row_with, occurrence_row, rows_of_record, rows_of_records, rows_of_unit, rows};

use crate::publication::StoredUnit;
use crate::sorted::{OwnOrder, sorted_set};
use ix_record::{Occurrence, RecordValue, Relation, Symbol};
use ix_types::{FileName, Memory, OccRow, RelRow, Roles, Row, Seq, Text};
use ix_unit::RecordDep;
use std::alloc::{AllocError, Global};
use std::collections::BTreeMap;

/// All rows of the units, in the order of the units and of what stands in them.
pub fn rows(alloc: Global, units: &BTreeMap<FileName, StoredUnit>) -> Result<Vec<OccRow>, Memory>
    ensures { IfOk result (λ all. all.items ≡ rows units.now.entries) }
{
    let mut all = Vec::new(alloc);
    for stored in units.values() {
        append_unit(alloc, &mut all, stored)?;
    }
    Ok(all)
}

/// Appends the rows of a unit.
fn append_unit(alloc: Global, out: &mut Vec<OccRow>, stored: &StoredUnit) -> Result<(), Memory>
    ensures { OnOk result (out.new.items ≡ out.old.items ++ rows_of_unit stored.now) }
{
    append_records(
        alloc,
        out,
        stored.unit.records.as_slice(),
        stored.values.as_slice(),
    )
}

/// Appends the rows of each record dependency that has a value.
fn append_records(
    alloc: Global,
    out: &mut Vec<OccRow>,
    deps: &[RecordDep],
    values: &[RecordValue],
) -> Result<(), Memory>
    ensures { OnOk result (out.new.items ≡ out.old.items ++ rows_of_records deps.now values.now) }
{
    for (dep, value) in deps.iter().zip(values) {
        append_record(alloc, out, &dep.path, value)?;
    }
    Ok(())
}

/// Appends the rows of a record.
fn append_record(
    alloc: Global,
    out: &mut Vec<OccRow>,
    path: &Text,
    value: &RecordValue,
) -> Result<(), Memory>
    ensures { OnOk result (out.new.items ≡ out.old.items ++ rows_of_record path.now value.now) }
{
    append_occurrences(
        alloc,
        out,
        path,
        value.symbols.as_slice(),
        value.occurrences.as_slice(),
    )
}

/// Appends the row of each occurrence whose symbol is in the list.
fn append_occurrences(
    alloc: Global,
    out: &mut Vec<OccRow>,
    path: &Text,
    symbols: &[Symbol],
    occurrences: &[Occurrence],
) -> Result<(), Memory>
    ensures { OnOk result (out.new.items ≡ out.old.items ++ filter_map (occurrence_row path.now symbols.now) occurrences.now) }
{
    for occurrence in occurrences {
        append_some(out, occurrence_row(alloc, path, symbols, occurrence)?)?;
    }
    Ok(())
}

/// The row of an occurrence; None where its symbol isn't in the list.
fn occurrence_row(
    alloc: Global,
    path: &Text,
    symbols: &[Symbol],
    occurrence: &Occurrence,
) -> Result<Option<OccRow>, Memory>
    ensures { IfOk result (λ row. row ≡ occurrence_row path.now symbols.now occurrence.now) }
{
    match symbols.get(occurrence.symbol as usize) {
        Some(symbol) => Ok(Some(row_with(alloc, path, symbols, occurrence, symbol)?)),
        None => Ok(None),
    }
}

/// The row of an occurrence of a symbol.
fn row_with(
    alloc: Global,
    path: &Text,
    symbols: &[Symbol],
    occurrence: &Occurrence,
    symbol: &Symbol,
) -> Result<OccRow, Memory>
    ensures { IfOk result (λ row. row ≡ row_with path.now symbols.now occurrence.now symbol.now) }
{
    Ok(OccRow {
        path: path.clone()?,
        line: occurrence.line,
        column: occurrence.column,
        usr: symbol.usr.clone()?,
        name: symbol.name.clone()?,
        kind: symbol.kind,
        lang: symbol.lang,
        props: symbol.props,
        roles: occurrence.roles,
        relations: relation_rows(alloc, symbols, occurrence.relations.as_slice())?,
    })
}

/// The relations, with the USRs of their symbols. One whose symbol isn't in the list is left out.
fn relation_rows(
    alloc: Global,
    symbols: &[Symbol],
    relations: &[Relation],
) -> Result<Seq<RelRow>, Memory>
    ensures { IfOk result (λ rows. rows ≡ filter_map (relation_row symbols.now) relations.now) }
{
    let mut rows = Vec::new(alloc);
    for relation in relations {
        append_some(&mut rows, relation_row(symbols, relation)?)?;
    }
    Ok(Seq::of(rows))
}

/// The row of a relation; None where its symbol isn't in the list.
fn relation_row(symbols: &[Symbol], relation: &Relation) -> Result<Option<RelRow>, Memory>
    ensures { IfOk result (λ row. row ≡ relation_row symbols.now relation.now) }
{
    match symbols.get(relation.symbol as usize) {
        Some(symbol) => Ok(Some(RelRow {
            usr: symbol.usr.clone()?,
            roles: relation.roles,
        })),
        None => Ok(None),
    }
}

/// Appends an item, if there is one.
pub fn append_some<T: Drop>(out: &mut Vec<T>, item: Option<T>) -> Result<(), Memory>
    ensures { OnOk result (out.new.items ≡ out.old.items ++ option_to_list item) }
{
    if let Some(item) = item {
        out.push(item)?;
    }
    Ok(())
}

/// The names of the records that the units need, rising.
pub fn needs(alloc: Global, units: &BTreeMap<FileName, StoredUnit>) -> Result<Vec<FileName>, Memory>
    ensures { IfOk result (λ names. names.items ≡ needs units.now.entries) }
{
    sorted_set(alloc, listed_names(alloc, units)?, &OwnOrder)
}

/// The names of the units' records, one for each dependency.
fn listed_names(
    alloc: Global,
    units: &BTreeMap<FileName, StoredUnit>,
) -> Result<Vec<FileName>, Memory>
    ensures { IfOk result (λ names. names.items ≡ flat_map (λ entry. map (λ dep. dep.name) entry.1.unit.records) units.now.entries) }
{
    let mut names = Vec::new(alloc);
    for stored in units.values() {
        append_names(&mut names, stored.unit.records.as_slice())?;
    }
    Ok(names)
}

/// Appends the names of the records.
fn append_names(out: &mut Vec<FileName>, deps: &[RecordDep]) -> Result<(), Memory>
    ensures { OnOk result (out.new.items ≡ out.old.items ++ map (λ dep. dep.name) deps.now) }
{
    for dep in deps {
        out.push(dep.name)?;
    }
    Ok(())
}

/// Where the USR is defined in the units, sorted and without repeats; where they don't define it, where it is declared.
pub fn definitions_of(
    alloc: Global,
    usr: &Text,
    units: &BTreeMap<FileName, StoredUnit>,
) -> Result<Seq<Row>, Memory>
    ensures { IfOk result (λ all. all ≡ definitions_of usr.now units.now.entries) }
{
    let chosen = definitions(alloc, rows(alloc, units)?, usr)?;
    Ok(Seq::of(as_rows(alloc, sorted_set(alloc, chosen, &OwnOrder)?)?))
}

fn as_rows(alloc: Global, rows: Vec<OccRow>) -> Result<Vec<Row>, AllocError>
    ensures { IfOk result (λ v. v.items ≡ map Occ rows.items) }
{
    rows.into_iter().map(|row| Row::Occ(row)).collect(alloc)
}

/// Of some rows, those that define the USR; where none does, those that declare it.
fn definitions(alloc: Global, rows: Vec<OccRow>, usr: &Text) -> Result<Vec<OccRow>, AllocError>
    ensures { IfOk result (λ v. v.items ≡ definitions usr.now rows.items) }
{
    if count_with(&rows, usr, Roles::DEFINITION) == 0 {
        rows_with(alloc, rows, usr, Roles::DECLARATION)
    } else {
        rows_with(alloc, rows, usr, Roles::DEFINITION)
    }
}

/// How many rows of the USR have one of the roles.
fn count_with(rows: &[OccRow], usr: &Text, mask: u32) -> usize
    ensures { result ≡ length (rows_with usr.now mask rows.now) }
{
    rows.iter().filter(|row| is_with(row, usr, mask)).count()
}

/// The rows of the USR that have one of the roles.
fn rows_with(
    alloc: Global,
    rows: Vec<OccRow>,
    usr: &Text,
    mask: u32,
) -> Result<Vec<OccRow>, AllocError>
    ensures { IfOk result (λ v. v.items ≡ rows_with usr.now mask rows.items) }
{
    rows.into_iter()
        .filter(|row| is_with(row, usr, mask))
        .collect(alloc)
}

/// Whether the row is of the USR and has one of the roles.
fn is_with(row: &OccRow, usr: &Text, mask: u32) -> bool
    ensures { result ≡ is_with usr.now mask row.now }
{
    row.usr == *usr && row.roles.bits() & mask != 0
}
