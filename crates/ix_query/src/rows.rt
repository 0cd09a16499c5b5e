//! The rows that are chosen of loaded records.
ghost use Rattle.std.specs.Prelude.{◌≡◌, ◌++◌, ℕ, List, false, [], ◌∷◌, map, filter, IfOk, OnOk};
ghost use Rattle.std.specs.Option.{option_to_list, option_map, option_copied};
ghost use Rattle.std.specs.List.{flat_map, filter_map};
ghost use Rattle.ix_model.specs.Rows.{relation_row, row_with, occurrence_row, rows_of_record};
ghost use Rattle.ix_lookups.specs.Loaded.{body_named};
ghost use Rattle.ix_needs.specs.Chosen.{rows_at, loaded_rows, rows_under};

use crate::choices::{Choice, PathlessChoice};
use ix_lookups::{Bodies, Lookups};
use ix_model::append_some;
use ix_record::{Occurrence, RecordValue, Relation, Symbol};
use ix_types::{FileName, Memory, OccRow, RelRow, Seq, Text};
use std::alloc::Global;

/// Appends the rows that are chosen of the named records, each under all its paths.
pub(crate) fn append_loaded<C: PathlessChoice, L: Lookups>(
    alloc: Global,
    out: &mut Vec<OccRow>,
    key: &Text,
    mask: u32,
    names: &[FileName],
    lookups: &L,
    bodies: &Bodies,
) -> Result<(), Memory>
    ensures { OnOk result (out.new.items ≡ out.old.items ++ loaded_rows (C.passes key.now mask) names.now (L.found lookups.now) bodies.now) }
{
    for name in names {
        append_named::<C, L>(alloc, out, key, mask, name, lookups, bodies)?;
    }
    Ok(())
}

/// Appends the rows that are chosen of the named records under one path.
pub(crate) fn append_under<C: Choice>(
    alloc: Global,
    out: &mut Vec<OccRow>,
    key: &Text,
    mask: u32,
    path: &Text,
    names: &[FileName],
    bodies: &Bodies,
) -> Result<(), Memory>
    ensures { OnOk result (out.new.items ≡ out.old.items ++ rows_under (C.passes key.now mask) path.now names.now bodies.now) }
{
    for name in names {
        append_one::<C>(alloc, out, key, mask, path, name, bodies)?;
    }
    Ok(())
}

/// Appends the rows that are chosen of a record under its paths, if it is loaded. Asks for its paths only where it has such a row.
fn append_named<C: PathlessChoice, L: Lookups>(
    alloc: Global,
    out: &mut Vec<OccRow>,
    key: &Text,
    mask: u32,
    name: &FileName,
    lookups: &L,
    bodies: &Bodies,
) -> Result<(), Memory>
    ensures { OnOk result (out.new.items ≡ out.old.items ++ rows_at (C.passes key.now mask) ((L.found lookups.now).paths name.now) (body_named name.now bodies.now)) }
{
    match bodies.get(name) {
        Some(body) => {
            if has_row::<C>(key, mask, body) {
                append_at_paths::<C>(alloc, out, key, mask, lookups.paths(name), body)
            } else {
                Ok(())
            }
        }
        None => Ok(()),
    }
}

/// Whether an occurrence of the record is chosen. Where none is, the record has no row under any path.
fn has_row<C: PathlessChoice>(key: &Text, mask: u32, value: &RecordValue) -> bool
    ensures { result ≡ false → (path : List ℕ) → filter (C.passes key.now mask) (rows_of_record path value.now) ≡ [] }
{
    any_chosen::<C>(
        key,
        mask,
        value.symbols.as_slice(),
        value.occurrences.as_slice(),
    )
}

/// Whether one of the occurrences is chosen.
fn any_chosen<C: PathlessChoice>(
    key: &Text,
    mask: u32,
    symbols: &[Symbol],
    occurrences: &[Occurrence],
) -> bool
    ensures { result ≡ false → (path : List ℕ) → filter (C.passes key.now mask) (filter_map (occurrence_row path symbols.now) occurrences.now) ≡ [] }
{
    for occurrence in occurrences {
        if is_chosen::<C>(key, mask, symbols, occurrence) {
            return true;
        }
    }
    false
}

/// Whether an occurrence is chosen.
fn is_chosen<C: PathlessChoice>(
    key: &Text,
    mask: u32,
    symbols: &[Symbol],
    occurrence: &Occurrence,
) -> bool
    ensures { result ≡ false → (path : List ℕ) → filter (C.passes key.now mask) (option_to_list (occurrence_row path symbols.now occurrence.now)) ≡ [] }
{
    match symbols.get(occurrence.symbol as usize) {
        Some(symbol) => C::chooses_anywhere(key, mask, symbols, occurrence, symbol),
        None => false,
    }
}

/// Appends the rows that are chosen of a record under one path, if it is loaded.
fn append_one<C: Choice>(
    alloc: Global,
    out: &mut Vec<OccRow>,
    key: &Text,
    mask: u32,
    path: &Text,
    name: &FileName,
    bodies: &Bodies,
) -> Result<(), Memory>
    ensures { OnOk result (out.new.items ≡ out.old.items ++ rows_at (C.passes key.now mask) (path.now ∷ []) (body_named name.now bodies.now)) }
{
    match bodies.get(name) {
        Some(body) => append_record::<C>(alloc, out, key, mask, path, body),
        None => Ok(()),
    }
}

/// Appends the rows that are chosen of a record under its paths.
fn append_at_paths<C: Choice>(
    alloc: Global,
    out: &mut Vec<OccRow>,
    key: &Text,
    mask: u32,
    paths: &[Text],
    value: &RecordValue,
) -> Result<(), Memory>
    ensures { OnOk result (out.new.items ≡ out.old.items ++ flat_map (λ path. filter (C.passes key.now mask) (rows_of_record path value.now)) paths.now) }
{
    for path in paths {
        append_record::<C>(alloc, out, key, mask, path, value)?;
    }
    Ok(())
}

/// Appends the rows that are chosen of a record under a path.
fn append_record<C: Choice>(
    alloc: Global,
    out: &mut Vec<OccRow>,
    key: &Text,
    mask: u32,
    path: &Text,
    value: &RecordValue,
) -> Result<(), Memory>
    ensures { OnOk result (out.new.items ≡ out.old.items ++ filter (C.passes key.now mask) (rows_of_record path.now value.now)) }
{
    append_occurrences::<C>(
        alloc,
        out,
        key,
        mask,
        path,
        value.symbols.as_slice(),
        value.occurrences.as_slice(),
    )
}

/// Appends the rows of the occurrences that are chosen.
fn append_occurrences<C: Choice>(
    alloc: Global,
    out: &mut Vec<OccRow>,
    key: &Text,
    mask: u32,
    path: &Text,
    symbols: &[Symbol],
    occurrences: &[Occurrence],
) -> Result<(), Memory>
    ensures { OnOk result (out.new.items ≡ out.old.items ++ filter (C.passes key.now mask) (filter_map (occurrence_row path.now symbols.now) occurrences.now)) }
{
    for occurrence in occurrences {
        append_occurrence::<C>(alloc, out, key, mask, path, symbols, occurrence)?;
    }
    Ok(())
}

/// Appends the row of an occurrence, if it is chosen.
fn append_occurrence<C: Choice>(
    alloc: Global,
    out: &mut Vec<OccRow>,
    key: &Text,
    mask: u32,
    path: &Text,
    symbols: &[Symbol],
    occurrence: &Occurrence,
) -> Result<(), Memory>
    ensures { OnOk result (out.new.items ≡ out.old.items ++ filter (C.passes key.now mask) (option_to_list (occurrence_row path.now symbols.now occurrence.now))) }
{
    match symbols.get(occurrence.symbol as usize) {
        Some(symbol) => {
            if C::chooses(key, mask, path, symbols, occurrence, symbol) {
                out.push(row_with(alloc, path, symbols, occurrence, symbol)?)?;
            }
            Ok(())
        }
        None => Ok(()),
    }
}

/// The row of an occurrence of a symbol.
fn row_with(
    alloc: Global,
    path: &Text,
    symbols: &[Symbol],
    occurrence: &Occurrence,
    symbol: &Symbol,
) -> Result<OccRow, Memory>
    ensures { IfOk result (λ row. row ≡ row_with path.now symbols.now occurrence.now symbol.now) }
{
    Ok(OccRow {
        path: path.clone()?,
        line: occurrence.line,
        column: occurrence.column,
        usr: symbol.usr.clone()?,
        name: symbol.name.clone()?,
        kind: symbol.kind,
        lang: symbol.lang,
        props: symbol.props,
        roles: occurrence.roles,
        relations: relation_rows(alloc, symbols, occurrence.relations.as_slice())?,
    })
}

/// The relations, with the USRs of their symbols. One whose symbol isn't in the list is left out.
fn relation_rows(
    alloc: Global,
    symbols: &[Symbol],
    relations: &[Relation],
) -> Result<Seq<RelRow>, Memory>
    ensures { IfOk result (λ rows. rows ≡ filter_map (relation_row symbols.now) relations.now) }
{
    let mut rows = Vec::new(alloc);
    for relation in relations {
        append_some(&mut rows, relation_row(symbols, relation)?)?;
    }
    Ok(Seq::of(rows))
}

/// The row of a relation; None where its symbol isn't in the list.
fn relation_row(symbols: &[Symbol], relation: &Relation) -> Result<Option<RelRow>, Memory>
    ensures { IfOk result (λ row. row ≡ relation_row symbols.now relation.now) }
{
    match symbols.get(relation.symbol as usize) {
        Some(symbol) => Ok(Some(RelRow {
            usr: symbol.usr.clone()?,
            roles: relation.roles,
        })),
        None => Ok(None),
    }
}
