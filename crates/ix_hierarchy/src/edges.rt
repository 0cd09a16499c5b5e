//! The edges of a level, from the records that it needs.
ghost use Rattle.std.specs.Prelude.{◌≡◌, ◌++◌, ℕ, List, false, slice_get, Some, None, IfOk, OnOk};
ghost use Rattle.std.specs.Option.{option_to_list, option_map, option_copied, option_map_or};
ghost use Rattle.std.specs.List.{flat_map, filter_map};
ghost use Rattle.ix_types.specs.Codes.{has_any};
ghost use Rattle.ix_model.specs.Rows.{relation_row, occurrence_row, rows_of_record};
ghost use Rattle.ix_answers.specs.Walks.{followed, edges_from};
ghost use Rattle.ix_lookups.specs.Loaded.{body_named};
ghost use Rattle.ix_levels.specs.Levels.{edges_at, level_edges};
ghost use Rattle.ix_hierarchy.specs.Marks.{marks_of, is_marked, begins_at, edge_at, edge_between, edge_kept, edge_found};

use crate::seen::is_in;
use ix_answers::Walk;
use ix_lookups::{Bodies, Lookups};
use ix_model::append_some;
use ix_record::{Occurrence, RecordValue, Relation, Symbol};
use ix_types::{EdgeRow, FileName, Memory, Roles, Text};
use std::alloc::{AllocError, Global};
use std::collections::BTreeSet;

/// Appends the edges that begin in a level by the rows of the named records, each under all its paths.
pub(crate) fn append_level<L: Lookups>(
    alloc: Global,
    out: &mut Vec<EdgeRow>,
    walk: Walk,
    depth: u32,
    level: &BTreeSet<Text>,
    names: &[FileName],
    lookups: &L,
    bodies: &Bodies,
) -> Result<(), Memory>
    ensures { OnOk result (out.new.items ≡ out.old.items ++ level_edges walk depth level.now.keys names.now (L.found lookups.now) bodies.now) }
{
    for name in names {
        append_named(
            alloc,
            out,
            walk,
            depth,
            level,
            lookups.paths(name),
            name,
            bodies,
        )?;
    }
    Ok(())
}

/// Appends the edges by the rows of a record, if it is loaded.
fn append_named(
    alloc: Global,
    out: &mut Vec<EdgeRow>,
    walk: Walk,
    depth: u32,
    level: &BTreeSet<Text>,
    paths: &[Text],
    name: &FileName,
    bodies: &Bodies,
) -> Result<(), Memory>
    ensures { OnOk result (out.new.items ≡ out.old.items ++ edges_at walk depth level.now.keys paths.now (body_named name.now bodies.now)) }
{
    match bodies.get(name) {
        Some(body) => append_record(alloc, out, walk, depth, level, paths, body),
        None => Ok(()),
    }
}

/// Appends the edges by the rows of a record, under its paths.
fn append_record(
    alloc: Global,
    out: &mut Vec<EdgeRow>,
    walk: Walk,
    depth: u32,
    level: &BTreeSet<Text>,
    paths: &[Text],
    value: &RecordValue,
) -> Result<(), Memory>
    ensures { OnOk result (out.new.items ≡ out.old.items ++ flat_map (λ path. edges_from walk depth level.now.keys (rows_of_record path value.now)) paths.now) }
{
    let symbols = value.symbols.as_slice();
    let marks = marks_of(alloc, level, symbols)?;
    for path in paths {
        append_at(
            out,
            walk,
            depth,
            &marks,
            path,
            symbols,
            value.occurrences.as_slice(),
        )?;
    }
    Ok(())
}

/// Which symbols are of the level.
fn marks_of(
    alloc: Global,
    level: &BTreeSet<Text>,
    symbols: &[Symbol],
) -> Result<Vec<bool>, AllocError>
    ensures { IfOk result (λ marks. marks.items ≡ marks_of level.now.keys symbols.now) }
{
    symbols
        .iter()
        .map(|symbol| is_in(level, &symbol.usr))
        .collect(alloc)
}

/// Appends the edges of the occurrences under a path. The marks say which symbols are of the level.
fn append_at(
    out: &mut Vec<EdgeRow>,
    walk: Walk,
    depth: u32,
    marks: &[bool],
    path: &Text,
    symbols: &[Symbol],
    occurrences: &[Occurrence],
) -> Result<(), Memory>
    ensures { (level : List (List ℕ)) → marks.now ≡ marks_of level symbols.now
        → OnOk result (out.new.items ≡ out.old.items ++ edges_from walk depth level (filter_map (occurrence_row path.now symbols.now) occurrences.now)) }
{
    for occurrence in occurrences {
        append_occurrence(out, walk, depth, marks, path, symbols, occurrence)?;
    }
    Ok(())
}

/// Appends the edges of an occurrence.
fn append_occurrence(
    out: &mut Vec<EdgeRow>,
    walk: Walk,
    depth: u32,
    marks: &[bool],
    path: &Text,
    symbols: &[Symbol],
    occurrence: &Occurrence,
) -> Result<(), Memory>
    ensures { (level : List (List ℕ)) → marks.now ≡ marks_of level symbols.now
        → OnOk result (out.new.items ≡ out.old.items ++ edges_from walk depth level (option_to_list (occurrence_row path.now symbols.now occurrence.now))) }
{
    match symbols.get(occurrence.symbol as usize) {
        Some(symbol) => append_relations(
            out,
            walk,
            depth,
            marks,
            path,
            symbols,
            occurrence,
            &symbol.usr,
        ),
        None => Ok(()),
    }
}

/// Appends the edges of an occurrence of a USR, relation by relation.
fn append_relations(
    out: &mut Vec<EdgeRow>,
    walk: Walk,
    depth: u32,
    marks: &[bool],
    path: &Text,
    symbols: &[Symbol],
    occurrence: &Occurrence,
    usr: &Text,
) -> Result<(), Memory>
    ensures { OnOk result (out.new.items ≡ out.old.items ++ filter_map (edge_found walk depth marks.now path.now symbols.now occurrence.now usr.now) occurrence.now.relations) }
{
    for relation in occurrence.relations.as_slice() {
        let found = edge_found(walk, depth, marks, path, symbols, occurrence, usr, relation)?;
        append_some(out, found)?;
    }
    Ok(())
}

/// The edge by a relation, if the walk follows it and it begins in the level.
fn edge_found(
    walk: Walk,
    depth: u32,
    marks: &[bool],
    path: &Text,
    symbols: &[Symbol],
    occurrence: &Occurrence,
    usr: &Text,
    relation: &Relation,
) -> Result<Option<EdgeRow>, Memory>
    ensures { IfOk result (λ e. e ≡ edge_found walk depth marks.now path.now symbols.now occurrence.now usr.now relation.now) }
{
    match symbols.get(relation.symbol as usize) {
        Some(other) => {
            if !follows(walk, relation) {
                return Ok(None);
            }
            if !is_marked(marks, begins_at(walk, occurrence, relation)) {
                return Ok(None);
            }
            Ok(Some(edge_between(walk, depth, path, occurrence, usr, &other.usr)?))
        }
        None => Ok(None),
    }
}

/// Whether the walk follows the relation.
fn follows(walk: Walk, relation: &Relation) -> bool
    ensures { result ≡ has_any relation.now.roles (followed walk) }
{
    relation.roles.bits() & followed(walk) != 0
}

/// The role of the relations that a walk follows.
fn followed(walk: Walk) -> u32
    ensures { result ≡ followed walk }
{
    match walk {
        Walk::Incoming | Walk::Outgoing => Roles::CALLED_BY,
        Walk::Supertypes | Walk::Subtypes => Roles::BASE_OF,
    }
}

/// The index of the symbol at which the edge by a relation begins.
fn begins_at(walk: Walk, occurrence: &Occurrence, relation: &Relation) -> u32
    ensures { result ≡ begins_at walk occurrence.now relation.now }
{
    match walk {
        Walk::Incoming | Walk::Subtypes => occurrence.symbol,
        Walk::Outgoing | Walk::Supertypes => relation.symbol,
    }
}

/// Whether the symbol at an index is marked.
fn is_marked(marks: &[bool], index: u32) -> bool
    ensures { result ≡ is_marked marks.now index }
{
    match marks.get(index as usize) {
        Some(mark) => *mark,
        None => false,
    }
}

/// The edge between an occurrence's USR and another to which a relation of it leads.
fn edge_between(
    walk: Walk,
    depth: u32,
    path: &Text,
    occurrence: &Occurrence,
    usr: &Text,
    other: &Text,
) -> Result<EdgeRow, Memory>
    ensures { IfOk result (λ e. e ≡ edge_between walk depth path.now occurrence.now usr.now other.now) }
{
    match walk {
        Walk::Incoming | Walk::Subtypes => edge_at(depth, path, occurrence, usr, other),
        Walk::Outgoing | Walk::Supertypes => edge_at(depth, path, occurrence, other, usr),
    }
}

/// An edge at an occurrence.
fn edge_at(
    depth: u32,
    path: &Text,
    occurrence: &Occurrence,
    from: &Text,
    to: &Text,
) -> Result<EdgeRow, Memory>
    ensures { IfOk result (λ e. e ≡ edge_at depth path.now occurrence.now from.now to.now) }
{
    Ok(EdgeRow {
        depth,
        from: from.clone()?,
        to: to.clone()?,
        path: path.clone()?,
        line: occurrence.line,
        column: occurrence.column,
    })
}
