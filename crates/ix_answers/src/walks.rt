//! Walks by levels, from one symbol over its callers, callees, bases or subtypes.
ghost use Rattle.std.specs.Prelude.{◌≡◌, ◌++◌, ◌||◌, [], ◌∷◌, map, filter, not, IfOk, OnOk};
ghost use Rattle.std.specs.List.{flat_map};
ghost use Rattle.ix_types.specs.Codes.{has_any};
ghost use Rattle.ix_types.specs.Row.{text_cmp, edge_cmp};
ghost use Rattle.ix_types.specs.declared.row.Row.TheVariants.{Edge};
ghost use Rattle.ix_model.specs.SortedSet.{sorted_set};
ghost use Rattle.ix_answers.specs.Lookups.{is_among};
ghost use Rattle.ix_answers.specs.Walks.{followed, edge, edge_by, edges_of_row, edges_from, next_level, reached, edges_to, walked};

use crate::lookups::is_among;
use ix_model::{OwnOrder, StoredUnit, rows, sorted_set};
use ix_types::{EdgeRow, FileName, Memory, OccRow, RelRow, Roles, Row, Seq, Text};
use std::alloc::{AllocError, Global};
use std::collections::BTreeMap;

/// What a walk goes over, from each symbol to the next ones.
#[derive(Clone, Copy, Debug, PartialEq, Eq)]
pub enum Walk {
    /// To who calls it.
    Incoming,
    /// To what it calls.
    Outgoing,
    /// To its bases.
    Supertypes,
    /// To what has it as a base.
    Subtypes,
}

/// A walk from the USR to a depth: its edges, sorted and without repeats.
pub fn walked(
    alloc: Global,
    walk: Walk,
    usr: &Text,
    depth: u32,
    units: &BTreeMap<FileName, StoredUnit>,
) -> Result<Seq<Row>, Memory>
    ensures { IfOk result (λ edges. edges ≡ walked walk usr.now depth units.now.entries) }
{
    let edges = edges_to(alloc, walk, &rows(alloc, units)?, usr, depth)?;
    Ok(Seq::of(edge_rows(alloc, sorted_set(alloc, edges, &OwnOrder)?)?))
}

fn edge_rows(alloc: Global, edges: Vec<EdgeRow>) -> Result<Vec<Row>, AllocError>
    ensures { IfOk result (λ v. v.items ≡ map Edge edges.items) }
{
    edges.into_iter().map(|edge| Row::Edge(edge)).collect(alloc)
}

/// The edges of the depths up to one.
fn edges_to(
    alloc: Global,
    walk: Walk,
    all: &[OccRow],
    usr: &Text,
    depth: u32,
) -> Result<Vec<EdgeRow>, Memory>
    ensures { IfOk result (λ edges. edges.items ≡ edges_to walk all.now usr.now depth) }
{
    let mut earlier = Vec::new(alloc);
    let mut level = start_level(alloc, usr)?;
    let mut edges = Vec::new(alloc);
    for n in 0..depth {
        let found = edges_from(alloc, walk, n + 1, &level, all)?;
        let next = next_level(alloc, &earlier, &level, &found)?;
        append_all(&mut earlier, level)?;
        append_all(&mut edges, found)?;
        level = next;
    }
    Ok(edges)
}

/// The level of the start alone.
pub(crate) fn start_level(alloc: Global, usr: &Text) -> Result<Vec<Text>, Memory>
    ensures { IfOk result (λ level. level.items ≡ usr.now ∷ []) }
{
    let mut level = Vec::new(alloc);
    level.push(usr.clone()?)?;
    Ok(level)
}

/// Appends the items.
pub(crate) fn append_all<T: Drop>(out: &mut Vec<T>, items: Vec<T>) -> Result<(), Memory>
    ensures { OnOk result (out.new.items ≡ out.old.items ++ items.items) }
{
    for item in items {
        out.push(item)?;
    }
    Ok(())
}

/// Where edges lead to, sorted and without repeats, but for the USRs of the levels so far.
pub(crate) fn next_level(
    alloc: Global,
    earlier: &[Text],
    level: &[Text],
    edges: &[EdgeRow],
) -> Result<Vec<Text>, Memory>
    ensures { IfOk result (λ next. next.items ≡ next_level earlier.now level.now edges.now) }
{
    let fresh = unseen(alloc, ends_of(alloc, edges)?, earlier, level)?;
    sorted_set(alloc, fresh, &OwnOrder)
}

/// The USRs that aren't among those of the levels so far.
fn unseen(
    alloc: Global,
    usrs: Vec<Text>,
    earlier: &[Text],
    level: &[Text],
) -> Result<Vec<Text>, AllocError>
    ensures { IfOk result (λ v. v.items ≡ filter (λ usr. not (is_among earlier.now usr || is_among level.now usr)) usrs.items) }
{
    usrs.into_iter()
        .filter(|usr| !(is_among(earlier, usr) || is_among(level, usr)))
        .collect(alloc)
}

/// Where the edges lead to.
fn ends_of(alloc: Global, edges: &[EdgeRow]) -> Result<Vec<Text>, Memory>
    ensures { IfOk result (λ v. v.items ≡ map (λ e. e.to) edges.now) }
{
    let mut ends = Vec::new(alloc);
    for edge in edges {
        ends.push(edge.to.clone()?)?;
    }
    Ok(ends)
}

/// The edges of all rows that begin in a level.
pub(crate) fn edges_from(
    alloc: Global,
    walk: Walk,
    depth: u32,
    level: &[Text],
    all: &[OccRow],
) -> Result<Vec<EdgeRow>, Memory>
    ensures { IfOk result (λ edges. edges.items ≡ edges_from walk depth level.now all.now) }
{
    let mut edges = Vec::new(alloc);
    for row in all {
        append_edges(&mut edges, walk, depth, row)?;
    }
    Ok(beginning_in(alloc, edges, level)?)
}

/// The edges that begin in a level.
fn beginning_in(
    alloc: Global,
    edges: Vec<EdgeRow>,
    level: &[Text],
) -> Result<Vec<EdgeRow>, AllocError>
    ensures { IfOk result (λ v. v.items ≡ filter (λ e. is_among level.now e.from) edges.items) }
{
    edges
        .into_iter()
        .filter(|edge| is_among(level, &edge.from))
        .collect(alloc)
}

/// Appends the edges of a row.
fn append_edges(out: &mut Vec<EdgeRow>, walk: Walk, depth: u32, row: &OccRow) -> Result<(), Memory>
    ensures { OnOk result (out.new.items ≡ out.old.items ++ edges_of_row walk depth row.now) }
{
    for relation in row.relations.as_slice() {
        if relation.roles.bits() & followed(walk) != 0 {
            out.push(edge(walk, depth, row, relation)?)?;
        }
    }
    Ok(())
}

/// The relation that a walk follows.
fn followed(walk: Walk) -> u32
    ensures { result ≡ followed walk }
{
    match walk {
        Walk::Incoming | Walk::Outgoing => Roles::CALLED_BY,
        Walk::Supertypes | Walk::Subtypes => Roles::BASE_OF,
    }
}

/// The edge by a row and one of its relations.
fn edge(walk: Walk, depth: u32, row: &OccRow, relation: &RelRow) -> Result<EdgeRow, Memory>
    ensures { IfOk result (λ e. e ≡ edge walk depth row.now relation.now) }
{
    match walk {
        Walk::Incoming | Walk::Subtypes => edge_by(depth, &row.usr, &relation.usr, row),
        Walk::Outgoing | Walk::Supertypes => edge_by(depth, &relation.usr, &row.usr, row),
    }
}

/// An edge by the occurrence of a row.
fn edge_by(depth: u32, from: &Text, to: &Text, row: &OccRow) -> Result<EdgeRow, Memory>
    ensures { IfOk result (λ e. e ≡ edge_by depth from.now to.now row.now) }
{
    Ok(EdgeRow {
        depth,
        from: from.clone()?,
        to: to.clone()?,
        path: row.path.clone()?,
        line: row.line,
        column: row.column,
    })
}
