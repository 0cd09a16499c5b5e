//! What each query answers: a filter of all rows, or of what all units list.
ghost use Rattle.std.specs.Prelude.{◌≡◌, ◌++◌, map, filter, length, IfOk};
ghost use Rattle.std.specs.List.{flat_map, list_any};
ghost use Rattle.ix_types.specs.Codes.{has_any};
ghost use Rattle.std.specs.Prelude.{if◌then◌else◌};
ghost use Rattle.ix_types.specs.Row.{text_cmp, occurrence_cmp};
ghost use Rattle.ix_types.specs.declared.code.TheConstants.Roles.{REFERENCE, CALLED_BY};
ghost use Rattle.ix_types.specs.declared.row.Row.TheVariants.{Occ, Path, Unit as UnitRow};
ghost use Rattle.ix_model.specs.Answer.{is_with, rows_with, definitions};
ghost use Rattle.ix_model.specs.Rows.{rows};
ghost use Rattle.ix_model.specs.SortedSet.{sorted_set};
ghost use Rattle.ix_answers.specs.Pattern.{matches};
ghost use Rattle.ix_answers.specs.Answers.{rows_that, is_related, is_called, is_declared_in, definitions_of_each, matched, mains, included, includers, answer};

use crate::facts::{HeldSymbol, held, includes, listed};
use crate::lookups::{coded, listing, named, set_of_texts};
use crate::pattern::matches;
use crate::walks::{Walk, append_all, walked};
use ix_model::{OwnOrder, StoredUnit, append_some, definitions_of, rows, sorted_set};
use ix_types::{FileName, Memory, OccRow, Query, RelRow, Roles, Row, Seq, Text};
use std::alloc::{AllocError, Global};
use std::collections::BTreeMap;

/// The answer of a query over the units, sorted and without repeats.
pub fn answer(
    alloc: Global,
    query: &Query,
    units: &BTreeMap<FileName, StoredUnit>,
) -> Result<Seq<Row>, Memory>
    ensures { IfOk result (λ rows. rows ≡ answer query.now units.now.entries) }
{
    match query {
        Query::Def { usr } => definitions_of(alloc, usr, units),
        Query::Refs { usr } => rows_with(alloc, usr, Roles::REFERENCE, units),
        Query::Occ { usr, roles } => rows_with(alloc, usr, roles.bits(), units),
        Query::Rel { usr, roles } => rows_related(alloc, usr, roles.bits(), units),
        Query::Callers { usr } => rows_called(alloc, usr, units),
        Query::Overrides { usr } => rows_related(alloc, usr, Roles::OVERRIDE_OF, units),
        Query::Name { name } => definitions_of_each(alloc, named(alloc, name, units)?, units),
        Query::Pattern {
            text,
            start,
            end,
            fold,
        } => {
            definitions_of_each(
                alloc,
                matched(alloc, text, *start, *end, *fold, units)?,
                units,
            )
        }
        Query::Symbols { path } => rows_declared_in(alloc, path, units),
        Query::Mains { path } => path_rows(alloc, mains(alloc, path, units)?),
        Query::Units { path } => unit_rows(alloc, listing(alloc, path, units)?),
        Query::Includes { path } => path_rows(alloc, included(alloc, path, units)?),
        Query::Includers { path } => path_rows(alloc, includers(alloc, path, units)?),
        Query::Incoming { usr, depth } => walked(alloc, Walk::Incoming, usr, *depth, units),
        Query::Outgoing { usr, depth } => walked(alloc, Walk::Outgoing, usr, *depth, units),
        Query::Supertypes { usr, depth } => walked(alloc, Walk::Supertypes, usr, *depth, units),
        Query::Subtypes { usr, depth } => walked(alloc, Walk::Subtypes, usr, *depth, units),
        Query::Codegen { codegen } => definitions_of_each(
            alloc,
            coded(alloc, codegen, units)?,
            units,
        ),
    }
}

/// The rows, sorted and without repeats.
fn occurrence_rows(alloc: Global, rows: Vec<OccRow>) -> Result<Seq<Row>, Memory>
    ensures { IfOk result (λ all. all ≡ map Occ (sorted_set occurrence_cmp rows.items)) }
{
    Ok(Seq::of(as_rows(alloc, sorted_set(alloc, rows, &OwnOrder)?)?))
}

fn as_rows(alloc: Global, rows: Vec<OccRow>) -> Result<Vec<Row>, AllocError>
    ensures { IfOk result (λ v. v.items ≡ map Occ rows.items) }
{
    rows.into_iter().map(|row| Row::Occ(row)).collect(alloc)
}

fn path_rows(alloc: Global, paths: Seq<Text>) -> Result<Seq<Row>, Memory>
    ensures { IfOk result (λ all. all ≡ map Path paths) }
{
    let rows = paths
        .into_vec()
        .into_iter()
        .map(|path| Row::Path(path))
        .collect(alloc)?;
    Ok(Seq::of(rows))
}

fn unit_rows(alloc: Global, names: Seq<FileName>) -> Result<Seq<Row>, Memory>
    ensures { IfOk result (λ all. all ≡ map UnitRow names) }
{
    let rows = names
        .into_vec()
        .into_iter()
        .map(|name| Row::Unit(name))
        .collect(alloc)?;
    Ok(Seq::of(rows))
}

/// The rows of the USR that have one of the roles.
fn rows_with(
    alloc: Global,
    usr: &Text,
    mask: u32,
    units: &BTreeMap<FileName, StoredUnit>,
) -> Result<Seq<Row>, Memory>
    ensures { IfOk result (λ all. all ≡ rows_that (is_with usr.now mask) units.now.entries) }
{
    let chosen = rows(alloc, units)?
        .into_iter()
        .filter(|row| is_with(row, usr, mask))
        .collect(alloc)?;
    occurrence_rows(alloc, chosen)
}

/// The rows with a relation to the USR that has one of the roles.
fn rows_related(
    alloc: Global,
    usr: &Text,
    mask: u32,
    units: &BTreeMap<FileName, StoredUnit>,
) -> Result<Seq<Row>, Memory>
    ensures { IfOk result (λ all. all ≡ rows_that (is_related usr.now mask) units.now.entries) }
{
    let chosen = rows(alloc, units)?
        .into_iter()
        .filter(|row| is_related(row, usr, mask))
        .collect(alloc)?;
    occurrence_rows(alloc, chosen)
}

/// The rows of the USR where something calls it.
fn rows_called(
    alloc: Global,
    usr: &Text,
    units: &BTreeMap<FileName, StoredUnit>,
) -> Result<Seq<Row>, Memory>
    ensures { IfOk result (λ all. all ≡ rows_that (is_called usr.now) units.now.entries) }
{
    let chosen = rows(alloc, units)?
        .into_iter()
        .filter(|row| is_called(row, usr))
        .collect(alloc)?;
    occurrence_rows(alloc, chosen)
}

/// The rows of the path that define or declare something.
fn rows_declared_in(
    alloc: Global,
    path: &Text,
    units: &BTreeMap<FileName, StoredUnit>,
) -> Result<Seq<Row>, Memory>
    ensures { IfOk result (λ all. all ≡ rows_that (is_declared_in path.now) units.now.entries) }
{
    let chosen = rows(alloc, units)?
        .into_iter()
        .filter(|row| is_declared_in(row, path))
        .collect(alloc)?;
    occurrence_rows(alloc, chosen)
}

/// Whether the row is of the USR and has one of the roles.
fn is_with(row: &OccRow, usr: &Text, mask: u32) -> bool
    ensures { result ≡ is_with usr.now mask row.now }
{
    row.usr == *usr && row.roles.bits() & mask != 0
}

/// Whether a relation of the row to the USR has one of the roles.
fn is_related(row: &OccRow, usr: &Text, mask: u32) -> bool
    ensures { result ≡ is_related usr.now mask row.now }
{
    row.relations.as_slice().iter().any(|relation| relation.usr == *usr
        && relation.roles.bits() & mask != 0)
}

/// Whether the row is of the USR, and something calls it there.
fn is_called(row: &OccRow, usr: &Text) -> bool
    ensures { result ≡ is_called usr.now row.now }
{
    row.usr == *usr && has_caller(row.relations.as_slice())
}

/// Whether a relation says that something calls the symbol.
fn has_caller(relations: &[RelRow]) -> bool
    ensures { result ≡ list_any (λ relation. has_any relation.roles CALLED_BY) relations.now }
{
    relations
        .iter()
        .any(|relation| relation.roles.bits() & Roles::CALLED_BY != 0)
}

/// Whether the row defines or declares something in the path.
fn is_declared_in(row: &OccRow, path: &Text) -> bool
    ensures { result ≡ is_declared_in path.now row.now }
{
    row.path == *path
        && (row.roles.bits() & Roles::DECLARATION != 0 || row.roles.bits() & Roles::DEFINITION != 0)
}

/// Where each of the USRs is defined, sorted and without repeats; where one isn't, where it is declared.
pub fn definitions_of_each(
    alloc: Global,
    usrs: Seq<Text>,
    units: &BTreeMap<FileName, StoredUnit>,
) -> Result<Seq<Row>, Memory>
    ensures { IfOk result (λ all. all ≡ definitions_of_each usrs units.now.entries) }
{
    let mut chosen = Vec::new(alloc);
    for usr in usrs.as_slice() {
        append_all(&mut chosen, definitions(alloc, rows(alloc, units)?, usr)?)?;
    }
    occurrence_rows(alloc, chosen)
}

/// Of some rows, those that define the USR; where none does, those that declare it.
fn definitions(alloc: Global, all: Vec<OccRow>, usr: &Text) -> Result<Vec<OccRow>, AllocError>
    ensures { IfOk result (λ v. v.items ≡ definitions usr.now all.items) }
{
    if count_with(&all, usr, Roles::DEFINITION) == 0 {
        only_with(alloc, all, usr, Roles::DECLARATION)
    } else {
        only_with(alloc, all, usr, Roles::DEFINITION)
    }
}

/// How many rows of the USR have one of the roles.
fn count_with(all: &[OccRow], usr: &Text, mask: u32) -> usize
    ensures { result ≡ length (rows_with usr.now mask all.now) }
{
    all.iter().filter(|row| is_with(row, usr, mask)).count()
}

/// The rows of the USR that have one of the roles.
fn only_with(
    alloc: Global,
    all: Vec<OccRow>,
    usr: &Text,
    mask: u32,
) -> Result<Vec<OccRow>, AllocError>
    ensures { IfOk result (λ v. v.items ≡ rows_with usr.now mask all.items) }
{
    all.into_iter()
        .filter(|row| is_with(row, usr, mask))
        .collect(alloc)
}

/// The USRs of the symbols whose name matches a pattern.
pub fn matched(
    alloc: Global,
    text: &Text,
    start: bool,
    end: bool,
    fold: bool,
    units: &BTreeMap<FileName, StoredUnit>,
) -> Result<Seq<Text>, Memory>
    ensures { IfOk result (λ usrs. usrs ≡ matched text.now start end fold units.now.entries) }
{
    let mut usrs = Vec::new(alloc);
    for symbol in held(alloc, units)? {
        if matches(alloc, text, start, end, fold, &symbol.name)? {
            usrs.push(symbol.usr)?;
        }
    }
    set_of_texts(alloc, usrs)
}

/// The main files, where they have one, of the units that list the path.
pub fn mains(
    alloc: Global,
    path: &Text,
    units: &BTreeMap<FileName, StoredUnit>,
) -> Result<Seq<Text>, Memory>
    ensures { IfOk result (λ all. all ≡ mains path.now units.now.entries) }
{
    let all = listed(alloc, units)?
        .into_iter()
        .filter(|l| l.path == *path && !l.main_file.bytes().is_empty())
        .map(|l| l.main_file)
        .collect(alloc)?;
    set_of_texts(alloc, all)
}

/// What the path includes.
pub fn included(
    alloc: Global,
    path: &Text,
    units: &BTreeMap<FileName, StoredUnit>,
) -> Result<Seq<Text>, Memory>
    ensures { IfOk result (λ all. all ≡ included path.now units.now.entries) }
{
    let all = includes(alloc, units)?
        .into_iter()
        .filter(|include| include.from == *path)
        .map(|include| include.to)
        .collect(alloc)?;
    set_of_texts(alloc, all)
}

/// What includes the path.
pub fn includers(
    alloc: Global,
    path: &Text,
    units: &BTreeMap<FileName, StoredUnit>,
) -> Result<Seq<Text>, Memory>
    ensures { IfOk result (λ all. all ≡ includers path.now units.now.entries) }
{
    let all = includes(alloc, units)?
        .into_iter()
        .filter(|include| include.to == *path)
        .map(|include| include.from)
        .collect(alloc)?;
    set_of_texts(alloc, all)
}
