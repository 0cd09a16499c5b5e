//! What is answered from the records that are needed.
ghost use Rattle.std.specs.Prelude.{◌≡◌, ◌++◌, ℕ, true, [], map, IfOk, OnOk};
ghost use Rattle.ix_types.specs.declared.row.Row.TheVariants.{Occ, Path, Unit as UnitRow};
ghost use Rattle.ix_types.specs.declared.code.TheConstants.Roles.{DECLARATION, DEFINITION};
ghost use Rattle.ix_types.specs.Row.{occurrence_cmp};
ghost use Rattle.ix_model.specs.SortedSet.{sorted_set};
ghost use Rattle.ix_model.specs.Units.{Units};
ghost use Rattle.ix_answers.specs.Answers.{answer, is_called, is_declared_in};
ghost use Rattle.ix_lookups.specs.Found.{found_in};
ghost use Rattle.ix_needs.specs.Chosen.{answer_from, sorted_rows, loaded_rows, with_role, with_relation, rows_under, defining_rows, defining_each};
ghost use Rattle.ix_needs.specs.Premises.{is_plain, Holds, AreNeedsLoaded};

use crate::choices::{Called, DeclaredIn, Related, WithRole};
use crate::names::{included, includers, mains, matching};
use crate::needed::copied;
use crate::rows::{append_loaded, append_under};
use crate::sets::set_of_rows;
use ix_lookups::{Bodies, Lookups};
use ix_types::{FileName, Memory, OccRow, Query, Roles, Row, Seq, Text};
use std::alloc::{AllocError, Global};

/// The answer of a query that is no walk, sorted and without repeats. Where the look-ups are those of some units, the bodies are of these and
/// all that is needed is loaded, it is the answer over all rows of all of the units. Reads no file.
pub fn answer<L: Lookups>(
    alloc: Global,
    query: &Query,
    lookups: &L,
    bodies: &Bodies,
) -> Result<Seq<Row>, Memory>
    requires { is_plain query.now ≡ true }
    ensures { IfOk result (λ rows. (units : Units) → L.found lookups.now ≡ found_in units → Holds units bodies.now → AreNeedsLoaded query.now units bodies.now
        → rows ≡ answer query.now units) }
{
    ix_needs::laws::needed_records_suffice();
    answer_from(alloc, query, lookups, bodies)
}

/// What is chosen from look-ups and loaded records.
fn answer_from<L: Lookups>(
    alloc: Global,
    query: &Query,
    lookups: &L,
    bodies: &Bodies,
) -> Result<Seq<Row>, Memory>
    ensures { IfOk result (λ rows. rows ≡ answer_from query.now (L.found lookups.now) bodies.now) }
{
    match query {
        Query::Def { usr } => defined(alloc, usr, lookups, bodies),
        Query::Refs { usr } => with_role(alloc, usr, Roles::REFERENCE, lookups, bodies),
        Query::Occ { usr, roles } => with_role(alloc, usr, roles.bits(), lookups, bodies),
        Query::Rel { usr, roles } => related(alloc, usr, roles.bits(), lookups, bodies),
        Query::Callers { usr } => called(alloc, usr, lookups, bodies),
        Query::Overrides { usr } => related(alloc, usr, Roles::OVERRIDE_OF, lookups, bodies),
        Query::Name { name } => defined_each(alloc, lookups.named(name), lookups, bodies),
        Query::Codegen { codegen } => defined_each(alloc, lookups.coded(codegen), lookups, bodies),
        Query::Pattern {
            text,
            start,
            end,
            fold,
        } => {
            let usrs = matching(alloc, text, *start, *end, *fold, lookups)?;
            defined_each(alloc, &usrs, lookups, bodies)
        }
        Query::Symbols { path } => declared_in(alloc, path, lookups, bodies),
        Query::Mains { path } => path_rows(alloc, mains(alloc, path, lookups)?),
        Query::Units { path } => unit_rows(alloc, copied(alloc, lookups.listing(path))?),
        Query::Includes { path } => path_rows(alloc, included(alloc, path, lookups)?),
        Query::Includers { path } => path_rows(alloc, includers(alloc, path, lookups)?),
        Query::Incoming { .. }
        | Query::Outgoing { .. }
        | Query::Supertypes { .. }
        | Query::Subtypes { .. } => Ok(Seq::of(Vec::new(alloc))),
    }
}

/// The rows, sorted and without repeats.
fn sorted_rows(alloc: Global, rows: Vec<OccRow>) -> Result<Seq<Row>, Memory>
    ensures { IfOk result (λ all. all ≡ sorted_rows rows.items) }
{
    Ok(Seq::of(as_rows(alloc, set_of_rows(rows))?))
}

fn as_rows(alloc: Global, rows: Vec<OccRow>) -> Result<Vec<Row>, AllocError>
    ensures { IfOk result (λ v. v.items ≡ map Occ rows.items) }
{
    rows.into_iter().map(|row| Row::Occ(row)).collect(alloc)
}

fn path_rows(alloc: Global, paths: Vec<Text>) -> Result<Seq<Row>, Memory>
    ensures { IfOk result (λ all. all ≡ map Path paths.items) }
{
    let rows = paths
        .into_iter()
        .map(|path| Row::Path(path))
        .collect(alloc)?;
    Ok(Seq::of(rows))
}

fn unit_rows(alloc: Global, names: Vec<FileName>) -> Result<Seq<Row>, Memory>
    ensures { IfOk result (λ all. all ≡ map UnitRow names.items) }
{
    let rows = names
        .into_iter()
        .map(|name| Row::Unit(name))
        .collect(alloc)?;
    Ok(Seq::of(rows))
}

/// Where a USR is defined; where it isn't, where it is declared.
fn defined<L: Lookups>(
    alloc: Global,
    usr: &Text,
    lookups: &L,
    bodies: &Bodies,
) -> Result<Seq<Row>, Memory>
    ensures { IfOk result (λ all. all ≡ sorted_rows (defining_rows usr.now (L.found lookups.now) bodies.now)) }
{
    let mut rows = Vec::new(alloc);
    append_defining(alloc, &mut rows, usr, lookups, bodies)?;
    sorted_rows(alloc, rows)
}

/// Where each of some USRs is defined; where it isn't, where it is declared.
fn defined_each<L: Lookups>(
    alloc: Global,
    usrs: &[Text],
    lookups: &L,
    bodies: &Bodies,
) -> Result<Seq<Row>, Memory>
    ensures { IfOk result (λ all. all ≡ defining_each usrs.now (L.found lookups.now) bodies.now) }
{
    let mut rows = Vec::new(alloc);
    for usr in usrs {
        append_defining(alloc, &mut rows, usr, lookups, bodies)?;
    }
    sorted_rows(alloc, rows)
}

/// Appends the rows that define a USR; where none does, those that declare it.
fn append_defining<L: Lookups>(
    alloc: Global,
    out: &mut Vec<OccRow>,
    usr: &Text,
    lookups: &L,
    bodies: &Bodies,
) -> Result<(), Memory>
    ensures { OnOk result (out.new.items ≡ out.old.items ++ defining_rows usr.now (L.found lookups.now) bodies.now) }
{
    let before = out.len();
    let names = lookups.providers(usr);
    append_loaded::<WithRole, L>(alloc, out, usr, Roles::DEFINITION, names, lookups, bodies)?;
    if out.len() == before {
        append_loaded::<WithRole, L>(alloc, out, usr, Roles::DECLARATION, names, lookups, bodies)?;
    }
    Ok(())
}

/// The rows of a USR that have one of the roles.
fn with_role<L: Lookups>(
    alloc: Global,
    usr: &Text,
    mask: u32,
    lookups: &L,
    bodies: &Bodies,
) -> Result<Seq<Row>, Memory>
    ensures { IfOk result (λ all. all ≡ sorted_rows (with_role usr.now mask (L.found lookups.now) bodies.now)) }
{
    let mut rows = Vec::new(alloc);
    append_loaded::<WithRole, L>(
        alloc,
        &mut rows,
        usr,
        mask,
        lookups.providers(usr),
        lookups,
        bodies,
    )?;
    sorted_rows(alloc, rows)
}

/// The rows with a relation to a USR that has one of the roles.
fn related<L: Lookups>(
    alloc: Global,
    usr: &Text,
    mask: u32,
    lookups: &L,
    bodies: &Bodies,
) -> Result<Seq<Row>, Memory>
    ensures { IfOk result (λ all. all ≡ sorted_rows (with_relation usr.now mask (L.found lookups.now) bodies.now)) }
{
    let mut rows = Vec::new(alloc);
    append_loaded::<Related, L>(
        alloc,
        &mut rows,
        usr,
        mask,
        lookups.related(usr),
        lookups,
        bodies,
    )?;
    sorted_rows(alloc, rows)
}

/// The rows of a USR where something calls it.
fn called<L: Lookups>(
    alloc: Global,
    usr: &Text,
    lookups: &L,
    bodies: &Bodies,
) -> Result<Seq<Row>, Memory>
    ensures { IfOk result (λ all. all ≡ sorted_rows (loaded_rows (is_called usr.now) ((L.found lookups.now).providers usr.now) (L.found lookups.now) bodies.now)) }
{
    let mut rows = Vec::new(alloc);
    append_loaded::<Called, L>(
        alloc,
        &mut rows,
        usr,
        0,
        lookups.providers(usr),
        lookups,
        bodies,
    )?;
    sorted_rows(alloc, rows)
}

/// What a path defines or declares.
fn declared_in<L: Lookups>(
    alloc: Global,
    path: &Text,
    lookups: &L,
    bodies: &Bodies,
) -> Result<Seq<Row>, Memory>
    ensures { IfOk result (λ all. all ≡ sorted_rows (rows_under (is_declared_in path.now) path.now ((L.found lookups.now).in_path path.now) bodies.now)) }
{
    let mut rows = Vec::new(alloc);
    append_under::<DeclaredIn>(
        alloc,
        &mut rows,
        path,
        0,
        path,
        lookups.in_path(path),
        bodies,
    )?;
    sorted_rows(alloc, rows)
}
