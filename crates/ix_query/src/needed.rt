//! Which records a query needs.
ghost use Rattle.std.specs.Prelude.{◌≡◌, ◌++◌, true, IfOk, OnOk};
ghost use Rattle.std.specs.List.{flat_map};
ghost use Rattle.ix_model.specs.Units.{Units};
ghost use Rattle.ix_answers.specs.Needs.{next_need};
ghost use Rattle.ix_lookups.specs.Found.{found_in};
ghost use Rattle.ix_lookups.specs.Loaded.{loaded_names};
ghost use Rattle.ix_needs.specs.Chosen.{needed_from, holding};
ghost use Rattle.ix_needs.specs.Premises.{is_plain};

use crate::names::matching;
use crate::question::Question;
use crate::sets::set_of_names;
use ix_lookups::{Bodies, Lookups};
use ix_types::{FileName, Memory, Query, Text};
use std::alloc::Global;

/// The least record that a query, which is no walk, needs and that isn't loaded; None exactly where none is lacking.
pub fn next_need<L: Lookups>(
    alloc: Global,
    query: &Query,
    lookups: &L,
    bodies: &Bodies,
) -> Result<Option<FileName>, Memory>
    requires { is_plain query.now ≡ true }
    ensures { IfOk result (λ name. (units : Units) → L.found lookups.now ≡ found_in units → name ≡ next_need query.now units (loaded_names bodies.now)) }
{
    let mut question = Question::open(alloc, query, lookups)?;
    Ok(question.next_need(bodies))
}

/// The records that a query needs, rising.
pub(crate) fn needed<L: Lookups>(
    alloc: Global,
    query: &Query,
    lookups: &L,
) -> Result<Vec<FileName>, Memory>
    ensures { IfOk result (λ names. names.items ≡ needed_from query.now (L.found lookups.now)) }
{
    match query {
        Query::Def { usr } => copied(alloc, lookups.providers(usr)),
        Query::Refs { usr } => copied(alloc, lookups.providers(usr)),
        Query::Occ { usr, .. } => copied(alloc, lookups.providers(usr)),
        Query::Rel { usr, .. } => copied(alloc, lookups.related(usr)),
        Query::Callers { usr } => copied(alloc, lookups.providers(usr)),
        Query::Overrides { usr } => copied(alloc, lookups.related(usr)),
        Query::Name { name } => holding(alloc, lookups.named(name), lookups),
        Query::Codegen { codegen } => holding(alloc, lookups.coded(codegen), lookups),
        Query::Pattern {
            text,
            start,
            end,
            fold,
        } => {
            let usrs = matching(alloc, text, *start, *end, *fold, lookups)?;
            holding(alloc, &usrs, lookups)
        }
        Query::Symbols { path } => copied(alloc, lookups.in_path(path)),
        Query::Mains { .. }
        | Query::Units { .. }
        | Query::Includes { .. }
        | Query::Includers { .. }
        | Query::Incoming { .. }
        | Query::Outgoing { .. }
        | Query::Supertypes { .. }
        | Query::Subtypes { .. } => Ok(Vec::new(alloc)),
    }
}

/// The names, in a list of its own.
pub(crate) fn copied(alloc: Global, names: &[FileName]) -> Result<Vec<FileName>, Memory>
    ensures { IfOk result (λ v. v.items ≡ names.now) }
{
    Ok(Vec::from_slice(alloc, names)?)
}

/// The records that hold a symbol of one of the USRs, rising.
fn holding<L: Lookups>(alloc: Global, usrs: &[Text], lookups: &L) -> Result<Vec<FileName>, Memory>
    ensures { IfOk result (λ names. names.items ≡ holding usrs.now (L.found lookups.now)) }
{
    let mut names = Vec::new(alloc);
    for usr in usrs {
        append_names(&mut names, lookups.providers(usr))?;
    }
    Ok(set_of_names(names))
}

/// Appends the names.
fn append_names(out: &mut Vec<FileName>, names: &[FileName]) -> Result<(), Memory>
    ensures { OnOk result (out.new.items ≡ out.old.items ++ names.now) }
{
    for name in names {
        out.push(*name)?;
    }
    Ok(())
}
