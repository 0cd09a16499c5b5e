//! Which records a query needs, and which of them to load next.
ghost use Rattle.std.specs.Prelude.{◌≡◌, ◌++◌, not, find, IfOk};
ghost use Rattle.std.specs.Option.{option_copied};
ghost use Rattle.ix_model.specs.Rows.{rows};
ghost use Rattle.ix_answers.specs.Lookups.{is_among, holders};
ghost use Rattle.ix_answers.specs.Answers.{matched};
ghost use Rattle.ix_answers.specs.Walks.{reached};
ghost use Rattle.ix_answers.specs.Needs.{needs_of, level_needs, walk_needs, need_of, next_need, lacking_of};

use crate::answers::matched;
use crate::lookups::{coded, holders, in_path, named, providers, related, related_to};
use crate::walks::{Walk, append_all, edges_from, next_level, start_level};
use ix_model::{StoredUnit, rows};
use ix_types::{FileName, Memory, Query, Seq, Text};
use std::alloc::Global;
use std::collections::BTreeMap;

/// The first needed record that isn't loaded; None where none is lacking. For a walk it is the least one of the first level that
/// lacks one.
pub fn next_need(
    alloc: Global,
    query: &Query,
    units: &BTreeMap<FileName, StoredUnit>,
    loaded: &[FileName],
) -> Result<Option<FileName>, Memory>
    ensures { IfOk result (λ name. name ≡ next_need query.now units.now.entries loaded.now) }
{
    let needed = need_of(alloc, query, units)?;
    Ok(first_lacking(needed.as_slice(), loaded))
}

/// The first name that isn't loaded.
fn first_lacking(needed: &[FileName], loaded: &[FileName]) -> Option<FileName>
    ensures { result ≡ lacking_of loaded.now needed.now }
{
    needed.iter().copied().find(|name| !loaded.contains(name))
}

/// The records that the query needs, in the order in which they are loaded: rising, for a walk level after level.
pub fn need_of(
    alloc: Global,
    query: &Query,
    units: &BTreeMap<FileName, StoredUnit>,
) -> Result<Seq<FileName>, Memory>
    ensures { IfOk result (λ names. names ≡ need_of query.now units.now.entries) }
{
    match query {
        Query::Def { usr } => providers(alloc, usr, units),
        Query::Refs { usr } => providers(alloc, usr, units),
        Query::Callers { usr } => providers(alloc, usr, units),
        Query::Occ { usr, .. } => providers(alloc, usr, units),
        Query::Rel { usr, .. } => related(alloc, usr, units),
        Query::Overrides { usr } => related(alloc, usr, units),
        Query::Name { name } => holders_of(alloc, named(alloc, name, units)?, units),
        Query::Pattern {
            text,
            start,
            end,
            fold,
        } => { holders_of_matched(alloc, text, *start, *end, *fold, units) }
        Query::Symbols { path } => in_path(alloc, path, units),
        Query::Mains { .. }
        | Query::Units { .. }
        | Query::Includes { .. }
        | Query::Includers { .. } => { Ok(Seq::of(Vec::new(alloc))) }
        Query::Incoming { usr, depth } => walk_needs(alloc, Walk::Incoming, usr, units, *depth),
        Query::Outgoing { usr, depth } => walk_needs(alloc, Walk::Outgoing, usr, units, *depth),
        Query::Supertypes { usr, depth } => walk_needs(alloc, Walk::Supertypes, usr, units, *depth),
        Query::Subtypes { usr, depth } => walk_needs(alloc, Walk::Subtypes, usr, units, *depth),
        Query::Codegen { codegen } => holders_of(alloc, coded(alloc, codegen, units)?, units),
    }
}

/// The records that hold a symbol of a USR that a matching name has.
fn holders_of_matched(
    alloc: Global,
    text: &Text,
    start: bool,
    end: bool,
    fold: bool,
    units: &BTreeMap<FileName, StoredUnit>,
) -> Result<Seq<FileName>, Memory>
    ensures { IfOk result (λ names. names ≡ holders (matched text.now start end fold units.now.entries) units.now.entries) }
{
    holders_of(alloc, matched(alloc, text, start, end, fold, units)?, units)
}

/// The records that hold a symbol of one of the USRs.
fn holders_of(
    alloc: Global,
    usrs: Seq<Text>,
    units: &BTreeMap<FileName, StoredUnit>,
) -> Result<Seq<FileName>, Memory>
    ensures { IfOk result (λ names. names ≡ holders usrs units.now.entries) }
{
    holders(alloc, usrs.as_slice(), units)
}

/// The records that the first levels of a walk need, level after level.
fn walk_needs(
    alloc: Global,
    walk: Walk,
    usr: &Text,
    units: &BTreeMap<FileName, StoredUnit>,
    depth: u32,
) -> Result<Seq<FileName>, Memory>
    ensures { IfOk result (λ names. names ≡ walk_needs walk usr.now units.now.entries depth) }
{
    let all = rows(alloc, units)?;
    let mut earlier = Vec::new(alloc);
    let mut level = start_level(alloc, usr)?;
    let mut needed = Vec::new(alloc);
    for n in 0..depth {
        append_all(
            &mut needed,
            needs_of(alloc, walk, &level, units)?.into_vec(),
        )?;
        let found = edges_from(alloc, walk, n + 1, &level, &all)?;
        let next = next_level(alloc, &earlier, &level, &found)?;
        append_all(&mut earlier, level)?;
        level = next;
    }
    Ok(Seq::of(needed))
}

/// The records that have the edges of a level.
fn needs_of(
    alloc: Global,
    walk: Walk,
    level: &[Text],
    units: &BTreeMap<FileName, StoredUnit>,
) -> Result<Seq<FileName>, Memory>
    ensures { IfOk result (λ names. names ≡ needs_of walk level.now units.now.entries) }
{
    match walk {
        Walk::Incoming | Walk::Subtypes => holders(alloc, level, units),
        Walk::Outgoing | Walk::Supertypes => related_to(alloc, level, units),
    }
}
