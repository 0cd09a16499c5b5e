//! Where edges lead to, and which records a level needs.
ghost use Rattle.std.specs.Prelude.{◌≡◌, ◌≤◌, ◌++◌, ℕ, List, if◌then◌else◌, slice_get, take, IfOk, OnOk};
ghost use Rattle.ix_types.specs.Row.{text_cmp};
ghost use Rattle.ix_model.specs.SortedSet.{add_once};
ghost use Rattle.ix_answers.specs.Lookups.{is_among};
ghost use Rattle.ix_answers.specs.Needs.{lacking_of};
ghost use Rattle.ix_answers.specs.Rising.{AreLoaded};
ghost use Rattle.ix_lookups.specs.Loaded.{loaded_names};
ghost use Rattle.ix_levels.specs.Levels.{named_for, level_names, names_while, fresh_ends};

use crate::seen::{insert, is_in};
use crate::sets::set_of_names;
use ix_answers::Walk;
use ix_lookups::{Bodies, Lookups};
use ix_types::{EdgeRow, FileName, Memory, Text};
use std::alloc::Global;
use std::collections::BTreeSet;

/// Where the edges lead to, but for the USRs that were seen.
pub(crate) fn fresh_ends(
    alloc: Global,
    seen: &BTreeSet<Text>,
    edges: &[EdgeRow],
) -> Result<BTreeSet<Text>, Memory>
    ensures { IfOk result (λ ends. ends.keys ≡ fresh_ends seen.now.keys edges.now) }
{
    let mut ends = BTreeSet::new(alloc);
    for edge in edges {
        add_fresh(&mut ends, seen, &edge.to)?;
    }
    Ok(ends)
}

/// Puts a USR into a set, unless it was seen.
fn add_fresh(ends: &mut BTreeSet<Text>, seen: &BTreeSet<Text>, usr: &Text) -> Result<(), Memory>
    ensures { OnOk result (ends.new.keys ≡ (if is_among seen.now.keys usr.now then ends.old.keys else add_once text_cmp usr.now ends.old.keys)) }
{
    if is_in(seen, usr) {
        return Ok(());
    }
    insert(ends, usr.clone()?)
}

/// The records that a level needs, rising, where the walk goes from so many more levels.
pub(crate) fn names_while<L: Lookups>(
    alloc: Global,
    left: u32,
    walk: Walk,
    level: &BTreeSet<Text>,
    lookups: &L,
) -> Result<Vec<FileName>, Memory>
    ensures { IfOk result (λ names. names.items ≡ names_while left walk level.now.keys (L.found lookups.now)) }
{
    if left == 0 {
        return Ok(Vec::new(alloc));
    }
    level_names(alloc, walk, level, lookups)
}

/// The records in which a level may have edges, rising.
fn level_names<L: Lookups>(
    alloc: Global,
    walk: Walk,
    level: &BTreeSet<Text>,
    lookups: &L,
) -> Result<Vec<FileName>, Memory>
    ensures { IfOk result (λ names. names.items ≡ level_names walk level.now.keys (L.found lookups.now)) }
{
    let mut names = Vec::new(alloc);
    for usr in level {
        append_named(&mut names, walk, usr, lookups)?;
    }
    Ok(set_of_names(names))
}

/// Appends the records in which a USR may have edges.
fn append_named<L: Lookups>(
    out: &mut Vec<FileName>,
    walk: Walk,
    usr: &Text,
    lookups: &L,
) -> Result<(), Memory>
    ensures { OnOk result (out.new.items ≡ out.old.items ++ named_for walk (L.found lookups.now) usr.now) }
{
    match walk {
        Walk::Incoming | Walk::Subtypes => append_names(out, lookups.providers(usr)),
        Walk::Outgoing | Walk::Supertypes => append_names(out, lookups.related(usr)),
    }
}

/// Appends the names.
fn append_names(out: &mut Vec<FileName>, names: &[FileName]) -> Result<(), Memory>
    ensures { OnOk result (out.new.items ≡ out.old.items ++ names.now) }
{
    for name in names {
        out.push(*name)?;
    }
    Ok(())
}

/// The place, from this one on, of the first name that isn't loaded; past the last where there is none.
pub(crate) fn first_lacking(needed: &[FileName], from: usize, bodies: &Bodies) -> usize
    ensures lacking { AreLoaded (loaded_names bodies.now) (take from needed.now) → slice_get needed.now result ≡ lacking_of (loaded_names bodies.now) needed.now }
    ensures passed { AreLoaded (loaded_names bodies.now) (take from needed.now) → AreLoaded (loaded_names bodies.now) (take result needed.now) }
    ensures forward { from ≤ result }
{
    let mut place = from;
    while place < needed.len() {
        if !is_loaded(&needed[place], bodies) {
            return place;
        }
        place += 1;
    }
    place
}

/// Whether a body is loaded under the name.
fn is_loaded(name: &FileName, bodies: &Bodies) -> bool
    ensures { result ≡ is_among (loaded_names bodies.now) name.now }
{
    bodies.get(name).is_some()
}
