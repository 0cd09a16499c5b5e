//! The USRs of the names that match a pattern, and paths from units.
ghost use Rattle.std.specs.Prelude.{◌≡◌, ◌++◌, [], ◌∷◌, map, filter, if◌then◌else◌, IfOk, OnOk};
ghost use Rattle.std.specs.Option.{option_copied};
ghost use Rattle.std.specs.List.{flat_map};
ghost use Rattle.std.specs.Str.{bytes_eq};
ghost use Rattle.ix_types.specs.Row.{text_cmp};
ghost use Rattle.ix_model.specs.SortedSet.{sorted_set};
ghost use Rattle.ix_answers.specs.Pattern.{matches};
ghost use Rattle.ix_needs.specs.Chosen.{matching, main_of, mains_of, includes_of, included_by, includers_of};

use crate::pattern::{folded, has_text};
use crate::sets::set_of_texts;
use ix_lookups::Lookups;
use ix_types::{FileName, Memory, Text};
use ix_unit::{Include, UnitValue};
use std::alloc::Global;

/// The USRs of the symbols whose name matches a pattern.
pub(crate) fn matching<L: Lookups>(
    alloc: Global,
    text: &Text,
    start: bool,
    end: bool,
    fold: bool,
    lookups: &L,
) -> Result<Vec<Text>, Memory>
    ensures { IfOk result (λ usrs. usrs.items ≡ matching text.now start end fold (L.found lookups.now)) }
{
    let wanted = folded(alloc, fold, text)?;
    let mut buffer = Vec::new(alloc);
    let mut usrs = Vec::new(alloc);
    for place in 0..u64::MAX {
        match lookups.name_at(place) {
            Some(name) => {
                let is_match = has_text(&mut buffer, start, end, fold, &wanted, name)?;
                append_named(&mut usrs, is_match, name, lookups)?;
            }
            None => return Ok(set_of_texts(usrs)),
        }
    }
    Err(Memory)
}

/// Appends the USRs that symbols of the name have, if the name matches.
fn append_named<L: Lookups>(
    out: &mut Vec<Text>,
    is_match: bool,
    name: &Text,
    lookups: &L,
) -> Result<(), Memory>
    ensures { OnOk result (out.new.items ≡ out.old.items ++ (if is_match then (L.found lookups.now).named name.now else [])) }
{
    if is_match {
        append_texts(out, lookups.named(name))
    } else {
        Ok(())
    }
}

/// Appends the texts.
fn append_texts(out: &mut Vec<Text>, texts: &[Text]) -> Result<(), Memory>
    ensures { OnOk result (out.new.items ≡ out.old.items ++ texts.now) }
{
    for text in texts {
        out.push(text.clone()?)?;
    }
    Ok(())
}

/// The main files of the units that list the path.
pub(crate) fn mains<L: Lookups>(
    alloc: Global,
    path: &Text,
    lookups: &L,
) -> Result<Vec<Text>, Memory>
    ensures { IfOk result (λ files. files.items ≡ mains_of path.now (L.found lookups.now)) }
{
    let mut files = Vec::new(alloc);
    for name in lookups.listing(path) {
        append_main(&mut files, lookups.unit(name))?;
    }
    Ok(set_of_texts(files))
}

/// Appends the main file of a unit, if it has one.
fn append_main(out: &mut Vec<Text>, unit: Option<&UnitValue>) -> Result<(), Memory>
    ensures { OnOk result (out.new.items ≡ out.old.items ++ main_of (option_copied unit.entry)) }
{
    match unit {
        Some(unit) => {
            if unit.main_file.bytes().is_empty() {
                return Ok(());
            }
            out.push(unit.main_file.clone()?)?;
            Ok(())
        }
        None => Ok(()),
    }
}

/// What the path includes.
pub(crate) fn included<L: Lookups>(
    alloc: Global,
    path: &Text,
    lookups: &L,
) -> Result<Vec<Text>, Memory>
    ensures { IfOk result (λ all. all.items ≡ included_by path.now (L.found lookups.now)) }
{
    let mut all = Vec::new(alloc);
    for place in 0..u64::MAX {
        match lookups.unit_at(place) {
            Some((_, unit)) => append_included(&mut all, path, unit.includes.as_slice())?,
            None => return Ok(set_of_texts(all)),
        }
    }
    Err(Memory)
}

/// Appends what the path includes.
fn append_included(out: &mut Vec<Text>, path: &Text, includes: &[Include]) -> Result<(), Memory>
    ensures { OnOk result (out.new.items ≡ out.old.items ++ map (λ i. i.to) (filter (λ i. bytes_eq i.from path.now) includes.now)) }
{
    for include in includes {
        if include.from == *path {
            out.push(include.to.clone()?)?;
        }
    }
    Ok(())
}

/// What includes the path.
pub(crate) fn includers<L: Lookups>(
    alloc: Global,
    path: &Text,
    lookups: &L,
) -> Result<Vec<Text>, Memory>
    ensures { IfOk result (λ all. all.items ≡ includers_of path.now (L.found lookups.now)) }
{
    let mut all = Vec::new(alloc);
    for place in 0..u64::MAX {
        match lookups.unit_at(place) {
            Some((_, unit)) => append_includers(&mut all, path, unit.includes.as_slice())?,
            None => return Ok(set_of_texts(all)),
        }
    }
    Err(Memory)
}

/// Appends what includes the path.
fn append_includers(out: &mut Vec<Text>, path: &Text, includes: &[Include]) -> Result<(), Memory>
    ensures { OnOk result (out.new.items ≡ out.old.items ++ map (λ i. i.from) (filter (λ i. bytes_eq i.to path.now) includes.now)) }
{
    for include in includes {
        if include.to == *path {
            out.push(include.from.clone()?)?;
        }
    }
    Ok(())
}
