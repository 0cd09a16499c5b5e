//! The ten look-ups, from scratch: each filters what all units say.
ghost use Rattle.std.specs.Prelude.{◌≡◌, map, filter, IfOk};
ghost use Rattle.std.specs.Option.{option_copied, option_map};
ghost use Rattle.std.specs.Map.Iter.{deref_pair};
ghost use Rattle.std.specs.Str.{bytes_eq};
ghost use Rattle.ix_types.specs.Row.{text_cmp};
ghost use Rattle.ix_model.specs.SortedSet.{sorted_set};
ghost use Rattle.ix_model.specs.Units.{unit_named};
ghost use Rattle.ix_answers.specs.Lookups.{is_among, is_coded, providers, related, named, names, coded, in_path, paths, listing, name_at, unit_at, holders, related_to};

use crate::facts::{held, listed, record_deps, related_symbols};
use ix_model::{OwnOrder, StoredUnit, sorted_set};
use ix_types::{FileName, Memory, Seq, Text};
use std::alloc::Global;
use std::collections::BTreeMap;

/// The names, sorted and without repeats.
pub(crate) fn set_of_names(alloc: Global, names: Vec<FileName>) -> Result<Seq<FileName>, Memory>
    ensures { IfOk result (λ set. set ≡ sorted_set text_cmp names.items) }
{
    Ok(Seq::of(sorted_set(alloc, names, &OwnOrder)?))
}

/// The texts, sorted and without repeats.
pub(crate) fn set_of_texts(alloc: Global, texts: Vec<Text>) -> Result<Seq<Text>, Memory>
    ensures { IfOk result (λ set. set ≡ sorted_set text_cmp texts.items) }
{
    Ok(Seq::of(sorted_set(alloc, texts, &OwnOrder)?))
}

/// Whether a text is one of some texts.
pub(crate) fn is_among(texts: &[Text], text: &Text) -> bool
    ensures { result ≡ is_among texts.now text.now }
{
    texts.contains(text)
}

/// The records that hold a symbol of the USR.
pub fn providers(
    alloc: Global,
    usr: &Text,
    units: &BTreeMap<FileName, StoredUnit>,
) -> Result<Seq<FileName>, Memory>
    ensures { IfOk result (λ names. names ≡ providers usr.now units.now.entries) }
{
    let names = held(alloc, units)?
        .into_iter()
        .filter(|symbol| symbol.usr == *usr)
        .map(|symbol| symbol.holder)
        .collect(alloc)?;
    set_of_names(alloc, names)
}

/// The records that hold a symbol of one of the USRs.
pub fn holders(
    alloc: Global,
    usrs: &[Text],
    units: &BTreeMap<FileName, StoredUnit>,
) -> Result<Seq<FileName>, Memory>
    ensures { IfOk result (λ names. names ≡ holders usrs.now units.now.entries) }
{
    let names = held(alloc, units)?
        .into_iter()
        .filter(|symbol| is_among(usrs, &symbol.usr))
        .map(|symbol| symbol.holder)
        .collect(alloc)?;
    set_of_names(alloc, names)
}

/// The records with a relation to the USR.
pub fn related(
    alloc: Global,
    usr: &Text,
    units: &BTreeMap<FileName, StoredUnit>,
) -> Result<Seq<FileName>, Memory>
    ensures { IfOk result (λ names. names ≡ related usr.now units.now.entries) }
{
    let names = related_symbols(alloc, units)?
        .into_iter()
        .filter(|symbol| symbol.usr == *usr)
        .map(|symbol| symbol.holder)
        .collect(alloc)?;
    set_of_names(alloc, names)
}

/// The records with a relation to one of the USRs.
pub fn related_to(
    alloc: Global,
    usrs: &[Text],
    units: &BTreeMap<FileName, StoredUnit>,
) -> Result<Seq<FileName>, Memory>
    ensures { IfOk result (λ names. names ≡ related_to usrs.now units.now.entries) }
{
    let names = related_symbols(alloc, units)?
        .into_iter()
        .filter(|symbol| is_among(usrs, &symbol.usr))
        .map(|symbol| symbol.holder)
        .collect(alloc)?;
    set_of_names(alloc, names)
}

/// The USRs that symbols of the name have.
pub fn named(
    alloc: Global,
    name: &Text,
    units: &BTreeMap<FileName, StoredUnit>,
) -> Result<Seq<Text>, Memory>
    ensures { IfOk result (λ usrs. usrs ≡ named name.now units.now.entries) }
{
    let usrs = held(alloc, units)?
        .into_iter()
        .filter(|symbol| symbol.name == *name)
        .map(|symbol| symbol.usr)
        .collect(alloc)?;
    set_of_texts(alloc, usrs)
}

/// The names of symbols.
pub fn names(alloc: Global, units: &BTreeMap<FileName, StoredUnit>) -> Result<Seq<Text>, Memory>
    ensures { IfOk result (λ all. all ≡ names units.now.entries) }
{
    let all = held(alloc, units)?
        .into_iter()
        .map(|symbol| symbol.name)
        .collect(alloc)?;
    set_of_texts(alloc, all)
}

/// The USRs that symbols of the code generation name have. An empty name has none.
pub fn coded(
    alloc: Global,
    codegen: &Text,
    units: &BTreeMap<FileName, StoredUnit>,
) -> Result<Seq<Text>, Memory>
    ensures { IfOk result (λ usrs. usrs ≡ coded codegen.now units.now.entries) }
{
    let usrs = held(alloc, units)?
        .into_iter()
        .filter(|symbol| symbol.codegen == *codegen && !symbol.codegen.bytes().is_empty())
        .map(|symbol| symbol.usr)
        .collect(alloc)?;
    set_of_texts(alloc, usrs)
}

/// The records that are listed under the path.
pub fn in_path(
    alloc: Global,
    path: &Text,
    units: &BTreeMap<FileName, StoredUnit>,
) -> Result<Seq<FileName>, Memory>
    ensures { IfOk result (λ names. names ≡ in_path path.now units.now.entries) }
{
    let names = record_deps(alloc, units)?
        .into_iter()
        .filter(|dep| dep.path == *path)
        .map(|dep| dep.name)
        .collect(alloc)?;
    set_of_names(alloc, names)
}

/// The paths under which the record is listed.
pub fn paths(
    alloc: Global,
    name: &FileName,
    units: &BTreeMap<FileName, StoredUnit>,
) -> Result<Seq<Text>, Memory>
    ensures { IfOk result (λ all. all ≡ paths name.now units.now.entries) }
{
    let all = record_deps(alloc, units)?
        .into_iter()
        .filter(|dep| dep.name == *name)
        .map(|dep| dep.path)
        .collect(alloc)?;
    set_of_texts(alloc, all)
}

/// The units that list the path, as a record's or a file's.
pub fn listing(
    alloc: Global,
    path: &Text,
    units: &BTreeMap<FileName, StoredUnit>,
) -> Result<Seq<FileName>, Memory>
    ensures { IfOk result (λ names. names ≡ listing path.now units.now.entries) }
{
    let names = listed(alloc, units)?
        .into_iter()
        .filter(|l| l.path == *path)
        .map(|l| l.unit)
        .collect(alloc)?;
    set_of_names(alloc, names)
}

/// The name at a place; None past the last.
pub fn name_at(
    alloc: Global,
    place: u64,
    units: &BTreeMap<FileName, StoredUnit>,
) -> Result<Option<Text>, Memory>
    ensures { IfOk result (λ name. name ≡ name_at place units.now.entries) }
{
    match names(alloc, units)?.as_slice().get(place as usize) {
        Some(name) => Ok(Some(name.clone()?)),
        None => Ok(None),
    }
}

/// The unit at a place, in the order of names, with its name; None past the last.
pub fn unit_at(
    place: u64,
    units: &BTreeMap<FileName, StoredUnit>,
) -> Option<(&FileName, &StoredUnit)>
    ensures { option_map deref_pair result ≡ unit_at place units.now.entries }
{
    units.iter().nth(place as usize)
}

/// The unit of a name; None where no unit has it.
pub fn unit<'a>(
    name: &FileName,
    units: &'a BTreeMap<FileName, StoredUnit>,
) -> Option<&'a StoredUnit>
    ensures { option_copied result ≡ unit_named name.now units.now.entries }
{
    units.get(name)
}
