//! What units and records give to look-ups, and an index after some came and some went.
ghost use Rattle.std.specs.Prelude.{◌≡◌, ◌++◌, ◌∷◌, ◌==◌, [], not, length, map, filter, IfOk, OnOk};
ghost use Rattle.std.specs.List.{flat_map};
ghost use Rattle.ix_outline.specs.Balance.{Balances};
ghost use Rattle.ix_outline.specs.Facts.{provided, relating, naming, coding, placing, pathing, listing_facts};
ghost use Rattle.ix_outline.specs.Moving.{Named};
ghost use Rattle.ix_tables.specs.Items.{item_of};
ghost use Rattle.ix_tables.specs.Steps.{step_of, IsIndexOf};

use crate::mover::{Item as Moved, Mover};
use ix_index::{Index, Item, Step};
use ix_outline::{Outline, OutlineSymbol};
use ix_types::{FileName, Memory, Text};
use ix_unit::{FileDep, RecordDep, UnitValue};
use std::alloc::Global;

/// What items by name give to a look-up: values under keys.
pub(crate) trait Gives<T, K, V> {
    ghost use Rattle.std.specs.Prelude.{ℕ, List};

    /// The values under keys that an item gives.
    ghost facts: { List ℕ × T → List (K × V) };

    /// Appends a step for each of them.
    fn append(
        steps: &mut Vec<Step<K, V>>,
        name: &FileName,
        value: &T,
        gains: bool,
    ) -> Result<(), Memory>
        ensures { OnOk result (steps.new.items ≡ steps.old.items ++ map (step_of gains) (facts (name.now, value.now))) };
}

/// Appends a step for each fact of some items.
fn append_all<T: Drop, K: Item, V: Item, G: Gives<T, K, V>>(
    steps: &mut Vec<Step<K, V>>,
    items: &[Moved<T>],
    gains: bool,
) -> Result<(), Memory>
    ensures { OnOk result (steps.new.items ≡ steps.old.items ++ flat_map (λ item. map (step_of gains) (G.facts (item_of item))) items.now) }
{
    for item in items {
        G::append(steps, &item.name, &*item.value, gains)?;
    }
    Ok(())
}

/// The index after some items came and some went: from what the items before gave to what those now give.
pub(crate) fn revised<T: Drop, K: Item, V: Item, G: Gives<T, K, V>>(
    alloc: Global,
    index: &Index<K, V, 64>,
    mover: &Mover<T>,
) -> Result<Index<K, V, 64>, Memory>
    ensures { IfOk result (λ after. (before : Named T) → Balances before mover.now.entries mover.now.gained mover.now.lost
        → IsIndexOf K.cmp V.cmp index.now (flat_map G.facts before) → IsIndexOf K.cmp V.cmp after (flat_map G.facts mover.now.entries)) }
{
    let mut steps = Vec::new(alloc);
    append_all::<T, K, V, G>(&mut steps, mover.gained(), true)?;
    append_all::<T, K, V, G>(&mut steps, mover.lost(), false)?;
    let after = index.with_steps(alloc, steps)?;
    Ok(after)
}

/// A record's name under the USR of each of its symbols.
pub(crate) struct Providing;

impl Gives<Outline, Text, FileName> for Providing {
    ghost facts = { provided };

    fn append(
        steps: &mut Vec<Step<Text, FileName>>,
        name: &FileName,
        value: &Outline,
        gains: bool,
    ) -> Result<(), Memory> {
        append_provided(steps, name, value.symbols.as_slice(), gains)
    }
}

fn append_provided(
    steps: &mut Vec<Step<Text, FileName>>,
    name: &FileName,
    symbols: &[OutlineSymbol],
    gains: bool,
) -> Result<(), Memory>
    ensures { OnOk result (steps.new.items ≡ steps.old.items ++ map (λ s. step_of gains (s.usr, name.now)) symbols.now) }
{
    for symbol in symbols {
        steps.push(Step {
            key: symbol.usr.clone()?,
            value: *name,
            gains,
        })?;
    }
    Ok(())
}

/// A record's name under each USR that its relations lead to.
pub(crate) struct Relating;

impl Gives<Outline, Text, FileName> for Relating {
    ghost facts = { relating };

    fn append(
        steps: &mut Vec<Step<Text, FileName>>,
        name: &FileName,
        value: &Outline,
        gains: bool,
    ) -> Result<(), Memory> {
        append_relating(steps, name, value.related.as_slice(), gains)
    }
}

fn append_relating(
    steps: &mut Vec<Step<Text, FileName>>,
    name: &FileName,
    usrs: &[Text],
    gains: bool,
) -> Result<(), Memory>
    ensures { OnOk result (steps.new.items ≡ steps.old.items ++ map (λ usr. step_of gains (usr, name.now)) usrs.now) }
{
    for usr in usrs {
        steps.push(Step {
            key: usr.clone()?,
            value: *name,
            gains,
        })?;
    }
    Ok(())
}

/// The USR of each symbol under its name.
pub(crate) struct Naming;

impl Gives<Outline, Text, Text> for Naming {
    ghost facts = { naming };

    fn append(
        steps: &mut Vec<Step<Text, Text>>,
        _name: &FileName,
        value: &Outline,
        gains: bool,
    ) -> Result<(), Memory> {
        append_naming(steps, value.symbols.as_slice(), gains)
    }
}

fn append_naming(
    steps: &mut Vec<Step<Text, Text>>,
    symbols: &[OutlineSymbol],
    gains: bool,
) -> Result<(), Memory>
    ensures { OnOk result (steps.new.items ≡ steps.old.items ++ map (λ s. step_of gains (s.name, s.usr)) symbols.now) }
{
    for symbol in symbols {
        steps.push(Step {
            key: symbol.name.clone()?,
            value: symbol.usr.clone()?,
            gains,
        })?;
    }
    Ok(())
}

/// The USR of each symbol under its code generation name, where it has one.
pub(crate) struct Coding;

impl Gives<Outline, Text, Text> for Coding {
    ghost facts = { coding };

    fn append(
        steps: &mut Vec<Step<Text, Text>>,
        _name: &FileName,
        value: &Outline,
        gains: bool,
    ) -> Result<(), Memory> {
        append_coding(steps, value.symbols.as_slice(), gains)
    }
}

fn append_coding(
    steps: &mut Vec<Step<Text, Text>>,
    symbols: &[OutlineSymbol],
    gains: bool,
) -> Result<(), Memory>
    ensures { OnOk result (steps.new.items ≡ steps.old.items ++ map (λ s. step_of gains (s.codegen, s.usr)) (filter (λ s. not (length s.codegen == 0)) symbols.now)) }
{
    for symbol in symbols {
        append_code(steps, symbol, gains)?;
    }
    Ok(())
}

fn append_code(
    steps: &mut Vec<Step<Text, Text>>,
    symbol: &OutlineSymbol,
    gains: bool,
) -> Result<(), Memory>
    ensures { OnOk result (steps.new.items ≡ steps.old.items ++ map (λ s. step_of gains (s.codegen, s.usr)) (filter (λ s. not (length s.codegen == 0)) (symbol.now ∷ []))) }
{
    if symbol.codegen.bytes().is_empty() {
        return Ok(());
    }
    steps.push(Step {
        key: symbol.codegen.clone()?,
        value: symbol.usr.clone()?,
        gains,
    })?;
    Ok(())
}

/// The name of each record under the path where a unit lists it.
pub(crate) struct Placing;

impl Gives<UnitValue, Text, FileName> for Placing {
    ghost facts = { placing };

    fn append(
        steps: &mut Vec<Step<Text, FileName>>,
        _name: &FileName,
        value: &UnitValue,
        gains: bool,
    ) -> Result<(), Memory> {
        append_placing(steps, value.records.as_slice(), gains)
    }
}

fn append_placing(
    steps: &mut Vec<Step<Text, FileName>>,
    deps: &[RecordDep],
    gains: bool,
) -> Result<(), Memory>
    ensures { OnOk result (steps.new.items ≡ steps.old.items ++ map (λ dep. step_of gains (dep.path, dep.name)) deps.now) }
{
    for dep in deps {
        steps.push(Step {
            key: dep.path.clone()?,
            value: dep.name,
            gains,
        })?;
    }
    Ok(())
}

/// The path of each record under its name.
pub(crate) struct Pathing;

impl Gives<UnitValue, FileName, Text> for Pathing {
    ghost facts = { pathing };

    fn append(
        steps: &mut Vec<Step<FileName, Text>>,
        _name: &FileName,
        value: &UnitValue,
        gains: bool,
    ) -> Result<(), Memory> {
        append_pathing(steps, value.records.as_slice(), gains)
    }
}

fn append_pathing(
    steps: &mut Vec<Step<FileName, Text>>,
    deps: &[RecordDep],
    gains: bool,
) -> Result<(), Memory>
    ensures { OnOk result (steps.new.items ≡ steps.old.items ++ map (λ dep. step_of gains (dep.name, dep.path)) deps.now) }
{
    for dep in deps {
        steps.push(Step {
            key: dep.name,
            value: dep.path.clone()?,
            gains,
        })?;
    }
    Ok(())
}

/// A unit's name under the path of each of its records and files.
pub(crate) struct Listing;

impl Gives<UnitValue, Text, FileName> for Listing {
    ghost facts = { listing_facts };

    fn append(
        steps: &mut Vec<Step<Text, FileName>>,
        name: &FileName,
        value: &UnitValue,
        gains: bool,
    ) -> Result<(), Memory> {
        append_record_paths(steps, name, value.records.as_slice(), gains)?;
        append_file_paths(steps, name, value.files.as_slice(), gains)
    }
}

fn append_record_paths(
    steps: &mut Vec<Step<Text, FileName>>,
    name: &FileName,
    deps: &[RecordDep],
    gains: bool,
) -> Result<(), Memory>
    ensures { OnOk result (steps.new.items ≡ steps.old.items ++ map (λ dep. step_of gains (dep.path, name.now)) deps.now) }
{
    for dep in deps {
        steps.push(Step {
            key: dep.path.clone()?,
            value: *name,
            gains,
        })?;
    }
    Ok(())
}

fn append_file_paths(
    steps: &mut Vec<Step<Text, FileName>>,
    name: &FileName,
    files: &[FileDep],
    gains: bool,
) -> Result<(), Memory>
    ensures { OnOk result (steps.new.items ≡ steps.old.items ++ map (λ file. step_of gains (file.path, name.now)) files.now) }
{
    for file in files {
        steps.push(Step {
            key: file.path.clone()?,
            value: *name,
            gains,
        })?;
    }
    Ok(())
}
