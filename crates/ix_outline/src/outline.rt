//! What tables remember of a record.
ghost use Rattle.std.specs.Prelude.{◌≡◌, ◌++◌, [], map, fold, IfOk, OnOk};
ghost use Rattle.std.specs.List.{flat_map, filter_map};
ghost use Rattle.ix_types.specs.Row.{text_cmp};
ghost use Rattle.ix_model.specs.SortedSet.{add_once, sorted_set};
ghost use Rattle.ix_outline.specs.Outline.{outline_symbol, related_usr, related_usrs, outline_of};

use ix_model::append_some;
use ix_record::{Occurrence, RecordValue, Relation, Symbol};
use ix_types::{Memory, Seq, Text};
use std::alloc::Global;
use std::collections::BTreeSet;

/// What names a symbol.
#[derive(Debug, Drop, PartialEq, Eq)]
pub struct OutlineSymbol {
    pub usr: Text,
    pub name: Text,
    pub codegen: Text,
}

/// The symbols of a record in their order, and the USRs that its relations lead to, rising.
#[derive(Debug, Drop, PartialEq, Eq)]
pub struct Outline {
    pub symbols: Seq<OutlineSymbol>,
    pub related: Seq<Text>,
}

impl Outline {
    /// The outline of a record.
    pub fn of(alloc: Global, value: &RecordValue) -> Result<Outline, Memory>
        ensures { IfOk result (λ outline. outline ≡ outline_of value.now) }
    {
        let symbols = symbols_of(alloc, value.symbols.as_slice())?;
        let related = rising(alloc, related_usrs(alloc, value)?)?;
        Ok(Outline {
            symbols: Seq::of(symbols),
            related: Seq::of(related),
        })
    }
}

/// What names each of some symbols.
fn symbols_of(alloc: Global, symbols: &[Symbol]) -> Result<Vec<OutlineSymbol>, Memory>
    ensures { IfOk result (λ all. all.items ≡ map outline_symbol symbols.now) }
{
    let mut all = Vec::with_capacity(alloc, symbols.len())?;
    for symbol in symbols {
        all.push(OutlineSymbol {
            usr: symbol.usr.clone()?,
            name: symbol.name.clone()?,
            codegen: symbol.codegen.clone()?,
        })?;
    }
    Ok(all)
}

/// The USRs that the relations of a record lead to, in their order.
fn related_usrs(alloc: Global, value: &RecordValue) -> Result<Vec<Text>, Memory>
    ensures { IfOk result (λ usrs. usrs.items ≡ related_usrs value.now) }
{
    let mut usrs = Vec::new(alloc);
    append_occurrences(
        &mut usrs,
        value.symbols.as_slice(),
        value.occurrences.as_slice(),
    )?;
    Ok(usrs)
}

/// Appends the USRs that the relations of some occurrences lead to.
fn append_occurrences(
    usrs: &mut Vec<Text>,
    symbols: &[Symbol],
    occurrences: &[Occurrence],
) -> Result<(), Memory>
    ensures { OnOk result (usrs.new.items ≡ usrs.old.items ++ flat_map (λ o. filter_map (related_usr symbols.now) o.relations) occurrences.now) }
{
    for occurrence in occurrences {
        append_relations(usrs, symbols, occurrence.relations.as_slice())?;
    }
    Ok(())
}

/// Appends the USRs that some relations lead to.
fn append_relations(
    usrs: &mut Vec<Text>,
    symbols: &[Symbol],
    relations: &[Relation],
) -> Result<(), Memory>
    ensures { OnOk result (usrs.new.items ≡ usrs.old.items ++ filter_map (related_usr symbols.now) relations.now) }
{
    for relation in relations {
        append_some(usrs, related_usr(symbols, relation)?)?;
    }
    Ok(())
}

/// The USR that a relation leads to; None where its symbol isn't in the list.
fn related_usr(symbols: &[Symbol], relation: &Relation) -> Result<Option<Text>, Memory>
    ensures { IfOk result (λ usr. usr ≡ related_usr symbols.now relation.now) }
{
    match symbols.get(relation.symbol as usize) {
        Some(symbol) => Ok(Some(symbol.usr.clone()?)),
        None => Ok(None),
    }
}

/// The texts, sorted and without repeats.
fn rising(alloc: Global, texts: Vec<Text>) -> Result<Vec<Text>, Memory>
    ensures { IfOk result (λ set. set.items ≡ sorted_set text_cmp texts.items) }
{
    let mut set = BTreeSet::new(alloc);
    for text in texts {
        match set.insert(text) {
            Ok(_) => {}
            Err(_) => return Err(Memory),
        }
    }
    Ok(set.into_iter().collect(alloc)?)
}
