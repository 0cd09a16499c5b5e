//! Writes a record, field by field.
ghost use Rattle.std.specs.Prelude.{◌≡◌, ◌<◌, ◌^◌, ◌++◌, length, All, OnOk, IfOk};
ghost use Rattle.std.specs.List.{flat_map};
ghost use Rattle.ix_record.specs.Spelling.{magic_bytes, codegen_bytes, symbol_bytes, relation_bytes, occurrence_bytes, record_bytes, RecordSpelling};
ghost use Rattle.ix_record.specs.Value.{IsValidRecord};

use crate::value::{MAGIC_ONE, MAGIC_TWO, Occurrence, RecordValue, Relation, Symbol};
use ix_types::{Format, Memory, Seq, Text};
use ix_wire::{put_text, put_u32};
use std::alloc::Global;

fn put_magic(out: &mut Vec<u8>, format: Format) -> Result<(), Memory>
    ensures { OnOk result (out.new.items ≡ out.old.items ++ magic_bytes format) }
{
    match format {
        Format::One => put_u32(out, MAGIC_ONE),
        Format::Two => put_u32(out, MAGIC_TWO),
    }
}

/// Writes the code generation name, which is no field of format One.
fn put_codegen(out: &mut Vec<u8>, format: Format, codegen: &Text) -> Result<(), Memory>
    ensures { OnOk result (out.new.items ≡ out.old.items ++ codegen_bytes format codegen.now) }
{
    match format {
        Format::One => Ok(()),
        Format::Two => put_text(out, codegen),
    }
}

#[tactic(auto, unfolding(crate::specs::Spelling::symbol_bytes))]
fn put_symbol(out: &mut Vec<u8>, format: Format, symbol: &Symbol) -> Result<(), Memory>
    ensures { OnOk result (out.new.items ≡ out.old.items ++ symbol_bytes format symbol.now) }
{
    put_u32(out, symbol.kind.bits())?;
    put_u32(out, symbol.lang.bits())?;
    put_u32(out, symbol.props.bits())?;
    put_text(out, &symbol.usr)?;
    put_text(out, &symbol.name)?;
    put_codegen(out, format, &symbol.codegen)
}

#[tactic(auto, unfolding(crate::specs::Spelling::relation_bytes))]
fn put_relation(out: &mut Vec<u8>, relation: &Relation) -> Result<(), Memory>
    ensures { OnOk result (out.new.items ≡ out.old.items ++ relation_bytes relation.now) }
{
    put_u32(out, relation.roles.bits())?;
    put_u32(out, relation.symbol)
}

#[tactic(auto, unfolding(crate::specs::Spelling::occurrence_bytes))]
fn put_occurrence(out: &mut Vec<u8>, occurrence: &Occurrence) -> Result<(), Memory>
    requires { length occurrence.now.relations < 2 ^ 32 }
    ensures { OnOk result (out.new.items ≡ out.old.items ++ occurrence_bytes occurrence.now) }
{
    let relations = occurrence.relations.as_slice();
    put_u32(out, occurrence.line)?;
    put_u32(out, occurrence.column)?;
    put_u32(out, occurrence.symbol)?;
    put_u32(out, occurrence.roles.bits())?;
    put_u32(out, relations.len() as u32)?;
    put_relations(out, relations)
}

fn put_relations(out: &mut Vec<u8>, relations: &[Relation]) -> Result<(), Memory>
    ensures { OnOk result (out.new.items ≡ out.old.items ++ flat_map relation_bytes relations.now) }
{
    for relation in relations {
        put_relation(out, relation)?;
    }
    Ok(())
}

fn put_symbols(out: &mut Vec<u8>, format: Format, symbols: &[Symbol]) -> Result<(), Memory>
    ensures { OnOk result (out.new.items ≡ out.old.items ++ flat_map (symbol_bytes format) symbols.now) }
{
    for symbol in symbols {
        put_symbol(out, format, symbol)?;
    }
    Ok(())
}

fn put_occurrences(out: &mut Vec<u8>, occurrences: &[Occurrence]) -> Result<(), Memory>
    requires { All (λ o. length o.relations < 2 ^ 32) occurrences.now }
    ensures { OnOk result (out.new.items ≡ out.old.items ++ flat_map occurrence_bytes occurrences.now) }
{
    for occurrence in occurrences {
        put_occurrence(out, occurrence)?;
    }
    Ok(())
}

/// The one spelling of a valid record.
#[tactic(auto, unfolding(crate::specs::Spelling::record_bytes))]
pub fn encode(alloc: Global, value: &RecordValue) -> Result<Seq<u8>, Memory>
    requires { IsValidRecord value.now }
    ensures { IfOk result (λ bytes. RecordSpelling bytes value.now) }
{
    let symbols = value.symbols.as_slice();
    let occurrences = value.occurrences.as_slice();
    let mut out = Vec::new(alloc);
    put_magic(&mut out, value.format)?;
    put_u32(&mut out, symbols.len() as u32)?;
    put_symbols(&mut out, value.format, symbols)?;
    put_u32(&mut out, occurrences.len() as u32)?;
    put_occurrences(&mut out, occurrences)?;
    Ok(Seq::of(out))
}
