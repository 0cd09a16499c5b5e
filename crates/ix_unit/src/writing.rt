//! Writes a unit, field by field.
ghost use Rattle.std.specs.Prelude.{◌≡◌, ◌++◌, OnOk, IfOk};
ghost use Rattle.std.specs.List.{flat_map};
ghost use Rattle.ix_wire.specs.Spelling.{text_bytes};
ghost use Rattle.ix_unit.specs.Spelling.{flag_bytes, unit_dep_bytes, record_dep_bytes, file_dep_bytes, include_bytes, unit_bytes, UnitSpelling};
ghost use Rattle.ix_unit.specs.Value.{IsValidUnit};

use crate::dependency::{FILE, RECORD, UNIT};
use crate::value::{FileDep, Include, MAGIC, RecordDep, UnitValue};
use ix_types::{FileName, Memory, Seq, Text};
use ix_wire::{put_text, put_u32};
use sha2::{Digest, Sha256};
use std::alloc::Global;

#[tactic(auto, unfolding(crate::specs::Spelling::flag_bytes))]
fn put_flag(out: &mut Vec<u8>, flag: bool) -> Result<(), Memory>
    ensures { OnOk result (out.new.items ≡ out.old.items ++ flag_bytes flag) }
{
    put_u32(out, u32::from(flag))
}

/// Writes a name as a text.
#[tactic(auto)]
fn put_name(out: &mut Vec<u8>, name: &FileName) -> Result<(), Memory>
    ensures { OnOk result (out.new.items ≡ out.old.items ++ text_bytes name.now) }
{
    let digits = name.bytes();
    put_u32(out, digits.len() as u32)?;
    out.extend_from_slice(digits)?;
    Ok(())
}

#[tactic(auto, unfolding(crate::specs::Spelling::unit_dep_bytes))]
fn put_unit_dep(out: &mut Vec<u8>, output: &Text) -> Result<(), Memory>
    ensures { OnOk result (out.new.items ≡ out.old.items ++ unit_dep_bytes output.now) }
{
    put_u32(out, UNIT)?;
    put_text(out, output)
}

#[tactic(auto, unfolding(crate::specs::Spelling::record_dep_bytes))]
fn put_record_dep(out: &mut Vec<u8>, dep: &RecordDep) -> Result<(), Memory>
    ensures { OnOk result (out.new.items ≡ out.old.items ++ record_dep_bytes dep.now) }
{
    put_u32(out, RECORD)?;
    put_text(out, &dep.path)?;
    put_flag(out, dep.system)?;
    put_name(out, &dep.name)
}

#[tactic(auto, unfolding(crate::specs::Spelling::file_dep_bytes))]
fn put_file_dep(out: &mut Vec<u8>, dep: &FileDep) -> Result<(), Memory>
    ensures { OnOk result (out.new.items ≡ out.old.items ++ file_dep_bytes dep.now) }
{
    put_u32(out, FILE)?;
    put_text(out, &dep.path)?;
    put_flag(out, dep.system)
}

#[tactic(auto, unfolding(crate::specs::Spelling::include_bytes))]
fn put_include(out: &mut Vec<u8>, include: &Include) -> Result<(), Memory>
    ensures { OnOk result (out.new.items ≡ out.old.items ++ include_bytes include.now) }
{
    put_text(out, &include.from)?;
    put_u32(out, include.line)?;
    put_text(out, &include.to)
}

fn put_unit_deps(out: &mut Vec<u8>, units: &[Text]) -> Result<(), Memory>
    ensures { OnOk result (out.new.items ≡ out.old.items ++ flat_map unit_dep_bytes units.now) }
{
    for output in units {
        put_unit_dep(out, output)?;
    }
    Ok(())
}

fn put_record_deps(out: &mut Vec<u8>, records: &[RecordDep]) -> Result<(), Memory>
    ensures { OnOk result (out.new.items ≡ out.old.items ++ flat_map record_dep_bytes records.now) }
{
    for dep in records {
        put_record_dep(out, dep)?;
    }
    Ok(())
}

fn put_file_deps(out: &mut Vec<u8>, files: &[FileDep]) -> Result<(), Memory>
    ensures { OnOk result (out.new.items ≡ out.old.items ++ flat_map file_dep_bytes files.now) }
{
    for dep in files {
        put_file_dep(out, dep)?;
    }
    Ok(())
}

fn put_includes(out: &mut Vec<u8>, includes: &[Include]) -> Result<(), Memory>
    ensures { OnOk result (out.new.items ≡ out.old.items ++ flat_map include_bytes includes.now) }
{
    for include in includes {
        put_include(out, include)?;
    }
    Ok(())
}

/// Writes all that stands before the digest.
#[tactic(auto, unfolding(crate::specs::Spelling::unit_bytes))]
fn put_unit(out: &mut Vec<u8>, value: &UnitValue) -> Result<(), Memory>
    requires { IsValidUnit value.now }
    ensures { OnOk result (out.new.items ≡ out.old.items ++ unit_bytes value.now) }
{
    let units = value.units.as_slice();
    let records = value.records.as_slice();
    let files = value.files.as_slice();
    let includes = value.includes.as_slice();
    put_u32(out, MAGIC)?;
    put_text(out, &value.output)?;
    put_text(out, &value.main_file)?;
    put_text(out, &value.module_name)?;
    put_flag(out, value.system)?;
    put_u32(out, (units.len() + records.len() + files.len()) as u32)?;
    put_unit_deps(out, units)?;
    put_record_deps(out, records)?;
    put_file_deps(out, files)?;
    put_u32(out, includes.len() as u32)?;
    put_includes(out, includes)
}

/// The one spelling of a valid unit.
pub fn encode(alloc: Global, value: &UnitValue) -> Result<Seq<u8>, Memory>
    requires { IsValidUnit value.now }
    ensures { IfOk result (λ bytes. UnitSpelling bytes value.now) }
{
    let mut out = Vec::new(alloc);
    put_unit(&mut out, value)?;
    let digest = Sha256::digest(out.as_slice());
    out.extend_from_slice(&digest)?;
    Ok(Seq::of(out))
}
